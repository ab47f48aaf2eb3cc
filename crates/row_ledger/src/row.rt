// A row of ids, and a list of rows.

// Some ids, and how often lists have them. Where none has, there are none, and the place is free.
#[derive(Drop)]
pub(crate) struct Row {
    pub(crate) ids: Vec<u64>,
    pub(crate) uses: u64,
    // Of a free place: the one that becomes free again after it.
    pub(crate) next: usize,
}

// A list by its number, and the places of its rows.
#[derive(Drop)]
pub(crate) struct Listed {
    pub(crate) number: u64,
    pub(crate) rows: Vec<usize>,
}
