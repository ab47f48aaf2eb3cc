// An id and its count.
ghost use Rattle.std.specs.Prelude.{◌≡◌, Some};
ghost use Rattle.block_ledger.specs.Counts.{one_more, one_less, free_id};
ghost use Rattle.block_ledger.specs.Entries.{is_kept, is_named};

// The place of an id, which keeps its place where it is taken out: it has no count then.
#[derive(Clone, Copy, Debug, Drop)]
pub(crate) struct Entry {
    pub(crate) id: u64,
    pub(crate) count: Option<u128>,
}

impl Entry {
    // The id, where its count is 0.
    pub(crate) fn free_id(&self) -> Option<u64>
        ensures { result ≡ free_id self.now.id self.now.count }
    {
        match self.count {
            Some(0) => Some(self.id),
            _ => None,
        }
    }

    // Whether the id was not taken out.
    pub(crate) fn is_kept(&self) -> bool
        ensures { result ≡ is_kept self.now }
    {
        self.count.is_some()
    }

    // Whether the id occurs.
    pub(crate) fn is_named(&self) -> bool
        ensures { result ≡ is_named self.now }
    {
        self.count.unwrap_or(0) > 0
    }
}

// A count after one occurrence more.
pub(crate) fn raised(count: Option<u128>) -> Option<u128>
    ensures { result ≡ Some (one_more count) }
{
    match count {
        Some(n) => Some(n.saturating_add(1)),
        None => Some(1),
    }
}

// And after one less.
pub(crate) fn lowered(count: Option<u128>) -> Option<u128>
    ensures { result ≡ Some (one_less count) }
{
    match count {
        Some(n) => Some(n.saturating_sub(1)),
        None => Some(0),
    }
}
