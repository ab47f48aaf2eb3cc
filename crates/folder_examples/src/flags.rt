// What a test knows to wait for a sync, of files whose calls are watched.
use std::cell::Cell;

/// How many files are known: those of the lowest numbers.
pub(crate) const FILES: usize = 8;

/// What lies at a path.
#[derive(Clone, Copy)]
pub(crate) enum Place {
    /// A file of a project, by its number.
    File(usize),
    /// The folder of these files.
    Project,
    /// Something else.
    Other,
}

/// Of each file whether it was written since its sync, and whether it was made or removed since its folder's.
#[derive(Drop)]
pub(crate) struct Flags {
    data: Cell<[bool; FILES]>,
    entries: Cell<[bool; FILES]>,
}

// What lies at the path, by its words.
pub(crate) fn place_at(path: &str) -> Place {
    let Some((folder, name)) = path.rsplit_once('/') else {
        return Place::Other;
    };
    if !folder.ends_with("/project") {
        return Place::Other;
    }
    if name.is_empty() {
        return Place::Project;
    }
    match name.parse::<usize>() {
        Ok(number) => Place::File(number),
        Err(_) => Place::Other,
    }
}

fn set(flags: &Cell<[bool; FILES]>, place: Place, value: bool) {
    if let Place::File(number) = place {
        if number < FILES {
            let mut all = flags.get();
            all[number] = value;
            flags.set(all);
        }
    }
}

impl Flags {
    /// Nothing waits.
    pub(crate) fn new() -> Flags {
        Flags {
            data: Cell::new([false; FILES]),
            entries: Cell::new([false; FILES]),
        }
    }

    /// It is written.
    pub(crate) fn write(&self, place: Place) {
        set(&self.data, place, true);
    }

    /// It is made, or removed.
    pub(crate) fn make_or_remove(&self, place: Place) {
        set(&self.data, place, false);
        set(&self.entries, place, true);
    }

    /// It was synced.
    pub(crate) fn sync(&self, place: Place) {
        match place {
            Place::File(_) => set(&self.data, place, false),
            Place::Project => self.entries.set([false; FILES]),
            Place::Other => {}
        }
    }

    /// Whether nothing of the file waits for a sync.
    pub(crate) fn is_synced(&self, file: usize) -> bool {
        file < FILES && !self.data.get()[file] && !self.entries.get()[file]
    }
}
