// What a test wants of calls of the system, and what was counted of them.
ghost use Rattle.std.specs.Prelude.{◌<◌, IfSome};

use crate::flags::Flags;
use std::cell::Cell;
use std::fs::Metadata;
use std::io::{self, ErrorKind};

/// A kind of call of the system.
#[derive(Clone, Copy, Debug)]
pub(crate) enum Call {
    /// A file or a folder is opened, or a file is made.
    Open,
    /// What stands at a path, or how long an open file is, is asked.
    Look,
    /// A folder is opened to be listed.
    List,
    /// Bytes or names are read.
    Read,
    /// Bytes are written.
    Write,
    /// An open file is made longer or shorter.
    Resize,
    /// A file is synced.
    SyncFile,
    /// A folder is synced.
    SyncFolder,
    /// A file is removed.
    Remove,
    /// A folder is made.
    MakeFolder,
}

/// What a test wants of the calls, and what was counted.
#[derive(Drop)]
pub(crate) struct Watch {
    /// Calls of this kind fail.
    pub(crate) fails: Cell<Option<Call>>,
    // How many of them are served before.
    served: Cell<u32>,
    /// How they fail.
    pub(crate) kind: Cell<ErrorKind>,
    /// How many bytes a read or a write moves at most.
    pub(crate) most: Cell<usize>,
    /// The length that is reported of each file, in place of its own.
    pub(crate) told: Cell<Option<u64>>,
    /// How many files and folders may be open at once.
    pub(crate) most_open: Cell<u32>,
    /// How many are.
    pub(crate) open: Cell<u32>,
    /// What waits for a sync.
    pub(crate) flags: Flags,
    /// How many calls there were: openings, looks, writes, syncs of files and of folders, and removals.
    counted: Cell<[u32; 6]>,
}

impl Watch {
    /// All calls are served.
    pub(crate) fn new() -> Watch {
        Watch {
            fails: Cell::new(None),
            served: Cell::new(0),
            kind: Cell::new(ErrorKind::Other),
            most: Cell::new(4096),
            told: Cell::new(None),
            most_open: Cell::new(u32::MAX),
            open: Cell::new(0),
            flags: Flags::new(),
            counted: Cell::new([0; 6]),
        }
    }

    /// From now on calls of this kind fail, after `served` of them.
    pub(crate) fn fail(&self, call: Call, served: u32) {
        self.fails.set(Some(call));
        self.served.set(served);
    }

    /// What was counted since this was asked last.
    pub(crate) fn count(&self) -> [u32; 6] {
        self.counted.replace([0; 6])
    }

    // Whether calls of this kind fail from now on, or after those that are served.
    fn is_to_fail(&self, call: Call) -> bool {
        match self.fails.get() {
            Some(fails) => number_of(fails) == number_of(call),
            None => false,
        }
    }

    /// Counts a call, and fails where that is wanted.
    pub(crate) fn meet(&self, call: Call) -> io::Result<()> {
        if let Some(place) = place_of(call) {
            let mut counted = self.counted.get();
            counted[place] = counted[place].saturating_add(1);
            self.counted.set(counted);
        }
        if !self.is_to_fail(call) {
            return Ok(());
        }
        if self.served.get() > 0 {
            self.served.set(self.served.get().saturating_sub(1));
            return Ok(());
        }
        Err(io::Error::from(self.kind.get()))
    }

    /// Counts an opening, and fails where that is wanted, or too much is open.
    pub(crate) fn meet_opening(&self) -> io::Result<()> {
        self.meet(Call::Open)?;
        if self.open.get() < self.most_open.get() {
            Ok(())
        } else {
            Err(io::Error::from(ErrorKind::Other))
        }
    }

    /// What is reported of a file, by what is so.
    pub(crate) fn tell(&self, metadata: Metadata) -> Metadata {
        match self.told.get() {
            Some(length) => Metadata::of_file(length),
            None => metadata,
        }
    }
}

// The kind of a call as a number of its own.
fn number_of(call: Call) -> u32 {
    match call {
        Call::Open => 0,
        Call::Look => 1,
        Call::List => 2,
        Call::Read => 3,
        Call::Write => 4,
        Call::Resize => 5,
        Call::SyncFile => 6,
        Call::SyncFolder => 7,
        Call::Remove => 8,
        Call::MakeFolder => 9,
    }
}

// Where the calls of a kind are counted.
fn place_of(call: Call) -> Option<usize>
    ensures { IfSome result (λ place. place < 6) }
{
    match call {
        Call::Open => Some(0),
        Call::Look => Some(1),
        Call::Write => Some(2),
        Call::SyncFile => Some(3),
        Call::SyncFolder => Some(4),
        Call::Remove => Some(5),
        _ => None,
    }
}
