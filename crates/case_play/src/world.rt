// What a case is played on: a disk and sounds in memory, what is set up for the next call, and what the last one left.
use super::gates::Hold;
use super::program::Left;
use super::sounds::Sound;
use case_text::{Fault, Line};
use memory_disk::RamStore;
use pcm_base::Numbers;
use std::alloc::Global;
use std::mem;

/// The numbers of the calls of each device that fail, in the next call of the program.
#[derive(Drop)]
pub(crate) struct Failing {
    pub(crate) script: Vec<u64>,
    pub(crate) output: Vec<u64>,
    pub(crate) vault: Vec<u64>,
    pub(crate) mic: Vec<u64>,
    pub(crate) speaker: Vec<u64>,
}

impl Failing {
    fn new(alloc: Global) -> Failing {
        Failing {
            script: Vec::new(alloc),
            output: Vec::new(alloc),
            vault: Vec::new(alloc),
            mic: Vec::new(alloc),
            speaker: Vec::new(alloc),
        }
    }
}

/// The next call of the program: its line, if it came, its script, and what it is to print and to end with.
#[derive(Drop)]
pub(crate) struct Asked<'a> {
    pub(crate) call: Option<Line<'a>>,
    pub(crate) script: Vec<u8>,
    pub(crate) wanted: String,
    pub(crate) status: u8,
    /// How many bytes a read of the script gives at most, and a write of the output takes.
    pub(crate) piece: usize,
    pub(crate) failing: Failing,
    /// The bytes of the microphone. Where there is none, its first read fails.
    pub(crate) mic: Option<Vec<u8>>,
    /// For how many bytes the speaker has room.
    pub(crate) room: usize,
    /// How many bytes each sound is said to have, if it is not what it has.
    pub(crate) said: Option<u64>,
    /// Where its threads are held.
    pub(crate) holds: Vec<Hold>,
}

impl<'a> Asked<'a> {
    pub(crate) fn new(alloc: Global) -> Asked<'a> {
        Asked {
            call: None,
            script: Vec::new(alloc),
            wanted: String::new(alloc),
            status: 0,
            piece: 65_536,
            failing: Failing::new(alloc),
            mic: None,
            room: 65_536,
            said: None,
            holds: Vec::new(alloc),
        }
    }

    /// Takes the places where threads are held.
    pub(crate) fn take_holds(&mut self, alloc: Global) -> Vec<Hold> {
        mem::replace(&mut self.holds, Vec::new(alloc))
    }
}

/// What a call may leave.
#[derive(Clone, Copy)]
pub(crate) enum Manner {
    /// What the case says.
    Strict,
    /// Less, since the disk stops: status 4, and no line `ok` after the first line that differs.
    Stopping,
    /// Anything.
    Free,
}

/// What a case is played on.
#[derive(Drop)]
pub(crate) struct World<'a> {
    pub(crate) alloc: Global,
    pub(crate) store: RamStore,
    /// The numbers of the calls of the disk that fail, from its beginning.
    pub(crate) fails: Vec<u64>,
    pub(crate) sounds: Vec<Sound>,
    /// What stands for `@` in what is printed.
    pub(crate) text: &'a str,
    pub(crate) asked: Asked<'a>,
    pub(crate) left: Option<Left>,
    /// How many calls of the disk the last call made, if there was one.
    pub(crate) calls: Option<u64>,
    /// Whether each thread that was to be held in the last call was held, and none in vain.
    pub(crate) held: bool,
    /// The commit number of the last line `ok C` or `end C` that was printed.
    pub(crate) printed: Option<u64>,
    pub(crate) manner: Manner,
    /// Whether a call left something else than the case says.
    pub(crate) differs: bool,
}

// A disk without files, whose calls of these numbers fail.
fn new_disk(alloc: Global, fails: &[u64]) -> Result<RamStore, Fault> {
    let fails = Numbers::new(Vec::from_slice(alloc, fails)?);
    let store = RamStore::new(alloc, 1_024, 1_048_576, 8_192, fails)?;
    Ok(store)
}

impl<'a> World<'a> {
    /// A world without files and sounds.
    pub(crate) fn new(alloc: Global) -> Result<World<'a>, Fault> {
        Ok(World {
            alloc,
            store: new_disk(alloc, &[])?,
            fails: Vec::new(alloc),
            sounds: Vec::new(alloc),
            text: "",
            asked: Asked::new(alloc),
            left: None,
            calls: None,
            held: false,
            printed: None,
            manner: Manner::Strict,
            differs: false,
        })
    }

    /// Begins anew without files and sounds. The calls of its disk of these numbers fail.
    pub(crate) fn begin(&mut self, fails: &[u64]) -> Result<(), Fault> {
        self.fails = Vec::from_slice(self.alloc, fails)?;
        self.begin_on(new_disk(self.alloc, fails)?);
        Ok(())
    }

    /// Begins anew with the files of this disk, without sounds.
    pub(crate) fn begin_on(&mut self, store: RamStore) {
        self.store = store;
        self.sounds = Vec::new(self.alloc);
        self.asked = Asked::new(self.alloc);
        self.text = "";
        self.forget();
    }

    // Forgets the last call.
    fn forget(&mut self) {
        self.left = None;
        self.calls = None;
        self.held = false;
        self.printed = None;
        self.manner = Manner::Strict;
        self.differs = false;
    }

    /// Takes the disk. One that has no room stays in its place.
    pub(crate) fn take_store(&mut self) -> Result<RamStore, Fault> {
        let none = Numbers::new(Vec::new(self.alloc));
        let empty = RamStore::new(self.alloc, 0, 0, 0, none)?;
        Ok(mem::replace(&mut self.store, empty))
    }
}
