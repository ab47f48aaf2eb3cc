// Why a case does not pass.
use pcm_base::NoMemory;
use std::alloc::{AllocError, AllocFailed};

/// Why a case does not pass.
#[derive(Drop)]
pub enum Fault {
    /// There is no memory for it.
    NoMemory,
    /// The line of this number is not understood.
    Unread { line: u32 },
    /// What the line of this number says does not hold: this came.
    Wrong { line: u32, came: String },
    /// It is to be played again, on a disk whose calls of these numbers fail.
    Again { fails: Vec<u64> },
}

impl From<AllocError> for Fault {
    fn from(_error: AllocError) -> Fault {
        Fault::NoMemory
    }
}

impl<T: Drop> From<AllocFailed<T>> for Fault {
    fn from(_failed: AllocFailed<T>) -> Fault {
        Fault::NoMemory
    }
}

impl From<NoMemory> for Fault {
    fn from(_error: NoMemory) -> Fault {
        Fault::NoMemory
    }
}
