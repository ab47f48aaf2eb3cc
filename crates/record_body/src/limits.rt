// What bounds the numbers of a body.
ghost use Rattle.std.specs.Prelude.{◌≡◌};
ghost use Rattle.record_body.specs.declared.limits.BadBody.TheVariants as bad;

use pcm_base::NoMemory;
use project_journal::Damaged;
use std::alloc::{AllocError, AllocFailed};

/// What comes before a body in the journal.
#[derive(Clone, Copy, Debug, PartialEq, Eq)]
pub struct Before {
    /// The place of the body's first byte in the file.
    pub at: u64,
    /// The next block of the record before; 16 where there is none.
    pub next_block: u64,
    /// The next track of the record before; 1 where there is none.
    pub next_track: u64,
    /// How many records come before.
    pub commits: u64,
}

/// Why a body is not read.
#[derive(Clone, Copy, Debug, PartialEq, Eq)]
pub enum BadBody {
    /// There is no memory for what it says.
    NoMemory,
    /// The first field that is not as it has to be.
    Damaged { fault: Damaged },
}

impl From<Damaged> for BadBody {
    ghost from_gives = { λ d e. e ≡ bad.Damaged d };

    fn from(fault: Damaged) -> BadBody {
        BadBody::Damaged { fault }
    }
}

impl From<AllocError> for BadBody {
    ghost from_gives = { λ _ e. e ≡ bad.NoMemory };

    fn from(_: AllocError) -> BadBody {
        BadBody::NoMemory
    }
}

impl<T: Drop> From<AllocFailed<T>> for BadBody {
    ghost from_gives = { λ _ e. e ≡ bad.NoMemory };

    fn from(_failed: AllocFailed<T>) -> BadBody {
        BadBody::NoMemory
    }
}

impl From<NoMemory> for BadBody {
    ghost from_gives = { λ _ e. e ≡ bad.NoMemory };

    fn from(_: NoMemory) -> BadBody {
        BadBody::NoMemory
    }
}

/// The bounds of a project's tracks, and the place of the body in the file.
#[derive(Clone, Copy)]
pub(crate) struct Limits {
    pub(crate) base: u64,
    pub(crate) block_size: u32,
    pub(crate) next_block: u64,
    pub(crate) next_track: u64,
}
