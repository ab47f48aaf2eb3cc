// Why a project is not opened.
ghost use Rattle.std.specs.Prelude.{◌≡◌};
ghost use Rattle.editor_recovery.specs.declared.fault.OpenFault.TheVariants.{DiskFault, NoMemory};
ghost use Rattle.editor_recovery.specs.Blocks.{fault_of};

use block_store::BlockFault;
use pcm_base::Failed;
use std::alloc::AllocError;

/// Why a project is not opened, made or whole.
#[derive(Clone, Copy, Debug, PartialEq, Eq, Drop)]
pub enum OpenFault {
    /// No project is there.
    Absent,
    /// A project is there.
    Exists,
    /// The first field that is not as it has to be: its file, its place, the nearest value that its test allows, and
    /// the one that is there.
    Damaged {
        file: u64,
        at: u64,
        want: u128,
        have: u128,
    },
    /// A file is there that is neither the journal nor a block: the least of them.
    Foreign {
        file: u64,
    },
    /// The disk failed. It has counted that.
    DiskFault,
    /// There is no memory.
    NoMemory,
}

impl From<Failed> for OpenFault {
    ghost from_gives = { λ _ e. e ≡ DiskFault };

    fn from(_: Failed) -> OpenFault {
        OpenFault::DiskFault
    }
}

impl From<AllocError> for OpenFault {
    ghost from_gives = { λ _ e. e ≡ NoMemory };

    fn from(_: AllocError) -> OpenFault {
        OpenFault::NoMemory
    }
}

impl From<pcm_base::NoMemory> for OpenFault {
    ghost from_gives = { λ _ e. e ≡ NoMemory };

    fn from(_: pcm_base::NoMemory) -> OpenFault {
        OpenFault::NoMemory
    }
}

impl From<BlockFault> for OpenFault {
    ghost from_gives = { λ f e. e ≡ fault_of f };

    fn from(fault: BlockFault) -> OpenFault {
        match fault {
            BlockFault::DiskFault => OpenFault::DiskFault,
            BlockFault::Damaged { file, found } => OpenFault::Damaged {
                file,
                at: found.at,
                want: found.want,
                have: found.have,
            },
        }
    }
}
