// Why a block is not made.
ghost use Rattle.std.specs.Prelude.{◌≡◌};
ghost use Rattle.block_writer.specs.Brought.{bring_refusal};
ghost use Rattle.block_writer.specs.Making.{make_refusal};

use block_store::BlockFault;
use pcm_base::{Refusal, WavFault};

/// Why samples that a command brings did not come.
#[derive(Clone, Copy, Debug, PartialEq, Eq)]
pub enum BringFault {
    /// The vault that they are in failed. It has counted that.
    Vault,
    /// The vault gave `have` of the `want` bytes that it said it has.
    Short { want: u64, have: u64 },
}

impl From<BringFault> for Refusal {
    ghost from_gives = { λ why reason. reason ≡ bring_refusal why };

    fn from(why: BringFault) -> Refusal {
        match why {
            BringFault::Vault => Refusal::VaultFault,
            BringFault::Short { want, have } => Refusal::BadWav {
                fault: WavFault::Truncated { want, have },
            },
        }
    }
}

/// Why a block is not made.
#[derive(Clone, Copy, Debug, PartialEq, Eq)]
pub enum MakeFault {
    /// A piece could not be read. The disk is as it was.
    Read { fault: BlockFault },
    /// Samples that the command brings did not come. The disk is as it was.
    Bring { fault: BringFault },
    /// The disk failed as the block was written, and has counted that. The file may be there, whole or in part.
    Put,
}

impl From<MakeFault> for Refusal {
    ghost from_gives = { λ why reason. reason ≡ make_refusal why };

    fn from(why: MakeFault) -> Refusal {
        match why {
            MakeFault::Read { fault } => Refusal::from(fault),
            MakeFault::Bring { fault } => Refusal::from(fault),
            MakeFault::Put => Refusal::DiskFault,
        }
    }
}
