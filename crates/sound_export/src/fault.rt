// Why a mix is not written.
ghost use Rattle.std.specs.Prelude.{◌≡◌};
ghost use Rattle.sound_export.specs.declared.fault.ExportFault.TheVariants as fault;
ghost use Rattle.sound_export.specs.Written.{fault_of_start, refusal_of};

use block_store::BlockFault;
use pcm_base::Refusal;

/// Why a mix is not written.
#[derive(Clone, Copy, Debug, PartialEq, Eq)]
pub enum ExportFault {
    /// There are this many frames: the sizes in the file would pass 32 bits.
    TooLong { frames: u64 },
    /// The disk failed, or a block is damaged.
    Block { fault: BlockFault },
    /// The vault failed.
    VaultFault,
}

/// The fault where a file was not begun.
pub(crate) fn start_fault(why: Refusal) -> ExportFault
    ensures { result ≡ fault_of_start why }
{
    match why {
        Refusal::TooLong { frames } => ExportFault::TooLong { frames },
        _ => ExportFault::VaultFault,
    }
}

impl From<BlockFault> for ExportFault {
    ghost from_gives = { λ why export. export ≡ fault.Block why };

    fn from(fault: BlockFault) -> ExportFault {
        ExportFault::Block { fault }
    }
}

impl From<ExportFault> for Refusal {
    ghost from_gives = { λ fault reason. reason ≡ refusal_of fault };

    fn from(fault: ExportFault) -> Refusal {
        match fault {
            ExportFault::TooLong { frames } => Refusal::TooLong { frames },
            ExportFault::Block { fault } => Refusal::from(fault),
            ExportFault::VaultFault => Refusal::VaultFault,
        }
    }
}
