// Checks the blocks of a studio, whole files.
ghost use Rattle.std.specs.Prelude.{◌≡◌, None, Contains};
ghost use Rattle.std.specs.List.{All};
ghost use Rattle.project_state.specs.Meaning.{history_blocks};
ghost use Rattle.editor_core.specs.Core.{core_of};
ghost use Rattle.editor_state.specs.Studios.{IsStudio};
ghost use Rattle.editor_recovery.specs.Checking.{ChecksStudio, ScansAll};

use super::fault::OpenFault;
use block_store::BlockFault;
use disk_model::Store;
use editor_core::Studio;
use pcm_base::BlockRef;
use std::alloc::Global;

/// Reads these blocks, one after another, up to the first that is not whole.
fn scan_all<S: Store>(studio: &mut Studio<S>, blocks: &[BlockRef]) -> Result<(), BlockFault>
    requires studio { IsStudio S.Store (core_of studio.old) }
    requires going { (core_of studio.old).stopped ≡ None }
    requires named { All (Contains (history_blocks (core_of studio.old).history)) blocks.now }
    ensures { ScansAll S.Store (core_of studio.old) blocks.now result (core_of studio.new) }
{
    for i in 0..blocks.len() {
        match studio.scan(blocks[i]) {
            Ok(()) => {}
            Err(fault) => return Err(fault),
        }
    }
    Ok(())
}

/// Reads the file of each block that a point names, by rising id, and compares all of it with what the block's file
/// has to be: its size, its header and the frames of its samples. Nothing is changed. It takes memory for the
/// references of all points.
///
/// It answers how many blocks they are, all whole.
///
/// # Errors
///
/// Damaged: of the first block that is not whole, the first field that differs, its size reported at place 0.
/// DiskFault: the disk failed; the studio goes on. NoMemory: there is no memory for the list of the blocks.
pub fn check<S: Store>(alloc: Global, studio: &mut Studio<S>) -> Result<u64, OpenFault>
    requires studio { IsStudio S.Store (core_of studio.old) }
    requires going { (core_of studio.old).stopped ≡ None }
    ensures { ChecksStudio S.Store (core_of studio.old) result (core_of studio.new) }
{
    let blocks = studio.named_blocks(alloc)?;
    match scan_all(studio, &blocks) {
        Ok(()) => Ok(blocks.len() as u64),
        Err(fault) => Err(fault.into()),
    }
}
