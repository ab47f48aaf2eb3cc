// Which block's header was compared last.
ghost use Rattle.std.specs.Prelude.{◌≡◌, List, ℤ, length, IsTrue, IsOkUnless, Some, OnOk, IfErr};
ghost use Rattle.disk_model.specs.Disk.{bytes_of};
ghost use Rattle.disk_model.specs.Frames.{Kept};
ghost use Rattle.sample_block.specs.Spelling.{IsBlock};
ghost use Rattle.sample_block.specs.Blocks.{blocks};
ghost use Rattle.block_store.specs.declared.fault.BlockFault.TheVariants as fault;
ghost use Rattle.block_store.specs.Reads.{Counted, HasHeader, IsCompared, IsReadFault};

use super::fault::BlockFault;
use super::parts::compare_header;
use disk_model::Store;
use pcm_base::BlockRef;

/// Compares the header of a block as `compare_header` does, unless it is the one that was compared last, `None` before
/// the first: of a run of stretches of one block the header is read once. The disk has not changed since.
pub fn compare_once<S: Store>(
    store: &mut S,
    last: &mut Option<BlockRef>,
    block: BlockRef,
) -> Result<(), BlockFault>
    requires block { IsBlock block.id block.len }
    requires compared { IsTrue (S.tells store.old) → IsCompared (S.reads store.old) last.old }
    ensures compared { IsTrue (S.tells store.old) → IsCompared (S.reads store.old) last.new }
    ensures last { OnOk result (last.new ≡ Some block) }
    ensures header { IsTrue (S.tells store.old)
        → OnOk result (HasHeader block.id block.len (bytes_of (S.reads store.old block.id))) }
    ensures valid { (xs : List ℤ) → IsTrue (S.tells store.old) → blocks (S.reads store.old) block.id ≡ Some xs
        → length xs ≡ block.len
        → IsOkUnless result fault.DiskFault }
    ensures damaged { IsTrue (S.tells store.old)
        → IfErr result (λ e. IsReadFault block.id block.len 16 (bytes_of (S.reads store.old block.id)) e) }
    ensures kept { Kept S.Store store.old store.new }
    ensures faults { Counted result (S.read_fault_count store.old) (S.read_fault_count store.new) }
{
    if *last == Some(block) {
        return Ok(());
    }
    if let Err(fault) = compare_header(store, block) {
        return Err(fault);
    }
    *last = Some(block);
    Ok(())
}
