// Parts of files that are read past the cache in one call of the store.
ghost use Rattle.std.specs.Prelude.{◌≡◌, ◌↔◌, true, length, IsTrue, IfOk, IfErr};
ghost use Rattle.disk_model.specs.Frames.{Kept};
ghost use Rattle.disk_model.specs.Parts.{AllThere, AreParts, filled};
ghost use Rattle.block_store.specs.declared.fault.BlockFault.TheVariants as fault;
ghost use Rattle.block_store.specs.Reads.{Counted};

use block_store::BlockFault;
use disk_model::{Part, Store};

/// Reads parts of files, as `read_parts` of the store does.
pub(crate) fn read_together<S: Store>(
    store: &mut S,
    parts: &[Part],
    out: &mut [i16],
) -> Result<bool, BlockFault>
    requires { AreParts 0 (length out.old) parts.now }
    ensures there { IsTrue (S.tells store.old)
        → IfOk result (λ all. (all ≡ true) ↔ AllThere (S.reads store.old) parts.now) }
    ensures read { IsTrue (S.tells store.old)
        → IfOk result (λ all. all ≡ true → out.new ≡ filled (S.reads store.old) parts.now out.old) }
    ensures fault { IfErr result (λ e. e ≡ fault.DiskFault) }
    ensures kept { Kept S.Store store.old store.new }
    ensures faults { Counted result (S.read_fault_count store.old) (S.read_fault_count store.new) }
{
    match store.read_parts(parts, out) {
        Ok(all) => Ok(all),
        Err(_) => Err(BlockFault::DiskFault),
    }
}
