// Files of blocks are removed, and their entries before them.
ghost use Rattle.std.specs.Prelude.{◌≡◌, ◌^◌, ◌<◌, ◌≤◌, IsTrue, None, OnOk, IsOkUnless};
ghost use Rattle.pcm_base.specs.declared.limits.TheConstants.{COUNTER_LIMIT, FIRST_BLOCK};
ghost use Rattle.pcm_base.specs.Causes.{HasCause};
ghost use Rattle.disk_model.specs.Disk.{RemoveStep};
ghost use Rattle.disk_model.specs.Frames.{Changed};
ghost use Rattle.block_store.specs.declared.fault.BlockFault.TheVariants.{DiskFault};
ghost use Rattle.block_cache.specs.Caches.{IsCacheOf, IsCacheWithout};

use super::cache::Cache;
use block_store::{BlockFault, remove_block};
use disk_model::Store;

/// Takes the entries of a block out of the cache and then removes its file, as `remove_block` does: it does not wait
/// until the file is gone. It takes no memory.
pub fn remove_block_cached<S: Store>(
    store: &mut S,
    cache: &mut Cache,
    id: u64,
) -> Result<(), BlockFault>
    requires low { FIRST_BLOCK ≤ id }
    requires high { id < COUNTER_LIMIT }
    // After any answer the block has no entry left, and the others are there. What was right of the files is right.
    ensures dropped { IsCacheWithout id cache.old cache.new }
    ensures right { IsTrue (S.tells store.old) → IsCacheOf (S.reads store.old) cache.old
        → IsCacheOf (S.reads store.new) cache.new }
    ensures gone { IsTrue (S.tells store.old) → OnOk result (S.reads store.new id ≡ None) }
    // A stop leaves what it could leave before, or that without this file.
    ensures changed { Changed S.Store (RemoveStep id) (record { files = 0; bytes = 0; calls = 1 }) store.old store.new }
    ensures fault { IsOkUnless result DiskFault }
    ensures faults { HasCause (S.change_fault_count store.old) (S.change_fault_count store.new) result }
    ensures read_faults { S.read_fault_count store.new ≡ S.read_fault_count store.old }
{
    cache.drop_entries(id);
    remove_block(store, id)
}
