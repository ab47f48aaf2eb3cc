// Files of blocks are compared with what they have to be.
ghost use Rattle.std.specs.Prelude.{◌≡◌, ◌≤◌, ℕ, length, vec_capacity, IsTrue, IsOkUnless, ℤ, List, Some, None, OnOk};
ghost use Rattle.std.specs.Prelude.{IfErr};
ghost use Rattle.pcm_base.specs.declared.limits.TheConstants.{MAX_BLOCK_SAMPLES};
ghost use Rattle.disk_model.specs.Disk.{bytes_of};
ghost use Rattle.disk_model.specs.Frames.{Kept};
ghost use Rattle.sample_block.specs.Spelling.{size_of, IsBlock, IsSpelled};
ghost use Rattle.sample_block.specs.Faults.{damage_of, samples_in, size_difference};
ghost use Rattle.sample_block.specs.Blocks.{blocks};
ghost use Rattle.block_store.specs.declared.fault.BlockFault.TheVariants as fault;
ghost use Rattle.block_store.specs.Reads.{Counted};
ghost use Rattle.block_store.specs.Checks.{Checks, IsWhole};

use super::fault::BlockFault;
use super::parts::{read_part, wrong_size};
use disk_model::Store;
use pcm_base::BlockRef;
use sample_block::{check, file_size};

/// Whether the file of a block has the size that its block asks. An absent file has none. It takes no memory.
pub fn check_size<S: Store>(store: &mut S, block: BlockRef) -> Result<(), BlockFault>
    requires { IsBlock block.id block.len }
    // The size is the first that can differ.
    ensures checked { IsTrue (S.tells store.old)
        → Checks block.id (size_difference block.len (bytes_of (S.reads store.old block.id)) None) result }
    ensures sized { IsTrue (S.tells store.old)
        → OnOk result (length (bytes_of (S.reads store.old block.id)) ≡ size_of block.len) }
    ensures kept { Kept S.Store store.old store.new }
    ensures faults { Counted result (S.read_fault_count store.old) (S.read_fault_count store.new) }
{
    let size = match store.size(block.id) {
        Ok(Some(size)) => size,
        Ok(None) => 0,
        Err(_) => return Err(BlockFault::DiskFault),
    };
    test_size(block, size)
}

/// Whether this is the size that the block asks.
fn test_size(block: BlockRef, size: u64) -> Result<(), BlockFault>
    requires { block.len ≤ MAX_BLOCK_SAMPLES }
    ensures checked { (bytes : List ℕ) → size ≡ length bytes
        → Checks block.id (size_difference block.len bytes None) result }
    ensures sized { OnOk result (size ≡ size_of block.len) }
    ensures told { IfErr result (λ e. e ≡ fault.Damaged block.id
        (record { at = 0; want = size_of block.len; have = size })) }
{
    if size != file_size(block.len as usize) as u64 {
        return Err(wrong_size(block, size));
    }
    Ok(())
}

/// Makes the buffer the bytes of the file of a block, which has the size that the block asks.
fn load<S: Store>(store: &mut S, block: BlockRef, buffer: &mut Vec<u8>) -> Result<(), BlockFault>
    requires len { block.len ≤ MAX_BLOCK_SAMPLES }
    requires room { size_of block.len ≤ vec_capacity buffer.old }
    ensures bytes { IsTrue (S.tells store.old) → length (bytes_of (S.reads store.old block.id)) ≡ size_of block.len
        → OnOk result (buffer.new.items ≡ bytes_of (S.reads store.old block.id)) }
    ensures refused { IsTrue (S.tells store.old)
        → length (bytes_of (S.reads store.old block.id)) ≡ size_of block.len → IsOkUnless result fault.DiskFault }
    ensures kept { Kept S.Store store.old store.new }
    ensures faults { Counted result (S.read_fault_count store.old) (S.read_fault_count store.new) }
    ensures capacity { vec_capacity buffer.old ≤ vec_capacity buffer.new }
{
    match buffer.resize_with(file_size(block.len as usize), || 0) {
        Ok(()) => {}
        Err(_) => unreachable!(),
    }
    read_part(store, block, 0, buffer.as_mut_slice())
}

/// Whether these bytes are the file of a block.
fn compare(bytes: &[u8], block: BlockRef) -> Result<(), BlockFault>
    requires { IsBlock block.id block.len }
    ensures checked { Checks block.id (damage_of block.id block.len bytes.now) result }
    ensures spelled { OnOk result (IsSpelled block.id (samples_in bytes.now 16 block.len) bytes.now) }
    ensures count { (count : ℕ) → Counted result count count }
{
    match check(bytes, block.id, block.len) {
        Ok(()) => Ok(()),
        Err(found) => Err(BlockFault::Damaged {
            file: block.id,
            found,
        }),
    }
}

// As `check_block`, whose other clauses are laws on what these say.
fn check_file<S: Store>(
    store: &mut S,
    block: BlockRef,
    buffer: &mut Vec<u8>,
) -> Result<(), BlockFault>
    requires block { IsBlock block.id block.len }
    requires room { size_of block.len ≤ vec_capacity buffer.old }
    ensures checked { IsTrue (S.tells store.old)
        → Checks block.id (damage_of block.id block.len (bytes_of (S.reads store.old block.id))) result }
    ensures spelled { IsTrue (S.tells store.old)
        → OnOk result (IsSpelled block.id (samples_in (bytes_of (S.reads store.old block.id)) 16 block.len)
        (bytes_of (S.reads store.old block.id))) }
    ensures kept { Kept S.Store store.old store.new }
    ensures faults { Counted result (S.read_fault_count store.old) (S.read_fault_count store.new) }
    ensures capacity { vec_capacity buffer.old ≤ vec_capacity buffer.new }
{
    if let Err(fault) = check_size(store, block) {
        return Err(fault);
    }
    if let Err(fault) = load(store, block, buffer) {
        return Err(fault);
    }
    compare(buffer, block)
}

/// Whether the disk has a block whole: reads its whole file into the buffer, and compares all of it. The buffer has
/// room for the file, and no other memory is taken. The error is the first that differs: the size of the file, at 0,
/// then magic, id, count and the fields of the frames, in the order of the file.
pub fn check_block<S: Store>(
    store: &mut S,
    block: BlockRef,
    buffer: &mut Vec<u8>,
) -> Result<(), BlockFault>
    requires block { IsBlock block.id block.len }
    requires room { size_of block.len ≤ vec_capacity buffer.old }
    // Ok is for a block of the disk, of this many samples, and for such a block nothing but the disk refuses.
    ensures whole { IsTrue (S.tells store.old) → OnOk result (IsWhole (S.reads store.old) block.id block.len) }
    ensures valid { IsTrue (S.tells store.old) → IsWhole (S.reads store.old) block.id block.len
        → IsOkUnless result fault.DiskFault }
    // A fault is the first field that differs.
    ensures checked { IsTrue (S.tells store.old)
        → Checks block.id (damage_of block.id block.len (bytes_of (S.reads store.old block.id))) result }
    ensures kept { Kept S.Store store.old store.new }
    ensures faults { Counted result (S.read_fault_count store.old) (S.read_fault_count store.new) }
    ensures capacity { vec_capacity buffer.old ≤ vec_capacity buffer.new }
{
    check_file(store, block, buffer)
}
