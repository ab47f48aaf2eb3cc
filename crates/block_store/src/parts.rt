// Parts of a block's file are read, and its header is compared.
ghost use Rattle.std.specs.Prelude.{◌≡◌, ◌^◌, ◌+◌, ◌<◌, ◌≤◌, true, false, ℕ, ℤ, List, length, take, drop, IsTrue};
ghost use Rattle.std.specs.Prelude.{IsOkUnless, Some, None, IfOk, OnOk, IfErr};
ghost use Rattle.pcm_base.specs.declared.limits.TheConstants.{COUNTER_LIMIT, MAX_BLOCK_SAMPLES};
ghost use Rattle.pcm_base.specs.Causes.{HasCause};
ghost use Rattle.disk_model.specs.Disk.{bytes_of};
ghost use Rattle.disk_model.specs.Frames.{Kept};
ghost use Rattle.sample_block.specs.Spelling.{size_of, IsBlock};
ghost use Rattle.sample_block.specs.Blocks.{blocks};
ghost use Rattle.block_store.specs.declared.fault.BlockFault.TheVariants as fault;
ghost use Rattle.block_store.specs.Reads.{CountedBy, Counted, HasHeader, IsEarly, IsReadFault};

use super::fault::BlockFault;
use disk_model::Store;
use pcm_base::{BlockRef, Failed};
use sample_block::{Damaged, check_header, file_size};

/// Fills the buffer from a place on, and says whether the file had all of it.
fn fill<S: Store>(store: &mut S, file: u64, at: u64, buf: &mut [u8]) -> Result<bool, Failed>
    requires within { at + length buf.old ≤ COUNTER_LIMIT }
    requires some { 0 < length buf.old }
    ensures whole { IsTrue (S.tells store.old) → IfOk result (λ all. all ≡ true
        → (at + length buf.old ≤ length (bytes_of (S.reads store.old file)))
        × (buf.new ≡ take (length buf.old) (drop at (bytes_of (S.reads store.old file))))) }
    ensures short { IsTrue (S.tells store.old) → IfOk result (λ all. all ≡ false
        → length (bytes_of (S.reads store.old file)) < at + length buf.old) }
    ensures kept { Kept S.Store store.old store.new }
    ensures faults { HasCause (S.read_fault_count store.old) (S.read_fault_count store.new) result }
{
    let wanted = buf.len();
    match store.read_at(file, at, buf) {
        Ok(n) => Ok(n == wanted),
        Err(failed) => Err(failed),
    }
}

/// The fault of a file that ends before a place of it is reached.
fn ends_early<S: Store>(store: &mut S, block: BlockRef) -> BlockFault
    requires { block.len ≤ MAX_BLOCK_SAMPLES }
    ensures damaged { (end : ℕ) → IsTrue (S.tells store.old) → length (bytes_of (S.reads store.old block.id)) < end
        → IsEarly block.id block.len end (bytes_of (S.reads store.old block.id)) result }
    ensures kept { Kept S.Store store.old store.new }
    ensures faults { CountedBy result (S.read_fault_count store.old) (S.read_fault_count store.new) }
{
    match store.size(block.id) {
        Ok(Some(size)) => wrong_size(block, size),
        Ok(None) => wrong_size(block, 0),
        Err(_) => BlockFault::DiskFault,
    }
}

pub(crate) fn wrong_size(block: BlockRef, size: u64) -> BlockFault
    requires { block.len ≤ MAX_BLOCK_SAMPLES }
    ensures { result ≡ fault.Damaged block.id (record { at = 0; want = size_of block.len; have = size }) }
{
    BlockFault::Damaged {
        file: block.id,
        found: Damaged {
            at: 0,
            want: file_size(block.len as usize) as u128,
            have: size as u128,
        },
    }
}

/// Fills the buffer from a place on, all of which the file of the block has.
pub(crate) fn read_part<S: Store>(
    store: &mut S,
    block: BlockRef,
    at: u64,
    buf: &mut [u8],
) -> Result<(), BlockFault>
    requires len { block.len ≤ MAX_BLOCK_SAMPLES }
    requires within { at + length buf.old ≤ size_of block.len }
    requires some { 0 < length buf.old }
    ensures ok { IsTrue (S.tells store.old)
        → OnOk result ((at + length buf.old ≤ length (bytes_of (S.reads store.old block.id)))
        × (buf.new ≡ take (length buf.old) (drop at (bytes_of (S.reads store.old block.id))))) }
    ensures damaged { IsTrue (S.tells store.old)
        → IfErr result (λ e. IsEarly block.id block.len (at + length buf.old) (bytes_of
        (S.reads store.old block.id)) e) }
    ensures kept { Kept S.Store store.old store.new }
    ensures faults { Counted result (S.read_fault_count store.old) (S.read_fault_count store.new) }
{
    match fill(store, block.id, at, buf) {
        Ok(true) => Ok(()),
        Ok(false) => Err(ends_early(store, block)),
        Err(_) => Err(BlockFault::DiskFault),
    }
}

// As `compare_header`, whose other clause is a law on what these say.
fn read_header<S: Store>(store: &mut S, block: BlockRef) -> Result<(), BlockFault>
    requires { block.len ≤ MAX_BLOCK_SAMPLES }
    ensures header { IsTrue (S.tells store.old)
        → OnOk result (HasHeader block.id block.len (bytes_of (S.reads store.old block.id))) }
    ensures damaged { IsTrue (S.tells store.old)
        → IfErr result (λ e. IsReadFault block.id block.len 16 (bytes_of (S.reads store.old block.id)) e) }
    ensures kept { Kept S.Store store.old store.new }
    ensures faults { Counted result (S.read_fault_count store.old) (S.read_fault_count store.new) }
{
    let mut buf = [0u8; 16];
    if let Err(fault) = read_part(store, block, 0, &mut buf) {
        return Err(fault);
    }
    match check_header(&buf, block.id, block.len) {
        Ok(()) => Ok(()),
        Err(found) => Err(BlockFault::Damaged {
            file: block.id,
            found,
        }),
    }
}

/// Whether the file begins with the header of the block: magic, id and count. It reads once, and takes no memory. Reads
/// of the block that follow need not compare it again, as long as its file stays the same.
pub fn compare_header<S: Store>(store: &mut S, block: BlockRef) -> Result<(), BlockFault>
    requires { IsBlock block.id block.len }
    // Ok comes for the header of this block alone, and of a block of the disk nothing but the disk refuses.
    ensures header { IsTrue (S.tells store.old)
        → OnOk result (HasHeader block.id block.len (bytes_of (S.reads store.old block.id))) }
    ensures valid { (xs : List ℤ) → IsTrue (S.tells store.old) → blocks (S.reads store.old) block.id ≡ Some xs
        → length xs ≡ block.len
        → IsOkUnless result fault.DiskFault }
    // A fault is a header of another block, or else that the file ends before it.
    ensures damaged { IsTrue (S.tells store.old)
        → IfErr result (λ e. IsReadFault block.id block.len 16 (bytes_of (S.reads store.old block.id)) e) }
    ensures kept { Kept S.Store store.old store.new }
    ensures faults { Counted result (S.read_fault_count store.old) (S.read_fault_count store.new) }
{
    read_header(store, block)
}
