// Samples of a block are read from its file.
ghost use Rattle.std.specs.Prelude.{◌≡◌, ◌+◌, ◌*◌, ◌<◌, ◌≤◌, length, take, drop, IsTrue, IsOkUnless, List, ℤ, Some};
ghost use Rattle.std.specs.Prelude.{None, OnOk, IfErr};
ghost use Rattle.pcm_base.specs.declared.limits.TheConstants.{MAX_BLOCK_SAMPLES};
ghost use Rattle.disk_model.specs.Disk.{bytes_of};
ghost use Rattle.disk_model.specs.Frames.{Kept};
ghost use Rattle.sample_block.specs.Spelling.{header_fields, IsBlock};
ghost use Rattle.sample_block.specs.Faults.{difference, samples_in};
ghost use Rattle.sample_block.specs.Blocks.{blocks};
ghost use Rattle.block_store.specs.declared.fault.BlockFault.TheVariants as fault;
ghost use Rattle.block_store.specs.Reads.{Counted, HasHeader, IsEarly, IsReadFault, end_of};

use super::fault::BlockFault;
use super::parts::{compare_header, read_part};
use byteorder::{ByteOrder, LittleEndian};
use disk_model::Store;
use pcm_base::BlockRef;

/// How many samples are read at a time.
const BUFFER_LEN: usize = 4096;

/// How many samples are few.
const FEW: usize = 256;

/// How many samples are many: reads of at least this many samples take this many at a time.
const MANY: usize = 16_384;

/// Reads samples whose bytes fit the buffer.
fn read_buffer<S: Store>(
    store: &mut S,
    block: BlockRef,
    from: usize,
    buf: &mut [u8],
    out: &mut [i16],
) -> Result<(), BlockFault>
    requires len { block.len ≤ MAX_BLOCK_SAMPLES }
    requires within { from + length out.old ≤ block.len }
    requires some { 0 < length out.old }
    requires room { 2 * length out.old ≤ length buf.old }
    ensures whole { IsTrue (S.tells store.old)
        → OnOk result (16 + 2 * (from + length out.old) ≤ length (bytes_of (S.reads store.old block.id))) }
    ensures samples { IsTrue (S.tells store.old)
        → OnOk result (out.new ≡ samples_in (bytes_of (S.reads store.old block.id)) (16 + 2 * from) (length out.old)) }
    ensures damaged { IsTrue (S.tells store.old)
        → IfErr result (λ e. IsEarly block.id block.len (16 + 2 * (from + length out.old)) (bytes_of
        (S.reads store.old block.id)) e) }
    ensures kept { Kept S.Store store.old store.new }
    ensures faults { Counted result (S.read_fault_count store.old) (S.read_fault_count store.new) }
{
    let size = 2 * out.len();
    if let Err(fault) = read_part(store, block, (16 + 2 * from) as u64, &mut buf[..size]) {
        return Err(fault);
    }
    LittleEndian::read_i16_into(&buf[..size], out);
    Ok(())
}

/// Reads samples, as many at a time as the buffer has room for.
fn read_buffers<S: Store>(
    store: &mut S,
    block: BlockRef,
    from: usize,
    buf: &mut [u8],
    out: &mut [i16],
) -> Result<(), BlockFault>
    requires len { block.len ≤ MAX_BLOCK_SAMPLES }
    requires within { from + length out.old ≤ block.len }
    requires some { 2 ≤ length buf.old }
    ensures whole { IsTrue (S.tells store.old) → OnOk result (0 < length out.old
        → 16 + 2 * (from + length out.old) ≤ length (bytes_of (S.reads store.old block.id))) }
    ensures samples { IsTrue (S.tells store.old)
        → OnOk result (out.new ≡ samples_in (bytes_of (S.reads store.old block.id)) (16 + 2 * from) (length out.old)) }
    ensures damaged { IsTrue (S.tells store.old)
        → IfErr result (λ e. IsEarly block.id block.len (end_of (length out.old) (16 + 2 * (from + length out.old)))
        (bytes_of (S.reads store.old block.id)) e) }
    ensures kept { Kept S.Store store.old store.new }
    ensures faults { Counted result (S.read_fault_count store.old) (S.read_fault_count store.new) }
{
    let most = buf.len() / 2;
    let mut done = 0;
    'buffers: while done < out.len() {
        let next = done + most.min(out.len() - done);
        if let Err(fault) = read_buffer(store, block, from + done, buf, &mut out[done..next]) {
            return Err(fault);
        }
        done = next;
    }
    Ok(())
}

/// Reads samples by a buffer for those of a page.
fn read_some<S: Store>(
    store: &mut S,
    block: BlockRef,
    from: usize,
    out: &mut [i16],
) -> Result<(), BlockFault>
    requires len { block.len ≤ MAX_BLOCK_SAMPLES }
    requires within { from + length out.old ≤ block.len }
    ensures whole { IsTrue (S.tells store.old) → OnOk result (0 < length out.old
        → 16 + 2 * (from + length out.old) ≤ length (bytes_of (S.reads store.old block.id))) }
    ensures samples { IsTrue (S.tells store.old)
        → OnOk result (out.new ≡ samples_in (bytes_of (S.reads store.old block.id)) (16 + 2 * from) (length out.old)) }
    ensures damaged { IsTrue (S.tells store.old)
        → IfErr result (λ e. IsEarly block.id block.len (end_of (length out.old) (16 + 2 * (from + length out.old)))
        (bytes_of (S.reads store.old block.id)) e) }
    ensures kept { Kept S.Store store.old store.new }
    ensures faults { Counted result (S.read_fault_count store.old) (S.read_fault_count store.new) }
{
    let mut buf = [0u8; 2 * BUFFER_LEN];
    read_buffers(store, block, from, &mut buf, out)
}

/// Reads many samples by a large buffer: the store is called less often.
fn read_many<S: Store>(
    store: &mut S,
    block: BlockRef,
    from: usize,
    out: &mut [i16],
) -> Result<(), BlockFault>
    requires len { block.len ≤ MAX_BLOCK_SAMPLES }
    requires within { from + length out.old ≤ block.len }
    ensures whole { IsTrue (S.tells store.old) → OnOk result (0 < length out.old
        → 16 + 2 * (from + length out.old) ≤ length (bytes_of (S.reads store.old block.id))) }
    ensures samples { IsTrue (S.tells store.old)
        → OnOk result (out.new ≡ samples_in (bytes_of (S.reads store.old block.id)) (16 + 2 * from) (length out.old)) }
    ensures damaged { IsTrue (S.tells store.old)
        → IfErr result (λ e. IsEarly block.id block.len (end_of (length out.old) (16 + 2 * (from + length out.old)))
        (bytes_of (S.reads store.old block.id)) e) }
    ensures kept { Kept S.Store store.old store.new }
    ensures faults { Counted result (S.read_fault_count store.old) (S.read_fault_count store.new) }
{
    let mut buf = [0u8; 2 * MANY];
    read_buffers(store, block, from, &mut buf, out)
}

/// Reads few samples by a small buffer, which is made sooner than one of a page.
fn read_few<S: Store>(
    store: &mut S,
    block: BlockRef,
    from: usize,
    out: &mut [i16],
) -> Result<(), BlockFault>
    requires len { block.len ≤ MAX_BLOCK_SAMPLES }
    requires few { length out.old ≤ 256 }
    requires some { 0 < length out.old }
    requires within { from + length out.old ≤ block.len }
    ensures whole { IsTrue (S.tells store.old) → OnOk result (0 < length out.old
        → 16 + 2 * (from + length out.old) ≤ length (bytes_of (S.reads store.old block.id))) }
    ensures samples { IsTrue (S.tells store.old)
        → OnOk result (out.new ≡ samples_in (bytes_of (S.reads store.old block.id)) (16 + 2 * from) (length out.old)) }
    ensures damaged { IsTrue (S.tells store.old)
        → IfErr result (λ e. IsEarly block.id block.len (end_of (length out.old) (16 + 2 * (from + length out.old)))
        (bytes_of (S.reads store.old block.id)) e) }
    ensures kept { Kept S.Store store.old store.new }
    ensures faults { Counted result (S.read_fault_count store.old) (S.read_fault_count store.new) }
{
    let mut buf = [0u8; 2 * FEW];
    read_buffer(store, block, from, &mut buf, out)
}

/// Reads samples as `read_samples` does, of a block whose header was compared: it is not read again.
pub fn read_compared_samples<S: Store>(
    store: &mut S,
    block: BlockRef,
    from: u32,
    out: &mut [i16],
) -> Result<(), BlockFault>
    requires block { IsBlock block.id block.len }
    requires within { from + length out.old ≤ block.len }
    // The file has the header of the block, as after `compare_header`.
    requires compared { IsTrue (S.tells store.old)
        → HasHeader block.id block.len (bytes_of (S.reads store.old block.id)) }
    ensures read { (xs : List ℤ) → IsTrue (S.tells store.old) → blocks (S.reads store.old) block.id ≡ Some xs
        → length xs ≡ block.len
        → OnOk result (out.new ≡ take (length out.old) (drop from xs)) }
    ensures valid { (xs : List ℤ) → IsTrue (S.tells store.old) → blocks (S.reads store.old) block.id ≡ Some xs
        → length xs ≡ block.len
        → IsOkUnless result fault.DiskFault }
    ensures samples { IsTrue (S.tells store.old)
        → OnOk result (out.new ≡ samples_in (bytes_of (S.reads store.old block.id)) (16 + 2 * from) (length out.old)) }
    ensures whole { IsTrue (S.tells store.old) → OnOk result (0 < length out.old
        → 16 + 2 * (from + length out.old) ≤ length (bytes_of (S.reads store.old block.id))) }
    // A fault is that the file ends before what is read.
    ensures damaged { IsTrue (S.tells store.old)
        → IfErr result (λ e. IsReadFault block.id block.len (end_of (length out.old) (16 + 2 *
        (from + length out.old))) (bytes_of (S.reads store.old block.id)) e) }
    ensures kept { Kept S.Store store.old store.new }
    ensures faults { Counted result (S.read_fault_count store.old) (S.read_fault_count store.new) }
{
    if !out.is_empty() && out.len() <= FEW {
        return read_few(store, block, from as usize, out);
    }
    if out.len() < MANY {
        return read_some(store, block, from as usize, out);
    }
    read_many(store, block, from as usize, out)
}

/// Reads the samples of a block from number `from` on, as many as `out` holds; all of them are samples of the block. It
/// compares the header of the file, and whether the file has the bytes that it asks for, and takes no memory. After an
/// error `out` may have been written in part.
pub fn read_samples<S: Store>(
    store: &mut S,
    block: BlockRef,
    from: u32,
    out: &mut [i16],
) -> Result<(), BlockFault>
    requires block { IsBlock block.id block.len }
    requires within { from + length out.old ≤ block.len }
    // Of a block of the disk they are its samples, and then nothing but the disk refuses.
    ensures read { (xs : List ℤ) → IsTrue (S.tells store.old) → blocks (S.reads store.old) block.id ≡ Some xs
        → length xs ≡ block.len
        → OnOk result (out.new ≡ take (length out.old) (drop from xs)) }
    ensures valid { (xs : List ℤ) → IsTrue (S.tells store.old) → blocks (S.reads store.old) block.id ≡ Some xs
        → length xs ≡ block.len
        → IsOkUnless result fault.DiskFault }
    // Of any file they are what stands there.
    ensures samples { IsTrue (S.tells store.old)
        → OnOk result (out.new ≡ samples_in (bytes_of (S.reads store.old block.id)) (16 + 2 * from) (length out.old)) }
    // Ok comes for the header of this block alone, and where the file has all that is read.
    ensures header { IsTrue (S.tells store.old)
        → OnOk result (difference (bytes_of (S.reads store.old block.id)) 0 (header_fields block.id block.len) ≡ None) }
    ensures front { IsTrue (S.tells store.old) → OnOk result (16 ≤ length (bytes_of (S.reads store.old block.id))) }
    ensures whole { IsTrue (S.tells store.old) → OnOk result (0 < length out.old
        → 16 + 2 * (from + length out.old) ≤ length (bytes_of (S.reads store.old block.id))) }
    // A fault is a header of another block, or else that the file ends before what is read.
    ensures damaged { IsTrue (S.tells store.old)
        → IfErr result (λ e. IsReadFault block.id block.len (end_of (length out.old) (16 + 2 *
        (from + length out.old))) (bytes_of (S.reads store.old block.id)) e) }
    ensures kept { Kept S.Store store.old store.new }
    ensures faults { Counted result (S.read_fault_count store.old) (S.read_fault_count store.new) }
{
    if let Err(fault) = compare_header(store, block) {
        return Err(fault);
    }
    read_compared_samples(store, block, from, out)
}
