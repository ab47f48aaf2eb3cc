// Frames of a block are read from its file.
ghost use Rattle.std.specs.Prelude.{◌≡◌, ◌^◌, ◌+◌, ◌*◌, ◌<◌, ◌≤◌, length, take, drop, map, List, ℤ, IsTrue, IsOkUnless};
ghost use Rattle.std.specs.Prelude.{None, Some, OnOk, IfErr};
ghost use Rattle.std.specs.List.{range_with_len};
ghost use Rattle.pcm_base.specs.declared.limits.TheConstants.{MAX_BLOCK_SAMPLES};
ghost use Rattle.disk_model.specs.Disk.{bytes_of};
ghost use Rattle.peak_summary.specs.Peaks.{frame_count, frames_of};
ghost use Rattle.sample_block.specs.Faults.{difference, frame_in};
ghost use Rattle.sample_block.specs.Spelling.{size_of, header_fields, IsBlock};
ghost use Rattle.sample_block.specs.Blocks.{blocks};
ghost use Rattle.block_store.specs.declared.fault.BlockFault.TheVariants as fault;
ghost use Rattle.disk_model.specs.Frames.{Kept};
ghost use Rattle.block_store.specs.Reads.{Counted, HasHeader, IsEarly, IsReadFault, end_of, frame_len, frame_samples};
ghost use Rattle.block_store.specs.Reads.{level_place, stored_frames};

use super::fault::BlockFault;
use super::parts::{compare_header, read_part};
use disk_model::Store;
use pcm_base::BlockRef;
use peak_summary::Summary;
use sample_block::{LONG_FRAME, frame_at};

/// How many frames are read at a time.
const BUFFER_LEN: usize = 256;

/// One of the two levels of a block's frames.
#[derive(Clone, Copy, Debug, PartialEq, Eq)]
pub enum Level {
    /// The frames of 256 samples.
    Short,
    /// The frames of 65,536 samples.
    Long,
}

fn samples_each(level: Level) -> usize
    ensures value { result ≡ frame_len level }
    ensures some { 0 < result }
    ensures few { result ≤ LONG_FRAME }
{
    match level {
        Level::Short => 256,
        Level::Long => LONG_FRAME as usize,
    }
}

/// How many samples frame `i` has, of a block of this many.
pub fn samples_of_frame(level: Level, len: usize, i: usize) -> usize
    requires { i < frame_count (frame_len level) len }
    ensures { result ≡ frame_samples level len i }
{
    let each = samples_each(level);
    each.min(len - each * i)
}

/// Where the frames of a level begin.
fn place_of(level: Level, len: usize) -> usize
    requires { len ≤ MAX_BLOCK_SAMPLES }
    ensures value { result ≡ level_place level len }
    ensures within { result + 12 * frame_count (frame_len level) len ≤ size_of len }
{
    match level {
        Level::Short => 16 + 2 * len,
        Level::Long => 16 + 2 * len + 12 * len.div_ceil(256),
    }
}

/// The frames that stand in these bytes, of which the first is number `from` of the block.
fn take_frames(bytes: &[u8], level: Level, len: usize, from: usize, out: &mut [Summary])
    requires few { length out.old ≤ 256 }
    requires size { length bytes.now ≡ 12 * length out.old }
    requires within { from + length out.old ≤ frame_count (frame_len level) len }
    ensures { out.new ≡ map (λ k. frame_in bytes.now (12 * k) (frame_samples level len (from + k)))
        (range_with_len 0 (length out.old)) }
{
    for i in 0..out.len() {
        let count = samples_of_frame(level, len, from + i);
        out[i] = frame_at(bytes, i as u32, count as u64);
    }
}

/// Reads the bytes of frames, from the first one of frame `from` on.
fn read_bytes<S: Store>(
    store: &mut S,
    block: BlockRef,
    level: Level,
    from: usize,
    out: &mut [u8],
) -> Result<(), BlockFault>
    requires len { block.len ≤ MAX_BLOCK_SAMPLES }
    requires within { 12 * from + length out.old ≤ 12 * frame_count (frame_len level) block.len }
    requires some { 0 < length out.old }
    ensures bytes { IsTrue (S.tells store.old)
        → OnOk result ((level_place level block.len + 12 * from + length out.old ≤ length (bytes_of
        (S.reads store.old block.id))) × (out.new ≡ take (length out.old) (drop (level_place level block.len + 12 * from)
        (bytes_of (S.reads store.old block.id))))) }
    ensures damaged { IsTrue (S.tells store.old)
        → IfErr result (λ e. IsEarly block.id block.len (level_place level block.len + 12 * from + length out.old)
        (bytes_of (S.reads store.old block.id)) e) }
    ensures kept { Kept S.Store store.old store.new }
    ensures faults { Counted result (S.read_fault_count store.old) (S.read_fault_count store.new) }
{
    let at = place_of(level, block.len as usize) + 12 * from;
    read_part(store, block, at as u64, out)
}

/// Reads the bytes of frames, 12 for each, of a block whose header was compared: as many as `out` holds, from the first
/// one of frame `from` on. It is one call of the store, and takes no memory.
pub fn read_compared_frame_bytes<S: Store>(
    store: &mut S,
    block: BlockRef,
    level: Level,
    from: u32,
    out: &mut [u8],
) -> Result<(), BlockFault>
    requires block { IsBlock block.id block.len }
    requires within { 12 * from + length out.old ≤ 12 * frame_count (frame_len level) block.len }
    requires some { 0 < length out.old }
    // The file has the header of the block, as after `compare_header`.
    requires compared { IsTrue (S.tells store.old)
        → HasHeader block.id block.len (bytes_of (S.reads store.old block.id)) }
    ensures bytes { IsTrue (S.tells store.old)
        → OnOk result (out.new ≡ take (length out.old) (drop (level_place level block.len + 12 * from)
        (bytes_of (S.reads store.old block.id)))) }
    ensures whole { IsTrue (S.tells store.old)
        → OnOk result (level_place level block.len + 12 * from + length out.old
        ≤ length (bytes_of (S.reads store.old block.id))) }
    // Of a block of the disk nothing but the disk refuses.
    ensures valid { (xs : List ℤ) → IsTrue (S.tells store.old) → blocks (S.reads store.old) block.id ≡ Some xs
        → length xs ≡ block.len
        → IsOkUnless result fault.DiskFault }
    // A fault is that the file ends before what is read.
    ensures damaged { IsTrue (S.tells store.old)
        → IfErr result (λ e. IsReadFault block.id block.len (level_place level block.len + 12 * from + length out.old)
        (bytes_of (S.reads store.old block.id)) e) }
    ensures kept { Kept S.Store store.old store.new }
    ensures faults { Counted result (S.read_fault_count store.old) (S.read_fault_count store.new) }
{
    read_bytes(store, block, level, from as usize, out)
}

/// Reads frames whose bytes fit the buffer.
fn read_buffer<S: Store>(
    store: &mut S,
    block: BlockRef,
    level: Level,
    from: usize,
    buf: &mut [u8],
    out: &mut [Summary],
) -> Result<(), BlockFault>
    requires len { block.len ≤ MAX_BLOCK_SAMPLES }
    requires within { from + length out.old ≤ frame_count (frame_len level) block.len }
    requires some { 0 < length out.old }
    requires few { length out.old ≤ 256 }
    requires room { 12 * length out.old ≤ length buf.old }
    ensures whole { IsTrue (S.tells store.old)
        → OnOk result (level_place level block.len + 12 * (from + length out.old) ≤ length (bytes_of
        (S.reads store.old block.id))) }
    ensures frames { IsTrue (S.tells store.old)
        → OnOk result (out.new ≡ stored_frames (bytes_of (S.reads store.old block.id)) level block.len from
        (length out.old)) }
    ensures damaged { IsTrue (S.tells store.old)
        → IfErr result (λ e. IsEarly block.id block.len (level_place level block.len + 12 * (from + length out.old))
        (bytes_of (S.reads store.old block.id)) e) }
    ensures kept { Kept S.Store store.old store.new }
    ensures faults { Counted result (S.read_fault_count store.old) (S.read_fault_count store.new) }
{
    let size = 12 * out.len();
    if let Err(fault) = read_bytes(store, block, level, from, &mut buf[..size]) {
        return Err(fault);
    }
    take_frames(&buf[..size], level, block.len as usize, from, out);
    Ok(())
}

/// Reads the frames, a buffer at a time.
fn read_buffers<S: Store>(
    store: &mut S,
    block: BlockRef,
    level: Level,
    from: usize,
    out: &mut [Summary],
) -> Result<(), BlockFault>
    requires len { block.len ≤ MAX_BLOCK_SAMPLES }
    requires within { from + length out.old ≤ frame_count (frame_len level) block.len }
    ensures whole { IsTrue (S.tells store.old) → OnOk result (0 < length out.old
        → level_place level block.len + 12 * (from + length out.old) ≤ length (bytes_of (S.reads store.old block.id))) }
    ensures frames { IsTrue (S.tells store.old)
        → OnOk result (out.new ≡ stored_frames (bytes_of (S.reads store.old block.id)) level block.len from
        (length out.old)) }
    ensures damaged { IsTrue (S.tells store.old)
        → IfErr result (λ e. IsEarly block.id block.len (end_of (length out.old) (level_place level block.len + 12 *
        (from + length out.old))) (bytes_of (S.reads store.old block.id)) e) }
    ensures kept { Kept S.Store store.old store.new }
    ensures faults { Counted result (S.read_fault_count store.old) (S.read_fault_count store.new) }
{
    let mut buf = [0u8; 12 * BUFFER_LEN];
    let mut done = 0;
    'buffers: while done < out.len() {
        let next = done + BUFFER_LEN.min(out.len() - done);
        let part = &mut out[done..next];
        if let Err(fault) = read_buffer(store, block, level, from + done, &mut buf, part) {
            return Err(fault);
        }
        done = next;
    }
    Ok(())
}

/// Reads frames as `read_frames` does, of a block whose header was compared: it is not read again.
pub fn read_compared_frames<S: Store>(
    store: &mut S,
    block: BlockRef,
    level: Level,
    from: u32,
    out: &mut [Summary],
) -> Result<(), BlockFault>
    requires block { IsBlock block.id block.len }
    requires within { from + length out.old ≤ frame_count (frame_len level) block.len }
    // The file has the header of the block, as after `compare_header`.
    requires compared { IsTrue (S.tells store.old)
        → HasHeader block.id block.len (bytes_of (S.reads store.old block.id)) }
    ensures read { (xs : List ℤ) → IsTrue (S.tells store.old) → blocks (S.reads store.old) block.id ≡ Some xs
        → length xs ≡ block.len
        → OnOk result (out.new ≡ take (length out.old) (drop from (frames_of (frame_len level) xs))) }
    ensures valid { (xs : List ℤ) → IsTrue (S.tells store.old) → blocks (S.reads store.old) block.id ≡ Some xs
        → length xs ≡ block.len
        → IsOkUnless result fault.DiskFault }
    ensures frames { IsTrue (S.tells store.old)
        → OnOk result (out.new ≡ stored_frames (bytes_of (S.reads store.old block.id)) level block.len from
        (length out.old)) }
    ensures whole { IsTrue (S.tells store.old) → OnOk result (0 < length out.old
        → level_place level block.len + 12 * (from + length out.old) ≤ length (bytes_of (S.reads store.old block.id))) }
    // A fault is that the file ends before what is read.
    ensures damaged { IsTrue (S.tells store.old)
        → IfErr result (λ e. IsReadFault block.id block.len (end_of (length out.old)
        (level_place level block.len + 12 * (from + length out.old))) (bytes_of (S.reads store.old block.id)) e) }
    ensures kept { Kept S.Store store.old store.new }
    ensures faults { Counted result (S.read_fault_count store.old) (S.read_fault_count store.new) }
{
    read_buffers(store, block, level, from as usize, out)
}

/// Reads the frames of a level of a block from number `from` on, as many as `out` holds; all of them are frames of the
/// block, which has one for each 256 or 65,536 samples, the last of fewer. It compares the header of the file, and
/// whether the file has the bytes that it asks for, not the frames with the samples, and takes no memory. After an
/// error `out` may have been written in part.
pub fn read_frames<S: Store>(
    store: &mut S,
    block: BlockRef,
    level: Level,
    from: u32,
    out: &mut [Summary],
) -> Result<(), BlockFault>
    requires block { IsBlock block.id block.len }
    requires within { from + length out.old ≤ frame_count (frame_len level) block.len }
    // Of a block of the disk they are the summaries of its stretches, and then nothing but the disk refuses.
    ensures read { (xs : List ℤ) → IsTrue (S.tells store.old) → blocks (S.reads store.old) block.id ≡ Some xs
        → length xs ≡ block.len
        → OnOk result (out.new ≡ take (length out.old) (drop from (frames_of (frame_len level) xs))) }
    ensures valid { (xs : List ℤ) → IsTrue (S.tells store.old) → blocks (S.reads store.old) block.id ≡ Some xs
        → length xs ≡ block.len
        → IsOkUnless result fault.DiskFault }
    // Of any file they are what stands there.
    ensures frames { IsTrue (S.tells store.old)
        → OnOk result (out.new ≡ stored_frames (bytes_of (S.reads store.old block.id)) level block.len from
        (length out.old)) }
    // Ok comes for the header of this block alone, and where the file has all that is read.
    ensures header { IsTrue (S.tells store.old)
        → OnOk result (difference (bytes_of (S.reads store.old block.id)) 0 (header_fields block.id block.len) ≡ None) }
    ensures front { IsTrue (S.tells store.old) → OnOk result (16 ≤ length (bytes_of (S.reads store.old block.id))) }
    ensures whole { IsTrue (S.tells store.old) → OnOk result (0 < length out.old
        → level_place level block.len + 12 * (from + length out.old) ≤ length (bytes_of (S.reads store.old block.id))) }
    // A fault is a header of another block, or else that the file ends before what is read.
    ensures damaged { IsTrue (S.tells store.old)
        → IfErr result (λ e. IsReadFault block.id block.len (end_of (length out.old)
        (level_place level block.len + 12 * (from + length out.old))) (bytes_of (S.reads store.old block.id)) e) }
    ensures kept { Kept S.Store store.old store.new }
    ensures faults { Counted result (S.read_fault_count store.old) (S.read_fault_count store.new) }
{
    if let Err(fault) = compare_header(store, block) {
        return Err(fault);
    }
    read_compared_frames(store, block, level, from, out)
}
