// Frames of a block, by pages that are kept.
ghost use Rattle.std.specs.Prelude.{◌≡◌, ◌+◌, ◌-◌, ◌*◌, ◌/◌, ◌%◌, ◌<◌, ◌≤◌, [], ◌∷◌, length, take, drop, IsTrue, IsOk};
ghost use Rattle.std.specs.Prelude.{IsOkUnless, List, ℤ, Some, OnOk, IfErr, IfOk, fold, min, true, false};
ghost use Rattle.disk_model.specs.Disk.{bytes_of};
ghost use Rattle.disk_model.specs.Frames.{Kept};
ghost use Rattle.peak_summary.specs.Peaks.{frame_count, frames_of, joined, nothing};
ghost use Rattle.sample_block.specs.Spelling.{IsBlock};
ghost use Rattle.sample_block.specs.Blocks.{blocks};
ghost use Rattle.block_store.specs.declared.fault.BlockFault.TheVariants as fault;
ghost use Rattle.block_store.specs.Reads.{Counted, HasHeader, IsReadFault, frame_len, level_place, stored_frames};
ghost use Rattle.block_cache.specs.Entries.{HasKey};
ghost use Rattle.block_cache.specs.Pages.{frames_end, page_end, run_frames, frame_key as key_at};
ghost use Rattle.block_cache.specs.Caches.{HasFrames, IsCacheOf, KeepsCache, SameCache};

use super::ahead::{PAGES, load_ahead};
use super::cache::Cache;
use super::headers::compare_kept;
use super::keys::frame_key;
use super::runs::{FrameRun, copy_run, join_run};
use block_store::{BlockFault, Level, read_compared_frame_bytes, read_compared_frames};
use disk_model::Store;
use pcm_base::BlockRef;
use peak_summary::{NOTHING, Summary};
use sample_block::LONG_FRAME;

/// How many frames a page has, but for the last of a level of a block.
pub(crate) const PAGE: usize = 256;

/// How many frames of a level a block of this many samples has.
fn frames_in(level: Level, len: usize) -> usize
    ensures { result ≡ frame_count (frame_len level) len }
{
    match level {
        Level::Short => len.div_ceil(256),
        Level::Long => len.div_ceil(LONG_FRAME as usize),
    }
}

/// Reads the bytes of frames.
fn read_run<S: Store>(
    store: &mut S,
    cache: &mut Cache,
    run: FrameRun,
    bytes: &mut [u8],
) -> Result<(), BlockFault>
    requires block { IsBlock run.block.id run.block.len }
    requires within { run.from + run.count ≤ frame_count (frame_len run.level) run.block.len }
    requires some { 0 < run.count }
    requires size { length bytes.old ≡ 12 * run.count }
    requires cached { IsTrue (S.tells store.old) → IsCacheOf (S.reads store.old) cache.old }
    ensures cache { KeepsCache (S.tells store.old) (S.reads store.old) (run.block ∷ []) cache.old cache.new }
    ensures frames { IsTrue (S.tells store.old)
        → OnOk result (run_frames bytes.new run.level run.block.len run.from run.count
        ≡ stored_frames (bytes_of (S.reads store.old run.block.id)) run.level run.block.len run.from run.count) }
    ensures header { IsTrue (S.tells store.old)
        → OnOk result (HasHeader run.block.id run.block.len (bytes_of (S.reads store.old run.block.id))) }
    ensures whole { IsTrue (S.tells store.old) → OnOk result
        (level_place run.level run.block.len + 12 * (run.from + run.count)
        ≤ length (bytes_of (S.reads store.old run.block.id))) }
    ensures damaged { IsTrue (S.tells store.old) → IfErr result (λ e. IsReadFault run.block.id run.block.len
        (level_place run.level run.block.len + 12 * (run.from + run.count))
        (bytes_of (S.reads store.old run.block.id)) e) }
    ensures kept { Kept S.Store store.old store.new }
    ensures faults { Counted result (S.read_fault_count store.old) (S.read_fault_count store.new) }
{
    if let Err(fault) = compare_kept(store, cache, run.block) {
        return Err(fault);
    }
    if let Err(fault) = read_compared_frame_bytes(
        store,
        run.block,
        run.level,
        run.from as u32,
        bytes,
    ) {
        return Err(fault);
    }
    Ok(())
}

/// Reads a whole page of frames, and keeps it.
fn fill_page<S: Store>(
    store: &mut S,
    cache: &mut Cache,
    run: FrameRun,
    bytes: &mut [u8],
) -> Result<(), BlockFault>
    requires block { IsBlock run.block.id run.block.len }
    requires start { run.from ≡ 256 * (run.from / 256) }
    requires within { run.from < frame_count (frame_len run.level) run.block.len }
    requires count { run.count ≡ min 256 (frame_count (frame_len run.level) run.block.len - run.from) }
    requires size { length bytes.old ≡ 12 * run.count }
    requires cached { IsTrue (S.tells store.old) → IsCacheOf (S.reads store.old) cache.old }
    ensures cache { KeepsCache (S.tells store.old) (S.reads store.old) (run.block ∷ []) cache.old cache.new }
    ensures frames { IsTrue (S.tells store.old)
        → OnOk result (run_frames bytes.new run.level run.block.len run.from run.count
        ≡ stored_frames (bytes_of (S.reads store.old run.block.id)) run.level run.block.len run.from run.count) }
    ensures header { IsTrue (S.tells store.old)
        → OnOk result (HasHeader run.block.id run.block.len (bytes_of (S.reads store.old run.block.id))) }
    ensures whole { IsTrue (S.tells store.old) → OnOk result
        (level_place run.level run.block.len + 12 * (run.from + run.count)
        ≤ length (bytes_of (S.reads store.old run.block.id))) }
    ensures damaged { IsTrue (S.tells store.old) → IfErr result (λ e. IsReadFault run.block.id run.block.len
        (level_place run.level run.block.len + 12 * (run.from + run.count))
        (bytes_of (S.reads store.old run.block.id)) e) }
    ensures kept { Kept S.Store store.old store.new }
    ensures faults { Counted result (S.read_fault_count store.old) (S.read_fault_count store.new) }
{
    if let Err(fault) = read_run(store, cache, run, bytes) {
        return Err(fault);
    }
    cache.keep_frames(
        frame_key(run.level, run.block, (run.from / PAGE) as u32),
        run,
        bytes,
    );
    Ok(())
}

/// Reads the whole page of frames that lie on one page, and keeps it.
fn load_page<S: Store>(
    store: &mut S,
    cache: &mut Cache,
    block: BlockRef,
    level: Level,
    from: usize,
    out: &mut [Summary],
) -> Result<(), BlockFault>
    requires block { IsBlock block.id block.len }
    requires within { from + length out.old ≤ frame_count (frame_len level) block.len }
    requires some { 0 < length out.old }
    requires one { from % 256 + length out.old ≤ 256 }
    requires cached { IsTrue (S.tells store.old) → IsCacheOf (S.reads store.old) cache.old }
    ensures cache { KeepsCache (S.tells store.old) (S.reads store.old) (block ∷ []) cache.old cache.new }
    ensures frames { IsTrue (S.tells store.old)
        → OnOk result (out.new
        ≡ stored_frames (bytes_of (S.reads store.old block.id)) level block.len from (length out.old)) }
    ensures header { IsTrue (S.tells store.old)
        → OnOk result (HasHeader block.id block.len (bytes_of (S.reads store.old block.id))) }
    ensures whole { IsTrue (S.tells store.old) → OnOk result
        (level_place level block.len + 12 * page_end 256 (frame_count (frame_len level) block.len) from
        ≤ length (bytes_of (S.reads store.old block.id))) }
    ensures damaged { IsTrue (S.tells store.old) → IfErr result (λ e. IsReadFault block.id block.len
        (level_place level block.len + 12 * page_end 256 (frame_count (frame_len level) block.len) from)
        (bytes_of (S.reads store.old block.id)) e) }
    ensures kept { Kept S.Store store.old store.new }
    ensures faults { Counted result (S.read_fault_count store.old) (S.read_fault_count store.new) }
{
    let start = PAGE * (from / PAGE);
    let count = PAGE.min(frames_in(level, block.len as usize) - start);
    let run = FrameRun {
        block,
        level,
        from: start,
        count,
    };
    let mut buf = [0u8; 12 * PAGE];
    let bytes = &mut buf[..12 * count];
    if let Err(fault) = fill_page(store, cache, run, bytes) {
        return Err(fault);
    }
    copy_run(bytes, run, from % PAGE, out);
    Ok(())
}

/// Reads frames alone, and keeps none.
fn read_alone<S: Store>(
    store: &mut S,
    cache: &mut Cache,
    block: BlockRef,
    level: Level,
    from: usize,
    out: &mut [Summary],
) -> Result<(), BlockFault>
    requires block { IsBlock block.id block.len }
    requires within { from + length out.old ≤ frame_count (frame_len level) block.len }
    requires some { 0 < length out.old }
    requires cached { IsTrue (S.tells store.old) → IsCacheOf (S.reads store.old) cache.old }
    ensures cache { KeepsCache (S.tells store.old) (S.reads store.old) (block ∷ []) cache.old cache.new }
    ensures frames { IsTrue (S.tells store.old)
        → OnOk result (out.new
        ≡ stored_frames (bytes_of (S.reads store.old block.id)) level block.len from (length out.old)) }
    ensures header { IsTrue (S.tells store.old)
        → OnOk result (HasHeader block.id block.len (bytes_of (S.reads store.old block.id))) }
    ensures whole { IsTrue (S.tells store.old) → OnOk result
        (level_place level block.len + 12 * (from + length out.old) ≤ length (bytes_of (S.reads store.old block.id))) }
    ensures damaged { IsTrue (S.tells store.old) → IfErr result (λ e. IsReadFault block.id block.len
        (level_place level block.len + 12 * (from + length out.old)) (bytes_of (S.reads store.old block.id)) e) }
    ensures kept { Kept S.Store store.old store.new }
    ensures faults { Counted result (S.read_fault_count store.old) (S.read_fault_count store.new) }
{
    if let Err(fault) = compare_kept(store, cache, block) {
        return Err(fault);
    }
    read_compared_frames(store, block, level, from as u32, out)
}

/// Frames of a level of a block, from a number on. Those that are read once are read alone where their page is not kept.
#[derive(Clone, Copy)]
pub(crate) struct FramePart {
    pub(crate) block: BlockRef,
    pub(crate) level: Level,
    pub(crate) from: usize,
    pub(crate) once: bool,
}

/// Reads frames that lie on one page, by the page where it is kept.
fn read_page<S: Store>(
    store: &mut S,
    cache: &mut Cache,
    part: FramePart,
    out: &mut [Summary],
) -> Result<(), BlockFault>
    requires block { IsBlock part.block.id part.block.len }
    requires within { part.from + length out.old ≤ frame_count (frame_len part.level) part.block.len }
    requires some { 0 < length out.old }
    requires one { part.from % 256 + length out.old ≤ 256 }
    requires cached { IsTrue (S.tells store.old) → IsCacheOf (S.reads store.old) cache.old }
    ensures cache { KeepsCache (S.tells store.old) (S.reads store.old) (part.block ∷ []) cache.old cache.new }
    ensures hit { HasKey cache.old.frames (key_at part.level part.block (part.from / 256))
        → IsOk result × (store.new ≡ store.old) × SameCache cache.old cache.new }
    ensures frames { IsTrue (S.tells store.old) → OnOk result (out.new
        ≡ stored_frames (bytes_of (S.reads store.old part.block.id)) part.level part.block.len part.from
        (length out.old)) }
    ensures header { IsTrue (S.tells store.old)
        → OnOk result (HasHeader part.block.id part.block.len (bytes_of (S.reads store.old part.block.id))) }
    ensures whole { IsTrue (S.tells store.old) → OnOk result
        (frames_end part.once part.level part.block (part.from + length out.old)
        ≤ length (bytes_of (S.reads store.old part.block.id))) }
    ensures damaged { IsTrue (S.tells store.old) → IfErr result (λ e. IsReadFault part.block.id part.block.len
        (frames_end part.once part.level part.block (part.from + length out.old))
        (bytes_of (S.reads store.old part.block.id)) e) }
    ensures kept { Kept S.Store store.old store.new }
    ensures faults { Counted result (S.read_fault_count store.old) (S.read_fault_count store.new) }
{
    let key = frame_key(part.level, part.block, (part.from / PAGE) as u32);
    if cache.copy_frames(key, part.from % PAGE, out) {
        return Ok(());
    }
    if part.once {
        return read_alone(store, cache, part.block, part.level, part.from, out);
    }
    load_page(store, cache, part.block, part.level, part.from, out)
}

/// Reads frames, those of a page at a time.
fn read_pages<S: Store>(
    store: &mut S,
    cache: &mut Cache,
    part: FramePart,
    out: &mut [Summary],
) -> Result<(), BlockFault>
    requires block { IsBlock part.block.id part.block.len }
    requires within { part.from + length out.old ≤ frame_count (frame_len part.level) part.block.len }
    requires cached { IsTrue (S.tells store.old) → IsCacheOf (S.reads store.old) cache.old }
    ensures cache { KeepsCache (S.tells store.old) (S.reads store.old) (part.block ∷ []) cache.old cache.new }
    ensures hit { HasFrames cache.old part.level part.block part.from (length out.old)
        → IsOk result × (store.new ≡ store.old) × SameCache cache.old cache.new }
    ensures frames { IsTrue (S.tells store.old) → OnOk result (out.new
        ≡ stored_frames (bytes_of (S.reads store.old part.block.id)) part.level part.block.len part.from
        (length out.old)) }
    ensures header { IsTrue (S.tells store.old) → OnOk result (0 < length out.old
        → HasHeader part.block.id part.block.len (bytes_of (S.reads store.old part.block.id))) }
    ensures whole { IsTrue (S.tells store.old) → OnOk result (0 < length out.old
        → frames_end part.once part.level part.block (part.from + length out.old)
        ≤ length (bytes_of (S.reads store.old part.block.id))) }
    ensures damaged { IsTrue (S.tells store.old) → IfErr result (λ e. IsReadFault part.block.id part.block.len
        (frames_end part.once part.level part.block (part.from + length out.old))
        (bytes_of (S.reads store.old part.block.id)) e) }
    ensures kept { Kept S.Store store.old store.new }
    ensures faults { Counted result (S.read_fault_count store.old) (S.read_fault_count store.new) }
{
    let mut done = 0;
    'pages: while done < out.len() {
        let from = part.from + done;
        let next = done + (PAGE - from % PAGE).min(out.len() - done);
        let page = FramePart {
            block: part.block,
            level: part.level,
            from,
            once: part.once,
        };
        if let Err(fault) = read_page(store, cache, page, &mut out[done..next]) {
            return Err(fault);
        }
        done = next;
    }
    Ok(())
}

/// Reads frames of a level of a block as `read_frames` does, by whole pages of 256 frames, the last of fewer, and keeps
/// them, as `read_samples_cached` does with samples. After an error `out` may have been written in part.
#[tactic(auto, using(block_store::proofs::FrameLaws::frames_result))]
pub fn read_frames_cached<S: Store>(
    store: &mut S,
    cache: &mut Cache,
    block: BlockRef,
    level: Level,
    from: u32,
    out: &mut [Summary],
) -> Result<(), BlockFault>
    requires block { IsBlock block.id block.len }
    requires within { from + length out.old ≤ frame_count (frame_len level) block.len }
    // Each entry is what a read of that page gives of the files as they stand. It stays so.
    requires cached { IsTrue (S.tells store.old) → IsCacheOf (S.reads store.old) cache.old }
    ensures cache { KeepsCache (S.tells store.old) (S.reads store.old) (block ∷ []) cache.old cache.new }
    // Where all pages are there it is Ok, whatever the store would answer, and the store is not called.
    ensures hit { HasFrames cache.old level block from (length out.old)
        → IsOk result × (store.new ≡ store.old) × SameCache cache.old cache.new }
    // Of a block of the disk they are the summaries of its stretches, and then nothing but the disk refuses.
    ensures read { (xs : List ℤ) → IsTrue (S.tells store.old) → blocks (S.reads store.old) block.id ≡ Some xs
        → length xs ≡ block.len
        → OnOk result (out.new ≡ take (length out.old) (drop from (frames_of (frame_len level) xs))) }
    ensures valid { (xs : List ℤ) → IsTrue (S.tells store.old) → blocks (S.reads store.old) block.id ≡ Some xs
        → length xs ≡ block.len
        → IsOkUnless result fault.DiskFault }
    // Of any file they are what stands there.
    ensures frames { IsTrue (S.tells store.old)
        → OnOk result (out.new
        ≡ stored_frames (bytes_of (S.reads store.old block.id)) level block.len from (length out.old)) }
    // Ok comes for the header of this block alone, and where the file has all of the pages.
    ensures header { IsTrue (S.tells store.old) → OnOk result (0 < length out.old
        → HasHeader block.id block.len (bytes_of (S.reads store.old block.id))) }
    ensures whole { IsTrue (S.tells store.old) → OnOk result (0 < length out.old
        → level_place level block.len + 12 * page_end 256 (frame_count (frame_len level) block.len)
        (from + length out.old - 1)
        ≤ length (bytes_of (S.reads store.old block.id))) }
    // A fault is a header of another block, or else that the file ends before the end of the last page.
    ensures damaged { IsTrue (S.tells store.old) → IfErr result (λ e. IsReadFault block.id block.len
        (level_place level block.len + 12 * page_end 256 (frame_count (frame_len level) block.len)
        (from + length out.old - 1)) (bytes_of (S.reads store.old block.id)) e) }
    ensures kept { Kept S.Store store.old store.new }
    ensures faults { Counted result (S.read_fault_count store.old) (S.read_fault_count store.new) }
{
    let part = FramePart {
        block,
        level,
        from: from as usize,
        once: false,
    };
    read_pages(store, cache, part, out)
}

/// Reads frames of a level of a block as `read_frames` does, for a reader that asks for no others of their pages next, as
/// `read_samples_once` does with samples. After an error `out` may have been written in part.
#[tactic(auto, using(block_store::proofs::FrameLaws::frames_result))]
pub fn read_frames_once<S: Store>(
    store: &mut S,
    cache: &mut Cache,
    block: BlockRef,
    level: Level,
    from: u32,
    out: &mut [Summary],
) -> Result<(), BlockFault>
    requires block { IsBlock block.id block.len }
    requires within { from + length out.old ≤ frame_count (frame_len level) block.len }
    // Each entry is what a read of that page gives of the files as they stand. It stays so.
    requires cached { IsTrue (S.tells store.old) → IsCacheOf (S.reads store.old) cache.old }
    ensures cache { KeepsCache (S.tells store.old) (S.reads store.old) (block ∷ []) cache.old cache.new }
    // Where all pages are there it is Ok, whatever the store would answer, and the store is not called.
    ensures hit { HasFrames cache.old level block from (length out.old)
        → IsOk result × (store.new ≡ store.old) × SameCache cache.old cache.new }
    // Of a block of the disk they are the summaries of its stretches, and then nothing but the disk refuses.
    ensures read { (xs : List ℤ) → IsTrue (S.tells store.old) → blocks (S.reads store.old) block.id ≡ Some xs
        → length xs ≡ block.len
        → OnOk result (out.new ≡ take (length out.old) (drop from (frames_of (frame_len level) xs))) }
    ensures valid { (xs : List ℤ) → IsTrue (S.tells store.old) → blocks (S.reads store.old) block.id ≡ Some xs
        → length xs ≡ block.len
        → IsOkUnless result fault.DiskFault }
    // Of any file they are what stands there.
    ensures frames { IsTrue (S.tells store.old)
        → OnOk result (out.new
        ≡ stored_frames (bytes_of (S.reads store.old block.id)) level block.len from (length out.old)) }
    // Ok comes for the header of this block alone, and where the file has all of them.
    ensures header { IsTrue (S.tells store.old) → OnOk result (0 < length out.old
        → HasHeader block.id block.len (bytes_of (S.reads store.old block.id))) }
    ensures whole { IsTrue (S.tells store.old) → OnOk result (0 < length out.old
        → level_place level block.len + 12 * (from + length out.old) ≤ length (bytes_of (S.reads store.old block.id))) }
    // A fault is a header of another block, or else that the file ends before the last of them does.
    ensures damaged { IsTrue (S.tells store.old) → IfErr result (λ e. IsReadFault block.id block.len
        (level_place level block.len + 12 * (from + length out.old)) (bytes_of (S.reads store.old block.id)) e) }
    ensures kept { Kept S.Store store.old store.new }
    ensures faults { Counted result (S.read_fault_count store.old) (S.read_fault_count store.new) }
{
    let part = FramePart {
        block,
        level,
        from: from as usize,
        once: true,
    };
    read_pages(store, cache, part, out)
}

/// Joins frames of one page to what is before them. The whole page is read, and kept.
#[inline(never)]
fn join_loaded<S: Store>(
    store: &mut S,
    cache: &mut Cache,
    part: FramePart,
    count: usize,
    before: Summary,
) -> Result<Summary, BlockFault>
    requires block { IsBlock part.block.id part.block.len }
    requires within { part.from + count ≤ frame_count (frame_len part.level) part.block.len }
    requires some { 0 < count }
    requires one { part.from % 256 + count ≤ 256 }
    requires cached { IsTrue (S.tells store.old) → IsCacheOf (S.reads store.old) cache.old }
    requires kept { part.once ≡ false }
    ensures cache { KeepsCache (S.tells store.old) (S.reads store.old) (part.block ∷ []) cache.old cache.new }
    ensures sum { IsTrue (S.tells store.old) → IfOk result (λ s. s ≡ fold joined before
        (stored_frames (bytes_of (S.reads store.old part.block.id)) part.level part.block.len part.from count)) }
    ensures header { IsTrue (S.tells store.old)
        → OnOk result (HasHeader part.block.id part.block.len (bytes_of (S.reads store.old part.block.id))) }
    ensures whole { IsTrue (S.tells store.old) → OnOk result
        (frames_end part.once part.level part.block (part.from + count)
        ≤ length (bytes_of (S.reads store.old part.block.id))) }
    ensures damaged { IsTrue (S.tells store.old) → IfErr result (λ e. IsReadFault part.block.id part.block.len
        (frames_end part.once part.level part.block (part.from + count))
        (bytes_of (S.reads store.old part.block.id)) e) }
    ensures kept { Kept S.Store store.old store.new }
    ensures faults { Counted result (S.read_fault_count store.old) (S.read_fault_count store.new) }
{
    let start = PAGE * (part.from / PAGE);
    let size = PAGE.min(frames_in(part.level, part.block.len as usize) - start);
    let run = FrameRun {
        block: part.block,
        level: part.level,
        from: start,
        count: size,
    };
    let mut buf = [0u8; 12 * PAGE];
    let bytes = &mut buf[..12 * size];
    if let Err(fault) = fill_page(store, cache, run, bytes) {
        return Err(fault);
    }
    Ok(join_run(before, bytes, run, part.from % PAGE, count))
}

/// The same: the block's frames are read from that page on, and their pages are kept. The page is read alone where the
/// file ends before the last of them, and where it was not kept.
fn join_ahead<S: Store>(
    store: &mut S,
    cache: &mut Cache,
    part: FramePart,
    count: usize,
    before: Summary,
) -> Result<Summary, BlockFault>
    requires block { IsBlock part.block.id part.block.len }
    requires within { part.from + count ≤ frame_count (frame_len part.level) part.block.len }
    requires some { 0 < count }
    requires one { part.from % 256 + count ≤ 256 }
    requires cached { IsTrue (S.tells store.old) → IsCacheOf (S.reads store.old) cache.old }
    requires kept { part.once ≡ false }
    ensures cache { KeepsCache (S.tells store.old) (S.reads store.old) (part.block ∷ []) cache.old cache.new }
    ensures sum { IsTrue (S.tells store.old) → IfOk result (λ s. s ≡ fold joined before
        (stored_frames (bytes_of (S.reads store.old part.block.id)) part.level part.block.len part.from count)) }
    ensures header { IsTrue (S.tells store.old)
        → OnOk result (HasHeader part.block.id part.block.len (bytes_of (S.reads store.old part.block.id))) }
    ensures whole { IsTrue (S.tells store.old) → OnOk result
        (frames_end part.once part.level part.block (part.from + count)
        ≤ length (bytes_of (S.reads store.old part.block.id))) }
    ensures damaged { IsTrue (S.tells store.old) → IfErr result (λ e. IsReadFault part.block.id part.block.len
        (frames_end part.once part.level part.block (part.from + count))
        (bytes_of (S.reads store.old part.block.id)) e) }
    ensures kept { Kept S.Store store.old store.new }
    ensures faults { Counted result (S.read_fault_count store.old) (S.read_fault_count store.new) }
{
    let start = PAGE * (part.from / PAGE);
    let run = FrameRun {
        block: part.block,
        level: part.level,
        from: start,
        count: frames_in(part.level, part.block.len as usize) - start,
    };
    if let Err(fault) = load_ahead(store, cache, run) {
        return Err(fault);
    }
    let key = frame_key(part.level, part.block, (part.from / PAGE) as u32);
    if let Some(all) = cache.join_frames(key, part.from % PAGE, count, before) {
        return Ok(all);
    }
    join_loaded(store, cache, part, count, before)
}

/// The same of a page that is not kept: more pages of the block are read with it, where it has more after this one, and
/// where the cache has room for as many as a block has.
fn join_missed<S: Store>(
    store: &mut S,
    cache: &mut Cache,
    part: FramePart,
    count: usize,
    before: Summary,
) -> Result<Summary, BlockFault>
    requires block { IsBlock part.block.id part.block.len }
    requires within { part.from + count ≤ frame_count (frame_len part.level) part.block.len }
    requires some { 0 < count }
    requires one { part.from % 256 + count ≤ 256 }
    requires cached { IsTrue (S.tells store.old) → IsCacheOf (S.reads store.old) cache.old }
    requires kept { part.once ≡ false }
    ensures cache { KeepsCache (S.tells store.old) (S.reads store.old) (part.block ∷ []) cache.old cache.new }
    ensures sum { IsTrue (S.tells store.old) → IfOk result (λ s. s ≡ fold joined before
        (stored_frames (bytes_of (S.reads store.old part.block.id)) part.level part.block.len part.from count)) }
    ensures header { IsTrue (S.tells store.old)
        → OnOk result (HasHeader part.block.id part.block.len (bytes_of (S.reads store.old part.block.id))) }
    ensures whole { IsTrue (S.tells store.old) → OnOk result
        (frames_end part.once part.level part.block (part.from + count)
        ≤ length (bytes_of (S.reads store.old part.block.id))) }
    ensures damaged { IsTrue (S.tells store.old) → IfErr result (λ e. IsReadFault part.block.id part.block.len
        (frames_end part.once part.level part.block (part.from + count))
        (bytes_of (S.reads store.old part.block.id)) e) }
    ensures kept { Kept S.Store store.old store.new }
    ensures faults { Counted result (S.read_fault_count store.old) (S.read_fault_count store.new) }
{
    let start = PAGE * (part.from / PAGE);
    let rest = frames_in(part.level, part.block.len as usize) - start;
    if rest > PAGE && cache.pages() >= PAGES as u64 {
        return join_ahead(store, cache, part, count, before);
    }
    join_loaded(store, cache, part, count, before)
}

/// The same, and the frames are read alone.
#[inline(never)]
fn join_alone<S: Store>(
    store: &mut S,
    cache: &mut Cache,
    part: FramePart,
    count: usize,
    before: Summary,
) -> Result<Summary, BlockFault>
    requires block { IsBlock part.block.id part.block.len }
    requires within { part.from + count ≤ frame_count (frame_len part.level) part.block.len }
    requires some { 0 < count }
    requires one { part.from % 256 + count ≤ 256 }
    requires cached { IsTrue (S.tells store.old) → IsCacheOf (S.reads store.old) cache.old }
    requires once { part.once ≡ true }
    ensures cache { KeepsCache (S.tells store.old) (S.reads store.old) (part.block ∷ []) cache.old cache.new }
    ensures sum { IsTrue (S.tells store.old) → IfOk result (λ s. s ≡ fold joined before
        (stored_frames (bytes_of (S.reads store.old part.block.id)) part.level part.block.len part.from count)) }
    ensures header { IsTrue (S.tells store.old)
        → OnOk result (HasHeader part.block.id part.block.len (bytes_of (S.reads store.old part.block.id))) }
    ensures whole { IsTrue (S.tells store.old) → OnOk result
        (frames_end part.once part.level part.block (part.from + count)
        ≤ length (bytes_of (S.reads store.old part.block.id))) }
    ensures damaged { IsTrue (S.tells store.old) → IfErr result (λ e. IsReadFault part.block.id part.block.len
        (frames_end part.once part.level part.block (part.from + count))
        (bytes_of (S.reads store.old part.block.id)) e) }
    ensures kept { Kept S.Store store.old store.new }
    ensures faults { Counted result (S.read_fault_count store.old) (S.read_fault_count store.new) }
{
    let run = FrameRun {
        block: part.block,
        level: part.level,
        from: part.from,
        count,
    };
    let mut buf = [0u8; 12 * PAGE];
    let bytes = &mut buf[..12 * count];
    if let Err(fault) = read_run(store, cache, run, bytes) {
        return Err(fault);
    }
    Ok(join_run(before, bytes, run, 0, count))
}

/// The same: of a page that is kept they are joined where they are, and nothing is read or copied.
fn join_page<S: Store>(
    store: &mut S,
    cache: &mut Cache,
    part: FramePart,
    count: usize,
    before: Summary,
) -> Result<Summary, BlockFault>
    requires block { IsBlock part.block.id part.block.len }
    requires within { part.from + count ≤ frame_count (frame_len part.level) part.block.len }
    requires some { 0 < count }
    requires one { part.from % 256 + count ≤ 256 }
    requires cached { IsTrue (S.tells store.old) → IsCacheOf (S.reads store.old) cache.old }
    ensures cache { KeepsCache (S.tells store.old) (S.reads store.old) (part.block ∷ []) cache.old cache.new }
    ensures hit { HasKey cache.old.frames (key_at part.level part.block (part.from / 256))
        → IsOk result × (store.new ≡ store.old) × SameCache cache.old cache.new }
    ensures sum { IsTrue (S.tells store.old) → IfOk result (λ s. s ≡ fold joined before
        (stored_frames (bytes_of (S.reads store.old part.block.id)) part.level part.block.len part.from count)) }
    ensures header { IsTrue (S.tells store.old)
        → OnOk result (HasHeader part.block.id part.block.len (bytes_of (S.reads store.old part.block.id))) }
    ensures whole { IsTrue (S.tells store.old) → OnOk result
        (frames_end part.once part.level part.block (part.from + count)
        ≤ length (bytes_of (S.reads store.old part.block.id))) }
    ensures damaged { IsTrue (S.tells store.old) → IfErr result (λ e. IsReadFault part.block.id part.block.len
        (frames_end part.once part.level part.block (part.from + count))
        (bytes_of (S.reads store.old part.block.id)) e) }
    ensures kept { Kept S.Store store.old store.new }
    ensures faults { Counted result (S.read_fault_count store.old) (S.read_fault_count store.new) }
{
    let key = frame_key(part.level, part.block, (part.from / PAGE) as u32);
    if let Some(all) = cache.join_frames(key, part.from % PAGE, count, before) {
        return Ok(all);
    }
    if part.once {
        return join_alone(store, cache, part, count, before);
    }
    join_missed(store, cache, part, count, before)
}

/// Joins frames, those of a page at a time.
pub(crate) fn join_pages<S: Store>(
    store: &mut S,
    cache: &mut Cache,
    part: FramePart,
    count: usize,
) -> Result<Summary, BlockFault>
    requires block { IsBlock part.block.id part.block.len }
    requires within { part.from + count ≤ frame_count (frame_len part.level) part.block.len }
    requires cached { IsTrue (S.tells store.old) → IsCacheOf (S.reads store.old) cache.old }
    ensures cache { KeepsCache (S.tells store.old) (S.reads store.old) (part.block ∷ []) cache.old cache.new }
    ensures hit { HasFrames cache.old part.level part.block part.from count
        → IsOk result × (store.new ≡ store.old) × SameCache cache.old cache.new }
    ensures sum { IsTrue (S.tells store.old) → IfOk result (λ s. s ≡ fold joined nothing
        (stored_frames (bytes_of (S.reads store.old part.block.id)) part.level part.block.len part.from count)) }
    ensures header { IsTrue (S.tells store.old)
        → OnOk result (0 < count → HasHeader part.block.id part.block.len (bytes_of (S.reads store.old part.block.id))) }
    ensures whole { IsTrue (S.tells store.old) → OnOk result (0 < count
        → frames_end part.once part.level part.block (part.from + count)
        ≤ length (bytes_of (S.reads store.old part.block.id))) }
    ensures damaged { IsTrue (S.tells store.old) → IfErr result (λ e. IsReadFault part.block.id part.block.len
        (frames_end part.once part.level part.block (part.from + count))
        (bytes_of (S.reads store.old part.block.id)) e) }
    ensures kept { Kept S.Store store.old store.new }
    ensures faults { Counted result (S.read_fault_count store.old) (S.read_fault_count store.new) }
{
    let mut all = NOTHING;
    let mut done = 0;
    'pages: while done < count {
        let from = part.from + done;
        let size = (PAGE - from % PAGE).min(count - done);
        let page = FramePart {
            block: part.block,
            level: part.level,
            from,
            once: part.once,
        };
        match join_page(store, cache, page, size, all) {
            Ok(more) => all = more,
            Err(fault) => return Err(fault),
        }
        done += size;
    }
    Ok(all)
}
