// Frames of a block that are read before they are asked for: all that its level has from a page on, by one call of the
// store.
ghost use Rattle.std.specs.Prelude.{◌≡◌, ◌+◌, ◌*◌, ◌/◌, ◌<◌, ◌≤◌, [], ◌∷◌, Bool, length, IsTrue, IfErr};
ghost use Rattle.disk_model.specs.Disk.{Files, bytes_of};
ghost use Rattle.disk_model.specs.Frames.{Kept};
ghost use Rattle.peak_summary.specs.Peaks.{frame_count};
ghost use Rattle.sample_block.specs.Spelling.{IsBlock};
ghost use Rattle.block_store.specs.Reads.{Counted, IsReadFault, frame_len};
ghost use Rattle.block_cache.specs.Pages.{AreFrameBytes};
ghost use Rattle.block_cache.specs.Caches.{IsCacheOf, KeepsCache};

use super::cache::Cache;
use super::frames::PAGE;
use super::headers::compare_kept;
use super::keys::frame_key;
use super::runs::FrameRun;
use block_store::{BlockFault, read_compared_frame_bytes};
use disk_model::Store;

/// How many pages of frames a level of a block has at most.
pub(crate) const PAGES: usize = 4;

/// Keeps one page of the frames that were read, where there is memory.
fn keep_page(cache: &mut Cache, run: FrameRun, bytes: &[u8], page: usize)
    requires block { IsBlock run.block.id run.block.len }
    requires size { length bytes.now ≡ 12 * run.count }
    requires start { run.from ≤ 256 * page }
    requires some { 256 * page < run.from + run.count }
    requires last { run.from + run.count ≡ frame_count (frame_len run.level) run.block.len }
    ensures { (tells : Bool) (files : Files)
        → (IsTrue tells → AreFrameBytes files run.level run.block run.from bytes.now)
        → KeepsCache tells files (run.block ∷ []) cache.old cache.new }
{
    let from = PAGE * page;
    let count = PAGE.min(run.from + run.count - from);
    let part = FrameRun {
        block: run.block,
        level: run.level,
        from,
        count,
    };
    let at = 12 * (from - run.from);
    let key = frame_key(run.level, run.block, page as u32);
    cache.keep_frames(key, part, &bytes[at..at + 12 * count]);
}

/// Keeps all pages of the frames that were read.
fn keep_pages(cache: &mut Cache, run: FrameRun, bytes: &[u8])
    requires block { IsBlock run.block.id run.block.len }
    requires size { length bytes.now ≡ 12 * run.count }
    requires start { run.from ≡ 256 * (run.from / 256) }
    requires last { run.from + run.count ≡ frame_count (frame_len run.level) run.block.len }
    ensures { (tells : Bool) (files : Files)
        → (IsTrue tells → AreFrameBytes files run.level run.block run.from bytes.now)
        → KeepsCache tells files (run.block ∷ []) cache.old cache.new }
{
    let end = (run.from + run.count).div_ceil(PAGE);
    for page in run.from / PAGE..end {
        keep_page(cache, run, bytes, page);
    }
}

/// Reads all frames of a level of a block from a page on, by one call of the store, and keeps their pages. Where the
/// file ends before the last of them it keeps none. That is no fault, since fewer may be asked for.
#[inline(never)]
pub(crate) fn load_ahead<S: Store>(
    store: &mut S,
    cache: &mut Cache,
    run: FrameRun,
) -> Result<(), BlockFault>
    requires block { IsBlock run.block.id run.block.len }
    requires start { run.from ≡ 256 * (run.from / 256) }
    requires some { 0 < run.count }
    requires last { run.from + run.count ≡ frame_count (frame_len run.level) run.block.len }
    requires cached { IsTrue (S.tells store.old) → IsCacheOf (S.reads store.old) cache.old }
    ensures cache { KeepsCache (S.tells store.old) (S.reads store.old) (run.block ∷ []) cache.old cache.new }
    // A fault is a header of another block.
    ensures damaged { IsTrue (S.tells store.old) → IfErr result (λ e. IsReadFault run.block.id run.block.len 16
        (bytes_of (S.reads store.old run.block.id)) e) }
    ensures kept { Kept S.Store store.old store.new }
    ensures faults { Counted result (S.read_fault_count store.old) (S.read_fault_count store.new) }
{
    if let Err(fault) = compare_kept(store, cache, run.block) {
        return Err(fault);
    }
    let mut buf = [0u8; 12 * PAGES * PAGE];
    let bytes = &mut buf[..12 * run.count];
    match read_compared_frame_bytes(store, run.block, run.level, run.from as u32, bytes) {
        Ok(()) => {
            keep_pages(cache, run, bytes);
            Ok(())
        }
        Err(BlockFault::DiskFault) => Err(BlockFault::DiskFault),
        Err(BlockFault::Damaged { .. }) => Ok(()),
    }
}
