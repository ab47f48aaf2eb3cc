// Frames of a block as the bytes of its file, 12 for each: they are taken and joined from there.
ghost use Rattle.std.specs.Prelude.{◌≡◌, ◌+◌, ◌-◌, ◌*◌, ◌<◌, ◌≤◌, length, take, drop, map, fold};
ghost use Rattle.std.specs.List.{range_with_len};
ghost use Rattle.peak_summary.specs.Peaks.{frame_count, joined};
ghost use Rattle.sample_block.specs.Faults.{frame_in};
ghost use Rattle.block_store.specs.Reads.{frame_len};
ghost use Rattle.block_cache.specs.Pages.{run_frame, run_frames};

use block_store::{Level, samples_of_frame};
use pcm_base::BlockRef;
use peak_summary::{Summary, join};
use sample_block::frame_at;

/// Frames of a level of a block that follow one another: this many, from a number on.
#[derive(Clone, Copy)]
pub(crate) struct FrameRun {
    pub(crate) block: BlockRef,
    pub(crate) level: Level,
    pub(crate) from: usize,
    pub(crate) count: usize,
}

/// One frame of a run.
fn frame_of(bytes: &[u8], run: FrameRun, i: usize) -> Summary
    requires size { length bytes.now ≡ 12 * run.count }
    requires few { run.count ≤ 256 }
    requires within { run.from + run.count ≤ frame_count (frame_len run.level) run.block.len }
    requires there { i < run.count }
    ensures { result ≡ run_frame bytes.now run.level run.block.len run.from i }
{
    let count = samples_of_frame(run.level, run.block.len as usize, run.from + i);
    frame_at(bytes, i as u32, count as u64)
}

/// Takes frames of a run from a number on, as many as `out` holds.
pub(crate) fn copy_run(bytes: &[u8], run: FrameRun, skip: usize, out: &mut [Summary])
    requires size { length bytes.now ≡ 12 * run.count }
    requires few { run.count ≤ 256 }
    requires within { run.from + run.count ≤ frame_count (frame_len run.level) run.block.len }
    requires there { skip + length out.old ≤ run.count }
    ensures { out.new ≡ take (length out.old)
        (drop skip (run_frames bytes.now run.level run.block.len run.from run.count)) }
{
    for i in 0..out.len() {
        out[i] = frame_of(bytes, run, skip + i);
    }
}

/// Joins frames that have as many samples each to what is before them, which has some.
fn join_alike(before: Summary, bytes: &[u8], each: u64, start: usize, end: usize) -> Summary
    requires some { 0 < before.count }
    requires each { 0 < each }
    requires short { each ≤ 65536 }
    requires order { start ≤ end }
    requires few { end ≤ 256 }
    requires there { 12 * end ≤ length bytes.now }
    ensures { result ≡ fold joined before
        (map (λ k. frame_in bytes.now (12 * k) each) (range_with_len start (end - start))) }
{
    let mut min = before.min;
    let mut max = before.max;
    let mut squares = before.squares;
    for i in start..end {
        let frame = frame_at(bytes, i as u32, each);
        min = min.min(frame.min);
        max = max.max(frame.max);
        squares = squares.saturating_add(frame.squares);
    }
    Summary {
        min,
        max,
        squares,
        count: before.count.saturating_add(each * (end - start) as u64),
    }
}

/// Joins frames of a run, from a number on, to what is before them. All but the last of a block have as many samples
/// each, so the loop takes neither the first nor the last.
pub(crate) fn join_run(
    before: Summary,
    bytes: &[u8],
    run: FrameRun,
    skip: usize,
    count: usize,
) -> Summary
    requires size { length bytes.now ≡ 12 * run.count }
    requires few { run.count ≤ 256 }
    requires within { run.from + run.count ≤ frame_count (frame_len run.level) run.block.len }
    requires there { skip + count ≤ run.count }
    ensures { result ≡ fold joined before
        (take count (drop skip (run_frames bytes.now run.level run.block.len run.from run.count))) }
{
    if count == 0 {
        return before;
    }
    let first = frame_of(bytes, run, skip);
    let front = join(before, first);
    if count == 1 {
        return front;
    }
    let last = skip + count - 1;
    let all = join_alike(front, bytes, first.count, skip + 1, last);
    join(all, frame_of(bytes, run, last))
}
