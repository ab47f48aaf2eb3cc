// A page of frames.
ghost use Rattle.std.specs.Prelude.{◌≡◌, ◌+◌, ◌*◌, ◌≤◌, IfOk, List, length, take, drop, fold};
ghost use Rattle.peak_summary.specs.Peaks.{frame_count, joined};
ghost use Rattle.block_store.specs.Reads.{frame_len};
ghost use Rattle.block_cache.specs.Pages.{run_frames};

use super::runs::{FrameRun, copy_run, join_run};
use peak_summary::Summary;
use std::alloc::{AllocError, Global};
use std::marker::Model;

/// The frames of a page, as the bytes of the file: half of what they take as summaries. Contracts see the frames.
#[derive(Drop)]
pub(crate) struct FramePage {
    run: FrameRun,
    bytes: Vec<u8>,
}

impl Model for FramePage {
    ghost use Rattle.std.specs.Prelude.{◌≡◌, ◌+◌, ◌*◌, ◌≤◌, List, length};
    ghost use Rattle.peak_summary.specs.declared.stretch.Summary.{Summary as summary_of};
    ghost use Rattle.peak_summary.specs.Peaks.{frame_count};
    ghost use Rattle.block_store.specs.Reads.{frame_len};
    ghost use Rattle.block_cache.specs.Pages.{run_frames};

    ghost Value = { List summary_of };

    ghost view = { λ p. run_frames p.bytes.items p.run.level p.run.block.len p.run.from p.run.count };

    ghost invariant = { λ p. (length p.bytes.items ≡ 12 * p.run.count) × (p.run.count ≤ 256)
        × (p.run.from + p.run.count ≤ frame_count (frame_len p.run.level) p.run.block.len) };
}

impl FramePage {
    pub(crate) fn new(alloc: Global, run: FrameRun, bytes: &[u8]) -> Result<FramePage, AllocError>
        requires size { length bytes.now ≡ 12 * run.count }
        requires few { run.count ≤ 256 }
        requires within { run.from + run.count ≤ frame_count (frame_len run.level) run.block.len }
        ensures { IfOk result (λ p. p ≡ run_frames bytes.now run.level run.block.len run.from run.count) }
    {
        let mut own = Vec::with_capacity(alloc, bytes.len())?;
        own.extend_from_slice(bytes)?;
        Ok(FramePage { run, bytes: own })
    }

    /// Takes frames from a number on, as many as `out` holds.
    pub(crate) fn copy(&self, skip: usize, out: &mut [Summary])
        requires { skip + length out.old ≤ length self.now }
        ensures { out.new ≡ take (length out.old) (drop skip self.now) }
    {
        copy_run(&self.bytes, self.run, skip, out);
    }

    /// Joins frames from a number on to what is before them.
    pub(crate) fn join(&self, before: Summary, skip: usize, count: usize) -> Summary
        requires { skip + count ≤ length self.now }
        ensures { result ≡ fold joined before (take count (drop skip self.now)) }
    {
        join_run(before, &self.bytes, self.run, skip, count)
    }
}
