// The tests that refuse an edit of several tracks. Each is passed, or answers its reason.
ghost use Rattle.std.specs.Prelude.{◌≡◌, ◌+◌, ◌≤◌, ◌<◌, ◌^◌, length};
ghost use Rattle.pcm_base.specs.Refusals.{placed_length};
ghost use Rattle.clip_track.specs.Clips.{end_of};
ghost use Rattle.clip_track.specs.Items.{strip_len};
ghost use Rattle.edit_ops.specs.Placing.{SumsFit};
ghost use Rattle.edit_ops.specs.Plans.{Passes};
ghost use Rattle.edit_ops.specs.Runs as runs;
ghost use Rattle.pcm_base.specs.Refusals.{too_narrow, length_limit};

use super::refusals::{length, range};
use clip_track::{Layout, Strip};
use pcm_base::{Placing, Refusal};

/// There are as many tracks as are needed.
fn wide(have: u64, need: u64) -> Result<(), Refusal>
    ensures { Passes (too_narrow have need) result }
{
    if have < need {
        Err(Refusal::TooNarrow { have, need })
    } else {
        Ok(())
    }
}

/// The greatest length of some tracks.
fn longest(run: &[&Layout]) -> u64
    ensures { result ≡ runs.longest_of (runs.layouts run.now) }
{
    let mut len = 0;
    for t in run {
        len = len.max(t.len());
    }
    len
}

/// The tests of a copy or a cut of `n` tracks.
pub fn copy_tests(run: &[&Layout], n: u64, from: u64, to: u64) -> Result<(), Refusal>
    ensures { Passes (runs.copy_tests (runs.layouts run.now) n from to) result }
{
    wide(run.len() as u64, n)?;
    range(from, to, longest(&run[..n as usize]))
}

/// No track would have too many cells.
fn lengths(placing: Placing, at: u64, clip: &[Strip], run: &[&Layout]) -> Result<(), Refusal>
    requires wide { length clip.now ≤ length run.now }
    requires sums { SumsFit at clip.now (runs.layouts run.now) }
    ensures { Passes
        (length_limit (runs.lengths_of (placed_length placing at) clip.now (runs.layouts run.now))) result }
{
    for i in 0..clip.len() {
        let len = placing.length(at, clip[i].len(), run[i].len());
        length(len)?;
    }
    Ok(())
}

/// The tests of a paste.
pub fn paste_tests(
    placing: Placing,
    at: u64,
    clip: &[Strip],
    run: &[&Layout],
) -> Result<(), Refusal>
    requires { SumsFit at clip.now (runs.layouts run.now) }
    ensures { Passes (runs.paste_tests (placed_length placing at) clip.now (runs.layouts run.now)) result }
{
    wide(run.len() as u64, clip.len() as u64)?;
    lengths(placing, at, clip, run)
}
