// Edits of several tracks: copy, cut and paste.
ghost use Rattle.std.specs.Prelude.{◌≡◌, ◌+◌, ◌*◌, ◌≤◌, ◌<◌, ◌^◌, length, take, option_copied, IfOk, IfSome};
ghost use Rattle.std.specs.Option.{ForSome};
ghost use Rattle.pcm_base.specs.Edits.{removed, placed};
ghost use Rattle.pcm_base.specs.Refusals.{placed_length};
ghost use Rattle.edit_ops.specs.Placing.{SumsFit, LengthsFit};
ghost use Rattle.edit_ops.specs.Plans.{AnswersTest, run_start_of};
ghost use Rattle.edit_ops.specs.Runs as runs;

use super::placing::plan_placed;
use super::planner::{Planner, RunPlanner};
use super::removing::plan_removal;
use super::run_refusals::{copy_tests, paste_tests};
use super::strips;
use super::types::{Plan, Plans, Strips};
use clip_track::{Layout, Strip};
use pcm_base::{NoMemory, Placing, Refusal, Removing};
use std::alloc::Global;

fn copy_one(alloc: Global, t: &Layout, from: u64, to: u64) -> Result<Strip, NoMemory>
    requires { from ≤ to }
    ensures { IfOk result (λ s. runs.IsCopy from to t.now s) }
{
    let whole = t.to_strip()?;
    Ok(strips::range_part(alloc, &whole, from, to)?)
}

/// The cells of a range of each track.
fn copy_each(alloc: Global, run: &[&Layout], from: u64, to: u64) -> Result<Strips, NoMemory>
    requires { from ≤ to }
    ensures { IfOk result (λ v. runs.AreCopies from to (runs.layouts run.now) v) }
{
    let mut out = Vec::new(alloc);
    for t in run {
        out.push(copy_one(alloc, t, from, to)?)?;
    }
    Ok(Strips::new(out))
}

/// Each track without a range.
fn cut_each(
    planner: RunPlanner,
    run: &[&Layout],
    removing: Removing,
    from: u64,
    to: u64,
) -> Result<Plans, NoMemory>
    requires half_full { runs.AllTracksHalfFull planner.block_size (runs.layouts run.now) }
    requires rising { from ≤ to }
    ensures { IfOk result
        (λ v. runs.AreCuts (removed removing from to) (run_start_of planner) (runs.layouts run.now) v) }
{
    let mut plans = Vec::with_capacity(planner.alloc, run.len())?;
    let mut id = planner.next;
    for t in run {
        let here = Planner {
            alloc: planner.alloc,
            block_size: planner.block_size,
            next: id,
        };
        let plan = plan_removal(here, t, removing, from, to)?;
        id = plan.next;
        plans.push(plan)?;
    }
    Ok(Plans::new(plans))
}

/// Each strip put into its track.
fn paste_each(
    planner: RunPlanner,
    run: &[&Layout],
    clip: &[Strip],
    placing: Placing,
    at: u64,
) -> Result<Plans, NoMemory>
    requires half_full { runs.AllTracksHalfFull planner.block_size (runs.layouts run.now) }
    requires clips { runs.AreClips planner.block_size clip.now }
    requires wide { length clip.now ≤ length run.now }
    requires few { LengthsFit placing at clip.now (runs.layouts run.now) }
    ensures { IfOk result
        (λ v. runs.ArePastes (placed placing at) (run_start_of planner) clip.now
        (take (length clip.now) (runs.layouts run.now)) v) }
{
    let mut plans = Vec::new(planner.alloc);
    let mut id = planner.next;
    for i in 0..clip.len() {
        let here = Planner {
            alloc: planner.alloc,
            block_size: planner.block_size,
            next: id,
        };
        let plan = plan_placed(here, run[i], placing, at, &clip[i])?;
        id = plan.next;
        plans.push(plan)?;
    }
    Ok(Plans::new(plans))
}

/// The cells of a range of `n` tracks, those of `run` from the first on: a strip for each, of exactly `to - from`
/// cells, gaps where the track is shorter.
///
/// # Errors
///
/// `TooNarrow` where there are fewer than `n` tracks; `BadRange` where not `from < to <= L`, where L is the greatest
/// length of the `n` tracks; else `NoMemory` where there is none for the strips.
pub fn copy(alloc: Global, run: &[&Layout], n: u64, from: u64, to: u64) -> Result<Strips, Refusal>
    ensures copies { IfOk result (λ v. runs.AreCopies from to (take n (runs.layouts run.now)) v) }
    ensures tests { AnswersTest (runs.copy_tests (runs.layouts run.now) n from to) result }
{
    copy_tests(run, n, from, to)?;
    let strips = copy_each(alloc, &run[..n as usize], from, to)?;
    Ok(strips)
}

/// What was cut: the strips, and a plan for each track.
fn cut_tracks(
    planner: RunPlanner,
    run: &[&Layout],
    removing: Removing,
    from: u64,
    to: u64,
) -> Result<(Strips, Plans), NoMemory>
    requires half_full { runs.AllTracksHalfFull planner.block_size (runs.layouts run.now) }
    requires rising { from ≤ to }
    ensures copies { IfOk result (λ v. runs.AreCopies from to (runs.layouts run.now) v.0) }
    ensures plans { IfOk result
        (λ v. runs.AreCuts (removed removing from to) (run_start_of planner) (runs.layouts run.now) v.1) }
{
    let strips = copy_each(planner.alloc, run, from, to)?;
    let plans = cut_each(planner, run, removing, from, to)?;
    Ok((strips, plans))
}

/// `copy`, and the range taken from each of the tracks: `Close` deletes it, `Leave` makes it gaps.
///
/// # Errors
///
/// Those of `copy`.
pub fn cut_range(
    planner: RunPlanner,
    run: &[&Layout],
    removing: Removing,
    n: u64,
    from: u64,
    to: u64,
) -> Result<(Strips, Plans), Refusal>
    requires half_full { runs.AllTracksHalfFull planner.block_size (runs.layouts run.now) }
    ensures copies { IfOk result (λ v. runs.AreCopies from to (take n (runs.layouts run.now)) v.0) }
    ensures plans { IfOk result
        (λ v. runs.AreCuts (removed removing from to) (run_start_of planner) (take n (runs.layouts run.now)) v.1) }
    ensures tests { AnswersTest (runs.copy_tests (runs.layouts run.now) n from to) result }
{
    copy_tests(run, n, from, to)?;
    let cut = cut_tracks(planner, &run[..n as usize], removing, from, to)?;
    Ok(cut)
}

/// Each strip put into the track that it goes to: the first into the first track of `run`, and so on.
fn place(
    planner: RunPlanner,
    run: &[&Layout],
    clip: &[Strip],
    placing: Placing,
    at: u64,
) -> Result<Plans, Refusal>
    requires half_full { runs.AllTracksHalfFull planner.block_size (runs.layouts run.now) }
    requires clips { runs.AreClips planner.block_size clip.now }
    requires sums { SumsFit at clip.now (runs.layouts run.now) }
    ensures plans { IfOk result
        (λ v. runs.ArePastes (placed placing at) (run_start_of planner) clip.now
        (take (length clip.now) (runs.layouts run.now)) v) }
    ensures tests { AnswersTest (runs.paste_tests (placed_length placing at) clip.now (runs.layouts run.now)) result }
{
    paste_tests(placing, at, clip, run)?;
    let plans = paste_each(planner, run, clip, placing, at)?;
    Ok(plans)
}

/// Puts strip i of what was copied or cut at a place of the i-th track of `run`: `Insert` moves the cells there, `Cover`
/// puts it in the place of as many. A track that is shorter is first continued by gaps.
///
/// # Errors
///
/// `EmptyClipboard` where there is nothing to paste; `TooNarrow` where there are fewer tracks than strips;
/// `LengthLimit` where a track would have more than 2^32 cells, for the first such track; else `NoMemory` where there
/// is none for the plans.
pub fn paste(
    planner: RunPlanner,
    run: &[&Layout],
    clip: Option<&Strips>,
    placing: Placing,
    at: u64,
) -> Result<Plans, Refusal>
    requires half_full { runs.AllTracksHalfFull planner.block_size (runs.layouts run.now) }
    requires clips { ForSome (option_copied clip) (λ c. runs.AreClips planner.block_size c) }
    requires sums { ForSome (option_copied clip) (λ c. SumsFit at c (runs.layouts run.now)) }
    ensures plans { IfOk result (λ v. IfSome (option_copied clip.entry)
        (λ c. runs.ArePastes (placed placing at) (run_start_of planner) c
        (take (length c) (runs.layouts run.now)) v)) }
    ensures tests { AnswersTest
        (runs.clipboard_tests (placed_length placing at) (option_copied clip.entry) (runs.layouts run.now)) result }
{
    match clip {
        None => Err(Refusal::EmptyClipboard),
        Some(strips) => place(planner, run, strips.as_slice(), placing, at),
    }
}
