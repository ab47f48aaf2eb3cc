// A track with another track in a window's place.
ghost use Rattle.std.specs.Prelude.{◌≡◌, ◌+◌, ◌-◌, ◌≤◌, ◌++◌, [], IfOk, IfSome, OnOk, length};
ghost use Rattle.pcm_base.specs.declared.limits.TheConstants.{MAX_CELLS};
ghost use Rattle.pcm_base.specs.Blocks.{blocks_len};
ghost use Rattle.clip_track.specs.Clips.{AllHalfFull, end_of, layout_blocks};
ghost use Rattle.clip_track.specs.Kept.{Keeps};
ghost use Rattle.edit_ops.specs.Joins.{IsJoining, finished, moved};
ghost use Rattle.edit_ops.specs.Windows.{IsAround, IsJoined, IsKeptAround, IsPlaced, IsWindow, StartsFit, back_of, front_of};
ghost use Rattle.edit_ops.specs.Windows.{middle_of};

use super::joins::{Joining, Part, add_clips, add_part, close};
use super::planner::Planner;
use super::types::Plan;
use super::windows::Window;
use block_sequence::Sequence;
use clip_track::{Clip, Kept, Layout};
use pcm_base::NoMemory;

/// Adds clips, moved from one place to another.
fn copy_clips(out: &mut Vec<Clip>, clips: &[Clip], from: u64, to: u64) -> Result<(), NoMemory>
    requires { StartsFit (moved from to clips.now) }
    ensures { OnOk result (out.new.items ≡ out.old.items ++ moved from to clips.now) }
{
    for clip in clips {
        let start = clip.start.saturating_sub(from).saturating_add(to);
        let blocks = clip.blocks.copy()?;
        out.push(Clip { start, blocks })?;
    }
    Ok(())
}

/// The clips before a window, and its clip up to it.
fn begin(planner: Planner, t: &Layout, window: Window<'_>) -> Result<Joining, NoMemory>
    requires window { IsWindow planner.block_size t.now window }
    requires few { window.from ≤ MAX_CELLS }
    requires t { AllHalfFull planner.block_size t.now }
    ensures joining { IfOk result (IsJoining planner.block_size) }
    ensures clips { IfOk result (λ j. j.clips.items ≡ window.entry.before.now) }
    ensures start { IfOk result (λ j. j.start ≡ window.entry.start) }
    ensures blocks { IfOk result (λ j. j.blocks ≡ front_of window.entry) }
{
    let mut clips = Vec::new(planner.alloc);
    copy_clips(&mut clips, window.before, 0, 0)?;
    let blocks = Sequence::empty(planner.alloc).append(window.blocks, 0, window.begin)?;
    Ok(Joining {
        clips,
        start: window.start,
        end: window.from,
        blocks,
    })
}

/// The clips up to a window and in it, and its clip after it.
fn join_around(
    planner: Planner,
    t: &Layout,
    window: Window<'_>,
    old: u64,
    new: u64,
    small: &Layout,
) -> Result<Option<Joining>, NoMemory>
    requires window { IsWindow planner.block_size t.now window }
    requires old { old ≡ blocks_len (middle_of window) }
    requires within { end_of 0 small.now ≤ new }
    requires few { window.from + new + blocks_len (back_of window) ≤ MAX_CELLS }
    requires t { AllHalfFull planner.block_size t.now }
    requires small { AllHalfFull planner.block_size small.now }
    ensures { IfOk result (λ o. IfSome o (IsJoined planner.block_size window.entry new small.now)) }
{
    let clips = small.as_slice();
    let joining = begin(planner, t, window)?;
    let Some(most) = add_clips(planner, joining, clips, window.from)? else {
        return Ok(None);
    };
    let back = Part {
        start: window.from + new,
        size: window.len - (window.from - window.start) - old,
        blocks: window.blocks,
        from: window.end,
        to: window.count,
    };
    Ok(add_part(planner, most, back)?)
}

/// The track with another one in a window's place, of `new` cells where there were `old`.
fn track_around(
    planner: Planner,
    t: &Layout,
    window: Window<'_>,
    old: u64,
    new: u64,
    small: &Layout,
) -> Result<Option<Layout>, NoMemory>
    requires window { IsWindow planner.block_size t.now window }
    requires old { old ≡ blocks_len (middle_of window) }
    requires within { end_of 0 small.now ≤ new }
    requires few { end_of 0 t.now - old + new ≤ MAX_CELLS }
    requires far { window.from + new ≤ MAX_CELLS }
    requires t { AllHalfFull planner.block_size t.now }
    requires small { AllHalfFull planner.block_size small.now }
    ensures { IfOk result (λ o. IfSome o (IsAround planner.block_size window.entry old new small.now)) }
{
    let Some(joining) = join_around(planner, t, window, old, new, small)? else {
        return Ok(None);
    };
    let mut all = close(joining)?;
    copy_clips(&mut all, window.after, window.from + old, window.from + new)?;
    let layout = Layout::from_clips(all)?;
    Ok(Some(layout))
}

/// How many blocks some clips have.
fn count_blocks(clips: &[Clip]) -> usize
    requires { length (layout_blocks clips.now) ≤ MAX_CELLS }
    ensures { result ≡ length (layout_blocks clips.now) }
{
    let mut count = 0;
    for clip in clips {
        count += clip.blocks.count();
    }
    count
}

/// How many blocks a track has before a window and after it.
fn kept_around(window: Window<'_>) -> Kept
    requires rising { window.begin ≤ window.end }
    requires last { window.end ≤ window.count }
    requires few { length (layout_blocks window.before.now) + window.count
        + length (layout_blocks window.after.now) ≤ MAX_CELLS }
    ensures { IsKeptAround window.entry result }
{
    let front = count_blocks(window.before) + window.begin;
    let back = count_blocks(window.after) + (window.count - window.end);
    Kept { front, back }
}

/// The plan of a window's track, put in its place in the whole track, where it fits there. All blocks outside the
/// window stay as they are.
pub fn put_back(
    planner: Planner,
    t: &Layout,
    window: Window<'_>,
    old: u64,
    new: u64,
    plan: Plan,
) -> Result<Option<Plan>, NoMemory>
    requires window { IsWindow planner.block_size t.now window }
    requires old { old ≡ blocks_len (middle_of window) }
    requires few { end_of 0 t.now - old + new ≤ MAX_CELLS }
    requires far { window.from + new ≤ MAX_CELLS }
    requires t { AllHalfFull planner.block_size t.now }
    requires small { AllHalfFull planner.block_size plan.layout }
    ensures placed { IfOk result (λ o. IfSome o (IsPlaced planner.block_size window.entry old new plan)) }
    ensures kept { IfOk result (λ o. IfSome o (λ p. Keeps p.kept (layout_blocks t.now) (layout_blocks p.layout))) }
{
    let Plan {
        layout,
        makes,
        next,
        ..
    } = plan;
    if layout.len() > new {
        return Ok(None);
    }
    match track_around(planner, t, window, old, new, &layout)? {
        Some(layout) => Ok(Some(Plan {
            layout,
            makes,
            next,
            kept: kept_around(window),
        })),
        None => Ok(None),
    }
}
