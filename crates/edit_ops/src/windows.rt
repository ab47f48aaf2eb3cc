// A window of a track: blocks of one clip, or none in a gap, around the place of an edit.
ghost use Rattle.std.specs.Prelude.{◌≡◌, ℕ, ◌+◌, ◌≤◌, ◌<◌, ◌++◌, ◌∷◌, length, drop, IfOk, IfSome, IsTrue};
ghost use Rattle.pcm_base.specs.declared.limits.TheConstants.{MAX_CELLS};
ghost use Rattle.pcm_base.specs.Blocks.{blocks_len, NoneEmpty};
ghost use Rattle.block_sequence.specs.Rows.{flat};
ghost use Rattle.block_sequence.specs.Sequences.{IsHalfFullSomewhere};
ghost use Rattle.clip_track.specs.Clips.{AllHalfFull, AreClips, IsLayout};
ghost use Rattle.edit_ops.specs.Joins.{clip_of};
ghost use Rattle.edit_ops.specs.Windows.{IsNear, IsWindow, middle_of, next_of};

use super::planner::Planner;
use block_sequence::{Row, Sequence};
use clip_track::{Clip, Layout};
use pcm_base::{BlockRef, NoMemory};
use std::alloc::Global;

/// Blocks of a clip that follow each other, and what stands before and after them. In a gap there are none.
#[derive(Clone, Copy)]
pub struct Window<'a> {
    /// The clips before the clip.
    pub before: &'a [Clip],
    /// Where the clip starts.
    pub start: u64,
    /// How many samples the clip has.
    pub len: u64,
    /// The clip's blocks. In a gap they are those of a clip beside it, and the three numbers of blocks are 0.
    pub blocks: &'a Sequence,
    /// How many of the clip's blocks stand before the window.
    pub begin: usize,
    /// How many there are up to the window's end. A window of a clip has at least one.
    pub end: usize,
    /// How many there are in all.
    pub count: usize,
    /// The clips after the clip.
    pub after: &'a [Clip],
    /// The place in the track where the window begins.
    pub from: u64,
}

/// A window, and its blocks as a track of their own.
#[derive(Drop)]
pub struct Near<'a> {
    pub window: Window<'a>,
    pub small: Layout,
}

/// The first of some blocks, and how many samples they have.
#[derive(Clone, Copy)]
struct Passed {
    count: usize,
    size: u64,
}

/// The blocks that end by a place, but for the last of them.
#[tactic(auto, using(crate::proofs::WindowBlocks::len_next))]
fn pass_blocks(blocks: &[BlockRef], place: u64) -> Passed
    ensures within { result.count ≤ length blocks.now }
    ensures size { result.size + blocks_len (drop result.count blocks.now) ≡ blocks_len blocks.now }
    ensures past { result.size ≤ place }
{
    let mut count = 0;
    let mut size = 0;
    'rows: while count + 1 < blocks.len()
        && blocks[count].len as u64 + blocks[count + 1].len as u64 <= place - size
    {
        size += blocks[count].len as u64;
        count += 1;
    }
    Passed { count, size }
}

/// Whether the blocks of a row end by a place, and the first block of the next row too.
fn is_passed(row: &Row, next: &Row, place: u64) -> bool
    ensures { IsTrue result → blocks_len row.now ≤ place }
{
    let len = row.len();
    let first = next.as_slice()[0];
    len <= place && first.len as u64 <= place - len
}

/// The blocks of a row, or none where there is no row.
#[tactic(auto, using(block_sequence::proofs::FlatRows::flat_next, block_sequence::proofs::FlatRows::flat_end))]
fn blocks_at(rows: &[Row], at: usize) -> &[BlockRef]
    requires { at ≤ length rows.now }
    ensures { flat (drop at rows.now) ≡ result.now ++ flat (drop (at + 1) rows.now) }
{
    if at < rows.len() {
        return rows[at].as_slice();
    }
    &[]
}

/// The blocks of some rows that end by a place, but for the last of them. It takes a step for each row, and then one
/// for each block of one row.
fn pass_rows(rows: &[Row], place: u64) -> Passed
    requires { length (flat rows.now) ≤ MAX_CELLS }
    ensures within { result.count ≤ length (flat rows.now) }
    ensures size { result.size + blocks_len (drop result.count (flat rows.now)) ≡ blocks_len (flat rows.now) }
    ensures past { result.size ≤ place }
{
    let mut at = 0;
    let mut count = 0;
    let mut size = 0;
    'rows: while at + 1 < rows.len() && is_passed(&rows[at], &rows[at + 1], place - size) {
        size += rows[at].len();
        count += rows[at].as_slice().len();
        at += 1;
    }
    let passed = pass_blocks(blocks_at(rows, at), place - size);
    Passed {
        count: count + passed.count,
        size: size + passed.size,
    }
}

/// The last clip that starts by a place, or the first of all.
fn last_started(clips: &[Clip], place: u64) -> usize
    requires { 0 < length clips.now }
    ensures { result < length clips.now }
{
    let mut at = 0;
    'rows: while at + 1 < clips.len() && clips[at + 1].start <= place {
        at += 1;
    }
    at
}

/// The window in a clip for the edit of a range that begins in it, or at its end.
fn window_in<'a>(
    before: &'a [Clip],
    clip: &'a Clip,
    after: &'a [Clip],
    from: u64,
    to: u64,
) -> Option<Window<'a>>
    requires layout { IsLayout (before.now ++ clip.now ∷ after.now) }
    requires rising { from ≤ to }
    ensures window { IfSome result (λ w. (m : ℕ) → 0 < m → AllHalfFull m (before.now ++ clip.now ∷ after.now)
        → IsWindow m (before.now ++ clip.now ∷ after.now) w) }
    ensures past { IfSome result (λ w. w.from ≤ from) }
{
    if from < clip.start {
        return None;
    }
    let rows = clip.blocks.rows();
    let first = pass_rows(rows, from - clip.start);
    let last = pass_rows(rows, to - clip.start);
    // After those passed come the last that ends by the place, the one at the place, and one more.
    let count = clip.blocks.count();
    let end = count.min(last.count.saturating_add(3));
    if end <= first.count {
        return None;
    }
    Some(Window {
        before,
        start: clip.start,
        len: clip.blocks.len(),
        blocks: &clip.blocks,
        begin: first.count,
        end,
        count,
        after,
        from: clip.start + first.size,
    })
}

/// Whether some clips end before a place.
fn end_before(clips: &[Clip], place: u64) -> bool
    ensures { IsTrue result → next_of 0 clips.now ≤ place }
{
    let [.., last] = clips else {
        return true;
    };
    if last.start.saturating_add(last.blocks.len()) >= place {
        return false;
    }
    true
}

/// Whether some clips start after a place.
fn start_after(clips: &[Clip], place: u64) -> bool
    requires { AreClips 0 clips.now }
    ensures { IsTrue result → AreClips (place + 1) clips.now }
{
    match clips {
        [first, ..] => place < first.start,
        [] => true,
    }
}

/// The window in the gap of a place, beside a clip.
fn window_between<'a>(
    before: &'a [Clip],
    beside: &'a Clip,
    after: &'a [Clip],
    place: u64,
) -> Option<Window<'a>>
    requires layout { IsLayout (before.now ++ after.now) }
    ensures window { IfSome result (λ w. (m : ℕ) → IsWindow m (before.now ++ after.now) w) }
    ensures past { IfSome result (λ w. w.from ≡ place) }
{
    if !end_before(before, place) || !start_after(after, place) {
        return None;
    }
    Some(Window {
        before,
        start: place,
        len: 0,
        blocks: &beside.blocks,
        begin: 0,
        end: 0,
        count: 0,
        after,
        from: place,
    })
}

/// The window of a track for the edit of a range, where there is one: the blocks that the range meets, and one more at
/// each side. The range may end after it.
fn window_at<'a>(t: &'a Layout, from: u64, to: u64) -> Option<Window<'a>>
    requires { from ≤ to }
    ensures window { IfSome result (λ w. (m : ℕ) → 0 < m → AllHalfFull m t.now → IsWindow m t.now w) }
    ensures past { IfSome result (λ w. w.from ≤ from) }
{
    let clips = t.as_slice();
    if clips.is_empty() {
        return None;
    }
    let at = last_started(clips, from);
    let (before, rest) = clips.split_at(at);
    let [clip, after @ ..] = rest else {
        return None;
    };
    if from < clip.start {
        return window_between(before, clip, rest, from);
    }
    let end = clip.start.saturating_add(clip.blocks.len());
    if from <= end {
        return window_in(before, clip, after, from, to);
    }
    let (before, after) = clips.split_at(at + 1);
    window_between(before, clip, after, from)
}

/// The blocks of a window as a track of their own.
fn window_layout(alloc: Global, window: Window<'_>) -> Result<Layout, NoMemory>
    requires rising { window.begin ≤ window.end }
    requires within { window.end ≤ length window.blocks.now }
    requires none_empty { NoneEmpty (middle_of window) }
    requires half_full { IsHalfFullSomewhere (middle_of window) }
    requires few { blocks_len (middle_of window) ≤ MAX_CELLS }
    ensures { IfOk result (λ l. l ≡ clip_of 0 (middle_of window.entry)) }
{
    if window.begin == window.end {
        return Ok(Layout::new(alloc));
    }
    let blocks = Sequence::empty(alloc).append(window.blocks, window.begin, window.end)?;
    let mut clips = Vec::new(alloc);
    clips.push(Clip { start: 0, blocks })?;
    Ok(Layout::from_clips(clips)?)
}

/// A window of a track for the edit of a range, where there is one that the range lies in.
pub fn find_near<'a>(
    planner: Planner,
    t: &'a Layout,
    from: u64,
    to: u64,
) -> Result<Option<Near<'a>>, NoMemory>
    requires half_full { AllHalfFull planner.block_size t.now }
    requires rising { from ≤ to }
    ensures { IfOk result (λ o. IfSome o (IsNear planner.block_size from to t.now)) }
{
    let Some(window) = window_at(t, from, to) else {
        return Ok(None);
    };
    let small = window_layout(planner.alloc, window)?;
    if to - window.from > small.len() {
        return Ok(None);
    }
    Ok(Some(Near { window, small }))
}
