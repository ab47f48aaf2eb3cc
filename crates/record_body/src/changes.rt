// How a track differs from that of the current point.
ghost use Rattle.std.specs.Prelude.{◌≡◌, ◌-◌, ◌≤◌, ◌<◌, length, is_some, IfSome, IsSome, Some};
ghost use Rattle.block_sequence.specs.Fronts.{common};
ghost use Rattle.clip_track.specs.Clips.{layout_blocks};
ghost use Rattle.record_body.specs.Changes as change;
ghost use Rattle.pcm_base.specs.declared.limits.TheConstants.{MAX_CELLS};
ghost use Rattle.record_body.specs.Choices.{change_by, clips_choice, last_choice, HasFront, LiesIn, LiesWithin};
ghost use Rattle.project_state.specs.Kept.{StaysOrKeeps};
ghost use Rattle.project_state.specs.Numbers.{NumbersAgree, are_numbered_alike};
ghost use Rattle.record_body.specs.Spelling.{side_byte};

use block_sequence::Sequence;
use clip_track::{Clip, Kept};
use pcm_base::Side;
use project_state::Track;

/// How a track is written by the one of the current point.
#[derive(Clone, Copy)]
pub(crate) enum Choice {
    /// As it is there.
    Same,
    /// Written out.
    Whole,
    /// With the last `gone` blocks of its last clip replaced by those after the first `kept`.
    Tail { gone: usize, kept: usize },
}

// In the functions below `front` is the number of first blocks that are known to be the same, as far as both have them.

/// How many blocks stand at the front of both. Those that are known are not compared.
fn common_len(old: &Sequence, new: &Sequence, front: usize) -> usize
    requires known { HasFront front old.now new.now }
    ensures value { result ≡ common old.now new.now }
    ensures old { result ≤ length old.now }
    ensures new { result ≤ length new.now }
{
    old.common(new, front.min(old.count()).min(new.count()))
}

/// Of blocks that are all known it compares only how many there are.
fn same_blocks(old: &Sequence, new: &Sequence, front: usize) -> bool
    requires known { HasFront front old.now new.now }
    ensures { result ≡ change.same_blocks old.now new.now }
{
    if old.count() != new.count() {
        return false;
    }
    old.count() <= front || common_len(old, new, front) == old.count()
}

fn same_clip(old: &Clip, new: &Clip, front: usize) -> bool
    requires known { HasFront front old.now.blocks new.now.blocks }
    ensures { result ≡ change.same_clip old.now new.now }
{
    old.start == new.start && same_blocks(&old.blocks, &new.blocks, front)
}

/// Where all clips are the same, how many of the blocks that come after them are known.
fn same_clips(old: &[Clip], new: &[Clip], front: usize) -> Option<usize>
    requires known { HasFront front (layout_blocks old.now) (layout_blocks new.now) }
    ensures value { is_some result ≡ change.same_clips old.now new.now }
    ensures left { IfSome result (λ left. left ≡ front - length (layout_blocks old.now)) }
{
    if old.len() != new.len() {
        return None;
    }
    let mut left = front;
    for i in 0..old.len() {
        let clip = &old[i];
        if !same_clip(clip, &new[i], left) {
            return None;
        }
        left = left.saturating_sub(clip.blocks.count());
    }
    Some(left)
}

pub(crate) fn side_number(side: Side) -> u8
    ensures { result ≡ side_byte side }
{
    match side {
        Side::Both => 0,
        Side::Left => 1,
        Side::Right => 2,
    }
}

fn same_settings(old: &Track, new: &Track) -> bool
    ensures { result ≡ change.same_settings old.now new.now }
{
    old.gain == new.gain
        && side_number(old.side) == side_number(new.side)
        && old.mute as u8 == new.mute as u8
}

pub(crate) fn last_start(clips: &[Clip]) -> u64
    requires { 0 < length clips.now }
    ensures { result ≡ change.last_start clips.now }
{
    clips[clips.len() - 1].start
}

pub(crate) fn last_blocks(clips: &[Clip]) -> &Sequence
    requires { 0 < length clips.now }
    ensures { result.now ≡ change.last_blocks clips.now }
{
    &clips[clips.len() - 1].blocks
}

/// Where there is a last clip, and all but its blocks is the same, how many of these are known.
fn same_but_last(old: &[Clip], new: &[Clip], front: usize) -> Option<usize>
    requires known { HasFront front (layout_blocks old.now) (layout_blocks new.now) }
    ensures value { is_some result ≡ change.same_but_last old.now new.now }
    ensures old { IsSome result → 0 < length old.now }
    ensures new { IsSome result → 0 < length new.now }
    ensures left { IfSome result (λ left. HasFront left (change.last_blocks old.now) (change.last_blocks new.now)) }
{
    if old.is_empty() || new.is_empty() {
        return None;
    }
    if last_start(old) != last_start(new) {
        return None;
    }
    same_clips(&old[..old.len() - 1], &new[..new.len() - 1], front)
}

/// Whether the layouts have one number, and it is not 0.
fn same_number(old: &Track, new: &Track) -> bool
    ensures { result ≡ are_numbered_alike old.now new.now }
{
    new.number == old.number && new.number > 0
}

/// How the blocks of the last clip change, where all other clips are the same, and it begins at the same place.
fn last_change(old: &Sequence, new: &Sequence, front: usize) -> Choice
    requires known { HasFront front old.now new.now }
    ensures value { result ≡ last_choice old.now new.now }
    ensures few { length old.now ≤ MAX_CELLS }
{
    let kept = common_len(old, new, front);
    let gone = old.count() - kept;
    if gone == 0 && old.count() == new.count() {
        return Choice::Same;
    }
    Choice::Tail { gone, kept }
}

/// The shortest way to tell clips by others, in one pass over both.
fn clips_change(old: &[Clip], new: &[Clip], front: usize) -> Choice
    requires known { HasFront front (layout_blocks old.now) (layout_blocks new.now) }
    ensures value { result ≡ clips_choice old.now new.now }
    ensures within { LiesIn new.now result }
{
    if let Some(left) = same_but_last(old, new, front) {
        return last_change(last_blocks(old), last_blocks(new), left);
    }
    if old.is_empty() && new.is_empty() {
        return Choice::Same;
    }
    Choice::Whole
}

/// How many blocks both layouts are known to begin with. Layouts of one number may be two that have none, so nothing
/// is known of them.
fn known_front(old: &Track, new: &Track, kept: Kept) -> usize
    requires kept { StaysOrKeeps kept old.now new.now }
    ensures { HasFront result (layout_blocks old.now.layout) (layout_blocks new.now.layout) }
{
    if old.number == new.number {
        return 0;
    }
    kept.front
}

/// The shortest way to tell a track by the one of the current point with the same id. Of layouts that have one number
/// it reads no clip, and of others it compares no block that is kept at the front.
pub(crate) fn choose(old: &Track, new: &Track, kept: Kept) -> Choice
    requires numbers { NumbersAgree old.now new.now }
    requires kept { StaysOrKeeps kept old.now new.now }
    ensures value { change_by new.now result ≡ change.change_of (Some old.now) new.now }
    ensures within { LiesWithin new.now result }
{
    if !same_settings(old, new) {
        return Choice::Whole;
    }
    if same_number(old, new) {
        return Choice::Same;
    }
    clips_change(
        old.layout.as_slice(),
        new.layout.as_slice(),
        known_front(old, new, kept),
    )
}
