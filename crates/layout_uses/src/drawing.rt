// Layouts that get their numbers as a point is taken over from a record.
ghost use Rattle.std.specs.Prelude.{◌≡◌, ◌+◌, ◌≤◌, ◌<◌, ◌^◌, ◌++◌, ◌∷◌, [], IsTrue, IfOk, IfSome, length, slice_get, Some};
ghost use Rattle.pcm_base.specs.declared.limits.TheConstants.{COUNTER_LIMIT, MAX_TRACKS};
ghost use Rattle.project_state.specs.declared.track.Track.{Track};
ghost use Rattle.project_state.specs.Tracks.{AllBelow};
ghost use Rattle.project_state.specs.Numbers.{AreNewOrCurrent, unnumbered};
ghost use Rattle.layout_uses.specs.Drawing.{Draws, DrawsPoint};

use block_sequence::Sequence;
use clip_track::Clip;
use pcm_base::NoMemory;
use project_state::{Point, Track};
use std::alloc::Global;

#[tactic(auto, using(block_sequence::proofs::Fronts::common_all))]
fn same_blocks(a: &Sequence, b: &Sequence) -> bool
    ensures { IsTrue result → a.now ≡ b.now }
{
    let count = a.count();
    if b.count() != count {
        return false;
    }
    if a.common(b, 0) != count {
        return false;
    }
    true
}

fn same_clips(a: &[Clip], b: &[Clip]) -> bool
    ensures { IsTrue result → a.now ≡ b.now }
{
    if a.len() != b.len() {
        return false;
    }
    for i in 0..a.len() {
        if a[i].start != b[i].start || !same_blocks(&a[i].blocks, &b[i].blocks) {
            return false;
        }
    }
    true
}

// Where the current point has a track of the same id with the same layout. The place `first` is looked at first.
fn like_at(track: &Track, current: &Point, first: usize) -> Option<usize>
    ensures within { IfSome result (λ i. i < length current.now) }
    ensures like { IfSome result (λ i. (t : Track) → slice_get current.now i ≡ Some t
        → (t.id ≡ track.now.id) × (t.layout ≡ track.now.layout)) }
{
    let Some(i) = current.place_of(track.id, first) else {
        return None;
    };
    let old = current.track_at(i);
    if same_clips(old.layout.as_slice(), track.layout.as_slice()) {
        return Some(i);
    }
    None
}

// Whether tracks are heard the same way.
fn same_settings(a: &Track, b: &Track) -> bool
    ensures { IsTrue result → (a.now.gain ≡ b.now.gain) × (a.now.side ≡ b.now.side) × (a.now.mute ≡ b.now.mute) }
{
    a.gain == b.gain && a.side == b.side && a.mute == b.mute
}

// The track with this number, and with the layout of another one, which both share then.
fn with_layout(track: &Track, number: u64, like: &Track) -> Result<Track, NoMemory>
    ensures { IfOk result (λ t. t ≡ record track.now { number = number; layout = like.now.layout }) }
{
    Ok(Track {
        id: track.id,
        gain: track.gain,
        side: track.side,
        mute: track.mute,
        number,
        layout: like.layout.copy()?,
    })
}

// Puts a track without a number after the others: with the number of the current track of its id, where that one has
// the same layout, or with the next number. A track that is the current one but for its number is that one, which both
// points have then. The current point has it at the place `first` mostly. It returns the number.
fn draw_new(
    point: &mut Point,
    track: &Track,
    current: &Point,
    first: usize,
    next: u64,
) -> Result<u64, NoMemory>
    requires above { AllBelow track.now.id point.old }
    requires few { length point.old < MAX_TRACKS }
    ensures { IfOk result (λ number. (t : Track) × (point.new ≡ point.old ++ t ∷ [])
        × (unnumbered t ≡ unnumbered track.now) × (t.number ≡ number) × Draws t.layout current.now next number) }
{
    let Some(i) = like_at(track, current, first) else {
        point.push(with_layout(track, next, track)?)?;
        return Ok(next);
    };
    let old = current.track_at(i);
    if same_settings(old, track) {
        point.share(current, i)?;
        return Ok(old.number);
    }
    point.push(with_layout(track, old.number, old)?)?;
    Ok(old.number)
}

// Puts a track, which stands at a place of some, after the others. One that has a number is the current one: both
// points have it then, and no clip is compared. It returns the number.
fn draw_track(
    point: &mut Point,
    tracks: &Point,
    i: usize,
    track: &Track,
    current: &Point,
    next: u64,
) -> Result<u64, NoMemory>
    requires within { i < length tracks.now }
    requires here { slice_get tracks.now i ≡ Some track.now }
    requires kept { AreNewOrCurrent current.now tracks.now }
    requires above { AllBelow track.now.id point.old }
    requires few { length point.old < MAX_TRACKS }
    ensures { IfOk result (λ number. (t : Track) × (point.new ≡ point.old ++ t ∷ [])
        × (unnumbered t ≡ unnumbered track.now) × (t.number ≡ number) × Draws t.layout current.now next number) }
{
    let number = track.number;
    if number > 0 {
        point.share(tracks, i)?;
        return Ok(number);
    }
    draw_new(point, track, current, i, next)
}

// The next number, where this one may be it.
fn next_after(number: u64, next: u64) -> u64
    requires { next < 2 ^ 63 }
    ensures least { next ≤ result }
    ensures most { result ≤ next + 1 }
    ensures given { number ≡ next → next < result }
{
    if number == next { next + 1 } else { next }
}

/// A point whose layouts have their numbers, and the number that the next new layout gets.
#[derive(Drop)]
pub struct Drawn {
    pub point: Point,
    pub next: u64,
}

/// The point that a record says, as it stands after the current one: each layout that the current point's track of the
/// same id has too is that one, with its number, and each other gets a number of its own. A track that is the current
/// point's but for its number is that one, which both points have then. One that has a number already is the current
/// one, and stays.
///
/// # Errors
///
/// There is no memory for the point.
pub fn draw_numbers(
    alloc: Global,
    tracks: &Point,
    current: &Point,
    next: u64,
) -> Result<Drawn, NoMemory>
    requires next { next ≤ COUNTER_LIMIT }
    requires kept { AreNewOrCurrent current.now tracks.now }
    ensures { IfOk result (λ drawn. DrawsPoint tracks.now current.now next drawn.point drawn.next) }
{
    let mut point = Point::new(alloc);
    let mut after = next;
    for i in 0..tracks.len() {
        let track = tracks.track_at(i);
        let number = draw_track(&mut point, tracks, i, track, current, after)?;
        after = next_after(number, after);
    }
    Ok(Drawn { point, next: after })
}
