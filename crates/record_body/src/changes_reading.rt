// Tracks out of the bytes that tell them by the current point.
ghost use Rattle.std.specs.Prelude.{◌≡◌, ◌+◌, ◌*◌, ◌-◌, ◌≤◌, ◌<◌, ◌++◌, ◌∷◌, ⊤, [], length, Some, None};
ghost use Rattle.std.specs.Prelude.{IfOk, List, slice_get};
ghost use Rattle.pcm_base.specs.declared.limits.TheConstants.{MAX_TRACKS};
ghost use Rattle.record_body.specs.ChangePlaces as there;
ghost use Rattle.record_body.specs.ChangeTests as test;
ghost use Rattle.record_body.specs.FirstFault.{Tells, Finds};
ghost use Rattle.record_body.specs.Lengths.{AreHalfFull};
ghost use Rattle.record_body.specs.Told.{AddsTold, AreDiff};
ghost use Rattle.project_state.specs.declared.track.Track.{Track};
ghost use Rattle.project_state.specs.Numbers.{unnumbered};
ghost use Rattle.project_state.specs.Tracks.{AllBelow, track_of};
ghost use Rattle.project_journal.specs.{Fields.field, declared.fault.Damaged.Damaged};

use super::bounds::{most, place, wanted};
use super::limits::{BadBody, Limits};
use super::reading::{read_whole, test_id};
use super::tails_reading::read_tail;
use super::writing::track_len;
use project_journal::{Damaged, first_failure, u8_at, u32_at, u64_at};
use project_state::{Point, Track};
use std::alloc::Global;

/// A place in the bytes where a track begins, and the bounds of what stands there.
#[derive(Clone, Copy)]
struct Place {
    at: usize,
    limits: Limits,
}

/// Tests a mark.
fn test_mark(at: u64, want: u8, mark: u8) -> Result<(), Damaged>
    ensures { Tells (test.mark_tests at want mark) (λ _. ⊤) result }
{
    first_failure(&[
        most(at, 2, mark as u64),
        wanted(at, want as u64, mark as u64),
    ])
}

/// Adds a track that was read after the others.
fn add_read(track: Result<Track, BadBody>, point: &mut Point) -> Result<(), BadBody>
    requires above { IfOk track (λ t. AllBelow t.id point.old) }
    requires few { length point.old < MAX_TRACKS }
    ensures { (tests : List Damaged) (t : Track) → Finds tests (λ x. x ≡ t) track
        → Finds tests (λ _. point.new ≡ point.old ++ t ∷ []) result }
{
    point.push(track?)?;
    Ok(())
}

/// The mark that a track has to have where the current point has it and this mark is there. One without clips is
/// written out if it changes.
fn wanted_mark(old: &Track, mark: u8) -> u8
    ensures { result ≡ test.mark_want (Some old.now) mark }
{
    if mark == 2 && old.layout.as_slice().is_empty() {
        1
    } else {
        mark
    }
}

/// Adds the track at a place, which the current point has at its place `i`, after the others. Where it is said to be
/// the same, both points have it then, with its number.
fn add_known(
    alloc: Global,
    bytes: &[u8],
    start: Place,
    current: &Point,
    i: usize,
    point: &mut Point,
) -> Result<(), BadBody>
    requires within { there.HasDiff start.at bytes.now }
    requires here { i < length current.now }
    requires found { (t : Track) → slice_get current.now i ≡ Some t
        → track_of (field start.at 8 bytes.now) current.now ≡ Some t }
    requires half_full { AreHalfFull start.limits.block_size current.now }
    requires above { AllBelow (field start.at 8 bytes.now) point.old }
    requires few { length point.old < MAX_TRACKS }
    ensures { Finds (test.change_tests start.limits (track_of (field start.at 8 bytes.now) current.now) start.at
        bytes.now) (λ _. AddsTold current.now (track_of (field start.at 8 bytes.now) current.now) start.at bytes.now
        point.old point.new) result }
{
    let old = current.track_at(i);
    let mark = u8_at(bytes, start.at + 8);
    let mark_place = place(start.limits.base, start.at + 8);
    test_mark(mark_place, wanted_mark(old, mark), mark)?;
    if mark == 0 {
        point.share(current, i)?;
        return Ok(());
    }
    if mark == 1 {
        let track = read_whole(alloc, bytes, start.at + 1, start.limits, old.id);
        return add_read(track, point);
    }
    add_read(read_tail(alloc, bytes, start.at, start.limits, old), point)
}

/// Adds the track at a place, whose id the current point lacks, after the others.
fn add_new(
    alloc: Global,
    bytes: &[u8],
    at: usize,
    limits: Limits,
    point: &mut Point,
) -> Result<(), BadBody>
    requires within { there.HasDiff at bytes.now }
    requires above { AllBelow (field at 8 bytes.now) point.old }
    requires few { length point.old < MAX_TRACKS }
    ensures { Finds (test.change_tests limits None at bytes.now)
        (λ _. point.new ≡ point.old ++ there.whole_at at bytes.now ∷ []) result }
{
    test_mark(place(limits.base, at + 8), 1, u8_at(bytes, at + 8))?;
    let track = read_whole(alloc, bytes, at + 1, limits, u64_at(bytes, at));
    add_read(track, point)
}

/// Adds the track at a place, by the current point, after the others. Its id is to be no lower than a number. It is
/// first looked for at the place of the current point that it takes among the others.
fn add_told(
    alloc: Global,
    bytes: &[u8],
    start: Place,
    from: u64,
    current: &Point,
    point: &mut Point,
) -> Result<(), BadBody>
    requires within { there.HasDiff start.at bytes.now }
    requires half_full { AreHalfFull start.limits.block_size current.now }
    requires below { AllBelow from point.old }
    requires few { length point.old < MAX_TRACKS }
    ensures { Finds (test.diff_tests start.limits current.now from start.at bytes.now)
        (λ _. AddsTold current.now (track_of (field start.at 8 bytes.now) current.now) start.at bytes.now point.old
        point.new) result }
{
    test_id(bytes, start.at, start.limits, from)?;
    match current.place_of(u64_at(bytes, start.at), point.len()) {
        Some(i) => add_known(alloc, bytes, start, current, i, point),
        None => add_new(alloc, bytes, start.at, start.limits, point),
    }
}

/// How many bytes tell the track at a place, whose mark is known.
fn diff_len_at(bytes: &[u8], at: usize, track: &Track) -> usize
    requires within { there.HasDiff at bytes.now }
    requires known { there.mark_at at bytes.now ≤ 2 }
    requires whole { there.mark_at at bytes.now ≡ 1 → unnumbered track.now ≡ there.whole_at at bytes.now }
    ensures { result ≡ there.diff_size at bytes.now }
{
    match u8_at(bytes, at + 8) {
        0 => 9,
        1 => 1 + track_len(track),
        _ => 17 + 12 * u32_at(bytes, at + 13) as usize,
    }
}

/// This many tracks from a place on, by the current point. A track that is said to be the same is the current one,
/// which both points have then, with its number. All others have none.
pub(crate) fn read_all_diff(
    alloc: Global,
    bytes: &[u8],
    at: usize,
    count: u32,
    limits: Limits,
    current: &Point,
) -> Result<Point, BadBody>
    requires within { there.HaveDiff count at bytes.now }
    requires few { count ≤ MAX_TRACKS }
    requires half_full { AreHalfFull limits.block_size current.now }
    ensures { Finds (test.all_diff_tests limits current.now count 0 at bytes.now)
        (AreDiff current.now count at bytes.now) result }
{
    let mut point = Point::new(alloc);
    let mut next = at;
    let mut from = 0;
    for _ in 0..count {
        let start = Place { at: next, limits };
        add_told(alloc, bytes, start, from, current, &mut point)?;
        let last = point.len() - 1;
        let track = point.track_at(last);
        next += diff_len_at(bytes, next, track);
        from = track.id + 1;
    }
    Ok(point)
}
