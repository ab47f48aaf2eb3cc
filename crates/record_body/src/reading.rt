// A body out of its bytes.
ghost use Rattle.std.specs.Prelude.{◌≡◌, ◌+◌, ◌≤◌, ◌<◌, ⊤, [], ◌∷◌, length, slice_index, MatchResult};
ghost use Rattle.record_body.specs.Places as there;
ghost use Rattle.record_body.specs.FirstFault as test;
ghost use Rattle.record_body.specs.ChangeTests as change;
ghost use Rattle.record_body.specs.FirstFault.{Tells, Finds};
ghost use Rattle.record_body.specs.Valid.{IsValidBody};
ghost use Rattle.record_body.specs.declared.body.Body.{Body};
ghost use Rattle.record_body.specs.declared.limits.BadBody.TheVariants as bad;
ghost use Rattle.record_body.specs.Spelling.{spelling};

use super::body::Body;
use super::bounds::{least, length, most, place, wanted};
use super::kinds::{EDIT_KIND, PURGE_KIND, REDO_KIND, UNDO_KIND};
use super::limits::{BadBody, Before, Limits};
use super::measuring::asked_len;
use super::reading_clips::read_clips;
use super::writing::track_len;
use pcm_base::{COUNTER_LIMIT, FIRST_BLOCK, MAX_GAIN, MAX_TRACKS, Side};
use project_journal::{Damaged, first_failure, u8_at, u32_at, u64_at};
use project_state::{Point, Track};
use std::alloc::Global;

/// Tests the id of the track at a place, which is to be no lower than a number.
pub(crate) fn test_id(bytes: &[u8], at: usize, limits: Limits, from: u64) -> Result<(), Damaged>
    requires within { at + 8 ≤ length bytes.now }
    ensures { Tells (change.id_tests limits from at bytes.now) (λ _. ⊤) result }
{
    let id = u64_at(bytes, at);
    let id_place = place(limits.base, at);
    first_failure(&[
        least(id_place, 1, id),
        least(id_place, from, id),
        most(id_place, limits.next_track.saturating_sub(1), id),
    ])
}

pub(crate) fn side_of(number: u8) -> Side
    ensures { result ≡ there.side_of number }
{
    match number {
        0 => Side::Both,
        1 => Side::Left,
        _ => Side::Right,
    }
}

/// Tests gain, side and mute of a track whose id would stand at a place.
fn test_how(bytes: &[u8], at: usize, limits: Limits) -> Result<(), Damaged>
    requires within { at + 14 ≤ length bytes.now }
    ensures { Tells (change.how_tests limits at bytes.now) (λ _. ⊤) result }
{
    first_failure(&[
        most(
            place(limits.base, at + 8),
            MAX_GAIN as u64,
            u32_at(bytes, at + 8) as u64,
        ),
        most(place(limits.base, at + 12), 2, u8_at(bytes, at + 12) as u64),
        most(place(limits.base, at + 13), 1, u8_at(bytes, at + 13) as u64),
    ])
}

/// The track with this id that is written out, where its id would stand at a place.
pub(crate) fn read_whole(
    alloc: Global,
    bytes: &[u8],
    at: usize,
    limits: Limits,
    id: u64,
) -> Result<Track, BadBody>
    requires within { at + there.track_size at bytes.now ≤ length bytes.now }
    ensures { Finds (change.whole_tests limits at bytes.now) (λ t. t ≡ record (there.track_at at bytes.now) { id = id })
        result }
{
    test_how(bytes, at, limits)?;
    let clip_count = u32_at(bytes, at + 14);
    let layout = read_clips(alloc, bytes, at + 18, clip_count, limits)?;
    Ok(Track {
        id,
        gain: u32_at(bytes, at + 8),
        side: side_of(u8_at(bytes, at + 12)),
        mute: u8_at(bytes, at + 13) > 0,
        number: 0,
        layout,
    })
}

/// The track at a place, whose id is to be no lower than a number.
fn read_track(
    alloc: Global,
    bytes: &[u8],
    at: usize,
    limits: Limits,
    from: u64,
) -> Result<Track, BadBody>
    requires within { at + there.track_size at bytes.now ≤ length bytes.now }
    ensures { Finds (test.track_tests limits from at bytes.now) (λ t. t ≡ there.track_at at bytes.now) result }
{
    test_id(bytes, at, limits, from)?;
    read_whole(alloc, bytes, at, limits, u64_at(bytes, at))
}

/// This many tracks from a place on.
pub(crate) fn read_tracks(
    alloc: Global,
    bytes: &[u8],
    at: usize,
    count: u32,
    limits: Limits,
) -> Result<Point, BadBody>
    requires within { at + there.tracks_size count at bytes.now ≤ length bytes.now }
    requires few { count ≤ MAX_TRACKS }
    ensures { Finds (test.tracks_tests limits count 0 at bytes.now)
        (λ p. p ≡ there.tracks_at count at bytes.now) result }
{
    let mut point = Point::new(alloc);
    let mut next = at;
    let mut from = 0;
    for _ in 0..count {
        let track = read_track(alloc, bytes, next, limits, from)?;
        next += track_len(&track);
        from = track.id + 1;
        point.push(track)?;
    }
    Ok(point)
}

/// Tests what an edit has in front of its tracks, and gives their bounds.
pub(crate) fn read_head(bytes: &[u8], m: u32, before: Before) -> Result<Limits, Damaged>
    requires within { 29 ≤ length bytes.now }
    ensures { Tells (test.head_tests before bytes.now) (λ l. l ≡ test.limits_at m before bytes.now) result }
{
    let next_block = u64_at(bytes, 9);
    let next_track = u64_at(bytes, 17);
    let block_place = place(before.at, 9);
    let track_place = place(before.at, 17);
    first_failure(&[
        most(place(before.at, 1), before.commits, u64_at(bytes, 1)),
        least(block_place, FIRST_BLOCK, next_block),
        most(block_place, COUNTER_LIMIT, next_block),
        least(block_place, before.next_block, next_block),
        least(track_place, 1, next_track),
        most(track_place, COUNTER_LIMIT, next_track),
        least(track_place, before.next_track, next_track),
        most(
            place(before.at, 25),
            MAX_TRACKS as u64,
            u32_at(bytes, 25) as u64,
        ),
    ])?;
    Ok(Limits {
        base: before.at,
        block_size: m,
        next_block,
        next_track,
    })
}

fn read_edit(alloc: Global, bytes: &[u8], m: u32, before: Before) -> Result<Body, BadBody>
    requires within { 29 + there.tracks_size (there.track_count bytes.now) 29 bytes.now ≤ length bytes.now }
    ensures { Finds (test.edit_tests m before bytes.now) (λ b. b ≡ there.edit_at bytes.now) result }
{
    let limits = read_head(bytes, m, before)?;
    let point = read_tracks(alloc, bytes, 29, u32_at(bytes, 25), limits)?;
    Ok(Body::Edit {
        tag: u64_at(bytes, 1),
        next_block: limits.next_block,
        next_track: limits.next_track,
        point,
    })
}

/// The kind of a body, which is its first byte; 0 where there is none.
pub(crate) fn kind_of(bytes: &[u8]) -> u8
    ensures { result ≡ slice_index bytes.now 0 }
{
    match bytes {
        [kind, ..] => *kind,
        [] => 0,
    }
}

/// Tests the length and the kind.
fn test_outside(bytes: &[u8], before: Before) -> Result<(), Damaged>
    ensures { Tells (test.length_test before bytes.now ∷ test.kind_test before bytes.now ∷ []) (λ _. ⊤) result }
{
    let kind = kind_of(bytes);
    first_failure(&[
        length(before, asked_len(bytes), bytes.len()),
        wanted(
            before.at,
            kind.max(EDIT_KIND).min(PURGE_KIND) as u64,
            kind as u64,
        ),
    ])
}

/// What the bytes say, place by place, where all tests pass.
fn read_fields(alloc: Global, bytes: &[u8], m: u32, before: Before) -> Result<Body, BadBody>
    ensures { Finds (test.body_tests m before bytes.now) (λ b. b ≡ there.body_at bytes.now) result }
{
    test_outside(bytes, before)?;
    match bytes[0] {
        EDIT_KIND => read_edit(alloc, bytes, m, before),
        UNDO_KIND => Ok(Body::Undo),
        REDO_KIND => Ok(Body::Redo),
        _ => Ok(Body::Purge {
            n: u64_at(bytes, 1),
        }),
    }
}

/// Reads a record's body: its bytes alone, without the length and the gates around them. Blocks have at most `m`
/// samples, and `before` is what the journal has in front of it. The one body that is spelled so is what it answers.
///
/// What the history decides (an undo of nothing, a purge of more points than there are) is not tested here.
///
/// # Errors
///
/// `Damaged`: the first field, by its place in the file, that is not as `docs/FORMATS.md` asks. The length in front of
/// the body counts as its first field. `NoMemory`: there is no memory for what the bytes say.
pub fn read_body(alloc: Global, bytes: &[u8], m: u32, before: Before) -> Result<Body, BadBody>
    ensures found { Finds (test.body_tests m before bytes.now)
        (λ b. (spelling b ≡ bytes.now) × IsValidBody m before b) result }
    // A valid body that was written is read back.
    ensures back { (body : Body) → spelling body ≡ bytes.now → IsValidBody m before body → 4 ≤ m
        → MatchResult result (λ b. b ≡ body) (λ e. e ≡ bad.NoMemory) }
{
    read_fields(alloc, bytes, m, before)
}
