// A point of a header out of its bytes.
ghost use Rattle.std.specs.Prelude.{◌≡◌, ◌+◌, ◌≤◌, ⊤, [], ◌∷◌, length};
ghost use Rattle.record_body.specs.FirstFault.{Tells, Finds};
ghost use Rattle.record_body.specs.Saved.{point_bytes};
ghost use Rattle.record_body.specs.Places.{tracks_size};
ghost use Rattle.record_body.specs.PointTests.{asked_point, point_at, point_count, point_field_tests, point_head_tests};
ghost use Rattle.record_body.specs.PointTests.{point_length_test, point_tests, point_widths};
ghost use Rattle.record_body.specs.Valid.{IsValidTagged};
ghost use Rattle.record_body.specs.Widths.{Reaches};

use super::bounds::{length, most, place};
use super::limits::{BadBody, Before, Limits};
use super::measuring::{PastEnd, fit_all, fit_tracks};
use super::reading::read_tracks;
use pcm_base::MAX_TRACKS;
use project_journal::{Damaged, first_failure, u32_at, u64_at};
use project_state::Point;
use std::alloc::Global;

/// Where the point ends.
fn fit_point(bytes: &[u8]) -> Result<usize, PastEnd>
    ensures { Reaches (length bytes.now) 0 (point_widths bytes.now) result }
{
    let end = fit_all(bytes.len(), 0, &[8, 4])?;
    fit_tracks(bytes, end, u32_at(bytes, end - 4))
}

/// The length that the fields ask of the point: up to the end of the first that does not fit, else of the last.
fn asked_point_len(bytes: &[u8]) -> usize
    ensures { result ≡ asked_point bytes.now }
{
    match fit_point(bytes) {
        Ok(end) => end,
        Err(past) => past.end,
    }
}

/// Tests the length.
fn test_point_len(bytes: &[u8], before: Before) -> Result<(), Damaged>
    ensures { Tells (point_length_test before bytes.now ∷ []) (λ _. ⊤) result }
{
    first_failure(&[length(before, asked_point_len(bytes), bytes.len())])
}

/// Tests the tag, and how many tracks there are.
fn test_point_head(bytes: &[u8], before: Before) -> Result<(), Damaged>
    requires within { 12 ≤ length bytes.now }
    ensures { Tells (point_head_tests before bytes.now) (λ _. ⊤) result }
{
    first_failure(&[
        most(place(before.at, 0), before.commits, u64_at(bytes, 0)),
        most(
            place(before.at, 8),
            MAX_TRACKS as u64,
            u32_at(bytes, 8) as u64,
        ),
    ])
}

/// What the bytes say, place by place, where they have the length that is asked.
fn read_point_fields(
    alloc: Global,
    bytes: &[u8],
    m: u32,
    before: Before,
) -> Result<(Point, u64), BadBody>
    requires within { 12 + tracks_size (point_count bytes.now) 12 bytes.now ≤ length bytes.now }
    ensures { Finds (point_field_tests m before bytes.now) (λ p. p ≡ point_at bytes.now) result }
{
    test_point_head(bytes, before)?;
    let limits = Limits {
        base: before.at,
        block_size: m,
        next_block: before.next_block,
        next_track: before.next_track,
    };
    let tracks = read_tracks(alloc, bytes, 12, u32_at(bytes, 8), limits)?;
    Ok((tracks, u64_at(bytes, 0)))
}

/// The same, and if they have another length, that is reported.
fn read_point_whole(
    alloc: Global,
    bytes: &[u8],
    m: u32,
    before: Before,
) -> Result<(Point, u64), BadBody>
    ensures { Finds (point_tests m before bytes.now) (λ p. p ≡ point_at bytes.now) result }
{
    test_point_len(bytes, before)?;
    read_point_fields(alloc, bytes, m, before)
}

/// Reads a point of a journal's header: its bytes alone, without the length in front of them. Blocks have at most `m`
/// samples, and `before` is the point's place in the file and what the header says of the project. The one point, with
/// its tag, that is spelled so is what it answers.
///
/// # Errors
///
/// `Damaged`: the first field, by its place in the file, that is not as `docs/FORMATS.md` asks. The length in front of
/// the point counts as its first field. `NoMemory`: there is no memory for what the bytes say.
pub fn read_point(
    alloc: Global,
    bytes: &[u8],
    m: u32,
    before: Before,
) -> Result<(Point, u64), BadBody>
    ensures { Finds (point_tests m before bytes.now) (λ p. (p ≡ point_at bytes.now) × (point_bytes p ≡ bytes.now)
        × IsValidTagged m before.next_block before.next_track before.commits p) result }
{
    read_point_whole(alloc, bytes, m, before)
}
