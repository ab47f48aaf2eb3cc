// A body out of its bytes, by the current point.
ghost use Rattle.std.specs.Prelude.{◌≡◌, ◌+◌, ◌≤◌, ◌<◌, ⊤, ℕ, [], ◌∷◌, length, IfOk, MatchResult};
ghost use Rattle.record_body.specs.ChangePlaces as there;
ghost use Rattle.record_body.specs.ChangeTests as test;
ghost use Rattle.record_body.specs.Changes.{delta_spelling};
ghost use Rattle.record_body.specs.declared.body.Body.{Body};
ghost use Rattle.record_body.specs.declared.limits.BadBody.TheVariants as bad;
ghost use Rattle.record_body.specs.DeltaBodies.{SaysBody};
ghost use Rattle.record_body.specs.FirstFault.{Tells, Finds};
ghost use Rattle.record_body.specs.Lengths.{AreHalfFull};
ghost use Rattle.record_body.specs.Laws.{HasShortEnds};
ghost use Rattle.record_body.specs.Numbers.{unnumbered_body};
ghost use Rattle.record_body.specs.Places.{track_count};
ghost use Rattle.record_body.specs.Valid.{IsValidBody, IsValidPoint};
ghost use Rattle.record_body.specs.Told.{BodyShares, ReadsBody, ReadsEdit};

use super::body::Body;
use super::bounds::{least, length, wanted};
use super::changes_measuring::asked_delta_len;
use super::changes_reading::read_all_diff;
use super::kinds::{DELTA_KIND, REDO_KIND, UNDO_KIND};
use super::limits::{BadBody, Before};
use super::reading::{kind_of, read_head};
use pcm_base::COUNTER_LIMIT;
use project_journal::{Damaged, first_failure, u32_at, u64_at};
use project_state::Point;
use std::alloc::Global;

fn read_edit_by(
    alloc: Global,
    bytes: &[u8],
    m: u32,
    before: Before,
    current: &Point,
) -> Result<Body, BadBody>
    requires long { 29 ≤ length bytes.now }
    requires within { there.HaveDiff (track_count bytes.now) 29 bytes.now }
    requires half_full { AreHalfFull m current.now }
    ensures { Finds (test.delta_edit_tests m before current.now bytes.now) (ReadsEdit current.now bytes.now) result }
{
    let limits = read_head(bytes, m, before)?;
    let point = read_all_diff(alloc, bytes, 29, u32_at(bytes, 25), limits, current)?;
    Ok(Body::Edit {
        tag: u64_at(bytes, 1),
        next_block: limits.next_block,
        next_track: limits.next_track,
        point,
    })
}

/// Tests the length and the kind, and that a record may follow.
fn test_delta_outside(bytes: &[u8], before: Before) -> Result<(), Damaged>
    ensures { Tells (test.delta_length_test before bytes.now ∷ test.delta_kind_test before bytes.now
        ∷ test.commit_test before ∷ []) (λ _. ⊤) result }
{
    let kind = kind_of(bytes);
    first_failure(&[
        length(before, asked_delta_len(bytes), bytes.len()),
        wanted(
            before.at,
            kind.max(UNDO_KIND).min(DELTA_KIND) as u64,
            kind as u64,
        ),
        least(before.at, 1, COUNTER_LIMIT.saturating_sub(before.commits)),
    ])
}

/// What the bytes say by the current point, where all tests pass.
fn read_by(
    alloc: Global,
    bytes: &[u8],
    m: u32,
    before: Before,
    current: &Point,
) -> Result<Body, BadBody>
    requires { AreHalfFull m current.now }
    ensures { Finds (test.delta_tests m before current.now bytes.now) (ReadsBody current.now bytes.now) result }
{
    test_delta_outside(bytes, before)?;
    match bytes[0] {
        DELTA_KIND => read_edit_by(alloc, bytes, m, before, current),
        UNDO_KIND => Ok(Body::Undo),
        REDO_KIND => Ok(Body::Redo),
        _ => Ok(Body::Purge {
            n: u64_at(bytes, 1),
        }),
    }
}

/// Reads a record's body whose edits are written by the current point, which is half full at `m`. `before` is what the
/// journal has in front of the record. A track that is said to be the same is the current one, with the number of its
/// layout, and both points have it then. Other tracks have no numbers.
///
/// What the history decides (an undo of nothing, a purge of more points than there are) is not tested here.
///
/// # Errors
///
/// `Damaged`: the first field, by its place in the file, that is not as `docs/FORMATS.md` asks. The length in front of
/// the body counts as its first field. `NoMemory`: there is no memory for what the bytes say.
pub fn read_delta_body(
    alloc: Global,
    bytes: &[u8],
    m: u32,
    before: Before,
    current: &Point,
) -> Result<Body, BadBody>
    requires { AreHalfFull m current.now }
    ensures found { Finds (test.delta_tests m before current.now bytes.now)
        (λ b. SaysBody current.now bytes.now (unnumbered_body b)) result }
    ensures shared { IfOk result (BodyShares current.now) }
    // By a valid point the bytes say a valid body.
    ensures valid { (next_track : ℕ) → IsValidPoint m before.next_block next_track current.now
        → IfOk result (λ b. IsValidBody m before (unnumbered_body b)) }
    // A valid body that was written by the current point is read back, but for the numbers.
    ensures back { (body : Body) → delta_spelling current.now body ≡ bytes.now → IsValidBody m before body → 4 ≤ m
        → before.commits < COUNTER_LIMIT → HasShortEnds current.now
        → MatchResult result (λ b. unnumbered_body b ≡ body) (λ e. e ≡ bad.NoMemory) }
{
    read_by(alloc, bytes, m, before, current)
}
