// A record's body, by the version of its journal.
ghost use Rattle.std.specs.Prelude.{◌≡◌, IfOk, map};
ghost use Rattle.project_state.specs.Numbers.{unnumbered};
ghost use Rattle.record_body.specs.FirstFault.{Finds};
ghost use Rattle.record_body.specs.Saved.{current_tracks};
ghost use Rattle.record_body.specs.Numbers.{unnumbered_body};
ghost use Rattle.record_body.specs.Valid.{IsValidPoint};
ghost use Rattle.record_body.specs.Told.{BodyShares};
ghost use Rattle.journal_replay.specs.Faults.{field_tests, IsSaid};

use project_state::Point;
use record_body::{BadBody, Before, Body, read_body, read_delta_body};
use std::alloc::Global;
use undo_history::History;

/// The current point.
pub(crate) fn current_of(history: &History<Point>) -> &Point
    ensures { result.now ≡ current_tracks history.now.history }
{
    history.point(history.cursor())
}

/// Reads the body of a record in a journal of this version. After version 1 an edit may be written by the current
/// point. What it says has no numbers. A track of the body has none either, or is the current one with its number.
pub(crate) fn read_record(
    alloc: Global,
    bytes: &[u8],
    version: u32,
    m: u32,
    before: Before,
    current: &Point,
) -> Result<Body, BadBody>
    requires { IsValidPoint m before.next_block before.next_track current.now }
    ensures found { Finds (field_tests version m before (map unnumbered current.now) bytes.now)
        (λ b. IsSaid version m before (map unnumbered current.now) bytes.now (unnumbered_body b)) result }
    ensures shared { IfOk result (BodyShares current.now) }
{
    if version < 2 {
        return read_body(alloc, bytes, m, before);
    }
    read_delta_body(alloc, bytes, m, before, current)
}
