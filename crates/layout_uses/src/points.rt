// Points of a history that come and go.
ghost use Rattle.std.specs.Prelude.{◌≡◌, ◌+◌, ◌≤◌, ◌<◌, ◌^◌, ℕ, [], List, OnOk, Some, length, take, drop, slice_get};
ghost use Rattle.block_ledger.specs.Counts.{occurrences};
ghost use Rattle.row_ledger.specs.Lists.{counts_of};
ghost use Rattle.pcm_base.specs.History.{amended, edited, points_of, purged};
ghost use Rattle.project_state.specs.{Kept.KeepsTracks, declared.track.Track.Track};
ghost use Rattle.layout_uses.specs.Layouts.{history_tracks, points_tracks, track_blocks};
ghost use Rattle.layout_uses.specs.Occurrences.{HasIds, times_named};
ghost use Rattle.layout_uses.specs.Tallies.{Becomes, Comes, Goes, Has, MayBecome};

use super::tally::Tally;
use clip_track::Kept;
use pcm_base::NoMemory;
use project_state::Point;
use undo_history::History;

// The points from one place to another use their layouts no more.
fn leave_points(tally: &mut Tally, history: &History<Point>, from: usize, to: usize)
    requires range { from ≤ to }
    requires within { to ≤ length history.now.history.points }
    requires all { Has (points_tracks (drop from (take to (points_of history.now.history)))) tally.old }
    ensures { Goes (points_tracks (drop from (take to (points_of history.now.history)))) tally.old tally.new }
{
    for i in from..to {
        tally.leave_point(history.point(i));
    }
}

/// A point is to stand after the current one: it uses its layouts, and the points that go for it use theirs no more.
/// Its tracks keep as many blocks of the current ones at both ends as `kept` says. It cannot fail.
pub fn count_edit(tally: &mut Tally, history: &History<Point>, point: &Point, kept: Kept)
    requires room { length point.now ≤ tally.old.uses.spare }
    requires there { HasIds (counts_of tally.old.ledger) (track_blocks point.now) }
    requires few { (id : ℕ) →
        occurrences (counts_of tally.old.ledger id) + times_named id (track_blocks point.now) < 2 ^ 128 }
    requires counted { MayBecome point.now (history_tracks history.now.history) tally.old }
    requires kept { (current : List Track)
        → slice_get (points_of history.now.history) history.now.history.cursor ≡ Some current
        → KeepsTracks kept current point.now }
    ensures { (tag : ℕ) → Becomes point.now (history_tracks history.now.history)
        (history_tracks (edited history.now.history point.now tag)) tally.old tally.new }
{
    let cursor = history.cursor();
    tally.use_point(point, history.point(cursor), kept);
    let len = history.len();
    let kept = cursor + 1;
    leave_points(tally, history, kept, len);
    let depth = history.depth() as usize;
    leave_points(tally, history, 0, (kept + 1).saturating_sub(depth));
}

/// A point is to stand in the place of the current one: it uses its layouts, and the current point and those after it
/// use theirs no more. It cannot fail.
pub fn count_amend(tally: &mut Tally, history: &History<Point>, point: &Point)
    requires room { length point.now ≤ tally.old.uses.spare }
    requires there { HasIds (counts_of tally.old.ledger) (track_blocks point.now) }
    requires few { (id : ℕ) →
        occurrences (counts_of tally.old.ledger id) + times_named id (track_blocks point.now) < 2 ^ 128 }
    requires counted { MayBecome point.now (history_tracks history.now.history) tally.old }
    ensures { Becomes point.now (history_tracks history.now.history)
        (history_tracks (amended history.now.history point.now)) tally.old tally.new }
{
    let cursor = history.cursor();
    tally.use_point(point, history.point(cursor), Kept::none());
    leave_points(tally, history, cursor, history.len());
}

/// This many of the oldest points are to go: they use their layouts no more. It takes no memory.
pub fn count_purge(tally: &mut Tally, history: &History<Point>, count: usize)
    requires within { count ≤ history.now.history.cursor }
    requires counted { MayBecome [] (history_tracks history.now.history) tally.old }
    ensures { Becomes [] (history_tracks history.now.history)
        (history_tracks (purged history.now.history count)) tally.old tally.new }
{
    let _len = history.len();
    leave_points(tally, history, 0, count);
}

/// The points of a history that is taken over use their layouts.
pub fn count_points(tally: &mut Tally, history: &History<Point>) -> Result<(), NoMemory>
    requires there { HasIds (counts_of tally.old.ledger) (track_blocks (history_tracks history.now.history)) }
    requires few { (id : ℕ) → occurrences (counts_of tally.old.ledger id)
        + times_named id (track_blocks (history_tracks history.now.history)) < 2 ^ 128 }
    ensures { OnOk result (Comes (history_tracks history.now.history) tally.old tally.new) }
{
    let last = history.len() - 1;
    for i in (0..history.len()).rev() {
        let point = history.point(i);
        tally.reserve(point.len() as u64)?;
        tally.use_point(point, history.point(last.min(i + 1)), Kept::none());
    }
    Ok(())
}
