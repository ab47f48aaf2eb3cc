// A point that is recorded under a tag: after the current one, or in its place.
ghost use Rattle.std.specs.Prelude.{◌≡◌, ℕ, ◌+◌, ◌≤◌, ◌<◌, ◌^◌, length};
ghost use Rattle.pcm_base.specs.declared.limits.TheConstants.{COUNTER_LIMIT};
ghost use Rattle.block_ledger.specs.Counts.{occurrences};
ghost use Rattle.row_ledger.specs.Lists.{counts_of};
ghost use Rattle.layout_uses.specs.Tallies.{uses_of};
ghost use Rattle.pcm_base.specs.History.{recorded};
ghost use Rattle.project_state.specs.Kept.{KeepsTracks};
ghost use Rattle.record_body.specs.Saved.{current_tracks};
ghost use Rattle.layout_uses.specs.Layouts.{history_tracks, track_blocks};
ghost use Rattle.layout_uses.specs.Occurrences.{HasIds, times_named};
ghost use Rattle.layout_uses.specs.Tallies.{Becomes, MayBecome};
ghost use Rattle.editor_core.specs.Core.{core_of};

use super::studio::Studio;
use clip_track::Kept;
use disk_model::Store;
use layout_uses::{Tally, count_amend, count_edit};
use project_state::Point;
use undo_history::History;

// A point is to be recorded under a tag: it uses its layouts, and the points that go use theirs no more. Its tracks keep
// as many blocks of the current ones as `kept` says.
#[tactic(auto, using(crate::proofs::PointCounts::becomes_in_place, crate::proofs::PointCounts::becomes_behind))]
fn count_recorded(tally: &mut Tally, history: &History<Point>, point: &Point, tag: u64, kept: Kept)
    requires room { length point.now ≤ tally.old.uses.spare }
    requires there { HasIds (counts_of tally.old.ledger) (track_blocks point.now) }
    requires few { (id : ℕ) →
        occurrences (counts_of tally.old.ledger id) + times_named id (track_blocks point.now) < 2 ^ 128 }
    requires counted { MayBecome point.now (history_tracks history.now.history) tally.old }
    requires kept { KeepsTracks kept (current_tracks history.now.history) point.now }
    ensures { Becomes point.now (history_tracks history.now.history)
        (history_tracks (recorded history.now.history point.now tag)) tally.old tally.new }
{
    if history.continues(tag) {
        count_amend(tally, history, point);
    } else {
        count_edit(tally, history, point, kept);
    }
}

impl<S: Store> Studio<S> {
    // Records a point under a tag, with this many track ids and layout numbers given. It uses its layouts, and the
    // points that go use theirs no more. It takes no memory.
    pub(crate) fn take_recorded(
        &mut self,
        point: Point,
        tag: u64,
        tracks: u64,
        layouts: u64,
        kept: Kept,
    )
        requires ids { self.old.next_track + tracks ≤ COUNTER_LIMIT }
        requires layouts { self.old.next_layout + layouts ≤ COUNTER_LIMIT }
        requires uses { length point ≤ self.old.tally.uses.spare }
        requires there { HasIds (counts_of self.old.tally.ledger) (track_blocks point) }
        requires few { (id : ℕ) →
            occurrences (counts_of self.old.tally.ledger id) + times_named id (track_blocks point) < 2 ^ 128 }
        requires counted { MayBecome point (history_tracks self.old.history.history) self.old.tally }
        requires kept { KeepsTracks kept (current_tracks self.old.history.history) point }
        requires room { length self.old.history.history.points < self.old.history.capacity }
        ensures fields { core_of self.new ≡ record (core_of self.old) {
          history = recorded self.old.history.history point tag;
          uses = uses_of self.new.tally;
          counts = counts_of self.new.tally.ledger;
          next_track = self.old.next_track + tracks;
          next_layout = self.old.next_layout + layouts;
        } }
        ensures counts { Becomes point (history_tracks self.old.history.history)
            (history_tracks (recorded self.old.history.history point tag)) self.old.tally self.new.tally }
    {
        count_recorded(&mut self.tally, &self.history, &point, tag, kept);
        let _ = self.history.record(point, tag);
        self.next_track += tracks;
        self.next_layout += layouts;
    }
}
