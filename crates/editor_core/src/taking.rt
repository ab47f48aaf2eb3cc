// What an edit without new blocks does once its point is made: the record that says it, and the point after the
// current one.
ghost use Rattle.std.specs.Prelude.{◌≡◌, ℕ, ◌+◌, ◌≤◌, ◌<◌, ◌^◌, IfOk, OnOk, length};
ghost use Rattle.pcm_base.specs.declared.limits.TheConstants.{COUNTER_LIMIT, MAX_TRACKS};
ghost use Rattle.block_cache.specs.Caches.{AllPass};
ghost use Rattle.block_ledger.specs.Counts.{occurrences};
ghost use Rattle.row_ledger.specs.Lists.{counts_of};
ghost use Rattle.layout_uses.specs.Tallies.{uses_of};
ghost use Rattle.pcm_base.specs.History.{edited};
ghost use Rattle.record_body.specs.Saved.{current_tracks};
ghost use Rattle.project_state.specs.Numbers.{AgreeById};
ghost use Rattle.record_body.specs.Numbers.{BodyAgrees};
ghost use Rattle.record_body.specs.declared.body.Body.TheVariants.{Edit};
ghost use Rattle.layout_uses.specs.Layouts.{history_tracks, track_blocks};
ghost use Rattle.layout_uses.specs.Occurrences.{HasIds, times_named};
ghost use Rattle.layout_uses.specs.Tallies.{Becomes, MayBecome};
ghost use Rattle.editor_state.specs.Adding.{AddsBody, AddsDrawn};
ghost use Rattle.editor_state.specs.Bodies.{single};
ghost use Rattle.editor_core.specs.Core.{core_of};
ghost use Rattle.editor_state.specs.Given.{is_block};

use super::studio::Studio;
use clip_track::Kept;
use disk_model::Store;
use layout_uses::count_edit;
use pcm_base::{MAX_TRACKS, NoMemory, Refusal};
use project_state::Point;
use record_body::{Body, body_len};

impl<S: Store> Studio<S> {
    // Makes room in memory for one point more and for the uses of its layouts.
    pub(crate) fn make_room(&mut self) -> Result<(), NoMemory>
        ensures same { core_of self.new ≡ core_of self.old }
        ensures ledger { self.new.tally.ledger ≡ self.old.tally.ledger }
        ensures ok { OnOk result (length self.new.history.history.points < self.new.history.capacity) }
        ensures uses { OnOk result (MAX_TRACKS ≤ self.new.tally.uses.spare) }
    {
        self.tally.reserve(MAX_TRACKS as u64)?;
        self.history.reserve()
    }

    // Writes the body of a record and adds it.
    pub(crate) fn commit_body(&mut self, body: &Body) -> Result<(), Refusal>
        requires numbers { BodyAgrees (current_tracks self.old.history.history) body.now }
        requires room { self.old.commit_number < COUNTER_LIMIT }
        requires end { self.old.journal_end ≤ COUNTER_LIMIT }
        requires file { self.old.file ≤ 1 }
        requires pages { AllPass is_block self.old.reader.cache }
        ensures record { AddsBody S.Store (core_of self.old) (single body.now) result (core_of self.new) }
        ensures history { self.new.history ≡ self.old.history }
        ensures ledger { self.new.tally ≡ self.old.tally }
    {
        self.may_record(body, Kept::none())?;
        self.write_record(body, Kept::none())?;
        self.commit_written()
    }

    // The same of an edit that gives this many track ids and layout numbers; the point comes back. It is refused too
    // where numbers of layouts are not left.
    pub(crate) fn commit_point(
        &mut self,
        point: Point,
        tracks: u64,
        layouts: u64,
    ) -> Result<Point, Refusal>
        requires numbers { AgreeById (current_tracks self.old.history.history) point }
        requires room { self.old.commit_number < COUNTER_LIMIT }
        requires ids { self.old.next_track + tracks ≤ COUNTER_LIMIT }
        requires end { self.old.journal_end ≤ COUNTER_LIMIT }
        requires layouts { self.old.next_layout ≤ COUNTER_LIMIT }
        requires file { self.old.file ≤ 1 }
        requires pages { AllPass is_block self.old.reader.cache }
        ensures record { AddsDrawn S.Store (core_of self.old) layouts
            (single (Edit 0 self.old.next_block (self.old.next_track + tracks) point)) result (core_of self.new) }
        ensures same { IfOk result (λ p. p ≡ point) }
        ensures history { self.new.history ≡ self.old.history }
        ensures ledger { self.new.tally ≡ self.old.tally }
    {
        let body = Body::Edit {
            tag: 0,
            next_block: self.next_block,
            next_track: self.next_track + tracks,
            point,
        };
        self.may_draw(body_len(&body) as u64, layouts)?;
        self.commit_body(&body)?;
        let Body::Edit { point, .. } = body else {
            unreachable!();
        };
        Ok(point)
    }

    // Puts a point after the current one, with this many track ids and layout numbers given. It uses its layouts, and
    // the points that go use theirs no more.
    pub(crate) fn take_point(&mut self, point: Point, tracks: u64, layouts: u64)
        requires ids { self.old.next_track + tracks ≤ COUNTER_LIMIT }
        requires layouts { self.old.next_layout + layouts ≤ COUNTER_LIMIT }
        requires uses { length point ≤ self.old.tally.uses.spare }
        requires there { HasIds (counts_of self.old.tally.ledger) (track_blocks point) }
        requires few { (id : ℕ) →
            occurrences (counts_of self.old.tally.ledger id) + times_named id (track_blocks point) < 2 ^ 128 }
        requires counted { MayBecome point (history_tracks self.old.history.history) self.old.tally }
        requires room { length self.old.history.history.points < self.old.history.capacity }
        ensures fields { core_of self.new ≡ record (core_of self.old) {
          history = edited self.old.history.history point 0;
          uses = uses_of self.new.tally;
          counts = counts_of self.new.tally.ledger;
          next_track = self.old.next_track + tracks;
          next_layout = self.old.next_layout + layouts;
        } }
        ensures counts { Becomes point (history_tracks self.old.history.history)
            (history_tracks (edited self.old.history.history point 0)) self.old.tally self.new.tally }
    {
        count_edit(&mut self.tally, &self.history, &point, Kept::none());
        let _ = self.history.push(point, 0);
        self.next_track += tracks;
        self.next_layout += layouts;
    }
}
