// Edits that make no blocks.
ghost use Rattle.std.specs.Prelude.{◌≡◌, ◌+◌, ◌≤◌, IfErr, IfOk, None, nat_lt, length};
ghost use Rattle.pcm_base.specs.declared.limits.TheConstants.{MAX_GAIN};
ghost use Rattle.pcm_base.specs.declared.answer.Reply.TheVariants as reply;
ghost use Rattle.pcm_base.specs.declared.command.Call.TheVariants.{Line};
ghost use Rattle.pcm_base.specs.declared.command.Command.TheVariants as command;
ghost use Rattle.pcm_base.specs.declared.refusal.Refusal.TheVariants as refusal;
ghost use Rattle.pcm_base.specs.Refusals.{refused_if};
ghost use Rattle.envelope_view.specs.Answers.{IsUndamaged};
ghost use Rattle.project_state.specs.Tracks.{AllBelow, track_of};
ghost use Rattle.record_body.specs.Saved.{current_tracks};
ghost use Rattle.editor_core.specs.Core.{core_of};
ghost use Rattle.editor_commits.specs.Plain.{line_of, IsGood, refusal_by, set_by, IsSet, IsEdited};
ghost use Rattle.editor_state.specs.Points.{lacks};
ghost use Rattle.editor_state.specs.Studios.{IsStudio};
ghost use Rattle.editor_state.specs.Took.{Took, quietly, as_reply};

use super::plain::{layouts_for, set_track, tracks_for};
use super::points::with_new_track;
use super::studio::Studio;
use disk_model::Store;
use editor_commits::PlainEdit;
use pcm_base::{MAX_TRACKS, NoMemory, Refusal, Side};
use project_state::Point;
use std::alloc::Global;

// The project with one track changed.
fn set_in(point: &Point, id: u64, edit: &PlainEdit) -> Result<Point, NoMemory>
    requires { lacks id (track_of id point.now) ≡ None }
    ensures { IfOk result (λ p. IsSet id (set_by edit.now) point.now p) }
{
    let Ok(old) = point.track(id) else {
        unreachable!();
    };
    let mut new = old.copy()?;
    set_track(edit, &mut new);
    point.with(new)
}

impl<S: Store> Studio<S> {
    /// Adds an empty track with the next id.
    ///
    /// # Errors
    ///
    /// `Stopped` where a change of the disk failed in an earlier call; else `TrackLimit` where the project has 64
    /// tracks; else `SpaceSpent` where a counter or the journal has no room, or `RecordLimit` where the record would be
    /// too long; or `NoMemory`. Nothing has changed then. `DiskFault` where a change of the disk failed: the studio is
    /// stopped.
    pub fn track(&mut self, alloc: Global) -> Result<u64, Refusal>
        requires { IsStudio S.Store (core_of self.old) }
        ensures took { Took S.Store (core_of self.old) (quietly (Line command.Track) (as_reply (λ _. reply.Done) result))
            (core_of self.new) }
        ensures number { IfOk result (λ n. n ≡ self.new.commit_number) }
        ensures undamaged { IfErr result IsUndamaged }
    {
        self.edit(alloc, PlainEdit::Track)
    }

    /// Takes a track away.
    ///
    /// # Errors
    ///
    /// `Stopped` where a change of the disk failed in an earlier call; else `NoTrack` where the project lacks the
    /// track; else `SpaceSpent` where a counter or the journal has no room, or `RecordLimit` where the record would be
    /// too long; or `NoMemory`. Nothing has changed then. `DiskFault` where a change of the disk failed: the studio is
    /// stopped.
    pub fn drop(&mut self, alloc: Global, track: u64) -> Result<u64, Refusal>
        requires { IsStudio S.Store (core_of self.old) }
        ensures took { Took S.Store (core_of self.old)
            (quietly (Line (command.Drop track)) (as_reply (λ _. reply.Done) result)) (core_of self.new) }
        ensures number { IfOk result (λ n. n ≡ self.new.commit_number) }
        ensures undamaged { IfErr result IsUndamaged }
    {
        self.edit(alloc, PlainEdit::Drop { track })
    }

    /// Sets the gain with which a track is heard, from 0 to 1,048,576; 65,536 is unity.
    ///
    /// # Errors
    ///
    /// Those of `drop`.
    pub fn level(&mut self, alloc: Global, track: u64, gain: u32) -> Result<u64, Refusal>
        requires studio { IsStudio S.Store (core_of self.old) }
        requires in_form { gain ≤ MAX_GAIN }
        ensures took { Took S.Store (core_of self.old)
            (quietly (Line (command.Level track gain)) (as_reply (λ _. reply.Done) result)) (core_of self.new) }
        ensures number { IfOk result (λ n. n ≡ self.new.commit_number) }
        ensures undamaged { IfErr result IsUndamaged }
    {
        self.edit(alloc, PlainEdit::Level { track, gain })
    }

    /// Sets the sides on which a track is heard.
    ///
    /// # Errors
    ///
    /// Those of `drop`.
    pub fn side(&mut self, alloc: Global, track: u64, side: Side) -> Result<u64, Refusal>
        requires { IsStudio S.Store (core_of self.old) }
        ensures took { Took S.Store (core_of self.old)
            (quietly (Line (command.Side track side)) (as_reply (λ _. reply.Done) result)) (core_of self.new) }
        ensures number { IfOk result (λ n. n ≡ self.new.commit_number) }
        ensures undamaged { IfErr result IsUndamaged }
    {
        self.edit(alloc, PlainEdit::Side { track, side })
    }

    /// Mutes a track, or lets it be heard again.
    ///
    /// # Errors
    ///
    /// Those of `drop`.
    pub fn mute(&mut self, alloc: Global, track: u64, mute: bool) -> Result<u64, Refusal>
        requires { IsStudio S.Store (core_of self.old) }
        ensures took { Took S.Store (core_of self.old)
            (quietly (Line (command.Mute track mute)) (as_reply (λ _. reply.Done) result)) (core_of self.new) }
        ensures number { IfOk result (λ n. n ≡ self.new.commit_number) }
        ensures undamaged { IfErr result IsUndamaged }
    {
        self.edit(alloc, PlainEdit::Mute { track, mute })
    }

    // An edit that makes no blocks.
    fn edit(&mut self, alloc: Global, edit: PlainEdit) -> Result<u64, Refusal>
        requires studio { IsStudio S.Store (core_of self.old) }
        requires good { IsGood edit }
        ensures took { Took S.Store (core_of self.old)
            (quietly (Line (line_of edit)) (as_reply (λ _. reply.Done) result)) (core_of self.new) }
        ensures number { IfOk result (λ n. n ≡ self.new.commit_number) }
        ensures undamaged { IfErr result IsUndamaged }
    {
        let tracks = tracks_for(&edit);
        self.may_commit(self.edit_refusal(&edit), tracks)?;
        let layouts = layouts_for(&edit);
        self.make_room()?;
        let point = self.edited(alloc, &edit)?;
        let point = self.commit_point(point, tracks, layouts)?;
        self.take_point(point, tracks, layouts);
        Ok(self.commit_number)
    }

    // What refuses a call on a track.
    pub(crate) fn track_refusal(&self, id: u64) -> Option<Refusal>
        ensures { result ≡ lacks id (track_of id (current_tracks self.now.history.history)) }
    {
        match self.current().track(id) {
            Ok(_) => None,
            Err(reason) => Some(reason),
        }
    }

    // What refuses an edit that makes no blocks.
    fn edit_refusal(&self, edit: &PlainEdit) -> Option<Refusal>
        ensures { result ≡ refusal_by edit.now (current_tracks self.now.history.history) }
    {
        match edit {
            PlainEdit::Track => self.limit_refusal(),
            PlainEdit::Drop { track }
            | PlainEdit::Level { track, .. }
            | PlainEdit::Side { track, .. }
            | PlainEdit::Mute { track, .. } => self.track_refusal(*track),
        }
    }

    // What refuses a further track.
    fn limit_refusal(&self) -> Option<Refusal>
        ensures { result ≡ refused_if (nat_lt MAX_TRACKS (length (current_tracks self.now.history.history) + 1))
            refusal.TrackLimit }
    {
        if self.current().len() + 1 > MAX_TRACKS {
            Some(Refusal::TrackLimit)
        } else {
            None
        }
    }

    // The project that an edit makes of the current one.
    fn edited(&self, alloc: Global, edit: &PlainEdit) -> Result<Point, NoMemory>
        requires there { refusal_by edit.now (current_tracks self.now.history.history) ≡ None }
        requires below { AllBelow self.now.next_track (current_tracks self.now.history.history) }
        ensures { IfOk result (IsEdited edit.now self.now.next_track self.now.next_layout
            (current_tracks self.now.history.history)) }
    {
        let old = self.current();
        match edit {
            PlainEdit::Track => with_new_track(alloc, old, self.next_track, self.next_layout),
            PlainEdit::Drop { track } => old.without(*track),
            PlainEdit::Level { track, .. }
            | PlainEdit::Side { track, .. }
            | PlainEdit::Mute { track, .. } => set_in(old, *track, edit),
        }
    }
}
