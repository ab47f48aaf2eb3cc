// Edits of a range of one track.
ghost use Rattle.std.specs.Prelude.{◌≡◌, IfErr, IfOk, None};
ghost use Rattle.pcm_base.specs.declared.answer.Reply.TheVariants as reply;
ghost use Rattle.pcm_base.specs.declared.command.Call.TheVariants.{Line};
ghost use Rattle.pcm_base.specs.Shape.{range_line};
ghost use Rattle.envelope_view.specs.Answers.{IsUndamaged};
ghost use Rattle.record_body.specs.Saved.{current_tracks};
ghost use Rattle.editor_core.specs.Core.{core_of};
ghost use Rattle.editor_tracks.specs.Ranges.{range_edit};
ghost use Rattle.editor_state.specs.Studios.{IsHeld, IsStudio};
ghost use Rattle.editor_state.specs.Took.{Took, quietly, as_reply};
ghost use Rattle.editor_tracks.specs.TrackEdits.{IsTrackPlan, NoTrackPlan};

use super::planning::planned;
use super::studio::Studio;
use block_writer::Given;
use disk_model::Store;
use edit_ops::{Planner, edit_range};
use editor_state::Planned;
use pcm_base::{RangeEdit, Refusal};
use std::alloc::Global;

impl<S: Store> Studio<S> {
    /// Edits a range of a track. It returns the commit number.
    ///
    /// # Errors
    ///
    /// `Stopped` where a change of the disk failed in an earlier call; else `NoTrack` where the project lacks the
    /// track; else `BadRange` where not `from < to <= L`, where L is the track's length; else `SpaceSpent` where a
    /// counter or the journal has no room, or `RecordLimit` where the record would be too long; or `NoMemory`. Nothing
    /// has changed then. `Damaged` where the file of a block that is read is not as it has to be, and `DiskFault` where
    /// the disk failed: nothing but the next block's number has changed then, and after a failed change the studio is
    /// stopped.
    pub fn edit_range(
        &mut self,
        alloc: Global,
        track: u64,
        from: u64,
        to: u64,
        edit: RangeEdit,
    ) -> Result<u64, Refusal>
        requires { IsStudio S.Store (core_of self.old) }
        ensures took { Took S.Store (core_of self.old)
            (quietly (Line (range_line edit track from to)) (as_reply (λ _. reply.Done) result))
            (core_of self.new) }
        ensures number { IfOk result (λ n. n ≡ self.new.commit_number) }
        ensures valid { IsHeld S.Store (core_of self.old) → IfErr result IsUndamaged }
    {
        if let Some(faults) = self.stopped {
            return Err(Refusal::Stopped { faults });
        }
        let planned = self.planned_range(alloc, track, from, to, edit)?;
        self.carry_out(planned, 0, 0, &mut Given::Nothing)
    }

    // The project that it makes of the current one.
    fn planned_range(
        &self,
        alloc: Global,
        track: u64,
        from: u64,
        to: u64,
        edit: RangeEdit,
    ) -> Result<Planned, Refusal>
        requires { IsStudio S.Store (core_of self.now) }
        ensures plan { IfOk result
            (λ p. IsTrackPlan (range_edit edit from to) 0 track (core_of self.now) p) }
        ensures tracks { IfOk result (λ p. p.tracks ≡ 0) }
        ensures clip { IfOk result (λ p. p.clip ≡ None) }
        ensures err { IfErr result (NoTrackPlan (range_edit edit from to) track
            (current_tracks self.now.history.history)) }
    {
        let project = self.current();
        let old = project.track(track)?;
        let planner = Planner {
            alloc,
            block_size: self.buffers.block_size(),
            next: self.next_block,
        };
        let plan = edit_range(planner, &old.layout, from, to, edit)?;
        let planned = planned(project, old, plan, self.next_layout)?;
        Ok(planned)
    }
}
