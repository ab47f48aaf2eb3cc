// Ranges of a run of tracks, which are taken out and put into the clipboard.
ghost use Rattle.std.specs.Prelude.{◌≡◌, ◌+◌, IfErr, IfOk};
ghost use Rattle.std.specs.List.{AllByRecursion};
ghost use Rattle.pcm_base.specs.declared.answer.Reply.TheVariants as reply;
ghost use Rattle.pcm_base.specs.declared.command.Call.TheVariants.{Line};
ghost use Rattle.clip_track.specs.Items.{AreItems};
ghost use Rattle.layout_uses.specs.Drawing.{HasNumbers};
ghost use Rattle.record_body.specs.Saved.{current_tracks};
ghost use Rattle.envelope_view.specs.Answers.{IsUndamaged};
ghost use Rattle.editor_core.specs.Core.{core_of};
ghost use Rattle.editor_tracks.specs.Cuts.{IsCutPlan, NoCutPlan, cut_line};
ghost use Rattle.editor_state.specs.Studios.{IsHeld, IsStudio};
ghost use Rattle.editor_state.specs.Took.{Took, quietly, as_reply};

use super::copies::run_from;
use super::laying::{Next, planned_run};
use super::studio::Studio;
use block_writer::Given;
use clip_track::Strip;
use disk_model::Store;
use edit_ops::{RunPlanner, cut_range};
use editor_state::Planned;
use editor_tracks::RunRange;
use pcm_base::{Refusal, Removing};
use std::alloc::Global;

// Each strip is one of items, none of which is empty.
pub(crate) fn see_items(strips: &[Strip])
    ensures { AllByRecursion AreItems strips.now }
{
    for strip in strips {
        let _items = strip.as_slice();
    }
}

impl<S: Store> Studio<S> {
    /// Takes a range of a run out into the clipboard: `Close` moves the cells after it to its place, `Leave` leaves
    /// gaps there. It returns the commit number.
    ///
    /// # Errors
    ///
    /// `Stopped` where a change of the disk failed in an earlier call; else `NoTrack` where the project lacks the
    /// track; else `TooNarrow` where there are fewer tracks from it on; else `BadRange` where not `from < to <= L`,
    /// where L is the greatest length of these tracks; else `SpaceSpent` where a counter or the journal has no room, or
    /// `RecordLimit` where the record would be too long; or `NoMemory`. Nothing has changed then. `Damaged` where the
    /// file of a block that is read is not as it has to be, and `DiskFault` where the disk failed: nothing but the next
    /// block's number has changed then, and after a failed change the studio is stopped.
    pub fn cut_range(
        &mut self,
        alloc: Global,
        range: RunRange,
        removing: Removing,
    ) -> Result<u64, Refusal>
        requires { IsStudio S.Store (core_of self.old) }
        ensures took { Took S.Store (core_of self.old)
            (quietly (Line (cut_line removing range)) (as_reply (λ _. reply.Done) result)) (core_of self.new) }
        ensures number { IfOk result (λ n. n ≡ self.new.commit_number) }
        ensures valid { IsHeld S.Store (core_of self.old) → IfErr result IsUndamaged }
    {
        if let Some(faults) = self.stopped {
            return Err(Refusal::Stopped { faults });
        }
        let planned = self.planned_cut(alloc, range, removing)?;
        self.carry_out(planned, 0, 0, &mut Given::Nothing)
    }

    // The project without the range, and the clipboard with it.
    fn planned_cut(
        &self,
        alloc: Global,
        range: RunRange,
        removing: Removing,
    ) -> Result<Planned, Refusal>
        requires { IsStudio S.Store (core_of self.now) }
        ensures plan { IfOk result (λ p. IsCutPlan removing range (core_of self.now) p) }
        ensures tracks { IfOk result (λ p. p.tracks ≡ 0) }
        ensures layouts { IfOk result (λ p. HasNumbers (current_tracks self.now.history.history) self.now.next_layout
            p.point (self.now.next_layout + p.layouts)) }
        ensures err { IfErr result (NoCutPlan range (core_of self.now)) }
    {
        let project = self.current();
        project.track(range.track)?;
        let run = run_from(alloc, project, range.track)?;
        let planner = RunPlanner {
            alloc,
            block_size: self.buffers.block_size(),
            next: self.next_block,
        };
        let RunRange {
            count,
            from,
            to,
            ..
        } = range;
        let (strips, plans) = cut_range(planner, &run, removing, count, from, to)?;
        see_items(strips.as_slice());
        let next = Next {
            block: self.next_block,
            layout: self.next_layout,
        };
        let planned = planned_run(alloc, project, range.track, plans, next, Some(strips))?;
        Ok(planned)
    }
}
