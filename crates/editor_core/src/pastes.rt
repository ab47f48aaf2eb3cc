// The strips of the clipboard, put into a run of tracks.
ghost use Rattle.std.specs.Prelude.{◌≡◌, ◌+◌, IfErr, IfOk, None};
ghost use Rattle.pcm_base.specs.declared.answer.Reply.TheVariants as reply;
ghost use Rattle.pcm_base.specs.declared.command.Call.TheVariants.{Line};
ghost use Rattle.pcm_base.specs.Form.{IsNumber};
ghost use Rattle.pcm_base.specs.Shape.{paste_line};
ghost use Rattle.layout_uses.specs.Drawing.{HasNumbers};
ghost use Rattle.record_body.specs.Saved.{current_tracks};
ghost use Rattle.envelope_view.specs.Answers.{IsUndamaged};
ghost use Rattle.editor_core.specs.Core.{core_of};
ghost use Rattle.editor_tracks.specs.Pastes.{IsPastePlan, NoPastePlan};
ghost use Rattle.editor_state.specs.Studios.{IsHeld, IsStudio};
ghost use Rattle.editor_state.specs.Took.{Took, quietly, as_reply};

use super::copies::run_from;
use super::cuts::see_items;
use super::laying::{Next, planned_run};
use super::studio::Studio;
use block_writer::Given;
use disk_model::Store;
use edit_ops::{RunPlanner, paste};
use editor_state::Planned;
use pcm_base::{Placing, Refusal};
use std::alloc::Global;

impl<S: Store> Studio<S> {
    /// Puts what was copied or cut at a place, its first strip into this track, and each other one into the next track:
    /// `Insert` moves the cells there on, `Cover` puts each strip in the place of as many. A shorter track is first
    /// continued by gaps. It returns the commit number.
    ///
    /// # Errors
    ///
    /// `Stopped` where a change of the disk failed in an earlier call; else `NoTrack` where the project lacks the
    /// track; else `EmptyClipboard` where nothing was copied or cut; else `TooNarrow` where there are fewer tracks from
    /// it on than strips; else `LengthLimit` where a track would have more than 2^32 cells; else `SpaceSpent` where a
    /// counter or the journal has no room, or `RecordLimit` where the record would be too long; or `NoMemory`. Nothing
    /// has changed then. `Damaged` where the file of a block that is read is not as it has to be, and `DiskFault` where
    /// the disk failed: nothing but the next block's number has changed then, and after a failed change the studio is
    /// stopped.
    pub fn paste_strips(
        &mut self,
        alloc: Global,
        track: u64,
        at: u64,
        placing: Placing,
    ) -> Result<u64, Refusal>
        requires studio { IsStudio S.Store (core_of self.old) }
        requires in_form { IsNumber at }
        ensures took { Took S.Store (core_of self.old)
            (quietly (Line (paste_line placing track at)) (as_reply (λ _. reply.Done) result)) (core_of self.new) }
        ensures number { IfOk result (λ n. n ≡ self.new.commit_number) }
        ensures valid { IsHeld S.Store (core_of self.old) → IfErr result IsUndamaged }
    {
        if let Some(faults) = self.stopped {
            return Err(Refusal::Stopped { faults });
        }
        let planned = self.planned_paste(alloc, track, at, placing)?;
        self.carry_out(planned, 0, 0, &mut Given::Nothing)
    }

    // The project with the strips of the clipboard in it.
    fn planned_paste(
        &self,
        alloc: Global,
        track: u64,
        at: u64,
        placing: Placing,
    ) -> Result<Planned, Refusal>
        requires studio { IsStudio S.Store (core_of self.now) }
        requires in_form { IsNumber at }
        ensures plan { IfOk result (λ p. IsPastePlan placing track at (core_of self.now) p) }
        ensures tracks { IfOk result (λ p. p.tracks ≡ 0) }
        ensures layouts { IfOk result (λ p. HasNumbers (current_tracks self.now.history.history) self.now.next_layout
            p.point (self.now.next_layout + p.layouts)) }
        ensures clip { IfOk result (λ p. p.clip ≡ None) }
        ensures err { IfErr result (NoPastePlan placing track at (core_of self.now)) }
    {
        let project = self.current();
        project.track(track)?;
        let Some(clip) = &self.clipboard else {
            return Err(Refusal::EmptyClipboard);
        };
        see_items(clip.as_slice());
        let run = run_from(alloc, project, track)?;
        let planner = RunPlanner {
            alloc,
            block_size: self.buffers.block_size(),
            next: self.next_block,
        };
        let plans = paste(planner, &run, Some(clip), placing, at)?;
        let next = Next {
            block: self.next_block,
            layout: self.next_layout,
        };
        let planned = planned_run(alloc, project, track, plans, next, None)?;
        Ok(planned)
    }
}
