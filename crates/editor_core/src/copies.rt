// What is copied.
ghost use Rattle.std.specs.Prelude.{◌≡◌, ◌++◌, IfErr, IfOk, OnOk};
ghost use Rattle.pcm_base.specs.declared.answer.Reply.TheVariants.{Copied};
ghost use Rattle.pcm_base.specs.declared.command.Call.TheVariants.{Line};
ghost use Rattle.pcm_base.specs.declared.command.Command.TheVariants as command;
ghost use Rattle.edit_ops.specs.Runs.{layouts};
ghost use Rattle.envelope_view.specs.Answers.{IsUndamaged};
ghost use Rattle.editor_tracks.specs.Copies.{layouts_at, run_of, Copies, AnswersCopy};
ghost use Rattle.editor_core.specs.Core.{core_of};
ghost use Rattle.editor_state.specs.Studios.{IsStudio};
ghost use Rattle.editor_state.specs.Took.{Took, quietly, as_reply};

use super::current::{current_of, layout_of};
use super::studio::Studio;
use clip_track::Layout;
use disk_model::Store;
use edit_ops::{Strips, copy};
use editor_tracks::RunRange;
use pcm_base::{NoMemory, Refusal};
use project_state::{Point, Track};
use std::alloc::Global;

// The range of these numbers.
pub(crate) fn run_range(track: u64, count: u64, from: u64, to: u64) -> RunRange
    ensures { result ≡ record { track = track; count = count; from = from; to = to } }
{
    RunRange {
        track,
        count,
        from,
        to,
    }
}

// Adds a track's layout where its id is this one or greater.
fn add_layout<'a>(run: &mut Vec<&'a Layout>, track: &'a Track, id: u64) -> Result<(), NoMemory>
    ensures { OnOk result (layouts run.new.items ≡ layouts run.old.items ++ layouts_at id track.now) }
{
    if id <= track.id {
        run.push(&track.layout)?;
    }
    Ok(())
}

// The layouts of the tracks from an id on.
pub(crate) fn run_from(alloc: Global, point: &Point, id: u64) -> Result<Vec<&Layout>, NoMemory>
    ensures { IfOk result (λ v. layouts v.items ≡ run_of id point.now) }
{
    let mut run = Vec::new(alloc);
    for i in 0..point.len() {
        add_layout(&mut run, point.track_at(i), id)?;
    }
    Ok(run)
}

// The strips of a run, or what refuses them.
fn copied(alloc: Global, point: &Point, range: RunRange) -> Result<Strips, Refusal>
    ensures { Copies (run_of range.track point.now) range result }
{
    let run = run_from(alloc, point, range.track)?;
    copy(alloc, &run, range.count, range.from, range.to)
}

impl<S: Store> Studio<S> {
    /// Puts a range of as many tracks as `count`, from a track on, into the clipboard. It takes memory for references
    /// to blocks. No sample is copied, and the disk is not used.
    ///
    /// # Errors
    ///
    /// `Stopped` where a change of the disk failed in an earlier call; else `NoTrack` where the project lacks the
    /// track; else `TooNarrow` where there are fewer tracks from it on; else `BadRange` where not `from < to <= L`,
    /// where L is the greatest length of these tracks; else `NoMemory`. Nothing has changed then.
    pub fn copy(
        &mut self,
        alloc: Global,
        track: u64,
        count: u64,
        from: u64,
        to: u64,
    ) -> Result<(), Refusal>
        requires { IsStudio S.Store (core_of self.old) }
        ensures took { Took S.Store (core_of self.old)
            (quietly (Line (command.Copy track count from to)) (as_reply (λ _. Copied) result)) (core_of self.new) }
        ensures copied { AnswersCopy (core_of self.old)
            (record { track = track; count = count; from = from; to = to }) result (core_of self.new) }
        ensures undamaged { IfErr result IsUndamaged }
    {
        if let Some(faults) = self.stopped {
            return Err(Refusal::Stopped { faults });
        }
        layout_of(&self.history, track)?;
        let range = RunRange {
            track,
            count,
            from,
            to,
        };
        let strips = copied(alloc, current_of(&self.history), range)?;
        self.take_clip(strips);
        Ok(())
    }
}
