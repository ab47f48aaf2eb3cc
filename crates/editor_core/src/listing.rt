// What is reported of the tracks.
ghost use Rattle.std.specs.Prelude.{◌≡◌, ◌⊎◌, ℕ, map, IfOk, IfErr};
ghost use Rattle.pcm_base.specs.declared.answer.Reply.TheVariants as reply;
ghost use Rattle.pcm_base.specs.declared.command.Call.TheVariants.{Line};
ghost use Rattle.pcm_base.specs.declared.command.Command.TheVariants as command;
ghost use Rattle.pcm_base.specs.declared.refusal.Refusal.TheVariants as refusal;
ghost use Rattle.pcm_base.specs.Pieces.{Sources};
ghost use Rattle.pcm_base.specs.Step.{line_of_track};
ghost use Rattle.project_state.specs.Meaning.{meant, meant_track};
ghost use Rattle.editor_core.specs.Core.{core_of};
ghost use Rattle.editor_state.specs.Studios.{IsStudio};
ghost use Rattle.editor_state.specs.Took.{Took, quietly, as_reply};

use super::current::current_of;
use super::studio::Studio;
use disk_model::Store;
use pcm_base::{NoMemory, Refusal, TrackLine, TrackLines};
use project_state::{Point, Track};
use std::alloc::Global;

// What is reported of a track.
fn line_of(track: &Track) -> TrackLine
    ensures { (src : Sources) → result ≡ line_of_track (meant_track src track.now) }
{
    TrackLine {
        id: track.id,
        gain: track.gain,
        side: track.side,
        mute: track.mute,
        len: track.layout.len(),
    }
}

// What is reported of each track of a project.
fn lines_of(alloc: Global, point: &Point) -> Result<Vec<TrackLine>, NoMemory>
    ensures { IfOk result (λ v. (src : Sources) → v.items ≡ map line_of_track (meant src point.now)) }
{
    let mut lines = Vec::new(alloc);
    for i in 0..point.len() {
        lines.push(line_of(point.track_at(i)))?;
    }
    Ok(lines)
}

impl<S: Store> Studio<S> {
    /// Tells of the tracks, in their order. It asks nothing of the disk.
    ///
    /// # Errors
    ///
    /// `Stopped` where a change of the disk failed in an earlier call; else `NoMemory` where there is none for the
    /// answer.
    pub fn tracks(&self, alloc: Global) -> Result<TrackLines, Refusal>
        requires { IsStudio S.Store (core_of self.now) }
        ensures took { Took S.Store (core_of self.now) (quietly (Line command.Tracks) (as_reply reply.Tracks result))
            (core_of self.now) }
        ensures why { IfErr result (λ e. (e ≡ refusal.NoMemory) ⊎ (faults : ℕ) × (e ≡ refusal.Stopped faults)) }
    {
        if let Some(faults) = self.stopped {
            return Err(Refusal::Stopped { faults });
        }
        let lines = lines_of(alloc, current_of(&self.history))?;
        Ok(TrackLines::new(lines))
    }
}
