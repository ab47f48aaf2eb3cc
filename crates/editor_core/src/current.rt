// The current project.
ghost use Rattle.std.specs.Prelude.{◌≡◌, None, MatchResult};
ghost use Rattle.pcm_base.specs.declared.refusal.Refusal.TheVariants.{NoTrack};
ghost use Rattle.project_state.specs.Tracks.{track_of};
ghost use Rattle.record_body.specs.Saved.{current_tracks};
ghost use Rattle.editor_state.specs.Reads.{HasLayout};

use super::studio::Studio;
use clip_track::Layout;
use disk_model::Store;
use pcm_base::Refusal;
use project_state::Point;
use undo_history::History;

// The project at the cursor.
pub(crate) fn current_of(history: &History<Point>) -> &Point
    ensures { result.now ≡ current_tracks history.now.history }
{
    history.point(history.cursor())
}

// The layout of a track of it, or what refuses a call on the track.
pub(crate) fn layout_of(history: &History<Point>, track: u64) -> Result<&Layout, Refusal>
    ensures { MatchResult result
        (λ layout. HasLayout track (current_tracks history.now.history) layout.now)
        (λ why. (why ≡ NoTrack track) × (track_of track (current_tracks history.now.history) ≡ None)) }
{
    match current_of(history).track(track) {
        Ok(found) => Ok(&found.layout),
        Err(reason) => Err(reason),
    }
}

impl<S: Store> Studio<S> {
    // The same of a studio, where nothing else of it is borrowed.
    pub(crate) fn current(&self) -> &Point
        ensures { result.now ≡ current_tracks self.now.history.history }
    {
        current_of(&self.history)
    }
}
