// Edits that make no blocks.
ghost use Rattle.std.specs.Prelude.{◌≡◌};
ghost use Rattle.editor_commits.specs.Plain.{layouts_by, tracks_by, set_by};

use editor_commits::PlainEdit;
use project_state::Track;

// How many track ids it needs.
pub(crate) fn tracks_for(edit: &PlainEdit) -> u64
    ensures { result ≡ tracks_by edit.now }
{
    match edit {
        PlainEdit::Track => 1,
        PlainEdit::Drop { .. }
        | PlainEdit::Level { .. }
        | PlainEdit::Side { .. }
        | PlainEdit::Mute { .. } => 0,
    }
}

// How many layouts it makes.
pub(crate) fn layouts_for(edit: &PlainEdit) -> u64
    ensures { result ≡ layouts_by edit.now }
{
    match edit {
        PlainEdit::Track => 1,
        PlainEdit::Drop { .. }
        | PlainEdit::Level { .. }
        | PlainEdit::Side { .. }
        | PlainEdit::Mute { .. } => 0,
    }
}

// Sets what it sets of a track.
pub(crate) fn set_track(edit: &PlainEdit, track: &mut Track)
    ensures { track.new ≡ set_by edit.now track.old }
{
    match edit {
        PlainEdit::Level { gain, .. } => track.gain = *gain,
        PlainEdit::Side { side, .. } => track.side = *side,
        PlainEdit::Mute { mute, .. } => track.mute = *mute,
        PlainEdit::Track | PlainEdit::Drop { .. } => {}
    }
}
