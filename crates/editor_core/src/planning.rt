// The new project of an edit of one track, by the plan of its layout.
ghost use Rattle.std.specs.Prelude.{◌≡◌, IfOk, None, OnOk};
ghost use Rattle.clip_track.specs.Clips.{IsLayout};
ghost use Rattle.editor_state.specs.Points.{put_in};
ghost use Rattle.editor_tracks.specs.TrackEdits.{with_layout};

use edit_ops::Plan;
use editor_state::Planned;
use pcm_base::NoMemory;
use project_state::{Point, Track};

// The project with the layout of a track as a plan has it, which gets this number. The plan gives no track id.
pub(crate) fn planned(
    project: &Point,
    old: &Track,
    plan: Plan,
    number: u64,
) -> Result<Planned, NoMemory>
    ensures point { IfOk result (λ p. p.point ≡ put_in (with_layout number old.now plan.layout) project.now) }
    ensures makes { IfOk result (λ p. p.makes ≡ plan.makes) }
    ensures next { IfOk result (λ p. p.next ≡ plan.next) }
    ensures tracks { IfOk result (λ p. p.tracks ≡ 0) }
    ensures layouts { IfOk result (λ p. p.layouts ≡ 1) }
    ensures clip { IfOk result (λ p. p.clip ≡ None) }
    ensures kept { IfOk result (λ p. p.kept ≡ plan.kept) }
    ensures layout { OnOk result (IsLayout plan.layout) }
{
    let Plan {
        layout,
        makes,
        next,
        kept,
    } = plan;
    let _clips = layout.as_slice();
    let new = Track {
        id: old.id,
        gain: old.gain,
        side: old.side,
        mute: old.mute,
        number,
        layout,
    };
    let point = project.with(new)?;
    Ok(Planned {
        point,
        makes,
        next,
        tracks: 0,
        layouts: 1,
        clip: None,
        kept,
    })
}
