// The new project of an edit of a run of tracks, by the plans of their layouts.
ghost use Rattle.std.specs.Prelude.{◌≡◌, ◌+◌, ◌≤◌, ◌<◌, ◌^◌, ◌++◌, ◌∷◌, [], IfOk, IfSome, OnOk, Some, length};
ghost use Rattle.std.specs.Prelude.{slice_get};
ghost use Rattle.std.specs.Vec.Iter.{into_iter_items, into_iter_len};
ghost use Rattle.pcm_base.specs.declared.limits.TheConstants.{COUNTER_LIMIT, MAX_TRACKS};
ghost use Rattle.clip_track.specs.Clips.{IsLayout};
ghost use Rattle.project_state.specs.Tracks.{AllBelow, AreAbove};
ghost use Rattle.project_state.specs.declared.track.Track.{Track};
ghost use Rattle.layout_uses.specs.Drawing.{HasNumbers};
ghost use Rattle.editor_tracks.specs.Copies.{run_of};
ghost use Rattle.editor_tracks.specs.RunEdits.{AllKeep, IsRunPlan, Lays, laid_or, next_number};
ghost use Rattle.editor_tracks.specs.TrackEdits.{with_layout};

use clip_track::Kept;
use edit_ops::{NewBlock, NewBlocks, Plan, Plans, Strips};
use editor_state::Planned;
use pcm_base::NoMemory;
use project_state::{Point, Track};
use std::alloc::Global;
use std::vec::IntoIter;

/// The numbers that come next: of a block, and of a layout.
#[derive(Clone, Copy)]
pub(crate) struct Next {
    pub(crate) block: u64,
    pub(crate) layout: u64,
}

// A track with the layout of a plan, which gets this number. The plan's new blocks come to others.
fn laid_out(
    track: &Track,
    plan: Plan,
    number: u64,
    makes: &mut Vec<NewBlock>,
) -> Result<Track, NoMemory>
    ensures track { IfOk result (λ t. t ≡ with_layout number track.now plan.layout) }
    ensures makes { OnOk result (makes.new.items ≡ makes.old.items ++ plan.makes) }
    ensures layout { OnOk result (IsLayout plan.layout) }
{
    let Plan {
        layout,
        makes: more,
        ..
    } = plan;
    let _clips = layout.as_slice();
    makes.append(&mut more.into_vec())?;
    Ok(Track {
        id: track.id,
        gain: track.gain,
        side: track.side,
        mute: track.mute,
        number,
        layout,
    })
}

// The most blocks that each of some plans keeps, at the front and at the back.
fn least_kept(plans: &[Plan]) -> Kept
    ensures { AllKeep result plans.now }
{
    let mut kept = Kept {
        front: usize::MAX,
        back: usize::MAX,
    };
    for plan in plans {
        let front = kept.front.min(plan.kept.front);
        let back = kept.back.min(plan.kept.back);
        kept = Kept { front, back };
    }
    kept
}

// The same of a run's plans.
fn kept_by(plans: &Plans) -> Kept
    ensures { AllKeep result plans.now }
{
    least_kept(plans.as_slice())
}

// The number after one, where a layout got it.
fn number_after(number: u64, laid: &Option<Track>) -> u64
    requires { number ≤ 2 ^ 63 }
    ensures { result ≡ next_number number laid.now }
{
    match laid {
        Some(_) => number + 1,
        None => number,
    }
}

// A track by the next plan where its id is this one or greater, as long as there is a plan; none where it stays.
fn next_track(
    track: &Track,
    id: u64,
    number: u64,
    plans: &mut IntoIter<Plan>,
    makes: &mut Vec<NewBlock>,
) -> Result<Option<Track>, NoMemory>
    requires { into_iter_len plans.old ≡ length (into_iter_items plans.old) }
    ensures len { OnOk result (into_iter_len plans.new ≡ length (into_iter_items plans.new)) }
    ensures lays { IfOk result (λ t. Lays id
        (record { plans = into_iter_items plans.old; makes = makes.old.items; number = number })
        (record { plans = into_iter_items plans.new; makes = makes.new.items; number = next_number number t })
        track.now (laid_or track.now t)) }
    ensures number { IfOk result (λ laid. IfSome laid (λ t. t.number ≡ number)) }
{
    if track.id < id {
        return Ok(None);
    }
    match plans.next() {
        None => Ok(None),
        Some(plan) => {
            let track = laid_out(track, plan, number, makes)?;
            Ok(Some(track))
        }
    }
}

// Puts the track at a place of a project after the others, or the one that stands for it.
fn add_laid(
    point: &mut Point,
    project: &Point,
    index: usize,
    laid: Option<Track>,
) -> Result<(), NoMemory>
    requires within { index < length project.now }
    requires above { (t : Track) → slice_get project.now index ≡ Some t → AllBelow t.id point.old }
    requires same { (t : Track) → slice_get project.now index ≡ Some t → (laid_or t laid).id ≡ t.id }
    requires few { length point.old < MAX_TRACKS }
    ensures { (t : Track) → slice_get project.now index ≡ Some t
        → OnOk result (point.new ≡ point.old ++ laid_or t laid ∷ []) }
{
    match laid {
        None => point.share(project, index),
        Some(track) => match point.add(track) {
            Ok(()) => Ok(()),
            Err(_) => Err(NoMemory),
        },
    }
}

// The project whose tracks from an id on have the layouts of plans, one after another, with their new blocks. The
// layouts have the next numbers, and the plans give no track id. All other tracks are those of the project.
pub(crate) fn planned_run(
    alloc: Global,
    project: &Point,
    id: u64,
    plans: Plans,
    next: Next,
    clip: Option<Strips>,
) -> Result<Planned, NoMemory>
    requires rising { AreAbove 1 project.now }
    requires fits { length plans ≤ length (run_of id project.now) }
    requires room { next.block ≤ COUNTER_LIMIT }
    requires numbers { next.layout ≤ COUNTER_LIMIT }
    ensures plan { IfOk result (λ p. IsRunPlan id next.block next.layout project.now plans p) }
    ensures layouts { IfOk result (λ p. HasNumbers project.now next.layout p.point (next.layout + p.layouts)) }
    ensures tracks { IfOk result (λ p. p.tracks ≡ 0) }
    ensures clip { IfOk result (λ p. p.clip ≡ clip) }
{
    let kept = kept_by(&plans);
    let mut left = plans.into_vec().into_iter();
    let mut point = Point::new(alloc);
    let mut makes = Vec::new(alloc);
    let mut number = next.layout;
    for i in 0..project.len() {
        let laid = next_track(project.track_at(i), id, number, &mut left, &mut makes)?;
        number = number_after(number, &laid);
        add_laid(&mut point, project, i, laid)?;
    }
    let after = next.block + makes.len() as u64;
    Ok(Planned {
        point,
        makes: NewBlocks::new(makes),
        next: after,
        tracks: 0,
        layouts: number - next.layout,
        clip,
        kept,
    })
}
