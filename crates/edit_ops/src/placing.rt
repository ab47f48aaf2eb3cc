// The two ways in which a strip is put into a track.
ghost use Rattle.std.specs.Prelude.{◌≡◌, ◌+◌, ◌≤◌, ◌<◌, ◌^◌, ◌++◌, length, IfOk};
ghost use Rattle.pcm_base.specs.declared.limits.TheConstants.{MAX_CELLS};
ghost use Rattle.pcm_base.specs.Edits.{placed};
ghost use Rattle.pcm_base.specs.Refusals.{placed_length};
ghost use Rattle.clip_track.specs.Clips.{end_of, AllHalfFull};
ghost use Rattle.clip_track.specs.Items.{strip_cells, strip_len};
ghost use Rattle.edit_ops.specs.Placing.{placed_items};
ghost use Rattle.edit_ops.specs.Plans.{start_of};
ghost use Rattle.edit_ops.specs.Runs.{IsPaste};
ghost use Rattle.edit_ops.specs.Strips.{IsClip};

use super::planner::Planner;
use super::planning::plan_strip;
use super::strips;
use super::types::Plan;
use clip_track::{Layout, Strip};
use pcm_base::{NoMemory, Placing};
use std::alloc::Global;

fn strip_of(
    alloc: Global,
    whole: &Strip,
    placing: Placing,
    at: u64,
    clip: &Strip,
) -> Result<Strip, NoMemory>
    requires { placed_length placing at (strip_len clip.now) (strip_len whole.now) ≤ MAX_CELLS }
    ensures items { IfOk result (λ s. s ≡ placed_items placing at clip.now whole.now) }
    ensures len { IfOk result (λ s. strip_len s ≡ placed_length placing at (strip_len clip.now) (strip_len whole.now)) }
{
    match placing {
        Placing::Insert => Ok(strips::with_inserted(alloc, whole, at, clip)?),
        Placing::Cover => Ok(strips::with_covered(alloc, whole, at, clip)?),
    }
}

/// With a strip put in at a place of one track.
pub fn plan_placed(
    planner: Planner,
    t: &Layout,
    placing: Placing,
    at: u64,
    clip: &Strip,
) -> Result<Plan, NoMemory>
    requires half_full { AllHalfFull planner.block_size t.now }
    requires clip { IsClip planner.block_size clip.now }
    requires few { placed_length placing at (strip_len clip.now) (end_of 0 t.now) ≤ MAX_CELLS }
    ensures { IfOk result (λ p. IsPaste (placed placing at) (start_of planner) clip.now t.now p) }
{
    let whole = t.to_strip()?;
    let strip = strip_of(planner.alloc, &whole, placing, at, clip)?;
    Ok(plan_strip(planner, &strip)?)
}
