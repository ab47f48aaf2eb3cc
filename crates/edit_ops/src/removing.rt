// The two ways in which a range is taken from a track.
ghost use Rattle.std.specs.Prelude.{◌≡◌, ◌≤◌, ◌<◌, ◌^◌, length, IfOk};
ghost use Rattle.pcm_base.specs.Edits.{removed};
ghost use Rattle.clip_track.specs.Clips.{AllHalfFull};
ghost use Rattle.edit_ops.specs.Plans.{start_of};
ghost use Rattle.edit_ops.specs.Runs.{IsCut};

use super::planner::Planner;
use super::plans::plan_cut;
use super::strips::Cutting;
use super::types::Plan;
use clip_track::Layout;
use pcm_base::{NoMemory, Removing};

/// Without a range of one track, which may end, or begin, beyond it.
pub fn plan_removal(
    planner: Planner,
    t: &Layout,
    removing: Removing,
    from: u64,
    to: u64,
) -> Result<Plan, NoMemory>
    requires half_full { AllHalfFull planner.block_size t.now }
    requires rising { from ≤ to }
    ensures { IfOk result (λ p. IsCut (removed removing from to) (start_of planner) t.now p) }
{
    match removing {
        Removing::Close => Ok(plan_cut(planner, t, Cutting::Delete, from, to)?),
        Removing::Leave => Ok(plan_cut(planner, t, Cutting::SplitDelete, from, to)?),
    }
}
