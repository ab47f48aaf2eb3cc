// Edits of one track.
ghost use Rattle.std.specs.Prelude.{◌≡◌, ◌+◌, ◌/◌, ◌≤◌, ◌<◌, ◌^◌, [], ◌∷◌, ◌++◌, length, IfOk};
ghost use Rattle.pcm_base.specs.Counters.{blocks_of_edit};
ghost use Rattle.pcm_base.specs.Edits as edits;
ghost use Rattle.pcm_base.specs.Pieces.{Sources, stretch};
ghost use Rattle.pcm_base.specs.Refusals.{bad_range, inserted_length, length_limit};
ghost use Rattle.clip_track.specs.Clips.{end_of, layout_cells, AllHalfFull, layout_blocks};
ghost use Rattle.clip_track.specs.Kept.{Keeps};
ghost use Rattle.edit_ops.specs.Plans.{IsPlan, Means, AnswersTest, start_of};

use super::planner::Planner;
use super::plans::{plan_edited, plan_with_given};
use super::refusals::{length, range};
use super::types::Plan;
use clip_track::Layout;
use pcm_base::{RangeEdit, Refusal};

/// Puts the `count` samples that the command brings in at a place; a track that is shorter is first continued by
/// gaps.
///
/// # Errors
///
/// `LengthLimit` where the track would have more than 2^32 cells; else `NoMemory` where there is none for the plan.
pub fn insert(planner: Planner, t: &Layout, at: u64, count: u64) -> Result<Plan, Refusal>
    requires half_full { AllHalfFull planner.block_size t.now }
    requires sum { at + count + end_of 0 t.now < 2 ^ 64 }
    ensures plan { IfOk result (λ p. IsPlan (start_of planner) (layout_blocks t.now) count p) }
    ensures kept { IfOk result (λ p. Keeps p.kept (layout_blocks t.now) (layout_blocks p.layout)) }
    ensures cells { IfOk result
        (λ p. Means (λ src. edits.inserted at (edits.as_cells (stretch src.given 0 count))) t.now p) }
    ensures few_made { IfOk result (λ p. length p.makes ≤ 8 + count / planner.block_size) }
    ensures tests { AnswersTest (length_limit (inserted_length at count (end_of 0 t.now) ∷ [])) result }
{
    length(t.len().max(at) + count)?;
    let plan = plan_with_given(planner, t, at, count)?;
    Ok(plan)
}

/// Edits the cells of a range.
///
/// # Errors
///
/// `BadRange` where not `from < to <= t.len()`; else `NoMemory` where there is none for the plan.
pub fn edit_range(
    planner: Planner,
    t: &Layout,
    from: u64,
    to: u64,
    edit: RangeEdit,
) -> Result<Plan, Refusal>
    requires half_full { AllHalfFull planner.block_size t.now }
    ensures plan { IfOk result (λ p. IsPlan (start_of planner) (layout_blocks t.now) 0 p) }
    ensures kept { IfOk result (λ p. Keeps p.kept (layout_blocks t.now) (layout_blocks p.layout)) }
    ensures cells { IfOk result (λ p. Means (λ src. edits.range_edited edit from to) t.now p) }
    ensures few_made { IfOk result (λ p. (src : Sources) →
        length p.makes ≤ blocks_of_edit edit planner.block_size (edits.part from to (layout_cells src t.now))) }
    ensures tests { AnswersTest (bad_range from to (end_of 0 t.now)) result }
{
    range(from, to, t.len())?;
    let plan = plan_edited(planner, t, from, to, edit)?;
    Ok(plan)
}
