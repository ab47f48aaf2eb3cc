// Plans of edits of one track whose range or place has been tested.
ghost use Rattle.std.specs.Prelude.{◌≡◌, ◌+◌, ◌/◌, ◌≤◌, ◌<◌, ◌^◌, [], ◌∷◌, ◌++◌, length, IfOk, IfSome};
ghost use Rattle.pcm_base.specs.declared.limits.TheConstants.{MAX_CELLS};
ghost use Rattle.pcm_base.specs.Counters.{blocks_of_edit};
ghost use Rattle.pcm_base.specs.Edits as edits;
ghost use Rattle.pcm_base.specs.Pieces.{Sources, stretch};
ghost use Rattle.pcm_base.specs.Refusals.{inserted_length};
ghost use Rattle.clip_track.specs.Clips.{end_of, layout_cells, AllHalfFull, layout_blocks};
ghost use Rattle.edit_ops.specs.Changes.{cell_change};
ghost use Rattle.clip_track.specs.Kept.{Keeps};
ghost use Rattle.pcm_base.specs.Sizes.{sample_count, clip_count};
ghost use Rattle.edit_ops.specs.Plans.{IsPlan, Means, start_of};
ghost use Rattle.edit_ops.specs.Strips.{CutsWithin, cut_cells};
ghost use Rattle.edit_ops.specs.Windows as windows;

use super::changing::Change;
use super::planner::Planner;
use super::planning::plan_strip;
use super::putting::put_back;
use super::strips;
use super::strips::Cutting;
use super::types::Plan;
use super::windows::{Near, find_near};
use clip_track::Layout;
use pcm_base::{NoMemory, RangeEdit};

/// The same as `plan_cut`, by a strip of the whole track.
fn plan_cut_whole(
    planner: Planner,
    t: &Layout,
    cut: Cutting,
    from: u64,
    to: u64,
) -> Result<Plan, NoMemory>
    requires half_full { AllHalfFull planner.block_size t.now }
    requires rising { from ≤ to }
    requires within { CutsWithin cut to (end_of 0 t.now) }
    ensures plan { IfOk result (λ p. IsPlan (start_of planner) (layout_blocks t.now) 0 p) }
    ensures kept { IfOk result (λ p. Keeps p.kept (layout_blocks t.now) (layout_blocks p.layout)) }
    ensures cells { IfOk result (λ p. Means (λ src. cut_cells cut from to) t.now p) }
    ensures few_made { IfOk result (λ p. length p.makes ≤ 8) }
{
    let whole = t.to_strip()?;
    let strip = strips::cut(planner.alloc, &whole, cut, from, to)?;
    Ok(plan_strip(planner, &strip)?)
}

/// How many of some cells are left where this many are cut, if a window is enough to cut them.
fn cells_left(cut: Cutting, old: u64, count: u64) -> Option<u64>
    requires { count ≤ old }
    ensures { result ≡ windows.cells_left cut old count }
{
    match cut {
        Cutting::Delete => Some(old - count),
        Cutting::SplitDelete => Some(old),
        Cutting::Trim => None,
    }
}

/// The same as `plan_cut`, by a window around the range, where there is one.
fn plan_cut_near(
    planner: Planner,
    t: &Layout,
    cut: Cutting,
    from: u64,
    to: u64,
) -> Result<Option<Plan>, NoMemory>
    requires half_full { AllHalfFull planner.block_size t.now }
    requires rising { from < to }
    ensures plan { IfOk result (λ o. IfSome o (λ p. IsPlan (start_of planner) (layout_blocks t.now) 0 p)) }
    ensures kept { IfOk result (λ o. IfSome o (λ p. Keeps p.kept (layout_blocks t.now) (layout_blocks p.layout))) }
    ensures cells { IfOk result (λ o. IfSome o (λ p. Means (λ src. cut_cells cut from to) t.now p)) }
    ensures few_made { IfOk result (λ o. IfSome o (λ p. length p.makes ≤ 8)) }
{
    let Some(found) = find_near(planner, t, from, to)? else {
        return Ok(None);
    };
    let Near { window, small } = found;
    let old = small.len();
    let Some(new) = cells_left(cut, old, to - from) else {
        return Ok(None);
    };
    let begin = from - window.from;
    let end = to - window.from;
    let plan = plan_cut_whole(planner, &small, cut, begin, end)?;
    Ok(put_back(planner, t, window, old, new, plan)?)
}

/// With a range cut, which may end, or begin, beyond the track; a trim's range is within it.
pub fn plan_cut(
    planner: Planner,
    t: &Layout,
    cut: Cutting,
    from: u64,
    to: u64,
) -> Result<Plan, NoMemory>
    requires half_full { AllHalfFull planner.block_size t.now }
    requires rising { from ≤ to }
    requires within { CutsWithin cut to (end_of 0 t.now) }
    ensures plan { IfOk result (λ p. IsPlan (start_of planner) (layout_blocks t.now) 0 p) }
    ensures kept { IfOk result (λ p. Keeps p.kept (layout_blocks t.now) (layout_blocks p.layout)) }
    ensures cells { IfOk result (λ p. Means (λ src. cut_cells cut from to) t.now p) }
    ensures few_made { IfOk result (λ p. length p.makes ≤ 8) }
{
    if from >= to {
        return plan_cut_whole(planner, t, cut, from, to);
    }
    match plan_cut_near(planner, t, cut, from, to)? {
        Some(plan) => Ok(plan),
        None => plan_cut_whole(planner, t, cut, from, to),
    }
}

/// The same as `plan_with_change`, by a strip of the whole track.
fn plan_change_whole(
    planner: Planner,
    t: &Layout,
    from: u64,
    to: u64,
    change: Change,
) -> Result<Plan, NoMemory>
    requires half_full { AllHalfFull planner.block_size t.now }
    requires rising { from ≤ to }
    ensures plan { IfOk result (λ p. IsPlan (start_of planner) (layout_blocks t.now) 0 p) }
    ensures kept { IfOk result (λ p. Keeps p.kept (layout_blocks t.now) (layout_blocks p.layout)) }
    ensures cells { IfOk result (λ p. Means (λ src. edits.changed (cell_change change) from to) t.now p) }
    ensures few_made { IfOk result (λ p. (src : Sources) →
        let cells = edits.part from to (layout_cells src t.now) in
        length p.makes ≤ 8 + sample_count cells / planner.block_size + clip_count cells) }
{
    let whole = t.to_strip()?;
    let strip = strips::with_change(planner.alloc, &whole, from, to, change)?;
    Ok(plan_strip(planner, &strip)?)
}

/// The same, by a window around the range, where there is one.
fn plan_change_near(
    planner: Planner,
    t: &Layout,
    from: u64,
    to: u64,
    change: Change,
) -> Result<Option<Plan>, NoMemory>
    requires half_full { AllHalfFull planner.block_size t.now }
    requires rising { from < to }
    ensures plan { IfOk result (λ o. IfSome o (λ p. IsPlan (start_of planner) (layout_blocks t.now) 0 p)) }
    ensures kept { IfOk result (λ o. IfSome o (λ p. Keeps p.kept (layout_blocks t.now) (layout_blocks p.layout))) }
    ensures cells { IfOk result (λ o. IfSome o
        (λ p. Means (λ src. edits.changed (cell_change change) from to) t.now p)) }
    ensures few_made { IfOk result (λ o. IfSome o (λ p. (src : Sources) →
        let cells = edits.part from to (layout_cells src t.now) in
        length p.makes ≤ 8 + sample_count cells / planner.block_size + clip_count cells)) }
{
    let Some(found) = find_near(planner, t, from, to)? else {
        return Ok(None);
    };
    let Near { window, small } = found;
    let old = small.len();
    let begin = from - window.from;
    let end = to - window.from;
    let plan = plan_change_whole(planner, &small, begin, end, change)?;
    Ok(put_back(planner, t, window, old, old, plan)?)
}

/// With each sample of a range changed.
fn plan_with_change(
    planner: Planner,
    t: &Layout,
    from: u64,
    to: u64,
    change: Change,
) -> Result<Plan, NoMemory>
    requires half_full { AllHalfFull planner.block_size t.now }
    requires rising { from ≤ to }
    ensures plan { IfOk result (λ p. IsPlan (start_of planner) (layout_blocks t.now) 0 p) }
    ensures kept { IfOk result (λ p. Keeps p.kept (layout_blocks t.now) (layout_blocks p.layout)) }
    ensures cells { IfOk result (λ p. Means (λ src. edits.changed (cell_change change) from to) t.now p) }
    ensures few_made { IfOk result (λ p. (src : Sources) →
        let cells = edits.part from to (layout_cells src t.now) in
        length p.makes ≤ 8 + sample_count cells / planner.block_size + clip_count cells) }
{
    if from >= to {
        return plan_change_whole(planner, t, from, to, change);
    }
    match plan_change_near(planner, t, from, to, change)? {
        Some(plan) => Ok(plan),
        None => plan_change_whole(planner, t, from, to, change),
    }
}

/// With the cells of a range of the track edited.
pub fn plan_edited(
    planner: Planner,
    t: &Layout,
    from: u64,
    to: u64,
    edit: RangeEdit,
) -> Result<Plan, NoMemory>
    requires half_full { AllHalfFull planner.block_size t.now }
    requires rising { from ≤ to }
    requires within { to ≤ end_of 0 t.now }
    ensures plan { IfOk result (λ p. IsPlan (start_of planner) (layout_blocks t.now) 0 p) }
    ensures kept { IfOk result (λ p. Keeps p.kept (layout_blocks t.now) (layout_blocks p.layout)) }
    ensures cells { IfOk result (λ p. Means (λ src. edits.range_edited edit from to) t.now p) }
    ensures few_made { IfOk result (λ p. (src : Sources) →
        length p.makes ≤ blocks_of_edit edit planner.block_size (edits.part from to (layout_cells src t.now))) }
{
    match edit {
        RangeEdit::Delete => plan_cut(planner, t, Cutting::Delete, from, to),
        RangeEdit::SplitDelete => plan_cut(planner, t, Cutting::SplitDelete, from, to),
        RangeEdit::Silence => plan_with_change(planner, t, from, to, Change::Silence),
        RangeEdit::Trim => plan_cut(planner, t, Cutting::Trim, from, to),
        RangeEdit::Gain { gain } => plan_with_change(planner, t, from, to, Change::Gain { gain }),
    }
}

/// The same as `plan_with_given`, by a strip of the whole track.
fn plan_given_whole(planner: Planner, t: &Layout, at: u64, count: u64) -> Result<Plan, NoMemory>
    requires half_full { AllHalfFull planner.block_size t.now }
    requires few { inserted_length at count (end_of 0 t.now) ≤ MAX_CELLS }
    ensures plan { IfOk result (λ p. IsPlan (start_of planner) (layout_blocks t.now) count p) }
    ensures kept { IfOk result (λ p. Keeps p.kept (layout_blocks t.now) (layout_blocks p.layout)) }
    ensures cells { IfOk result
        (λ p. Means (λ src. edits.inserted at (edits.as_cells (stretch src.given 0 count))) t.now p) }
    ensures few_made { IfOk result (λ p. length p.makes ≤ 8 + count / planner.block_size) }
{
    let whole = t.to_strip()?;
    let given = strips::all_given(planner.alloc, count)?;
    let strip = strips::with_inserted(planner.alloc, &whole, at, &given)?;
    Ok(plan_strip(planner, &strip)?)
}

/// The same, by a window around the place, where there is one.
fn plan_given_near(
    planner: Planner,
    t: &Layout,
    at: u64,
    count: u64,
) -> Result<Option<Plan>, NoMemory>
    requires half_full { AllHalfFull planner.block_size t.now }
    requires few { inserted_length at count (end_of 0 t.now) ≤ MAX_CELLS }
    ensures plan { IfOk result (λ o. IfSome o (λ p. IsPlan (start_of planner) (layout_blocks t.now) count p)) }
    ensures kept { IfOk result (λ o. IfSome o (λ p. Keeps p.kept (layout_blocks t.now) (layout_blocks p.layout))) }
    ensures cells { IfOk result (λ o. IfSome o
        (λ p. Means (λ src. edits.inserted at (edits.as_cells (stretch src.given 0 count))) t.now p)) }
    ensures few_made { IfOk result (λ o. IfSome o (λ p. length p.makes ≤ 8 + count / planner.block_size)) }
{
    let Some(found) = find_near(planner, t, at, at)? else {
        return Ok(None);
    };
    let Near { window, small } = found;
    let old = small.len();
    let plan = plan_given_whole(planner, &small, at - window.from, count)?;
    Ok(put_back(planner, t, window, old, old + count, plan)?)
}

/// With the samples that the command brings put in at a place.
pub fn plan_with_given(planner: Planner, t: &Layout, at: u64, count: u64) -> Result<Plan, NoMemory>
    requires half_full { AllHalfFull planner.block_size t.now }
    requires few { inserted_length at count (end_of 0 t.now) ≤ MAX_CELLS }
    ensures plan { IfOk result (λ p. IsPlan (start_of planner) (layout_blocks t.now) count p) }
    ensures kept { IfOk result (λ p. Keeps p.kept (layout_blocks t.now) (layout_blocks p.layout)) }
    ensures cells { IfOk result
        (λ p. Means (λ src. edits.inserted at (edits.as_cells (stretch src.given 0 count))) t.now p) }
    ensures few_made { IfOk result (λ p. length p.makes ≤ 8 + count / planner.block_size) }
{
    match plan_given_near(planner, t, at, count)? {
        Some(plan) => Ok(plan),
        None => plan_given_whole(planner, t, at, count),
    }
}
