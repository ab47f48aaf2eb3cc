// The strips that edits lay out, each made of a whole track's strip.
ghost use Rattle.std.specs.Prelude.{◌≡◌, ◌+◌, ◌-◌, ◌≤◌, ◌<◌, ◌^◌, ◌++◌, [], ◌∷◌, map, min, IfOk, OnOk};
ghost use Rattle.pcm_base.specs.declared.limits.TheConstants.{MAX_CELLS};
ghost use Rattle.pcm_base.specs.Refusals.{inserted_length, covered_length};
ghost use Rattle.clip_track.specs.Items.{AreItems, part_items, strip_len};
ghost use Rattle.edit_ops.specs.Strips as strips;

use super::changing::{Change, change_strip};
use clip_track::{Item, Strip, append_gap, append_part, append_piece};
use pcm_base::{NoMemory, Piece};
use std::alloc::{AllocError, Global};

/// How a range of a track is cut.
#[derive(Clone, Copy, Debug)]
pub enum Cutting {
    /// It is deleted.
    Delete,
    /// It becomes gaps.
    SplitDelete,
    /// All but the range becomes gaps, as far as the range goes.
    Trim,
}

/// Without the cells of a range, as much of it as is there.
fn without(alloc: Global, whole: &Strip, from: u64, to: u64) -> Result<Strip, NoMemory>
    requires { from ≤ to }
    ensures items { IfOk result (λ s. s ≡ strips.without from to whole.now) }
    ensures len { IfOk result (λ s. strip_len s ≤ strip_len whole.now) }
{
    let mut out = Vec::new(alloc);
    append_part(&mut out, whole.as_slice(), 0, from)?;
    append_part(&mut out, whole.as_slice(), to, whole.len())?;
    Ok(Strip::from_items(out))
}

/// With gaps in the place of a range, as much of it as is there.
fn with_gaps(alloc: Global, whole: &Strip, from: u64, to: u64) -> Result<Strip, NoMemory>
    requires { from ≤ to }
    ensures items { IfOk result (λ s. s ≡ strips.with_gaps from to whole.now) }
    ensures len { IfOk result (λ s. strip_len s ≤ strip_len whole.now) }
{
    let mut out = Vec::new(alloc);
    append_part(&mut out, whole.as_slice(), 0, from)?;
    let gaps = (to - from).min(whole.len().saturating_sub(from));
    append_gap(&mut out, gaps)?;
    append_part(&mut out, whole.as_slice(), to, whole.len())?;
    Ok(Strip::from_items(out))
}

/// With gaps in the place of all but a range.
fn only_part(alloc: Global, whole: &Strip, from: u64, to: u64) -> Result<Strip, NoMemory>
    requires rising { from ≤ to }
    requires within { to ≤ strip_len whole.now }
    ensures items { IfOk result (λ s. s ≡ strips.only_part from to whole.now) }
    ensures len { IfOk result (λ s. strip_len s ≤ strip_len whole.now) }
{
    let mut out = Vec::new(alloc);
    append_gap(&mut out, from)?;
    append_part(&mut out, whole.as_slice(), from, to - from)?;
    Ok(Strip::from_items(out))
}

/// With a range cut.
pub fn cut(
    alloc: Global,
    whole: &Strip,
    cut: Cutting,
    from: u64,
    to: u64,
) -> Result<Strip, NoMemory>
    requires rising { from ≤ to }
    requires within { strips.CutsWithin cut to (strip_len whole.now) }
    ensures items { IfOk result (λ s. s ≡ strips.cut_items cut from to whole.now) }
    ensures len { IfOk result (λ s. strip_len s ≤ strip_len whole.now) }
{
    match cut {
        Cutting::Delete => without(alloc, whole, from, to),
        Cutting::SplitDelete => with_gaps(alloc, whole, from, to),
        Cutting::Trim => only_part(alloc, whole, from, to),
    }
}

/// The part from one place to another.
fn part(alloc: Global, whole: &Strip, from: u64, to: u64) -> Result<Strip, NoMemory>
    requires { from ≤ to }
    ensures items { IfOk result (λ s. s ≡ part_items from (to - from) whole.now) }
    ensures len { IfOk result (λ s. strip_len s ≡ min (to - from) (strip_len whole.now - from)) }
{
    let mut out = Vec::new(alloc);
    append_part(&mut out, whole.as_slice(), from, to - from)?;
    Ok(Strip::from_items(out))
}

/// With each sample of a range changed.
pub fn with_change(
    alloc: Global,
    whole: &Strip,
    from: u64,
    to: u64,
    change: Change,
) -> Result<Strip, NoMemory>
    requires { from ≤ to }
    ensures items { IfOk result (λ s. s ≡ strips.with_change change from to whole.now) }
    ensures len { IfOk result (λ s. strip_len s ≤ strip_len whole.now) }
{
    let old = part(alloc, whole, from, to)?;
    let new = change_strip(alloc, &old, change)?;
    let mut out = Vec::new(alloc);
    append_part(&mut out, whole.as_slice(), 0, from)?;
    append_strip(&mut out, &new)?;
    append_part(&mut out, whole.as_slice(), to, whole.len())?;
    Ok(Strip::from_items(out))
}

/// Adds the first cells of a strip, continued by gaps up to a length.
fn append_front(out: &mut Vec<Item>, whole: &Strip, at: u64) -> Result<(), AllocError>
    requires { AreItems out.old.items }
    ensures items { OnOk result (out.new.items ≡ out.old.items ++ strips.front_items at whole.now) }
    ensures ok { OnOk result (AreItems out.new.items) }
    ensures len { OnOk result (strip_len out.new.items ≡ strip_len out.old.items + at) }
{
    append_part(out, whole.as_slice(), 0, at)?;
    append_gap(out, at.saturating_sub(whole.len()))
}

/// Adds all of a strip.
fn append_strip(out: &mut Vec<Item>, strip: &Strip) -> Result<(), AllocError>
    requires { AreItems out.old.items }
    ensures items { OnOk result (out.new.items ≡ out.old.items ++ strip.now) }
    ensures ok { OnOk result (AreItems out.new.items) }
    ensures len { OnOk result (strip_len out.new.items ≡ strip_len out.old.items + strip_len strip.now) }
{
    append_part(out, strip.as_slice(), 0, strip.len())
}

/// With a strip put in at a place.
pub fn with_inserted(
    alloc: Global,
    whole: &Strip,
    at: u64,
    middle: &Strip,
) -> Result<Strip, NoMemory>
    requires { inserted_length at (strip_len middle.now) (strip_len whole.now) ≤ MAX_CELLS }
    ensures items { IfOk result (λ s. s ≡ strips.with_inserted at middle.now whole.now) }
    ensures len { IfOk result (λ s. strip_len s ≡ inserted_length at (strip_len middle.now) (strip_len whole.now)) }
{
    let mut out = Vec::new(alloc);
    append_front(&mut out, whole, at)?;
    append_strip(&mut out, middle)?;
    append_part(&mut out, whole.as_slice(), at, whole.len())?;
    Ok(Strip::from_items(out))
}

/// All of the samples that the command brings.
pub fn all_given(alloc: Global, count: u64) -> Result<Strip, NoMemory>
    ensures { IfOk result (λ s. s ≡ strips.given_items count) }
{
    let mut out = Vec::new(alloc);
    if count > 0 {
        let piece = Piece::Given { from: 0, to: count };
        append_piece(&mut out, piece)?;
    }
    Ok(Strip::from_items(out))
}

/// With a strip in the place of as many cells.
pub fn with_covered(
    alloc: Global,
    whole: &Strip,
    at: u64,
    middle: &Strip,
) -> Result<Strip, NoMemory>
    requires { covered_length at (strip_len middle.now) (strip_len whole.now) ≤ MAX_CELLS }
    ensures items { IfOk result (λ s. s ≡ strips.with_covered at middle.now whole.now) }
    ensures len { IfOk result (λ s. strip_len s ≡ covered_length at (strip_len middle.now) (strip_len whole.now)) }
{
    let mut out = Vec::new(alloc);
    append_front(&mut out, whole, at)?;
    append_strip(&mut out, middle)?;
    append_part(&mut out, whole.as_slice(), at + middle.len(), whole.len())?;
    Ok(Strip::from_items(out))
}

/// All cells of a range, gaps where the track is shorter.
pub fn range_part(alloc: Global, whole: &Strip, from: u64, to: u64) -> Result<Strip, NoMemory>
    requires { from ≤ to }
    ensures items { IfOk result (λ s. s ≡ strips.range_items from to whole.now) }
    ensures len { IfOk result (λ s. strip_len s ≡ to - from) }
{
    let mut out = Vec::new(alloc);
    append_part(&mut out, whole.as_slice(), from, to - from)?;
    let there = whole.len().saturating_sub(from);
    append_gap(&mut out, (to - from).saturating_sub(there))?;
    Ok(Strip::from_items(out))
}
