// Sequences whose blocks all have four samples. That they have is tested, and with it that they are half full.
ghost use Rattle.std.specs.Prelude.{◌≡◌, ◌≤◌, length, IsTrue, IfOk};
ghost use Rattle.row_examples.specs.Fours.{AreFours};

use block_sequence::{Pieces, Sequence};
use pcm_base::BlockRef;
use std::alloc::Global;
use std::test::*;

/// More blocks than any of these sequences has.
const MOST: usize = 1_000_000;

/// Whether each block has four samples.
fn are_fours(blocks: &[BlockRef]) -> bool
    ensures { IsTrue result → AreFours blocks.now }
{
    for i in 0..blocks.len() {
        if blocks[i].len != 4 {
            return false;
        }
    }
    true
}

/// The same, where a sequence may have them.
fn is_fit(blocks: &[BlockRef]) -> bool
    ensures fours { IsTrue result → AreFours blocks.now }
    ensures few { IsTrue result → length blocks.now ≤ 1000000 }
{
    blocks.len() <= MOST && are_fours(blocks)
}

/// Blocks of these ids, from one up to another.
pub(crate) fn refs(alloc: Global, from: u64, to: u64) -> Result<Vec<BlockRef>, Fail> {
    let mut out = Vec::new(alloc);
    for id in from..to {
        out.push(BlockRef { id, len: 4 })?;
    }
    Ok(out)
}

/// A new sequence of these blocks.
pub(crate) fn made(blocks: Vec<BlockRef>) -> Result<Sequence, Fail>
    ensures { IfOk result (λ s. s ≡ blocks.items) }
{
    if !is_fit(blocks.as_slice()) {
        return Err("not of four samples".into());
    }
    Ok(Sequence::new(blocks)?)
}

/// A sequence with other blocks in place of those from one place up to another.
pub(crate) fn spliced(
    alloc: Global,
    old: &Sequence,
    from: usize,
    to: usize,
    middle: &[BlockRef],
) -> Result<Sequence, Fail> {
    if to < from || old.count() < to {
        return Err("no such places".into());
    }
    let mut all = Vec::new(alloc);
    old.append_to(&mut all, 0, from)?;
    all.extend_from_slice(middle)?;
    old.append_to(&mut all, to, old.count())?;
    if !is_fit(all.as_slice()) {
        return Err("not of four samples".into());
    }
    Ok(old.splice(from, to, middle)?)
}

/// The samples from one place up to another.
pub(crate) fn part(blocks: &Sequence, from: u64, to: u64) -> Result<Pieces, Fail> {
    if to < from || blocks.len() < to {
        return Err("no such places".into());
    }
    Ok(blocks.slice(from, to)?)
}
