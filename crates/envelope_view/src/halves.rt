// The two sides of an edge inside a long frame: the shorter side is read, and the frame's own summary tells the other.
ghost use Rattle.std.specs.Prelude.{◌≡◌, ◌≤◌, ◌<◌, ◌+◌, ◌*◌, IfSome};
ghost use Rattle.sample_block.specs.Spelling.{IsBlock};
ghost use Rattle.peak_summary.specs.declared.stretch.Summary.{Summary as Sum};
ghost use Rattle.envelope_view.specs.Parts.{IsSum, OfBlock, Sums};
ghost use Rattle.envelope_view.specs.Halves.{IsRest, SumsHalves};

use super::parts::{by_frames, by_short, summarize};
use super::reads::read_samples;
use block_cache::BlockReader;
use block_store::{BlockFault, Level};
use disk_model::Store;
use pcm_base::BlockRef;
use peak_summary::{Summary, join, of};
use sample_block::LONG_FRAME;

/// From one place of a block up to another, with an edge between them.
#[derive(Clone, Copy)]
pub(crate) struct Split {
    pub(crate) from: u32,
    pub(crate) edge: u32,
    pub(crate) to: u32,
}

/// The summaries of what stands before a place, and of what stands after it.
#[derive(Clone, Copy)]
pub(crate) struct Halves {
    pub(crate) before: Summary,
    pub(crate) after: Summary,
}

/// The summary of the rest of a whole of which a part was read. It is known where the part has neither extreme of the
/// whole. Of a damaged file the differences stand still at 0.
fn rest_of(whole: Summary, part: Summary) -> Option<Summary>
    ensures { (rest : Sum) → IsRest whole part rest → IfSome result (λ s. s ≡ rest) }
{
    if whole.min < part.min && part.max < whole.max {
        return Some(Summary {
            min: whole.min,
            max: whole.max,
            squares: whole.squares.saturating_sub(part.squares),
            count: whole.count.saturating_sub(part.count),
        });
    }
    None
}

/// The summary of the side of an edge that was not read: what is left of the whole, where that is known, else it is
/// read too.
fn other_side<S: Store>(
    reader: &mut BlockReader<S>,
    block: BlockRef,
    reach: u64,
    from: u32,
    to: u32,
    rest: Option<Summary>,
) -> Result<Summary, BlockFault>
    requires block { IsBlock block.id block.len }
    requires rising { from ≤ to }
    requires within { to ≤ block.len }
    requires rest { OfBlock reader.old block (λ xs. IfSome rest (IsSum from to xs)) }
    ensures { Sums block from to to reader.old reader.new result }
{
    match rest {
        Some(summary) => Ok(summary),
        None => by_short(reader, block, reach, from, to),
    }
}

/// The summaries of both sides of an edge in a whole whose summary is known: the side before it is read first.
fn before_first<S: Store>(
    reader: &mut BlockReader<S>,
    block: BlockRef,
    reach: u64,
    at: Split,
    whole: Summary,
) -> Result<Halves, BlockFault>
    requires block { IsBlock block.id block.len }
    requires before { at.from < at.edge }
    requires behind { at.edge < at.to }
    requires within { at.to ≤ block.len }
    requires whole { OfBlock reader.old block (λ xs. IsSum at.from at.to xs whole) }
    ensures { SumsHalves block at reader.old reader.new result }
{
    let before = by_short(reader, block, reach, at.from, at.edge)?;
    let rest = rest_of(whole, before);
    let after = other_side(reader, block, reach, at.edge, at.to, rest)?;
    Ok(Halves { before, after })
}

/// The same, and the side after the edge is read first.
fn after_first<S: Store>(
    reader: &mut BlockReader<S>,
    block: BlockRef,
    reach: u64,
    at: Split,
    whole: Summary,
) -> Result<Halves, BlockFault>
    requires block { IsBlock block.id block.len }
    requires before { at.from < at.edge }
    requires behind { at.edge < at.to }
    requires within { at.to ≤ block.len }
    requires whole { OfBlock reader.old block (λ xs. IsSum at.from at.to xs whole) }
    ensures { SumsHalves block at reader.old reader.new result }
{
    let after = by_short(reader, block, reach, at.edge, at.to)?;
    let rest = rest_of(whole, after);
    let before = other_side(reader, block, reach, at.from, at.edge, rest)?;
    Ok(Halves { before, after })
}

/// The same, and the shorter side is read first.
fn sides<S: Store>(
    reader: &mut BlockReader<S>,
    block: BlockRef,
    reach: u64,
    at: Split,
    whole: Summary,
) -> Result<Halves, BlockFault>
    requires block { IsBlock block.id block.len }
    requires before { at.from < at.edge }
    requires behind { at.edge < at.to }
    requires within { at.to ≤ block.len }
    requires whole { OfBlock reader.old block (λ xs. IsSum at.from at.to xs whole) }
    ensures { SumsHalves block at reader.old reader.new result }
{
    if at.edge - at.from <= at.to - at.edge {
        return before_first(reader, block, reach, at, whole);
    }
    after_first(reader, block, reach, at, whole)
}

/// The summaries of a part that ends at an edge inside a long frame, and of what is after the edge up to where the
/// frame ends: from the frames before it, the frame's own, and one of its sides.
pub(crate) fn up_to_edge<S: Store>(
    reader: &mut BlockReader<S>,
    block: BlockRef,
    reach: u64,
    frame: u32,
    at: Split,
) -> Result<Halves, BlockFault>
    requires block { IsBlock block.id block.len }
    requires rising { at.from ≤ LONG_FRAME * frame }
    requires before { LONG_FRAME * frame < at.edge }
    requires behind { at.edge < at.to }
    requires within { at.to ≤ block.len }
    requires few { at.to ≤ LONG_FRAME * frame + LONG_FRAME }
    requires last { at.to < LONG_FRAME * frame + LONG_FRAME → at.to ≡ block.len }
    ensures { SumsHalves block at reader.old reader.new result }
{
    let front = summarize(reader, block, reach, at.from, LONG_FRAME * frame)?;
    let whole = by_frames(reader, block, reach, Level::Long, frame, frame + 1)?;
    let inside = Split {
        from: LONG_FRAME * frame,
        edge: at.edge,
        to: at.to,
    };
    let halves = sides(reader, block, reach, inside, whole)?;
    Ok(Halves {
        before: join(front, halves.before),
        after: halves.after,
    })
}

/// The summaries of a part that ends at an edge inside a short frame, and of what is after the edge up to where the
/// frame ends: from what is before the frame, and the frame's samples, in one read.
pub(crate) fn up_to_short_edge<S: Store>(
    reader: &mut BlockReader<S>,
    block: BlockRef,
    reach: u64,
    start: u32,
    at: Split,
) -> Result<Halves, BlockFault>
    requires block { IsBlock block.id block.len }
    requires rising { at.from ≤ start }
    requires before { start < at.edge }
    requires behind { at.edge < at.to }
    requires within { at.to ≤ block.len }
    requires few { at.to ≤ start + 256 }
    ensures { SumsHalves block at reader.old reader.new result }
{
    let front = summarize(reader, block, reach, at.from, start)?;
    let mut buf = [0i16; 256];
    let samples = &mut buf[..(at.to - start) as usize];
    read_samples(reader, block, reach, start, samples)?;
    let split = (at.edge - start) as usize;
    let before = join(front, of(&samples[..split]));
    let after = of(&samples[split..]);
    Ok(Halves { before, after })
}
