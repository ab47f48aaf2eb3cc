// What is known of a block after the part that was summarized last.
ghost use Rattle.std.specs.Prelude.{◌≡◌, ◌≤◌, ◌<◌, ◌+◌, ◌*◌, min, IsTrue, IfSome, Some};
ghost use Rattle.pcm_base.specs.declared.limits.TheConstants.{MAX_BLOCK_SAMPLES};
ghost use Rattle.disk_model.specs.Disk.{Files};
ghost use Rattle.sample_block.specs.Spelling.{IsBlock};
ghost use Rattle.envelope_view.specs.Halves.{IsEdgeIn, IsKnown, IsShortEdge};
ghost use Rattle.envelope_view.specs.Parts.{Sums};

use super::halves::{Split, up_to_edge, up_to_short_edge};
use super::parts::summarize;
use block_cache::BlockReader;
use block_store::BlockFault;
use disk_model::Store;
use pcm_base::BlockRef;
use peak_summary::{NOTHING, Summary};
use sample_block::LONG_FRAME;

/// The summary of a part of a block that was not asked for yet.
#[derive(Clone, Copy)]
pub(crate) struct Known {
    pub(crate) block: BlockRef,
    pub(crate) from: u32,
    pub(crate) to: u32,
    pub(crate) summary: Summary,
}

/// What is known of the front of a part of a block: nothing, up to its begin, where what is known is of another part.
pub(crate) fn front_of(known: Option<Known>, block: BlockRef, from: u32, to: u32) -> Known
    requires { from ≤ to }
    ensures block { result.block ≡ block }
    ensures from { result.from ≡ from }
    ensures rising { from ≤ result.to }
    ensures within { result.to ≤ to }
    ensures known { (files : Files) → IsKnown files known → IsKnown files (Some result) }
{
    if let Some(front) = known {
        if front.block == block && front.from == from && from <= front.to && front.to <= to {
            return front;
        }
    }
    Known {
        block,
        from,
        to: from,
        summary: NOTHING,
    }
}

/// Where a long frame ends.
fn frame_stop(len: u32, frame: u32) -> u32
    requires { frame ≤ 4 }
    ensures within { result ≤ len }
    ensures few { result ≤ LONG_FRAME * frame + LONG_FRAME }
    ensures last { result < LONG_FRAME * frame + LONG_FRAME → result ≡ len }
{
    len.min(LONG_FRAME * frame + LONG_FRAME)
}

/// The number of the long frame inside which a part ends, if the part has all that is before its end, and the next
/// `reach` cells all that is after it.
fn frame_at(len: u32, from: u32, to: u32, reach: u64) -> Option<u32>
    requires within { to ≤ len }
    requires few { len ≤ MAX_BLOCK_SAMPLES }
    ensures { IfSome result (IsEdgeIn len from to reach) }
{
    let frame = to / LONG_FRAME;
    let start = LONG_FRAME * frame;
    let stop = frame_stop(len, frame);
    if from <= start && start < to && to < stop && u64::from(stop - to) <= reach {
        return Some(frame);
    }
    None
}

/// Where the short frame begins inside which a part ends, on the same conditions.
fn short_start(len: u32, from: u32, to: u32, reach: u64) -> Option<u32>
    requires within { to ≤ len }
    ensures { IfSome result (IsShortEdge len from to reach) }
{
    let start = to / 256 * 256;
    let stop = short_stop(len, start);
    if from <= start && start < to && to < stop && u64::from(stop - to) <= reach {
        return Some(start);
    }
    None
}

/// Where a short frame ends.
fn short_stop(len: u32, start: u32) -> u32
    requires { start ≤ len }
    ensures within { result ≤ len }
    ensures few { result ≤ start + 256 }
    ensures last { result < start + 256 → result ≡ len }
{
    if len - start < 256 {
        return len;
    }
    start + 256
}

/// The same where the part ends inside no long frame of which all is asked for: where it ends inside a short one, the
/// frame's samples are read once for both sides.
fn summarize_narrow<S: Store>(
    reader: &mut BlockReader<S>,
    known: &mut Option<Known>,
    block: BlockRef,
    from: u32,
    to: u32,
    reach: u64,
) -> Result<Summary, BlockFault>
    requires block { IsBlock block.id block.len }
    requires rising { from ≤ to }
    requires within { to ≤ block.len }
    requires known { IsTrue (S.tells reader.old.store) → IsKnown (S.reads reader.old.store) known.old }
    ensures known { IsTrue (S.tells reader.old.store) → IsKnown (S.reads reader.old.store) known.new }
    ensures sum { Sums block from to (min block.len (to + reach)) reader.old reader.new result }
{
    let Some(start) = short_start(block.len, from, to, reach) else {
        return summarize(reader, block, reach, from, to);
    };
    let stop = short_stop(block.len, start);
    let at = Split {
        from,
        edge: to,
        to: stop,
    };
    let halves = up_to_short_edge(reader, block, reach, start, at)?;
    *known = Some(Known {
        block,
        from: to,
        to: stop,
        summary: halves.after,
    });
    Ok(halves.before)
}

/// The summary of a part of a block, after which at least `reach` cells more are asked for next. Where the part ends
/// inside a long frame, what comes after it is known from then on.
pub(crate) fn summarize_on<S: Store>(
    reader: &mut BlockReader<S>,
    known: &mut Option<Known>,
    block: BlockRef,
    from: u32,
    to: u32,
    reach: u64,
) -> Result<Summary, BlockFault>
    requires block { IsBlock block.id block.len }
    requires rising { from ≤ to }
    requires within { to ≤ block.len }
    requires known { IsTrue (S.tells reader.old.store) → IsKnown (S.reads reader.old.store) known.old }
    ensures known { IsTrue (S.tells reader.old.store) → IsKnown (S.reads reader.old.store) known.new }
    ensures sum { Sums block from to (min block.len (to + reach)) reader.old reader.new result }
{
    let Some(frame) = frame_at(block.len, from, to, reach) else {
        return summarize_narrow(reader, known, block, from, to, reach);
    };
    let stop = frame_stop(block.len, frame);
    let at = Split {
        from,
        edge: to,
        to: stop,
    };
    let halves = up_to_edge(reader, block, reach, frame, at)?;
    *known = Some(Known {
        block,
        from: to,
        to: stop,
        summary: halves.after,
    });
    Ok(halves.before)
}
