// The summary of a part of a block, from whole frames and the samples at its edges.
ghost use Rattle.std.specs.Prelude.{◌≡◌, ◌≤◌, ◌<◌, ◌+◌, ◌*◌};
ghost use Rattle.pcm_base.specs.declared.limits.TheConstants.{MAX_BLOCK_SAMPLES};
ghost use Rattle.sample_block.specs.Spelling.{IsBlock};
ghost use Rattle.block_store.specs.Reads.{frame_len};
ghost use Rattle.block_store.specs.declared.frames.Level.TheVariants.{Short, Long};
ghost use Rattle.peak_summary.specs.Peaks.{frame_count};
ghost use Rattle.envelope_view.specs.Parts.{Sums, SumsFrames};

use super::reads::read_samples;
use block_cache::BlockReader;
use block_store::{BlockFault, Level};
use disk_model::Store;
use pcm_base::BlockRef;
use peak_summary::{NOTHING, Summary, join, of};
use sample_block::LONG_FRAME;

/// How many samples are read at once.
const BUFFER_LEN: usize = 512;

/// The number of the frame of 256 samples at which the whole frames before `to` end. The last frame of a block, which
/// may be of fewer samples, is whole where the part ends with the block.
fn short_end(len: u32, to: u32) -> u32
    requires within { to ≤ len }
    requires few { len ≤ MAX_BLOCK_SAMPLES }
    ensures frames { result ≤ frame_count 256 len }
    ensures low { 256 * result < to + 256 }
    ensures high { to < 256 * result + 256 }
    ensures last { to < 256 * result → to ≡ len }
{
    if to == len {
        return to.div_ceil(256);
    }
    to / 256
}

/// The same of the frames of 65,536 samples.
fn long_end(len: u32, to: u32) -> u32
    requires within { to ≤ len }
    requires few { len ≤ MAX_BLOCK_SAMPLES }
    ensures frames { result ≤ frame_count LONG_FRAME len }
    ensures low { LONG_FRAME * result < to + LONG_FRAME }
    ensures high { to < LONG_FRAME * result + LONG_FRAME }
    ensures last { to < LONG_FRAME * result → to ≡ len }
{
    if to == len {
        return to.div_ceil(LONG_FRAME);
    }
    to / LONG_FRAME
}

/// From the samples alone.
fn by_samples<S: Store>(
    reader: &mut BlockReader<S>,
    block: BlockRef,
    reach: u64,
    from: u32,
    to: u32,
) -> Result<Summary, BlockFault>
    requires block { IsBlock block.id block.len }
    requires rising { from ≤ to }
    requires within { to ≤ block.len }
    requires few { to ≤ from + 512 }
    ensures { Sums block from to to reader.old reader.new result }
{
    if from == to {
        return Ok(NOTHING);
    }
    let mut buf = [0i16; BUFFER_LEN];
    let samples = &mut buf[..(to - from) as usize];
    read_samples(reader, block, reach, from, samples)?;
    Ok(of(samples))
}

/// From whole frames, from number `first` up to `end`: of long ones by their page, and of short ones as samples are read.
pub(crate) fn by_frames<S: Store>(
    reader: &mut BlockReader<S>,
    block: BlockRef,
    reach: u64,
    level: Level,
    first: u32,
    end: u32,
) -> Result<Summary, BlockFault>
    requires block { IsBlock block.id block.len }
    requires rising { first ≤ end }
    requires within { end ≤ frame_count (frame_len level) block.len }
    ensures { SumsFrames block level first end reader.old reader.new result }
{
    let once = level == Level::Short && reach >= u64::from(LONG_FRAME);
    reader.join_frames(block, level, first, end - first, once)
}

/// From whole short frames, from number `first` up to `end`, and the samples after them up to `to`.
fn short_then_samples<S: Store>(
    reader: &mut BlockReader<S>,
    block: BlockRef,
    reach: u64,
    first: u32,
    end: u32,
    to: u32,
) -> Result<Summary, BlockFault>
    requires block { IsBlock block.id block.len }
    requires rising { first < end }
    requires within { to ≤ block.len }
    requires frames { end ≤ frame_count 256 block.len }
    requires behind { 256 * end < to + 256 }
    requires rest { to < 256 * end + 256 }
    requires last { to < 256 * end → to ≡ block.len }
    ensures { Sums block (256 * first) to to reader.old reader.new result }
{
    let front = by_frames(reader, block, reach, Level::Short, first, end)?;
    let from = to.min(256 * end);
    let back = by_samples(reader, block, reach, from, to)?;
    Ok(join(front, back))
}

/// From whole short frames, and the samples at the edges.
pub(crate) fn by_short<S: Store>(
    reader: &mut BlockReader<S>,
    block: BlockRef,
    reach: u64,
    from: u32,
    to: u32,
) -> Result<Summary, BlockFault>
    requires block { IsBlock block.id block.len }
    requires rising { from ≤ to }
    requires within { to ≤ block.len }
    ensures { Sums block from to to reader.old reader.new result }
{
    let first = from.div_ceil(256);
    let end = short_end(block.len, to);
    if first >= end {
        return by_samples(reader, block, reach, from, to);
    }
    let front = by_samples(reader, block, reach, from, 256 * first)?;
    let back = short_then_samples(reader, block, reach, first, end, to)?;
    Ok(join(front, back))
}

/// From whole long frames, from number `first` up to `end`, and what is after them up to `to`.
fn long_then_short<S: Store>(
    reader: &mut BlockReader<S>,
    block: BlockRef,
    reach: u64,
    first: u32,
    end: u32,
    to: u32,
) -> Result<Summary, BlockFault>
    requires block { IsBlock block.id block.len }
    requires rising { first < end }
    requires within { to ≤ block.len }
    requires frames { end ≤ frame_count LONG_FRAME block.len }
    requires behind { LONG_FRAME * end < to + LONG_FRAME }
    requires rest { to < LONG_FRAME * end + LONG_FRAME }
    requires last { to < LONG_FRAME * end → to ≡ block.len }
    ensures { Sums block (LONG_FRAME * first) to to reader.old reader.new result }
{
    let front = by_frames(reader, block, reach, Level::Long, first, end)?;
    let from = to.min(LONG_FRAME * end);
    let back = by_short(reader, block, reach, from, to)?;
    Ok(join(front, back))
}

/// The summary of a part of a block: from whole long frames, whole short frames beside them, and the samples
/// at the edges.
pub(crate) fn summarize<S: Store>(
    reader: &mut BlockReader<S>,
    block: BlockRef,
    reach: u64,
    from: u32,
    to: u32,
) -> Result<Summary, BlockFault>
    requires block { IsBlock block.id block.len }
    requires rising { from ≤ to }
    requires within { to ≤ block.len }
    ensures { Sums block from to to reader.old reader.new result }
{
    let first = from.div_ceil(LONG_FRAME);
    let end = long_end(block.len, to);
    if first >= end {
        return by_short(reader, block, reach, from, to);
    }
    let front = by_short(reader, block, reach, from, LONG_FRAME * first)?;
    let back = long_then_short(reader, block, reach, first, end, to)?;
    Ok(join(front, back))
}
