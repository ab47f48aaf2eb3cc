// The clips of a track out of their bytes.
ghost use Rattle.std.specs.Prelude.{◌≡◌, ◌+◌, ◌-◌, ◌*◌, ◌≤◌, ◌<◌, length, IsTrue};
ghost use Rattle.pcm_base.specs.declared.limits.TheConstants.{FIRST_BLOCK, MAX_CELLS};
ghost use Rattle.record_body.specs.Places as there;
ghost use Rattle.record_body.specs.FirstFault as test;
ghost use Rattle.record_body.specs.FirstFault.{Tells, Finds};

use super::bounds::{least, most, place};
use super::limits::{BadBody, Limits};
use super::writing::clip_len;
use block_sequence::{RowList, Sequence, row_size};
use clip_track::{Clip, Layout};
use pcm_base::{BlockRef, FIRST_BLOCK, MAX_CELLS};
use project_journal::{Damaged, first_failure, u32_at, u64_at};
use std::alloc::Global;

/// How many samples a block has at least, of a clip that may have several.
fn least_block(limits: Limits, several: bool) -> u32
    ensures { result ≡ test.least_len limits.block_size several }
{
    if several {
        limits.block_size.div_ceil(2)
    } else {
        0
    }
}

/// Whether a block is in its bounds, of which the least length is given; this many cells come before it. Nearly all
/// blocks are, and then no list of tests is made.
fn is_in_bounds(limits: Limits, least_len: u32, before: u64, id: u64, len: u32) -> bool
    ensures given { IsTrue result → (FIRST_BLOCK ≤ id) × (id < limits.next_block) }
    ensures long { IsTrue result → (1 ≤ len) × (least_len ≤ len) × (len ≤ limits.block_size) }
    ensures near { IsTrue result → len ≤ MAX_CELLS - before }
{
    id >= FIRST_BLOCK
        && id < limits.next_block
        && len >= 1
        && len >= least_len
        && len <= limits.block_size
        && len as u64 <= MAX_CELLS.saturating_sub(before)
}

/// The block at a place; this many cells come before it.
fn read_block(
    bytes: &[u8],
    at: usize,
    limits: Limits,
    several: bool,
    before: u64,
) -> Result<BlockRef, Damaged>
    requires within { at + 12 ≤ length bytes.now }
    ensures { Tells (test.block_tests limits several before at bytes.now)
        (λ b. b ≡ there.block_at at bytes.now) result }
{
    let id = u64_at(bytes, at);
    let len = u32_at(bytes, at + 8);
    let least_len = least_block(limits, several);
    if is_in_bounds(limits, least_len, before, id, len) {
        return Ok(BlockRef { id, len });
    }
    let id_place = place(limits.base, at);
    let len_place = place(limits.base, at + 8);
    first_failure(&[
        least(id_place, FIRST_BLOCK, id),
        most(id_place, limits.next_block.saturating_sub(1), id),
        most(len_place, MAX_CELLS.saturating_sub(before), len as u64),
        least(len_place, 1, len as u64),
        most(len_place, limits.block_size as u64, len as u64),
        least(len_place, least_len as u64, len as u64),
    ])?;
    Ok(BlockRef { id, len })
}

/// Blocks in a row: the place of the first, and how many they are.
#[derive(Clone, Copy)]
pub(crate) struct Row {
    pub(crate) at: usize,
    pub(crate) count: u32,
}

/// The blocks of a row, of a clip that may have several. The first begins at the cell `start`.
fn read_blocks(
    alloc: Global,
    bytes: &[u8],
    row: Row,
    limits: Limits,
    several: bool,
    start: u64,
) -> Result<Vec<BlockRef>, BadBody>
    requires within { row.at + 12 * row.count ≤ length bytes.now }
    requires near { start ≤ MAX_CELLS }
    ensures { Finds (test.blocks_tests limits several row.count start row.at bytes.now)
        (λ v. v.items ≡ there.blocks_at row.count row.at bytes.now) result }
{
    let mut blocks = Vec::with_capacity(alloc, row.count as usize)?;
    let mut before = start;
    for i in 0..row.count {
        let block = read_block(bytes, row.at + 12 * i as usize, limits, several, before)?;
        before += block.len as u64;
        blocks.push_reserved(block);
    }
    Ok(blocks)
}

/// The same blocks, in rows of a sequence. So no list of all of them is made.
pub(crate) fn read_rows(
    alloc: Global,
    bytes: &[u8],
    row: Row,
    limits: Limits,
    several: bool,
    start: u64,
) -> Result<RowList, BadBody>
    requires within { row.at + 12 * row.count ≤ length bytes.now }
    requires near { start ≤ MAX_CELLS }
    ensures { Finds (test.blocks_tests limits several row.count start row.at bytes.now)
        (λ l. l ≡ there.blocks_at row.count row.at bytes.now) result }
{
    let mut rows = RowList::new(alloc);
    let mut at = row.at;
    let mut left = row.count;
    while left > 0 {
        let count = row_size(left as usize).min(left as usize) as u32;
        let before = start + rows.len();
        let blocks = read_blocks(alloc, bytes, Row { at, count }, limits, several, before)?;
        rows.push(blocks)?;
        at += 12 * count as usize;
        left -= count;
    }
    Ok(rows)
}

/// The clip at a place, which may begin at a cell or later.
fn read_clip(
    alloc: Global,
    bytes: &[u8],
    at: usize,
    limits: Limits,
    from: u64,
) -> Result<Clip, BadBody>
    requires within { at + there.clip_size at bytes.now ≤ length bytes.now }
    ensures { Finds (test.clip_tests limits from at bytes.now) (λ c. c ≡ there.clip_at at bytes.now) result }
{
    let start = u64_at(bytes, at);
    let count = u32_at(bytes, at + 8);
    let start_place = place(limits.base, at);
    first_failure(&[
        least(start_place, from, start),
        most(start_place, MAX_CELLS, start),
        least(place(limits.base, at + 8), 1, count as u64),
    ])?;
    let row = Row { at: at + 12, count };
    let rows = read_rows(alloc, bytes, row, limits, count > 1, start)?;
    let blocks = Sequence::of_rows(rows);
    Ok(Clip { start, blocks })
}

/// This many clips from a place on.
pub(crate) fn read_clips(
    alloc: Global,
    bytes: &[u8],
    at: usize,
    count: u32,
    limits: Limits,
) -> Result<Layout, BadBody>
    requires within { at + there.clips_size count at bytes.now ≤ length bytes.now }
    ensures { Finds (test.clips_tests limits count 0 at bytes.now) (λ l. l ≡ there.clips_at count at bytes.now) result }
{
    let mut clips = Vec::with_capacity(alloc, count as usize)?;
    let mut next = at;
    let mut from = 0;
    for _ in 0..count {
        let clip = read_clip(alloc, bytes, next, limits, from)?;
        next += clip_len(&clip);
        from = clip.start + clip.blocks.len() + 1;
        clips.push(clip)?;
    }
    Ok(Layout::from_clips(clips)?)
}
