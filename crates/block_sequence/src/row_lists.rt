// Lists of references in rows, and rows of lists.
ghost use Rattle.std.specs.Prelude.{◌≡◌, ◌≤◌, ◌<◌, ◌++◌, length, OnOk, IfOk};
ghost use Rattle.pcm_base.specs.declared.limits.TheConstants.{MAX_CELLS};
ghost use Rattle.pcm_base.specs.Blocks.{blocks_len};
ghost use Rattle.block_sequence.specs.Rows.{flat, from_to};

use super::rows::{ROW_MOST, Row};
use pcm_base::{BlockRef, NoMemory};
use std::alloc::{AllocError, Global};

#[tactic(auto, using(crate::proofs::FlatRows::flat_count))]
/// How many references the rows have.
pub fn count_blocks(rows: &[Row]) -> usize
    requires { length (flat rows.now) ≤ MAX_CELLS }
    ensures { result ≡ length (flat rows.now) }
{
    let mut count = 0;
    for row in rows {
        count += row.as_slice().len();
    }
    count
}

#[tactic(auto, using(crate::proofs::FlatRows::flat_len))]
/// How many samples the blocks of the rows hold.
pub fn count_samples(rows: &[Row]) -> u64
    requires { blocks_len (flat rows.now) ≤ MAX_CELLS }
    ensures { result ≡ blocks_len (flat rows.now) }
{
    let mut len = 0;
    for row in rows {
        len += row.len();
    }
    len
}

// The references of one row.
fn append_row(
    out: &mut Vec<BlockRef>,
    row: &[BlockRef],
    from: usize,
    to: usize,
) -> Result<(), AllocError>
    ensures { OnOk result (out.new.items ≡ out.old.items ++ from_to from to row.now) }
{
    if row.len() <= from || to <= from {
        return Ok(());
    }
    out.extend_from_slice(&row[from..to.min(row.len())])
}

/// The references from one place up to another come after those of `out`.
pub fn append_blocks(
    out: &mut Vec<BlockRef>,
    rows: &[Row],
    from: usize,
    to: usize,
) -> Result<(), AllocError>
    ensures { OnOk result (out.new.items ≡ out.old.items ++ from_to from to (flat rows.now)) }
{
    let mut skip = from;
    let mut end = to;
    for row in rows {
        let blocks = row.as_slice();
        append_row(out, blocks, skip, end)?;
        let size = blocks.len();
        skip = skip.saturating_sub(size);
        end = end.saturating_sub(size);
    }
    Ok(())
}

/// The rows, shared, come after those of `out`.
pub fn share_rows(out: &mut Vec<Row>, rows: &[Row]) -> Result<(), NoMemory>
    ensures { OnOk result (out.new.items ≡ out.old.items ++ rows.now) }
{
    for row in rows {
        let row = row.copy()?;
        out.push(row)?;
    }
    Ok(())
}

/// How long the rows of `count` references are: all of one size, but for the last.
pub fn row_size(count: usize) -> usize
    requires { 0 < count }
    ensures some { 0 < result }
    ensures short { result ≤ 1024 }
{
    let rows = count.div_ceil(ROW_MOST);
    count.div_ceil(rows)
}

// New rows of equal sizes come after those of `out`.
fn lay_equal(alloc: Global, out: &mut Vec<Row>, blocks: &[BlockRef]) -> Result<(), NoMemory>
    requires some { 0 < length blocks.now }
    requires few { blocks_len blocks.now ≤ MAX_CELLS }
    ensures { OnOk result (flat out.new.items ≡ flat out.old.items ++ blocks.now) }
{
    let size = row_size(blocks.len());
    let mut rest = blocks;
    while !rest.is_empty() {
        let (row, more) = rest.split_at(size.min(rest.len()));
        let row = Vec::from_slice(alloc, row)?;
        let row = Row::new(row)?;
        out.push(row)?;
        rest = more;
    }
    Ok(())
}

/// New rows of these references come after those of `out`. One row takes the list over.
pub fn lay_rows(alloc: Global, out: &mut Vec<Row>, blocks: Vec<BlockRef>) -> Result<(), NoMemory>
    requires { blocks_len blocks.items ≤ MAX_CELLS }
    ensures { OnOk result (flat out.new.items ≡ flat out.old.items ++ blocks.items) }
{
    let count = blocks.len();
    if count == 0 {
        return Ok(());
    }
    if count > ROW_MOST {
        return lay_equal(alloc, out, blocks.as_slice());
    }
    let row = Row::new(blocks)?;
    out.push(row)?;
    Ok(())
}
