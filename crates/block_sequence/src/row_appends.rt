// Rows, and after them some blocks of other rows.
ghost use Rattle.std.specs.Prelude.{◌≡◌, ◌≤◌, ◌++◌, length, IfOk};
ghost use Rattle.pcm_base.specs.declared.limits.TheConstants.{MAX_CELLS};
ghost use Rattle.pcm_base.specs.Blocks.{blocks_len};
ghost use Rattle.block_sequence.specs.Rows.{flat, from_to};

use super::row_edges::{ROW_LEAST, edge_after, edge_before};
use super::row_lists::{append_blocks, count_blocks, lay_rows, share_rows};
use super::row_splices::spliced_rows;
use super::rows::Row;
use pcm_base::NoMemory;
use std::alloc::Global;

// The rows, and copies of the references from one place of others up to another.
fn with_copied(
    alloc: Global,
    rows: &[Row],
    others: &[Row],
    from: usize,
    to: usize,
) -> Result<Vec<Row>, NoMemory>
    requires all { length (flat rows.now) ≤ MAX_CELLS }
    requires others { length (flat others.now) ≤ MAX_CELLS }
    requires few { blocks_len (flat rows.now ++ from_to from to (flat others.now)) ≤ MAX_CELLS }
    ensures { IfOk result (λ v. flat v.items ≡ flat rows.now ++ from_to from to (flat others.now)) }
{
    let mut blocks = Vec::new(alloc);
    append_blocks(&mut blocks, others, from, to)?;
    let end = count_blocks(rows);
    spliced_rows(alloc, rows, end, end, blocks.as_slice())
}

/// The rows, and after them the references from one place of others up to another. Whole rows of the others are
/// shared, unless few references come.
pub fn appended_rows(
    alloc: Global,
    rows: &[Row],
    others: &[Row],
    from: usize,
    to: usize,
) -> Result<Vec<Row>, NoMemory>
    requires all { length (flat rows.now) ≤ MAX_CELLS }
    requires others { length (flat others.now) ≤ MAX_CELLS }
    requires rising { from ≤ to }
    requires within { to ≤ length (flat others.now) }
    requires few { blocks_len (flat rows.now ++ from_to from to (flat others.now)) ≤ MAX_CELLS }
    ensures { IfOk result (λ v. flat v.items ≡ flat rows.now ++ from_to from to (flat others.now)) }
{
    let start = edge_after(others, from);
    let end = edge_before(others, to);
    if to - from < ROW_LEAST || end.row <= start.row {
        return with_copied(alloc, rows, others, from, to);
    }
    let mut out = with_copied(alloc, rows, others, from, start.at)?;
    share_rows(&mut out, &others[start.row..end.row])?;
    let mut rest = Vec::new(alloc);
    append_blocks(&mut rest, others, end.at, to)?;
    lay_rows(alloc, &mut out, rest)?;
    Ok(out)
}
