// Rows with other blocks in place of some.
ghost use Rattle.std.specs.Prelude.{◌≡◌, ◌≤◌, ◌++◌, length, take, IfOk};
ghost use Rattle.pcm_base.specs.declared.limits.TheConstants.{MAX_CELLS};
ghost use Rattle.pcm_base.specs.Blocks.{blocks_len};
ghost use Rattle.block_sequence.specs.Rows.{flat, from_to, spliced};

use super::row_edges::{Span, span_of};
use super::row_lists::{append_blocks, count_blocks, lay_rows, share_rows};
use super::rows::Row;
use pcm_base::{BlockRef, NoMemory};
use std::alloc::{AllocError, Global};

// The references of the rows that become new.
fn new_blocks(
    alloc: Global,
    rows: &[Row],
    span: Span,
    from: usize,
    to: usize,
    middle: &[BlockRef],
) -> Result<Vec<BlockRef>, AllocError>
    ensures { IfOk result (λ v. v.items ≡ from_to span.start.at from (flat rows.now)
        ++ (middle.now ++ from_to to span.end.at (flat rows.now))) }
{
    let mut out = Vec::new(alloc);
    append_blocks(&mut out, rows, span.start.at, from)?;
    out.extend_from_slice(middle)?;
    append_blocks(&mut out, rows, to, span.end.at)?;
    Ok(out)
}

/// The rows with other blocks in place of those from one place up to another: those outside are shared.
pub fn spliced_rows(
    alloc: Global,
    rows: &[Row],
    from: usize,
    to: usize,
    middle: &[BlockRef],
) -> Result<Vec<Row>, NoMemory>
    requires all { length (flat rows.now) ≤ MAX_CELLS }
    requires middle { length middle.now ≤ MAX_CELLS }
    requires rising { from ≤ to }
    requires within { to ≤ length (flat rows.now) }
    requires few { blocks_len (spliced from to middle.now (flat rows.now)) ≤ MAX_CELLS }
    ensures { IfOk result (λ v. flat v.items ≡ spliced from to middle.now (flat rows.now)) }
{
    let span = span_of(rows, from, to, middle.len());
    let blocks = new_blocks(alloc, rows, span, from, to, middle)?;
    let mut out = Vec::new(alloc);
    share_rows(&mut out, &rows[..span.start.row])?;
    lay_rows(alloc, &mut out, blocks)?;
    share_rows(&mut out, &rows[span.end.row..])?;
    Ok(out)
}

/// The first rows up to a place, and after them others. Those before the place are shared, and those others but the
/// first.
pub fn ended_rows(
    alloc: Global,
    rows: &[Row],
    kept: usize,
    others: &[Row],
) -> Result<Vec<Row>, NoMemory>
    requires all { length (flat rows.now) ≤ MAX_CELLS }
    requires within { kept ≤ length (flat rows.now) }
    requires few { blocks_len (take kept (flat rows.now) ++ flat others.now) ≤ MAX_CELLS }
    ensures { IfOk result (λ v. flat v.items ≡ take kept (flat rows.now) ++ flat others.now) }
{
    let count = count_blocks(rows);
    if others.is_empty() {
        return spliced_rows(alloc, rows, kept, count, &[]);
    }
    let mut out = spliced_rows(alloc, rows, kept, count, others[0].as_slice())?;
    share_rows(&mut out, &others[1..])?;
    Ok(out)
}
