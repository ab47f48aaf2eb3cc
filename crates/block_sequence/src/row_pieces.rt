// Samples of rows, as pieces of their blocks.
ghost use Rattle.std.specs.Prelude.{◌≡◌, ◌++◌, OnOk};
ghost use Rattle.pcm_base.specs.Pieces.{Sources, all_samples, stretch, AllValid};
ghost use Rattle.pcm_base.specs.Blocks.{block_samples};
ghost use Rattle.block_sequence.specs.Rows.{flat, from_to};

use super::parts::part_of;
use super::rows::Row;
use pcm_base::{BlockRef, Piece};
use std::alloc::AllocError;

// The samples of one block from one place up to another come after those of `out`.
fn append_piece(out: &mut Vec<Piece>, block: BlockRef, from: u64, to: u64) -> Result<(), AllocError>
    requires valid { AllValid out.old.items }
    ensures valid { OnOk result (AllValid out.new.items) }
    ensures samples { OnOk result ((src : Sources) → all_samples src out.new.items
        ≡ all_samples src out.old.items ++ from_to from to (stretch (src.block block.id) 0 block.len)) }
{
    let len = block.len as u64;
    if len <= from || to <= from {
        return Ok(());
    }
    let whole = Piece::Old {
        block,
        from: 0,
        to: block.len,
    };
    out.push(part_of(whole, from, to.min(len) - from))?;
    Ok(())
}

// The samples of one row. Its blocks are looked at only if some of them are wanted.
fn append_row(out: &mut Vec<Piece>, row: &Row, from: u64, to: u64) -> Result<(), AllocError>
    requires valid { AllValid out.old.items }
    ensures valid { OnOk result (AllValid out.new.items) }
    ensures samples { OnOk result ((src : Sources) → all_samples src out.new.items
        ≡ all_samples src out.old.items ++ from_to from to (block_samples src row.now)) }
{
    if row.len() <= from || to <= from {
        return Ok(());
    }
    let mut skip = from;
    let mut end = to;
    for block in row.as_slice() {
        append_piece(out, *block, skip, end)?;
        let size = block.len as u64;
        skip = skip.saturating_sub(size);
        end = end.saturating_sub(size);
    }
    Ok(())
}

/// The samples of some rows from one place up to another come after those of `out`.
pub fn append_pieces(
    out: &mut Vec<Piece>,
    rows: &[Row],
    from: u64,
    to: u64,
) -> Result<(), AllocError>
    requires valid { AllValid out.old.items }
    ensures valid { OnOk result (AllValid out.new.items) }
    ensures samples { OnOk result ((src : Sources) → all_samples src out.new.items
        ≡ all_samples src out.old.items ++ from_to from to (block_samples src (flat rows.now))) }
{
    let mut skip = from;
    let mut end = to;
    for row in rows {
        append_row(out, row, skip, end)?;
        let size = row.len();
        skip = skip.saturating_sub(size);
        end = end.saturating_sub(size);
    }
    Ok(())
}
