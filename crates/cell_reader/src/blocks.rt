// Blocks of a track, put where a view has them.
ghost use Rattle.std.specs.Prelude.{◌≡◌, ◌<◌, ◌+◌, ◌^◌, [], ◌∷◌, length, map, IsTrue, OnOk};
ghost use Rattle.block_cache.specs.Readers.{Hits, Reads};
ghost use Rattle.block_sequence.specs.Rows.{flat};
ghost use Rattle.pcm_base.specs.declared.sound.Cell.TheVariants.{Sample};
ghost use Rattle.pcm_base.specs.Pieces.{stretch};
ghost use Rattle.pcm_base.specs.Blocks.{block_samples, blocks_len};
ghost use Rattle.sample_block.specs.Sources.{IsNamed, AllNamed};
ghost use Rattle.cell_reader.specs.Kept.{HasBlock, HasBlocks};
ghost use Rattle.cell_reader.specs.Seen.{Puts};
ghost use Rattle.cell_reader.specs.Stored.{stored_on, stored_of};

use super::forms::FromCell;
use super::places::{View, place_in};
use block_cache::BlockReader;
use block_sequence::Row;
use block_store::BlockFault;
use disk_model::Store;
use pcm_base::BlockRef;

/// Puts the samples of a block, which stands at a place, where the view has them. A block that is not seen is not read.
pub(crate) fn put_block<S: Store, T: FromCell>(
    reader: &mut BlockReader<S>,
    block: BlockRef,
    view: View,
    at: u64,
    out: &mut [T],
) -> Result<(), BlockFault>
    requires block { IsNamed block }
    requires size { view.from + length out.old ≡ view.to }
    requires few { at + block.len < 2 ^ 64 }
    ensures reads { Reads (block ∷ []) reader.old reader.new result }
    ensures hit { Hits (HasBlock reader.old.cache view at block) reader.old reader.new result }
    ensures stored { IsTrue (S.tells reader.old.store) → OnOk result (Puts T.made view at
        (map Sample (stretch (stored_on (S.reads reader.old.store) block.id) 0 block.len)) out.old out.new) }
{
    let start = place_in(view, at);
    let end = place_in(view, at + block.len as u64);
    if start == end {
        return Ok(());
    }
    let skip = view.from.saturating_sub(at) as u32;
    T::read(reader, block, skip, &mut out[start..end])
}

/// The same of blocks one after another, and none after the view is looked at.
pub(crate) fn put_blocks<S: Store, T: FromCell>(
    reader: &mut BlockReader<S>,
    blocks: &[BlockRef],
    view: View,
    at: u64,
    out: &mut [T],
) -> Result<(), BlockFault>
    requires named { AllNamed blocks.now }
    requires size { view.from + length out.old ≡ view.to }
    requires few { at + blocks_len blocks.now < 2 ^ 64 }
    ensures reads { Reads blocks.now reader.old reader.new result }
    ensures hit { Hits (HasBlocks reader.old.cache view at blocks.now) reader.old reader.new result }
    ensures stored { IsTrue (S.tells reader.old.store) → OnOk result
        (Puts T.made view at (map Sample (block_samples (stored_of (S.reads reader.old.store)) blocks.now)) out.old out.new) }
{
    let mut place = at;
    'rows: for block in blocks {
        if place >= view.to {
            return Ok(());
        }
        if let Err(fault) = put_block(reader, *block, view, place, out) {
            return Err(fault);
        }
        place += block.len as u64;
    }
    Ok(())
}

/// The same of rows one after another.
pub(crate) fn put_rows<S: Store, T: FromCell>(
    reader: &mut BlockReader<S>,
    rows: &[Row],
    view: View,
    at: u64,
    out: &mut [T],
) -> Result<(), BlockFault>
    requires named { AllNamed (flat rows.now) }
    requires size { view.from + length out.old ≡ view.to }
    requires few { at + blocks_len (flat rows.now) < 2 ^ 64 }
    ensures reads { Reads (flat rows.now) reader.old reader.new result }
    ensures hit { Hits (HasBlocks reader.old.cache view at (flat rows.now)) reader.old reader.new result }
    ensures stored { IsTrue (S.tells reader.old.store) → OnOk result (Puts T.made view at
        (map Sample (block_samples (stored_of (S.reads reader.old.store)) (flat rows.now))) out.old out.new) }
{
    let mut place = at;
    'rows: for row in rows {
        if place >= view.to {
            return Ok(());
        }
        let blocks = row.as_slice();
        if let Err(fault) = put_blocks(reader, blocks, view, place, out) {
            return Err(fault);
        }
        place += row.len();
    }
    Ok(())
}
