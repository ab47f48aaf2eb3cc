// The cells of a layout.
ghost use Rattle.std.specs.Prelude.{◌≡◌, ◌<◌, ◌+◌, ◌-◌, ◌^◌, length, take, drop, min, IsTrue, IsOkUnless, IfOk};
ghost use Rattle.sample_block.specs.Sources.{sources_of, AllNamed, AllWhole};
ghost use Rattle.block_store.specs.declared.fault.BlockFault.TheVariants as fault;
ghost use Rattle.block_cache.specs.Readers.{Hits, Reads};
ghost use Rattle.cell_reader.specs.Kept.{HasSeen};
ghost use Rattle.clip_track.specs.Clips.{end_of, layout_blocks, layout_cells};
ghost use Rattle.cell_reader.specs.Stored.{stored_of};

use super::ahead::read_ahead;
use super::places::{View, place_in};
use super::rest::rest_at;
use block_cache::BlockReader;
use block_store::BlockFault;
use clip_track::Layout;
use disk_model::Store;
use pcm_base::Cell;

/// Reads the cells of a layout from a place on, gaps included, as many as `out` has room for and the layout has, and
/// answers how many. The clip of the place is found by halves. Blocks that end by the place are passed without a call
/// of the store, and none after the cells seen is looked at. Pages that the cache has are not read again. After an
/// error `out` may have been written in part.
pub fn read_cells<S: Store>(
    reader: &mut BlockReader<S>,
    layout: &Layout,
    from: u64,
    out: &mut [Cell],
) -> Result<usize, BlockFault>
    requires named { AllNamed (layout_blocks layout.now) }
    requires few { from + length out.old < 2 ^ 64 }
    ensures reads { Reads (layout_blocks layout.now) reader.old reader.new result }
    // Where the cache has all pages that are seen it is Ok, whatever the store would answer, and asks it nothing.
    ensures hit { Hits (HasSeen reader.old.cache from (from + length out.old) layout.now) reader.old reader.new result }
    ensures count { IfOk result (λ n. n ≡ min (length out.old) (end_of 0 layout.now - from)) }
    // They are what stands in the files of the blocks, and where the disk has all blocks their samples.
    ensures stored { IsTrue (S.tells reader.old.store) → IfOk result (λ n. take n out.new
        ≡ take (length out.old) (drop from (layout_cells (stored_of (S.reads reader.old.store)) layout.now))) }
    ensures read { IsTrue (S.tells reader.old.store) → AllWhole (S.reads reader.old.store) (layout_blocks layout.now)
        → IfOk result (λ n. take n out.new
        ≡ take (length out.old) (drop from (layout_cells (sources_of (S.reads reader.old.store)) layout.now))) }
    ensures rest { IfOk result (λ n. drop n out.new ≡ drop n out.old) }
    // Where the disk has all blocks nothing but the disk refuses.
    ensures valid { IsTrue (S.tells reader.old.store) → AllWhole (S.reads reader.old.store) (layout_blocks layout.now)
        → IsOkUnless result fault.DiskFault }
{
    let view = View {
        from,
        to: from + out.len() as u64,
    };
    let count = place_in(view, layout.len());
    let rest = rest_at(layout, from);
    read_ahead(reader, layout, &rest, from, &mut out[..count])?;
    Ok(count)
}
