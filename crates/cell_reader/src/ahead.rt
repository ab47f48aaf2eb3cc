// Cells of a track, by what is left of it.
ghost use Rattle.std.specs.Prelude.{◌≡◌, ◌≤◌, ◌<◌, ◌+◌, ◌^◌, length, map, IsTrue, IsOkUnless, OnOk};
ghost use Rattle.block_store.specs.declared.fault.BlockFault.TheVariants as fault;
ghost use Rattle.block_cache.specs.Readers.{Hits, Reads};
ghost use Rattle.cell_reader.specs.Kept.{HasBlocks, HasRest, HasSeen, left_blocks};
ghost use Rattle.pcm_base.specs.Blocks.{block_samples};
ghost use Rattle.pcm_base.specs.declared.sound.Cell.TheVariants.{Sample};
ghost use Rattle.clip_track.specs.Clips.{layout_blocks};
ghost use Rattle.sample_block.specs.Sources.{sources_of, AllWhole};
ghost use Rattle.cell_reader.specs.Seen.{Puts};
ghost use Rattle.cell_reader.specs.Rests.{rest_cells, rest_blocks, IsRest, IsRestOf, AreSeen};
ghost use Rattle.cell_reader.specs.Stored.{stored_of};

use super::blocks::{put_blocks, put_rows};
use super::clips::put_clips;
use super::forms::FromCell;
use super::places::{View, fill_gaps, place_in, put_gap};
use super::rest::TrackRest;
use block_cache::BlockReader;
use block_store::BlockFault;
use clip_track::Layout;
use disk_model::Store;

/// Puts the blocks that are left of a clip where the view has them.
fn put_sound<S: Store, T: FromCell>(
    reader: &mut BlockReader<S>,
    rest: &TrackRest,
    view: View,
    out: &mut [T],
) -> Result<(), BlockFault>
    requires rest { IsRest rest.now }
    requires size { view.from + length out.old ≡ view.to }
    ensures reads { Reads (left_blocks rest.now) reader.old reader.new result }
    ensures hit { Hits (HasBlocks reader.old.cache view rest.now.start (left_blocks rest.now)) reader.old reader.new result }
    ensures stored { IsTrue (S.tells reader.old.store) → OnOk result (Puts T.made view rest.now.start
        (map Sample (block_samples (stored_of (S.reads reader.old.store)) (left_blocks rest.now))) out.old out.new) }
{
    put_blocks(reader, rest.blocks, view, rest.start, out)?;
    put_rows(reader, rest.rows, view, rest.row_end, out)
}

/// Puts a rest where the view has it.
fn put_rest<S: Store, T: FromCell>(
    reader: &mut BlockReader<S>,
    rest: &TrackRest,
    view: View,
    out: &mut [T],
) -> Result<(), BlockFault>
    requires rest { IsRest rest.now }
    requires size { view.from + length out.old ≡ view.to }
    ensures reads { Reads (rest_blocks rest.now) reader.old reader.new result }
    ensures hit { Hits (HasRest reader.old.cache view rest.now) reader.old reader.new result }
    ensures stored { IsTrue (S.tells reader.old.store) → OnOk result
        (Puts T.made view rest.now.at (rest_cells (stored_of (S.reads reader.old.store)) rest.now) out.old out.new) }
{
    put_gap(view, rest.at, rest.start - rest.at, out);
    put_sound(reader, rest, view, out)?;
    put_clips(reader, rest.clips, view, rest.end, out)
}

/// Reads the cells of a track from a place on, and gaps past its end, or what is heard of them, until `out` is full.
/// What is left of the track is handed in, so that what was passed is not looked at again. It looks at no block after
/// those that are seen. After an error `out` may have been written in part.
pub fn read_ahead<S: Store, T: FromCell>(
    reader: &mut BlockReader<S>,
    layout: &Layout,
    rest: &TrackRest,
    from: u64,
    out: &mut [T],
) -> Result<(), BlockFault>
    requires rest { IsRestOf from layout.now rest.now }
    requires few { from + length out.old < 2 ^ 64 }
    ensures reads { Reads (layout_blocks layout.now) reader.old reader.new result }
    // Where the cache has all pages that are seen it is Ok, whatever the store would answer, and asks it nothing.
    ensures hit { Hits (HasSeen reader.old.cache from (from + length out.old) layout.now) reader.old reader.new result }
    // They are what stands in the files of the blocks, and where the disk has all blocks their samples.
    ensures stored { IsTrue (S.tells reader.old.store)
        → OnOk result (AreSeen T.made (stored_of (S.reads reader.old.store)) from layout.now out.new) }
    ensures read { IsTrue (S.tells reader.old.store) → AllWhole (S.reads reader.old.store) (layout_blocks layout.now)
        → OnOk result (AreSeen T.made (sources_of (S.reads reader.old.store)) from layout.now out.new) }
    // Where the disk has all blocks nothing but the disk refuses.
    ensures valid { IsTrue (S.tells reader.old.store) → AllWhole (S.reads reader.old.store) (layout_blocks layout.now)
        → IsOkUnless result fault.DiskFault }
{
    let view = View {
        from,
        to: from + out.len() as u64,
    };
    let count = place_in(view, layout.len());
    put_rest(reader, rest, view, out)?;
    fill_gaps(&mut out[count..]);
    Ok(())
}
