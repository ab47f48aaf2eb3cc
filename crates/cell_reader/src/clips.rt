// The cells of clips, one after another.
ghost use Rattle.std.specs.Prelude.{◌≡◌, ◌≤◌, ◌+◌, ◌-◌, ◌++◌, length, map, replicate, IsTrue, OnOk};
ghost use Rattle.pcm_base.specs.declared.limits.TheConstants.{MAX_CELLS};
ghost use Rattle.block_cache.specs.Readers.{Hits, Reads};
ghost use Rattle.cell_reader.specs.Kept.{HasBlocks, HasClips};
ghost use Rattle.pcm_base.specs.declared.sound.Cell.TheVariants as cell;
ghost use Rattle.pcm_base.specs.Blocks.{block_samples};
ghost use Rattle.clip_track.specs.Clips.{clip_end, end_of, cells_from, layout_blocks, AreClips};
ghost use Rattle.sample_block.specs.Sources.{AllNamed};
ghost use Rattle.cell_reader.specs.Seen.{Puts};
ghost use Rattle.cell_reader.specs.Stored.{stored_of};

use super::blocks::put_rows;
use super::forms::FromCell;
use super::places::{View, put_gap};
use block_cache::BlockReader;
use block_store::BlockFault;
use clip_track::Clip;
use disk_model::Store;

/// Puts a clip, and the gap before it, where the view has them.
fn put_clip<S: Store, T: FromCell>(
    reader: &mut BlockReader<S>,
    clip: &Clip,
    view: View,
    at: u64,
    out: &mut [T],
) -> Result<(), BlockFault>
    requires named { AllNamed clip.now.blocks }
    requires size { view.from + length out.old ≡ view.to }
    requires later { at ≤ clip.now.start }
    requires few { clip_end clip.now ≤ MAX_CELLS }
    ensures reads { Reads clip.now.blocks reader.old reader.new result }
    ensures hit { Hits (HasBlocks reader.old.cache view clip.now.start clip.now.blocks) reader.old reader.new result }
    ensures stored { IsTrue (S.tells reader.old.store)
        → OnOk result (Puts T.made view at (replicate (clip.now.start - at) cell.Gap
        ++ map cell.Sample (block_samples (stored_of (S.reads reader.old.store)) clip.now.blocks)) out.old out.new) }
{
    put_gap(view, at, clip.start - at, out);
    put_rows(reader, clip.blocks.rows(), view, clip.start, out)
}

/// Puts clips, and the gaps before them from a place on, where the view has them. None after the view is looked at.
pub(crate) fn put_clips<S: Store, T: FromCell>(
    reader: &mut BlockReader<S>,
    clips: &[Clip],
    view: View,
    start: u64,
    out: &mut [T],
) -> Result<(), BlockFault>
    requires apart { AreClips start clips.now }
    requires few { end_of start clips.now ≤ MAX_CELLS }
    requires named { AllNamed (layout_blocks clips.now) }
    requires size { view.from + length out.old ≡ view.to }
    ensures reads { Reads (layout_blocks clips.now) reader.old reader.new result }
    ensures hit { Hits (HasClips reader.old.cache view clips.now) reader.old reader.new result }
    ensures stored { IsTrue (S.tells reader.old.store) → OnOk result
        (Puts T.made view start (cells_from (stored_of (S.reads reader.old.store)) start clips.now) out.old out.new) }
{
    let mut at = start;
    'rows: for clip in clips {
        if at >= view.to {
            return Ok(());
        }
        if let Err(fault) = put_clip(reader, clip, view, at, out) {
            return Err(fault);
        }
        at = clip.start + clip.blocks.len();
    }
    Ok(())
}
