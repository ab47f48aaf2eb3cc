// A strip is laid out clip by clip.
ghost use Rattle.std.specs.Prelude.{◌≡◌, ℕ, List, ◌+◌, ◌-◌, ◌≤◌, ◌<◌, ◌^◌, ◌++◌, ◌*◌, [], map, replicate, IfOk, OnOk};
ghost use Rattle.pcm_base.specs.declared.limits.TheConstants.{MAX_CELLS};
ghost use Rattle.pcm_base.specs.declared.sound.Cell.TheVariants as cell;
ghost use Rattle.pcm_base.specs.Pieces.{Sources, total, all_samples, AllValid, AllFit};
ghost use Rattle.pcm_base.specs.Cells.{trimmed};
ghost use Rattle.clip_track.specs.Items.{ItemsFit, AreItems, strip_len, strip_cells};
ghost use Rattle.block_sequence.specs.Fuse.{rough, AllShort};
ghost use Rattle.block_sequence.specs.Room.{clip_room};
ghost use Rattle.clip_track.specs.Room.{room_from};
ghost use Rattle.clip_track.specs.Rough.{rough_from, ItemsShort};
ghost use Rattle.pcm_base.specs.declared.block.BlockRef.{BlockRef};
ghost use Rattle.block_sequence.specs.Origins.{AllFrom};
ghost use Rattle.edit_ops.specs.Strips.{ItemsFrom};
ghost use Rattle.edit_ops.specs.LaidClips as clips;

use super::planner::Planner;
use super::types::LaidClip;
use block_sequence::{fuse, piece_len};
use clip_track::Item;
use pcm_base::{NoMemory, Piece};
use std::alloc::AllocError;

/// Lays out a clip of some pieces, if there are any.
fn close(
    planner: Planner,
    out: &mut Vec<LaidClip>,
    held: &[Piece],
    size: u64,
    start: u64,
) -> Result<(), NoMemory>
    requires valid { AllValid held.now }
    requires fit { AllFit planner.block_size held.now }
    requires size { size ≡ total held.now }
    requires few { size ≤ MAX_CELLS }
    requires apart { clips.AreLaidClips planner.block_size 0 out.old.items }
    requires later { clips.laid_next 0 out.old.items ≤ start }
    ensures apart { OnOk result (clips.AreLaidClips planner.block_size 0 out.new.items) }
    ensures later { OnOk result (clips.laid_next 0 out.new.items ≤ start + size + 1) }
    ensures end { OnOk result (clips.laid_end 0 out.new.items ≤ start + size) }
    ensures cells { OnOk result ((src : Sources) →
        clips.laid_cells src 0 out.new.items ++ replicate (start + size - clips.laid_end 0 out.new.items) cell.Gap
        ≡ clips.laid_cells src 0 out.old.items ++ replicate (start - clips.laid_end 0 out.old.items) cell.Gap
        ++ map cell.Sample (all_samples src held.now)) }
    ensures origin { OnOk result ((old : List BlockRef) (count : ℕ) → AllFrom old count held.now
        → clips.ClipsFrom old count out.old.items → clips.ClipsFrom old count out.new.items) }
    ensures few_made { OnOk result
        (AllShort planner.block_size held.now
        → clips.made_clips out.new.items ≤ clips.made_clips out.old.items + 2 * rough planner.block_size held.now) }
    ensures few_samples { OnOk result
        (planner.block_size * clips.made_clips out.new.items
        ≤ planner.block_size * clips.made_clips out.old.items + clip_room planner.block_size held.now) }
{
    if size > 0 {
        let laid = fuse(planner.alloc, held, planner.block_size)?;
        out.push(LaidClip { start, laid })?;
    }
    Ok(())
}

/// Lays out a strip clip by clip: what lies between two gaps is one clip.
pub fn lay_strip(planner: Planner, items: &[Item]) -> Result<Vec<LaidClip>, NoMemory>
    requires ok { AreItems items.now }
    requires fit { ItemsFit planner.block_size items.now }
    requires few { strip_len items.now ≤ MAX_CELLS }
    ensures apart { IfOk result (λ v. clips.AreLaidClips planner.block_size 0 v.items) }
    ensures end { IfOk result (λ v. clips.laid_end 0 v.items ≤ strip_len items.now) }
    ensures cells { IfOk result
        (λ v. (src : Sources) → clips.laid_cells src 0 v.items ≡ trimmed (strip_cells src items.now)) }
    ensures origin { IfOk result
        (λ v. (old : List BlockRef) (count : ℕ) → ItemsFrom old count items.now → clips.ClipsFrom old count v.items) }
    ensures few_made { IfOk result (λ v. ItemsShort planner.block_size items.now
        → clips.made_clips v.items ≤ 2 * rough_from planner.block_size [] items.now) }
    ensures few_samples { IfOk result
        (λ v. planner.block_size * clips.made_clips v.items ≤ room_from planner.block_size [] items.now) }
{
    let mut out = Vec::new(planner.alloc);
    let mut held = Vec::new(planner.alloc);
    let mut size = 0;
    let mut start = 0;
    for item in items {
        match item {
            Item::Gap { len } => {
                close(planner, &mut out, held.as_slice(), size, start)?;
                start += size + *len;
                size = 0;
                held = Vec::new(planner.alloc);
            }
            Item::Sound { piece } => {
                size += piece_len(*piece);
                held.push(*piece)?;
            }
        }
    }
    close(planner, &mut out, held.as_slice(), size, start)?;
    Ok(out)
}
