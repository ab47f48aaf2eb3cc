// A strip is laid out in blocks.
ghost use Rattle.std.specs.Prelude.{◌≡◌, ℕ, List, ◌+◌, ◌-◌, ◌≤◌, ◌<◌, ◌^◌, ◌++◌, ◌*◌, length, true, IfOk, OnOk};
ghost use Rattle.pcm_base.specs.declared.limits.TheConstants.{MAX_CELLS};
ghost use Rattle.pcm_base.specs.Pieces.{Sources};
ghost use Rattle.pcm_base.specs.Cells.{trimmed};
ghost use Rattle.clip_track.specs.Items.{ItemsFit, strip_len, strip_cells};
ghost use Rattle.clip_track.specs.Clips.{layout_blocks, layout_cells};
ghost use Rattle.pcm_base.specs.declared.block.BlockRef.{BlockRef};
ghost use Rattle.clip_track.specs.Kept.{Keeps};
ghost use Rattle.edit_ops.specs.Plans.{AreWritten, IsPlan, start_of};
ghost use Rattle.edit_ops.specs.Strips.{ItemsFrom};
ghost use Rattle.block_sequence.specs.Room.{First};
ghost use Rattle.clip_track.specs.Room.{strip_room};
ghost use Rattle.clip_track.specs.Rough.{rough_items, ItemsShort};
ghost use Rattle.edit_ops.specs.LaidClips as laid;

use super::laying::lay_strip;
use super::planner::Planner;
use super::types::{LaidClip, NewBlock, NewBlocks, Plan};
use block_sequence::{Laid, Sequence};
use clip_track::{Clip, Kept, Layout, Strip};
use pcm_base::{BlockRef, NoMemory};
use std::alloc::{AllocError, Global};

/// The blocks of a clip, and the next block id.
#[derive(Drop)]
struct Named {
    blocks: Vec<BlockRef>,
    next: u64,
}

/// Gives the new blocks of a clip their ids, from `next` on.
fn name_blocks(
    alloc: Global,
    parts: Vec<Laid>,
    next: u64,
    makes: &mut Vec<NewBlock>,
) -> Result<Named, AllocError>
    requires { next + length parts.items < 2 ^ 64 }
    ensures blocks { IfOk result (λ n. n.blocks.items ≡ laid.named next parts.items) }
    ensures makes { OnOk result (makes.new.items ≡ makes.old.items ++ laid.new_blocks next parts.items) }
    ensures next { IfOk result (λ n. n.next ≡ laid.next_after next parts.items) }
{
    let mut blocks = Vec::new(alloc);
    let mut id = next;
    for part in parts {
        match part {
            Laid::Keep { block } => {
                blocks.push(block)?;
            }
            Laid::Make { pieces, len } => {
                blocks.push(BlockRef { id, len })?;
                makes.push(NewBlock { id, len, pieces })?;
                id += 1;
            }
        }
    }
    Ok(Named { blocks, next: id })
}

/// Gives the new blocks of all clips their ids, and makes the layout.
fn name_clips(planner: Planner, clips: Vec<LaidClip>) -> Result<Plan, NoMemory>
    requires apart { laid.AreLaidClips planner.block_size 0 clips.items }
    requires few { laid.laid_end 0 clips.items ≤ MAX_CELLS }
    ensures layout { IfOk result (λ p. p.layout ≡ laid.named_clips planner.next clips.items) }
    ensures makes { IfOk result (λ p. p.makes ≡ laid.clips_new_blocks planner.next clips.items) }
    ensures next { IfOk result (λ p. p.next ≡ laid.clips_next planner.next clips.items) }
    ensures kept { IfOk result (λ p. (old : List BlockRef) → Keeps p.kept old (layout_blocks p.layout)) }
{
    let mut out = Vec::new(planner.alloc);
    let mut makes = Vec::new(planner.alloc);
    let mut id = planner.next;
    for clip in clips {
        let LaidClip { start, laid } = clip;
        let named = name_blocks(planner.alloc, laid, id, &mut makes)?;
        id = named.next;
        let blocks = Sequence::new(named.blocks)?;
        out.push(Clip { start, blocks })?;
    }
    Ok(Plan {
        layout: Layout::from_clips(out)?,
        makes: NewBlocks::new(makes),
        next: id,
        kept: Kept::none(),
    })
}

/// Lays a strip out in blocks, none of them empty; the new ones get the ids from the planner's next one on, in order.
pub fn plan_strip(planner: Planner, strip: &Strip) -> Result<Plan, NoMemory>
    requires fit { ItemsFit planner.block_size strip.now }
    requires few { strip_len strip.now ≤ MAX_CELLS }
    ensures plan { IfOk result
        (λ p. (old : List BlockRef) (count : ℕ) → ItemsFrom old count strip.now
        → IsPlan (start_of planner) old count p) }
    ensures cells { IfOk result (λ p. (src : Sources) → AreWritten src p.makes
        → layout_cells src p.layout ≡ trimmed (strip_cells src strip.now)) }
    ensures few_made { IfOk result (λ p. ItemsShort planner.block_size strip.now
        → length p.makes ≤ 2 * rough_items planner.block_size true true strip.now) }
    ensures few_samples { IfOk result
        (λ p. planner.block_size * length p.makes ≤ strip_room planner.block_size First true strip.now) }
    ensures kept { IfOk result (λ p. (old : List BlockRef) → Keeps p.kept old (layout_blocks p.layout)) }
{
    let clips = lay_strip(planner, strip.as_slice())?;
    Ok(name_clips(planner, clips)?)
}
