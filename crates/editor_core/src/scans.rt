// Whether the file of a block is what it has to be.
ghost use Rattle.std.specs.Prelude.{◌≡◌, ◌++◌, None, Contains, IfOk, OnOk};
ghost use Rattle.clip_track.specs.Clips.{layout_blocks};
ghost use Rattle.project_state.specs.Meaning.{point_blocks, history_blocks};
ghost use Rattle.editor_core.specs.Core.{core_of};
ghost use Rattle.editor_views.specs.Scans.{AreListed, ScansBlock};
ghost use Rattle.editor_state.specs.Studios.{IsStudio};

use super::studio::Studio;
use block_store::BlockFault;
use clip_track::Clip;
use disk_model::Store;
use pcm_base::{BlockRef, NoMemory};
use project_state::Point;
use std::alloc::Global;
use undo_history::History;

// Adds the blocks of clips.
fn add_clips(clips: &[Clip], blocks: &mut Vec<BlockRef>) -> Result<(), NoMemory>
    ensures { OnOk result (blocks.new.items ≡ blocks.old.items ++ layout_blocks clips.now) }
{
    for clip in clips {
        clip.blocks.append_to(blocks, 0, clip.blocks.count())?;
    }
    Ok(())
}

// Adds the blocks of a point.
fn add_point(point: &Point, blocks: &mut Vec<BlockRef>) -> Result<(), NoMemory>
    ensures { OnOk result (blocks.new.items ≡ blocks.old.items ++ point_blocks point.now) }
{
    for i in 0..point.len() {
        add_clips(point.track_at(i).layout.as_slice(), blocks)?;
    }
    Ok(())
}

// The blocks that points name, as often as they do.
fn blocks_of(alloc: Global, history: &History<Point>) -> Result<Vec<BlockRef>, NoMemory>
    ensures { IfOk result (λ v. v.items ≡ history_blocks history.now.history) }
{
    let mut blocks = Vec::new(alloc);
    for i in 0..history.len() {
        add_point(history.point(i), &mut blocks)?;
    }
    Ok(blocks)
}

// These blocks by rising id, each of them once where no id has two lengths.
fn by_id(blocks: Vec<BlockRef>) -> Vec<BlockRef>
    ensures { AreListed blocks.items result.items }
{
    let mut blocks = blocks;
    blocks.sort_unstable_by_key(|block| block.id);
    blocks.dedup();
    blocks
}

impl<S: Store> Studio<S> {
    /// The blocks that points name by rising id, each of them once. Two of one id differ in their lengths, which no
    /// disk has that holds what the studio stands for. It takes memory for the references of all points.
    pub fn named_blocks(&self, alloc: Global) -> Result<Vec<BlockRef>, NoMemory>
        ensures { IfOk result (λ v. AreListed (history_blocks (core_of self.now).history) v.items) }
    {
        let blocks = blocks_of(alloc, &self.history)?;
        Ok(by_id(blocks))
    }

    /// Reads the file of a block that a point names whole, and compares all of it with what the block's file has to be:
    /// its size, its header and the frames of its samples. Nothing is changed, and no memory is taken.
    ///
    /// # Errors
    ///
    /// `DiskFault` where a read fails: the studio goes on; else `Damaged` with the first that differs, where the file
    /// is not the block's. A disk that holds what the studio stands for shows no damaged file.
    pub fn scan(&mut self, block: BlockRef) -> Result<(), BlockFault>
        requires studio { IsStudio S.Store (core_of self.old) }
        requires going { (core_of self.old).stopped ≡ None }
        requires named { Contains (history_blocks (core_of self.old).history) block }
        ensures { ScansBlock S.Store (core_of self.old) block result (core_of self.new) }
    {
        self.buffers.check(&mut self.reader, block)
    }
}
