// Blocks whose files are taken into a size, newest first, as long as it stays within a bound.
ghost use Rattle.std.specs.Prelude.{◌≡◌, ◌≤◌, ◌∷◌, [], ℕ, false, IfOk};
ghost use Rattle.block_sequence.specs.Rows.{flat};
ghost use Rattle.clip_track.specs.Clips.{layout_blocks};
ghost use Rattle.layout_uses.specs.Layouts.{track_blocks};
ghost use Rattle.purge_size.specs.Fits.{AreSmall, HasTracks, Takes, TakesTracks};

use super::numbers::NumberSet;
use block_sequence::Row;
use clip_track::Clip;
use pcm_base::{BlockRef, NoMemory};
use project_state::{Point, Track};
use sample_block::file_size;
use std::alloc::Global;

// The ids that were taken, the numbers of the layouts that were, and how many bytes are left of those that may be.
#[derive(Drop)]
pub(crate) struct Fitting {
    pub(crate) ids: NumberSet,
    pub(crate) numbers: NumberSet,
    pub(crate) most: u64,
    pub(crate) left: u64,
}

impl Fitting {
    pub(crate) fn new(alloc: Global, most: u64) -> Fitting
        ensures taken { HasTracks [] result }
        ensures most { result.most ≡ most }
    {
        Fitting {
            ids: NumberSet::new(alloc),
            numbers: NumberSet::new(alloc),
            most,
            left: most,
        }
    }

    // Whether a block fits too.
    fn take_block(&mut self, block: &BlockRef) -> Result<bool, NoMemory>
        requires { block.now.len ≤ 262144 }
        ensures { IfOk result (λ fits. Takes fits (block.now ∷ []) self.old self.new) }
    {
        if !self.ids.insert(block.id)? {
            return Ok(true);
        }
        let size = file_size(block.len as usize) as u64;
        if size > self.left {
            return Ok(false);
        }
        self.left -= size;
        Ok(true)
    }

    fn take_blocks(&mut self, blocks: &[BlockRef]) -> Result<bool, NoMemory>
        requires { AreSmall blocks.now }
        ensures { IfOk result (λ fits. Takes fits blocks.now self.old self.new) }
    {
        for i in (0..blocks.len()).rev() {
            if !self.take_block(&blocks[i])? {
                return Ok(false);
            }
        }
        Ok(true)
    }

    fn take_rows(&mut self, rows: &[Row]) -> Result<bool, NoMemory>
        requires { AreSmall (flat rows.now) }
        ensures { IfOk result (λ fits. Takes fits (flat rows.now) self.old self.new) }
    {
        for i in (0..rows.len()).rev() {
            if !self.take_blocks(rows[i].as_slice())? {
                return Ok(false);
            }
        }
        Ok(true)
    }

    fn take_clips(&mut self, clips: &[Clip]) -> Result<bool, NoMemory>
        requires { AreSmall (layout_blocks clips.now) }
        ensures { IfOk result (λ fits. Takes fits (layout_blocks clips.now) self.old self.new) }
    {
        for i in (0..clips.len()).rev() {
            if !self.take_rows(clips[i].blocks.rows())? {
                return Ok(false);
            }
        }
        Ok(true)
    }

    // A layout that was taken has no new block.
    fn take_track(&mut self, track: &Track) -> Result<bool, NoMemory>
        requires { AreSmall (layout_blocks track.now.layout) }
        ensures { IfOk result (λ fits. TakesTracks fits (track.now ∷ []) self.old self.new) }
    {
        if !self.numbers.insert(track.number)? {
            return Ok(true);
        }
        self.take_clips(track.layout.as_slice())
    }

    pub(crate) fn take_point(&mut self, point: &Point) -> Result<bool, NoMemory>
        requires { AreSmall (track_blocks point.now) }
        ensures { IfOk result (λ fits. TakesTracks fits point.now self.old self.new) }
    {
        for i in (0..point.len()).rev() {
            if !self.take_track(point.track_at(i))? {
                return Ok(false);
            }
        }
        Ok(true)
    }
}
