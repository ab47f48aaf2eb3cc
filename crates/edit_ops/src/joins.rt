// Clips that are added to others, where those that touch become one.
ghost use Rattle.std.specs.Prelude.{◌≡◌, ◌+◌, ◌≤◌, ◌<◌, ◌++◌, List, [], ◌∷◌, length, IfOk, IfSome, IsTrue};
ghost use Rattle.pcm_base.specs.declared.limits.TheConstants.{MAX_CELLS};
ghost use Rattle.pcm_base.specs.Blocks.{block_lens, blocks_len, AllFull, IsHalfFull};
ghost use Rattle.pcm_base.specs.declared.block.BlockRef.{BlockRef};
ghost use Rattle.clip_track.specs.Clips.{AllHalfFull, AreClips, end_of};
ghost use Rattle.edit_ops.specs.Joins.{Adds, IsJoining, IsPart, finished, moved, part_blocks, part_clip};

use super::planner::Planner;
use block_sequence::Sequence;
use clip_track::Clip;
use pcm_base::NoMemory;

/// Clips, and one more after them that may still grow. Where it has no blocks it is none.
#[derive(Drop)]
pub struct Joining {
    /// The clips before it.
    pub clips: Vec<Clip>,
    /// Where it starts.
    pub start: u64,
    /// Where it ends.
    pub end: u64,
    /// Its blocks.
    pub blocks: Sequence,
}

/// Blocks at a place of a track: those of a sequence from one place up to another.
#[derive(Clone, Copy)]
pub struct Part<'a> {
    pub start: u64,
    /// How many samples they have.
    pub size: u64,
    pub blocks: &'a Sequence,
    pub from: usize,
    pub to: usize,
}

/// Whether all of some blocks are full, of which one alone may be smaller: `count` blocks of `size` samples in all.
fn are_full(count: usize, size: u64, block_size: u32) -> bool
    requires { size ≤ MAX_CELLS }
    ensures { IsTrue result → (bs : List BlockRef) → length bs ≡ count → blocks_len bs ≡ size
        → IsHalfFull block_size (block_lens bs) → AllFull block_size (block_lens bs) }
{
    if count == 1 && 2 * size < block_size as u64 {
        return false;
    }
    true
}

/// Whether some blocks and those of a part after them may be one clip.
fn may_touch(front: &Sequence, back: Part<'_>, block_size: u32) -> bool
    requires front { IsHalfFull block_size (block_lens front.now) }
    requires back { IsPart block_size back }
    requires some { 0 < block_size }
    ensures { IsTrue result → IsHalfFull block_size (block_lens (front.now ++ part_blocks back.entry)) }
{
    let many = front.count();
    let count = back.to - back.from;
    if many == 0 || count == 0 {
        return true;
    }
    are_full(many, front.len(), block_size) && are_full(count, back.size, block_size)
}

/// The clips, with the one that grew as the last.
pub fn close(joining: Joining) -> Result<Vec<Clip>, NoMemory>
    ensures { IfOk result (λ v. v.items ≡ finished joining []) }
{
    let Joining {
        mut clips,
        start,
        end: _,
        blocks,
    } = joining;
    if blocks.count() == 0 {
        return Ok(clips);
    }
    clips.push(Clip { start, blocks })?;
    Ok(clips)
}

/// The clips, and blocks apart from them that may grow.
fn begin_part(planner: Planner, clips: Vec<Clip>, part: Part<'_>) -> Result<Joining, NoMemory>
    requires part { IsPart planner.block_size part }
    requires half_full { AllHalfFull planner.block_size clips.items }
    ensures joining { IfOk result (IsJoining planner.block_size) }
    ensures clips { IfOk result (λ n. n.clips.items ≡ clips.items) }
    ensures part { IfOk result (λ n. n.start ≡ part.entry.start) }
    ensures blocks { IfOk result (λ n. n.blocks ≡ part_blocks part.entry) }
{
    let blocks = Sequence::empty(planner.alloc).append(part.blocks, part.from, part.to)?;
    Ok(Joining {
        clips,
        start: part.start,
        end: part.start + part.size,
        blocks,
    })
}

/// With blocks added: to the last clip where they touch it. There is no answer where the two may be no clip.
pub fn add_part(
    planner: Planner,
    joining: Joining,
    part: Part<'_>,
) -> Result<Option<Joining>, NoMemory>
    requires joining { IsJoining planner.block_size joining }
    requires part { IsPart planner.block_size part }
    ensures { IfOk result (λ o. IfSome o (Adds planner.block_size joining (part_clip part.entry ∷ []))) }
{
    if part.start != joining.end {
        let clips = close(joining)?;
        return Ok(Some(begin_part(planner, clips, part)?));
    }
    if !may_touch(&joining.blocks, part, planner.block_size) {
        return Ok(None);
    }
    let Joining {
        clips,
        start,
        end,
        blocks,
    } = joining;
    let blocks = blocks.append(part.blocks, part.from, part.to)?;
    Ok(Some(Joining {
        clips,
        start,
        end: end + part.size,
        blocks,
    }))
}

/// With some clips added, moved by a number of cells.
pub fn add_clips(
    planner: Planner,
    joining: Joining,
    clips: &[Clip],
    by: u64,
) -> Result<Option<Joining>, NoMemory>
    requires joining { IsJoining planner.block_size joining }
    requires apart { AreClips 0 clips.now }
    requires half_full { AllHalfFull planner.block_size clips.now }
    requires few { by + end_of 0 clips.now ≤ MAX_CELLS }
    ensures { IfOk result (λ o. IfSome o (Adds planner.block_size joining (moved 0 by clips.now))) }
{
    let mut all = joining;
    for clip in clips {
        let part = Part {
            start: clip.start + by,
            size: clip.blocks.len(),
            blocks: &clip.blocks,
            from: 0,
            to: clip.blocks.count(),
        };
        let Some(next) = add_part(planner, all, part)? else {
            return Ok(None);
        };
        all = next;
    }
    Ok(Some(all))
}
