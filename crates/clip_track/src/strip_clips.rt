// A strip as clips, each with its place.
ghost use Rattle.std.specs.Prelude.{◌≡◌, ℕ, ◌+◌, ◌-◌, ◌≤◌, ◌<◌, ◌^◌, ◌++◌, map, replicate, IfOk, OnOk};
ghost use Rattle.pcm_base.specs.declared.sound.Cell.TheVariants as cell;
ghost use Rattle.pcm_base.specs.Pieces.{Sources, total, all_samples, AllValid};
ghost use Rattle.clip_track.specs.Items.{AreItems, strip_len, strip_cells};
ghost use Rattle.clip_track.specs.StripClips as clips;

use super::items::{Item, Strip};
use block_sequence::{Pieces, piece_len};
use pcm_base::{NoMemory, Piece};
use std::alloc::Global;

/// Pieces of sound that follow each other, and the place in the strip where they begin.
#[derive(Drop)]
pub struct StripClip {
    pub start: u64,
    pub pieces: Pieces,
}

/// Adds a clip of some pieces, if they have samples.
fn close(out: &mut Vec<StripClip>, held: Vec<Piece>, size: u64, start: u64) -> Result<(), NoMemory>
    requires valid { AllValid held.items }
    requires size { size ≡ total held.items }
    requires apart { clips.AreStripClips 0 out.old.items }
    requires later { clips.next_start 0 out.old.items ≤ start }
    ensures apart { OnOk result (clips.AreStripClips 0 out.new.items) }
    ensures later { OnOk result (clips.next_start 0 out.new.items ≤ start + size + 1) }
    ensures end { OnOk result (clips.clips_end 0 out.new.items ≤ start + size) }
    ensures cells { OnOk result ((src : Sources) →
        clips.clips_cells src 0 out.new.items ++ replicate (start + size - clips.clips_end 0 out.new.items) cell.Gap
        ≡ clips.clips_cells src 0 out.old.items ++ replicate (start - clips.clips_end 0 out.old.items) cell.Gap
        ++ map cell.Sample (all_samples src held.items)) }
{
    if size > 0 {
        let pieces = Pieces::new(held);
        out.push(StripClip { start, pieces })?;
    }
    Ok(())
}

fn collect_clips(alloc: Global, items: &[Item]) -> Result<Vec<StripClip>, NoMemory>
    requires ok { AreItems items.now }
    requires few { strip_len items.now < 2 ^ 64 }
    ensures apart { IfOk result (λ v. clips.AreStripClips 0 v.items) }
    ensures within { IfOk result (λ v. clips.clips_end 0 v.items ≤ strip_len items.now) }
    ensures cells { IfOk result (λ v. (src : Sources) →
        clips.clips_cells src 0 v.items ++ replicate (strip_len items.now - clips.clips_end 0 v.items) cell.Gap
        ≡ strip_cells src items.now) }
{
    let mut out = Vec::new(alloc);
    let mut held = Vec::new(alloc);
    let mut size = 0;
    let mut start = 0;
    for item in items {
        match item {
            Item::Gap { len } => {
                close(&mut out, held, size, start)?;
                start += size + *len;
                size = 0;
                held = Vec::new(alloc);
            }
            Item::Sound { piece } => {
                size += piece_len(*piece);
                held.push(*piece)?;
            }
        }
    }
    close(&mut out, held, size, start)?;
    Ok(out)
}

impl Strip {
    /// The clips: pieces that follow each other with no gap between, each list with the place where it begins.
    /// The strip's gaps are what lies between the clips, and after the last one up to the strip's length.
    ///
    /// # Errors
    ///
    /// There is no memory for the clips.
    pub fn clips(&self) -> Result<Vec<StripClip>, NoMemory>
        ensures apart { IfOk result (λ v. clips.AreStripClips 0 v.items) }
        ensures within { IfOk result (λ v. clips.clips_end 0 v.items ≤ strip_len self.now) }
        ensures cells { IfOk result (λ v. (src : Sources) →
            clips.clips_cells src 0 v.items ++ replicate (strip_len self.now - clips.clips_end 0 v.items) cell.Gap
            ≡ strip_cells src self.now) }
    {
        collect_clips(self.allocator(), self.as_slice())
    }
}
