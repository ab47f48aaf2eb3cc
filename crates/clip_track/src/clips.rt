// A track's layout in clips.
ghost use Rattle.std.specs.Prelude.{◌≡◌, ℕ, ◌+◌, ◌-◌, ◌≤◌, ◌<◌, ◌^◌, ◌++◌, length, take, drop, [], true, IfOk, OnOk};
ghost use Rattle.std.specs.Prelude.{Contains};
ghost use Rattle.pcm_base.specs.declared.limits.TheConstants.{MAX_CELLS};
ghost use Rattle.pcm_base.specs.Pieces.{Sources};
ghost use Rattle.pcm_base.specs.declared.block.BlockRef.{BlockRef};
ghost use Rattle.block_sequence.specs.Rows.{flat};
ghost use Rattle.clip_track.specs.Items as strip;
ghost use Rattle.clip_track.specs.Clips as layout;
ghost use Rattle.pcm_base.specs.Sizes.{clip_count, sample_count};
ghost use Rattle.clip_track.specs.Counts.{clips_len};
ghost use Rattle.clip_track.specs.Rough.{rough_items, ItemsShort};

use super::items::{Item, Strip, append_part, push_gap};
use super::rest::{Rest, rest_from, take_items};
use super::shared::SharedClips;
use block_sequence::{Row, Sequence};
use pcm_base::{BlockRef, NoMemory, Piece};
use std::alloc::{AllocError, Global};
use std::marker::Model;

/// The samples of some blocks, from a place of the track on.
#[derive(Drop)]
pub struct Clip {
    pub start: u64,
    pub blocks: Sequence,
}

/// The clips of a track, at most 2^32 cells long, each of at least one sample and half full, and each at least one
/// gap after the one before. Contracts see them as a list.
#[derive(Drop)]
pub struct Layout {
    clips: SharedClips,
}

impl Model for Layout {
    ghost use Rattle.std.specs.Prelude.{List};
    ghost use Rattle.clip_track.specs.declared.clips.Clip.{Clip};

    ghost Value = { List Clip };

    ghost use Rattle.clip_track.specs.Clips.{IsLayout};

    ghost view = { λ l. l.clips };

    ghost invariant = { λ l. IsLayout l.clips };
}

fn append_row(out: &mut Vec<Item>, blocks: &[BlockRef]) -> Result<(), AllocError>
    ensures { OnOk result (out.new.items ≡ out.old.items ++ layout.sound_items blocks.now) }
{
    for block in blocks {
        let block = *block;
        let to = block.len;
        let piece = Piece::Old { block, from: 0, to };
        out.push(Item::Sound { piece })?;
    }
    Ok(())
}

fn append_blocks(out: &mut Vec<Item>, rows: &[Row]) -> Result<(), AllocError>
    ensures { OnOk result (out.new.items ≡ out.old.items ++ layout.sound_items (flat rows.now)) }
{
    for row in rows {
        append_row(out, row.as_slice())?;
    }
    Ok(())
}

fn append_clip(out: &mut Vec<Item>, clip: &Clip, at: u64) -> Result<u64, AllocError>
    requires later { at ≤ clip.now.start }
    requires few { layout.clip_end clip.now ≤ MAX_CELLS }
    ensures items { OnOk result (out.new.items ≡ out.old.items
        ++ (strip.gap_items (clip.now.start - at) ++ layout.sound_items clip.now.blocks)) }
    ensures end { IfOk result (λ end. end ≡ layout.clip_end clip.now) }
{
    push_gap(out, clip.start - at)?;
    append_blocks(out, clip.blocks.rows())?;
    Ok(clip.start + clip.blocks.len())
}

fn clip_items(alloc: Global, clips: &[Clip]) -> Result<Vec<Item>, AllocError>
    requires { layout.IsLayout clips.now }
    ensures { IfOk result (λ v. v.items ≡ layout.items_from 0 clips.now) }
{
    let mut out = Vec::new(alloc);
    let mut at = 0;
    for clip in clips {
        at = append_clip(&mut out, clip, at)?;
    }
    Ok(out)
}

/// Where the last clip ends.
fn end_of(clips: &[Clip]) -> u64
    requires { layout.IsLayout clips.now }
    ensures { result ≡ layout.end_of 0 clips.now }
{
    match clips {
        [.., last] => last.start + last.blocks.len(),
        [] => 0,
    }
}

impl Layout {
    /// The layout of no cells. It takes no memory.
    pub fn new(alloc: Global) -> Layout
        ensures { result ≡ [] }
    {
        Layout {
            clips: SharedClips::new(alloc),
        }
    }

    /// The layout of some clips, which are taken over as they are.
    ///
    /// # Errors
    ///
    /// There is no memory for their count of owners.
    pub fn from_clips(clips: Vec<Clip>) -> Result<Layout, NoMemory>
        requires { layout.IsLayout clips.items }
        ensures { IfOk result (λ l. l ≡ clips.items) }
    {
        let clips = SharedClips::from_clips(clips)?;
        Ok(Layout { clips })
    }

    /// The clips, in order.
    pub fn as_slice(&self) -> &[Clip]
        ensures value { result.now ≡ self.now }
        ensures apart { layout.IsLayout self.now }
        ensures clips { (src : Sources) → clip_count (layout.layout_cells src self.now) ≡ length self.now }
        ensures samples { (src : Sources) → sample_count (layout.layout_cells src self.now) ≡ clips_len self.now }
    {
        self.clips.as_slice()
    }

    /// How many cells there are.
    pub fn len(&self) -> u64
        ensures value { result ≡ layout.end_of 0 self.now }
        ensures cells { (src : Sources) → length (layout.layout_cells src self.now) ≡ result }
        ensures few { result ≤ MAX_CELLS }
    {
        end_of(self.clips.as_slice())
    }

    /// Another layout of the same clips, which both have then.
    ///
    /// # Errors
    ///
    /// The count of owners is at its end.
    pub fn copy(&self) -> Result<Layout, NoMemory>
        ensures { IfOk result (λ l. l ≡ self.now) }
    {
        let clips = self.clips.copy()?;
        Ok(Layout { clips })
    }

    /// The layout as a strip of its whole blocks.
    ///
    /// # Errors
    ///
    /// There is no memory for the strip.
    pub fn to_strip(&self) -> Result<Strip, NoMemory>
        ensures items { IfOk result (λ s. s ≡ layout.items_from 0 self.now) }
        ensures cells { IfOk result
            (λ s. (src : Sources) → strip.strip_cells src s ≡ layout.layout_cells src self.now) }
        ensures ok { IfOk result (λ s. strip.AreItems s) }
        ensures len { IfOk result (λ s. strip.strip_len s ≡ layout.end_of 0 self.now) }
        ensures few { IfOk result (λ s. strip.strip_len s ≤ MAX_CELLS) }
        ensures fit { IfOk result (λ s. (m : ℕ) → layout.AllHalfFull m self.now → strip.ItemsFit m s) }
        ensures smooth { IfOk result (λ s. (m : ℕ) → layout.AllHalfFull m self.now → rough_items m true true s ≡ 0) }
        ensures short { IfOk result (λ s. (m : ℕ) → layout.AllHalfFull m self.now → ItemsShort m s) }
    {
        let items = clip_items(self.clips.allocator(), self.clips.as_slice())?;
        Ok(Strip::from_items(items))
    }

    /// What is left from a place on, to be read stretch by stretch: what stands at the place, and what follows. It
    /// takes no memory.
    pub fn rest(&self, place: u64) -> Rest<'_>
        ensures items { result ≡ strip.items_after place (layout.items_from 0 self.now) }
        ensures cells { (src : Sources) → strip.strip_cells src result ≡ drop place (layout.layout_cells src self.now) }
        ensures len { strip.strip_len result ≡ layout.end_of 0 self.now - place }
        ensures fit { (m : ℕ) → layout.AllHalfFull m self.now → strip.ItemsFit m result }
        ensures blocks { (b : BlockRef) → Contains (strip.strip_blocks result) b
            → Contains (layout.layout_blocks self.now) b }
    {
        rest_from(self.clips.as_slice(), place)
    }

    /// The cells from one place up to another.
    ///
    /// # Errors
    ///
    /// There is no memory for the strip.
    pub fn slice(&self, from: u64, to: u64) -> Result<Strip, NoMemory>
        requires rising { from ≤ to }
        requires within { to ≤ layout.end_of 0 self.now }
        ensures items { IfOk result (λ s. s ≡ strip.part_items from (to - from) (layout.items_from 0 self.now)) }
        ensures cells { IfOk result (λ s. (src : Sources)
            → strip.strip_cells src s ≡ take (to - from) (drop from (layout.layout_cells src self.now))) }
        ensures len { IfOk result (λ s. strip.strip_len s ≡ to - from) }
        ensures fit { IfOk result (λ s. (m : ℕ) → layout.AllHalfFull m self.now → strip.ItemsFit m s) }
    {
        let mut rest = self.rest(from);
        let items = take_items(self.clips.allocator(), &mut rest, to - from)?;
        Ok(Strip::from_items(items))
    }

    /// The whole track's strip, with the cells from one place up to another replaced by those of a strip. The layout
    /// itself stays as it is.
    ///
    /// # Errors
    ///
    /// There is no memory for the strip.
    pub fn replace(&self, from: u64, to: u64, middle: &Strip) -> Result<Strip, NoMemory>
        requires rising { from ≤ to }
        requires within { to ≤ layout.end_of 0 self.now }
        requires room { layout.end_of 0 self.now + strip.strip_len middle.now < 2 ^ 64 }
        ensures cells { IfOk result (λ s. (src : Sources) →
            strip.strip_cells src s ≡ take from (layout.layout_cells src self.now) ++ strip.strip_cells src middle.now
            ++ drop to (layout.layout_cells src self.now)) }
        ensures len { IfOk result
            (λ s. strip.strip_len s ≡ layout.end_of 0 self.now - (to - from) + strip.strip_len middle.now) }
        ensures fit { IfOk result
            (λ s. (m : ℕ) → layout.AllHalfFull m self.now → strip.ItemsFit m middle.now → strip.ItemsFit m s) }
    {
        let whole = self.to_strip()?;
        let mut out = Vec::new(self.clips.allocator());
        append_part(&mut out, whole.as_slice(), 0, from)?;
        append_part(&mut out, middle.as_slice(), 0, middle.len())?;
        append_part(&mut out, whole.as_slice(), to, whole.len() - to)?;
        Ok(Strip::from_items(out))
    }
}
