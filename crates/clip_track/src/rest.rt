// What is left of a layout from a place on, stretch by stretch.
ghost use Rattle.std.specs.Prelude.{◌≡◌, ◌+◌, ◌-◌, ◌≤◌, ◌<◌, ◌++◌, [], ◌∷◌, IfOk};
ghost use Rattle.pcm_base.specs.declared.limits.TheConstants.{MAX_CELLS};
ghost use Rattle.pcm_base.specs.Blocks.{blocks_len};
ghost use Rattle.block_sequence.specs.Rows.{flat};
ghost use Rattle.clip_track.specs.Clips.{AreClips, IsLayout, clip_end, end_of, items_from};
ghost use Rattle.clip_track.specs.Items.{AreItems, items_after, part_items};
ghost use Rattle.clip_track.specs.Rests.{IsLeft, IsNext, left_items, stretch_item};

use super::clips::Clip;
use super::items::{Item, item_len, part_of_item};
use block_sequence::Row;
use pcm_base::{BlockRef, Piece};
use std::alloc::{AllocError, Global};
use std::marker::Model;

/// What stands at a place of a layout, from there on.
#[derive(Clone, Copy, Debug, PartialEq, Eq)]
pub enum Stretch {
    /// `len` gaps.
    Gaps { len: u64 },
    /// The samples of a block, from one of them to its last.
    Block { block: BlockRef, from: u32 },
}

impl Stretch {
    /// The same as an item of a strip.
    pub fn item(self) -> Item
        ensures { result ≡ stretch_item self }
    {
        match self {
            Stretch::Gaps { len } => Item::Gap { len },
            Stretch::Block { block, from } => {
                let to = block.len;
                let piece = Piece::Old { block, from, to };
                Item::Sound { piece }
            }
        }
    }
}

// Gaps, the blocks of a row, of the first of which `passed` samples are passed, the rows of the clip after it, and the
// clips after its end.
#[derive(Clone, Copy)]
struct Left<'a> {
    gaps: u64,
    passed: u32,
    blocks: &'a [BlockRef],
    rows: &'a [Row],
    end: u64,
    clips: &'a [Clip],
}

/// What is left of a layout from a place on. It is read stretch by stretch, and takes no memory. Contracts see the
/// items that are left, as a strip has them.
#[derive(Drop)]
pub struct Rest<'a> {
    left: Left<'a>,
}

impl<'a> Model for Rest<'a> {
    ghost use Rattle.std.specs.Prelude.{List};
    ghost use Rattle.clip_track.specs.declared.items.Item.{Item};

    ghost Value = { List Item };

    ghost use Rattle.clip_track.specs.Rests.{IsLeft, left_items};

    ghost view = { λ r. left_items r.left };

    ghost invariant = { λ r. IsLeft r.left };
}

impl<'a> Rest<'a> {
    /// The next stretch, where there is one. What is left begins after it.
    pub fn next(&mut self) -> Option<Stretch>
        ensures next { IsNext self.old result self.new }
        ensures ok { AreItems self.old }
    {
        let left = entered(self.left);
        if left.gaps > 0 {
            self.left = Left { gaps: 0, ..left };
            return Some(Stretch::Gaps { len: left.gaps });
        }
        let [block, more @ ..] = left.blocks else {
            return None;
        };
        self.left = Left {
            passed: 0,
            blocks: more,
            ..left
        };
        let from = left.passed;
        Some(Stretch::Block {
            block: *block,
            from,
        })
    }
}

// The same, with the next row entered where no block is left of the one before.
fn with_row<'a>(left: Left<'a>) -> Left<'a>
    requires { IsLeft left }
    ensures left { IsLeft result }
    ensures same { left_items result ≡ left_items left.entry }
    ensures gaps { result.gaps ≡ left.entry.gaps }
    ensures all { result.blocks.now ++ flat result.rows.now ≡ left.entry.blocks.now ++ flat left.entry.rows.now }
    ensures first { result.blocks.now ≡ [] → flat result.rows.now ≡ [] }
    ensures clips { result.clips.now ≡ left.entry.clips.now }
{
    if !left.blocks.is_empty() {
        return left;
    }
    match left.rows {
        [row, more @ ..] => Left {
            blocks: row.as_slice(),
            rows: more,
            ..left
        },
        [] => left,
    }
}

// The same, with the next clip entered where nothing stands before it.
fn entered<'a>(left: Left<'a>) -> Left<'a>
    requires { IsLeft left }
    ensures left { IsLeft result }
    ensures same { left_items result ≡ left_items left.entry }
    ensures first { result.gaps ≡ 0 → result.blocks.now ≡ [] → left_items result ≡ [] }
{
    let left = with_row(left);
    if left.gaps > 0 {
        return left;
    }
    if !left.blocks.is_empty() {
        return left;
    }
    match left.clips {
        [clip, more @ ..] => with_row(enter(left.end, clip, more)),
        [] => left,
    }
}

// A clip and those after it, from the end of the one before on.
fn enter<'a>(end: u64, clip: &'a Clip, more: &'a [Clip]) -> Left<'a>
    requires apart { AreClips end (clip.now ∷ more.now) }
    requires few { end_of end (clip.now ∷ more.now) ≤ MAX_CELLS }
    ensures left { IsLeft result }
    ensures items { left_items result ≡ items_from end (clip.now ∷ more.now) }
    ensures row { result.blocks.now ≡ [] }
    ensures sound { flat result.rows.now ≡ clip.now.blocks }
    ensures whole { result.passed ≡ 0 }
    ensures end { result.end ≡ clip_end clip.now }
    ensures clips { result.clips.now ≡ more.now }
{
    Left {
        gaps: clip.start - end,
        passed: 0,
        blocks: &[],
        rows: clip.blocks.rows(),
        end: clip.start + clip.blocks.len(),
        clips: more,
    }
}

// Blocks of a row, of which `count` samples are passed, and what is left after them.
fn pass_blocks<'a>(left: Left<'a>, count: u64) -> Left<'a>
    requires left { IsLeft left }
    requires front { left.gaps ≡ 0 }
    requires whole { left.passed ≡ 0 }
    requires within { count < blocks_len left.blocks.now }
    ensures left { IsLeft result }
    ensures items { left_items result ≡ items_after count (left_items left.entry) }
{
    let mut skip = count;
    let mut blocks = left.blocks;
    'rows: while let [block, more @ ..] = blocks {
        if skip < block.len as u64 {
            let passed = skip as u32;
            return Left {
                passed,
                blocks,
                ..left
            };
        }
        skip -= block.len as u64;
        blocks = more;
    }
    left
}

// Rows of a clip, of which `count` samples are passed, and what is left after them.
fn pass_rows<'a>(left: Left<'a>, count: u64) -> Left<'a>
    requires left { IsLeft left }
    requires front { left.gaps ≡ 0 }
    requires whole { left.passed ≡ 0 }
    requires row { left.blocks.now ≡ [] }
    requires within { count < blocks_len (flat left.rows.now) }
    ensures left { IsLeft result }
    ensures items { left_items result ≡ items_after count (left_items left.entry) }
{
    let mut skip = count;
    let mut rows = left.rows;
    'rows: while let [row, more @ ..] = rows {
        if skip < row.len() {
            let blocks = row.as_slice();
            let rows = more;
            return pass_blocks(
                Left {
                    blocks,
                    rows,
                    ..left
                },
                skip,
            );
        }
        skip -= row.len();
        rows = more;
    }
    left
}

// What is left from a place on that lies before the end of the first clip.
fn within<'a>(end: u64, clip: &'a Clip, more: &'a [Clip], place: u64) -> Left<'a>
    requires apart { AreClips end (clip.now ∷ more.now) }
    requires few { end_of end (clip.now ∷ more.now) ≤ MAX_CELLS }
    requires later { end ≤ place }
    requires within { place < clip_end clip.now }
    ensures left { IsLeft result }
    ensures items { left_items result ≡ items_after (place - end) (items_from end (clip.now ∷ more.now)) }
{
    let left = enter(end, clip, more);
    if place <= clip.start {
        let gaps = clip.start - place;
        return Left { gaps, ..left };
    }
    pass_rows(Left { gaps: 0, ..left }, place - clip.start)
}

// What is left of some clips from a place on.
fn left_from<'a>(clips: &'a [Clip], place: u64) -> Left<'a>
    requires { IsLayout clips.now }
    ensures left { IsLeft result }
    ensures items { left_items result ≡ items_after place (items_from 0 clips.now) }
{
    let mut end = 0;
    let mut rest = clips;
    'rows: while let [clip, more @ ..] = rest {
        let next = clip.start + clip.blocks.len();
        if place < next {
            return within(end, clip, more, place);
        }
        end = next;
        rest = more;
    }
    Left {
        gaps: 0,
        passed: 0,
        blocks: &[],
        rows: &[],
        end,
        clips: &[],
    }
}

// What is left of the clips of a layout from a place on.
pub(crate) fn rest_from<'a>(clips: &'a [Clip], place: u64) -> Rest<'a>
    requires { IsLayout clips.now }
    ensures items { result ≡ items_after place (items_from 0 clips.now) }
{
    let left = left_from(clips, place);
    Rest { left }
}

// The first `count` cells of what is left, or as many as there are.
pub(crate) fn take_items(
    alloc: Global,
    rest: &mut Rest,
    count: u64,
) -> Result<Vec<Item>, AllocError>
    ensures { IfOk result (λ v. v.items ≡ part_items 0 count rest.old) }
{
    let mut items = Vec::new(alloc);
    let mut left = count;
    'rows: while left > 0 {
        let Some(stretch) = rest.next() else {
            return Ok(items);
        };
        let item = stretch.item();
        let size = left.min(item_len(item));
        items.push(part_of_item(item, 0, size))?;
        left -= size;
    }
    Ok(items)
}
