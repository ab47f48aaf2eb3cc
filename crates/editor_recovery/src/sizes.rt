// The sizes of the files of a disk, and the first block whose file has not its size.
ghost use Rattle.std.specs.Prelude.{◌≡◌, ◌≤◌, ◌==◌, ℕ, Option, None, Contains, IsTrue, OnOk, if◌then◌else◌};
ghost use Rattle.std.specs.List.{All, AllByRecursion};
ghost use Rattle.pcm_base.specs.declared.block.BlockRef.{BlockRef};
ghost use Rattle.pcm_base.specs.declared.limits.TheConstants.{MAX_BLOCK_SAMPLES};
ghost use Rattle.sample_block.specs.Spelling.{IsBlock};
ghost use Rattle.block_sequence.specs.Rows.{flat};
ghost use Rattle.clip_track.specs.Clips.{layout_blocks};
ghost use Rattle.project_state.specs.Meaning.{point_blocks, history_blocks};
ghost use Rattle.layout_uses.specs.Layouts.{Agree, AgreesWith, AreNumbered, history_tracks};
ghost use Rattle.editor_recovery.specs.Measured.{size_in};
ghost use Rattle.editor_recovery.specs.Sizes.{AreSearched, earlier, first_wrong, one_more};

use block_sequence::Row;
use clip_track::Clip;
use pcm_base::{BlockRef, NoMemory};
use project_state::{Point, Track};
use sample_block::file_size;
use std::alloc::Global;
use std::collections::HashMap;
use undo_history::History;

// How many bytes files have.
#[derive(Drop)]
pub(crate) struct Sizes {
    sizes: HashMap<u64, u64>,
}

impl Sizes {
    pub(crate) fn new(alloc: Global) -> Sizes
        ensures { (file : ℕ) → size_in result file ≡ 0 }
    {
        Sizes {
            sizes: HashMap::new(alloc),
        }
    }

    pub(crate) fn put(&mut self, file: u64, size: u64) -> Result<(), NoMemory>
        ensures { OnOk result
            ((other : ℕ) → size_in self.new other ≡ (if other == file then size else size_in self.old other)) }
    {
        self.sizes.insert(file, size)?;
        Ok(())
    }

    // 0 for a file that is not there.
    pub(crate) fn get(&self, file: u64) -> u64
        ensures { result ≡ size_in self.now file }
    {
        match self.sizes.get(&file) {
            Some(size) => *size,
            None => 0,
        }
    }
}

// The first of two by id, and then by length.
fn earlier(found: Option<BlockRef>, block: BlockRef) -> BlockRef
    ensures { result ≡ earlier found block }
{
    match found {
        Some(first) if first.id < block.id || (first.id == block.id && first.len <= block.len) =>
            first,
        _ => block,
    }
}

fn one_more(sizes: &Sizes, found: Option<BlockRef>, block: BlockRef) -> Option<BlockRef>
    requires { block.len ≤ MAX_BLOCK_SAMPLES }
    ensures { result ≡ one_more (size_in sizes.now) found block }
{
    if sizes.get(block.id) == file_size(block.len as usize) as u64 {
        return found;
    }
    Some(earlier(found, block))
}

fn wrong_among(sizes: &Sizes, found: Option<BlockRef>, blocks: &[BlockRef]) -> Option<BlockRef>
    requires { All (λ b. IsBlock b.id b.len) blocks.now }
    ensures { result ≡ first_wrong (size_in sizes.now) found blocks.now }
{
    let mut found = found;
    for i in 0..blocks.len() {
        found = one_more(sizes, found, blocks[i]);
    }
    found
}

// Whether the same references stand in both.
fn is_same(a: &[BlockRef], b: &[BlockRef]) -> bool
    ensures { IsTrue result → a.now ≡ b.now }
{
    if a.len() != b.len() {
        return false;
    }
    for i in 0..a.len() {
        if a[i].id != b[i].id || a[i].len != b[i].len {
            return false;
        }
    }
    true
}

// Whether the row at a place, if one is there, has these references.
fn has_at(rows: &[Row], place: usize, blocks: &[BlockRef]) -> bool
    ensures { IsTrue result → Contains rows.now blocks.now }
{
    place < rows.len() && is_same(rows[place].as_slice(), blocks)
}

// Whether the row at the place `front`, or the one at the place `back` from the end, has these references.
fn has_row(rows: &[Row], front: usize, back: usize, blocks: &[BlockRef]) -> bool
    ensures { IsTrue result → Contains rows.now blocks.now }
{
    if has_at(rows, front, blocks) {
        return true;
    }
    back <= rows.len() && has_at(rows, rows.len() - back, blocks)
}

// The search goes on through a row, unless a row that was searched has the same references.
fn wrong_row(
    sizes: &Sizes,
    found: Option<BlockRef>,
    blocks: &[BlockRef],
    olds: &[Row],
    front: usize,
    back: usize,
) -> Option<BlockRef>
    requires blocks { All (λ b. IsBlock b.id b.len) blocks.now }
    requires searched { AreSearched (size_in sizes.now) found (flat olds.now) }
    ensures { result ≡ first_wrong (size_in sizes.now) found blocks.now }
{
    if has_row(olds, front, back, blocks) {
        return found;
    }
    wrong_among(sizes, found, blocks)
}

// The search goes on through rows, after those of an old clip.
fn wrong_rows(
    sizes: &Sizes,
    found: Option<BlockRef>,
    rows: &[Row],
    olds: &[Row],
) -> Option<BlockRef>
    requires blocks { All (λ b. IsBlock b.id b.len) (flat rows.now) }
    requires searched { AreSearched (size_in sizes.now) found (flat olds.now) }
    ensures { result ≡ first_wrong (size_in sizes.now) found (flat rows.now) }
{
    let mut found = found;
    let len = rows.len();
    for i in 0..len {
        found = wrong_row(sizes, found, rows[i].as_slice(), olds, i, len - i);
    }
    found
}

// The rows of the clip at a place, or none.
fn rows_at(clips: &[Clip], place: usize) -> &[Row]
    ensures { (sizes : ℕ → ℕ) (found : Option BlockRef) → AreSearched sizes found (layout_blocks clips.now)
        → AreSearched sizes found (flat result.now) }
{
    if place < clips.len() {
        clips[place].blocks.rows()
    } else {
        &[]
    }
}

// The search goes on through clips, after the old ones.
fn wrong_clips(
    sizes: &Sizes,
    found: Option<BlockRef>,
    clips: &[Clip],
    olds: &[Clip],
) -> Option<BlockRef>
    requires blocks { All (λ b. IsBlock b.id b.len) (layout_blocks clips.now) }
    requires searched { AreSearched (size_in sizes.now) found (layout_blocks olds.now) }
    ensures { result ≡ first_wrong (size_in sizes.now) found (layout_blocks clips.now) }
{
    let mut found = found;
    for i in 0..clips.len() {
        found = wrong_rows(sizes, found, clips[i].blocks.rows(), rows_at(olds, i));
    }
    found
}

// The search goes on through a layout, after that of the old track. Layouts of one number are the same.
fn wrong_layout(
    sizes: &Sizes,
    found: Option<BlockRef>,
    old: &Track,
    track: &Track,
) -> Option<BlockRef>
    requires blocks { All (λ b. IsBlock b.id b.len) (layout_blocks track.now.layout) }
    requires numbered { Agree track.now old.now }
    requires searched { AreSearched (size_in sizes.now) found (layout_blocks old.now.layout) }
    ensures { result ≡ first_wrong (size_in sizes.now) found (layout_blocks track.now.layout) }
{
    if old.number == track.number {
        return found;
    }
    wrong_clips(sizes, found, track.layout.as_slice(), old.layout.as_slice())
}

// The search goes on through a track. The point before has that of the same id at the place `first` mostly.
fn wrong_track(
    sizes: &Sizes,
    found: Option<BlockRef>,
    before: &Point,
    first: usize,
    track: &Track,
) -> Option<BlockRef>
    requires blocks { All (λ b. IsBlock b.id b.len) (layout_blocks track.now.layout) }
    requires numbered { AgreesWith track.now before.now }
    requires searched { AreSearched (size_in sizes.now) found (point_blocks before.now) }
    ensures { result ≡ first_wrong (size_in sizes.now) found (layout_blocks track.now.layout) }
{
    let Some(i) = before.place_of(track.id, first) else {
        return wrong_clips(sizes, found, track.layout.as_slice(), &[]);
    };
    wrong_layout(sizes, found, before.track_at(i), track)
}

// The search goes on through a point, after the one before it.
fn wrong_point(
    sizes: &Sizes,
    found: Option<BlockRef>,
    before: &Point,
    point: &Point,
) -> Option<BlockRef>
    requires blocks { All (λ b. IsBlock b.id b.len) (point_blocks point.now) }
    requires numbered { AllByRecursion (λ t. AgreesWith t before.now) point.now }
    requires searched { AreSearched (size_in sizes.now) found (point_blocks before.now) }
    ensures { result ≡ first_wrong (size_in sizes.now) found (point_blocks point.now) }
{
    let mut found = found;
    for i in 0..point.len() {
        found = wrong_track(sizes, found, before, i, point.track_at(i));
    }
    found
}

// The search begins with a point.
fn wrong_first(alloc: Global, sizes: &Sizes, point: &Point) -> Option<BlockRef>
    requires { All (λ b. IsBlock b.id b.len) (point_blocks point.now) }
    ensures { result ≡ first_wrong (size_in sizes.now) None (point_blocks point.now) }
{
    let none = Point::new(alloc);
    wrong_point(sizes, None, &none, point)
}

/// The first block that a point names whose file has not its size. A layout that a point shares with the one before it
/// is searched once, and so is a row of references that stands at its place in both. It takes no memory.
pub(crate) fn wrong_block(
    alloc: Global,
    history: &History<Point>,
    sizes: &Sizes,
) -> Option<BlockRef>
    requires blocks { All (λ p. All (λ b. IsBlock b.id b.len) (point_blocks p.0)) history.now.history.points }
    requires numbered { AreNumbered (history_tracks history.now.history) }
    ensures { result ≡ first_wrong (size_in sizes.now) None (history_blocks history.now.history) }
{
    let len = history.len();
    let mut found = wrong_first(alloc, sizes, history.point(0));
    for i in 1..len {
        found = wrong_point(sizes, found, history.point(i - 1), history.point(i));
    }
    found
}
