// What is left of a track from a place on.
ghost use Rattle.std.specs.Prelude.{◌≡◌, ◌⊎◌, ◌≤◌, ◌<◌, ℕ, length, slice_index_or, List, []};
ghost use Rattle.clip_track.specs.declared.clips.Clip.{Clip as clip_of};
ghost use Rattle.clip_track.specs.Clips.{layout_blocks, AreClips};
ghost use Rattle.sample_block.specs.Sources.{AllNamed};
ghost use Rattle.cell_reader.specs.Kept.{left_blocks};
ghost use Rattle.cell_reader.specs.Rests.{EndsBehind, IsPast, IsRest, IsRestOf};

use block_sequence::Row;
use clip_track::{Clip, Layout};
use pcm_base::BlockRef;

/// The rest of a clip, and the clips after it. What stands before is passed.
#[derive(Clone, Copy)]
pub struct TrackRest<'a> {
    /// Where the rest begins.
    pub at: u64,
    /// Where the next samples stand.
    pub start: u64,
    /// Where the row of those ends.
    pub row_end: u64,
    /// Where the clip ends.
    pub end: u64,
    /// The blocks of a row of the clip that are left, from `start` to `row_end`.
    pub blocks: &'a [BlockRef],
    /// The rows after it, up to `end`.
    pub rows: &'a [Row],
    /// The clips after it.
    pub clips: &'a [Clip],
}

/// No track at all.
pub fn no_rest<'a>() -> TrackRest<'a>
    ensures { (from : ℕ) → IsRestOf from [] result }
{
    TrackRest {
        at: 0,
        start: 0,
        row_end: 0,
        end: 0,
        blocks: &[],
        rows: &[],
        clips: &[],
    }
}

/// How many clips of a layout start by a place.
fn started(clips: &[Clip], from: u64) -> usize
    requires { AreClips 0 clips.now }
    ensures bound { result ≤ length clips.now }
    ensures started { (k : ℕ) (d : clip_of) → k < result → (slice_index_or clips.now k d).start ≤ from }
{
    clips.partition_point(|clip| clip.start <= from)
}

/// The last clip that starts by a place, or the first of all, and the clips after it.
fn near<'a>(layout: &'a Layout, from: u64) -> TrackRest<'a>
    requires named { AllNamed (layout_blocks layout.now) }
    ensures { IsRestOf from layout.now result }
{
    let clips = layout.as_slice();
    let first = started(clips, from).saturating_sub(1);
    match &clips[first..] {
        [clip, more @ ..] => TrackRest {
            at: from.min(clip.start),
            start: clip.start,
            row_end: clip.start,
            end: clip.start + clip.blocks.len(),
            blocks: &[],
            rows: clip.blocks.rows(),
            clips: more,
        },
        [] => no_rest(),
    }
}

/// The same without the clips that end by a place.
fn pass_clips<'a>(rest: TrackRest<'a>, from: u64) -> TrackRest<'a>
    requires rest { IsRest rest }
    ensures rest { IsRest result }
    ensures same { (cs : List clip_of) → IsRestOf from cs rest.entry → IsRestOf from cs result }
    ensures past { result.clips.now ≡ [] ⊎ (from < result.end) }
{
    let mut left = rest;
    'clips: while left.end <= from {
        match left.clips {
            [clip, more @ ..] => {
                left = TrackRest {
                    at: left.end,
                    start: clip.start,
                    row_end: clip.start,
                    end: clip.start + clip.blocks.len(),
                    blocks: &[],
                    rows: clip.blocks.rows(),
                    clips: more,
                };
            }
            [] => return left,
        }
    }
    left
}

/// The same without the rows that end by a place.
fn pass_rows<'a>(rest: TrackRest<'a>, from: u64) -> TrackRest<'a>
    requires rest { IsRest rest }
    ensures rest { IsRest result }
    ensures same { (cs : List clip_of) → IsRestOf from cs rest.entry → IsRestOf from cs result }
    ensures past { result.rows.now ≡ [] ⊎ (from < result.row_end) }
    ensures end { result.end ≡ rest.entry.end }
    ensures clips { result.clips.now ≡ rest.entry.clips.now }
{
    let mut left = rest;
    'rows: while left.row_end <= from {
        match left.rows {
            [row, more @ ..] => {
                left = TrackRest {
                    at: left.row_end,
                    start: left.row_end,
                    row_end: left.row_end + row.len(),
                    end: left.end,
                    blocks: row.as_slice(),
                    rows: more,
                    clips: left.clips,
                };
            }
            [] => return left,
        }
    }
    left
}

/// The same without the blocks of the row that end by a place.
fn pass_blocks<'a>(rest: TrackRest<'a>, from: u64) -> TrackRest<'a>
    requires rest { IsRest rest }
    requires past { rest.rows.now ≡ [] ⊎ (from < rest.row_end) }
    ensures rest { IsRest result }
    ensures same { (cs : List clip_of) → IsRestOf from cs rest.entry → IsRestOf from cs result }
    ensures past { EndsBehind from result.start (left_blocks result) }
    ensures end { result.end ≡ rest.entry.end }
    ensures clips { result.clips.now ≡ rest.entry.clips.now }
{
    let mut left = rest;
    'rows: while let [block, more @ ..] = left.blocks {
        let end = left.start + block.len as u64;
        if from < end {
            return left;
        }
        left = TrackRest {
            at: end,
            start: end,
            row_end: left.row_end,
            end: left.end,
            blocks: more,
            rows: left.rows,
            clips: left.clips,
        };
    }
    left
}

/// What is left of a track without what ends by a place. Clips, rows and blocks are passed one by one.
pub fn pass<'a>(rest: TrackRest<'a>, from: u64) -> TrackRest<'a>
    requires rest { IsRest rest }
    ensures rest { IsRest result }
    ensures same { (cs : List clip_of) → IsRestOf from cs rest.entry → IsRestOf from cs result }
    ensures past { IsPast from result }
{
    pass_blocks(pass_rows(pass_clips(rest, from), from), from)
}

/// What is left of a track from a place on. The clip of the place is found by halves, and the rows in it and the
/// blocks of one that end by the place are passed one by one.
pub fn rest_at(layout: &Layout, from: u64) -> TrackRest<'_>
    requires named { AllNamed (layout_blocks layout.now) }
    ensures rest { IsRestOf from layout.now result }
    ensures past { IsPast from result }
{
    pass(near(layout, from), from)
}
