// The project as it grows by a track for each channel of a sound.
ghost use Rattle.std.specs.Prelude.{◌≡◌, ◌+◌, ◌≤◌, ◌<◌, ◌^◌, IfErr, IfOk, OnOk};
ghost use Rattle.std.specs.Prelude.{None, [], ◌∷◌, ◌++◌, length, map};
ghost use Rattle.std.specs.List.{AllByRecursion};
ghost use Rattle.pcm_base.specs.declared.limits.TheConstants.{COUNTER_LIMIT, MAX_TRACKS};
ghost use Rattle.pcm_base.specs.declared.refusal.Refusal.TheVariants as refusal;
ghost use Rattle.pcm_base.specs.Refusals.{length_limit};
ghost use Rattle.edit_ops.specs.Plans.{AnswersTest};
ghost use Rattle.project_state.specs.Tracks.{Adds, AllBelow};
ghost use Rattle.editor_imports.specs.Imports.{AddsChannel, AllFitBehind, FitsBehind, IsChannelPlan, block_behind};
ghost use Rattle.editor_imports.specs.Imports.{piece_behind, track_with};

use block_sequence::Pieces;
use clip_track::{Kept, Layout};
use edit_ops::{NewBlock, NewBlocks, Plan, Planner, insert};
use editor_imports::Growing;
use editor_state::Planned;
use pcm_base::{NoMemory, Piece, Refusal, Side, UNITY_GAIN};
use project_state::{Point, Track};
use std::alloc::Global;

// A piece of a channel's samples, as a piece of all samples, where this many stand before the channel's.
fn moved_piece(piece: Piece, skip: u64) -> Piece
    requires { FitsBehind skip piece }
    ensures { result ≡ piece_behind skip piece }
{
    match piece {
        Piece::Given { from, to } => Piece::Given {
            from: from + skip,
            to: to + skip,
        },
        Piece::Old { .. } | Piece::Scaled { .. } | Piece::Zero { .. } => piece,
    }
}

// The same of all pieces of a block.
fn moved_pieces(alloc: Global, pieces: &[Piece], skip: u64) -> Result<Vec<Piece>, NoMemory>
    requires { AllByRecursion (FitsBehind skip) pieces.now }
    ensures { IfOk result (λ v. v.items ≡ map (piece_behind skip) pieces.now) }
{
    let mut out = Vec::with_capacity(alloc, pieces.len())?;
    for piece in pieces {
        out.push(moved_piece(*piece, skip))?;
    }
    Ok(out)
}

// The same of blocks.
fn moved_blocks(alloc: Global, blocks: &[NewBlock], skip: u64) -> Result<Vec<NewBlock>, NoMemory>
    requires { AllFitBehind skip blocks.now }
    ensures { IfOk result (λ v. v.items ≡ map (block_behind skip) blocks.now) }
{
    let mut out = Vec::with_capacity(alloc, blocks.len())?;
    for block in blocks {
        let pieces = moved_pieces(alloc, block.pieces.as_slice(), skip)?;
        out.push(NewBlock {
            id: block.id,
            len: block.len,
            pieces: Pieces::new(pieces),
        })?;
    }
    Ok(out)
}

// The plan of a new track of this many of the samples that are brought, from a place among them on.
fn plan_channel(planner: Planner, from: u64, count: u64) -> Result<Plan, Refusal>
    requires few { from + count ≤ COUNTER_LIMIT }
    ensures plan { IfOk result (IsChannelPlan from count planner.block_size planner.next) }
    ensures tests { AnswersTest (length_limit (count ∷ [])) result }
{
    let plan = insert(planner, &Layout::new(planner.alloc), 0, count)?;
    let Plan {
        layout,
        makes,
        next: after,
        kept,
    } = plan;
    let makes = moved_blocks(planner.alloc, makes.as_slice(), from)?;
    Ok(Plan {
        layout,
        makes: NewBlocks::new(makes),
        next: after,
        kept,
    })
}

// Adds a new track with these clips, which have this number, after the others.
fn add_track(point: &mut Point, id: u64, number: u64, layout: Layout) -> Result<(), Refusal>
    requires { AllBelow id point.old }
    ensures { Adds point.old point.new (track_with id number layout) result }
{
    point.add(Track {
        id,
        gain: UNITY_GAIN,
        side: Side::Both,
        mute: false,
        number,
        layout,
    })
}

// Puts blocks after others, each of them moved and none copied.
fn add_blocks(all: &mut Vec<NewBlock>, more: NewBlocks) -> Result<(), NoMemory>
    ensures { OnOk result (all.new.items ≡ all.old.items ++ more) }
{
    for block in more.into_vec() {
        all.push(block)?;
    }
    Ok(())
}

// Adds a track with the next of the samples that are brought, this many.
pub(crate) fn add_channel(
    alloc: Global,
    growing: &mut Growing,
    id: u64,
    count: u64,
    block_size: u32,
) -> Result<(), Refusal>
    requires some { 0 < block_size }
    requires room { growing.old.next < 2 ^ 63 }
    requires number { growing.old.number < 2 ^ 63 }
    requires few { growing.old.brought + count ≤ COUNTER_LIMIT }
    requires below { AllBelow id growing.old.point }
    requires place { length growing.old.point < MAX_TRACKS }
    requires short { length_limit (count ∷ []) ≡ None }
    ensures added { OnOk result (AddsChannel block_size id count growing.old growing.new) }
    ensures memory { IfErr result (λ e. e ≡ refusal.NoMemory) }
{
    let planner = Planner {
        alloc,
        block_size,
        next: growing.next,
    };
    let plan = plan_channel(planner, growing.brought, count)?;
    let Plan {
        layout,
        makes,
        next,
        ..
    } = plan;
    add_track(&mut growing.point, id, growing.number, layout)?;
    add_blocks(&mut growing.makes, makes)?;
    growing.next = next;
    growing.brought += count;
    growing.number += 1;
    Ok(())
}

// The plan of the project that has grown by this many tracks, each with a layout of its own.
pub(crate) fn planned_of(growing: Growing, tracks: u64) -> Planned
    ensures { (result.point ≡ growing.point) × (result.makes ≡ growing.makes.items) × (result.next ≡ growing.next)
        × (result.tracks ≡ tracks) × (result.layouts ≡ tracks) × (result.clip ≡ None)
        × (result.kept ≡ record { front = 0; back = 0 }) }
{
    let Growing {
        point,
        makes,
        next,
        ..
    } = growing;
    Planned {
        point,
        makes: NewBlocks::new(makes),
        next,
        tracks,
        layouts: tracks,
        clip: None,
        kept: Kept { front: 0, back: 0 },
    }
}
