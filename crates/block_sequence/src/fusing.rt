// How pieces of sound are laid out in blocks.
ghost use Rattle.std.specs.Prelude.{◌≡◌, ℕ, ◌+◌, ◌*◌, ◌≤◌, ◌<◌, ◌++◌, length, drop, take, sum, slice_index};
ghost use Rattle.std.specs.Prelude.{slice_index_or, ◌&&◌, not, true, filter, List, [], ◌∷◌, IfOk, OnOk, IsTrue};
ghost use Rattle.pcm_base.specs.declared.limits.TheConstants.{MAX_CELLS};
ghost use Rattle.pcm_base.specs.Blocks.{IsHalfFull};
ghost use Rattle.pcm_base.specs.Pieces.{Sources, whole, all_samples, total, IsValid, AllValid, AllFit};
ghost use Rattle.block_sequence.specs.Fuse as layout;
ghost use Rattle.block_sequence.specs.Laying as laying;
ghost use Rattle.block_sequence.specs.Room.{clip_room};
ghost use Rattle.pcm_base.specs.declared.block.BlockRef.{BlockRef};
ghost use Rattle.block_sequence.specs.Origins.{AllFrom, AllLaidFrom};
ghost use Rattle.block_sequence.specs.Laid.{no_piece, parts, sizes, all_laid_samples, AllMade};

use super::cutting::{Place, cut_off};
use super::parts::piece_len;
use super::types::{Laid, Pieces};
use pcm_base::{BlockRef, NoMemory, Piece};
use std::alloc::{AllocError, Global};

#[tactic(auto, unfolding(crate::specs::Fuse::is_full))]
fn is_full(piece: Piece, m: u32) -> bool
    requires { IsValid piece }
    ensures { result ≡ layout.is_full m piece }
{
    match piece {
        Piece::Old { block, from, to } => {
            from == 0 && to == block.len && m as u64 <= 2 * to as u64 && to <= m
        }
        _ => false,
    }
}

#[tactic(auto, unfolding(crate::specs::Fuse::is_short))]
fn is_short(run: u64, m: u32) -> bool
    requires { run ≤ MAX_CELLS }
    ensures { result ≡ layout.is_short m run }
{
    0 < run && 2 * run < m as u64
}

#[tactic(auto, using(crate::proofs::Rest::valid_at, crate::proofs::Rest::total_rest))]
/// The samples from a place on up to the next full piece.
fn front(pieces: &[Piece], at: usize, m: u32) -> u64
    requires valid { AllValid pieces.now }
    requires few { total pieces.now ≤ MAX_CELLS }
    requires within { at ≤ length pieces.now }
    ensures value { result ≡ layout.front m (drop at pieces.now) }
    ensures few { result ≤ MAX_CELLS }
{
    let mut i = at;
    let mut sum = 0;
    while i < pieces.len() && !is_full(pieces[i], m) {
        sum += piece_len(pieces[i]);
        i += 1;
    }
    sum
}

#[tactic(auto, unfolding(crate::specs::Fuse::block_sizes))]
fn count_blocks(run: u64, m: u32) -> u64
    requires { 0 < m }
    ensures { result ≡ length (layout.block_sizes m run) }
{
    run.div_ceil(m as u64)
}

/// The size of block k of a run.
fn block_size(run: u64, m: u32, k: u64) -> u32
    requires some { 0 < m }
    requires within { k < length (layout.block_sizes m run) }
    requires few { run ≤ MAX_CELLS }
    ensures { result ≡ slice_index (layout.block_sizes m run) k }
{
    let n = run.div_ceil(m as u64);
    let least = run / n;
    if k < run % n {
        (least + 1) as u32
    } else {
        least as u32
    }
}

/// A run of pieces is cut into new blocks.
fn lay_run(
    alloc: Global,
    pieces: &[Piece],
    run: u64,
    m: u32,
    out: &mut Vec<Laid>,
) -> Result<(), AllocError>
    requires some { 0 < m }
    requires valid { AllValid pieces.now }
    requires fit { AllFit m pieces.now }
    requires few { run ≤ MAX_CELLS }
    requires run { total pieces.now ≡ run }
    requires made { AllMade m out.old.items }
    ensures made { OnOk result (AllMade m out.new.items) }
    ensures parts { OnOk result (parts out.new.items ≡ parts out.old.items ++ laying.run_parts m run) }
    ensures from { OnOk result ((blocks : List BlockRef) (count : ℕ) →
        AllFrom blocks count pieces.now → AllLaidFrom blocks count out.old.items
        → AllLaidFrom blocks count out.new.items) }
    ensures samples { OnOk result ((src : Sources)
        → all_laid_samples src out.new.items ≡ all_laid_samples src out.old.items ++ all_samples src pieces.now) }
{
    let mut place = Place { at: 0, skip: 0 };
    for k in 0..count_blocks(run, m) {
        let len = block_size(run, m, k);
        let cut = cut_off(alloc, pieces, place, len as u64)?;
        place = cut.rest;
        let pieces = Pieces::new(cut.pieces);
        out.push(Laid::Make { pieces, len })?;
    }
    Ok(())
}

/// Whether a run that may stand before piece i ends there.
#[tactic(auto, using(crate::proofs::Rest::valid_at))]
fn ends_run(pieces: &[Piece], i: usize, first: bool, m: u32) -> bool
    requires valid { AllValid pieces.now }
    requires few { total pieces.now ≤ MAX_CELLS }
    requires within { i < length pieces.now }
    ensures { result ≡ (layout.is_full m (slice_index_or pieces.now i no_piece) && not first && not
        (layout.is_short m (layout.front m (drop (i + 1) pieces.now)))) }
{
    is_full(pieces[i], m) && !first && !is_short(front(pieces, i + 1, m), m)
}

/// The block of a piece that is a whole one.
fn block_of(piece: Piece) -> BlockRef
    requires { layout.is_whole piece ≡ true }
    ensures { piece ≡ whole result }
{
    match piece {
        Piece::Old { block, .. } => block,
        _ => unreachable!(),
    }
}

/// From one piece up to another.
#[derive(Clone, Copy)]
struct Span {
    start: usize,
    end: usize,
}

/// The pieces from one place to another are a run.
fn lay_between(
    alloc: Global,
    pieces: &[Piece],
    span: Span,
    run: u64,
    m: u32,
    out: &mut Vec<Laid>,
) -> Result<(), AllocError>
    requires some { 0 < m }
    requires valid { AllValid pieces.now }
    requires fit { AllFit m pieces.now }
    requires few { total pieces.now ≤ MAX_CELLS }
    requires rising { span.start ≤ span.end }
    requires within { span.end ≤ length pieces.now }
    requires run { total (drop span.start pieces.now) ≡ run + total (drop span.end pieces.now) }
    requires made { AllMade m out.old.items }
    ensures made { OnOk result (AllMade m out.new.items) }
    ensures parts { OnOk result (parts out.new.items ≡ parts out.old.items ++ laying.run_parts m run) }
    ensures from { OnOk result ((blocks : List BlockRef) (count : ℕ) →
        AllFrom blocks count pieces.now → AllLaidFrom blocks count out.old.items
        → AllLaidFrom blocks count out.new.items) }
    ensures samples { OnOk result ((src : Sources) →
        all_laid_samples src out.new.items ++ all_samples src (drop span.end pieces.now)
        ≡ all_laid_samples src out.old.items ++ all_samples src (drop span.start pieces.now)) }
{
    lay_run(alloc, &pieces[span.start..span.end], run, m, out)
}

/// Whether a run that begins the clip still stands open after a piece.
fn is_still_first(first: bool, piece: Piece, m: u32) -> bool
    requires { IsValid piece }
    ensures { result ≡ (first && not (layout.is_full m piece)) }
{
    first && !is_full(piece, m)
}

#[tactic(auto, using(crate::proofs::Rest::valid_at, crate::proofs::Rest::total_rest))]
/// Pieces without empty ones, laid out as runs and kept blocks.
fn lay_clip(alloc: Global, pieces: &[Piece], m: u32) -> Result<Vec<Laid>, AllocError>
    requires some { 0 < m }
    requires valid { AllValid pieces.now }
    requires fit { AllFit m pieces.now }
    requires few { total pieces.now ≤ MAX_CELLS }
    ensures made { IfOk result (λ v. AllMade m v.items) }
    ensures parts { IfOk result (λ v. parts v.items ≡ laying.laid_clip m pieces.now) }
    ensures from { IfOk result (λ v. (blocks : List BlockRef) (count : ℕ) → AllFrom blocks count pieces.now
        → AllLaidFrom blocks count v.items) }
    ensures samples { IfOk result (λ v. (src : Sources) → all_laid_samples src v.items ≡ all_samples src pieces.now) }
{
    let mut out = Vec::new(alloc);
    let mut start = 0;
    let mut run = 0;
    let mut first = is_short(front(pieces, 0, m), m);
    for i in 0..pieces.len() {
        let piece = pieces[i];
        if ends_run(pieces, i, first, m) {
            lay_between(alloc, pieces, Span { start, end: i }, run, m, &mut out)?;
            let block = block_of(piece);
            out.push(Laid::Keep { block })?;
            start = i + 1;
            run = 0;
        } else {
            run += piece_len(piece);
            first = is_still_first(first, piece, m);
        }
    }
    let end = pieces.len();
    lay_between(alloc, pieces, Span { start, end }, run, m, &mut out)?;
    Ok(out)
}

#[tactic(auto, using(crate::proofs::Rest::valid_at))]
fn without_empty(alloc: Global, pieces: &[Piece]) -> Result<Vec<Piece>, AllocError>
    requires { AllValid pieces.now }
    ensures { IfOk result (λ v. v.items ≡ filter layout.is_not_empty pieces.now) }
{
    let mut out = Vec::new(alloc);
    for piece in pieces {
        if piece_len(*piece) > 0 {
            out.push(*piece)?;
        }
    }
    Ok(out)
}

fn is_whole(piece: Piece) -> bool
    ensures { result ≡ layout.is_whole piece }
{
    match piece {
        Piece::Old { block, from, to } => from == 0 && to == block.len,
        _ => false,
    }
}

fn lay_whole(alloc: Global, piece: Piece) -> Result<Vec<Laid>, AllocError>
    requires { layout.is_whole piece ≡ true }
    ensures { IfOk result (λ v. (b : BlockRef) × (v.items ≡ Laid.Keep b ∷ []) × (piece ≡ whole b)) }
{
    let mut out = Vec::new(alloc);
    let block = block_of(piece);
    out.push(Laid::Keep { block })?;
    Ok(out)
}

fn lay_apart(alloc: Global, pieces: &[Piece], m: u32) -> Result<Vec<Laid>, AllocError>
    requires some { 0 < m }
    requires valid { AllValid pieces.now }
    requires fit { AllFit m pieces.now }
    requires few { total pieces.now ≤ MAX_CELLS }
    ensures made { IfOk result (λ v. AllMade m v.items) }
    ensures parts { IfOk result (λ v. parts v.items ≡ laying.laid_apart m pieces.now) }
    ensures from { IfOk result (λ v. (blocks : List BlockRef) (count : ℕ) → AllFrom blocks count pieces.now
        → AllLaidFrom blocks count v.items) }
    ensures samples { IfOk result (λ v. (src : Sources) → all_laid_samples src v.items ≡ all_samples src pieces.now) }
{
    match pieces {
        [piece] if is_whole(*piece) => lay_whole(alloc, *piece),
        _ => lay_clip(alloc, pieces, m),
    }
}

/// How the pieces of a clip are laid out in blocks of 1 to `m` samples: which blocks are kept, and which new ones
/// are made of which pieces. Empty pieces may stand among them. `docs/LAYOUTS.md` has the rule in words.
///
/// # Errors
///
/// There is no memory for the result.
pub fn fuse(alloc: Global, pieces: &[Piece], m: u32) -> Result<Vec<Laid>, NoMemory>
    requires some { 0 < m }
    requires valid { AllValid pieces.now }
    requires fit { AllFit m pieces.now }
    requires few { total pieces.now ≤ MAX_CELLS }
    ensures rule { IfOk result (λ v. layout.IsLaidOut m (filter layout.is_not_empty pieces.now) (parts v.items)) }
    ensures from { IfOk result (λ v. (blocks : List BlockRef) (count : ℕ) → AllFrom blocks count pieces.now
        → AllLaidFrom blocks count v.items) }
    ensures samples { IfOk result (λ v. (src : Sources) → all_laid_samples src v.items ≡ all_samples src pieces.now) }
    ensures half_full { IfOk result (λ v. IsHalfFull m (sizes v.items)) }
    ensures made { IfOk result (λ v. AllMade m v.items) }
    ensures few_made { IfOk result
        (λ v. layout.AllShort m pieces.now → layout.made_count (parts v.items) ≤ 2 * layout.rough m pieces.now) }
    ensures few_samples { IfOk result (λ v. m * layout.made_count (parts v.items) ≤ clip_room m pieces.now) }
{
    let kept = without_empty(alloc, pieces)?;
    Ok(lay_apart(alloc, kept.as_slice(), m)?)
}
