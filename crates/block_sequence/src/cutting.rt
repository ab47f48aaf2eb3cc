// Pieces are cut off in front.
ghost use Rattle.std.specs.Prelude.{◌≡◌, ℕ, List, ◌+◌, ◌≤◌, ◌<◌, ◌^◌, ◌++◌, drop, IfOk};
ghost use Rattle.pcm_base.specs.declared.block.BlockRef.{BlockRef};
ghost use Rattle.pcm_base.specs.Pieces.{Sources, all_samples, total, AllValid, AllFit};
ghost use Rattle.block_sequence.specs.Origins.{AllFrom};
ghost use Rattle.block_sequence.specs.Places.{samples_from, total_from};

use super::parts::{part_of, piece_len};
use pcm_base::Piece;
use std::alloc::{AllocError, Global};

/// A place within some pieces: this many samples after the start of one.
#[derive(Clone, Copy)]
pub struct Place {
    pub at: usize,
    pub skip: u64,
}

/// What was cut off, and where the rest begins.
#[derive(Drop)]
pub struct Cut {
    pub pieces: Vec<Piece>,
    pub rest: Place,
}

/// The next `n` samples from a place on. The place moves on, so that cuts one after another pass each piece once.
pub fn cut_off(alloc: Global, pieces: &[Piece], place: Place, n: u64) -> Result<Cut, AllocError>
    requires valid { AllValid pieces.now }
    requires small { total pieces.now < 2 ^ 64 }
    requires within { place.skip + n ≤ total (drop place.at pieces.now) }
    ensures valid { IfOk result (λ c. AllValid c.pieces.items) }
    ensures fit { IfOk result (λ c. (m : ℕ) → AllFit m pieces.now → AllFit m c.pieces.items) }
    ensures from { IfOk result (λ c. (blocks : List BlockRef) (count : ℕ) → AllFrom blocks count pieces.now
        → AllFrom blocks count c.pieces.items) }
    ensures total { IfOk result (λ c. total c.pieces.items ≡ n) }
    ensures within { IfOk result (λ c. c.rest.skip ≤ total (drop c.rest.at pieces.now)) }
    ensures rest { IfOk result
        (λ c. total_from pieces.now c.rest.at c.rest.skip + n ≡ total_from pieces.now place.at place.skip) }
    ensures samples { IfOk result (λ c. (src : Sources) →
        all_samples src c.pieces.items ++ samples_from src pieces.now c.rest.at c.rest.skip
        ≡ samples_from src pieces.now place.at place.skip) }
{
    let mut out = Vec::new(alloc);
    let mut at = place.at;
    let mut skip = place.skip;
    let mut left = n;
    while left > 0 {
        let piece = pieces[at];
        let len = piece_len(piece);
        if len <= skip {
            skip -= len;
            at += 1;
        } else {
            let size = left.min(len - skip);
            out.push(part_of(piece, skip, size))?;
            skip += size;
            left -= size;
        }
    }
    Ok(Cut {
        pieces: out,
        rest: Place { at, skip },
    })
}
