// What takes pieces and gives frames in memory.
ghost use Rattle.std.specs.Prelude.{◌≡◌, ◌+◌, ◌^◌, ◌≤◌, ◌++◌, length, take, None};
ghost use Rattle.edit_ports.specs.Answers.{numbered_pieces, samples_of};
ghost use Rattle.sound_examples.specs.Memory.{pieces_of};

use edit_ports::{FrameGiver, PieceTaker, Taken};
use pcm_base::{Chunk, Frame, Refusal, Said};
use std::alloc::Global;
use std::sync::Wait;

/// Takes pieces, up to a number of them, as many at once as there is room for. They are numbered from 1 on.
#[derive(Drop)]
pub struct MemTaker {
    pub taken: Vec<(Chunk, u64)>,
    pub most: usize,
    pub refused: Option<Refusal>,
}

// Adds the first of the chunks, as many as there is room for, and says how many these are.
fn add(taken: &mut Vec<(Chunk, u64)>, most: usize, chunks: &[Chunk]) -> usize
    ensures few { result ≤ length chunks.now }
    ensures count { length taken.new.items ≡ length taken.old.items + result }
    ensures added { pieces_of taken.new.items ≡ pieces_of taken.old.items
        ++ numbered_pieces (length taken.old.items) (take result (samples_of chunks.now)) }
{
    let mut count = 0;
    for chunk in chunks {
        if taken.len() >= most {
            return count;
        }
        let number = taken.len() as u64 + 1;
        if taken.push((*chunk, number)).is_err() {
            return count;
        }
        count += 1;
    }
    count
}

impl PieceTaker for MemTaker {
    ghost use Rattle.std.specs.Prelude.{◌≡◌};
    ghost use Rattle.sound_examples.specs.Memory.{pieces_of};

    ghost pieces = { λ s. pieces_of s.taken.items };

    ghost refused = { λ s. s.refused };

    ghost follows = { λ first stopped now. now.most ≡ first.most };

    fn take_pieces<R: Wait>(&mut self, _rt: &R, _alloc: Global, chunks: &[Chunk]) -> Said<Taken> {
        let count = add(&mut self.taken, self.most, chunks);
        let last = self.taken.len() as u64;
        if count > 0 {
            return Said {
                at: last,
                what: Ok(Taken { count, last }),
            };
        }
        if self.refused.is_none() {
            self.refused = Some(Refusal::TrackLimit);
        }
        Said {
            at: last,
            what: Err(Refusal::TrackLimit),
        }
    }
}

/// Gives its frames, and refuses from a place on.
#[derive(Drop)]
pub struct MemGiver {
    pub items: Vec<Frame>,
    pub refuses_from: u64,
    pub refused: Option<Refusal>,
    ghost small: { length items.items ≤ 2 ^ 32 },
}

impl FrameGiver for MemGiver {
    ghost use Rattle.std.specs.Prelude.{◌≡◌};

    ghost shows = { λ s all. all ≡ s.items.items };

    ghost refused = { λ s. s.refused };

    ghost follows = { λ first reading now. now.items.items ≡ first.items.items };

    fn give_frames<R: Wait>(&mut self, _rt: &R, from: u64, out: &mut [Frame]) -> Said<usize> {
        if from >= self.refuses_from {
            if self.refused.is_none() {
                self.refused = Some(Refusal::BadRange);
            }
            return Said {
                at: 0,
                what: Err(Refusal::BadRange),
            };
        }
        if from >= self.items.len() as u64 {
            return Said { at: 0, what: Ok(0) };
        }
        let start = from as usize;
        let count = (self.items.len() - start).min(out.len());
        out[..count].copy_from_slice(&self.items[start..start + count]);
        Said {
            at: 0,
            what: Ok(count),
        }
    }
}
