// Where recorded pieces go.
ghost use Rattle.std.specs.Prelude.{◌≡◌, ◌<◌, ◌≤◌, ℕ, ℤ, Bool, false, List, length, Option, is_err, IfOk, IfErr, OnOk};
ghost use Rattle.pcm_base.specs.declared.refusal.Refusal.{Refusal};
ghost use Rattle.edit_ports.specs.Answers.{AreTaken, first_refusal, samples_of};

use pcm_base::{Chunk, Said};
use std::alloc::Global;
use std::sync::Wait;

/// How many chunks were taken, one at least, and the number of the last. The others have the numbers before it.
#[derive(Clone, Copy, Debug, PartialEq, Eq)]
pub struct Taken {
    pub count: usize,
    pub last: u64,
}

/// What takes the pieces of a recording.
pub trait PieceTaker {
    // The samples of each piece that was taken, with the number that was answered, the first first.
    ghost pieces: { Self → List (List ℤ × ℕ) };

    // The first refusal that was answered, or none.
    ghost refused: { Self → Option Refusal };

    // What has become of the first after some offers, as the taker tells it. Where the Bool is true the last of them
    // was refused, and no other was. Of a taker after a refusal no offer tells more.
    ghost follows: { Self → Bool → Self → Type 0 };

    /// Takes the samples of the first of these chunks as the next pieces, as many of them as it takes at once. It
    /// answers how many and the number of the last. Or it refuses the first chunk and takes nothing. It may wait for a
    /// turn, and want of memory is a refusal.
    fn take_pieces<R: Wait>(&mut self, rt: &R, alloc: Global, chunks: &[Chunk]) -> Said<Taken>
        requires some { 0 < length chunks.now }
        ensures taken { IfOk result.what (AreTaken (pieces self.old) (samples_of chunks.now) (pieces self.new)) }
        ensures unrefused { OnOk result.what (refused self.new ≡ refused self.old) }
        ensures left { IfErr result.what (λ reason. pieces self.new ≡ pieces self.old) }
        ensures refusal { IfErr result.what (λ reason. refused self.new ≡ first_refusal (refused self.old) reason) }
        ensures goes { (first : Self) → follows first false self.old → follows first (is_err result.what) self.new };
}
