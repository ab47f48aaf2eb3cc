// What is reported of a studio.
ghost use Rattle.editor_core.specs.Core.{core_of};
ghost use Rattle.editor_core.specs.Facts.{AreFactsOf};
ghost use Rattle.editor_state.specs.Studios.{IsStudio};

use super::studio::Studio;
use disk_model::Store;

/// What is reported of a studio beside its commit number.
#[derive(Clone, Copy, Debug, PartialEq, Eq)]
pub struct Facts {
    /// How many frames there are in a second.
    pub rate: u32,
    /// How many samples a block has at most.
    pub block_size: u32,
    /// How many points are kept at most.
    pub depth: u32,
    /// How many points there are.
    pub points: u64,
    /// The place of the current point, the oldest at 0.
    pub cursor: u64,
    /// How many blocks a point, a pin or the clipboard names, each counted once.
    pub blocks: u64,
}

impl<S: Store> Studio<S> {
    /// The format, the history and how many blocks are named. It asks nothing of the disk, and serves a stopped studio
    /// too.
    pub fn facts(&self) -> Facts
        requires { IsStudio S.Store (core_of self.now) }
        ensures { AreFactsOf (core_of self.now) result }
    {
        Facts {
            rate: self.rate,
            block_size: self.buffers.block_size(),
            depth: self.history.depth(),
            points: self.history.len() as u64,
            cursor: self.history.cursor() as u64,
            blocks: self.tally.ledger.named_len(),
        }
    }
}
