// A studio of what opening a disk finds.
ghost use Rattle.std.specs.Prelude.{◌≡◌, IfOk, IfErr};
ghost use Rattle.editor_core.specs.Core.{core_of};
ghost use Rattle.editor_core.specs.Parts.{AreParts, HasParts, assembled};
ghost use Rattle.editor_state.specs.Studios.{IsHeld, IsStudio};

use super::buffers::BlockBuffers;
use super::studio::Studio;
use block_cache::{BlockReader, Cache};
use disk_model::Store;
use layout_uses::Tally;
use project_state::Point;
use std::alloc::Global;
use undo_history::History;

/// What a studio is made of: the format of its project, its history, how often each layout is used and each block is
/// named, its counters, and its journal.
#[derive(Drop)]
pub struct Parts {
    /// How many frames there are in a second.
    pub rate: u32,
    /// How many pages of samples, and of frames, may be kept.
    pub pages: u64,
    /// The most samples of a block.
    pub block_size: u32,
    pub history: History<Point>,
    pub tally: Tally,
    pub next_block: u64,
    pub next_track: u64,
    pub next_layout: u64,
    pub commit_number: u64,
    /// The file of the journal, 0 or 1, and the version and generation that its header has.
    pub file: u64,
    pub version: u32,
    pub generation: u64,
    pub journal_end: u64,
}

impl<S: Store> Studio<S> {
    /// The studio of these parts on a store. Nothing was copied, there are no pins, and the next pin is 1. Where there
    /// is no memory the store comes back.
    pub fn assemble(alloc: Global, store: S, parts: Parts) -> Result<Studio<S>, S>
        requires { AreParts parts }
        ensures studio { IfOk result (λ s. IsStudio S.Store (core_of s)) }
        ensures held { HasParts S.Store store parts → IfOk result (λ s. IsHeld S.Store (core_of s)) }
        ensures fields { IfOk result (λ s. core_of s ≡ assembled store parts) }
        ensures err { IfErr result (λ back. back ≡ store) }
    {
        let _points = parts.history.len();
        let Ok(cache) = Cache::new(alloc, parts.pages) else {
            return Err(store);
        };
        let Ok(buffers) = BlockBuffers::new(alloc, parts.block_size) else {
            return Err(store);
        };
        let reader = BlockReader { store, cache };
        Ok(Studio {
            reader,
            history: parts.history,
            clipboard: None,
            pins: Vec::new(alloc),
            tally: parts.tally,
            next_block: parts.next_block,
            next_track: parts.next_track,
            next_pin: 1,
            next_layout: parts.next_layout,
            commit_number: parts.commit_number,
            file: parts.file,
            version: parts.version,
            generation: parts.generation,
            journal_end: parts.journal_end,
            stopped: None,
            rate: parts.rate,
            body: Vec::new(alloc),
            row: Vec::new(alloc),
            buffers,
        })
    }

    /// The number of the last commit.
    pub fn commit_number(&self) -> u64
        ensures { result ≡ (core_of self.now).commit_number }
    {
        self.commit_number
    }

    /// The id that the next new track gets.
    pub fn next_track(&self) -> u64
        ensures { result ≡ (core_of self.now).next_track }
    {
        self.next_track
    }

    /// The count of the disk's faults at which a change that failed stopped it, none while it goes on.
    pub fn stopped(&self) -> Option<u64>
        ensures { result ≡ (core_of self.now).stopped }
    {
        self.stopped
    }

    /// Gives the store back.
    pub fn into_store(self) -> S
        ensures { result ≡ (core_of self).store }
    {
        let Studio { reader, .. } = self;
        reader.into_store()
    }
}
