// A studio on a disk in memory.
ghost use Rattle.std.specs.Prelude.{◌≤◌, IfOk};
ghost use Rattle.editor_core.specs.Core.{core_of};
ghost use Rattle.editor_state.specs.Studios.{IsStudio};

use disk_model::Store;
use editor_core::*;
use layout_uses::Tally;
use memory_disk::RamStore;
use pcm_base::Numbers;
use project_journal::create;
use project_state::Point;
use std::alloc::Global;
use std::test::*;
use undo_history::History;

// A disk without files.
pub(crate) fn disk(alloc: Global) -> Result<RamStore, Fail> {
    let fails = Numbers::new(Vec::new(alloc));
    let store = RamStore::new(alloc, 64, 65_536, 1_024, fails)?;
    Ok(store)
}

// A studio of a new project, with at most this many points. It keeps one page of samples and one of frames, so that
// pages go.
pub(crate) fn new_studio<S: Store + Drop>(
    alloc: Global,
    mut store: S,
    depth: u32,
) -> Result<Studio<S>, Fail>
    requires depth { (1 ≤ depth) × (depth ≤ 65536) }
    ensures studio { IfOk result (λ s. IsStudio S.Store (core_of s)) }
{
    if let Err(_) = create(&mut store, 8000, 4, depth) {
        return Err("no project".into());
    }
    let Ok(history) = History::new(alloc, Point::new(alloc), 0, depth) else {
        return Err("no memory".into());
    };
    let parts = Parts {
        rate: 8000,
        pages: 1,
        block_size: 4,
        history,
        tally: Tally::new(alloc),
        next_block: 16,
        next_track: 1,
        next_layout: 1,
        commit_number: 0,
        file: 0,
        version: 3,
        generation: 0,
        journal_end: 80,
    };
    match Studio::assemble(alloc, store, parts) {
        Ok(studio) => Ok(studio),
        Err(_) => Err("no memory".into()),
    }
}
