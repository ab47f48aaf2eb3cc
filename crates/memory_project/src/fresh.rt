// A fresh project in memory.
ghost use Rattle.std.specs.Prelude.{IfOk};
ghost use Rattle.editor_core.specs.Core.{core_of};
ghost use Rattle.memory_project.specs.Fresh.{CanBeMade, IsFresh};

use super::disk::{made_disk, want_of_memory};
use disk_model::Store;
use editor_core::Studio;
use editor_recovery::open_store;
use memory_disk::RamStore;
use pcm_base::NoMemory;
use std::alloc::Global;

/// A project that is to be made in memory, and how much room its disk has.
#[derive(Clone, Copy, Debug, PartialEq, Eq)]
pub struct FreshProject {
    /// In samples a second, from 1 to 4,294,967,295.
    pub rate: u32,
    /// How many samples a block has at most: even, from 4 to 262,144.
    pub block_size: u32,
    /// How many points the history keeps: from 1 to 65,536.
    pub depth: u32,
    /// How many files the disk has room for: from 1.
    pub files: usize,
    /// How many bytes: from 82.
    pub bytes: usize,
    /// How many changing calls it serves: from 10.
    pub calls: usize,
}

/// The studio of a fresh project in memory.
///
/// # Errors
///
/// There is no memory for it.
pub fn fresh_studio(alloc: Global, project: &FreshProject) -> Result<Studio<RamStore>, NoMemory>
    requires { CanBeMade project.now }
    ensures { IfOk result (λ s. IsFresh ⟦<RamStore as Store>⟧ project.now (core_of s)) }
{
    let store = made_disk(alloc, project)?;
    match open_store(alloc, store) {
        Ok(studio) => Ok(studio),
        Err((fault, _store)) => Err(want_of_memory(fault)),
    }
}
