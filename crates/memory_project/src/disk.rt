// A disk in memory with a project on it.
ghost use Rattle.std.specs.Prelude.{◌≡◌, IfOk};
ghost use Rattle.memory_project.specs.Fresh.{CanBeMade, IsEmpty, IsMade};

use super::fresh::FreshProject;
use disk_model::Store;
use editor_recovery::{OpenFault, calls_stay_honest, create};
use memory_disk::RamStore;
use pcm_base::{NoMemory, Numbers};
use std::alloc::Global;

// An empty disk with room for so much.
fn empty_disk(alloc: Global, project: &FreshProject) -> Result<RamStore, NoMemory>
    requires { CanBeMade project.now }
    ensures { IfOk result (λ s. IsEmpty ⟦<RamStore as Store>⟧ project.now s) }
{
    let none = Numbers::new(Vec::new(alloc));
    let store = RamStore::new(alloc, project.files, project.bytes, project.calls, none)?;
    calls_stay_honest::<RamStore>();
    Ok(store)
}

/// A fault that can be want of memory alone.
pub fn want_of_memory(fault: OpenFault) -> NoMemory
    requires { fault ≡ OpenFault.NoMemory }
{
    let _ = fault;
    NoMemory
}

/// A disk in memory with a project on it that has no commits.
///
/// # Errors
///
/// There is no memory for it.
pub fn made_disk(alloc: Global, project: &FreshProject) -> Result<RamStore, NoMemory>
    requires { CanBeMade project.now }
    ensures { IfOk result (λ s. IsMade ⟦<RamStore as Store>⟧ project.now s) }
{
    let mut store = empty_disk(alloc, project)?;
    match create(
        alloc,
        &mut store,
        project.rate,
        project.block_size,
        project.depth,
    ) {
        Ok(()) => Ok(store),
        Err(fault) => Err(want_of_memory(fault)),
    }
}
