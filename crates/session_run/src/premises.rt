// The premises of the promise are met.
ghost use Rattle.std.specs.Prelude.{IfOk};
ghost use Rattle.editor_recovery.specs.Honest.{IsHonest};
ghost use Rattle.studio_seats.specs.Stands.{AllTell};

use super::trying::tried_project;
use disk_model::Store;
use edit_ports::{MemVault, Vault};
use memory_disk::RamStore;
use memory_project::fresh_studio;
use pcm_base::NoMemory;
use std::alloc::Global;

/// A disk in memory with a fresh project on it, that of `try`. It is honest, and vaults in memory report their bytes. So
/// a call of the word `run` on this disk, over such a vault, keeps the promise.
///
/// # Errors
///
/// There is no memory for it.
pub fn honest_disk(alloc: Global) -> Result<RamStore, NoMemory>
    ensures disk { IfOk result (λ store. IsHonest ⟦<RamStore as Store>⟧ store) }
    ensures vaults { AllTell ⟦<MemVault as Vault>⟧ }
{
    let studio = fresh_studio(alloc, &tried_project())?;
    Ok(studio.into_store())
}
