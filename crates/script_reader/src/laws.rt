// What follows of sessions. These functions do nothing: their contracts are the laws.
ghost use Rattle.script_reader.specs.Added.{ScriptsAdd};
ghost use Rattle.script_reader.specs.Served.{ScriptsServe};
ghost use Rattle.script_reader.specs.Spent.{ScriptsSpend};

use disk_model::Store;
use edit_ports::Vault;

/// What a script adds to the list of a desk: its numbers are those of its commits, and the sounds of the vault follow
/// its deeds. If the vault's count of faults did not rise, no deed that names a sound says that it failed.
pub fn scripts_add()
    ensures { ScriptsAdd }
{}

/// If no deed was refused because no turn was left, as none of a run is, an answer is Spent only after the seat found
/// it.
pub fn scripts_spend()
    ensures { ScriptsSpend }
{}

/// What a script tells, whoever else is at its desk: where vaults tell their bytes, the disk held a studio that goes
/// on, and no count of faults of the store or of the script's vault rises, none of its deeds is answered DiskFault,
/// VaultFault, Damaged or Stopped.
pub fn scripts_are_served<S: Store, V: Vault>()
    ensures { ScriptsServe S.Store V.Vault }
{}
