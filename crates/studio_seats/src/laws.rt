// What the list of all seats says of each. These functions do nothing: their contracts are the laws.
ghost use Rattle.studio_seats.specs.Faults.{DesksServe, FaultsAreCounted};
ghost use Rattle.studio_seats.specs.Imports.{ImportsLead};
ghost use Rattle.studio_seats.specs.Leads.{DeedsAsk, DeedsLead};
ghost use Rattle.studio_seats.specs.Merge.{MergedNumbers, PieceNumbers, OwnOrder};
ghost use Rattle.studio_seats.specs.PinLaws.{PinsStay};

use disk_model::Store;
use edit_ports::Vault;

/// Where deeds lead: what a studio stands for after them, the run that they are, and what a stop may leave.
pub fn deeds_lead<S: Store, V: Vault>()
    ensures { DeedsLead S.Store V.Vault }
{}

/// Where deeds lead over vaults that do not report their bytes: each import reads some sound, and with these sounds the
/// deeds lead as over vaults that do. No deed may write a sound, and none may return that a sound is cut short.
pub fn imports_lead<S: Store, V: Vault>()
    ensures { ImportsLead S.Store V.Vault }
{}

/// What deeds ask of the disk is at most what each of them may ask, and no file changes that is not the studio's.
pub fn deeds_ask<S: Store, V: Vault>()
    ensures { DeedsAsk S.Store V.Vault }
{}

/// The commits of the opening, of the first seat and of the recorder are together all commits, each once.
pub fn numbers_are_merged()
    ensures { MergedNumbers }
{}

/// The pieces of the recorder are those of its chunks, in order, and so are their commit numbers.
pub fn pieces_are_chunks()
    ensures { PieceNumbers }
{}

/// Each seat's deeds stand in the order of its turns.
pub fn turns_keep_order()
    ensures { OwnOrder }
{}

/// A pin that was made in a run, and that nobody freed, shows the mix of the project that was current then, and each
/// call that reads it answers so.
pub fn pins_stay()
    ensures { PinsStay }
{}

/// In a run from a studio that goes on, in which no count of faults of the store rises, the store caused no refusal.
pub fn faults_are_counted()
    ensures { FaultsAreCounted }
{}

/// Where vaults tell their bytes, the disk held a studio that goes on, and no count of its faults rises, no deed tells
/// DiskFault, Stopped or Damaged, and none but one that names a sound VaultFault.
pub fn deeds_are_served<S: Store, V: Vault>()
    ensures { DesksServe S.Store V.Vault }
{}
