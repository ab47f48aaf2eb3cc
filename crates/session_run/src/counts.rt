// The counts of faults of the devices that a call is handed.
ghost use Rattle.std.specs.Prelude.{◌≡◌};
ghost use Rattle.desk_session.specs.Lent.{kinds};
ghost use Rattle.session_run.specs.Call.{any_rose, counts};

use disk_model::Store;
use edit_ports::{Sink, Source, Vault};

/// How many calls of each device have failed.
#[derive(Clone, Copy, Debug, PartialEq, Eq)]
pub struct FaultCounts {
    pub script: u64,
    pub out: u64,
    pub store: u64,
    pub vault: u64,
    pub mic: u64,
    pub speaker: u64,
}

/// The counts as they stand.
pub fn count_faults<A: Source, O: Sink, S: Store, V: Vault, M: Source, P: Sink>(
    script: &A,
    out: &O,
    store: &S,
    vault: &V,
    mic: &M,
    speaker: &P,
) -> FaultCounts
    ensures { result ≡ counts A.Source O.Sink
        (kinds S.Store V.Vault M.Source P.Sink)
        script.now out.now store.now vault.now mic.now speaker.now }
{
    FaultCounts {
        script: script.faults(),
        out: out.faults(),
        store: store.faults(),
        vault: vault.faults(),
        mic: mic.faults(),
        speaker: speaker.faults(),
    }
}

impl FaultCounts {
    /// Whether one is higher now.
    pub fn any_rose(&self, now: &FaultCounts) -> bool
        ensures { result ≡ any_rose self.now now.now }
    {
        self.script < now.script
            || self.out < now.out
            || self.store < now.store
            || self.vault < now.vault
            || self.mic < now.mic
            || self.speaker < now.speaker
    }
}
