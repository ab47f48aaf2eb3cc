// Opens a project.
ghost use Rattle.std.specs.Prelude.{◌≡◌, ◌≤◌, IsTrue, IfOk, IfErr, OnOk};
ghost use Rattle.disk_model.specs.Disk.{StaysStep};
ghost use Rattle.disk_model.specs.Frames.{Changed};
ghost use Rattle.project_journal.specs.Header.{Form, IsForm};
ghost use Rattle.project_journal.specs.Journal.{Log, HasLog, IsAt};
ghost use Rattle.project_journal.specs.Gate.{EachNow, IsDurable};
ghost use Rattle.record_body.specs.Saved.{Keeps};
ghost use Rattle.project_state.specs.Meaning.{history_blocks};
ghost use Rattle.editor_core.specs.Core.{core_of};
ghost use Rattle.editor_core.specs.Parts.{AreParts, HasParts, assembled};
ghost use Rattle.editor_views.specs.Scans.{HaveOneLength};
ghost use Rattle.editor_state.specs.Studios.{IsHeld, IsStudio, shown, studio_of};
ghost use Rattle.editor_recovery.specs.Bounds.{IsValidParts};
ghost use Rattle.editor_recovery.specs.Causes.{Causes};
ghost use Rattle.editor_recovery.specs.Found.{IsNew, answer_in};
ghost use Rattle.editor_recovery.specs.Honest.{IsHonest, OpensHonest};
ghost use Rattle.editor_recovery.specs.Opening.{Opens};
ghost use Rattle.editor_recovery.specs.Stores.{store_of, answer_of};
ghost use Rattle.editor_recovery.specs.Listing.{IsOpenRefusal};

use super::fault::OpenFault;
use super::finding::find_parts;
use super::reading::read_disk;
use disk_model::Store;
use editor_core::{Parts, Studio};
use std::alloc::Global;

/// What a store has of a project.
fn open_parts<S: Store>(alloc: Global, store: &mut S) -> Result<Parts, OpenFault>
    ensures opens { IsTrue (S.tells store.old) → Opens (S.reads store.old) (answer_in result) }
    ensures at_rest { IsTrue (S.tells store.old)
        → IfOk result (λ p. (form : Form) (log : Log) → IsForm form → form.file ≤ 1
        → HasLog form log (S.reads store.old) → IsAt form S.Store store.new p.journal_end log) }
    ensures valid { IfOk result IsValidParts }
    ensures opening { IfErr result IsOpenRefusal }
    ensures durable { OnOk result (IsDurable S.Store store.new 0) }
    ensures other { OnOk result (IsDurable S.Store store.new 1) }
    ensures cause { Causes S.Store store.old store.new result }
    ensures reads { S.reads store.new ≡ S.reads store.old }
    ensures changed { Changed S.Store StaysStep (record { files = 0; bytes = 0; calls = 2 }) store.old store.new }
{
    match read_disk(alloc, store) {
        Ok(disk) => find_parts(alloc, store, disk),
        Err(fault) => Err(fault),
    }
}

/// The studio of these parts. Where there is no memory the store comes back.
fn make_studio<S: Store>(alloc: Global, store: S, parts: Parts) -> Result<Studio<S>, (OpenFault, S)>
    requires { AreParts parts }
    ensures studio { IfOk result (λ s. IsStudio S.Store (core_of s)) }
    ensures held { HasParts S.Store store parts → IfOk result (λ s. IsHeld S.Store (core_of s)) }
    ensures fields { IfOk result (λ s. core_of s ≡ assembled store parts) }
    ensures refused { IfErr result (λ e. (e.0 ≡ OpenFault.NoMemory) × (e.1 ≡ store)) }
{
    match Studio::assemble(alloc, store, parts) {
        Ok(studio) => Ok(studio),
        Err(store) => Err((OpenFault::NoMemory, store)),
    }
}

/// Opens the project of a store, once files 0 and 1 are on the disk, and makes a studio of it. It writes nothing, and
/// the store comes back with each refusal. Nothing is copied yet, there are no pins, and the next pin is 1.
///
/// Memory: it takes what the history and the ledger take, the studio's buffers, and while the records are folded the
/// bytes of 64 KiB or of the longest record, and no multiple of the journal's file.
///
/// # Errors
///
/// The first of these. Absent: no project is there. Foreign: a file is there that is neither of a journal nor a block,
/// the least of them. Damaged: the first field in the order of the files that is not as it has to be. DiskFault and
/// NoMemory may come in place of each.
pub fn open_store<S: Store>(alloc: Global, store: S) -> Result<Studio<S>, (OpenFault, S)>
    ensures opens { IsTrue (S.tells store) → Opens (S.reads store) (answer_of result) }
    // Whatever the store tells, it is a new studio, each block has one length, and files 0 and 1 are on the disk.
    ensures studio { IfOk result (λ s. IsStudio S.Store (core_of s)) }
    ensures fresh { IfOk result (λ s. IsNew (core_of s)) }
    ensures one_length { IfOk result (λ s. HaveOneLength (history_blocks (core_of s).history)) }
    ensures durable { IfOk result (λ s. IsDurable S.Store (core_of s).store 0) }
    ensures other { IfOk result (λ s. IsDurable S.Store (core_of s).store 1) }
    // The journal of the store and of each image ends where the studio says.
    ensures at_rest { IsTrue (S.tells store) → IfOk result (λ s. (form : Form) (log : Log) → IsForm form
        → form.file ≤ 1 → HasLog form log (S.reads store)
        → IsAt form S.Store (core_of s).store (core_of s).journal_end log) }
    // The error names a foreign file only by a foreign number, and never says that a project is there.
    ensures refusals { IfErr result (λ e. IsOpenRefusal e.0) }
    // Over an honest disk no fault is found, what is found is what each image keeps, and the disk holds the studio.
    ensures honest { IsHonest S.Store store → OpensHonest S.Store store (store_of result) (answer_of result) }
    ensures held { IsHonest S.Store store → IfOk result (λ s. IsHeld S.Store (core_of s)) }
    ensures keeps { IsHonest S.Store store
        → IfOk result (λ s. EachNow S.Store (core_of s).store (λ c. Keeps c (shown (studio_of S.Store (core_of s))))) }
    ensures stays_honest { IsHonest S.Store store → IsHonest S.Store (store_of result) }
    ensures cause { Causes S.Store store (store_of result) (answer_of result) }
    // Nothing changes: each image at any moment is one that the store could already leave. It makes two syncs.
    ensures reads { S.reads (store_of result) ≡ S.reads store }
    ensures changed { Changed S.Store StaysStep (record { files = 0; bytes = 0; calls = 2 }) store (store_of result) }
{
    let mut store = store;
    match open_parts(alloc, &mut store) {
        Ok(parts) => make_studio(alloc, store, parts),
        Err(fault) => Err((fault, store)),
    }
}
