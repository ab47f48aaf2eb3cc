// A journal put into one header, in the file that it does not stand in.
ghost use Rattle.std.specs.Prelude.{◌≡◌, ◌≢◌, ◌⊎◌, ◌+◌, ◌≤◌, ◌∷◌, ℕ, [], length, IsTrue, IsSome, IfOk, OnOk, Some};
ghost use Rattle.std.specs.Prelude.{None};
ghost use Rattle.pcm_base.specs.declared.limits.TheConstants.{COUNTER_LIMIT};
ghost use Rattle.pcm_base.specs.Causes.{HasCause};
ghost use Rattle.disk_model.specs.Disk.{Files, SameElsewhere, RemoveStep};
ghost use Rattle.disk_model.specs.Frames.{Kept, Changed};
ghost use Rattle.project_journal.specs.Choice.{HasNoNewer, other_file};
ghost use Rattle.project_journal.specs.Gate.{IsOpen, EachNow, EachSince, IsDurable};
ghost use Rattle.project_journal.specs.Header.{Form, form_3};
ghost use Rattle.project_journal.specs.Journal.{Log, IsAt};
ghost use Rattle.project_journal.specs.Packing.{Tells, MayPack, HasEither, OnlyJournals, pack_room};

use super::gate::add;
use disk_model::{Store, remove_through, sync_file, write_through};
use pcm_base::Failed;

/// Whether a file is there.
pub fn is_there<S: Store>(store: &mut S, file: u64) -> Result<bool, Failed>
    ensures tells { IsTrue (S.tells store.old) → IfOk result (λ there. Tells there file (S.reads store.old)) }
    ensures kept { Kept S.Store store.old store.new }
    ensures faults { HasCause (S.read_fault_count store.old) (S.read_fault_count store.new) result }
{
    Ok(store.size(file)?.is_some())
}

// Brings a file to the disk, and removes it where it is there.
fn clear<S: Store>(store: &mut S, file: u64, there: bool) -> Result<(), Failed>
    ensures gone { IsTrue (S.tells store.old) → Tells there file (S.reads store.old)
        → OnOk result (S.reads store.new file ≡ None) }
    ensures durable { OnOk result (IsDurable S.Store store.new file) }
    ensures changed { Changed S.Store (RemoveStep file) (record { files = 0; bytes = 0; calls = 3 })
        store.old store.new }
    ensures faults { HasCause (S.change_fault_count store.old) (S.change_fault_count store.new) result }
    ensures read_faults { S.read_fault_count store.new ≡ S.read_fault_count store.old }
{
    sync_file(store, file)?;
    if there {
        return remove_through(store, file);
    }
    Ok(())
}

// Brings a file to the disk that holds a gate that is 0, and nothing else.
fn shut_file<S: Store>(store: &mut S, file: u64, there: bool) -> Result<(), Failed>
    ensures any_moment { (generation : ℕ) → IsTrue (S.tells store.old) → Tells there file (S.reads store.old)
        → EachNow S.Store store.old (HasNoNewer file generation)
        → EachSince S.Store store.old store.new (HasNoNewer file generation) }
    ensures done { IsTrue (S.tells store.old) → Tells there file (S.reads store.old)
        → OnOk result (S.reads store.new file ≡ Some (0 ∷ [])) }
    ensures made { IsTrue (S.tells store.old) → OnOk result (IsSome (S.reads store.new file)) }
    ensures durable { OnOk result (IsDurable S.Store store.new file) }
    ensures changed { Changed S.Store (SameElsewhere file) (record { files = 1; bytes = 1; calls = 5 })
        store.old store.new }
    ensures faults { HasCause (S.change_fault_count store.old) (S.change_fault_count store.new) result }
    ensures read_faults { S.read_fault_count store.new ≡ S.read_fault_count store.old }
{
    clear(store, file, there)?;
    write_through(store, file, 0, &[0])
}

// Brings a file to the disk that holds an open gate and this text, and nothing else. Before the gate opens no project
// stands in it.
fn write_text<S: Store>(store: &mut S, file: u64, there: bool, text: &[u8]) -> Result<(), Failed>
    requires { 1 + length text.now ≤ COUNTER_LIMIT }
    ensures any_moment { (generation : ℕ) → IsTrue (S.tells store.old) → Tells there file (S.reads store.old)
        → EachNow S.Store store.old (HasNoNewer file generation)
        → EachSince S.Store store.old store.new (λ c. HasNoNewer file generation c ⊎ IsOpen file [] text.now c) }
    ensures done { IsTrue (S.tells store.old) → Tells there file (S.reads store.old)
        → OnOk result (S.reads store.new file ≡ Some (1 ∷ text.now)) }
    ensures durable { OnOk result (IsDurable S.Store store.new file) }
    ensures changed { Changed S.Store (SameElsewhere file)
        (record { files = 1; bytes = 2 + length text.now; calls = 9 }) store.old store.new }
    ensures faults { HasCause (S.change_fault_count store.old) (S.change_fault_count store.new) result }
    ensures read_faults { S.read_fault_count store.new ≡ S.read_fault_count store.old }
{
    shut_file(store, file, there)?;
    add(store, file, 0, text)
}

/// Puts the journal that stands in this file, 0 or 1, into one header: writes the text after an open gate into the
/// other file, which is there or not as the caller was told, and then removes this one.
///
/// After `Failed` a stop leaves the journal as it was, or put into one header.
pub fn compact<S: Store>(store: &mut S, file: u64, there: bool, text: &[u8]) -> Result<(), Failed>
    requires file { file ≤ 1 }
    requires size { 1 + length text.now ≤ COUNTER_LIMIT }

    // At any moment each image has the journal as it was, or put into one header.
    ensures any_moment { (form : Form) (log packed : Log)
        → MayPack S.Store store.old file there text.now form log packed
        → EachSince S.Store store.old store.new (HasEither form log packed) }
    // After it the store and each image have it put into one header, in the other file.
    ensures done { (form : Form) (log packed : Log) → MayPack S.Store store.old file there text.now form log packed
        → OnOk result (IsAt (form_3 (other_file file)) S.Store store.new (length text.now) packed) }
    // And nothing else stands in that file, and this one is gone.
    ensures alone { IsTrue (S.tells store.old) → Tells there (other_file file) (S.reads store.old)
        → OnOk result (S.reads store.new (other_file file) ≡ Some (1 ∷ text.now)) }
    ensures gone { IsTrue (S.tells store.old) → OnOk result (S.reads store.new file ≡ None) }
    // On every store this file is on the disk then, and the other is the same in each image.
    ensures durable { OnOk result (IsDurable S.Store store.new file) }
    ensures one { OnOk result ((c d : Files) → S.may_leave store.new (S.clock store.new) c
        → S.may_leave store.new (S.clock store.new) d → c (other_file file) ≡ d (other_file file)) }

    // Nothing else changes, and no more than this is asked of the store.
    ensures changed { Changed S.Store (OnlyJournals file) (pack_room (length text.now)) store.old store.new }
    // A fault is a change that failed.
    ensures faults { HasCause (S.change_fault_count store.old) (S.change_fault_count store.new) result }
    ensures read_faults { S.read_fault_count store.new ≡ S.read_fault_count store.old }
{
    write_text(store, 1 - file, there, text)?;
    remove_through(store, file)
}
