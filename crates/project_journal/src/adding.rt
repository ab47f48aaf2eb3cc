// One more record.
ghost use Rattle.std.specs.Prelude.{◌≡◌, ◌+◌, ◌^◌, ◌<◌, ◌≤◌, length, IsTrue, vec_capacity};
ghost use Rattle.std.specs.Prelude.{OnOk, OnErr, IfOk, IfErr, IsErrOf};
ghost use Rattle.pcm_base.specs.Causes.{Rose};
ghost use Rattle.disk_model.specs.Disk.{SameElsewhere};
ghost use Rattle.disk_model.specs.Frames.{Changed};
ghost use Rattle.project_journal.specs.Gate.{EachSince, IsDurable};
ghost use Rattle.project_journal.specs.Header.{Form};
ghost use Rattle.project_journal.specs.Journal.{Log, IsAt, HasOneOf, with_body};
ghost use Rattle.project_journal.specs.Answer.{Appends, Causes};
ghost use Rattle.project_journal.specs.Rooms.{append_room};

use super::fault::JournalFault;
use super::gate::add;
use super::rows::{fill_row, fill_small};
use disk_model::Store;
use pcm_base::COUNTER_LIMIT;

/// Adds a record to the journal in this file after the gate at `at`, the first that is 0, and answers the place of the
/// next gate. The body has fewer than 2^32 bytes. It takes memory only where `scratch` has room for fewer than 5 bytes
/// more than the body.
///
/// `SpaceSpent` where the journal would pass 2^62 bytes, and `NoMemory`, leave the store as it was. After `DiskFault`
/// a stop leaves the records of before or of after.
pub fn append<S: Store>(
    store: &mut S,
    file: u64,
    at: u64,
    body: &[u8],
    scratch: &mut Vec<u8>,
) -> Result<u64, JournalFault>
    requires { length body.now < 2 ^ 32 }

    // At any moment each image has the records of before or of after.
    ensures any_moment { (form : Form) (log : Log) → form.file ≡ file → IsTrue (S.tells store.old)
        → IsAt form S.Store store.old at log
        → EachSince S.Store store.old store.new (HasOneOf form log (with_body log body.now)) }
    // After it the store and each image have those of after.
    ensures done { (form : Form) (log : Log) → form.file ≡ file → IsTrue (S.tells store.old)
        → IsAt form S.Store store.old at log
        → IfOk result (λ next. IsAt form S.Store store.new next (with_body log body.now)) }
    // On every store the file is on the disk then.
    ensures durable { OnOk result (IsDurable S.Store store.new file) }
    ensures answer { Appends at (length body.now) result }
    ensures cause { Causes S.Store store.old store.new result }
    // A fault is a change that failed.
    ensures rose { IsErrOf result JournalFault.DiskFault
        → Rose (S.change_fault_count store.old) (S.change_fault_count store.new) }

    // It takes no memory where the scratch has room.
    ensures room { IsErrOf result JournalFault.NoMemory → vec_capacity scratch.old < 5 + length body.now }
    ensures capacity { vec_capacity scratch.old ≤ vec_capacity scratch.new }
    // A refusal by anything but the disk leaves the store as it was.
    ensures untouched { OnErr result ((IsErrOf result JournalFault.DiskFault → ⊥) → store.new ≡ store.old) }

    // Nothing else changes, and no more than this is asked of the store.
    ensures changed { Changed S.Store (SameElsewhere file) (append_room (S.reads store.old file) (length body.now))
        store.old store.new }
    ensures read_faults { S.read_fault_count store.new ≡ S.read_fault_count store.old }
{
    let next = next_gate(at, body.len())?;
    fill_row(scratch, body)?;
    add(store, file, at, scratch)?;
    Ok(next)
}

/// The same as [`append`] for a body of at most 9 bytes. It takes no memory.
pub fn append_small<S: Store>(
    store: &mut S,
    file: u64,
    at: u64,
    body: &[u8],
) -> Result<u64, JournalFault>
    requires { length body.now ≤ 9 }

    ensures any_moment { (form : Form) (log : Log) → form.file ≡ file → IsTrue (S.tells store.old)
        → IsAt form S.Store store.old at log
        → EachSince S.Store store.old store.new (HasOneOf form log (with_body log body.now)) }
    ensures done { (form : Form) (log : Log) → form.file ≡ file → IsTrue (S.tells store.old)
        → IsAt form S.Store store.old at log
        → IfOk result (λ next. IsAt form S.Store store.new next (with_body log body.now)) }
    // On every store the file is on the disk then.
    ensures durable { OnOk result (IsDurable S.Store store.new file) }
    ensures answer { Appends at (length body.now) result }
    ensures cause { Causes S.Store store.old store.new result }
    // A fault is a change that failed.
    ensures rose { IsErrOf result JournalFault.DiskFault
        → Rose (S.change_fault_count store.old) (S.change_fault_count store.new) }
    ensures memory { IsErrOf result JournalFault.NoMemory → ⊥ }
    ensures untouched { OnErr result ((IsErrOf result JournalFault.DiskFault → ⊥) → store.new ≡ store.old) }

    // Nothing else changes, and no more than this is asked of the store.
    ensures changed { Changed S.Store (SameElsewhere file) (append_room (S.reads store.old file) (length body.now))
        store.old store.new }
    ensures read_faults { S.read_fault_count store.new ≡ S.read_fault_count store.old }
{
    let next = next_gate(at, body.len())?;
    let mut row = [0u8; 14];
    fill_small(&mut row, body);
    add(store, file, at, &row[..body.len() + 5])?;
    Ok(next)
}

// The place of the gate after a record with a body of this many bytes.
pub(crate) fn next_gate(at: u64, len: usize) -> Result<u64, JournalFault>
    requires { len < 2 ^ 63 }
    ensures ok { IfOk result (λ next. (next ≡ at + 5 + len) × (next + 1 ≤ COUNTER_LIMIT)) }
    ensures err { IfErr result (λ e. (e ≡ JournalFault.SpaceSpent at (6 + len)) × (COUNTER_LIMIT < at + (6 + len))) }
{
    let need = len as u64 + 6;
    if at > COUNTER_LIMIT || need > COUNTER_LIMIT - at {
        return Err(JournalFault::SpaceSpent { have: at, need });
    }
    Ok(at + need - 1)
}
