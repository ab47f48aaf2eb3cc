// Several records at once.
ghost use Rattle.std.specs.Prelude.{◌≡◌, ◌+◌, ◌-◌, ◌^◌, ◌<◌, ◌≤◌, ◌∷◌, ◌++◌, [], List, ℕ, length, IsTrue, vec_capacity};
ghost use Rattle.std.specs.Prelude.{OnOk, OnErr, IfOk, IsErrOf};
ghost use Rattle.pcm_base.specs.Causes.{Rose};
ghost use Rattle.disk_model.specs.Disk.{SameElsewhere};
ghost use Rattle.disk_model.specs.Frames.{Changed};
ghost use Rattle.project_journal.specs.Gate.{EachSince, IsDurable};
ghost use Rattle.project_journal.specs.Header.{Form};
ghost use Rattle.project_journal.specs.Journal.{Log, AreWaiting, IsAt, HasOneOf, opened, with_bodies};
ghost use Rattle.project_journal.specs.Answer.{Appends, Causes};
ghost use Rattle.project_journal.specs.Rooms.{append_room};

use super::adding::next_gate;
use super::fault::JournalFault;
use super::gate::add;
use byteorder::{ByteOrder, LittleEndian};
use disk_model::Store;
use std::alloc::AllocError;

/// Puts a record after those that wait in `rows`, with its gate open: of no bytes it makes the first. After an error
/// the rows are of no use.
pub fn add_record(rows: &mut Vec<u8>, body: &[u8]) -> Result<(), AllocError>
    requires { length body.now < 2 ^ 32 }
    ensures row { OnOk result (rows.new.items ≡ rows.old.items ++ opened (body.now ∷ [])) }
    // It takes no memory where the rows have room.
    ensures room { OnErr result (vec_capacity rows.old < length rows.old.items + (5 + length body.now)) }
    ensures capacity { vec_capacity rows.old ≤ vec_capacity rows.new }
{
    let mut head = [1u8; 5];
    LittleEndian::write_u32(&mut head[1..], body.len() as u32);
    rows.extend_from_slice(&head)?;
    rows.extend_from_slice(body)?;
    Ok(())
}

/// Adds the records that wait in `rows`, one or more, to the journal in this file after the gate at `at`, the first
/// that is 0, and answers the place of the next gate. All but that first gate is written at once, with the gates
/// between the records open: opening the first one makes all of them count. It takes memory only where `rows` has no
/// room for a byte more.
///
/// `SpaceSpent` where the journal would pass 2^62 bytes, and `NoMemory`, leave the store as it was. After `DiskFault`
/// a stop leaves the records of before or all of these too.
pub fn append_records<S: Store>(
    store: &mut S,
    file: u64,
    at: u64,
    rows: &mut Vec<u8>,
) -> Result<u64, JournalFault>
    requires { 5 ≤ length rows.old.items }

    // At any moment each image has the records of before, or all of these too.
    ensures any_moment { (form : Form) (log : Log) (bodies : List (List ℕ)) → form.file ≡ file
        → IsTrue (S.tells store.old) → IsAt form S.Store store.old at log → AreWaiting rows.old.items bodies
        → EachSince S.Store store.old store.new (HasOneOf form log (with_bodies log bodies)) }
    // After it the store and each image have all of them.
    ensures done { (form : Form) (log : Log) (bodies : List (List ℕ)) → form.file ≡ file
        → IsTrue (S.tells store.old) → IsAt form S.Store store.old at log → AreWaiting rows.old.items bodies
        → IfOk result (λ next. IsAt form S.Store store.new next (with_bodies log bodies)) }
    // On every store the file is on the disk then.
    ensures durable { OnOk result (IsDurable S.Store store.new file) }
    // As of one record whose body is all that stands after the first gate and length.
    ensures answer { Appends at (length rows.old.items - 5) result }
    ensures cause { Causes S.Store store.old store.new result }
    // A fault is a change that failed.
    ensures rose { IsErrOf result JournalFault.DiskFault
        → Rose (S.change_fault_count store.old) (S.change_fault_count store.new) }

    // It takes no memory where the rows have room.
    ensures room { IsErrOf result JournalFault.NoMemory → vec_capacity rows.old < 1 + length rows.old.items }
    ensures capacity { vec_capacity rows.old ≤ vec_capacity rows.new }
    // A refusal by anything but the disk leaves the store as it was.
    ensures untouched { OnErr result ((IsErrOf result JournalFault.DiskFault → ⊥) → store.new ≡ store.old) }

    // Nothing else changes, and no more is asked of the store than for one record: as many calls, so that the syncs of
    // one commit serve all.
    ensures changed { Changed S.Store (SameElsewhere file)
        (append_room (S.reads store.old file) (length rows.old.items - 5)) store.old store.new }
    ensures read_faults { S.read_fault_count store.new ≡ S.read_fault_count store.old }
{
    let next = next_gate(at, rows.len() - 5)?;
    rows.extend_from_slice(&[0])?;
    add(store, file, at, &rows[1..])?;
    Ok(next)
}
