// Changes that are on the disk before they answer.
ghost use Rattle.std.specs.Prelude.{◌≡◌, ◌+◌, ◌≤◌, length, IsTrue, None, Some, OnOk};
ghost use Rattle.pcm_base.specs.declared.limits.TheConstants.{COUNTER_LIMIT};
ghost use Rattle.pcm_base.specs.Causes.{HasCause};
ghost use Rattle.disk_model.specs.Disk.{Files, bytes_of, written, WriteStep, RemoveStep, StaysStep};
ghost use Rattle.disk_model.specs.Room.{files_made};
ghost use Rattle.disk_model.specs.Frames.{Changed};

use crate::store::Store;
use pcm_base::Failed;

/// Writes the bytes to the file at the offset `at`, and waits until they are on the disk. An absent file is made.
pub fn write_through<S: Store>(
    store: &mut S,
    file: u64,
    at: u64,
    bytes: &[u8],
) -> Result<(), Failed>
    requires { at + length bytes.now ≤ COUNTER_LIMIT }
    ensures written { IsTrue (S.tells store.old)
        → OnOk result (S.reads store.new file ≡ Some (written (bytes_of (S.reads store.old file)) at bytes.now)) }
    // In every image from then on the file is as it reads.
    ensures durable { OnOk result ((c : Files) → S.may_leave store.new (S.clock store.new) c
        → c file ≡ S.reads store.new file) }
    ensures changed { Changed S.Store (WriteStep file at (length bytes.now)) (record {
      files = files_made (S.reads store.old file);
      bytes = length bytes.now;
      calls = 2;
    }) store.old store.new }
    ensures faults { HasCause (S.change_fault_count store.old) (S.change_fault_count store.new) result }
    ensures read_faults { S.read_fault_count store.new ≡ S.read_fault_count store.old }
{
    write_file(store, file, at, bytes)?;
    sync_file(store, file)?;
    Ok(())
}

/// Removes the file, which may be absent, and waits until it is gone.
pub fn remove_through<S: Store>(store: &mut S, file: u64) -> Result<(), Failed>
    ensures gone { IsTrue (S.tells store.old) → OnOk result (S.reads store.new file ≡ None) }
    // In every image from then on the file is as it reads.
    ensures durable { OnOk result ((c : Files) → S.may_leave store.new (S.clock store.new) c
        → c file ≡ S.reads store.new file) }
    ensures changed { Changed S.Store (RemoveStep file)
        (record { files = 0; bytes = 0; calls = 2 }) store.old store.new }
    ensures faults { HasCause (S.change_fault_count store.old) (S.change_fault_count store.new) result }
    ensures read_faults { S.read_fault_count store.new ≡ S.read_fault_count store.old }
{
    remove_file(store, file)?;
    sync_file(store, file)?;
    Ok(())
}

/// Waits until the file is on the disk.
pub fn sync_file<S: Store>(store: &mut S, file: u64) -> Result<(), Failed>
    ensures durable { OnOk result ((c : Files) → S.may_leave store.new (S.clock store.new) c
        → c file ≡ S.reads store.new file) }
    ensures reads { S.reads store.new ≡ S.reads store.old }
    ensures changed { Changed S.Store StaysStep (record { files = 0; bytes = 0; calls = 1 }) store.old store.new }
    ensures faults { HasCause (S.change_fault_count store.old) (S.change_fault_count store.new) result }
    ensures read_faults { S.read_fault_count store.new ≡ S.read_fault_count store.old }
{
    store.sync(file)
}

// `write_at` with its frame.
fn write_file<S: Store>(store: &mut S, file: u64, at: u64, bytes: &[u8]) -> Result<(), Failed>
    requires { at + length bytes.now ≤ COUNTER_LIMIT }
    ensures written { IsTrue (S.tells store.old)
        → OnOk result (S.reads store.new file ≡ Some (written (bytes_of (S.reads store.old file)) at bytes.now)) }
    ensures changed { Changed S.Store (WriteStep file at (length bytes.now)) (record {
      files = files_made (S.reads store.old file);
      bytes = length bytes.now;
      calls = 1;
    }) store.old store.new }
    ensures faults { HasCause (S.change_fault_count store.old) (S.change_fault_count store.new) result }
    ensures read_faults { S.read_fault_count store.new ≡ S.read_fault_count store.old }
{
    store.write_at(file, at, bytes)
}

// `remove` with its frame.
fn remove_file<S: Store>(store: &mut S, file: u64) -> Result<(), Failed>
    ensures gone { IsTrue (S.tells store.old) → OnOk result (S.reads store.new file ≡ None) }
    ensures changed { Changed S.Store (RemoveStep file)
        (record { files = 0; bytes = 0; calls = 1 }) store.old store.new }
    ensures faults { HasCause (S.change_fault_count store.old) (S.change_fault_count store.new) result }
    ensures read_faults { S.read_fault_count store.new ≡ S.read_fault_count store.old }
{
    store.remove(file)
}
