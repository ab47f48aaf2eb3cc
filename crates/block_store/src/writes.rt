// Blocks are written once, synced and removed.
ghost use Rattle.std.specs.Prelude.{◌≡◌, ◌^◌, ◌<◌, ◌≤◌, length, vec_capacity, IsTrue, None, Some, OnOk, IsOkUnless};
ghost use Rattle.pcm_base.specs.declared.limits.TheConstants.{COUNTER_LIMIT, FIRST_BLOCK};
ghost use Rattle.pcm_base.specs.Causes.{HasCause};
ghost use Rattle.disk_model.specs.Disk.{Files, bytes_of, written, SameElsewhere, WriteStep, RemoveStep, StaysStep};
ghost use Rattle.disk_model.specs.Room.{files_made};
ghost use Rattle.disk_model.specs.Frames.{Changed};
ghost use Rattle.sample_block.specs.Spelling.{IsBlock, size_of};
ghost use Rattle.sample_block.specs.Blocks.{blocks};
ghost use Rattle.block_store.specs.declared.fault.BlockFault.TheVariants.{DiskFault};

use super::fault::BlockFault;
use disk_model::{Store, sync_file};
use pcm_base::Failed;
use sample_block::encode;

// `write_at` at the front of a file, with its frame.
fn write_front<S: Store>(store: &mut S, id: u64, bytes: &[u8]) -> Result<(), Failed>
    requires { length bytes.now ≤ COUNTER_LIMIT }
    ensures written { IsTrue (S.tells store.old)
        → OnOk result (S.reads store.new id ≡ Some (written (bytes_of (S.reads store.old id)) 0 bytes.now)) }
    ensures changed { Changed S.Store (WriteStep id 0 (length bytes.now)) (record {
      files = files_made (S.reads store.old id);
      bytes = length bytes.now;
      calls = 1;
    }) store.old store.new }
    ensures faults { HasCause (S.change_fault_count store.old) (S.change_fault_count store.new) result }
    ensures read_faults { S.read_fault_count store.new ≡ S.read_fault_count store.old }
{
    store.write_at(id, 0, bytes)
}

/// Writes the block of these samples to the file `id`, which is absent, in one write, and does not wait until it is on
/// the disk: `sync_block` does. The id is from 16 to below 2^62, there are 1 to 262,144 samples, and `scratch` has room
/// for the file, so that no memory is taken. After an error the file may be there, whole or in part.
pub fn write_block<S: Store>(
    store: &mut S,
    id: u64,
    samples: &[i16],
    scratch: &mut Vec<u8>,
) -> Result<(), BlockFault>
    requires block { IsBlock id (length samples.now) }
    requires room { size_of (length samples.now) ≤ vec_capacity scratch.old }
    ensures stored { IsTrue (S.tells store.old) → S.reads store.old id ≡ None
        → OnOk result (blocks (S.reads store.new) id ≡ Some samples.now) }
    // A stop at any moment of the call leaves what it could leave before, but for this file. It makes one file at most,
    // and asks for no more bytes than the file has.
    ensures changed { Changed S.Store (SameElsewhere id) (record {
      files = 1;
      bytes = size_of (length samples.now);
      calls = 1;
    }) store.old store.new }
    ensures fault { IsOkUnless result DiskFault }
    ensures faults { HasCause (S.change_fault_count store.old) (S.change_fault_count store.new) result }
    ensures read_faults { S.read_fault_count store.new ≡ S.read_fault_count store.old }
    ensures capacity { vec_capacity scratch.old ≤ vec_capacity scratch.new }
{
    match encode(id, samples, scratch) {
        Ok(()) => {}
        Err(_) => unreachable!(),
    }
    match write_front(store, id, scratch) {
        Ok(()) => Ok(()),
        Err(_) => Err(BlockFault::DiskFault),
    }
}

/// Waits until the file of a block is on the disk as it reads, which may be absent.
pub fn sync_block<S: Store>(store: &mut S, id: u64) -> Result<(), BlockFault>
    // In every image from then on the file is as it reads.
    ensures durable { OnOk result ((c : Files) → S.may_leave store.new (S.clock store.new) c
        → c id ≡ S.reads store.new id) }
    ensures reads { S.reads store.new ≡ S.reads store.old }
    // A stop at any moment of the call leaves what it could leave before. No room is asked but for the call.
    ensures changed { Changed S.Store StaysStep (record { files = 0; bytes = 0; calls = 1 }) store.old store.new }
    ensures fault { IsOkUnless result DiskFault }
    ensures faults { HasCause (S.change_fault_count store.old) (S.change_fault_count store.new) result }
    ensures read_faults { S.read_fault_count store.new ≡ S.read_fault_count store.old }
{
    match sync_file(store, id) {
        Ok(()) => Ok(()),
        Err(_) => Err(BlockFault::DiskFault),
    }
}

/// Writes the block of these samples to the file `id`, which is absent, in one write, and waits until it is on the
/// disk. The id is from 16 to below 2^62, there are 1 to 262,144 samples, and `scratch` has room for the file, so that
/// no memory is taken. After an error the file may be there, whole or in part.
pub fn put<S: Store>(
    store: &mut S,
    id: u64,
    samples: &[i16],
    scratch: &mut Vec<u8>,
) -> Result<(), BlockFault>
    requires block { IsBlock id (length samples.now) }
    requires room { size_of (length samples.now) ≤ vec_capacity scratch.old }
    ensures stored { IsTrue (S.tells store.old) → S.reads store.old id ≡ None
        → OnOk result (blocks (S.reads store.new) id ≡ Some samples.now) }
    // In every image from then on the block is there.
    ensures durable { IsTrue (S.tells store.old) → S.reads store.old id ≡ None
        → OnOk result ((c : Files) → S.may_leave store.new (S.clock store.new) c → blocks c id ≡ Some samples.now) }
    // A stop at any moment of the call leaves what it could leave before, but for this file. It makes one file at most,
    // and asks for no more bytes than the file has.
    ensures changed { Changed S.Store (SameElsewhere id) (record {
      files = 1;
      bytes = size_of (length samples.now);
      calls = 2;
    }) store.old store.new }
    ensures fault { IsOkUnless result DiskFault }
    ensures faults { HasCause (S.change_fault_count store.old) (S.change_fault_count store.new) result }
    ensures read_faults { S.read_fault_count store.new ≡ S.read_fault_count store.old }
    ensures capacity { vec_capacity scratch.old ≤ vec_capacity scratch.new }
{
    write_block(store, id, samples, scratch)?;
    sync_block(store, id)?;
    Ok(())
}

// `remove` with its frame.
fn remove_file<S: Store>(store: &mut S, id: u64) -> Result<(), Failed>
    ensures gone { IsTrue (S.tells store.old) → OnOk result (S.reads store.new id ≡ None) }
    ensures changed { Changed S.Store (RemoveStep id) (record { files = 0; bytes = 0; calls = 1 }) store.old store.new }
    ensures faults { HasCause (S.change_fault_count store.old) (S.change_fault_count store.new) result }
    ensures read_faults { S.read_fault_count store.new ≡ S.read_fault_count store.old }
{
    store.remove(id)
}

/// Removes the file of a block, which may be absent, and does not wait until it is gone: `sync_block` does. The id is
/// from 16 to below 2^62. After an error the file is there as it was, or not.
pub fn remove_block<S: Store>(store: &mut S, id: u64) -> Result<(), BlockFault>
    requires low { FIRST_BLOCK ≤ id }
    requires high { id < COUNTER_LIMIT }
    ensures gone { IsTrue (S.tells store.old) → OnOk result (S.reads store.new id ≡ None) }
    // A stop at any moment of the call leaves what it could leave before, or that without this file, and after an error
    // it is as it was or absent. No room is asked but for the call.
    ensures changed { Changed S.Store (RemoveStep id) (record { files = 0; bytes = 0; calls = 1 }) store.old store.new }
    ensures fault { IsOkUnless result DiskFault }
    ensures faults { HasCause (S.change_fault_count store.old) (S.change_fault_count store.new) result }
    ensures read_faults { S.read_fault_count store.new ≡ S.read_fault_count store.old }
{
    match remove_file(store, id) {
        Ok(()) => Ok(()),
        Err(_) => Err(BlockFault::DiskFault),
    }
}
