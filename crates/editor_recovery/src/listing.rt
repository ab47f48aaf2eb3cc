// The files of a disk.
ghost use Rattle.std.specs.Prelude.{◌≡◌, ◌↔◌, ◌+◌, ◌≤◌, ℕ, IsTrue, IsSome, IfSome, IfNone, IfOk, IfErr, Contains};
ghost use Rattle.std.specs.Prelude.{find};
ghost use Rattle.std.specs.List.Sorted.{IsStrictlyIncreasing};
ghost use Rattle.disk_model.specs.Frames.{Kept};
ghost use Rattle.editor_recovery.specs.Files.{is_foreign, IsAbove};
ghost use Rattle.editor_recovery.specs.Causes.{Causes};
ghost use Rattle.editor_recovery.specs.Creating.{IsCreateRefusal};
ghost use Rattle.editor_recovery.specs.Listing.{AreFiles, IsOpenRefusal, IsRefusal, Lists};

use super::fault::OpenFault;
use disk_model::{ListFault, Store};
use pcm_base::{COUNTER_LIMIT, FIRST_BLOCK};
use std::alloc::Global;

/// Whether a file is neither that of a journal nor of a block.
fn is_foreign(file: u64) -> bool
    ensures { result ≡ is_foreign file }
{
    (file >= 2 && file < FIRST_BLOCK) || file >= COUNTER_LIMIT
}

/// The first number that is foreign.
fn first_foreign(files: &[u64]) -> Option<u64>
    ensures { result ≡ find is_foreign files.now }
{
    for i in 0..files.len() {
        let file = files[i];
        if is_foreign(file) {
            return Some(file);
        }
    }
    None
}

/// The numbers of the files that are there, rising.
fn read_names<S: Store>(alloc: Global, store: &mut S) -> Result<Vec<u64>, OpenFault>
    ensures listed { IsTrue (S.tells store.old) → IfOk result (λ v. AreFiles (S.reads store.old) v.items) }
    ensures rising { IfOk result (λ v. IsStrictlyIncreasing v.items) }
    ensures kept { Kept S.Store store.old store.new }
    ensures refused { IfErr result IsRefusal }
    ensures cause { Causes S.Store store.old store.new result }
{
    let mut files = Vec::new(alloc);
    match store.files(&mut files) {
        Ok(()) => Ok(files),
        Err(ListFault::Failed) => Err(OpenFault::DiskFault),
        Err(ListFault::NoMemory) => Err(OpenFault::NoMemory),
    }
}

/// The numbers of the files that are there, rising, where none is foreign.
pub(crate) fn list_files<S: Store>(alloc: Global, store: &mut S) -> Result<Vec<u64>, OpenFault>
    ensures lists { IsTrue (S.tells store.old) → Lists (S.reads store.old) (λ v. v.items) result }
    ensures known { IfOk result (λ v. find is_foreign v.items ≡ None) }
    ensures rising { IfOk result (λ v. IsStrictlyIncreasing v.items) }
    ensures refusals { IfErr result IsCreateRefusal }
    ensures opening { IfErr result IsOpenRefusal }
    ensures kept { Kept S.Store store.old store.new }
    ensures cause { Causes S.Store store.old store.new result }
{
    let files = read_names(alloc, store)?;
    match first_foreign(&files) {
        None => Ok(files),
        Some(file) => Err(OpenFault::Foreign { file }),
    }
}

/// The next block: above every file, and no lower than a number.
pub(crate) fn block_above(files: &[u64], recorded: u64) -> u64
    requires known { find is_foreign files.now ≡ None }
    requires recorded { recorded ≤ COUNTER_LIMIT }
    requires rising { IsStrictlyIncreasing files.now }
    ensures next { IsAbove files.now recorded result }
    ensures bound { result ≤ COUNTER_LIMIT }
{
    if files.len() == 0 {
        return recorded;
    }
    recorded.max(files[files.len() - 1] + 1)
}
