// Makes a project.
ghost use Rattle.std.specs.Prelude.{◌≡◌, ◌||◌, ◌⊎◌, ◌↔◌, ◌+◌, ◌≤◌, ℕ, Option, List, length, min, slice_index};
ghost use Rattle.std.specs.Prelude.{IsTrue, IfOk, IfErr, OnOk};
ghost use Rattle.pcm_base.specs.declared.limits.TheConstants.{FIRST_RECORD};
ghost use Rattle.disk_model.specs.Disk.{bytes_of, SameElsewhere};
ghost use Rattle.disk_model.specs.Frames.{Kept, Changed};
ghost use Rattle.project_journal.specs.Gate.{EachNow, EachSince, IsDurable};
ghost use Rattle.project_journal.specs.Header.{IsFormat, IsProject, form_3};
ghost use Rattle.project_journal.specs.Journal.{HasLog, IsAt, fresh};
ghost use Rattle.project_journal.specs.Rooms.{create_room};
ghost use Rattle.project_journal.specs.Start.{NoProject, IsFront};
ghost use Rattle.record_body.specs.Saved.{Keeps};
ghost use Rattle.editor_recovery.specs.Causes.{Causes};
ghost use Rattle.editor_recovery.specs.Creating.{Creates, HasNoForeign, IsCreateRefusal, LeavesRefused, new_opened};
ghost use Rattle.editor_recovery.specs.Honest.{IsHonest};
ghost use Rattle.editor_recovery.specs.Listing.{IsRefusal};
ghost use Rattle.editor_recovery.specs.Standing.{HasNone, HasSome};

use super::fault::OpenFault;
use super::listing::list_files;
use disk_model::Store;
use project_journal::JournalFault;
use std::alloc::Global;

/// Whether a project is in this file.
fn is_in<S: Store>(store: &mut S, file: u64) -> Result<bool, OpenFault>
    ensures there { IsTrue (S.tells store.old)
        → IfOk result (λ there. IsTrue there ↔ IsProject (bytes_of (S.reads store.old file))) }
    ensures refused { IfErr result IsRefusal }
    ensures kept { Kept S.Store store.old store.new }
    ensures cause { Causes S.Store store.old store.new result }
{
    let size = store.size(file)?.unwrap_or(0);
    let mut gate = [0u8; 1];
    let count = store.read_at(file, 0, &mut gate)?;
    Ok(is_open(size, count, gate[0]))
}

/// Whether a project is there, in file 0 or 1.
fn is_there<S: Store>(store: &mut S) -> Result<bool, OpenFault>
    ensures there { IsTrue (S.tells store.old)
        → IfOk result (λ there. IsTrue there ↔ HasSome (S.reads store.old)) }
    ensures refused { IfErr result IsRefusal }
    ensures kept { Kept S.Store store.old store.new }
    ensures cause { Causes S.Store store.old store.new result }
{
    let first = is_in(store, 0)?;
    let second = is_in(store, 1)?;
    Ok(one_of(first, second))
}

/// Whether one of them holds.
fn one_of(first: bool, second: bool) -> bool
    ensures { result ≡ (first || second) }
{
    first || second
}

/// The same by the file's size, how many bytes a read of its first gave, and that byte.
fn is_open(size: u64, count: usize, gate: u8) -> bool
    ensures { (content : Option (List ℕ)) → IsFront content size count gate
        → IsTrue result ↔ IsProject (bytes_of content) }
{
    size >= 33 && count == 1 && gate != 0
}

/// Whether a project may be made: none is there, and no file is foreign.
fn may_create<S: Store>(alloc: Global, store: &mut S) -> Result<(), OpenFault>
    ensures answer { IsTrue (S.tells store.old) → Creates (S.reads store.old) result }
    ensures refusals { IfErr result IsCreateRefusal }
    ensures kept { Kept S.Store store.old store.new }
    ensures cause { Causes S.Store store.old store.new result }
{
    match is_there(store) {
        Ok(false) => list_none(alloc, store),
        Ok(true) => Err(OpenFault::Exists),
        Err(fault) => Err(fault),
    }
}

/// Whether no file is foreign.
fn list_none<S: Store>(alloc: Global, store: &mut S) -> Result<(), OpenFault>
    ensures lists { IsTrue (S.tells store.old) → HasNoForeign (S.reads store.old) result }
    ensures refusals { IfErr result IsCreateRefusal }
    ensures kept { Kept S.Store store.old store.new }
    ensures cause { Causes S.Store store.old store.new result }
{
    match list_files(alloc, store) {
        Ok(_files) => Ok(()),
        Err(fault) => Err(fault),
    }
}

/// Makes the journal of a new project, where none is there.
fn make<S: Store>(store: &mut S, rate: u32, block_size: u32, depth: u32) -> Result<(), OpenFault>
    requires { IsFormat rate block_size depth }
    ensures any_moment { IsTrue (S.tells store.old) → NoProject 1 (S.reads store.old) → EachSince S.Store store.old store.new
        (λ c. S.may_leave store.old (S.clock store.old) c
        ⊎ (NoProject 0 c ⊎ HasLog (form_3 0) (fresh rate block_size depth) c)) }
    ensures other_moment { IsTrue (S.tells store.old) → NoProject 1 (S.reads store.old)
        → EachSince S.Store store.old store.new (λ c. S.may_leave store.old (S.clock store.old) c ⊎ NoProject 1 c) }
    ensures done { IsTrue (S.tells store.old) → NoProject 1 (S.reads store.old)
        → OnOk result (IsAt (form_3 0) S.Store store.new FIRST_RECORD (fresh rate block_size depth)) }
    ensures answer { IsTrue (S.tells store.old) → NoProject 0 (S.reads store.old)
        → IfErr result (λ e. e ≡ OpenFault.DiskFault) }
    ensures refusals { IfErr result IsCreateRefusal }
    ensures durable { OnOk result (IsDurable S.Store store.new 0) }
    ensures cause { Causes S.Store store.old store.new result }
    ensures left { LeavesRefused S.Store store.old store.new result }
    ensures changed { Changed S.Store (SameElsewhere 0) (create_room (S.reads store.old 0)) store.old store.new }
{
    match project_journal::create(store, rate, block_size, depth) {
        Ok(()) => Ok(()),
        Err(JournalFault::Exists) => Err(OpenFault::Exists),
        // A creation has no answer but these.
        Err(_) => Err(OpenFault::DiskFault),
    }
}

/// Makes a project without commits, where none is there. The rate is frames a second, from 1. The largest blocks have
/// `block_size` samples, an even number from 4 to 262,144. The depth is how many points a history keeps, 1 to 65,536.
///
/// # Errors
///
/// Exists: a project is there. Foreign: a file is there that is neither of a journal nor a block, the least of them.
/// Both leave the store as it was, and so does NoMemory. After DiskFault a stop leaves no project, the new one, or what
/// it could leave before.
pub fn create<S: Store>(
    alloc: Global,
    store: &mut S,
    rate: u32,
    block_size: u32,
    depth: u32,
) -> Result<(), OpenFault>
    requires { IsFormat rate block_size depth }

    // At any moment each image, but one that the store could already leave, has no project or keeps the new one.
    ensures any_moment { IsTrue (S.tells store.old) → EachSince S.Store store.old store.new
        (λ c. S.may_leave store.old (S.clock store.old) c
        ⊎ (HasNone c ⊎ Keeps c (new_opened rate block_size depth))) }
    // After it the store and each image keep the new one.
    ensures done { IsTrue (S.tells store.old)
        → OnOk result (Keeps (S.reads store.new) (new_opened rate block_size depth)
        × EachNow S.Store store.new (λ c. Keeps c (new_opened rate block_size depth))) }
    // Its journal is a header of version 3 in file 0, with one point.
    ensures journal { IsTrue (S.tells store.old)
        → OnOk result (IsAt (form_3 0) S.Store store.new FIRST_RECORD (fresh rate block_size depth)) }
    ensures answer { IsTrue (S.tells store.old) → Creates (S.reads store.old) result }
    // An honest disk stays so, whatever is answered.
    ensures honest { IsHonest S.Store store.old → IsHonest S.Store store.new }
    // On every store these alone refuse, and after Ok the file is on the disk.
    ensures refusals { IfErr result IsCreateRefusal }
    ensures durable { OnOk result (IsDurable S.Store store.new 0) }
    ensures cause { Causes S.Store store.old store.new result }
    ensures left { LeavesRefused S.Store store.old store.new result }
    // Nothing else changes, and the store has no more to do than this.
    ensures changed { Changed S.Store (SameElsewhere 0) (create_room (S.reads store.old 0)) store.old store.new }
{
    match may_create(alloc, store) {
        Ok(()) => make(store, rate, block_size, depth),
        Err(fault) => Err(fault),
    }
}
