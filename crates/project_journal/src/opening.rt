// Opens the journal of a store.
ghost use Rattle.std.specs.Prelude.{◌≡◌, ◌≤◌, [], IsTrue, IfOk, IsErrOf, OnOk, length};
ghost use Rattle.pcm_base.specs.Causes.{HasCause};
ghost use Rattle.disk_model.specs.Disk.{bytes_of, StaysStep};
ghost use Rattle.disk_model.specs.Frames.{Kept, Changed};
ghost use Rattle.project_journal.specs.Answer.{Causes, Starts};
ghost use Rattle.project_journal.specs.Fields.{field};
ghost use Rattle.project_journal.specs.Gate.{IsDurable};
ghost use Rattle.project_journal.specs.Header.{form_of};
ghost use Rattle.project_journal.specs.Opening.{Chooses, ChoosesSome, Opens, OpensSome, StartsIn, StartsSome};
ghost use Rattle.project_journal.specs.Reader.{IsHeading, started};

use super::base::Base;
use super::base_header::{base_of, head_of};
use super::choosing::{choose, in_file, is_project};
use super::fault::JournalFault;
use super::fields::u32_at;
use super::form::{BASE_HEADER_SIZE, BASE_VERSION, FILE, NO_BASE, OTHER};
use super::front::read_front;
use super::header::test_header;
use super::reader::Reader;
use super::window::{Window, first_window};
use disk_model::{Store, sync_file};
use pcm_base::{Failed, LEAST_END};
use std::alloc::Global;

// What the front of a file says of its header.
fn test_front(file: u64, bytes: &[u8]) -> Result<(), JournalFault>
    ensures starts { Starts (form_of (field 5 4 bytes.now) file) bytes.now result }
    ensures no_fault { IsErrOf result JournalFault.DiskFault → ⊥ }
{
    if !is_project(bytes) {
        return Err(JournalFault::Absent);
    }
    match test_header(bytes) {
        Ok(()) => Ok(()),
        Err(damaged) => Err(in_file(file, damaged)),
    }
}

// What the header says of the project, and how many bytes it has before its points.
fn base_in(bytes: &[u8], version: u32) -> (Base, usize)
    ensures base { result.0 ≡ (form_of version 0).base_at bytes.now }
    ensures size { result.1 ≡ (form_of version 0).header_size }
{
    if version < BASE_VERSION {
        return (NO_BASE, LEAST_END as usize);
    }
    (base_of(&head_of(bytes)), BASE_HEADER_SIZE)
}

// A reader at the end of the fields of its header.
fn reader_of(window: Window) -> Reader
    requires { 33 ≤ length window.row.items }
    ensures { result ≡ started window }
{
    let version = u32_at(&window.row, 5);
    let (base, size) = base_in(&window.row, version);
    Reader {
        version,
        rate: u32_at(&window.row, 9),
        block_size: u32_at(&window.row, 13),
        depth: u32_at(&window.row, 17),
        base,
        window,
        at: size as u64,
        len: 0,
    }
}

// The reader of a journal whose first bytes these are.
fn start(window: Window) -> Result<Reader, JournalFault>
    ensures starts { Starts (form_of (field 5 4 window.row.items) window.file) window.row.items result }
    ensures reader { IfOk result (λ r. r ≡ started window) }
    ensures no_fault { IsErrOf result JournalFault.DiskFault → ⊥ }
{
    match test_front(window.file, &window.row) {
        Ok(()) => Ok(reader_of(window)),
        Err(fault) => Err(fault),
    }
}

// The reader of the journal in a file.
fn start_in<S: Store>(alloc: Global, store: &mut S, file: u64) -> Result<Reader, JournalFault>
    requires { file ≤ 1 }
    ensures starts { IsTrue (S.tells store.old) → StartsIn file (bytes_of (S.reads store.old file)) result }
    ensures some { StartsSome file result }
    ensures heading { IfOk result (λ r. IsHeading S.Store store.new r []) }
    ensures cause { Causes S.Store store.old store.new result }
    ensures kept { Kept S.Store store.old store.new }
{
    let window = first_window(alloc, store, file)?;
    start(window)
}

// The file that the journal stands in, by what files 0 and 1 begin with.
fn choose_file<S: Store>(store: &mut S) -> Result<Option<u64>, JournalFault>
    ensures chooses { IsTrue (S.tells store.old) → Chooses (S.reads store.old) result }
    ensures some { ChoosesSome result }
    ensures cause { Causes S.Store store.old store.new result }
    ensures kept { Kept S.Store store.old store.new }
{
    let mut first = [0u8; 33];
    let mut second = [0u8; 33];
    let one = read_front(store, FILE, &mut first)?;
    let two = read_front(store, OTHER, &mut second)?;
    choose(&first[..one], &second[..two])
}

// The reader of the journal, where a project is there.
fn start_chosen<S: Store>(alloc: Global, store: &mut S) -> Result<Reader, JournalFault>
    ensures opens { IsTrue (S.tells store.old) → Opens (S.reads store.old) result }
    ensures some { OpensSome result }
    ensures heading { IfOk result (λ r. IsHeading S.Store store.new r []) }
    ensures cause { Causes S.Store store.old store.new result }
    ensures kept { Kept S.Store store.old store.new }
{
    match choose_file(store)? {
        Some(file) => start_in(alloc, store, file),
        None => Err(JournalFault::Absent),
    }
}

// Brings both files of journals to the disk as they are.
fn sync_both<S: Store>(store: &mut S) -> Result<(), Failed>
    ensures durable { OnOk result (IsDurable S.Store store.new 0) }
    ensures other { OnOk result (IsDurable S.Store store.new 1) }
    ensures reads { S.reads store.new ≡ S.reads store.old }
    ensures changed { Changed S.Store StaysStep (record { files = 0; bytes = 0; calls = 2 }) store.old store.new }
    ensures faults { HasCause (S.change_fault_count store.old) (S.change_fault_count store.new) result }
    ensures read_faults { S.read_fault_count store.new ≡ S.read_fault_count store.old }
{
    sync_other(store)?;
    sync_file(store, FILE)
}

// Brings file 1 to the disk as it is.
fn sync_other<S: Store>(store: &mut S) -> Result<(), Failed>
    ensures other { OnOk result (IsDurable S.Store store.new 1) }
    ensures reads { S.reads store.new ≡ S.reads store.old }
    ensures changed { Changed S.Store StaysStep (record { files = 0; bytes = 0; calls = 1 }) store.old store.new }
    ensures faults { HasCause (S.change_fault_count store.old) (S.change_fault_count store.new) result }
    ensures read_faults { S.read_fault_count store.new ≡ S.read_fault_count store.old }
{
    sync_file(store, OTHER)
}

/// A reader of the journal of files 0 and 1, once both are on the disk: it is that of the file that holds a project, or
/// of the newer one where both do. `Absent` where no project is there, and `Damaged` for the first fault of the choice
/// or of the header's fields.
pub fn open_journal<S: Store>(alloc: Global, store: &mut S) -> Result<Reader, JournalFault>
    ensures opens { IsTrue (S.tells store.old) → Opens (S.reads store.old) result }
    // On every store the answer is that of some files.
    ensures some { OpensSome result }
    ensures heading { IfOk result (λ r. IsHeading S.Store store.new r []) }
    ensures durable { OnOk result (IsDurable S.Store store.new 0) }
    ensures other { OnOk result (IsDurable S.Store store.new 1) }
    ensures cause { Causes S.Store store.old store.new result }
    ensures reads { S.reads store.new ≡ S.reads store.old }
    // Nothing else changes, and no more than two syncs are asked of the store.
    ensures changed { Changed S.Store StaysStep (record { files = 0; bytes = 0; calls = 2 }) store.old store.new }
{
    sync_both(store)?;
    start_chosen(alloc, store)
}
