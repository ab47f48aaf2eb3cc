// What is read after a list of calls.
ghost use Rattle.std.specs.Prelude.{◌≡◌, ◌+◌, ◌≤◌, ◌<◌, ◌∷◌, ℕ, IfSome, IfOk, List, length, take, drop};
ghost use Rattle.std.specs.Option.{option_map};
ghost use Rattle.pcm_base.specs.declared.limits.TheConstants.{COUNTER_LIMIT};
ghost use Rattle.disk_model.specs.Disk.{bytes_of};
ghost use Rattle.memory_disk.specs.History.{Step, reads_of};
ghost use Rattle.memory_disk.specs.Calls.{step_of, history_of, Held, AllHeld, IsWindow, items_of};

use crate::call::{Call, Kind};
use crate::overlay::overlay;
use std::alloc::{AllocError, Global};

// The file's size after all of them, None where it is absent.
pub(crate) fn size_of(calls: &[Call], row: &[u8], file: u64) -> Option<u64>
    requires { AllHeld (length row.now) calls.now }
    ensures size { result ≡ option_map length (reads_of (history_of row.now calls.now) file) }
    ensures bounded { IfSome result (λ n. n ≤ COUNTER_LIMIT) }
{
    let mut size = None;
    for call in calls {
        size = size_after(size, call, row, file);
    }
    size
}

// The size after one call more.
pub(crate) fn size_after(size: Option<u64>, call: &Call, row: &[u8], file: u64) -> Option<u64>
    requires { Held (length row.now) call.now }
    ensures size { (h : List Step) → size ≡ option_map length (reads_of h file)
        → result ≡ option_map length (reads_of (step_of row.now call.now ∷ h) file) }
    ensures bounded { IfSome size (λ n. n ≤ COUNTER_LIMIT) → IfSome result (λ n. n ≤ COUNTER_LIMIT) }
{
    if call.file != file {
        return size;
    }
    match call.kind {
        Kind::Write => Some(size.unwrap_or(0).max(call.at + call.len as u64)),
        Kind::Sync => size,
        Kind::Remove => None,
    }
}

// Fills the window with what the file has there after all of the calls, and with 0 past its end.
pub(crate) fn read_window(calls: &[Call], row: &[u8], file: u64, at: u64, buf: &mut [u8])
    requires held { AllHeld (length row.now) calls.now }
    requires window { at + length buf.old ≤ COUNTER_LIMIT }
    ensures { IsWindow (bytes_of (reads_of (history_of row.now calls.now) file)) at buf.new }
{
    buf.fill(0);
    for call in calls {
        show_call(call, row, file, at, buf);
    }
}

// The same after one call more.
pub(crate) fn show_call(call: &Call, row: &[u8], file: u64, at: u64, buf: &mut [u8])
    requires held { Held (length row.now) call.now }
    requires window { at + length buf.old ≤ COUNTER_LIMIT }
    ensures { (h : List Step) → IsWindow (bytes_of (reads_of h file)) at buf.old
        → IsWindow (bytes_of (reads_of (step_of row.now call.now ∷ h) file)) at buf.new }
{
    if call.file != file {
        return;
    }
    match call.kind {
        Kind::Write => overlay(buf, at, call.at, bytes_in(row, call)),
        Kind::Sync => {}
        Kind::Remove => buf.fill(0),
    }
}

// The bytes that a call wrote.
pub(crate) fn bytes_in<'a>(row: &'a [u8], call: &Call) -> &'a [u8]
    requires { Held (length row.now) call.now }
    ensures { result.now ≡ take call.now.len (drop call.now.from row.now) }
{
    &row[call.from..call.from + call.len]
}

// All of the file after the calls.
pub(crate) fn content_of(
    alloc: Global,
    calls: &[Call],
    row: &[u8],
    file: u64,
) -> Result<Option<Vec<u8>>, AllocError>
    requires { AllHeld (length row.now) calls.now }
    ensures { IfOk result (λ content. items_of content ≡ reads_of (history_of row.now calls.now) file) }
{
    match size_of(calls, row, file) {
        None => Ok(None),
        Some(size) => {
            let mut content = Vec::new(alloc);
            content.resize(size as usize, 0)?;
            read_all(calls, row, file, &mut content);
            Ok(Some(content))
        }
    }
}

// Fills the list with the file from its start.
fn read_all(calls: &[Call], row: &[u8], file: u64, content: &mut Vec<u8>)
    requires held { AllHeld (length row.now) calls.now }
    requires window { length content.old.items ≤ COUNTER_LIMIT }
    ensures len { length content.new.items ≡ length content.old.items }
    ensures shows { IsWindow (bytes_of (reads_of (history_of row.now calls.now) file)) 0 content.new.items }
{
    read_window(calls, row, file, 0, content);
}
