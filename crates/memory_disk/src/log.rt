// The calls that changed a store in memory, with the room that was taken for them.
ghost use Rattle.std.specs.Prelude.{◌≡◌, ◌≢◌, ◌∷◌, ◌+◌, ◌-◌, ◌≤◌, ◌↔◌, ◌++◌, [], ℕ, min, length, take, drop};
ghost use Rattle.std.specs.Prelude.{vec_len, vec_capacity, IsErr, IfOk, IfSome, IsNone, IsSome, None, OnOk, OnErr};
ghost use Rattle.std.specs.Prelude.{Contains, is_some};
ghost use Rattle.std.specs.List.Sorted.{IsStrictlyIncreasing};
ghost use Rattle.std.specs.Option.{option_map};
ghost use Rattle.pcm_base.specs.declared.limits.TheConstants.{COUNTER_LIMIT};
ghost use Rattle.disk_model.specs.Disk.{bytes_of};
ghost use Rattle.memory_disk.specs.History.{reads_of};
ghost use Rattle.memory_disk.specs.Images.{image_of};
ghost use Rattle.memory_disk.specs.Settled.{IsSettled};
ghost use Rattle.memory_disk.specs.Calls.{step_by, history_of, AllHeld};
ghost use Rattle.memory_disk.specs.Ram.{IsFull, files_after, with_write, with_sync, with_removal};

use crate::build::build;
use crate::call::{Call, Kind};
use crate::chain::read_part;
use crate::heads::find_present;
use crate::index::{Index, index_of};
use crate::listing::list_files;
use crate::record::{note_mark, note_write};
use std::alloc::{AllocError, Global};
use std::marker::Model;

/// There is no room for the call.
#[derive(Clone, Copy, Debug)]
pub(crate) struct Full;

/// A write's bytes stand in the row, and the index has the calls of each file.
#[derive(Drop)]
pub(crate) struct CallLog {
    calls: Vec<Call>,
    row: Vec<u8>,
    index: Index,
    files_left: usize,
    bytes_left: usize,
    calls_left: usize,
}

impl Model for CallLog {
    ghost use Rattle.std.specs.Prelude.{◌+◌, ◌≤◌, length, vec_len, vec_capacity};
    ghost use Rattle.memory_disk.specs.Calls.{history_of, AllHeld};
    ghost use Rattle.memory_disk.specs.Index.{IsIndexed, reads_at, file_at};
    ghost use Rattle.memory_disk.specs.Ram.{Log};

    ghost Value = { Log };

    ghost view = { λ s. record {
      history = history_of s.row.items s.calls.items;
      files_left = s.files_left;
      bytes_left = s.bytes_left;
      calls_left = s.calls_left;
    } };

    ghost invariant = { λ s. record {
      held : AllHeld (length s.row.items) s.calls.items;
      bytes : vec_len s.row + s.bytes_left ≤ vec_capacity s.row;
      calls : vec_len s.calls + s.calls_left ≤ vec_capacity s.calls;
      files : vec_len s.index.heads + s.files_left ≤ vec_capacity s.index.heads;
      links : vec_len s.index.links + s.calls_left ≤ vec_capacity s.index.links;
      indexed : IsIndexed (reads_at s.row.items s.calls.items) (file_at s.calls.items)
          (length s.calls.items) s.index.heads.items s.index.links.items;
    } };
}

impl CallLog {
    // No call, with room for this many files, bytes and calls.
    pub(crate) fn new(
        alloc: Global,
        files: usize,
        bytes: usize,
        calls: usize,
    ) -> Result<CallLog, AllocError>
        ensures { IfOk result (λ log. log ≡ record {
          history = [];
          files_left = files;
          bytes_left = bytes;
          calls_left = calls;
        }) }
    {
        Ok(CallLog {
            calls: Vec::with_capacity(alloc, calls)?,
            row: Vec::with_capacity(alloc, bytes)?,
            index: Index::new(alloc, files, calls)?,
            files_left: files,
            bytes_left: bytes,
            calls_left: calls,
        })
    }

    // The file's size, None where it is absent.
    pub(crate) fn size(&self, file: u64) -> Option<u64>
        ensures size { result ≡ option_map length (reads_of self.now.history file) }
        ensures bound { IfSome result (λ n. n ≤ COUNTER_LIMIT) }
    {
        self.index.size(file)
    }

    // Fills the buffer from an offset on, less only at the file's end.
    pub(crate) fn read(&self, file: u64, at: u64, buf: &mut [u8]) -> usize
        requires { at + length buf.old ≤ COUNTER_LIMIT }
        ensures read { buf.new ≡ take result (drop at (bytes_of (reads_of self.now.history file)))
            ++ drop result buf.old }
        ensures count { result ≡ min (length buf.old) (length (bytes_of (reads_of self.now.history file)) - at) }
    {
        match find_present(&self.index.heads, file) {
            None => 0,
            Some(head) => read_part(&self.calls, &self.row, &self.index.links, &head, at, buf),
        }
    }

    // Lists the files that are there, rising.
    pub(crate) fn list(&self, out: &mut Vec<u64>) -> Result<(), AllocError>
        ensures listed { OnOk result ((n : ℕ) → Contains out.new.items n ↔ IsSome (reads_of self.now.history n)) }
        ensures rising { OnOk result (IsStrictlyIncreasing out.new.items) }
    {
        list_files(&self.index.heads, out)
    }

    // Notes a write, where there is room for it.
    pub(crate) fn write(&mut self, file: u64, at: u64, bytes: &[u8]) -> Result<(), Full>
        requires { at + length bytes.now ≤ COUNTER_LIMIT }
        ensures full { IsErr result ↔ IsFull self.old file (length bytes.now) }
        ensures ok { OnOk result (self.new ≡ with_write self.old file at bytes.now) }
        ensures err { OnErr result (self.new ≡ self.old) }
    {
        if self.calls_left == 0 || self.bytes_left < bytes.len() {
            return Err(Full);
        }
        take_place(self.size(file), &mut self.files_left)?;
        let _ = note_write(&mut self.calls, &mut self.row, file, at, bytes);
        let _ = self.index.note(&self.calls, &self.row);
        self.calls_left -= 1;
        self.bytes_left -= bytes.len();
        Ok(())
    }

    // Notes a sync.
    pub(crate) fn sync(&mut self, file: u64) -> Result<(), Full>
        ensures full { IsErr result ↔ (self.old.calls_left ≡ 0) }
        ensures ok { OnOk result (self.new ≡ with_sync self.old file) }
        ensures err { OnErr result (self.new ≡ self.old) }
    {
        self.mark(Kind::Sync, file)
    }

    // Notes a removal.
    pub(crate) fn remove(&mut self, file: u64) -> Result<(), Full>
        ensures full { IsErr result ↔ (self.old.calls_left ≡ 0) }
        ensures ok { OnOk result (self.new ≡ with_removal self.old file) }
        ensures err { OnErr result (self.new ≡ self.old) }
    {
        self.mark(Kind::Remove, file)
    }

    // Notes a call that has no bytes.
    fn mark(&mut self, kind: Kind, file: u64) -> Result<(), Full>
        requires { kind ≢ Kind.Write }
        ensures full { IsErr result ↔ (self.old.calls_left ≡ 0) }
        ensures ok { OnOk result (self.new ≡ record self.old {
          history = step_by kind file 0 [] ∷ self.old.history;
          calls_left = self.old.calls_left - 1;
        }) }
        ensures err { OnErr result (self.new ≡ self.old) }
    {
        if self.calls_left == 0 {
            return Err(Full);
        }
        let _ = note_mark(&mut self.calls, &self.row, kind, file);
        let _ = self.index.note(&self.calls, &self.row);
        self.calls_left -= 1;
        Ok(())
    }

    // The disk that a choice leaves, with nothing pending and the room that this one has left.
    pub(crate) fn image(&self, alloc: Global, choice: u64) -> Result<CallLog, AllocError>
        ensures reads { IfOk result (λ log. reads_of log.history ≡ image_of choice self.now.history) }
        ensures settled { IfOk result (λ log. IsSettled log.history) }
        ensures room { IfOk result (λ log. log ≡ record self.now { history = log.history }) }
    {
        let mut parts = build(alloc, &self.calls, &self.row, choice)?;
        parts.calls.reserve_exact(self.calls_left)?;
        parts.row.reserve_exact(self.bytes_left)?;
        let index = index_of(
            alloc,
            &parts.calls,
            &parts.row,
            self.files_left,
            self.calls_left,
        )?;
        Ok(CallLog {
            calls: parts.calls,
            row: parts.row,
            index,
            files_left: self.files_left,
            bytes_left: self.bytes_left,
            calls_left: self.calls_left,
        })
    }
}

// Takes one of the files that may still be made, where a file of this size is absent.
fn take_place(size: Option<u64>, files_left: &mut usize) -> Result<(), Full>
    ensures full { IsErr result ↔ (files_left.old ≡ 0) × IsNone size }
    ensures there { IsSome size → files_left.new ≡ files_left.old }
    ensures absent { IsNone size → OnOk result (files_left.old ≡ files_left.new + 1) }
    ensures err { OnErr result (files_left.new ≡ files_left.old) }
{
    if size.is_some() {
        return Ok(());
    }
    if *files_left == 0 {
        return Err(Full);
    }
    *files_left -= 1;
    Ok(())
}
