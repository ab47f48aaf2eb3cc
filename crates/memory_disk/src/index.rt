// The index of a list of calls by file: what is read of a file takes the calls of that file alone.
ghost use Rattle.std.specs.Prelude.{◌≡◌, [], ◌+◌, ◌≤◌, ◌<◌, ◌==◌, if◌then◌else◌, ℕ, Some, IfOk, IsOk, OnOk, length};
ghost use Rattle.std.specs.Prelude.{slice_set, vec_len, vec_capacity};
ghost use Rattle.memory_disk.specs.Calls.{AllHeld};
ghost use Rattle.memory_disk.specs.Index.{AreRising, IsIndexed, MakesFile, reads_at, file_at, head_of, size_from};

use crate::call::Call;
use crate::heads::{Head, find, find_present, put};
use crate::replay::size_after;
use std::alloc::{AllocError, Global};

// The heads of the files that were made, rising, and for each call but the last of a file the index of the file's next.
#[derive(Drop)]
pub(crate) struct Index {
    pub(crate) heads: Vec<Head>,
    pub(crate) links: Vec<usize>,
}

impl Index {
    // Of no call, with room for this many files and calls.
    pub(crate) fn new(alloc: Global, files: usize, calls: usize) -> Result<Index, AllocError>
        ensures none { IfOk result (λ index. (index.heads.items ≡ []) × (index.links.items ≡ [])) }
        ensures empty { IfOk result (λ index. (vec_len index.heads ≡ 0) × (vec_len index.links ≡ 0)) }
        ensures files { IfOk result (λ index. files ≤ vec_capacity index.heads) }
        ensures calls { IfOk result (λ index. calls ≤ vec_capacity index.links) }
    {
        Ok(Index {
            heads: Vec::with_capacity(alloc, files)?,
            links: Vec::with_capacity(alloc, calls)?,
        })
    }

    // The file's size, None where it is absent.
    pub(crate) fn size(&self, file: u64) -> Option<u64>
        requires { AreRising self.now.heads.items }
        ensures { result ≡ size_from (head_of self.now.heads.items file) }
    {
        match find(&self.heads, file) {
            None => None,
            Some(head) => head.size,
        }
    }

    // Notes the first of the calls that it does not have yet.
    pub(crate) fn note(&mut self, calls: &[Call], row: &[u8]) -> Result<(), AllocError>
        requires held { AllHeld (length row.now) calls.now }
        requires more { vec_len self.old.links < length calls.now }
        requires indexed { IsIndexed (reads_at row.now calls.now) (file_at calls.now)
            (vec_len self.old.links) self.old.heads.items self.old.links.items }
        ensures indexed { OnOk result (IsIndexed (reads_at row.now calls.now) (file_at calls.now)
            (vec_len self.old.links + 1) self.new.heads.items self.new.links.items) }
        ensures room { vec_len self.old.links < vec_capacity self.old.links
            → (MakesFile (reads_at row.now calls.now) (file_at calls.now) (vec_len self.old.links)
            → vec_len self.old.heads < vec_capacity self.old.heads)
            → IsOk result }
        ensures files { (MakesFile (reads_at row.now calls.now) (file_at calls.now) (vec_len self.old.links) → ⊥)
            → vec_len self.new.heads ≡ vec_len self.old.heads }
        ensures more_files { vec_len self.new.heads ≤ vec_len self.old.heads + 1 }
        ensures len { OnOk result (vec_len self.new.links ≡ vec_len self.old.links + 1) }
        ensures heads_room { vec_capacity self.old.heads ≤ vec_capacity self.new.heads }
        ensures links_room { vec_capacity self.old.links ≤ vec_capacity self.new.links }
    {
        let at = self.links.len();
        let call = calls[at];
        self.links.push(at)?;
        match find_present(&self.heads, call.file) {
            Some(head) => {
                let size = size_after(head.size, &call, row, call.file);
                self.follow(head, at, size);
                Ok(())
            }
            None => match size_after(None, &call, row, call.file) {
                Some(size) => {
                    self.make(call.file, at, size)?;
                    Ok(())
                }
                None => Ok(()),
            },
        }
    }

    // The file's call of this index comes after its last, and leaves it with this size.
    fn follow(&mut self, head: Head, at: usize, size: Option<u64>)
        requires rising { AreRising self.old.heads.items }
        requires known { head_of self.old.heads.items head.file ≡ Some head }
        requires within { head.last < vec_len self.old.links }
        ensures rising { AreRising self.new.heads.items }
        ensures heads { (f : ℕ) → head_of self.new.heads.items f ≡ (if head.file == f then Some (record head {
          last = at;
          size = size;
        }) else head_of self.old.heads.items f) }
        ensures links { self.new.links.items ≡ slice_set self.old.links.items head.last at }
        ensures links_len { vec_len self.new.links ≡ vec_len self.old.links }
        ensures len { vec_len self.new.heads ≡ vec_len self.old.heads }
        ensures heads_room { vec_capacity self.old.heads ≤ vec_capacity self.new.heads }
        ensures links_room { vec_capacity self.old.links ≤ vec_capacity self.new.links }
    {
        self.links[head.last] = at;
        let _ = put(
            &mut self.heads,
            Head {
                file: head.file,
                first: head.first,
                last: at,
                size,
            },
        );
    }

    // The call of this index makes the file.
    fn make(&mut self, file: u64, at: usize, size: u64) -> Result<(), AllocError>
        requires rising { AreRising self.old.heads.items }
        ensures rising { OnOk result (AreRising self.new.heads.items) }
        ensures heads { OnOk result ((f : ℕ) → head_of self.new.heads.items f ≡ (if file == f then Some
            (record { file = file; first = at; last = at; size = Some size }) else head_of self.old.heads.items f)) }
        ensures links { self.new.links ≡ self.old.links }
        ensures room { vec_len self.old.heads < vec_capacity self.old.heads → IsOk result }
        ensures len { vec_len self.new.heads ≤ vec_len self.old.heads + 1 }
        ensures heads_room { vec_capacity self.old.heads ≤ vec_capacity self.new.heads }
    {
        put(
            &mut self.heads,
            Head {
                file,
                first: at,
                last: at,
                size: Some(size),
            },
        )
    }
}

// The index of these calls, with room for this many files and calls more.
pub(crate) fn index_of(
    alloc: Global,
    calls: &[Call],
    row: &[u8],
    files: usize,
    more_calls: usize,
) -> Result<Index, AllocError>
    requires { AllHeld (length row.now) calls.now }
    ensures indexed { IfOk result (λ index. IsIndexed (reads_at row.now calls.now) (file_at calls.now)
        (length calls.now) index.heads.items index.links.items) }
    ensures files { IfOk result (λ index. vec_len index.heads + files ≤ vec_capacity index.heads) }
    ensures calls { IfOk result (λ index. vec_len index.links + more_calls ≤ vec_capacity index.links) }
{
    let mut index = Index::new(alloc, files, calls.len())?;
    while index.links.len() < calls.len() {
        index.note(calls, row)?;
    }
    index.heads.reserve_exact(files)?;
    index.links.reserve_exact(more_calls)?;
    Ok(index)
}
