// The files that a store in memory knows, each with where its calls are.
ghost use Rattle.std.specs.Prelude.{◌≡◌, ◌≢◌, ◌+◌, ◌≤◌, ◌<◌, ◌==◌, if◌then◌else◌, ℕ, false, IsTrue, None, Some, IfSome};
ghost use Rattle.std.specs.Prelude.{IsNone, IsSome, IsOk, OnOk, length, slice_index_or, vec_len, vec_capacity};
ghost use Rattle.memory_disk.specs.Index.{AreRising, head_of, size_from};

use std::alloc::AllocError;

/// A file with its first and last call since it was made, as indices of the list of calls, and its size as it reads.
#[derive(Clone, Copy, Debug)]
pub struct Head {
    pub file: u64,
    pub first: usize,
    pub last: usize,
    pub size: Option<u64>,
}

// How many heads are of files below this one.
fn place_of(heads: &[Head], file: u64) -> usize
    requires { AreRising heads.now }
    ensures bound { result ≤ length heads.now }
    ensures before { (k : ℕ) (d : Head) → k < result → (slice_index_or heads.now k d).file < file }
    ensures behind { (k : ℕ) (d : Head) → result ≤ k → k < length heads.now
        → file ≤ (slice_index_or heads.now k d).file }
{
    heads.partition_point(|head| head.file < file)
}

// Whether the head of this place is the file's.
fn is_at(heads: &[Head], place: usize, file: u64) -> bool
    ensures yes { IsTrue result → (d : Head)
        → (place < length heads.now) × ((slice_index_or heads.now place d).file ≡ file) }
    ensures no { result ≡ false → (d : Head) → place < length heads.now
        → (slice_index_or heads.now place d).file ≢ file }
{
    place < heads.len() && heads[place].file == file
}

// The file's head, where it has one.
pub(crate) fn find(heads: &[Head], file: u64) -> Option<Head>
    requires { AreRising heads.now }
    ensures { result ≡ head_of heads.now file }
{
    let place = place_of(heads, file);
    if is_at(heads, place, file) {
        Some(heads[place])
    } else {
        None
    }
}

// The same, where the file is there.
pub(crate) fn find_present(heads: &[Head], file: u64) -> Option<Head>
    requires { AreRising heads.now }
    ensures there { IfSome result (λ head. (head_of heads.now file ≡ Some head) × IsSome head.size) }
    ensures absent { IsNone result → size_from (head_of heads.now file) ≡ None }
{
    match find(heads, file) {
        Some(head) => if head.size.is_some() {
            Some(head)
        } else {
            None
        },
        None => None,
    }
}

// Puts the head in place of the file's old one, or among the others.
pub(crate) fn put(heads: &mut Vec<Head>, head: Head) -> Result<(), AllocError>
    requires { AreRising heads.old.items }
    ensures rising { OnOk result (AreRising heads.new.items) }
    ensures put { OnOk result
        ((f : ℕ) → head_of heads.new.items f ≡ (if head.file == f then Some head else head_of heads.old.items f)) }
    ensures known { IsSome (head_of heads.old.items head.file) → IsOk result × (vec_len heads.new ≡ vec_len heads.old) }
    ensures room { vec_len heads.old < vec_capacity heads.old → IsOk result }
    ensures len { vec_len heads.new ≤ vec_len heads.old + 1 }
    ensures capacity { vec_capacity heads.old ≤ vec_capacity heads.new }
{
    let place = place_of(heads, head.file);
    if is_at(heads, place, head.file) {
        heads[place] = head;
    } else {
        heads.insert(place, head)?;
    }
    Ok(())
}
