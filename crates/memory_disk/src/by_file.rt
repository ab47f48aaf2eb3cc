// A list of calls put in order by file.
ghost use Rattle.std.specs.Prelude.{◌≡◌, ℕ, IfOk, length};
ghost use Rattle.memory_disk.specs.Calls.{AllHeld};
ghost use Rattle.memory_disk.specs.ByFile.{IsByFile, calls_of};

use crate::call::Call;
use std::alloc::{AllocError, Global};

// The calls file by file, rising, and those of a file in order of making.
pub(crate) fn by_file(alloc: Global, calls: &[Call]) -> Result<Vec<Call>, AllocError>
    ensures rising { IfOk result (λ sorted. IsByFile sorted.items) }
    ensures same { IfOk result (λ sorted. (f : ℕ) → calls_of f sorted.items ≡ calls_of f calls.now) }
    ensures held { IfOk result (λ sorted. (n : ℕ) → AllHeld n calls.now → AllHeld n sorted.items) }
{
    let mut sorted = Vec::new(alloc);
    sorted.extend_from_slice(calls)?;
    sorted.sort_by_key(|call| call.file)?;
    Ok(sorted)
}

// Those of the file.
pub(crate) fn file_calls(sorted: &[Call], file: u64) -> &[Call]
    requires { IsByFile sorted.now }
    ensures { result.now ≡ calls_of file sorted.now }
{
    let from = sorted.partition_point(|call| call.file < file);
    let to = sorted.partition_point(|call| call.file <= file);
    &sorted[from..to]
}
