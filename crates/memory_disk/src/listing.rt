// The files that are there.
ghost use Rattle.std.specs.Prelude.{ℕ, OnOk, Contains, IsSome, ◌↔◌};
ghost use Rattle.std.specs.List.Sorted.{IsStrictlyIncreasing};
ghost use Rattle.memory_disk.specs.Index.{AreRising, head_of, size_from};

use crate::heads::Head;
use std::alloc::AllocError;

// Lists their numbers, rising.
pub(crate) fn list_files(heads: &[Head], out: &mut Vec<u64>) -> Result<(), AllocError>
    requires { AreRising heads.now }
    ensures listed { OnOk result ((n : ℕ) → Contains out.new.items n ↔ IsSome (size_from (head_of heads.now n))) }
    ensures rising { OnOk result (IsStrictlyIncreasing out.new.items) }
{
    out.clear();
    for head in heads {
        if head.size.is_some() {
            out.push(head.file)?;
        }
    }
    Ok(())
}
