// The list of calls and the row of bytes of a store in memory.
ghost use Rattle.std.specs.Prelude.{◌<◌, vec_len, vec_capacity, IsOk, ◌≡◌, ◌+◌, ◌≤◌, ◌∷◌, [], length, take, OnOk};
ghost use Rattle.std.specs.Prelude.{OnErr};
ghost use Rattle.pcm_base.specs.declared.limits.TheConstants.{COUNTER_LIMIT};
ghost use Rattle.memory_disk.specs.History.{Wrote};
ghost use Rattle.memory_disk.specs.Calls.{step_by, history_of, AllHeld};
ghost use Rattle.memory_disk.specs.Index.{file_at};

use crate::call::{Call, Kind};
use std::alloc::AllocError;

// Notes a write, where there is room for it.
pub(crate) fn note_write(
    calls: &mut Vec<Call>,
    row: &mut Vec<u8>,
    file: u64,
    at: u64,
    bytes: &[u8],
) -> Result<(), AllocError>
    requires fits { at + length bytes.now ≤ COUNTER_LIMIT }
    requires held { AllHeld (length row.old.items) calls.old.items }
    ensures ok { OnOk result (history_of row.new.items calls.new.items ≡ Wrote file at bytes.now
        ∷ history_of row.old.items calls.old.items) }
    ensures err { OnErr result (history_of row.new.items calls.new.items ≡ history_of row.old.items calls.old.items) }
    ensures kept { OnOk result (take (length row.old.items) row.new.items ≡ row.old.items) }
    ensures earlier { OnOk result (take (length calls.old.items) calls.new.items ≡ calls.old.items) }
    ensures file { OnOk result (file_at calls.new.items (length calls.old.items) ≡ file) }
    ensures held { AllHeld (length row.new.items) calls.new.items }
    ensures room { vec_len calls.old < vec_capacity calls.old
        → vec_len row.old + length bytes.now ≤ vec_capacity row.old → IsOk result }
    ensures calls { OnOk result (vec_len calls.new ≡ vec_len calls.old + 1) }
    ensures calls_room { vec_capacity calls.old ≤ vec_capacity calls.new }
    ensures bytes { OnOk result (vec_len row.new ≡ vec_len row.old + length bytes.now) }
    ensures bytes_room { vec_capacity row.old ≤ vec_capacity row.new }
{
    if calls.len() >= calls.capacity() || row.capacity() - row.len() < bytes.len() {
        return Err(AllocError);
    }
    let from = row.len();
    row.extend_from_slice(bytes)?;
    calls.push(Call {
        kind: Kind::Write,
        file,
        at,
        from,
        len: bytes.len(),
    })?;
    Ok(())
}

// Notes a sync or a removal.
pub(crate) fn note_mark(
    calls: &mut Vec<Call>,
    row: &[u8],
    kind: Kind,
    file: u64,
) -> Result<(), AllocError>
    requires { AllHeld (length row.now) calls.old.items }
    ensures ok { OnOk result
        (history_of row.now calls.new.items ≡ step_by kind file 0 [] ∷ history_of row.now calls.old.items) }
    ensures err { OnErr result (calls.new.items ≡ calls.old.items) }
    ensures earlier { OnOk result (take (length calls.old.items) calls.new.items ≡ calls.old.items) }
    ensures file { OnOk result (file_at calls.new.items (length calls.old.items) ≡ file) }
    ensures held { AllHeld (length row.now) calls.new.items }
    ensures room { vec_len calls.old < vec_capacity calls.old → IsOk result }
    ensures calls { OnOk result (vec_len calls.new ≡ vec_len calls.old + 1) }
    ensures calls_room { vec_capacity calls.old ≤ vec_capacity calls.new }
{
    if calls.len() >= calls.capacity() {
        return Err(AllocError);
    }
    calls.push(Call {
        kind,
        file,
        at: 0,
        from: 0,
        len: 0,
    })?;
    Ok(())
}
