// What is read of a file, along its own calls.
ghost use Rattle.std.specs.Prelude.{◌≡◌, ◌+◌, ◌-◌, ◌≤◌, ◌++◌, min, IsSome, length, take, drop};
ghost use Rattle.pcm_base.specs.declared.limits.TheConstants.{COUNTER_LIMIT};
ghost use Rattle.disk_model.specs.Disk.{bytes_of};
ghost use Rattle.memory_disk.specs.History.{reads_of};
ghost use Rattle.memory_disk.specs.Calls.{AllHeld, IsWindow, history_of};
ghost use Rattle.memory_disk.specs.Index.{IsChain, IsHead, reads_at, file_at};

use crate::call::Call;
use crate::heads::Head;
use crate::replay::show_call;

// Fills the window with what the file has there after all of the calls, and with 0 past its end.
fn show_chain(calls: &[Call], row: &[u8], links: &[usize], head: &Head, at: u64, buf: &mut [u8])
    requires held { AllHeld (length row.now) calls.now }
    requires chain { IsChain (reads_at row.now calls.now) (file_at calls.now) (length calls.now) links.now head.now }
    requires long { length links.now ≡ length calls.now }
    requires window { at + length buf.old ≤ COUNTER_LIMIT }
    ensures { IsWindow (bytes_of (reads_of (history_of row.now calls.now) head.now.file)) at buf.new }
{
    buf.fill(0);
    let mut next = head.first;
    while next < head.last {
        show_call(&calls[next], row, head.file, at, buf);
        next = links[next];
    }
    show_call(&calls[head.last], row, head.file, at, buf);
}

// Fills the buffer from an offset on, less only at the file's end.
pub(crate) fn read_part(
    calls: &[Call],
    row: &[u8],
    links: &[usize],
    head: &Head,
    at: u64,
    buf: &mut [u8],
) -> usize
    requires held { AllHeld (length row.now) calls.now }
    requires head { IsHead (reads_at row.now calls.now) (file_at calls.now) (length calls.now) links.now head.now }
    requires there { IsSome head.now.size }
    requires long { length links.now ≡ length calls.now }
    requires window { at + length buf.old ≤ COUNTER_LIMIT }
    ensures read { buf.new ≡ take result (drop at (bytes_of (reads_of (history_of row.now calls.now) head.now.file)))
        ++ drop result buf.old }
    ensures count { result
        ≡ min (length buf.old) (length (bytes_of (reads_of (history_of row.now calls.now) head.now.file)) - at) }
{
    let left = head.size.unwrap_or(0).saturating_sub(at);
    let n = left.min(buf.len() as u64) as usize;
    show_chain(calls, row, links, head, at, &mut buf[..n]);
    n
}
