// A call that is refused as a whole.
ghost use Rattle.std.specs.Prelude.{◌≡◌};
ghost use Rattle.script_text.specs.CallFault.{refused_text};
ghost use Rattle.session_run.specs.Refused.{IsDone, call_fault_of, status_of_fault};
ghost use Rattle.script_reader.specs.Change.{change};
ghost use Rattle.session_run.specs.Streams.{PrintsFrom, output};

use super::ending::Done;
use edit_ports::Sink;
use editor_recovery::OpenFault;
use script_text::{CallFault, write_refused};
use std::alloc::Global;

/// What is told of a project that is not opened, made or whole.
pub fn call_fault(fault: OpenFault) -> CallFault
    ensures { result ≡ call_fault_of fault }
{
    match fault {
        OpenFault::Absent => CallFault::Absent,
        OpenFault::Exists => CallFault::Exists,
        OpenFault::Damaged {
            file,
            at,
            want,
            have,
        } => CallFault::Damaged {
            file,
            at,
            want,
            have,
        },
        OpenFault::Foreign { file } => CallFault::Foreign { file },
        OpenFault::DiskFault => CallFault::DiskFault,
        OpenFault::NoMemory => CallFault::NoMemory,
    }
}

fn status_of_fault(fault: CallFault) -> u8
    ensures { result ≡ status_of_fault fault }
{
    match fault {
        CallFault::Usage => 2,
        CallFault::Exists
        | CallFault::Absent
        | CallFault::Damaged { .. }
        | CallFault::Foreign { .. } => 3,
        CallFault::DiskFault => 4,
        CallFault::NoMemory => 5,
    }
}

/// Prints why a call is refused, and hands the store back. A fault of the output is told by its count.
pub fn refuse<O: Sink, S>(alloc: Global, out: &mut O, store: S, fault: CallFault) -> Done<S>
    ensures printed { PrintsFrom (output O.Sink (change out.old out.new)) (refused_text fault) }
    ensures done { IsDone (status_of_fault fault) result }
    ensures store { result.store ≡ store }
{
    let _ = write_refused(out, fault);
    Done::without_script(alloc, status_of_fault(fault), store)
}
