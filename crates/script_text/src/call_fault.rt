// Why a call is refused as a whole.
ghost use Rattle.pcm_base.specs.Causes.{HasCause};
ghost use Rattle.edit_ports.specs.Told.{Writes};
ghost use Rattle.script_text.specs.Gathering.{Adds, Counts};
ghost use Rattle.script_text.specs.CallFault.{call_fault_text, refused_text};

use super::gathered::Gathered;
use super::numbers::put_named;
use super::reasons::put_damage;
use edit_ports::Sink;
use pcm_base::Failed;

/// Why a call of the program is refused as a whole, and not a line of its script. It is printed by its name, and then
/// its numbers in their order here.
#[derive(Clone, Copy, Debug, PartialEq, Eq, Drop)]
pub enum CallFault {
    /// The words are no command. It is printed in small letters, as `usage`.
    Usage,
    /// A project is there, where one is to be made.
    Exists,
    /// No project is there.
    Absent,
    /// At a place of a file stands `have` where the format asks for `want`; or the file has that many bytes.
    Damaged {
        file: u64,
        at: u64,
        want: u128,
        have: u128,
    },
    /// A file is there that is no file of a project.
    Foreign {
        file: u64,
    },
    /// The disk failed.
    DiskFault,
    /// There was no memory to begin.
    NoMemory,
}

fn put_call_fault<O: Sink>(text: &mut Gathered, out: &mut O, fault: CallFault)
    ensures bytes { Adds text.old (O.written out.old) text.new (O.written out.new) (call_fault_text fault) }
    ensures cause { Counts text.old (O.fault_count out.old) text.new (O.fault_count out.new) }
{
    match fault {
        CallFault::Usage => text.put(out, b"usage"),
        CallFault::Exists => text.put(out, b"Exists"),
        CallFault::Absent => text.put(out, b"Absent"),
        CallFault::Damaged {
            file,
            at,
            want,
            have,
        } => put_damage(text, out, file, at, want, have),
        CallFault::Foreign { file } => put_named(text, out, b"Foreign", file),
        CallFault::DiskFault => text.put(out, b"DiskFault"),
        CallFault::NoMemory => text.put(out, b"NoMemory"),
    }
}

/// Writes the line of a call that is refused as a whole. After a fault a part of it, from its front, is written.
pub fn write_refused<O: Sink>(out: &mut O, fault: CallFault) -> Result<(), Failed>
    ensures bytes { Writes result (O.written out.old) (O.written out.new) (refused_text fault) }
    ensures cause { HasCause (O.fault_count out.old) (O.fault_count out.new) result }
{
    let mut text = Gathered::new();
    text.put(out, b"refused ");
    put_call_fault(&mut text, out, fault);
    text.put(out, b"\n");
    text.finish(out)
}
