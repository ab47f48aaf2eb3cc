// A line that a script of a number may have, carried out by the call that is its own.
ghost use Rattle.std.specs.Prelude.{◌≡◌, OnErr, OnOk};
ghost use Rattle.pcm_base.specs.Form.{IsInForm};
ghost use Rattle.editor_state.specs.Applied.{EndsAlike};
ghost use Rattle.editor_core.specs.Core.{core_of};
ghost use Rattle.editor_state.specs.Studios.{IsStudio, studio_of};
ghost use Rattle.memory_project.specs.Lines.{Asked, IsOfScript, IsRamp, MayCome, Went};

use disk_model::Store;
use editor_core::Studio;
use pcm_base::{Command, NoMemory, Placing, RangeEdit, Refusal};
use std::alloc::Global;

// Whether there was an answer, or why there was none.
fn without_value<T: Drop>(answer: Result<T, Refusal>) -> Result<(), Refusal>
    ensures { EndsAlike answer result }
{
    match answer {
        Ok(_reply) => Ok(()),
        Err(reason) => Err(reason),
    }
}

// Carries out a ramp.
fn ask_ramp<S: Store>(
    alloc: Global,
    studio: &mut Studio<S>,
    command: &Command,
) -> Result<(), Refusal>
    requires studio { IsStudio S.Store (core_of studio.old) }
    requires kind { IsRamp command.now }
    requires form { IsInForm command.now }
    ensures { Asked S.Store (core_of studio.old) command.now result (core_of studio.new) }
{
    match command {
        Command::Ramp {
            track,
            at,
            count,
            start,
            step,
        } => without_value(studio.ramp(alloc, *track, *at, *count, *start, *step)),
        _ => unreachable!(),
    }
}

// Carries out a line of the kinds that such a script has.
fn carry_line<S: Store>(
    alloc: Global,
    studio: &mut Studio<S>,
    command: &Command,
) -> Result<(), Refusal>
    requires studio { IsStudio S.Store (core_of studio.old) }
    requires kind { IsOfScript command.now }
    requires form { IsInForm command.now }
    ensures { Asked S.Store (core_of studio.old) command.now result (core_of studio.new) }
{
    match command {
        Command::Track => without_value(studio.track(alloc)),
        Command::Ramp { .. } => ask_ramp(alloc, studio, command),
        Command::Delete { track, from, to } => {
            without_value(studio.edit_range(alloc, *track, *from, *to, RangeEdit::Delete))
        }
        Command::Gain {
            track,
            from,
            to,
            gain,
        } => {
            let edit = RangeEdit::Gain { gain: *gain };
            without_value(studio.edit_range(alloc, *track, *from, *to, edit))
        }
        Command::Silence { track, from, to } => {
            without_value(studio.edit_range(alloc, *track, *from, *to, RangeEdit::Silence))
        }
        Command::Copy {
            track,
            count,
            from,
            to,
        } => without_value(studio.copy(alloc, *track, *count, *from, *to)),
        Command::Paste { track, at } => {
            without_value(studio.paste_strips(alloc, *track, *at, Placing::Insert))
        }
        Command::Undo => without_value(studio.undo()),
        Command::Redo => without_value(studio.redo()),
        Command::Tracks => without_value(studio.tracks(alloc)),
        Command::Envelope {
            track,
            from,
            to,
            columns,
        } => without_value(studio.envelope(alloc, *track, *from, *to, *columns)),
        _ => unreachable!(),
    }
}

/// A reason that can be want of memory alone.
pub fn want_of_memory(reason: Refusal) -> NoMemory
    requires { reason ≡ Refusal.NoMemory }
{
    let _ = reason;
    NoMemory
}

/// Carries out a line that nothing refuses, on a disk that has room for it.
///
/// # Errors
///
/// There is no memory for it, and nothing has changed.
pub fn run_line<S: Store>(
    alloc: Global,
    studio: &mut Studio<S>,
    command: &Command,
) -> Result<(), NoMemory>
    requires { MayCome S.Store (core_of studio.old) command.now }
    ensures went { OnOk result (Went S.Store (core_of studio.old) command.now (core_of studio.new)) }
    ensures wants { OnErr result (studio_of S.Store (core_of studio.new) ≡ studio_of S.Store (core_of studio.old)) }
{
    match carry_line(alloc, studio, command) {
        Ok(()) => Ok(()),
        Err(reason) => Err(want_of_memory(reason)),
    }
}
