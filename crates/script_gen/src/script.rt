// The script of a number.
ghost use Rattle.std.specs.Prelude.{◌≡◌, ◌≤◌, IfOk, length};
ghost use Rattle.script_gen.specs.Room.{EachNeedsAtMost, HaveRoom, script_project};
ghost use Rattle.script_gen.specs.Script.{script_of};
ghost use Rattle.script_gen.specs.Validity.{AlwaysHaveRun, AreAlwaysValid};

use super::place::Place;
use pcm_base::{Command, NoMemory};
use std::alloc::Global;

/// The script of a number, of 2 to 4,096 lines: a track and a ramp, and after them lines that draws from the number
/// name. Each line is valid where it stands, in a fresh project.
///
/// NoMemory is its only error.
pub fn generate(alloc: Global, number: u64, lines: u32) -> Result<Vec<Command>, NoMemory>
    requires least { 2 ≤ lines }
    requires most { lines ≤ 4096 }
    ensures script { IfOk result (λ script. script.items ≡ script_of number lines) }
    ensures count { IfOk result (λ script. length script.items ≡ lines) }

    // in each fresh project that keeps two points or more
    ensures valid { IfOk result (λ script. AreAlwaysValid script.items) }
    ensures run { IfOk result (λ script. AlwaysHaveRun script.items) }

    // in the project of scripts, whose blocks have at most 512 samples
    ensures needs { IfOk result (λ script. EachNeedsAtMost script_project script.items 11 6872) }
    ensures room { IfOk result (λ script. HaveRoom script.items) }
{
    let mut script = Vec::with_capacity(alloc, lines as usize)?;
    script.push(Command::Track)?;
    script.push(Command::Ramp {
        track: 1,
        at: 0,
        count: 1000,
        start: -500,
        step: 1,
    })?;
    let mut place = Place::first(number);
    for made in 2..lines {
        let line = place.next_line(lines - 1 - made);
        script.push(line)?;
    }
    Ok(script)
}
