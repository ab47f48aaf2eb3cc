// Lines of a case, played one after another.
use super::calling::make_call;
use super::holding::holds;
use super::program::Program;
use super::script::{meant, read_line, set_call};
use super::setting::set_up;
use super::world::World;
use case_text::{Fault, Line};
use std::sync::Wait;
use std::thread::Threads;

/// Plays lines, and the call that the last of them belong to.
pub(crate) fn play<'a, R: Threads + Wait + Sync, P: Program>(
    rt: &R,
    program: &P,
    world: &mut World<'a>,
    lines: &[Line<'a>],
) -> Result<(), Fault> {
    for line in lines {
        if begins_other(line.text) {
            make_call(rt, program, world)?;
        }
        take_line(world, *line)?;
    }
    make_call(rt, program, world)
}

/// Whether a line is none of a call, or begins the next: what is set up, what has to hold, or the words of a call.
pub(crate) fn begins_other(text: &str) -> bool {
    text.starts_with('$') || text.starts_with("- ") || text.starts_with("= ")
}

// Does what a line says. The call before it has been made.
fn take_line<'a>(world: &mut World<'a>, line: Line<'a>) -> Result<(), Fault> {
    if let Some(text) = line.text.strip_prefix("- ") {
        let text = meant(world.text, text);
        return set_up(world, line, text);
    }
    if let Some(text) = line.text.strip_prefix("= ") {
        let text = meant(world.text, text);
        return holds(world, line, text);
    }
    if let Some(words) = line.text.strip_prefix("$") {
        set_call(world, line, words.trim());
        return Ok(());
    }
    read_line(&mut world.asked, world.text, line)
}
