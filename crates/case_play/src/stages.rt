// Sections `stage`: what the last call leaves as a later call of a device fails.
use super::playing::{begins_other, play};
use super::program::Program;
use super::script::push_line;
use super::world::{Manner, World};
use case_text::{Fault, Line, Section, is_like, number_of};
use std::alloc::Global;
use std::sync::Wait;
use std::thread::Threads;

// What a section says that a call leaves: what is printed, its status, and how many of its lines say so.
#[derive(Drop)]
struct Stage {
    wanted: String,
    status: u8,
    count: usize,
}

// Takes a line of a stage.
fn take_line(stage: &mut Stage, line: Line<'_>) -> Result<(), Fault> {
    match line.text.strip_prefix("status ") {
        Some(status) => stage.status = number_of(line, status)?.min(255) as u8,
        None => push_line(&mut stage.wanted, line.text.trim())?,
    }
    stage.count = stage.count.saturating_add(1);
    Ok(())
}

// The stage that lines begin with.
fn stage_of(alloc: Global, lines: &[Line<'_>]) -> Result<Stage, Fault> {
    let mut stage = Stage {
        wanted: String::new(alloc),
        status: 4,
        count: 0,
    };
    for line in lines {
        if begins_other(line.text) {
            return Ok(stage);
        }
        take_line(&mut stage, *line)?;
    }
    Ok(stage)
}

/// Whether the last call left what a section says, if there is one.
pub(crate) fn is_at(world: &World<'_>, section: Option<&Section<'_>>) -> Result<bool, Fault> {
    let Some(section) = section else {
        return Ok(false);
    };
    let Some(left) = &world.left else {
        return Ok(false);
    };
    let stage = stage_of(world.alloc, section.lines.as_slice())?;
    Ok(is_like(stage.wanted.as_str(), left.out.bytes()) && stage.status == left.status)
}

/// Plays what a section says after what the last call leaves.
pub(crate) fn play_more<'a, R: Threads + Wait + Sync, P: Program>(
    rt: &R,
    program: &P,
    world: &mut World<'a>,
    section: &Section<'a>,
) -> Result<(), Fault> {
    let stage = stage_of(world.alloc, section.lines.as_slice())?;
    world.manner = Manner::Strict;
    match section.lines.get(stage.count..) {
        Some(lines) => play(rt, program, world, lines),
        None => Ok(()),
    }
}
