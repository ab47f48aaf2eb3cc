// A whole case: its lines once, or again and again for each stop, each call that fails, or each row.
use super::playing::play;
use super::program::Program;
use super::rows::play_rows;
use super::setting::{fail_at, set_up};
use super::sweep::{Sweep, play_sweep};
use super::world::{Manner, World};
use case_text::{Fault, Line, Section, first_word, read_sections};
use std::alloc::Global;
use std::sync::Wait;
use std::thread::Threads;

/// How often a case is played at most where calls of its disk are to fail, and how far a sweep goes.
pub(crate) const MOST: u64 = 3_000;

/// What differs from one play of the case to the next, where its lines are played again and again.
#[derive(Clone, Copy)]
pub(crate) enum Turn<'a> {
    /// The first section alone is played.
    Once,
    /// The disk stops after this many more calls.
    Stop(u64),
    /// The call of this number of a device fails.
    Call(&'a str, u64),
    /// A row: what is set up, and what stands for `@`.
    Row(Line<'a>, &'a str, &'a str),
}

/// The lines that are played once, and those that are played again and again: both sections, and those after them.
#[derive(Clone, Copy)]
pub(crate) struct Parts<'s, 'a> {
    pub(crate) head: &'s Section<'a>,
    pub(crate) body: &'s Section<'a>,
    pub(crate) rest: &'s [Section<'a>],
}

// Sets up what a turn says.
fn turn_to<'a>(world: &mut World<'a>, title: Line<'a>, turn: Turn<'a>) -> Result<(), Fault> {
    match turn {
        Turn::Once => Ok(()),
        Turn::Stop(calls) => {
            world.store.stop_after(calls);
            world.manner = Manner::Stopping;
            Ok(())
        }
        Turn::Call(port, number) => {
            let numbers = Vec::from_slice(world.alloc, &[number])?;
            world.manner = Manner::Free;
            fail_at(world, title, port, numbers)
        }
        Turn::Row(line, sets, text) => {
            world.text = text;
            set_up_all(world, line, sets)
        }
    }
}

// Sets up what a row says, whose parts stand between semicolons.
fn set_up_all<'a>(world: &mut World<'a>, line: Line<'a>, sets: &'a str) -> Result<(), Fault> {
    for part in sets.split(';') {
        let part = part.trim();
        if !part.is_empty() {
            set_up(world, line, part)?;
        }
    }
    Ok(())
}

// Plays the first section, and the second one as a turn says.
fn play_parts<'a, R: Threads + Wait + Sync, P: Program>(
    rt: &R,
    program: &P,
    world: &mut World<'a>,
    parts: Parts<'_, 'a>,
    turn: Turn<'a>,
) -> Result<(), Fault> {
    play(rt, program, world, parts.head.lines.as_slice())?;
    if let Turn::Once = turn {
        return Ok(());
    }
    turn_to(world, parts.body.title, turn)?;
    play(rt, program, world, parts.body.lines.as_slice())
}

/// Plays both sections as a turn says, and again on another disk for as long as others of its calls are to fail.
pub(crate) fn play_turn<'a, R: Threads + Wait + Sync, P: Program>(
    rt: &R,
    program: &P,
    world: &mut World<'a>,
    parts: Parts<'_, 'a>,
    turn: Turn<'a>,
) -> Result<(), Fault> {
    let mut fails = Vec::new(world.alloc);
    for _ in 0..MOST {
        world.begin(fails.as_slice())?;
        match play_parts(rt, program, world, parts, turn) {
            Err(Fault::Again { fails: others }) => fails = others,
            played => return played,
        }
    }
    Err(parts.body.title.unread())
}

// Plays the sections of a case. What images have is played on a spare world.
fn play_sections<'a, R: Threads + Wait + Sync, P: Program>(
    rt: &R,
    program: &P,
    world: &mut World<'a>,
    spare: &mut World<'a>,
    sections: &[Section<'a>],
) -> Result<(), Fault> {
    let Some((head, rest)) = sections.split_first() else {
        return Ok(());
    };
    let Some((body, rest)) = rest.split_first() else {
        let body = head;
        return play_turn(rt, program, world, Parts { head, body, rest }, Turn::Once);
    };
    let parts = Parts { head, body, rest };
    let (word, what) = first_word(body.title.text);
    if word != "each" {
        return Err(body.title.unread());
    }
    let (word, port) = first_word(what);
    match word {
        "stop" => play_sweep(rt, program, world, spare, parts, Sweep::Stops),
        "fault" => play_sweep(rt, program, world, spare, parts, Sweep::Calls(port)),
        "row" => play_rows(rt, program, world, parts),
        _ => Err(body.title.unread()),
    }
}

// Plays the sections of a case on a world, and on a spare one.
fn play_beside<'a, R: Threads + Wait + Sync, P: Program>(
    rt: &R,
    program: &P,
    world: &mut World<'a>,
    sections: &[Section<'a>],
) -> Result<(), Fault> {
    let mut spare = World::new(world.alloc)?;
    play_sections(rt, program, world, &mut spare, sections)
}

// Plays the sections of a case.
fn play_all<'a, R: Threads + Wait + Sync, P: Program>(
    rt: &R,
    program: &P,
    alloc: Global,
    sections: &[Section<'a>],
) -> Result<(), Fault> {
    let mut world = World::new(alloc)?;
    play_beside(rt, program, &mut world, sections)
}

/// Plays the case that a text is, with the calls of a program.
pub fn play_case<R: Threads + Wait + Sync, P: Program>(
    rt: &R,
    program: &P,
    alloc: Global,
    text: &str,
) -> Result<(), Fault> {
    let sections = read_sections(alloc, text)?;
    play_all(rt, program, alloc, sections.as_slice())
}
