// A case that is played once for each of its rows.
use super::case::{Parts, Turn, play_turn};
use super::program::Program;
use super::world::World;
use case_text::{Fault, Line};
use std::sync::Wait;
use std::thread::Threads;

// Plays the case for one row. What is set up stands before two spaces, and what is printed after them.
fn play_row<'a, R: Threads + Wait + Sync, P: Program>(
    rt: &R,
    program: &P,
    world: &mut World<'a>,
    parts: Parts<'_, 'a>,
    line: Line<'a>,
) -> Result<(), Fault> {
    let Some((sets, text)) = line.text.split_once("  ") else {
        return Err(line.unread());
    };
    match play_turn(
        rt,
        program,
        world,
        parts,
        Turn::Row(line, sets, text.trim()),
    ) {
        Ok(()) => Ok(()),
        Err(Fault::Wrong { line: _, came }) => Err(line.wrong(came)),
        Err(fault) => Err(fault),
    }
}

/// Plays the case for each row of a section `rows`, of which there is at least one. It is the one after the case.
pub(crate) fn play_rows<'a, R: Threads + Wait + Sync, P: Program>(
    rt: &R,
    program: &P,
    world: &mut World<'a>,
    parts: Parts<'_, 'a>,
) -> Result<(), Fault> {
    let [rows] = parts.rest else {
        return Err(parts.body.title.unread());
    };
    if rows.title.text != "rows" || rows.lines.is_empty() {
        return Err(rows.title.unread());
    }
    for line in &rows.lines {
        play_row(rt, program, world, parts, *line)?;
    }
    Ok(())
}
