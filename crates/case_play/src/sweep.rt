// A case that is played again and again: as the disk stops after each of its calls in turn, or as each call of a device
// fails in turn.
use super::calling::push_left;
use super::case::{MOST, Parts, Turn, play_turn};
use super::images::{is_after, other_image};
use super::playing::play;
use super::program::Program;
use super::stages::{is_at, play_more};
use super::world::{Manner, World};
use case_text::{Fault, Line, Section};
use std::sync::Wait;
use std::thread::Threads;

/// What fails in turn.
#[derive(Clone, Copy)]
pub(crate) enum Sweep<'a> {
    Stops,
    Calls(&'a str),
}

impl<'a> Sweep<'a> {
    // The turn of a number, from 0 on.
    fn turn(&self, number: u64) -> Turn<'a> {
        match self {
            Sweep::Stops => Turn::Stop(number),
            Sweep::Calls(port) => Turn::Call(port, number.saturating_add(1)),
        }
    }
}

// The title of a sweep, and its sections `stage`, `found` and `then`.
#[derive(Clone, Copy)]
struct Kinds<'s, 'a> {
    title: Line<'a>,
    stages: &'s [Section<'a>],
    founds: &'s [Section<'a>],
    then: &'s [Section<'a>],
}

// The first sections of this title, and the others.
fn split_titled<'s, 'a>(
    sections: &'s [Section<'a>],
    title: &str,
) -> (&'s [Section<'a>], &'s [Section<'a>]) {
    let mut count = 0usize;
    for section in sections {
        if !section.title.text.starts_with(title) {
            break;
        }
        count = count.saturating_add(1);
    }
    let count = count.min(sections.len());
    (&sections[..count], &sections[count..])
}

fn kinds_of<'s, 'a>(parts: Parts<'s, 'a>) -> Kinds<'s, 'a> {
    let (stages, rest) = split_titled(parts.rest, "stage");
    let (founds, then) = split_titled(rest, "found");
    Kinds {
        title: parts.body.title,
        stages,
        founds,
        then,
    }
}

// How far a sweep is: in the turn of which number, among the stages, and among what is found. Nothing of them has come
// at first.
#[derive(Clone, Copy)]
struct Place {
    number: u64,
    stage: Option<usize>,
    found: Option<usize>,
}

// The places at which the next turn may be: the same or the next.
fn next_places(place: Option<usize>) -> [usize; 2] {
    match place {
        Some(place) => [place, place.saturating_add(1)],
        None => [0, 0],
    }
}

// Whether a place is the last of this many.
fn is_last(place: Option<usize>, count: usize) -> bool {
    match place {
        Some(place) => place.saturating_add(1) == count,
        None => count == 0,
    }
}

// What came in a turn, as a text.
fn came(world: &World<'_>, number: u64, why: &str) -> Result<String, Fault> {
    let mut text = format!(in world.alloc; "turn {number}, {why}:\n")?;
    if let Some(left) = &world.left {
        push_left(world.alloc, &mut text, left)?;
    }
    Ok(text)
}

// The stage of a turn.
fn stage_of(
    world: &World<'_>,
    kinds: Kinds<'_, '_>,
    before: Place,
) -> Result<Option<usize>, Fault> {
    if kinds.stages.is_empty() {
        return Ok(None);
    }
    for place in next_places(before.stage) {
        if is_at(world, kinds.stages.get(place))? {
            return Ok(Some(place));
        }
    }
    let why = came(world, before.number, "at no stage that may come")?;
    Err(kinds.title.wrong(why))
}

// The section that says what is found after a turn.
fn found_of(
    world: &World<'_>,
    kinds: Kinds<'_, '_>,
    before: Place,
) -> Result<Option<usize>, Fault> {
    if kinds.founds.is_empty() {
        return Ok(None);
    }
    for place in next_places(before.found) {
        if let Some(section) = kinds.founds.get(place) {
            if is_after(section, world.printed) {
                return Ok(Some(place));
            }
        }
    }
    let why = came(world, before.number, "after no commit that may come")?;
    Err(kinds.title.wrong(why))
}

// Each image has what is found at this place, or at the next.
fn check_images<'a, R: Threads + Wait + Sync, P: Program>(
    rt: &R,
    program: &P,
    world: &World<'_>,
    spare: &mut World<'a>,
    kinds: Kinds<'_, 'a>,
    place: Place,
) -> Result<(), Fault> {
    let Some(found) = place.found else {
        return Ok(());
    };
    match other_image(rt, program, spare, &world.store, kinds.founds, found)? {
        Some(choice) => {
            let why = format!(in world.alloc; "image {choice} has something else")?;
            let why = came(world, place.number, why.as_str())?;
            Err(kinds.title.wrong(why))
        }
        None => Ok(()),
    }
}

// Plays what follows after a turn: what its stage says, and then what is said of all.
fn play_after<'a, R: Threads + Wait + Sync, P: Program>(
    rt: &R,
    program: &P,
    world: &mut World<'a>,
    kinds: Kinds<'_, 'a>,
    stage: Option<usize>,
) -> Result<(), Fault> {
    if let Some(stage) = stage {
        if let Some(section) = kinds.stages.get(stage) {
            play_more(rt, program, world, section)?;
        }
    }
    world.manner = Manner::Strict;
    for section in kinds.then {
        play(rt, program, world, section.lines.as_slice())?;
    }
    Ok(())
}

// Where a turn is that is whole: at the last places. Else some did not come.
fn ends(world: &World<'_>, kinds: Kinds<'_, '_>, place: Place) -> Result<(), Fault> {
    if is_last(place.stage, kinds.stages.len()) && is_last(place.found, kinds.founds.len()) {
        return Ok(());
    }
    let why = came(world, place.number, "whole, and not all sections have come")?;
    Err(kinds.title.wrong(why))
}

// What has to hold after a turn, and what follows then: the place of the turn, or none if it is the last.
fn after_turn<'a, R: Threads + Wait + Sync, P: Program>(
    rt: &R,
    program: &P,
    world: &mut World<'a>,
    spare: &mut World<'a>,
    kinds: Kinds<'_, 'a>,
    before: Place,
) -> Result<Option<Place>, Fault> {
    let mut place = before;
    if world.differs {
        place.stage = stage_of(world, kinds, before)?;
    }
    place.found = found_of(world, kinds, before)?;
    check_images(rt, program, world, spare, kinds, place)?;
    if world.differs {
        play_after(rt, program, world, kinds, place.stage)?;
        return Ok(Some(place));
    }
    ends(world, kinds, place)?;
    Ok(None)
}

/// Plays the case in turns, up to the first that leaves all as the case says. Each section `stage` says what the last
/// call leaves, in the order in which they come, and each section `found` what the images have after a commit.
pub(crate) fn play_sweep<'a, R: Threads + Wait + Sync, P: Program>(
    rt: &R,
    program: &P,
    world: &mut World<'a>,
    spare: &mut World<'a>,
    parts: Parts<'_, 'a>,
    sweep: Sweep<'a>,
) -> Result<(), Fault> {
    let kinds = kinds_of(parts);
    let mut place = Place {
        number: 0,
        stage: None,
        found: None,
    };
    for number in 0..MOST {
        place.number = number;
        play_turn(rt, program, world, parts, sweep.turn(number))?;
        match after_turn(rt, program, world, spare, kinds, place)? {
            Some(next) => place = next,
            None => return Ok(()),
        }
    }
    Err(kinds.title.unread())
}
