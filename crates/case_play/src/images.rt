// Sections `found`: what each image of a disk has after one of the commits.
use super::playing::play;
use super::program::Program;
use super::world::World;
use case_text::{Fault, Section, first_word};
use memory_disk::RamStore;
use std::sync::Wait;
use std::thread::Threads;

// How many images of a disk are opened.
const IMAGES: u64 = 10;

/// Whether a section says what is found after the line `ok` or `end` of this number, or before any.
pub(crate) fn is_after(section: &Section<'_>, told: Option<u64>) -> bool {
    let (_, word) = first_word(section.title.text);
    match told {
        Some(number) => word.parse::<u64>().ok() == Some(number),
        None => word == "none",
    }
}

// Whether an image of a disk has what a section says, if there is one. It is played on a spare world.
fn has<'a, R: Threads + Wait + Sync, P: Program>(
    rt: &R,
    program: &P,
    spare: &mut World<'a>,
    store: &RamStore,
    choice: u64,
    section: Option<&Section<'a>>,
) -> Result<bool, Fault> {
    let Some(section) = section else {
        return Ok(false);
    };
    spare.begin_on(store.image(spare.alloc, choice)?);
    match play(rt, program, spare, section.lines.as_slice()) {
        Ok(()) => Ok(true),
        Err(Fault::Wrong { .. }) => Ok(false),
        Err(fault) => Err(fault),
    }
}

/// The first image of a disk that has neither what the section at this place says nor the next, if there is one.
pub(crate) fn other_image<'a, R: Threads + Wait + Sync, P: Program>(
    rt: &R,
    program: &P,
    spare: &mut World<'a>,
    store: &RamStore,
    sections: &[Section<'a>],
    place: usize,
) -> Result<Option<u64>, Fault> {
    for choice in 0..IMAGES {
        if has(rt, program, spare, store, choice, sections.get(place))? {
            continue;
        }
        let next = sections.get(place.saturating_add(1));
        if !has(rt, program, spare, store, choice, next)? {
            return Ok(Some(choice));
        }
    }
    Ok(None)
}
