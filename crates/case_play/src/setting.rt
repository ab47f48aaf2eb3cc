// What is set up before a call: the lines that begin with `- `.
use super::disk::FAR;
use super::files::{add_file, cut_file, remove, write_file};
use super::holds::add_holds;
use super::pending::set_pending;
use super::sounds::{add_sound, cut_sound, write_sound};
use super::world::{Asked, Failing, World};
use case_text::{Fault, Line, bytes_of, first_word, number_of, numbers_of};
use std::alloc::Global;

/// Sets up what a text says, which stands on a line.
pub(crate) fn set_up(world: &mut World<'_>, line: Line<'_>, text: &str) -> Result<(), Fault> {
    let (word, rest) = first_word(text);
    match word {
        "fault" => set_fault(world, line, rest),
        "script" | "mic" | "room" | "piece" | "says" => {
            set_asked(world.alloc, &mut world.asked, line, word, rest)
        }
        "hold" => add_holds(&mut world.asked.holds, line, rest),
        "sound" => add_sound(world.alloc, &mut world.sounds, line, rest),
        "write" => write(world, line, rest),
        "cut" => cut(world, line, rest),
        _ => set_disk(world, line, word, rest),
    }
}

// Sets up what concerns the disk.
fn set_disk(world: &mut World<'_>, line: Line<'_>, word: &str, rest: &str) -> Result<(), Fault> {
    match word {
        "stop" => {
            let calls = number_of(line, rest)?;
            world.store.stop_after(calls);
            Ok(())
        }
        "image" => {
            let choice = number_of(line, rest)?;
            world.store = world.store.image(world.alloc, choice)?;
            Ok(())
        }
        "file" => add_file(world.alloc, &mut world.store, line, rest),
        "remove" => remove(&mut world.store, line, rest),
        _ => set_pending(world.alloc, &mut world.store, line, word, rest),
    }
}

// Writes bytes over those of a file, if it is named by a number, or of a sound.
fn write(world: &mut World<'_>, line: Line<'_>, text: &str) -> Result<(), Fault> {
    let (name, rest) = first_word(text);
    match name.parse::<u64>() {
        Ok(file) => write_file(world.alloc, &mut world.store, line, file, rest),
        Err(_) => write_sound(world.alloc, world.sounds.as_mut_slice(), line, name, rest),
    }
}

// Leaves this many bytes of a file, if it is named by a number, or of a sound.
fn cut(world: &mut World<'_>, line: Line<'_>, text: &str) -> Result<(), Fault> {
    let (name, rest) = first_word(text);
    match name.parse::<u64>() {
        Ok(file) => cut_file(world.alloc, &mut world.store, line, file, rest),
        Err(_) => cut_sound(world.sounds.as_mut_slice(), line, name, rest),
    }
}

// Calls of a device that fail.
fn set_fault(world: &mut World<'_>, line: Line<'_>, text: &str) -> Result<(), Fault> {
    let (port, rest) = first_word(text);
    let numbers = numbers_of(world.alloc, line, rest)?;
    fail_at(world, line, port, numbers)
}

/// Lets the calls of these numbers of a device fail, counted from here on.
pub(crate) fn fail_at(
    world: &mut World<'_>,
    line: Line<'_>,
    port: &str,
    numbers: Vec<u64>,
) -> Result<(), Fault> {
    if port == "store" {
        let made = world.store.call_count();
        return fail_store(
            world.fails.as_slice(),
            world.alloc,
            made,
            numbers.as_slice(),
        );
    }
    fail_port(&mut world.asked.failing, line, port, numbers)
}

// Lets calls of a device fail that is not the disk.
fn fail_port(
    failing: &mut Failing,
    line: Line<'_>,
    port: &str,
    numbers: Vec<u64>,
) -> Result<(), Fault> {
    match port {
        "script" => failing.script = numbers,
        "output" => failing.output = numbers,
        "vault" => failing.vault = numbers,
        "mic" => failing.mic = numbers,
        "speaker" => failing.speaker = numbers,
        _ => return Err(line.unread()),
    }
    Ok(())
}

fn contains(numbers: &[u64], number: u64) -> bool {
    for other in numbers {
        if *other == number {
            return true;
        }
    }
    false
}

// Lets calls of the disk fail, after those that were made. Which fail is said where the disk is made: so if others
// fail, it is to be made again.
fn fail_store(old: &[u64], alloc: Global, made: u64, numbers: &[u64]) -> Result<(), Fault> {
    let mut fails = Vec::from_slice(alloc, old)?;
    let mut is_new = false;
    for number in numbers {
        let call = made.saturating_add(*number);
        if !contains(fails.as_slice(), call) {
            fails.push(call)?;
            is_new = true;
        }
    }
    if is_new {
        return Err(Fault::Again { fails });
    }
    Ok(())
}

// Sets up what concerns the streams of the next call.
fn set_asked(
    alloc: Global,
    asked: &mut Asked<'_>,
    line: Line<'_>,
    word: &str,
    text: &str,
) -> Result<(), Fault> {
    match word {
        "script" => {
            let bytes = bytes_of(alloc, line, text)?;
            asked.script.extend_from_slice(bytes.as_slice())?;
        }
        "mic" => asked.mic = Some(bytes_of(alloc, line, text)?),
        _ => set_number(asked, word, number_of(line, text)?),
    }
    Ok(())
}

// Sets up a number: of the bytes for which the speaker has room, of those of a piece, or of each sound.
fn set_number(asked: &mut Asked<'_>, word: &str, number: u64) {
    match word {
        "room" => asked.room = number.min(FAR) as usize,
        "piece" => asked.piece = number.min(FAR) as usize,
        _ => asked.said = Some(number),
    }
}
