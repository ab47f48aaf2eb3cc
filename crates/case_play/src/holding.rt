// What has to hold after a call: the lines that begin with `= `.
use super::disk::files_of;
use super::disk_facts::holds_on;
use super::program::Left;
use super::world::World;
use case_text::{
    Fault, Line, are_bytes, are_numbers, bytes_of, first_word, not_numbers, numbers_of,
};
use edit_ports::Vault;
use std::alloc::Global;

/// What a text says, which stands on a line, holds.
pub(crate) fn holds(world: &mut World<'_>, line: Line<'_>, text: &str) -> Result<(), Fault> {
    let (word, rest) = first_word(text);
    match word {
        "files" | "blocks" | "file" | "bytes" | "faults" => {
            holds_on(world.alloc, &mut world.store, line, word, rest)
        }
        "named" => has_named(world, line),
        "calls" => has_calls(world, line, rest),
        "held" => has_held(world, line),
        _ => match &mut world.left {
            Some(left) => has_left(world.alloc, left, line, word, rest),
            None => Err(line.unread()),
        },
    }
}

// The last call made this many calls of the disk.
fn has_calls(world: &World<'_>, line: Line<'_>, rest: &str) -> Result<(), Fault> {
    let Some(calls) = world.calls else {
        return Err(line.unread());
    };
    let wanted = numbers_of(world.alloc, line, rest)?;
    are_numbers(world.alloc, line, &[calls], wanted.as_slice())
}

// In the last call each thread was held that was to be, and none in vain.
fn has_held(world: &World<'_>, line: Line<'_>) -> Result<(), Fault> {
    if world.held {
        Ok(())
    } else {
        Err(line.wrong(String::from_str(world.alloc, " not held")?))
    }
}

// What the last call left is so.
fn has_left(
    alloc: Global,
    left: &mut Left,
    line: Line<'_>,
    word: &str,
    rest: &str,
) -> Result<(), Fault> {
    match word {
        "speaker" => {
            let wanted = bytes_of(alloc, line, rest)?;
            are_bytes(alloc, line, left.speaker.bytes(), wanted.as_slice())
        }
        "sound" => has_sound(alloc, &mut left.vault.vault, line, rest),
        _ => {
            let numbers = numbers_of(alloc, line, rest)?;
            has_numbers(alloc, left, line, word, numbers.as_slice())
        }
    }
}

// The sound that the first word names has these bytes.
fn has_sound<V: Vault>(
    alloc: Global,
    vault: &mut V,
    line: Line<'_>,
    text: &str,
) -> Result<(), Fault> {
    let (name, rest) = first_word(text);
    let wanted = bytes_of(alloc, line, rest)?;
    let bytes = sound_of(alloc, vault, line, name)?;
    are_bytes(alloc, line, bytes.as_slice(), wanted.as_slice())
}

// The bytes of a sound of the vault.
fn sound_of<V: Vault>(
    alloc: Global,
    vault: &mut V,
    line: Line<'_>,
    name: &str,
) -> Result<Vec<u8>, Fault> {
    let size = match vault.size(name) {
        Ok(Some(size)) => size.min(1_048_576),
        _ => return Err(line.wrong(String::from_str(alloc, " no sound")?)),
    };
    let mut bytes = Vec::new(alloc);
    bytes.resize(size as usize, 0u8)?;
    match vault.read_at(name, 0, bytes.as_mut_slice()) {
        Ok(_) => Ok(bytes),
        Err(_) => Err(line.unread()),
    }
}

// What the ending says of the call is so.
fn has_numbers(
    alloc: Global,
    left: &Left,
    line: Line<'_>,
    word: &str,
    wanted: &[u64],
) -> Result<(), Fault> {
    match word {
        "commits" => are_numbers(alloc, line, left.script_commits.as_slice(), wanted),
        "pieces" => are_numbers(alloc, line, left.piece_commits.as_slice(), wanted),
        "track" => has_track(alloc, left.record_commit, line, wanted),
        "opened" => has_opened(alloc, left, line, wanted),
        _ => Err(line.unread()),
    }
}

// The recording has this track, or none.
fn has_track(
    alloc: Global,
    track: Option<u64>,
    line: Line<'_>,
    wanted: &[u64],
) -> Result<(), Fault> {
    match track {
        Some(track) => are_numbers(alloc, line, &[track], wanted),
        None => are_numbers(alloc, line, &[], wanted),
    }
}

// A project was opened at this commit and left at that one, or none was.
fn has_opened(alloc: Global, left: &Left, line: Line<'_>, wanted: &[u64]) -> Result<(), Fault> {
    if left.opened {
        are_numbers(alloc, line, &[left.first_commit, left.last_commit], wanted)
    } else {
        are_numbers(alloc, line, &[], wanted)
    }
}

// How many blocks a check counted, if it printed so.
fn count_checked(text: &[u8]) -> Option<usize> {
    let text = std::str::from_utf8(text).ok()?;
    let line = text.lines().next()?;
    line.strip_prefix("checked ")?.parse::<usize>().ok()
}

// The last call was a check that found all blocks whole, and the disk has their files, the journal and no others.
fn has_named(world: &mut World<'_>, line: Line<'_>) -> Result<(), Fault> {
    let alloc = world.alloc;
    let Some(left) = &world.left else {
        return Err(line.unread());
    };
    let Some(count) = count_checked(left.out.bytes()) else {
        return Err(line.unread());
    };
    let files = files_of(alloc, &mut world.store, line)?;
    if files.len() == count.saturating_add(1) {
        Ok(())
    } else {
        Err(not_numbers(alloc, line, files.as_slice()))
    }
}
