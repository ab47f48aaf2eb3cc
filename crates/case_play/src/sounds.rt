// The sounds that are set up before a call: the lines `- sound`, and of sounds `- write` and `- cut`.
use super::disk::FAR;
use case_text::{Fault, Line, bytes_of, first_word, number_of};
use std::alloc::Global;

/// A sound, by its name.
#[derive(Drop)]
pub(crate) struct Sound {
    pub(crate) name: String,
    pub(crate) bytes: Vec<u8>,
}

// The place of a sound among the sounds.
fn place_of(sounds: &[Sound], name: &str) -> Option<usize> {
    let mut place = 0usize;
    for sound in sounds {
        if sound.name.as_str() == name {
            return Some(place);
        }
        place = place.saturating_add(1);
    }
    None
}

// The bytes of the sound of this name, if there is one.
fn bytes_named<'s>(sounds: &'s mut [Sound], name: &str) -> Option<&'s mut Vec<u8>> {
    let place = place_of(sounds, name)?;
    let sound = sounds.get_mut(place)?;
    Some(&mut sound.bytes)
}

/// Adds bytes to a sound, which is made if it is not there.
pub(crate) fn add_sound(
    alloc: Global,
    sounds: &mut Vec<Sound>,
    line: Line<'_>,
    text: &str,
) -> Result<(), Fault> {
    let (name, rest) = first_word(text);
    let bytes = bytes_of(alloc, line, rest)?;
    if let Some(old) = bytes_named(sounds.as_mut_slice(), name) {
        old.extend_from_slice(bytes.as_slice())?;
        return Ok(());
    }
    let name = String::from_str(alloc, name)?;
    sounds.push(Sound { name, bytes })?;
    Ok(())
}

/// Writes bytes over those of a sound, from the place on that the first word says, and past its end.
pub(crate) fn write_sound(
    alloc: Global,
    sounds: &mut [Sound],
    line: Line<'_>,
    name: &str,
    text: &str,
) -> Result<(), Fault> {
    let (word, rest) = first_word(text);
    let at = number_of(line, word)?.min(FAR) as usize;
    let bytes = bytes_of(alloc, line, rest)?;
    match bytes_named(sounds, name) {
        Some(old) => overwrite(old, at, bytes.as_slice()),
        None => Err(line.unread()),
    }
}

// Writes bytes over those from a place on, and past the end.
fn overwrite(out: &mut Vec<u8>, at: usize, bytes: &[u8]) -> Result<(), Fault> {
    let mut place = at;
    for byte in bytes {
        match out.get_mut(place) {
            Some(old) => *old = *byte,
            None => out.push(*byte)?,
        }
        place = place.saturating_add(1);
    }
    Ok(())
}

/// Leaves as many bytes of a sound as a text says.
pub(crate) fn cut_sound(
    sounds: &mut [Sound],
    line: Line<'_>,
    name: &str,
    text: &str,
) -> Result<(), Fault> {
    let len = number_of(line, text)?.min(FAR) as usize;
    match bytes_named(sounds, name) {
        Some(bytes) => {
            bytes.truncate(len);
            Ok(())
        }
        None => Err(line.unread()),
    }
}
