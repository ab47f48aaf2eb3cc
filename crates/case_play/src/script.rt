// The lines of a call: its words, its script, what it is to print, and its status.
use super::world::{Asked, World};
use case_text::{Fault, Line, number_of};

/// What a text means: the row's, if it is `@`.
pub(crate) fn meant<'a>(row: &'a str, text: &'a str) -> &'a str {
    if text == "@" { row } else { text }
}

/// Takes the words of the call that the next lines belong to.
pub(crate) fn set_call<'a>(world: &mut World<'a>, line: Line<'a>, words: &'a str) {
    let text = meant(world.text, words);
    world.asked.call = Some(Line {
        number: line.number,
        text,
    });
}

/// Takes a line of a script with its answer, or one of them.
pub(crate) fn read_line(asked: &mut Asked<'_>, row: &str, line: Line<'_>) -> Result<(), Fault> {
    if asked.call.is_none() {
        return Err(line.unread());
    }
    if let Some(text) = line.text.strip_prefix("status ") {
        asked.status = number_of(line, text)?.min(255) as u8;
        return Ok(());
    }
    if line.text == ">" {
        return push_script(&mut asked.script, "");
    }
    if let Some(text) = line.text.strip_prefix("> ") {
        return push_script(&mut asked.script, text);
    }
    read_answered(asked, row, line.text)
}

// Takes a line of a script and what is printed for it, which stands after two spaces, or a printed line alone.
fn read_answered(asked: &mut Asked<'_>, row: &str, text: &str) -> Result<(), Fault> {
    match text.split_once("  ") {
        Some((line, answer)) => {
            if !line.is_empty() {
                push_script(&mut asked.script, line)?;
            }
            push_line(&mut asked.wanted, meant(row, answer.trim()))
        }
        None => push_line(&mut asked.wanted, meant(row, text.trim())),
    }
}

fn push_script(script: &mut Vec<u8>, text: &str) -> Result<(), Fault> {
    script.extend_from_slice(text.as_bytes())?;
    script.push(b'\n')?;
    Ok(())
}

/// Adds a line that is printed. After a backslash its end is not.
pub(crate) fn push_line(wanted: &mut String, text: &str) -> Result<(), Fault> {
    match text.strip_suffix('\\') {
        Some(text) => wanted.push_str(text)?,
        None => {
            wanted.push_str(text)?;
            wanted.push_str("\n")?;
        }
    }
    Ok(())
}
