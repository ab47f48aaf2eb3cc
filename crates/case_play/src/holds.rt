// Where a gate holds the threads of the next call: the lines `- hold POINT N until POINT N, ..`.
use super::gates::{Hold, Place};
use case_text::{Fault, Line, first_word, number_of};
use edit_ports::points::{
    AFTER_ANSWER, AFTER_PIECE, AFTER_PUSH, AFTER_TAKE, BEFORE_LINE, BEFORE_PUSH,
};

fn point_of(line: Line<'_>, word: &str) -> Result<u32, Fault> {
    match word {
        "line" => Ok(BEFORE_LINE),
        "answer" => Ok(AFTER_ANSWER),
        "chunk" => Ok(BEFORE_PUSH),
        "piece" => Ok(AFTER_PIECE),
        "push" => Ok(AFTER_PUSH),
        "take" => Ok(AFTER_TAKE),
        _ => Err(line.unread()),
    }
}

// A point and a number, as `line 3`.
fn place_of(line: Line<'_>, text: &str) -> Result<Place, Fault> {
    let (word, number) = first_word(text.trim());
    Ok(Place {
        point: point_of(line, word)?,
        count: number_of(line, number)?,
    })
}

/// Adds the holds that a text says.
pub(crate) fn add_holds(holds: &mut Vec<Hold>, line: Line<'_>, text: &str) -> Result<(), Fault> {
    let Some((at, places)) = text.split_once(" until ") else {
        return Err(line.unread());
    };
    let at = place_of(line, at)?;
    for place in places.split(',') {
        let until = place_of(line, place)?;
        holds.push(Hold { at, until })?;
    }
    Ok(())
}
