// Calls of the disk alone: the lines `- pend`, `- unlink` and `- sync`. Up to a sync their changes are pending, so a
// stop may leave them or not.
use super::disk::{remove_file, sync_file, write_bytes};
use case_text::{Fault, Line, bytes_of, first_word, number_of};
use disk_model::Store;
use std::alloc::Global;

/// Makes the call of the disk that a word says, if it is one of these.
pub(crate) fn set_pending<S: Store>(
    alloc: Global,
    store: &mut S,
    line: Line<'_>,
    word: &str,
    rest: &str,
) -> Result<(), Fault> {
    match word {
        "pend" => pend(alloc, store, line, rest),
        "unlink" => {
            let file = number_of(line, rest)?;
            remove_file(store, line, file)
        }
        "sync" => {
            let file = number_of(line, rest)?;
            sync_file(store, line, file)
        }
        _ => Err(line.unread()),
    }
}

// Writes bytes into a file.
fn pend<S: Store>(alloc: Global, store: &mut S, line: Line<'_>, text: &str) -> Result<(), Fault> {
    let (word, rest) = first_word(text);
    let file = number_of(line, word)?;
    let (word, rest) = first_word(rest);
    let at = number_of(line, word)?;
    let bytes = bytes_of(alloc, line, rest)?;
    write_bytes(store, line, file, at, bytes.as_slice())
}
