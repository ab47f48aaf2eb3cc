// What has to hold of a disk after a call: the lines `= files`, `= blocks`, `= file`, `= bytes` and `= faults`.
use super::disk::{FAR, files_of, read_file};
use case_text::{
    Fault, Line, are_bytes, are_numbers, bytes_of, first_word, not_numbers, number_of, numbers_of,
};
use disk_model::Store;
use std::alloc::Global;

// The files of journals are 0 and this one.
const LAST_JOURNAL: u64 = 1;

/// The fact of a disk holds that a word of a line names.
pub(crate) fn holds_on<S: Store>(
    alloc: Global,
    store: &mut S,
    line: Line<'_>,
    word: &str,
    rest: &str,
) -> Result<(), Fault> {
    match word {
        "files" => has_files(alloc, store, line, rest),
        "blocks" => has_blocks(alloc, store, line, rest),
        "file" => has_file(alloc, store, line, rest),
        "bytes" => has_part(alloc, store, line, rest),
        "faults" => has_faults(alloc, store, line, rest),
        _ => Err(line.unread()),
    }
}

// The disk has these files and no others.
fn has_files<S: Store>(
    alloc: Global,
    store: &mut S,
    line: Line<'_>,
    rest: &str,
) -> Result<(), Fault> {
    let wanted = numbers_of(alloc, line, rest)?;
    let files = files_of(alloc, store, line)?;
    are_numbers(alloc, line, files.as_slice(), wanted.as_slice())
}

// The files that are none of a journal.
fn blocks_of(alloc: Global, files: &[u64]) -> Result<Vec<u64>, Fault> {
    let mut blocks = Vec::new(alloc);
    for file in files {
        if *file > LAST_JOURNAL {
            blocks.push(*file)?;
        }
    }
    Ok(blocks)
}

// The disk has the files of these blocks, one of a journal or two, and no others.
fn has_blocks<S: Store>(
    alloc: Global,
    store: &mut S,
    line: Line<'_>,
    rest: &str,
) -> Result<(), Fault> {
    let wanted = numbers_of(alloc, line, rest)?;
    let files = files_of(alloc, store, line)?;
    let blocks = blocks_of(alloc, files.as_slice())?;
    if blocks.len() == files.len() {
        return Err(not_numbers(alloc, line, files.as_slice()));
    }
    are_numbers(alloc, line, blocks.as_slice(), wanted.as_slice())
}

// A file has these bytes.
fn has_file<S: Store>(
    alloc: Global,
    store: &mut S,
    line: Line<'_>,
    rest: &str,
) -> Result<(), Fault> {
    let (word, rest) = first_word(rest);
    let file = number_of(line, word)?;
    let wanted = bytes_of(alloc, line, rest)?;
    let bytes = read_file(alloc, store, line, file)?;
    are_bytes(alloc, line, bytes.as_slice(), wanted.as_slice())
}

// The bytes from a place on, and at most this many.
fn part_of(bytes: &[u8], at: usize, len: usize) -> &[u8] {
    let after = bytes.get(at..).unwrap_or(&[]);
    after.get(..len).unwrap_or(after)
}

// A file has these bytes from a place on, and may have more.
fn has_part<S: Store>(
    alloc: Global,
    store: &mut S,
    line: Line<'_>,
    rest: &str,
) -> Result<(), Fault> {
    let (word, rest) = first_word(rest);
    let file = number_of(line, word)?;
    let (word, rest) = first_word(rest);
    let at = number_of(line, word)?.min(FAR) as usize;
    let wanted = bytes_of(alloc, line, rest)?;
    let bytes = read_file(alloc, store, line, file)?;
    let part = part_of(bytes.as_slice(), at, wanted.len());
    are_bytes(alloc, line, part, wanted.as_slice())
}

// So many calls of the disk failed, and this many of these were to change it.
fn has_faults<S: Store>(alloc: Global, store: &S, line: Line<'_>, rest: &str) -> Result<(), Fault> {
    let wanted = numbers_of(alloc, line, rest)?;
    let faults = [store.faults(), store.change_faults()];
    are_numbers(alloc, line, &faults, wanted.as_slice())
}
