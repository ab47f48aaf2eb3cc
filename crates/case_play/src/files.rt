// Files that are set up before a call: the lines `- file`, `- remove`, and of files `- write` and `- cut`.
use super::disk::{FAR, put_bytes, read_file, remove_file, size_of, sync_file};
use case_text::{Fault, Line, bytes_of, first_word, number_of};
use disk_model::Store;
use std::alloc::Global;

/// Adds bytes to a file, which is made if it is not there.
pub(crate) fn add_file<S: Store>(
    alloc: Global,
    store: &mut S,
    line: Line<'_>,
    text: &str,
) -> Result<(), Fault> {
    let (word, rest) = first_word(text);
    let file = number_of(line, word)?;
    let bytes = bytes_of(alloc, line, rest)?;
    let at = size_of(store, line, file)?;
    put_bytes(store, line, file, at, bytes.as_slice())
}

/// Writes bytes over those of a file, from the place on that the first word says.
pub(crate) fn write_file<S: Store>(
    alloc: Global,
    store: &mut S,
    line: Line<'_>,
    file: u64,
    text: &str,
) -> Result<(), Fault> {
    let (word, rest) = first_word(text);
    let at = number_of(line, word)?;
    let bytes = bytes_of(alloc, line, rest)?;
    put_bytes(store, line, file, at, bytes.as_slice())
}

/// Leaves as many bytes of a file as a text says.
pub(crate) fn cut_file<S: Store>(
    alloc: Global,
    store: &mut S,
    line: Line<'_>,
    file: u64,
    text: &str,
) -> Result<(), Fault> {
    let len = number_of(line, text)?.min(FAR) as usize;
    let mut bytes = read_file(alloc, store, line, file)?;
    bytes.truncate(len);
    remove_file(store, line, file)?;
    put_bytes(store, line, file, 0, bytes.as_slice())
}

/// Removes a file, and syncs that.
pub(crate) fn remove<S: Store>(store: &mut S, line: Line<'_>, text: &str) -> Result<(), Fault> {
    let file = number_of(line, text)?;
    remove_file(store, line, file)?;
    sync_file(store, line, file)
}
