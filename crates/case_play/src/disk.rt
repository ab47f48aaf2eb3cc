// Calls of a disk that a line makes. If one fails, the line is not understood.
//
// They are of a disk of any kind, so that a proof does not lay out what a certain one promises.
use case_text::{Fault, Line};
use disk_model::Store;
use pcm_base::Failed;
use std::alloc::Global;

/// How long a file may be, and where it may be written.
pub(crate) const FAR: u64 = 1_048_576;

// What a call of the disk answered.
fn served<T: Drop>(line: Line<'_>, answer: Result<T, Failed>) -> Result<T, Fault> {
    match answer {
        Ok(value) => Ok(value),
        Err(Failed) => Err(line.unread()),
    }
}

/// Writes bytes into a file.
pub(crate) fn write_bytes<S: Store>(
    store: &mut S,
    line: Line<'_>,
    file: u64,
    at: u64,
    bytes: &[u8],
) -> Result<(), Fault> {
    if at > FAR || bytes.len() > 1_048_576 {
        return Err(line.unread());
    }
    served(line, store.write_at(file, at, bytes))
}

/// Removes a file.
pub(crate) fn remove_file<S: Store>(store: &mut S, line: Line<'_>, file: u64) -> Result<(), Fault> {
    served(line, store.remove(file))
}

/// Syncs a file.
pub(crate) fn sync_file<S: Store>(store: &mut S, line: Line<'_>, file: u64) -> Result<(), Fault> {
    served(line, store.sync(file))
}

/// Writes bytes into a file, and syncs it.
pub(crate) fn put_bytes<S: Store>(
    store: &mut S,
    line: Line<'_>,
    file: u64,
    at: u64,
    bytes: &[u8],
) -> Result<(), Fault> {
    write_bytes(store, line, file, at, bytes)?;
    sync_file(store, line, file)
}

/// How many bytes a file has.
pub(crate) fn size_of<S: Store>(store: &mut S, line: Line<'_>, file: u64) -> Result<u64, Fault> {
    let size = served(line, store.size(file))?;
    Ok(size.unwrap_or(0))
}

// Reads the first bytes of a file into a buffer.
fn fill<S: Store>(
    store: &mut S,
    line: Line<'_>,
    file: u64,
    buffer: &mut [u8],
) -> Result<(), Fault> {
    if buffer.len() > 1_048_576 {
        return Err(line.unread());
    }
    served(line, store.read_at(file, 0, buffer))?;
    Ok(())
}

/// The bytes of a file, up to a mebibyte.
pub(crate) fn read_file<S: Store>(
    alloc: Global,
    store: &mut S,
    line: Line<'_>,
    file: u64,
) -> Result<Vec<u8>, Fault> {
    let size = size_of(store, line, file)?.min(FAR);
    let mut bytes = Vec::new(alloc);
    bytes.resize(size as usize, 0u8)?;
    fill(store, line, file, bytes.as_mut_slice())?;
    Ok(bytes)
}

/// The numbers of the files of the disk.
pub(crate) fn files_of<S: Store>(
    alloc: Global,
    store: &mut S,
    line: Line<'_>,
) -> Result<Vec<u64>, Fault> {
    let mut files = Vec::new(alloc);
    match store.files(&mut files) {
        Ok(()) => Ok(files),
        Err(_) => Err(line.unread()),
    }
}
