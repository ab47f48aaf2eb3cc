// How several files are waited for and read, and how a folder is locked.
use crate::open_files::{Handle, OpenFiles};
use crate::parts::read_side_by_side;
use disk_model::Part;
use pcm_base::Failed;
use std::fs::{File, OpenFile, TryLockError};
use std::thread::{Threads, join};

/// How many threads wait at once: with more than these one sync hardly gets quicker for another.
const THREADS: usize = 16;

/// Waits until what each of several open files holds is on the disk, reads them at the same time, and locks a folder.
///
/// A file system mostly puts files on its disk that are waited for at the same time for the price of a few.
pub trait SyncFiles<F> {
    /// Waits for each of the files.
    ///
    /// # Errors
    /// The system failed to put one of them on the disk. What the others came to isn't told.
    fn sync_files(&self, files: &[Handle<F>]) -> Result<(), Failed>;

    /// Reads parts of open files at the same time, and answers whether all were read. Where not, the buffer may have been
    /// written in part, and the caller reads them one after another.
    fn read_parts(&self, files: &OpenFiles<F>, parts: &[Part], out: &mut [i16]) -> bool;

    /// Locks an open folder until it is closed. A file system that has no locks is used without.
    ///
    /// # Errors
    /// It is locked through another handle, of this program or of another one.
    fn lock(&self, folder: &F) -> Result<(), Failed>;
}

/// Waits for one file after the other, reads none at the same time as another, and locks nothing.
#[derive(Drop)]
pub struct OneByOne;

/// Waits for up to 16 files at once, each in a thread of its own, and reads in up to two threads. Where no thread can
/// be made they are waited for and read in this one.
#[derive(Drop)]
pub struct SideBySide<T> {
    threads: T,
}

impl<T: Threads> SideBySide<T> {
    /// Waits in threads of this handle.
    pub fn new(threads: T) -> SideBySide<T> {
        SideBySide { threads }
    }
}

impl<F: OpenFile> SyncFiles<F> for OneByOne {
    fn sync_files(&self, files: &[Handle<F>]) -> Result<(), Failed> {
        sync_each(files)
    }

    fn read_parts(&self, _files: &OpenFiles<F>, _parts: &[Part], _out: &mut [i16]) -> bool {
        false
    }

    fn lock(&self, _folder: &F) -> Result<(), Failed> {
        Ok(())
    }
}

// The files are the system's own: a thread can't be given a file of a type that is known to the caller alone.
impl<T: Threads> SyncFiles<File> for SideBySide<T> {
    fn sync_files(&self, files: &[Handle<File>]) -> Result<(), Failed> {
        sync_parts(&self.threads, files, files.len().div_ceil(THREADS))
    }

    fn read_parts(&self, files: &OpenFiles<File>, parts: &[Part], out: &mut [i16]) -> bool {
        read_side_by_side(&self.threads, files, parts, out)
    }

    fn lock(&self, folder: &File) -> Result<(), Failed> {
        match folder.try_lock() {
            Err(TryLockError::WouldBlock) => Err(Failed),
            _ => Ok(()),
        }
    }
}

// Waits for parts of this many files at once, the last of them in this thread.
fn sync_parts<T: Threads>(threads: &T, files: &[Handle<File>], size: usize) -> Result<(), Failed> {
    if size == 0 || files.len() <= size {
        return sync_each(files);
    }
    let (part, rest) = files.split_at(size);
    let (here, there) = join(
        threads,
        || sync_each(part),
        || sync_parts(threads, rest, size),
    );
    here?;
    there
}

fn sync_each<F: OpenFile>(files: &[Handle<F>]) -> Result<(), Failed> {
    for handle in files {
        if handle.inner.sync_data().is_err() {
            return Err(Failed);
        }
    }
    Ok(())
}
