// Files of the system, but that one of them is opened as a file that can't be synced.
use std::fs::{Metadata, OpenOptions};
use std::io;
use std::rt::Files;

/// A file of the system that can't be synced.
const NO_DISK: &str = "/dev/null";

/// A runtime that opens the file at a path with this ending as that file, if it is there.
#[derive(Drop)]
pub(crate) struct Swapped<R> {
    pub(crate) inner: R,
    pub(crate) ending: String,
}

impl<R: Files> Files for Swapped<R> {
    type File = R::File;

    type Dir = R::Dir;

    fn open_file(&self, how: &OpenOptions, path: &str) -> io::Result<R::File> {
        if path.ends_with(self.ending.as_str()) && !how.asks_create_new() {
            return self.inner.open_file(how, NO_DISK);
        }
        self.inner.open_file(how, path)
    }

    fn open_dir(&self, path: &str) -> io::Result<R::Dir> {
        self.inner.open_dir(path)
    }

    fn metadata(&self, path: &str) -> io::Result<Metadata> {
        self.inner.metadata(path)
    }

    fn symlink_metadata(&self, path: &str) -> io::Result<Metadata> {
        self.inner.symlink_metadata(path)
    }

    fn copy(&self, from: &str, to: &str) -> io::Result<u64> {
        self.inner.copy(from, to)
    }

    fn rename(&self, from: &str, to: &str) -> io::Result<()> {
        self.inner.rename(from, to)
    }

    fn remove_file(&self, path: &str) -> io::Result<()> {
        self.inner.remove_file(path)
    }

    fn create_dir(&self, path: &str) -> io::Result<()> {
        self.inner.create_dir(path)
    }

    fn remove_dir(&self, path: &str) -> io::Result<()> {
        self.inner.remove_dir(path)
    }

    fn remove_dir_all<B: std::alloc::Allocator>(&self, alloc: B, path: &str) -> io::Result<()> {
        self.inner.remove_dir_all(alloc, path)
    }
}
