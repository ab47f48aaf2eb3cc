// A file as a sink.
ghost use Rattle.std.specs.Prelude.{◌≡◌, ◌≤◌, ◌<◌, length, None, IfOk, if◌then◌else◌};
ghost use Rattle.edit_ports.specs.Mem.{counted};

use crate::paths::with_slash;
use crate::plain::{Opened, has_stream, open_at};
use edit_ports::Sink;
use pcm_base::Failed;
use std::alloc::{AllocError, Global};
use std::fs::OpenOptions;
use std::io::Write;
use std::rt::Files;

/// A sink over a file, as the speaker. It tells nothing of its bytes.
///
/// The file is made, or emptied, at the first write, which fails where its folder is absent, or a link or a folder
/// stands in its place. A first write of no bytes leaves an empty file.
#[derive(Drop)]
pub struct FileSink<R: Files> {
    files: R,
    path: String,
    inner: Option<R::File>,
    faults: u64,
}

// Makes the file at the path, or empties it.
fn open_empty<R: Files>(files: &R, path: &str) -> Result<R::File, Failed> {
    let mut how = OpenOptions::new();
    if let Opened::Open(file) = open_at(files, how.write(true).create_new(true), path)? {
        return Ok(file);
    }
    if !has_stream(files, path)? {
        return Err(Failed);
    }
    match how.create_new(false).truncate(true).open(files, path) {
        Ok(file) => Ok(file),
        Err(_) => Err(Failed),
    }
}

impl<R: Files + Drop> FileSink<R> {
    /// The file of this name in the folder; an empty folder is the current one. Nothing is opened yet.
    ///
    /// # Errors
    /// There is no memory for the path.
    pub fn new(files: R, alloc: Global, folder: &str, name: &str) -> Result<FileSink<R>, AllocError>
        ensures { IfOk result (λ sink. sink.faults ≡ 0) }
    {
        let mut path = with_slash(alloc, folder)?;
        path.push_str(name)?;
        Ok(FileSink {
            files,
            path,
            inner: None,
            faults: 0,
        })
    }

    fn write_some(&mut self, bytes: &[u8]) -> Result<usize, Failed>
        ensures bound { IfOk result (λ n. n ≤ length bytes.now) }
        ensures some { IfOk result (λ n. 0 < length bytes.now → 0 < n) }
        ensures faults { self.new.faults ≡ self.old.faults }
    {
        if self.inner.is_none() {
            self.inner = Some(open_empty(&self.files, self.path.as_str())?);
        }
        let Some(file) = &mut self.inner else {
            return Err(Failed);
        };
        if let Ok(count) = file.write(bytes) {
            if count > 0 || bytes.is_empty() {
                return Ok(count);
            }
        }
        Err(Failed)
    }
}

impl<R: Files + Drop> Sink for FileSink<R> {
    ghost written = { λ s. None };

    ghost fault_count = { λ s. s.faults };

    ghost follows = { λ first failed now. now.faults ≡ (if failed then counted first.faults else first.faults) };

    fn write(&mut self, bytes: &[u8]) -> Result<usize, Failed> {
        match self.write_some(bytes) {
            Ok(count) => Ok(count),
            Err(_) => {
                self.faults = self.faults.saturating_add(1);
                Err(Failed)
            }
        }
    }

    fn faults(&self) -> u64 {
        self.faults
    }
}
