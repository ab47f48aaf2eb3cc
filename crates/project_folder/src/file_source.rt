// A file as a source.
ghost use Rattle.std.specs.Prelude.{◌≡◌, ◌≤◌, length, None, IfOk, if◌then◌else◌};
ghost use Rattle.edit_ports.specs.Mem.{counted};
ghost use Rattle.edit_ports.specs.Told.{has_faulted};

use crate::paths::with_slash;
use crate::plain::has_stream;
use edit_ports::Source;
use pcm_base::Failed;
use std::alloc::{AllocError, Global};
use std::fs;
use std::io::Read;
use std::rt::Files;

/// A source over a file, as the microphone. It tells nothing of its bytes.
///
/// The file is opened at the first read, which fails where it is absent, a link or a folder. It may be a pipe.
#[derive(Drop)]
pub struct FileSource<R: Files> {
    files: R,
    path: String,
    inner: Option<R::File>,
    faults: u64,
}

impl<R: Files + Drop> FileSource<R> {
    /// The file of this name in the folder; an empty folder is the current one. Nothing is opened yet.
    ///
    /// # Errors
    /// There is no memory for the path.
    pub fn new(
        files: R,
        alloc: Global,
        folder: &str,
        name: &str,
    ) -> Result<FileSource<R>, AllocError>
        ensures { IfOk result (λ source. source.faults ≡ 0) }
    {
        let mut path = with_slash(alloc, folder)?;
        path.push_str(name)?;
        Ok(FileSource {
            files,
            path,
            inner: None,
            faults: 0,
        })
    }

    fn read_some(&mut self, buf: &mut [u8]) -> Result<usize, Failed>
        ensures bound { IfOk result (λ n. n ≤ length buf.new) }
        ensures faults { self.new.faults ≡ self.old.faults }
    {
        if self.inner.is_none() {
            if !has_stream(&self.files, self.path.as_str())? {
                return Err(Failed);
            }
            match fs::open(&self.files, self.path.as_str()) {
                Ok(file) => self.inner = Some(file),
                Err(_) => return Err(Failed),
            }
        }
        let Some(file) = &mut self.inner else {
            return Err(Failed);
        };
        match file.read(buf) {
            Ok(count) => Ok(count),
            Err(_) => Err(Failed),
        }
    }
}

impl<R: Files + Drop> Source for FileSource<R> {
    ghost left = { λ s. None };

    ghost fault_count = { λ s. s.faults };

    ghost follows = { λ first course now. now.faults
        ≡ (if has_faulted course then counted first.faults else first.faults) };

    fn read(&mut self, buf: &mut [u8]) -> Result<usize, Failed> {
        match self.read_some(buf) {
            Ok(count) => Ok(count),
            Err(_) => {
                self.faults = self.faults.saturating_add(1);
                Err(Failed)
            }
        }
    }

    fn faults(&self) -> u64 {
        self.faults
    }
}
