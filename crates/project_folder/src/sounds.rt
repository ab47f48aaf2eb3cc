// The sounds of a folder, by calls of the system. No fault is counted here.
ghost use Rattle.std.specs.Prelude.{◌≡◌, ◌≤◌, true, length, IfOk, IfSome, OnOk, IsSome, IsSomeAnd, IsTrue};
ghost use Rattle.pcm_base.specs.Form.{IsName};

use crate::names::is_name;
use crate::paths::{Paths, with_slash};
use crate::plain::{Opened, length_at, make_folder, open_at, open_plain, plain_length, read_full};
use pcm_base::{COUNTER_LIMIT, Failed};
use std::alloc::{AllocError, Global};
use std::fs::{OpenFile, OpenOptions};
use std::io::Write;
use std::os::unix::fs::FileExt;
use std::rt::Files;

/// The open file of a sound.
#[derive(Drop)]
struct Sound<F> {
    inner: F,
    // Whether it was opened to be written at its end too.
    is_writable: bool,
}

/// The sound of a name is `sounds/NAME` of a folder. The one that was used last stays open.
#[derive(Drop)]
pub(crate) struct Sounds<R: Files> {
    files: R,
    home: String,
    paths: Paths,
    sound: Option<Sound<R::File>>,
}

// Options by which what is written goes to the file's end.
fn appending() -> OpenOptions {
    let mut how = OpenOptions::new();
    how.read(true).append(true);
    how
}

impl<R: Files + Drop> Sounds<R> {
    // Nothing is opened yet.
    pub(crate) fn new(files: R, alloc: Global, home: &str) -> Result<Sounds<R>, AllocError> {
        Ok(Sounds {
            files,
            home: with_slash(alloc, home)?,
            paths: Paths::new(alloc, home, "sounds")?,
            sound: None,
        })
    }

    // Whether the open file is the sound, and may be written where that is asked for.
    fn has_open(&self, name: &str, writes: bool) -> bool
        ensures there { IsTrue result → IsSome self.now.sound }
        ensures writes { IsTrue result → IsTrue writes → IfSome self.now.sound (λ sound. sound.is_writable ≡ true) }
    {
        match &self.sound {
            Some(sound) => self.paths.is_at(name) && (sound.is_writable || !writes),
            None => false,
        }
    }

    pub(crate) fn size(&mut self, name: &str) -> Result<Option<u64>, Failed>
        ensures named { OnOk result (IsName name.now) }
    {
        if !is_name(name.as_bytes()) {
            return Err(Failed);
        }
        if self.has_open(name, false) {
            if let Some(sound) = &self.sound {
                let Ok(metadata) = sound.inner.metadata() else {
                    return Err(Failed);
                };
                return Ok(Some(plain_length(&metadata)?));
            }
        }
        self.sound = None;
        length_at(&self.files, self.paths.named(name)?)
    }

    pub(crate) fn read_at(&mut self, name: &str, at: u64, buf: &mut [u8]) -> Result<usize, Failed>
    where
        R::File: FileExt,
        ensures named { OnOk result (IsName name.now) }
        ensures within { IfOk result (λ n. n ≤ length buf.old) }
    {
        if !is_name(name.as_bytes()) {
            return Err(Failed);
        }
        if !self.has_open(name, false) {
            self.sound = None;
            let path = self.paths.named(name)?;
            if let Some(inner) = open_plain(&self.files, OpenOptions::new().read(true), path)? {
                self.sound = Some(Sound {
                    inner,
                    is_writable: false,
                });
            }
        }
        let Some(sound) = &self.sound else {
            return Ok(0);
        };
        if at > COUNTER_LIMIT || buf.len() as u64 > COUNTER_LIMIT {
            return Ok(0);
        }
        read_full(&sound.inner, at, buf)
    }

    // Has the sound open to be written at its end, and makes it where it is absent.
    fn open_to_append(&mut self, name: &str) -> Result<(), Failed>
        ensures named { OnOk result (IsName name.now) }
        ensures writable { OnOk result (IsSomeAnd self.new.sound (λ sound. sound.is_writable ≡ true)) }
    {
        if !is_name(name.as_bytes()) {
            return Err(Failed);
        }
        if self.has_open(name, true) {
            return Ok(());
        }
        self.sound = None;
        let path = self.paths.named(name)?;
        let inner = match open_plain(&self.files, &appending(), path)? {
            Some(inner) => inner,
            None => self.make(name)?,
        };
        self.sound = Some(Sound {
            inner,
            is_writable: true,
        });
        Ok(())
    }

    fn make(&mut self, name: &str) -> Result<R::File, Failed> {
        let mut how = appending();
        let how = how.create_new(true);
        let path = self.paths.named(name)?;
        if let Opened::Open(file) = open_at(&self.files, how, path)? {
            return Ok(file);
        }
        let _ = make_folder(&self.files, self.home.as_str())?;
        let _ = make_folder(&self.files, self.paths.folder())?;
        match open_at(&self.files, how, self.paths.named(name)?)? {
            Opened::Open(file) => Ok(file),
            _ => Err(Failed),
        }
    }

    pub(crate) fn start(&mut self, name: &str) -> Result<(), Failed>
        ensures named { OnOk result (IsName name.now) }
    {
        self.open_to_append(name)?;
        let Some(sound) = &self.sound else {
            return Err(Failed);
        };
        match sound.inner.set_len(0) {
            Ok(()) => Ok(()),
            Err(_) => Err(Failed),
        }
    }

    pub(crate) fn append(&mut self, name: &str, bytes: &[u8]) -> Result<(), Failed>
        ensures named { OnOk result (IsName name.now) }
    {
        self.open_to_append(name)?;
        let Some(sound) = &mut self.sound else {
            return Err(Failed);
        };
        match sound.inner.write_all(bytes) {
            Ok(()) => Ok(()),
            Err(_) => Err(Failed),
        }
    }
}
