// The numbered files of a folder, by calls of the system. No fault is counted here.
ghost use Rattle.std.specs.Prelude.{◌≡◌, ◌≤◌, ◌+◌, ◌*◌, true, false, IfOk, OnOk, OnErr, IfSome, IsSome, length};
ghost use Rattle.pcm_base.specs.declared.limits.TheConstants.{COUNTER_LIMIT};
ghost use Rattle.disk_model.specs.Parts.{AreParts};
ghost use Rattle.project_folder.specs.Entries.{waits_of};
ghost use Rattle.project_folder.specs.Open.{IsNoneOpen};
ghost use Rattle.project_folder.specs.Unsynced.{IsSynced};

use crate::entries::Entries;
use crate::open_files::{Handle, OpenFiles};
use crate::paths::Paths;
use crate::plain::{
    Opened, absent_is_none, length_at, open_at, plain_length, read_full, read_samples, write_full,
};
use crate::syncing::SyncFiles;
use disk_model::Part;
use pcm_base::Failed;
use std::alloc::{AllocError, Global};
use std::fs::{self, OpenFile, OpenOptions};
use std::os::unix::fs::FileExt;
use std::rt::Files;

/// File n is `project/n` of a folder, with n in decimal. The folder `project` is locked from the first change or sync
/// on, if it is there.
#[derive(Drop)]
pub(crate) struct Folder<R: Files, W> {
    pub(crate) files: R,
    how: W,
    pub(crate) paths: Paths,
    pub(crate) open_files: OpenFiles<R::File>,
    pub(crate) entries: Entries<R::File>,
    // Whether the write that came last met an absent file.
    met_absent: bool,
    // Whether a sync has failed. The system may tell a write that was lost once alone, so no later sync can be trusted.
    is_lost: bool,
}

impl<R: Files + Drop, W: SyncFiles<R::File> + Drop> Folder<R, W>
where
    R::File: FileExt,
{
    // Nothing is opened yet. This many files are kept open at most that were written.
    pub(crate) fn new(
        files: R,
        how: W,
        alloc: Global,
        home: &str,
        most: usize,
    ) -> Result<Folder<R, W>, AllocError> {
        Ok(Folder {
            files,
            how,
            paths: Paths::new(alloc, home, "project")?,
            open_files: OpenFiles::new(alloc, most)?,
            entries: Entries::new(alloc, home)?,
            met_absent: false,
            is_lost: false,
        })
    }

    // Whether the write that came last met an absent file, as far as the system told.
    pub(crate) fn met_absent(&self) -> bool {
        self.met_absent
    }

    // Notes that a sync has failed. The system may take what was written for synced from now on, so that the next
    // program would read it and find it synced; so it is written again.
    fn lose(&mut self) -> Failed
        ensures lost { self.new.is_lost ≡ true }
        ensures entries { self.new.entries ≡ self.old.entries }
    {
        self.is_lost = true;
        self.open_files.write_again();
        Failed
    }

    fn open_once(&mut self, how: &OpenOptions, file: u64) -> Result<Opened<R::File>, Failed>
        ensures entries { self.new.entries ≡ self.old.entries }
        ensures open { self.new.open_files ≡ self.old.open_files }
    {
        open_at(&self.files, how, self.paths.numbered(file)?)
    }

    // Opens the file, or makes it, as the options say. Where that fails others may take up all descriptors: it is tried
    // once more when they are synced and closed. By then it may be there, made by the call that failed.
    fn open_as(&mut self, how: &OpenOptions, file: u64) -> Result<Opened<R::File>, Failed>
        ensures folder { self.new.entries.folder ≡ self.old.entries.folder }
        ensures closed { OnErr result (self.new.is_lost ≡ false → IsNoneOpen self.new.open_files) }
    {
        if let Ok(opened) = self.open_once(how, file) {
            return Ok(opened);
        }
        match self.open_files.close_all(&self.how) {
            Ok(false) => Err(Failed),
            Ok(true) => {
                self.entries.note(file);
                self.open_once(how, file)
            }
            Err(_) => Err(self.lose()),
        }
    }

    // Opens the plain file, or answers None where it is absent.
    fn open_plain(&mut self, how: &OpenOptions, file: u64) -> Result<Option<R::File>, Failed>
        ensures { self.new.entries.folder ≡ self.old.entries.folder }
    {
        if length_at(&self.files, self.paths.numbered(file)?)?.is_none() {
            return Ok(None);
        }
        match self.open_as(how, file)? {
            Opened::Open(inner) => Ok(Some(inner)),
            _ => Ok(None),
        }
    }

    // Has the file open to be read, where it is there.
    fn open_to_read(&mut self, file: u64) -> Result<(), Failed> {
        if self.open_files.find(file).is_some() {
            return Ok(());
        }
        self.open_closed(file)
    }

    // Opens the file to be read, where it is there. It is not open.
    fn open_closed(&mut self, file: u64) -> Result<(), Failed> {
        match self.open_plain(OpenOptions::new().read(true), file)? {
            Some(inner) => self.open_files.keep(Handle::new(file, inner, false)),
            None => Ok(()),
        }
    }

    // Makes the file, or opens it to be written where it is there. Where its making failed it may be there too.
    fn make_or_open(&mut self, file: u64) -> Result<R::File, Failed>
        ensures { self.new.entries.folder ≡ self.old.entries.folder }
    {
        let mut how = OpenOptions::new();
        let how = how.read(true).write(true);
        let made = self.open_as(how.create_new(true), file);
        if let Ok(Opened::There) = made {
            let found = self.open_plain(how.create_new(false), file)?;
            return found.ok_or(Failed);
        }
        self.met_absent = true;
        self.entries.note(file);
        match made? {
            Opened::Open(inner) => Ok(inner),
            _ => Err(Failed),
        }
    }

    // Has the file open, so that `count` bytes can be written at a place, up to its sync.
    fn open_to_write(&mut self, file: u64, at: u64, count: usize) -> Result<(), Failed>
        requires { at + count ≤ COUNTER_LIMIT }
        ensures { self.new.entries.folder ≡ self.old.entries.folder }
    {
        let mut handle = match self.open_files.take(file) {
            Some(handle) if handle.is_writable => handle,
            _ => Handle::new(file, self.make_or_open(file)?, true),
        };
        handle.unsynced = handle.unsynced.widen(at, count);
        match self.open_files.keep_waiting(handle, &self.how) {
            Ok(()) => Ok(()),
            Err(_) => Err(self.lose()),
        }
    }

    pub(crate) fn size(&mut self, file: u64) -> Result<Option<u64>, Failed>
        ensures bound { IfOk result (λ n. IfSome n (λ n. n ≤ COUNTER_LIMIT)) }
    {
        if let Some(handle) = self.open_files.get(file) {
            let Ok(metadata) = handle.inner.metadata() else {
                return Err(Failed);
            };
            return Ok(Some(plain_length(&metadata)?));
        }
        length_at(&self.files, self.paths.numbered(file)?)
    }

    pub(crate) fn read_at(&mut self, file: u64, at: u64, buf: &mut [u8]) -> Result<usize, Failed>
        requires { at + length buf.old ≤ COUNTER_LIMIT }
        ensures within { IfOk result (λ n. n ≤ length buf.old) }
    {
        if let Some(handle) = self.open_files.find(file) {
            return read_full(&handle.inner, at, buf);
        }
        self.open_closed(file)?;
        match self.open_files.find(file) {
            Some(handle) => read_full(&handle.inner, at, buf),
            None => Ok(0),
        }
    }

    // Reads samples of one file, and says whether it has all of them.
    fn read_samples(&mut self, file: u64, at: u64, out: &mut [i16]) -> Result<bool, Failed>
        requires { at + 2 * length out.old ≤ COUNTER_LIMIT }
    {
        if out.is_empty() {
            return Ok(true);
        }
        if let Some(handle) = self.open_files.find(file) {
            return read_samples(&handle.inner, at, out);
        }
        self.open_closed(file)?;
        match self.open_files.find(file) {
            Some(handle) => read_samples(&handle.inner, at, out),
            None => Ok(false),
        }
    }

    // Reads parts one after the other, and says whether each file has all of its parts.
    fn read_in_turn(&mut self, parts: &[Part], out: &mut [i16]) -> Result<bool, Failed>
        requires { AreParts 0 (length out.old) parts.now }
    {
        'parts: for part in parts {
            let end = part.to + part.len;
            if !self.read_samples(part.file, part.at, &mut out[part.to..end])? {
                return Ok(false);
            }
        }
        Ok(true)
    }

    // Opens the files of parts, as many as are kept open, and says whether all of them are open.
    fn open_parts(&mut self, parts: &[Part]) -> Result<bool, Failed> {
        for part in parts {
            if 0 < part.len {
                self.open_to_read(part.file)?;
            }
        }
        for part in parts {
            if 0 < part.len && self.open_files.get(part.file).is_none() {
                return Ok(false);
            }
        }
        Ok(true)
    }

    // Reads parts of files at the same time, or one after another where that was not done.
    pub(crate) fn read_parts(&mut self, parts: &[Part], out: &mut [i16]) -> Result<bool, Failed>
        requires { AreParts 0 (length out.old) parts.now }
    {
        if self.open_parts(parts)? && self.how.read_parts(&self.open_files, parts, out) {
            return Ok(true);
        }
        self.read_in_turn(parts, out)
    }

    pub(crate) fn write_at(&mut self, file: u64, at: u64, bytes: &[u8]) -> Result<(), Failed>
        requires { at + length bytes.now ≤ COUNTER_LIMIT }
        ensures held { OnOk result (IsSome self.new.entries.folder) }
    {
        self.met_absent = false;
        self.entries
            .hold_or_make(&self.files, &self.how, self.paths.folder())?;
        self.open_to_write(file, at, bytes.len())?;
        match self.open_files.get(file) {
            Some(handle) => write_full(&handle.inner, at, bytes),
            None => Err(Failed),
        }
    }

    // Waits until the file is on the disk, and the folder too where the file's entry may not be there yet.
    pub(crate) fn sync(&mut self, file: u64) -> Result<(), Failed>
        ensures data { OnOk result (IsSynced file self.new.open_files.first self.new.open_files.waiting.items) }
        ensures settled { OnOk result (
            waits_of file self.new.entries.first_waits self.new.entries.others_wait ≡ false) }
        ensures trusted { OnOk result (self.old.is_lost ≡ false) }
        ensures lost { OnErr result (self.new.is_lost ≡ true) }
    {
        if self.is_lost {
            return Err(Failed);
        }
        match self.sync_all(file) {
            Ok(()) => Ok(()),
            Err(_) => Err(self.lose()),
        }
    }

    // Waits for what the file holds, if it is there, and for its entry.
    fn sync_all(&mut self, file: u64) -> Result<(), Failed>
        ensures data { OnOk result (IsSynced file self.new.open_files.first self.new.open_files.waiting.items) }
        ensures settled { OnOk result (
            waits_of file self.new.entries.first_waits self.new.entries.others_wait ≡ false) }
    {
        let _ = self
            .entries
            .hold(&self.files, &self.how, self.paths.folder())?;
        self.open_to_read(file)?;
        self.open_files.sync(file, &self.how)?;
        if self.entries.waits(file) {
            self.entries.sync(&self.files)?;
        }
        Ok(())
    }

    pub(crate) fn remove(&mut self, file: u64) -> Result<(), Failed> {
        let _ = self
            .entries
            .hold(&self.files, &self.how, self.paths.folder())?;
        let _ = self.open_files.take(file);
        let path = self.paths.numbered(file)?;
        if length_at(&self.files, path)?.is_none() {
            return Ok(());
        }
        self.entries.note(file);
        match absent_is_none(fs::remove_file(&self.files, path)) {
            Ok(_) => Ok(()),
            Err(_) => Err(Failed),
        }
    }

    // The folder's names as bytes, each ended by a 0, or None where the folder is absent.
    pub(crate) fn names(&self) -> Result<Option<R::Dir>, Failed> {
        absent_is_none(self.files.open_dir(self.paths.folder()))
    }
}
