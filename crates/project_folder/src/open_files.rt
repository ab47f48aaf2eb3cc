// The files that are kept open.
ghost use Rattle.std.specs.Prelude.{◌≡◌, ◌≢◌, ◌<◌, [], IfSome, IfNone, OnOk, All, length};
ghost use Rattle.project_folder.specs.Unsynced.{IsEmpty, IsSynced};
ghost use Rattle.project_folder.specs.Open.{IsNoneOpen};

use crate::span::Span;
use crate::syncing::SyncFiles;
use pcm_base::Failed;
use std::alloc::{AllocError, Global};
use std::fs::OpenFile;
use std::os::unix::fs::FileExt;

/// How many files besides file 0 are kept open at most that were written and not asked to be synced since.
pub(crate) const WRITTEN_FILES: usize = 512;

/// How many more are kept open at most, which were read or synced: twice as many as a project has tracks. A mix goes on
/// to the next file of a track while those of all others are read, and the file that came first is closed.
const READ_FILES: usize = 128;

/// How many of either kind are kept at least, also where the system grants few descriptors.
const FEWEST_FILES: usize = 8;

/// An open file of a store by its number.
#[derive(Drop)]
pub struct Handle<F> {
    pub(crate) file: u64,
    pub(crate) inner: F,
    // Whether it was opened to be written too.
    pub(crate) is_writable: bool,
    // What was written through it and not synced since.
    pub(crate) unsynced: Span,
}

/// File 0 once it was used, and other files: those that were written up to their sync, and some that were read or
/// synced last. In each list the file that came first is in front.
///
/// What was written stays open up to its sync, since the system surely reports a write that was lost after the call
/// only to those who had the file open then. The first file that is asked to be synced has all of them synced with it,
/// and so they are where there are too many. A caller can't tell this from a disk that is quick.
#[derive(Drop)]
pub struct OpenFiles<F> {
    pub(crate) first: Option<Handle<F>>,
    // Written and not synced since.
    pub(crate) waiting: Vec<Handle<F>>,
    // Written, synced with another file, and not asked to be synced since.
    synced: Vec<Handle<F>>,
    // Read, or synced as was asked.
    read: Vec<Handle<F>>,
    // Where the one among these stood that was found last.
    last: usize,
    // How many of the written ones are kept, and how many of the others, if that is fewer than READ_FILES.
    most: usize,
}

impl<F> Handle<F> {
    // A file that was just opened.
    pub(crate) fn new(file: u64, inner: F, is_writable: bool) -> Handle<F> {
        Handle {
            file,
            inner,
            is_writable,
            unsynced: Span::none(),
        }
    }
}

impl<F: OpenFile> Handle<F> {
    // Waits until what the file holds is on the disk.
    fn sync(&mut self) -> Result<(), Failed>
        ensures { OnOk result (IsEmpty self.new.unsynced) }
    {
        if self.inner.sync_data().is_err() {
            return Err(Failed);
        }
        self.unsynced = Span::none();
        Ok(())
    }
}

// Where the file stands among these, the one that came last first: it is the one that is asked again soonest.
fn place_in<F>(handles: &[Handle<F>], file: u64) -> Option<usize>
    ensures inside { IfSome result (λ place. place < length handles.now) }
    ensures none { IfNone result (All (λ handle. handle.file ≢ file) handles.now) }
{
    let mut place = handles.len();
    'places: while 0 < place {
        place -= 1;
        if handles[place].file == file {
            return Some(place);
        }
    }
    None
}

// Takes the file out, if it is one of these.
fn take_from<F>(handles: &mut Vec<Handle<F>>, file: u64) -> Option<Handle<F>> {
    let place = place_in(handles.as_slice(), file)?;
    Some(handles.remove(place))
}

// Closes the file that came first.
fn close_first<F: Drop>(handles: &mut Vec<Handle<F>>) {
    if !handles.is_empty() {
        let _ = handles.remove(0);
    }
}

fn add<F: Drop>(handles: &mut Vec<Handle<F>>, handle: Handle<F>) -> Result<(), Failed> {
    match handles.push(handle) {
        Ok(()) => Ok(()),
        Err(_) => Err(Failed),
    }
}

impl<F: OpenFile + Drop> OpenFiles<F> {
    // None is open yet. This many that were written are kept at most.
    pub(crate) fn new(alloc: Global, most: usize) -> Result<OpenFiles<F>, AllocError> {
        Ok(OpenFiles {
            first: None,
            waiting: Vec::with_capacity(alloc, most)?,
            synced: Vec::with_capacity(alloc, most)?,
            read: Vec::with_capacity(alloc, READ_FILES)?,
            last: 0,
            most,
        })
    }

    // The open file of this number.
    pub(crate) fn get(&self, file: u64) -> Option<&Handle<F>> {
        if let Some(handle) = self.written(file) {
            return Some(handle);
        }
        let place = place_in(self.read.as_slice(), file)?;
        self.read.get(place)
    }

    // The open file of this number, for a read: mostly it is the one that was found last.
    pub(crate) fn find(&mut self, file: u64) -> Option<&Handle<F>> {
        if file == 0 {
            return self.first.as_ref();
        }
        if self.is_last(file) {
            return self.read.get(self.last);
        }
        let Some(place) = place_in(self.read.as_slice(), file) else {
            return self.written(file);
        };
        self.last = place;
        self.read.get(place)
    }

    // Whether the file is the one that was found last.
    fn is_last(&self, file: u64) -> bool {
        match self.read.get(self.last) {
            Some(handle) => handle.file == file,
            None => false,
        }
    }

    // The open file of this number, if it is file 0 or was written.
    fn written(&self, file: u64) -> Option<&Handle<F>> {
        if file == 0 {
            return self.first.as_ref();
        }
        for handles in [&self.waiting, &self.synced] {
            if let Some(place) = place_in(handles.as_slice(), file) {
                return handles.get(place);
            }
        }
        None
    }

    // Takes the open file of this number out.
    pub(crate) fn take(&mut self, file: u64) -> Option<Handle<F>> {
        if file == 0 {
            return self.first.take();
        }
        if let Some(handle) = take_from(&mut self.waiting, file) {
            return Some(handle);
        }
        if let Some(handle) = take_from(&mut self.synced, file) {
            return Some(handle);
        }
        take_from(&mut self.read, file)
    }

    // Keeps a file open that has nothing to be synced. Another one may be closed for it.
    pub(crate) fn keep(&mut self, handle: Handle<F>) -> Result<(), Failed>
        ensures waiting { self.new.waiting ≡ self.old.waiting }
    {
        if handle.file == 0 {
            self.first = Some(handle);
            return Ok(());
        }
        if self.read.len() >= READ_FILES.min(self.most) {
            close_first(&mut self.read);
        }
        add(&mut self.read, handle)
    }

    // Keeps a file open up to its sync. Where there are too many such files all are synced, and the first is closed.
    pub(crate) fn keep_waiting<W: SyncFiles<F>>(
        &mut self,
        handle: Handle<F>,
        how: &W,
    ) -> Result<(), Failed> {
        if handle.file == 0 {
            self.first = Some(handle);
            return Ok(());
        }
        if self.waiting.len() >= self.most.saturating_sub(self.synced.len()) {
            if self.synced.is_empty() {
                self.sync_waiting(how)?;
            }
            close_first(&mut self.synced);
        }
        add(&mut self.waiting, handle)
    }

    // Waits until what the file holds is on the disk, if it is open.
    pub(crate) fn sync<W: SyncFiles<F>>(&mut self, file: u64, how: &W) -> Result<(), Failed>
        ensures { OnOk result (IsSynced file self.new.first self.new.waiting.items) }
    {
        if file == 0 {
            return self.sync_first();
        }
        if place_in(self.waiting.as_slice(), file).is_some() {
            self.sync_waiting(how)?;
        }
        if let Some(handle) = take_from(&mut self.synced, file) {
            return self.keep(handle);
        }
        // It was not written here: an earlier program may have written it.
        match place_in(self.read.as_slice(), file) {
            Some(place) if self.read[place].inner.sync_data().is_err() => Err(Failed),
            _ => Ok(()),
        }
    }

    fn sync_first(&mut self) -> Result<(), Failed>
        ensures waiting { self.new.waiting ≡ self.old.waiting }
        ensures first { OnOk result (IfSome self.new.first (λ handle. IsEmpty handle.unsynced)) }
    {
        match &mut self.first {
            Some(handle) => handle.sync(),
            None => Ok(()),
        }
    }

    // Waits for all files that were written, but for file 0.
    fn sync_waiting<W: SyncFiles<F>>(&mut self, how: &W) -> Result<(), Failed>
        ensures { OnOk result (self.new.waiting.items ≡ []) }
    {
        how.sync_files(self.waiting.as_slice())?;
        for handle in self.waiting.iter_mut() {
            handle.unsynced = Span::none();
        }
        match self.synced.append(&mut self.waiting) {
            Ok(()) => Ok(()),
            Err(_) => Err(Failed),
        }
    }

    // Writes again what was written and not synced, as the files read.
    pub(crate) fn write_again(&self)
    where
        F: FileExt,
    {
        for handle in &self.first {
            handle.unsynced.write_again(&handle.inner);
        }
        for handle in &self.waiting {
            handle.unsynced.write_again(&handle.inner);
        }
    }

    // Closes all files, once they are synced, and says whether there were any. From then on no more than a quarter of their
    // number is kept of those that are written, and of the others, so that half of the descriptors stay free.
    pub(crate) fn close_all<W: SyncFiles<F>>(&mut self, how: &W) -> Result<bool, Failed>
        ensures { OnOk result (IsNoneOpen self.new) }
    {
        self.sync_waiting(how)?;
        self.sync_first()?;
        let count = self.synced.len().saturating_add(self.read.len());
        let is_any = count > 0 || self.first.is_some();
        self.most = self.most.min((count / 4).max(FEWEST_FILES));
        self.first = None;
        self.synced.clear();
        self.read.clear();
        Ok(is_any)
    }
}
