// The numbered files of a project's folder, as a store.
ghost use Rattle.std.specs.Prelude.{◌≡◌, false, None, IfOk};
ghost use Rattle.disk_model.specs.Moment.{At};
ghost use Rattle.project_folder.specs.Counts.{no_counts};

use crate::counts::Counts;
use crate::folder::Folder;
use crate::listing::list_numbers;
use crate::open_files::WRITTEN_FILES;
use crate::syncing::{OneByOne, SideBySide, SyncFiles};
use disk_model::{ListFault, Part, Store};
use pcm_base::Failed;
use std::alloc::{AllocError, Global};
use std::fs::File;
use std::os::unix::fs::FileExt;
use std::rt::Files;
use std::thread::Threads;

/// File n is `project/n` of a folder, with n in decimal. It tells nothing of what its files hold.
///
/// A folder that is absent has no files, and is made at the first write. What stands in a file's place and is no plain
/// file, as a link or a folder, makes each call on it fail, and so does a file of more than 2^62 bytes. After a sync
/// that failed each later one fails.
#[derive(Drop)]
pub struct FolderStore<R: Files, W> {
    folder: Folder<R, W>,
    counts: Counts,
}

impl<R: Files + Drop> FolderStore<R, OneByOne>
where
    R::File: FileExt,
{
    /// The files of the project in the folder `home`; an empty name is the current folder. Nothing is opened yet.
    ///
    /// # Errors
    /// There is no memory for the paths.
    pub fn new(files: R, alloc: Global, home: &str) -> Result<FolderStore<R, OneByOne>, AllocError>
        ensures { IfOk result (λ store. store.counts ≡ no_counts) }
    {
        FolderStore::over(files, OneByOne, alloc, home, WRITTEN_FILES)
    }
}

impl<R: Files<File = File> + Drop, T: Threads + Drop> FolderStore<R, SideBySide<T>> {
    /// The same, with files that are waited for side by side in these threads.
    ///
    /// # Errors
    /// There is no memory for the paths.
    pub fn side_by_side(
        files: R,
        threads: T,
        alloc: Global,
        home: &str,
    ) -> Result<FolderStore<R, SideBySide<T>>, AllocError>
        ensures { IfOk result (λ store. store.counts ≡ no_counts) }
    {
        let how = SideBySide::new(threads);
        FolderStore::over(files, how, alloc, home, WRITTEN_FILES)
    }
}

impl<R: Files + Drop, W: SyncFiles<R::File> + Drop> FolderStore<R, W>
where
    R::File: FileExt,
{
    // This many files that were written are kept open at most.
    pub(crate) fn over(
        files: R,
        how: W,
        alloc: Global,
        home: &str,
        most: usize,
    ) -> Result<FolderStore<R, W>, AllocError>
        ensures { IfOk result (λ store. store.counts ≡ no_counts) }
    {
        Ok(FolderStore {
            folder: Folder::new(files, how, alloc, home, most)?,
            counts: Counts::new(),
        })
    }
}

impl<R: Files + Drop, W: SyncFiles<R::File> + Drop> Store for FolderStore<R, W>
where
    R::File: FileExt,
{
    ghost tells = { λ _. false };

    ghost reads = { λ _ _. None };

    ghost keeps_model = { λ _. false };

    ghost clock = { λ _. At 0 };

    ghost may_leave = { λ _ _ _. ⊥ };

    ghost read_fault_count = { λ s. s.counts.read_faults };

    ghost change_fault_count = { λ s. s.counts.change_faults };

    ghost change_calls = { λ s. s.counts.change_calls };

    ghost asked_bytes = { λ s. s.counts.asked_bytes };

    ghost absent_writes = { λ s. s.counts.absent_writes };

    ghost room = { λ _. None };

    ghost may_stay = { λ _ no. Prim.cc };

    ghost may_fewer = { λ _ _ _ _ _ _ none. none };

    fn faults(&self) -> u64 {
        self.counts.faults()
    }

    fn change_faults(&self) -> u64 {
        self.counts.change_faults
    }

    fn size(&mut self, file: u64) -> Result<Option<u64>, Failed> {
        match self.folder.size(file) {
            Ok(size) => Ok(size),
            Err(_) => Err(self.counts.fail_read()),
        }
    }

    fn read_at(&mut self, file: u64, at: u64, buf: &mut [u8]) -> Result<usize, Failed> {
        match self.folder.read_at(file, at, buf) {
            Ok(count) => Ok(count),
            Err(_) => Err(self.counts.fail_read()),
        }
    }

    fn read_parts(&mut self, parts: &[Part], out: &mut [i16]) -> Result<bool, Failed> {
        match self.folder.read_parts(parts, out) {
            Ok(all) => Ok(all),
            Err(_) => Err(self.counts.fail_read()),
        }
    }

    fn write_at(&mut self, file: u64, at: u64, bytes: &[u8]) -> Result<(), Failed> {
        self.counts.count_write(bytes.len());
        let wrote = self.folder.write_at(file, at, bytes);
        if self.folder.met_absent() {
            self.counts.count_absent();
        }
        match wrote {
            Ok(()) => Ok(()),
            Err(_) => Err(self.counts.fail_change()),
        }
    }

    fn sync(&mut self, file: u64) -> Result<(), Failed> {
        self.counts.count_change();
        match self.folder.sync(file) {
            Ok(()) => Ok(()),
            Err(_) => Err(self.counts.fail_change()),
        }
    }

    fn remove(&mut self, file: u64) -> Result<(), Failed> {
        self.counts.count_change();
        match self.folder.remove(file) {
            Ok(()) => Ok(()),
            Err(_) => Err(self.counts.fail_change()),
        }
    }

    fn files(&mut self, out: &mut Vec<u64>) -> Result<(), ListFault> {
        let listed = list_numbers(&mut self.folder, out);
        if let Err(ListFault::Failed) = listed {
            let _ = self.counts.fail_read();
        }
        listed
    }
}
