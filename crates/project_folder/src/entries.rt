// The entries of a folder, and of the folders that it lies in: which of them may not be on the disk yet.
ghost use Rattle.std.specs.Prelude.{◌≡◌, true, false, IfOk, OnOk, IsSome, IsTrue};
ghost use Rattle.project_folder.specs.Entries.{waits_of};

use crate::paths::with_slash;
use crate::plain::{absent_is_none, make_folder};
use crate::syncing::SyncFiles;
use pcm_base::Failed;
use std::alloc::{AllocError, Global};
use std::fs::{self, OpenFile};
use std::rt::Files;

/// Of file 0, of all other files and of the folders above, whether an entry waits for a sync: it was made or removed
/// here, or an earlier program may have done so before it was stopped. A sync of the folder puts all its entries on the
/// disk at once.
#[derive(Drop)]
pub(crate) struct Entries<F> {
    home: String,
    above: String,
    // Locked while it is open.
    pub(crate) folder: Option<F>,
    pub(crate) first_waits: bool,
    pub(crate) others_wait: bool,
    above_waits: bool,
    // Whether this program has made something in `home`, and in `above`.
    has_changed_home: bool,
    has_changed_above: bool,
}

impl<F: OpenFile + Drop> Entries<F> {
    // The entries of a folder in the folder `home`. Nothing is known of them, so all wait.
    pub(crate) fn new(alloc: Global, home: &str) -> Result<Entries<F>, AllocError> {
        let home = with_slash(alloc, home)?;
        let mut above = String::from_str(alloc, home.as_str())?;
        above.push_str("..")?;
        Ok(Entries {
            home,
            above,
            folder: None,
            first_waits: true,
            others_wait: true,
            above_waits: true,
            has_changed_home: false,
            has_changed_above: false,
        })
    }

    // Notes that the file is made or removed.
    pub(crate) fn note(&mut self, file: u64)
        ensures waits { waits_of file self.new.first_waits self.new.others_wait ≡ true }
        ensures folder { self.new.folder ≡ self.old.folder }
    {
        if file == 0 {
            self.first_waits = true;
        } else {
            self.others_wait = true;
        }
    }

    // Whether the file's entry may not be on the disk yet.
    pub(crate) fn waits(&self, file: u64) -> bool
        ensures { result ≡ waits_of file self.now.first_waits self.now.others_wait }
    {
        if file == 0 {
            self.first_waits
        } else {
            self.others_wait
        }
    }

    // Has the folder at the path open and locked, where it is there, and says whether it is.
    pub(crate) fn hold<R: Files<File = F>, W: SyncFiles<F>>(
        &mut self,
        files: &R,
        how: &W,
        path: &str,
    ) -> Result<bool, Failed>
        ensures { IfOk result (λ is_there. IsTrue is_there → IsSome self.new.folder) }
    {
        if self.folder.is_none() {
            if let Some(folder) = absent_is_none(fs::open(files, path))? {
                how.lock(&folder)?;
                self.folder = Some(folder);
            }
        }
        Ok(self.folder.is_some())
    }

    // Has the folder at the path open and locked, and makes it where it is absent.
    pub(crate) fn hold_or_make<R: Files<File = F>, W: SyncFiles<F>>(
        &mut self,
        files: &R,
        how: &W,
        path: &str,
    ) -> Result<(), Failed>
        ensures { OnOk result (IsSome self.new.folder) }
    {
        if self.hold(files, how, path)? {
            return Ok(());
        }
        self.make(files, path)?;
        if self.hold(files, how, path)? {
            Ok(())
        } else {
            Err(Failed)
        }
    }

    // Makes the folder at the path, and the one that it lies in, where they are absent.
    fn make<R: Files>(&mut self, files: &R, path: &str) -> Result<(), Failed> {
        self.above_waits = true;
        if make_folder(files, self.home.as_str())? {
            self.has_changed_above = true;
        }
        if make_folder(files, path)? {
            self.has_changed_home = true;
        }
        Ok(())
    }

    // Waits until all entries are on the disk. Where the folder is absent, and so not held, there are none.
    pub(crate) fn sync<R: Files<File = F>>(&mut self, files: &R) -> Result<(), Failed>
        ensures first { OnOk result (self.new.first_waits ≡ false) }
        ensures others { OnOk result (self.new.others_wait ≡ false) }
        ensures folder { self.new.folder ≡ self.old.folder }
    {
        if let Some(folder) = &self.folder {
            if folder.sync_all().is_err() {
                return Err(Failed);
            }
            self.sync_above(files)?;
        }
        self.first_waits = false;
        self.others_wait = false;
        Ok(())
    }

    // Waits the first time for the folders above.
    fn sync_above<R: Files<File = F>>(&mut self, files: &R) -> Result<(), Failed>
        ensures { self.new.folder ≡ self.old.folder }
    {
        if self.above_waits {
            sync_if_changed(files, self.home.as_str(), self.has_changed_home)?;
            sync_if_changed(files, self.above.as_str(), self.has_changed_above)?;
            self.above_waits = false;
        }
        Ok(())
    }
}

// Waits for a folder above. One that can't be waited for is passed over where this program has made nothing in it.
fn sync_if_changed<R: Files>(files: &R, path: &str, is_changed: bool) -> Result<(), Failed> {
    let is_synced = match fs::open(files, path) {
        Ok(folder) => folder.sync_all().is_ok(),
        Err(_) => false,
    };
    if is_synced || !is_changed {
        Ok(())
    } else {
        Err(Failed)
    }
}
