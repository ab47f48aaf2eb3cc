// The devices of a project's folder.
use project_folder::{FileSink, FileSource, FolderStore, FolderVault, SideBySide};
use std::alloc::{AllocError, Global};
use std::fs::File;
use std::rt::Files;
use std::thread::Threads;

/// The devices of a folder.
pub struct Devices<R: Files> {
    /// The files of the project, synced side by side.
    pub store: FolderStore<R, SideBySide<R>>,
    /// The sounds.
    pub vault: FolderVault<R>,
    /// The file `mic.raw`.
    pub mic: FileSource<R>,
    /// The file `speaker.raw`.
    pub speaker: FileSink<R>,
}

/// The devices of the folder of this name. Nothing of the folder is touched before the first call on one.
///
/// # Errors
///
/// There is no memory for the paths.
pub fn devices_of<R: Files<File = File> + Threads + Clone + Drop>(
    rt: &R,
    alloc: Global,
    folder: &str,
) -> Result<Devices<R>, AllocError> {
    Ok(Devices {
        store: FolderStore::side_by_side(rt.clone()?, rt.clone()?, alloc, folder)?,
        vault: FolderVault::new(rt.clone()?, alloc, folder)?,
        mic: FileSource::new(rt.clone()?, alloc, folder, "mic.raw")?,
        speaker: FileSink::new(rt.clone()?, alloc, folder, "speaker.raw")?,
    })
}
