//! The real disk of the program, over a folder of the system: `FolderStore` keeps the numbered files of a project,
//! `FolderVault` the sounds by their names, `FileSource` reads the microphone and `FileSink` writes the speaker, both
//! of them files.
//!
//! Each keeps to its trait and counts its faults, and the layers above use no more than that. None tells its content:
//! what the system makes of a call is trusted, and `docs/DISK.md` says what is asked of it and which calls are made.
#![tactic(auto)]

mod counts;
mod entries;
mod file_sink;
mod file_source;
mod folder;
mod listing;
mod names;
mod open_files;
mod parts;
mod paths;
mod plain;
mod sounds;
mod span;
mod store;
mod syncing;
mod vault;

pub use file_sink::FileSink;
pub use file_source::FileSource;
pub use open_files::{Handle, OpenFiles};
pub use store::FolderStore;
pub use syncing::{OneByOne, SideBySide, SyncFiles};
pub use vault::FolderVault;
