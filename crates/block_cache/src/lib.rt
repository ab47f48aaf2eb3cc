//! Pages of blocks, kept in memory: reads of a block over any store that find a page where it was read before.
//!
//! The layers above use a `BlockReader`: a store and its cache, which is right of the store's files. Its methods have
//! the contracts below. A `Cache` says nothing of a disk by itself: reads require that it is right of the files, and
//! leave it so. `read_samples_cached` and `read_frames_cached` return what `read_samples` and `read_frames` of
//! `block_store` return, by whole pages. They do not call the store if all pages concerned are kept.
//! `read_samples_once` and `read_frames_once` keep no page: of one that is not kept they read what is asked alone.
//! `remove_block_cached` takes the entries of a block out before it removes the file. Other changes of files must be
//! of blocks that have no entry; a law says that the cache then stays right.
#![tactic(auto)]

mod ahead;
mod cache;
mod drops;
mod frame_page;
mod frames;
mod headers;
mod keys;
mod pages;
mod parts;
mod reader;
mod runs;
mod samples;
mod samples_once;

pub use cache::Cache;
pub use drops::remove_block_cached;
pub use frames::{read_frames_cached, read_frames_once};
pub use keys::{PageKey, PageKind};
pub use reader::BlockReader;
pub use samples::read_samples_cached;
pub use samples_once::read_samples_once;
