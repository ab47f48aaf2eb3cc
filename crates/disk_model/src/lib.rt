//! Files on a disk as a trait, `Store`, with what each call does to them and what a stop of the machine at any moment
//! may leave of them.
//!
//! Every promise about crashes stands on the clauses of `Store`: the layers above are generic over it and use what it
//! reads, its images, and that a call answers `Failed` only where its count of faults rose. What a real disk does is
//! not proved here; `docs/DISK.md` says what it must do.
#![tactic(auto)]

mod parts;
mod store;
mod through;

pub use parts::Part;
pub use store::{ListFault, Store};
pub use through::{remove_through, sync_file, write_through};
