//! New blocks over any store: the samples of pieces, and the block that is made of them.
//!
//! After `write_new_block` the disk has a block with the samples of its pieces in what the store reads, and no other
//! file has changed. After `sync_block` of the crate below whatever a stop of the machine leaves from then on has it
//! too. A caller that makes several blocks writes all and then syncs each, so that one sync of a folder can serve them
//! all. Which ids are free, and which blocks are needed, the caller knows.
#![tactic(auto)]

mod brings;
mod fault;
mod given;
mod making;
mod pieces;

pub use brings::Brings;
pub use fault::{BringFault, MakeFault};
pub use given::Given;
pub use making::write_new_block;
