//! Envelopes of layouts, from the frames that blocks keep, over any store.
//!
//! The layer above uses one contract: `columns` gives the model's scan of the cells of each column. Of a block it reads
//! the frames of 65,536 and of 256 samples that lie inside a column, and samples at the column's edges alone. Where an
//! edge lies in a frame of 65,536 samples that frame is read too: beside what was read of one side of the edge its
//! summary tells the other side, which mostly need not be read then. Samples and short frames are read by pages,
//! which are
//! kept, where the next edge may lie on the same page, and else alone.
#![tactic(auto)]

mod ahead;
mod edges;
mod halves;
mod known;
mod parts;
mod reads;
mod scanning;
mod sweep;

pub use scanning::columns;
