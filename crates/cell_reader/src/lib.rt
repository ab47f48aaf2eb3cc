//! The cells of a track of blocks, over any store: its gaps, and what stands in the files of its clips' blocks, which
//! are the samples of these where all of them are whole.
//!
//! The layers above use two contracts. `read_cells` gives the cells of a layout from a place on, as many as there are.
//! `read_ahead` gives them, and gaps past the end, to who goes through a track a stretch at a time, as cells or as what
//! is heard of them (`FromCell`). What is left of the track (`TrackRest`) is handed in, so that no clip or block is
//! passed twice. Both read by a `BlockReader`, so that no
//! header is compared twice and no page is read twice while it is kept. Only blocks that are seen are read.
#![tactic(auto)]

mod ahead;
mod blocks;
mod cells;
mod clips;
mod forms;
mod places;
mod rest;
mod samples;

pub use ahead::read_ahead;
pub use cells::read_cells;
pub use forms::FromCell;
pub use rest::{TrackRest, no_rest, pass, rest_at};
