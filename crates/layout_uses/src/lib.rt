//! How often each layout is used, and how often each block is named by the layouts that are used.
//!
//! Points and pins use layouts; a layout that several of them use names its blocks once. So a point that shares all its
//! tracks but one costs a count for each track, and the blocks of one. The layers above call `use_point` for a point
//! that comes and `leave_point` for one that goes, and find in the ledger of blocks what nothing names.
#![tactic(auto)]

mod blocks;
mod drawing;
mod laws;
mod numbering;
mod points;
mod tally;

pub use blocks::{drop_blocks, hold_blocks};
pub use drawing::Drawn;
pub use laws::{
    counts_of_layouts_name_the_same, new_numbers_agree, order_does_not_matter, shared_tracks_agree,
};
pub use numbering::Numbered;
pub use points::{count_amend, count_edit, count_points, count_purge};
pub use tally::Tally;
