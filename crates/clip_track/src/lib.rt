//! The cells of a track as clips of blocks, apart from each other by gaps, and strips: gaps and pieces of sound in
//! order, as an edit puts them together.
//!
//! The layers above use the clauses `cells`, by which each call means take, drop, `++` or length on the cells that a
//! layout and a strip mean. Nothing is read or written here, and no strip becomes a layout: what lays a strip out in
//! blocks and gives the new ones ids stands above.
#![tactic(auto)]

mod clips;
mod items;
mod kept;
mod rest;
mod shared;
mod strip_clips;

pub use clips::{Clip, Layout};
pub use items::{Item, Strip, append_gap, append_part, append_piece};
pub use kept::Kept;
pub use rest::{Rest, Stretch};
pub use strip_clips::StripClip;
