//! Callers of a desk in whole: a script, a recorder, a player, and one that removes files that nothing names, each by a
//! seat of its own and in a thread of its own, at one desk over a disk in memory.
#![tactic(auto)]

mod jobs;
mod lines;
mod session;
mod threads;

pub use jobs::{End, Job, work};
pub use lines::{RamDesk, RamSeat, line};
pub use session::{Session, begin};
pub use threads::{Pair, Setting, by_four, by_two};
