//! A caller of `pin_turn` in whole: a counter that threads raise in turns.
#![tactic(auto)]

mod counter;
mod threads;

pub use counter::{Counter, Increment, raise, raise_often};
pub use threads::count_up;

#[cfg(test)]
mod log_tests;
#[cfg(test)]
mod tests;
