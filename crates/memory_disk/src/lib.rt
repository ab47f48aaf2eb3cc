//! A disk in memory, `RamStore`. It keeps to the trait `Store`, and gives each disk that a stop of the machine may leave
//! of it, by choices and draws.
//!
//! It keeps its changing calls in turn, and so its clauses say the whole state after each call. Projects that are tried
//! or made for a measurement stand on it, and so do the tests.
#![tactic(auto)]

mod build;
mod by_file;
mod call;
mod chain;
mod draws;
mod heads;
mod image;
mod index;
mod listing;
mod log;
mod overlay;
mod parts;
mod ram;
mod record;
mod replay;
mod tally;

pub use ram::RamStore;
