//! Threads at one desk over a disk in memory, whose turns go on and end: the tests of `seat_examples`.
#![tactic(auto)]

#[cfg(test)]
mod desk_tests;
#[cfg(test)]
mod disks;
#[cfg(test)]
mod load_tests;
#[cfg(test)]
mod stop_tests;
