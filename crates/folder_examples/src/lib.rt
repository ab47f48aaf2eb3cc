//! The real disk over folders of the system, with calls of the system that are watched: the tests of `project_folder`.
#![tactic(auto)]

#[cfg(test)]
mod asking;
#[cfg(test)]
mod drawn_tests;
#[cfg(test)]
mod fault_tests;
#[cfg(test)]
mod flags;
#[cfg(test)]
mod parts_tests;
#[cfg(test)]
mod port_fault_tests;
#[cfg(test)]
mod port_tests;
#[cfg(test)]
mod store_tests;
#[cfg(test)]
mod swapped;
#[cfg(test)]
mod sync_tests;
#[cfg(test)]
mod watch;
#[cfg(test)]
mod watched;
