//! Sounds that are recorded and played in threads: the tests of `session_threads`.
#![tactic(auto)]

#[cfg(test)]
mod gates;
#[cfg(test)]
mod memory;
#[cfg(test)]
mod threads_tests;
