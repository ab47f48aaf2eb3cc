//! Studios of projects on disks in memory, as callers make and use them: the tests of `editor_core`, and of the ledger of
//! its blocks.
#![tactic(auto)]

#[cfg(test)]
mod event_tests;
#[cfg(test)]
mod ledger_tests;
#[cfg(test)]
mod read_tests;
#[cfg(test)]
mod scripts;
#[cfg(test)]
mod tests;
#[cfg(test)]
mod vaults;
