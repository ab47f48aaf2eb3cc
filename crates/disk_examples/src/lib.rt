//! Blocks and journals on disks in memory: tests of calls that no call of the program makes so.
#![tactic(auto)]

#[cfg(test)]
mod block_cache_tests;
#[cfg(test)]
mod block_store_tests;
#[cfg(test)]
mod disks;
#[cfg(test)]
mod peak_summary_tests;
#[cfg(test)]
mod project_journal_tests;
