//! Rows of blocks and of ids: tests with more of them than a script makes, and a look at which rows there are.
#![tactic(auto)]

#[cfg(test)]
mod fours;
#[cfg(test)]
mod list_tests;
#[cfg(test)]
mod row_tests;
#[cfg(test)]
mod tested;
