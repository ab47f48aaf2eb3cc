//! Words, reasons and lines as text: what no case holds of the crates that read and print them.
#![tactic(auto)]

#[cfg(test)]
mod call_words_tests;
#[cfg(test)]
mod script_lines;
#[cfg(test)]
mod script_reasons;
