//! The words with which the program is called: what it is asked to do.
//!
//! The layer above uses that `read_words` gives what the grammar of `specs/Words.antt` says, and refuses exactly the
//! words for which it has nothing. The words after `new` are read by `clap`. Nothing is carried out here, and nothing
//! is printed.
#![tactic(auto)]

mod asked;
mod hyphens;
mod number;
mod options;
mod reading;

pub use asked::{NewProject, Words, WordsFault};
pub use reading::read_words;
