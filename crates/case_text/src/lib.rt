//! The text of a case: its lines in sections, the words of a line that are numbers or bytes, and what is printed beside
//! what is wanted. `docs/CASES.md` says how a case is written.
//!
//! It knows nothing of disks, sounds and calls: what the lines do is in `case_play`.
#![tactic(auto)]

mod bytes;
mod comparing;
mod facts;
mod fault;
mod sections;
mod words;

pub use comparing::{goes_on, is_like, last_printed};
pub use facts::{are_bytes, are_numbers, not_numbers};
pub use fault::Fault;
pub use sections::{Line, Section, first_word, read_sections};
pub use words::{bytes_of, number_of, numbers_of};
