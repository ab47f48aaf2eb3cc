//! The text of a script and of its answers: a line to its command by `parse`, an answer to its line by `write_answer`;
//! and the lines that the words of the program print as a whole, by a `write_` function each.
//!
//! The layer above uses that `parse` gives the command, or the column of the first bad word, that the grammar of
//! `specs/Grammar.antt` says, and that what is written is the text that `specs/` says: of an answer in `Text.antt`, of
//! a call that is refused in `CallFault.antt`, of a project in `Project.antt`, of the end of a session in `Last.antt`,
//! and of a script that was made in `Summary.antt`. Lines are cut out of the script by the layer above, and nothing is
//! carried out here.
#![tactic(auto)]

ghost use Rattle.std.specs.Prelude.{◌≡◌, ◌<◌, MatchResult};
ghost use Rattle.script_text.specs.declared.LineFault.TheVariants.{NoMemory};
ghost use Rattle.script_text.specs.Faults.{refusal_of};

mod call_fault;
mod columns;
mod gathered;
mod kinds;
mod last;
mod numbers;
mod parsing;
mod project;
mod reasons;
mod roots;
mod summary;
mod table;
mod text;
mod tracks;
mod words;

pub use call_fault::{CallFault, write_refused};
pub use last::{PlayEnd, PlayLine, RecordEnd, RecordLine, write_last};
pub use parsing::{MAX_LINE, parse};
use pcm_base::Refusal;
pub use project::{ProjectLines, write_checked, write_made, write_project};
use std::alloc::{AllocError, AllocFailed};
pub use summary::{Summary, write_summary};
pub use text::write_answer;
pub use words::{is_silent, number_up_to};

/// Why a line gives no command.
#[derive(Clone, Copy, Debug, PartialEq, Eq)]
pub enum LineFault {
    /// It is not in the grammar: its first bad word begins in this column, counted from 1.
    BadLine { column: u64 },
    /// There was no memory for its samples or its name.
    NoMemory,
}

impl<T: Drop> From<AllocFailed<T>> for LineFault {
    ghost from_gives = { λ _ e. e ≡ NoMemory };

    fn from(_e: AllocFailed<T>) -> LineFault {
        LineFault::NoMemory
    }
}

impl From<AllocError> for LineFault {
    ghost from_gives = { λ _ e. e ≡ NoMemory };

    fn from(_e: AllocError) -> LineFault {
        LineFault::NoMemory
    }
}

impl From<LineFault> for Refusal {
    ghost from_gives = { λ fault reason. reason ≡ refusal_of fault };

    fn from(fault: LineFault) -> Refusal {
        match fault {
            LineFault::BadLine { column } => Refusal::BadLine { column },
            LineFault::NoMemory => Refusal::NoMemory,
        }
    }
}
