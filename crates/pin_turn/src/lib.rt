//! One value, used by threads in turns. A thread has a [`Seat`], and by [`Turn::with`] it gets the value for one call;
//! nobody else has it meanwhile.
//!
//! The layer above says by [`Stands`] what the value stands for: from its start, one list of entries, of which each
//! turn adds one. It uses the contracts of `Turn::new`, `split`, `join`, `with` and `close`, and `known`, what a seat
//! knows: above all `seen`, the entries so far, and `mine`, which of these are its own.
//!
//! No contract says that a seat ever gets the turn, or when.
#![tactic(auto)]

ghost use Rattle.std.specs.Prelude.{ℕ, List, []};

use std::marker::Brand;

mod plays;
mod turn;
mod view;

pub use turn::Turn;
pub use view::{Seat, Spent, Stage, View};

/// A value that threads use in turns.
pub trait Stands {
    /// What one turn adds to the list. No value of it is made.
    type Entry;

    // The number of the seat that made the entry.
    ghost maker: { Self.Entry → ℕ };

    // From the first value on, the second stands for this list of entries.
    ghost stands: { Self → Self → List Self.Entry → Type 0 };
}

/// A seat at a turn of `T`.
pub type SeatOf<T> = Seat<T, <T as Stands>::Entry>;

/// Which entry a call of [`Turn::with`] adds, by what its closure returned (`R`) and what that closure is afterwards
/// (`F`). The call names `Brand` here, and its proof picks the entry.
pub trait AddsEntry<R, F, E> {
    // A list of one entry.
    ghost added: { R → F → List E };
}

impl<R, F, E> AddsEntry<R, F, E> for Brand {
    ghost added = { λ r f. [] };
}
