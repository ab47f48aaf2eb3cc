//! The turn: one word, and one slot for the value.
ghost use Rattle.std.specs.Prelude.{◌≡◌};

use crate::Stands;
use crate::plays::Rule;
use crate::view::View;
use atomic_table::{Seat, Table};
use std::alloc::Global;
use std::snapshot::Snapshot;

mod calls;
mod steps;

/// One value, which threads use in turns.
/// Word 0 is twice the number of turns that were made, and 1 more while a seat has the turn. The value lies in slot 0.
pub struct Turn<T: Stands> {
    table: Table<Option<T>, View<T, T::Entry>, Snapshot<T>, Rule, Global>,
    ghost sized: { (table.shared.table_id.words ≡ 1) × (table.shared.table_id.slots ≡ 1) },
}

pub(crate) type Place<T> = Seat<Option<T>, View<T, <T as Stands>::Entry>>;
