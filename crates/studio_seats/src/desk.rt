// The desk.
ghost use Rattle.std.specs.Prelude.{◌≡◌};
ghost use Rattle.pin_turn.specs.Calls.{start_of};
ghost use Rattle.editor_core.specs.Core.{core_of};

use super::held::Held;
use disk_model::Store;
use edit_ports::Vault;
use pin_turn::Turn;

mod lines;
mod moves;
mod pieces;
mod pins;
mod said;
mod seats;

pub use pieces::{NextSamples, SaidPieces};

/// One studio, which seats use in turns, with vaults of one type.
pub struct Desk<S: Store, V: Vault> {
    turn: Turn<Held<S, V>>,
    // How many frames there are in a second, in the studio with which it began. No call changes it.
    rate: u32,
    ghost rated: { rate ≡ (core_of (start_of turn).studio).rate },
}
