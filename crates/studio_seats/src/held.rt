// The studio as the turn holds it.
use super::deed::Deed;
use disk_model::Store;
use edit_ports::Vault;
use editor_core::Studio;
use pin_turn::{Seat, Stands};
use std::marker::PhantomData;

/// A studio in a turn, and the type of the vaults that its lines name sounds of.
pub struct Held<S: Store, V> {
    pub(crate) studio: Studio<S>,
    pub(crate) vaults: PhantomData<V>,
}

impl<S: Store, V: Vault> Stands for Held<S, V> {
    ghost use Rattle.studio_seats.specs.Deeds.{actor_of};
    ghost use Rattle.studio_seats.specs.Holding.{HeldFor};

    type Entry = Deed;

    ghost maker = { actor_of };

    ghost stands = { HeldFor S.Store V.Vault };
}

/// A seat at a desk.
pub type DeskSeat<S, V> = Seat<Held<S, V>, Deed>;
