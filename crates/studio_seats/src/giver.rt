// A seat that gives the frames of a pin.
ghost use Rattle.std.specs.Prelude.{◌≡◌, IsTrue, None};
ghost use Rattle.pin_turn.specs.Calls.{known};
ghost use Rattle.studio_seats.specs.Deeds.{entries_of};
ghost use Rattle.studio_seats.specs.Desks.{IsAt};
ghost use Rattle.studio_seats.specs.Pins.{is_made};

use super::desk::Desk;
use super::first::first_of;
use super::held::DeskSeat;
use disk_model::Store;
use edit_ports::{FrameGiver, Vault};
use pcm_base::{Frame, Refusal, Said};
use std::sync::Wait;

/// Each read is one turn of the seat.
#[derive(Drop)]
pub struct DeskGiver<'a, S: Store, V: Vault> {
    desk: &'a Desk<S, V>,
    seat: DeskSeat<S, V>,
    pin: u64,
    refused: Option<Refusal>,
    ghost at: { IsAt desk.now seat },
    ghost made: { IsTrue (is_made pin (entries_of (known seat).seen)) },
}

impl<'a, S: Store, V: Vault> FrameGiver for DeskGiver<'a, S, V> {
    ghost use Rattle.studio_seats.specs.Desks.{start_at};
    ghost use Rattle.studio_seats.specs.Onward.{worker};
    ghost use Rattle.studio_seats.specs.Reads.{ReadsOn};
    ghost use Rattle.studio_seats.specs.Shows.{IsMixOf};
    ghost use Rattle.studio_seats.specs.Stands.{origin};

    // Those of the mix of the project that was current where the pin was made.
    ghost shows = { λ s all.
        IsMixOf (origin S.Store V.Vault (start_at s.desk.now)) (known s.seat).seen s.pin all };

    ghost refused = { λ s. s.refused };

    // It is of the same desk, and its seat went on by turns of its own. They read this pin from its first frame on,
    // each from where the one before it ended, up to the first that gave fewer frames than it asked for or was refused.
    ghost follows = { λ first reading s. (s.desk.now ≡ first.desk.now) × (s.pin ≡ first.pin)
        × ReadsOn first.pin reading (worker (known first.seat) first.refused) (worker (known s.seat) s.refused) };

    fn give_frames<R: Wait>(&mut self, rt: &R, from: u64, out: &mut [Frame]) -> Said<usize> {
        let said = self.desk.read_pin(rt, &mut self.seat, self.pin, from, out);
        self.refused = first_of(self.refused, &said.what);
        said
    }
}

impl<'a, S: Store, V: Vault> DeskGiver<'a, S, V> {
    /// A giver by this seat, which has seen how the pin was made.
    pub fn new(desk: &'a Desk<S, V>, seat: DeskSeat<S, V>, pin: u64) -> DeskGiver<'a, S, V>
        requires at { IsAt desk.now seat }
        requires made { IsTrue (is_made pin (entries_of (known seat).seen)) }
        ensures seat { known result.seat ≡ known seat }
        ensures of { (result.desk.now ≡ desk.now) × (result.pin ≡ pin) }
        ensures unrefused { result.refused ≡ None }
    {
        DeskGiver {
            desk,
            seat,
            pin,
            refused: None,
        }
    }

    /// The seat, which is at the desk as before.
    pub fn into_seat(self) -> DeskSeat<S, V>
        ensures at { IsAt self.entry.desk.now result }
        ensures seat { known result ≡ known self.entry.seat }
    {
        let DeskGiver { seat, .. } = self;
        seat
    }
}
