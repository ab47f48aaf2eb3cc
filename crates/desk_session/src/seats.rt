// One seat at a desk is split in three, and joined again.
ghost use Rattle.std.specs.Prelude.{◌≡◌, []};
ghost use Rattle.pin_turn.specs.Calls.{known};
ghost use Rattle.studio_seats.specs.Desks.{IsAt, start_at};
ghost use Rattle.script_reader.specs.Change.{change};
ghost use Rattle.script_reader.specs.HeldLine.{Holds};
ghost use Rattle.desk_session.specs.Lent.{AreSame, IsCausedIn, ReadsScript, kinds, lent_by, outcome};
ghost use Rattle.desk_session.specs.Opening.{IsPinIn, IsTagTo, LetsGo, number_seen};
ghost use Rattle.desk_session.specs.Sat.{Sat, sitting};
ghost use Rattle.desk_session.specs.Sides.{WhereMade};

use super::devices::Devices;
use super::outcome::Report;
use super::setting::Setting;
use super::side::Side;
use super::work::Seats;
use disk_model::Store;
use edit_ports::{Gate, Sink, Source, Vault};
use std::alloc::Global;
use std::sync::Wait;
use std::thread::Threads;
use studio_seats::{Desk, DeskSeat};

// Lets the pin go, where there is one. A refusal changes nothing.
fn let_go<R: Wait, S: Store, V: Vault>(
    rt: &R,
    desk: &Desk<S, V>,
    seat: &mut DeskSeat<S, V>,
    pin: Side,
)
    requires { IsAt desk.now seat.old }
    ensures same { IsAt desk.now seat.new }
    ensures goes { WhereMade pin (λ number. LetsGo (start_at desk.now).commit_number number (known seat.old)
        (known seat.new)) (known seat.new ≡ known seat.old) }
{
    match pin.number() {
        Some(number) => {
            let _ = desk.unpin(rt, seat, number);
        }
        None => {}
    }
}

impl<'v, 'a, 'o, 'm, 'p, 'g, V, A, O, M, P, G> Devices<'v, 'a, 'o, 'm, 'p, 'g, V, A, O, M, P, G>
where
    V: Vault + Send,
    A: Source + Send,
    O: Sink + Send,
    M: Source + Send,
    P: Sink + Send,
    G: Gate + Sync,
{
    /// Runs a script on these devices, and beside it a recording and a playback where they were opened, each by a seat
    /// of its own. It lets the pin go after them, and hands the devices back.
    pub(crate) fn run_seats<R: Threads + Wait + Sync, S: Store + Send>(
        self,
        rt: &R,
        alloc: Global,
        desk: &Desk<S, V>,
        mut seat: DeskSeat<S, V>,
        setting: Setting,
    ) -> (DeskSeat<S, V>, Report, Self)
        requires at { IsAt desk.now seat }
        requires line { Holds setting.line [] }
        requires last { setting.last ≡ number_seen (start_at desk.now) (known seat) }
        requires tag { IsTagTo setting.opened.recording (number_seen (start_at desk.now) (known seat)) }
        requires made { IsPinIn setting.opened.pin (known seat).seen }
        ensures at { IsAt desk.now result.0 }
        ensures sat { Sat (kinds S.Store V.Vault M.Source P.Sink)
            (sitting (start_at desk.now) setting.track setting.last (known seat) (known result.0))
            (lent_by A.Source O.Sink (change self.entry result.2)) (outcome setting.opened result.1) }
        ensures cause { IsCausedIn A.Source O.Sink (change self.entry result.2) result.1.told.stop }
        ensures reads { ReadsScript A.Source (change self.entry result.2) result.1.told.stop }
        ensures same { AreSame self.entry result.2 }
    {
        let pin = setting.opened.pin;
        let recorder = desk.split(&mut seat);
        let player = desk.split(&mut seat);
        let seats = Seats {
            script: seat,
            recorder,
            player,
        };
        let (seats, report, devices) = self.run_work(rt, alloc, desk, seats, setting);
        let Seats {
            script: mut seat,
            recorder,
            mut player,
        } = seats;
        let_go(rt, desk, &mut player, pin);
        desk.join(&mut seat, player);
        desk.join(&mut seat, recorder);
        (seat, report, devices)
    }
}
