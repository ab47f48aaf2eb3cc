// The threads of a session: each by a seat of its own at one desk.
ghost use Rattle.std.specs.Prelude.{◌≡◌, []};
ghost use Rattle.pin_turn.specs.Calls.{known};
ghost use Rattle.studio_seats.specs.Desks.{IsAt, start_at};
ghost use Rattle.script_reader.specs.Change.{change};
ghost use Rattle.script_reader.specs.HeldLine.{Holds};
ghost use Rattle.desk_session.specs.Lent.{AreSame, IsCausedIn, ReadsScript, kinds, lent_by, outcome};
ghost use Rattle.desk_session.specs.Opening.{IsPinIn, IsTagTo, number_seen};
ghost use Rattle.desk_session.specs.Works.{Works, working};

use super::devices::Devices;
use super::outcome::Report;
use super::player::{lend_player, take_player};
use super::recorder::{lend_recorder, take_recorder};
use super::rings::Rings;
use super::script::{lend_script, take_script};
use super::setting::Setting;
use disk_model::Store;
use edit_ports::{Gate, Sink, Source, Vault};
use session_threads::{Lines, run_beside};
use std::alloc::Global;
use std::sync::Wait;
use std::thread::Threads;
use studio_seats::{Desk, DeskSeat};

/// The seats of a session.
#[derive(Drop)]
pub struct Seats<S: Store, V: Vault> {
    pub script: DeskSeat<S, V>,
    pub recorder: DeskSeat<S, V>,
    pub player: DeskSeat<S, V>,
}

impl<'v, 'a, 'o, 'm, 'p, 'g, V, A, O, M, P, G> Devices<'v, 'a, 'o, 'm, 'p, 'g, V, A, O, M, P, G>
where
    V: Vault + Send,
    A: Source + Send,
    O: Sink + Send,
    M: Source + Send,
    P: Sink + Send,
    G: Gate + Sync,
{
    /// Runs the lines, and beside them a recording where there is a track and a playback where there is a pin.
    pub(crate) fn run_work<R: Threads + Wait + Sync, S: Store + Send>(
        self,
        rt: &R,
        alloc: Global,
        desk: &Desk<S, V>,
        seats: Seats<S, V>,
        setting: Setting,
    ) -> (Seats<S, V>, Report, Self)
        requires at { IsAt desk.now seats.script × IsAt desk.now seats.recorder × IsAt desk.now seats.player }
        requires line { Holds setting.line [] }
        requires last { setting.last ≡ number_seen (start_at desk.now) (known seats.script) }
        requires tag { IsTagTo setting.opened.recording (number_seen (start_at desk.now) (known seats.recorder)) }
        requires made { IsPinIn setting.opened.pin (known seats.player).seen }
        ensures at { IsAt desk.now result.0.script × IsAt desk.now result.0.recorder × IsAt desk.now result.0.player }
        ensures works { Works (kinds S.Store V.Vault M.Source P.Sink)
            (working (start_at desk.now) setting.track setting.last
            (change (known seats.script) (known result.0.script))
            (change (known seats.recorder) (known result.0.recorder))
            (change (known seats.player) (known result.0.player)))
            (lent_by A.Source O.Sink (change self.entry result.2)) (outcome setting.opened result.1) }
        ensures cause { IsCausedIn A.Source O.Sink (change self.entry result.2) result.1.told.stop }
        ensures reads { ReadsScript A.Source (change self.entry result.2) result.1.told.stop }
        ensures same { AreSame self.entry result.2 }
    {
        let Devices {
            vault,
            streams,
            mic,
            speaker,
            gate,
        } = self;
        let Rings { record, play } = setting.rings;
        let opened = setting.opened;
        let track = setting.track;
        let recording = lend_recorder(desk, seats.recorder, mic, record, track, opened.recording);
        let playback = lend_player(desk, seats.player, speaker, play, opened.pin);
        let state = lend_script(alloc, desk, seats.script, vault, setting.last, setting.line);
        let lines = Lines { state, streams };
        let (stop, ran, recorded, played) = run_beside(rt, alloc, lines, recording, playback, gate);
        let (seat, told, vault) = take_script(ran.state, stop);
        let (recorder, mic, kept) = take_recorder(rt, recorded);
        let (player, speaker, heard) = take_player(played);
        let seats = Seats {
            script: seat,
            recorder,
            player,
        };
        let devices = Devices {
            vault,
            streams: ran.streams,
            mic,
            speaker,
            gate,
        };
        (seats, Report { told, kept, heard }, devices)
    }
}
