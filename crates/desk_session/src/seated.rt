// A desk that waits for a session.
ghost use Rattle.std.specs.Prelude.{◌≡◌, is_some, IfOk, IfErr};
ghost use Rattle.pin_turn.specs.Calls.{known};
ghost use Rattle.editor_core.specs.Core.{core_of};
ghost use Rattle.editor_state.specs.Studios.{IsStudio};
ghost use Rattle.studio_seats.specs.Desks.{IsAt, IsFirst, start_at};
ghost use Rattle.script_reader.specs.Change.{change};
ghost use Rattle.desk_session.specs.Lent.{AreSame, IsCausedIn, ReadsScript, kinds, lent_by, outcome};
ghost use Rattle.desk_session.specs.Sessions.{IsSession};
ghost use Rattle.desk_session.specs.Sides.{is_asked};

use super::devices::Devices;
use super::opening::{Beside, Opened, open};
use super::outcome::Report;
use super::rings::Rings;
use super::setting::Setting;
use disk_model::Store;
use edit_ports::{Gate, Sink, Source, Vault};
use editor_core::Studio;
use script_reader::LineBuffer;
use std::alloc::Global;
use std::sync::Wait;
use std::thread::Threads;
use studio_seats::{Desk, DeskSeat};

/// A desk with its first seat, and all memory that a session needs before its first line.
pub struct Seated<S: Store, V: Vault> {
    desk: Desk<S, V>,
    seat: DeskSeat<S, V>,
    // The commit number with which it begins, and the id of its next new track.
    first: u64,
    track: u64,
    beside: Beside,
    rings: Rings,
    line: LineBuffer,
    ghost at: { IsAt desk seat × IsFirst (known seat) },
    ghost begins: { (first ≡ (start_at desk).commit_number) × (track ≡ (start_at desk).next_track) },
    ghost asked: { (is_some rings.record ≡ beside.records) × (is_some rings.play ≡ beside.plays) },
}

/// What a session left.
pub struct Ended<S: Store> {
    pub studio: Studio<S>,
    pub opened: Opened,
    /// The id that the recording's track has, where it was made.
    pub track: u64,
    pub report: Report,
}

impl<S: Store, V: Vault> Seated<S, V> {
    /// A desk for a session on this studio.
    ///
    /// # Errors
    ///
    /// The studio itself, where there is no memory for a line, the rings or the desk.
    pub fn new(alloc: Global, studio: Studio<S>, beside: Beside) -> Result<Seated<S, V>, Studio<S>>
        requires { IsStudio S.Store (core_of studio) }
        ensures ok { IfOk result (λ s. (start_at s.desk ≡ core_of studio) × (s.beside ≡ beside)) }
        ensures err { IfErr result (λ s. s ≡ studio) }
    {
        let Ok(line) = LineBuffer::new(alloc) else {
            return Err(studio);
        };
        let Ok(rings) = Rings::new(alloc, beside) else {
            return Err(studio);
        };
        let first = studio.commit_number();
        let track = studio.next_track();
        let (desk, seat) = Desk::new(alloc, studio)?;
        Ok(Seated {
            desk,
            seat,
            first,
            track,
            beside,
            rings,
            line,
        })
    }

    /// Makes the track and the pin that are asked for, runs script, recorder and player at once, lets the pin go, and
    /// hands out the studio and the devices. Answers are written, and no last line.
    pub fn run<'v, 'a, 'o, 'm, 'p, 'g, R, A, O, M, P, G>(
        self,
        rt: &R,
        alloc: Global,
        devices: Devices<'v, 'a, 'o, 'm, 'p, 'g, V, A, O, M, P, G>,
    ) -> (Ended<S>, Devices<'v, 'a, 'o, 'm, 'p, 'g, V, A, O, M, P, G>)
    where
        R: Threads + Wait + Sync,
        S: Send,
        V: Send,
        A: Source + Send,
        O: Sink + Send,
        M: Source + Send,
        P: Sink + Send,
        G: Gate + Sync,
        ensures session { IsSession (kinds S.Store V.Vault M.Source P.Sink) (start_at self.desk)
            (core_of result.0.studio) (lent_by A.Source O.Sink (change devices.entry result.1))
            (outcome result.0.opened result.0.report) }
        ensures cause { IsCausedIn A.Source O.Sink (change devices.entry result.1) result.0.report.told.stop }
        ensures reads { ReadsScript A.Source (change devices.entry result.1) result.0.report.told.stop }
        ensures same { AreSame devices.entry result.1 }
        ensures asked { (is_asked result.0.opened.recording ≡ self.beside.records)
            × (is_asked result.0.opened.pin ≡ self.beside.plays) }
        ensures track { result.0.track ≡ (start_at self.desk).next_track }
    {
        let Seated {
            desk,
            mut seat,
            first,
            track,
            beside,
            rings,
            mut line,
        } = self;
        line.clear();
        let (opened, at) = open(rt, alloc, &desk, &mut seat, devices.vault, beside);
        let last = first.max(at);
        let setting = Setting {
            opened,
            rings,
            track,
            last,
            line,
        };
        let (seat, report, devices) = devices.run_seats(rt, alloc, &desk, seat, setting);
        (
            Ended {
                studio: desk.close(seat),
                opened,
                track,
                report,
            },
            devices,
        )
    }
}
