// A script on the project of a store, and beside it a recording and a playback.
ghost use Rattle.std.specs.Prelude.{◌≡◌, ◌||◌, true};
ghost use Rattle.editor_core.specs.Core.{core_of};
ghost use Rattle.editor_state.specs.Studios.{IsStudio};
ghost use Rattle.script_reader.specs.Change.{change};
ghost use Rattle.desk_session.specs.Lent.{AreSame, kinds};
ghost use Rattle.desk_session.specs.Sides.{side_number};
ghost use Rattle.desk_session.specs.Sounds.{piece_numbers};
ghost use Rattle.script_text.specs.Last.{last_text};
ghost use Rattle.session_run.specs.Last.{
  WritesEnd,
  mic_failed,
  play_line,
  play_refused,
  record_line,
  record_refused,
  speaker_failed,
  status_of,
};
ghost use Rattle.session_run.specs.Ports.{job, ports_of};
ghost use Rattle.session_run.specs.Runs.{Runs, RunsOpened};
ghost use Rattle.session_run.specs.Streams.{IsReadOn, output};

use super::ending::Done;
use super::last::{
    any_refused, end_lines, mic_failed, play_line, record_line, speaker_failed, status_of,
};
use super::opening::open_project;
use super::refusing::{call_fault, refuse};
use desk_session::{Beside, Devices, Ended, RecordOutcome, Report, Seated};
use disk_model::Store;
use edit_ports::{Gate, Sink, Source, Vault};
use editor_core::Studio;
use pcm_base::Numbers;
use script_text::CallFault;
use std::alloc::Global;
use std::sync::Wait;
use std::thread::Threads;

// The numbers of the pieces.
fn piece_numbers(alloc: Global, kept: Option<RecordOutcome>) -> Numbers
    ensures { result ≡ piece_numbers kept }
{
    match kept {
        Some(kept) => kept.numbers,
        None => Numbers::new(Vec::new(alloc)),
    }
}

// Ends what is printed, and hands the store out.
fn finish<S: Store, O: Sink>(
    alloc: Global,
    out: &mut O,
    first_commit: u64,
    ended: Ended<S>,
) -> Done<S>
    ensures ended { WritesEnd ended.report.told.stop (output O.Sink (change out.old out.new)) (last_text
        (record_line ended.track ended.opened.recording ended.report.kept)
        (play_line ended.opened.pin ended.report.heard) (core_of ended.studio).commit_number) }
    ensures status { (result.status ≡ status_of ended.report.told.stop
        (mic_failed ended.report.kept || speaker_failed ended.report.heard)
        (ended.report.told.refused
        || (record_refused (record_line ended.track ended.opened.recording ended.report.kept)
        || play_refused (play_line ended.opened.pin ended.report.heard)))) × (result.opened ≡ true) }
    ensures store { result.store ≡ (core_of ended.studio).store }
    ensures numbers { (result.first_commit ≡ first_commit)
        × (result.last_commit ≡ (core_of ended.studio).commit_number)
        × (result.record_commit ≡ side_number ended.opened.recording) × (result.commits ≡ ended.report.told.commits)
        × (result.pieces ≡ piece_numbers ended.report.kept) }
{
    let Ended {
        studio,
        opened,
        track,
        report,
    } = ended;
    let Report { told, kept, heard } = report;
    let record = record_line(track, opened.recording, &kept);
    let play = play_line(opened.pin, &heard);
    let fault = mic_failed(&kept) || speaker_failed(&heard);
    let refused = told.refused || any_refused(&record, &play);
    let last_commit = studio.commit_number();
    end_lines(out, told.stop, record, play, last_commit);
    Done {
        status: status_of(told.stop, fault, refused),
        opened: true,
        store: studio.into_store(),
        first_commit,
        last_commit,
        record_commit: opened.recording.number(),
        commits: told.commits,
        pieces: piece_numbers(alloc, kept),
    }
}

/// Runs a script on a studio that was opened, and beside it what is asked for, or tells want of memory before its first
/// line. The devices come back.
pub fn run_opened<'v, 'a, 'o, 'm, 'p, 'g, R, S, V, A, O, M, P, G>(
    rt: &R,
    alloc: Global,
    studio: Studio<S>,
    devices: Devices<'v, 'a, 'o, 'm, 'p, 'g, V, A, O, M, P, G>,
    beside: Beside,
) -> (Done<S>, Devices<'v, 'a, 'o, 'm, 'p, 'g, V, A, O, M, P, G>)
where
    R: Threads + Wait + Sync,
    S: Store + Send,
    V: Vault + Send,
    A: Source + Send,
    O: Sink + Send,
    M: Source + Send,
    P: Sink + Send,
    G: Gate + Sync,
    requires { IsStudio S.Store (core_of studio) }
    ensures runs { RunsOpened (kinds S.Store V.Vault M.Source P.Sink) (core_of studio)
        (job (ports_of A.Source O.Sink (change devices.entry result.1)) beside) result.0 }
    ensures reads { IsReadOn A.Source (change devices.entry.streams.script.now result.1.streams.script.now) }
    ensures same { AreSame devices.entry result.1 }
{
    let first = studio.commit_number();
    match Seated::new(alloc, studio, beside) {
        Ok(seated) => {
            let (ended, devices) = seated.run(rt, alloc, devices);
            (finish(alloc, devices.streams.out, first, ended), devices)
        }
        Err(studio) => {
            let store = studio.into_store();
            (
                refuse(alloc, devices.streams.out, store, CallFault::NoMemory),
                devices,
            )
        }
    }
}

/// Opens the project of a store and runs a script on it, and beside it what is asked for. The devices come back.
pub fn run_project<'v, 'a, 'o, 'm, 'p, 'g, R, S, V, A, O, M, P, G>(
    rt: &R,
    alloc: Global,
    store: S,
    devices: Devices<'v, 'a, 'o, 'm, 'p, 'g, V, A, O, M, P, G>,
    beside: Beside,
) -> (Done<S>, Devices<'v, 'a, 'o, 'm, 'p, 'g, V, A, O, M, P, G>)
where
    R: Threads + Wait + Sync,
    S: Store + Send,
    V: Vault + Send,
    A: Source + Send,
    O: Sink + Send,
    M: Source + Send,
    P: Sink + Send,
    G: Gate + Sync,
    ensures runs { Runs (kinds S.Store V.Vault M.Source P.Sink) store
        (job (ports_of A.Source O.Sink (change devices.entry result.1)) beside) result.0 }
    ensures reads { IsReadOn A.Source (change devices.entry.streams.script.now result.1.streams.script.now) }
    ensures same { AreSame devices.entry result.1 }
{
    match open_project(alloc, store) {
        Ok(studio) => run_opened(rt, alloc, studio, devices, beside),
        Err((fault, store)) => {
            (
                refuse(alloc, devices.streams.out, store, call_fault(fault)),
                devices,
            )
        }
    }
}
