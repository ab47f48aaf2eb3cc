// The call of the program.
ghost use Rattle.std.specs.Prelude.{◌≡◌, if◌then◌else◌, map, string_bytes};
ghost use Rattle.script_reader.specs.Change.{change};
ghost use Rattle.desk_session.specs.Lent.{AreSame, Kinds, kinds};
ghost use Rattle.call_words.specs.Words.{words_of};
ghost use Rattle.session_run.specs.Call.{Does, EndsAs, HasCause, Promises, any_rose, counts};
ghost use Rattle.session_run.specs.declared.ending.Done.{Done};
ghost use Rattle.session_run.specs.Ports.{handed, ports_of};
ghost use Rattle.session_run.specs.Streams.{IsReadOn};

use super::counts::count_faults;
use super::ending::{Done, Ending};
use super::generated::run_gen;
use super::projects::{check_project, list_project, make_project};
use super::refusing::refuse;
use super::running::run_project;
use super::trying::try_script;
use call_words::{Words, WordsFault, read_words};
use desk_session::{Beside, Devices};
use disk_model::Store;
use edit_ports::{Gate, Sink, Source, Vault};
use memory_disk::RamStore;
use script_text::CallFault;
use session_threads::{Streams, take_back};
use std::alloc::Global;
use std::sync::Wait;
use std::thread::Threads;
use studio_seats::deeds_ask;

// Does what the words ask for, and hands the devices back.
fn carry_out<'v, 'a, 'o, 'm, 'p, 'g, R, A, O, S, V, M, P, G>(
    rt: &R,
    alloc: Global,
    words: &[String],
    store: S,
    devices: Devices<'v, 'a, 'o, 'm, 'p, 'g, V, A, O, M, P, G>,
) -> (Done<S>, Devices<'v, 'a, 'o, 'm, 'p, 'g, V, A, O, M, P, G>)
where
    R: Threads + Wait + Sync,
    A: Source + Send,
    O: Sink + Send,
    S: Store + Send,
    V: Vault + Send,
    M: Source + Send,
    P: Sink + Send,
    G: Gate + Sync,
    ensures does { Does (record { ram = ⟦<RamStore as Store>⟧; kinds = kinds S.Store V.Vault M.Source P.Sink })
        (map string_bytes words.now)
        (record { store = store; ports = ports_of A.Source O.Sink (change devices.entry result.1) }) result.0 }
    ensures reads { IsReadOn A.Source (change devices.entry.streams.script.now result.1.streams.script.now) }
    ensures same { AreSame devices.entry result.1 }
{
    match read_words(alloc, words) {
        Ok(Words::New(project)) => {
            (
                make_project(alloc, devices.streams.out, store, project),
                devices,
            )
        }
        Ok(Words::Run { records, plays }) => {
            let beside = Beside { records, plays };
            run_project(rt, alloc, store, devices, beside)
        }
        Ok(Words::Try) => try_script(rt, alloc, store, devices),
        Ok(Words::List) => (list_project(alloc, devices.streams.out, store), devices),
        Ok(Words::Check) => (check_project(alloc, devices.streams.out, store), devices),
        Ok(Words::Gen { number, lines }) => {
            (
                run_gen(alloc, devices.streams.out, store, number, lines),
                devices,
            )
        }
        Err(WordsFault::Usage) => {
            (
                refuse(alloc, devices.streams.out, store, CallFault::Usage),
                devices,
            )
        }
        Err(WordsFault::NoMemory) => {
            (
                refuse(alloc, devices.streams.out, store, CallFault::NoMemory),
                devices,
            )
        }
    }
}

// The status of a call, by whether a count of faults rose.
fn status_of(rose: bool, status: u8) -> u8
    ensures { result ≡ (if rose then 4 else status) }
{
    if rose { 4 } else { status }
}

/// Does what the words ask for. It reads `script`, writes the answers to `out`, and keeps the sounds in `vault`. It
/// uses microphone and speaker only if they are asked for. They return in the [`Ending`], with the store. It waits for
/// its threads.
pub fn studio_call<R, A, O, S, V, M, P, G>(
    rt: &R,
    alloc: Global,
    words: &[String],
    script: &mut A,
    out: &mut O,
    store: S,
    vault: &mut V,
    mut mic: M,
    mut speaker: P,
    gate: &G,
) -> Ending<S, M, P>
where
    R: Threads + Wait + Sync,
    A: Source + Send,
    O: Sink + Send,
    S: Store + Send,
    V: Vault + Send,
    M: Source + Send,
    P: Sink + Send,
    G: Gate + Sync,
    ensures does { let k : Kinds S V M P = kinds S.Store V.Vault M.Source P.Sink in
        (done : Done S) × Does (record { ram = ⟦<RamStore as Store>⟧; kinds = k }) (map string_bytes words.now)
        (handed A.Source O.Sink (change script.old script.new) (change out.old out.new) store
        (change vault.old vault.new) (change mic result.mic) (change speaker result.speaker)) done
        × EndsAs (any_rose
        (counts A.Source O.Sink k script.old out.old store vault.old mic speaker)
        (counts A.Source O.Sink k script.new out.new result.store vault.new result.mic result.speaker))
        done result }
    ensures promise { let k : Kinds S V M P = kinds S.Store V.Vault M.Source P.Sink in
        Promises k (map string_bytes words.now)
        (handed A.Source O.Sink (change script.old script.new) (change out.old out.new) store
        (change vault.old vault.new) (change mic result.mic) (change speaker result.speaker)) result }
    ensures only { let k : Kinds S V M P = kinds S.Store V.Vault M.Source P.Sink in
        HasCause (words_of (map string_bytes words.now))
        (counts A.Source O.Sink k script.old out.old store vault.old mic speaker)
        (counts A.Source O.Sink k script.new out.new result.store vault.new result.mic result.speaker)
        result.status }
    ensures reads { IsReadOn A.Source (change script.old script.new) }
{
    let before = count_faults(script, out, &store, vault, &mic, &speaker);
    let devices = Devices {
        vault,
        streams: Streams { script, out },
        mic: &mut mic,
        speaker: &mut speaker,
        gate,
    };
    let (done, devices) = carry_out(rt, alloc, words, store, devices);
    let Devices {
        vault,
        streams: Streams { script, out },
        mic: lent_mic,
        speaker: lent_speaker,
        gate: _,
    } = devices;
    let now = count_faults(script, out, &done.store, vault, lent_mic, lent_speaker);
    take_back(vault);
    take_back(script);
    take_back(out);
    take_back(lent_mic);
    take_back(lent_speaker);
    // It compiles to nothing: what the deeds of a desk ask of a store, for the proof.
    deeds_ask::<S, V>();
    Ending {
        status: status_of(before.any_rose(&now), done.status),
        opened: done.opened,
        store: done.store,
        mic,
        speaker,
        first_commit: done.first_commit,
        last_commit: done.last_commit,
        record_commit: done.record_commit,
        script_commits: done.commits,
        piece_commits: done.pieces,
    }
}
