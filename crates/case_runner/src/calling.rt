// The studio as the program of a case.
use case_play::{Devices, Left, Program, SaidVault};
use disk_model::Store;
use edit_ports::{Gate, MemSink, MemSource, Sink, Source, Vault};
use memory_disk::RamStore;
use session_run::{Ending, studio_call};
use std::alloc::Global;
use std::sync::Wait;
use std::thread::Threads;

// What a call is handed beside the disk, of any kinds.
struct Handed<'a, 'o, 'v, 'g, A, O, V, M, P, G> {
    script: &'a mut A,
    out: &'o mut O,
    vault: &'v mut V,
    mic: M,
    speaker: P,
    gate: &'g G,
}

// The call of the program, over streams and a disk of any kinds: so that a proof about certain ones does not lay out
// what is promised of it.
fn carried<R, A, O, S, V, M, P, G>(
    rt: &R,
    alloc: Global,
    words: &[String],
    store: S,
    handed: Handed<'_, '_, '_, '_, A, O, V, M, P, G>,
) -> Ending<S, M, P>
where
    R: Threads + Wait + Sync,
    A: Source + Send,
    O: Sink + Send,
    S: Store + Send,
    V: Vault + Send,
    M: Source + Send,
    P: Sink + Send,
    G: Gate + Sync,
{
    let Handed {
        script,
        out,
        vault,
        mic,
        speaker,
        gate,
    } = handed;
    studio_call(
        rt, alloc, words, script, out, store, vault, mic, speaker, gate,
    )
}

// The disk that a call leaves, and what else it leaves.
fn left_of(
    ending: Ending<RamStore, MemSource, MemSink>,
    out: MemSink,
    vault: SaidVault,
) -> (RamStore, Left) {
    let left = Left {
        status: ending.status,
        opened: ending.opened,
        out,
        vault,
        speaker: ending.speaker,
        first_commit: ending.first_commit,
        last_commit: ending.last_commit,
        record_commit: ending.record_commit,
        script_commits: ending.script_commits,
        piece_commits: ending.piece_commits,
    };
    (ending.store, left)
}

/// The studio.
pub(crate) struct Studio;

impl Program for Studio {
    fn call<R: Threads + Wait + Sync>(
        &self,
        rt: &R,
        alloc: Global,
        words: &[String],
        store: RamStore,
        devices: Devices<'_>,
    ) -> (RamStore, Left) {
        let Devices {
            mut script,
            mut out,
            mut vault,
            mic,
            speaker,
            gate,
        } = devices;
        let handed = Handed {
            script: &mut script,
            out: &mut out,
            vault: &mut vault,
            mic,
            speaker,
            gate,
        };
        let ending = carried(rt, alloc, words, store, handed);
        left_of(ending, out, vault)
    }
}
