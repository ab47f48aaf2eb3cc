// A script on a fresh project in memory.
ghost use Rattle.std.specs.Prelude.{◌≡◌, nat_lt, if◌then◌else◌};
ghost use Rattle.script_reader.specs.Change.{change};
ghost use Rattle.desk_session.specs.Lent.{AreSame, kinds};
ghost use Rattle.session_run.specs.Ports.{ports_of};
ghost use Rattle.session_run.specs.Streams.{IsReadOn};
ghost use Rattle.session_run.specs.Tries.{Tries, tried_project};

use super::ending::Done;
use super::refusing::refuse;
use super::running::run_opened;
use desk_session::{Beside, Devices};
use disk_model::Store;
use edit_ports::{Gate, Sink, Source, Vault};
use memory_disk::RamStore;
use memory_project::{FreshProject, fresh_studio};
use script_text::CallFault;
use std::alloc::Global;
use std::sync::Wait;
use std::thread::Threads;
use studio_seats::deeds_ask;

/// The project of a script that is tried, with its room.
pub fn tried_project() -> FreshProject
    ensures { result ≡ tried_project }
{
    FreshProject {
        rate: 8000,
        block_size: 4,
        depth: 256,
        files: 65536,
        bytes: 67108864,
        calls: 1048576,
    }
}

// The status of a script, by how many calls of its disk failed.
fn status_with(faults: u64, status: u8) -> u8
    ensures { result ≡ (if nat_lt 0 faults then 4 else status) }
{
    if faults > 0 { 4 } else { status }
}

/// Runs a script on a fresh project in memory: 8,000 samples a second, blocks of 4 samples, 256 points. The store that
/// was handed in comes back untouched, and the devices come back.
pub fn try_script<'v, 'a, 'o, 'm, 'p, 'g, R, C, V, A, O, M, P, G>(
    rt: &R,
    alloc: Global,
    store: C,
    devices: Devices<'v, 'a, 'o, 'm, 'p, 'g, V, A, O, M, P, G>,
) -> (Done<C>, Devices<'v, 'a, 'o, 'm, 'p, 'g, V, A, O, M, P, G>)
where
    R: Threads + Wait + Sync,
    V: Vault + Send,
    A: Source + Send,
    O: Sink + Send,
    M: Source + Send,
    P: Sink + Send,
    G: Gate + Sync,
    ensures tries { Tries (kinds ⟦<RamStore as Store>⟧ V.Vault M.Source P.Sink) store
        (ports_of A.Source O.Sink (change devices.entry result.1)) result.0 }
    ensures reads { IsReadOn A.Source (change devices.entry.streams.script.now result.1.streams.script.now) }
    ensures same { AreSame devices.entry result.1 }
{
    let Ok(studio) = fresh_studio(alloc, &tried_project()) else {
        return (
            refuse(alloc, devices.streams.out, store, CallFault::NoMemory),
            devices,
        );
    };
    let nothing = Beside {
        records: false,
        plays: false,
    };
    let (done, devices) = run_opened(rt, alloc, studio, devices, nothing);
    // It compiles to nothing: what the deeds of a desk ask of the disk, for the proof.
    deeds_ask::<RamStore, V>();
    (
        Done {
            status: status_with(done.store.faults(), done.status),
            opened: done.opened,
            store,
            first_commit: done.first_commit,
            last_commit: done.last_commit,
            record_commit: done.record_commit,
            commits: done.commits,
            pieces: done.pieces,
        },
        devices,
    )
}
