// The script of a number, run in memory.
ghost use Rattle.std.specs.Prelude.{◌≡◌, ◌≤◌};
ghost use Rattle.script_reader.specs.Change.{change};
ghost use Rattle.session_run.specs.Generates.{Generates};
ghost use Rattle.session_run.specs.Streams.{Streams, from_sink};

use super::ending::Done;
use super::refusing::refuse;
use disk_model::Store;
use edit_ports::Sink;
use memory_disk::RamStore;
use memory_project::run_generated;
use script_text::{CallFault, write_summary};
use std::alloc::Global;

/// Runs the script of a number on a fresh project in memory, and prints its sum. The store that was handed in comes
/// back untouched.
pub fn run_gen<S, O: Sink>(alloc: Global, out: &mut O, store: S, number: u64, lines: u32) -> Done<S>
    requires least { 2 ≤ lines }
    requires most { lines ≤ 4096 }
    ensures sum { (source : Streams) → Generates ⟦<RamStore as Store>⟧ (record { number = number; lines = lines })
        (from_sink O.Sink source (change out.old out.new)) result }
    ensures store { result.store ≡ store }
{
    match run_generated(alloc, number, lines) {
        Ok(sum) => {
            let _ = write_summary(out, &sum);
            Done::without_script(alloc, 0, store)
        }
        Err(_) => refuse(alloc, out, store, CallFault::NoMemory),
    }
}
