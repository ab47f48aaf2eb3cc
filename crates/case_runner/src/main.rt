//! Plays a case: calls of the program on a disk, sounds and streams in memory, each beside what it prints. It reads the
//! case on standard input. The exit status is 0 if all is as the case says, 1 if something is not, and 2 if a line is
//! not understood. `docs/CASES.md` says how a case is written.
#![tactic(auto)]

mod calling;

use calling::Studio;
use case_play::play_case;
use case_text::Fault;
use std::alloc::Global;
use std::io::Read;
use std::process::ExitCode;
use std::sync::Wait;
use std::thread::Threads;

// Reads the case, and plays it.
fn read_and_play<R: Input + Threads + Wait + Sync>(rt: &R, alloc: Global) -> Result<(), Fault> {
    let mut bytes = Vec::new(alloc);
    let mut reader = rt.reader();
    if reader.read_to_end(&mut bytes).is_err() {
        return Err(Fault::Unread { line: 0 });
    }
    match std::str::from_utf8(bytes.as_slice()) {
        Ok(text) => play_case(rt, &Studio, alloc, text),
        Err(_) => Err(Fault::Unread { line: 0 }),
    }
}

// Prints why a case does not pass, and returns its status.
fn report<R: Print>(rt: &R, fault: &Fault) -> u8 {
    let (printed, status) = match fault {
        Fault::NoMemory => (println!(rt; "there is no memory for it"), 3),
        Fault::Unread { line } => (println!(rt; "line {line} is not understood"), 2),
        Fault::Wrong { line, came } => (
            println!(rt; "line {line} does not hold. This came:\n{came}"),
            1,
        ),
        Fault::Again { .. } => (println!(rt; "it does not settle"), 3),
    };
    match printed {
        Ok(()) => status,
        Err(_) => 3,
    }
}

fn main(rt: HostRuntime) -> ExitCode {
    match read_and_play(&rt, rt.alloc()) {
        Ok(()) => ExitCode::from(0),
        Err(fault) => ExitCode::from(report(&rt, &fault)),
    }
}
