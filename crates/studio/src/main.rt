//! The program. Its first word is the folder of the project (`.` where there is none), the others say what to do;
//! standard input is the script, standard output takes the answers, and the exit status is that of `studio_call`.
//!
//! All that it does is done by `studio_call` of `session_run`, whose contract speaks of any store, vault, sources and
//! sinks. `studio_devices` has those over the real streams and the real folder, which tell nothing of their content.
#![tactic(auto)]

use edit_ports::{OpenGate, Sink, write_all};
use session_run::studio_call;
use std::alloc::{AllocError, Global};
use std::io::ErrorKind;
use std::process::ExitCode;
use std::{env, fs};
use studio_devices::{Devices, StreamSink, StreamSource, devices_of};

// The words, the program's name first. Words that are not text are no command.
fn read_words(rt: &HostRuntime, alloc: Global) -> Result<Vec<String>, AllocError> {
    match env::args(rt) {
        Ok(arguments) => arguments.collect(alloc),
        Err(error) => {
            if error.kind() == ErrorKind::OutOfMemory {
                return Err(AllocError);
            }
            Ok(Vec::new(alloc))
        }
    }
}

// The first word after the program's name, which is taken out.
fn take_folder(alloc: Global, words: &mut Vec<String>) -> Result<String, AllocError> {
    if words.len() > 1 {
        Ok(words.remove(1))
    } else {
        String::from_str(alloc, ".")
    }
}

/// Stands in the place of a standard stream that is closed: a folder, which can't be read or written as a stream.
const NO_STREAM: &str = "/";

fn main(rt: HostRuntime) -> ExitCode {
    let alloc = rt.alloc();
    // The number of a closed standard stream goes to the next file that is opened: one of the project would take the
    // answers. So these are opened first, and held.
    let _held = [
        fs::open(&rt, NO_STREAM),
        fs::open(&rt, NO_STREAM),
        fs::open(&rt, NO_STREAM),
    ];
    let mut script = StreamSource::new(rt.stdin());
    let mut out = StreamSink::new(rt.stdout());
    let Ok(mut words) = read_words(&rt, alloc) else {
        return refuse_memory(&mut out);
    };
    let Ok(folder) = take_folder(alloc, &mut words) else {
        return refuse_memory(&mut out);
    };
    let Ok(
        Devices {
            store,
            mut vault,
            mic,
            speaker,
        },
    ) = devices_of(&rt, alloc, folder.as_str())
    else {
        return refuse_memory(&mut out);
    };
    let ending = studio_call(
        &rt,
        alloc,
        words.as_slice(),
        &mut script,
        &mut out,
        store,
        &mut vault,
        mic,
        speaker,
        &OpenGate,
    );
    ExitCode::from(ending.status)
}

// There is no memory for the words or the paths.
fn refuse_memory<O: Sink>(out: &mut O) -> ExitCode {
    match write_all(out, b"refused NoMemory\n") {
        Ok(()) => ExitCode::from(5),
        Err(_) => ExitCode::from(4),
    }
}
