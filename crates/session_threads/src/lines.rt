// The lines of a script.
ghost use Rattle.std.specs.Prelude.{◌≡◌, [], false};
ghost use Rattle.script_reader.specs.HeldLine.{Holds};
ghost use Rattle.session_threads.specs.RanLines.{RanLines};

use super::beside::Task;
use edit_ports::{Gate, Sink, Source};
use script_reader::{Editor, ScriptState, Stop, read_script};
use std::alloc::Global;
use std::sync::Wait;
use std::thread::Threads;

/// The source of a script and the sink of its answers, which were lent.
#[derive(Drop)]
pub struct Streams<'a, 'b, A, O> {
    pub script: &'a mut A,
    pub out: &'b mut O,
}

/// A session, and the streams of its script.
#[derive(Drop)]
pub struct Lines<'a, 'b, E, A, O> {
    pub state: ScriptState<E>,
    pub streams: Streams<'a, 'b, A, O>,
}

/// Answers the lines of a script.
pub(crate) fn run_lines<'a, 'b, R, E, A, O, G>(
    rt: &R,
    alloc: Global,
    lines: Lines<'a, 'b, E, A, O>,
    gate: &G,
) -> (Stop, Lines<'a, 'b, E, A, O>)
where
    R: Threads + Wait + Sync,
    E: Editor,
    A: Source,
    O: Sink,
    G: Gate,
    requires line { Holds lines.state.line [] }
    requires fresh { lines.state.refused ≡ false }
    ensures { RanLines E.Editor A.Source O.Sink result.0 lines.entry result.1 }
{
    let Lines { mut state, streams } = lines;
    let Streams { script, out } = streams;
    let stop = read_script(rt, alloc, &mut state, script, out, gate);
    let streams = Streams { script, out };
    (stop, Lines { state, streams })
}

impl<'a, 'b, E: Editor, A: Source, O: Sink> Task for Lines<'a, 'b, E, A, O> {
    type Output = (Stop, Lines<'a, 'b, E, A, O>);

    ghost can_run = { λ t. Holds t.state.line [] × (t.state.refused ≡ false) };

    ghost run_gives = { λ t r. RanLines E.Editor A.Source O.Sink r.0 t r.1 };

    fn run<R: Threads + Wait + Sync, G: Gate>(
        self,
        rt: &R,
        alloc: Global,
        gate: &G,
    ) -> (Stop, Lines<'a, 'b, E, A, O>) {
        run_lines(rt, alloc, self, gate)
    }
}
