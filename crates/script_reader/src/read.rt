// The bytes of a script.
ghost use Rattle.std.specs.Prelude.{◌≡◌, ◌∷◌, [], ◌++◌, Ok, Err, List, ℕ, MatchResult};
ghost use Rattle.pcm_base.specs.Causes.{HasCause};
ghost use Rattle.script_reader.specs.Change.{change};
ghost use Rattle.script_reader.specs.HeldLine.{Holds};
ghost use Rattle.script_reader.specs.Progress.{HasNoLf, Going, Halted, Ran, Ended, IsCauseOf, IsReadTo, Start};
ghost use Rattle.script_reader.specs.Progress.{IsSinkCauseOf, reached};

use super::answer::{self, ScriptState};
use super::editor::Editor;
use super::stop::Stop;
use edit_ports::{Gate, Sink, Source};
use memchr::memchr;
use pcm_base::Failed;
use std::alloc::Global;
use std::sync::Wait;
use std::thread::Threads;

/// How many bytes of a script are read at most.
pub const MAX_SCRIPT: u64 = 4_294_967_296;

// The rest of a line and its LF: the line is answered.
fn end_line<R: Threads + Wait + Sync, E: Editor, O: Sink, G: Gate>(
    rt: &R,
    alloc: Global,
    state: &mut ScriptState<E>,
    out: &mut O,
    gate: &G,
    rest: &[u8],
) -> Result<(), Failed>
    requires { HasNoLf rest.now }
    ensures goes { (start : Start) (read : List ℕ) →
        Going (reached start (E.place state.old.editor) (O.written out.old) state.old.refused)
        state.old.line read →
        MatchResult result
        (λ _. Going (reached start (E.place state.new.editor) (O.written out.new) state.new.refused)
        state.new.line ((read ++ rest.now) ++ 10 ∷ []))
        (λ failed. Halted (reached start (E.place state.new.editor) (O.written out.new) state.new.refused)
        failed ((read ++ rest.now) ++ 10 ∷ [])) }
    ensures cause { HasCause (O.fault_count out.old) (O.fault_count out.new) result }
    ensures follows { (first : E) → E.follows first state.old.editor → E.follows first state.new.editor }
{
    state.line.extend(rest);
    answer::answer_line(rt, alloc, state, out, gate)
}

// A buffer more of the script: its lines are answered as they end.
fn take_buffer<R: Threads + Wait + Sync, E: Editor, O: Sink, G: Gate>(
    rt: &R,
    alloc: Global,
    state: &mut ScriptState<E>,
    out: &mut O,
    gate: &G,
    buffer: &[u8],
) -> Result<(), Failed>
    ensures goes { (start : Start) (read : List ℕ) →
        Going (reached start (E.place state.old.editor) (O.written out.old) state.old.refused)
        state.old.line read →
        MatchResult result
        (λ _. Going (reached start (E.place state.new.editor) (O.written out.new) state.new.refused)
        state.new.line (read ++ buffer.now))
        (λ failed. Halted (reached start (E.place state.new.editor) (O.written out.new) state.new.refused)
        failed (read ++ buffer.now)) }
    ensures cause { HasCause (O.fault_count out.old) (O.fault_count out.new) result }
    ensures follows { (first : E) → E.follows first state.old.editor → E.follows first state.new.editor }
{
    let mut at = 0;
    while let Some(len) = memchr(b'\n', &buffer[at..]) {
        end_line(rt, alloc, state, out, gate, &buffer[at..at + len])?;
        at += len + 1;
    }
    state.line.extend(&buffer[at..]);
    Ok(())
}

// The end of the script: what has come of a last line is a line.
fn end_script<R: Threads + Wait + Sync, E: Editor, O: Sink, G: Gate>(
    rt: &R,
    alloc: Global,
    state: &mut ScriptState<E>,
    out: &mut O,
    gate: &G,
) -> Stop
    ensures ended { (start : Start) (read : List ℕ) →
        Going (reached start (E.place state.old.editor) (O.written out.old) state.old.refused)
        state.old.line read →
        Ended result (reached start (E.place state.new.editor) (O.written out.new) state.new.refused) read }
    ensures cause { IsSinkCauseOf result (change (O.fault_count out.old) (O.fault_count out.new)) }
    ensures follows { (first : E) → E.follows first state.old.editor → E.follows first state.new.editor }
{
    if state.line.is_empty() {
        return Stop::End;
    }
    match answer::answer_line(rt, alloc, state, out, gate) {
        Ok(()) => Stop::End,
        Err(_) => Stop::OutFault,
    }
}

/// Answers the lines of a script, until it ends or something stops it. Each answer is between two passes of a gate.
pub fn read_script<R: Threads + Wait + Sync, E: Editor, A: Source, O: Sink, G: Gate>(
    rt: &R,
    alloc: Global,
    state: &mut ScriptState<E>,
    script: &mut A,
    out: &mut O,
    gate: &G,
) -> Stop
    ensures ran { (start : Start) →
        Going (reached start (E.place state.old.editor) (O.written out.old) state.old.refused) state.old.line [] →
        Ran result (reached start (E.place state.new.editor) (O.written out.new) state.new.refused)
        (change (A.left script.old) (A.left script.new)) }
    ensures cause { IsCauseOf result (change (A.fault_count script.old) (A.fault_count script.new))
        (change (O.fault_count out.old) (O.fault_count out.new)) }
    ensures reads { IsReadTo A.Source result (change script.old script.new) }
    ensures follows { (first : E) → E.follows first state.old.editor → E.follows first state.new.editor }
{
    let mut buffer = [0u8; 16384];
    let mut total: u64 = 0;
    while total < MAX_SCRIPT {
        let most = (MAX_SCRIPT - total).min(16384) as usize;
        match script.read(&mut buffer[..most]) {
            Err(_) => return Stop::SourceFault,
            Ok(count) => {
                if count == 0 {
                    return end_script(rt, alloc, state, out, gate);
                }
                total += count as u64;
                match take_buffer(rt, alloc, state, out, gate, &buffer[..count]) {
                    Ok(()) => {}
                    Err(_) => return Stop::OutFault,
                }
            }
        }
    }
    Stop::Limit
}
