// One line, and its answer.
ghost use Rattle.std.specs.Prelude.{◌≡◌, ◌∷◌, [], ◌++◌, ◌||◌, Ok, List, ℕ};
ghost use Rattle.pcm_base.specs.Causes.{HasCause};
ghost use Rattle.script_text.specs.Grammar.{line_of, is_silent};
ghost use Rattle.pcm_base.specs.Form.{IsInForm};
ghost use Rattle.script_reader.specs.HeldLine.{Holds};
ghost use Rattle.script_reader.specs.Answering.{Turn, Answers, is_refusal};
ghost use Rattle.script_reader.specs.Progress.{Printed, Start, reached, says_no};

use super::editor::Editor;
use super::line::LineBuffer;
use edit_ports::points::{AFTER_ANSWER, BEFORE_LINE};
use edit_ports::{Gate, Sink};
use pcm_base::{Answer, Command, Failed, Refusal, Reply};
use script_text::LineFault;
use std::alloc::Global;
use std::sync::Wait;
use std::thread::Threads;

/// The state of a script that is read: the editor, the line that has not ended yet, and whether a line was refused.
#[derive(Drop)]
pub struct ScriptState<E> {
    pub editor: E,
    pub line: LineBuffer,
    pub refused: bool,
}

fn is_silent_line(line: &LineBuffer) -> bool
    ensures { (part : List ℕ) → Holds line.now part → result ≡ is_silent part }
{
    match line.get() {
        None => false,
        Some(bytes) => script_text::is_silent(bytes),
    }
}

fn is_refusal(reply: &Reply) -> bool
    ensures { result ≡ is_refusal reply.now }
{
    match reply {
        Reply::Refused { reason: _ } => true,
        _ => false,
    }
}

fn command_reply<R: Threads + Wait + Sync, E: Editor>(
    rt: &R,
    alloc: Global,
    editor: &mut E,
    command: &Command,
) -> Reply
    requires { IsInForm command.now }
    ensures turn { Turn (E.place editor.old) (Ok command.now) result (E.place editor.new) }
    ensures follows { (first : E) → E.follows first editor.old → E.follows first editor.new }
{
    match editor.apply(rt, alloc, command) {
        Ok(reply) => reply,
        Err(reason) => Reply::Refused { reason },
    }
}

fn line_reply<R: Threads + Wait + Sync, E: Editor>(
    rt: &R,
    alloc: Global,
    editor: &mut E,
    line: &LineBuffer,
) -> Reply
    ensures turn { (part : List ℕ) → Holds line.now part →
        Turn (E.place editor.old) (line_of part) result (E.place editor.new) }
    ensures follows { (first : E) → E.follows first editor.old → E.follows first editor.new }
{
    match line.get() {
        None => Reply::Refused {
            reason: Refusal::BadLine { column: 65537 },
        },
        Some(bytes) => match script_text::parse(alloc, bytes) {
            Ok(command) => command_reply(rt, alloc, editor, &command),
            Err(LineFault::BadLine { column }) => Reply::Refused {
                reason: Refusal::BadLine { column },
            },
            Err(LineFault::NoMemory) => Reply::Refused {
                reason: Refusal::NoMemory,
            },
        },
    }
}

fn next_answer<R: Threads + Wait + Sync, E: Editor>(
    rt: &R,
    alloc: Global,
    state: &mut ScriptState<E>,
) -> Answer
    ensures answers { (part : List ℕ) → Holds state.old.line part →
        Answers (E.place state.old.editor) part result (E.place state.new.editor) }
    ensures cleared { Holds state.new.line [] }
    ensures no { state.new.refused ≡ (state.old.refused || says_no result) }
    ensures follows { (first : E) → E.follows first state.old.editor → E.follows first state.new.editor }
{
    let reply = line_reply(rt, alloc, &mut state.editor, &state.line);
    state.line.clear();
    state.refused = state.refused || is_refusal(&reply);
    Answer {
        commit: state.editor.commit_number(),
        reply,
    }
}

/// Answers the line that is kept, between two passes of a gate. A silent line passes none.
pub fn answer_line<R: Threads + Wait + Sync, E: Editor, O: Sink, G: Gate>(
    rt: &R,
    alloc: Global,
    state: &mut ScriptState<E>,
    out: &mut O,
    gate: &G,
) -> Result<(), Failed>
    ensures printed { (start : Start) (lines : List (List ℕ)) (part : List ℕ) →
        Holds state.old.line part →
        Printed (reached start (E.place state.old.editor) (O.written out.old) state.old.refused) (Ok tt) lines →
        Printed (reached start (E.place state.new.editor) (O.written out.new) state.new.refused) result
        (lines ++ part ∷ []) }
    ensures cleared { Holds state.new.line [] }
    ensures cause { HasCause (O.fault_count out.old) (O.fault_count out.new) result }
    ensures follows { (first : E) → E.follows first state.old.editor → E.follows first state.new.editor }
{
    if is_silent_line(&state.line) {
        state.line.clear();
        return Ok(());
    }
    gate.pass(rt, BEFORE_LINE);
    let answer = next_answer(rt, alloc, state);
    let written = script_text::write_answer(out, &answer);
    if written.is_ok() {
        gate.pass(rt, AFTER_ANSWER);
    }
    written
}
