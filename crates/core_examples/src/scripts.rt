// Scripts: what is asked of a studio, one after another, and the text of each answer.
ghost use Rattle.pcm_base.specs.Form.{IsInForm};
ghost use Rattle.editor_core.specs.Core.{core_of};
ghost use Rattle.editor_state.specs.Studios.{IsStudio};

use disk_model::Store;
use edit_ports::{MemSink, Vault};
use editor_core::Studio;
use pcm_base::{Answer, Command, Numbers, Refusal, Reply};
use script_text::{parse, write_answer};
use std::alloc::Global;
use std::process::Abort;
use std::test::*;

// What is asked: a line, or a call that is none.
#[derive(Clone, Copy)]
pub(crate) enum Ask {
    Line(&'static str),
    // Samples of the recording with this tag.
    Piece {
        track: u64,
        tag: u64,
        samples: &'static [i16],
    },
    Pin,
    PinLen(u64),
    Unpin(u64),
}

// What is asked, and the text of its answer: what is printed, without the LF.
pub(crate) type Row = (Ask, &'static str);

fn reply_of(told: Result<Reply, Refusal>) -> Reply {
    match told {
        Ok(reply) => reply,
        Err(reason) => Reply::Refused { reason },
    }
}

// The answer to a command. A `bounce` takes several turns, so a studio alone is not asked for one.
fn apply<S: Store, V: Vault>(
    alloc: Global,
    studio: &mut Studio<S>,
    vault: &mut V,
    command: &Command,
) -> Answer
    requires studio { IsStudio S.Store (core_of studio.old) }
    requires in_form { IsInForm command.now }
    ensures { IsStudio S.Store (core_of studio.new) }
{
    if let Command::Bounce { .. } = command {
        return Answer {
            commit: studio.commit_number(),
            reply: reply_of(Err(Refusal::BadLine { column: 1 })),
        };
    }
    let mut answer = Answer {
        commit: studio.commit_number(),
        reply: Reply::Copied,
    };
    let _told = studio.apply(alloc, vault, command, &mut answer);
    answer
}

// The answer to a line.
fn carry<S: Store, V: Vault>(
    alloc: Global,
    studio: &mut Studio<S>,
    vault: &mut V,
    line: &str,
) -> Answer
    requires { IsStudio S.Store (core_of studio.old) }
    ensures { IsStudio S.Store (core_of studio.new) }
{
    match parse(alloc, line.as_bytes()) {
        Ok(command) => apply(alloc, studio, vault, &command),
        Err(fault) => Answer {
            commit: studio.commit_number(),
            reply: reply_of(Err(fault.into())),
        },
    }
}

// Samples of a recording. Its tag has to be the number of a commit.
fn record<S: Store>(
    alloc: Global,
    studio: &mut Studio<S>,
    track: u64,
    tag: u64,
    samples: &[i16],
) -> Result<Reply, Refusal>
    requires { IsStudio S.Store (core_of studio.old) }
    ensures { IsStudio S.Store (core_of studio.new) }
{
    if tag == 0 || tag > studio.commit_number() || samples.len() > 256 {
        return Err(Refusal::BadRange);
    }
    let _commit = studio.piece(alloc, track, tag, samples)?;
    Ok(Reply::Done)
}

fn pin<S: Store>(studio: &mut Studio<S>) -> Result<Reply, Refusal>
    requires { IsStudio S.Store (core_of studio.old) }
    ensures { IsStudio S.Store (core_of studio.new) }
{
    let pin = studio.pin()?;
    Ok(Reply::Pinned { pin })
}

fn pin_len<S: Store>(studio: &mut Studio<S>, pin: u64) -> Result<Reply, Refusal>
    requires { IsStudio S.Store (core_of studio.old) }
    ensures { IsStudio S.Store (core_of studio.new) }
{
    let frames = studio.pin_len(pin)?;
    Ok(Reply::Length { frames })
}

fn unpin<S: Store>(studio: &mut Studio<S>, pin: u64) -> Result<Reply, Refusal>
    requires { IsStudio S.Store (core_of studio.old) }
    ensures { IsStudio S.Store (core_of studio.new) }
{
    studio.unpin(pin)?;
    Ok(Reply::Done)
}

// The answer to what is asked.
pub(crate) fn answer<S: Store, V: Vault>(
    alloc: Global,
    studio: &mut Studio<S>,
    vault: &mut V,
    ask: Ask,
) -> Answer
    requires { IsStudio S.Store (core_of studio.old) }
    ensures { IsStudio S.Store (core_of studio.new) }
{
    let told = match ask {
        Ask::Line(line) => return carry(alloc, studio, vault, line),
        Ask::Piece {
            track,
            tag,
            samples,
        } => record(alloc, studio, track, tag, samples),
        Ask::Pin => pin(studio),
        Ask::PinLen(number) => pin_len(studio, number),
        Ask::Unpin(number) => unpin(studio, number),
    };
    Answer {
        commit: studio.commit_number(),
        reply: reply_of(told),
    }
}

// Whether an answer has this text.
pub(crate) fn has_text(alloc: Global, answer: &Answer, text: &str) -> Result<bool, Fail> {
    let mut sink = MemSink::new(alloc, 4096, 4096, Numbers::new(Vec::new(alloc)))?;
    write_answer(&mut sink, answer)?;
    match sink.bytes().strip_suffix(b"\n") {
        Some(front) => Ok(front == text.as_bytes()),
        None => Ok(false),
    }
}

// How far a script came: how many of its first rows were answered as it stands beside them, the commit number after
// them, and the first other answer, if there was one.
#[derive(Drop)]
pub(crate) struct Played {
    pub(crate) rows: usize,
    pub(crate) commit: u64,
    pub(crate) other: Option<Answer>,
}

// Asks for the rows, up to the first that is not answered as it stands beside it.
pub(crate) fn play<S: Store, V: Vault>(
    alloc: Global,
    studio: &mut Studio<S>,
    vault: &mut V,
    rows: &[Row],
) -> Result<Played, Fail>
    requires { IsStudio S.Store (core_of studio.old) }
    ensures { IsStudio S.Store (core_of studio.new) }
{
    let mut played = Played {
        rows: 0,
        commit: studio.commit_number(),
        other: None,
    };
    'rows: for (ask, text) in rows {
        let told = answer(alloc, studio, vault, *ask);
        if !has_text(alloc, &told, text)? {
            played.other = Some(told);
            return Ok(played);
        }
        played.rows = played.rows.saturating_add(1);
        played.commit = studio.commit_number();
    }
    Ok(played)
}

// Asks for the rows, each of which is answered as it stands beside it.
pub(crate) fn tells<S: Store, V: Vault>(
    rt: &impl Abort,
    alloc: Global,
    studio: &mut Studio<S>,
    vault: &mut V,
    rows: &[Row],
) -> Result<(), Fail>
    requires { IsStudio S.Store (core_of studio.old) }
    ensures { IsStudio S.Store (core_of studio.new) }
{
    let played = play(alloc, studio, vault, rows)?;
    assert!(rt; played.rows == rows.len(), "other than row {}", played.rows);
    Ok(())
}
