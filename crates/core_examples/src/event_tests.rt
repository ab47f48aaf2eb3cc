// Lists of events of a studio on a disk in memory.
ghost use Rattle.std.specs.Prelude.{ℕ};
ghost use Rattle.pcm_base.specs.Form.{IsCallInForm, IsInForm, IsTurn};
ghost use Rattle.editor_core.specs.Core.{core_of};
ghost use Rattle.editor_state.specs.Studios.{IsStudio};

use super::tests::{disk, new_studio};
use super::vaults::vault;
use disk_model::Store;
use edit_ports::Vault;
use editor_core::*;
use pcm_base::{Answer, Call, Command, Event, Reply, Samples};
use std::alloc::Global;
use std::process::Abort;
use std::test::*;

fn line(command: Command) -> Event
    requires form { IsInForm command }
    requires turn { IsTurn command }
    ensures { (commit : ℕ) → IsCallInForm commit result.call }
{
    Event {
        actor: 0,
        call: Call::Line { command },
    }
}

fn asks(call: Call) -> Event
    requires { (commit : ℕ) → IsCallInForm commit call }
    ensures { (commit : ℕ) → IsCallInForm commit result.call }
{
    Event { actor: 1, call }
}

// What a reply is, as a number.
fn number_of(reply: &Reply) -> u64 {
    match reply {
        Reply::Done => 1,
        Reply::Pinned { pin } => 100 + (*pin).min(9),
        Reply::Length { frames } => 200 + (*frames).min(9),
        Reply::Frames { frames } => 300 + (frames.as_slice().len() as u64).min(9),
        Reply::Refused { .. } => 400,
        _ => 500,
    }
}

// What a studio answers to two actors: a script, and a player that pins the project, asks for its length, reads it and
// lets it go.
fn answers_of<S: Store, V: Vault>(
    alloc: Global,
    studio: &mut Studio<S>,
    vault: &mut V,
) -> Result<Vec<Answer>, Fail>
    requires { IsStudio S.Store (core_of studio.old) }
{
    let mut answers = Vec::new(alloc);
    let samples = Samples::new(vec![in alloc; 3i16, 4, 5]?);
    let put = Command::Put {
        track: 1,
        at: 0,
        samples,
    };
    let read = Call::ReadPin {
        pin: 1,
        from: 1,
        count: u64::MAX,
    };
    let events = [
        line(Command::Track),
        line(put),
        asks(Call::Pin),
        line(Command::Undo),
        asks(Call::PinLen { pin: 1 }),
        asks(read),
        line(Command::Drop { track: 7 }),
        asks(Call::Unpin { pin: 1 }),
        asks(Call::PinLen { pin: 1 }),
    ];
    studio.run_events(alloc, vault, &events, &mut answers)?;
    Ok(answers)
}

// The commit number of each answer, and its reply as a number.
static TOLD: [[u64; 2]; 9] = [
    [1, 1],
    [2, 1],
    [2, 101],
    [3, 1],
    [3, 203],
    [3, 302],
    [3, 400],
    [3, 1],
    [3, 400],
];

fn are_told(answers: &[Answer]) -> bool {
    for (answer, told) in answers.iter().zip(&TOLD) {
        if answer.commit != told[0] || number_of(&answer.reply) != told[1] {
            return false;
        }
    }
    answers.len() == TOLD.len()
}

fn answers_to_events(rt: &impl Abort, alloc: Global) -> Result<(), Fail> {
    let mut vault = vault(alloc)?;
    let mut studio = new_studio(alloc, disk(alloc)?, 3)?;
    let answers = answers_of(alloc, &mut studio, &mut vault)?;
    assert!(rt; are_told(answers.as_slice()));
    assert!(rt; studio.commit_number() == 3);
    Ok(())
}

#[test]
fn events_are_answered(rt: HostRuntime) -> Result<(), Fail> {
    answers_to_events(&rt, rt.alloc())
}
