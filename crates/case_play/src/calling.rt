// Calls of the program on a world.
use super::devices::devices_of;
use super::gates::HoldingGate;
use super::program::{Left, Program};
use super::world::{Asked, Manner, World};
use case_text::{Fault, Line, goes_on, is_like, last_printed};
use memory_disk::RamStore;
use std::alloc::Global;
use std::sync::Wait;
use std::thread::Threads;

// The words of a call.
fn words_of(alloc: Global, text: &str) -> Result<Vec<String>, Fault> {
    let mut words = Vec::new(alloc);
    words.push(String::from_str(alloc, "studio")?)?;
    for word in text.split_whitespace() {
        words.push(String::from_str(alloc, word)?)?;
    }
    Ok(words)
}

// Notes what a call left, whose disk had had this many calls before.
fn note(world: &mut World<'_>, store: RamStore, left: Left, before: u64) {
    world.calls = Some(store.call_count().saturating_sub(before));
    world.store = store;
    world.left = Some(left);
}

// Makes a call of these words, the first of which is the program's name.
fn make_words<R: Threads + Wait + Sync, P: Program>(
    rt: &R,
    program: &P,
    world: &mut World<'_>,
    words: &[String],
) -> Result<(), Fault> {
    let gate = HoldingGate::new(world.asked.take_holds(world.alloc));
    let devices = devices_of(world.alloc, &world.asked, world.sounds.as_slice(), &gate)?;
    let store = world.take_store()?;
    let before = store.call_count();
    let (store, left) = program.call(rt, world.alloc, words, store, devices);
    note(world, store, left, before);
    world.held = gate.has_held(rt);
    Ok(())
}

// Makes a call of the words of a text.
fn makes<R: Threads + Wait + Sync, P: Program>(
    rt: &R,
    program: &P,
    world: &mut World<'_>,
    text: &str,
) -> Result<(), Fault> {
    let words = words_of(world.alloc, text)?;
    make_words(rt, program, world, words.as_slice())
}

// Whether a call of these words may read a script.
fn reads_script(words: &str) -> bool {
    words.starts_with("run") || words.starts_with("try")
}

// The calls of the script that fail: where there is none to read, the first.
fn guard_script(alloc: Global, words: &str, asked: &mut Asked<'_>) -> Result<(), Fault> {
    if asked.script.is_empty() && !reads_script(words) {
        asked.failing.script = Vec::from_slice(alloc, &[1])?;
    }
    Ok(())
}

/// What a call left, as a text after another one: what it printed, and its status.
pub(crate) fn push_left(alloc: Global, text: &mut String, left: &Left) -> Result<(), Fault> {
    if let Ok(printed) = std::str::from_utf8(left.out.bytes()) {
        text.push_str(printed)?;
    }
    let status = left.status;
    let last = format!(in alloc; "status {status}")?;
    text.push_str(last.as_str())?;
    Ok(())
}

// Whether a call may leave something else than what is wanted.
fn may_differ(manner: Manner, wanted: &str, left: &Left) -> bool {
    match manner {
        Manner::Strict => false,
        Manner::Stopping => left.status == 4 && !goes_on(wanted, left.out.bytes()),
        Manner::Free => true,
    }
}

// Compares what a call left with what it is to leave. Whether it left something else, that it may.
fn differs(
    alloc: Global,
    manner: Manner,
    call: Line<'_>,
    asked: &Asked<'_>,
    left: &Left,
) -> Result<bool, Fault> {
    let wanted = asked.wanted.as_str();
    if left.status == asked.status && is_like(wanted, left.out.bytes()) {
        return Ok(false);
    }
    if may_differ(manner, wanted, left) {
        return Ok(true);
    }
    let mut came = String::new(alloc);
    push_left(alloc, &mut came, left)?;
    Err(call.wrong(came))
}

// Compares what the call left with what the case says, and notes what it printed last.
fn compare(world: &mut World<'_>, call: Line<'_>) -> Result<(), Fault> {
    let Some(left) = &world.left else {
        return Ok(());
    };
    if differs(world.alloc, world.manner, call, &world.asked, left)? {
        world.differs = true;
    }
    if let Some(told) = last_printed(left.out.bytes()) {
        world.printed = Some(told);
    }
    Ok(())
}

/// Makes the call that is set up, if there is one, and compares what it leaves with what the case says. The next one
/// has nothing set up.
pub(crate) fn make_call<R: Threads + Wait + Sync, P: Program>(
    rt: &R,
    program: &P,
    world: &mut World<'_>,
) -> Result<(), Fault> {
    let Some(call) = world.asked.call else {
        return Ok(());
    };
    guard_script(world.alloc, call.text, &mut world.asked)?;
    makes(rt, program, world, call.text)?;
    compare(world, call)?;
    world.asked = Asked::new(world.alloc);
    Ok(())
}
