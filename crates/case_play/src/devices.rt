// The devices of a call, as they are set up.
use super::gates::HoldingGate;
use super::program::Devices;
use super::said::SaidVault;
use super::sounds::Sound;
use super::world::Asked;
use case_text::Fault;
use edit_ports::{MemSink, MemSource, MemVault};
use pcm_base::Numbers;
use std::alloc::Global;

// How many bytes of the microphone a read gives at most.
const MIC_PIECE: usize = 4;

fn numbers_in(alloc: Global, numbers: &[u64]) -> Result<Numbers, Fault> {
    let numbers = Vec::from_slice(alloc, numbers)?;
    Ok(Numbers::new(numbers))
}

fn source_of(alloc: Global, bytes: &[u8], piece: usize, fails: &[u64]) -> Result<MemSource, Fault> {
    let bytes = Vec::from_slice(alloc, bytes)?;
    let fails = numbers_in(alloc, fails)?;
    Ok(MemSource::new(bytes, piece.max(1), fails))
}

fn sink_of(alloc: Global, room: usize, piece: usize, fails: &[u64]) -> Result<MemSink, Fault> {
    let fails = numbers_in(alloc, fails)?;
    let sink = MemSink::new(alloc, room, piece.max(1), fails)?;
    Ok(sink)
}

// The microphone. Where there are no bytes for it, its first read fails.
fn mic_of(alloc: Global, bytes: &Option<Vec<u8>>, fails: &[u64]) -> Result<MemSource, Fault> {
    match bytes {
        Some(bytes) => source_of(alloc, bytes.as_slice(), MIC_PIECE, fails),
        None => source_of(alloc, &[], MIC_PIECE, &[1]),
    }
}

// A vault without sounds, with room for some.
fn new_vault(alloc: Global, fails: &[u64]) -> Result<MemVault, Fault> {
    let fails = numbers_in(alloc, fails)?;
    let vault = MemVault::new(alloc, 4, 524_288, fails)?;
    Ok(vault)
}

fn place_all(vault: &mut MemVault, sounds: &[Sound]) -> Result<(), Fault> {
    for sound in sounds {
        vault.place(sound.name.as_str(), sound.bytes.as_slice())?;
    }
    Ok(())
}

// A vault of the sounds, with room for more.
fn vault_of(alloc: Global, sounds: &[Sound], asked: &Asked<'_>) -> Result<SaidVault, Fault> {
    let mut vault = new_vault(alloc, asked.failing.vault.as_slice())?;
    place_all(&mut vault, sounds)?;
    Ok(SaidVault {
        vault,
        said: asked.said,
    })
}

// The script, and the output.
fn script_streams(alloc: Global, asked: &Asked<'_>) -> Result<(MemSource, MemSink), Fault> {
    let fails = asked.failing.script.as_slice();
    let script = source_of(alloc, asked.script.as_slice(), asked.piece, fails)?;
    let fails = asked.failing.output.as_slice();
    let out = sink_of(alloc, 1_048_576, asked.piece, fails)?;
    Ok((script, out))
}

// The microphone, and the speaker.
fn sound_streams(alloc: Global, asked: &Asked<'_>) -> Result<(MemSource, MemSink), Fault> {
    let mic = mic_of(alloc, &asked.mic, asked.failing.mic.as_slice())?;
    let fails = asked.failing.speaker.as_slice();
    let speaker = sink_of(alloc, asked.room, 65_536, fails)?;
    Ok((mic, speaker))
}

/// The devices of a call: what is asked of it, the sounds, and the gate.
pub(crate) fn devices_of<'g>(
    alloc: Global,
    asked: &Asked<'_>,
    sounds: &[Sound],
    gate: &'g HoldingGate,
) -> Result<Devices<'g>, Fault> {
    let vault = vault_of(alloc, sounds, asked)?;
    let script = script_streams(alloc, asked)?;
    let sound = sound_streams(alloc, asked)?;
    Ok(Devices {
        script: script.0,
        out: script.1,
        vault,
        mic: sound.0,
        speaker: sound.1,
        gate,
    })
}
