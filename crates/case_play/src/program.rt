// The program whose calls a case makes.
ghost use Rattle.std.specs.Thread.{IsSync};

use super::gates::HoldingGate;
use super::said::SaidVault;
use edit_ports::{MemSink, MemSource};
use memory_disk::RamStore;
use pcm_base::Numbers;
use std::alloc::Global;
use std::sync::Wait;
use std::thread::Threads;

/// The devices of a call beside the disk, in memory, and the gate that its threads pass.
#[derive(Drop)]
pub struct Devices<'g> {
    pub script: MemSource,
    pub out: MemSink,
    pub vault: SaidVault,
    pub mic: MemSource,
    pub speaker: MemSink,
    pub gate: &'g HoldingGate,
}

/// What a call leaves beside the disk: its status, its devices, and the numbers of its commits.
#[derive(Drop)]
pub struct Left {
    pub status: u8,
    /// Whether a project was opened.
    pub opened: bool,
    pub out: MemSink,
    pub vault: SaidVault,
    pub speaker: MemSink,
    /// The commit number with which the script began, and the one with which it ended.
    pub first_commit: u64,
    pub last_commit: u64,
    /// The number of the recording's track, where there was a recording.
    pub record_commit: Option<u64>,
    pub script_commits: Numbers,
    pub piece_commits: Numbers,
}

/// A program that makes calls.
pub trait Program {
    /// Makes the call of these words, over this disk and these devices, and returns the disk. The first word is the
    /// program's name.
    fn call<R: Threads + Wait + Sync>(
        &self,
        rt: &R,
        alloc: Global,
        words: &[String],
        store: RamStore,
        devices: Devices<'_>,
    ) -> (RamStore, Left)
        requires { IsSync R.row };
}
