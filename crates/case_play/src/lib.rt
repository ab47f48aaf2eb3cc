//! Plays a case over any program. The calls come on a disk, sounds and streams in memory, each beside what it prints
//! and leaves. `play_case` plays a case once, or again and again: for each row, for each stop of the disk, or for each
//! call of a device that fails. `docs/CASES.md` says how a case is written.
//!
//! What the program is, is a trait, `Program`; `case_runner` has the one that is tested. `case_text` reads the lines.
#![tactic(auto)]

mod calling;
mod case;
mod devices;
mod disk;
mod disk_facts;
mod files;
mod gates;
mod holding;
mod holds;
mod images;
mod pending;
mod playing;
mod program;
mod rows;
mod said;
mod script;
mod setting;
mod sounds;
mod stages;
mod sweep;
mod world;

pub use case::play_case;
pub use gates::HoldingGate;
pub use program::{Devices, Left, Program};
pub use said::SaidVault;
