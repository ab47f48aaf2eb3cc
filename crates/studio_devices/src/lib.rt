//! The devices of the program: standard input and output as a source and a sink (`StreamSource`, `StreamSink`), and
//! those of a project's folder (`Devices`).
//!
//! The streams tell nothing of their content, and count their faults. The devices of a folder are those of
//! `project_folder`. Nothing of the program's call is used here: `main` of `studio` hands the devices to it.
#![tactic(auto)]

mod devices;
mod streams;

pub use devices::{Devices, devices_of};
pub use streams::{StreamSink, StreamSource};
