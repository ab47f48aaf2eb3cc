//! A session at a desk of its own: a script, and beside it a recording and a playback, where they are asked for.
//!
//! `Seated` takes what a session needs before its first line, and `run` of it makes the opening track and the pin, runs
//! script, recorder and player at once, each from a seat of its own, joins the seats, lets the pin go and hands the
//! studio out. It opens no project and prints no last line.
#![tactic(auto)]

mod devices;
mod opening;
mod outcome;
mod player;
mod recorder;
mod rings;
mod script;
mod seated;
mod seats;
mod setting;
mod side;
mod work;

pub use devices::Devices;
pub use opening::{Beside, Opened};
pub use outcome::{PlayOutcome, RecordOutcome, Report, ScriptOutcome};
pub use seated::{Ended, Seated};
pub use side::Side;
