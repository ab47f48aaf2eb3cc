//! A script, read and answered line by line by an editor that others may use between two lines.
//!
//! `read_script` is what the layer above uses, over any source, any sink and any editor; `DeskEditor` is the editor of
//! a seat at a desk, where each line is one turn. It opens nothing and prints no last line.
#![tactic(auto)]

mod answer;
mod editor;
mod laws;
mod line;
mod read;
mod seat;
mod stop;

pub use answer::ScriptState;
pub use editor::Editor;
pub use laws::{scripts_add, scripts_are_served, scripts_spend};
pub use line::LineBuffer;
pub use read::{MAX_SCRIPT, read_script};
pub use seat::DeskEditor;
pub use stop::Stop;
