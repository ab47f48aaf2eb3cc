//! Scripts made of a number: large ones, of which each line is valid where it stands.
//!
//! `generate` gives the lines. Its contract says which they are, draw by draw (`specs/Script.antt`), that none is
//! refused in a fresh project (`specs/Validity.antt`), and how much of a disk they may need (`specs/Room.antt`).
//! Nothing is carried out here: who wants to run the lines takes them to an editor.
#![tactic(auto)]

mod draws;
mod kind;
mod lines;
mod place;
mod script;

pub use script::generate;
