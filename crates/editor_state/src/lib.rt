//! A studio as data: what it stands for, what always holds of it, and what one call does to it.
//!
//! `editor_core` has the code. Its clauses cite the definitions of `specs/`, which speak of the record `Core`, and its
//! proofs the lemmas of `proofs/`. Of code there are the two types that the definitions name.
#![tactic(auto)]

mod pin;
mod planned;

pub use pin::Pin;
pub use planned::Planned;
