//! The desk: one studio, which threads use in turns, each from a seat of its own. Each call of a seat takes the turn,
//! makes one call of the studio, and gives the turn back; what all seats did is one list, a run of the model.
#![tactic(auto)]

mod batch;
mod deed;
mod desk;
mod first;
mod freeing;
mod giver;
mod held;
mod laws;
mod taker;

pub use deed::Deed;
pub use desk::{Desk, NextSamples, SaidPieces};
pub use giver::DeskGiver;
pub use held::{DeskSeat, Held};
pub use laws::{
    deeds_are_served, deeds_ask, deeds_lead, faults_are_counted, imports_lead, numbers_are_merged,
    pieces_are_chunks, pins_stay, turns_keep_order,
};
pub use taker::DeskTaker;
