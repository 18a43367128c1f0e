//! What tests of several crates share. These calls have no clause and answer an `Option`, so that the proof of a test carries little.
#![tactic(auto)]

pub mod desks;
pub mod events;
pub mod wires;
