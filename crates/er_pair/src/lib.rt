//! Who plays whom in the next Swiss round: the order of the active players, and the earliest pairing in which nobody meets an
//! opponent, or the bye, again.
#![tactic(auto)]

mod dead_ends;
mod entrants;
pub mod laws;
mod meetings;
mod orders;
mod pairings;
mod places;
mod search;
mod seats;
mod words;

pub use meetings::Met;
pub use orders::order;
pub use pairings::{MAX_STEPS, PairFault, first_pairing};
pub use words::keys;
