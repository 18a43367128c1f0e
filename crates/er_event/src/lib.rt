//! One tournament as a value that is always sound: its players, its stored rounds and its bracket,
//! with the changes that keep it so.
#![tactic(auto)]

mod brackets;
mod changes;
mod commands;
mod events;
mod items;
pub mod laws;
mod matches;
mod names;
mod players;
mod refusals;
mod rounds;
mod rows;
mod scores;
mod seats;
mod slips;
mod tallies;
mod totals;

pub use brackets::{Bracket, is_over};
pub use changes::Change;
pub use commands::{Command, MAX_SERIAL, Receipt};
pub use er_share::MAX_ROUNDS;
pub use events::{Event, Parts, PartsFault, Phase};
pub use items::Items;
pub use matches::{BYE, Match, is_complete};
pub use names::{MAX_NAME_BYTES, Name, NameFault};
pub use players::{MAX_PLAYERS, Player, PlayerNo};
pub use refusals::{Cause, Place, Refusal};
pub use rounds::Round;
pub use rows::{
    BracketRow, EventRow, MOST_OLD_ROUNDS, PairingRow, PlayerRow, TallyRow, match_at_table,
    read_flag, read_tally,
};
pub use scores::{Games, Score};
pub use slips::SlipRow;
pub use tallies::{Meeting, Tally};
pub use totals::{AllTotals, Totals};
