//! The printed texts of an event, its tables as CSV and the slips of its matches, exact to the byte.
#![tactic(auto)]

mod brackets;
mod columns;
mod exports;
mod imports;
pub mod laws;
mod numbers;
mod pairings;
mod players;
mod records;
mod short;
mod slips;
mod standings;

pub use brackets::bracket_text;
pub use exports::{players_csv, results_csv};
pub use imports::{CsvFault, PlayerLine, ResultLine, read_players_csv, read_results_csv};
pub use numbers::digits;
pub use pairings::pairings_text;
pub use players::players_text;
pub use short::{ROOM, ShortText};
pub use slips::{SlipFault, read_slip, slip_json};
pub use standings::{rows_text, standings_text};
