//! The standings of an event by the Magic Tournament Rules, appendix Tiebreaker Explanation.
#![tactic(auto)]

ghost use Rattle.std.specs.Prelude.{◌≡◌, IfOk, List};
ghost use Rattle.er_event.specs.Event.{EventValue};
ghost use Rattle.er_rank.specs.Meeting.{AreListsOf, AreLists};
ghost use Rattle.er_rank.specs.Standings.{AreStandings, IsTop, OneStandings, OneTop};

pub mod laws;
mod lists;
mod meetings;
mod merits;
mod opponents;
mod placings;
mod rows;
mod tallies;

use er_event::{Event, Meeting, PlayerNo, Tally};
pub use lists::are_lists;
pub use rows::Row;
use std::alloc::{AllocError, Global};

/// The standings by these tallies and meetings, of which `are_lists` is the test. By those of an event they are the
/// standings of the event.
pub fn standings_of(
    alloc: Global,
    tallies: &[Tally],
    meetings: &[Meeting],
) -> Result<Vec<Row>, AllocError>
    requires { AreLists tallies.now meetings.now }
    ensures value { (event : EventValue) → AreListsOf event tallies.now meetings.now
        → IfOk result (λ rows. AreStandings event rows.items) }
    ensures only { (event : EventValue) → AreListsOf event tallies.now meetings.now
        → IfOk result (λ rows. OneStandings event rows.items) }
{
    let opponents = opponents::opponents_of(alloc, meetings, tallies.len())?;
    let placings = placings::placings_of(alloc, tallies, opponents.as_slice())?;
    placings::rows_of(alloc, placings.as_slice())
}

/// The standings: every player once, the better first, and players who are equal on match points and the three
/// percentages by number. A round counts once it is complete. A dropped player stays listed, and stays an opponent.
pub fn standings(alloc: Global, event: &Event) -> Result<Vec<Row>, AllocError>
    ensures value { IfOk result (λ rows. AreStandings event.now rows.items) }
    ensures only { IfOk result (λ rows. OneStandings event.now rows.items) }
{
    let tallies = tallies::tallies_of(alloc, event)?;
    let meetings = meetings::meetings_of(alloc, event.stored(), tallies.as_slice())?;
    standings_of(alloc, tallies.as_slice(), meetings.as_slice())
}

/// The first `k` players of the standings who have not dropped, or all of them if there are fewer.
pub fn top(alloc: Global, event: &Event, k: usize) -> Result<Vec<PlayerNo>, AllocError>
    ensures value { IfOk result (λ players. IsTop event.now k players.items) }
    ensures only { IfOk result (λ players. OneTop event.now k players.items) }
{
    let rows = standings(alloc, event)?;
    rows::first_active(alloc, rows.as_slice(), k)
}
