ghost use Rattle.std.specs.Prelude.{◌≡◌, Err, IfOk};
ghost use Rattle.er_event.specs.declared.refusals.Place.{Place};
ghost use Rattle.er_event.specs.Event.{EventValue};
ghost use Rattle.er_event.specs.Parts.{IsOf, IsFirstFault};
ghost use Rattle.er_event.specs.Sound.{IsSoundButForSeeds};

use super::Event;
use crate::brackets::Bracket;
use crate::items::Items;
use crate::refusals::Place;
use crate::rounds::have_missed;
use crate::rows::{
    BracketRow, EventRow, PairingRow, PlayerRow, read_bracket, read_event, read_players,
    read_stored,
};
use std::alloc::{AllocError, Global};
use thiserror::Error;

/// The rows of an event's four tables, each list in the order of the table's key.
#[derive(Drop)]
pub struct Parts {
    pub event: Items<EventRow>,
    pub players: Items<PlayerRow>,
    pub pairings: Items<PairingRow>,
    pub bracket: Items<BracketRow>,
}

/// Why rows aren't an event.
#[derive(Clone, Copy, Debug, PartialEq, Eq, Error)]
pub enum PartsFault {
    /// The first table whose rows no sound event has.
    #[error("no sound event has the rows of {0}")]
    Damaged(Place),
    #[error("out of memory")]
    Memory,
}

impl From<AllocError> for PartsFault {
    ghost use Rattle.std.specs.Prelude.{◌≡◌};
    ghost use Rattle.er_event.specs.declared.events.parts.PartsFault.TheVariants.{Memory};

    ghost from_gives = { λ _ fault. fault ≡ Memory };

    fn from(_error: AllocError) -> Self {
        PartsFault::Memory
    }
}

impl Event {
    /// Makes the event that the rows are of, once all of them are read, or names the first of the four tables that is at fault.
    fn read(alloc: Global, parts: &Parts) -> Result<Event, PartsFault>
        ensures value { IfOk result (IsOf parts.now) }
        ensures sound { IfOk result IsSoundButForSeeds }
        ensures only { IfOk result (λ e. (other : EventValue) → IsOf parts.now other
            → IsSoundButForSeeds other → other ≡ e) }
        ensures damaged { (table : Place) → result ≡ Err (PartsFault.Damaged table)
            → IsFirstFault parts.now table }
    {
        let setup = read_event(parts.event.as_slice())?;
        let players = read_players(alloc, &setup, parts.players.as_slice())?;
        let count = players.len() as u16;
        let stored = read_stored(alloc, &setup, count, parts.pairings.as_slice())?;
        if !have_missed(stored.as_slice(), players.as_slice()) {
            return Err(PartsFault::Damaged(Place::PairingTable));
        }
        let stages = read_bracket(alloc, &setup, count, parts.bracket.as_slice())?;
        Ok(Event {
            name: setup.name,
            rounds: setup.rounds,
            cut: setup.cut,
            phase: setup.phase,
            players,
            stored,
            bracket: Bracket {
                stages: Items::from(stages),
            },
        })
    }

    /// Makes the event that the rows are of, or names the first of the four tables at fault.
    pub fn from_parts(alloc: Global, parts: Parts) -> Result<Event, PartsFault>
        ensures value { IfOk result (IsOf parts) }
        ensures sound { IfOk result IsSoundButForSeeds }
        // No other sound event has these rows.
        ensures only { IfOk result (λ e. (other : EventValue) → IsOf parts other
            → IsSoundButForSeeds other → other ≡ e) }
        ensures damaged { (table : Place) → result ≡ Err (PartsFault.Damaged table)
            → IsFirstFault parts table }
    {
        Event::read(alloc, &parts)
    }
}
