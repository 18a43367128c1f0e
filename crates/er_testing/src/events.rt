//! Events, the changes that make them, and whether two are the same.

use er_event::{Change, Event, Name, Phase, PlayerNo};
use std::alloc::Global;

pub fn name(text: &str) -> Option<Name> {
    Name::try_from_bytes(text.as_bytes()).ok()
}

/// The change that enrols a player.
pub fn player(text: &str) -> Option<Change> {
    let name = name(text)?;
    Some(Change::AddPlayer { name })
}

/// The event after a change, if it fits.
pub fn changed(alloc: Global, event: Event, change: &Change) -> Option<Event> {
    if event.fits(change) {
        event.apply(alloc, change).ok()
    } else {
        None
    }
}

/// The change that starts an event.
pub fn start() -> Change {
    let phase = Phase::Swiss;
    Change::SetPhase { phase }
}

/// The change that drops a player.
pub fn drop(number: u16) -> Option<Change> {
    let player = PlayerNo::try_new(number)?;
    Some(Change::SetDropped { player })
}

/// The event after the enrolment of a player, if it fits.
pub fn with_player(alloc: Global, event: Event, text: &str) -> Option<Event> {
    changed(alloc, event, &player(text)?)
}

/// The event with a player P1, P2, .. of this number.
fn with_number(alloc: Global, event: Event, number: u16) -> Option<Event> {
    match format!(in alloc; "P{number}") {
        Ok(text) => with_player(alloc, event, text.as_str()),
        Err(_) => None,
    }
}

/// An event named Friday that nobody has entered.
pub fn new_event(alloc: Global, rounds: u8, cut: u8) -> Option<Event> {
    let friday = name("Friday")?;
    Event::create(alloc, friday, rounds, cut).ok()
}

/// An event named Friday, with as many players P1, P2, .., that has started.
pub fn started(alloc: Global, rounds: u8, cut: u8, players: u16) -> Option<Event> {
    let mut event = new_event(alloc, rounds, cut)?;
    for number in 1..=players {
        event = with_number(alloc, event, number)?;
    }
    changed(alloc, event, &start())
}

/// Whether two events have the same players.
fn have_same_players(one: &Event, other: &Event) -> bool {
    let mut pairs = one.players().iter().zip(other.players());
    one.players().len() == other.players().len()
        && pairs.all(|(one, other)| {
            one.no == other.no
                && one.name.as_str() == other.name.as_str()
                && one.dropped == other.dropped
                && one.joined == other.joined
        })
}

/// Whether two events have the same rounds.
fn have_same_rounds(one: &Event, other: &Event) -> bool {
    let mut pairs = one.stored().iter().zip(other.stored());
    one.stored().len() == other.stored().len()
        && pairs.all(|(one, other)| one.matches.as_slice() == other.matches.as_slice())
}

/// Whether two events have the same stages of the playoff.
fn have_same_stages(one: &Event, other: &Event) -> bool {
    let (one, other) = (
        one.bracket().stages.as_slice(),
        other.bracket().stages.as_slice(),
    );
    let mut pairs = one.iter().zip(other);
    one.len() == other.len() && pairs.all(|(one, other)| one.as_slice() == other.as_slice())
}

/// Whether two events are the same.
pub fn are_same(one: &Event, other: &Event) -> bool {
    one.name().as_str() == other.name().as_str()
        && (one.rounds(), one.cut(), one.phase()) == (other.rounds(), other.cut(), other.phase())
        && have_same_players(one, other)
        && have_same_rounds(one, other)
        && have_same_stages(one, other)
}
