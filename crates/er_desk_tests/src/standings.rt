mod seeds;

use er_event::{Change, Event, Games, Items, Match, Score};
use er_rank::{standings, top};
use er_testing::events::{changed, drop, new_event, started};
use std::alloc::Global;
use std::test::Fail;

/// As many players after the start of an event with one round and a cut to four, of whom the second has left.
fn friday(alloc: Global, players: u16) -> Option<Event> {
    let event = started(alloc, 1, 4, players)?;
    changed(alloc, event, &drop(2)?)
}

/// Whether the first k active players are those of these numbers.
fn are_first(alloc: Global, event: &Event, k: usize, numbers: &[u16]) -> bool {
    let Ok(players) = top(alloc, event, k) else {
        return false;
    };
    let listed = players
        .iter()
        .zip(numbers)
        .all(|(player, number)| player.get() == *number);
    players.len() == numbers.len() && listed
}

fn rows_len(alloc: Global, event: &Event) -> Option<usize> {
    Some(standings(alloc, event).ok()?.len())
}

/// Whether four players are listed, and the second is never among the first.
fn lists_the_second_alone(alloc: Global, event: &Event) -> bool {
    rows_len(alloc, event) == Some(4)
        && are_first(alloc, event, 0, &[])
        && are_first(alloc, event, 2, &[1, 3])
        && are_first(alloc, event, 3, &[1, 3, 4])
        && are_first(alloc, event, 8, &[1, 3, 4])
}

fn the_second_of_four_is_listed(alloc: Global) -> Option<bool> {
    let event = friday(alloc, 4)?;
    Some(lists_the_second_alone(alloc, &event))
}

/// A player who has left is listed, and not among the first.
#[test]
fn the_first_are_active(rt: HostRuntime) -> Result<(), Fail> {
    assert_eq!(rt; the_second_of_four_is_listed(rt.alloc()), Some(true));
    Ok(())
}

fn nobody_is_listed(alloc: Global) -> Option<bool> {
    let event = new_event(alloc, 3, 0)?;
    Some(rows_len(alloc, &event) == Some(0) && are_first(alloc, &event, 4, &[]))
}

#[test]
fn an_event_without_players_has_no_rows(rt: HostRuntime) -> Result<(), Fail> {
    assert_eq!(rt; nobody_is_listed(rt.alloc()), Some(true));
    Ok(())
}

fn won(a: u16, b: u16) -> Match {
    let score = Score::swiss(Games { x: 2, y: 0, d: 0 });
    Match { a, b, score }
}

/// The six of worked example 17 after its round.
fn six(alloc: Global) -> Option<Event> {
    let round = [won(6, 4), won(2, 1), won(5, 3)];
    let matches = Items::from(Vec::from_slice(alloc, &round).ok()?);
    changed(alloc, friday(alloc, 6)?, &Change::AddRound { matches })
}

fn four_go_on(alloc: Global) -> Option<bool> {
    let event = six(alloc)?;
    Some(are_first(alloc, &event, 4, &[5, 6, 1, 3]))
}

/// The four who go on in worked example 17, in which player 2 has left.
#[test]
fn a_dropped_player_is_no_seed(rt: HostRuntime) -> Result<(), Fail> {
    assert_eq!(rt; four_go_on(rt.alloc()), Some(true));
    Ok(())
}
