//! What players' rounds come to, as in worked examples 39 and 49, before a change and after it, and whose totals a change sets.
use er_event::{Change, Event, Games, Items, Match, PlayerNo, Score, Totals};
use er_testing::events::{changed, player, started, with_player};
use std::alloc::Global;
use std::test::Fail;

/// Points, rounds, game points and games.
const fn totals(points: u8, rounds: u8, game_points: u16, games: u16) -> Totals {
    Totals {
        points,
        rounds,
        game_points,
        games,
    }
}

/// The player at a place of a list by number.
fn player_at(place: usize) -> Option<PlayerNo> {
    let place = u16::try_from(place).ok()?;
    PlayerNo::try_new(place.checked_add(1)?)
}

/// Whether the players' matches come to this, by number.
fn come_to(event: &Event, expected: &[Totals]) -> bool {
    let each = event
        .players()
        .iter()
        .zip(expected)
        .all(|(player, totals)| event.totals(player.no) == *totals);
    each && event.players().len() == expected.len()
}

/// What the player's matches come to after a change, if it fits.
fn totals_after(event: &Event, change: &Change, player: PlayerNo) -> Option<Totals> {
    if event.fits(change) {
        Some(event.totals_after(change, player))
    } else {
        None
    }
}

/// Whether they come to this after a score of a table of the first round.
fn come_to_after(event: &Event, table: u16, games: Games, expected: &[Totals]) -> Option<bool> {
    let score = Score::swiss(games)?;
    let change = Change::SetScore {
        round: 1,
        table,
        score,
    };
    for (place, totals) in expected.iter().enumerate() {
        if totals_after(event, &change, player_at(place)?)? != *totals {
            return Some(false);
        }
    }
    Some(true)
}

/// A match as it is stored.
fn played(a: u16, b: u16, games: Option<Games>) -> Match {
    let score = games.and_then(Score::swiss);
    Match { a, b, score }
}

/// As many players after the start of an event of three rounds, with a first round.
fn with_round(alloc: Global, players: u16, round: &[Match]) -> Option<Event> {
    let matches = Items::from(Vec::from_slice(alloc, round).ok()?);
    let event = started(alloc, 3, 0, players)?;
    changed(alloc, event, &Change::AddRound { matches })
}

const TWO: Option<Games> = Some(Games { x: 2, y: 0, d: 0 });

const TWO_ONE: Option<Games> = Some(Games { x: 2, y: 1, d: 0 });

/// The four of worked example 9 after their first round, and after the correction of example 15.
fn four_come_to(alloc: Global) -> Option<bool> {
    let event = with_round(alloc, 4, &[played(4, 2, TWO), played(1, 3, TWO_ONE)])?;
    let before = [
        totals(3, 1, 6, 3),
        totals(0, 1, 0, 2),
        totals(0, 1, 3, 3),
        totals(3, 1, 6, 2),
    ];
    let after = [
        totals(0, 1, 0, 2),
        totals(0, 1, 0, 2),
        totals(3, 1, 6, 2),
        totals(3, 1, 6, 2),
    ];
    let corrected = Games { x: 0, y: 2, d: 0 };
    Some(come_to(&event, &before) && come_to_after(&event, 2, corrected, &after)?)
}

#[test]
fn a_correction_replaces_the_old_score(rt: HostRuntime) -> Result<(), Fail> {
    assert_eq!(rt; four_come_to(rt.alloc()), Some(true));
    Ok(())
}

/// Of the three of worked example 5 the third has the bye. The first table's result completes the round.
fn three_come_to(alloc: Global) -> Option<bool> {
    let event = with_round(alloc, 3, &[played(2, 1, None), played(3, 0, TWO)])?;
    let after = [totals(0, 1, 0, 2), totals(3, 1, 6, 2), totals(3, 1, 6, 2)];
    let won = Games { x: 2, y: 0, d: 0 };
    Some(come_to(&event, &[totals(0, 0, 0, 0); 3]) && come_to_after(&event, 1, won, &after)?)
}

#[test]
fn a_round_counts_once_it_is_complete(rt: HostRuntime) -> Result<(), Fail> {
    assert_eq!(rt; three_come_to(rt.alloc()), Some(true));
    Ok(())
}

/// Whether a change may alter totals, and corrects a match of just these players, by number, if it fits.
fn alters(event: &Event, change: &Change, corrected: &[bool]) -> Option<bool> {
    if event.fits(change) {
        let each = event.players().iter().zip(corrected).all(|(
            player,
            is_corrected,
        )| event.corrects(change, player.no) == *is_corrected);
        let all = event.players().len() == corrected.len();
        Some(each && all && event.may_alter_totals(change))
    } else {
        None
    }
}

/// Whether a score of a table of the first round does.
fn score_alters(event: &Event, table: u16, games: Games, corrected: &[bool]) -> Option<bool> {
    let score = Score::swiss(games)?;
    let change = Change::SetScore {
        round: 1,
        table,
        score,
    };
    alters(event, &change, corrected)
}

/// Whether the fifth has missed the round that the result of its second table completes. It corrects nobody's match.
fn fifth_misses_it(event: &Event) -> Option<bool> {
    let after = [
        totals(3, 1, 6, 3),
        totals(0, 1, 0, 2),
        totals(0, 1, 3, 3),
        totals(3, 1, 6, 2),
        totals(0, 1, 0, 0),
    ];
    let won = Games { x: 2, y: 1, d: 0 };
    let is_late = event.players().last()?.joined == 1;
    let is_open = come_to(event, &[totals(0, 0, 0, 0); 5]);
    let counts = come_to_after(event, 2, won, &after)? && score_alters(event, 2, won, &[false; 5])?;
    Some(is_late && is_open && counts)
}

/// The four of worked example 9 and a fifth who comes while their round is open.
fn five_come_to(alloc: Global) -> Option<bool> {
    let event = with_round(alloc, 4, &[played(4, 2, TWO), played(1, 3, None)])?;
    fifth_misses_it(&with_player(alloc, event, "Ed")?)
}

/// What the change that enrols a fifth makes of that one's totals.
fn fifth_comes_to(event: &Event) -> Option<Totals> {
    totals_after(event, &player("Ed")?, player_at(4)?)
}

/// Whether a correction of the second table corrects a match of its two players only, and the fifth has missed the round.
fn fifth_stays(event: &Event) -> Option<bool> {
    let corrected = Games { x: 0, y: 2, d: 0 };
    let is_set = score_alters(event, 2, corrected, &[true, false, true, false, false])?;
    Some(is_set && event.totals(player_at(4)?) == totals(0, 1, 0, 0))
}

/// The same with a fifth who comes after the round.
fn five_come_to_later(alloc: Global) -> Option<bool> {
    let event = with_round(alloc, 4, &[played(4, 2, TWO), played(1, 3, TWO_ONE)])?;
    let is_counted = fifth_comes_to(&event) == Some(totals(0, 1, 0, 0));
    let event = with_player(alloc, event, "Ed")?;
    Some(is_counted && fifth_stays(&event) == Some(true))
}

#[test]
fn a_missed_round_counts_once_it_is_complete(rt: HostRuntime) -> Result<(), Fail> {
    assert_eq!(rt; five_come_to(rt.alloc()), Some(true));
    assert_eq!(rt; five_come_to_later(rt.alloc()), Some(true));
    Ok(())
}
