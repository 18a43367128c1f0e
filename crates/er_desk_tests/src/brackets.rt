ghost use Rattle.er_bracket.specs.Winners.{IsWon};

use er_bracket::{first_stage, next_stage};
use er_event::{Games, Match, PlayerNo, Score};
use std::alloc::Global;
use std::test::Fail;

fn players(alloc: Global, numbers: &[u16]) -> Result<Vec<PlayerNo>, Fail> {
    let mut players = Vec::new(alloc);
    for number in numbers {
        players.push(PlayerNo::try_new(*number).ok_or("no player's number")?)?;
    }
    Ok(players)
}

/// Whether these players meet, two in each slot, the first-named one first, and have no score.
fn are_open(matches: &[Match], players: &[u16]) -> bool {
    let mut left = players;
    for slot in matches {
        let [a, b, later @ ..] = left else {
            return false;
        };
        if slot.a != *a || slot.b != *b || slot.score.is_some() {
            return false;
        }
        left = later;
    }
    left.is_empty()
}

/// Whether the first stage of these players has these slots.
fn begins_with(alloc: Global, numbers: &[u16], slots: &[u16]) -> Result<bool, Fail> {
    let seeds = players(alloc, numbers)?;
    let count = seeds.len();
    if count == 2 || count == 4 || count == 8 {
        let stage = first_stage(alloc, seeds.as_slice())?;
        return Ok(are_open(stage.as_slice(), slots));
    }
    Ok(false)
}

#[test]
fn two_seeds(rt: HostRuntime) -> Result<(), Fail> {
    assert!(rt; begins_with(rt.alloc(), &[7, 3], &[7, 3])?);
    Ok(())
}

#[test]
fn four_seeds(rt: HostRuntime) -> Result<(), Fail> {
    let slots = [5, 3, 6, 1];
    assert!(rt; begins_with(rt.alloc(), &[5, 6, 1, 3], &slots)?);
    Ok(())
}

/// Worked example 26.
#[test]
fn eight_seeds(rt: HostRuntime) -> Result<(), Fail> {
    let seeds = [11, 12, 13, 14, 15, 16, 17, 18];
    let slots = [11, 18, 14, 15, 12, 17, 13, 16];
    assert!(rt; begins_with(rt.alloc(), &seeds, &slots)?);
    Ok(())
}

/// A match that the first-named player won.
fn won(a: u16, b: u16) -> Match
    ensures { IsWon result }
{
    let score = Score::playoff(Games { x: 2, y: 0, d: 0 });
    Match { a, b, score }
}

/// Worked example 26: the first-named player of each slot has won.
#[test]
fn four_winners(rt: HostRuntime) -> Result<(), Fail> {
    let stage = [won(11, 18), won(14, 15), won(12, 17), won(13, 16)];
    let next = next_stage(rt.alloc(), &stage)?;
    assert!(rt; are_open(next.as_slice(), &[11, 14, 12, 13]));
    Ok(())
}
