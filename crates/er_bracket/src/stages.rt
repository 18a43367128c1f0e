ghost use Rattle.std.specs.Prelude.{◌≡◌, ◌⊎◌, length, All, IfOk};
ghost use Rattle.er_event.specs.Bracket.{open_match, next_stage};
ghost use Rattle.er_bracket.specs.Winners.{IsWon};
ghost use Rattle.er_bracket.specs.Seeds.{first_stage};

use er_event::{Items, Match, PlayerNo};
use std::alloc::{AllocError, Global};

fn open_match(a: u16, b: u16) -> Match
    ensures { result ≡ open_match a b }
{
    Match { a, b, score: None }
}

/// A slot of the first stage.
fn slot(better: PlayerNo, other: PlayerNo) -> Match
    ensures { result ≡ open_match better other }
{
    open_match(better.get(), other.get())
}

/// The matches of the first stage by slot, of 2, 4 or 8 players in the order of their seeds.
pub fn first_stage(alloc: Global, seeds: &[PlayerNo]) -> Result<Items<Match>, AllocError>
    requires { (length seeds.now ≡ 2) ⊎ (length seeds.now ≡ 4) ⊎ (length seeds.now ≡ 8) }
    ensures { IfOk result (λ stage. stage ≡ first_stage seeds.now) }
{
    let slots = match seeds {
        [one, two] => Vec::from_slice(alloc, &[slot(*one, *two)])?,
        [one, two, three, four] => Vec::from_slice(
            alloc,
            &[slot(*one, *four), slot(*two, *three)],
        )?,
        [one, two, three, four, five, six, seven, eight] => Vec::from_slice(
            alloc,
            &[
                slot(*one, *eight),
                slot(*four, *five),
                slot(*two, *seven),
                slot(*three, *six),
            ],
        )?,
        _ => unreachable!(),
    };
    Ok(Items::from(slots))
}

/// The matches of the stage after this one, by slot. This one has 2 or 4 matches, each of which somebody won.
pub fn next_stage(alloc: Global, matches: &[Match]) -> Result<Items<Match>, AllocError>
    requires slots { (length matches.now ≡ 2) ⊎ (length matches.now ≡ 4) }
    requires won { All IsWon matches.now }
    ensures { IfOk result (λ stage. stage ≡ next_stage matches.now) }
{
    let mut next = Items::new(alloc);
    let mut rest = matches;
    while let [first, second, later @ ..] = rest {
        next.push(open_match(first.winner(), second.winner()))?;
        rest = later;
    }
    Ok(next)
}
