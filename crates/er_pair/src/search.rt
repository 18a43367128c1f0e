ghost use Rattle.std.specs.Prelude.{◌≡◌, ℕ, ◌*◌, ◌<◌, ◌≤◌, length};
ghost use Rattle.er_pair.specs.inside.Places.{has_place};
ghost use Rattle.er_pair.specs.inside.Search.{free_ahead, answer_ahead, SearchAnswers, AreDeadEnds};
ghost use Rattle.er_pair.specs.declared.places.TheConstants.{WORDS};

use crate::dead_ends::{KnownDeadEnd, keep, steps_of};
use crate::places::{Cursor, Places};
use er_event::MAX_PLAYERS;

/// How a search ended.
#[derive(Clone, Copy)]
pub enum Outcome {
    /// The pairs are found.
    Paired,
    /// There is no legal pairing, and the same positions are used as before.
    DeadEnd,
    /// One more step was needed than there were.
    OutOfSteps,
}

/// Pairs the two positions that are free and ahead, if they haven't met.
fn last_pair(
    rows: &[Places],
    used: &Places,
    ahead: Cursor,
    pairs: &mut [(usize, usize)],
    steps: &mut u32,
) -> Outcome
    requires few { length rows.now ≤ MAX_PLAYERS }
    requires word { ahead.index < WORDS }
    requires one { length pairs.old ≡ 1 }
    requires two { length (free_ahead used.now ahead (length rows.now)) ≡ 2 }
    ensures answer { SearchAnswers (answer_ahead rows.now used.now ahead) steps.old pairs.new
        steps.new result }
{
    let mut others = ahead;
    let Some(first) = others.next(used, used, rows.len()) else {
        return Outcome::DeadEnd;
    };
    let Some(partner) = others.next(used, used, rows.len()) else {
        return Outcome::DeadEnd;
    };
    if rows[first].has(partner) {
        return Outcome::DeadEnd;
    }
    if *steps == 0 {
        return Outcome::OutOfSteps;
    }
    *steps -= 1;
    pairs[0] = (first, partner);
    Outcome::Paired
}

/// Finds the earliest legal pairing of the positions that are free and ahead. Each candidate of the first of them in turn is used as
/// its partner, and the others ahead are searched. A candidate that the first hasn't met takes one of the steps; the row of a position
/// tells whom it has met. What is kept as a dead end isn't searched again, and takes the same steps.
pub fn search(
    rows: &[Places],
    used: &mut Places,
    ahead: Cursor,
    pairs: &mut [(usize, usize)],
    steps: &mut u32,
    kept: &mut [KnownDeadEnd],
) -> Outcome
    requires few { length rows.now ≤ MAX_PLAYERS }
    requires word { ahead.index < WORDS }
    requires two_by_two { length (free_ahead used.old ahead (length rows.now))
        ≡ 2 * length pairs.old }
    requires known { AreDeadEnds rows.now kept.old }
    ensures known { AreDeadEnds rows.now kept.new }
    ensures answer { SearchAnswers (answer_ahead rows.now used.old ahead) steps.old pairs.new
        steps.new result }
    ensures as_before { result ≡ Outcome.DeadEnd → (position : ℕ)
        → has_place used.new position ≡ has_place used.old position }
{
    if let Some(count) = steps_of(kept, ahead) {
        if *steps < count {
            return Outcome::OutOfSteps;
        }
        *steps -= count;
        return Outcome::DeadEnd;
    }
    let before = *steps;
    let mut others = ahead;
    let Some(first) = others.next(used, used, rows.len()) else {
        return Outcome::Paired;
    };
    let met = &rows[first];
    let mut candidates = others.without(met);
    while let Some(partner) = candidates.next(met, used, rows.len()) {
        if *steps == 0 {
            return Outcome::OutOfSteps;
        }
        *steps -= 1;
        pairs[0] = (first, partner);
        let rest = others.but(used, partner);
        let more = &mut pairs[1..];
        let found = if more.len() == 1 {
            last_pair(rows, used, rest, more, steps)
        } else {
            search(rows, used, rest, more, steps, kept)
        };
        match found {
            Outcome::DeadEnd => {}
            outcome => return outcome,
        }
        others.give_back(used, partner);
    }
    keep(kept, rows, ahead, before - *steps);
    Outcome::DeadEnd
}
