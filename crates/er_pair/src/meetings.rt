ghost use Rattle.std.specs.Prelude.{◌≡◌, ℕ, ◌<◌, ◌≤◌, ◌||◌, length, IsFalse, IsOk, IfOk, MatchOption};
ghost use Rattle.er_event.specs.Round.{are_pair};
ghost use Rattle.er_pair.specs.Met.{have_met, has_met};
ghost use Rattle.er_pair.specs.inside.Opponents.{HasMetNobody};
ghost use Rattle.er_pair.specs.inside.Places.{has_place};

use crate::places::{Places, empty_rows};
use er_event::{Event, MAX_PLAYERS};
use std::alloc::{AllocError, Global};
use std::marker::Model;

/// How many numbers there are: 0 for the bye, and those of 512 players.
pub const NUMBERS: usize = MAX_PLAYERS as usize + 1;

/// Who has met whom, by number; 0 stands for the bye.
#[derive(Debug, Drop)]
pub struct Met {
    /// For each number, those that it has met.
    rows: Vec<Places>,
}

impl Model for Met {
    ghost use Rattle.std.specs.Prelude.{ℕ, List};
    ghost use Rattle.er_pair.specs.inside.Opponents.{opponents_in, IsTable};

    ghost Value = { List (List ℕ) };

    ghost view = { λ m. opponents_in m.rows.items };

    ghost invariant = { λ m. IsTable m.rows.items };
}

impl Met {
    /// Nobody has met anybody.
    #[tactic(auto, using(crate::proofs::Opponents::met_by_place))]
    pub fn empty(alloc: Global) -> Result<Met, AllocError>
        ensures { IfOk result (λ met. (p q : ℕ) → IsFalse (has_met met p q)) }
    {
        Ok(Met {
            rows: empty_rows(alloc, NUMBERS)?,
        })
    }

    /// Who has met in the stored matches, complete or not; a bye is a match with 0.
    pub fn of(alloc: Global, event: &Event) -> Result<Met, AllocError>
        ensures { IfOk result (λ met. has_met met ≡ have_met event.now) }
    {
        let mut met = Met::empty(alloc)?;
        for round in event.stored() {
            for table in round.matches.as_slice() {
                met.add(table.a, table.b)?;
            }
        }
        Ok(met)
    }

    /// Whether the two have met. No number above 512 has met anybody.
    #[tactic(auto, using(crate::proofs::Opponents::met_by_place))]
    pub fn has(&self, one: u16, other: u16) -> bool
        ensures value { result ≡ has_met self.now one other }
        ensures symmetric { result ≡ has_met self.now other one }
        ensures few { MAX_PLAYERS < one → IsFalse result }
    {
        let (row, column) = (usize::from(one), usize::from(other));
        row < NUMBERS && column < NUMBERS && self.rows[row].has(column)
    }

    /// From now on the two have met. It takes no memory.
    pub fn add(&mut self, one: u16, other: u16) -> Result<(), AllocError>
        requires one { one ≤ MAX_PLAYERS }
        requires other { other ≤ MAX_PLAYERS }
        ensures taken { IsOk result }
        ensures added { (p q : ℕ)
            → has_met self.new p q ≡ (has_met self.old p q || are_pair one other p q) }
    {
        let (row, column) = (usize::from(one), usize::from(other));
        self.rows[row].insert(column);
        self.rows[column].insert(row);
        Ok(())
    }

    /// Those that a number has met, if it is at most 512.
    #[tactic(auto, using(crate::proofs::Opponents::met_by_place))]
    pub(crate) fn row(&self, number: u16) -> Option<&Places>
        ensures { MatchOption result (HasMetNobody self.now number) (λ row. (number < NUMBERS)
            × ((p : ℕ) → p < NUMBERS → has_met self.now p number ≡ has_place row.now p)) }
    {
        self.rows.get(usize::from(number))
    }
}
