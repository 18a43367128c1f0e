ghost use Rattle.std.specs.Prelude.{◌≡◌, ◌≤◌, IfOk, List, length};
ghost use Rattle.std.specs.List.Sorted.{IsSorted};
ghost use Rattle.er_event.specs.declared.players.TheConstants.{MAX_PLAYERS};
ghost use Rattle.er_rank.specs.Meeting.{Encounter, AreTallies};
ghost use Rattle.er_rank.specs.inside.Opponents.{AreOpponentsOf};
ghost use Rattle.er_rank.specs.inside.Placing.{placing_cmp, is_level, row_of, ranked_rows, ArePlacings, ArePlacingsInOrder};

use crate::merits::{Merit, merit_of};
use crate::opponents::Opponents;
use crate::rows::Row;
use er_event::{PlayerNo, Tally};
use std::alloc::{AllocError, Global};

/// Where a player stands: by merit, and then by number.
#[derive(Clone, Copy, PartialEq, Eq, PartialOrd, Ord)]
pub struct Placing {
    pub merit: Merit,
    pub player: PlayerNo,
    pub dropped: bool,
}

impl Placing {
    /// Whether the two are equal on match points and on the three percentages.
    fn is_level_with(&self, other: &Placing) -> bool
        ensures { result ≡ is_level self.now other.now }
    {
        self.merit == other.merit
    }

    fn row(&self, rank: u16) -> Row
        ensures { result ≡ row_of rank self.now }
    {
        Row {
            rank,
            player: self.player,
            points: self.merit.points.0,
            omw: self.merit.omw.0,
            gwp: self.merit.gwp.0,
            ogw: self.merit.ogw.0,
            dropped: self.dropped,
        }
    }
}

fn placings_by_number(
    alloc: Global,
    tallies: &[Tally],
    opponents: &[Opponents],
) -> Result<Vec<Placing>, AllocError>
    requires tallies { AreTallies tallies.now }
    requires each { length opponents.now ≡ length tallies.now }
    ensures { (met : List Encounter) → AreOpponentsOf met opponents.now
        → IfOk result (λ placings. ArePlacings met tallies.now placings.items) }
{
    let mut placings = Vec::with_capacity(alloc, tallies.len())?;
    for (at, tally) in tallies.iter().enumerate() {
        placings.push(Placing {
            merit: merit_of(tally.totals, opponents[at]),
            player: tally.no,
            dropped: tally.dropped,
        })?;
    }
    Ok(placings)
}

/// The placings of the players, in order.
pub fn placings_of(
    alloc: Global,
    tallies: &[Tally],
    opponents: &[Opponents],
) -> Result<Vec<Placing>, AllocError>
    requires tallies { AreTallies tallies.now }
    requires each { length opponents.now ≡ length tallies.now }
    ensures { (met : List Encounter) → AreOpponentsOf met opponents.now
        → IfOk result (λ placings. ArePlacingsInOrder met tallies.now placings.items) }
{
    let mut placings = placings_by_number(alloc, tallies, opponents)?;
    placings.sort_unstable();
    Ok(placings)
}

/// The rows of placings in order.
pub fn rows_of(alloc: Global, placings: &[Placing]) -> Result<Vec<Row>, AllocError>
    requires few { length placings.now ≤ MAX_PLAYERS }
    requires sorted { IsSorted placing_cmp placings.now }
    ensures { IfOk result (λ rows. rows.items ≡ ranked_rows placings.now) }
{
    let mut rows = Vec::with_capacity(alloc, placings.len())?;
    let mut rank = 1;
    for (above, placing) in placings.iter().enumerate() {
        if above > 0 && !placings[above - 1].is_level_with(placing) {
            rank = above as u16 + 1;
        }
        rows.push(placing.row(rank))?;
    }
    Ok(rows)
}
