ghost use Rattle.std.specs.Prelude.{◌≡◌, IfOk};
ghost use Rattle.er_event.specs.Tallies.{tallies};

use er_event::{Event, Tally};
use std::alloc::{AllocError, Global};

/// The tallies of the players, by number.
pub fn tallies_of(alloc: Global, event: &Event) -> Result<Vec<Tally>, AllocError>
    ensures { IfOk result (λ list. list.items ≡ tallies event.now) }
{
    let players = event.players();
    let all = event.all_totals();
    let mut tallies = Vec::with_capacity(alloc, players.len())?;
    for player in players {
        tallies.push(Tally {
            no: player.no,
            totals: all.of(player),
            dropped: player.dropped,
        })?;
    }
    Ok(tallies)
}
