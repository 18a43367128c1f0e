ghost use Rattle.std.specs.Prelude.{◌≡◌, ◌≢◌, ℕ, List, AllPairs, ◌%◌, ◌≤◌, length, map, IfOk};
ghost use Rattle.er_event.specs.Sound.{IsSoundButForSeeds};
ghost use Rattle.er_pair.specs.Order.{active_numbers, AreKeys, IsOrder, seats_of};
ghost use Rattle.er_pair.specs.inside.Entrant.{entrants_of};

use crate::entrants::{Entrant, sort_entrants};
use er_event::{Event, MAX_PLAYERS};
use std::alloc::{AllocError, Global};
use std::cmp::Reverse;

/// The active players by number, each with its match points and its key.
fn entrants(alloc: Global, event: &Event, keys: &[u32]) -> Result<Vec<Entrant>, AllocError>
    requires { length keys.now ≡ length (active_numbers event.now) }
    ensures entrants { IfOk result (λ entrants. entrants.items
        ≡ entrants_of event.now (active_numbers event.now) keys.now) }
    ensures sound { IsSoundButForSeeds event.now }
{
    let players = event.players();
    let all = event.all_totals();
    let mut entrants = Vec::with_capacity(alloc, keys.len())?;
    for player in players {
        if player.dropped {
            continue;
        }
        entrants.push(Entrant {
            points: Reverse(all.of(player).points),
            key: keys[entrants.len()],
            number: player.no.get(),
        })?;
    }
    Ok(entrants)
}

/// The numbers of the entrants, and 0 for the bye if there is an odd number of them.
fn seats(alloc: Global, entrants: &[Entrant]) -> Result<Vec<u16>, AllocError>
    ensures { IfOk result (λ seats. seats.items
        ≡ seats_of (map (λ entrant. entrant.number) entrants.now)) }
{
    let mut seats = Vec::new(alloc);
    for entrant in entrants {
        seats.push(entrant.number)?;
    }
    if entrants.len() % 2 == 1 {
        seats.push(0)?;
    }
    Ok(seats)
}

/// The order in which the players are paired, by number: the active ones, more match points first, then the smaller key, then the
/// smaller number; and 0, for the bye, last if their number is odd. There is a key for each active player, by number.
pub fn order(alloc: Global, event: &Event, keys: &[u32]) -> Result<Vec<u16>, AllocError>
    requires { length keys.now ≡ length (active_numbers event.now) }
    ensures ordered { IfOk result (λ order. (key : ℕ → ℕ) → AreKeys keys.now key
        → IsOrder event.now key order.items) }
    ensures distinct { IfOk result (λ order. AllPairs (λ p q. p ≢ q) order.items) }
    ensures few { IfOk result (λ order. length order.items ≤ MAX_PLAYERS) }
    ensures even { IfOk result (λ order. length order.items % 2 ≡ 0) }
{
    let mut entrants = entrants(alloc, event, keys)?;
    let list = entrants.as_mut_slice();
    sort_entrants(list);
    seats(alloc, list)
}
