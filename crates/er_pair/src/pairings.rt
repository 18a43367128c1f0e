ghost use Rattle.std.specs.Prelude.{◌≡◌, ◌≢◌, ◌⊎◌, ◌↔◌, ℕ, List, ◌<◌, ◌≤◌, ◌%◌, length, All, AllPairs, IsPermutation, IsFalse, IfOk, Err};
ghost use Rattle.er_pair.specs.Met.{has_met};
ghost use Rattle.er_pair.specs.Pairing.{Pair, positions, IsLegal, IsEarliest, entries};
ghost use Rattle.er_pair.specs.Steps.{NeedsMore};

use crate::dead_ends::no_dead_ends;
use crate::meetings::Met;
use crate::places::{Cursor, Places};
use crate::search::{Outcome, search};
use crate::seats::by_position;
use er_event::{MAX_PLAYERS, Refusal};
use std::alloc::{AllocError, Global};
use thiserror::Error;

/// How many candidates a search for a pairing may look at.
pub const MAX_STEPS: u32 = 1_000_000;

/// Why there is no pairing.
#[derive(Clone, Copy, Debug, PartialEq, Eq, Error)]
pub enum PairFault {
    /// There is no legal pairing.
    #[error("there is no legal pairing")]
    NoPairing,
    /// The search would take more than these steps.
    #[error("no pairing was found in {steps} steps")]
    Budget { steps: u32 },
    /// Memory ran out.
    #[error("out of memory")]
    Memory,
}

impl From<AllocError> for PairFault {
    ghost use Rattle.std.specs.Prelude.{◌≡◌};
    ghost use Rattle.er_pair.specs.declared.pairings.PairFault.TheVariants.{Memory};

    ghost from_gives = { λ _ fault. fault ≡ Memory };

    fn from(_error: AllocError) -> PairFault {
        PairFault::Memory
    }
}

impl From<PairFault> for Refusal {
    ghost use Rattle.std.specs.Prelude.{◌≡◌};
    ghost use Rattle.er_pair.specs.Fault.{pair_refusal};

    ghost from_gives = { λ fault why. why ≡ pair_refusal fault };

    fn from(fault: PairFault) -> Refusal {
        match fault {
            PairFault::NoPairing => Refusal::NoPairing,
            PairFault::Budget { steps } => Refusal::Budget { steps },
            PairFault::Memory => Refusal::Memory,
        }
    }
}

/// The entries at the positions.
fn entries_at(
    alloc: Global,
    order: &[u16],
    pairs: &[(usize, usize)],
) -> Result<Vec<(u16, u16)>, AllocError>
    requires { All (λ pair. (pair.0 < length order.now) × (pair.1 < length order.now)) pairs.now }
    ensures { IfOk result (λ found. found.items ≡ entries order.now pairs.now) }
{
    let mut found = Vec::with_capacity(alloc, pairs.len())?;
    for (first, second) in pairs {
        found.push((order[*first], order[*second]))?;
    }
    Ok(found)
}

/// The earliest legal pairing of an order: its pairs of entries, in their order. In a legal pairing each position stands once, each
/// pair opens with the least position not yet used, and no two that are paired have met; the earlier of two has the smaller partner
/// in the first pair in which they differ. The entries are distinct, each at most 512, and 0, for the bye, stands only as the last.
/// `Budget` comes if more than a million candidates would have to be looked at. The search goes as deep as there are tables.
pub fn first_pairing(alloc: Global, order: &[u16], met: &Met) -> Result<Vec<(u16, u16)>, PairFault>
    requires few { length order.now ≤ MAX_PLAYERS }
    requires even { length order.now % 2 ≡ 0 }
    ensures earliest { IfOk result (λ found. (pairs : List Pair)
        × IsEarliest (has_met met.now) order.now pairs
        × (found.items ≡ entries order.now pairs)) }
    ensures seated { IfOk result (λ found. IsPermutation order.now (positions found.items)) }
    ensures new_opponents { IfOk result
        (λ found. All (λ pair. IsFalse (has_met met.now pair.0 pair.1)) found.items) }
    ensures none { result ≡ Err PairFault.NoPairing → (pairs : List Pair)
        → IsLegal (has_met met.now) order.now pairs → ⊥ }
    ensures budget { (result ≡ Err PairFault.Memory)
        ⊎ ((result ≡ Err (PairFault.Budget MAX_STEPS))
        ↔ NeedsMore (has_met met.now) order.now MAX_STEPS) }
    ensures steps { (steps : ℕ) → result ≡ Err (PairFault.Budget steps) → steps ≡ 1000000 }
    ensures short { (steps : ℕ) → length order.now ≤ 14 → result ≢ Err (PairFault.Budget steps) }
    ensures fresh { (fault : PairFault) → AllPairs (λ p q. IsFalse (has_met met.now p q)) order.now
        → result ≡ Err fault → fault ≡ PairFault.Memory }
{
    let rows = by_position(alloc, order, met)?;
    let mut pairs = vec![in alloc; (0, 0); order.len() / 2]?;
    let list = pairs.as_mut_slice();
    let mut kept = no_dead_ends(alloc)?;
    let mut used = Places::empty();
    let mut steps = MAX_STEPS;
    let ahead = Cursor::before_all(&used);
    match search(
        rows.as_slice(),
        &mut used,
        ahead,
        list,
        &mut steps,
        kept.as_mut_slice(),
    ) {
        Outcome::Paired => Ok(entries_at(alloc, order, list)?),
        Outcome::DeadEnd => Err(PairFault::NoPairing),
        Outcome::OutOfSteps => Err(PairFault::Budget { steps: MAX_STEPS }),
    }
}
