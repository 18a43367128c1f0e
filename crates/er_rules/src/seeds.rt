ghost use Rattle.std.specs.Prelude.{◌↔◌, IfOk, IsTrue};
ghost use Rattle.er_event.specs.Bracket.{SameSlots};
ghost use Rattle.er_rules.specs.Sound.{HasSeeds};

use er_bracket::first_stage;
use er_event::{Event, Match};
use er_rank::top;
use std::alloc::{AllocError, Global};

/// Whether the same two players meet in each slot, in the same order.
fn same_slots(stage: &[Match], other: &[Match]) -> bool
    ensures { IsTrue result ↔ SameSlots stage.now other.now }
{
    if stage.len() != other.len() {
        return false;
    }
    for (slot, m) in stage.iter().enumerate() {
        if m.a != other[slot].a || m.b != other[slot].b {
            return false;
        }
    }
    true
}

/// Whether there is no playoff, or its first stage has the first active players of the standings as their seeds say.
pub fn seeds_agree(alloc: Global, event: &Event) -> Result<bool, AllocError>
    ensures { IfOk result (λ agree. IsTrue agree ↔ HasSeeds event.now) }
{
    let [first, ..] = event.bracket().stages.as_slice() else {
        return Ok(true);
    };
    let seeds = top(alloc, event, usize::from(event.cut()))?;
    if !matches!(seeds.len(), 2 | 4 | 8) {
        return Ok(false);
    }
    let stage = first_stage(alloc, seeds.as_slice())?;
    Ok(same_slots(first.as_slice(), stage.as_slice()))
}
