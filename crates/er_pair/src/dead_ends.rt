ghost use Rattle.std.specs.Prelude.{◌<◌, List, length, IfOk, IfSome};
ghost use Rattle.er_pair.specs.inside.Search.{IsDeadAhead, AreDeadEnds};
ghost use Rattle.er_pair.specs.declared.places.Places.{Places};
ghost use Rattle.er_pair.specs.declared.places.TheConstants.{WORDS};

use crate::places::{Cursor, Places};
use std::alloc::{AllocError, Global};

/// How many dead ends are kept at once.
const KEPT: usize = 1024;

/// Where a search found no legal pairing, and the steps that it took. With no place left in the word it stands for none.
#[derive(Clone, Copy)]
pub struct KnownDeadEnd {
    index: usize,
    left: u64,
    steps: u32,
}

/// Room for the dead ends of a search.
pub fn no_dead_ends(alloc: Global) -> Result<Vec<KnownDeadEnd>, AllocError>
    ensures { IfOk result (λ kept. (rows : List Places) → AreDeadEnds rows kept.items) }
{
    vec![in alloc; KnownDeadEnd {
        index: 0,
        left: 0,
        steps: 0
    }; KEPT]
}

/// Where a dead end with these places of its word is kept. The last entries of an order are the upper bits, so those of the product count.
fn slot(left: u64, count: usize) -> usize
    requires { 0 < count }
    ensures { result < count }
{
    (left.wrapping_mul(0x9e37_79b9_7f4a_7c15) >> 54) as usize % count
}

/// The steps that a search from here takes, if it is known to be a dead end.
pub fn steps_of(kept: &[KnownDeadEnd], ahead: Cursor) -> Option<u32>
    requires { 0 < length kept.now }
    ensures { IfSome result (λ steps. (rows : List Places) (used : Places) → AreDeadEnds rows kept.now
        → IsDeadAhead rows used ahead steps) }
{
    let found = &kept[slot(ahead.left, kept.len())];
    if ahead.left != 0 && found.left == ahead.left && found.index == ahead.index {
        Some(found.steps)
    } else {
        None
    }
}

/// Keeps a dead end of which all places lie in the last word: there it doesn't depend on what is used in other words.
pub fn keep(kept: &mut [KnownDeadEnd], rows: &[Places], ahead: Cursor, steps: u32)
    requires word { ahead.index < WORDS }
    requires known { AreDeadEnds rows.now kept.old }
    requires dead { (used : Places) × IsDeadAhead rows.now used ahead steps }
    ensures { AreDeadEnds rows.now kept.new }
{
    if 64 * (ahead.index + 1) < rows.len() {
        return;
    }
    kept[slot(ahead.left, kept.len())] = KnownDeadEnd {
        index: ahead.index,
        left: ahead.left,
        steps,
    };
}
