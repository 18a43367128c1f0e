ghost use Rattle.std.specs.List.Sorted.{IsPermutation, IsSortedBy};
ghost use Rattle.er_pair.specs.inside.Entrant.{is_before};

use std::cmp::Reverse;

/// What decides where a player stands in the order: more match points first, then the smaller key, then the smaller number.
#[derive(Clone, Copy, PartialEq, Eq, PartialOrd, Ord)]
pub struct Entrant {
    pub points: Reverse<u8>,
    pub key: u32,
    pub number: u16,
}

pub fn sort_entrants(entrants: &mut [Entrant])
    ensures same { IsPermutation entrants.old entrants.new }
    ensures sorted { IsSortedBy is_before entrants.new }
{
    entrants.sort_unstable();
}
