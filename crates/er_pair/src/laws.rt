//! Laws of orders and of legal pairings, stated over the definitions only. A law is a function with no code, whose contract is the law.

ghost use Rattle.er_pair.specs.Laws.{OneOrder, StandOnce, OneEarliest, LegalSeats, ShortNeeds};

/// Under given keys an event has at most one order.
pub fn one_order()
    ensures { OneOrder }
{}

/// In an order of a sound event nobody stands twice, nor does the bye.
pub fn stand_once()
    ensures { StandOnce }
{}

/// An order has at most one earliest legal pairing.
pub fn one_earliest()
    ensures { OneEarliest }
{}

/// In a legal pairing each entry sits once, no pair has met before, and the first of a pair stands before the second.
pub fn legal_seats()
    ensures { LegalSeats }
{}

/// An order of up to 14 entries needs at most 325,767 steps, whoever has met.
pub fn short_needs()
    ensures { ShortNeeds }
{}
