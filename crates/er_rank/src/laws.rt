//! Laws of standings, stated over the definitions only. A law is a function with no code, whose contract is the law.

ghost use Rattle.er_rank.specs.Standings.{HasOneStandings, HasOneTop};

/// A sound event has at most one list of standings.
pub fn one_standings()
    ensures { HasOneStandings }
{}

/// A sound event has at most one list of its first `k` active players.
pub fn one_top()
    ensures { HasOneTop }
{}
