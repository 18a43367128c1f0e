//! Laws of the tables, stated over the definitions only. A law is a function with no code, whose contract is the law.

ghost use Rattle.er_paper.specs.ReadBack.{PlayersReadBack, ResultsReadBack};

/// The table that is written of an event's players is read as those players, in their order.
pub fn players_read_back()
    ensures { PlayersReadBack }
{}

/// The table that is written of an event's matches is read as those matches, in their order.
pub fn results_read_back()
    ensures { ResultsReadBack }
{}
