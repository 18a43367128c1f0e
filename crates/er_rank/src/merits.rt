ghost use Rattle.std.specs.Prelude.{List};
ghost use Rattle.er_event.specs.declared.totals.Totals.{Totals};
ghost use Rattle.er_rank.specs.Meeting.{IsRecord};
ghost use Rattle.er_rank.specs.inside.Merit.{AreOpponents, IsMerit};

use crate::opponents::{Opponents, game_win};
use er_event::Totals;
use er_share::Share;
use std::cmp::Reverse;

/// What decides where a player stands, one after the other, the greater first: match points, opponents' match-win,
/// own game-win and opponents' game-win percentage.
#[derive(Clone, Copy, PartialEq, Eq, PartialOrd, Ord)]
pub struct Merit {
    pub points: Reverse<u8>,
    pub omw: Reverse<Share>,
    pub gwp: Reverse<Share>,
    pub ogw: Reverse<Share>,
}

/// The merit of a player whose matches come to this, and who met these opponents.
pub fn merit_of(own: Totals, opponents: Opponents) -> Merit
    requires { IsRecord own }
    ensures { (met : List Totals) → AreOpponents opponents met → IsMerit own met result }
{
    Merit {
        points: Reverse(own.points),
        omw: Reverse(opponents.match_win.average()),
        gwp: Reverse(game_win(own)),
        ogw: Reverse(opponents.game_win.average()),
    }
}
