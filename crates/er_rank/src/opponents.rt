ghost use Rattle.std.specs.Prelude.{◌≡◌, ◌+◌, ◌<◌, ◌≤◌, ℕ, List, [], ◌∷◌, ◌++◌, IfOk, length, count_by};
ghost use Rattle.er_share.specs.declared.TheConstants.{MAX_ROUNDS};
ghost use Rattle.er_event.specs.declared.totals.Totals.{Totals};
ghost use Rattle.er_share.specs.Share.{IsShareOf, IsBase};
ghost use Rattle.er_rank.specs.Meeting.{Encounter, encounters, IsRecord, AreEncounters};
ghost use Rattle.er_rank.specs.inside.Merit.{AreOpponents};
ghost use Rattle.er_rank.specs.inside.Opponents.{AreOpponentsOf, HasRoom};
ghost use Rattle.er_rank.specs.Tally.{IsKnown, match_win_of, game_win_of};

use er_event::{Meeting, PlayerNo, Totals};
use er_share::{GameRecord, MatchRecord, Mean, Share, gwp, mwp};
use std::alloc::{AllocError, Global};

/// The match-win percentage.
pub fn match_win(totals: Totals) -> Share
    requires { IsRecord totals }
    ensures value { IsShareOf result (match_win_of totals) }
    ensures base { IsBase result }
{
    mwp(MatchRecord::try_new(totals.points, totals.rounds).unwrap())
}

/// The game-win percentage.
pub fn game_win(totals: Totals) -> Share
    requires { IsRecord totals }
    ensures value { IsShareOf result (game_win_of totals) }
    ensures base { IsBase result }
{
    gwp(GameRecord::try_new(totals.game_points, totals.games as u8).unwrap())
}

/// The averages over a player's opponents.
#[derive(Clone, Copy)]
pub struct Opponents {
    pub match_win: Mean,
    pub game_win: Mean,
}

impl Opponents {
    fn none() -> Opponents
        ensures { AreOpponents result [] }
    {
        Opponents {
            match_win: Mean::none(),
            game_win: Mean::none(),
        }
    }

    /// With one opponent more.
    fn with(self, totals: Totals) -> Opponents
        requires record { IsRecord totals }
        requires room { (before : List Totals) × AreOpponents self before
            × (length before < MAX_ROUNDS) }
        ensures { (before : List Totals) → AreOpponents self before
            → AreOpponents result (before ++ totals ∷ []) }
    {
        Opponents {
            match_win: self.match_win.with(match_win(totals)),
            game_win: self.game_win.with(game_win(totals)),
        }
    }
}

/// Adds to a player an opponent whose matches come to this.
fn meet(opponents: &mut [Opponents], player: PlayerNo, totals: Totals)
    requires known { IsKnown (length opponents.old) player }
    requires record { IsRecord totals }
    requires room { HasRoom opponents.old player }
    ensures { (before : List Encounter) → AreOpponentsOf before opponents.old
        → AreOpponentsOf (before
        ++ record { player = player; opponent = totals } ∷ []) opponents.new }
{
    let at = usize::from(player.get()) - 1;
    opponents[at] = opponents[at].with(totals);
}

/// The opponents of each of `players` players, by number.
pub fn opponents_of(
    alloc: Global,
    meetings: &[Meeting],
    players: usize,
) -> Result<Vec<Opponents>, AllocError>
    requires { AreEncounters players (encounters meetings.now) }
    ensures count { IfOk result (λ list. length list.items ≡ players) }
    ensures value { IfOk result (λ list. AreOpponentsOf (encounters meetings.now) list.items) }
{
    let mut opponents = vec![in alloc; Opponents::none(); players]?;
    for meeting in meetings {
        meet(&mut opponents, meeting.lo, meeting.hi_totals);
        meet(&mut opponents, meeting.hi, meeting.lo_totals);
    }
    Ok(opponents)
}
