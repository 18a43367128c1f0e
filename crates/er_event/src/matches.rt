ghost use Rattle.std.specs.Prelude.{◌≡◌, ◌≢◌, ◌↔◌, ◌==◌, ◌||◌, ◌&&◌, nat_le, Some, is_some, flat_map, find, option_map, AllPairs, IsTrue};
ghost use Rattle.std.specs.List.{list_all, range_with_len};
ghost use Rattle.er_event.specs.Bracket.{winner};
ghost use Rattle.er_event.specs.Score.{bye_score};
ghost use Rattle.er_event.specs.Round.{is_bye, is_complete, match_in, seats};
ghost use Rattle.er_event.specs.Rows.{reported_games};
ghost use Rattle.er_event.specs.Match.{is_known, is_lawful_match, MayStand};

use crate::players::MAX_PLAYERS;
use crate::scores::{Games, Score, is_swiss};
use crate::seats::Seats;

/// Two players at one table, or one player with a bye.
#[derive(Clone, Copy, Debug, PartialEq, Eq)]
pub struct Match {
    /// The number of the first-named player.
    pub a: u16,
    /// The number of the second player, or 0 if the first has a bye.
    pub b: u16,
    /// The score, once it is reported.
    pub score: Option<Score>,
}

/// The score of a bye.
pub const BYE: Games = Games { x: 2, y: 0, d: 0 };

impl Match {
    /// The games of the score, all 0 if there is none.
    pub fn games(&self) -> Games
        ensures { result ≡ reported_games self.now.score }
    {
        match self.score {
            Some(score) => score.games(),
            None => Games { x: 0, y: 0, d: 0 },
        }
    }

    /// Whether it is a bye: nobody sits opposite the first player.
    pub fn is_bye(&self) -> bool
        ensures { result ≡ is_bye self.now }
    {
        self.b == 0
    }

    /// The number of the player who won the match, or 0 if it is open.
    pub fn winner(&self) -> u16
        ensures { result ≡ winner self.now }
    {
        match self.score {
            Some(score) => {
                let games = score.games();
                if games.x > games.y { self.a } else { self.b }
            }
            None => 0,
        }
    }
}

/// Whether each match has its score.
pub fn is_complete(matches: &[Match]) -> bool
    ensures { result ≡ is_complete matches.now }
{
    matches.iter().all(|played| played.score.is_some())
}

/// Whether a player has this number, of `count` players who are numbered from 1.
pub(crate) fn is_known(count: u16, number: u16) -> bool
    ensures { result ≡ is_known count number }
{
    (1..=count).contains(&number)
}

/// Whether the match may stand in a Swiss round of `count` players.
fn is_lawful(count: u16, played: &Match) -> bool
    ensures { result ≡ is_lawful_match count played.now }
{
    if !is_known(count, played.a) {
        return false;
    }
    match (played.b, played.score) {
        (0, score) => score.is_some_and(|score| score.games() == BYE),
        (b, None) => is_known(count, b),
        (b, Some(score)) => is_known(count, b) && is_swiss(score),
    }
}

/// Whether a match of two players, or a bye at the table 0, may be stored.
pub(crate) fn may_stand(table: u16, played: &Match) -> bool
    ensures { IsTrue result ↔ MayStand table played.now }
{
    played.a != played.b && played.is_bye() == (table == 0) && is_lawful(MAX_PLAYERS, played)
}

pub(crate) fn are_lawful(count: u16, matches: &[Match]) -> bool
    ensures { result ≡ list_all (is_lawful_match count) matches.now }
{
    matches.iter().all(|played| is_lawful(count, played))
}

/// Whether nobody sits at two tables, or opposite to themself.
pub(crate) fn are_seated_once(matches: &[Match]) -> bool
    ensures { IsTrue result ↔ AllPairs (λ p q. p ≢ q) (flat_map seats matches.now) }
{
    Seats::of(matches).is_some()
}

fn bye_of(matches: &[Match]) -> Option<&Match>
    ensures { option_map (λ m. m.now) result ≡ find is_bye matches.now }
{
    matches.iter().find(|played| played.is_bye())
}

/// The match of this table: tables are numbered by place from 1, and a bye has table 0.
pub(crate) fn match_in(matches: &[Match], table: u16) -> Option<&Match>
    ensures { option_map (λ m. m.now) result ≡ match_in matches.now table }
{
    if table == 0 {
        return bye_of(matches);
    }
    match matches.get(usize::from(table) - 1) {
        Some(played) if !played.is_bye() => Some(played),
        _ => None,
    }
}
