ghost use Rattle.std.specs.Prelude.{◌≡◌, ◌||◌, IsTrue, Some, None, if◌then◌else◌};
ghost use Rattle.er_event.specs.Score.{games_text, is_swiss_score, is_playoff_score};

use std::fmt;
use std::marker::Model;

/// Games won by the first-named player, games won by the second, and drawn games, as they were handed in.
#[derive(Clone, Copy, Debug, PartialEq, Eq)]
pub struct Games {
    pub x: u8,
    pub y: u8,
    pub d: u8,
}

/// The games of a match, lawful in a Swiss round or in the playoff.
#[derive(Clone, Copy, Debug, PartialEq, Eq)]
pub struct Score {
    games: Games,
}

impl Model for Score {
    ghost use Rattle.std.specs.Prelude.{IsTrue, ◌||◌};
    ghost use Rattle.er_event.specs.declared.scores.Games.{Games};
    ghost use Rattle.er_event.specs.Score.{is_swiss_score, is_playoff_score};

    ghost Value = { Games };

    ghost view = { λ s. s.games };

    ghost invariant = { λ s. IsTrue (is_swiss_score s.games || is_playoff_score s.games) };

    ghost inverse = { λ games. record { games = games } };
}

impl Score {
    /// A score of a Swiss match: at most two games won by each and not two by both, at most three drawn.
    pub fn swiss(games: Games) -> Option<Score>
        ensures { result ≡ (if is_swiss_score games then Some games else None) }
    {
        if games.x <= 2 && games.y <= 2 && !(games.x == 2 && games.y == 2) && games.d <= 3 {
            Some(Score { games })
        } else {
            None
        }
    }

    /// A score of a playoff match: at most three games won by each, one of the two more, at most three drawn.
    pub fn playoff(games: Games) -> Option<Score>
        ensures { result ≡ (if is_playoff_score games then Some games else None) }
    {
        if games.x <= 3 && games.y <= 3 && games.x != games.y && games.d <= 3 {
            Some(Score { games })
        } else {
            None
        }
    }

    pub fn games(self) -> Games
        ensures { result ≡ self }
    {
        self.games
    }
}

impl fmt::Display for Score {
    ghost output = { λ score. Some (games_text score) };

    fn fmt<W: fmt::Write>(&self, f: &mut fmt::Formatter<W>) -> fmt::Result {
        let Games { x, y, d } = self.games;
        write!(f, "{x}-{y}-{d}")
    }
}

/// Whether the score is lawful in a Swiss round.
pub(crate) fn is_swiss(score: Score) -> bool
    ensures { result ≡ is_swiss_score score }
{
    Score::swiss(score.games()).is_some()
}

/// Whether the score is lawful in the playoff.
pub(crate) fn is_playoff(score: Score) -> bool
    ensures { result ≡ is_playoff_score score }
{
    Score::playoff(score.games()).is_some()
}
