ghost use Rattle.std.specs.Prelude.{◌≡◌, ◌↔◌, ℕ, IsTrue, IsFalse, Contains};
ghost use Rattle.er_event.specs.Altered.{may_alter_totals, is_corrected};
ghost use Rattle.er_event.specs.Change.{after, Fits};
ghost use Rattle.er_event.specs.Rows.{tally_rows};
ghost use Rattle.er_event.specs.Sound.{numbers};
ghost use Rattle.er_event.specs.Totals.{totals};

use crate::changes::Change;
use crate::events::Event;
use crate::matches::is_complete;
use crate::players::PlayerNo;
use crate::rows::{TallyRow, is_row_of};
use crate::totals::{Totals, is_complete_with};

/// What a player's matches of the complete rounds come to, as the table of totals keeps it.
#[derive(Clone, Copy, Debug, PartialEq, Eq)]
pub struct Tally {
    pub no: PlayerNo,
    pub totals: Totals,
    /// Whether the player has left the tournament.
    pub dropped: bool,
}

/// Two players who met in a complete round, the one with the lesser number first, and what the matches of each come to.
#[derive(Clone, Copy, Debug, PartialEq, Eq)]
pub struct Meeting {
    pub lo: PlayerNo,
    pub hi: PlayerNo,
    pub lo_totals: Totals,
    pub hi_totals: Totals,
}

impl Event {
    /// Whether these are the rows of the players' totals, by number.
    pub fn has_tallies(&self, rows: &[TallyRow]) -> bool
        ensures { IsTrue result ↔ (rows.now ≡ tally_rows self.now) }
    {
        let players = self.players();
        if rows.len() != players.len() {
            return false;
        }
        let all = self.all_totals();
        for (at, player) in players.iter().enumerate() {
            if !is_row_of(&rows[at], player.no, all.of(player)) {
                return false;
            }
        }
        true
    }

    /// Whether the change may alter totals: the round that it adds, or gives a score, is complete after it.
    pub fn may_alter_totals(&self, change: &Change) -> bool
        requires { Fits self.now change.now }
        ensures value { result ≡ may_alter_totals self.now change.now }
        ensures others { IsFalse result → (player : ℕ) → Contains (numbers self.now.players) player
            → totals (after self.now change.now) player ≡ totals self.now player }
    {
        let stored = self.stored();
        match change {
            Change::AddRound { matches } => is_complete(matches.as_slice()),
            Change::SetScore {
                round,
                table,
                score,
            } => {
                let matches = stored[usize::from(*round) - 1].matches.as_slice();
                is_complete_with(matches, usize::from(*table), *score)
            }
            _ => false,
        }
    }

    /// Whether the change replaces a score of a match of this player.
    pub fn corrects(&self, change: &Change, player: PlayerNo) -> bool
        ensures { result ≡ is_corrected self.now change.now player }
    {
        let Change::SetScore { round, table, .. } = change else {
            return false;
        };
        let Some(played) = self.match_at(*round, *table) else {
            return false;
        };
        played.score.is_some() && (played.a == player.get() || played.b == player.get())
    }
}
