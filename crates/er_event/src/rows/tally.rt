ghost use Rattle.std.specs.Prelude.{◌≡◌, ◌≤◌, ◌↔◌, ℕ, Some, IfSome, IsTrue};
ghost use Rattle.er_event.specs.declared.players.TheConstants.{MAX_PLAYERS};
ghost use Rattle.er_event.specs.declared.totals.Totals.{Totals};
ghost use Rattle.er_event.specs.Event.{EventValue};
ghost use Rattle.er_event.specs.Rows.{tally_row};
ghost use Rattle.er_event.specs.Sound.{IsSoundButForSeeds};
ghost use Rattle.er_event.specs.Tallies.{AreReadable};
ghost use Rattle.er_event.specs.Totals.{totals};

use crate::players::PlayerNo;
use crate::totals::Totals;

/// A row of the table `tally`.
#[derive(Clone, Copy, PartialEq, Eq)]
pub struct TallyRow {
    pub no: i64,
    pub points: i64,
    pub rounds: i64,
    pub gamepoints: i64,
    pub games: i64,
}

impl TallyRow {
    /// The row of a player's totals.
    pub fn of(no: PlayerNo, totals: Totals) -> TallyRow
        ensures { result ≡ tally_row no totals }
    {
        TallyRow {
            no: i64::from(no.get()),
            points: i64::from(totals.points),
            rounds: i64::from(totals.rounds),
            gamepoints: i64::from(totals.game_points),
            games: i64::from(totals.games),
        }
    }
}

/// Reads whose row this is, with the totals in it, if each number is in its range.
pub fn read_tally(row: &TallyRow) -> Option<(PlayerNo, Totals)>
    ensures value { IfSome result (λ it. row.now ≡ tally_row it.0 it.1) }
    ensures exact { (no : ℕ) (t : Totals) → 1 ≤ no → no ≤ MAX_PLAYERS → AreReadable t
        → row.now ≡ tally_row no t → result ≡ Some (no, t) }
    ensures event { (e : EventValue) (no : ℕ) → IsSoundButForSeeds e → 1 ≤ no → no ≤ MAX_PLAYERS
        → row.now ≡ tally_row no (totals e no) → result ≡ Some (no, totals e no) }
{
    let no = u16::try_from(row.no).ok().and_then(PlayerNo::try_new)?;
    let totals = Totals {
        points: u8::try_from(row.points).ok()?,
        rounds: u8::try_from(row.rounds).ok()?,
        game_points: u16::try_from(row.gamepoints).ok()?,
        games: u16::try_from(row.games).ok()?,
    };
    Some((no, totals))
}

/// Whether this is the row of a player's totals.
pub fn is_row_of(row: &TallyRow, no: PlayerNo, totals: Totals) -> bool
    ensures { IsTrue result ↔ (row.now ≡ tally_row no totals) }
{
    *row == TallyRow::of(no, totals)
}
