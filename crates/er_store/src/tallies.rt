ghost use Rattle.std.specs.Prelude.{◌≡◌, ◌≤◌, ℕ, min, max, Option, Some, map, IfSome, IfOk, IfErr, MatchResult};
ghost use Rattle.er_event.specs.declared.players.Player.{Player};
ghost use Rattle.er_event.specs.declared.players.TheConstants.{MAX_PLAYERS};
ghost use Rattle.er_event.specs.declared.matches.Match.{Match};
ghost use Rattle.er_event.specs.declared.tallies.Tally.{Tally};
ghost use Rattle.er_event.specs.Event.{EventValue};
ghost use Rattle.er_event.specs.Rows.{flag, player_row, player_rows, tally_row, tally_rows};
ghost use Rattle.er_event.specs.Sound.{IsSoundButForSeeds};
ghost use Rattle.er_event.specs.Tallies.{tally_by, tallies, meeting_by, meetings};
ghost use Rattle.er_event.specs.Totals.{totals};
ghost use Rattle.er_store.specs.Fault.{IsReadFault, IsListFault};
ghost use Rattle.er_store.specs.inside.Meetings.{meeting_rows, open_round, is_outside, complete_rows, sides_in, sides_of};
ghost use Rattle.er_store.specs.{Calls.OrFails, inside.Looking.{OnlyLooks, FindsBy}};
ghost use Rattle.er_store.specs.Representing.{Represents, RepresentsIn};

use crate::faults::{BAD_ROW, refusal_of};
use crate::reading::{read_meetings, read_table};
use crate::rows::MeetingRow;
use er_event::{Meeting, PlayerRow, Refusal, Tally, TallyRow, read_flag, read_tally};
use sqlite::{Alter, Connection};
use std::alloc::{AllocError, Global};

/// The tally of a player, by the rows of the player and of the totals.
fn tally_of(player: &PlayerRow, row: &TallyRow) -> Option<Tally>
    ensures value { IfSome result (λ tally. (row.now ≡ tally_row tally.no tally.totals)
        × (player.now.no ≡ row.now.no) × (player.now.dropped ≡ flag tally.dropped)) }
    ensures event { (e : EventValue) (p : Player) → IsSoundButForSeeds e → 1 ≤ p.no
        → p.no ≤ MAX_PLAYERS → player.now ≡ player_row p → row.now ≡ tally_row p.no (totals e p.no)
        → result ≡ Some (tally_by (totals e) p) }
{
    let (no, totals) = read_tally(row)?;
    let dropped = read_flag(player.dropped)?;
    if player.no == row.no {
        Some(Tally {
            no,
            totals,
            dropped,
        })
    } else {
        None
    }
}

/// The tallies of these players, by the rows of their totals.
fn tallies_of(
    alloc: Global,
    players: &[PlayerRow],
    rows: &[TallyRow],
) -> Result<Vec<Tally>, Refusal>
    ensures rows { IfOk result (λ list. map (λ t. tally_row t.no t.totals) list.items ≡ rows.now) }
    ensures event { (e : EventValue) → IsSoundButForSeeds e → players.now ≡ player_rows e
        → rows.now ≡ tally_rows e
        → MatchResult result (λ list. list.items ≡ tallies e) (λ why. why ≡ Refusal.Memory) }
    ensures fault { IfErr result IsListFault }
{
    if players.len() != rows.len() {
        return Err(BAD_ROW);
    }
    let mut tallies = Vec::with_capacity(alloc, rows.len())?;
    for (at, player) in players.iter().enumerate() {
        let Some(tally) = tally_of(player, &rows[at]) else {
            return Err(BAD_ROW);
        };
        tallies.push(tally).map_err(AllocError::from)?;
    }
    Ok(tallies)
}

/// The two players of a match with their totals, by the rows of these.
fn meeting_of(row: &MeetingRow) -> Option<Meeting>
    ensures value { IfSome result (λ meeting. sides_of meeting ≡ sides_in row.now) }
    ensures event { (e : EventValue) (m : Match) → IsSoundButForSeeds e → 1 ≤ min m.a m.b
        → max m.a m.b ≤ MAX_PLAYERS → sides_in row.now ≡ sides_of (meeting_by (totals e) m)
        → result ≡ Some (meeting_by (totals e) m) }
{
    let (lo, lo_totals) = read_tally(&row.lo)?;
    let (hi, hi_totals) = read_tally(&row.hi)?;
    Some(Meeting {
        lo,
        hi,
        lo_totals,
        hi_totals,
    })
}

/// The round of the first match without a score, if there is one.
fn open_round(rows: &[MeetingRow]) -> Option<i64>
    ensures { result ≡ open_round rows.now }
{
    rows.iter().find(|row| row.done == 0).map(|row| row.round)
}

/// Whether a match isn't of the open round.
fn is_outside(row: &MeetingRow, unfinished: Option<i64>) -> bool
    ensures { result ≡ is_outside unfinished row.now }
{
    match unfinished {
        Some(round) => row.round != round,
        None => true,
    }
}

/// The meetings of the complete rounds.
fn meetings_of(alloc: Global, rows: &[MeetingRow]) -> Result<Vec<Meeting>, Refusal>
    ensures rows { IfOk result (λ list. map sides_of list.items
        ≡ map sides_in (complete_rows rows.now)) }
    ensures event { (e : EventValue) → IsSoundButForSeeds e → rows.now ≡ meeting_rows e
        → MatchResult result (λ list. list.items ≡ meetings e) (λ why. why ≡ Refusal.Memory) }
    ensures fault { IfErr result IsListFault }
{
    let unfinished = open_round(rows);
    let mut meetings = Vec::new(alloc);
    for row in rows {
        if is_outside(row, unfinished) {
            let Some(meeting) = meeting_of(row) else {
                return Err(BAD_ROW);
            };
            meetings.push(meeting).map_err(AllocError::from)?;
        }
    }
    Ok(meetings)
}

/// Finds the tallies of the players, by number, in tables of this version.
pub fn find_tallies<S: Alter>(
    alloc: Global,
    conn: &mut Connection<S>,
    version: u8,
) -> Result<Vec<Tally>, Refusal>
    ensures looks { OnlyLooks S.Store conn.old result conn.new }
    ensures found { FindsBy S.Store (RepresentsIn version)
        (λ e s. OrFails (λ list. list.items ≡ tallies e)) conn.old result conn.new }
    ensures fault { IfErr result IsReadFault }
{
    let players = match read_table::<PlayerRow, S>(alloc, conn, version) {
        Ok(players) => players,
        Err(error) => return Err(refusal_of(error)),
    };
    let rows = match read_table::<TallyRow, S>(alloc, conn, version) {
        Ok(rows) => rows,
        Err(error) => return Err(refusal_of(error)),
    };
    tallies_of(alloc, players.as_slice(), rows.as_slice())
}

/// Finds who met whom in the complete rounds, by round and table, by one statement.
pub fn find_meetings<S: Alter>(
    alloc: Global,
    conn: &mut Connection<S>,
) -> Result<Vec<Meeting>, Refusal>
    ensures looks { OnlyLooks S.Store conn.old result conn.new }
    ensures found { FindsBy S.Store Represents (λ e s. OrFails (λ list. list.items ≡ meetings e))
        conn.old result conn.new }
    ensures fault { IfErr result IsReadFault }
{
    match read_meetings(alloc, conn) {
        Ok(rows) => meetings_of(alloc, rows.as_slice()),
        Err(error) => Err(refusal_of(error)),
    }
}
