ghost use Rattle.std.specs.Prelude.{◌≡◌, ◌≢◌, ◌↔◌, ◌+◌, ◌<◌, ◌≤◌, ℕ, pos, List, [], ◌∷◌, ◌++◌, Some, None, Err, IsTrue, IsFalse, IfSome};
ghost use Rattle.std.specs.Prelude.{IfOk, MatchResult, All, map, take, length};
ghost use Rattle.std.specs.List.{prefix_len, range_with_len};
ghost use Rattle.er_event.specs.declared.players.TheConstants.{MAX_PLAYERS};
ghost use Rattle.er_event.specs.Sound.{AreRounds};
ghost use Rattle.er_event.specs.declared.matches.Match.{Match};
ghost use Rattle.er_event.specs.declared.rounds.Round.{Round};
ghost use Rattle.er_event.specs.declared.refusals.Place.{Place};
ghost use Rattle.er_event.specs.Rows.{pairing_row, keyed_round_rows, keyed_rows_from};
ghost use Rattle.er_event.specs.Round.{is_bye, table_of};
ghost use Rattle.er_event.specs.Score.{is_swiss_score};
ghost use Rattle.er_event.specs.Match.{MayStand};
ghost use Rattle.er_share.specs.declared.TheConstants.{MAX_ROUNDS};
ghost use Rattle.er_event.specs.Pairings.{FitsRow, AreTables, FitRows, table_rows, is_of};

use super::event::Setup;
use crate::events::{PartsFault, Phase};
use crate::items::Items;
use crate::matches::{Match, may_stand};
use crate::refusals::Place;
use crate::rounds::{Round, are_counted, are_rounds};
use crate::scores::{Games, Score};
use er_share::MAX_ROUNDS;
use std::alloc::{AllocError, Global};

/// A row of the table `pairing`.
#[derive(Clone, Copy, PartialEq, Eq)]
pub struct PairingRow {
    pub round: i64,
    pub tab: i64,
    pub lo: i64,
    pub hi: i64,
    pub swapped: i64,
    pub done: i64,
    pub x: i64,
    pub y: i64,
    pub d: i64,
}

impl PairingRow {
    /// The row of a match at a table of a round.
    pub fn of(round: u8, table: usize, played: &Match) -> PairingRow
        requires { table < 9223372036854775808 }
        ensures { result ≡ pairing_row round (table, played.now) }
    {
        let games = played.games();
        PairingRow {
            round: i64::from(round),
            tab: table_of(table, played) as i64,
            lo: i64::from(played.a.min(played.b)),
            hi: i64::from(played.a.max(played.b)),
            swapped: i64::from(played.b < played.a),
            done: i64::from(played.score.is_some()),
            x: i64::from(games.x),
            y: i64::from(games.y),
            d: i64::from(games.d),
        }
    }
}

const DAMAGED: PartsFault = PartsFault::Damaged(Place::PairingTable);

fn score_of(row: &PairingRow) -> Option<Option<Score>>
    ensures { (round : ℕ) (n : ℕ × Match) → FitsRow n.1 → row.now ≡ pairing_row round n
        → result ≡ Some n.1.score }
{
    match row.done {
        0 => Some(None),
        1 => {
            let x = u8::try_from(row.x).ok()?;
            let y = u8::try_from(row.y).ok()?;
            let d = u8::try_from(row.d).ok()?;
            Some(Some(Score::swiss(Games { x, y, d })?))
        }
        _ => None,
    }
}

/// Reads the two players, the first-named one first.
fn players_of(row: &PairingRow) -> Option<(u16, u16)>
    ensures { (round : ℕ) (n : ℕ × Match) → FitsRow n.1 → row.now ≡ pairing_row round n
        → result ≡ Some (n.1.a, n.1.b) }
{
    let lo = u16::try_from(row.lo).ok()?;
    let hi = u16::try_from(row.hi).ok()?;
    if row.swapped == 0 {
        Some((lo, hi))
    } else {
        Some((hi, lo))
    }
}

/// Reads a row as the match that it can be of, if it is one.
fn possible_match(row: &PairingRow) -> Option<Match>
    ensures { (round : ℕ) (n : ℕ × Match) → FitsRow n.1 → row.now ≡ pairing_row round n
        → result ≡ Some n.1 }
{
    let (a, b) = players_of(row)?;
    let score = score_of(row)?;
    Some(Match { a, b, score })
}

/// The number that stands in a row for the table. A bye has none.
fn table_of(table: usize, played: &Match) -> usize
    ensures { result ≡ table_of (table, played.now) }
{
    if played.is_bye() { 0 } else { table }
}

/// Reads the match that a row has at this table of a round.
fn read_match(round: u8, table: usize, row: &PairingRow) -> Option<Match>
    requires { table < 9223372036854775808 }
    ensures value { IfSome result (λ m. row.now ≡ pairing_row round (table, m)) }
    ensures exact { (m : Match) → FitsRow m → row.now ≡ pairing_row round (table, m)
        → result ≡ Some m }
{
    let played = possible_match(row)?;
    if PairingRow::of(round, table, &played) == *row {
        Some(played)
    } else {
        None
    }
}

/// Reads the match that a row has at this table of a round, which is 0 for a bye, if such a match may be stored.
pub fn match_at_table(round: u8, table: u16, row: &PairingRow) -> Option<Match>
    ensures value { IfSome result (λ m. (row.now ≡ pairing_row round (table, m))
        × MayStand table m) }
    ensures exact { (m : Match) → MayStand table m → row.now ≡ pairing_row round (table, m)
        → result ≡ Some m }
{
    match read_match(round, usize::from(table), row) {
        Some(played) if may_stand(table, &played) => Some(played),
        _ => None,
    }
}

/// Reads the match of two players that a row has at this table.
fn read_table(round: u8, table: usize, row: &PairingRow) -> Option<Match>
    requires { table < 9223372036854775808 }
    ensures value { IfSome result (λ m. (row.now ≡ pairing_row round (table, m))
        × IsFalse (is_bye m)) }
    ensures exact { (m : Match) → FitsRow m → IsFalse (is_bye m)
        → row.now ≡ pairing_row round (table, m) → result ≡ Some m }
{
    match read_match(round, table, row) {
        Some(played) if !played.is_bye() => Some(played),
        _ => None,
    }
}

/// Reads the matches of the tables 1, 2, .. of a round.
fn read_tables(alloc: Global, round: u8, rows: &[PairingRow]) -> Result<Items<Match>, PartsFault>
    ensures value { IfOk result (λ ms. (rows.now ≡ table_rows round 1 ms) × AreTables ms) }
    ensures exact { (ms : List Match) → All FitsRow ms → AreTables ms
        → rows.now ≡ table_rows round 1 ms
        → MatchResult result (λ found. found ≡ ms) (λ why. why ≡ PartsFault.Memory) }
    ensures damaged { (table : Place) → result ≡ Err (PartsFault.Damaged table)
        → table ≡ Place.PairingTable }
{
    let mut matches = Items::new(alloc);
    for (place, row) in rows.iter().enumerate() {
        let Some(played) = read_table(round, place + 1, row) else {
            return Err(DAMAGED);
        };
        matches.push(played)?;
    }
    Ok(matches)
}

/// Reads the bye that a row has.
fn read_bye(round: u8, row: &PairingRow) -> Option<Match>
    ensures value { IfSome result (λ m. (row.now ≡ pairing_row round (0, m)) × IsTrue (is_bye m)) }
    ensures exact { (m : Match) → FitsRow m → IsTrue (is_bye m) → row.now ≡ pairing_row round (0, m)
        → result ≡ Some m }
{
    match read_match(round, 0, row) {
        Some(played) if played.is_bye() => Some(played),
        _ => None,
    }
}

/// Reads the matches of a round with a bye, which stands last.
fn read_with_bye(
    alloc: Global,
    round: u8,
    bye: &PairingRow,
    tables: &[PairingRow],
) -> Result<Items<Match>, PartsFault>
    ensures value { IfOk result (λ ms. bye.now ∷ tables.now ≡ keyed_round_rows round ms) }
    ensures exact { (ms : List Match) (b : Match) → All FitsRow ms → AreTables ms → FitsRow b
        → IsTrue (is_bye b) → bye.now ≡ pairing_row round (0, b)
        → tables.now ≡ table_rows round 1 ms
        → MatchResult result (λ found. found ≡ ms ++ b ∷ []) (λ why. why ≡ PartsFault.Memory) }
    ensures damaged { (table : Place) → result ≡ Err (PartsFault.Damaged table)
        → table ≡ Place.PairingTable }
{
    let Some(bye) = read_bye(round, bye) else {
        return Err(DAMAGED);
    };
    let mut matches = read_tables(alloc, round, tables)?;
    matches.push(bye)?;
    Ok(matches)
}

/// Whether the row of a match is that of a bye.
fn is_bye_row(row: &PairingRow) -> bool
    ensures { (r n : ℕ) (m : Match) → row.now ≡ pairing_row r (n + 1, m) → result ≡ is_bye m }
{
    row.tab == 0
}

/// Reads the matches of a round from these rows, of which a bye's comes first.
fn read_round(alloc: Global, round: u8, rows: &[PairingRow]) -> Result<Items<Match>, PartsFault>
    ensures value { IfOk result (λ ms. rows.now ≡ keyed_round_rows round ms) }
    ensures exact { (ms : List Match) → FitRows ms → rows.now ≡ keyed_round_rows round ms
        → MatchResult result (λ found. found ≡ ms) (λ why. why ≡ PartsFault.Memory) }
    ensures damaged { (table : Place) → result ≡ Err (PartsFault.Damaged table)
        → table ≡ Place.PairingTable }
{
    if rows.is_empty() || !is_bye_row(&rows[0]) {
        return read_tables(alloc, round, rows);
    }
    read_with_bye(alloc, round, &rows[0], &rows[1..])
}

/// How many rows at the start are of this round.
fn rows_of_round(rows: &[PairingRow], round: u8) -> usize
    ensures { result ≡ prefix_len (is_of round) rows.now }
{
    rows.iter()
        .take_while(|row| row.round == i64::from(round))
        .count()
}

/// Reads the matches of the round whose rows come first, and counts these rows.
fn read_next(
    alloc: Global,
    round: u8,
    rows: &[PairingRow],
) -> Result<(Items<Match>, usize), PartsFault>
    ensures value { IfOk result (λ it. (take it.1 rows.now ≡ keyed_round_rows round it.0)
        × (0 < it.1) × (it.1 ≤ length rows.now)) }
    ensures exact { (ms : List Match) (later : List Round) → FitRows ms
        → All (λ (r : Round). FitRows r.matches) later
        → rows.now ≡ keyed_round_rows round ms ++ keyed_rows_from (round + 1) later
        → MatchResult result (λ it. (it.0 ≡ ms)
        × (it.1 ≡ length (keyed_round_rows round ms))) (λ why. why ≡ PartsFault.Memory) }
    ensures damaged { (table : Place) → result ≡ Err (PartsFault.Damaged table)
        → table ≡ Place.PairingTable }
{
    let count = rows_of_round(rows, round);
    if count == 0 {
        return Err(DAMAGED);
    }
    let matches = read_round(alloc, round, &rows[..count])?;
    Ok((matches, count))
}

/// Reads the rounds of these rows, in the order of their key.
fn read_rounds(alloc: Global, rows: &[PairingRow]) -> Result<Vec<Round>, PartsFault>
    ensures value { IfOk result (λ rounds. rows.now ≡ keyed_rows_from 1 rounds.items) }
    ensures exact { (rounds : List Round) → All (λ (r : Round). FitRows r.matches) rounds
        → length rounds ≤ MAX_ROUNDS → rows.now ≡ keyed_rows_from 1 rounds
        → MatchResult result (λ found. found.items ≡ rounds) (λ why. why ≡ PartsFault.Memory) }
    ensures damaged { (table : Place) → result ≡ Err (PartsFault.Damaged table)
        → table ≡ Place.PairingTable }
{
    let mut rounds: Vec<Round> = Vec::new(alloc);
    let mut read = 0;
    while read < rows.len() {
        if rounds.len() >= usize::from(MAX_ROUNDS) {
            return Err(DAMAGED);
        }
        let round = rounds.len() as u8 + 1;
        let (matches, count) = read_next(alloc, round, &rows[read..])?;
        rounds.push(Round { matches }).map_err(AllocError::from)?;
        read += count;
    }
    Ok(rounds)
}

/// Whether the rounds may be those of an event that is set up so, with `count` players.
fn suits(setup: &Setup, count: u16, rounds: &[Round]) -> bool
    ensures { IsTrue result
        ↔ AreRounds setup.now.phase setup.now.rounds (range_with_len 1 count) rounds.now }
{
    let limit = usize::from(setup.rounds);
    if rounds.len() > limit {
        return false;
    }
    if !are_rounds(count, rounds) {
        return false;
    }
    match setup.phase {
        Phase::Enrolling => rounds.is_empty(),
        Phase::Swiss => true,
        Phase::Playoff | Phase::Finished => rounds.len() == limit && are_counted(rounds),
    }
}

/// Reads the rounds of these rows, if they may be those of an event that is set up so, with `count` players.
pub fn read_stored(
    alloc: Global,
    setup: &Setup,
    count: u16,
    rows: &[PairingRow],
) -> Result<Vec<Round>, PartsFault>
    requires players { count ≤ MAX_PLAYERS }
    requires limit { setup.now.rounds ≤ MAX_ROUNDS }
    ensures value { IfOk result (λ rounds. (rows.now ≡ keyed_rows_from 1 rounds.items)
        × AreRounds setup.now.phase setup.now.rounds (range_with_len 1 count) rounds.items) }
    ensures only { IfOk result (λ rounds. (others : List Round)
        → AreRounds setup.now.phase setup.now.rounds (range_with_len 1 count) others
        → rows.now ≡ keyed_rows_from 1 others → others ≡ rounds.items) }
    ensures damaged { (table : Place) → result ≡ Err (PartsFault.Damaged table)
        → (table ≡ Place.PairingTable)
        × ((rounds : List Round)
        → AreRounds setup.now.phase setup.now.rounds (range_with_len 1 count) rounds
        → rows.now ≢ keyed_rows_from 1 rounds) }
{
    let rounds = read_rounds(alloc, rows)?;
    if !suits(setup, count, rounds.as_slice()) {
        return Err(DAMAGED);
    }
    Ok(rounds)
}
