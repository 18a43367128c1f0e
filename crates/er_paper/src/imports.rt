ghost use Rattle.std.specs.Prelude.{◌≡◌, ◌≢◌, ◌≤◌, ◌++◌, ◌<◌, ◌∷◌, [], Ok, Err, IfOk, IfErr, OnOk, map, codes};
ghost use Rattle.er_paper.specs.Tables.{players_heading, results_heading};
ghost use Rattle.csv.specs.Records.{fields_of};
ghost use Rattle.er_event.specs.declared.players.TheConstants.{MAX_PLAYERS};
ghost use Rattle.er_paper.specs.Reading.{number_within, lawful_player_line, full_line, name_line, lines_from, are_fields};
ghost use Rattle.er_paper.specs.Reading.{ReadsPlayers};
ghost use Rattle.er_paper.specs.Reading.{score_of, result_of, ReadsResults};
ghost use Rattle.er_paper.specs.inside.Lines.{chosen_line};

use crate::numbers::number_within;
use crate::records::{only_field, records, seven_fields, three_fields};
use csv::ByteRecord;
use er_event::{Games, MAX_PLAYERS, MAX_ROUNDS, Name, PlayerNo, Score};
use std::alloc::{AllocError, Global};
use thiserror::Error;

/// Why a table was not read.
#[derive(Clone, Copy, Debug, PartialEq, Eq, Error)]
pub enum CsvFault {
    /// The heading is missing, or another one.
    #[error("the heading is missing, or another one")]
    BadHeading,
    /// The first row that is not as it must be, counted from 1 after the heading.
    #[error("row {row} after the heading is not as it must be")]
    BadRow { row: usize },
    #[error("out of memory")]
    Memory,
}

impl From<AllocError> for CsvFault {
    ghost use Rattle.std.specs.Prelude.{◌≡◌};
    ghost use Rattle.er_paper.specs.declared.imports.CsvFault.TheVariants.{Memory};

    ghost from_gives = { λ _ fault. fault ≡ Memory };

    fn from(_error: AllocError) -> Self {
        CsvFault::Memory
    }
}

/// A player as a row of a table.
#[derive(Clone, Copy)]
pub struct PlayerLine {
    pub no: PlayerNo,
    pub name: Name,
    pub dropped: bool,
}

/// A match as a row of a table. The second player is 0 for a bye.
#[derive(Clone, Copy, Debug, PartialEq, Eq)]
pub struct ResultLine {
    pub round: u8,
    pub table: u16,
    pub a: u16,
    pub b: u16,
    pub score: Option<Score>,
}

/// Which heading a table of players has.
#[derive(Clone, Copy)]
enum Heading {
    Full,
    Names,
}

/// The player of this place, if the name is lawful and there is room.
fn player_line(place: usize, name: &[u8], flag: Option<usize>) -> Option<PlayerLine>
    requires { 1 ≤ place }
    ensures { result ≡ lawful_player_line place name.now flag }
{
    let dropped = flag? == 1;
    let no = u16::try_from(place).ok().and_then(PlayerNo::try_new)?;
    let name = Name::try_from_bytes(name).ok()?;
    Some(PlayerLine { no, name, dropped })
}

fn full_line(place: usize, row: &ByteRecord) -> Option<PlayerLine>
    requires { 1 ≤ place }
    ensures { result ≡ full_line place (fields_of row.now) }
{
    let (number, name, dropped) = three_fields(row)?;
    number_within(place, place, number)?;
    player_line(place, name, number_within(0, 1, dropped))
}

fn name_line(place: usize, row: &ByteRecord) -> Option<PlayerLine>
    requires { 1 ≤ place }
    ensures { result ≡ name_line place (fields_of row.now) }
{
    let name = only_field(row)?;
    player_line(place, name, Some(0))
}

fn line_under(heading: Heading, place: usize, row: &ByteRecord) -> Option<PlayerLine>
    requires { 1 ≤ place }
    ensures { result ≡ chosen_line heading place (fields_of row.now) }
{
    match heading {
        Heading::Full => full_line(place, row),
        Heading::Names => name_line(place, row),
    }
}

/// The lines of the rows after the heading, or the first bad row.
fn player_lines(
    alloc: Global,
    heading: Heading,
    rows: &[ByteRecord],
) -> Result<Vec<PlayerLine>, CsvFault>
    ensures ok { IfOk result (λ lines. lines_from (chosen_line heading) 1 (map fields_of rows.now)
        ≡ Ok lines.items) }
    ensures err { IfErr result (λ fault. fault ≢ CsvFault.Memory
        → lines_from (chosen_line heading) 1 (map fields_of rows.now) ≡ Err fault) }
{
    let mut lines = Vec::new(alloc);
    for (at, row) in rows.iter().enumerate() {
        let line = line_under(heading, at + 1, row).ok_or(CsvFault::BadRow { row: at + 1 })?;
        lines.push(line).map_err(AllocError::from)?;
    }
    Ok(lines)
}

fn is_full_heading(row: &ByteRecord) -> bool
    ensures { result ≡ are_fields (fields_of row.now) players_heading }
{
    match three_fields(row) {
        Some((first, second, third)) => first == b"no".as_slice()
            && second == b"name".as_slice()
            && third == b"dropped".as_slice(),
        None => false,
    }
}

fn is_names_heading(row: &ByteRecord) -> bool
    ensures { result ≡ are_fields (fields_of row.now) (codes "name" ∷ []) }
{
    match only_field(row) {
        Some(field) => field == b"name".as_slice(),
        None => false,
    }
}

/// The players of a table, by number, or the first fault in it.
pub fn read_players_csv(alloc: Global, bytes: &[u8]) -> Result<Vec<PlayerLine>, CsvFault>
    ensures ok { IfOk result (λ lines. ReadsPlayers bytes.now (Ok lines.items)) }
    ensures err { IfErr result (λ fault. fault ≢ CsvFault.Memory
        → ReadsPlayers bytes.now (Err fault)) }
{
    let rows = records(alloc, bytes)?;
    let (first, rows) = rows.as_slice().split_first().ok_or(CsvFault::BadHeading)?;
    if is_full_heading(first) {
        player_lines(alloc, Heading::Full, rows)
    } else if is_names_heading(first) {
        player_lines(alloc, Heading::Names, rows)
    } else {
        Err(CsvFault::BadHeading)
    }
}

fn is_results_heading(row: &ByteRecord) -> bool
    ensures { result ≡ are_fields (fields_of row.now) results_heading }
{
    match seven_fields(row) {
        Some(fields) => fields.round == b"round".as_slice()
            && fields.table == b"table".as_slice()
            && fields.a == b"a".as_slice()
            && fields.b == b"b".as_slice()
            && fields.x == b"x".as_slice()
            && fields.y == b"y".as_slice()
            && fields.d == b"d".as_slice(),
        None => false,
    }
}

fn byte_within(low: usize, high: usize, field: &[u8]) -> Option<u8>
    requires { high < 256 }
    ensures { result ≡ number_within low high field.now }
{
    let number = number_within(low, high, field)?;
    u8::try_from(number).ok()
}

/// Parses a field as a player or a table, from this number on.
fn seat_from(low: usize, field: &[u8]) -> Option<u16>
    ensures { result ≡ number_within low MAX_PLAYERS field.now }
{
    let number = number_within(low, usize::from(MAX_PLAYERS), field)?;
    u16::try_from(number).ok()
}

/// Reads three fields as a score, or as no score if all three are empty.
fn score_of(x: &[u8], y: &[u8], d: &[u8]) -> Option<Option<Score>>
    ensures { result ≡ score_of x.now y.now d.now }
{
    if x.is_empty() && y.is_empty() && d.is_empty() {
        return Some(None);
    }
    let x = byte_within(0, 255, x)?;
    let y = byte_within(0, 255, y)?;
    let d = byte_within(0, 255, d)?;
    let score = Score::swiss(Games { x, y, d })?;
    Some(Some(score))
}

fn result_of(row: &ByteRecord) -> Option<ResultLine>
    ensures { result ≡ result_of (fields_of row.now) }
{
    let fields = seven_fields(row)?;
    let round = byte_within(1, usize::from(MAX_ROUNDS), fields.round)?;
    let table = seat_from(0, fields.table)?;
    let a = seat_from(1, fields.a)?;
    let b = seat_from(0, fields.b)?;
    let score = score_of(fields.x, fields.y, fields.d)?;
    Some(ResultLine {
        round,
        table,
        a,
        b,
        score,
    })
}

/// Pushes a line, given in its parts: the checker covers this push only if the score's type is named beside it.
fn push_result(
    lines: &mut Vec<ResultLine>,
    round: u8,
    table: u16,
    a: u16,
    b: u16,
    score: Option<Score>,
) -> Result<(), AllocError>
    ensures { OnOk result (lines.new.items ≡ lines.old.items
        ++ record { round = round; table = table; a = a; b = b; score = score } ∷ []) }
{
    lines.push(ResultLine {
        round,
        table,
        a,
        b,
        score,
    })?;
    Ok(())
}

/// The lines of the rows after the heading, or the first bad row.
fn result_lines(alloc: Global, rows: &[ByteRecord]) -> Result<Vec<ResultLine>, CsvFault>
    ensures ok { IfOk result (λ lines. lines_from (λ place. result_of) 1 (map fields_of rows.now)
        ≡ Ok lines.items) }
    ensures err { IfErr result (λ fault. fault ≢ CsvFault.Memory
        → lines_from (λ place. result_of) 1 (map fields_of rows.now) ≡ Err fault) }
{
    let mut lines = Vec::new(alloc);
    for (at, row) in rows.iter().enumerate() {
        let line = result_of(row).ok_or(CsvFault::BadRow { row: at + 1 })?;
        push_result(
            &mut lines, line.round, line.table, line.a, line.b, line.score,
        )?;
    }
    Ok(lines)
}

/// The matches of a table, or the first fault in it.
pub fn read_results_csv(alloc: Global, bytes: &[u8]) -> Result<Vec<ResultLine>, CsvFault>
    ensures ok { IfOk result (λ lines. ReadsResults bytes.now (Ok lines.items)) }
    ensures err { IfErr result (λ fault. fault ≢ CsvFault.Memory
        → ReadsResults bytes.now (Err fault)) }
{
    let rows = records(alloc, bytes)?;
    let (first, rows) = rows.as_slice().split_first().ok_or(CsvFault::BadHeading)?;
    if !is_results_heading(first) {
        return Err(CsvFault::BadHeading);
    }
    result_lines(alloc, rows)
}
