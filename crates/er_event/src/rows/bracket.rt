ghost use Rattle.std.specs.Prelude.{◌≡◌, ◌≢◌, ◌↔◌, ◌+◌, ◌<◌, ◌≤◌, ℕ, List, ◌++◌, Some, Err, IsTrue, IfSome, IfOk, MatchResult, All, take};
ghost use Rattle.std.specs.Prelude.{length};
ghost use Rattle.std.specs.List.{prefix_len, range_with_len};
ghost use Rattle.er_event.specs.declared.players.TheConstants.{MAX_PLAYERS};
ghost use Rattle.er_event.specs.Sound.{IsPlayoff, AreStages, is_lawful_cut};
ghost use Rattle.er_event.specs.declared.matches.Match.{Match};
ghost use Rattle.er_event.specs.declared.refusals.Place.{Place};
ghost use Rattle.er_event.specs.Rows.{bracket_row, stage_rows, bracket_rows_from};
ghost use Rattle.er_event.specs.inside.Stages.{FitsSlotRow, FitStageRows, is_of_stage};
ghost use Rattle.er_event.specs.declared.rows.bracket.TheConstants.{MAX_STAGES};

use super::event::Setup;
use crate::brackets::{is_bracket, is_decided};
use crate::events::{PartsFault, Phase};
use crate::items::Items;
use crate::matches::Match;
use crate::refusals::Place;
use crate::scores::{Games, Score};
use std::alloc::{AllocError, Global};

/// A row of the table `bracket`.
#[derive(Clone, Copy, PartialEq, Eq)]
pub struct BracketRow {
    pub stage: i64,
    pub slot: i64,
    pub a: i64,
    pub b: i64,
    pub done: i64,
    pub x: i64,
    pub y: i64,
    pub d: i64,
}

impl BracketRow {
    /// The row of a match at a slot of a stage.
    pub fn of(stage: u8, slot: usize, played: &Match) -> BracketRow
        requires { slot < 9223372036854775808 }
        ensures { result ≡ bracket_row stage (slot, played.now) }
    {
        let games = played.games();
        BracketRow {
            stage: i64::from(stage),
            slot: slot as i64,
            a: i64::from(played.a),
            b: i64::from(played.b),
            done: i64::from(played.score.is_some()),
            x: i64::from(games.x),
            y: i64::from(games.y),
            d: i64::from(games.d),
        }
    }
}

const DAMAGED: PartsFault = PartsFault::Damaged(Place::BracketTable);

/// How many stages the bracket of at most 8 players can have.
const MAX_STAGES: u8 = 3;

fn score_of(row: &BracketRow) -> Option<Option<Score>>
    ensures { (stage : ℕ) (n : ℕ × Match) → FitsSlotRow n.1 → row.now ≡ bracket_row stage n
        → result ≡ Some n.1.score }
{
    match row.done {
        0 => Some(None),
        1 => {
            let x = u8::try_from(row.x).ok()?;
            let y = u8::try_from(row.y).ok()?;
            let d = u8::try_from(row.d).ok()?;
            Some(Some(Score::playoff(Games { x, y, d })?))
        }
        _ => None,
    }
}

/// Reads a row as the match that it can be of, if it is one.
fn possible_match(row: &BracketRow) -> Option<Match>
    ensures { (stage : ℕ) (n : ℕ × Match) → FitsSlotRow n.1 → row.now ≡ bracket_row stage n
        → result ≡ Some n.1 }
{
    let a = u16::try_from(row.a).ok()?;
    let b = u16::try_from(row.b).ok()?;
    let score = score_of(row)?;
    Some(Match { a, b, score })
}

/// Reads the match that a row has at this slot of a stage.
fn read_match(stage: u8, slot: usize, row: &BracketRow) -> Option<Match>
    requires { slot < 9223372036854775808 }
    ensures value { IfSome result (λ m. row.now ≡ bracket_row stage (slot, m)) }
    ensures exact { (m : Match) → FitsSlotRow m → row.now ≡ bracket_row stage (slot, m)
        → result ≡ Some m }
{
    let played = possible_match(row)?;
    if BracketRow::of(stage, slot, &played) == *row {
        Some(played)
    } else {
        None
    }
}

/// Reads the matches of the slots 1, 2, .. of a stage.
fn read_slots(alloc: Global, stage: u8, rows: &[BracketRow]) -> Result<Items<Match>, PartsFault>
    ensures value { IfOk result (λ ms. rows.now ≡ stage_rows stage ms) }
    ensures exact { (ms : List Match) → All FitsSlotRow ms → rows.now ≡ stage_rows stage ms
        → MatchResult result (λ found. found ≡ ms) (λ why. why ≡ PartsFault.Memory) }
    ensures damaged { (table : Place) → result ≡ Err (PartsFault.Damaged table)
        → table ≡ Place.BracketTable }
{
    let mut matches = Items::new(alloc);
    for (place, row) in rows.iter().enumerate() {
        let Some(played) = read_match(stage, place + 1, row) else {
            return Err(DAMAGED);
        };
        matches.push(played)?;
    }
    Ok(matches)
}

/// How many rows at the start are of this stage.
fn rows_of_stage(rows: &[BracketRow], stage: u8) -> usize
    ensures { result ≡ prefix_len (is_of_stage stage) rows.now }
{
    rows.iter()
        .take_while(|row| row.stage == i64::from(stage))
        .count()
}

/// Reads the matches of the stage whose rows come first, and counts these rows.
fn read_next(
    alloc: Global,
    stage: u8,
    rows: &[BracketRow],
) -> Result<(Items<Match>, usize), PartsFault>
    ensures value { IfOk result (λ it. (take it.1 rows.now ≡ stage_rows stage it.0) × (0 < it.1)
        × (it.1 ≤ length rows.now)) }
    ensures exact { (ms : List Match) (later : List (List Match)) → FitStageRows ms
        → All FitStageRows later
        → rows.now ≡ stage_rows stage ms ++ bracket_rows_from (stage + 1) later
        → MatchResult result (λ it. (it.0 ≡ ms)
        × (it.1 ≡ length (stage_rows stage ms))) (λ why. why ≡ PartsFault.Memory) }
    ensures damaged { (table : Place) → result ≡ Err (PartsFault.Damaged table)
        → table ≡ Place.BracketTable }
{
    let count = rows_of_stage(rows, stage);
    if count == 0 {
        return Err(DAMAGED);
    }
    let matches = read_slots(alloc, stage, &rows[..count])?;
    Ok((matches, count))
}

/// Reads the stages of these rows, in the order of their key.
fn read_stages(alloc: Global, rows: &[BracketRow]) -> Result<Vec<Items<Match>>, PartsFault>
    ensures value { IfOk result (λ stages. rows.now ≡ bracket_rows_from 1 stages.items) }
    ensures exact { (stages : List (List Match)) → All FitStageRows stages
        → length stages ≤ MAX_STAGES → rows.now ≡ bracket_rows_from 1 stages
        → MatchResult result (λ found. found.items ≡ stages) (λ why. why ≡ PartsFault.Memory) }
    ensures damaged { (table : Place) → result ≡ Err (PartsFault.Damaged table)
        → table ≡ Place.BracketTable }
{
    let mut stages: Vec<Items<Match>> = Vec::new(alloc);
    let mut read = 0;
    while read < rows.len() {
        if stages.len() >= usize::from(MAX_STAGES) {
            return Err(DAMAGED);
        }
        let stage = stages.len() as u8 + 1;
        let (matches, count) = read_next(alloc, stage, &rows[read..])?;
        stages.push(matches).map_err(AllocError::from)?;
        read += count;
    }
    Ok(stages)
}

fn is_playoff(phase: Phase) -> bool
    ensures { IsTrue result ↔ IsPlayoff phase }
{
    matches!(phase, Phase::Playoff | Phase::Finished)
}

/// Whether the stages may be those of an event in the playoff that is set up so, with `count` players.
fn suits(setup: &Setup, count: u16, stages: &[Items<Match>]) -> bool
    requires { IsPlayoff setup.now.phase }
    ensures { IsTrue result
        ↔ AreStages setup.now.phase setup.now.cut (range_with_len 1 count) stages.now }
{
    if !is_bracket(count, setup.cut, stages) {
        return false;
    }
    is_decided(stages) == (setup.phase == Phase::Finished)
}

/// Reads the stages of these rows, if they may be those of an event that is set up so, with `count` players.
pub fn read_bracket(
    alloc: Global,
    setup: &Setup,
    count: u16,
    rows: &[BracketRow],
) -> Result<Vec<Items<Match>>, PartsFault>
    requires players { count ≤ MAX_PLAYERS }
    requires cut { IsTrue (is_lawful_cut setup.now.cut) }
    ensures value { IfOk result (λ stages. (rows.now ≡ bracket_rows_from 1 stages.items)
        × AreStages setup.now.phase setup.now.cut (range_with_len 1 count) stages.items) }
    ensures only { IfOk result (λ stages. (others : List (List Match))
        → AreStages setup.now.phase setup.now.cut (range_with_len 1 count) others
        → rows.now ≡ bracket_rows_from 1 others → others ≡ stages.items) }
    ensures damaged { (table : Place) → result ≡ Err (PartsFault.Damaged table)
        → (table ≡ Place.BracketTable)
        × ((stages : List (List Match))
        → AreStages setup.now.phase setup.now.cut (range_with_len 1 count) stages
        → rows.now ≢ bracket_rows_from 1 stages) }
{
    if !is_playoff(setup.phase) {
        if rows.is_empty() {
            return Ok(Vec::new(alloc));
        }
        return Err(DAMAGED);
    }
    let stages = read_stages(alloc, rows)?;
    if !suits(setup, count, stages.as_slice()) {
        return Err(DAMAGED);
    }
    Ok(stages)
}
