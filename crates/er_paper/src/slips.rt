ghost use Rattle.std.specs.Prelude.{◌≡◌, Err, IfOk, Some, None, option_map};
ghost use Rattle.std.specs.String.{string_bytes};
ghost use Rattle.serde_json.specs.Written.{compact_text};
ghost use Rattle.serde_json.specs.View.{view, members_view};
ghost use Rattle.er_paper.specs.Slip.{games_data, score_data, side_data, second_data, slip_with, slip_data, slip_text};
ghost use Rattle.er_paper.specs.Slip.{number_of_games, three_values, games_in, slip_games};

use er_event::{Games, Name, PlayerNo, Score, SlipRow};
use serde_json::{Map, Value, json};
use std::alloc::{AllocError, Global};
use thiserror::Error;

/// Why bytes aren't a slip.
#[derive(Clone, Copy, Debug, PartialEq, Eq, Error)]
pub enum SlipFault {
    #[error("the bytes are no slip")]
    Bad,
    #[error("out of memory")]
    Memory,
}

fn games_value(alloc: Global, games: Games) -> Result<Value, AllocError>
    ensures { IfOk result (λ v. view v ≡ games_data games) }
{
    json!(in alloc; {"a": games.x, "b": games.y, "d": games.d})
}

fn score_value(alloc: Global, score: Option<Score>) -> Result<Value, AllocError>
    ensures { IfOk result (λ v. view v ≡ score_data score) }
{
    match score {
        Some(score) => games_value(alloc, score.games()),
        None => Ok(Value::Null),
    }
}

fn player_value(alloc: Global, number: u16, name: &str) -> Result<Value, AllocError>
    ensures { IfOk result (λ v. view v ≡ side_data (number, name.now)) }
{
    json!(in alloc; {"name": name, "no": number})
}

fn side_value(alloc: Global, side: &(PlayerNo, Name)) -> Result<Value, AllocError>
    ensures { IfOk result (λ v. view v ≡ side_data side.now) }
{
    player_value(alloc, side.0.get(), side.1.as_str())
}

fn second_value(alloc: Global, side: &Option<(PlayerNo, Name)>) -> Result<Value, AllocError>
    ensures { IfOk result (λ v. view v ≡ second_data side.now) }
{
    match side {
        Some(side) => side_value(alloc, side),
        None => Ok(Value::Null),
    }
}

fn slip_value(
    alloc: Global,
    round: u8,
    first: &Value,
    score: &Value,
    second: &Value,
    table: u16,
) -> Result<Value, AllocError>
    ensures { IfOk result (λ v. view v
        ≡ slip_with round (view first.now) (view score.now) (view second.now) table) }
{
    json!(in alloc; {"first": first, "round": round, "score": score, "second": second, "table": table})
}

fn slip_string(alloc: Global, row: &SlipRow) -> Result<String, AllocError>
    ensures { IfOk result (λ text. string_bytes text ≡ slip_text row.now) }
{
    let first = side_value(alloc, &row.first)?;
    let score = score_value(alloc, row.score)?;
    let second = second_value(alloc, &row.second)?;
    let slip = slip_value(alloc, row.round, &first, &score, &second, row.table)?;
    slip.to_string(alloc)
}

/// The slip of a match as JSON.
pub fn slip_json(alloc: Global, row: &SlipRow) -> Result<Vec<u8>, AllocError>
    ensures { IfOk result (λ text. text.items ≡ slip_text row.now) }
{
    Ok(slip_string(alloc, row)?.into_bytes())
}

fn byte_of(value: &Value) -> Option<u8>
    ensures { result ≡ number_of_games (view value.now) }
{
    u8::try_from(value.as_u64()?).ok()
}

/// The values of a map that has just the keys `a`, `b` and `d`.
fn three_values(map: &Map<String, Value>) -> Option<(&Value, &Value, &Value)>
    ensures { option_map (λ it. (view it.0.now, view it.1.now, view it.2.now)) result
        ≡ three_values (members_view map.now.entries) }
{
    let mut members = map.iter();
    let (a, x) = members.next()?;
    let (b, y) = members.next()?;
    let (d, z) = members.next()?;
    if members.next().is_some() || a.as_str() != "a" || b.as_str() != "b" || d.as_str() != "d" {
        return None;
    }
    Some((x, y, z))
}

fn games_in(value: &Value) -> Option<Games>
    ensures { result ≡ games_in (view value.now) }
{
    let (x, y, d) = three_values(value.as_object()?)?;
    Some(Games {
        x: byte_of(x)?,
        y: byte_of(y)?,
        d: byte_of(d)?,
    })
}

/// Reads the games of a slip that is handed in: an object with exactly the keys `a`, `b` and `d`, each a whole number from 0 to 255.
pub fn read_slip(alloc: Global, bytes: &[u8]) -> Result<Games, SlipFault>
    ensures ok { IfOk result (λ games. slip_games bytes.now ≡ Some games) }
    ensures bad { result ≡ Err SlipFault.Bad → slip_games bytes.now ≡ None }
{
    match Value::from_slice(alloc, bytes) {
        Ok(value) => games_in(&value).ok_or(SlipFault::Bad),
        Err(error) => Err(if error.is_memory() {
            SlipFault::Memory
        } else {
            SlipFault::Bad
        }),
    }
}
