ghost use Rattle.std.specs.Prelude.{◌≡◌, ◌+◌, ◌^◌, ◌<◌, ◌++◌, OnOk, IfOk, option_map, string_bytes};
ghost use Rattle.er_event.specs.Round.{table_of};
ghost use Rattle.er_paper.specs.Column.{score_text, opponent_name};
ghost use Rattle.er_paper.specs.Texts.{pairing_line, round_text, pairings_text};

use crate::columns::{name_of, push_left};
use er_event::{Event, Match, Score};
use std::alloc::{AllocError, Global};
use std::fmt::Write;

/// The score as it is printed, or `-` if it is open.
fn score_text(alloc: Global, score: Option<Score>) -> Result<String, AllocError>
    ensures { IfOk result (λ text. string_bytes text ≡ score_text score) }
{
    let Some(score) = score else {
        return String::from_str(alloc, "-");
    };
    let games = score.games();
    let (x, y, d) = (games.x, games.y, games.d);
    format!(in alloc; "{x}-{y}-{d}")
}

/// The second player's name, and `bye` for the missing opponent.
fn opponent_name(event: &Event, number: u16) -> &str
    ensures { result.now ≡ opponent_name event.now number }
{
    if number == 0 {
        "bye"
    } else {
        name_of(event, number)
    }
}

/// Appends the line of a match at this table, or in this slot.
pub fn push_pairing(
    alloc: Global,
    text: &mut String,
    event: &Event,
    table: usize,
    m: &Match,
) -> Result<(), AllocError>
    ensures { OnOk result (string_bytes text.new ≡ string_bytes text.old
        ++ pairing_line event.now table m.now) }
{
    let (a, b) = (m.a, m.b);
    write!(text, "{table:>4} {a:>4} {b:>4} ")?;
    let score = score_text(alloc, m.score)?;
    push_left(text, score.as_str(), 5)?;
    let first = name_of(event, a);
    let second = opponent_name(event, b);
    writeln!(text, " {first} - {second}")
}

/// The table of the match at this place, and 0 for a bye.
pub fn table_at(place: usize, m: &Match) -> usize
    requires { place < 2 ^ 63 }
    ensures { result ≡ table_of (1 + place, m.now) }
{
    if m.is_bye() { 0 } else { 1 + place }
}

fn round_text(alloc: Global, event: &Event, matches: &[Match]) -> Result<Vec<u8>, AllocError>
    ensures { IfOk result (λ text. text.items ≡ round_text event.now matches.now) }
{
    let mut text = String::from_str(alloc, " Tab    A    B Score Names\n")?;
    for (place, m) in matches.iter().enumerate() {
        push_pairing(alloc, &mut text, event, table_at(place, m), m)?;
    }
    Ok(text.into_bytes())
}

/// Returns the pairings of a stored round: tables 1, 2, .. and then the bye. `None` if the round isn't stored.
pub fn pairings_text(alloc: Global, event: &Event, round: u8) -> Result<Option<Vec<u8>>, AllocError>
    ensures { IfOk result (λ text. option_map (λ t. t.items) text ≡ pairings_text event.now round) }
{
    if round == 0 {
        return Ok(None);
    }
    match event.stored().get(usize::from(round) - 1) {
        Some(stored) => Ok(Some(round_text(alloc, event, stored.matches.as_slice())?)),
        None => Ok(None),
    }
}
