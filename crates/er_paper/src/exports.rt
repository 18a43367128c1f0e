ghost use Rattle.std.specs.Prelude.{◌≡◌, ◌+◌, ◌^◌, ◌<◌, ◌++◌, ◌∷◌, ℕ, [], IfOk, OnOk, map};
ghost use Rattle.er_paper.specs.Csv.{csv_text};
ghost use Rattle.csv.specs.Writing.{default_writer, row_text};
ghost use Rattle.er_paper.specs.inside.Writer.{IsPlainWriter, written_bytes};
ghost use Rattle.er_paper.specs.Tables.{player_fields, players_csv, result_fields, round_table, rounds_table, results_csv};

use crate::pairings::table_at;
use csv::{Writer, WriterBuilder};
use er_event::{Event, Match, Player, Round};
use std::alloc::{AllocError, Global};

fn push_fields(table: &mut Writer<Vec<u8>>, fields: &[&[u8]]) -> Result<(), AllocError>
    requires { IsPlainWriter table.old }
    ensures plain { OnOk result (IsPlainWriter table.new) }
    ensures text { OnOk result (written_bytes table.new ≡ written_bytes table.old
        ++ row_text default_writer (map (λ f. f.now) fields.now)) }
{
    match table.write_fields(fields) {
        Ok(()) => Ok(()),
        Err(_) => Err(AllocError),
    }
}

fn push_player(
    table: &mut Writer<Vec<u8>>,
    alloc: Global,
    player: &Player,
) -> Result<(), AllocError>
    requires { IsPlainWriter table.old }
    ensures plain { OnOk result (IsPlainWriter table.new) }
    ensures text { OnOk result (written_bytes table.new ≡ written_bytes table.old
        ++ row_text default_writer (player_fields player.now)) }
{
    let number = format!(in alloc; "{}", player.no.get())?;
    let flag = if player.dropped { "1" } else { "0" };
    let fields = [
        number.as_bytes(),
        player.name.as_str().as_bytes(),
        flag.as_bytes(),
    ];
    push_fields(table, &fields)
}

/// Returns the text that was written.
fn finish(table: Writer<Vec<u8>>) -> Result<Vec<u8>, AllocError>
    requires { IsPlainWriter table }
    ensures { IfOk result (λ text. text.items ≡ written_bytes table) }
{
    match table.into_inner() {
        Ok(text) => Ok(text),
        Err(_) => Err(AllocError),
    }
}

/// The players by number, under a heading.
pub fn players_csv(alloc: Global, event: &Event) -> Result<Vec<u8>, AllocError>
    ensures { IfOk result (λ text. text.items ≡ players_csv event.now) }
{
    let mut table = WriterBuilder::new().from_writer(Vec::new(alloc));
    let heading: [&[u8]; 3] = [b"no", b"name", b"dropped"];
    push_fields(&mut table, &heading)?;
    for player in event.players() {
        push_player(&mut table, alloc, player)?;
    }
    finish(table)
}

/// One row: the match at this place of a round. The score's fields are empty while it is open.
fn push_result(
    table: &mut Writer<Vec<u8>>,
    alloc: Global,
    round: usize,
    place: usize,
    m: &Match,
) -> Result<(), AllocError>
    requires plain { IsPlainWriter table.old }
    requires place { place < 2 ^ 63 }
    ensures plain { OnOk result (IsPlainWriter table.new) }
    ensures text { OnOk result (written_bytes table.new ≡ written_bytes table.old
        ++ row_text default_writer (result_fields round (1 + place, m.now))) }
{
    let number = table_at(place, m);
    let (a, b) = (m.a, m.b);
    let round = format!(in alloc; "{round}")?;
    let number = format!(in alloc; "{number}")?;
    let a = format!(in alloc; "{a}")?;
    let b = format!(in alloc; "{b}")?;
    let Some(score) = m.score else {
        let fields: [&[u8]; 7] = [
            round.as_bytes(),
            number.as_bytes(),
            a.as_bytes(),
            b.as_bytes(),
            b"",
            b"",
            b"",
        ];
        return push_fields(table, &fields);
    };
    let games = score.games();
    let (x, y, d) = (games.x, games.y, games.d);
    let x = format!(in alloc; "{x}")?;
    let y = format!(in alloc; "{y}")?;
    let d = format!(in alloc; "{d}")?;
    let fields = [
        round.as_bytes(),
        number.as_bytes(),
        a.as_bytes(),
        b.as_bytes(),
        x.as_bytes(),
        y.as_bytes(),
        d.as_bytes(),
    ];
    push_fields(table, &fields)
}

fn push_round(
    table: &mut Writer<Vec<u8>>,
    alloc: Global,
    round: usize,
    matches: &[Match],
) -> Result<(), AllocError>
    requires { IsPlainWriter table.old }
    ensures plain { OnOk result (IsPlainWriter table.new) }
    ensures text { OnOk result (written_bytes table.new ≡ written_bytes table.old
        ++ csv_text (round_table round matches.now)) }
{
    for (place, m) in matches.iter().enumerate() {
        push_result(table, alloc, round, place, m)?;
    }
    Ok(())
}

fn push_rounds(
    table: &mut Writer<Vec<u8>>,
    alloc: Global,
    rounds: &[Round],
) -> Result<(), AllocError>
    requires { IsPlainWriter table.old }
    ensures plain { OnOk result (IsPlainWriter table.new) }
    ensures text { OnOk result (written_bytes table.new ≡ written_bytes table.old
        ++ csv_text (rounds_table 1 rounds.now)) }
{
    for (place, round) in rounds.iter().enumerate() {
        push_round(table, alloc, place + 1, round.matches.as_slice())?;
    }
    Ok(())
}

/// The Swiss matches by round, then tables 1, 2, .. and then the bye, under a heading.
pub fn results_csv(alloc: Global, event: &Event) -> Result<Vec<u8>, AllocError>
    ensures { IfOk result (λ text. text.items ≡ results_csv event.now) }
{
    let mut table = WriterBuilder::new().from_writer(Vec::new(alloc));
    let heading: [&[u8]; 7] = [b"round", b"table", b"a", b"b", b"x", b"y", b"d"];
    push_fields(&mut table, &heading)?;
    push_rounds(&mut table, alloc, event.stored())?;
    finish(table)
}
