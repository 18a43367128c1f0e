//! Desks over commands, a line each, whose words are separated by spaces.
ghost use Rattle.std.specs.Prelude.{◌≡◌, ◌≤◌, false};

use crate::events::name;
use er_desk::{Desk, Reply};
use er_event::{Command, Event, Games, Items, Refusal};
use er_store::Store;
use sqlite::{Alter, Connection, MemStore};
use std::alloc::Global;

/// Ana, Bo, Cy and Di; the first round is (4,2), (1,3).
pub const FOUR: &str = "\
enrol Ana
enrol Bo
enrol Cy
enrol Di
start
pair 1
";

/// Ana, Bo and Cy: the first round is (2,1) and a bye for 3, the second (2,3) and a bye for 1.
pub const THREE: &str = "\
enrol Ana
enrol Bo
enrol Cy
start
pair 1
result 1 1 2 0 0
pair 2
";

fn enrol(alloc: Global, name: &str) -> Option<Command> {
    let name = Items::from(Vec::from_slice(alloc, name.as_bytes()).ok()?);
    Some(Command::Enrol { name })
}

fn games(words: &[&str]) -> Option<Games> {
    match words {
        [x, y, d] => Some(Games {
            x: x.parse().ok()?,
            y: y.parse().ok()?,
            d: d.parse().ok()?,
        }),
        _ => None,
    }
}

/// Parses words as a round, a table and games.
fn score_of(words: &[&str]) -> Option<(u8, u16, Games)> {
    match words {
        [round, table, score @ ..] => {
            let score = games(score)?;
            Some((round.parse().ok()?, table.parse().ok()?, score))
        }
        _ => None,
    }
}

fn result(words: &[&str]) -> Option<Command> {
    let (round, table, score) = score_of(words)?;
    Some(Command::Result {
        round,
        table,
        score,
    })
}

fn correct(words: &[&str]) -> Option<Command> {
    let (round, table, score) = score_of(words)?;
    Some(Command::Correct {
        round,
        table,
        score,
    })
}

fn playoff(words: &[&str]) -> Option<Command> {
    let (stage, slot, score) = score_of(words)?;
    Some(Command::Playoff {
        stage,
        slot: u8::try_from(slot).ok()?,
        score,
    })
}

/// Parses words as a command on a match.
fn score_command(words: &[&str]) -> Option<Command> {
    let (first, words) = words.split_first()?;
    match *first {
        "result" => result(words),
        "correct" => correct(words),
        "playoff" => playoff(words),
        _ => None,
    }
}

/// Parses words as a command. A round is paired under the key of zeros.
fn command_of(alloc: Global, words: &[&str]) -> Option<Command> {
    match words {
        ["enrol", name] => enrol(alloc, name),
        ["start"] => Some(Command::Start),
        ["pair", round] => Some(Command::Pair {
            round: round.parse().ok()?,
            seed: [0; 32],
        }),
        ["drop", player] => Some(Command::Drop {
            player: player.parse().ok()?,
        }),
        ["cut"] => Some(Command::Cut),
        _ => score_command(words),
    }
}

/// The command of a line, whose words are separated by spaces.
pub fn command(alloc: Global, line: &str) -> Option<Command> {
    let words: Vec<&str> = line.split(' ').collect(alloc).ok()?;
    command_of(alloc, &words)
}

/// The commands of a text, a line each.
pub fn commands(alloc: Global, lines: &str) -> Option<Vec<Command>> {
    let mut commands = Vec::new(alloc);
    for line in lines.lines() {
        commands.push(command(alloc, line)?).ok()?;
    }
    Some(commands)
}

/// A desk over a new event named Friday.
pub fn new_desk<S: Alter + Drop>(
    alloc: Global,
    conn: Connection<S>,
    rounds: u8,
    cut: u8,
) -> Option<Desk<S>>
    requires { conn.in_transaction ≡ false }
{
    let friday = name("Friday")?;
    Desk::create(alloc, conn, friday, rounds, cut).ok()
}

/// What a desk answers to the command of a line.
pub fn submit<S: Alter>(alloc: Global, desk: &mut Desk<S>, line: &str) -> Option<Reply> {
    let command = command(alloc, line)?;
    Some(desk.submit(alloc, command))
}

/// Whether a desk takes these commands, a line each.
pub fn takes(alloc: Global, desk: &mut Desk<MemStore>, lines: &str) -> bool {
    lines
        .lines()
        .all(|line| matches!(submit(alloc, desk, line), Some(Ok(_))))
}

/// A desk in memory that took these commands, a line each.
pub fn desk_after(alloc: Global, rounds: u8, cut: u8, lines: &str) -> Option<Desk<MemStore>> {
    let conn = Connection::open_in_memory(alloc).ok()?;
    let mut desk = new_desk(alloc, conn, rounds, cut)?;
    if takes(alloc, &mut desk, lines) {
        Some(desk)
    } else {
        None
    }
}

/// A desk over new tables of version 1, of an event named Friday, or why there is none.
pub fn old_desk<S: Alter + Drop>(
    alloc: Global,
    conn: Connection<S>,
    rounds: u8,
    cut: u8,
) -> Result<Desk<S>, Refusal>
    requires mode { conn.in_transaction ≡ false }
    requires few { rounds ≤ 9 }
{
    let Some(friday) = name("Friday") else {
        return Err(Refusal::BadName);
    };
    let event = Event::create(alloc, friday, rounds, cut)?;
    match Store::create_old(conn, &event) {
        Ok(store) => match Desk::adopt(alloc, store.into_connection()) {
            Ok(desk) => Ok(desk),
            Err((_conn, why)) => Err(why),
        },
        Err((_conn, why)) => Err(why),
    }
}
