ghost use Rattle.std.specs.Prelude.{◌≡◌, ℕ, [], IsErr};
ghost use Rattle.sqlite.specs.State.{HasCleanDisk};
ghost use Rattle.er_event.specs.Event.{EventValue};
ghost use Rattle.er_store.specs.Tables.{player_tree, event, player, player2, players_of, pairing, bracket, tally, no_schema, event_schema};
ghost use Rattle.er_store.specs.Tables.{player_schema, pairing_schema, bracket_schema, tally_schema};
ghost use Rattle.er_store.specs.inside.Steps.{made_players};
ghost use Rattle.er_store.specs.inside.Within.{tx_state, Lends, Achieves, MakesNext};
ghost use Rattle.er_store.specs.inside.Making.{MakesFive};
ghost use Rattle.er_store.specs.inside.Moving.{MayMove, IsMoveBegun};
ghost use Rattle.er_store.specs.Migrated.{IsTaken};

use crate::statements::run;
use sqlite::{Alter, Error, Transaction};

pub const CREATE_EVENT: &str =
    "CREATE TABLE event(id INTEGER PRIMARY KEY CHECK(id = 1), version INTEGER NOT NULL, serial INTEGER NOT NULL, name TEXT NOT NULL, rounds INTEGER NOT NULL, cut INTEGER NOT NULL, phase INTEGER NOT NULL)";

/// Makes the table `event`.
fn create_event<S: Alter>(tx: &mut Transaction<'_, S>) -> Result<(), Error>
    ensures lends { Lends S.Store tx.old tx.new }
    ensures makes { MakesNext S.Store event no_schema event_schema tx.old result tx.new }
{
    run(tx, CREATE_EVENT, &[])
}

pub const CREATE_PLAYER: &str =
    "CREATE TABLE player(no INTEGER PRIMARY KEY, name TEXT NOT NULL UNIQUE, dropped INTEGER NOT NULL)";

/// Makes the table `player` of version 1.
fn create_player<S: Alter>(tx: &mut Transaction<'_, S>) -> Result<(), Error>
    ensures lends { Lends S.Store tx.old tx.new }
    ensures makes { MakesNext S.Store player event_schema (player_schema (player player_tree))
        tx.old result tx.new }
{
    run(tx, CREATE_PLAYER, &[])
}

pub const CREATE_PLAYER2: &str =
    "CREATE TABLE player2(no INTEGER PRIMARY KEY, name TEXT NOT NULL UNIQUE, dropped INTEGER NOT NULL, joined INTEGER NOT NULL)";

/// Makes the table `player2`, in the place of `player` or after the five tables of version 1.
pub fn create_player2<S: Alter>(tx: &mut Transaction<'_, S>) -> Result<(), Error>
    ensures lends { Lends S.Store tx.old tx.new }
    ensures makes { MakesNext S.Store player2 event_schema (player_schema (player2 player_tree))
        tx.old result tx.new }
    ensures moves { (e : EventValue) (s : ℕ) → (may : MayMove (tx_state S.Store tx.old) e s)
        → Achieves S.Store (IsMoveBegun may.represents.layout e s) tx.old result tx.new }
    ensures taken { HasCleanDisk (tx_state S.Store tx.new) → IsTaken (tx_state S.Store tx.old).now
        → IsErr result }
{
    run(tx, CREATE_PLAYER2, &[])
}

pub const CREATE_PAIRING: &str =
    "CREATE TABLE pairing(round INTEGER NOT NULL, tab INTEGER NOT NULL, lo INTEGER NOT NULL, hi INTEGER NOT NULL, swapped INTEGER NOT NULL, done INTEGER NOT NULL, x INTEGER NOT NULL, y INTEGER NOT NULL, d INTEGER NOT NULL, PRIMARY KEY(round, tab), UNIQUE(lo, hi), CHECK(lo < hi))";

/// Makes the table `pairing`.
fn create_pairing<S: Alter>(tx: &mut Transaction<'_, S>) -> Result<(), Error>
    ensures lends { Lends S.Store tx.old tx.new }
    ensures makes { (version : ℕ) → MakesNext S.Store pairing
        (player_schema (made_players version)) (pairing_schema (made_players version))
        tx.old result tx.new }
{
    run(tx, CREATE_PAIRING, &[])
}

pub const CREATE_BRACKET: &str =
    "CREATE TABLE bracket(stage INTEGER NOT NULL, slot INTEGER NOT NULL, a INTEGER NOT NULL, b INTEGER NOT NULL, done INTEGER NOT NULL, x INTEGER NOT NULL, y INTEGER NOT NULL, d INTEGER NOT NULL, PRIMARY KEY(stage, slot))";

/// Makes the table `bracket`.
fn create_bracket<S: Alter>(tx: &mut Transaction<'_, S>) -> Result<(), Error>
    ensures lends { Lends S.Store tx.old tx.new }
    ensures makes { (version : ℕ) → MakesNext S.Store bracket
        (pairing_schema (made_players version)) (bracket_schema (made_players version))
        tx.old result tx.new }
{
    run(tx, CREATE_BRACKET, &[])
}

pub const CREATE_TALLY: &str =
    "CREATE TABLE tally(no INTEGER PRIMARY KEY, points INTEGER NOT NULL, rounds INTEGER NOT NULL, gamepoints INTEGER NOT NULL, games INTEGER NOT NULL)";

/// Makes the table `tally`. A crash in it leaves what it could leave before.
fn create_tally<S: Alter>(tx: &mut Transaction<'_, S>) -> Result<(), Error>
    ensures lends { Lends S.Store tx.old tx.new }
    ensures makes { (version : ℕ) → MakesNext S.Store tally
        (bracket_schema (made_players version)) (tally_schema (made_players version))
        tx.old result tx.new }
{
    run(tx, CREATE_TALLY, &[])
}

/// Makes the table of players of this version.
fn create_players<S: Alter>(tx: &mut Transaction<'_, S>, version: u8) -> Result<(), Error>
    ensures lends { Lends S.Store tx.old tx.new }
    ensures makes { MakesNext S.Store (players_of version) event_schema
        (player_schema (made_players version)) tx.old result tx.new }
{
    if version == 2 {
        create_player2(tx)
    } else {
        create_player(tx)
    }
}

/// Makes the five tables as this version has them.
pub fn create_all<S: Alter>(tx: &mut Transaction<'_, S>, version: u8) -> Result<(), Error>
    ensures lends { Lends S.Store tx.old tx.new }
    ensures alone { (tx_state S.Store tx.old).now.schema ≡ no_schema
        → Achieves S.Store (λ a b. b.now.schema ≡ tally_schema (made_players version))
        tx.old result tx.new }
    ensures beside { Achieves S.Store (MakesFive version) tx.old result tx.new }
{
    create_event(tx)?;
    create_players(tx, version)?;
    create_pairing(tx)?;
    create_bracket(tx)?;
    create_tally(tx)
}
