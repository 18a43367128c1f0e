//! The move of an event's tables from version 1 to version 2.

ghost use Rattle.std.specs.Prelude.{◌≡◌, ℕ, List, [], OnOk, false, IsErr};
ghost use Rattle.sqlite.specs.State.{HasCleanDisk};
ghost use Rattle.sqlite.specs.Order.{Row};
ghost use Rattle.sqlite.specs.Held.{state};
ghost use Rattle.er_event.specs.declared.players.Player.{Player};
ghost use Rattle.er_event.specs.Event.{EventValue};
ghost use Rattle.er_store.specs.Migrated.{CanMigrate, IsMigrated, IsMovedAmong, IsTaken, MigratesBeside};
ghost use Rattle.er_store.specs.Representing.{AfterCrash, AreTreesOf, Either, RepresentsNow};
ghost use Rattle.er_store.specs.inside.Moving.{HaveNumbers, Move, IsMoving, IsMoved, MayMove};
ghost use Rattle.er_store.specs.inside.Looking.{Transacts};
ghost use Rattle.er_store.specs.inside.Within.{tx_state, Lends, Achieves, Inside};

use crate::creation::create_player2;
use crate::statements::{insert_player2, run};
use er_event::Event;
use sqlite::{Alter, Connection, Error, Transaction, params};

/// Inserts the players of the event.
fn copy_players<S: Alter>(tx: &mut Transaction<'_, S>, event: &Event) -> Result<(), Error>
    ensures lends { Lends S.Store tx.old tx.new }
    ensures copies { (move : Move) (former : List Row)
        → IsMoving move (tx_state S.Store tx.old) (tx_state S.Store tx.old) 1 [] former
        → Achieves S.Store (λ a b. IsMoving move a b 1 event.now.players former) tx.old result tx.new }
{
    for player in event.players() {
        let number = u32::from(player.no.get());
        let joined = u32::from(player.joined);
        insert_player2(tx, number, player.name.as_str(), player.dropped, joined)?;
    }
    Ok(())
}

pub const CLEAR_PLAYERS: &str = "DELETE FROM player";

/// Deletes all rows of the table `player`.
fn clear_players<S: Alter>(tx: &mut Transaction<'_, S>) -> Result<(), Error>
    ensures lends { Lends S.Store tx.old tx.new }
    ensures clears { (move : Move) (version : ℕ) (players : List Player) (former : List Row)
        → IsMoving move (tx_state S.Store tx.old) (tx_state S.Store tx.old) version players former
        → HaveNumbers former
        → Achieves S.Store (λ a b. IsMoving move a b version players []) tx.old result tx.new }
{
    run(tx, CLEAR_PLAYERS, &[])
}

pub const SET_VERSION: &str = "UPDATE event SET version = ?1";

/// Sets the version of the event's row.
fn set_version<S: Alter>(tx: &mut Transaction<'_, S>, version: u32) -> Result<(), Error>
    ensures lends { Lends S.Store tx.old tx.new }
    ensures sets { (move : Move) (was : ℕ) (players : List Player) (former : List Row)
        → IsMoving move (tx_state S.Store tx.old) (tx_state S.Store tx.old) was players former
        → Achieves S.Store (λ a b. IsMoving move a b version players former) tx.old result tx.new }
    ensures inside { Achieves S.Store Inside tx.old result tx.new }
{
    run(tx, SET_VERSION, params![version])
}

/// Moves the players to `player2`, and sets version 2.
fn move_players<S: Alter>(tx: &mut Transaction<'_, S>, event: &Event) -> Result<(), Error>
    ensures lends { Lends S.Store tx.old tx.new }
    ensures moves { (s : ℕ) → MayMove (tx_state S.Store tx.old) event.now s
        → Achieves S.Store (λ a b. IsMoved a.now b event.now s) tx.old result tx.new }
    ensures taken { HasCleanDisk (tx_state S.Store tx.new) → IsTaken (tx_state S.Store tx.old).now
        → IsErr result }
    ensures inside { Achieves S.Store Inside tx.old result tx.new }
{
    create_player2(tx)?;
    copy_players(tx, event)?;
    clear_players(tx)?;
    set_version(tx, 2)
}

/// Moves the tables of the event to version 2 in one transaction.
pub fn migrate_tables<S: Alter>(conn: &mut Connection<S>, event: &Event) -> Result<(), Error>
    requires mode { conn.old.in_transaction ≡ false }
    ensures transacts { Transacts S.Store conn.old result conn.new }
    ensures migrated { HasCleanDisk (state S.Store conn.new) → (s : ℕ)
        → CanMigrate (state S.Store conn.old) event.now s
        → OnOk result (IsMigrated (state S.Store conn.new) event.now s) }
    ensures beside { HasCleanDisk (state S.Store conn.new) → (s : ℕ)
        → CanMigrate (state S.Store conn.old) event.now s
        → OnOk result (MigratesBeside (state S.Store conn.old).now (state S.Store conn.new).now) }
    ensures acknowledged { (s : ℕ) → CanMigrate (state S.Store conn.old) event.now s
        → OnOk result (AfterCrash (state S.Store conn.new)
        (IsMovedAmong (state S.Store conn.old).now event.now s)) }
    ensures crash { (s : ℕ) → CanMigrate (state S.Store conn.old) event.now s
        → AfterCrash (state S.Store conn.new)
        (Either (AreTreesOf (state S.Store conn.old).now)
        (IsMovedAmong (state S.Store conn.old).now event.now s)) }
    ensures taken { HasCleanDisk (state S.Store conn.new) → IsTaken (state S.Store conn.old).now
        → IsErr result × ((s : ℕ) → RepresentsNow 1 (state S.Store conn.old) event.now s
        → AfterCrash (state S.Store conn.new) (AreTreesOf (state S.Store conn.old).now)) }
{
    let mut tx = conn.transaction();
    move_players(&mut tx, event)?;
    tx.commit()
}
