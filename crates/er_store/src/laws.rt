//! Laws of tables that represent an event. A law is called only for its contract, which is the law.

ghost use Rattle.std.specs.Prelude.{ℕ, ◌≡◌, false, IsTrue};
ghost use Rattle.sqlite.specs.Effect.{Database, IsDatabase};
ghost use Rattle.sqlite.specs.Held.{state};
ghost use Rattle.er_event.specs.Event.{EventValue};
ghost use Rattle.er_store.specs.Representing.{CanRead, RepresentsIn, IsStoredIn, RepresentsNow, AfterCrash};
ghost use Rattle.er_store.specs.Store as tables;

use crate::Store;
use sqlite::{Alter, Connection};

/// While its tables represent an event in a version, with nothing pending, each thing that a crash may leave represents it in that version.
pub fn shown_is_stored<S: Alter>(store: &Store<S>)
    ensures { (v : ℕ) (e : EventValue) (s : ℕ)
        → RepresentsNow v (tables.store_state S.Store store.now) e s
        → AfterCrash (tables.store_state S.Store store.now) (IsStoredIn v e s) }
{}

/// What a crash left of an event represents it again, in the version that it was in, whatever schema is read of it.
pub fn stored_represents()
    ensures { (v : ℕ) (db : Database) (e : EventValue) (s : ℕ) → IsDatabase db
        → IsStoredIn v e s db.trees → RepresentsIn v db e s }
{}

/// If the tables represent an event, something called `event` can be read.
pub fn represented_is_read()
    ensures { (v : ℕ) (db : Database) (e : EventValue) (s : ℕ) → RepresentsIn v db e s → CanRead db.schema }
{}

/// Outside a transaction an open connection sees the last commit, and that obeys its schema. Two calls of the connection say so.
pub(crate) fn sees_last_commit<S: Alter>(conn: &Connection<S>)
    ensures { conn.now.in_transaction ≡ false → IsTrue (state S.Store conn.now).is_open
        → ((state S.Store conn.now).now ≡ (state S.Store conn.now).committed)
        × IsDatabase (state S.Store conn.now).now }
{
    let _ = conn.is_autocommit();
    let _ = conn.schema();
}
