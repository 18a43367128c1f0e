//! Tables of version 1, and what a migration makes of them.
ghost use Rattle.std.specs.Prelude.{◌≡◌, ◌≤◌, false};

use crate::stores::{holds, refused, tables_after};
use er_desk::Desk;
use er_event::{Cause, Event, Place, Refusal};
use er_store::Store;
use er_testing::desks::{old_desk, submit, takes};
use er_testing::events::{are_same, name};
use sqlite::{Alter, Connection, MemStore};
use std::alloc::Global;
use std::test::Fail;

/// A desk in memory over an event of three rounds in tables of version 1, that took these commands, a line each.
fn old_desk_after(alloc: Global, lines: &str) -> Option<Desk<MemStore>> {
    let conn = Connection::open_in_memory(alloc).ok()?;
    let mut desk = old_desk(alloc, conn, 3, 0).ok()?;
    if takes(alloc, &mut desk, lines) {
        Some(desk)
    } else {
        None
    }
}

/// The desk after its tables were moved to version 2, if it says that they are.
fn moved_desk_after(alloc: Global, lines: &str, serial: u32) -> Option<Desk<MemStore>> {
    let mut desk = old_desk_after(alloc, lines)?;
    let was_old = desk.version() == Ok(1);
    let moved = desk.migrate();
    if was_old && moved == Ok(serial) && desk.version() == Ok(2) && desk.migrate() == moved {
        Some(desk)
    } else {
        None
    }
}

const DROPPED: &str = "enrol Ana\nenrol Bo\nstart\ndrop 2";

const OLD: &str = "\
SELECT version || ' ' || serial FROM event -> 1 4
SELECT no || ' ' || name || ' ' || dropped FROM player WHERE no = 1 -> 1 Ana 0
SELECT no || ' ' || name || ' ' || dropped FROM player WHERE no = 2 -> 2 Bo 1
SELECT '' || (SELECT count(*) FROM sqlite_schema WHERE type = 'table') -> 5
";

/// The table of the players stays, and has no rows.
const MOVED: &str = "\
SELECT version || ' ' || serial FROM event -> 2 4
SELECT no || ' ' || name || ' ' || dropped || ' ' || joined FROM player2 WHERE no = 1 -> 1 Ana 0 0
SELECT no || ' ' || name || ' ' || dropped || ' ' || joined FROM player2 WHERE no = 2 -> 2 Bo 1 0
SELECT '' || (SELECT count(*) FROM player2) -> 2
SELECT '' || (SELECT count(*) FROM player) -> 0
SELECT '' || (SELECT count(*) FROM tally) -> 2
SELECT '' || (SELECT count(*) FROM sqlite_schema WHERE type = 'table') -> 6
";

#[test]
fn tables_of_version_1_are_kept_and_moved(rt: HostRuntime) -> Result<(), Fail> {
    let alloc = rt.alloc();
    assert!(rt; holds(old_desk_after(alloc, DROPPED), OLD));
    assert!(rt; holds(moved_desk_after(alloc, DROPPED, 4), MOVED));
    Ok(())
}

/// What a desk over the same tables answers to one more command, and its version after that.
fn goes_on(alloc: Global, desk: Option<Desk<MemStore>>) -> Option<Result<u8, Refusal>> {
    let mut again = Desk::adopt(alloc, desk?.close()).ok()?;
    submit(alloc, &mut again, "drop 1")?.ok()?;
    Some(again.version())
}

#[test]
fn an_event_goes_on_in_its_version(rt: HostRuntime) -> Result<(), Fail> {
    let alloc = rt.alloc();
    assert_eq!(rt; goes_on(alloc, old_desk_after(alloc, DROPPED)), Some(Ok(1)));
    assert_eq!(rt;
        goes_on(alloc, moved_desk_after(alloc, DROPPED, 4)),
        Some(Ok(2))
    );
    Ok(())
}

/// Whether a store answers of each version, and finds its event and serial in both. A second migration isn't one.
fn store_moves(alloc: Global) -> Option<bool> {
    let desk = old_desk_after(alloc, DROPPED)?;
    let (mut store, event, serial) = Store::adopt(alloc, desk.close()).ok()?;
    let was = store.version();
    let moved = (store.migrate(&event, serial), store.version());
    let again = (store.migrate(&event, serial), store.version());
    let (read, found) = store.load(alloc).ok()?;
    let is_read = are_same(&read, &event) && found == 4;
    Some(was == 1 && moved == (Ok(()), 2) && again == moved && is_read)
}

#[test]
fn a_store_is_moved_once(rt: HostRuntime) -> Result<(), Fail> {
    assert_eq!(rt; store_moves(rt.alloc()), Some(true));
    Ok(())
}

/// The refusal to make tables of version 1 after these statements of another program, a line each.
fn made_again(alloc: Global, desk: Option<Desk<MemStore>>, statements: &str) -> Option<Refusal> {
    let conn = tables_after(desk, statements)?;
    old_desk(alloc, conn, 3, 0).err()
}

/// Where an event is, in either version, and where one of its tables is.
#[test]
fn tables_of_version_1_are_made_once(rt: HostRuntime) -> Result<(), Fail> {
    let alloc = rt.alloc();
    let (old, moved) = (
        old_desk_after(alloc, DROPPED),
        moved_desk_after(alloc, DROPPED, 4),
    );
    assert_eq!(rt; made_again(alloc, old, ""), Some(Refusal::EventExists));
    assert_eq!(rt; made_again(alloc, moved, ""), Some(Refusal::EventExists));
    let cause = Cause::Refused;
    assert_eq!(rt;
        made_again(alloc, old_desk_after(alloc, DROPPED), "DROP TABLE event"),
        Some(Refusal::Store { cause })
    );
    Ok(())
}

/// Whether a desk over version 1 refuses to move its tables, is to be opened anew then, and finds them as they were.
fn stays_old(alloc: Global, statement: &str) -> Option<bool> {
    let conn = tables_after(old_desk_after(alloc, DROPPED), statement)?;
    let mut desk = Desk::adopt(alloc, conn).ok()?;
    let cause = Cause::Refused;
    let is_refused = desk.migrate() == Err(Refusal::Store { cause })
        && desk.migrate() == Err(Refusal::NeedsReopen)
        && desk.version() == Err(Refusal::NeedsReopen);
    let again = Desk::adopt(alloc, desk.close()).ok()?;
    let is_old = again.version() == Ok(1) && again.serial() == Ok(4);
    Some(is_refused && is_old && holds(Some(again), OLD_ROWS))
}

const OLD_ROWS: &str = "\
SELECT version || ' ' || serial FROM event -> 1 4
SELECT no || ' ' || name || ' ' || dropped FROM player WHERE no = 2 -> 2 Bo 1
SELECT '' || (SELECT count(*) FROM player) -> 2
";

/// A table, a view or an index has the name that a migration would make.
#[test]
fn a_name_that_is_taken_stops_a_migration(rt: HostRuntime) -> Result<(), Fail> {
    let alloc = rt.alloc();
    for statement in [
        "CREATE TABLE player2(body TEXT)",
        "CREATE VIEW player2 AS SELECT no, name FROM player",
        "CREATE INDEX player2 ON player(dropped)",
    ] {
        assert_eq!(rt; stays_old(alloc, statement), Some(true), "{statement}");
    }
    Ok(())
}

/// The four of worked example 9.
const SCORED: &str = "\
enrol Ana
enrol Bo
enrol Cy
enrol Di
start
pair 1
result 1 1 2 0 0
result 1 2 2 1 0
";

/// A desk over version 1 after it has turned Ed away, who comes late, and Ana, who is there.
fn turning_away(alloc: Global) -> Option<Desk<MemStore>> {
    let mut desk = old_desk_after(alloc, SCORED)?;
    let late = submit(alloc, &mut desk, "enrol Ed");
    let there = submit(alloc, &mut desk, "enrol Ana");
    let is_late = late == Some(Err(Refusal::BadSetup));
    let is_there = there == Some(Err(Refusal::NameTaken));
    if is_late && is_there && desk.serial() == Ok(8) && !desk.needs_reopen() {
        Some(desk)
    } else {
        None
    }
}

/// The same after its tables were moved to version 2 and Ed has come.
fn letting_in(alloc: Global) -> Option<Desk<MemStore>> {
    let mut desk = turning_away(alloc)?;
    let is_moved = desk.migrate() == Ok(8);
    if is_moved && takes(alloc, &mut desk, "enrol Ed") && desk.serial() == Ok(9) {
        Some(desk)
    } else {
        None
    }
}

const TURNED_AWAY: &str = "\
SELECT version || ' ' || serial FROM event -> 1 8
SELECT '' || (SELECT count(*) FROM player) -> 4
SELECT '' || (SELECT count(*) FROM tally) -> 4
";

const LET_IN: &str = "\
SELECT version || ' ' || serial FROM event -> 2 9
SELECT no || ' ' || name || ' ' || dropped || ' ' || joined FROM player2 WHERE no = 4 -> 4 Di 0 0
SELECT no || ' ' || name || ' ' || dropped || ' ' || joined FROM player2 WHERE no = 5 -> 5 Ed 0 1
SELECT points || ' ' || rounds || ' ' || gamepoints || ' ' || games FROM tally WHERE no = 5 -> 0 1 0 0
";

/// Worked example 49.
#[test]
fn nobody_comes_late_to_version_1(rt: HostRuntime) -> Result<(), Fail> {
    let alloc = rt.alloc();
    assert!(rt; holds(turning_away(alloc), TURNED_AWAY));
    assert!(rt; holds(letting_in(alloc), LET_IN));
    Ok(())
}

const OTHERS: &str = "\
CREATE TABLE note(body TEXT)
INSERT INTO note VALUES ('chairs')
";

/// Whether a desk over tables with those of another program moves them, goes on in version 2, and leaves the others.
fn moves_among_others(alloc: Global) -> Option<bool> {
    let conn = tables_after(old_desk_after(alloc, DROPPED), OTHERS)?;
    let mut desk = Desk::adopt(alloc, conn).ok()?;
    let moved = desk.migrate();
    let mut again = Desk::adopt(alloc, desk.close()).ok()?;
    let is_moved = moved == Ok(4) && again.version() == Ok(2);
    let goes_on = takes(alloc, &mut again, "drop 1");
    Some(is_moved && goes_on && holds(Some(again), "SELECT body FROM note -> chairs"))
}

#[test]
fn tables_of_others_stay(rt: HostRuntime) -> Result<(), Fail> {
    assert_eq!(rt; moves_among_others(rt.alloc()), Some(true));
    Ok(())
}

/// The refusal after these statements of another program, a line each, in tables of version 1.
fn refused_old(alloc: Global, statements: &str) -> Option<Refusal> {
    refused(
        alloc,
        tables_after(old_desk_after(alloc, DROPPED), statements),
    )
}

/// Whether tables of version 1 are refused as damage of this table after each of these statements by itself.
fn are_old_damage(alloc: Global, statements: &str, table: Place) -> bool {
    for sql in statements.lines() {
        if refused_old(alloc, sql) != Some(Refusal::Damaged { table }) {
            return false;
        }
    }
    true
}

const BROKEN_EVENTS: &str = "\
DELETE FROM event
UPDATE event SET version = 0
UPDATE event SET version = 3
UPDATE event SET version = -1
UPDATE event SET serial = 1000000
UPDATE event SET name = CAST(x'ff' AS TEXT)
UPDATE event SET rounds = 10
UPDATE event SET rounds = 12
UPDATE event SET phase = 4
";

const BROKEN_PLAYERS: &str = "\
UPDATE event SET version = 2
DELETE FROM player WHERE no = 1
UPDATE player SET name = ' Bo' WHERE no = 2
UPDATE player SET name = CAST(x'ff' AS TEXT) WHERE no = 2
UPDATE player SET name = x'ff' WHERE no = 2
UPDATE player SET dropped = x'00' WHERE no = 2
DROP TABLE player
";

/// Version 1 keeps nine rounds, and version 2 looks for its players elsewhere.
#[test]
fn broken_tables_of_version_1_are_damage(rt: HostRuntime) -> Result<(), Fail> {
    let alloc = rt.alloc();
    assert!(rt; are_old_damage(alloc, BROKEN_EVENTS, Place::EventTable));
    assert!(rt; are_old_damage(alloc, BROKEN_PLAYERS, Place::PlayerTable));
    Ok(())
}

/// The table that is named after these statements, in tables of version 1.
fn named(alloc: Global, statements: &str) -> Option<Place> {
    match refused_old(alloc, statements)? {
        Refusal::Damaged { table } => Some(table),
        _ => None,
    }
}

/// A text that isn't UTF-8 is read, and then checked with its table. A blob can't be read.
#[test]
fn names_are_checked_behind_all_reading(rt: HostRuntime) -> Result<(), Fail> {
    let alloc = rt.alloc();
    let player = "UPDATE player SET name = CAST(x'ff' AS TEXT) WHERE no = 2";
    let event = "UPDATE event SET name = CAST(x'ff' AS TEXT)";
    let later = format!(in alloc; "{player}\nUPDATE event SET version = 3")?;
    assert_eq!(rt; named(alloc, later.as_str()), Some(Place::EventTable));
    let no_pairing = format!(in alloc; "{player}\nDROP TABLE pairing")?;
    assert_eq!(rt;
        named(alloc, no_pairing.as_str()),
        Some(Place::PairingTable)
    );
    let no_player = format!(in alloc; "{event}\nDROP TABLE player")?;
    assert_eq!(rt; named(alloc, no_player.as_str()), Some(Place::PlayerTable));
    let blob = "UPDATE player SET name = x'ff' WHERE no = 2\nDROP TABLE pairing";
    assert_eq!(rt; named(alloc, blob), Some(Place::PlayerTable));
    Ok(())
}

/// What tables that were moved are found to be once their row says version 1 again.
fn moved_back(alloc: Global, lines: &str, serial: u32) -> Option<Result<u8, Refusal>> {
    let moved = moved_desk_after(alloc, lines, serial);
    match Desk::adopt(alloc, tables_after(moved, "UPDATE event SET version = 1")?) {
        Ok(desk) => Some(desk.version()),
        Err((_conn, why)) => Some(Err(why)),
    }
}

/// The table of the players is empty then. An event that nobody has entered is one.
#[test]
fn moved_tables_are_none_of_version_1(rt: HostRuntime) -> Result<(), Fail> {
    let alloc = rt.alloc();
    let (player, tally) = (Place::PlayerTable, Place::TallyTable);
    assert_eq!(rt; moved_back(alloc, "", 0), Some(Ok(1)));
    assert_eq!(rt;
        moved_back(alloc, "enrol Ana", 1),
        Some(Err(Refusal::Damaged { table: tally }))
    );
    assert_eq!(rt;
        moved_back(alloc, DROPPED, 4),
        Some(Err(Refusal::Damaged { table: player }))
    );
    Ok(())
}
