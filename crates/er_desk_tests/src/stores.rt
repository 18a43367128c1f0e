//! What a desk leaves in the tables, and what it makes of tables that another program has changed. Each event is a text of commands, and
//! each expectation a text of statements with what they show.
ghost use Rattle.std.specs.Prelude.{◌≡◌, false, IfSome};

use er_desk::Desk;
use er_event::{Event, Meeting, Place, PlayerNo, Refusal, Tally, Totals};
use er_paper::rows_text;
use er_store::Store;
use er_testing::desks::{FOUR, THREE, desk_after};
use er_testing::events::are_same;
use sqlite::{Connection, MemStore};
use std::alloc::Global;
use std::test::Fail;

/// Both tables have won, and the second round is (4,1), (2,3).
const TWO_ROUNDS: &str = "\
enrol Ana
enrol Bo
enrol Cy
enrol Di
start
pair 1
result 1 1 2 0 0
result 1 2 2 1 0
pair 2
";

/// Ed comes while the first round is open, and has missed it.
const LATE: &str = "\
enrol Ana
enrol Bo
enrol Cy
enrol Di
start
pair 1
result 1 1 2 0 0
enrol Ed
result 1 2 2 1 0
";

/// The only round of six is (6,4), (2,1), (5,3). Player 2 drops, and the seeds are 5, 6, 1, 3.
const CUT: &str = "\
enrol P1
enrol P2
enrol P3
enrol P4
enrol P5
enrol P6
start
pair 1
result 1 1 2 0 0
result 1 2 2 0 0
result 1 3 2 0 0
drop 2
cut
";

fn text(conn: &mut Connection<MemStore>, sql: &str) -> Option<String> {
    conn.query_row(sql, &[]).ok()?.get(0).ok()
}

/// Whether each statement shows its text: a line has both, with an arrow between.
fn are_shown(conn: &mut Connection<MemStore>, rows: &str) -> bool {
    for row in rows.lines() {
        let Some((sql, want)) = row.split_once(" -> ") else {
            return false;
        };
        if !shows(conn, sql, want) {
            return false;
        }
    }
    true
}

fn shows(conn: &mut Connection<MemStore>, sql: &str, want: &str) -> bool {
    text(conn, sql).is_some_and(|text| text.as_str() == want)
}

/// Whether the tables show these texts.
pub fn holds(desk: Option<Desk<MemStore>>, rows: &str) -> bool {
    match desk {
        Some(desk) => are_shown(&mut desk.close(), rows),
        None => false,
    }
}

const ANA: &str = "\
SELECT id || ' ' || version || ' ' || serial || ' ' || name || ' ' || rounds || ' ' || cut || ' ' || phase FROM event -> 1 2 1 Friday 3 0 0
SELECT no || ' ' || name || ' ' || dropped || ' ' || joined FROM player2 -> 1 Ana 0 0
SELECT (SELECT count(*) FROM event) || ' ' || (SELECT count(*) FROM player2) || ' ' || (SELECT count(*) FROM pairing) || ' ' || (SELECT count(*) FROM bracket) -> 1 1 0 0
";

const STARTED: &str = "\
SELECT serial || ' ' || phase FROM event -> 4 1
SELECT no || ' ' || name || ' ' || dropped || ' ' || joined FROM player2 WHERE no = 1 -> 1 Ana 0 0
SELECT no || ' ' || name || ' ' || dropped || ' ' || joined FROM player2 WHERE no = 2 -> 2 Bo 1 0
";

#[test]
fn players_phase_and_drops_are_written(rt: HostRuntime) -> Result<(), Fail> {
    let alloc = rt.alloc();
    assert!(rt; holds(desk_after(alloc, 3, 0, "enrol Ana"), ANA));
    let started = desk_after(alloc, 3, 0, "enrol Ana\nenrol Bo\nstart\ndrop 2");
    assert!(rt; holds(started, STARTED));
    Ok(())
}

/// The texts of the format, byte for byte.
const SCHEMA: &str = "\
SELECT sql FROM sqlite_schema WHERE name = 'event' -> CREATE TABLE event(id INTEGER PRIMARY KEY CHECK(id = 1), version INTEGER NOT NULL, serial INTEGER NOT NULL, name TEXT NOT NULL, rounds INTEGER NOT NULL, cut INTEGER NOT NULL, phase INTEGER NOT NULL)
SELECT sql FROM sqlite_schema WHERE name = 'player2' -> CREATE TABLE player2(no INTEGER PRIMARY KEY, name TEXT NOT NULL UNIQUE, dropped INTEGER NOT NULL, joined INTEGER NOT NULL)
SELECT sql FROM sqlite_schema WHERE name = 'pairing' -> CREATE TABLE pairing(round INTEGER NOT NULL, tab INTEGER NOT NULL, lo INTEGER NOT NULL, hi INTEGER NOT NULL, swapped INTEGER NOT NULL, done INTEGER NOT NULL, x INTEGER NOT NULL, y INTEGER NOT NULL, d INTEGER NOT NULL, PRIMARY KEY(round, tab), UNIQUE(lo, hi), CHECK(lo < hi))
SELECT sql FROM sqlite_schema WHERE name = 'bracket' -> CREATE TABLE bracket(stage INTEGER NOT NULL, slot INTEGER NOT NULL, a INTEGER NOT NULL, b INTEGER NOT NULL, done INTEGER NOT NULL, x INTEGER NOT NULL, y INTEGER NOT NULL, d INTEGER NOT NULL, PRIMARY KEY(stage, slot))
SELECT sql FROM sqlite_schema WHERE name = 'tally' -> CREATE TABLE tally(no INTEGER PRIMARY KEY, points INTEGER NOT NULL, rounds INTEGER NOT NULL, gamepoints INTEGER NOT NULL, games INTEGER NOT NULL)
SELECT '' || (SELECT count(*) FROM sqlite_schema WHERE type = 'table') -> 5
";

#[test]
fn the_schema_is_that_of_the_format(rt: HostRuntime) -> Result<(), Fail> {
    assert!(rt; holds(desk_after(rt.alloc(), 3, 0, ""), SCHEMA));
    Ok(())
}

/// The first-named player of table 1 has the greater number, and of table 2 the smaller.
const PAIRED: &str = "\
SELECT serial || ' ' || (SELECT count(*) FROM pairing) FROM event -> 6 2
SELECT round || ' ' || tab || ' ' || lo || ' ' || hi || ' ' || swapped || ' ' || done || ' ' || x || y || d FROM pairing WHERE tab = 1 -> 1 1 2 4 1 0 000
SELECT round || ' ' || tab || ' ' || lo || ' ' || hi || ' ' || swapped || ' ' || done || ' ' || x || y || d FROM pairing WHERE tab = 2 -> 1 2 1 3 0 0 000
";

const CORRECTED: &str = "\
SELECT serial || ' ' || (SELECT count(*) FROM pairing) FROM event -> 9 2
SELECT round || ' ' || tab || ' ' || lo || ' ' || hi || ' ' || swapped || ' ' || done || ' ' || x || y || d FROM pairing WHERE tab = 1 -> 1 1 2 4 1 1 120
SELECT round || ' ' || tab || ' ' || lo || ' ' || hi || ' ' || swapped || ' ' || done || ' ' || x || y || d FROM pairing WHERE tab = 2 -> 1 2 1 3 0 1 021
";

const BYE: &str = "\
SELECT round || ' ' || tab || ' ' || lo || ' ' || hi || ' ' || swapped || ' ' || done || ' ' || x || y || d FROM pairing WHERE lo = 0 AND round = 1 -> 1 0 0 3 1 1 200
SELECT round || ' ' || tab || ' ' || lo || ' ' || hi || ' ' || swapped || ' ' || done || ' ' || x || y || d FROM pairing WHERE lo = 0 AND round = 2 -> 2 0 0 1 1 1 200
SELECT round || ' ' || tab || ' ' || lo || ' ' || hi || ' ' || swapped || ' ' || done || ' ' || x || y || d FROM pairing WHERE round = 1 AND tab = 1 -> 1 1 1 2 1 1 200
";

#[test]
fn rounds_and_scores_are_written(rt: HostRuntime) -> Result<(), Fail> {
    let alloc = rt.alloc();
    assert!(rt; holds(desk_after(alloc, 3, 0, FOUR), PAIRED));
    let corrected = format!(in alloc;
        "{FOUR}result 1 1 1 2 0\nresult 1 2 2 1 0\ncorrect 1 2 0 2 1"
    );
    assert!(rt; holds(desk_after(alloc, 3, 0, corrected?.as_str()), CORRECTED));
    assert!(rt; holds(desk_after(alloc, 4, 0, THREE), BYE));
    Ok(())
}

const BEGUN: &str = "\
SELECT serial || ' ' || phase || ' ' || (SELECT count(*) FROM bracket) FROM event -> 13 2 2
SELECT stage || ' ' || slot || ' ' || a || ' ' || b || ' ' || done || ' ' || x || y || d FROM bracket WHERE slot = 1 -> 1 1 5 3 0 000
SELECT stage || ' ' || slot || ' ' || a || ' ' || b || ' ' || done || ' ' || x || y || d FROM bracket WHERE slot = 2 -> 1 2 6 1 0 000
";

const BEFORE_FINAL: &str = "\
SELECT serial || ' ' || phase || ' ' || (SELECT count(*) FROM bracket) FROM event -> 15 2 3
SELECT stage || ' ' || slot || ' ' || a || ' ' || b || ' ' || done || ' ' || x || y || d FROM bracket WHERE stage = 1 AND slot = 1 -> 1 1 5 3 1 200
SELECT stage || ' ' || slot || ' ' || a || ' ' || b || ' ' || done || ' ' || x || y || d FROM bracket WHERE stage = 1 AND slot = 2 -> 1 2 6 1 1 120
SELECT stage || ' ' || slot || ' ' || a || ' ' || b || ' ' || done || ' ' || x || y || d FROM bracket WHERE stage = 2 -> 2 1 5 1 0 000
";

const FINISHED: &str = "\
SELECT serial || ' ' || phase || ' ' || (SELECT count(*) FROM bracket) FROM event -> 16 3 3
SELECT stage || ' ' || slot || ' ' || a || ' ' || b || ' ' || done || ' ' || x || y || d FROM bracket WHERE stage = 2 -> 2 1 5 1 1 020
";

/// The event of the cut, with more commands.
fn playoff(alloc: Global, more: &str) -> Option<Desk<MemStore>> {
    let commands = format!(in alloc; "{CUT}{more}").ok()?;
    desk_after(alloc, 1, 4, commands.as_str())
}

const SEMIFINALS: &str = "playoff 1 1 2 0 0\nplayoff 1 2 1 2 0\n";

const ALL_OF_IT: &str = "playoff 1 1 2 0 0\nplayoff 1 2 1 2 0\nplayoff 2 1 0 2 0\n";

/// The cut, the stage with the score before it, and the last phase with the final.
#[test]
fn stages_are_written(rt: HostRuntime) -> Result<(), Fail> {
    let alloc = rt.alloc();
    assert!(rt; holds(playoff(alloc, ""), BEGUN));
    assert!(rt; holds(playoff(alloc, SEMIFINALS), BEFORE_FINAL));
    assert!(rt; holds(playoff(alloc, ALL_OF_IT), FINISHED));
    Ok(())
}

type Adopted = Result<(Store<MemStore>, Event, u32), (Connection<MemStore>, Refusal)>;

fn adopt(alloc: Global, conn: Connection<MemStore>) -> Adopted
    requires { conn.in_transaction ≡ false }
{
    Store::adopt(alloc, conn)
}

/// The serial that a load of the store finds, if it finds just this event.
fn loaded(alloc: Global, store: &mut Store<MemStore>, event: &Event) -> Option<u32> {
    let (read, serial) = store.load(alloc).ok()?;
    are_same(&read, event).then_some(serial)
}

/// The serial that a store over the tables and a load of it find, if both find just this event.
fn found(alloc: Global, conn: Connection<MemStore>, event: &Event) -> Option<u32>
    requires { conn.in_transaction ≡ false }
{
    let (mut store, found, serial) = adopt(alloc, conn).ok()?;
    let is_found = are_same(&found, event) && loaded(alloc, &mut store, event) == Some(serial);
    is_found.then_some(serial)
}

fn copy(alloc: Global, desk: &Desk<MemStore>) -> Option<Event> {
    desk.event().ok()?.copy(alloc).ok()
}

/// The serial that is found in a desk's tables, if just its event is found.
fn serial_read(alloc: Global, desk: Option<Desk<MemStore>>) -> Option<u32> {
    let desk = desk?;
    let event = copy(alloc, &desk)?;
    found(alloc, desk.close(), &event)
}

#[test]
fn the_event_is_read_back(rt: HostRuntime) -> Result<(), Fail> {
    let alloc = rt.alloc();
    let serials = [
        serial_read(alloc, desk_after(alloc, 3, 0, "")),
        serial_read(
            alloc,
            desk_after(alloc, 3, 0, "enrol Ana\nenrol Bo\nstart\ndrop 2"),
        ),
        serial_read(alloc, desk_after(alloc, 3, 0, TWO_ROUNDS)),
        serial_read(alloc, desk_after(alloc, 4, 0, THREE)),
        serial_read(alloc, desk_after(alloc, 3, 0, LATE)),
        serial_read(alloc, playoff(alloc, "")),
        serial_read(alloc, playoff(alloc, SEMIFINALS)),
        serial_read(alloc, playoff(alloc, ALL_OF_IT)),
    ];
    let wanted = [0, 4, 9, 7, 9, 13, 15, 16];
    assert_eq!(rt; serials, wanted.map(Some));
    Ok(())
}

/// The tables after these statements of another program, a line each.
pub fn tables_after(desk: Option<Desk<MemStore>>, statements: &str) -> Option<Connection<MemStore>>
    ensures { IfSome result (λ conn. conn.in_transaction ≡ false) }
{
    let mut conn = desk?.close();
    let are_run = statements.lines().all(|sql| conn.execute(sql, &[]).is_ok());
    if are_run && conn.is_autocommit() {
        Some(conn)
    } else {
        None
    }
}

/// The refusal to adopt the tables, of a store and of a desk alike.
pub fn refused(alloc: Global, conn: Option<Connection<MemStore>>) -> Option<Refusal>
    requires { IfSome conn (λ conn. conn.in_transaction ≡ false) }
{
    match Store::adopt(alloc, conn?) {
        Ok(_found) => None,
        Err((conn, why)) => match Desk::adopt(alloc, conn) {
            Ok(_desk) => None,
            Err((_conn, again)) => (again == why).then_some(why),
        },
    }
}

/// The refusal after these statements of another program.
fn refused_after(
    alloc: Global,
    rounds: u8,
    cut: u8,
    commands: &str,
    statements: &str,
) -> Option<Refusal> {
    refused(
        alloc,
        tables_after(desk_after(alloc, rounds, cut, commands), statements),
    )
}

/// Whether the tables are refused as damage of this table after each of these statements by itself.
fn are_damage(
    alloc: Global,
    rounds: u8,
    cut: u8,
    commands: &str,
    statements: &str,
    table: Place,
) -> bool {
    for sql in statements.lines() {
        if refused_after(alloc, rounds, cut, commands, sql) != Some(Refusal::Damaged { table }) {
            return false;
        }
    }
    true
}

const BROKEN_EVENTS: &str = "\
UPDATE event SET serial = -1
UPDATE event SET serial = 1000000
UPDATE event SET name = ''
UPDATE event SET name = 'Friday '
UPDATE event SET name = x'ff'
UPDATE event SET name = CAST(x'ff' AS TEXT)
UPDATE event SET rounds = 0
UPDATE event SET rounds = 13
UPDATE event SET rounds = -3
UPDATE event SET rounds = 259
UPDATE event SET cut = 3
UPDATE event SET cut = -2
UPDATE event SET cut = 258
UPDATE event SET phase = -1
UPDATE event SET phase = 4
";

const BROKEN_PLAYERS: &str = "\
DELETE FROM player2 WHERE no = 1
DELETE FROM player2 WHERE no = 2
UPDATE player2 SET no = 0 WHERE no = 1
UPDATE player2 SET no = -1 WHERE no = 1
UPDATE player2 SET no = 3 WHERE no = 2
UPDATE player2 SET no = 513 WHERE no = 2
UPDATE player2 SET no = 65538 WHERE no = 2
UPDATE player2 SET name = '' WHERE no = 2
UPDATE player2 SET name = ' Bo' WHERE no = 2
UPDATE player2 SET name = 'B\to' WHERE no = 2
UPDATE player2 SET name = x'ff' WHERE no = 2
UPDATE player2 SET name = CAST(x'ff' AS TEXT) WHERE no = 2
UPDATE player2 SET dropped = 2 WHERE no = 2
UPDATE player2 SET dropped = -1 WHERE no = 2
UPDATE player2 SET dropped = x'00' WHERE no = 2
UPDATE player2 SET joined = 4 WHERE no = 2
UPDATE player2 SET joined = 257 WHERE no = 2
UPDATE player2 SET joined = -1 WHERE no = 2
UPDATE player2 SET joined = x'00' WHERE no = 2
UPDATE event SET phase = 0
DROP TABLE player2
UPDATE event SET version = 1
UPDATE event SET version = 0
UPDATE event SET version = 3
UPDATE event SET version = -1
DELETE FROM event
";

/// Nobody has missed a round that is not stored.
const BROKEN_PAIRINGS: &str = "\
DROP TABLE pairing
UPDATE player2 SET joined = 1 WHERE no = 2
UPDATE player2 SET joined = 3 WHERE no = 2
";

const DROPPED: &str = "enrol Ana\nenrol Bo\nstart\ndrop 2";

/// The first table whose rows no event has is named. Without the table of the event there is none. Players are looked for in the table of
/// version 1 if no row says version 2, and it isn't there.
#[test]
fn broken_events_and_players_are_damage(rt: HostRuntime) -> Result<(), Fail> {
    let alloc = rt.alloc();
    assert!(rt; are_damage(alloc, 3, 0, DROPPED, BROKEN_EVENTS, Place::EventTable));
    assert!(rt; are_damage(alloc, 3, 0, DROPPED, BROKEN_PLAYERS, Place::PlayerTable));
    assert!(rt; are_damage(alloc, 3, 0, DROPPED, BROKEN_PAIRINGS, Place::PairingTable));
    assert!(rt;
        are_damage(
            alloc,
            3,
            0,
            DROPPED,
            "DROP TABLE bracket",
            Place::BracketTable
        )
    );
    let no_event = refused_after(alloc, 3, 0, DROPPED, "DROP TABLE event");
    assert_eq!(rt; no_event, Some(Refusal::NoEvent));
    Ok(())
}

const ROWS_OF_NO_MATCH: &str = "\
UPDATE pairing SET swapped = 2 WHERE round = 2 AND tab = 1
UPDATE pairing SET done = 2 WHERE round = 1 AND tab = 1
UPDATE pairing SET x = 1 WHERE round = 2 AND tab = 1
UPDATE pairing SET x = 3 WHERE round = 1 AND tab = 1
UPDATE pairing SET y = 2 WHERE round = 1 AND tab = 2
UPDATE pairing SET y = -1 WHERE round = 1 AND tab = 1
UPDATE pairing SET d = 257 WHERE round = 1 AND tab = 1
UPDATE pairing SET d = x'00' WHERE round = 2 AND tab = 1
UPDATE pairing SET hi = 65540 WHERE round = 2 AND tab = 1
";

const ROWS_OUT_OF_PLACE: &str = "\
DELETE FROM pairing WHERE round = 1 AND tab = 1
DELETE FROM pairing WHERE round = 1
UPDATE pairing SET round = 3 WHERE round = 2
UPDATE pairing SET round = 0 WHERE round = 2
UPDATE pairing SET tab = 3 WHERE round = 2 AND tab = 2
UPDATE pairing SET tab = -1 WHERE round = 2 AND tab = 1
UPDATE pairing SET tab = 0 WHERE round = 2 AND tab = 1
";

const UNLAWFUL_ROUNDS: &str = "\
UPDATE pairing SET hi = 5 WHERE round = 2 AND tab = 1
UPDATE pairing SET lo = 1, hi = 2 WHERE round = 2 AND tab = 2
UPDATE pairing SET done = 0, x = 0, y = 0, d = 0 WHERE round = 1 AND tab = 1
UPDATE event SET rounds = 1
UPDATE event SET phase = 0
UPDATE event SET phase = 2
";

const UNLAWFUL_BYES: &str = "\
UPDATE pairing SET tab = 3 WHERE round = 1 AND tab = 0
UPDATE pairing SET swapped = 0 WHERE round = 2 AND tab = 0
UPDATE pairing SET y = 1 WHERE tab = 0
UPDATE pairing SET done = 0, x = 0 WHERE tab = 0
";

/// No match has such a row, or it is out of its place, or no lawful round has it.
#[test]
fn broken_rounds_are_damage(rt: HostRuntime) -> Result<(), Fail> {
    let alloc = rt.alloc();
    assert!(rt;
        are_damage(
            alloc,
            3,
            0,
            TWO_ROUNDS,
            ROWS_OF_NO_MATCH,
            Place::PairingTable
        )
    );
    assert!(rt;
        are_damage(
            alloc,
            3,
            0,
            TWO_ROUNDS,
            ROWS_OUT_OF_PLACE,
            Place::PairingTable
        )
    );
    assert!(rt;
        are_damage(
            alloc,
            3,
            0,
            TWO_ROUNDS,
            UNLAWFUL_ROUNDS,
            Place::PairingTable
        )
    );
    assert!(rt; are_damage(alloc, 4, 0, THREE, UNLAWFUL_BYES, Place::PairingTable));
    Ok(())
}

const MET_AGAIN: &str = "\
DROP TABLE pairing
CREATE TABLE pairing(round INTEGER, tab INTEGER, lo INTEGER, hi INTEGER, swapped INTEGER, done INTEGER, x INTEGER, y INTEGER, d INTEGER)
INSERT INTO pairing VALUES (1, 1, 2, 4, 0, 1, 2, 0, 0)
INSERT INTO pairing VALUES (2, 1, 2, 4, 1, 0, 0, 0, 0)
";

const BYE_AGAIN: &str = "\
DROP TABLE pairing
CREATE TABLE pairing(round INTEGER, tab INTEGER, lo INTEGER, hi INTEGER, swapped INTEGER, done INTEGER, x INTEGER, y INTEGER, d INTEGER)
INSERT INTO pairing VALUES (1, 0, 0, 1, 1, 1, 2, 0, 0)
INSERT INTO pairing VALUES (2, 0, 0, 1, 1, 1, 2, 0, 0)
";

/// An opponent met again, and a second bye. The table's own rule forbids them, but another program may have made the table without it.
#[test]
fn a_pairing_again_is_damage(rt: HostRuntime) -> Result<(), Fail> {
    let alloc = rt.alloc();
    let damaged = Some(Refusal::Damaged {
        table: Place::PairingTable,
    });
    assert_eq!(rt; refused_after(alloc, 3, 0, TWO_ROUNDS, MET_AGAIN), damaged);
    assert_eq!(rt; refused_after(alloc, 3, 0, TWO_ROUNDS, BYE_AGAIN), damaged);
    Ok(())
}

/// What the matches come to once both have a score: points, rounds, game points and games.
const COUNTED: &str = "\
SELECT points || ' ' || rounds || ' ' || gamepoints || ' ' || games FROM tally WHERE no = 1 -> 3 1 6 3
SELECT points || ' ' || rounds || ' ' || gamepoints || ' ' || games FROM tally WHERE no = 2 -> 0 1 0 2
SELECT points || ' ' || rounds || ' ' || gamepoints || ' ' || games FROM tally WHERE no = 3 -> 0 1 3 3
SELECT points || ' ' || rounds || ' ' || gamepoints || ' ' || games FROM tally WHERE no = 4 -> 3 1 6 2
SELECT '' || (SELECT count(*) FROM tally) -> 4
";

const UNCOUNTED: &str = "\
SELECT points || ' ' || rounds || ' ' || gamepoints || ' ' || games FROM tally WHERE no = 2 -> 0 0 0 0
SELECT points || ' ' || rounds || ' ' || gamepoints || ' ' || games FROM tally WHERE no = 4 -> 0 0 0 0
SELECT '' || (SELECT count(*) FROM tally) -> 4
";

/// The second match, corrected.
const COUNTED_ANEW: &str = "\
SELECT points || ' ' || rounds || ' ' || gamepoints || ' ' || games FROM tally WHERE no = 1 -> 0 1 0 2
SELECT points || ' ' || rounds || ' ' || gamepoints || ' ' || games FROM tally WHERE no = 2 -> 0 1 0 2
SELECT points || ' ' || rounds || ' ' || gamepoints || ' ' || games FROM tally WHERE no = 3 -> 3 1 6 2
SELECT points || ' ' || rounds || ' ' || gamepoints || ' ' || games FROM tally WHERE no = 4 -> 3 1 6 2
";

#[test]
fn totals_are_kept(rt: HostRuntime) -> Result<(), Fail> {
    let alloc = rt.alloc();
    let open = format!(in alloc; "{FOUR}result 1 1 2 0 0")?;
    assert!(rt; holds(desk_after(alloc, 3, 0, open.as_str()), UNCOUNTED));
    assert!(rt; holds(desk_after(alloc, 3, 0, TWO_ROUNDS), COUNTED));
    let corrected = format!(in alloc; "{TWO_ROUNDS}correct 1 2 0 2 0")?;
    assert!(rt; holds(desk_after(alloc, 3, 0, corrected.as_str()), COUNTED_ANEW));
    Ok(())
}

const MISSED: &str = "\
SELECT no || ' ' || name || ' ' || dropped || ' ' || joined FROM player2 WHERE no = 4 -> 4 Di 0 0
SELECT no || ' ' || name || ' ' || dropped || ' ' || joined FROM player2 WHERE no = 5 -> 5 Ed 0 1
SELECT points || ' ' || rounds || ' ' || gamepoints || ' ' || games FROM tally WHERE no = 5 -> 0 0 0 0
";

const MISSED_AND_COUNTED: &str = "\
SELECT points || ' ' || rounds || ' ' || gamepoints || ' ' || games FROM tally WHERE no = 1 -> 3 1 6 3
SELECT points || ' ' || rounds || ' ' || gamepoints || ' ' || games FROM tally WHERE no = 5 -> 0 1 0 0
SELECT '' || (SELECT count(*) FROM tally) -> 5
";

/// The second match, corrected: whoever missed the round keeps the totals.
const MISSED_AND_CORRECTED: &str = "\
SELECT points || ' ' || rounds || ' ' || gamepoints || ' ' || games FROM tally WHERE no = 3 -> 3 1 6 2
SELECT points || ' ' || rounds || ' ' || gamepoints || ' ' || games FROM tally WHERE no = 5 -> 0 1 0 0
";

/// A round that was missed counts once it is complete, as the others do.
#[test]
fn missed_rounds_are_kept(rt: HostRuntime) -> Result<(), Fail> {
    let alloc = rt.alloc();
    let open = format!(in alloc; "{FOUR}enrol Ed\nresult 1 1 2 0 0")?;
    assert!(rt; holds(desk_after(alloc, 3, 0, open.as_str()), MISSED));
    assert!(rt; holds(desk_after(alloc, 3, 0, LATE), MISSED_AND_COUNTED));
    let corrected = format!(in alloc; "{LATE}correct 1 2 0 2 0")?;
    assert!(rt;
        holds(
            desk_after(alloc, 3, 0, corrected.as_str()),
            MISSED_AND_CORRECTED
        )
    );
    Ok(())
}

const LATE_IN_PLAYERS: &str = "\
UPDATE player2 SET joined = 4 WHERE no = 5
UPDATE player2 SET joined = 257 WHERE no = 5
UPDATE player2 SET joined = -1 WHERE no = 5
";

const LATE_IN_PAIRINGS: &str = "\
UPDATE player2 SET joined = 2 WHERE no = 5
UPDATE player2 SET joined = 3 WHERE no = 5
UPDATE player2 SET joined = 1 WHERE no = 2
";

const LATE_IN_TOTALS: &str = "\
UPDATE player2 SET joined = 0 WHERE no = 5
UPDATE tally SET rounds = 0 WHERE no = 5
UPDATE tally SET points = 1 WHERE no = 5
";

/// Whoever came late has missed no more rounds than are stored and sat in none of them, and each that is complete is in the totals.
#[test]
fn broken_late_entries_are_damage(rt: HostRuntime) -> Result<(), Fail> {
    let alloc = rt.alloc();
    assert!(rt; are_damage(alloc, 3, 0, LATE, LATE_IN_PLAYERS, Place::PlayerTable));
    assert!(rt; are_damage(alloc, 3, 0, LATE, LATE_IN_PAIRINGS, Place::PairingTable));
    assert!(rt; are_damage(alloc, 3, 0, LATE, LATE_IN_TOTALS, Place::TallyTable));
    Ok(())
}

/// After the first round; the second counts for nothing while it is open.
const STANDINGS: &str = "\
Rank   No Pts    OMW    GWP    OGW D Name
   1    4   3  33.00 100.00  33.00   Di
   2    1   3  33.00  66.67  33.33   Ana
   3    3   0 100.00  33.33  66.67   Cy
   4    2   0 100.00  33.00 100.00   Bo
";

fn totals(points: u8, rounds: u8, game_points: u16, games: u16) -> Totals {
    Totals {
        points,
        rounds,
        game_points,
        games,
    }
}

fn player(number: u16) -> Option<PlayerNo> {
    PlayerNo::try_new(number)
}

fn is_tally(tally: &Tally, number: u16, totals: Totals) -> bool {
    Some(tally.no) == player(number) && tally.totals == totals && !tally.dropped
}

/// Whether these are the tallies after the first round.
fn are_tallies(list: &[Tally]) -> bool {
    match list {
        [ana, bo, cy, di] => {
            is_tally(ana, 1, totals(3, 1, 6, 3))
                && is_tally(bo, 2, totals(0, 1, 0, 2))
                && is_tally(cy, 3, totals(0, 1, 3, 3))
                && is_tally(di, 4, totals(3, 1, 6, 2))
        }
        _ => false,
    }
}

/// Whether these are the meetings of the first round.
fn are_meetings(list: &[Meeting]) -> bool {
    match list {
        [first, second] => {
            Some(first.lo) == player(2)
                && Some(first.hi) == player(4)
                && first.lo_totals == totals(0, 1, 0, 2)
                && first.hi_totals == totals(3, 1, 6, 2)
                && Some(second.lo) == player(1)
                && Some(second.hi) == player(3)
                && second.lo_totals == totals(3, 1, 6, 3)
                && second.hi_totals == totals(0, 1, 3, 3)
        }
        _ => false,
    }
}

fn adopted(alloc: Global, desk: Desk<MemStore>) -> Option<Store<MemStore>> {
    match Store::adopt(alloc, desk.close()) {
        Ok((store, _event, _serial)) => Some(store),
        Err(_) => None,
    }
}

fn shows_lists(alloc: Global, desk: Desk<MemStore>) -> Option<bool> {
    let mut store = adopted(alloc, desk)?;
    let tallies = store.tallies(alloc).ok()?;
    let meetings = store.meetings(alloc).ok()?;
    Some(are_tallies(tallies.as_slice()) && are_meetings(meetings.as_slice()))
}

/// The standings by the totals in the tables, as text.
fn stored_text(alloc: Global, desk: &mut Desk<MemStore>) -> Option<Vec<u8>> {
    let rows = desk.stored_standings(alloc).ok()?;
    rows_text(alloc, rows.as_slice(), desk.event().ok()?).ok()
}

fn gives_the_standings(alloc: Global) -> Option<bool> {
    let mut desk = desk_after(alloc, 3, 0, TWO_ROUNDS)?;
    let text = stored_text(alloc, &mut desk)?;
    Some(text.as_slice() == STANDINGS.as_bytes() && shows_lists(alloc, desk)?)
}

#[test]
fn totals_give_the_standings(rt: HostRuntime) -> Result<(), Fail> {
    assert_eq!(rt; gives_the_standings(rt.alloc()), Some(true));
    Ok(())
}

/// Worked example 48, to its end.
const LATE_STANDINGS: &str = "\
Rank   No Pts    OMW    GWP    OGW D Name
   1    4   6  41.50 100.00  36.50   Di
   2    1   3  75.00  40.00  80.00   Ana
   3    3   3  50.00  60.00  40.00   Cy
   4    5   3  33.00 100.00  33.00   Ed
   5    2   0  75.00  33.00 100.00   Bo
";

fn gives_late_standings(alloc: Global) -> Option<bool> {
    let lines = format!(in alloc; "{LATE}pair 2\nresult 2 1 2 0 0\nresult 2 2 0 2 0").ok()?;
    let mut desk = desk_after(alloc, 3, 0, lines.as_str())?;
    let text = stored_text(alloc, &mut desk);
    Some(text.is_some_and(|text| text.as_slice() == LATE_STANDINGS.as_bytes()))
}

#[test]
fn totals_with_missed_rounds_give_the_standings(rt: HostRuntime) -> Result<(), Fail> {
    assert_eq!(rt; gives_late_standings(rt.alloc()), Some(true));
    Ok(())
}

const BROKEN_TOTALS: &str = "\
UPDATE tally SET points = 4 WHERE no = 4
UPDATE tally SET points = 259 WHERE no = 4
UPDATE tally SET points = x'03' WHERE no = 4
UPDATE tally SET rounds = 2 WHERE no = 1
UPDATE tally SET gamepoints = 7 WHERE no = 1
UPDATE tally SET games = 65539 WHERE no = 3
UPDATE tally SET no = 5 WHERE no = 4
DELETE FROM tally WHERE no = 4
INSERT INTO tally VALUES (5, 0, 0, 0, 0)
UPDATE pairing SET d = 1 WHERE round = 1 AND tab = 1
DROP TABLE tally
";

/// No event of these matches has such totals. An event of an earlier program has none.
#[test]
fn broken_totals_are_damage(rt: HostRuntime) -> Result<(), Fail> {
    let alloc = rt.alloc();
    assert!(rt; are_damage(alloc, 3, 0, TWO_ROUNDS, BROKEN_TOTALS, Place::TallyTable));
    Ok(())
}

const BROKEN_BRACKETS: &str = "\
DELETE FROM bracket
DELETE FROM bracket WHERE stage = 2
DELETE FROM bracket WHERE stage = 1 AND slot = 2
UPDATE bracket SET stage = 3 WHERE stage = 2
UPDATE bracket SET slot = 3 WHERE stage = 1 AND slot = 2
UPDATE bracket SET a = 9 WHERE stage = 1 AND slot = 2
UPDATE bracket SET b = 3 WHERE stage = 2
UPDATE bracket SET done = 2 WHERE stage = 1 AND slot = 1
UPDATE bracket SET x = 4 WHERE stage = 1 AND slot = 1
UPDATE bracket SET y = 2 WHERE stage = 1 AND slot = 1
UPDATE bracket SET d = 257 WHERE stage = 1 AND slot = 1
UPDATE bracket SET d = x'00' WHERE stage = 2
UPDATE bracket SET x = 1 WHERE stage = 2
UPDATE event SET phase = 1
UPDATE event SET phase = 3
UPDATE event SET cut = 0
UPDATE event SET cut = 2
";

/// No playoff has such a bracket.
#[test]
fn broken_brackets_are_damage(rt: HostRuntime) -> Result<(), Fail> {
    let alloc = rt.alloc();
    let before_final = format!(in alloc; "{CUT}{SEMIFINALS}")?;
    assert!(rt;
        are_damage(
            alloc,
            1,
            4,
            before_final.as_str(),
            BROKEN_BRACKETS,
            Place::BracketTable
        )
    );
    Ok(())
}

/// The better seed of the first slot named second, with the same winner.
const OTHER_SEEDS: &str =
    "UPDATE bracket SET a = 3, b = 5, x = 0, y = 2 WHERE stage = 1 AND slot = 1";

/// Whether a store takes the tables, and a desk does not.
fn has_other_seeds(alloc: Global, conn: Option<Connection<MemStore>>) -> Option<bool>
    requires { IfSome conn (λ conn. conn.in_transaction ≡ false) }
{
    let (store, _event, _serial) = adopt(alloc, conn?).ok()?;
    match Desk::adopt(alloc, store.into_connection()) {
        Ok(_desk) => Some(false),
        Err((_conn, why)) => {
            let table = Place::BracketTable;
            Some(why == Refusal::Damaged { table })
        }
    }
}

/// A bracket whose winners are right and whose seeds are not those of the standings.
#[test]
fn other_seeds_are_damage(rt: HostRuntime) -> Result<(), Fail> {
    let alloc = rt.alloc();
    let tables = tables_after(playoff(alloc, ALL_OF_IT), OTHER_SEEDS);
    assert_eq!(rt; has_other_seeds(alloc, tables), Some(true));
    Ok(())
}
