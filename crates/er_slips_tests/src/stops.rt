//! A stop at each call of the disk, over sessions. The files are opened anew with only what was synced, and with all that was written:
//! each time they hold the event of the commands that were acknowledged, or of one more, and the rest of the commands lead to the same end.
ghost use Rattle.std.specs.Prelude.{◌≡◌, false, IsTrue, IfSome};
ghost use Rattle.sqlite_disk.specs.Memory.{memory_is_usable};
ghost use Rattle.sqlite_disk.specs.Fuse.{inner_of, IsFresh};

use crate::requests::are_unavailable;
use er_desk::{Desk, Reply, adopt_file, into_connection};
use er_event::{Cause, Command, Event, Refusal};
use er_paper::{bracket_text, standings_text};
use er_testing::desks::{command, new_desk, old_desk};
use er_testing::events::{are_same, name};
use sqlite::{Alter, Connection, Files, MemStore, Options};
use sqlite_disk::{Crash, Disk, Fuse, Memory};
use std::alloc::Global;
use std::test::Fail;

/// The log and the database of an event.
type Disks = Files<Fuse<Memory>>;

/// How many calls a file passes on before it stops, if it never does.
const NEVER: u64 = u64::MAX;

/// An event's rounds and cut, and its commands, a line each.
#[derive(Clone, Copy)]
struct Case {
    rounds: u8,
    cut: u8,
    lines: &'static str,
}

/// The commands of a text's lines from one place on and before another.
fn commands(alloc: Global, lines: &str, from: usize, to: usize) -> Option<Vec<Command>> {
    let mut commands = Vec::new(alloc);
    for line in lines.lines().take(to).skip(from) {
        commands.push(command(alloc, line)?).ok()?;
    }
    Some(commands)
}

/// The event that `count` lines make, in memory and with no stop.
fn unstopped(alloc: Global, case: Case, count: usize) -> Option<Desk<MemStore>> {
    let conn = Connection::open_in_memory(alloc).ok()?;
    let mut desk = new_desk(alloc, conn, case.rounds, case.cut)?;
    let replies = desk
        .run(alloc, commands(alloc, case.lines, 0, count)?)
        .ok()?;
    let all = replies.as_slice().iter().all(|reply| reply.is_ok());
    all.then_some(desk)
}

/// A file with the bytes of another, all of them there for good.
fn copied(alloc: Global, bytes: &[u8]) -> Option<Memory>
    ensures { IfSome result (λ memory. IsTrue (memory_is_usable memory)) }
{
    let mut copy = Memory::new(alloc);
    copy.write_at(0, bytes).ok()?;
    copy.sync().ok()?;
    Some(copy)
}

/// Files with the bytes of these. The log stops after `log` calls, and the database after `db`.
fn opened_again(alloc: Global, files: &Disks, log: u64, db: u64) -> Option<Disks>
    ensures { IfSome result (λ files. IsTrue (memory_is_usable (inner_of files.log))
        × IsFresh files.log × IsTrue (memory_is_usable (inner_of files.db))
        × IsFresh files.db) }
{
    Some(Files {
        log: Fuse::new(copied(alloc, files.log.inner().bytes())?, log),
        db: Fuse::new(copied(alloc, files.db.inner().bytes())?, db),
    })
}

/// What a session came to: how many commands were acknowledged, none if creation was not, and the files.
#[derive(Drop)]
struct Ended {
    acknowledged: Option<usize>,
    files: Disks,
}

/// What a session does over a connection.
#[derive(Clone, Copy)]
enum Session {
    /// It creates the event, and sends the commands before this place.
    First { to: usize },
    /// It opens the event, and sends the commands before the second place. Those before the first one were acknowledged.
    Next { before: usize, to: usize },
    /// It opens what the acknowledged commands left, none if creation was not, and sends all that come after them.
    Rest { acknowledged: Option<usize> },
    /// It opens what `before` acknowledged commands left, and moves it to version 2, which counts as one more.
    Move { before: usize },
}

impl Session {
    /// What is acknowledged if the files were not opened.
    const fn unopened(self) -> Option<usize> {
        match self {
            Session::Next { before, to: _ } | Session::Move { before } => Some(before),
            Session::First { to: _ } | Session::Rest { acknowledged: _ } => None,
        }
    }
}

const REFUSED: Refusal = Refusal::Store {
    cause: Cause::Refused,
};

const FAULT: Reply = Err(REFUSED);

/// How many receipts there are, if after them comes nothing, or one fault of the device and then that the file is to be opened anew.
fn receipts(replies: &[Reply]) -> Option<usize> {
    let count = replies.iter().filter(|reply| reply.is_ok()).count();
    let all = match &replies[count..] {
        [] => true,
        [first, later @ ..] => {
            *first == FAULT
                && later
                    .iter()
                    .all(|reply| *reply == Err(Refusal::NeedsReopen))
        }
    };
    all.then_some(count)
}

/// Whether the desk is to be opened anew: as it says of itself, to a command, to the reader of a slip and to requests.
fn needs_reopen<S: Alter>(alloc: Global, desk: &mut Desk<S>) -> bool {
    desk.needs_reopen()
        && desk.submit(alloc, Command::Start) == Err(Refusal::NeedsReopen)
        && desk.slip(alloc, 1, 1).err() == Some(Refusal::NeedsReopen)
        && are_unavailable(alloc, desk)
}

/// Sends a case's commands from the serial on and before this place. The count of all that were acknowledged then. A desk that was stopped
/// takes no other command, shows no slip, and answers each request with a 503.
fn send<S: Alter>(alloc: Global, desk: &mut Desk<S>, case: Case, to: usize) -> Option<usize> {
    let serial = desk.serial().ok()? as usize;
    let replies = desk
        .run(alloc, commands(alloc, case.lines, serial, to)?)
        .ok()?;
    let count = serial.checked_add(receipts(replies.as_slice())?)?;
    let waits = count == to || needs_reopen(alloc, desk);
    waits.then_some(count)
}

/// Creates an event over a connection and sends the commands before this place. The count of all that were acknowledged then.
fn create_on<S: Alter>(
    alloc: Global,
    case: Case,
    conn: Connection<S>,
    to: usize,
) -> (Option<usize>, Connection<S>)
    requires { conn.in_transaction ≡ false }
{
    let Some(friday) = name("Friday") else {
        return (None, conn);
    };
    match Desk::create(alloc, conn, friday, case.rounds, case.cut) {
        Ok(mut desk) => {
            let acknowledged = send(alloc, &mut desk, case, to);
            (acknowledged, desk.close())
        }
        Err((conn, _why)) => (None, conn),
    }
}

/// Opens an event over a connection and sends the commands before this place. The count of all that were acknowledged then.
fn adopt_on<S: Alter>(
    alloc: Global,
    case: Case,
    conn: Connection<S>,
    before: usize,
    to: usize,
) -> (Option<usize>, Connection<S>)
    requires { conn.in_transaction ≡ false }
{
    match Desk::adopt(alloc, conn) {
        Ok(mut desk) => {
            let acknowledged = send(alloc, &mut desk, case, to);
            (acknowledged, desk.close())
        }
        Err((conn, why)) => ((Err(why) == FAULT).then_some(before), conn),
    }
}

/// Whether a migration was done, with this serial, or stopped by a fault of the device.
fn is_moved<S: Alter>(alloc: Global, desk: &mut Desk<S>, serial: usize) -> Option<bool> {
    match desk.migrate() {
        Ok(moved) => (moved as usize == serial && desk.version() == Ok(2)).then_some(true),
        Err(why) => (why == REFUSED && needs_reopen(alloc, desk)).then_some(false),
    }
}

/// Opens an event over a connection and moves it to version 2. The count of all that was acknowledged then, the migration among it.
fn move_on<S: Alter>(
    alloc: Global,
    conn: Connection<S>,
    before: usize,
) -> (Option<usize>, Connection<S>)
    requires { conn.in_transaction ≡ false }
{
    match Desk::adopt(alloc, conn) {
        Ok(mut desk) => {
            let moved = is_moved(alloc, &mut desk, before);
            let acknowledged = moved.and_then(|done| before.checked_add(usize::from(done)));
            (acknowledged, desk.close())
        }
        Err((conn, why)) => ((why == REFUSED).then_some(before), conn),
    }
}

/// Whether this is the event that `count` commands make with no stop, with its standings.
fn is_unstopped(alloc: Global, case: Case, count: usize, event: &Event) -> Option<bool> {
    let desk = unstopped(alloc, case, count)?;
    let plain = desk.event().ok()?;
    let same_text = standings_text(alloc, event).ok()?.as_slice()
        == standings_text(alloc, plain).ok()?.as_slice();
    Some(same_text && are_same(event, plain))
}

/// The same of a desk's event.
fn is_desk_unstopped<S: Alter>(
    alloc: Global,
    case: Case,
    count: usize,
    desk: &Desk<S>,
) -> Option<bool> {
    is_unstopped(alloc, case, count, desk.event().ok()?)
}

/// Whether an opening may find this serial: that of the acknowledged commands, or one more; and 0 if creation was not acknowledged.
fn may_find(acknowledged: Option<usize>, serial: usize) -> bool {
    match acknowledged {
        Some(count) => serial == count || serial.checked_sub(1) == Some(count),
        None => serial == 0,
    }
}

/// Whether the desk stands where it may, in either version, is moved to version 2, and the rest of the commands lead to the end.
fn ends_well<S: Alter>(
    alloc: Global,
    desk: &mut Desk<S>,
    case: Case,
    acknowledged: Option<usize>,
) -> Option<bool> {
    let serial = desk.serial().ok()? as usize;
    let begins_well = is_desk_unstopped(alloc, case, serial, desk)?
        && is_moved(alloc, desk, serial) == Some(true);
    let all = case.lines.lines().count();
    let is_sent = send(alloc, desk, case, all) == Some(all);
    let ends_well = is_desk_unstopped(alloc, case, all, desk)?;
    Some(may_find(acknowledged, serial) && begins_well && is_sent && ends_well)
}

/// The count of all commands, if the tables hold their event, as whoever opens them next finds it.
fn holds_all<S: Alter>(
    alloc: Global,
    case: Case,
    conn: Connection<S>,
) -> (Option<usize>, Connection<S>)
    requires { conn.in_transaction ≡ false }
{
    let all = case.lines.lines().count();
    match Desk::adopt(alloc, conn) {
        Ok(desk) => {
            let holds = is_desk_unstopped(alloc, case, all, &desk);
            ((holds == Some(true)).then_some(all), desk.close())
        }
        Err((conn, _why)) => (None, conn),
    }
}

/// How many commands are acknowledged in the end, if what a connection shows is an event that may be there, leads to the end, and stays in
/// the tables. There may be none if creation was not acknowledged.
fn goes_on_from<S: Alter>(
    alloc: Global,
    case: Case,
    conn: Connection<S>,
    acknowledged: Option<usize>,
) -> (Option<usize>, Connection<S>)
    requires { conn.in_transaction ≡ false }
{
    match Desk::adopt(alloc, conn) {
        Ok(mut desk) => {
            let is_well = ends_well(alloc, &mut desk, case, acknowledged);
            let (all, conn) = holds_all(alloc, case, desk.close());
            (if is_well == Some(true) { all } else { None }, conn)
        }
        Err((conn, why)) => {
            let may_be_none = acknowledged.is_none() && why == Refusal::NoEvent;
            (may_be_none.then_some(0), conn)
        }
    }
}

/// The count of commands that are acknowledged after a session over a connection, and its store.
fn run_on<S: Alter + Drop>(
    alloc: Global,
    case: Case,
    conn: Connection<S>,
    session: Session,
) -> (Option<usize>, S)
    requires { conn.in_transaction ≡ false }
{
    let (acknowledged, conn) = match session {
        Session::First { to } => create_on(alloc, case, conn, to),
        Session::Next { before, to } => adopt_on(alloc, case, conn, before, to),
        Session::Rest { acknowledged } => goes_on_from(alloc, case, conn, acknowledged),
        Session::Move { before } => move_on(alloc, conn, before),
    };
    (acknowledged, conn.into_store())
}

/// A session over these files.
fn run_over(alloc: Global, case: Case, files: Disks, session: Session) -> Ended
    requires { IsTrue (memory_is_usable (inner_of files.log)) × IsFresh files.log
        × IsTrue (memory_is_usable (inner_of files.db)) × IsFresh files.db }
{
    match Connection::open_files(alloc, files, Options::new(7)) {
        Ok(conn) => {
            let (acknowledged, store) = run_on(alloc, case, conn, session);
            let files = store.close();
            Ended {
                acknowledged,
                files,
            }
        }
        Err((_error, left)) => Ended {
            acknowledged: session.unopened(),
            files: left.into_files(),
        },
    }
}

/// A session over empty files, which creates the event and sends the commands before this place.
fn first_session(alloc: Global, case: Case, log: u64, db: u64, to: usize) -> Ended {
    let files = Files {
        log: Fuse::new(Memory::new(alloc), log),
        db: Fuse::new(Memory::new(alloc), db),
    };
    run_over(alloc, case, files, Session::First { to })
}

/// Whether files that stop no more hold what they may, and lead to the end.
fn goes_on(alloc: Global, case: Case, files: &Disks, acknowledged: Option<usize>) -> Option<bool> {
    let files = opened_again(alloc, files, NEVER, NEVER)?;
    let ended = run_over(alloc, case, files, Session::Rest { acknowledged });
    Some(ended.acknowledged.is_some())
}

/// Whether what a session left goes on after the process has stopped, with all that was written, and after the machine has, with what was
/// synced.
fn survives(alloc: Global, case: Case, it: &mut Ended) -> bool {
    let after_process = goes_on(alloc, case, &it.files, it.acknowledged);
    it.files.log.crash();
    it.files.db.crash();
    let after_machine = goes_on(alloc, case, &it.files, it.acknowledged);
    after_process == Some(true) && after_machine == Some(true)
}

/// How many calls the log and the database pass on, if one of them stops.
const fn calls_of(stops_log: bool, calls: u64) -> (u64, u64) {
    if stops_log {
        (calls, NEVER)
    } else {
        (NEVER, calls)
    }
}

/// Whether a whole event ends before the stop. It survives the stop, or there is no answer.
fn whole_event_ends(alloc: Global, case: Case, log: u64, db: u64) -> Option<bool> {
    let all = case.lines.lines().count();
    let mut it = first_session(alloc, case, log, db, all);
    let is_whole = it.acknowledged == Some(all);
    survives(alloc, case, &mut it).then_some(is_whole)
}

/// Stops a whole event at each call of one of its files. The count of these calls, if it survives each stop.
fn whole_event(alloc: Global, case: Case, stops_log: bool) -> Option<u64> {
    for calls in 0..10_000 {
        let (log, db) = calls_of(stops_log, calls);
        if whole_event_ends(alloc, case, log, db)? {
            return Some(calls);
        }
    }
    None
}

/// Whether a session over these files, that sends the commands between two places, ends before the stop. It survives the stop, or there is
/// no answer.
fn session_ends(alloc: Global, case: Case, files: Disks, places: (usize, usize)) -> Option<bool>
    requires { IsTrue (memory_is_usable (inner_of files.log)) × IsFresh files.log
        × IsTrue (memory_is_usable (inner_of files.db)) × IsFresh files.db }
{
    let (from, to) = places;
    let mut it = run_over(alloc, case, files, Session::Next { before: from, to });
    let is_whole = it.acknowledged == Some(to);
    survives(alloc, case, &mut it).then_some(is_whole)
}

/// Stops such a session at each call of one of the files. The count of these calls, if it survives each stop.
fn later_session(
    alloc: Global,
    case: Case,
    files: &Disks,
    places: (usize, usize),
    stops_log: bool,
) -> Option<u64> {
    for calls in 0..10_000 {
        let (log, db) = calls_of(stops_log, calls);
        if session_ends(alloc, case, opened_again(alloc, files, log, db)?, places)? {
            return Some(calls);
        }
    }
    None
}

/// Six players, one round and a playoff of four, with a correction.
const PLAYOFF: Case = Case {
    rounds: 1,
    cut: 4,
    lines: "\
enrol P1
enrol P2
enrol P3
enrol P4
enrol P5
enrol P6
start
pair 1
result 1 1 2 0 0
result 1 2 2 0 0
result 1 3 2 0 0
correct 1 1 2 0 0
drop 2
cut
playoff 1 1 2 0 0
playoff 1 2 1 2 0
playoff 2 1 0 2 0
",
};

const BRACKET: &str = " Stg Slot    A    B Score Names
   1    1    5    3 2-0-0 P5 - P3
   1    2    6    1 1-2-0 P6 - P1
   2    1    5    1 0-2-0 P5 - P1
Champion 1 P1
";

/// Whether all commands of a playoff lead to this bracket, with this serial.
fn ends_with_bracket(alloc: Global, case: Case, bracket: &str, serial: u32) -> Option<bool> {
    let desk = unstopped(alloc, case, case.lines.lines().count())?;
    let text = bracket_text(alloc, desk.event().ok()?).ok()?;
    Some(text.as_slice() == bracket.as_bytes() && desk.serial() == Ok(serial))
}

/// A stop at each call of each file, in creation and in each of 17 commands.
#[test]
fn a_whole_event_survives_each_stop(rt: HostRuntime) -> Result<(), Fail> {
    let alloc = rt.alloc();
    assert_eq!(rt; ends_with_bracket(alloc, PLAYOFF, BRACKET, 17), Some(true));
    assert!(rt; whole_event(alloc, PLAYOFF, true).is_some_and(|calls| calls > 17));
    assert!(rt; whole_event(alloc, PLAYOFF, false).is_some());
    Ok(())
}

/// The same with a seventh player, who enrols after the start and loses at the third table.
const SEVENTH: Case = Case {
    rounds: 1,
    cut: 4,
    lines: "\
enrol P1
enrol P2
enrol P3
enrol P4
enrol P5
enrol P6
start
enrol P7
pair 1
result 1 1 2 0 0
result 1 2 2 0 0
result 1 3 2 0 0
correct 1 1 2 0 0
drop 2
cut
playoff 1 1 2 0 0
playoff 1 2 1 2 0
playoff 2 1 0 2 0
",
};

/// Player 3 had the bye.
const BRACKET_OF_SEVEN: &str = " Stg Slot    A    B Score Names
   1    1    3    1 2-0-0 P3 - P1
   1    2    5    6 1-2-0 P5 - P6
   2    1    3    6 0-2-0 P3 - P6
Champion 6 P6
";

/// A stop at each call of each file, in each of 18 commands: at a call of the late entry it leaves serial 7 or 8.
#[test]
fn an_event_with_a_late_entry_survives_each_stop(rt: HostRuntime) -> Result<(), Fail> {
    let alloc = rt.alloc();
    assert_eq!(rt;
        ends_with_bracket(alloc, SEVENTH, BRACKET_OF_SEVEN, 18),
        Some(true)
    );
    assert!(rt; whole_event(alloc, SEVENTH, true).is_some_and(|calls| calls > 18));
    assert!(rt; whole_event(alloc, SEVENTH, false).is_some());
    Ok(())
}

/// Eight players. The second round is paired by the fifteenth command.
const EIGHT: Case = Case {
    rounds: 3,
    cut: 0,
    lines: "\
enrol P1
enrol P2
enrol P3
enrol P4
enrol P5
enrol P6
enrol P7
enrol P8
start
pair 1
result 1 1 2 0 0
result 1 2 2 0 0
result 1 3 2 0 0
result 1 4 2 0 0
pair 2
result 2 1 2 0 0
",
};

/// The calls at which a session is stopped that pairs the second round and goes on.
fn second_round(alloc: Global, stops_log: bool) -> Option<u64> {
    let before = first_session(alloc, EIGHT, NEVER, NEVER, 14);
    later_session(alloc, EIGHT, &before.files, (14, 16), stops_log)
}

/// A disk that fails at each call of a pairing: after it there are all tables of the round, or none.
#[test]
fn a_pairing_survives_each_stop(rt: HostRuntime) -> Result<(), Fail> {
    let alloc = rt.alloc();
    assert!(rt; second_round(alloc, true).is_some_and(|calls| calls > 2));
    assert!(rt; second_round(alloc, false).is_some());
    Ok(())
}

/// The fewest calls of one of the files, from `from_calls` on, after which a first session has sent the commands before this place.
fn first_calls(
    alloc: Global,
    case: Case,
    from_calls: u64,
    to: usize,
    stops_log: bool,
) -> Option<u64> {
    for calls in from_calls..10_000 {
        let (log, db) = calls_of(stops_log, calls);
        if first_session(alloc, case, log, db, to).acknowledged == Some(to) {
            return Some(calls);
        }
    }
    None
}

/// Whether a later session has sent the commands before `places.1`, those before `places.0` being acknowledged, if it stops after
/// `calls` calls.
fn is_sent(
    alloc: Global,
    case: Case,
    files: &Disks,
    places: (usize, usize),
    stops_log: bool,
    calls: u64,
) -> Option<bool> {
    let (from, to) = places;
    let (log, db) = calls_of(stops_log, calls);
    let files = opened_again(alloc, files, log, db)?;
    let it = run_over(alloc, case, files, Session::Next { before: from, to });
    Some(it.acknowledged == Some(to))
}

/// The fewest calls after which it has, up to 1,023: found by halving.
fn later_calls(
    alloc: Global,
    case: Case,
    files: &Disks,
    places: (usize, usize),
    stops_log: bool,
) -> Option<u64> {
    let (mut low, mut high) = (0_u64, 1024_u64);
    for _ in 0..10 {
        let middle = low.saturating_add(high) / 2;
        if is_sent(alloc, case, files, places, stops_log, middle)? {
            high = middle;
        } else {
            low = middle.saturating_add(1);
        }
    }
    is_sent(alloc, case, files, places, stops_log, low)?.then_some(low)
}

/// Stops a session that sends the commands from `places.0` on and before `places.2`, at each call after those that it takes to open the
/// files and to send the ones before `places.1`. The count of these calls, if it survives each stop.
fn command_stops(
    alloc: Global,
    case: Case,
    files: &Disks,
    places: (usize, usize, usize),
    stops_log: bool,
) -> Option<u64> {
    let (before, from, to) = places;
    let first = later_calls(alloc, case, files, (before, from), stops_log)?;
    let end = later_calls(alloc, case, files, (before, to), stops_log)?;
    for calls in first..end {
        let (log, db) = calls_of(stops_log, calls);
        let files = opened_again(alloc, files, log, db)?;
        session_ends(alloc, case, files, (before, to))?;
    }
    end.checked_sub(first)
}

/// Stops a second session of the eight players at each call by which it pairs the second round.
fn second_stops(alloc: Global, files: &Disks, stops_log: bool) -> Option<u64> {
    command_stops(alloc, EIGHT, files, (9, 14, 15), stops_log)
}

/// Both stops of each kind of file after what a first session has left.
fn two_second_stops(alloc: Global, files: &Disks) -> Option<u64> {
    second_stops(alloc, files, true)?.checked_add(second_stops(alloc, files, false)?)
}

/// The stops of second sessions, after a first one that stops at this call of one of its files, and after the process and the machine have.
fn stops_after(alloc: Global, calls: u64, stops_log: bool) -> Option<u64> {
    let (log, db) = calls_of(stops_log, calls);
    let mut it = first_session(alloc, EIGHT, log, db, 10);
    let after_process = two_second_stops(alloc, &it.files)?;
    it.files.log.crash();
    it.files.db.crash();
    after_process.checked_add(two_second_stops(alloc, &it.files)?)
}

/// Stops a first session at each call by which it pairs the first round, and then each time a second session. The count of all second
/// stops.
fn two_stops(alloc: Global, stops_log: bool) -> Option<u64> {
    let first = first_calls(alloc, EIGHT, 0, 9, stops_log)?;
    let end = first_calls(alloc, EIGHT, first, 10, stops_log)?;
    let mut count = 0_u64;
    for calls in first..end {
        count = count.checked_add(stops_after(alloc, calls, stops_log)?)?;
    }
    Some(count)
}

/// The first stop comes in the pairing of the first round, and the second one in that of the second, each at each of its calls.
#[test]
fn two_stops_in_three_sessions(rt: HostRuntime) -> Result<(), Fail> {
    let alloc = rt.alloc();
    let (log, db) = (two_stops(alloc, true), two_stops(alloc, false));
    assert!(rt; log.is_some_and(|count| count > 8), "log {log:?}");
    assert!(rt; db.is_some(), "db {db:?}");
    Ok(())
}

/// Four players, and a fifth who enrols while their round is open. The next command completes it.
const FIFTH: Case = Case {
    rounds: 3,
    cut: 0,
    lines: "\
enrol P1
enrol P2
enrol P3
enrol P4
start
pair 1
result 1 1 2 0 0
enrol P5
result 1 2 2 0 0
pair 2
",
};

/// The calls at which a session is stopped by which the fifth comes and the round is completed.
fn missed_round(alloc: Global, stops_log: bool) -> Option<u64> {
    let before = first_session(alloc, FIFTH, NEVER, NEVER, 6);
    command_stops(alloc, FIFTH, &before.files, (6, 7, 9), stops_log)
}

/// The result that completes a round is written with the totals of whoever missed it, or not at all.
#[test]
fn a_missed_round_survives_each_stop(rt: HostRuntime) -> Result<(), Fail> {
    let alloc = rt.alloc();
    let (log, db) = (missed_round(alloc, true), missed_round(alloc, false));
    assert!(rt; log.is_some_and(|calls| calls > 2), "log {log:?}");
    assert!(rt; db.is_some(), "db {db:?}");
    Ok(())
}

/// Six players in the same playoff, whose cut is the thirteenth command.
const CUT: Case = Case {
    rounds: 1,
    cut: 4,
    lines: "\
enrol P1
enrol P2
enrol P3
enrol P4
enrol P5
enrol P6
start
pair 1
result 1 1 2 0 0
result 1 2 2 0 0
result 1 3 2 0 0
drop 2
cut
playoff 1 1 2 0 0
playoff 1 2 1 2 0
playoff 2 1 0 2 0
",
};

/// The files of these commands in version 1, closed after the cut.
fn old_files(alloc: Global) -> Option<Disks> {
    let files = Files {
        log: Fuse::new(Memory::new(alloc), NEVER),
        db: Fuse::new(Memory::new(alloc), NEVER),
    };
    let mut desk = match Connection::open_files(alloc, files, Options::new(7)) {
        Ok(conn) => old_desk(alloc, conn, 1, 4).ok()?,
        Err(_unopened) => return None,
    };
    let is_cut = send(alloc, &mut desk, CUT, 13) == Some(13) && desk.version() == Ok(1);
    let files = into_connection(desk).close_files().ok()?;
    is_cut.then_some(files)
}

/// The version in which files that stop no more hold an event.
fn version_left(alloc: Global, files: &Disks) -> Option<u8> {
    let files = opened_again(alloc, files, NEVER, NEVER)?;
    match Connection::open_files(alloc, files, Options::new(7)) {
        Ok(conn) => adopt_file(alloc, conn).ok()?.version().ok(),
        Err(_unopened) => None,
    }
}

/// Whether a migration of these files ends before the stop, and is then there for good. It survives the stop, or there is no answer.
fn migration_ends(alloc: Global, files: Disks) -> Option<bool>
    requires { IsTrue (memory_is_usable (inner_of files.log)) × IsFresh files.log
        × IsTrue (memory_is_usable (inner_of files.db)) × IsFresh files.db }
{
    let mut it = run_over(alloc, CUT, files, Session::Move { before: 13 });
    let is_done = it.acknowledged? == 14;
    it.acknowledged = Some(13);
    let survives = survives(alloc, CUT, &mut it);
    let is_kept = !is_done || version_left(alloc, &it.files) == Some(2);
    (survives && is_kept).then_some(is_done)
}

/// Stops a migration at each call of one of these files. The count of these calls, if it survives each stop.
fn migration(alloc: Global, files: &Disks, stops_log: bool) -> Option<u64> {
    for calls in 0..10_000 {
        let (log, db) = calls_of(stops_log, calls);
        if migration_ends(alloc, opened_again(alloc, files, log, db)?)? {
            return Some(calls);
        }
    }
    None
}

/// Worked example 47.
#[test]
fn a_migration_survives_each_stop(rt: HostRuntime) -> Result<(), Fail> {
    let alloc = rt.alloc();
    assert_eq!(rt; ends_with_bracket(alloc, CUT, BRACKET, 16), Some(true));
    let files = old_files(alloc).ok_or("no files of version 1")?;
    let (log, db) = (
        migration(alloc, &files, true),
        migration(alloc, &files, false),
    );
    assert!(rt; log.is_some_and(|calls| calls > 2), "log {log:?}");
    assert!(rt; db.is_some(), "db {db:?}");
    Ok(())
}
