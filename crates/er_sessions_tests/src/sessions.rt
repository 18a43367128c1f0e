//! Sessions over one disk, each with a crash after it: closed, or stopped at any call of the log.
ghost use Rattle.std.specs.Prelude.{◌≡◌, IsTrue, IfSome};
ghost use Rattle.sqlite_disk.specs.Memory.{memory_is_usable};
ghost use Rattle.sqlite_disk.specs.Fuse.{inner_of, IsFresh};

use er_cli::{Action, Answer, Question, Task, file_and_action};
use er_desk::{adopt_file, into_connection};
use er_event::Refusal;
use er_sessions::hold_sessions;
use er_testing::desks::old_desk;
use er_words::read_line;
use sqlite::{Connection, Files, Options};
use sqlite_disk::{Disk, Fuse, Memory};
use std::alloc::Global;
use std::test::Fail;

type Disks = Files<Fuse<Memory>>;

/// A file with the bytes of another, which stops after `calls` calls.
fn copied(alloc: Global, file: &Fuse<Memory>, calls: u64) -> Option<Fuse<Memory>>
    ensures { IfSome result (λ file. IsTrue (memory_is_usable (inner_of file)) × IsFresh file) }
{
    let mut copy = Memory::new(alloc);
    copy.write_at(0, file.inner().bytes()).ok()?;
    copy.sync().ok()?;
    Some(Fuse::new(copy, calls))
}

/// The files of a new event, in tables of version 1.
fn old_files(alloc: Global) -> Option<Disks> {
    let files = Files {
        log: Fuse::new(Memory::new(alloc), u64::MAX),
        db: Fuse::new(Memory::new(alloc), u64::MAX),
    };
    match Connection::open_files(alloc, files, Options::new(7)) {
        Ok(conn) => into_connection(old_desk(alloc, conn, 1, 0).ok()?)
            .close_files()
            .ok(),
        Err(_unopened) => None,
    }
}

/// What a line of a script asks of its event.
fn question(alloc: Global, line: &str) -> Option<Question> {
    match file_and_action(read_line(alloc, line.as_bytes()).ok()?) {
        (
            _file,
            Action::Open {
                task: Task::Ask { question },
            },
        ) => Some(question),
        _ => None,
    }
}

fn questions(alloc: Global, lines: &str) -> Option<Vec<Question>> {
    let mut all = Vec::new(alloc);
    for line in lines.lines() {
        all.push(question(alloc, line)?).ok()?;
    }
    Some(all)
}

/// Two sessions: the first one moves the tables between two commands, the second shows the standings after two.
fn two_sessions(alloc: Global) -> Option<Vec<Vec<Question>>> {
    let mut sessions = Vec::new(alloc);
    for lines in [
        "enrol\tP1\nmigrate\nenrol\tP2\n",
        "enrol\tP3\nenrol\tP4\nstandings\n",
    ] {
        sessions.push(questions(alloc, lines)?).ok()?;
    }
    Some(sessions)
}

/// The serial that these files hold, and the version of their tables.
fn held_in(alloc: Global, files: &Disks) -> Option<(u32, u8)> {
    let files = Files {
        log: copied(alloc, &files.log, u64::MAX)?,
        db: copied(alloc, &files.db, u64::MAX)?,
    };
    match Connection::open_files(alloc, files, Options::new(7)) {
        Ok(conn) => {
            let desk = adopt_file(alloc, conn).ok()?;
            Some((desk.serial().ok()?, desk.version().ok()?))
        }
        Err(_unopened) => None,
    }
}

/// Whether a session showed something at its end.
fn shows_last(answers: &Result<Vec<Answer>, Refusal>) -> bool {
    match answers {
        Ok(answers) => matches!(answers.as_slice(), [.., Answer::Text(_)]),
        Err(_why) => false,
    }
}

/// The serial and the version after both sessions, if the log stops after `calls` calls, and comes back. None within if a session
/// can't be closed or opened.
fn held_after(alloc: Global, files: &Disks, calls: u64) -> Option<Option<(u32, u8)>> {
    let files = Files {
        log: copied(alloc, &files.log, calls)?,
        db: copied(alloc, &files.db, u64::MAX)?,
    };
    let held = hold_sessions(alloc, files, Options::new(7), two_sessions(alloc)?).ok()?;
    match (held.answers.as_slice(), &held.files) {
        ([_first, last], Ok(files)) if shows_last(last) => Some(Some(held_in(alloc, files)?)),
        (_some, Err(_left)) => Some(None),
        _ => None,
    }
}

/// Whether a stop cut off the first session, before its migration and after it, and the second went on. None if a stop leaves anything
/// else.
fn are_cut_off(alloc: Global) -> Option<bool> {
    let files = old_files(alloc)?;
    let mut before = false;
    let mut after = false;
    for calls in [29, 33, 37, 41, 45] {
        match held_after(alloc, &files, calls)? {
            Some((2 | 3, 1)) => before = true,
            Some((3, 2)) => after = true,
            Some((4, 2)) | None => {}
            Some(_) => return None,
        }
    }
    Some(before && after)
}

#[test]
fn sessions_go_on(rt: HostRuntime) -> Result<(), Fail> {
    let alloc = rt.alloc();
    let held = old_files(alloc).and_then(|files| held_after(alloc, &files, u64::MAX));
    assert_eq!(rt; held, Some(Some((4, 2))));
    assert_eq!(rt; are_cut_off(alloc), Some(true));
    Ok(())
}
