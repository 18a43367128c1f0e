//! Whole command lines over a host in memory.
ghost use Rattle.std.specs.Prelude.{◌≡◌, ℕ, List, [], map, option_and_then, Option, Some, None, IsTrue, is_some};
ghost use Rattle.er_cli.specs.World.{World};
ghost use Rattle.er_desk.specs.Opening.{HoldJust};
ghost use Rattle.sqlite.specs.Files.{image_of};
ghost use Rattle.std.specs.Option.{option_map};
ghost use Rattle.er_cli.specs.Clients.{Got};
ghost use Rattle.er_cli_tests.specs.Room.{room_image};

use crate::clients::{Queue, both_are_answered, two_clients};
use er_cli::{Host, NewLog, Outcome, Remains, run_on};
use er_desk::Opened;
use sqlite::{Connection, Error, ErrorCode, Files, Options};
use sqlite_disk::{Disk, Memory};
use std::alloc::Global;
use std::collections::VecDeque;
use std::io::{self, ErrorKind, Write};
use std::test::Fail;

/// One file, one list and one queue of clients, whatever the path or the port.
#[derive(Drop)]
struct Room {
    alloc: Global,
    files: Option<Files<Memory>>,
    is_there: bool,
    list: Vec<u8>,
    visitors: Option<Queue>,
    /// Those who were listened to.
    gone: Option<Queue>,
    is_held: bool,
}

/// An opening begins with nothing pending. It says whether that is so now.
fn settle<D: Disk>(files: &mut Files<D>) -> bool
    requires log { IsTrue (D.Disk.is_usable files.old.log) }
    requires db { IsTrue (D.Disk.is_usable files.old.db) }
    ensures just { IsTrue result → HoldJust D.Disk (image_of D.Disk files.old) files.new }
    ensures log { IsTrue result → IsTrue (D.Disk.is_usable files.new.log) }
    ensures db { IsTrue result → IsTrue (D.Disk.is_usable files.new.db) }
{
    files.log.sync().is_ok() && files.db.sync().is_ok()
}

impl Host for Room {
    type File = Memory;

    type List = VecDeque<u8>;

    type Visitors = Queue;

    ghost world = { λ room. record {
      image = λ _. room_image room.files;
      is_there = λ _. Some room.is_there;
      lengths = None;
      list = λ _. Some room.list.items;
      coming = λ _. option_map (λ queue. map (λ input. input.items) queue.coming.items) room.visitors;
    } };

    ghost got = { λ room. option_and_then (λ queue. option_map (λ gone. map (λ it.
        record { bytes = Some it.bytes.items; failed = it.has_failed }) gone.items) queue.gone) room.gone };

    ghost is_shut = { λ room. is_some room.files };

    ghost is_held = { λ room. room.is_held };

    fn is_there(&self, _path: &str) -> io::Result<bool> {
        Ok(self.is_there)
    }

    fn log_to_make(&self, _path: &str) -> Option<NewLog> {
        None
    }

    fn open(&mut self, _path: &str) -> Opened<Memory> {
        let Some(mut files) = self.files.take() else {
            unreachable!()
        };
        if !files.log.may_be_used() || !files.db.may_be_used() {
            return Err((Error::SqliteFailure(ErrorCode::CannotOpen), None));
        }
        if !settle(&mut files) {
            return Err((Error::SqliteFailure(ErrorCode::OutOfMemory), None));
        }
        self.is_held = true;
        match Connection::open_files(self.alloc, files, Options::new(7)) {
            Ok(conn) => Ok(conn),
            Err((error, left)) => Err((error, Some(left))),
        }
    }

    fn open_list(&self, _path: &str) -> io::Result<VecDeque<u8>> {
        let mut bytes = VecDeque::new(self.alloc);
        bytes.write_all(&self.list)?;
        Ok(bytes)
    }

    fn listen(&mut self, port: u16) -> io::Result<(Queue, u16)> {
        match self.visitors.take() {
            Some(queue) => Ok((queue.anew(), if port == 0 { 4000 } else { port })),
            None => Err(ErrorKind::AddrInUse.into()),
        }
    }

    fn leave(&mut self, visitors: Queue) {
        self.gone = Some(visitors);
    }

    fn remove_empty(&mut self, _log: &NewLog, _left: &Remains<Memory>)
        ensures { self.new ≡ self.old }
    {}
}

/// The words of a line.
fn words(alloc: Global, line: &str) -> Option<Vec<String>> {
    let mut words = Vec::new(alloc);
    for word in line.split(' ') {
        words.push(String::from_str(alloc, word).ok()?).ok()?;
    }
    Some(words)
}

/// Whether a line prints this and no error, and those whom it served got their answers.
fn is_answered(room: &Room, line: &str, out: &[u8], err: &[u8], answer: &str) -> bool {
    let are_served = match &room.gone {
        Some(queue) => both_are_answered(queue) == Some(true),
        None => !line.starts_with("serve"),
    };
    out == answer.as_bytes() && err.is_empty() && are_served
}

/// Runs the words of a line. That it has no clause keeps the proofs of its callers short.
fn run_in(
    alloc: Global,
    room: &mut Room,
    words: &[String],
    out: &mut Vec<u8>,
    err: &mut Vec<u8>,
) -> Outcome<Memory>
    requires { IsTrue (is_some room.old.files) }
{
    run_on(alloc, room, words, out, err)
}

/// The files that were closed.
fn closed(left: Remains<Memory>) -> Option<Files<Memory>> {
    match left {
        Remains::Closed(files) => Some(files),
        _ => None,
    }
}

/// The files that a command line leaves, if it ends well and prints this and no error.
fn left_by(
    alloc: Global,
    files: Files<Memory>,
    is_there: bool,
    line: &str,
    answer: &str,
) -> Option<Files<Memory>> {
    let mut room = Room {
        alloc,
        files: Some(files),
        is_there,
        list: Vec::from_slice(alloc, b"name\nAna\nBo\n").ok()?,
        visitors: two_clients(alloc),
        gone: None,
        is_held: false,
    };
    let (mut out, mut err) = (Vec::new(alloc), Vec::new(alloc));
    let words = words(alloc, line)?;
    let Outcome { status, left } = run_in(alloc, &mut room, words.as_slice(), &mut out, &mut err);
    if status != 0 || !is_answered(&room, line, &out, &err, answer) {
        return None;
    }
    closed(left)
}

/// Whether each of the lines is answered so, over the files that the one before it left.
fn are_answered(alloc: Global) -> Option<bool> {
    let mut files = Files {
        log: Memory::new(alloc),
        db: Memory::new(alloc),
    };
    let mut is_there = false;
    for (line, answer) in [
        ("init friday.event Friday 3 0", "ok 0\n"),
        ("import friday.event players.csv", "added 2 already 0\n"),
        ("enrol friday.event Cy", "ok 3\n"),
        ("import friday.event players.csv", "added 0 already 2\n"),
        (
            "export friday.event players",
            "no,name,dropped\n1,Ana,0\n2,Bo,0\n3,Cy,0\n",
        ),
        ("enrol friday.event Di", "ok 4\n"),
        ("start friday.event", "ok 5\n"),
        (
            "pair friday.event 1 0000000000000000000000000000000000000000000000000000000000000000",
            "ok 6\n",
        ),
        ("serve friday.event 0 2", "listening 4000\nserved 2\n"),
    ] {
        files = left_by(alloc, files, is_there, line, answer)?;
        is_there = true;
    }
    Some(true)
}

/// Whether a line over a file that isn't there leaves nothing, and says so.
fn is_absent(alloc: Global) -> Option<bool> {
    let mut room = Room {
        alloc,
        files: Some(Files {
            log: Memory::new(alloc),
            db: Memory::new(alloc),
        }),
        is_there: false,
        list: Vec::new(alloc),
        visitors: None,
        gone: None,
        is_held: false,
    };
    let (mut out, mut err) = (Vec::new(alloc), Vec::new(alloc));
    let words = words(alloc, "start friday.event")?;
    let Outcome { status, left } = run_in(alloc, &mut room, words.as_slice(), &mut out, &mut err);
    Some(status == 1 && out.is_empty() && room.files.is_some() && matches!(left, Remains::Nothing))
}

#[test]
fn lines_over_memory_are_answered(rt: HostRuntime) -> Result<(), Fail> {
    assert_eq!(rt; are_answered(rt.alloc()), Some(true));
    assert_eq!(rt; is_absent(rt.alloc()), Some(true));
    Ok(())
}
