//! Sessions over the files of an event, one after the other, with a crash after each. No command line runs them: they prove what one
//! session after another does to a file.
#![tactic(auto)]

ghost use Rattle.std.specs.Prelude.{◌≡◌, List, IsTrue, IfOk, IfErr, MatchResult};
ghost use Rattle.sqlite.specs.Files.{file_state, image_of};
ghost use Rattle.er_desk.specs.Desk.{Point, Placed};
ghost use Rattle.er_desk.specs.History.{Ended};
ghost use Rattle.er_desk.specs.Headline.{RecoversHistory};
ghost use Rattle.sqlite_wal.specs.Files.{outcomes};
ghost use Rattle.sqlite_wal.specs.Reads.{AreClean};
ghost use Rattle.er_sessions.specs.Sessions.{AreCut, AsksAll, AsksOver, HoldsAll, HoldsNext, IfCleanFiles, IsClosedOrKept, MayMoveFor};
ghost use Rattle.er_sessions.specs.inside.Closing.{AsksAndCloses};

use er_answers::{Answer, Question, ask};
use er_cli::laws::migrations_go_on;
use er_cli::{Remains, close, into_store};
use er_desk::laws::{next_sessions, sessions_join};
use er_desk::{Desk, adopt_file};
use er_event::Refusal;
use er_store::laws::stored_represents;
use er_store::refusal_of;
use sqlite::{Alter, Connection, FileStore, Files, Options};
use sqlite_disk::{Crash, Disk};
use std::alloc::{AllocError, Global};

/// A session over the files of an event: the answers to its questions, or why there are none, and the files, which the next session
/// may open. Or they can't be opened, or closed, and what is left of them comes back.
#[derive(Drop)]
pub struct SessionEnd<D: Disk + Drop> {
    pub answers: Result<Vec<Answer>, Refusal>,
    pub files: Result<Files<D>, Remains<D>>,
}

/// The files of a connection as they are, with nothing written.
fn cut<D: Disk + Drop>(conn: Connection<FileStore<D>>) -> Files<D>
    ensures { AreClean D.Disk result.log result.db → AreCut D.Disk (file_state conn) result }
{
    let store = into_store(conn);
    store.close()
}

/// Closes the files of a connection, or cuts it off if a fault of the store came before.
fn let_go<D: Disk + Drop>(
    alloc: Global,
    conn: Connection<FileStore<D>>,
    is_over: bool,
) -> Result<Files<D>, Remains<D>>
    ensures { IsClosedOrKept (file_state conn) result }
{
    if is_over {
        return Ok(cut(conn));
    }
    match close(alloc, conn) {
        Remains::Closed(files) => Ok(files),
        left => Err(left),
    }
}

/// Asks the desk one thing after the other. The answers are reserved first, so that all stays as it was if memory runs out for them.
fn ask_all<S: Alter>(
    alloc: Global,
    desk: &mut Desk<S>,
    questions: Vec<Question>,
) -> Result<Vec<Answer>, AllocError>
    ensures { MatchResult result
        (λ answers. AsksAll S.Store desk.old questions.items answers.items desk.new)
        (λ _. desk.new ≡ desk.old) }
{
    let mut answers = Vec::with_capacity(alloc, questions.len())?;
    for question in questions {
        let told = ask(alloc, desk, question);
        let Ok(()) = answers.push(told) else {
            unreachable!()
        };
    }
    Ok(answers)
}

/// Asks the desk all of it, and gives back its answers, whether the store has had a fault, and its connection.
fn ask_and_close<S: Alter>(
    alloc: Global,
    mut desk: Desk<S>,
    questions: Vec<Question>,
) -> (Result<Vec<Answer>, AllocError>, bool, Connection<S>)
    ensures { AsksAndCloses S.Store desk questions.items result }
{
    let answers = ask_all(alloc, &mut desk, questions);
    // To look at a desk asks nothing of its file: this tells the proof.
    desk.asks_nothing();
    let is_over = desk.needs_reopen();
    (answers, is_over, desk.close())
}

/// Asks the desk all of it, and lets its files go.
fn hold<D: Disk + Drop>(
    alloc: Global,
    desk: Desk<FileStore<D>>,
    questions: Vec<Question>,
) -> SessionEnd<D>
    ensures { AsksOver desk questions.items result.answers result.files }
{
    let (asked, is_over, conn) = ask_and_close(alloc, desk, questions);
    let files = let_go(alloc, conn, is_over);
    match asked {
        Ok(answers) => SessionEnd {
            answers: Ok(answers),
            files,
        },
        Err(_error) => SessionEnd {
            answers: Err(Refusal::Memory),
            files,
        },
    }
}

/// Opens the event in these files, asks it all of this, and lets the files go.
pub fn next_session<D: Disk + Drop>(
    alloc: Global,
    files: Files<D>,
    options: Options,
    questions: Vec<Question>,
) -> SessionEnd<D>
    requires log { IsTrue (D.Disk.is_usable files.log) }
    requires db { IsTrue (D.Disk.is_usable files.db) }
    // Of files that a history left, the history goes on with this session.
    ensures holds { (new : Point) (first : Placed) (ends : List Ended)
        → RecoversHistory (image_of D.Disk files) new ends first
        → MayMoveFor (image_of D.Disk files) first questions.items
        → HoldsNext D.Disk new ends first files questions.items result.answers result.files }
    // On a disk that is clean then, it was clean before.
    ensures clean { IfCleanFiles (AreClean D.Disk files.log files.db) result.files }
{
    // What a session leaves is an end of the history with that session, two sessions are one, a migration leads where it says, and what a
    // crash left represents the event again: these tell the proof.
    next_sessions();
    sessions_join();
    migrations_go_on::<D>();
    stored_represents();
    match Connection::open_files(alloc, files, options) {
        Ok(conn) => match adopt_file(alloc, conn) {
            Ok(desk) => hold(alloc, desk, questions),
            Err((back, why)) => SessionEnd {
                answers: Err(why),
                files: Ok(cut(back)),
            },
        },
        Err((error, rest)) => SessionEnd {
            answers: Err(refusal_of(error)),
            files: Err(Remains::Unopened(rest)),
        },
    }
}

/// Has the files of a disk crash, and come back.
fn crash<D: Crash + Drop>(files: Files<D>) -> Files<D>
    ensures left { outcomes D.Disk files.log files.db (image_of D.Disk result) }
    ensures usable { IsTrue (D.Disk.is_usable result.log) × IsTrue (D.Disk.is_usable result.db) }
    ensures clean { AreClean D.Disk result.log result.db → AreClean D.Disk files.log files.db }
{
    let Files { log, db } = files;
    let (mut log, mut db) = (log, db);
    log.crash();
    db.crash();
    Files { log, db }
}

/// Sessions that were held: the answers to the questions of each, and the files after the last. If it could not open them, or not
/// close them, what is left of them.
#[derive(Drop)]
pub struct Sessions<D: Disk + Drop> {
    pub answers: Vec<Result<Vec<Answer>, Refusal>>,
    pub files: Result<Files<D>, Remains<D>>,
}

/// Holds sessions over the same files, one after the other, each with a crash after it: closed, or cut off by a fault of the disk. One
/// that can't open the files, or can't close them with no fault before, is the last. If there is no memory for the answers, the files
/// come back as they are.
pub fn hold_sessions<D: Crash + Drop>(
    alloc: Global,
    files: Files<D>,
    options: Options,
    sessions: Vec<Vec<Question>>,
) -> Result<Sessions<D>, Files<D>>
    requires log { IsTrue (D.Disk.is_usable files.log) }
    requires db { IsTrue (D.Disk.is_usable files.db) }
    // Files that a history left, are left by the longer history.
    ensures holds { (new : Point) (first : Placed) (ends : List Ended)
        → RecoversHistory (image_of D.Disk files) new ends first
        → IfOk result (λ it. HoldsAll D.Disk new ends first (image_of D.Disk files)
        sessions.items it.answers.items it.files) }
    ensures back { IfErr result (λ back. back ≡ files) }
{
    let Ok(room) = Vec::with_capacity(alloc, sessions.len()) else {
        return Err(files);
    };
    let mut answers = room;
    let mut now = files;
    for questions in sessions {
        let held = next_session(alloc, now, options, questions);
        let SessionEnd {
            answers: told,
            files,
        } = held;
        let Ok(()) = answers.push(told) else {
            unreachable!()
        };
        match files {
            Ok(last) => now = crash(last),
            Err(left) => {
                return Ok(Sessions {
                    answers,
                    files: Err(left),
                });
            }
        }
    }
    Ok(Sessions {
        answers,
        files: Ok(now),
    })
}
