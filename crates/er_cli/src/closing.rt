ghost use Rattle.std.specs.Prelude.{◌≡◌, IsTrue, MatchOption};
ghost use Rattle.sqlite.specs.Files.{file_state};
ghost use Rattle.er_desk.specs.Opening.{why_of};
ghost use Rattle.er_cli.specs.Remains.{IsClearedOf, IsUnclosed, LetsNoneGo, PutsAway, RemainsOf};
ghost use Rattle.sqlite_store.specs.FileStore.{view, faults, recovers, is_shielded};
ghost use Rattle.sqlite_trees.specs.View.{IsQuiet, IsClean as IsSure, IsRolledBack as IsUndone};
ghost use Rattle.sqlite.specs.Held.{AreDatabases};

use crate::host::Host;
use crate::logs::NewLog;
use crate::remains::{OpenError, Remains};
use er_copy::copy_files;
use er_desk::{Desk, OpenFault, into_connection};
use sqlite::{Connection, FileStore, Leftover};
use sqlite_disk::Disk;
use sqlite_trees::store::Store;
use std::alloc::Global;

/// What the second half of a log's salts is made from. `copy_files` is proved for each seed, and the first half counts up, so that the
/// salts of two logs in a row differ.
const SALT_SEED: u64 = 0;

/// The store of a connection, with what is not committed rolled back. Others call this one, so that the proof of a generic call at the
/// store in a file is paid once.
pub fn into_store<D: Disk + Drop>(conn: Connection<FileStore<D>>) -> FileStore<D>
    ensures numbered { IsSure (view result) → IsTrue (view result).is_numbered }
    ensures sound { IsSure (view result) → AreDatabases (recovers result) }
    ensures undone { IsUndone (view conn.store) (view result) }
    ensures quiet { IsQuiet view faults recovers is_shielded conn.store result }
{
    conn.into_store()
}

/// Closes a connection to a file: copies the log into the database file, by the log's own crate. That says of each exit what a crash may
/// leave, so whatever fails then, the files hold what was committed. After a fault of the store nothing is written.
pub fn close<D: Disk + Drop>(alloc: Global, conn: Connection<FileStore<D>>) -> Remains<D>
    ensures { RemainsOf (file_state conn) result }
{
    let store = into_store(conn);
    if store.is_broken() {
        return Remains::Unclosed(store);
    }
    let (files, is_copied) = copy_files(alloc, store.close(), SALT_SEED);
    if is_copied {
        Remains::Closed(files)
    } else {
        Remains::Uncopied(files)
    }
}

/// Gives the files of a connection back as they are, open, and writes nothing.
pub fn keep_open<D: Disk + Drop>(conn: Connection<FileStore<D>>) -> Remains<D>
    ensures taken { RemainsOf (file_state conn) result }
    ensures unclosed { IsUnclosed result }
{
    Remains::Unclosed(into_store(conn))
}

/// Closes the desk of a file at the end of a run, and gives back what is left of the file. After a fault of the store its log is left for
/// the next opening, which finds in it what a stop would have left.
pub fn put_away<D: Disk + Drop>(alloc: Global, desk: Desk<FileStore<D>>) -> Remains<D>
    ensures { PutsAway desk result }
{
    let is_over = desk.needs_reopen();
    let conn = into_connection(desk);
    if is_over {
        keep_open(conn)
    } else {
        close(alloc, conn)
    }
}

/// Takes away what an opening that was refused has left beside the file, and gives back what is left of the file. `log` is a log that this
/// run made.
fn clear_refused<H: Host>(
    alloc: Global,
    host: &mut H,
    conn: Connection<FileStore<H::File>>,
    log: Option<&NewLog>,
) -> Remains<H::File>
    ensures { RemainsOf (file_state conn) result }
{
    let Some(log) = log else {
        return keep_open(conn);
    };
    let left = close(alloc, conn);
    if let Remains::Closed(_files) = &left {
        host.remove_empty(log, &left);
    }
    left
}

/// The same if the file was not opened. If nothing is left of it, it isn't held, and no log is removed; nor is that of a new
/// database.
fn clear_unopened<H: Host>(
    host: &mut H,
    left: Option<Leftover<H::File>>,
    log: Option<&NewLog>,
) -> Remains<H::File>
    ensures left { MatchOption left (result ≡ Remains.Nothing) (λ rest. result ≡ Remains.Unopened rest) }
    ensures held { LetsNoneGo result (H.is_held host.old) (H.is_held host.new) }
{
    let Some(rest) = left else {
        return Remains::Nothing;
    };
    let left = Remains::Unopened(rest);
    if let Some(log) = log
        && !log.is_beside_nothing()
    {
        host.remove_empty(log, &left);
    }
    left
}

/// The same of an opening of an event, and says why it was refused.
pub fn clear_fault<H: Host>(
    alloc: Global,
    host: &mut H,
    fault: OpenFault<H::File>,
    log: Option<&NewLog>,
) -> OpenError<H::File>
    ensures why { result.why ≡ why_of fault }
    ensures left { IsClearedOf fault result.left }
    ensures held { LetsNoneGo result.left (H.is_held host.old) (H.is_held host.new) }
{
    let why = fault.refusal();
    let left = match fault {
        OpenFault::Unopened { left, .. } => clear_unopened(host, left, log),
        OpenFault::Refused { conn, .. } => clear_refused(alloc, host, conn, log),
    };
    OpenError { why, left }
}
