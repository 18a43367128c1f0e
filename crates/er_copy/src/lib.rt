//! Copies the log of a store that was closed into its database file, by the crate of the log itself: at each exit that crate says what a
//! crash may leave.
#![tactic(auto)]

ghost use Rattle.std.specs.Prelude.{ℕ, IsTrue};
ghost use Rattle.sqlite_disk.specs.Disk.{Cut, Follows};
ghost use Rattle.sqlite_trees.specs.Tree.{Trees};
ghost use Rattle.sqlite_wal.specs.Reads.{AreClean, IsClean};
ghost use Rattle.sqlite_wal.specs.Log.{AreUsable};
ghost use Rattle.er_copy.specs.Copied.{HasNoFrames, HoldAll, HoldAllAlone, KeepsLog, Probes};

use sqlite_disk::{Disk, Files};
use sqlite_wal::{Log, PageSize, probe_page_size};
use std::alloc::{AllocFailed, Global};

/// From this length on, a header (32 bytes) with the head of a frame (24), a file counts as a log.
const EMPTY_LOG: usize = 32 + 24;

/// The page size that the files name.
fn page_size<D: Disk>(files: &mut Files<D>) -> Option<PageSize>
    requires log { IsTrue (D.Disk.is_usable files.old.log) }
    requires db { IsTrue (D.Disk.is_usable files.old.db) }
    ensures { Probes D.Disk files.old files.new result }
{
    match probe_page_size(files) {
        Ok(found) => found,
        Err(_error) => None,
    }
}

/// Recovers the log, and copies it. Whatever fails, the files hold what they held.
fn copy<D: Disk>(log: &mut Log<D>) -> bool
    requires { AreUsable log.old }
    ensures keeps { KeepsLog log.old log.new }
    ensures copied { IsTrue result → HasNoFrames log.new }
{
    match log.recover() {
        Ok(()) => log.finish().is_ok(),
        Err(_error) => false,
    }
}

/// Makes an empty log so long that it counts as one. The next opening reads the log twice: it keeps the header of one that counts, and to
/// any other it writes a new header each time, with three syncs more. If this fails the log is still empty.
fn lengthen<D: Disk>(log: &mut D)
    requires { IsTrue (D.Disk.is_usable log.old) }
    ensures clean { IsClean D.Disk log.new → IsClean D.Disk log.old }
    ensures crash { Follows (Cut EMPTY_LOG) (D.Disk.may_leave log.old) (D.Disk.may_leave log.new) }
{
    let _ = log.set_len(EMPTY_LOG);
}

/// Copies the log into the database file, and says whether that was done. At each exit what a crash may leave holds what all of it held
/// before; so a stop in it loses nothing.
pub fn copy_files<D: Disk>(alloc: Global, files: Files<D>, seed: u64) -> (Files<D>, bool)
    requires log { IsTrue (D.Disk.is_usable files.log) }
    requires db { IsTrue (D.Disk.is_usable files.db) }
    ensures clean { AreClean D.Disk result.0.log result.0.db → AreClean D.Disk files.log files.db }
    ensures keeps { AreClean D.Disk result.0.log result.0.db → (size : ℕ) (db : Trees)
        → HoldAll D.Disk files size db → HoldAll D.Disk result.0 size db }
    ensures copied { IsTrue result.1 → AreClean D.Disk result.0.log result.0.db
        → (size : ℕ) (db : Trees) → HoldAll D.Disk files size db
        → HoldAllAlone D.Disk result.0 size db }
{
    let mut files = files;
    let Some(size) = page_size(&mut files) else {
        return (files, false);
    };
    let mut log = match Log::new(alloc, files, size, seed) {
        Ok(log) => log,
        Err(AllocFailed { value }) => return (value, false),
    };
    if !copy(&mut log) {
        return (log.into_files(), false);
    }
    let mut copied = log.into_files();
    lengthen(&mut copied.log);
    (copied, true)
}
