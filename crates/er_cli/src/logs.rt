//! The log that a run makes beside a file. It is removed again if the run is refused and nothing is in the log.
ghost use Rattle.std.specs.Prelude.{◌≡◌, ◌<◌, ◌↔◌, None, IsTrue, IfOk, IfSome, string_bytes};
ghost use Rattle.er_cli.specs.Logs.{IsUnused, RemovesOnly, Lengths, RemovesEmpty};

use std::alloc::Global;
use std::fs;
use std::io::{self, ErrorKind};

/// A log that is shorter than its header (32 bytes) with one frame (24) of the smallest page (512) holds nothing.
const LEAST_LOG: u64 = 32 + 24 + 512;

/// The files beside that of an event. Only `remove` takes a reference that can write, so that whoever looks removes none.
pub trait Folder {
    /// How long each is, if it is there and that is known.
    ghost lengths: { Self → Lengths };

    /// What a path leads to, if it is a link.
    fn target(&self, path: &str) -> io::Result<String>;

    /// How long a file is. None if it is not there.
    fn length(&self, path: &str) -> io::Result<Option<u64>>
        ensures { IfOk result (λ found. IfSome (lengths self.now) (λ known. found ≡ known path.now)) };

    /// Removes a file, if that can be done.
    fn remove(&mut self, path: &str)
        ensures { RemovesOnly (lengths self.old) path.now (lengths self.new) };
}

/// The log that a run will make beside a file which has none.
#[derive(Drop)]
pub struct NewLog {
    path: String,
    /// The file is not there, or is empty. If it is not opened then, its log may be what tells how far the new database has got.
    is_beside_nothing: bool,
}

/// Where the log of a file lies: beside what a link leads to.
fn log_path<F: Folder>(alloc: Global, folder: &F, path: &str) -> Option<String> {
    match folder.target(path) {
        Ok(target) => format!(in alloc; "{target}-wal").ok(),
        Err(_error) => format!(in alloc; "{path}-wal").ok(),
    }
}

/// Whether a file is not there, or is empty.
fn is_nothing<F: Folder>(folder: &F, path: &str) -> bool {
    match folder.length(path) {
        Ok(Some(length)) => length == 0,
        Ok(None) | Err(_) => true,
    }
}

impl NewLog {
    /// Whether the file is not there, or is empty.
    pub fn is_beside_nothing(&self) -> bool {
        self.is_beside_nothing
    }
}

/// The log that a run will make beside a file. None if one is there already, or if that can't be told.
pub fn log_to_make<F: Folder>(alloc: Global, folder: &F, path: &str) -> Option<NewLog>
    ensures { IfSome result (λ log. IsUnused (F.lengths folder.now) (string_bytes log.path)) }
{
    let log = NewLog {
        path: log_path(alloc, folder, path)?,
        is_beside_nothing: is_nothing(folder, path),
    };
    match folder.length(log.path.as_str()) {
        Ok(None) => Some(log),
        Ok(Some(_)) | Err(_) => None,
    }
}

/// Whether a log of this many bytes holds nothing.
fn holds_nothing(size: u64) -> bool
    ensures { IsTrue result ↔ (size < LEAST_LOG) }
{
    size < LEAST_LOG
}

/// Removes a log that this run made, if nothing is in it. Whoever calls still holds the file, so that nobody else writes the log.
pub fn remove_empty<F: Folder>(folder: &mut F, log: &NewLog)
    ensures { RemovesEmpty (F.lengths folder.old) (string_bytes log.now.path) (F.lengths folder.new) }
{
    match folder.length(log.path.as_str()) {
        Ok(Some(length)) if holds_nothing(length) => folder.remove(log.path.as_str()),
        _ => {}
    }
}

/// The system's own files, of which nothing is known.
#[derive(Drop)]
pub struct SystemFolder<'a> {
    rt: &'a HostRuntime,
}

impl<'a> SystemFolder<'a> {
    pub fn new(rt: &'a HostRuntime) -> SystemFolder<'a> {
        SystemFolder { rt }
    }
}

impl Folder for SystemFolder<'_> {
    ghost lengths = { λ _. None };

    fn target(&self, path: &str) -> io::Result<String> {
        let target = fs::canonicalize(self.rt, path)?;
        Ok(String::from_str(self.rt.alloc(), target.as_str())?)
    }

    fn length(&self, path: &str) -> io::Result<Option<u64>> {
        match fs::metadata(self.rt, path) {
            Ok(found) => Ok(Some(found.len())),
            Err(error) if error.kind() == ErrorKind::NotFound => Ok(None),
            Err(error) => Err(error),
        }
    }

    fn remove(&mut self, path: &str) {
        let _ = fs::remove_file(self.rt, path);
    }
}
