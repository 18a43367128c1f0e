use er_event::Refusal;
use sqlite::{FileStore, Files, Leftover};
use sqlite_disk::Disk;

/// What a command line gives back of the file of an event. Whoever has it still holds the file, so that nobody else writes that.
#[derive(Drop)]
pub enum Remains<D: Disk + Drop> {
    /// No file is given back. Whether one was opened before, this doesn't say.
    Nothing,
    /// It was closed: the log is copied into the database file.
    Closed(Files<D>),
    /// It was opened, and its store closed. The log could not be copied into the database file, and keeps what it has.
    Uncopied(Files<D>),
    /// It was opened, and not closed: it has no event that can be served, or the store had a fault. The log keeps what it has.
    Unclosed(FileStore<D>),
    /// It could not be opened.
    Unopened(Leftover<D>),
}

/// How a command line has ended, and what it left of the file.
#[derive(Drop)]
pub struct Outcome<D: Disk + Drop> {
    pub status: u8,
    pub left: Remains<D>,
}

/// Why there is no desk, and what is left of a file, if anything is.
#[derive(Drop)]
pub struct OpenError<D: Disk + Drop> {
    pub why: Refusal,
    pub left: Remains<D>,
}
