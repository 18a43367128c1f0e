ghost use Rattle.std.specs.Prelude.{◌≡◌, IfOk, Some, false};
ghost use Rattle.sqlite.specs.Files.{over_files, file_state};
ghost use Rattle.sqlite_wal.specs.Files.{image_at};
ghost use Rattle.sqlite_wal.specs.Recovery.{Image};
ghost use Rattle.er_event.specs.{Refusal.refusal_text, Sound.AreLimits};
ghost use Rattle.er_desk.specs.Begins.{AdoptsDesk, HasAdopted, HasNotAdopted, HasCreated, HasNotCreated};
ghost use Rattle.er_desk.specs.Files.{OpensFile, MakesFile};
ghost use Rattle.er_desk.specs.Opening.{FromOpened, OpensImage, why_of};

use crate::desk::Desk;
use er_event::{Name, Refusal};
use er_store::laws::{represented_is_read, stored_represents};
use er_store::refusal_of;
use sqlite::{Alter, Connection, Error, FileFrom, FileStore, Leftover, Start};
use sqlite_disk::Disk;
use std::alloc::Global;
use std::{error, fmt};

/// Why a file was not opened as a desk.
#[derive(Drop)]
pub enum OpenFault<D: Disk + Drop> {
    /// The files were not opened. What is left of them comes back, if they are there.
    Unopened {
        error: Error,
        left: Option<Leftover<D>>,
    },
    /// The file was opened, and has no event that can be served.
    Refused {
        conn: Connection<FileStore<D>>,
        refusal: Refusal,
    },
}

impl<D: Disk + Drop> OpenFault<D> {
    /// What it means to a caller. Files that were not opened mean out of memory, or a fault of the store.
    pub fn refusal(&self) -> Refusal
        ensures value { result ≡ why_of self.now }
    {
        match self {
            OpenFault::Unopened { error, .. } => refusal_of(*error),
            OpenFault::Refused { refusal, .. } => *refusal,
        }
    }
}

impl<D: Disk + Drop> fmt::Debug for OpenFault<D> {
    fn fmt<W: fmt::Write>(&self, f: &mut fmt::Formatter<W>) -> fmt::Result {
        let refusal = self.refusal();
        write!(f, "OpenFault({refusal:?})")
    }
}

impl<D: Disk + Drop> fmt::Display for OpenFault<D> {
    ghost output = { λ fault. Some (refusal_text (why_of fault)) };

    fn fmt<W: fmt::Write>(&self, f: &mut fmt::Formatter<W>) -> fmt::Result {
        let refusal = self.refusal();
        write!(f, "{refusal}")
    }
}

impl<D: Disk + Drop> error::Error for OpenFault<D> {}

/// What the storage crate gives of the files at a path: a connection, or why it did not open them, with what is left.
pub type Opened<D> = Result<Connection<FileStore<D>>, (Error, Option<Leftover<D>>)>;

/// Takes over the event of a file, as `Desk::adopt` does. Others call this one, so that the proof of a generic call at the store in a file is
/// paid once.
pub fn adopt_file<D: Disk + Drop>(
    alloc: Global,
    conn: Connection<FileStore<D>>,
) -> Result<Desk<FileStore<D>>, (Connection<FileStore<D>>, Refusal)>
    requires mode { conn.in_transaction ≡ false }
    ensures { AdoptsDesk over_files conn result }
{
    Desk::adopt(alloc, conn)
}

/// Takes over the event of files that were opened. Just those that were not are called unopened.
fn take_over<D: Disk + Drop>(
    alloc: Global,
    opened: Opened<D>,
) -> Result<Desk<FileStore<D>>, OpenFault<D>>
    requires mode { IfOk opened (λ conn. conn.in_transaction ≡ false) }
    ensures { FromOpened (λ conn. HasAdopted over_files (file_state conn))
        (λ conn. HasNotAdopted over_files (file_state conn)) opened result }
{
    let conn = match opened {
        Ok(conn) => conn,
        Err((error, left)) => return Err(OpenFault::Unopened { error, left }),
    };
    match adopt_file(alloc, conn) {
        Ok(desk) => Ok(desk),
        Err((conn, refusal)) => Err(OpenFault::Refused { conn, refusal }),
    }
}

/// Makes an event in files that were opened. Just those that were not are called unopened.
fn create_over<D: Disk + Drop>(
    alloc: Global,
    opened: Opened<D>,
    name: Name,
    rounds: u8,
    cut: u8,
) -> Result<Desk<FileStore<D>>, OpenFault<D>>
    requires mode { IfOk opened (λ conn. conn.in_transaction ≡ false) }
    ensures { FromOpened (λ conn. HasCreated over_files name rounds cut (file_state conn))
        (HasNotCreated over_files name rounds cut) opened result }
{
    let conn = match opened {
        Ok(conn) => conn,
        Err((error, left)) => return Err(OpenFault::Unopened { error, left }),
    };
    match Desk::create(alloc, conn, name, rounds, cut) {
        Ok(desk) => Ok(desk),
        Err((conn, why)) => Err(OpenFault::Refused { conn, refusal: why }),
    }
}

/// Takes over the event of files that were opened. If a crash may have left what they held, the event and the serial found are those that it
/// represents, and a crash then leaves them again.
pub fn adopt_opened<D: Disk + Drop>(
    alloc: Global,
    opened: Opened<D>,
) -> Result<Desk<FileStore<D>>, OpenFault<D>>
    requires mode { IfOk opened (λ conn. conn.in_transaction ≡ false) }
    ensures adopts { FromOpened (λ conn. HasAdopted over_files (file_state conn))
        (λ conn. HasNotAdopted over_files (file_state conn)) opened result }
    ensures opens { (image : Image) → OpensImage image opened → OpensFile image result }
{
    // What a crash left represents the event again: this tells the proof.
    stored_represents();
    take_over(alloc, opened)
}

/// Makes an event in files that were opened. Whoever calls has checked the limits.
pub fn create_in_opened<D: Disk + Drop>(
    alloc: Global,
    opened: Opened<D>,
    name: Name,
    rounds: u8,
    cut: u8,
) -> Result<Desk<FileStore<D>>, OpenFault<D>>
    requires mode { IfOk opened (λ conn. conn.in_transaction ≡ false) }
    requires limits { AreLimits rounds cut }
    ensures creates { FromOpened (λ conn. HasCreated over_files name rounds cut (file_state conn))
        (HasNotCreated over_files name rounds cut) opened result }
    ensures makes { (image : Image) → OpensImage image opened → MakesFile image name rounds cut result }
{
    // What a crash left of an event represents it, and can be read: these tell the proof.
    stored_represents();
    represented_is_read();
    create_over(alloc, opened, name, rounds, cut)
}

/// Opens the files at a path, or makes them. `start` stands for what they hold.
pub fn open_files<S: Start>(rt: &HostRuntime, path: &str, start: S) -> Opened<FileFrom<S>>
    ensures { OpensImage (image_at S.Start) result }
{
    Connection::open_from(rt, path, false, start)
}

/// Opens the file of an event, as `adopt_opened` does.
pub fn open<S: Start>(
    rt: &HostRuntime,
    path: &str,
    start: S,
) -> Result<Desk<FileStore<FileFrom<S>>>, OpenFault<FileFrom<S>>>
    ensures { OpensFile (image_at S.Start) result }
{
    adopt_opened(rt.alloc(), open_files(rt, path, start))
}
