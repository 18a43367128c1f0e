//! What a command line needs of the system that it runs on, and that system itself.
ghost use Rattle.std.specs.Prelude.{◌≡◌, ◌⊎◌, ◌||◌, ◌≤◌, Bool, true, false, List, [], Option, Some, None, IsTrue, IfOk, IfSome, is_some, string_bytes};
ghost use Rattle.sqlite_wal.specs.Files.{image_at};
ghost use Rattle.er_desk.specs.Opening.{OpensImage};
ghost use Rattle.er_cli.specs.Clients.{Got};
ghost use Rattle.er_cli.specs.Logs.{IsUnused, RemovesEmpty};
ghost use Rattle.er_cli.specs.Remains.{NeedsNoLog};
ghost use Rattle.er_cli.specs.World.{World, KeepsListsAndClients, gives_files, untold};

use crate::clients::{Clients, Listening};
use crate::logs::{NewLog, SystemFolder, log_to_make, remove_empty};
use crate::remains::Remains;
use er_desk::{Opened, open_files};
use sqlite::{FileFrom, Start};
use sqlite_disk::Disk;
use std::fs::{self, File};
use std::io::{self, Read};
use std::net::{Ipv4Addr, TcpListener};

/// Where a command line runs. Whoever is proved for every host relies on nothing of it but what `world` tells.
pub trait Host {
    /// One of the two files that hold an event.
    type File: Disk + Drop;

    /// A list that is read.
    type List: Read + Drop;

    /// Who comes to a port.
    type Visitors: Clients + Drop;

    /// What is there.
    ghost world: { Self → World };

    /// What those who came got, in their order, if that is known.
    ghost got: { Self → Option (List Got) };

    /// No file of an event was opened yet. One is, at most.
    ghost is_shut: { Self → Bool };

    /// A file was opened and given out, open or not.
    ghost is_held: { Self → Bool };

    /// Whether a file is there.
    fn is_there(&self, path: &str) -> io::Result<bool>
        ensures { IfOk result (λ is_there. IfSome ((world self.now).is_there path.now) (λ known. is_there ≡ known)) };

    /// The log that an opening will make beside a file. None if one is there already, or if that can't be told.
    fn log_to_make(&self, path: &str) -> Option<NewLog>
        ensures { IfSome result (λ log. IsUnused (world self.now).lengths (string_bytes log.path)) };

    /// Opens the file of an event, or makes it.
    fn open(&mut self, path: &str) -> Opened<Self::File>
        requires shut { IsTrue (is_shut self.old) }
        ensures opens { OpensImage ((world self.old).image path.now) result }
        ensures is_open { is_shut self.new ≡ false }
        ensures held { is_held self.new ≡ (gives_files result || is_held self.old) }
        ensures others { KeepsListsAndClients (world self.old) (world self.new) };

    /// Opens a list.
    fn open_list(&self, path: &str) -> io::Result<Self::List>
        ensures { IfOk result (λ list. Self.List.remaining list ≡ (world self.now).list path.now) };

    /// Listens at a port of this machine only, or at one that is free, and says which.
    fn listen(&mut self, port: u16) -> io::Result<(Self::Visitors, u16)>
        ensures range { IfOk result (λ it. it.1 ≤ 65535) }
        ensures port { IfOk result (λ it. (port ≡ 0) ⊎ (it.1 ≡ port)) }
        ensures coming { IfOk result (λ it. Self.Visitors.coming it.0 ≡ (world self.old).coming port) }
        ensures fresh { IfOk result (λ it. IfSome (Self.Visitors.coming it.0)
            (λ _. Self.Visitors.got it.0 ≡ Some [])) };

    /// Listens no more.
    fn leave(&mut self, visitors: Self::Visitors)
        ensures { got self.new ≡ Self.Visitors.got visitors };

    /// Removes a log that the opening has made, if nothing is in it. What is left of the file needs no log, and whoever calls still holds it, so
    /// that nobody else writes it.
    fn remove_empty(&mut self, log: &NewLog, left: &Remains<Self::File>)
        requires { NeedsNoLog left.now }
        ensures { RemovesEmpty (world self.old).lengths (string_bytes log.now.path) (world self.new).lengths };
}

/// The system itself. Nothing is known of it: `S` stands for what the file holds, whichever is opened.
#[derive(Drop)]
pub struct System<'a, S: Start> {
    rt: &'a HostRuntime,
    folder: SystemFolder<'a>,
    start: Option<S>,
    is_held: bool,
}

/// Whether an opening gives files back.
fn has_files<D: Disk + Drop>(opened: &Opened<D>) -> bool
    ensures { result ≡ gives_files opened.now }
{
    match opened {
        Ok(_conn) => true,
        Err((_error, left)) => left.is_some(),
    }
}

impl<'a, S: Start> System<'a, S> {
    pub fn new(rt: &'a HostRuntime, start: S) -> System<'a, S>
        ensures shut { is_some result.start ≡ true }
        ensures held { result.is_held ≡ false }
    {
        System {
            rt,
            folder: SystemFolder::new(rt),
            start: Some(start),
            is_held: false,
        }
    }
}

impl<'a, S: Start> Host for System<'a, S> {
    type File = FileFrom<S>;

    type List = File;

    type Visitors = Listening<'a>;

    ghost world = { λ _. untold (image_at S.Start) };

    ghost got = { λ _. None };

    ghost is_shut = { λ system. is_some system.start };

    ghost is_held = { λ system. system.is_held };

    fn is_there(&self, path: &str) -> io::Result<bool> {
        fs::exists(self.rt, path)
    }

    fn log_to_make(&self, path: &str) -> Option<NewLog> {
        log_to_make(self.rt.alloc(), &self.folder, path)
    }

    fn open(&mut self, path: &str) -> Opened<FileFrom<S>> {
        let Some(start) = self.start.take() else {
            unreachable!()
        };
        let opened = open_files(self.rt, path, start);
        self.is_held = has_files(&opened) || self.is_held;
        opened
    }

    fn open_list(&self, path: &str) -> io::Result<File> {
        File::open(self.rt, path)
    }

    fn listen(&mut self, port: u16) -> io::Result<(Listening<'a>, u16)> {
        let listener = TcpListener::bind(self.rt, (Ipv4Addr::LOCALHOST, port))?;
        let at = match port {
            0 => listener.local_addr()?.port(),
            _ => port,
        };
        Ok((Listening::new(self.rt, listener), at))
    }

    fn leave(&mut self, _visitors: Listening<'a>) {}

    fn remove_empty(&mut self, log: &NewLog, _left: &Remains<FileFrom<S>>) {
        remove_empty(&mut self.folder, log)
    }
}
