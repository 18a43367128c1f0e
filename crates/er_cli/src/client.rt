ghost use Rattle.std.specs.Prelude.{◌≡◌, ◌≢◌, ◌⊎◌, ◌-◌, ◌*◌, ◌<◌, ◌≤◌, ◌↔◌, ℕ, List, Option, None, false, length};
ghost use Rattle.std.specs.Prelude.{IsTrue, IsNone, IfSome, IfOk, IfErr, IsOk, IsErr};
ghost use Rattle.std.specs.Io.{ReadsAtMost, WritesAtMost};
ghost use Rattle.std.specs.Io.KnownBytes.{ReadConsumes, WriteAppends, Keeps};
ghost use Rattle.std.specs.IoError.{error_kind};
ghost use Rattle.std.specs.Duration.{as_nanos};
ghost use Rattle.std.specs.Time.{instant_nanos};

use std::io::{self, ErrorKind, Read, Write};
use std::net::{Shutdown, TcpStream};
use std::time::{Clock, Duration, Instant};

/// How long a client may take for each read. A program on this machine sends at once.
const READ_SECONDS: u64 = 1;
/// How long it may take for each write.
const WRITE_SECONDS: u64 = 10;
/// How long it may take until the last byte of its request.
const REQUEST_SECONDS: u64 = 5;
/// How long it may take in all.
const CLIENT_SECONDS: u64 = 30;
/// How long what it sends is still read after its answer.
const REST_MILLISECONDS: u64 = 500;
/// How many bytes of it: four megabytes.
const REST_BYTES: usize = 4_194_304;
/// How often one read or write may be interrupted.
const INTERRUPTIONS: u16 = 1000;

/// A connection. Each read and each write of it has its time.
pub trait Connection {
    /// The bytes that reads will still give, where they are known.
    ghost remaining: { Self → Option (List ℕ) } = { λ _. None };

    /// The bytes that were written, where they are known.
    ghost contents: { Self → Option (List ℕ) } = { λ _. None };

    /// Reads once, if something comes within this time.
    fn read_within(&mut self, time: Duration, buf: &mut [u8]) -> io::Result<usize>
        requires { as_nanos time ≤ READ_SECONDS * 1_000_000_000 }
        ensures bound { ReadsAtMost result buf.new }
        ensures bytes { ReadConsumes (remaining self.old) (remaining self.new) result buf.new }
        ensures written { contents self.new ≡ contents self.old };

    /// Writes once, if something can be sent within this time. It holds nothing of it back.
    fn write_within(&mut self, time: Duration, bytes: &[u8]) -> io::Result<usize>
        requires { as_nanos time ≤ WRITE_SECONDS * 1_000_000_000 }
        ensures bound { WritesAtMost result bytes.now }
        ensures bytes { WriteAppends (contents self.old) (contents self.new) result bytes.now }
        ensures unread { remaining self.new ≡ remaining self.old };

    /// Tells the other side that nothing more is written.
    fn end_writing(&mut self) -> io::Result<()>
        ensures written { contents self.new ≡ contents self.old }
        ensures unread { remaining self.new ≡ remaining self.old };
}

impl Connection for TcpStream {
    fn read_within(&mut self, time: Duration, buf: &mut [u8]) -> io::Result<usize> {
        self.set_read_timeout(Some(time))?;
        self.read(buf)
    }

    fn write_within(&mut self, time: Duration, bytes: &[u8]) -> io::Result<usize> {
        self.set_write_timeout(Some(time))?;
        self.write(bytes)
    }

    fn end_writing(&mut self) -> io::Result<()> {
        self.shutdown(Shutdown::Write)
    }
}

/// One side of a client's connection, which reads or writes while its time lasts. The clock says how long.
#[derive(Drop)]
pub struct Client<C, T> {
    clock: C,
    connection: T,
    begun: Instant,
    /// How long it may take in all.
    limit: Duration,
    /// A write took all its time.
    is_late: bool,
}

impl<C: Clock + Drop, T: Connection + Drop> Client<C, T> {
    /// The side that reads the request. The client's time began then.
    pub fn reader(clock: C, connection: T, begun: Instant) -> Client<C, T>
        ensures connection { result.connection ≡ connection }
        ensures begun { result.begun ≡ begun }
        ensures limit { as_nanos result.limit ≡ REQUEST_SECONDS * 1_000_000_000 }
        ensures late { result.is_late ≡ false }
    {
        Client {
            clock,
            connection,
            begun,
            limit: Duration::from_secs(REQUEST_SECONDS),
            is_late: false,
        }
    }

    /// The side that writes the answer.
    pub fn writer(clock: C, connection: T, begun: Instant) -> Client<C, T>
        ensures connection { result.connection ≡ connection }
        ensures begun { result.begun ≡ begun }
        ensures limit { as_nanos result.limit ≡ CLIENT_SECONDS * 1_000_000_000 }
        ensures late { result.is_late ≡ false }
    {
        Client {
            clock,
            connection,
            begun,
            limit: Duration::from_secs(CLIENT_SECONDS),
            is_late: false,
        }
    }

    /// What is left of its time at this moment. None if that is over.
    fn left_at(&self, now: Instant) -> Option<Duration>
        ensures over { IsNone result ↔ (IsTrue self.now.is_late
            ⊎ (as_nanos self.now.limit < instant_nanos now - instant_nanos self.now.begun)) }
        ensures left { IfSome result (λ left. as_nanos left
            ≡ as_nanos self.now.limit - (instant_nanos now - instant_nanos self.now.begun)) }
    {
        if self.is_late {
            return None;
        }
        self.limit.checked_sub(now.duration_since(self.begun))
    }

    /// How long the next call may take: this many seconds, or what is left of all.
    fn time_for(&self, seconds: u64) -> io::Result<Duration>
        ensures call { IfOk result (λ time. as_nanos time ≤ seconds * 1_000_000_000) }
        ensures all { IfOk result (λ time. as_nanos time ≤ as_nanos self.now.limit) }
        ensures late { IsTrue self.now.is_late → IsErr result }
    {
        match self.left_at(Instant::now(&self.clock)?) {
            Some(left) => Ok(left.min(Duration::from_secs(seconds))),
            None => Err(ErrorKind::TimedOut.into()),
        }
    }

    /// Reads once, while its time lasts.
    fn read_once(&mut self, buf: &mut [u8]) -> io::Result<usize>
        ensures bound { ReadsAtMost result buf.new }
        ensures bytes { ReadConsumes (T.remaining self.old.connection)
            (T.remaining self.new.connection) result buf.new }
        ensures written { T.contents self.new.connection ≡ T.contents self.old.connection }
        ensures time { self.new ≡ record self.old { connection = self.new.connection } }
    {
        let time = self.time_for(READ_SECONDS)?;
        self.connection.read_within(time, buf)
    }

    /// Writes once, while its time lasts. A write that takes no byte has failed.
    fn write_once(&mut self, bytes: &[u8]) -> io::Result<usize>
        ensures bound { WritesAtMost result bytes.now }
        ensures bytes { WriteAppends (T.contents self.old.connection)
            (T.contents self.new.connection) result bytes.now }
        ensures some { IfOk result (λ count. 0 < length bytes.now → 0 < count) }
        ensures unread { T.remaining self.new.connection ≡ T.remaining self.old.connection }
        ensures time { self.new
            ≡ record self.old { connection = self.new.connection; is_late = self.new.is_late } }
        ensures late { IsTrue self.old.is_late → IsErr result × (self.new ≡ self.old) }
    {
        let time = self.time_for(WRITE_SECONDS)?;
        let begun = Instant::now(&self.clock)?;
        let count = self.connection.write_within(time, bytes)?;
        // The system calls a write done that has taken a part, however long it waited for the rest.
        self.is_late = match begun.elapsed(&self.clock) {
            Ok(taken) => taken >= time,
            Err(_error) => true,
        };
        if count == 0 && !bytes.is_empty() {
            return Err(ErrorKind::WriteZero.into());
        }
        Ok(count)
    }

    /// Reads what the client still sends, for a moment, until it ends or there are no bytes left that may be read.
    fn read_rest(&mut self, left: &mut usize) -> io::Result<()>
        ensures { T.contents self.new.connection ≡ T.contents self.old.connection }
    {
        self.begun = Instant::now(&self.clock)?;
        let mut rest = [0; 16_384];
        while *left > 0 {
            match self.read_once(&mut rest)? {
                0 => return Ok(()),
                count => *left = left.saturating_sub(count),
            }
        }
        Ok(())
    }

    /// Ends the answer, and reads on for a moment until the client ends too. If bytes of a request were left unread, the system would reset
    /// the connection, and a client that is still sending would lose its answer (RFC 9112, section 9.6). The moment begins again if the
    /// program was stopped meanwhile.
    pub fn end(&mut self)
        ensures { T.contents self.new.connection ≡ T.contents self.old.connection }
    {
        let Ok(()) = self.connection.end_writing() else {
            return;
        };
        self.limit = Duration::from_millis(REST_MILLISECONDS);
        let mut left = REST_BYTES;
        for _ in 0..INTERRUPTIONS {
            match self.read_rest(&mut left) {
                Err(error) if error.kind() == ErrorKind::Interrupted => {}
                Ok(()) | Err(_) => return,
            }
        }
    }
}

impl<C: Clock + Drop, T: Connection + Drop> Read for Client<C, T> {
    ghost remaining = { λ client. T.remaining client.connection };

    /// Reads. If the program was stopped meanwhile, as by Ctrl-Z, and goes on, the system calls the read interrupted: it is tried again.
    fn read(&mut self, buf: &mut [u8]) -> io::Result<usize>
        ensures bound { ReadsAtMost result buf.new }
        ensures bytes { ReadConsumes (T.remaining self.old.connection)
            (T.remaining self.new.connection) result buf.new }
        ensures written { T.contents self.new.connection ≡ T.contents self.old.connection }
        ensures retried { IfErr result (λ error. error_kind error ≢ ErrorKind.Interrupted) }
        ensures time { self.new ≡ record self.old { connection = self.new.connection } }
    {
        for _ in 0..INTERRUPTIONS {
            match self.read_once(buf) {
                Err(error) if error.kind() == ErrorKind::Interrupted => {}
                read => return read,
            }
        }
        Err(ErrorKind::TimedOut.into())
    }
}

impl<C: Clock + Drop, T: Connection + Drop> Write for Client<C, T> {
    ghost contents = { λ client. T.contents client.connection };

    /// Writes. A write that was interrupted has sent nothing, and is tried again.
    fn write(&mut self, bytes: &[u8]) -> io::Result<usize>
        ensures bound { WritesAtMost result bytes.now }
        ensures bytes { WriteAppends (T.contents self.old.connection)
            (T.contents self.new.connection) result bytes.now }
        ensures some { IfOk result (λ count. 0 < length bytes.now → 0 < count) }
        ensures unread { T.remaining self.new.connection ≡ T.remaining self.old.connection }
        ensures retried { IfErr result (λ error. error_kind error ≢ ErrorKind.Interrupted) }
        ensures time { self.new
            ≡ record self.old { connection = self.new.connection; is_late = self.new.is_late } }
        ensures late { IsTrue self.old.is_late → IsErr result × (self.new ≡ self.old) }
    {
        for _ in 0..INTERRUPTIONS {
            match self.write_once(bytes) {
                Err(error) if error.kind() == ErrorKind::Interrupted => {}
                written => return written,
            }
        }
        Err(ErrorKind::TimedOut.into())
    }

    fn flush(&mut self) -> io::Result<()>
        ensures done { IsOk result }
        ensures same { self.new ≡ self.old }
        ensures bytes { Keeps (T.contents self.old.connection) (T.contents self.new.connection) }
    {
        // a connection holds nothing back
        Ok(())
    }
}
