ghost use Rattle.std.specs.Prelude.{◌≡◌, ◌||◌, List, ℕ, Option, None, Some, false, IfOk, IfSome, MatchResult, is_err};
ghost use Rattle.std.specs.Io.{ReadsAtMost, WritesAtMost};
ghost use Rattle.std.specs.Io.KnownBytes.{ReadConsumes, WriteAppends, Keeps};
ghost use Rattle.er_cli.specs.Clients.{Got, IsNextClient, GetsLast, tells};

use crate::client::Client;
use er_slips::ServeEnd;
use std::io::{self, Read, Write};
use std::net::{TcpListener, TcpStream};
use std::time::Instant;
use thiserror::Error;

/// The listener gave no connection, or none that can be used.
#[derive(Clone, Copy, Debug, PartialEq, Eq, Error)]
#[error("the listener gave no connection")]
pub struct AcceptFault;

/// One side of a connection, and whether a call of it has failed.
#[derive(Drop)]
pub struct Side<T> {
    stream: T,
    has_failed: bool,
}

impl<T: Drop> Side<T> {
    fn new(stream: T) -> Side<T>
        ensures stream { result.stream ≡ stream }
        ensures failed { result.has_failed ≡ false }
    {
        Side {
            stream,
            has_failed: false,
        }
    }

    /// What it has read from, or written to.
    pub fn into_stream(self) -> T
        ensures { result ≡ self.stream }
    {
        let Side {
            stream,
            has_failed: _,
        } = self;
        stream
    }

    /// Whether a call of it has failed.
    pub fn has_failed(&self) -> bool
        ensures { result ≡ self.now.has_failed }
    {
        self.has_failed
    }
}

impl<R: Read + Drop> Read for Side<R> {
    ghost remaining = { λ side. R.remaining side.stream };

    fn read(&mut self, buf: &mut [u8]) -> io::Result<usize>
        ensures bound { ReadsAtMost result buf.new }
        ensures bytes { ReadConsumes (R.remaining self.old.stream) (R.remaining self.new.stream)
            result buf.new }
        ensures failed { self.new.has_failed ≡ (self.old.has_failed || is_err result) }
    {
        let result = self.stream.read(buf);
        self.has_failed |= result.is_err();
        result
    }
}

impl<W: Write + Drop> Write for Side<W> {
    ghost contents = { λ side. W.contents side.stream };

    fn write(&mut self, bytes: &[u8]) -> io::Result<usize>
        ensures bound { WritesAtMost result bytes.now }
        ensures bytes { WriteAppends (W.contents self.old.stream) (W.contents self.new.stream)
            result bytes.now }
        ensures failed { self.new.has_failed ≡ (self.old.has_failed || is_err result) }
    {
        let result = self.stream.write(bytes);
        self.has_failed |= result.is_err();
        result
    }

    fn flush(&mut self) -> io::Result<()>
        ensures bytes { Keeps (W.contents self.old.stream) (W.contents self.new.stream) }
        ensures failed { self.new.has_failed ≡ (self.old.has_failed || is_err result) }
    {
        let result = self.stream.flush();
        self.has_failed |= result.is_err();
        result
    }
}

/// A client's connection, which is served once.
#[derive(Drop)]
pub struct Visit<R, W> {
    pub reader: Side<R>,
    pub writer: Side<W>,
}

impl<R: Read + Drop, W: Write + Drop> Visit<R, W> {
    pub fn new(reader: R, writer: W) -> Visit<R, W>
        ensures reader { result.reader.stream ≡ reader }
        ensures writer { result.writer.stream ≡ writer }
        ensures failed { (result.reader.has_failed || result.writer.has_failed) ≡ false }
    {
        Visit {
            reader: Side::new(reader),
            writer: Side::new(writer),
        }
    }

    /// Whether its connection tells the same of how it was served: if that broke off, a call of it has failed.
    pub fn tells(&self, served: ServeEnd) -> bool
        ensures { result ≡ tells self.now.reader.has_failed self.now.writer.has_failed served }
    {
        match served {
            ServeEnd::Answered { .. } => true,
            ServeEnd::ReadFault => self.reader.has_failed,
            ServeEnd::WriteFault { .. } => self.writer.has_failed,
        }
    }
}

/// Where clients come from, one after the other. If it is known what they send, it is known what they got.
pub trait Clients {
    type Reader: Read + Drop;

    type Writer: Write + Drop;

    /// What those who are still to come will send, in their order.
    ghost coming: { Self → Option (List (List ℕ)) } = { λ _. None };

    /// What those who went away got, in their order.
    ghost got: { Self → Option (List Got) } = { λ _. None };

    /// Takes the next client. If its connection can't be had, there is none.
    fn accept(&mut self) -> Result<Visit<Self::Reader, Self::Writer>, AcceptFault>
        ensures comes { IfSome (coming self.old) (λ inputs. MatchResult result
            (λ visit. IsNextClient inputs (Self.Reader.remaining visit.reader.stream)
            (Self.Writer.contents visit.writer.stream) (visit.reader.has_failed || visit.writer.has_failed)
            (coming self.new))
            (λ _. coming self.new ≡ coming self.old)) }
        ensures got { got self.new ≡ got self.old };

    /// Lets a client go.
    fn let_go(&mut self, visit: Visit<Self::Reader, Self::Writer>)
        ensures coming { coming self.new ≡ coming self.old }
        ensures got { GetsLast (got self.old) (Self.Writer.contents visit.writer.stream)
            (visit.reader.has_failed || visit.writer.has_failed) (got self.new) };
}

/// One side of a connection that a listener gives.
type TcpClient<'a> = Client<&'a HostRuntime, TcpStream>;

/// The clients of a listener. Nothing is known of them.
#[derive(Drop)]
pub struct Listening<'a> {
    rt: &'a HostRuntime,
    listener: TcpListener,
}

impl<'a> Listening<'a> {
    pub fn new(rt: &'a HostRuntime, listener: TcpListener) -> Listening<'a> {
        Listening { rt, listener }
    }

    /// The two sides of a client's connection, whose time begins.
    fn sides(&self, stream: TcpStream) -> io::Result<Visit<TcpClient<'a>, TcpClient<'a>>>
        ensures { IfOk result (λ visit. (visit.reader.has_failed || visit.writer.has_failed) ≡ false) }
    {
        let begun = Instant::now(self.rt)?;
        let other = stream.try_clone()?;
        Ok(Visit::new(
            Client::reader(self.rt, stream, begun),
            Client::writer(self.rt, other, begun),
        ))
    }
}

impl<'a> Clients for Listening<'a> {
    type Reader = TcpClient<'a>;

    type Writer = TcpClient<'a>;

    fn accept(&mut self) -> Result<Visit<TcpClient<'a>, TcpClient<'a>>, AcceptFault>
        ensures { IfOk result (λ visit. (visit.reader.has_failed || visit.writer.has_failed) ≡ false) }
    {
        let (stream, _address) = self.listener.accept().map_err(|_error| AcceptFault)?;
        self.sides(stream).map_err(|_error| AcceptFault)
    }

    fn let_go(&mut self, visit: Visit<TcpClient<'a>, TcpClient<'a>>)
        ensures { self.new ≡ self.old }
    {
        let Visit { reader, writer } = visit;
        // one that got no answer, or not all of it, is not waited for
        if !reader.has_failed() && !writer.has_failed() {
            reader.into_stream().end();
        }
    }
}
