//! A client whose connection tells what it reads and writes, and whose calls are interrupted.
ghost use Rattle.std.specs.Prelude.{◌≡◌};

use er_cli::{Client, Connection};
use std::io::{self, ErrorKind, Read, Write};
use std::test::Fail;
use std::time::{Duration, Instant};

/// A connection in memory. Each call is interrupted so often before it is done.
#[derive(Drop)]
struct Memory<R, W> {
    input: R,
    output: W,
    interruptions: u16,
    left: u16,
}

impl<R: Drop, W: Drop> Memory<R, W> {
    fn new(input: R, output: W, interruptions: u16) -> Memory<R, W>
        ensures input { result.input ≡ input }
        ensures output { result.output ≡ output }
    {
        Memory {
            input,
            output,
            interruptions,
            left: interruptions,
        }
    }

    fn is_interrupted(&mut self) -> bool
        ensures input { self.new.input ≡ self.old.input }
        ensures output { self.new.output ≡ self.old.output }
    {
        if self.left == 0 {
            self.left = self.interruptions;
            return false;
        }
        self.left -= 1;
        true
    }
}

impl<R: Read + Drop, W: Write + Drop> Connection for Memory<R, W> {
    ghost remaining = { λ memory. R.remaining memory.input };

    ghost contents = { λ memory. W.contents memory.output };

    fn read_within(&mut self, _time: Duration, buf: &mut [u8]) -> io::Result<usize> {
        if self.is_interrupted() {
            return Err(ErrorKind::Interrupted.into());
        }
        self.input.read(buf)
    }

    fn write_within(&mut self, _time: Duration, bytes: &[u8]) -> io::Result<usize> {
        if self.is_interrupted() {
            return Err(ErrorKind::Interrupted.into());
        }
        self.output.write(bytes)
    }

    fn end_writing(&mut self) -> io::Result<()> {
        Ok(())
    }
}

/// What a client reads whose calls are interrupted so often.
fn read_by(rt: &HostRuntime, interruptions: u16, buf: &mut [u8]) -> io::Result<usize> {
    let begun = Instant::now(rt)?;
    let input: &[u8] = b"abc";
    let memory = Memory::new(input, Vec::new(rt.alloc()), interruptions);
    let mut client = Client::reader(rt, memory, begun);
    let count = client.read(buf)?;
    client.end();
    let end = client.read(buf)?;
    Ok(count * 10 + end)
}

/// How much a client writes whose calls are interrupted so often, or what its error is.
fn written_by(rt: &HostRuntime, interruptions: u16) -> Result<usize, ErrorKind> {
    let begun = Instant::now(rt).map_err(|error| error.kind())?;
    let input: &[u8] = b"";
    let memory = Memory::new(input, Vec::new(rt.alloc()), interruptions);
    let mut client = Client::writer(rt, memory, begun);
    client.write(b"answer").map_err(|error| error.kind())
}

/// Each call is tried again. What is still sent after the answer is read to its end.
#[test]
fn interrupted_calls_are_tried_again(rt: HostRuntime) -> Result<(), Fail> {
    let mut buf = [0; 2];
    assert!(rt; matches!(read_by(&rt, 3, &mut buf), Ok(20)));
    assert!(rt; matches!(read_by(&rt, 999, &mut buf), Ok(20)));
    assert_eq!(rt; written_by(&rt, 999), Ok(6));
    assert_eq!(rt; written_by(&rt, 1000), Err(ErrorKind::TimedOut));
    Ok(())
}
