//! Connections that come in pieces, or break.

use std::io::{self, ErrorKind, Read, Write};

fn broken() -> io::Error {
    io::Error::from(ErrorKind::BrokenPipe)
}

/// Gives a text in pieces, and counts the calls.
#[derive(Drop)]
pub struct Source<'a> {
    left: &'a [u8],
    /// As many bytes as a piece may have.
    step: usize,
    /// The call that fails.
    fails_at: Option<usize>,
    pub calls: usize,
}

impl<'a> Source<'a> {
    /// Gives a text in pieces of at most `step` bytes.
    pub fn new(text: &'a [u8], step: usize) -> Self {
        Source {
            left: text,
            step,
            fails_at: None,
            calls: 0,
        }
    }

    /// Gives a text byte by byte, and fails at this call.
    pub fn failing(text: &'a [u8], call: usize) -> Self {
        Source {
            left: text,
            step: 1,
            fails_at: Some(call),
            calls: 0,
        }
    }
}

impl Read for Source<'_> {
    fn read(&mut self, buf: &mut [u8]) -> io::Result<usize> {
        self.calls = self.calls.saturating_add(1);
        if self.fails_at == Some(self.calls) {
            return Err(broken());
        }
        let count = self.left.len().min(buf.len()).min(self.step);
        buf[..count].copy_from_slice(&self.left[..count]);
        self.left = &self.left[count..];
        Ok(count)
    }
}

/// Gives one letter a call, counts the calls, and never ends.
#[derive(Drop)]
pub struct Endless {
    pub calls: usize,
}

impl Read for Endless {
    fn read(&mut self, buf: &mut [u8]) -> io::Result<usize> {
        self.calls = self.calls.saturating_add(1);
        match buf {
            [first, ..] => {
                *first = b'a';
                Ok(1)
            }
            [] => Ok(0),
        }
    }
}

/// What a writer does once it is broken.
#[derive(Clone, Copy)]
pub enum Break {
    Fails,
    TakesNone,
    FailsToFlush,
}

/// Takes one byte a call, `room` in all, and keeps them.
#[derive(Drop)]
pub struct Sink {
    pub taken: Vec<u8>,
    pub room: usize,
    pub then: Break,
}

impl Write for Sink {
    fn write(&mut self, buf: &[u8]) -> io::Result<usize> {
        match (buf.first(), self.then) {
            (Some(byte), _) if self.taken.len() < self.room => {
                self.taken.push(*byte)?;
                Ok(1)
            }
            (_, Break::TakesNone) => Ok(0),
            _ => Err(broken()),
        }
    }

    fn flush(&mut self) -> io::Result<()> {
        match self.then {
            Break::FailsToFlush => Err(broken()),
            _ => Ok(()),
        }
    }
}
