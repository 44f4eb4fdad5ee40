//! Readers and writers of a few bytes at a time.

use std::alloc::{AllocError, Global};
use std::io::{self, ErrorKind, Read, Write};

/// A reader that returns bytes in pieces of one size, and can fail at one call.
#[derive(Drop)]
pub struct Drip<'a> {
    rest: &'a [u8],
    /// The most bytes that a call returns.
    piece: usize,
    /// The number of calls that succeed.
    calls: usize,
    fault: ErrorKind,
}

impl<'a> Drip<'a> {
    /// Returns a reader of these bytes with at most `piece` bytes a call.
    ///
    /// It fails only after more calls than any test makes.
    pub fn new(bytes: &'a [u8], piece: usize) -> Drip<'a> {
        Drip {
            rest: bytes,
            piece,
            calls: usize::MAX,
            fault: ErrorKind::Other,
        }
    }

    /// Returns a reader of one byte a call, which fails with `fault` after `calls` calls.
    pub fn failing(bytes: &'a [u8], calls: usize, fault: ErrorKind) -> Drip<'a> {
        Drip {
            rest: bytes,
            piece: 1,
            calls,
            fault,
        }
    }

    /// Lends the bytes that weren't read.
    pub fn rest(&self) -> &[u8] {
        self.rest
    }
}

impl Read for Drip<'_> {
    fn read(&mut self, buf: &mut [u8]) -> io::Result<usize> {
        if self.calls == 0 {
            return Err(io::Error::from(self.fault));
        }
        self.calls -= 1;
        let given = self.piece.min(buf.len()).min(self.rest.len());
        let (now, later) = self.rest.split_at(given);
        let (onto, _) = buf.split_at_mut(given);
        onto.copy_from_slice(now);
        self.rest = later;
        Ok(given)
    }
}

/// A writer that takes bytes in pieces of one size and keeps them, and can fail at one call.
#[derive(Drop)]
pub struct Sip {
    taken: Vec<u8>,
    /// The most bytes that a call takes.
    piece: usize,
    /// The number of calls that succeed.
    calls: usize,
    fault: ErrorKind,
}

impl Sip {
    /// Returns a writer with at most `piece` bytes a call, which fails only if memory is refused.
    pub fn new(alloc: Global, piece: usize) -> Sip {
        Sip {
            taken: Vec::new(alloc),
            piece,
            calls: usize::MAX,
            fault: ErrorKind::Other,
        }
    }

    /// Returns a writer with one byte a call, which fails with `fault` after `calls` calls.
    ///
    /// It has room for `room` bytes, and allocates only past them.
    pub fn failing(
        alloc: Global,
        room: usize,
        calls: usize,
        fault: ErrorKind,
    ) -> Result<Sip, AllocError> {
        Ok(Sip {
            taken: Vec::with_capacity(alloc, room)?,
            piece: 1,
            calls,
            fault,
        })
    }

    /// Lends the bytes that were written.
    pub fn taken_bytes(&self) -> &[u8] {
        self.taken.as_slice()
    }

    /// Returns the bytes that were written.
    pub fn into_taken(self) -> Vec<u8> {
        self.taken
    }
}

impl Write for Sip {
    fn write(&mut self, buf: &[u8]) -> io::Result<usize> {
        if self.calls == 0 {
            return Err(io::Error::from(self.fault));
        }
        self.calls -= 1;
        let (now, _) = buf.split_at(self.piece.min(buf.len()));
        self.taken.extend_from_slice(now)?;
        Ok(now.len())
    }

    fn flush(&mut self) -> io::Result<()> {
        Ok(())
    }
}
