//! Streams over the reads and writes of the standard library.
//!
//! This is the last code before the system. A call of a stream is one call of `Read` or `Write` and
//! moves the bytes that this one moves. That is proved for any such calls, so also for bytes in
//! memory, which are known. Of a socket the standard library promises counts alone.
ghost use Rattle.std.specs.Prelude.{◌++◌};
ghost use Rattle.std.specs.Io.{WritesAtMost};
ghost use Rattle.std.specs.Io.KnownBytes.{WriteAppends};
ghost use Rattle.mc_sockets.specs.IoStreams.{IsHindrance, IsReceived, IsSent};

use crate::stream::{NoBytes, Received, Sent, Stream};
use mio::net::TcpStream;
use std::io::{self, ErrorKind, IoSlice, Read, Write};

/// Reads and writes, and writes of several parts by one call.
pub trait Duplex: Read + Write {
    ghost use Rattle.std.specs.Io.{WritesAtMost};
    ghost use Rattle.std.specs.Io.KnownBytes.{WriteAppends};
    ghost use Rattle.std.specs.Io.Slices.{io_slices_bytes};

    /// Writes a front of the parts, one after another, by one call.
    fn write_parts(&mut self, parts: &[IoSlice<'_>]) -> io::Result<usize>
        ensures bound { WritesAtMost result (io_slices_bytes parts.now) }
        ensures bytes { WriteAppends (Self.contents self.old) (Self.contents self.new) result
            (io_slices_bytes parts.now) };
}

/// A socket. The trait's `write_vectored` makes a call of the system for each part.
impl Duplex for TcpStream {
    fn write_parts(&mut self, parts: &[IoSlice<'_>]) -> io::Result<usize> {
        TcpStream::write_vectored(self, parts)
    }
}

/// A socket that is borrowed.
impl<'a> Duplex for &'a TcpStream {
    fn write_parts(&mut self, parts: &[IoSlice<'_>]) -> io::Result<usize> {
        TcpStream::write_vectored(self, parts)
    }
}

/// A stream whose calls are the reads and writes of this.
#[derive(Drop)]
pub struct IoStream<S> {
    calls: S,
}

impl<S: Duplex> IoStream<S> {
    ghost use Rattle.std.specs.Prelude.{◌≡◌};

    /// Returns the stream over these calls, which never block.
    pub fn new(calls: S) -> IoStream<S>
        ensures { result.calls ≡ calls }
    {
        IoStream { calls }
    }

    /// Lends what reads and writes.
    pub fn get(&self) -> &S
        ensures { result.now ≡ self.now.calls }
    {
        &self.calls
    }

    /// Writes a front of two texts, one after the other, by one call.
    fn write_both(&mut self, first: &[u8], second: &[u8]) -> io::Result<usize>
        ensures bound { WritesAtMost result (first.now ++ second.now) }
        ensures bytes { WriteAppends (S.contents self.old.calls) (S.contents self.new.calls) result
            (first.now ++ second.now) }
    {
        if first.is_empty() {
            return self.calls.write(second);
        }
        if second.is_empty() {
            return self.calls.write(first);
        }
        let parts = [IoSlice::new(first), IoSlice::new(second)];
        self.calls.write_parts(&parts)
    }

    /// Writes a front of three texts, one after another, by one call.
    fn write_all(&mut self, first: &[u8], second: &[u8], third: &[u8]) -> io::Result<usize>
        ensures bound { WritesAtMost result (first.now ++ (second.now ++ third.now)) }
        ensures bytes { WriteAppends (S.contents self.old.calls) (S.contents self.new.calls) result
            (first.now ++ (second.now ++ third.now)) }
    {
        if third.is_empty() {
            return self.write_both(first, second);
        }
        let parts = [
            IoSlice::new(first),
            IoSlice::new(second),
            IoSlice::new(third),
        ];
        self.calls.write_parts(&parts)
    }
}

/// What is left to be read, and what was written, is known where that of the calls is. Its flow,
/// which has both, isn't: no clause of `Read` says that what was written stays.
impl<S: Duplex> Stream for IoStream<S> {
    ghost use Rattle.mc_sockets.specs.Streams.{unknown};
    ghost use Rattle.mc_sockets.specs.IoStreams.{ReadsOnce, WritesOnce};

    ghost flow = { λ _. unknown };

    ghost receives = { λ old piece answer new.
        ReadsOnce (S.remaining old.calls) piece answer (S.remaining new.calls) };

    ghost sends = { λ old bytes answer new.
        WritesOnce (S.contents old.calls) bytes answer (S.contents new.calls) };

    fn receive(&mut self, piece: &mut [u8]) -> Received {
        received_from(self.calls.read(piece))
    }

    fn send(&mut self, first: &[u8], second: &[u8], third: &[u8]) -> Sent {
        sent_from(self.write_all(first, second, third))
    }
}

/// Returns the answer to a read by what the system answered.
fn received_from(answer: io::Result<usize>) -> Received
    ensures { IsReceived answer result }
{
    match answer {
        Ok(0) => Received::End,
        Ok(count) => Received::Bytes(count),
        Err(error) => Received::Hindered(hindrance_of(&error)),
    }
}

/// Returns the answer to a write by what the system answered.
fn sent_from(answer: io::Result<usize>) -> Sent
    ensures { IsSent answer result }
{
    match answer {
        Ok(count) => Sent::Bytes(count),
        Err(error) => Sent::Hindered(hindrance_of(&error)),
    }
}

/// Returns what hindered a call that the system answered with this error.
fn hindrance_of(error: &io::Error) -> NoBytes
    ensures { IsHindrance error.now result }
{
    if error.kind() == ErrorKind::WouldBlock {
        return NoBytes::WouldBlock;
    }
    if error.kind() == ErrorKind::Interrupted {
        return NoBytes::Interrupted;
    }
    NoBytes::Fault
}
