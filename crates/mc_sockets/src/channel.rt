//! Channels: the one owner of a connection.
//!
//! A channel owns a connection's stream, its entry among the open connections, its readiness and
//! its meter, and is a link over them. It is proved for any stream and meter: contracts see the
//! bytes that the stream gave and took, how each answer comes of the stream's answer and the
//! readiness, and what is counted.
ghost use Rattle.std.specs.Prelude.{◌≡◌, ◌+◌, ◌++◌, length};
ghost use Rattle.mc_sockets.specs.Channels.{ReadsBy, WritesBy};
ghost use Rattle.mc_sockets.specs.Streams.{MovesIn, MovesOut};

use crate::connection::{CloseReason, Registration};
use crate::dropping::drop_input;
use crate::io_stream::IoStream;
use crate::meter::{Meter, SharedMeter};
use crate::readiness::{Readiness, ReadinessCell, SharedReadiness};
use crate::screen::{Peer, Screen};
use crate::stream::{NoBytes, Received, Sent, Stream, len_of_all, receive_again, send_again};
use mc_links::{Got, Link, LinkFault, Took};
use mc_metrics::Counted;
use mio::net::TcpStream;
use std::net::Shutdown;

/// A connection as a link.
///
/// It answers `Later` where its stream would block, and from then on until its readiness says that
/// the stream may go on. A socket's bytes are unspecified: over one, contracts see how often it
/// failed, whether it is at its end, whether its last call was a read, and for how many bytes that
/// call was.
///
/// Its fields are dropped in their order: it is counted until the system has closed its stream.
#[derive(Drop)]
pub struct Channel<S: Stream + Drop, F: ReadinessCell + Drop, M: Meter + Drop> {
    stream: S,
    entry: Registration,
    readiness: F,
    meter: M,
    calls: Calls,
}

/// What is known of the calls on a channel.
#[derive(Clone, Copy)]
struct Calls {
    faults: u64,
    is_ended: bool,
    /// Whether the last call was a read.
    was_read: bool,
    /// The length of its piece or bytes.
    requested: usize,
}

/// The channel of a socket behind its screen.
pub type ScreenedChannel = Screen<SocketChannel>;

/// The channel of a socket, whose readiness and meter its worker shares.
pub type SocketChannel = Channel<IoStream<TcpStream>, SharedReadiness, SharedMeter>;

impl<S: Stream + Drop, F: ReadinessCell + Drop, M: Meter + Drop> Channel<S, F, M> {
    ghost use Rattle.std.specs.Prelude.{◌<◌, ◌-◌, ◌^◌, IsErr};

    /// Returns the channel of a stream that never blocks, which counts the bytes that it moves.
    ///
    /// It takes no memory.
    pub fn new(stream: S, entry: Registration, readiness: F, meter: M) -> Channel<S, F, M> {
        Channel {
            stream,
            entry,
            readiness,
            meter,
            calls: Calls {
                faults: 0,
                is_ended: false,
                was_read: false,
                requested: 0,
            },
        }
    }

    /// Returns whether nothing more is to be sent: it failed, or is to be closed.
    pub fn is_over(&self) -> bool {
        self.calls.faults > 0 || self.readiness.look().ends.is_some()
    }

    /// Notes a fault, for which the connection is to be closed.
    fn fail<T>(&mut self, parting: CloseReason) -> Result<T, LinkFault>
        requires { self.old.calls.faults < 2 ^ 64 - 1 }
        ensures failed { IsErr result }
        ensures noted { self.new ≡ record self.old {
          calls = record self.old.calls { faults = self.old.calls.faults + 1 };
          entry = record self.old.entry { parting = parting };
        } }
    {
        self.entry.note(parting);
        self.calls.faults += 1;
        Err(LinkFault)
    }
}

/// Reads from a stream whose readiness is this.
fn receive_by<S: Stream>(stream: &mut S, known: Readiness, piece: &mut [u8]) -> Received
    ensures answers { ReadsBy S.receives known piece.new stream.old result stream.new }
    ensures moves { MovesIn (S.flow stream.old) piece.new result (S.flow stream.new) }
{
    if known.ends.is_some() {
        Received::End
    } else if known.reads {
        receive_again(stream, piece)
    } else {
        Received::Hindered(NoBytes::WouldBlock)
    }
}

/// Writes three texts to a stream whose readiness is this.
fn send_by<S: Stream>(
    stream: &mut S,
    known: Readiness,
    first: &[u8],
    second: &[u8],
    third: &[u8],
) -> Sent
    ensures answers { WritesBy S.sends known (first.now ++ (second.now ++ third.now)) stream.old
        result stream.new }
    ensures moves { MovesOut (S.flow stream.old) (first.now ++ (second.now ++ third.now)) result
        (S.flow stream.new) }
{
    if known.writes {
        send_again(stream, first, second, third)
    } else {
        Sent::Hindered(NoBytes::WouldBlock)
    }
}

/// Returns the last of three texts that isn't empty.
fn last_of<'a>(first: &'a [u8], second: &'a [u8], third: &'a [u8]) -> &'a [u8] {
    if !third.is_empty() {
        third
    } else if !second.is_empty() {
        second
    } else {
        first
    }
}

impl<S: Stream + Drop, F: ReadinessCell + Drop, M: Meter + Drop> Link for Channel<S, F, M> {
    ghost use Rattle.std.specs.Prelude.{◌<◌, ◌-◌, ◌^◌, [], Ok};
    ghost use Rattle.mc_links.specs.Links.{Gives, IsWrite, OffersFirst};
    ghost use Rattle.mc_sockets.specs.Channels.{link_of, at, AnswersRead, AnswersWrite, GivesLeft};
    ghost use Rattle.mc_sockets.specs.Channels.{CountsRead, CountsWrite};

    ghost shown = { λ c. link_of (S.flow c.stream) c.calls };

    fn try_read(&mut self, piece: &mut [u8]) -> Result<Got, LinkFault>
        ensures gives { Gives (link_of (S.flow self.old.stream) self.old.calls) piece.new result
            (link_of (S.flow self.new.stream) self.new.calls) }
        ensures lent { self.new.calls.requested ≡ length piece.new }
        ensures full { self.old.calls.faults ≡ 2 ^ 64 - 1 → result ≡ Ok Got.Later }
        ensures answers { self.old.calls.faults < 2 ^ 64 - 1 → 0 < length piece.new →
            AnswersRead S.receives piece.new result
            (at self.old.stream (F.known self.old.readiness) self.old.entry.parting)
            (at self.new.stream (F.known self.new.readiness) self.new.entry.parting) }
        ensures left { GivesLeft (S.flow self.old.stream) piece.new result
            (S.flow self.new.stream) }
        ensures counts { CountsRead M.counts result self.old.meter self.new.meter }
    {
        self.calls.was_read = true;
        self.calls.requested = piece.len();
        if self.calls.faults == u64::MAX || piece.is_empty() {
            return Ok(Got::Later);
        }
        let known = self.readiness.look();
        let answer = receive_by(&mut self.stream, known, piece);
        self.readiness.note(known.after_read(answer, piece.len()));
        match answer {
            Received::Bytes(count) => {
                self.meter.count(Counted::Received, count);
                Ok(Got::Bytes(count))
            }
            Received::End => {
                self.entry.note(known.ends.unwrap_or(CloseReason::Ended));
                self.calls.is_ended = true;
                Ok(Got::End)
            }
            Received::Hindered(NoBytes::WouldBlock) => Ok(Got::Later),
            Received::Hindered(_) => self.fail(CloseReason::ReadFault),
        }
    }

    fn try_write(&mut self, bytes: &[u8]) -> Result<Took, LinkFault>
        ensures takes { IsWrite (link_of (S.flow self.old.stream) self.old.calls) bytes.now result
            (link_of (S.flow self.new.stream) self.new.calls) }
        ensures offered { self.new.calls.requested ≡ length bytes.now }
        ensures full { self.old.calls.faults ≡ 2 ^ 64 - 1 → result ≡ Ok Took.Later }
        ensures answers { self.old.calls.faults < 2 ^ 64 - 1 →
            AnswersWrite S.sends bytes.now (length bytes.now) result
            (at self.old.stream (F.known self.old.readiness) self.old.entry.parting)
            (at self.new.stream (F.known self.new.readiness) self.new.entry.parting) }
        ensures counts { CountsWrite M.counts result self.old.meter self.new.meter }
    {
        self.try_write_all(bytes, &[], &[])
    }

    fn try_write_all(
        &mut self,
        first: &[u8],
        second: &[u8],
        third: &[u8],
    ) -> Result<Took, LinkFault>
        ensures takes { IsWrite (link_of (S.flow self.old.stream) self.old.calls)
            (first.now ++ (second.now ++ third.now)) result
            (link_of (S.flow self.new.stream) self.new.calls) }
        ensures offered { OffersFirst first.now second.now third.now result
            self.new.calls.requested }
        ensures full { self.old.calls.faults ≡ 2 ^ 64 - 1 → result ≡ Ok Took.Later }
        ensures empty { second.now ≡ [] → third.now ≡ [] →
            self.new.calls.requested ≡ length first.now }
        ensures answers { self.old.calls.faults < 2 ^ 64 - 1 →
            AnswersWrite S.sends (first.now ++ (second.now ++ third.now))
            self.new.calls.requested result
            (at self.old.stream (F.known self.old.readiness) self.old.entry.parting)
            (at self.new.stream (F.known self.new.readiness) self.new.entry.parting) }
        ensures counts { CountsWrite M.counts result self.old.meter self.new.meter }
    {
        self.calls.was_read = false;
        self.calls.requested = len_of_all(first, second, third);
        if self.calls.faults == u64::MAX {
            return Ok(Took::Later);
        }
        let known = self.readiness.look();
        if known.writes {
            self.entry.note_output(last_of(first, second, third));
        }
        let answer = send_by(&mut self.stream, known, first, second, third);
        self.readiness
            .note(known.after_write(answer, self.calls.requested));
        match answer {
            Sent::Bytes(count) => {
                self.meter.count(Counted::Sent, count);
                Ok(Took::Bytes(count))
            }
            Sent::Hindered(NoBytes::WouldBlock) => match known.ends {
                None => Ok(Took::Later),
                Some(parting) => self.fail(parting),
            },
            Sent::Hindered(_) => self.fail(CloseReason::WriteFault),
        }
    }

    fn pause(&mut self) -> Result<(), LinkFault> {
        if self.calls.faults == u64::MAX {
            return Ok(());
        }
        let known = self.readiness.look();
        match known.ends {
            Some(parting) => self.fail(parting),
            None if known.has_failed => self.fail(CloseReason::ReadFault),
            None => {
                self.readiness.note(known.after_pause());
                Ok(())
            }
        }
    }

    fn refused(&mut self) {
        self.entry.note(CloseReason::OutOfMemory);
    }

    fn faults(&self) -> u64 {
        self.calls.faults
    }
}

impl<S: Stream + Drop, F: ReadinessCell + Drop, M: Meter + Drop> Peer for Channel<S, F, M> {
    fn note_other(&mut self) {
        self.entry.note(CloseReason::OtherProtocol);
    }
}

impl Channel<IoStream<TcpStream>, SharedReadiness, SharedMeter> {
    /// Shuts down the write side, drops what the client sent, and returns whether that was all.
    ///
    /// A connection that is closed with unread input is reset, and its client may lose answers. It
    /// is all too if the connection failed, 1 MiB was dropped, or it has lingered.
    pub fn has_drained(&self) -> bool {
        if self.calls.is_ended || self.readiness.get().has_lingered {
            return true;
        }
        self.end_output();
        self.drop_input()
    }

    /// Notes that the link was dropped: the connection lingers.
    pub fn leave(&self) {
        self.entry.linger();
        self.readiness.set(self.readiness.get().leaving());
    }

    /// Shuts down the write side, unless it was before.
    fn end_output(&self) {
        let known = self.readiness.get();
        if known.dropped.is_none() {
            // if that fails, the next read reports why
            let _ = self.stream.get().shutdown(Shutdown::Write);
            self.readiness.set(Readiness {
                dropped: Some(0),
                ..known
            });
        }
    }

    /// Reads and drops what is there, and returns whether nothing more is to be dropped.
    fn drop_input(&self) -> bool {
        let known = self.readiness.get();
        let before = match known.dropped {
            Some(before) => before,
            None => 0,
        };
        let mut stream = IoStream::new(self.stream.get());
        let dropped = drop_input(&mut stream, before);
        let bytes = dropped.bytes.saturating_sub(before);
        self.meter.add(Counted::Received, bytes);
        self.readiness.set(Readiness {
            dropped: Some(dropped.bytes),
            ..known
        });
        dropped.drain.is_done()
    }
}
