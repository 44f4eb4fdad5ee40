//! Input that is dropped behind the last answer.
//!
//! A connection that is closed with unread input is reset, and its client may lose answers. So what
//! its client sends on is read and dropped, up to 1 MiB. That is proved for any stream.
ghost use Rattle.std.specs.Prelude.{◌≡◌, ◌↔◌, IsTrue};
ghost use Rattle.mc_sockets.specs.Dropping.{after_drop, state_after, DropsInput};

use crate::stream::{NoBytes, Received, Stream};

/// The most input bytes that are dropped behind the last answer.
const MOST_DROPPED: usize = 1_048_576;

/// The most bytes of a read whose bytes are dropped.
const PIECE: usize = 16_384;

/// The most such reads at once, so that a client that sends on holds no worker.
const PIECES: u32 = 128;

/// Whether more is to be dropped.
#[derive(Clone, Copy)]
pub enum Drain {
    /// There may be more.
    Going,
    /// There is no more now.
    Waiting,
    /// It is all: the input is at its end, the stream failed, or 1 MiB was dropped.
    Done,
}

impl Drain {
    /// Returns whether there may be more.
    fn is_going(self) -> bool
        ensures { IsTrue result ↔ (self ≡ Drain.Going) }
    {
        match self {
            Drain::Going => true,
            Drain::Waiting | Drain::Done => false,
        }
    }

    /// Returns whether it is all.
    pub fn is_done(self) -> bool
        ensures { IsTrue result ↔ (self ≡ Drain.Done) }
    {
        match self {
            Drain::Done => true,
            Drain::Going | Drain::Waiting => false,
        }
    }
}

/// What was dropped of a connection's input.
#[derive(Clone, Copy)]
pub struct Dropping {
    /// The bytes that were dropped until now.
    pub bytes: usize,
    pub drain: Drain,
}

impl Dropping {
    /// Returns what is dropped after a read that was answered so.
    fn after(self, answer: Received) -> Dropping
        ensures { result ≡ after_drop self answer }
    {
        match answer {
            Received::Bytes(count) => Dropping::of(self.bytes.saturating_add(count)),
            Received::Hindered(NoBytes::Interrupted) => self,
            Received::Hindered(NoBytes::WouldBlock) => Dropping {
                bytes: self.bytes,
                drain: Drain::Waiting,
            },
            Received::End | Received::Hindered(NoBytes::Fault) => Dropping {
                bytes: self.bytes,
                drain: Drain::Done,
            },
        }
    }

    /// Returns the state after `bytes` dropped bytes.
    fn of(bytes: usize) -> Dropping
        ensures { result ≡ record { bytes = bytes; drain = state_after bytes } }
    {
        Dropping {
            bytes,
            drain: if bytes >= MOST_DROPPED {
                Drain::Done
            } else {
                Drain::Going
            },
        }
    }
}

/// Reads and drops what is there of a stream's input. `before` bytes of it were dropped
/// before.
pub fn drop_input<S: Stream>(stream: &mut S, before: usize) -> Dropping
    ensures { DropsInput S.receives before stream.old result stream.new }
{
    let mut piece = [0u8; PIECE];
    let mut dropped = Dropping {
        bytes: before,
        drain: Drain::Going,
    };
    for _piece in 0..PIECES {
        dropped = dropped.after(stream.receive(&mut piece));
        if !dropped.drain.is_going() {
            return dropped;
        }
    }
    dropped
}
