//! Links in memory, for tests.

use mc_guests::{Got, Link, LinkFault, Took};
use mc_testing::{Call, Calls};
use std::alloc::Global;
use std::marker::Model;
use std::sync::atomic::{AtomicU64, Ordering};

/// The bytes that a link took, after its worker dropped it: how many were as expected, and how many
/// not.
#[derive(Drop)]
pub struct Seen {
    right: AtomicU64,
    wrong: AtomicU64,
}

impl Seen {
    pub fn nothing() -> Seen {
        Seen {
            right: AtomicU64::new(0),
            wrong: AtomicU64::new(0),
        }
    }

    /// Counts a byte.
    fn count(&self, is_right: bool) {
        let counter = if is_right { &self.right } else { &self.wrong };
        counter.fetch_add(1, Ordering::SeqCst);
    }

    pub fn right(&self) -> u64 {
        self.right.load(Ordering::SeqCst)
    }

    /// Returns how many bytes were right and how many were wrong.
    pub fn right_and_wrong(&self) -> (u64, u64) {
        (self.right(), self.wrong.load(Ordering::SeqCst))
    }
}

/// A link in memory with one byte a call.
///
/// Each call is followed by an empty one, and one call may fail.
#[derive(Drop)]
pub struct HeldLink<'a> {
    input: &'a [u8],
    /// The number of input bytes given.
    at: usize,
    output: Vec<u8>,
    expected: &'a [u8],
    seen: &'a Seen,
    calls: Calls,
    /// While this is 0 it gives nothing.
    gives: Option<&'a AtomicU64>,
    is_ended: bool,
    was_read: bool,
    requested: usize,
}

impl<'a> Model for HeldLink<'a> {
    ghost use Rattle.std.specs.Prelude.{take, Some};
    ghost use Rattle.mc_guests.specs.Links.{LinkState};

    ghost Value = { LinkState };

    ghost view = { λ s. record {
      given = Some (take s.at s.input.now);
      taken = Some s.output.items;
      faults = s.calls;
      is_ended = s.is_ended;
      was_read = s.was_read;
      requested = s.requested;
    } };
}

impl<'a> HeldLink<'a> {
    ghost use Rattle.std.specs.Prelude.{◌≡◌, length, Ok};
    ghost use Rattle.mc_guests.specs.Links.{Gives, IsWrite};

    /// Returns a link with this input and this expected output.
    pub fn new(alloc: Global, input: &'a [u8], expected: &'a [u8], seen: &'a Seen) -> HeldLink<'a> {
        HeldLink {
            input,
            at: 0,
            output: Vec::new(alloc),
            expected,
            seen,
            calls: Calls::failing_at(0),
            gives: None,
            is_ended: false,
            was_read: false,
            requested: 0,
        }
    }

    /// Returns the link with a call that fails: the next call is number 1.
    pub fn failing_at(mut self, call: u64) -> HeldLink<'a> {
        self.calls = Calls::failing_at(call);
        self
    }

    /// Returns the link, which gives nothing while this is 0.
    pub fn giving_after(mut self, gives: &'a AtomicU64) -> HeldLink<'a> {
        self.gives = Some(gives);
        self
    }

    /// Returns whether it still gives nothing.
    fn is_held_back(&self) -> bool {
        match self.gives {
            Some(gives) => gives.load(Ordering::SeqCst) == 0,
            None => false,
        }
    }

    /// Gives the next byte, if there is one.
    fn give(&mut self, piece: &mut [u8]) -> Result<Got, LinkFault>
        ensures gives { Gives self.old piece.new result self.new }
        ensures lent { self.new.requested ≡ length piece.new }
    {
        self.was_read = true;
        self.requested = piece.len();
        if self.at >= self.input.len() {
            self.is_ended = true;
            return Ok(Got::End);
        }
        if piece.len() == 0 || self.is_held_back() {
            return Ok(Got::Later);
        }
        piece[0] = self.input[self.at];
        self.at += 1;
        Ok(Got::Bytes(1))
    }

    /// Takes the first byte, if there is one.
    fn take(&mut self, bytes: &[u8]) -> Result<Took, LinkFault>
        ensures takes { IsWrite self.old bytes.now result self.new }
        ensures offered { self.new.requested ≡ length bytes.now }
    {
        self.was_read = false;
        self.requested = bytes.len();
        if bytes.is_empty() {
            return Ok(Took::Later);
        }
        let byte = bytes[0];
        let is_right = self.expected.get(self.output.len()) == Some(&byte);
        match self.output.push(byte) {
            Ok(()) => {
                self.seen.count(is_right);
                Ok(Took::Bytes(1))
            }
            Err(_) => Ok(Took::Later),
        }
    }
}

/// Makes the next call: it fails, gives nothing, is an empty read or write, or goes on.
macro_rules! next_call {
    ($calls:expr, $kind:ident, $goes_on:expr) => {
        match $calls.next() {
            Call::Fails => Err(LinkFault),
            Call::GivesNone => Ok($kind::Later),
            Call::IsEmpty => Ok($kind::Bytes(0)),
            Call::GoesOn => $goes_on,
        }
    };
}

impl<'a> Link for HeldLink<'a> {
    ghost shown = { λ s. s };

    fn try_read(&mut self, piece: &mut [u8]) -> Result<Got, LinkFault> {
        self.was_read = true;
        self.requested = piece.len();
        next_call!(self.calls, Got, self.give(piece))
    }

    fn try_write(&mut self, bytes: &[u8]) -> Result<Took, LinkFault> {
        self.was_read = false;
        self.requested = bytes.len();
        next_call!(self.calls, Took, self.take(bytes))
    }

    fn faults(&self) -> u64 {
        self.calls.faults()
    }
}
