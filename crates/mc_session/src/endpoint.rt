//! What a session and a session of a world have in common for the loop that serves them.
//!
//! One loop serves both: `serve_endpoint` takes any `Endpoint<S>`, whose ghost members describe a
//! turn, a piece and a write. The store is a parameter of each call and not a field, because the
//! caller lends it.

use crate::session::{Session, Turn};
use mc_protocol::Steps;
use mc_time::Moment;
use std::alloc::{AllocError, Global};

/// One end of a connection, over a store.
///
/// Pieces of a stream are brought to it, it takes the stream's turns on the store, and it has
/// output.
pub trait Endpoint<S> {
    ghost use Rattle.std.specs.Prelude.{◌≡◌, ◌≤◌, ℕ, List, length, Ok, OnOk, OnErr};

    /// The output that isn't written yet.
    ghost waits: { Self → S → List ℕ };
    /// The first bytes of the output, as many as this number, were written and are dropped.
    ghost sends: { ℕ → Self → S → Self → S → Type 0 };
    /// A turn was given at that moment: it was taken, or none was due.
    ghost turns: { ℕ → Self → S → Self → S → Type 0 };
    /// Memory was refused in a turn at that moment.
    ghost loses_turn: { ℕ → Self → S → Self → S → Type 0 };
    /// The next piece of the stream was brought.
    ghost takes: { List ℕ → Self → S → Self → S → Type 0 };
    /// Memory was refused for a piece.
    ghost loses_piece: { List ℕ → Self → S → Self → S → Type 0 };
    /// It is open, and no turn is due until more bytes are brought.
    ghost is_idle: { Self → S → Type 0 };
    /// It is closed.
    ghost is_closed: { Self → S → Type 0 };

    /// Lends the output that isn't written yet.
    fn output<'a>(&'a self, store: &'a S) -> &'a [u8]
        ensures { result.now ≡ waits self.now store.now };

    /// Drops the first `n` bytes of the output, which were written.
    fn wrote(&mut self, store: &mut S, n: usize)
        requires { n ≤ length (waits self.old store.old) }
        ensures sends { sends n self.old store.old self.new store.new }
        ensures idle { is_idle self.old store.old → is_idle self.new store.new };

    /// Takes the next turn of the stream at `now`, if one is due, and returns which it was.
    fn take_turn(&mut self, alloc: Global, store: &mut S, now: Moment) -> Result<Turn, AllocError>
        ensures ok { OnOk result (turns now self.old store.old self.new store.new) }
        ensures idle { result ≡ Ok Turn.Idle → is_idle self.new store.new }
        ensures closed { result ≡ Ok Turn.Closed → is_closed self.new store.new }
        ensures err { OnErr result (loses_turn now self.old store.old self.new store.new) };

    /// Brings the next piece of the stream.
    fn bring(&mut self, alloc: Global, store: &mut S, piece: &[u8]) -> Result<(), AllocError>
        ensures ok { OnOk result (takes piece.now self.old store.old self.new store.new) }
        ensures err { OnErr result (loses_piece piece.now self.old store.old self.new store.new) };
}

impl<S: Steps> Endpoint<S> for Session {
    ghost use Rattle.std.specs.Prelude.{◌≡◌, ◌≤◌, length, Ok, OnOk, OnErr};
    ghost use Rattle.mc_session.specs.Endpoints.{in_session};

    ghost waits = { (in_session S.Steps).waits };

    ghost sends = { (in_session S.Steps).sends };

    ghost turns = { (in_session S.Steps).turns };

    ghost loses_turn = { (in_session S.Steps).loses_turn };

    ghost takes = { (in_session S.Steps).takes };

    ghost loses_piece = { (in_session S.Steps).loses_piece };

    ghost is_idle = { (in_session S.Steps).is_idle };

    ghost is_closed = { (in_session S.Steps).is_closed };

    fn output<'a>(&'a self, _store: &'a S) -> &'a [u8] {
        self.out()
    }

    fn wrote(&mut self, _store: &mut S, n: usize) {
        self.sent(n);
    }

    fn take_turn(&mut self, alloc: Global, store: &mut S, now: Moment) -> Result<Turn, AllocError> {
        match self.turn(alloc, store, now) {
            Ok(turn) => Ok(turn),
            Err(_) => Err(AllocError),
        }
    }

    fn bring(&mut self, _alloc: Global, _store: &mut S, piece: &[u8]) -> Result<(), AllocError> {
        self.feed(piece)
    }
}
