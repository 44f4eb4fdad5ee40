//! Stores that report the requests of a worker's guests.

use crate::measure::length_at;
use mc_protocol::{Steps, Unanswered};
use mc_time::Moment;
use std::alloc::Global;

/// A store for the guests of a worker. It may report their requests to a tally.
pub trait Reports: Steps {
    ghost use Rattle.std.specs.Prelude.{◌≡◌, ◌≤◌, length, Err, IfOk, OnErr};
    ghost use Rattle.mc_protocol.specs.Commands.{longest_key};
    ghost use Rattle.mc_guests.specs.Asks.{ReadsLength, MayRead, SpendsRead, WasRead};

    /// Reports a request that was answered `SERVER_ERROR object too large for cache`. Does nothing
    /// by default.
    fn too_large(&self) {}

    /// Returns the length of the block that a get of this key finds at this moment, or 0 if it
    /// finds none.
    ///
    /// It is a read of the key, which isn't reported. After an error the key was read at most; it
    /// is `NumbersSpent` only if the read is refused so.
    fn length_at(&mut self, alloc: Global, key: &[u8], now: Moment) -> Result<usize, Unanswered>
        requires { length key.now ≤ longest_key }
        ensures ok { IfOk result (λ bytes.
            ReadsLength Self.took now key.now bytes self.old self.new) }
        ensures err { OnErr result (MayRead Self.took Self.same now key.now self.old self.new) }
        ensures spent { result ≡ Err Unanswered.NumbersSpent →
            SpendsRead Self.spent now key.now self.old }
        ensures untold { result ≡ Err Unanswered.Untold →
            WasRead Self.took now key.now self.old self.new }
    {
        length_at(alloc, self, key, now)
    }
}
