//! Which connections are checked for being idle.
//!
//! A connection is idle since a look at it and not since its event, so an event reads no clock.
//! About once a second a worker looks at its places, a few at a time. An idle connection ends as if
//! its client had closed it. A connection with unread input, whose guest waits for memory, isn't
//! idle (`link_record.rt`).
ghost use Rattle.std.specs.Prelude.{◌≡◌, ◌↔◌, ◌<◌, ◌≤◌, ◌+◌, ◌*◌, Some, None, IfSome, IsNone, if◌then◌else◌};
ghost use Rattle.std.specs.Duration.{as_nanos};
ghost use Rattle.mc_sockets.specs.SweepCursors.{due, is_too_soon, turn, worth};

use std::time::{Duration, Instant};

/// The shortest time between two looks, in milliseconds.
const BETWEEN: u64 = 125;

/// The time in which each place is looked at once, in milliseconds, unless the worker is delayed.
const ROUND: u64 = 1000;

/// The fewest places of a look, if there are as many.
const LEAST: usize = 256;

/// The idle timeout, and the places that were looked at.
///
/// A look takes as many places as the time since the last look is worth, so that a worker with many
/// connections isn't away for long.
#[derive(Clone, Copy)]
pub struct SweepCursor {
    limit: Duration,
    /// The moment of the last look.
    looked: Option<Instant>,
    /// The place at which the next look begins.
    at: usize,
}

impl SweepCursor {
    /// Returns the watch of an idle timeout in seconds, or `None` for 0, which disables it.
    pub fn new(seconds: u32) -> Option<SweepCursor>
        ensures none { IsNone result ↔ (seconds ≡ 0) }
        ensures limit { IfSome result (λ watch.
            as_nanos watch.limit ≡ seconds * 1_000_000_000) }
        ensures first { IfSome result (λ watch. (watch.looked ≡ None) × (watch.at ≡ 0)) }
    {
        if seconds == 0 {
            return None;
        }
        Some(SweepCursor {
            limit: Duration::from_secs(u64::from(seconds)),
            looked: None,
            at: 0,
        })
    }

    /// Returns the idle timeout.
    pub fn limit(&self) -> Duration
        ensures { result ≡ self.now.limit }
    {
        self.limit
    }

    /// Returns how many of `places` are to be looked at now.
    ///
    /// None is shortly after the last look, and all are if that was at least a second ago.
    pub fn due(&mut self, places: usize, now: Instant) -> usize
        ensures due { result ≡ due self.old.looked now places }
        ensures noted { self.new ≡ record self.old {
          looked =
              if is_too_soon self.old.looked now then self.old.looked else Some now;
        } }
        ensures most { result ≤ places }
    {
        let time = match self.looked {
            Some(looked) => now.duration_since(looked),
            None => Duration::from_millis(ROUND),
        };
        if time < Duration::from_millis(BETWEEN) {
            return 0;
        }
        self.looked = Some(now);
        share(places, time).max(LEAST).min(places)
    }

    /// Returns the next of `places` in turn.
    pub fn turn(&mut self, places: usize) -> usize
        ensures turn { result ≡ turn self.old.at places }
        ensures next { self.new ≡ record self.old { at = result + 1 } }
        ensures inside { 0 < places → result < places }
    {
        let at = if self.at < places { self.at } else { 0 };
        self.at = at.saturating_add(1);
        at
    }
}

/// Returns the share of `places` for a time.
fn share(places: usize, time: Duration) -> usize
    ensures { result ≡ worth places (as_nanos time) }
{
    if time >= Duration::from_millis(ROUND) {
        return places;
    }
    places.saturating_mul(time.subsec_millis() as usize) / 1000
}
