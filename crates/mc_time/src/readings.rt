//! Where readings of the system's clocks come from.
ghost use Rattle.std.specs.Prelude.{◌≡◌, ◌-◌, ◌/◌, ◌^◌, min};
ghost use Rattle.std.specs.Duration.{as_nanos};
ghost use Rattle.mc_time.specs.declared.reading.Reading.{Reading};

use crate::clock::unix_time;
use crate::reading::Reading;
use std::time::{self, Duration};

/// A source of readings of the system's two clocks.
pub trait Readings {
    ghost use Rattle.mc_time.specs.declared.reading.Reading.{Reading};

    /// The readings that it may return.
    ghost may_read: { Reading → Type 0 };

    /// Reads the system's clock and then the monotonic one: a reading that `may_read` allows.
    ///
    /// A pause between the two makes the lead smaller, never greater.
    fn read(&self) -> Reading
        ensures { may_read result };
}

/// The clocks of a runtime.
#[derive(Drop)]
pub struct HostClocks<R: time::Clock + Drop> {
    rt: R,
}

impl<R: time::Clock + Drop> HostClocks<R> {
    /// Returns the clocks of a runtime.
    pub fn new(rt: R) -> HostClocks<R> {
        HostClocks { rt }
    }
}

impl<R: time::Clock + Drop> Readings for HostClocks<R> {
    // Contracts promise nothing of the system's time.
    ghost may_read = { λ reading. Unit {0} };

    fn read(&self) -> Reading {
        let system = unix_time(&self.rt);
        Reading {
            system_millis: millis_of(system),
            monotonic_millis: millis_of(monotonic_time(&self.rt)),
        }
    }
}

/// Returns the monotonic clock's time since its start, or 0 if it can't be read.
fn monotonic_time(rt: &impl time::Clock) -> Duration {
    match rt.monotonic() {
        Ok(time) => time,
        Err(_) => Duration::ZERO,
    }
}

/// Returns the milliseconds of a duration, at most 2^64 - 1.
fn millis_of(duration: Duration) -> u64
    ensures { result ≡ min (as_nanos duration / 1_000_000) (2 ^ 64 - 1) }
{
    duration
        .as_secs()
        .saturating_mul(1000)
        .saturating_add(u64::from(duration.subsec_millis()))
}
