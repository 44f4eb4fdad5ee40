//! Clocks.

use crate::moment::Moment;
use std::time::{self, Duration, SystemTime, UNIX_EPOCH};

/// A source of the present moment.
pub trait Clock {
    ghost use Rattle.std.specs.Prelude.{ℕ};

    /// The moments that the clock may return.
    ghost may_give: { Self → ℕ → Type 0 };

    /// Returns the present moment, one that `may_give` allows.
    fn now(&self) -> Moment
        ensures { may_give self.now result };
}

/// A clock that always returns the same moment.
#[derive(Clone, Copy)]
pub struct Fixed(pub Moment);

impl Clock for Fixed {
    ghost use Rattle.std.specs.Prelude.{◌≡◌};

    ghost may_give = { λ clock now. now ≡ clock.0 };

    fn now(&self) -> Moment {
        self.0
    }
}

/// The system's clock, in Unix seconds.
///
/// It returns 0 before 1970 and if the clock can't be read, and the latest moment (2^62) after
/// that.
#[derive(Drop)]
pub struct SystemClock<R: time::Clock + Drop> {
    rt: R,
}

impl<R: time::Clock + Drop> SystemClock<R> {
    /// Returns the clock of a runtime.
    pub fn new(rt: R) -> SystemClock<R> {
        SystemClock { rt }
    }
}

impl<R: time::Clock + Drop> Clock for SystemClock<R> {
    ghost use Rattle.std.specs.Prelude.{◌≤◌, ◌^◌};

    // Contracts promise nothing more of the system's time.
    ghost may_give = { λ clock now. now ≤ 2 ^ 62 };

    fn now(&self) -> Moment {
        Moment::from_seconds_at_most(unix_time(&self.rt).as_secs())
    }
}

/// Returns the system's time since 1970: 0 before that, and if the clock can't be read.
pub(crate) fn unix_time(rt: &impl time::Clock) -> Duration {
    let Ok(time) = SystemTime::now(rt) else {
        return Duration::ZERO;
    };
    match time.duration_since(UNIX_EPOCH) {
        Ok(duration) => duration,
        Err(_) => Duration::ZERO,
    }
}
