//! Moments in seconds.

use std::alloc::AllocError;
use std::marker::Model;

/// A number of seconds from 0 to 2^62. Contracts see it as that number.
pub struct Moment {
    seconds: u64,
}

impl Model for Moment {
    ghost use Rattle.std.specs.Prelude.{ℕ, ◌≤◌, ◌^◌};

    ghost Value = { ℕ };

    ghost view = { λ m. m.seconds };

    ghost invariant = { λ m. m.seconds ≤ 2 ^ 62 };

    ghost inverse = { λ n. record { seconds = n } };
}

impl Clone for Moment {
    ghost use Rattle.std.specs.Prelude.{◌≡◌};

    ghost is_clone = { λ x y. y ≡ x };

    ghost is_infallible = { λ _. Unit {0} };

    fn clone(&self) -> Result<Moment, AllocError> {
        Ok(*self)
    }
}

impl Copy for Moment {}

impl Moment {
    ghost use Rattle.std.specs.Prelude.{◌≡◌, ◌≤◌, ◌^◌, min};

    /// The latest moment, 2^62 seconds.
    pub const LATEST: u64 = 1 << 62;

    /// Returns the moment of this number of seconds, 0 to 2^62.
    pub fn from_seconds(seconds: u64) -> Moment
        requires { seconds ≤ 2 ^ 62 }
        ensures { result ≡ seconds }
    {
        Moment { seconds }
    }

    /// Returns the moment of this number of seconds, or the latest moment if there are more.
    pub fn from_seconds_at_most(seconds: u64) -> Moment
        ensures { result ≡ min seconds (2 ^ 62) }
    {
        Moment {
            seconds: seconds.min(Moment::LATEST),
        }
    }

    /// Returns its seconds, 0 to 2^62.
    pub fn seconds(self) -> u64
        ensures value { result ≡ self }
        ensures latest { result ≤ 2 ^ 62 }
    {
        self.seconds
    }
}
