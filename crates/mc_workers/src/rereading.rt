//! Clocks that are read again and again.
use mc_time::{Clock, Moment};

/// A clock whose readings come behind one another. Each clock is one.
///
/// Contracts know nothing of `may_follow` but what `now_after` ensures. So a loop that doesn't read
/// its clock again, or that doesn't use what it read, proves nothing.
pub trait RereadClock: Clock {
    ghost use Rattle.std.specs.Prelude.{ℕ};

    /// The moments that the clock may return behind an earlier reading.
    ghost may_follow: { Self → (before now : ℕ) → Type 0 };

    /// Reads the clock again, behind the reading `before`.
    fn now_after(&self, before: Moment) -> Moment
        ensures given { Self.Clock.may_give self.now result }
        ensures follows { may_follow self.now before result };
}

impl<C: Clock> RereadClock for C {
    ghost may_follow = { λ clock before now. C.may_give clock now };

    fn now_after(&self, _before: Moment) -> Moment {
        self.now()
    }
}
