//! The system's clock, which threads share.

use mc_time::{Clock, Moment};

/// A lent clock. It returns what that clock may return.
#[derive(Drop)]
pub struct SharedClock<'a, S: Clock>(pub &'a S);

impl<S: Clock> Clock for SharedClock<'_, S> {
    ghost may_give = { λ clock now. S.may_give clock.0.now now };

    fn now(&self) -> Moment {
        self.0.now()
    }
}
