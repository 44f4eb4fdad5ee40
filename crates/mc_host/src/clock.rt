//! The clock of the command line.
ghost use Rattle.mc_host.specs.Clocks.{moments};

use mc_time::{Clock, Moment};

/// The clock of the command line: it stands at the moment of `--now`, or is the system's.
#[derive(Clone, Copy)]
pub struct AskedClock<S: Clock> {
    /// The moment of `--now`.
    pub asked: Option<Moment>,
    /// The clock that is read without `--now`.
    pub system: S,
}

impl<S: Clock> Clock for AskedClock<S> {
    ghost use Rattle.mc_host.specs.Clocks.{moments};

    ghost may_give = { λ clock now. moments clock.asked (S.may_give clock.system) now };

    fn now(&self) -> Moment {
        match self.asked {
            Some(moment) => moment,
            None => self.system.now(),
        }
    }
}
