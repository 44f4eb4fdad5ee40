//! The program's clock: the system's at the start, and the monotonic one since.
ghost use Rattle.std.specs.Prelude.{◌≡◌, ◌⊎◌, None};
ghost use Rattle.std.specs.Option.{ForSome};
ghost use Rattle.mc_time.specs.declared.reading.Reading.{Reading};
ghost use Rattle.mc_time.specs.Readings.{HasBegun, HasStood, WasRead};

use crate::clock::Clock;
use crate::moment::Moment;
use crate::reading::Reading;
use crate::readings::Readings;
use crate::state::{ClockState, Step};
use std::marker::PhantomData;
use std::sync::Mutex;
use std::sync::atomic::Ordering::SeqCst;
use std::sync::atomic::{AtomicIn, Rule};

/// The rule of a word with a reading of the monotonic clock, or 0.
struct ReadRule<S>(PhantomData<S>);

impl<S: Readings> Rule for ReadRule<S> {
    ghost use Rattle.std.specs.Prelude.{◌≡◌, ◌⊎◌};
    ghost use Rattle.mc_time.specs.Readings.{WasRead};

    ghost invariant = { λ n. (n ≡ 0) ⊎ WasRead S.may_read n };
}

/// The rule of a word with a lead that has stood for a minute, or 0.
struct StoodRule<S>(PhantomData<S>);

impl<S: Readings> Rule for StoodRule<S> {
    ghost use Rattle.std.specs.Prelude.{◌≡◌, ◌⊎◌};
    ghost use Rattle.mc_time.specs.Readings.{HasStood};

    ghost invariant = { λ n. (n ≡ 0) ⊎ HasStood S.may_read n };
}

/// The step of the system's clock that stands, if one does.
#[derive(Drop)]
struct Standing<S: Readings> {
    step: Option<Step>,
    of: PhantomData<S>,
    ghost begun: { ForSome step (λ step. HasBegun S.may_read step) },
}

/// The system's clock at the start and the monotonic clock since, in Unix seconds, for all threads.
///
/// A step forward of the system's clock is followed once it has stood for a minute. A step back is
/// never followed.
///
/// Contracts see the moments that it may return by its first reading: the monotonic clock's, as it
/// was read, with the lead at the start or a greater one that two readings had, a minute apart.
#[derive(Drop)]
pub struct SteadyClock<S: Readings + Drop> {
    source: S,
    /// The reading at the start.
    pub start: Reading,
    /// The reading of the monotonic clock with which the latest second began, or 0.
    monotonic: AtomicIn<ReadRule<S>>,
    /// The lead of the last step that was followed, or 0.
    stood: AtomicIn<StoodRule<S>>,
    /// The step that one thread at a time judges.
    standing: Mutex<Standing<S>>,
}

impl<S: Readings + Drop> SteadyClock<S> {
    ghost use Rattle.std.specs.Prelude.{◌≡◌, ◌⊎◌, None};
    ghost use Rattle.mc_time.specs.Readings.{InForce, WasRead};

    /// Returns the clock that begins with a reading of its source.
    pub fn new(source: S) -> SteadyClock<S>
        ensures { S.may_read result.start }
    {
        let start = source.read();
        SteadyClock {
            source,
            start,
            monotonic: AtomicIn::new(0),
            stood: AtomicIn::new(0),
            standing: Mutex::new(Standing {
                step: None,
                of: PhantomData,
            }),
        }
    }

    /// Returns the state that the threads have left, without a step.
    fn found(&self) -> ClockState
        ensures monotonic { (result.monotonic ≡ 0) ⊎ WasRead S.may_read result.monotonic }
        ensures lead { InForce S.may_read self.now.start result.lead }
        ensures step { result.step ≡ None }
    {
        ClockState {
            monotonic: self.monotonic.load(SeqCst),
            lead: self.stood.load(SeqCst).max(self.start.lead()),
            step: None,
        }
    }

    /// Reads the clocks, and judges whether a step of the system's stands.
    ///
    /// It does nothing if another thread is at it.
    fn judge(&self) {
        let Some(mut standing) = self.standing.try_lock() else {
            return;
        };
        let reading = self.source.read();
        let ClockState {
            monotonic,
            lead,
            step: _,
        } = self.found();
        let state = ClockState {
            monotonic,
            lead,
            step: standing.step,
        };
        let after = state.after(reading);
        if lead < after.lead {
            self.stood.store(after.lead, SeqCst);
        }
        let judged = Standing {
            step: after.step,
            of: PhantomData,
        };
        *standing = judged;
    }
}

impl<S: Readings + Drop> Clock for SteadyClock<S> {
    ghost use Rattle.mc_time.specs.Readings.{IsSteadyMoment};

    ghost may_give = { λ clock now. IsSteadyMoment S.may_read clock.start now };

    fn now(&self) -> Moment {
        let reading = self.source.read();
        let found = self.found();
        let risen = found.risen(reading);
        let moment = risen.moment();
        if found.moment().seconds() < moment.seconds()
            && raise(&self.monotonic, found.monotonic, risen.monotonic)
        {
            self.judge();
        }
        moment
    }
}

/// Raises a word to at least `latest`. Returns whether this call did, and not another thread's.
///
/// The word had `found`, and never decreases.
fn raise<S: Readings>(word: &AtomicIn<ReadRule<S>>, found: u64, latest: u64) -> bool
    requires { WasRead S.may_read latest }
{
    let mut seen = found;
    for _ in 0..u64::MAX {
        if latest <= seen {
            return false;
        }
        match word.compare_exchange(seen, latest, SeqCst, SeqCst) {
            Ok(_) => return true,
            Err(other) => seen = other,
        }
    }
    false
}
