//! The state of a clock that goes on with the monotonic one.
ghost use Rattle.std.specs.Prelude.{◌≡◌};
ghost use Rattle.mc_time.specs.Readings.{moment_by, standing, step_after, settled};

use crate::moment::Moment;
use crate::reading::{NO_LEAD, Reading};

/// A step forward of the system's clock, while it stands.
#[derive(Clone, Copy, Debug, PartialEq, Eq)]
pub struct Step {
    /// The smallest lead that was read since the step, in milliseconds plus 2^62.
    pub lead: u64,
    /// The monotonic clock at the step, in milliseconds.
    pub since: u64,
}

/// The state of a clock from one reading to the next.
#[derive(Clone, Copy, Debug, PartialEq, Eq)]
pub struct ClockState {
    /// The greatest reading of the monotonic clock, in milliseconds.
    pub monotonic: u64,
    /// The lead over the monotonic clock that is in force, in milliseconds plus 2^62.
    pub lead: u64,
    /// The step that stands, but not for a minute yet.
    pub step: Option<Step>,
}

/// By how many milliseconds the system's clock is ahead at least if it is a step.
const LEAST_STEP: u64 = 1000;

/// For how many milliseconds a step stands before it is followed.
const STANDS: u64 = 60_000;

impl ClockState {
    ghost use Rattle.std.specs.Prelude.{◌≡◌};
    ghost use Rattle.mc_time.specs.Readings.{moment_of, risen, state_after};

    /// Returns its moment: the monotonic clock's with the lead in force.
    pub fn moment(&self) -> Moment
        ensures { result ≡ moment_of self.now }
    {
        moment_by(self.monotonic, self.lead)
    }

    /// Returns the state after a reading that isn't judged: the monotonic clock goes on.
    pub fn risen(self, reading: Reading) -> ClockState
        ensures { result ≡ risen self reading }
    {
        ClockState {
            monotonic: self.monotonic.max(reading.monotonic_millis),
            lead: self.lead,
            step: self.step,
        }
    }

    /// Returns the state after a reading.
    ///
    /// A step of the system's clock of a second or more stands from the first reading that has it,
    /// until a reading hasn't. Once it has stood for a minute, its lead is in force, which never
    /// decreases.
    pub fn after(self, reading: Reading) -> ClockState
        ensures { result ≡ state_after self reading }
    {
        let step = step_after(self.lead, self.step, reading);
        settled(self.risen(reading), step, reading.monotonic_millis)
    }
}

/// Returns the step that stands at a reading, if the system's clock is ahead of a lead.
fn step_after(lead: u64, step: Option<Step>, reading: Reading) -> Option<Step>
    ensures { result ≡ step_after lead step reading }
{
    if LEAST_STEP <= reading.lead().saturating_sub(lead) {
        Some(standing(step, reading))
    } else {
        None
    }
}

/// Returns the step that stands, given the one before and a reading that is ahead.
fn standing(step: Option<Step>, reading: Reading) -> Step
    ensures { result ≡ standing step reading }
{
    match step {
        None => Step {
            lead: reading.lead(),
            since: reading.monotonic_millis,
        },
        Some(step) => Step {
            lead: step.lead.min(reading.lead()),
            since: step.since,
        },
    }
}

/// Returns the state with a step, which is followed if it has stood for a minute.
fn settled(state: ClockState, step: Option<Step>, now: u64) -> ClockState
    ensures { result ≡ settled state step now }
{
    let ClockState {
        monotonic,
        lead,
        step: _,
    } = state;
    match step {
        Some(stood) if STANDS <= now.saturating_sub(stood.since) => ClockState {
            monotonic,
            lead: lead.max(stood.lead),
            step: None,
        },
        _ => ClockState {
            monotonic,
            lead,
            step,
        },
    }
}

/// Returns the moment of a monotonic clock with a lead; without a lead, that of 0 seconds.
fn moment_by(monotonic: u64, lead: u64) -> Moment
    ensures { result ≡ moment_by monotonic lead }
{
    let millis = monotonic.saturating_add(lead).saturating_sub(NO_LEAD);
    Moment::from_seconds_at_most(millis / 1000)
}
