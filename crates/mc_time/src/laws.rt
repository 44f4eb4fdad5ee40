//! Laws of clocks, each the contract of a function that does nothing.
ghost use Rattle.std.specs.Prelude.{◌≡◌, ◌≤◌, ◌<◌, ◌+◌, ℕ, List, None};
ghost use Rattle.mc_time.specs.declared.reading.Reading.{Reading};
ghost use Rattle.mc_time.specs.declared.state.ClockState.{ClockState};
ghost use Rattle.mc_time.specs.Readings.{NeverFall, lead_of, moment_by, moment_of, moments_given};
ghost use Rattle.mc_time.specs.Readings.{Each, Has, IsWithinMinute, MayStand, risen, state_after};
ghost use Rattle.mc_time.specs.Readings.{state_after_all, without_step};

/// States that a clock's moments never decrease, whatever the system's clocks read.
///
/// The monotonic clock goes on with the lead in force, also if the system's clock is set back.
pub fn clock_never_goes_back()
    ensures never_fall { (state : ClockState) (readings : List Reading) →
        NeverFall (moment_of state) (moments_given state readings) }
    ensures goes_on { (state : ClockState) (reading : Reading) →
        moment_by reading.monotonic_millis state.lead ≤ moment_of (state_after state reading) }
{}

/// States which steps of the system's clock are followed.
///
/// One that stood for less than a minute changes nothing, nor does a step back. One that every
/// reading of a minute had is followed, but for less than a second.
pub fn a_step_is_followed_after_a_minute()
    ensures brief { (state : ClockState) (readings : List Reading) (start : ℕ) → state.step ≡ None
        → Each (IsWithinMinute start) readings
        → (state_after_all state readings).lead ≡ state.lead }
    ensures back { (state : ClockState) (reading : Reading) → lead_of reading < state.lead + 1000
        → state_after state reading ≡ without_step (risen state reading) }
    ensures stood { (state : ClockState) (first last : Reading) (between : List Reading) (lead : ℕ)
        → MayStand lead first.monotonic_millis state.step
        → Has lead first → Each (Has lead) between → Has lead last
        → first.monotonic_millis + 60000 ≤ last.monotonic_millis
        → lead < (state_after (state_after_all (state_after state first) between) last).lead + 1000 }
{}
