//! One reading of the system's clocks.

/// One reading of the system's two clocks.
#[derive(Clone, Copy, Debug, PartialEq, Eq)]
pub struct Reading {
    /// The system's clock in milliseconds since 1970: 0 before that, and if it can't be read.
    pub system_millis: u64,
    /// The monotonic clock in milliseconds since its own start, or 0 if it can't be read.
    pub monotonic_millis: u64,
}

/// The offset of each lead, so that a system's clock behind the monotonic one has a lead too.
pub(crate) const NO_LEAD: u64 = 1 << 62;

impl Reading {
    ghost use Rattle.std.specs.Prelude.{◌≡◌};
    ghost use Rattle.mc_time.specs.Readings.{lead_of};

    /// Returns the system clock's lead over the monotonic one, in milliseconds plus 2^62.
    pub(crate) fn lead(&self) -> u64
        ensures { result ≡ lead_of self.now }
    {
        self.system_millis
            .saturating_add(NO_LEAD)
            .saturating_sub(self.monotonic_millis)
    }
}
