//! Stand-ins of the system's clocks.
ghost use Rattle.std.specs.Prelude.{◌≡◌, ◌*◌, ◌^◌, ◌-◌, IsErr, IfOk};
ghost use Rattle.core.specs.Duration.{as_nanos};

use std::io::{self, ErrorKind};
use std::sync::atomic::{AtomicU64, Ordering};
use std::time::{Clock, Duration};

/// The reading of a clock that can't be read.
pub(crate) const UNREADABLE: u64 = u64::MAX;

/// The system's two clocks, as a test sets them, in milliseconds.
#[derive(Drop)]
pub(crate) struct StandIn {
    system: AtomicU64,
    monotonic: AtomicU64,
}

impl StandIn {
    /// Returns clocks that read 0.
    pub(crate) fn new() -> StandIn {
        StandIn {
            system: AtomicU64::new(0),
            monotonic: AtomicU64::new(0),
        }
    }

    /// Sets both clocks.
    pub(crate) fn set(&self, system: u64, monotonic: u64) {
        self.system.store(system, Ordering::SeqCst);
        self.monotonic.store(monotonic, Ordering::SeqCst);
    }
}

impl Clock for StandIn {
    fn monotonic(&self) -> io::Result<Duration> {
        reading(self.monotonic.load(Ordering::SeqCst))
    }

    fn since_1970(&self) -> io::Result<Duration> {
        reading(self.system.load(Ordering::SeqCst))
    }
}

/// Returns the duration of that many milliseconds, or an error if the clock can't be read.
fn reading(millis: u64) -> io::Result<Duration>
    ensures unreadable { millis ≡ 2 ^ 64 - 1 → IsErr result }
    ensures read { IfOk result (λ time. as_nanos time ≡ millis * 1_000_000) }
{
    if millis == UNREADABLE {
        return Err(io::Error::from(ErrorKind::Unsupported));
    }
    Ok(Duration::from_millis(millis))
}
