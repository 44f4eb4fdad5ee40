//! Warnings for the operator, each at most once a minute.

use std::array;
use std::sync::atomic::{AtomicU64, Ordering};
use std::time::{Clock, Instant};

/// A warning for the operator.
#[derive(Clone, Copy)]
pub enum Warning {
    /// A connection was refused: the connection limit is reached.
    TooManyConnections,
    /// The system has no descriptor for a connection.
    NoDescriptor,
    /// The system has no memory for a connection.
    NoMemory,
    /// A connection was closed because the system refused memory for it.
    OutOfMemory,
}

/// The number of kinds of warnings.
const WARNINGS: usize = 4;

/// The seconds for which a warning isn't written again.
const QUIET: u64 = 60;

impl Warning {
    /// Returns the text of the warning.
    pub fn text(self) -> &'static str {
        match self {
            Warning::TooManyConnections => "a connection was refused, as -c allows no more",
            Warning::NoDescriptor =>
                "a connection waits or was closed, as no descriptor is left (ulimit -n)",
            Warning::NoMemory => "a connection waits, as the system has no memory for it",
            Warning::OutOfMemory => "a connection was closed, as the system has no memory for it",
        }
    }
}

/// When each warning was last written.
#[derive(Drop)]
pub struct Warnings {
    /// The moment from which seconds are counted, if the clock can be read.
    started: Option<Instant>,
    /// The second of the last warning of each kind, and 1 more; 0 before the first.
    written: [AtomicU64; WARNINGS],
}

impl Warnings {
    /// Returns the state without warnings. Seconds are counted from `started` on.
    pub fn new(started: Option<Instant>) -> Warnings {
        Warnings {
            started,
            written: array::from_fn(|_at| AtomicU64::new(0)),
        }
    }

    /// Returns whether a warning is to be written now, and counts it as written.
    ///
    /// Within a minute at most one thread gets true.
    pub fn is_due<R: Clock>(&self, rt: &R, warning: Warning) -> bool {
        let Some(written) = self.written.get(warning as usize) else {
            return false;
        };
        let last = written.load(Ordering::SeqCst);
        let now = self.seconds(rt).saturating_add(1);
        if last > 0 && now < last.saturating_add(QUIET) {
            return false;
        }
        let raised = written.compare_exchange(last, now, Ordering::SeqCst, Ordering::SeqCst);
        raised.is_ok()
    }

    /// Returns the seconds since the start, or 0 if the clock can't be read.
    fn seconds<R: Clock>(&self, rt: &R) -> u64 {
        let Some(started) = self.started else {
            return 0;
        };
        match started.elapsed(rt) {
            Ok(time) => time.as_secs(),
            Err(_) => 0,
        }
    }
}
