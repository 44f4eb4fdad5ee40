//! The counters of the bytes that a channel moves.
//!
//! A channel is proved for any meter: it counts what a call moved, once, and nothing else. The
//! meter of a socket's channel is shared with other threads, so contracts see no number of it.
use mc_metrics::{Counted, Counters};
use std::cell::Cell;
use std::rc::Rc;
use std::sync::Arc;

/// A counter of moved bytes.
pub trait Meter {
    ghost use Rattle.std.specs.Prelude.{ℕ};
    ghost use Rattle.mc_metrics.specs.declared.counts.Counted.{Counted as Kind};

    /// Counting this many bytes of a kind turns the first value into the second.
    ghost counts: { Self → Kind → ℕ → Self → Type 0 };

    /// Counts bytes that were moved.
    fn count(&mut self, counted: Counted, bytes: usize)
        ensures { counts self.old counted bytes self.new };
}

/// The counters of a worker, which its links share.
#[derive(Drop)]
pub struct SharedMeter {
    /// The bytes that all links of the worker moved since the last poll.
    moved: Rc<Cell<usize>>,
    counts: Arc<Counters>,
}

impl SharedMeter {
    /// Returns a meter that adds to these counters.
    pub fn new(moved: Rc<Cell<usize>>, counts: Arc<Counters>) -> SharedMeter {
        SharedMeter { moved, counts }
    }

    /// Adds bytes that were moved.
    #[inline]
    pub fn add(&self, counted: Counted, bytes: usize) {
        self.moved.set(self.moved.get().saturating_add(bytes));
        self.counts.add(counted, bytes as u64);
    }
}

impl Meter for SharedMeter {
    ghost use Rattle.std.specs.Prelude.{⊤};

    ghost counts = { λ _ _ _ _. ⊤ };

    #[inline]
    fn count(&mut self, counted: Counted, bytes: usize) {
        self.add(counted, bytes);
    }
}
