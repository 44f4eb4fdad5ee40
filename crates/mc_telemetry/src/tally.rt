//! Counts the steps of a worker, and what its connections hold of buffers.
//!
//! Each worker counts in memory of its own, one cache line apart, and a scrape adds up. So a
//! command costs one addition.

use crate::counting::counted_as;
use mc_links::{Outcome, Tally};
use mc_metrics::{Counted, Counters};
use mc_protocol::KeyStep;
use mc_sizes::need_of;
use mc_sockets::{ShortageTally, Wanted};

/// Counts a worker's steps and what its connections hold, and notes in the log each step that is
/// refused for want of a chunk.
#[derive(Clone, Copy)]
pub struct WorkerTally<'a> {
    /// The counters of the worker.
    pub counts: &'a Counters,
    /// Where refused steps are noted.
    pub refusals: ShortageTally<'a>,
}

impl Tally for WorkerTally<'_> {
    fn took(&self, step: &KeyStep<'_>, outcome: Outcome) {
        if let Some(counted) = counted_as(step, outcome) {
            self.counts.add(counted, 1);
        }
        if let Outcome::NoChunk = outcome {
            self.counts.refuse(class_wanted(step));
        }
        self.refusals.took(step, outcome);
    }

    fn too_large(&self) {
        self.counts.add(Counted::TooLarge, 1);
    }

    fn holds(&self, held: usize, waiting: usize) {
        self.counts.hold(held as u64, waiting as u64);
    }
}

/// Returns the number of the class of chunks that a refused step wanted, or 0 if the step alone
/// doesn't have the item's size.
fn class_wanted(step: &KeyStep<'_>) -> usize {
    let need = match Wanted::of(step) {
        Wanted::Size(size) => need_of(size),
        Wanted::Growth => None,
    };
    match need {
        Some(need) => usize::from(need.class().number()),
        None => 0,
    }
}
