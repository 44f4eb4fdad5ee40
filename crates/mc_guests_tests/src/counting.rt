//! A store that counts its steps.

ghost use Rattle.std.specs.Prelude.{◌≡◌, refl};

use mc_command::PlainStore;
use mc_guests::Reports;
use mc_protocol::{KeyStep, Reply, StepFault, Steps};
use mc_time::Moment;
use std::alloc::{AllocError, Global};
use std::cell::Cell;

/// A plain store that counts the steps it is called for, and can refuse memory for each.
#[derive(Drop)]
pub(crate) struct Counting {
    pub(crate) store: PlainStore,
    pub(crate) is_refused: bool,
    pub(crate) asked: u64,
    /// The reports of requests that were too large.
    pub(crate) too_large: Cell<u64>,
}

impl Counting {
    /// Returns an empty store, which refuses no step memory, or every one.
    pub fn new(alloc: Global, is_refused: bool) -> Result<Counting, AllocError> {
        Ok(Counting {
            store: PlainStore::new(alloc, 64, 1_048_576)?,
            is_refused,
            asked: 0,
            too_large: Cell::new(0),
        })
    }
}

impl Steps for Counting {
    ghost took = { λ old step now reply new. old ≡ old };

    ghost spent = { λ old step now. old ≡ old };

    ghost same = { λ old new. old ≡ old };

    ghost holds_itself = { λ _. refl };

    fn step(&mut self, alloc: Global, step: &KeyStep<'_>, now: Moment) -> Result<Reply, StepFault> {
        self.asked = self.asked.saturating_add(1);
        if self.is_refused {
            return Err(StepFault::NoMemory);
        }
        self.store.step(alloc, step, now)
    }
}

impl Reports for Counting {
    fn too_large(&self) {
        self.too_large.set(self.too_large.get().saturating_add(1));
    }
}
