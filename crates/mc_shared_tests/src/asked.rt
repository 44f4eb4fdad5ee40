//! Steps on keys of any length.

use mc_protocol::{Reply, StepFault, Steps};
use mc_testing::{Ask, ask_step, step_of};
use mc_time::Moment;
use std::alloc::Global;

/// Takes a step, once more if memory is refused. A key that is too long counts as a refusal.
pub(crate) fn taken<S: Steps>(
    store: &mut S,
    alloc: Global,
    key: &[u8],
    ask: Ask<'_>,
    now: Moment,
) -> Result<Reply, StepFault> {
    if key.len() > 250 {
        return Err(StepFault::NoMemory);
    }
    ask_step(store, alloc, &step_of(key, ask), now)
}
