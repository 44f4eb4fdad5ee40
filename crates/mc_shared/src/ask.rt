//! A step on a key, on its way through a shelf and the desk.
use mc_protocol::{KeyStep, StepFault};
use mc_time::Moment;

/// A step on a key, with the key's hash and the number of its shelf.
#[derive(Drop)]
pub(crate) struct Ask<'a> {
    pub(crate) step: &'a KeyStep<'a>,
    pub(crate) hash: u64,
    pub(crate) moment: Moment,
    pub(crate) at: u32,
}

/// Why a step wasn't taken.
#[derive(Drop)]
pub(crate) enum Untaken<B: Drop> {
    /// Another caller holds a bay.
    Met(B),
    /// Memory was refused, or the unique numbers are used up.
    Refused(StepFault),
}
