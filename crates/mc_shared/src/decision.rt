//! What is decided when a bay is given back.
//!
//! A decision is one lent value (a settled step, a begun step, a purge, a flush) that no code
//! reads: contracts derive the history's entry and the shelves still held from it. So a slot never
//! has anything lent.
use crate::boxed::Boxed;
use mc_protocol::{KeyStep, Reply};
use mc_shelf::{Plan, Shelf};
use mc_time::Moment;
use std::snapshot::Snapshot;

/// What was done, with the shelves that are still held.
///
/// The rule of the table reads it, and adds it to the history.
#[derive(Drop)]
pub(crate) enum Decision<'a> {
    /// A step that its key's shelf decided alone.
    Settled {
        step: &'a KeyStep<'a>,
        moment: Moment,
        reply: &'a Reply,
    },
    /// A read whose key had no dead item in its shelf, as it was then. A hit was passed on.
    Read {
        step: &'a KeyStep<'a>,
        moment: Moment,
        shelf: &'a Snapshot<Shelf>,
    },
    /// A step that the desk decided, begun at its key's shelf.
    ///
    /// The shelf is held until the step is finished. `had` is the number of the shelf's keys that
    /// are counted, with one for the key, which has this number.
    Begun {
        step: &'a KeyStep<'a>,
        moment: Moment,
        at: u32,
        shelf: &'a Shelf,
        plan: &'a Plan<'a>,
        number: usize,
        had: usize,
    },
    /// A purge that dropped items of a shelf, which is still held. `before` are its counts of keys
    /// by number.
    Purged {
        at: u32,
        moment: Moment,
        shelf: &'a Shelf,
        before: &'a [u64],
    },
    /// A purge of a shelf without dead items.
    NoneDead {
        at: u32,
        moment: Moment,
    },
    /// A flush of all shelves, which are still held. `before` are their counts of keys by number.
    Flushed {
        delay: u64,
        moment: Moment,
        shelves: &'a Vec<Boxed<Shelf>>,
        before: &'a [u64],
    },
}
