//! Which keys are absent to one caller after steps, purges and flushes.
//!
//! If memory is refused the call is made again.

use crate::sole::{Act, DELETE, FLUSH, Row, SET, SET_FOR_5, SET_FOR_10, Sole};
use mc_hop::Fnv;
use mc_protocol::StepFault;
use mc_testing::Ask;
use mc_time::Moment;
use std::alloc::Global;
use std::sync::Wait;
use std::test::*;

/// `a00` has the number of `a`; `ba` is on its shelf, with another number; `b` and `k` are on other
/// shelves.
static PURGES: [Row; 18] = [
    (1000, b"b", Act::Absent(true)),
    (1000, b"a", Act::Absent(false)),
    (1000, b"a", DELETE),
    (1000, b"a", Act::Absent(true)),
    (1000, b"a", SET_FOR_10),
    (1000, b"a00", SET),
    (1000, b"ba", SET_FOR_10),
    (1010, b"a", Act::Absent(false)),
    (1010, b"ba", Act::Absent(false)),
    (1010, b"k", Act::Tidy),
    (1010, b"ba", Act::Absent(false)),
    (1010, b"a", Act::Tidy),
    (1010, b"a", Act::Absent(false)),
    (1010, b"ba", Act::Absent(true)),
    (1010, b"k", Act::Absent(false)),
    (1010, b"a00", DELETE),
    (1010, b"a", Act::Absent(true)),
    (1010, b"k", Act::Absent(false)),
];

/// A flush after a delay drops the dead items, and from its moment on all are dead.
static LATER: [Row; 13] = [
    (1000, b"a00", SET),
    (1000, b"b", SET_FOR_5),
    (1005, b"", Act::Told(Ask::Flush(10), "flushed")),
    (1005, b"b", Act::Absent(true)),
    (1005, b"a", Act::Absent(false)),
    (1005, b"k", Act::Absent(false)),
    (1015, b"k", Act::Absent(false)),
    (1015, b"k", Act::Tidy),
    (1015, b"k", Act::Absent(true)),
    (1015, b"a", Act::Absent(false)),
    (1015, b"a", Act::Tidy),
    (1015, b"a", Act::Absent(true)),
    (1015, b"a00", Act::Absent(true)),
];

/// A flush after a delay drops what is dead by the one before, and nothing where all items live.
static LATER_AGAIN: [Row; 10] = [
    (1000, b"a00", SET),
    (1005, b"", Act::Told(Ask::Flush(10), "flushed")),
    (1015, b"", Act::Told(Ask::Flush(100), "flushed")),
    (1015, b"k", Act::Absent(true)),
    (1015, b"a", Act::Absent(true)),
    (1015, b"a", SET),
    (1016, b"", Act::Told(Ask::Flush(100), "flushed")),
    (1016, b"a", Act::Absent(false)),
    (1116, b"a", Act::Tidy),
    (1116, b"a", Act::Absent(true)),
];

/// A flush without a delay drops all items.
static AT_ONCE: [Row; 11] = [
    (1000, b"a00", SET),
    (1000, b"ba", SET_FOR_10),
    (1000, b"b", SET),
    (1000, b"a", Act::Absent(false)),
    (1000, b"", FLUSH),
    (1000, b"a", Act::Absent(true)),
    (1000, b"ba", Act::Absent(true)),
    (1000, b"b", Act::Absent(true)),
    (1000, b"k", Act::Absent(true)),
    (1000, b"a", SET),
    (1000, b"a", Act::Absent(false)),
];

/// Returns the first row with an unexpected result, in a store that has `a` and `k`.
fn first_untold<R: Wait>(rt: &R, alloc: Global, rows: &[Row]) -> Result<Option<usize>, StepFault> {
    let mut sole = Sole::filled(rt, alloc)?;
    Ok(sole.first_untold(alloc, rows))
}

#[test]
fn a_purged_key_is_absent(rt: HostRuntime) -> Result<(), Fail> {
    assert_eq!(rt; first_untold(&rt, rt.alloc(), &PURGES)?, None);
    Ok(())
}

#[test]
fn a_key_flushed_later_is_absent(rt: HostRuntime) -> Result<(), Fail> {
    assert_eq!(rt; first_untold(&rt, rt.alloc(), &LATER)?, None);
    Ok(())
}

#[test]
fn a_key_flushed_later_again_is_absent(rt: HostRuntime) -> Result<(), Fail> {
    assert_eq!(rt; first_untold(&rt, rt.alloc(), &LATER_AGAIN)?, None);
    Ok(())
}

#[test]
fn a_key_flushed_at_once_is_absent(rt: HostRuntime) -> Result<(), Fail> {
    assert_eq!(rt; first_untold(&rt, rt.alloc(), &AT_ONCE)?, None);
    Ok(())
}

/// Flushes, and returns whether memory was not refused.
fn is_flushed<R: Wait>(sole: &mut Sole<'_, R, Fnv>, alloc: Global) -> bool {
    let now = Moment::from_seconds_at_most(1000);
    let Sole { rt, shared, caller } = sole;
    shared.flush(*rt, alloc, caller, 0, now).is_ok()
}

/// Flushes, again if memory is refused.
///
/// Returns whether `a` was there until then, and whether it is absent now.
fn stayed_and_is_gone<R: Wait>(sole: &mut Sole<'_, R, Fnv>, alloc: Global) -> (bool, bool) {
    let now = Moment::from_seconds_at_most(1000);
    let stayed = is_flushed(sole, alloc) || !sole.is_absent(b"a", now) && is_flushed(sole, alloc);
    (stayed, sole.is_absent(b"a", now))
}

/// Returns both for a store that has `a`.
fn seen_of_flush<R: Wait>(rt: &R, alloc: Global) -> Result<(bool, bool), StepFault> {
    let mut sole = Sole::filled(rt, alloc)?;
    Ok(stayed_and_is_gone(&mut sole, alloc))
}

#[test]
fn a_refused_flush_changes_no_word(rt: HostRuntime) -> Result<(), Fail> {
    assert_eq!(rt; seen_of_flush(&rt, rt.alloc())?, (true, true));
    Ok(())
}
