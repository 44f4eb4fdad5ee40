//! Keys that `absent` reports to one caller. If memory is refused the call is made again.

use crate::sole::{Act, DELETE, FLUSH, Row, SET, SET_FOR_10, Sole};
use crate::stores::{MANY, ONE, SOME};
use mc_hop::{Constant, Fnv, KeyHash};
use mc_shelf::Settings;
use mc_testing::{Ask, filled_block};
use mc_time::Moment;
use std::alloc::{AllocError, Global};
use std::sync::Wait;
use std::test::*;

static DEATHS: [Row; 12] = [
    (1000, b"a", Act::Absent(true)),
    (1000, b"a", SET),
    (1000, b"a", Act::Absent(false)),
    (1000, b"a", DELETE),
    (1000, b"a", Act::Absent(true)),
    (1000, b"a", SET),
    (1000, b"", FLUSH),
    (1000, b"a", Act::Absent(true)),
    (1000, b"a", SET_FOR_10),
    (1010, b"a", Act::Absent(false)),
    (1010, b"a", Act::Tidy),
    (1010, b"a", Act::Absent(true)),
];

static ONE_NUMBER: [Row; 3] = [
    (1000, b"b", SET),
    (1000, b"a", Act::Absent(false)),
    (1000, b"a", Act::Told(Ask::Get, "miss")),
];

/// Returns the first row with an unexpected result in an empty store with these settings.
fn first_untold<K: KeyHash + Drop + Copy>(
    rt: &impl Wait,
    alloc: Global,
    settings: Settings,
    hasher: K,
    rows: &[Row],
) -> Result<Option<usize>, AllocError> {
    let mut sole = Sole::open(rt, alloc, settings, hasher)?;
    Ok(sole.first_untold(alloc, rows))
}

#[test]
fn a_key_is_absent_before_it_is_set_and_when_it_is_gone(rt: HostRuntime) -> Result<(), Fail> {
    const EACH: [Settings; 3] = [ONE, SOME, MANY];
    for settings in &EACH {
        let first = first_untold(&rt, rt.alloc(), *settings, Fnv, &DEATHS)?;
        assert_eq!(rt; first, None);
    }
    Ok(())
}

#[test]
fn a_key_of_the_number_of_another_is_not_absent(rt: HostRuntime) -> Result<(), Fail> {
    let first = first_untold(&rt, rt.alloc(), SOME, Constant(0), &ONE_NUMBER)?;
    assert_eq!(rt; first, None);
    Ok(())
}

/// Returns the names of the replies to a set of `b` that takes the page, and to one of `s`.
///
/// Returns also whether `s` is absent then.
fn told_of_full<R: Wait>(
    sole: &mut Sole<'_, R, Fnv>,
    alloc: Global,
    block: &[u8],
) -> (&'static str, &'static str, bool) {
    let large = sole.set(alloc, b"b", block);
    let small = sole.set(alloc, b"s", b"x");
    let now = Moment::from_seconds_at_most(1000);
    (large, small, sole.is_absent(b"s", now))
}

/// Returns the same for a new store of one page.
fn told_of_full_store<R: Wait>(
    rt: &R,
    alloc: Global,
    block: &[u8],
) -> Result<(&'static str, &'static str, bool), AllocError> {
    let small = Settings {
        pages: 1,
        greatest: Settings::GREATEST,
        shelves: 64,
    };
    let mut sole = Sole::open(rt, alloc, small, Fnv)?;
    Ok(told_of_full(&mut sole, alloc, block))
}

#[test]
fn a_key_that_finds_no_chunk_is_absent(rt: HostRuntime) -> Result<(), Fail> {
    let block = filled_block(rt.alloc(), 600000)?;
    let told = told_of_full_store(&rt, rt.alloc(), block.as_slice())?;
    assert_eq!(rt; told, ("stored", "no chunk", true));
    Ok(())
}
