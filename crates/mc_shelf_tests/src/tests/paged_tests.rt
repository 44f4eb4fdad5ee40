//! Items of several pages: which chunks they take, and what a dead one gives back first.

use crate::both::{Both, first_apart, open_both, stored_in_parts};
use crate::parted::Way;
use crate::plays::{PAGE, are_answered};
use crate::seen::account;
use crate::stores::{large_items, set_up};
use core::mem::replace_with;
use mc_hop::Fnv;
use mc_protocol::{Steps, Verb};
use mc_shelf::Store;
use mc_testing::{
    Act, Ask, Play, Row, Want, bounded_block, filled_block, front, is_answered, join, set, step_of,
    told_of,
};
use mc_time::Moment;
use std::alloc::{AllocError, Global};
use std::process::Abort;
use std::test::*;

/// A block of two pages, and one of three.
const TWO: usize = 2_000_000;

const THREE: usize = 3_000_000;

/// A block that makes a page with a key of one byte.
const ONE: usize = 1_048_527;

const SMALL: usize = 5;

static LIVE: [Play; 5] = [
    (1000, b"k", Act::Set(0, TWO, "stored")),
    (1000, b"k", Act::Set(0, THREE, "no chunk")),
    (1000, b"k", Act::Hit(1, TWO)),
    (1000, b"k", Act::Set(0, SMALL, "stored")),
    (1000, b"k", Act::Hit(2, SMALL)),
];

/// An item that isn't dead keeps its pages until the new one has its own.
#[test]
fn one_that_stands_gives_its_pages_last(rt: HostRuntime) -> Result<(), Fail> {
    are_answered(&rt, rt.alloc(), large_items(4), &LIVE, (2, 0), true)
}

// The item of `k` dies at 1010, and the set then is the first step on `k`.

static SHORTER: [Play; 5] = [
    (1000, b"k", Act::Set(10, THREE, "stored")),
    (1010, b"k", Act::Set(0, TWO, "stored")),
    (1010, b"k", Act::Hit(2, TWO)),
    (1010, b"b", Act::Set(0, ONE, "stored")),
    (1010, b"c", Act::Set(0, ONE, "no chunk")),
];

/// A dead item of three pages gives way to one of two, and another item takes the third.
#[test]
fn a_dead_one_gives_way_to_a_shorter(rt: HostRuntime) -> Result<(), Fail> {
    are_answered(&rt, rt.alloc(), large_items(3), &SHORTER, (3, 3), false)
}

static FULL: [Play; 4] = [
    (1000, b"k", Act::Set(10, TWO, "stored")),
    (1000, b"b", Act::Set(0, ONE, "stored")),
    (1010, b"k", Act::Set(0, THREE, "no chunk")),
    (1010, b"c", Act::Set(0, TWO, "stored")),
];

/// The dead item is dropped even if its pages are also too few.
#[test]
fn a_dead_one_goes_where_no_room_is(rt: HostRuntime) -> Result<(), Fail> {
    are_answered(&rt, rt.alloc(), large_items(3), &FULL, (3, 3), false)
}

/// Sets `k` at 1010, when its item of two pages is dead. Returns whether it is stored.
///
/// If memory is refused the two pages must still be out, and the second try must store it.
fn gives_way(store: &mut Store<Fnv>, alloc: Global, block: &[u8]) -> bool {
    let told = set_told(store, alloc, block);
    if told != "no memory" {
        return told == "stored";
    }
    account(store, PAGE) == (2, 2) && set_told(store, alloc, block) == "stored"
}

/// Sets `k` at 1010 once, and returns the name of the result.
fn set_told(store: &mut Store<Fnv>, alloc: Global, block: &[u8]) -> &'static str {
    let now = Moment::from_seconds_at_most(1010);
    let step = step_of(b"k", Ask::Store(Verb::Set, 0, block));
    told_of(&store.step(alloc, &step, now))
}

/// Sets an item of two pages, and one of three when it is dead. Returns whether it was right.
fn gives_way_to_longer(store: &mut Store<Fnv>, alloc: Global, bytes: &[u8]) -> bool {
    let dies = set(1000, b"k", 10, front(bytes, TWO), "stored");
    let is_set = is_answered(store, alloc, dies);
    let is_stored = gives_way(store, alloc, bytes);
    let stands: Row<'_> = (1010, b"k", Ask::Get, Want::Hit(2, bytes));
    is_set && is_stored && is_answered(store, alloc, stands)
}

/// Returns whether it was right in a store of three pages, and the account of their class then.
fn seen_of_longer(alloc: Global, bytes: &[u8]) -> Result<(bool, (u32, u32)), AllocError> {
    let mut store = set_up(alloc, large_items(3), Fnv)?;
    let is_right = gives_way_to_longer(&mut store, alloc, bytes);
    Ok((is_right, account(&mut store, PAGE)))
}

/// A dead item of two pages gives way to one of three, which takes one page more.
///
/// If that page is refused the dead item keeps its own.
#[test]
fn a_dead_one_gives_way_to_a_longer(rt: HostRuntime) -> Result<(), Fail> {
    let three = filled_block(rt.alloc(), THREE)?;
    assert_eq!(rt;
        seen_of_longer(rt.alloc(), three.as_slice())?,
        (true, (3, 3))
    );
    Ok(())
}

static GROWING: [Play; 4] = [
    (1000, b"k", Act::Set(0, 1_000_000, "stored")),
    (1000, b"k", Act::Join(Verb::Append, 1_500_000, "stored")),
    (1000, b"k", Act::Join(Verb::Prepend, 500_000, "stored")),
    (1000, b"k", Act::Hit(3, THREE)),
];

/// A block in several pages is joined from others.
#[test]
fn joins_go_over_pages(rt: HostRuntime) -> Result<(), Fail> {
    are_answered(&rt, rt.alloc(), large_items(6), &GROWING, (6, 3), true)
}

static STAYING: [Play; 5] = [
    (1000, b"k", Act::Set(0, 1_500_000, "stored")),
    (1000, b"k", Act::Join(Verb::Append, 400_000, "stored")),
    (1000, b"k", Act::Join(Verb::Append, 100_000, "stored")),
    (1000, b"k", Act::Join(Verb::Append, 400_000, "no chunk")),
    (1000, b"k", Act::Hit(3, TWO)),
];

/// Bytes appended to an item of two pages stay in them while as many are free.
///
/// One that needs three finds too few.
#[test]
fn joins_stay_in_their_pages(rt: HostRuntime) -> Result<(), Fail> {
    are_answered(&rt, rt.alloc(), large_items(4), &STAYING, (4, 2), true)
}

/// Returns the accounts of the last class in both.
fn accounts(both: Both) -> [(u32, u32); 2] {
    let Both {
        mut whole,
        mut parted,
        ..
    } = both;
    [account(&mut whole, PAGE), account(&mut parted, PAGE)]
}

/// Returns the rows that join a block of 1,500,000 bytes, one of 900,000, the first byte and the
/// last. `all` is the whole block.
fn rows_of_joins(all: &[u8]) -> [Row<'_>; 5] {
    let (_, inner) = all.split_at(all.len().min(1));
    [
        set(1000, b"k", 0, front(inner, 1_500_000), "stored"),
        join(Verb::Append, front(inner, 900_000), "stored"),
        join(Verb::Prepend, b"a", "stored"),
        join(Verb::Append, b"z", "stored"),
        (1000, b"k", Ask::Get, Want::Hit(4, all)),
    ]
}

/// Returns the first row for which two stores differ, and their accounts.
fn seen_of_joins(
    alloc: Global,
    rows: &[Row<'_>],
    way: Way,
) -> Result<(Option<usize>, [(u32, u32); 2]), AllocError> {
    let (both, apart) = first_apart(alloc, open_both(alloc, large_items(6), way)?, rows);
    Ok((apart, accounts(both)))
}

/// A join that is begun, with pages in exchange, and then finished is the whole join.
#[test]
fn joins_of_pages_go_in_two_parts(rt: HostRuntime) -> Result<(), Fail> {
    let all = bounded_block(rt.alloc(), 2_400_002)?;
    let rows = rows_of_joins(all.as_slice());
    let seen = seen_of_joins(rt.alloc(), &rows, Way::Looked)?;
    assert_eq!(rt; seen, (None, [(6, 3), (6, 3)]));
    let seen = seen_of_joins(rt.alloc(), &rows, Way::AtDesk)?;
    assert_eq!(rt; seen, (None, [(6, 3), (6, 3)]));
    Ok(())
}

/// A join, its length, and whether it is left: to one chunk, to two pages that become three, to
/// three that are copied for a prepend, and to three that stay.
static LEFT: [(Verb, usize, bool); 5] = [
    (Verb::Append, 700_000, false),
    (Verb::Append, 1_000_000, true),
    (Verb::Prepend, 1, true),
    (Verb::Append, 700_000, true),
    (Verb::Append, 1, true),
];

/// Checks which joins are left, in a store of 16 pages.
fn joins_are_left_in(rt: &impl Abort, alloc: Global, store: &mut Store<Fnv>, bytes: &[u8]) {
    let first = set(1000, b"k", 0, front(bytes, 400_000), "stored");
    assert!(rt; is_answered(store, alloc, first));
    for (verb, len, want) in &LEFT {
        let joined = (alloc, *verb, front(bytes, *len));
        let seen = replace_with(store, joined, stored_in_parts);
        assert_eq!(rt; seen, ("stored", *want));
    }
}

/// The same, in a new store.
fn joins_are_left(rt: &impl Abort, alloc: Global, bytes: &[u8]) -> Result<(), AllocError> {
    let mut store = set_up(alloc, large_items(16), Fnv)?;
    joins_are_left_in(rt, alloc, &mut store, bytes);
    Ok(())
}

/// What is left to the second part: a join that copies pages, but not one that copies a smaller
/// item.
#[test]
fn a_join_of_pages_is_left(rt: HostRuntime) -> Result<(), Fail> {
    let bytes = filled_block(rt.alloc(), 1_000_000)?;
    Ok(joins_are_left(&rt, rt.alloc(), bytes.as_slice())?)
}
