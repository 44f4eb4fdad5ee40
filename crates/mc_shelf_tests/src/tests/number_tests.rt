//! The number of items of a shelf, and of its keys by number, the hash modulo 4096.

use crate::lengths::{ByLength, front, set_key};
use crate::seen::{counts, dead_chunks, keys, reclaimed};
use crate::stores::open_with;
use crate::tests::store_tests::answers;
use mc_hop::{Constant, KeyHash};
use mc_protocol::Verb;
use mc_shelf::{Shelf, ShelfCounts, Store, StoreParts};
use mc_testing::{Ask, Row, Want, filled_block};
use mc_time::Moment;
use std::alloc::{AllocError, Global};
use std::process::Abort;
use std::test::*;

/// Drops the dead items of the first shelf, if `purges`.
fn purge_at(store: &mut Store<Constant>, seconds: u64, purges: bool) {
    if purges {
        store.purge(0, Moment::from_seconds_at_most(seconds));
    }
}

const X: Ask<'static> = Ask::Store(Verb::Set, 0, b"x");

/// It expires in 5 seconds.
const FIVE: Ask<'static> = Ask::Store(Verb::Set, 5, b"x");

/// It expires in 10 seconds.
const TEN: Ask<'static> = Ask::Store(Verb::Set, 10, b"x");

const Z: Ask<'static> = Ask::Store(Verb::Set, 0, b"z");

const STORED: Want<'static> = Want::Told("stored");

const FLUSHED: Want<'static> = Want::Told("flushed");

const MISS: Want<'static> = Want::Told("miss");

const DELETED: Want<'static> = Want::Told("deleted");

/// Rows, and whether a purge at the row's second follows. Then the number of the shelf's items, and
/// of those that purges and flushes dropped.
static COUNTS: [(Row<'static>, bool, usize, u64); 16] = [
    ((1000, b"a", Ask::Get, MISS), false, 0, 0),
    ((1000, b"a", X, STORED), false, 1, 0),
    ((1000, b"b", TEN, STORED), false, 2, 0),
    ((1001, b"a", Z, STORED), true, 2, 0),
    ((1002, b"a", Ask::Delete, DELETED), false, 1, 0),
    (
        (1002, b"a", Ask::Delete, Want::Told("not found")),
        false,
        1,
        0,
    ),
    ((1010, b"a", Ask::Get, MISS), false, 1, 0),
    ((1010, b"b", Ask::Get, MISS), false, 0, 0),
    ((1010, b"c", TEN, STORED), false, 1, 0),
    ((1020, b"a", Ask::Get, MISS), true, 0, 1),
    ((1020, b"a", X, STORED), false, 1, 1),
    ((1020, b"b", X, STORED), false, 2, 1),
    ((1020, b"a", Ask::Flush(5), FLUSHED), true, 2, 1),
    ((1025, b"c", Ask::Get, MISS), true, 0, 3),
    ((1025, b"a", X, STORED), false, 1, 3),
    ((1025, b"a", Ask::Flush(0), FLUSHED), false, 0, 4),
];

/// The same, in a store of its own.
static DROPPED: [(Row<'static>, bool, usize, u64); 14] = [
    ((1000, b"a", X, STORED), false, 1, 0),
    ((1000, b"b", TEN, STORED), false, 2, 0),
    ((1000, b"c", FIVE, STORED), false, 3, 0),
    ((1000, b"d", FIVE, STORED), true, 4, 0),
    ((1005, b"e", Ask::Get, MISS), true, 2, 2),
    ((1005, b"a", Ask::Delete, DELETED), true, 1, 2),
    ((1010, b"b", Ask::Get, MISS), true, 0, 2),
    ((1010, b"a", FIVE, STORED), true, 1, 2),
    ((1015, b"a", X, STORED), true, 1, 2),
    ((1015, b"b", X, STORED), true, 2, 2),
    ((1015, b"", Ask::Flush(5), FLUSHED), true, 2, 2),
    ((1020, b"e", Ask::Get, MISS), true, 0, 4),
    ((1020, b"a", X, STORED), true, 1, 4),
    ((1020, b"", Ask::Flush(0), FLUSHED), true, 0, 5),
];

/// Keys of one hash, on the first shelf, with the number 960.
///
/// A dead item counts until a step on its key, or a purge, drops it. One that such a step drops
/// isn't counted as dropped.
#[test]
fn items_that_purges_and_flushes_drop_are_counted(rt: HostRuntime) -> Result<(), Fail> {
    counts_in_new(&rt, rt.alloc(), &COUNTS)?;
    counts_in_new(&rt, rt.alloc(), &DROPPED)
}

/// Checks the rows in a new store.
fn counts_in_new(
    rt: &impl Abort,
    alloc: Global,
    rows: &[(Row<'_>, bool, usize, u64)],
) -> Result<(), Fail> {
    let mut store = open_with(alloc, 64, Constant(5056))?;
    counts_items(rt, alloc, &mut store, rows)
}

/// Checks the counts after each row, and a purge if there is one.
fn counts_items(
    rt: &impl Abort,
    alloc: Global,
    store: &mut Store<Constant>,
    rows: &[(Row<'_>, bool, usize, u64)],
) -> Result<(), Fail> {
    for (row, purges, items, dropped) in rows {
        answers(rt, alloc, store, &[*row])?;
        purge_at(store, row.0, *purges);
        has_items(rt, store, *items, row.0);
        has_dropped(rt, store, *dropped, row.0);
    }
    Ok(())
}

/// Checks how many items and keys there are.
fn has_items(rt: &impl Abort, store: &mut Store<Constant>, want: usize, seconds: u64) {
    let (len, count) = keys(store, 960);
    assert!(rt;
        len == want && count == want as u64,
        "{len} and {count} at {seconds}"
    );
}

/// Checks how many items were dropped.
fn has_dropped(rt: &impl Abort, store: &mut Store<Constant>, want: u64, seconds: u64) {
    assert!(rt; reclaimed(store) == Some(want), "not {want} at {seconds}");
}

/// Begins a purge of a shelf, and returns the number of removed items and of those left.
///
/// It tries again if memory is refused, and returns `None` after the second refusal.
fn begun_at(alloc: Global, shelf: &mut Shelf, seconds: u64) -> Option<(usize, usize)> {
    let now = Moment::from_seconds_at_most(seconds);
    let chunks = dead_chunks(alloc, shelf, now)?;
    Some((chunks.len(), shelf.len()))
}

/// Items that die at different moments, and one that lives on.
static DIE_LATER: [Row<'static>; 5] = [
    (1000, b"a", TEN, STORED),
    (1000, b"b", X, STORED),
    (1000, b"c", FIVE, STORED),
    (1000, b"d", Ask::Store(Verb::Set, 20, b"x"), STORED),
    (1000, b"e", TEN, STORED),
];

/// The second, the items that are removed, and those that are left.
static BEGUN: [(u64, usize, usize); 5] = [
    (1004, 0, 5),
    (1005, 1, 4),
    (1010, 2, 2),
    (1015, 0, 2),
    (1020, 1, 1),
];

/// Checks purges of a shelf that has those items.
fn purges_begin(rt: &impl Abort, alloc: Global, shelf: &mut Shelf) {
    for (seconds, gone, stay) in &BEGUN {
        assert_eq!(rt; begun_at(alloc, shelf, *seconds), Some((*gone, *stay)));
    }
}

/// Returns a store of those items, in its first shelf.
fn store_of_five(rt: &impl Abort, alloc: Global) -> Result<Store<Constant>, Fail> {
    let mut store = open_with(alloc, 64, Constant(5056))?;
    answers(rt, alloc, &mut store, &DIE_LATER)?;
    Ok(store)
}

/// Checks purges of the first of these shelves.
fn purges_begin_at_first(rt: &impl Abort, alloc: Global, shelves: &mut [Shelf]) {
    match shelves.first_mut() {
        Some(shelf) => purges_begin(rt, alloc, shelf),
        None => assert!(rt; false),
    }
}

/// Dead items are removed once the purge has begun, and their chunks are kept for the desk.
#[test]
fn a_purge_begins_at_the_shelf_alone(rt: HostRuntime) -> Result<(), Fail> {
    let StoreParts { mut shelves, .. } = store_of_five(&rt, rt.alloc())?.into_parts();
    purges_begin_at_first(&rt, rt.alloc(), &mut shelves);
    Ok(())
}

/// Sets keys of each length from 1 to `many`, fronts of `long`.
///
/// A few entries are moved after each key, so that a growth runs for a while.
fn set_keys<K: KeyHash + Drop>(store: &mut Store<K>, alloc: Global, long: &[u8], many: usize) {
    for before in 0..many {
        set_key(store, alloc, front(long, before + 1));
        let _ = store.grow(0, 2);
    }
}

/// Returns a store with keys of each length from 1 to a length of at most 250.
fn store_of<K: KeyHash + Drop + Copy>(
    alloc: Global,
    hasher: K,
    many: usize,
) -> Result<Store<K>, AllocError> {
    let long = filled_block(alloc, 250)?;
    let mut store = open_with(alloc, 64, hasher)?;
    set_keys(&mut store, alloc, long.as_slice(), many);
    Ok(store)
}

/// Returns the number of such a store's items, and of its keys with a number.
fn keys_of<K: KeyHash + Drop + Copy>(
    alloc: Global,
    hasher: K,
    many: usize,
    number: usize,
) -> Result<(usize, u64), AllocError> {
    let mut store = store_of(alloc, hasher, many)?;
    Ok(keys(&mut store, number))
}

/// The table of 64 homes grows before the 49th key comes, and that of 128 before the 97th.
#[test]
fn keys_are_counted_by_their_numbers(rt: HostRuntime) -> Result<(), Fail> {
    // The number of keys, a number, and how many keys have it.
    static ROWS: [(usize, usize, u64); 12] = [
        (0, 256, 0),
        (1, 256, 1),
        (1, 0, 0),
        (1, 257, 0),
        (16, 256, 1),
        (16, 0, 1),
        (17, 256, 2),
        (50, 256, 4),
        (50, 512, 4),
        (50, 768, 3),
        (100, 1024, 7),
        (250, 3840, 15),
    ];
    for (many, number, want) in &ROWS {
        let (_, has) = keys_of(rt.alloc(), ByLength, *many, *number)?;
        assert!(rt; has == *want, "{has} of {number} after {many} keys");
    }
    Ok(())
}

/// Returns how many entries of the first shelf are strays, and how many are in an old table.
fn apart(counts: Option<ShelfCounts>) -> (u64, u64) {
    match counts {
        Some(counts) => (counts.strays, counts.left),
        None => (0, 0),
    }
}

/// Returns the counts of the first shelf after keys of one hash.
fn counts_of(alloc: Global, many: usize) -> Result<Option<ShelfCounts>, AllocError> {
    Ok(counts(store_of(alloc, Constant(0), many)?))
}

/// A table takes 32 keys of one hash, and two are moved after each key.
///
/// So the 33rd is a stray, and with the 34th a growth begins.
#[test]
fn keys_that_find_no_bucket_are_strays(rt: HostRuntime) -> Result<(), Fail> {
    static ROWS: [(usize, (u64, u64)); 4] = [
        (32, (0, 0)),
        (33, (1, 0)),
        (34, (1, 30)),
        (35, (1, 28)),
    ];
    for (many, want) in &ROWS {
        let has = apart(counts_of(rt.alloc(), *many)?);
        assert!(rt; has == *want, "{} and {} after {many} keys", has.0, has.1);
    }
    Ok(())
}

/// Keys of one hash: a table takes 32, and the others are strays. From the 34th on a growth runs.
#[test]
fn strays_are_counted(rt: HostRuntime) -> Result<(), Fail> {
    static ROWS: [(usize, usize, u64); 8] = [
        (32, 0, 32),
        (33, 0, 33),
        (34, 0, 34),
        (35, 0, 35),
        (40, 0, 40),
        (40, 1, 0),
        (40, 4095, 0),
        (120, 0, 120),
    ];
    for (many, number, want) in &ROWS {
        let has = keys_of(rt.alloc(), Constant(0), *many, *number)?;
        assert!(rt;
            has == (*many, *want),
            "{} of {number} after {many} keys",
            has.1
        );
    }
    Ok(())
}
