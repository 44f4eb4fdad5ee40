//! Sets and joins of existing keys, which write over the old item or behind its block.
//!
//! If their class has a free chunk, the new item goes into the chunk of the old one. If memory is
//! refused the store is unchanged, and takes the step at the second try.

use crate::both::stored_in_parts;
use crate::plays::are_answered;
use crate::seen::account;
use crate::stores::{open, small_items};
use crate::tests::store_tests::answers;
use core::mem::replace_with;
use mc_hop::Fnv;
use mc_protocol::{Bytes, KeyStep, Reply, Verb};
use mc_shelf::Store;
use mc_testing::{
    Act, Ask, Play, Row, Want, ask_step, filled_block, first_unread, is_answered, set,
};
use mc_time::Moment;
use std::alloc::Global;
use std::process::Abort;
use std::test::*;

/// Expiry, moment and unique number are the new item's.
///
/// The expiry of the item before is over at 1010, and a flush at 1020 drops what was written before
/// then.
#[test]
fn the_item_is_the_new_one(rt: HostRuntime) -> Result<(), Fail> {
    static ROWS: [Row<'static>; 9] = [
        (1000, b"k", Ask::Store(Verb::Set, 10, b"one"), STORED),
        (1001, b"k", Ask::Store(Verb::Set, 0, b"two"), STORED),
        (1010, b"k", Ask::Get, Want::Hit(2, b"two")),
        (1010, b"k", Ask::Flush(10), Want::Told("flushed")),
        (1019, b"k", Ask::Get, Want::Hit(2, b"two")),
        (1020, b"k", Ask::Store(Verb::Set, 5, b"three"), STORED),
        (1020, b"k", Ask::Store(Verb::Set, 30, b""), STORED),
        (1049, b"k", Ask::Get, Want::Hit(4, b"")),
        (1050, b"k", Ask::Get, Want::Told("miss")),
    ];
    let mut store = open(rt.alloc(), 4)?;
    answers(&rt, rt.alloc(), &mut store, &ROWS)
}

/// Sets the key `k` with these flags, and returns whether the step was taken.
fn set_flags(store: &mut Store<Fnv>, alloc: Global, flags: u32) -> bool {
    let step = KeyStep::Store {
        verb: Verb::Set,
        key: Bytes::of(b"k"),
        flags,
        exptime: 0,
        block: Bytes::of(b"x"),
    };
    let now = Moment::from_seconds_at_most(1000);
    ask_step(store, alloc, &step, now).is_ok()
}

/// Returns the flags of the key `k`.
fn flags_of(store: &mut Store<Fnv>, alloc: Global) -> Option<u32> {
    let step = KeyStep::Read {
        key: Bytes::of(b"k"),
    };
    let now = Moment::from_seconds_at_most(1000);
    match ask_step(store, alloc, &step, now) {
        Ok(Reply::Hit { flags, .. }) => Some(flags),
        _ => None,
    }
}

static FLAGS: [u32; 3] = [1, 2, 0];

/// Checks that an item has the flags with which it was set.
fn has_its_flags(rt: &impl Abort, alloc: Global, store: &mut Store<Fnv>, flags: u32) {
    let stored = set_flags(store, alloc, flags);
    assert!(rt; stored, "with flags {flags}");
    let read = flags_of(store, alloc);
    assert!(rt; read == Some(flags), "not {flags}");
}

#[test]
fn the_flags_are_the_new_ones(rt: HostRuntime) -> Result<(), Fail> {
    let mut store = open(rt.alloc(), 4)?;
    for flags in &FLAGS {
        has_its_flags(&rt, rt.alloc(), &mut store, *flags);
    }
    Ok(())
}

const STORED: Want<'static> = Want::Told("stored");

/// Rows, and the chunks out of the smallest class after each.
static KEEP_THE_ACCOUNT: [(Row<'static>, u32); 5] = [
    ((1000, b"k", Ask::Store(Verb::Set, 0, b"one"), STORED), 1),
    ((1000, b"k", Ask::Store(Verb::Set, 0, b"two"), STORED), 1),
    ((1000, b"k", Ask::Store(Verb::Set, 0, b"three"), STORED), 1),
    ((1000, b"k", Ask::Delete, Want::Told("deleted")), 0),
    ((1000, b"k", Ask::Store(Verb::Set, 0, b"four"), STORED), 1),
];

/// Checks after each row the account of the smallest class, which has one page.
fn keeps_the_account(rt: &impl Abort, alloc: Global, store: &mut Store<Fnv>) -> Result<(), Fail> {
    for (row, want) in &KEEP_THE_ACCOUNT {
        answers(rt, alloc, store, &[*row])?;
        has_account(rt, store, (1, *want));
    }
    Ok(())
}

/// Checks the account of the smallest class.
fn has_account(rt: &impl Abort, store: &mut Store<Fnv>, want: (u32, u32)) {
    assert_eq!(rt; account(store, 96), want);
}

/// The smallest class has a page and one chunk out after each set, and none after the delete.
#[test]
fn the_account_of_the_class_stays(rt: HostRuntime) -> Result<(), Fail> {
    let mut store = open(rt.alloc(), 1)?;
    keeps_the_account(&rt, rt.alloc(), &mut store)
}

/// The charge of a class with 230 chunks in a page. Its blocks are copied in the first part of a
/// set that takes other chunks than its item has.
const MIDDLING: u64 = 4544;

/// How many other keys are set, and then `k`: the reply, and whether the second part copies the
/// block, which then goes into the chunk of the old item. Then the pages and chunks out of the
/// class, and the unique number of the item of `k`.
static TAKEN: [(u8, &'static str, bool, (u32, u32), u64); 5] = [
    (0, "stored", false, (1, 1), 1),
    (0, "stored", true, (1, 1), 2),
    (229, "stored", false, (2, 230), 232),
    (0, "stored", true, (2, 230), 233),
    (230, "no chunk", false, (2, 460), 233),
];

/// Sets `many` keys of two bytes, of which `many` is the first. Returns whether all are stored.
fn set_others(store: &mut Store<Fnv>, alloc: Global, many: u8, block: &[u8]) -> bool {
    for second in 0..many {
        let key = [many, second];
        if !is_answered(store, alloc, set(1000, &key, 0, block, "stored")) {
            return false;
        }
    }
    true
}

/// Checks which chunk each set takes, in a store of two pages.
fn takes_chunks(rt: &impl Abort, alloc: Global, store: &mut Store<Fnv>, block: &[u8]) {
    for (others, told, left, out, unique) in &TAKEN {
        assert!(rt; set_others(store, alloc, *others, block));
        let seen = replace_with(store, (alloc, Verb::Set, block), stored_in_parts);
        assert_eq!(rt; seen, (*told, *left));
        assert_eq!(rt; account(store, MIDDLING), *out);
        let stands: Row<'_> = (1000, b"k", Ask::Get, Want::Hit(*unique, block));
        assert!(rt; is_answered(store, alloc, stands));
    }
}

/// A set goes into the chunk of its item if another is unused, and else into one of a new page.
///
/// Without a page it is refused, and the old item stays.
#[test]
fn a_set_takes_a_chunk(rt: HostRuntime) -> Result<(), Fail> {
    let block = filled_block(rt.alloc(), 4000)?;
    let mut store = open(rt.alloc(), 2)?;
    takes_chunks(&rt, rt.alloc(), &mut store, block.as_slice());
    Ok(())
}

// A page has one chunk for a block of 600,000 bytes.

static NO_PAGE: [Play; 4] = [
    (1000, b"k", Act::Set(0, 600_000, "stored")),
    (1000, b"k", Act::Set(0, 600_001, "no chunk")),
    (1000, b"k", Act::Hit(1, 600_000)),
    (1000, b"k", Act::Set(0, 5, "no chunk")),
];

/// With one page none is free beside the item's, and the old item stays.
#[test]
fn no_chunk_is_free_and_no_page_left(rt: HostRuntime) -> Result<(), Fail> {
    are_answered(&rt, rt.alloc(), small_items(1), &NO_PAGE, (1, 1), true)
}

static A_PAGE: [Play; 5] = [
    (1000, b"k", Act::Set(0, 600_000, "stored")),
    (1000, b"k", Act::Set(0, 600_001, "stored")),
    (1000, b"k", Act::Hit(2, 600_001)),
    (1000, b"k", Act::Set(0, 600_000, "stored")),
    (1000, b"k", Act::Hit(3, 600_000)),
];

/// With a second page left the class takes that, if memory for it isn't refused.
///
/// A write that is refused memory leaves the old item. From then on a chunk is free, and no further
/// page is taken.
#[test]
fn no_chunk_is_free_and_a_page_comes(rt: HostRuntime) -> Result<(), Fail> {
    are_answered(&rt, rt.alloc(), small_items(2), &A_PAGE, (2, 1), true)
}

/// A block of 45 bytes, which other bytes come around.
const MIDDLE: &[u8] = b"xxxxxxxxxxxxxxxxxxxxxxxxxxxxxxxxxxxxxxxxxxxxx";

/// A block of 47 bytes fills a chunk of the smallest class with a key of one.
const FILLS: &[u8] = b"axxxxxxxxxxxxxxxxxxxxxxxxxxxxxxxxxxxxxxxxxxxxxb";

const ONE_MORE: &[u8] = b"axxxxxxxxxxxxxxxxxxxxxxxxxxxxxxxxxxxxxxxxxxxxxbc";

const WHOLE: &[u8] = b"daxxxxxxxxxxxxxxxxxxxxxxxxxxxxxxxxxxxxxxxxxxxxxbc";

/// Rows, and the chunks out of the two smallest classes after each.
static JOIN_TO_THE_END: [(Row<'static>, u32, u32); 9] = [
    ((1000, b"k", Ask::Store(Verb::Set, 0, b"a"), STORED), 1, 0),
    (
        (1000, b"k", Ask::Store(Verb::Append, 0, MIDDLE), STORED),
        1,
        0,
    ),
    (
        (1000, b"k", Ask::Store(Verb::Append, 0, b"b"), STORED),
        1,
        0,
    ),
    ((1000, b"k", Ask::Store(Verb::Append, 0, b""), STORED), 1, 0),
    ((1000, b"k", Ask::Get, Want::Hit(4, FILLS)), 1, 0),
    (
        (1000, b"k", Ask::Store(Verb::Append, 0, b"c"), STORED),
        0,
        1,
    ),
    ((1000, b"k", Ask::Get, Want::Hit(5, ONE_MORE)), 0, 1),
    (
        (1000, b"k", Ask::Store(Verb::Prepend, 0, b"d"), STORED),
        0,
        1,
    ),
    ((1000, b"k", Ask::Get, Want::Hit(6, WHOLE)), 0, 1),
];

/// Appended bytes stay in the chunk up to its last byte.
///
/// One byte more takes a chunk of the next class, and the first is free.
#[test]
fn joins_end_where_a_chunk_does(rt: HostRuntime) -> Result<(), Fail> {
    let mut store = open(rt.alloc(), 2)?;
    moves_between(&rt, rt.alloc(), &mut store, &JOIN_TO_THE_END)
}

/// Checks after each row how many chunks of the two smallest classes are out.
fn moves_between(
    rt: &impl Abort,
    alloc: Global,
    store: &mut Store<Fnv>,
    rows: &[(Row<'_>, u32, u32)],
) -> Result<(), Fail> {
    for (row, least, next) in rows {
        answers(rt, alloc, store, &[*row])?;
        are_out(rt, store, (*least, *next));
    }
    Ok(())
}

/// Checks how many chunks of the two smallest classes are out.
fn are_out(rt: &impl Abort, store: &mut Store<Fnv>, want: (u32, u32)) {
    let out = (account(store, 96).1, account(store, 120).1);
    assert_eq!(rt; out, want);
}

static JOINED: [Row<'static>; 12] = [
    (1000, b"k", Ask::Store(Verb::Set, 10, b"one"), STORED),
    (1009, b"k", Ask::Store(Verb::Append, 0, b"two"), STORED),
    (1009, b"k", Ask::Get, Want::Hit(2, b"onetwo")),
    (
        1010,
        b"k",
        Ask::Store(Verb::Append, 0, b"three"),
        Want::Told("not stored"),
    ),
    (1010, b"k", Ask::Get, Want::Told("miss")),
    (1010, b"k", Ask::Store(Verb::Set, 0, b"x"), STORED),
    (1010, b"k", Ask::Flush(10), Want::Told("flushed")),
    (1019, b"k", Ask::Store(Verb::Append, 0, b"y"), STORED),
    (1020, b"k", Ask::Get, Want::Told("miss")),
    (1020, b"k", Ask::Store(Verb::Set, 0, b"z"), STORED),
    (1021, b"k", Ask::Store(Verb::Append, 0, b"!"), STORED),
    (1021, b"k", Ask::Get, Want::Hit(6, b"z!")),
];

/// A join keeps the expiry, and has its own moment: a flush at 1020 drops what was joined before.
///
/// Nothing is joined to a dead item. No key is read before its join.
#[test]
fn a_join_is_of_its_moment(rt: HostRuntime) -> Result<(), Fail> {
    let mut store = open(rt.alloc(), 4)?;
    answers_unread(&rt, rt.alloc(), &mut store, &JOINED);
    Ok(())
}

/// Checks that the store has the expected reply to each row. No key is read before its step.
fn answers_unread(rt: &impl Abort, alloc: Global, store: &mut Store<Fnv>, rows: &[Row<'_>]) {
    assert_eq!(rt; first_unread(store, alloc, rows), None);
}

static NO_JOIN: [Play; 4] = [
    (1000, b"k", Act::Set(0, 600_000, "stored")),
    (1000, b"k", Act::Join(Verb::Append, 1, "no chunk")),
    (1000, b"k", Act::Join(Verb::Append, 0, "no chunk")),
    (1000, b"k", Act::Hit(1, 600_000)),
];

/// Without a free chunk and a page, a join that would stay in the chunk is refused too.
#[test]
fn a_join_wants_a_free_chunk(rt: HostRuntime) -> Result<(), Fail> {
    are_answered(&rt, rt.alloc(), small_items(1), &NO_JOIN, (1, 1), true)
}

static JOINS: [Play; 4] = [
    (1000, b"k", Act::Set(0, 600_000, "stored")),
    (1000, b"k", Act::Join(Verb::Append, 50_000, "stored")),
    (1000, b"k", Act::Join(Verb::Append, 50_000, "stored")),
    (1000, b"k", Act::Hit(3, 700_000)),
];

/// The first join takes the second page. From then on a chunk is free, and joins stay in theirs.
#[test]
fn a_join_takes_a_page_once(rt: HostRuntime) -> Result<(), Fail> {
    are_answered(&rt, rt.alloc(), small_items(2), &JOINS, (2, 1), true)
}
