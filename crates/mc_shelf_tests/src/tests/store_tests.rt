//! Keys on different shelves over one desk: by Fnv `a` is on shelf 12 of 64, `b` on 37 and `k` on
//! 10.
//!
//! If memory is refused the store is unchanged, and takes the step at the second try.

use crate::both::{Both, first_apart, open_both};
use crate::parted::Way;
use crate::plays::are_answered;
use crate::seen::{account, may_have_dead, remade};
use crate::stores::{open, open_with, set_up, small_items};
use mc_hop::{Constant, Fnv};
use mc_protocol::{StepFault, Steps, Verb};
use mc_shelf::{Settings, Store};
use mc_testing::{
    Act, Ask, Play, Row, Want, ask_step, filled_block, first_unlike, first_wrong, set, step_of,
    told_of,
};
use mc_time::Moment;
use std::alloc::{AllocError, Global};
use std::process::Abort;
use std::test::*;

/// Settings of stores with one shelf, 64 and 256.
const EACH: [Settings; 3] = [
    Settings {
        pages: 64,
        greatest: Settings::GREATEST,
        shelves: 1,
    },
    Settings {
        pages: 64,
        greatest: Settings::GREATEST,
        shelves: 64,
    },
    Settings {
        pages: 64,
        greatest: Settings::GREATEST,
        shelves: 256,
    },
];

/// Returns a store of one page with one unique number left. It allocates twice if memory is
/// refused.
fn open_at_the_last(alloc: Global) -> Result<Store<Fnv>, AllocError> {
    match Store::starting(alloc, small_items(1), Fnv, u64::MAX - 1) {
        Err(_) => Store::starting(alloc, small_items(1), Fnv, u64::MAX - 1),
        made => made,
    }
}

/// Checks that the store has the expected reply to each row.
pub(crate) fn answers<S: Steps>(
    rt: &impl Abort,
    alloc: Global,
    store: &mut S,
    rows: &[Row<'_>],
) -> Result<(), Fail> {
    assert_eq!(rt; first_unlike(store, alloc, rows)?, None);
    Ok(())
}

/// The same for a new store with these settings.
fn answers_with(
    rt: &impl Abort,
    alloc: Global,
    settings: Settings,
    rows: &[Row<'_>],
) -> Result<(), Fail> {
    let mut store = set_up(alloc, settings, Fnv)?;
    answers(rt, alloc, &mut store, rows)
}

/// The same, with each number of shelves.
fn answers_with_each(rt: &impl Abort, alloc: Global, rows: &[Row<'_>]) -> Result<(), Fail> {
    for settings in &EACH {
        answers_with(rt, alloc, *settings, rows)?;
    }
    Ok(())
}

#[test]
fn each_key_has_its_item(rt: HostRuntime) -> Result<(), Fail> {
    static ROWS: [Row<'static>; 11] = [
        (1000, b"a", Ask::Get, Want::Told("miss")),
        (1000, b"a", Ask::Store(Verb::Set, 0, b"x"), STORED),
        (1000, b"b", Ask::Store(Verb::Set, 0, b"y"), STORED),
        (1000, b"k", Ask::Store(Verb::Set, 0, b"9"), STORED),
        (1000, b"k", Ask::Incr(1), Want::Number(10)),
        (1000, b"a", Ask::Get, Want::Hit(1, b"x")),
        (1000, b"b", Ask::Delete, Want::Told("deleted")),
        (1000, b"b", Ask::Delete, Want::Told("not found")),
        (1000, b"k", Ask::Get, Want::Hit(4, b"10")),
        (1000, b"a", Ask::Store(Verb::Set, 0, b"z"), STORED),
        (1000, b"a", Ask::Get, Want::Hit(5, b"z")),
    ];
    answers_with_each(&rt, rt.alloc(), &ROWS)
}

static FLUSHES: [Row<'static>; 14] = [
    (1000, b"a", Ask::Store(Verb::Set, 0, b"x"), STORED),
    (1000, b"k", Ask::Flush(10), Want::Told("flushed")),
    (1005, b"b", Ask::Store(Verb::Set, 0, b"y"), STORED),
    (1009, b"a", Ask::Get, Want::Hit(1, b"x")),
    (1010, b"a", Ask::Get, Want::Told("miss")),
    (1010, b"b", Ask::Get, Want::Told("miss")),
    (1010, b"a", Ask::Store(Verb::Set, 0, b"z"), STORED),
    (1010, b"k", Ask::Store(Verb::Set, 0, b"w"), STORED),
    (1011, b"a", Ask::Get, Want::Hit(3, b"z")),
    (1011, b"b", Ask::Flush(0), Want::Told("flushed")),
    (1011, b"a", Ask::Get, Want::Told("miss")),
    (1011, b"k", Ask::Get, Want::Told("miss")),
    (1011, b"b", Ask::Store(Verb::Set, 0, b"v"), STORED),
    (1011, b"b", Ask::Get, Want::Hit(5, b"v")),
];

#[test]
fn a_flush_reaches_all_shelves(rt: HostRuntime) -> Result<(), Fail> {
    answers_with_each(&rt, rt.alloc(), &FLUSHES)
}

#[test]
fn a_key_is_written_in_chunks(rt: HostRuntime) -> Result<(), Fail> {
    static ROWS: [Row<'static>; 10] = [
        (1000, b"k", Ask::Get, Want::Told("miss")),
        (1000, b"k", Ask::Store(Verb::Set, 0, b"1"), STORED),
        (
            1000,
            b"k",
            Ask::Store(Verb::Add, 0, b"2"),
            Want::Told("not stored"),
        ),
        (1000, b"k", Ask::Store(Verb::Append, 0, b"0"), STORED),
        (1000, b"k", Ask::Incr(5), Want::Number(15)),
        (1000, b"k", Ask::Cas(1, b"x"), Want::Told("exists")),
        (1000, b"k", Ask::Cas(3, b"x"), STORED),
        (1000, b"k", Ask::Incr(5), Want::Told("not numeric")),
        (1000, b"k", Ask::Delete, Want::Told("deleted")),
        (1000, b"k", Ask::Delete, Want::Told("not found")),
    ];
    let mut store = open(rt.alloc(), 1)?;
    answers(&rt, rt.alloc(), &mut store, &ROWS)
}

/// Drops the dead items of all shelves.
fn purge_all(store: &mut Store<Fnv>, seconds: u64) {
    let now = Moment::from_seconds_at_most(seconds);
    for shelf in 0..64 {
        store.purge(shelf, now);
    }
}

const STORED: Want<'static> = Want::Told("stored");

/// Rows, and the chunks out of the smallest class after each and a purge at its second.
static COMES_BACK: [(Row<'static>, u32); 14] = [
    ((1000, b"a", Ask::Store(Verb::Set, 0, b"1"), STORED), 1),
    ((1000, b"b", Ask::Store(Verb::Set, 10, b"2"), STORED), 2),
    ((1000, b"k", Ask::Store(Verb::Set, 25, b"3"), STORED), 3),
    ((1009, b"b", Ask::Get, Want::Hit(2, b"2")), 3),
    ((1015, b"a", Ask::Get, Want::Hit(1, b"1")), 2),
    ((1015, b"b", Ask::Get, Want::Told("miss")), 2),
    ((1015, b"a", Ask::Flush(5), Want::Told("flushed")), 2),
    ((1019, b"k", Ask::Get, Want::Hit(3, b"3")), 2),
    ((1020, b"b", Ask::Store(Verb::Set, 0, b"4"), STORED), 1),
    ((1020, b"a", Ask::Get, Want::Told("miss")), 1),
    ((1021, b"b", Ask::Get, Want::Hit(4, b"4")), 1),
    ((1021, b"a", Ask::Flush(0), Want::Told("flushed")), 0),
    ((1021, b"b", Ask::Delete, Want::Told("not found")), 0),
    ((1021, b"b", Ask::Store(Verb::Set, 0, b"5"), STORED), 1),
];

#[test]
fn chunks_of_the_dead_come_back(rt: HostRuntime) -> Result<(), Fail> {
    let mut store = open(rt.alloc(), 1)?;
    takes_and_frees(&rt, rt.alloc(), &mut store, &COMES_BACK)
}

/// Checks after each row and a purge how many chunks of the smallest class are out.
fn takes_and_frees(
    rt: &impl Abort,
    alloc: Global,
    store: &mut Store<Fnv>,
    rows: &[(Row<'_>, u32)],
) -> Result<(), Fail> {
    for (row, want) in rows {
        answers(rt, alloc, store, &[*row])?;
        purge_all(store, row.0);
        are_out(rt, store, *want);
    }
    Ok(())
}

/// Checks how many chunks of the smallest class are out.
fn are_out(rt: &impl Abort, store: &mut Store<Fnv>, want: u32) {
    let (_, out) = account(store, 96);
    assert!(rt; out == want, "{out} are out");
}

/// Returns the name of the result of a step at 1000 that isn't tried again.
fn told_once(store: &mut Store<Fnv>, alloc: Global, key: u8, ask: Ask<'_>) -> &'static str {
    let key = [key];
    let step = step_of(&key, ask);
    let now = Moment::from_seconds_at_most(1000);
    told_of(&store.step(alloc, &step, now))
}

/// Checks what each step on a key of one byte is told at 1000. None is tried again.
fn are_told_once(
    rt: &impl Abort,
    alloc: Global,
    store: &mut Store<Fnv>,
    asks: &[(u8, Ask<'_>)],
    want: &str,
) {
    for (key, ask) in asks {
        let told = told_once(store, alloc, *key, *ask);
        assert!(rt; told == want, "{told}");
    }
}

/// The one number that is left, and steps that need none.
static LAST: [Row<'static>; 1] = [(1000, b"k", Ask::Store(Verb::Set, 0, b"1"), STORED)];

static NEED_NONE: [Row<'static>; 3] = [
    (1000, b"k", Ask::Get, Want::Hit(u64::MAX - 1, b"1")),
    (1000, b"n", Ask::Get, Want::Told("miss")),
    (1000, b"k", Ask::Delete, Want::Told("deleted")),
];

/// Writes that need a number.
static NEED_ONE: [(u8, Ask<'static>); 3] = [
    (b'k', Ask::Store(Verb::Set, 0, b"2")),
    (b'n', Ask::Store(Verb::Set, 0, b"2")),
    (b'k', Ask::Incr(14)),
];

/// Checks a store with one unique number left.
fn numbers_are_spent(rt: &impl Abort, alloc: Global, store: &mut Store<Fnv>) -> Result<(), Fail> {
    answers(rt, alloc, store, &LAST)?;
    are_told_once(rt, alloc, store, &NEED_ONE, "numbers spent");
    answers(rt, alloc, store, &NEED_NONE)
}

/// The one number left is used, and then each write gets the error that the numbers are used up.
///
/// A new key's write does too, whatever memory there is. A step that needs no number goes on.
#[test]
fn spent_numbers_are_told(rt: HostRuntime) -> Result<(), Fail> {
    let mut store = open_at_the_last(rt.alloc())?;
    numbers_are_spent(&rt, rt.alloc(), &mut store)
}

/// A block of 60 bytes, a number with spaces behind it.
const LONG: &[u8] = b"9                                                           ";

/// A row that takes the one page for the class of its item.
static TAKES_THE_PAGE: [Row<'static>; 1] = [(1000, b"k", Ask::Store(Verb::Set, 0, LONG), STORED)];

/// Writes that ask for a chunk of another class.
static NEED_A_PAGE: [(u8, Ask<'static>); 2] = [
    (b'k', Ask::Incr(6)),
    (b'n', Ask::Store(Verb::Set, 0, b"2")),
];

static NEED_NO_PAGE: [Row<'static>; 2] = [
    (1000, b"k", Ask::Get, Want::Hit(1, LONG)),
    (1000, b"k", Ask::Store(Verb::Append, 0, b" "), STORED),
];

/// Checks a store of one page.
fn no_chunk_is_left(rt: &impl Abort, alloc: Global, store: &mut Store<Fnv>) -> Result<(), Fail> {
    answers(rt, alloc, store, &TAKES_THE_PAGE)?;
    are_told_once(rt, alloc, store, &NEED_A_PAGE, "no chunk");
    answers(rt, alloc, store, &NEED_NO_PAGE)
}

/// The one page goes to the class of the longer item.
///
/// A write without a chunk gets that reply at once, a new key's too, whatever memory there is.
#[test]
fn a_chunk_that_is_not_left_is_told(rt: HostRuntime) -> Result<(), Fail> {
    let mut store = open(rt.alloc(), 1)?;
    no_chunk_is_left(&rt, rt.alloc(), &mut store)
}

// A page has one chunk for a charge above 493552 bytes, and this store has one page.

const LARGE: usize = 600_000;

static OTHERS: [Play; 10] = [
    (1000, b"a", Act::Set(0, LARGE, "stored")),
    (1000, b"b", Act::Set(0, LARGE, "no chunk")),
    (1000, b"k", Act::Set(0, 1, "no chunk")),
    (1000, b"a", Act::Told(Ask::Delete, "deleted")),
    (1000, b"b", Act::Set(10, LARGE, "stored")),
    (1010, b"a", Act::Set(0, LARGE, "no chunk")),
    // A flush with a delay drops the dead items of all shelves.
    (1010, b"k", Act::Told(Ask::Flush(10), "flushed")),
    (1010, b"a", Act::Set(0, LARGE, "stored")),
    (1010, b"k", Act::Told(Ask::Flush(0), "flushed")),
    (1010, b"b", Act::Set(0, LARGE, "stored")),
];

#[test]
fn a_chunk_that_comes_back_serves_another_shelf(rt: HostRuntime) -> Result<(), Fail> {
    are_answered(&rt, rt.alloc(), small_items(1), &OTHERS, (1, 1), true)
}

static DIES: [Play; 2] = [
    (1000, b"a", Act::Set(10, LARGE, "stored")),
    (1010, b"b", Act::Set(0, LARGE, "no chunk")),
];

static FULL: [Play; 1] = [(1010, b"b", Act::Set(0, LARGE, "no chunk"))];

static FREE: [Play; 2] = [
    (1010, b"b", Act::Set(0, LARGE, "stored")),
    (1010, b"a", Act::Told(Ask::Get, "miss")),
];

/// Purges other shelves than that of `a`, whose item is dead, and then its shelf.
///
/// Returns the first unexpected answer before, between and after.
fn seen_of_purges(
    store: &mut Store<Fnv>,
    alloc: Global,
    bytes: &[u8],
) -> Result<[Option<usize>; 3], StepFault> {
    let now = Moment::from_seconds_at_most(1010);
    let before = first_wrong(store, alloc, bytes, &DIES)?;
    store.purge(37, now);
    store.purge(64, now);
    let between = first_wrong(store, alloc, bytes, &FULL)?;
    store.purge(12, now);
    let after = first_wrong(store, alloc, bytes, &FREE)?;
    Ok([before, between, after])
}

/// Checks those purges.
fn drops_the_dead(
    rt: &impl Abort,
    alloc: Global,
    store: &mut Store<Fnv>,
    bytes: &[u8],
) -> Result<(), Fail> {
    let seen = seen_of_purges(store, alloc, bytes)?;
    assert_eq!(rt; seen, [None, None, None]);
    has_64_shelves(rt, store);
    Ok(())
}

/// Checks that a store has 64 shelves.
fn has_64_shelves(rt: &impl Abort, store: &Store<Fnv>) {
    assert_eq!(rt; store.settings().shelves, 64);
}

#[test]
fn a_purge_drops_the_dead_of_one_shelf(rt: HostRuntime) -> Result<(), Fail> {
    let bytes = filled_block(rt.alloc(), LARGE)?;
    let mut store = open(rt.alloc(), 1)?;
    drops_the_dead(&rt, rt.alloc(), &mut store, bytes.as_slice())
}

const X: Ask<'static> = Ask::Store(Verb::Set, 0, b"x");

/// It expires in 20 seconds.
const Y: Ask<'static> = Ask::Store(Verb::Set, 20, b"y");

const Z: Ask<'static> = Ask::Store(Verb::Set, 0, b"z");

/// Rows, a second after each, and whether an item may be dead then.
static MAY_BE_DEAD: [(Row<'static>, u64, bool); 13] = [
    ((1000, b"a", Ask::Get, Want::Told("miss")), 9000, false),
    ((1000, b"a", X, STORED), 9000, false),
    ((1000, b"b", Y, STORED), 1019, false),
    ((1000, b"b", Ask::Get, Want::Hit(2, b"y")), 1020, true),
    ((1000, b"b", Ask::Gat(10), Want::Hit(2, b"y")), 1009, false),
    (
        (1000, b"b", Ask::Touch(30), Want::Told("touched")),
        1010,
        true,
    ),
    // The purge of a flush with a delay finds that b expires later, and a at the flush.
    (
        (1010, b"a", Ask::Flush(9), Want::Told("flushed")),
        1018,
        false,
    ),
    ((1018, b"a", Ask::Get, Want::Hit(1, b"x")), 1019, true),
    ((1019, b"a", Ask::Get, Want::Told("miss")), 1018, false),
    ((1019, b"c", Z, STORED), 1019, true),
    (
        (1019, b"a", Ask::Flush(50), Want::Told("flushed")),
        1068,
        false,
    ),
    ((1019, b"c", Ask::Get, Want::Hit(3, b"z")), 1069, true),
    (
        (1019, b"a", Ask::Flush(0), Want::Told("flushed")),
        9000,
        false,
    ),
];

/// From the soonest expiry or a flush on, an item may be dead, until a purge.
///
/// The purge drops those that are.
#[test]
fn shelves_tell_whether_one_may_be_dead(rt: HostRuntime) -> Result<(), Fail> {
    let mut store = open(rt.alloc(), 64)?;
    tells_of_dead(&rt, rt.alloc(), &mut store, &MAY_BE_DEAD)
}

/// Checks after each row whether an item may be dead at a second.
fn tells_of_dead(
    rt: &impl Abort,
    alloc: Global,
    store: &mut Store<Fnv>,
    rows: &[(Row<'_>, u64, bool)],
) -> Result<(), Fail> {
    for (row, seconds, want) in rows {
        answers(rt, alloc, store, &[*row])?;
        tells_whether_dead(rt, store, *seconds, *want);
    }
    Ok(())
}

/// Checks whether an item may be dead at a second.
fn tells_whether_dead(rt: &impl Abort, store: &mut Store<Fnv>, seconds: u64, want: bool) {
    let may = may_have_dead(store, Moment::from_seconds_at_most(seconds));
    assert!(rt; may == want, "{may} at {seconds}");
}

/// Steps on a store, and then on one that is made again from its parts.
static BEFORE: [Row<'static>; 4] = [
    (1000, b"a", Ask::Store(Verb::Set, 0, b"x"), STORED),
    (1000, b"b", Ask::Store(Verb::Set, 10, b"y"), STORED),
    (1000, b"k", Ask::Store(Verb::Set, 0, b"9"), STORED),
    (1000, b"k", Ask::Flush(20), Want::Told("flushed")),
];

static AFTER: [Row<'static>; 6] = [
    (1001, b"a", Ask::Get, Want::Hit(1, b"x")),
    (1001, b"k", Ask::Incr(1), Want::Number(10)),
    (1001, b"k", Ask::Get, Want::Hit(4, b"10")),
    (1010, b"b", Ask::Get, Want::Told("miss")),
    (1019, b"a", Ask::Get, Want::Hit(1, b"x")),
    (1020, b"a", Ask::Get, Want::Told("miss")),
];

/// Returns a store that had the first of them.
fn store_before(rt: &impl Abort, alloc: Global) -> Result<Store<Fnv>, Fail> {
    let mut store = open(alloc, 64)?;
    answers(rt, alloc, &mut store, &BEFORE)?;
    Ok(store)
}

/// Checks a store that was made again.
fn answers_as_before(rt: &impl Abort, alloc: Global, store: &mut Store<Fnv>) -> Result<(), Fail> {
    has_64_shelves(rt, store);
    answers(rt, alloc, store, &AFTER)
}

#[test]
fn a_store_of_parts_answers_as_before(rt: HostRuntime) -> Result<(), Fail> {
    let mut store = remade(store_before(&rt, rt.alloc())?);
    answers_as_before(&rt, rt.alloc(), &mut store)
}

/// Returns the reply to a step on the key of one byte at 1000.
fn answered(store: &mut Store<Constant>, alloc: Global, key: u8, ask: Ask<'_>) -> &'static str {
    let key = [key];
    let step = step_of(&key, ask);
    let now = Moment::from_seconds_at_most(1000);
    told_of(&ask_step(store, alloc, &step, now))
}

/// Checks how many entries of a shelf's old table are moved, of 8.
fn are_moved(rt: &impl Abort, store: &mut Store<Constant>, shelf: u32, want: usize) {
    let moved = store.grow(shelf, 8);
    assert!(rt; moved == want, "{moved} were moved, not {want}");
}

/// Sets 40 keys, and checks how many entries are moved after each.
fn keys_move_entries(rt: &impl Abort, alloc: Global, store: &mut Store<Constant>) {
    for key in 1..41 {
        let told = answered(store, alloc, key, Ask::Store(Verb::Set, 0, b"x"));
        assert!(rt; told == "stored", "{told} at key {key}");
        are_moved(rt, store, 0, if key < 34 { 0 } else { 8 });
    }
}

/// Checks that the 40 keys are there.
fn keys_are_there(rt: &impl Abort, alloc: Global, store: &mut Store<Constant>) {
    for key in 1..41 {
        let told = answered(store, alloc, key, Ask::Get);
        assert!(rt; told == "hit", "{told}");
    }
}

/// Checks what is left to move then: 8 entries of the first shelf.
fn eight_are_left(rt: &impl Abort, store: &mut Store<Constant>) {
    are_moved(rt, store, 64, 0);
    are_moved(rt, store, 0, 8);
    are_moved(rt, store, 0, 0);
}

/// Keys of one hash: a table takes 32, and the others are strays.
///
/// The table of 64 homes grows before the 34th comes, since there is a stray, and that of 128
/// before the 38th. Each has 32 entries then, and 8 are moved after each key.
#[test]
fn entries_are_moved_while_a_table_grows(rt: HostRuntime) -> Result<(), Fail> {
    let mut store = open_with(rt.alloc(), 1, Constant(0))?;
    keys_move_entries(&rt, rt.alloc(), &mut store);
    keys_are_there(&rt, rt.alloc(), &mut store);
    eight_are_left(&rt, &mut store);
    Ok(())
}

/// Blocks of 60, 61 and 62 bytes.
const OF_60: &[u8] = b"xxxxxxxxxxxxxxxxxxxxxxxxxxxxxxxxxxxxxxxxxxxxxxxxxxxxxxxxxxxx";

const OF_61: &[u8] = b"xxxxxxxxxxxxxxxxxxxxxxxxxxxxxxxxxxxxxxxxxxxxxxxxxxxxxxxxxxxxx";

const OF_62: &[u8] = b"xxxxxxxxxxxxxxxxxxxxxxxxxxxxxxxxxxxxxxxxxxxxxxxxxxxxxxxxxxxxxx";

static SHORT: [Row<'static>; 16] = [
    (1000, b"k", Ask::Store(Verb::Set, 0, b"x"), STORED),
    (1000, b"k", Ask::Get, Want::Hit(1, b"x")),
    (1000, b"k", Ask::Store(Verb::Set, 0, b"yy"), STORED),
    (1000, b"k", Ask::Get, Want::Hit(2, b"yy")),
    (1000, b"k", Ask::Store(Verb::Set, 10, OF_60), STORED),
    (1009, b"k", Ask::Get, Want::Hit(3, OF_60)),
    (1010, b"k", Ask::Store(Verb::Set, 0, OF_61), STORED),
    (1010, b"k", Ask::Get, Want::Hit(4, OF_61)),
    (1010, b"k", Ask::Store(Verb::Append, 0, b"x"), STORED),
    (1010, b"k", Ask::Get, Want::Hit(5, OF_62)),
    (1010, b"k", Ask::Store(Verb::Set, 0, b"99"), STORED),
    (1010, b"k", Ask::Incr(1), Want::Number(100)),
    (1010, b"k", Ask::Get, Want::Hit(7, b"100")),
    (1010, b"a", Ask::Store(Verb::Set, 0, b""), STORED),
    (1010, b"k", Ask::Delete, Want::Told("deleted")),
    (1010, b"k", Ask::Get, Want::Told("miss")),
];

/// Returns rows of fronts of a large block.
fn rows_of_large(large: &[u8; 6000]) -> [Row<'_>; 6] {
    [
        set(1010, b"k", 0, &large[..4096], "stored"),
        set(1010, b"k", 0, &large[..4100], "stored"),
        (1010, b"k", Ask::Get, Want::Hit(10, &large[..4100])),
        set(1010, b"k", 10, large, "stored"),
        set(1020, b"k", 0, &large[..5999], "stored"),
        (1020, b"k", Ask::Get, Want::Hit(12, &large[..5999])),
    ]
}

/// Checks that both have the expected reply to each row, and equal desks after it.
fn are_answered_alike(rt: &impl Abort, alloc: Global, both: Both, rows: &[Row<'_>]) -> Both {
    let (both, apart) = first_apart(alloc, both, rows);
    assert_eq!(rt; apart, None);
    both
}

/// Checks that steps in two parts, planned in this way, are the whole steps.
fn parts_are_the_whole(rt: &impl Abort, alloc: Global, way: Way) -> Result<(), AllocError> {
    let large = [b'y'; 6000];
    let both = open_both(alloc, small_items(4), way)?;
    let both = are_answered_alike(rt, alloc, both, &SHORT);
    let _ = are_answered_alike(rt, alloc, both, &rows_of_large(&large));
    Ok(())
}

/// A step that is begun and then finished has the reply and the result of the whole step.
///
/// Steps: of a new key; of a live item that is replaced by one of its class, and by one of another;
/// of a dead item whose chunk is reused; of a join and of a number; and of large blocks, which are
/// copied last.
#[test]
fn a_step_in_two_parts_is_the_whole_step(rt: HostRuntime) -> Result<(), Fail> {
    parts_are_the_whole(&rt, rt.alloc(), Way::Looked)?;
    parts_are_the_whole(&rt, rt.alloc(), Way::AtDesk)?;
    Ok(())
}
