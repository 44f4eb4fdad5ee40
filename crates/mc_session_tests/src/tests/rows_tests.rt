//! The plain store: the protocol's worked examples at their moments, and each kind of step once.
//!
//! If memory is refused the store is unchanged, and takes the step at the second try.

ghost use Rattle.std.specs.Prelude.{◌≤◌};

use crate::checks::{are_bytes, is_none};
use mc_command::PlainStore;
use mc_protocol::{StepFault, Steps, Verb};
use mc_testing::{
    Act, Ask, Play, Row, Want, ask_step, filled_block, first_unlike, first_wrong,
    first_wrong_unread, front, step_of, told_of,
};
use mc_time::Moment;
use std::alloc::{AllocError, Global};
use std::process::Abort;
use std::test::Fail;

/// Checks that there is no unexpected answer.
fn is_expected(rt: &impl Abort, unlike: Option<(u64, &'static str)>) {
    assert_eq!(rt; unlike, None);
}

/// Checks that a store answers each row as expected.
fn answers_in(
    rt: &impl Abort,
    alloc: Global,
    store: &mut PlainStore,
    rows: &[Row<'_>],
) -> Result<(), Fail> {
    is_expected(rt, first_unlike(store, alloc, rows)?);
    Ok(())
}

/// The same for a new store with these pages and this greatest charge.
fn answers(
    rt: &impl Abort,
    alloc: Global,
    pages: u32,
    greatest: u64,
    rows: &[Row<'_>],
) -> Result<(), Fail>
    requires pages { (1 ≤ pages) × (pages ≤ 65536) }
    requires greatest { greatest ≤ 8388608 }
{
    let mut store = PlainStore::new(alloc, pages, greatest)?;
    answers_in(rt, alloc, &mut store, rows)
}

/// Checks that a store answers each play as expected.
fn plays_in(
    rt: &impl Abort,
    alloc: Global,
    store: &mut PlainStore,
    bytes: &[u8],
    plays: &[Play],
) -> Result<(), Fail> {
    is_none(rt, first_wrong(store, alloc, bytes, plays)?);
    Ok(())
}

/// The same for a new store with these pages and this greatest charge.
fn plays_out(
    rt: &impl Abort,
    alloc: Global,
    pages: u32,
    greatest: u64,
    bytes: &[u8],
    plays: &[Play],
) -> Result<(), Fail>
    requires pages { (1 ≤ pages) × (pages ≤ 65536) }
    requires greatest { greatest ≤ 8388608 }
{
    let mut store = PlainStore::new(alloc, pages, greatest)?;
    plays_in(rt, alloc, &mut store, bytes, plays)
}

/// The same for a store of one page, if no key is read before its step.
fn plays_unread(rt: &impl Abort, alloc: Global, bytes: &[u8], plays: &[Play]) -> Result<(), Fail> {
    let mut store = PlainStore::new(alloc, 1, 1048576)?;
    is_none(rt, first_wrong_unread(&mut store, alloc, bytes, plays));
    Ok(())
}

const STORED: Want<'static> = Want::Told("stored");

const NOT_FOUND: Want<'static> = Want::Told("not found");

const MISS: Want<'static> = Want::Told("miss");

const NO_CHUNK: Want<'static> = Want::Told("no chunk");

const FLUSHED: Want<'static> = Want::Told("flushed");

const X: Ask<'static> = Ask::Store(Verb::Set, 0, b"x");

const Y: Ask<'static> = Ask::Store(Verb::Set, 0, b"y");

static EXPTIMES: [Row<'static>; 6] = [
    (1000, b"a", Ask::Store(Verb::Set, 2592000, b"x"), STORED),
    (1000, b"b", Ask::Store(Verb::Set, 2592001, b"y"), STORED),
    (2592000, b"b", Ask::Get, Want::Hit(2, b"y")),
    (2592001, b"b", Ask::Get, MISS),
    (2592999, b"a", Ask::Get, Want::Hit(1, b"x")),
    (2593000, b"a", Ask::Get, MISS),
];

#[test]
fn exptimes_up_to_30_days_count_from_now(rt: HostRuntime) -> Result<(), Fail> {
    answers(&rt, rt.alloc(), 64, 1048576, &EXPTIMES)
}

static FLUSHES: [Row<'static>; 8] = [
    (1000, b"a", Ask::Flush(10), FLUSHED),
    (1005, b"a", X, STORED),
    (1009, b"a", Ask::Get, Want::Hit(1, b"x")),
    (1010, b"a", Ask::Get, MISS),
    (1010, b"b", Y, STORED),
    (1011, b"b", Ask::Get, Want::Hit(2, b"y")),
    (1011, b"b", Ask::Flush(0), FLUSHED),
    (1011, b"b", Ask::Get, MISS),
];

#[test]
fn a_flush_comes_after_its_delay(rt: HostRuntime) -> Result<(), Fail> {
    answers(&rt, rt.alloc(), 64, 1048576, &FLUSHES)
}

const NOT_STORED: Want<'static> = Want::Told("not stored");

static CONDITIONS: [Row<'static>; 12] = [
    (1000, b"a", Ask::Store(Verb::Append, 0, b"x"), NOT_STORED),
    (1000, b"a", Ask::Cas(1, b"y"), NOT_FOUND),
    (1000, b"a", Ask::Store(Verb::Set, 0, b"b"), STORED),
    (1000, b"a", Ask::Store(Verb::Append, 0, b"c"), STORED),
    (1000, b"a", Ask::Store(Verb::Prepend, 0, b"a"), STORED),
    (1000, b"a", Ask::Get, Want::Hit(3, b"abc")),
    (1000, b"a", Ask::Store(Verb::Add, 0, b"d"), NOT_STORED),
    (1000, b"a", Ask::Store(Verb::Replace, 0, b"e"), STORED),
    (1000, b"a", Ask::Cas(4, b"y"), STORED),
    (1000, b"a", Ask::Cas(4, b"z"), Want::Told("exists")),
    (1000, b"a", Ask::Get, Want::Hit(5, b"y")),
    (1000, b"b", Ask::Store(Verb::Add, -1, b"x"), STORED),
];

#[test]
fn storage_commands_store_on_their_condition(rt: HostRuntime) -> Result<(), Fail> {
    answers(&rt, rt.alloc(), 64, 1048576, &CONDITIONS)
}

static TOUCHES: [Row<'static>; 10] = [
    (1000, b"a", Ask::Touch(0), NOT_FOUND),
    (1000, b"a", X, STORED),
    (1000, b"a", Ask::Gat(10), Want::Hit(1, b"x")),
    (1009, b"a", Ask::Get, Want::Hit(1, b"x")),
    (1009, b"a", Ask::Touch(-1), Want::Told("touched")),
    (1009, b"a", Ask::Get, MISS),
    (1009, b"a", Ask::Delete, NOT_FOUND),
    (1009, b"a", X, STORED),
    (1009, b"a", Ask::Delete, Want::Told("deleted")),
    (1009, b"a", Ask::Gat(0), MISS),
];

#[test]
fn touches_set_the_expiry_and_deletes_remove(rt: HostRuntime) -> Result<(), Fail> {
    answers(&rt, rt.alloc(), 64, 1048576, &TOUCHES)
}

const MOST: Ask<'static> = Ask::Store(Verb::Set, 0, b"18446744073709551615");

static COUNTS: [Row<'static>; 7] = [
    (1000, b"n", Ask::Incr(1), NOT_FOUND),
    (1000, b"n", MOST, STORED),
    (1000, b"n", Ask::Incr(1), Want::Number(0)),
    (1000, b"n", Ask::Decr(5), Want::Number(0)),
    (1000, b"n", Ask::Get, Want::Hit(3, b"0")),
    (1000, b"n", Ask::Store(Verb::Set, 0, b"12x"), STORED),
    (1000, b"n", Ask::Incr(1), Want::Told("not numeric")),
];

#[test]
fn counts_wrap_up_and_stop_at_zero(rt: HostRuntime) -> Result<(), Fail> {
    answers(&rt, rt.alloc(), 64, 1048576, &COUNTS)
}

const TOO_LARGE: Want<'static> = Want::Told("too large");

/// A charge is 48 bytes, the key and the block.
static LARGE: [Row<'static>; 3] = [
    (1000, b"a", X, STORED),
    (1000, b"a", Ask::Store(Verb::Append, 0, b"y"), TOO_LARGE),
    (1000, b"a", Ask::Get, Want::Hit(1, b"x")),
];

#[test]
fn what_is_too_large_is_not_written(rt: HostRuntime) -> Result<(), Fail> {
    answers(&rt, rt.alloc(), 64, 50, &LARGE)
}

// A page has one chunk for a charge above 493552 bytes, and this store has one page.

const HALF: usize = 600000;

static FULL: [Play; 7] = [
    (1000, b"a", Act::Set(0, HALF, "stored")),
    (1000, b"b", Act::Told(X, "no chunk")),
    (1000, b"a", Act::Set(0, HALF, "no chunk")),
    (1000, b"a", Act::Hit(1, HALF)),
    (1000, b"a", Act::Told(Ask::Delete, "deleted")),
    (1000, b"b", Act::Told(X, "no chunk")),
    (1000, b"b", Act::Set(0, HALF, "stored")),
];

#[test]
fn a_full_chunk_is_not_written_over(rt: HostRuntime) -> Result<(), Fail> {
    let bytes = filled_block(rt.alloc(), HALF)?;
    plays_out(&rt, rt.alloc(), 1, 1048576, bytes.as_slice(), &FULL)
}

static DEAD: [Play; 8] = [
    (1000, b"a", Act::Set(10, HALF, "stored")),
    (1010, b"b", Act::Set(0, HALF, "no chunk")),
    (1010, b"a", Act::Set(10, HALF, "stored")),
    (1010, b"a", Act::Hit(2, HALF)),
    // A write without a chunk for its class also drops the key's dead item.
    (1020, b"a", Act::Told(X, "no chunk")),
    (1020, b"b", Act::Set(0, HALF, "stored")),
    (1020, b"b", Act::Told(Ask::Flush(0), "flushed")),
    (1020, b"a", Act::Set(0, HALF, "stored")),
];

/// No key is read before its step, so each set of `a` meets the dead item itself.
#[test]
fn the_dead_hold_their_chunks_until_they_are_dropped(rt: HostRuntime) -> Result<(), Fail> {
    let bytes = filled_block(rt.alloc(), HALF)?;
    plays_unread(&rt, rt.alloc(), bytes.as_slice(), &DEAD)
}

/// 48 bytes, a key of 47 and a block of 1 are the 96 bytes of the first class's chunks.
const LONG: &[u8] = b"a key of as many bytes as leave room for one, 0";

static LENGTHENED: [Row<'static>; 5] = [
    (1000, LONG, Ask::Store(Verb::Set, 0, b"9"), STORED),
    (1000, LONG, Ask::Incr(1), NO_CHUNK),
    (1000, LONG, Ask::Get, Want::Hit(1, b"9")),
    (1000, LONG, Ask::Decr(9), Want::Number(0)),
    (1000, LONG, Ask::Get, Want::Hit(2, b"0")),
];

#[test]
fn a_number_asks_room_where_its_class_changes(rt: HostRuntime) -> Result<(), Fail> {
    answers(&rt, rt.alloc(), 1, 1048576, &LENGTHENED)
}

// Above 1048576 bytes an item takes the fewest whole pages that hold it, up to 8388608.

const TWO: usize = 2000000;

const THREE: usize = 3000000;

/// 48 bytes, a key of 1 and this block are a page.
const ONE: usize = 1048527;

static PAGES: [Play; 7] = [
    (1000, b"b", Act::Set(0, THREE, "stored")),
    (1000, b"s", Act::Told(X, "no chunk")),
    (1000, b"b", Act::Set(0, THREE, "no chunk")),
    (1000, b"b", Act::Told(Ask::Delete, "deleted")),
    (1000, b"c", Act::Set(0, TWO, "stored")),
    (1000, b"d", Act::Set(0, ONE, "stored")),
    (1000, b"e", Act::Set(0, ONE, "no chunk")),
];

#[test]
fn large_items_take_whole_pages(rt: HostRuntime) -> Result<(), Fail> {
    let bytes = filled_block(rt.alloc(), THREE)?;
    plays_out(&rt, rt.alloc(), 3, 8388608, bytes.as_slice(), &PAGES)
}

static EIGHT_PAGES: [Play; 3] = [
    (1000, b"k", Act::Set(0, 8388559, "stored")),
    (1000, b"k", Act::Set(0, 8388560, "too large")),
    (1000, b"s", Act::Told(X, "no chunk")),
];

#[test]
fn the_largest_item_takes_eight_pages(rt: HostRuntime) -> Result<(), Fail> {
    let bytes = filled_block(rt.alloc(), 8388560)?;
    plays_out(&rt, rt.alloc(), 8, 8388608, bytes.as_slice(), &EIGHT_PAGES)
}

/// Returns a number of `len` bytes: a 7, and spaces behind it. It allocates twice if memory is
/// refused.
fn spaced(alloc: Global, len: usize) -> Result<Vec<u8>, AllocError> {
    let mut bytes = match vec![in alloc; b' '; len] {
        Err(_) => vec![in alloc; b' '; len]?,
        Ok(bytes) => bytes,
    };
    if let Some(first) = bytes.first_mut() {
        *first = b'7';
    }
    Ok(bytes)
}

// The blocks below are fronts of a number of this kind.

static COUNTED: [Play; 6] = [
    (1000, b"n", Act::Set(0, TWO, "stored")),
    (1000, b"n", Act::Gives(Ask::Incr(1), Want::Number(8))),
    (1000, b"n", Act::Gives(Ask::Get, Want::Hit(2, b"8"))),
    (1000, b"a", Act::Set(0, HALF, "stored")),
    (1000, b"b", Act::Set(0, HALF, "stored")),
    (1000, b"c", Act::Set(0, HALF, "no chunk")),
];

#[test]
fn a_long_number_gives_its_pages_back_where_it_is_counted(rt: HostRuntime) -> Result<(), Fail> {
    let number = spaced(rt.alloc(), TWO)?;
    plays_out(&rt, rt.alloc(), 3, 8388608, number.as_slice(), &COUNTED)
}

static NOT_COUNTED: [Play; 3] = [
    (1000, b"n", Act::Set(0, TWO, "stored")),
    (1000, b"n", Act::Told(Ask::Incr(1), "no chunk")),
    (1000, b"n", Act::Hit(1, TWO)),
];

#[test]
fn a_long_number_asks_room_where_it_is_counted(rt: HostRuntime) -> Result<(), Fail> {
    let number = spaced(rt.alloc(), TWO)?;
    plays_out(&rt, rt.alloc(), 2, 8388608, number.as_slice(), &NOT_COUNTED)
}

/// Sets `a` to a block.
fn set_a(store: &mut PlainStore, alloc: Global, block: &[u8]) -> Result<(), StepFault> {
    let step = step_of(b"a", Ask::Store(Verb::Set, 0, block));
    let _ = ask_step(store, alloc, &step, Moment::from_seconds_at_most(1000))?;
    Ok(())
}

/// Takes a step once, and returns the name of its reply.
fn told_at_once(store: &mut PlainStore, alloc: Global, key: &[u8], ask: Ask<'_>) -> &'static str {
    if key.len() > 250 {
        return "too long a key";
    }
    let step = step_of(key, ask);
    told_of(&store.step(alloc, &step, Moment::from_seconds_at_most(1000)))
}

/// Storage commands that a full store refuses, by the lengths of their blocks, and its replies.
static REFUSED: [(&[u8], Verb, usize, &str); 4] = [
    (b"a", Verb::Append, HALF, "too large"),
    (b"a", Verb::Prepend, HALF, "too large"),
    (b"a", Verb::Append, 1, "no chunk"),
    (b"b", Verb::Set, 1, "no chunk"),
];

/// Checks what it is told of writes that it can't make, each of which is tried once.
fn writes_are_refused(rt: &impl Abort, alloc: Global, store: &mut PlainStore, bytes: &[u8]) {
    for (key, verb, len, want) in &REFUSED {
        let told = told_at_once(store, alloc, key, Ask::Store(*verb, 0, front(bytes, *len)));
        are_bytes(rt, told.as_bytes(), want.as_bytes());
    }
}

/// The same for a store of one page that has an item `a` of all bytes, and a greatest charge of
/// 700000.
fn full_store_refuses(rt: &impl Abort, alloc: Global, bytes: &[u8]) -> Result<(), Fail> {
    let mut store = PlainStore::new(alloc, 1, 700000)?;
    full_one_refuses(rt, alloc, &mut store, bytes)
}

/// The same for that store while it is empty.
fn full_one_refuses(
    rt: &impl Abort,
    alloc: Global,
    store: &mut PlainStore,
    bytes: &[u8],
) -> Result<(), Fail> {
    set_a(store, alloc, bytes)?;
    writes_are_refused(rt, alloc, store, bytes);
    Ok(())
}

#[test]
fn what_is_not_written_takes_no_memory(rt: HostRuntime) -> Result<(), Fail> {
    let bytes = filled_block(rt.alloc(), HALF)?;
    full_store_refuses(&rt, rt.alloc(), bytes.as_slice())
}
