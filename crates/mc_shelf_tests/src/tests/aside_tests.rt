//! Items that lie aside, and needs that take chunks of them.
//!
//! Contracts don't state which chunks are collected when, and no call returns it. But a slab hands
//! out the chunk that was given back last, and a chunk keeps the bytes of its old item that the
//! next item doesn't write. So a test writes items without a block, takes their chunks, and reads
//! which item was there before.

use crate::aside::laid_aside;
use crate::seen::{account, dead_chunks};
use crate::stores::set_up;
use mc_hop::Constant;
use mc_protocol::Verb;
use mc_shelf::{Settings, Shelf, Store, StoreParts};
use mc_slab::Chunks;
use mc_testing::{Ask, ask_step, filled_block, step_of, told_of};
use mc_time::Moment;
use std::alloc::{AllocError, Global};
use std::process::Abort;
use std::test::*;

/// The length of a block. A page has one chunk for an item of it.
const LARGE: usize = 600_000;

/// The number of small items aside.
const SMALL: u8 = 60;

/// The place of a key's second byte in an item's chunk: 48 bytes of header, and the first byte.
const NUMBER: usize = 49;

/// The place of a byte of a small item's block, which an item without a block doesn't write.
const WITHIN: usize = 60;

/// Sets a key of two bytes, the second one this number, and returns the name of the reply.
fn put(
    store: &mut Store<Constant>,
    alloc: Global,
    number: u8,
    exptime: i64,
    block: &[u8],
) -> &'static str {
    let key = [b'k', number];
    let step = step_of(&key, Ask::Store(Verb::Set, exptime, block));
    told_of(&ask_step(store, alloc, &step, Moment::from_seconds_at_most(1000)))
}

/// Sets small items of these numbers. The bytes of each block are its number plus one.
fn put_small(store: &mut Store<Constant>, alloc: Global, from: u8, to: u8) {
    for number in from..to {
        let block = [number.saturating_add(1); 20];
        let _ = put(store, alloc, number, 0, &block);
    }
}

/// Returns a store of two pages and one shelf, with one hash for all keys.
///
/// It has a large item and 60 small ones, `before` of them set before it.
fn store_of(alloc: Global, before: u8, large: &[u8]) -> Result<Store<Constant>, AllocError> {
    let settings = Settings {
        pages: 2,
        greatest: 1048576,
        shelves: 1,
    };
    let mut store = set_up(alloc, settings, Constant(7))?;
    put_small(&mut store, alloc, 0, before);
    let _ = put(&mut store, alloc, 255, 0, large);
    put_small(&mut store, alloc, before, SMALL);
    Ok(store)
}

/// For items without a block, by number, what was in their chunks before.
///
/// That is a small item's number plus one, or 0 in a new chunk.
type Before = [u8; 64];

/// Reads what was in the chunks of such items before.
fn read_chunks(chunks: &[Chunks]) -> Before {
    let mut before = [0u8; 64];
    for one in chunks {
        let bytes = one.first();
        if let (Some(number), Some(byte)) = (bytes.get(NUMBER), bytes.get(WITHIN)) {
            if let Some(place) = before.get_mut(usize::from(*number)) {
                *place = *byte;
            }
        }
    }
    before
}

/// Sets 63 items without a block, which are dead at 1001.
fn put_empty(store: &mut Store<Constant>, alloc: Global) {
    for number in 0..63 {
        let _ = put(store, alloc, number, 1, b"");
    }
}

/// Returns what was in the chunks of the first shelf's dead items before.
///
/// It is `None` if memory for a list of them was refused.
fn read_dead(alloc: Global, shelves: &mut [Shelf]) -> Option<Before> {
    let shelf = shelves.first_mut()?;
    let chunks = dead_chunks(alloc, shelf, Moment::from_seconds_at_most(1001))?;
    Some(read_chunks(&chunks))
}

/// Sets 63 items without a block, and returns what was in their chunks before.
fn chunks_that_come(mut store: Store<Constant>, alloc: Global) -> Option<Before> {
    put_empty(&mut store, alloc);
    let StoreParts { mut shelves, .. } = store.into_parts();
    read_dead(alloc, &mut shelves)
}

/// Returns the same for the chunks alone that were used before, in order.
fn used(before: &Before) -> Before {
    let mut used = [0u8; 64];
    let mut count = 0;
    for byte in before {
        if *byte != 0 {
            if let Some(place) = used.get_mut(count) {
                *place = *byte;
                count += 1;
            }
        }
    }
    used
}

/// Returns how many chunks were used before.
fn count_used(before: &Before) -> usize {
    before.iter().filter(|byte| **byte != 0).count()
}

/// Returns how many chunks of the small items' class are out, and of the large item's.
fn out(store: &mut Store<Constant>) -> (u32, u32) {
    let (_, small) = account(store, 55);
    let (_, large) = account(store, LARGE as u64 + 50);
    (small, large)
}

/// Returns the chunks of items without a block right after a flush.
fn come_alone(alloc: Global, before: u8, large: &[u8]) -> Result<Option<Before>, AllocError> {
    let store = laid_aside(alloc, store_of(alloc, before, large)?)?;
    Ok(chunks_that_come(store, alloc))
}

/// Returns their chunks after a large item, which takes the chunk of the large one aside.
///
/// No page is left for a second one.
fn come_behind(
    rt: &impl Abort,
    alloc: Global,
    before: u8,
    large: &[u8],
) -> Result<Option<Before>, Fail> {
    let mut store = laid_aside(alloc, store_of(alloc, before, large)?)?;
    takes_one_large(rt, alloc, &mut store, before, large);
    Ok(chunks_that_come(store, alloc))
}

/// Checks that a store without items takes one large item, and no second one.
fn takes_one_large(
    rt: &impl Abort,
    alloc: Global,
    store: &mut Store<Constant>,
    before: u8,
    large: &[u8],
) {
    are_out(rt, store, (0, 0));
    let told = put(store, alloc, 254, 0, large);
    assert!(rt; told == "stored", "{told} with {before} before it");
    are_out(rt, store, (0, 1));
    takes_no_second(rt, alloc, store, large);
}

/// Checks how many chunks of the small items' class are out, and of the large item's.
fn are_out(rt: &impl Abort, store: &mut Store<Constant>, want: (u32, u32)) {
    assert_eq!(rt; out(store), want);
}

/// Checks that it takes no second large item.
fn takes_no_second(rt: &impl Abort, alloc: Global, store: &mut Store<Constant>, large: &[u8]) {
    let told = put(store, alloc, 253, 0, large);
    assert!(rt; told == "no chunk", "{told} for a second one");
}

/// Returns whether a large item left the small ones aside.
///
/// A write collects one item, because it takes a number. So alone the first chunk is new, and the
/// small items' chunks follow, one with each write. After a large item the same chunks come in the
/// same order. If that item had collected others for its need, their chunks would come earlier.
fn are_left(alone: &Before, behind: &Before) -> bool {
    alone[0] == 0 && count_used(alone) == usize::from(SMALL) && used(alone) == *behind
}

/// Checks that a large item leaves the small ones aside, `before` of them set before it.
fn leaves_others(rt: &impl Abort, alloc: Global, before: u8, large: &[u8]) -> Result<(), Fail> {
    let alone = come_alone(alloc, before, large)?;
    let behind = come_behind(rt, alloc, before, large)?;
    let left = match (alone, behind) {
        (Some(alone), Some(behind)) => are_left(&alone, &behind),
        _ => false,
    };
    assert!(rt; left, "with {before} before it");
    Ok(())
}

/// How many small items are set before the large one.
static BEFORE: [u8; 3] = [1, 32, 39];

/// Each small item has one chunk, and so has the large one.
///
/// The large one is the second in the table that grows; the 33rd of one hash is a stray; and the
/// 40th is in the new table.
#[test]
fn a_need_collects_its_own_class_alone(rt: HostRuntime) -> Result<(), Fail> {
    let large = filled_block(rt.alloc(), LARGE)?;
    for before in &BEFORE {
        leaves_others(&rt, rt.alloc(), *before, large.as_slice())?;
    }
    Ok(())
}
