//! An item in its chunks: it returns what was written, and changes in place.

ghost use Rattle.std.specs.Prelude.{◌≡◌, ◌≤◌, [], length, vec_capacity, IfOk};
ghost use Rattle.mc_slab.specs.Needs.{size_in};

use crate::slabs::slab_of;
use mc_item::{Item, Parts};
use mc_slab::{Chunks, Need, need_of};
use mc_time::{Expiry, Moment};
use std::alloc::{AllocError, Global};
use std::mem::size_of;
use std::process::Abort;
use std::test::*;

/// Returns chunks that hold the charge.
///
/// A run may refuse one allocation, so each call that takes memory is made twice.
fn chunks_for(rt: &impl Abort, alloc: Global, charge: u64) -> Result<Chunks, Fail>
    ensures { IfOk result (λ chunks. charge ≤ length chunks.bytes) }
{
    let need = need_of(charge).expect(rt, "a need");
    let mut slab = slab_of(alloc, 8)?;
    match slab.take_all(alloc, need) {
        Ok(chunks) => Ok(chunks),
        Err(_) => Ok(slab.take_all(alloc, need)?),
    }
}

/// Returns an empty vector with room for `count` bytes.
fn roomy(alloc: Global, count: usize) -> Result<Vec<u8>, AllocError>
    ensures empty { IfOk result (λ bytes. bytes.items ≡ []) }
    ensures room { IfOk result (λ bytes. count ≤ vec_capacity bytes) }
{
    match Vec::with_capacity(alloc, count) {
        Ok(bytes) => Ok(bytes),
        Err(_) => Vec::with_capacity(alloc, count),
    }
}

/// Returns `count` bytes that identify their places: each is its place modulo 251.
fn pattern(alloc: Global, count: usize) -> Result<Vec<u8>, AllocError>
    ensures { IfOk result (λ bytes. length bytes.items ≡ count) }
{
    let mut bytes = roomy(alloc, count)?;
    for place in 0..count {
        bytes.push_reserved((place % 251) as u8);
    }
    Ok(bytes)
}

/// The fields of an item other than its key and its block.
#[derive(Clone, Copy)]
struct Numbers {
    hash: u64,
    flags: u32,
    expiry: Expiry,
    unique: u64,
    updated: u64,
}

const ZEROS: Numbers = Numbers {
    hash: 0,
    flags: 0,
    expiry: Expiry::Never,
    unique: 0,
    updated: 0,
};

const SOME: Numbers = Numbers {
    hash: 11,
    flags: 7,
    expiry: Expiry::At(5),
    unique: 3,
    updated: 4,
};

/// Returns the item of these parts, in the smallest chunks that hold it.
fn item_of<'a>(
    rt: &impl Abort,
    alloc: Global,
    key: &'a [u8],
    first: &'a [u8],
    second: &'a [u8],
    numbers: Numbers,
) -> Result<Item, Fail> {
    let (k, f, s) = (key.len(), first.len(), second.len());
    assert!(rt; k <= 250 && f <= 4000000 && s <= 4000000);
    let chunks = chunks_for(rt, alloc, (48 + k + f + s) as u64)?;
    let parts = Parts {
        hash: numbers.hash,
        key,
        first,
        second,
        lent: None,
        flags: numbers.flags,
        expiry: numbers.expiry,
        unique: numbers.unique,
        updated: Moment::from_seconds_at_most(numbers.updated),
    };
    Ok(Item::write(chunks, parts))
}

/// Checks the block of an item of one chunk.
fn is_block(rt: &impl Abort, item: &Item, block: &[u8]) {
    assert_eq!(rt; item.parts(), 1);
    assert!(rt; item.part(0) == block);
}

/// Checks the block of an item of any chunks.
fn joins_to(rt: &impl Abort, alloc: Global, item: &Item, block: &[u8]) -> Result<(), Fail> {
    let mut out = Vec::new(alloc);
    if item.append_to(&mut out).is_err() {
        assert!(rt; out.as_slice().is_empty());
        item.append_to(&mut out)?;
    }
    assert_eq!(rt; item.block_len(), block.len());
    assert!(rt; out.as_slice() == block);
    Ok(())
}

#[test]
fn an_item_is_no_larger_than_two_words(rt: HostRuntime) {
    assert_eq!(rt; size_of::<Item>(), 16);
}

/// Checks the key, the block and the charge of an item of one chunk.
fn is_made_of(rt: &impl Abort, item: &Item, key: &[u8], block: &[u8]) {
    assert!(rt; key.len() <= 250);
    assert!(rt; item.key() == key);
    is_block(rt, item, block);
    assert_eq!(rt; item.charge(), (48 + key.len() + block.len()) as u64);
}

/// Checks the number of the class of an item's chunks.
fn is_of_class(rt: &impl Abort, item: &Item, class: u8) {
    assert_eq!(rt; item.class().number(), class);
}

/// A key, the two parts of a block, the block, and the number of the class.
type Made = (
    &'static [u8],
    &'static [u8],
    &'static [u8],
    &'static [u8],
    u8,
);

static MADE: [Made; 8] = [
    (b"", b"", b"", b"", 1),
    (b"k", b"", b"", b"", 1),
    (b"key", b"", b"behind", b"behind", 1),
    (b"key", b"before", b"", b"before", 1),
    (b"key", b"before", b"behind", b"beforebehind", 1),
    (b"eightkey", &[b'k'; 20], &[b'k'; 20], &[b'k'; 40], 1),
    (b"eightkey", &[b'k'; 20], &[b'k'; 21], &[b'k'; 41], 2),
    (&[b'k'; 250], b"a", b"b", b"ab", 6),
];

/// Checks an item that is written of the parts of a row.
fn gives_back(rt: &impl Abort, alloc: Global, row: &Made) -> Result<(), Fail> {
    let item = item_of(rt, alloc, row.0, row.1, row.2, ZEROS)?;
    is_made_of(rt, &item, row.0, row.3);
    is_of_class(rt, &item, row.4);
    Ok(())
}

#[test]
fn an_item_gives_back_its_parts(rt: HostRuntime) -> Result<(), Fail> {
    for row in &MADE {
        gives_back(&rt, rt.alloc(), row)?;
    }
    Ok(())
}

/// Numbers at their limits, and numbers whose bytes all differ.
static NUMBERS: [Numbers; 4] = [
    ZEROS,
    Numbers {
        hash: 18446744073709551615,
        flags: 4294967295,
        expiry: Expiry::At(0),
        unique: 18446744073709551615,
        updated: 4611686018427387904,
    },
    Numbers {
        hash: 1,
        flags: 1,
        expiry: Expiry::At(18446744073709551615),
        unique: 4294967296,
        updated: 1,
    },
    Numbers {
        hash: 4294967296,
        flags: 16909060,
        expiry: Expiry::At(1),
        unique: 1,
        updated: 1700000000,
    },
];

/// Checks an item that is written with these numbers.
fn gives_back_numbers(rt: &impl Abort, alloc: Global, numbers: Numbers) -> Result<(), Fail> {
    let item = item_of(rt, alloc, b"key", b"block", b"", numbers)?;
    has_head(rt, &item, b"key", numbers);
    Ok(())
}

#[test]
fn an_item_gives_back_its_numbers(rt: HostRuntime) -> Result<(), Fail> {
    for row in &NUMBERS {
        gives_back_numbers(&rt, rt.alloc(), *row)?;
    }
    Ok(())
}

/// Returns an item with this key and these numbers, and a block that is still to be written.
fn begun_of(
    rt: &impl Abort,
    alloc: Global,
    key: &[u8],
    block_len: usize,
    numbers: Numbers,
) -> Result<Item, Fail> {
    let k = key.len();
    assert!(rt; k <= 250 && block_len <= 8000000);
    let chunks = chunks_for(rt, alloc, (48 + k + block_len) as u64)?;
    let head = Parts {
        hash: numbers.hash,
        key,
        first: &[],
        second: &[],
        lent: None,
        flags: numbers.flags,
        expiry: numbers.expiry,
        unique: numbers.unique,
        updated: Moment::from_seconds_at_most(numbers.updated),
    };
    Ok(Item::begin(chunks, head, block_len))
}

/// Returns how many bytes the chunks have.
fn room_of(need: Need) -> usize
    ensures { result ≡ size_in need }
{
    need.count() as usize * need.class().size() as usize
}

/// Writes an item whole in its chunks.
fn write_whole<'a>(
    rt: &impl Abort,
    item: &mut Item,
    key: &'a [u8],
    block: &'a [u8],
    numbers: Numbers,
) {
    let room = room_of(item.need());
    let (k, b) = (key.len(), block.len());
    assert!(rt; k <= 250 && b <= 4000000);
    assert!(rt; 48 + k + b <= room);
    let parts = Parts {
        hash: numbers.hash,
        key,
        first: &[],
        second: block,
        lent: None,
        flags: numbers.flags,
        expiry: numbers.expiry,
        unique: numbers.unique,
        updated: Moment::from_seconds_at_most(numbers.updated),
    };
    item.rewrite(parts);
}

/// Checks an item's expiry, its unique number, and when it was updated.
fn has_moments(rt: &impl Abort, item: &Item, numbers: Numbers) {
    assert!(rt; item.expiry() == numbers.expiry);
    assert_eq!(rt; item.unique(), numbers.unique);
    assert_eq!(rt; item.updated().seconds(), numbers.updated);
}

/// Checks an item's key and numbers.
fn has_head(rt: &impl Abort, item: &Item, key: &[u8], numbers: Numbers) {
    assert!(rt; item.key() == key);
    assert_eq!(rt; item.hash(), numbers.hash);
    assert_eq!(rt; item.flags(), numbers.flags);
    has_moments(rt, item, numbers);
}

/// Copies bytes into a place of an item's block.
fn fill(rt: &impl Abort, item: &mut Item, at: usize, bytes: &[u8]) {
    let len = item.block_len();
    assert!(rt; at <= len);
    assert!(rt; bytes.len() <= len - at);
    item.fill(at, bytes);
}

/// Copies another item's block into a place of an item's block.
fn fill_from(rt: &impl Abort, item: &mut Item, at: usize, other: &Item) {
    let len = item.block_len();
    let more = other.block_len();
    assert!(rt; at <= len);
    assert!(rt; more <= len - at);
    item.fill_from(at, other);
}

/// A key, a block, and the number of the class.
static BEGUN: [(&[u8], &[u8], u8); 5] = [
    (b"", b"", 1),
    (b"key", b"block", 1),
    (b"eightkey", &[b'k'; 40], 1),
    (b"eightkey", &[b'k'; 41], 2),
    (&[b'k'; 250], b"ab", 6),
];

/// Checks an item whose head is written, once its block is written, too.
fn is_filled(rt: &impl Abort, item: &mut Item, key: &[u8], block: &[u8]) {
    fill(rt, item, 0, block);
    has_head(rt, item, key, SOME);
    is_block(rt, item, block);
}

/// Checks an item that is begun and then filled with the block of a row.
fn is_begun(rt: &impl Abort, alloc: Global, row: &(&[u8], &[u8], u8)) -> Result<(), Fail> {
    let mut item = begun_of(rt, alloc, row.0, row.1.len(), SOME)?;
    has_head(rt, &item, row.0, SOME);
    is_of_class(rt, &item, row.2);
    is_filled(rt, &mut item, row.0, row.1);
    Ok(())
}

#[test]
fn an_item_is_begun_and_then_filled(rt: HostRuntime) -> Result<(), Fail> {
    for row in &BEGUN {
        is_begun(&rt, rt.alloc(), row)?;
    }
    Ok(())
}

/// Checks an item that is written again with other parts.
fn is_rewritten(rt: &impl Abort, item: &mut Item) {
    write_whole(rt, item, b"another", b"block", SOME);
    has_head(rt, item, b"another", SOME);
    is_block(rt, item, b"block");
    is_of_class(rt, item, 1);
}

#[test]
fn other_parts_take_the_place_of_an_item(rt: HostRuntime) -> Result<(), Fail> {
    let mut item = item_of(&rt, rt.alloc(), b"key", b"a longer ", b"block", ZEROS)?;
    is_rewritten(&rt, &mut item);
    Ok(())
}

/// Writes the number at second 9, with the unique number 2.
fn rewrite(rt: &impl Abort, item: &mut Item, number: u64) {
    let room = room_of(item.need());
    let key = item.key().len();
    assert!(rt; 68 + key <= room);
    item.rewrite_number(number, 2, Moment::from_seconds(9));
}

/// What `rewrite` makes of `SOME`.
const REWRITTEN: Numbers = Numbers {
    hash: 11,
    flags: 7,
    expiry: Expiry::At(5),
    unique: 2,
    updated: 9,
};

/// A block, a number, and the block of its digits.
static DIGITS: [(&[u8], u64, &[u8]); 5] = [
    (b"99", 100, b"100"),
    (b"100", 99, b"99"),
    (b"0005", 4, b"4"),
    (b"", 0, b"0"),
    (b"1", 18446744073709551615, b"18446744073709551615"),
];

/// Checks an item once a number took the place of its block.
fn is_number(rt: &impl Abort, item: &mut Item, number: u64, digits: &[u8]) {
    rewrite(rt, item, number);
    is_block(rt, item, digits);
    has_head(rt, item, b"number", REWRITTEN);
}

/// Checks an item of the block of a row, in whose place its number comes.
fn takes_number(rt: &impl Abort, alloc: Global, row: &(&[u8], u64, &[u8])) -> Result<(), Fail> {
    let mut item = item_of(rt, alloc, b"number", row.0, b"", SOME)?;
    is_number(rt, &mut item, row.1, row.2);
    Ok(())
}

#[test]
fn a_number_takes_the_place_of_a_block(rt: HostRuntime) -> Result<(), Fail> {
    for row in &DIGITS {
        takes_number(&rt, rt.alloc(), row)?;
    }
    Ok(())
}

static EXPIRIES: [Expiry; 3] = [
    Expiry::Never,
    Expiry::At(0),
    Expiry::At(18446744073709551615),
];

/// Checks an item once its expiry is set.
fn takes_expiry(rt: &impl Abort, item: &mut Item, expiry: Expiry) {
    item.set_expiry(expiry);
    has_head(rt, item, b"key", Numbers { expiry, ..SOME });
    is_block(rt, item, b"block");
}

#[test]
fn an_expiry_is_set_alone(rt: HostRuntime) -> Result<(), Fail> {
    let mut item = item_of(&rt, rt.alloc(), b"key", b"blo", b"ck", SOME)?;
    for expiry in &EXPIRIES {
        takes_expiry(&rt, &mut item, *expiry);
    }
    Ok(())
}

/// Numbers whose bytes all differ.
const BYTES: Numbers = Numbers {
    hash: 0x4847464544434241,
    flags: 0x04030201,
    expiry: Expiry::At(0x1817161514131211),
    unique: 0x2827262524232221,
    updated: 0x3837363534333231,
};

/// The run of an item with the key `key`, the block `block` and the numbers `BYTES`.
static RUN: [u8; 56] = [
    0x41, 0x42, 0x43, 0x44, 0x45, 0x46, 0x47, 0x48, 1, 2, 3, 4, 1, 0, 0, 0, 0x11, 0x12, 0x13, 0x14,
    0x15, 0x16, 0x17, 0x18, 0x21, 0x22, 0x23, 0x24, 0x25, 0x26, 0x27, 0x28, 0x31, 0x32, 0x33, 0x34,
    0x35, 0x36, 0x37, 0x38, 3, 0, 0, 0, 5, 0, 0, 0, b'k', b'e', b'y', b'b', b'l', b'o', b'c', b'k',
];

/// Checks that a chunk of 96 bytes begins with `RUN`.
fn is_run(rt: &impl Abort, chunk: &Chunks) {
    assert_eq!(rt; chunk.first().len(), 96);
    assert!(rt; chunk.first().starts_with(&RUN));
}

#[test]
fn an_item_is_one_run_of_its_chunk(rt: HostRuntime) -> Result<(), Fail> {
    let item = item_of(&rt, rt.alloc(), b"key", b"blo", b"ck", BYTES)?;
    is_run(&rt, &item.into_chunks());
    Ok(())
}

/// Checks the length of the part of an item in the chunk at a place.
fn has_length(rt: &impl Abort, item: &Item, at: usize, length: usize) {
    assert!(rt; at < item.parts());
    assert_eq!(rt; item.part(at).len(), length);
}

/// Checks the lengths of the parts of an item of three chunks.
fn has_lengths(rt: &impl Abort, item: &Item, lengths: [usize; 3]) {
    is_of_class(rt, item, 40);
    assert_eq!(rt; item.parts(), 3);
    has_length(rt, item, 0, lengths[0]);
    has_length(rt, item, 1, lengths[1]);
    has_length(rt, item, 2, lengths[2]);
}

/// Checks an item of the key `key` and a block of 3000000 bytes.
fn is_large(rt: &impl Abort, alloc: Global, item: &Item, block: &[u8]) -> Result<(), Fail> {
    has_head(rt, item, b"key", ZEROS);
    has_lengths(rt, item, [1048576, 1048576, 902848]);
    joins_to(rt, alloc, item, block)
}

// Each test of a large item below owns its block, and the function above it checks the item.

fn lies_in_several_chunks(rt: &impl Abort, alloc: Global, block: &[u8]) -> Result<(), Fail>
    requires { length block.now ≡ 3000000 }
{
    let (first, second) = block.split_at(1000000);
    let item = item_of(rt, alloc, b"key", first, second, ZEROS)?;
    is_large(rt, alloc, &item, block)
}

#[test]
fn a_large_block_lies_in_several_chunks(rt: HostRuntime) -> Result<(), Fail> {
    let block = pattern(rt.alloc(), 3000000)?;
    lies_in_several_chunks(&rt, rt.alloc(), block.as_slice())
}

/// Appends bytes to an item's block, with other numbers.
fn extend(rt: &impl Abort, item: &mut Item, more: &[u8], numbers: Numbers) {
    let room = room_of(item.need());
    let charge = item.charge();
    let count = more.len() as u64;
    assert!(rt; count <= 4000000 && charge <= 4000000);
    assert!(rt; charge + count <= room as u64);
    let updated = Moment::from_seconds_at_most(numbers.updated);
    item.extend(more, numbers.flags, numbers.expiry, numbers.unique, updated);
}

/// A block, more bytes, and both.
///
/// A chunk of 96 bytes is filled exactly by a block of 45 with a key of 3.
static JOINED: [(&[u8], &[u8], &[u8]); 5] = [
    (b"", b"", b""),
    (b"", b"block", b"block"),
    (b"block", b"", b"block"),
    (b"blo", b"ck", b"block"),
    (
        b"0123456789012345678901234567890123456789abcd",
        b"e",
        b"0123456789012345678901234567890123456789abcde",
    ),
];

/// Numbers of which an extension sets all but the hash.
const EXTENDED: Numbers = Numbers {
    hash: 0,
    flags: 7,
    expiry: Expiry::At(5),
    unique: 3,
    updated: 4,
};

/// Checks an item once bytes came behind its block.
fn is_extended(rt: &impl Abort, item: &mut Item, more: &[u8], joined: &[u8]) {
    extend(rt, item, more, EXTENDED);
    has_head(rt, item, b"key", EXTENDED);
    is_block(rt, item, joined);
}

/// Checks an item of the block of a row, behind which its bytes come.
fn takes_more(rt: &impl Abort, alloc: Global, row: &(&[u8], &[u8], &[u8])) -> Result<(), Fail> {
    let mut item = item_of(rt, alloc, b"key", row.0, b"", ZEROS)?;
    is_extended(rt, &mut item, row.1, row.2);
    Ok(())
}

#[test]
fn bytes_come_behind_a_block(rt: HostRuntime) -> Result<(), Fail> {
    for row in &JOINED {
        takes_more(&rt, rt.alloc(), row)?;
    }
    Ok(())
}

fn is_extended_across_chunks(rt: &impl Abort, alloc: Global, block: &[u8]) -> Result<(), Fail>
    requires { length block.now ≡ 3000000 }
{
    let (first, second) = block.split_at(700000);
    let mut item = begun_of(rt, alloc, b"key", 3000000, ZEROS)?;
    write_whole(rt, &mut item, b"key", first, ZEROS);
    extend(rt, &mut item, second, ZEROS);
    is_large(rt, alloc, &item, block)
}

#[test]
fn bytes_come_behind_a_block_across_chunks(rt: HostRuntime) -> Result<(), Fail> {
    let block = pattern(rt.alloc(), 3000000)?;
    is_extended_across_chunks(&rt, rt.alloc(), block.as_slice())
}

fn gives_way_to_a_number(rt: &impl Abort, alloc: Global, block: &[u8]) -> Result<(), Fail> {
    let mut item = item_of(rt, alloc, b"key", b"", block, ZEROS)?;
    rewrite(rt, &mut item, 18446744073709551615);
    has_lengths(rt, &item, [20, 0, 0]);
    joins_to(rt, alloc, &item, b"18446744073709551615")
}

#[test]
fn a_number_takes_the_place_of_a_large_block(rt: HostRuntime) -> Result<(), Fail> {
    let block = pattern(rt.alloc(), 3000000)?;
    gives_way_to_a_number(&rt, rt.alloc(), block.as_slice())
}

fn is_filled_across_chunks(rt: &impl Abort, alloc: Global, block: &[u8]) -> Result<(), Fail>
    requires { length block.now ≡ 3000000 }
{
    let (first, second) = block.split_at(700000);
    let mut item = begun_of(rt, alloc, b"key", 3000000, ZEROS)?;
    fill(rt, &mut item, 700000, second);
    fill(rt, &mut item, 0, first);
    is_large(rt, alloc, &item, block)
}

#[test]
fn a_large_block_is_filled_across_chunks(rt: HostRuntime) -> Result<(), Fail> {
    let block = pattern(rt.alloc(), 3000000)?;
    is_filled_across_chunks(&rt, rt.alloc(), block.as_slice())
}

/// Checks an item of `first` and another's block.
fn is_filled_from(
    rt: &impl Abort,
    alloc: Global,
    first: &[u8],
    other: &Item,
    block: &[u8],
) -> Result<(), Fail> {
    assert_eq!(rt; other.block_len(), 2300000);
    let mut item = begun_of(rt, alloc, b"key", 3000000, ZEROS)?;
    fill_from(rt, &mut item, 700000, other);
    fill(rt, &mut item, 0, first);
    is_large(rt, alloc, &item, block)
}

fn is_filled_from_another(rt: &impl Abort, alloc: Global, block: &[u8]) -> Result<(), Fail>
    requires { length block.now ≡ 3000000 }
{
    let (first, second) = block.split_at(700000);
    let other = item_of(rt, alloc, b"other", b"", second, ZEROS)?;
    is_filled_from(rt, alloc, first, &other, block)
}

#[test]
fn a_large_block_is_filled_from_another(rt: HostRuntime) -> Result<(), Fail> {
    let block = pattern(rt.alloc(), 3000000)?;
    is_filled_from_another(&rt, rt.alloc(), block.as_slice())
}
