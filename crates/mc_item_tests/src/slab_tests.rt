//! A slab's pages and chunks, and the needs of charges.

ghost use Rattle.std.specs.Prelude.{◌≤◌};

use crate::slabs::slab_of;
use mc_bytes::{Lent, Queue};
use mc_slab::{Account, Chunks, Class, Need, Pages, Slab, TakeFault, class_of, need_of};
use std::alloc::{AllocError, Global};
use std::mem::size_of;
use std::process::Abort;
use std::test::*;

/// Returns the need of a charge.
fn needed(rt: &impl Abort, charge: u64) -> Need {
    need_of(charge).expect(rt, "a need")
}

/// Takes the chunks of the need.
///
/// If memory is refused the slab must be unchanged, and the second try must succeed.
fn take(rt: &impl Abort, alloc: Global, slab: &mut Slab, need: Need) -> Result<Chunks, TakeFault> {
    let account = slab.account(need.class());
    let left = slab.pages_left();
    let taken = slab.take_all(alloc, need);
    let Err(TakeFault::NoMemory) = taken else {
        return taken;
    };
    assert!(rt; slab.account(need.class()) == account);
    assert!(rt; slab.pages_left() == left);
    slab.take_all(alloc, need)
}

/// Gives the chunks back.
fn give(rt: &impl Abort, slab: &mut Slab, chunks: Chunks) {
    let need = chunks.need();
    let account = slab.account(need.class());
    assert!(rt; account.out >= need.count());
    slab.give_all(chunks);
}

/// Makes the class of the need ready for it once `back` chunks were given back.
///
/// A run may refuse one allocation, so it is called twice.
fn ready(
    rt: &impl Abort,
    alloc: Global,
    slab: &mut Slab,
    need: Need,
    back: u32,
) -> Result<(), TakeFault> {
    let account = slab.account(need.class());
    assert!(rt; account.out >= back);
    match slab.ready(alloc, need, u64::from(back)) {
        Err(TakeFault::NoMemory) => {
            let same = slab.account(need.class());
            assert!(rt; same == account);
            slab.ready(alloc, need, u64::from(back))
        }
        told => told,
    }
}

/// Returns a list with room for `count` chunks. A run may refuse one allocation, so it tries twice.
fn list_for(alloc: Global, count: u32) -> Result<Vec<Chunks>, Fail> {
    match Vec::with_capacity(alloc, count as usize) {
        Ok(list) => Ok(list),
        Err(_) => Ok(Vec::with_capacity(alloc, count as usize)?),
    }
}

/// Writes a part to a place of the chunks.
fn put(rt: &impl Abort, chunks: &mut Chunks, at: usize, part: &[u8]) {
    let need = chunks.need();
    let room = need.count() as usize * need.class().size() as usize;
    assert!(rt; at <= room);
    assert!(rt; part.len() <= room - at);
    chunks.write_at(at, part);
}

/// Returns the bytes of the chunk at a place.
fn part<'a>(rt: &impl Abort, chunks: &'a Chunks, at: usize) -> &'a [u8] {
    let need = chunks.need();
    assert!(rt; at < need.count() as usize);
    chunks.part(at)
}

/// Writes a number at both ends of the chunk.
fn mark(rt: &impl Abort, chunk: &mut Chunks, number: u32) {
    let size = chunk.need().class().size() as usize;
    put(rt, chunk, 0, &number.to_le_bytes());
    put(rt, chunk, size - 4, &number.to_le_bytes());
}

/// Returns whether the number is at both ends of the chunk.
fn is_marked(chunk: &Chunks, number: u32) -> bool {
    let mark = number.to_le_bytes();
    chunk.first().starts_with(&mark) && chunk.first().ends_with(&mark)
}

/// Checks that a need is refused.
fn is_refused(rt: &impl Abort, alloc: Global, slab: &mut Slab, need: Need) {
    let refused = take(rt, alloc, slab, need).is_err();
    assert!(rt; refused);
}

/// Checks the account of the need's class, and the pages left.
fn stands(rt: &impl Abort, slab: &Slab, need: Need, account: Account, left: u32) {
    assert!(rt; slab.account(need.class()) == account);
    assert_eq!(rt; slab.pages_left(), left);
}

/// Takes chunks of the need, checks its class's account and the pages left, and gives them back.
fn stand_and_go(
    rt: &impl Abort,
    slab: &mut Slab,
    need: Need,
    chunks: Chunks,
    account: Account,
    left: u32,
) {
    assert!(rt; chunks.need() == need);
    stands(rt, slab, need, account, left);
    give(rt, slab, chunks);
}

/// Takes a chunk of the need's class, and writes a number at both ends of it.
fn take_marked(
    rt: &impl Abort,
    alloc: Global,
    slab: &mut Slab,
    need: Need,
    number: u32,
) -> Result<Chunks, Fail> {
    let mut chunk = take(rt, alloc, slab, need)?;
    assert!(rt; chunk.need() == need);
    mark(rt, &mut chunk, number);
    Ok(chunk)
}

/// Takes some chunks of the need's class, and writes its number at both ends of each.
fn fill(
    rt: &impl Abort,
    alloc: Global,
    slab: &mut Slab,
    need: Need,
    count: u32,
) -> Result<Vec<Chunks>, Fail> {
    let mut held = list_for(alloc, count)?;
    for number in 0..count {
        held.push(take_marked(rt, alloc, slab, need, number)?)?;
    }
    Ok(held)
}

/// Checks that each chunk has its number, and gives the chunks back.
fn empty(rt: &impl Abort, slab: &mut Slab, held: Vec<Chunks>) {
    let mut number = 0u32;
    for chunk in held {
        assert!(rt; is_marked(&chunk, number));
        give(rt, slab, chunk);
        number = number.wrapping_add(1);
    }
}

/// Takes every chunk of the need's class, and writes its number at both ends of each.
///
/// Then it checks that the class is full with this account and each number is where it was written,
/// and gives all back.
fn fill_and_empty(
    rt: &impl Abort,
    alloc: Global,
    slab: &mut Slab,
    need: Need,
    full: Account,
) -> Result<(), Fail> {
    let held = fill(rt, alloc, slab, need, full.out)?;
    assert!(rt; slab.account(need.class()) == full);
    is_refused(rt, alloc, slab, need);
    empty(rt, slab, held);
    Ok(())
}

/// Fills two pages of 10 chunks each and empties them, and checks that their chunks are unused.
fn fill_and_empty_two(
    rt: &impl Abort,
    alloc: Global,
    slab: &mut Slab,
    need: Need,
) -> Result<(), Fail> {
    fill_and_empty(rt, alloc, slab, need, Account { pages: 2, out: 20 })?;
    stands(rt, slab, need, Account { pages: 2, out: 0 }, 0);
    assert_eq!(rt; slab.unused_chunks(need.class()), 20);
    Ok(())
}

#[test]
fn filling_and_emptying_leaves_the_same_account(rt: HostRuntime) -> Result<(), Fail> {
    let mut slab = slab_of(rt.alloc(), 2)?;
    let need = needed(&rt, 100000);
    for _ in 0..100 {
        fill_and_empty_two(&rt, rt.alloc(), &mut slab, need)?;
    }
    Ok(())
}

/// The size of a chunk, and how many a page has.
///
/// The pages have 33 runs of at most 341 chunks, 38 runs of 2 or 1, 60 runs of 1, and one chunk.
static PAGES: [(u64, u32); 4] = [(96, 10922), (13880, 75), (17352, 60), (1048576, 1)];

#[test]
fn chunks_of_a_page_lie_apart(rt: HostRuntime) -> Result<(), Fail> {
    for row in &PAGES {
        let mut slab = slab_of(rt.alloc(), 1)?;
        let need = needed(&rt, row.0);
        let full = Account {
            pages: 1,
            out: row.1,
        };
        fill_and_empty(&rt, rt.alloc(), &mut slab, need, full)?;
    }
    Ok(())
}

/// Returns 1 to 8 pages of the class. A run may refuse one allocation, so it tries twice.
fn pages_of(alloc: Global, class: Class, count: u32) -> Result<Pages, Fail>
    requires { (1 ≤ count) × (count ≤ 8) }
{
    match Pages::new(alloc, class, count) {
        Ok(pages) => Ok(pages),
        Err(_) => Ok(Pages::new(alloc, class, count)?),
    }
}

/// Takes the chunks of the need, with 1 to 8 pages of the class.
fn take_of(
    alloc: Global,
    slab: &mut Slab,
    need: Need,
    class: Class,
    count: u32,
) -> Result<Chunks, Fail>
    requires { (1 ≤ count) × (count ≤ 8) }
{
    let pages = pages_of(alloc, class, count)?;
    match slab.take_all_with(alloc, need, Some(pages)) {
        Err(TakeFault::NoMemory) => Ok(slab.take_all(alloc, need)?),
        taken => Ok(taken?),
    }
}

/// A page of the class that wants one, and one of another class, which is freed.
///
/// The size of a chunk, the size of the page's chunks, and how many a page has.
static BROUGHT: [(u64, u64, u32); 3] = [(96, 96, 10922), (17352, 17352, 60), (13880, 1048576, 75)];

/// Takes a chunk with the page of a row, then fills the page of the chunk's class and empties it.
fn bring(
    rt: &impl Abort,
    alloc: Global,
    slab: &mut Slab,
    row: &(u64, u64, u32),
) -> Result<(), Fail> {
    let need = needed(rt, row.0);
    let class = class_of(row.1).expect(rt, "a class");
    let chunk = take_of(alloc, slab, need, class, 1)?;
    stand_and_go(rt, slab, need, chunk, Account { pages: 1, out: 1 }, 0);
    let full = Account {
        pages: 1,
        out: row.2,
    };
    fill_and_empty(rt, alloc, slab, need, full)
}

#[test]
fn a_page_may_be_brought(rt: HostRuntime) -> Result<(), Fail> {
    for row in &BROUGHT {
        let mut slab = slab_of(rt.alloc(), 1)?;
        bring(&rt, rt.alloc(), &mut slab, row)?;
    }
    Ok(())
}

/// Takes two pages, with `count` pages given.
fn take_two_of(rt: &impl Abort, alloc: Global, class: Class, count: u32) -> Result<(), Fail>
    requires { (1 ≤ count) × (count ≤ 8) }
{
    let mut slab = slab_of(alloc, 3)?;
    let need = needed(rt, 2097152);
    let chunks = take_of(alloc, &mut slab, need, class, count)?;
    stand_and_go(rt, &mut slab, need, chunks, Account { pages: 2, out: 2 }, 1);
    Ok(())
}

#[test]
fn pages_that_are_brought_are_a_hint(rt: HostRuntime) -> Result<(), Fail> {
    let alloc = rt.alloc();
    let class = class_of(1048576).expect(&rt, "a class");
    take_two_of(&rt, alloc, class, 1)?;
    take_two_of(&rt, alloc, class, 2)?;
    take_two_of(&rt, alloc, class, 3)
}

#[test]
fn a_page_stays_with_its_class(rt: HostRuntime) -> Result<(), Fail> {
    let mut slab = slab_of(rt.alloc(), 1)?;
    let large = needed(&rt, 1048576);
    let chunk = take(&rt, rt.alloc(), &mut slab, large)?;
    assert_eq!(rt; chunk.first().len(), 1048576);
    give(&rt, &mut slab, chunk);
    is_refused(&rt, rt.alloc(), &mut slab, needed(&rt, 96));
    Ok(())
}

/// Takes the chunks of the need, checks the class's account and the pages left; gives them back.
///
/// None is out afterwards.
fn come_and_go(
    rt: &impl Abort,
    alloc: Global,
    slab: &mut Slab,
    need: Need,
    account: Account,
    left: u32,
) -> Result<(), Fail> {
    let chunks = take(rt, alloc, slab, need)?;
    stand_and_go(rt, slab, need, chunks, account, left);
    stands(rt, slab, need, Account { out: 0, ..account }, left);
    Ok(())
}

#[test]
fn chunks_of_a_need_come_all_or_none(rt: HostRuntime) -> Result<(), Fail> {
    let alloc = rt.alloc();
    let mut slab = slab_of(alloc, 3)?;
    let one = needed(&rt, 1048576);
    come_and_go(&rt, alloc, &mut slab, one, Account { pages: 1, out: 1 }, 2)?;
    // One is unused, and two pages are left.
    is_refused(&rt, alloc, &mut slab, needed(&rt, 3145729));
    stands(&rt, &slab, one, Account { pages: 1, out: 0 }, 2);
    let three = needed(&rt, 3145728);
    come_and_go(
        &rt,
        alloc,
        &mut slab,
        three,
        Account { pages: 3, out: 3 },
        0,
    )
}

/// Takes two pages, makes three ready for once they were given back, and gives them back.
fn come_and_make_ready(
    rt: &impl Abort,
    alloc: Global,
    slab: &mut Slab,
    three: Need,
) -> Result<(), TakeFault> {
    let two = needed(rt, 2097152);
    let chunks = take(rt, alloc, slab, two)?;
    ready(rt, alloc, slab, three, 2)?;
    stand_and_go(rt, slab, two, chunks, Account { pages: 3, out: 2 }, 0);
    Ok(())
}

#[test]
fn chunks_that_come_back_serve_what_was_made_ready(rt: HostRuntime) -> Result<(), Fail> {
    let alloc = rt.alloc();
    let mut slab = slab_of(alloc, 3)?;
    let three = needed(&rt, 3145728);
    come_and_make_ready(&rt, alloc, &mut slab, three)?;
    let chunks = slab.take_all(alloc, three)?;
    let account = Account { pages: 3, out: 3 };
    stand_and_go(&rt, &mut slab, three, chunks, account, 0);
    Ok(())
}

/// Writes over the border of the first chunk of three and at the end of the last, and reads both.
fn write_across(rt: &impl Abort, chunks: &mut Chunks) {
    put(rt, chunks, 1048573, b"abcdefgh");
    put(rt, chunks, 3145724, b"last");
    assert!(rt; part(rt, chunks, 0).ends_with(b"abc"));
    assert!(rt; part(rt, chunks, 1).starts_with(b"defgh"));
    assert!(rt; part(rt, chunks, 2).ends_with(b"last"));
}

#[test]
fn a_part_is_written_across_chunks(rt: HostRuntime) -> Result<(), Fail> {
    let mut slab = slab_of(rt.alloc(), 3)?;
    let mut chunks = take(&rt, rt.alloc(), &mut slab, needed(&rt, 3145728))?;
    write_across(&rt, &mut chunks);
    give(&rt, &mut slab, chunks);
    Ok(())
}

/// Returns whether the chunk lends its first 4 bytes, and they stay while it is written.
fn stays_as_it_was(rt: &impl Abort, chunk: &mut Chunks) -> bool {
    put(rt, chunk, 0, b"before");
    let need = chunk.need();
    assert!(rt; need.count() == 1);
    assert!(rt; need.class().size() >= 96);
    let old = chunk.lend(0, 0, 4);
    put(rt, chunk, 2, b"after");
    match old {
        Some(old) => old.as_slice() == b"befo".as_slice() && chunk.first().starts_with(b"beafter"),
        None => false,
    }
}

/// Takes the chunk of a charge, and returns whether it lends its first 4 bytes.
fn come_and_lend(
    rt: &impl Abort,
    alloc: Global,
    slab: &mut Slab,
    charge: u64,
) -> Result<bool, TakeFault> {
    let mut chunk = take(rt, alloc, slab, needed(rt, charge))?;
    let lends = stays_as_it_was(rt, &mut chunk);
    give(rt, slab, chunk);
    Ok(lends)
}

#[test]
fn a_chunk_of_class_27_is_lent_and_one_of_class_26_is_not(rt: HostRuntime) -> Result<(), Fail> {
    let mut slab = slab_of(rt.alloc(), 2)?;
    let small = come_and_lend(&rt, rt.alloc(), &mut slab, 27120)?;
    let large = come_and_lend(&rt, rt.alloc(), &mut slab, 27121)?;
    assert!(rt; !small && large);
    Ok(())
}

/// Returns the share of what has left that a reader has beside another one.
fn share_of_two(lent: &Lent) -> Option<usize> {
    let other = lent.another()?;
    Some(other.left_bytes())
}

/// Returns the share of what has left that a reader of a chunk has: before the chunk is written,
/// after it, beside another reader, and once it is alone again.
fn shares_of(rt: &impl Abort, chunk: &mut Chunks) -> Option<[usize; 4]> {
    put(rt, chunk, 0, b"before");
    let lent = lent_of(rt, chunk, 0, 4)?;
    let stands = lent.left_bytes();
    put(rt, chunk, 2, b"after");
    let alone = lent.left_bytes();
    let beside = share_of_two(&lent)?;
    Some([stands, alone, beside, lent.left_bytes()])
}

/// Returns whether a reader of a chunk counts for it only once it was written.
fn counts_once_written(rt: &impl Abort, chunk: &mut Chunks) -> bool {
    let size = chunk.need().class().size() as usize;
    shares_of(rt, chunk) == Some([0, size, size - size / 2, size])
}

/// Returns whether a reader of chunks counts for them once they are dropped.
fn counts_once_dropped(rt: &impl Abort, chunk: Chunks) -> bool {
    let size = chunk.need().class().size() as usize;
    let lent = lent_of(rt, &chunk, 0, 4);
    drop(chunk);
    match lent {
        Some(lent) => lent.left_bytes() == size,
        None => false,
    }
}

#[test]
fn a_reader_counts_for_what_its_chunk_let_go(rt: HostRuntime) -> Result<(), Fail> {
    let mut slab = slab_of(rt.alloc(), 2)?;
    for charge in [27121, 1000000] {
        let mut chunk = take(&rt, rt.alloc(), &mut slab, needed(&rt, charge))?;
        assert!(rt; counts_once_written(&rt, &mut chunk));
        assert!(rt; counts_once_dropped(&rt, chunk));
    }
    Ok(())
}

/// Writes a part at the front of the chunks' head.
fn put_head(rt: &impl Abort, chunks: &mut Chunks, part: &[u8]) {
    assert!(rt; part.len() <= chunks.head().len());
    chunks.write_head(0, part);
}

/// Returns whether the head of the chunks is the front of their bytes.
fn has_head_in_its_bytes(rt: &impl Abort, chunks: &mut Chunks) -> bool {
    put(rt, chunks, 0, b"bytes");
    put_head(rt, chunks, b"head");
    assert!(rt; chunks.head().starts_with(b"head"));
    assert!(rt; chunks.first().starts_with(b"bytes") || chunks.first().starts_with(b"heads"));
    chunks.first().starts_with(b"heads")
}

/// The charge of chunks, whether their head is the front of their bytes, and the head's length.
static HEADS: [(u64, bool, usize); 3] = [
    (27120, true, 27120),
    (27121, false, 304),
    (2000000, false, 304),
];

/// Takes the chunks of a row, checks their head, and gives them back.
fn come_with_head(
    rt: &impl Abort,
    alloc: Global,
    slab: &mut Slab,
    row: &(u64, bool, usize),
) -> Result<(), TakeFault> {
    let mut chunks = take(rt, alloc, slab, needed(rt, row.0))?;
    assert!(rt; has_head_in_its_bytes(rt, &mut chunks) == row.1);
    assert_eq!(rt; chunks.head().len(), row.2);
    give(rt, slab, chunks);
    Ok(())
}

#[test]
fn the_head_lies_beside_the_bytes_from_class_27_on(rt: HostRuntime) -> Result<(), Fail> {
    let mut slab = slab_of(rt.alloc(), 4)?;
    for row in &HEADS {
        come_with_head(&rt, rt.alloc(), &mut slab, row)?;
    }
    Ok(())
}

/// Shares what is in the queue, which is `len` bytes, and returns the part behind the first 100.
fn share_behind(queue: &mut Queue<65536>, len: usize) -> Result<Lent, AllocError>
    requires { 100 ≤ len }
{
    let shared = queue.share().ok_or(AllocError)?;
    if shared.len() != len {
        return Err(AllocError);
    }
    shared.part(100, len).ok_or(AllocError)
}

/// Returns a part of shared memory of `whole` bytes: 9092 bytes behind the first 100.
fn shared_part(alloc: Global, whole: usize) -> Result<Lent, AllocError> {
    let mut queue: Queue<65536> = Queue::new(alloc);
    queue.push(&[b'x'; 8192])?;
    queue.push_part(&[b'y'; 1000], whole)?;
    share_behind(&mut queue, 9192)
}

/// Returns whether chunks take the memory of a part over, and leave theirs. Else they are unchanged.
fn takes_over(rt: &impl Abort, chunks: &mut Chunks, part: &Lent) -> bool {
    put(rt, chunks, 0, b"before");
    assert!(rt; chunks.need().class().size() >= 27120 && part.len() <= 27120);
    let taken = chunks.take_over(part);
    let left = part.take_left().is_some();
    assert!(rt; taken == left);
    assert!(rt; taken == chunks.first().starts_with(part.as_slice()));
    assert!(rt; taken != chunks.first().starts_with(b"before"));
    taken
}

/// Has chunks take the memory of a part over, and writes to them. The part stays as it was.
fn take_over_and_put(rt: &impl Abort, chunks: &mut Chunks, part: &Lent) -> bool {
    if !takes_over(rt, chunks, part) {
        return false;
    }
    put(rt, chunks, 0, b"after");
    assert!(rt; part.as_slice().starts_with(b"xxxxx"));
    assert!(rt; chunks.first().starts_with(b"afterxxx"));
    true
}

/// Takes the chunks of a charge, and returns whether they take the memory of a part over.
fn come_and_take_over(
    rt: &impl Abort,
    alloc: Global,
    slab: &mut Slab,
    charge: u64,
    part: &Lent,
) -> Result<bool, TakeFault> {
    let mut chunks = take(rt, alloc, slab, needed(rt, charge))?;
    let taken = take_over_and_put(rt, &mut chunks, part);
    give(rt, slab, chunks);
    Ok(taken)
}

/// Charges whose chunks decline the memory: one isn't lent, one is larger, and two are smaller.
static DECLINING: [u64; 3] = [27120, 66233, 2000000];

/// Checks that of all chunks that are tried only the last takes the memory of a part over.
fn last_takes_over(
    rt: &impl Abort,
    alloc: Global,
    slab: &mut Slab,
    part: &Lent,
) -> Result<(), TakeFault> {
    for charge in &DECLINING {
        let taken = come_and_take_over(rt, alloc, slab, *charge, part)?;
        assert!(rt; !taken);
    }
    if come_and_take_over(rt, alloc, slab, 66232, part)? {
        return Ok(());
    }
    Err(TakeFault::NoMemory)
}

#[test]
fn a_chunk_takes_over_memory_that_is_512_bytes_larger(rt: HostRuntime) -> Result<(), Fail> {
    let part = shared_part(rt.alloc(), 66232 + 512)?;
    let mut slab = slab_of(rt.alloc(), 5)?;
    Ok(last_takes_over(&rt, rt.alloc(), &mut slab, &part)?)
}

/// Returns a part of shared memory of two pages and 512 bytes: 1100000 bytes behind the first 100.
fn shared_pages(alloc: Global) -> Result<Lent, AllocError> {
    let mut queue: Queue<65536> = Queue::new(alloc);
    let piece = [b'x'; 11001];
    for _ in 0..100u8 {
        queue.push_part(&piece, 2097664)?;
    }
    share_behind(&mut queue, 1100100)
}

/// Has two pages take memory over, and returns whether they did.
fn take_over_two(rt: &impl Abort, pages: &mut Chunks, shared: &Lent) -> bool {
    let need = pages.need();
    assert!(rt; need.count() == 2 && need.class().size() == 1048576);
    assert!(rt; shared.len() <= 2097152);
    pages.take_over(shared)
}

/// Lends the first bytes of the chunk at a place.
fn lent_of(rt: &impl Abort, chunks: &Chunks, at: usize, to: usize) -> Option<Lent> {
    let need = chunks.need();
    assert!(rt; at < need.count() as usize);
    assert!(rt; to <= need.class().size() as usize);
    chunks.lend(at, 0, to)
}

/// Writes over the border of two pages, and reads both.
fn write_over_border(rt: &impl Abort, pages: &mut Chunks) {
    put(rt, pages, 1048574, b"over");
    assert!(rt; part(rt, pages, 0).ends_with(b"xxov"));
    assert!(rt; part(rt, pages, 1).starts_with(b"erxx"));
}

/// Writes to two pages while the second is lent, and returns whether what was lent stays.
fn write_while_lent(rt: &impl Abort, pages: &mut Chunks) -> bool {
    let lent = lent_of(rt, pages, 1, 51424);
    write_over_border(rt, pages);
    match lent {
        Some(lent) => lent.as_slice().starts_with(b"xxxx"),
        None => false,
    }
}

/// Has two pages take memory over, and checks what both they and the part have then.
fn take_over_and_write(rt: &impl Abort, pages: &mut Chunks, shared: &Lent) -> bool {
    if !take_over_two(rt, pages, shared) {
        return false;
    }
    assert!(rt; shared.take_left().is_some());
    assert!(rt; part(rt, pages, 1).starts_with(&[b'x'; 51424]));
    let stays = write_while_lent(rt, pages);
    assert!(rt; shared.as_slice().ends_with(b"xxxx"));
    stays
}

/// Has two pages take other memory over, and returns whether they did.
fn take_over_other(rt: &impl Abort, alloc: Global, pages: &mut Chunks) -> Result<bool, AllocError> {
    let other = shared_pages(alloc)?;
    Ok(take_over_two(rt, pages, &other))
}

/// Has two pages take memory over, and then other memory while a part of the first is there.
fn take_over_twice(rt: &impl Abort, alloc: Global, pages: &mut Chunks) -> Result<bool, AllocError> {
    let shared = shared_pages(alloc)?;
    if !take_over_and_write(rt, pages, &shared) {
        return Ok(false);
    }
    take_over_other(rt, alloc, pages)
}

/// Takes two pages, and returns whether they take memory over, twice. It gives them back.
fn come_and_take_over_twice(
    rt: &impl Abort,
    alloc: Global,
    slab: &mut Slab,
) -> Result<bool, TakeFault> {
    let mut pages = take(rt, alloc, slab, needed(rt, 2000000))?;
    let taken = take_over_twice(rt, alloc, &mut pages);
    give(rt, slab, pages);
    Ok(taken?)
}

#[test]
fn several_pages_take_over_a_piece_each(rt: HostRuntime) -> Result<(), Fail> {
    let mut slab = slab_of(rt.alloc(), 2)?;
    for _ in 0..2u8 {
        if !come_and_take_over_twice(&rt, rt.alloc(), &mut slab)? {
            return Err(AllocError.into());
        }
    }
    let need = needed(&rt, 1000000);
    fill_and_empty(
        &rt,
        rt.alloc(),
        &mut slab,
        need,
        Account { pages: 2, out: 2 },
    )
}

#[test]
fn chunks_take_sixteen_bytes(rt: HostRuntime) -> Result<(), Fail> {
    assert_eq!(rt; size_of::<Chunks>(), 16);
    Ok(())
}

/// The need of a charge: the class, and the count.
static NEEDS: [(u64, u8, u32); 8] = [
    (0, 1, 1),
    (96, 1, 1),
    (97, 2, 1),
    (1048576, 40, 1),
    (1048577, 40, 2),
    (2097152, 40, 2),
    (2097153, 40, 3),
    (8388608, 40, 8),
];

#[test]
fn edges_of_the_needs(rt: HostRuntime) {
    for row in &NEEDS {
        let need = needed(&rt, row.0);
        assert_eq!(rt; need.class().number(), row.1);
        assert_eq!(rt; need.count(), row.2);
    }
    assert!(rt; need_of(8388609).is_none());
}

/// The class of a charge: its number, its size, and how many of its chunks a page has.
static CLASSES: [(u64, u8, u32, u32); 6] = [
    (0, 1, 96, 10922),
    (96, 1, 96, 10922),
    (97, 2, 120, 8738),
    (493552, 39, 493552, 2),
    (493553, 40, 1048576, 1),
    (1048576, 40, 1048576, 1),
];

#[test]
fn edges_of_the_classes(rt: HostRuntime) {
    for row in &CLASSES {
        let class = class_of(row.0).expect(&rt, "a class");
        assert_eq!(rt; class.number(), row.1);
        assert_eq!(rt; class.size(), row.2);
        assert_eq!(rt; class.chunks_a_page(), row.3);
    }
    assert!(rt; class_of(1048577).is_none());
}
