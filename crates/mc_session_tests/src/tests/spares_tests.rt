//! Tests of large buffers that the queues of one worker share.

use crate::checks::holds;
use mc_bytes::{Queue, Spares};
use std::alloc::{AllocError, Global};
use std::test::*;

/// The bytes of a piece.
const PIECE: [u8; 8192] = [b'x'; 8192];

/// The memory that a text wants: less than 131,072 bytes, and no more than an eighth less.
const WHOLE: usize = 126_384;

/// The memory of a text that is more than 131,072 bytes. A sixteenth of it is less than a piece.
const LONGER: usize = 131_080;

/// Two queues over the same spares.
#[derive(Drop)]
struct Pair {
    spares: Spares,
    one: Queue<64>,
    other: Queue<64>,
}

impl Pair {
    /// Returns two empty queues over new spares.
    fn new(alloc: Global) -> Result<Pair, AllocError> {
        let spares = Spares::new(alloc)?;
        let (one, other) = (over(alloc, &spares), over(alloc, &spares));
        Ok(Pair { spares, one, other })
    }
}

/// Returns a queue over spares.
fn over(alloc: Global, spares: &Spares) -> Queue<64> {
    Queue::with_spares(alloc, Spares::another(Some(spares)))
}

/// Fills a queue with 131,072 bytes, and clears it.
fn fills_and_clears(queue: &mut Queue<64>) -> Result<bool, AllocError> {
    for _ in 0..16 {
        queue.push(&PIECE)?;
    }
    let is_large = queue.capacity() >= 131_072;
    queue.clear();
    Ok(is_large && queue.capacity() <= 64)
}

/// Brings the first two pieces of a text of `whole` bytes, and returns the memory that is reserved
/// then.
fn begins_text(queue: &mut Queue<64>, whole: usize) -> Result<usize, AllocError> {
    queue.push_part(&PIECE, whole)?;
    queue.push_part(&PIECE, whole)?;
    Ok(queue.capacity())
}

/// Returns whether a queue has the two pieces of a text.
fn has_both(queue: &Queue<64>) -> bool {
    queue.len() == 16_384 && queue.as_slice().iter().all(|byte| *byte == b'x')
}

/// Returns whether a text begins in the memory of a queue that was cleared.
fn takes_spare(queue: &mut Queue<64>) -> Result<bool, AllocError> {
    let reserved = begins_text(queue, WHOLE)?;
    Ok(reserved >= 131_072 && has_both(queue))
}

/// Returns whether a text begins in new memory.
fn finds_no_spare(queue: &mut Queue<64>) -> Result<bool, AllocError> {
    let reserved = begins_text(queue, WHOLE)?;
    Ok(reserved < 131_072 && has_both(queue))
}

/// Memory goes from one queue to another, until no more is kept.
fn goes_on(pair: &mut Pair) -> Result<bool, AllocError> {
    let Pair { spares, one, other } = pair;
    let is_large = fills_and_clears(one)?;
    let is_taken = takes_spare(other)? && finds_no_spare(one)?;
    other.clear();
    spares.keep_within(131_071);
    one.clear();
    Ok(is_large && is_taken && finds_no_spare(other)?)
}

/// Memory is freed that wasn't taken between two calls, and not before.
fn frees_unused(pair: &mut Pair) -> Result<bool, AllocError> {
    let Pair { spares, one, other } = pair;
    let is_large = fills_and_clears(one)?;
    spares.free_unused();
    let is_taken = takes_spare(other)?;
    other.clear();
    spares.free_unused();
    spares.free_unused();
    Ok(is_large && is_taken && finds_no_spare(one)?)
}

/// Memory too small for a text is freed where the text gets other memory.
fn gives_way(pair: &mut Pair) -> Result<bool, AllocError> {
    let Pair { one, other, .. } = pair;
    let is_large = fills_and_clears(one)?;
    let reserved = begins_text(other, LONGER)?;
    let is_larger = reserved > 131_072 && has_both(other);
    Ok(is_large && is_larger && finds_no_spare(one)?)
}

/// What is tested of a pair.
#[derive(Clone, Copy)]
enum Case {
    GoesOn,
    FreesUnused,
    GivesWay,
}

/// Returns whether a pair does what it should.
fn does(pair: &mut Pair, case: Case) -> Result<bool, AllocError> {
    match case {
        Case::GoesOn => goes_on(pair),
        Case::FreesUnused => frees_unused(pair),
        Case::GivesWay => gives_way(pair),
    }
}

/// The same for a new pair.
fn a_pair_does(alloc: Global, case: Case) -> Result<bool, AllocError> {
    let mut pair = Pair::new(alloc)?;
    does(&mut pair, case)
}

#[test]
fn large_memory_goes_to_the_next_queue(rt: HostRuntime) -> Result<(), AllocError> {
    holds(&rt, a_pair_does(rt.alloc(), Case::GoesOn)?);
    Ok(())
}

#[test]
fn memory_that_nobody_takes_is_freed(rt: HostRuntime) -> Result<(), AllocError> {
    holds(&rt, a_pair_does(rt.alloc(), Case::FreesUnused)?);
    Ok(())
}

#[test]
fn small_memory_gives_way_to_larger(rt: HostRuntime) -> Result<(), AllocError> {
    holds(&rt, a_pair_does(rt.alloc(), Case::GivesWay)?);
    Ok(())
}
