//! Runs that go on past refusals. What is set up before a run is made again if memory is refused.

use crate::tests::runs::opened_twice;
use crate::tests::texts::{HIT, MISS, around, get_of, hit_of, large_set, set_of};
use crate::tests::told::Tested;
use crate::worlds::{retried_world, twice};
use mc_hop::{Constant, Fnv, KeyHash};
use mc_protocol::Bytes;
use mc_world::Event;
use std::alloc::{AllocError, Global};
use std::process::Abort;
use std::test::*;

const SET: &[u8] = b"set a 0 0 1\r\nx\r\n";

const GET: &[u8] = b"get a\r\n";

/// Sets `a` by session 1, checks its output, and returns what another must find.
///
/// If its piece or its turn is refused it is closed without output. Another then finds what was
/// written if the refusal has `decided`, and else nothing.
fn set_turn<R: Abort>(tested: &mut Tested<'_, R, Fnv>) -> &'static [u8] {
    let events = [Event::Piece(1, Bytes::of(SET)), Event::Turn(1)];
    let (told, found) = match tested.world.run(tested.alloc, &events) {
        Ok(()) => (b"STORED\r\n".as_slice(), HIT),
        Err(refused) => {
            tested.is_refused(1, &refused);
            (b"".as_slice(), if refused.decided { HIT } else { MISS })
        }
    };
    tested.is_told(1, told);
    found
}

/// Sets `a` by session 1. Another session finds it if that step was taken.
fn second_finds_what_stands<R: Abort>(tested: &mut Tested<'_, R, Fnv>) -> Result<(), Fail> {
    let found = set_turn(tested);
    tested.second_finds(found)
}

/// If a refusal has `decided`, another session finds what it wrote, and else it finds nothing.
#[test]
fn a_decided_step_stands_where_it_was_refused(rt: HostRuntime) -> Result<(), Fail> {
    let mut tested = Tested::of(&rt, rt.alloc(), opened_twice(rt.alloc())?);
    second_finds_what_stands(&mut tested)
}

/// Checks that a refused session is closed without output, and the other one has its reply.
fn both_are_told<R: Abort>(tested: &Tested<'_, R, Fnv>) {
    let world = &tested.world;
    let told: &[u8] = if world.is_closed(1) {
        b""
    } else {
        b"STORED\r\n"
    };
    tested.is_told(1, told);
    let found = world.out(2);
    if world.is_closed(2) {
        assert!(tested.rt; found.is_empty());
    } else {
        assert!(tested.rt; found == HIT || world.is_closed(1) && found == MISS);
    }
}

/// Sets `a` by session 1 and gets it by session 2 in one run, which counts the refusals.
fn set_and_get<R: Abort>(tested: &mut Tested<'_, R, Fnv>) {
    let events = [
        Event::Piece(1, Bytes::of(SET)),
        Event::Turn(1),
        Event::Piece(2, Bytes::of(GET)),
        Event::Turn(2),
    ];
    let ended = tested.world.run_through(tested.alloc, &events);
    let closed = u64::from(tested.world.is_closed(1)) + u64::from(tested.world.is_closed(2));
    assert_eq!(tested.rt; ended.refused, closed);
    both_are_told(tested);
}

#[test]
fn a_run_goes_on_past_a_refusal(rt: HostRuntime) -> Result<(), Fail> {
    let mut tested = Tested::of(&rt, rt.alloc(), opened_twice(rt.alloc())?);
    set_and_get(&mut tested);
    Ok(())
}

/// Runs all events, and compares the output of session 1.
///
/// If memory is refused, no further request follows: session 1 is closed, or wasn't opened, and its
/// output is a beginning of that.
fn tells<R: Abort, K: KeyHash + Drop>(
    tested: &mut Tested<'_, R, K>,
    events: &[Event<'_>],
    output: &[u8],
) {
    let ended = tested.world.run_through(tested.alloc, events);
    if ended.refused == 0 {
        tested.is_told(1, output);
    } else {
        assert!(tested.rt; ended.refused == 1);
        is_closed(tested, output);
    }
}

/// Checks that session 1 is closed, or wasn't opened, and that its output is a beginning of this.
fn is_closed<R: Abort, K: KeyHash + Drop>(tested: &Tested<'_, R, K>, output: &[u8]) {
    assert!(tested.rt; tested.world.session_count() == 0 || tested.world.is_closed(1));
    assert!(tested.rt; output.starts_with(tested.world.out(1)));
}

/// Appends commands that find no room behind a set of `b`, and then one that gets `b`.
fn add_refused(alloc: Global, input: &mut Vec<u8>) -> Result<(), AllocError> {
    let large = large_set(alloc, 'b', 0, b'z')?;
    input.extend_from_slice(b"set s 0 0 1\r\ny\r\n")?;
    input.extend_from_slice(&large)?;
    input.extend_from_slice(b"get b\r\n")
}

/// Returns commands for a store of one page: one fills the page, and the next finds no room.
fn full_store_asked(alloc: Global) -> Result<Vec<u8>, AllocError> {
    let mut input = large_set(alloc, 'b', 0, b'x')?;
    add_refused(alloc, &mut input)?;
    Ok(input)
}

/// Returns the output of these.
fn full_store_told(alloc: Global) -> Result<Vec<u8>, AllocError> {
    let front = b"STORED\r\nSERVER_ERROR out of memory storing object\r\n\
        SERVER_ERROR out of memory storing object\r\nVALUE b 0 600000\r\n";
    around(alloc, front, (b'x', 600000), b"\r\nEND\r\n")
}

/// Opens session 1 of a world of one page, brings this to it, and takes four turns.
fn full_store_tells(
    rt: &impl Abort,
    alloc: Global,
    input: &[u8],
    output: &[u8],
) -> Result<(), Fail> {
    let events = [
        Event::Open,
        Event::Piece(1, Bytes::of(input)),
        Event::Turn(1),
        Event::Turn(1),
        Event::Turn(1),
        Event::Turn(1),
    ];
    let mut tested = Tested::of(rt, alloc, retried_world(alloc, Fnv, 1)?);
    tells(&mut tested, &events, output);
    Ok(())
}

#[test]
fn a_full_store_is_no_refusal(rt: HostRuntime) -> Result<(), Fail> {
    let input = twice!(full_store_asked(rt.alloc()))?;
    let output = twice!(full_store_told(rt.alloc()))?;
    full_store_tells(&rt, rt.alloc(), &input, &output)
}

/// Appends commands that set forty keys, and the replies.
fn add_sets(alloc: Global, input: &mut Vec<u8>, output: &mut Vec<u8>) -> Result<(), AllocError> {
    for key in 1..41 {
        let set = set_of(alloc, key)?;
        input.extend_from_slice(set.as_bytes())?;
        output.extend_from_slice(b"STORED\r\n")?;
    }
    Ok(())
}

/// Appends commands that get them, and the replies.
fn add_gets(alloc: Global, input: &mut Vec<u8>, output: &mut Vec<u8>) -> Result<(), AllocError> {
    for key in 1..41 {
        let get = get_of(alloc, key)?;
        let hit = hit_of(alloc, key)?;
        input.extend_from_slice(get.as_bytes())?;
        output.extend_from_slice(hit.as_bytes())?;
    }
    Ok(())
}

/// Returns commands that set and then get forty keys, and their output.
fn forty_keys(alloc: Global) -> Result<(Vec<u8>, Vec<u8>), AllocError> {
    let mut input = Vec::new(alloc);
    let mut output = Vec::new(alloc);
    add_sets(alloc, &mut input, &mut output)?;
    add_gets(alloc, &mut input, &mut output)?;
    Ok((input, output))
}

/// Appends eighty turns, each followed by growth.
fn add_turns(events: &mut Vec<Event<'_>>) -> Result<(), AllocError> {
    for _ in 0..80 {
        events.push(Event::Turn(1))?;
        events.push(Event::Grow(0))?;
    }
    Ok(())
}

/// Opens session 1, brings this to it, and takes eighty turns, each followed by growth.
fn turns_with_growth(alloc: Global, input: &[u8]) -> Result<Vec<Event<'_>>, AllocError> {
    let mut events = Vec::new(alloc);
    events.push(Event::Open)?;
    events.push(Event::Piece(1, Bytes::of(input)))?;
    add_turns(&mut events)?;
    Ok(events)
}

/// Checks the output of a world of one hash after events.
fn one_hash_tells(
    rt: &impl Abort,
    alloc: Global,
    events: &[Event<'_>],
    output: &[u8],
) -> Result<(), Fail> {
    let mut tested = Tested::of(rt, alloc, retried_world(alloc, Constant(0), 64)?);
    tells(&mut tested, events, output);
    Ok(())
}

/// Checks the output of a world of one hash, while it grows.
fn growing_tells(rt: &impl Abort, alloc: Global, input: &[u8], output: &[u8]) -> Result<(), Fail> {
    let events = twice!(turns_with_growth(alloc, input))?;
    one_hash_tells(rt, alloc, &events, output)
}

#[test]
fn growth_is_no_refusal(rt: HostRuntime) -> Result<(), Fail> {
    let (input, output) = twice!(forty_keys(rt.alloc()))?;
    growing_tells(&rt, rt.alloc(), &input, &output)
}
