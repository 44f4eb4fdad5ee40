//! Two callers pass notes between their threads, beside their steps. If memory is refused they make
//! the call again.

ghost use Rattle.std.specs.Prelude.{◌≡◌, ◌≤◌, length};

use crate::stores::{SOME, empty_store, stepped};
use mc_hop::{Fnv, KeyHash};
use mc_protocol::{Reply, StepFault, Verb};
use mc_shared::{Caller, Note, Shared};
use mc_testing::{Ask, step_of};
use mc_time::Moment;
use std::alloc::{AllocError, Global};
use std::sync::Wait;
use std::test::*;
use std::thread;
use std::thread::Threads;

/// The rounds of the test. In each both callers heed a note and give one.
const ROUNDS: u16 = 200;

/// Which of the two callers it is. Each sets a key of its own and reads the other's.
#[derive(Clone, Copy)]
enum Side {
    A,
    B,
}

/// A caller's turn in a round.
#[derive(Clone, Copy)]
struct Turn {
    side: Side,
    round: u16,
}

/// Returns the key that a side sets.
fn own_key(side: Side) -> &'static [u8]
    ensures { length result.now ≤ 250 }
{
    match side {
        Side::A => b"a",
        Side::B => b"b",
    }
}

/// Returns the key that a side reads.
fn other_key(side: Side) -> &'static [u8]
    ensures { length result.now ≤ 250 }
{
    match side {
        Side::A => b"b",
        Side::B => b"a",
    }
}

/// Returns the two bytes of a number.
fn bytes_of(number: u16) -> [u8; 2] {
    [(number / 256) as u8, (number % 256) as u8]
}

/// Returns whether a read of the other's key in a round found what the other had set before it gave
/// the note, or what it sets in this round.
fn keeps_the_note(round: u16, taken: &Result<Reply, StepFault>) -> bool {
    match taken {
        Ok(Reply::Miss) => round == 1,
        Ok(Reply::Hit { block, .. }) => {
            block.bytes() == bytes_of(round.wrapping_sub(1)).as_slice()
                || block.bytes() == bytes_of(round).as_slice()
        }
        _ => false,
    }
}

/// Heeds a note, reads the other's key, sets the own one to the round, and gives a note.
///
/// Returns whether the read kept the note, and the set was stored.
fn take<R: Wait, K: KeyHash + Drop>(
    rt: &R,
    shared: &Shared<K>,
    alloc: Global,
    place: (Caller, Note),
    turn: Turn,
) -> ((Caller, Note), bool)
    requires { (place.0.table ≡ shared.now.table) × (place.1.table ≡ shared.now.table) }
    ensures { (result.0.0.table ≡ shared.now.table) × (result.0.1.table ≡ shared.now.table) }
{
    let (mut caller, note) = place;
    let Turn { side, round } = turn;
    shared.heed(&mut caller, note);
    let now = Moment::from_seconds_at_most(1000);
    let read = step_of(other_key(side), Ask::Get);
    let is_kept = keeps_the_note(round, &stepped(rt, shared, alloc, &mut caller, &read, now));
    let bytes = bytes_of(round);
    let set = step_of(own_key(side), Ask::Store(Verb::Set, 0, &bytes));
    let stored = stepped(rt, shared, alloc, &mut caller, &set, now);
    let note = shared.note(&mut caller);
    (
        (caller, note),
        is_kept && matches!(stored, Ok(Reply::Stored)),
    )
}

/// Lets both callers take their turns of a round, each in a thread of its own.
///
/// The note that each gave goes to the other.
fn both<R: Threads + Wait + Sync, K: KeyHash + Drop + Sync>(
    rt: &R,
    shared: &Shared<K>,
    alloc: Global,
    mine: (Caller, Note),
    theirs: (Caller, Note),
    round: u16,
) -> ((Caller, Note), (Caller, Note), bool)
    requires mine { (mine.0.table ≡ shared.now.table) × (mine.1.table ≡ shared.now.table) }
    requires theirs { (theirs.0.table ≡ shared.now.table) × (theirs.1.table ≡ shared.now.table) }
    ensures mine { (result.0.0.table ≡ shared.now.table) × (result.0.1.table ≡ shared.now.table) }
    ensures theirs { (result.1.0.table ≡ shared.now.table)
        × (result.1.1.table ≡ shared.now.table) }
{
    let (me, to_me) = mine;
    let (other, to_other) = theirs;
    let turns = (
        Turn {
            side: Side::A,
            round,
        },
        Turn {
            side: Side::B,
            round,
        },
    );
    let (a, b) = thread::join(
        rt,
        || -> ((Caller, Note), bool)
            requires { (me.table ≡ shared.now.table) × (to_me.table ≡ shared.now.table) }
            ensures { (result.0.0.table ≡ shared.entry.now.table)
                × (result.0.1.table ≡ shared.entry.now.table) }
        { take(rt, shared, alloc, (me, to_me), turns.0) },
        || -> ((Caller, Note), bool)
            requires { (other.table ≡ shared.now.table) × (to_other.table ≡ shared.now.table) }
            ensures { (result.0.0.table ≡ shared.entry.now.table)
                × (result.0.1.table ≡ shared.entry.now.table) }
        { take(rt, shared, alloc, (other, to_other), turns.1) },
    );
    let ((me, from_a), a_is_right) = a;
    let ((other, from_b), b_is_right) = b;
    ((me, from_b), (other, from_a), a_is_right && b_is_right)
}

/// Returns how many rounds of two callers, each with a note of the other's, were right.
fn right_of<R: Threads + Wait + Sync, K: KeyHash + Drop + Sync>(
    rt: &R,
    shared: &Shared<K>,
    alloc: Global,
    mine: (Caller, Note),
    theirs: (Caller, Note),
) -> u16
    requires mine { (mine.0.table ≡ shared.now.table) × (mine.1.table ≡ shared.now.table) }
    requires theirs { (theirs.0.table ≡ shared.now.table) × (theirs.1.table ≡ shared.now.table) }
{
    let mut mine = mine;
    let mut theirs = theirs;
    let mut right = 0u16;
    for round in 1..=ROUNDS {
        let (a, b, is_right) = both(rt, shared, alloc, mine, theirs, round);
        mine = a;
        theirs = b;
        if is_right {
            right = right.wrapping_add(1);
        }
    }
    right
}

/// Returns how many rounds of two callers in an empty store were right.
fn right_rounds<R: Threads + Wait + Sync>(rt: &R, alloc: Global) -> Result<u16, AllocError> {
    let (shared, me) = empty_store(alloc, SOME, Fnv)?;
    let mut me = me;
    let mut other = shared.caller(&mut me);
    let to_other = shared.note(&mut me);
    let to_me = shared.note(&mut other);
    Ok(right_of(rt, &shared, alloc, (me, to_me), (other, to_other)))
}

/// Two threads pass notes beside requests: each read keeps the note that its caller heeded.
#[test]
fn each_read_keeps_the_note_that_was_heeded(rt: HostRuntime) -> Result<(), Fail> {
    assert_eq!(rt; right_rounds(&rt, rt.alloc())?, ROUNDS);
    Ok(())
}
