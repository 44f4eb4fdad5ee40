//! Callers of one store in two threads. If memory is refused they make the call again.

ghost use Rattle.std.specs.Prelude.{◌≡◌, ◌≤◌, length};

use crate::stores::{SOME, closed, empty_store, shared_store, stepped};
use mc_hop::{Constant, Fnv, KeyHash};
use mc_protocol::{Reply, StepFault, Verb};
use mc_shared::{Caller, Shared};
use mc_shelf::{Settings, Store};
use mc_testing::{Ask, ask_step, filled_block, step_of, told_of};
use mc_time::Moment;
use std::alloc::{AllocError, Global};
use std::sync::Wait;
use std::test::*;
use std::thread;
use std::thread::Threads;

/// What a caller does in a thread of its own.
#[derive(Clone, Copy)]
enum Errand {
    /// Reads `a` and `k` in turn, 1000 times each.
    Reads,
    /// Sets this key to 600000 bytes.
    Sets(u8),
    /// Sets 150 keys, every second number from this one on, and deletes every third number's.
    Keys(u16),
}

/// The result.
#[derive(Clone, Copy, Debug, PartialEq, Eq)]
enum Came {
    Hits(u32),
    Stored,
    NoChunk,
    /// The number of keys stored, and of keys deleted.
    Keys(u32, u32),
    Other,
}

/// Reads `a` and `k` in turn, 1000 times each, and counts the hits.
fn reads<R: Wait, K: KeyHash + Drop>(
    rt: &R,
    shared: &Shared<K>,
    alloc: Global,
    caller: Caller,
) -> (Caller, u32)
    requires { caller.table ≡ shared.now.table }
    ensures { result.0.table ≡ shared.now.table }
{
    let mut caller = caller;
    let mut hits = 0u32;
    let now = Moment::from_seconds_at_most(1000);
    for turn in 0..2000u32 {
        let key: &[u8] = if turn % 2 == 0 { b"a" } else { b"k" };
        let read = step_of(key, Ask::Get);
        if told_of(&stepped(rt, shared, alloc, &mut caller, &read, now)) == "hit" {
            hits = hits.wrapping_add(1);
        }
    }
    (caller, hits)
}

/// Sets a key to 600000 bytes.
fn sets<R: Wait, K: KeyHash + Drop>(
    rt: &R,
    shared: &Shared<K>,
    alloc: Global,
    caller: &mut Caller,
    key: u8,
) -> Came
    requires { caller.old.table ≡ shared.now.table }
    ensures { caller.new.table ≡ caller.old.table }
{
    let Ok(block) = filled_block(alloc, 600000) else {
        return Came::Other;
    };
    let key = [key];
    let set = step_of(&key, Ask::Store(Verb::Set, 0, block.as_slice()));
    let now = Moment::from_seconds_at_most(1000);
    came_of(&stepped(rt, shared, alloc, caller, &set, now))
}

/// Returns the result of a set.
fn came_of(taken: &Result<Reply, StepFault>) -> Came {
    match taken {
        Ok(Reply::Stored) => Came::Stored,
        Ok(Reply::NoChunk) => Came::NoChunk,
        _ => Came::Other,
    }
}

/// What is done with each key.
#[derive(Clone, Copy)]
enum Doing {
    Set,
    Delete,
    Get,
}

/// Some numbers of keys: the first, the step and the count.
#[derive(Clone, Copy)]
struct Numbers {
    first: u16,
    apart: u16,
    count: u16,
}

/// Returns the three digits of a number below 1000.
fn digits_of(number: u16) -> [u8; 3] {
    [
        (number / 100 % 10) as u8 + b'0',
        (number / 10 % 10) as u8 + b'0',
        (number % 10) as u8 + b'0',
    ]
}

/// Returns whether a step on a number's key has the expected reply.
///
/// The key of each third number was deleted, and each other has its digits.
fn is_right(doing: Doing, number: u16, taken: &Result<Reply, StepFault>) -> bool {
    match (doing, taken) {
        (Doing::Set, Ok(Reply::Stored)) => true,
        (Doing::Delete, Ok(Reply::Deleted)) => true,
        (Doing::Get, Ok(Reply::Miss)) => number % 3 == 0,
        (Doing::Get, Ok(Reply::Hit { block, .. })) => {
            number % 3 != 0 && block.bytes() == digits_of(number).as_slice()
        }
        _ => false,
    }
}

/// Does this with a number's key, `k` and its digits. Returns whether the reply is as expected.
fn does<R: Wait, K: KeyHash + Drop>(
    rt: &R,
    shared: &Shared<K>,
    alloc: Global,
    caller: &mut Caller,
    doing: Doing,
    number: u16,
) -> bool
    requires { caller.old.table ≡ shared.now.table }
    ensures { caller.new.table ≡ caller.old.table }
{
    let digits = digits_of(number);
    let key = [b'k', digits[0], digits[1], digits[2]];
    let ask = match doing {
        Doing::Set => Ask::Store(Verb::Set, 0, &digits),
        Doing::Delete => Ask::Delete,
        Doing::Get => Ask::Get,
    };
    let step = step_of(&key, ask);
    let now = Moment::from_seconds_at_most(1000);
    let taken = stepped(rt, shared, alloc, caller, &step, now);
    let _ = shared.grow(rt, caller, shared.shelf_of(&key), 8);
    is_right(doing, number, &taken)
}

/// Does this with the keys of these numbers in order, with growth after each.
///
/// Returns how many had the expected reply.
fn done<R: Wait, K: KeyHash + Drop>(
    rt: &R,
    shared: &Shared<K>,
    alloc: Global,
    caller: Caller,
    doing: Doing,
    numbers: Numbers,
) -> (Caller, u32)
    requires { caller.table ≡ shared.now.table }
    ensures { result.0.table ≡ shared.now.table }
{
    let mut caller = caller;
    let mut right = 0u32;
    let mut number = numbers.first;
    for _turn in 0..numbers.count {
        if does(rt, shared, alloc, &mut caller, doing, number) {
            right = right.wrapping_add(1);
        }
        number = number.wrapping_add(numbers.apart);
    }
    (caller, right)
}

/// Sets 150 keys, every second number from this one on, and deletes every third number's.
fn keys<R: Wait, K: KeyHash + Drop>(
    rt: &R,
    shared: &Shared<K>,
    alloc: Global,
    caller: Caller,
    first: u16,
) -> (Caller, Came)
    requires { caller.table ≡ shared.now.table }
    ensures { result.0.table ≡ shared.now.table }
{
    let all = Numbers {
        first,
        apart: 2,
        count: 150,
    };
    let thirds = Numbers {
        first: first.wrapping_mul(3),
        apart: 6,
        count: 50,
    };
    let (caller, stored) = done(rt, shared, alloc, caller, Doing::Set, all);
    let (caller, deleted) = done(rt, shared, alloc, caller, Doing::Delete, thirds);
    (caller, Came::Keys(stored, deleted))
}

/// Runs a caller's errand.
fn goes<R: Wait, K: KeyHash + Drop>(
    rt: &R,
    shared: &Shared<K>,
    alloc: Global,
    caller: Caller,
    errand: Errand,
) -> (Caller, Came)
    requires { caller.table ≡ shared.now.table }
    ensures { result.0.table ≡ shared.now.table }
{
    match errand {
        Errand::Reads => {
            let (caller, hits) = reads(rt, shared, alloc, caller);
            (caller, Came::Hits(hits))
        }
        Errand::Sets(key) => {
            let mut caller = caller;
            let came = sets(rt, shared, alloc, &mut caller, key);
            (caller, came)
        }
        Errand::Keys(first) => keys(rt, shared, alloc, caller, first),
    }
}

/// Runs the errands of two callers, each in a thread of its own. Then the second joins the first.
fn both<R: Threads + Wait + Sync, K: KeyHash + Drop + Sync>(
    rt: &R,
    shared: &Shared<K>,
    alloc: Global,
    me: Caller,
    errands: (Errand, Errand),
) -> (Caller, (Came, Came))
    requires { me.table ≡ shared.now.table }
    ensures { result.0.table ≡ shared.now.table }
{
    let mut me = me;
    let other = shared.caller(&mut me);
    let (mine, theirs) = thread::join(
        rt,
        || -> (Caller, Came)
            requires { me.table ≡ shared.now.table }
            ensures { result.0.table ≡ shared.entry.now.table }
        { goes(rt, shared, alloc, me, errands.0) },
        || -> (Caller, Came)
            requires { other.table ≡ shared.now.table }
            ensures { result.0.table ≡ shared.entry.now.table }
        { goes(rt, shared, alloc, other, errands.1) },
    );
    let (me, first) = mine;
    let (mut other, second) = theirs;
    shared.join(&mut other, me);
    (other, (first, second))
}

/// Returns the results of two callers that read at once, each in a thread of its own.
fn came_of_reads<R: Threads + Wait + Sync>(
    rt: &R,
    alloc: Global,
) -> Result<(Came, Came), StepFault> {
    let (shared, me) = shared_store(alloc, SOME)?;
    let (_, came) = both(rt, &shared, alloc, me, (Errand::Reads, Errand::Reads));
    Ok(came)
}

#[test]
fn two_threads_read_at_once(rt: HostRuntime) -> Result<(), Fail> {
    assert_eq!(rt;
        came_of_reads(&rt, rt.alloc())?,
        (Came::Hits(2000), Came::Hits(2000))
    );
    Ok(())
}

/// Settings of a store with one page.
const SMALL: Settings = Settings {
    pages: 1,
    greatest: Settings::GREATEST,
    shelves: 64,
};

/// Returns the name of the reply to a read of a key at 1000.
fn told_of_read(store: &mut Store<Fnv>, alloc: Global, key: &[u8]) -> &'static str
    requires { length key.now ≤ 250 }
{
    let now = Moment::from_seconds_at_most(1000);
    told_of(&ask_step(store, alloc, &step_of(key, Ask::Get), now))
}

/// Returns whether a store has exactly the key whose set was stored, `b` or `c`.
fn has_the_stored(store: &mut Store<Fnv>, alloc: Global, came: (Came, Came)) -> bool {
    let held = (
        told_of_read(store, alloc, b"b"),
        told_of_read(store, alloc, b"c"),
    );
    match came {
        (Came::Stored, Came::NoChunk) => held == ("hit", "miss"),
        (Came::NoChunk, Came::Stored) => held == ("miss", "hit"),
        _ => false,
    }
}

/// Sets `b` and `c`, each in a thread of its own, in a store of one page.
///
/// Returns whether one is stored and the store has that alone; `None` if a bay is held.
fn one_is_stored<R: Threads + Wait + Sync>(
    rt: &R,
    alloc: Global,
) -> Result<Option<bool>, AllocError> {
    let (shared, me) = empty_store(alloc, SMALL, Fnv)?;
    let errands = (Errand::Sets(b'b'), Errand::Sets(b'c'));
    let (me, came) = both(rt, &shared, alloc, me, errands);
    let mut store = closed(shared, alloc, me);
    match &mut store {
        Some(store) => Ok(Some(has_the_stored(store, alloc, came))),
        None => Ok(None),
    }
}

#[test]
fn one_of_two_sets_gets_the_one_page(rt: HostRuntime) -> Result<(), Fail> {
    assert_eq!(rt; one_is_stored(&rt, rt.alloc())?, Some(true));
    Ok(())
}

/// Two callers set and delete keys of one hash, each in a thread of its own.
///
/// Once they are joined, one caller reads the keys. Returns the results, and how many it read
/// right.
fn came_of_keys<R: Threads + Wait + Sync>(
    rt: &R,
    alloc: Global,
) -> Result<((Came, Came), u32), AllocError> {
    let (shared, me) = empty_store(alloc, SOME, Constant(0))?;
    let errands = (Errand::Keys(1), Errand::Keys(2));
    let (other, came) = both(rt, &shared, alloc, me, errands);
    let all = Numbers {
        first: 1,
        apart: 1,
        count: 300,
    };
    let (_, right) = done(rt, &shared, alloc, other, Doing::Get, all);
    Ok((came, right))
}

/// Two threads set the keys `k001` to `k300`, which have one hash, and delete each third.
#[test]
fn two_threads_use_three_hundred_keys_of_one_hash(rt: HostRuntime) -> Result<(), Fail> {
    let (came, right) = came_of_keys(&rt, rt.alloc())?;
    assert_eq!(rt; came, (Came::Keys(150, 50), Came::Keys(150, 50)));
    assert_eq!(rt; right, 300);
    Ok(())
}
