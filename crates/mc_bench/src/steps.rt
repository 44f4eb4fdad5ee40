//! Steps in threads.
ghost use Rattle.std.specs.Prelude.{◌≡◌, ◌≤◌, length};
ghost use Rattle.mc_protocol.specs.Commands.{key_of, longest_key};

use crate::asked::{Crew, Mix, Over, Threaded};
use mc_hop::Fnv;
use mc_protocol::{Bytes, KeyStep, Reply, StepFault, Steps, Verb};
use mc_shared::{Asking, Caller, NoGate, Shared};
use mc_shelf::{Settings, Store};
use mc_testing::Dice;
use mc_time::Moment;
use std::alloc::{AllocError, Global};
use std::sync::Wait;
use std::thread;
use std::thread::Threads;

/// The number of keys to draw from.
const DRAWN: u64 = 4096;

/// The work of a thread, and its number.
#[derive(Clone, Copy)]
struct Load {
    over: Over,
    mix: Mix,
    rounds: u64,
    number: u8,
}

/// Takes the steps, and returns how many had the expected reply.
pub fn count_answered<R: Threads + Wait + Sync>(
    rt: &R,
    alloc: Global,
    threaded: Threaded,
) -> Result<u64, AllocError> {
    let Threaded {
        over,
        mix,
        crew,
        rounds,
        settings,
    } = threaded;
    let load = Load {
        over,
        mix,
        rounds,
        number: 0,
    };
    let mut store = fill_store(alloc, over, settings)?;
    match over {
        Over::Store => Ok(work(&mut store, alloc, load)),
        _ => {
            let (shared, me) = Shared::over(alloc, store)?;
            Ok(shared_by(rt, alloc, &shared, me, crew, load))
        }
    }
}

/// Returns a store with these settings, and with the keys of all threads.
fn fill_store(alloc: Global, over: Over, settings: Settings) -> Result<Store<Fnv>, AllocError> {
    let mut store = Store::new(alloc, settings, Fnv)?;
    for thread in 0..4 {
        set_key(&mut store, alloc, Over::Own, thread);
        set_key(&mut store, alloc, Over::Side, thread);
    }
    if let Over::Drawn = over {
        for number in 0..DRAWN {
            set_drawn(&mut store, alloc, number);
        }
    }
    Ok(store)
}

/// Sets the key of a number, one of those that are drawn.
fn set_drawn(store: &mut Store<Fnv>, alloc: Global, number: u64) {
    let key = number.to_be_bytes();
    let now = Moment::from_seconds_at_most(1000);
    let _ = store.step(alloc, &set_of(&key, &[b'x'; 100]), now);
}

/// Sets the key of the thread of this number.
fn set_key(store: &mut Store<Fnv>, alloc: Global, over: Over, thread: u8) {
    let load = Load {
        over,
        mix: Mix::Sets,
        rounds: 1,
        number: thread,
    };
    let _ = work(store, alloc, load);
}

/// Runs this many threads.
fn shared_by<R: Threads + Wait + Sync>(
    rt: &R,
    alloc: Global,
    shared: &Shared<Fnv>,
    me: Caller,
    crew: Crew,
    load: Load,
) -> u64
    requires { me.table ≡ shared.now.table }
{
    let mut me = me;
    match crew {
        Crew::One => asks(rt, alloc, shared, me, load),
        Crew::Two => {
            let second = shared.caller(&mut me);
            pair(rt, alloc, shared, me, second, load)
        }
        Crew::Four => {
            let second = shared.caller(&mut me);
            let third = shared.caller(&mut me);
            let fourth = shared.caller(&mut me);
            let others = Load { number: 2, ..load };
            let (one, other) = thread::join(
                rt,
                || -> u64
                    requires { (me.table ≡ shared.now.table) × (second.table ≡ shared.now.table) }
                { pair(rt, alloc, shared, me, second, load) },
                || -> u64
                    requires { (third.table ≡ shared.now.table) × (fourth.table ≡ shared.now.table) }
                { pair(rt, alloc, shared, third, fourth, others) },
            );
            one.saturating_add(other)
        }
    }
}

/// Runs two threads. The first has the number of the load, and the other the next.
fn pair<R: Threads + Wait + Sync>(
    rt: &R,
    alloc: Global,
    shared: &Shared<Fnv>,
    first: Caller,
    second: Caller,
    load: Load,
) -> u64
    requires first { first.table ≡ shared.now.table }
    requires second { second.table ≡ shared.now.table }
{
    let next = Load {
        number: load.number | 1,
        ..load
    };
    let (one, other) = thread::join(
        rt,
        || -> u64
            requires { first.table ≡ shared.now.table }
        { asks(rt, alloc, shared, first, load) },
        || -> u64
            requires { second.table ≡ shared.now.table }
        { asks(rt, alloc, shared, second, next) },
    );
    one.saturating_add(other)
}

/// Takes one thread's steps on the shared store.
fn asks<R: Wait>(rt: &R, alloc: Global, shared: &Shared<Fnv>, caller: Caller, load: Load) -> u64
    requires { caller.table ≡ shared.now.table }
{
    let mut asking = Asking::new(rt, shared, caller, &NoGate);
    work(&mut asking, alloc, load)
}

/// What one step does: to a key that is there, or to a fresh one, which is no thread's key.
#[derive(Clone, Copy)]
enum Act {
    Get,
    Set,
    GetFresh,
    SetFresh,
    DeleteFresh,
}

/// Takes the steps of a thread, and returns how many had the expected reply.
fn work<S: Steps>(store: &mut S, alloc: Global, load: Load) -> u64 {
    match load.over {
        Over::Drawn => work_with_drawn(store, alloc, load),
        _ => work_with_own(store, alloc, load),
    }
}

/// The same, each step on a random key.
fn work_with_drawn<S: Steps>(store: &mut S, alloc: Global, load: Load) -> u64 {
    let now = Moment::from_seconds_at_most(1000);
    let block = [b'x'; 100];
    let fresh = fresh_key(load.over, load.number);
    let mut dice = Dice::new(u64::from(load.number) + 1);
    let mut answered: u64 = 0;
    for round in 0..load.rounds {
        let act = act_of(load.mix, round);
        let key = dice.roll(DRAWN).to_be_bytes();
        let step = step_of(act, &key, fresh, &block);
        let taken = store.step(alloc, &step, now);
        answered = answered.saturating_add(u64::from(is_expected(act, &taken)));
    }
    answered
}

/// The same, each step on the thread's own key.
fn work_with_own<S: Steps>(store: &mut S, alloc: Global, load: Load) -> u64 {
    let now = Moment::from_seconds_at_most(1000);
    let block = [b'x'; 100];
    let key = key_of(load.over, load.number);
    let fresh = fresh_key(load.over, load.number);
    let mut answered: u64 = 0;
    for round in 0..load.rounds {
        let act = act_of(load.mix, round);
        let step = step_of(act, key, fresh, &block);
        let taken = store.step(alloc, &step, now);
        answered = answered.saturating_add(u64::from(is_expected(act, &taken)));
    }
    answered
}

/// Returns the key of the thread of this number.
///
/// Keys of different threads are on different shelves: `a` on shelf 12, `b`, `k` and `z` far from
/// it and from each other, `Z`, `_` and `P` on 13, 14 and 15.
fn key_of(over: Over, number: u8) -> &'static [u8]
    ensures { length result.now ≤ longest_key }
{
    match (over, number) {
        (Over::Own, 1) => b"b",
        (Over::Own, 2) => b"k",
        (Over::Own, 3) => b"z",
        (Over::Side, 1) => b"Z",
        (Over::Side, 2) => b"_",
        (Over::Side, 3) => b"P",
        _ => b"a",
    }
}

/// Returns a key that isn't there when the steps begin: one for each thread on a shelf of its own,
/// or one for all.
fn fresh_key(over: Over, number: u8) -> &'static [u8]
    ensures { length result.now ≤ longest_key }
{
    match (over, number) {
        (Over::Same, _) => b"c",
        (_, 1) => b"d",
        (_, 2) => b"e",
        (_, 3) => b"f",
        _ => b"c",
    }
}

/// Returns what the step of this round does.
fn act_of(mix: Mix, round: u64) -> Act {
    match mix {
        Mix::Gets => Act::Get,
        Mix::Sets => Act::Set,
        Mix::Mixed if round % 10 == 9 => Act::Set,
        Mix::Mixed => Act::Get,
        Mix::Misses => Act::GetFresh,
        Mix::Renewals if round % 2 == 1 => Act::DeleteFresh,
        Mix::Renewals => Act::SetFresh,
    }
}

/// Returns the step that does so; a set stores this block.
fn step_of<'a>(act: Act, key: &'a [u8], fresh: &'a [u8], block: &'a [u8]) -> KeyStep<'a>
    requires { (length key.now ≤ longest_key) × (length fresh.now ≤ longest_key) }
    ensures { length (key_of result) ≤ longest_key }
{
    match act {
        Act::Get => KeyStep::Read {
            key: Bytes::of(key),
        },
        Act::GetFresh => KeyStep::Read {
            key: Bytes::of(fresh),
        },
        Act::Set => set_of(key, block),
        Act::SetFresh => set_of(fresh, block),
        Act::DeleteFresh => KeyStep::Delete {
            key: Bytes::of(fresh),
        },
    }
}

/// Returns a set of the key to this block.
fn set_of<'a>(key: &'a [u8], block: &'a [u8]) -> KeyStep<'a>
    requires { length key.now ≤ longest_key }
    ensures { length (key_of result) ≤ longest_key }
{
    KeyStep::Store {
        verb: Verb::Set,
        key: Bytes::of(key),
        flags: 0,
        exptime: 0,
        block: Bytes::of(block),
    }
}

/// Returns whether the reply is expected: stored, a hit, a miss of a fresh key, or deleted.
fn is_expected(act: Act, taken: &Result<Reply, StepFault>) -> bool {
    match taken {
        Ok(Reply::Stored) => matches!(act, Act::Set | Act::SetFresh),
        Ok(Reply::Hit { .. }) => matches!(act, Act::Get),
        Ok(Reply::Miss) => matches!(act, Act::GetFresh),
        Ok(Reply::Deleted) => matches!(act, Act::DeleteFresh),
        _ => false,
    }
}
