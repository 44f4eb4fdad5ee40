//! How often a gate is called: once while a step's shelf is held, and never by other calls.

use crate::sole::Sole;
use crate::stores::{SOME, shared_store};
use mc_hop::Fnv;
use mc_protocol::{Answer, Bytes, Reply, StepFault, Steps, Verb};
use mc_shared::{Asking, Gate};
use mc_testing::{Ask, step_of};
use mc_time::Moment;
use std::alloc::{AllocError, Global};
use std::sync::Wait;
use std::sync::atomic::{AtomicU64, Ordering};
use std::test::*;

/// Counts its calls.
#[derive(Drop)]
struct CallCount<'a> {
    calls: &'a AtomicU64,
}

impl<'a> Gate for CallCount<'a> {
    fn inside(&self, _shelf: u32) {
        self.calls.fetch_add(1, Ordering::SeqCst);
    }
}

/// Accepts each reply.
#[derive(Drop)]
struct Listener;

impl Answer for Listener {
    ghost told = { λ old reply new. Unit {0} };

    fn hit(&mut self, _flags: u32, _unique: u64, _parts: &[Bytes<'_>]) -> Result<(), AllocError> {
        Ok(())
    }

    fn reply(&mut self, _reply: &Reply) -> Result<(), AllocError> {
        Ok(())
    }
}

/// Returns how often the gate is called in a step at a second, taken or refused memory.
fn calls_of_step<R: Wait>(
    sole: &mut Sole<'_, R, Fnv>,
    alloc: Global,
    (second, key, ask): (u64, &[u8], Ask<'_>),
) -> u64 {
    if key.len() > 250 {
        return u64::MAX;
    }
    let calls = AtomicU64::new(0);
    let gate = CallCount { calls: &calls };
    let now = Moment::from_seconds_at_most(second);
    let Sole { rt, shared, caller } = sole;
    let _ = shared.step_at(*rt, alloc, caller, &step_of(key, ask), now, &gate);
    calls.load(Ordering::SeqCst)
}

/// A step: its second, its key and the rest.
type Step = (u64, &'static [u8], Ask<'static>);

/// Steps in each of which a gate is called once.
///
/// The key `a` has an item that dies at second 1010. The key `new` has none.
static STEPS: [(Step, u64); 7] = [
    ((1000, b"a", Ask::Gat(10)), 1),
    ((1000, b"a", Ask::Get), 1),
    ((1000, b"new", Ask::Store(Verb::Set, 0, b"x")), 1),
    ((1000, b"new", Ask::Store(Verb::Append, 0, b"y")), 1),
    ((1000, b"new", Ask::Store(Verb::Add, 0, b"z")), 1),
    ((1010, b"a", Ask::Get), 1),
    ((1010, b"a", Ask::Delete), 1),
];

/// Steps on a key that is absent, and how often a caller's gate is called in each.
///
/// A plain read asks first whether the key is absent, and takes no shelf then. No other step asks.
static ABSENT: [(Step, u64); 5] = [
    ((1010, b"none", Ask::Get), 0),
    ((1010, b"none", Ask::Gat(10)), 1),
    ((1010, b"none", Ask::Touch(10)), 1),
    ((1010, b"none", Ask::Delete), 1),
    ((1010, b"none", Ask::Get), 0),
];

/// Returns the place of the first of `STEPS` in which the gate isn't called as often as it says.
fn first_miscalled<R: Wait>(sole: &mut Sole<'_, R, Fnv>, alloc: Global) -> Option<usize> {
    for (at, (step, times)) in STEPS.iter().enumerate() {
        if calls_of_step(sole, alloc, *step) != *times {
            return Some(at);
        }
    }
    None
}

#[test]
fn a_gate_is_called_once_a_step(rt: HostRuntime) -> Result<(), Fail> {
    let mut sole = Sole::filled(&rt, rt.alloc())?;
    let first = first_miscalled(&mut sole, rt.alloc());
    let of_flush = calls_of_step(&mut sole, rt.alloc(), (1010, b"", Ask::Flush(0)));
    assert_eq!(rt; (first, of_flush), (None, 0));
    Ok(())
}

/// How a caller takes a step: it delivers the reply, or returns it.
#[derive(Clone, Copy)]
enum Way {
    Telling,
    Asking,
}

/// Returns how often a caller's gate is called in a step that is taken this way.
fn calls_of<R: Wait>(
    asking: &mut Asking<'_, R, Fnv, CallCount<'_>>,
    alloc: Global,
    calls: &AtomicU64,
    way: Way,
    (second, key, ask): Step,
) -> u64 {
    if key.len() > 250 {
        return u64::MAX;
    }
    calls.store(0, Ordering::SeqCst);
    let step = step_of(key, ask);
    let now = Moment::from_seconds_at_most(second);
    match way {
        Way::Telling => {
            let _ = asking.step_telling(alloc, &step, now, &mut Listener);
        }
        Way::Asking => {
            let _ = asking.step(alloc, &step, now);
        }
    }
    calls.load(Ordering::SeqCst)
}

/// Returns the place of the first step in which the gate isn't called as often as it says.
fn first_unlike<R: Wait>(
    asking: &mut Asking<'_, R, Fnv, CallCount<'_>>,
    alloc: Global,
    calls: &AtomicU64,
    way: Way,
    steps: &[(Step, u64)],
) -> Option<usize> {
    for (at, (step, times)) in steps.iter().enumerate() {
        if calls_of(asking, alloc, calls, way, *step) != *times {
            return Some(at);
        }
    }
    None
}

/// Returns the first such step of `STEPS`, and of `ABSENT` after them.
fn firsts_unlike<R: Wait>(
    asking: &mut Asking<'_, R, Fnv, CallCount<'_>>,
    alloc: Global,
    calls: &AtomicU64,
    way: Way,
) -> [Option<usize>; 2] {
    [
        first_unlike(asking, alloc, calls, way, &STEPS),
        first_unlike(asking, alloc, calls, way, &ABSENT),
    ]
}

/// Returns both for a new caller of a store that has `a` and `k`.
fn seen_of<R: Wait>(rt: &R, alloc: Global, way: Way) -> Result<[Option<usize>; 2], StepFault> {
    let calls = AtomicU64::new(0);
    let gate = CallCount { calls: &calls };
    let (shared, caller) = shared_store(alloc, SOME)?;
    let mut asking = Asking::new(rt, &shared, caller, &gate);
    Ok(firsts_unlike(&mut asking, alloc, &calls, way))
}

#[test]
fn a_gate_is_called_once_a_telling(rt: HostRuntime) -> Result<(), Fail> {
    assert_eq!(rt; seen_of(&rt, rt.alloc(), Way::Telling)?, [None, None]);
    Ok(())
}

#[test]
fn a_gate_is_called_once_an_asking(rt: HostRuntime) -> Result<(), Fail> {
    assert_eq!(rt; seen_of(&rt, rt.alloc(), Way::Asking)?, [None, None]);
    Ok(())
}
