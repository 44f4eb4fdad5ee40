//! The plain store with used-up unique numbers: it replies at once, even if memory would be
//! refused.
//!
//! The rest of its replies is in `rows_tests`, by rows for any store.

ghost use Rattle.std.specs.Prelude.{◌≤◌, length};
ghost use Rattle.mc_protocol.specs.Commands.{key_of};

use crate::checks::are_bytes;
use mc_command::PlainStore;
use mc_protocol::{Bytes, KeyStep, Reply, StepFault, Steps, Verb};
use mc_testing::told_of;
use mc_time::Moment;
use std::alloc::Global;
use std::process::Abort;
use std::test::Fail;

/// Returns a storage command's step on `n`.
fn storing<'a>(verb: Verb, block: &'a [u8]) -> KeyStep<'a>
    ensures { length (key_of result) ≤ 250 }
{
    KeyStep::Store {
        verb,
        key: Bytes::of(b"n"),
        flags: 0,
        exptime: 0,
        block: Bytes::of(block),
    }
}

/// Takes a step at second 1000.
fn asked(store: &mut PlainStore, alloc: Global, step: KeyStep<'_>) -> Result<Reply, StepFault>
    requires { length (key_of step) ≤ 250 }
{
    store.step(alloc, &step, Moment::from_seconds_at_most(1000))
}

/// Sets `n` to a number, and once more if memory is refused.
fn set_number(store: &mut PlainStore, alloc: Global) -> Result<(), StepFault> {
    if asked(store, alloc, storing(Verb::Set, b"9")).is_err() {
        let _ = asked(store, alloc, storing(Verb::Set, b"9"))?;
    }
    Ok(())
}

/// Returns a store with greatest charge 100, and a number under `n` with the last unique number.
fn spent(alloc: Global) -> Result<PlainStore, Fail> {
    let mut store = PlainStore::starting(alloc, 64, 100, u64::MAX - 1)?;
    set_number(&mut store, alloc)?;
    Ok(store)
}

/// Returns a cas on `n` with a unique number.
fn comparing<'a>(unique: u64) -> KeyStep<'a>
    ensures { length (key_of result) ≤ 250 }
{
    KeyStep::Cas {
        key: Bytes::of(b"n"),
        flags: 0,
        exptime: 0,
        block: Bytes::of(b"x"),
        unique,
    }
}

/// Takes a step, and returns the name of its result.
fn told(store: &mut PlainStore, alloc: Global, step: KeyStep<'_>) -> &'static str
    requires { length (key_of step) ≤ 250 }
{
    told_of(&asked(store, alloc, step))
}

/// Checks the name of a step's result.
fn is_told(rt: &impl Abort, store: &mut PlainStore, alloc: Global, step: KeyStep<'_>, want: &str)
    requires { length (key_of step) ≤ 250 }
{
    let told = told(store, alloc, step);
    are_bytes(rt, told.as_bytes(), want.as_bytes());
}

/// Checks writes that each draw a number, in a store whose numbers are spent.
fn writes_are_told(rt: &impl Abort, store: &mut PlainStore, alloc: Global) {
    let spent = "numbers spent";
    is_told(rt, store, alloc, storing(Verb::Set, b"x"), spent);
    is_told(rt, store, alloc, storing(Verb::Append, b"1"), spent);
    is_told(rt, store, alloc, comparing(u64::MAX - 1), spent);
    let key = Bytes::of(b"n");
    is_told(
        rt,
        store,
        alloc,
        KeyStep::Count {
            key,
            up: true,
            by: 1,
        },
        spent,
    );
}

#[test]
fn each_write_is_told_of_spent_numbers(rt: HostRuntime) -> Result<(), Fail> {
    let mut store = spent(rt.alloc())?;
    writes_are_told(&rt, &mut store, rt.alloc());
    Ok(())
}

/// Checks steps that draw no number, in the same store.
fn others_are_told(rt: &impl Abort, store: &mut PlainStore, alloc: Global) {
    is_told(rt, store, alloc, storing(Verb::Add, b"x"), "not stored");
    is_told(
        rt,
        store,
        alloc,
        storing(Verb::Set, &[b'x'; 100]),
        "too large",
    );
    let key = Bytes::of(b"n");
    is_told(
        rt,
        store,
        alloc,
        KeyStep::Touch { key, exptime: 0 },
        "touched",
    );
}

#[test]
fn what_draws_no_number_is_answered_as_before(rt: HostRuntime) -> Result<(), Fail> {
    let mut store = spent(rt.alloc())?;
    others_are_told(&rt, &mut store, rt.alloc());
    Ok(())
}
