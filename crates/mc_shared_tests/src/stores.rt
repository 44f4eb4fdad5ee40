//! Stores for tests, and steps and closings that are repeated if memory is refused.

ghost use Rattle.std.specs.Prelude.{◌≡◌, ◌≤◌, IfOk, length};
ghost use Rattle.mc_protocol.specs.Commands.{key_of};

use mc_hop::{Fnv, KeyHash};
use mc_protocol::{KeyStep, Reply, StepFault, Verb};
use mc_shared::{Caller, CloseFault, Shared};
use mc_shelf::{Settings, Store};
use mc_testing::{Ask, ask_step, step_of};
use mc_time::Moment;
use std::alloc::{AllocError, Global};
use std::sync::Wait;

/// Settings of stores with one shelf, 64 and 256.
pub(crate) const ONE: Settings = Settings {
    pages: 64,
    greatest: Settings::GREATEST,
    shelves: 1,
};

pub(crate) const SOME: Settings = Settings {
    pages: 64,
    greatest: Settings::GREATEST,
    shelves: 64,
};

pub(crate) const MANY: Settings = Settings {
    pages: 64,
    greatest: Settings::GREATEST,
    shelves: 256,
};

/// Settings of a store with items of several pages.
pub(crate) const LARGE: Settings = Settings {
    pages: 8,
    greatest: Settings::MOST_GREATEST,
    shelves: 1,
};

/// Sets `a` and `k` at 1000 to `x` and `y`.
fn fill(alloc: Global, store: &mut Store<Fnv>) -> Result<(), StepFault> {
    let now = Moment::from_seconds_at_most(1000);
    let set_a = step_of(b"a", Ask::Store(Verb::Set, 0, b"x"));
    let _ = ask_step(store, alloc, &set_a, now)?;
    let set_k = step_of(b"k", Ask::Store(Verb::Set, 0, b"y"));
    let _ = ask_step(store, alloc, &set_k, now)?;
    Ok(())
}

/// Returns an empty store with these settings.
fn unfilled_store(alloc: Global, settings: Settings) -> Result<Store<Fnv>, AllocError> {
    match Store::new(alloc, settings, Fnv) {
        Err(_) => Store::new(alloc, settings, Fnv),
        made => made,
    }
}

/// Returns a store with these settings, and with `a` and `k`, set at 1000 to `x` and `y`.
fn filled_store(alloc: Global, settings: Settings) -> Result<Store<Fnv>, StepFault> {
    let mut store = unfilled_store(alloc, settings)?;
    fill(alloc, &mut store)?;
    Ok(store)
}

/// Returns an empty store whose next unique number is the last.
pub(crate) fn last_store(alloc: Global) -> Result<Store<Fnv>, AllocError> {
    match Store::starting(alloc, SOME, Fnv, 18446744073709551614) {
        Err(_) => Store::starting(alloc, SOME, Fnv, 18446744073709551614),
        made => made,
    }
}

/// Returns a shared store over one with these settings, and its first caller.
pub(crate) fn shared_store(
    alloc: Global,
    settings: Settings,
) -> Result<(Shared<Fnv>, Caller), StepFault>
    ensures { IfOk result (λ made. made.1.table ≡ made.0.table) }
{
    match Shared::over(alloc, filled_store(alloc, settings)?) {
        Err(_) => Ok(Shared::over(alloc, filled_store(alloc, settings)?)?),
        Ok(made) => Ok(made),
    }
}

/// Returns an empty shared store with these settings, and its first caller.
pub(crate) fn empty_store<K: KeyHash + Drop + Copy>(
    alloc: Global,
    settings: Settings,
    hasher: K,
) -> Result<(Shared<K>, Caller), AllocError>
    ensures { IfOk result (λ made. made.1.table ≡ made.0.table) }
{
    match Shared::new(alloc, settings, hasher) {
        Err(_) => Shared::new(alloc, settings, hasher),
        made => made,
    }
}

/// Takes a step, once more if memory is refused.
pub(crate) fn stepped<R: Wait, K: KeyHash + Drop>(
    rt: &R,
    shared: &Shared<K>,
    alloc: Global,
    caller: &mut Caller,
    step: &KeyStep<'_>,
    now: Moment,
) -> Result<Reply, StepFault>
    requires own { caller.old.table ≡ shared.now.table }
    requires key { length (key_of step.now) ≤ 250 }
    ensures { caller.new.table ≡ caller.old.table }
{
    match shared.step(rt, alloc, caller, step, now) {
        Err(StepFault::NoMemory) => shared.step(rt, alloc, caller, step, now),
        answer => answer,
    }
}

/// Closes a store, once more if memory is refused.
pub(crate) fn closed(shared: Shared<Fnv>, alloc: Global, caller: Caller) -> Option<Store<Fnv>>
    requires { caller.table ≡ shared.table }
{
    match shared.close(alloc, caller) {
        Ok(store) => Some(store),
        Err(CloseFault::Held { .. }) => None,
        Err(CloseFault::NoMemory(shared, caller)) => shared.close(alloc, caller).ok(),
    }
}
