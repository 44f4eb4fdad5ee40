//! Growth of a shelf's table by one caller. If memory is refused the call is made again.

ghost use Rattle.std.specs.Prelude.{◌≡◌, IfOk};

use crate::stores::{SOME, stepped};
use mc_hop::Constant;
use mc_protocol::Verb;
use mc_shared::{Caller, Shared};
use mc_shelf::Store;
use mc_testing::{Ask, ask_step, step_of, told_of};
use mc_time::Moment;
use std::alloc::{AllocError, Global};
use std::sync::Wait;
use std::test::*;

/// Returns a store with one hash for all keys, and `k01` to `k40`; its one table grew after each.
fn grown_store(alloc: Global) -> Result<Store<Constant>, AllocError> {
    let mut store = Store::new(alloc, SOME, Constant(0))?;
    let now = Moment::from_seconds_at_most(1000);
    for number in 1..41u8 {
        let digits = [
            b'k',
            (number / 10).wrapping_add(48),
            (number % 10).wrapping_add(48),
        ];
        let set = step_of(&digits, Ask::Store(Verb::Set, 0, &digits));
        let _ = ask_step(&mut store, alloc, &set, now);
        let _ = store.grow(0, 8);
    }
    Ok(store)
}

/// Returns a shared store over one that grew, and its first caller.
fn grown_shared(alloc: Global) -> Result<(Shared<Constant>, Caller), AllocError>
    ensures { IfOk result (λ made. made.1.table ≡ made.0.table) }
{
    let store = match grown_store(alloc) {
        Err(_) => grown_store(alloc)?,
        Ok(store) => store,
    };
    match Shared::over(alloc, store) {
        Err(_) => Shared::over(alloc, grown_store(alloc)?),
        made => made,
    }
}

/// Grows the first shelf by 8 entries twice, and returns how many were moved each time.
fn moved_twice<R: Wait>(rt: &R, alloc: Global) -> Result<(usize, usize), AllocError> {
    let (shared, mut me) = grown_shared(alloc)?;
    let first = shared.grow(rt, &mut me, 0, 8);
    Ok((first, shared.grow(rt, &mut me, 0, 8)))
}

#[test]
fn growth_moves_what_is_left(rt: HostRuntime) -> Result<(), Fail> {
    assert_eq!(rt; moved_twice(&rt, rt.alloc())?, (8, 0));
    Ok(())
}

/// Reads `k01`, and returns the name of the reply.
fn read_first<R: Wait>(
    rt: &R,
    shared: &Shared<Constant>,
    alloc: Global,
    me: &mut Caller,
) -> &'static str
    requires { me.old.table ≡ shared.now.table }
    ensures { me.new.table ≡ me.old.table }
{
    let read = step_of(b"k01", Ask::Get);
    let now = Moment::from_seconds_at_most(1000);
    told_of(&stepped(rt, shared, alloc, me, &read, now))
}

/// Grows after a step by 8 entries: before a first step, behind one, and again.
///
/// Returns how many were moved each time, and the name of the step's reply.
fn moved_after<R: Wait>(
    rt: &R,
    shared: &Shared<Constant>,
    alloc: Global,
    me: &mut Caller,
) -> ([usize; 3], &'static str)
    requires { me.old.table ≡ shared.now.table }
{
    let before = shared.grow_after(rt, me, 8);
    let told = read_first(rt, shared, alloc, me);
    let behind = shared.grow_after(rt, me, 8);
    let again = shared.grow_after(rt, me, 8);
    ([before, behind, again], told)
}

/// Returns the same for a new store.
fn seen_of_growth<R: Wait>(
    rt: &R,
    alloc: Global,
) -> Result<([usize; 3], &'static str), AllocError> {
    let (shared, mut me) = grown_shared(alloc)?;
    Ok(moved_after(rt, &shared, alloc, &mut me))
}

/// Growth after a step moves entries of the step's shelf, once.
#[test]
fn growth_after_a_step_moves_what_is_left(rt: HostRuntime) -> Result<(), Fail> {
    assert_eq!(rt; seen_of_growth(&rt, rt.alloc())?, ([0, 8, 0], "hit"));
    Ok(())
}
