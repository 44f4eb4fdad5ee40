//! Stores that are closed. If memory is refused the calls are made again.

ghost use Rattle.std.specs.Prelude.{◌≡◌};

use crate::stores::{SOME, closed, shared_store, stepped};
use mc_hop::Fnv;
use mc_protocol::Verb;
use mc_shared::{Caller, Shared};
use mc_shelf::Store;
use mc_testing::{Ask, Row, Want, first_unlike, step_of, told_of};
use mc_time::Moment;
use std::alloc::Global;
use std::sync::Wait;
use std::test::*;

/// Sets `a` to `z` by a caller that this one makes, and that is dropped then.
///
/// Returns the name of the reply.
fn set_by_one_that_goes<R: Wait>(
    rt: &R,
    alloc: Global,
    shared: &Shared<Fnv>,
    me: &mut Caller,
) -> &'static str
    requires { me.old.table ≡ shared.now.table }
    ensures { me.new.table ≡ me.old.table }
{
    let mut other = shared.caller(me);
    let set = step_of(b"a", Ask::Store(Verb::Set, 0, b"z"));
    let now = Moment::from_seconds_at_most(1000);
    told_of(&stepped(rt, shared, alloc, &mut other, &set, now))
}

/// Returns the name of the reply to a caller that is dropped, and the store, closed by another.
///
/// The store is `None` if a shelf or the desk is held.
fn closed_after_one_went<R: Wait>(
    rt: &R,
    alloc: Global,
    shared: Shared<Fnv>,
    me: Caller,
) -> (&'static str, Option<Store<Fnv>>)
    requires { me.table ≡ shared.table }
{
    let mut me = me;
    let told = set_by_one_that_goes(rt, alloc, &shared, &mut me);
    (told, closed(shared, alloc, me))
}

/// What stands in the store: what the caller that went has set, too.
static LEFT: [Row<'static>; 2] = [
    (1000, b"a", Ask::Get, Want::Hit(3, b"z")),
    (1000, b"k", Ask::Get, Want::Hit(2, b"y")),
];

/// Returns whether a store that was closed has what is left. It is `None` if it wasn't closed.
fn has_what_is_left(closed: Option<Store<Fnv>>, alloc: Global) -> Option<bool> {
    let mut store = closed?;
    match first_unlike(&mut store, alloc, &LEFT) {
        Ok(None) => Some(true),
        _ => Some(false),
    }
}

#[test]
fn a_store_is_closed_though_a_caller_was_dropped(rt: HostRuntime) -> Result<(), Fail> {
    let (shared, me) = shared_store(rt.alloc(), SOME)?;
    let (told, store) = closed_after_one_went(&rt, rt.alloc(), shared, me);
    assert_eq!(rt;
        (told, has_what_is_left(store, rt.alloc())),
        ("stored", Some(true))
    );
    Ok(())
}
