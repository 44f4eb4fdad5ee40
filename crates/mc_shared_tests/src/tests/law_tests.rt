//! The laws, checked with callers that meet.

ghost use Rattle.std.specs.Prelude.{◌≡◌, ◌≤◌, IfOk, List, [], ◌∷◌, length};
ghost use Rattle.mc_protocol.specs.Commands.{key_of};
ghost use Rattle.mc_shared.specs.Past.{start, spent};
ghost use Rattle.mc_laws.specs.Laws.{Found, hit, IsNoOlder, HasDrawnNumbers, Call, PlainAnswers};
ghost use Rattle.mc_laws.specs.Together.{IsMixOf};

use mc_hop::{Fnv, KeyHash};
use mc_laws::{
    a_cas_is_of_what_was_read, callers_share_a_plain_store, no_read_goes_back,
    who_heeds_a_note_comes_after,
};
use mc_protocol::{Bytes, KeyStep, Reply, StepFault, Verb};
use mc_shared::{Caller, Shared};
use mc_shelf::Settings;
use mc_testing::{Ask, Want, is_wanted, step_of};
use mc_time::Moment;
use std::alloc::{AllocError, Global};
use std::sync::Wait;
use std::test::*;

/// Reads a key by one caller, and then by another that joined the first. It must read nothing
/// older.
fn reads_of_two<R: Wait, K: KeyHash + Drop>(
    rt: &R,
    shared: &Shared<K>,
    alloc: Global,
    me: Caller,
    other: &mut Caller,
    key: &[u8],
) -> Result<(Reply, Reply), StepFault>
    requires own { (me.table ≡ shared.now.table) × (other.old.table ≡ shared.now.table) }
    requires key { length key.now ≤ 250 }
    requires drawn { HasDrawnNumbers shared.now.began.plain }
    ensures { IfOk result (λ replies. (was is : Found) → replies.0 ≡ hit was → replies.1 ≡ hit is →
        IsNoOlder was is) }
{
    no_read_goes_back();
    let mut me = me;
    let now = Moment::from_seconds_at_most(1000);
    let read = KeyStep::Read {
        key: Bytes::of(key),
    };
    let first = shared.step(rt, alloc, &mut me, &read, now)?;
    shared.join(other, me);
    let second = shared.step(rt, alloc, other, &read, now)?;
    Ok((first, second))
}

/// Reads a key by one caller, which gives a note, and then by another, which heeds it.
///
/// The second must read nothing older.
fn reads_with_note<R: Wait, K: KeyHash + Drop>(
    rt: &R,
    shared: &Shared<K>,
    alloc: Global,
    giver: &mut Caller,
    taker: &mut Caller,
    key: &[u8],
) -> Result<(Reply, Reply), StepFault>
    requires own { (giver.old.table ≡ shared.now.table) × (taker.old.table ≡ shared.now.table) }
    requires key { length key.now ≤ 250 }
    requires drawn { HasDrawnNumbers shared.now.began.plain }
    ensures { IfOk result (λ replies. (was is : Found) → replies.0 ≡ hit was → replies.1 ≡ hit is →
        IsNoOlder was is) }
{
    no_read_goes_back();
    who_heeds_a_note_comes_after();
    let now = Moment::from_seconds_at_most(1000);
    let read = KeyStep::Read {
        key: Bytes::of(key),
    };
    let first = shared.step(rt, alloc, giver, &read, now)?;
    let note = shared.note(giver);
    shared.heed(taker, note);
    let second = shared.step(rt, alloc, taker, &read, now)?;
    Ok((first, second))
}

/// Takes a step by each of two callers, and joins them.
///
/// A store of one thread gives both replies in one order or the other.
fn steps_of_two<R: Wait, K: KeyHash + Drop>(
    rt: &R,
    shared: &Shared<K>,
    alloc: Global,
    me: Caller,
    steps: (&KeyStep<'_>, &KeyStep<'_>),
    now: Moment,
) -> Result<(Reply, Reply), StepFault>
    requires own { (me.table ≡ shared.now.table) × (me.past ≡ start [] spent) }
    requires keys { (length (key_of steps.0.now) ≤ 250) × (length (key_of steps.1.now) ≤ 250) }
    ensures { IfOk result (λ replies. (mix : List Call)
        × IsMixOf (record { step = steps.entry.0.now; now = now; reply = replies.0 } ∷ [])
        (record { step = steps.entry.1.now; now = now; reply = replies.1 } ∷ []) mix
        × PlainAnswers shared.now.began.plain mix) }
{
    callers_share_a_plain_store();
    let mut me = me;
    let mut other = shared.caller(&mut me);
    let first = shared.step(rt, alloc, &mut me, steps.0, now)?;
    let second = shared.step(rt, alloc, &mut other, steps.1, now)?;
    shared.join(&mut me, other);
    Ok((first, second))
}

/// Returns an empty store, and its first caller.
fn empty_store(alloc: Global) -> Result<(Shared<Fnv>, Caller), AllocError>
    ensures { IfOk result (λ made. (made.1.table ≡ made.0.table) × (made.1.past ≡ start [] spent)
        × HasDrawnNumbers made.0.began.plain) }
{
    a_cas_is_of_what_was_read();
    let settings = Settings {
        pages: 64,
        greatest: 1048576,
        shelves: 64,
    };
    let made = Shared::new(alloc, settings, Fnv)?;
    Ok(made)
}

/// Sets `a` to `x` at 1000. Returns an error if memory is refused or no number is left.
fn set_a<R: Wait>(
    rt: &R,
    shared: &Shared<Fnv>,
    alloc: Global,
    me: &mut Caller,
) -> Result<(), StepFault>
    requires { me.old.table ≡ shared.now.table }
    ensures { me.new.table ≡ me.old.table }
{
    let set = step_of(b"a", Ask::Store(Verb::Set, 0, b"x"));
    let now = Moment::from_seconds_at_most(1000);
    let _ = shared.step(rt, alloc, me, &set, now)?;
    Ok(())
}

/// Returns the replies to two reads of `a` by two callers, after a set by the first.
fn replies_after_set<R: Wait>(
    rt: &R,
    shared: &Shared<Fnv>,
    alloc: Global,
    me: Caller,
) -> Result<(Reply, Reply), StepFault>
    requires own { me.table ≡ shared.now.table }
    requires drawn { HasDrawnNumbers shared.now.began.plain }
{
    let mut me = me;
    let mut other = shared.caller(&mut me);
    set_a(rt, shared, alloc, &mut me)?;
    reads_of_two(rt, shared, alloc, me, &mut other, b"a")
}

/// Returns the same for a new store.
fn replies_to_reads<R: Wait>(rt: &R, alloc: Global) -> Result<(Reply, Reply), StepFault> {
    let (shared, me) = empty_store(alloc)?;
    replies_after_set(rt, &shared, alloc, me)
}

/// Returns the replies to two reads of `a` by two callers of a new store, after a set by the first.
///
/// The first gives the second a note between the reads.
fn replies_with_note<R: Wait>(rt: &R, alloc: Global) -> Result<(Reply, Reply), StepFault> {
    let (shared, mut me) = empty_store(alloc)?;
    let mut other = shared.caller(&mut me);
    set_a(rt, &shared, alloc, &mut me)?;
    reads_with_note(rt, &shared, alloc, &mut me, &mut other, b"a")
}

/// Returns whether both replies are as wanted.
fn are_wanted(replies: (Reply, Reply), first: Want<'_>, second: Want<'_>) -> bool {
    is_wanted(&Ok(replies.0), first) && is_wanted(&Ok(replies.1), second)
}

/// What one caller read, the other reads again, once it knows of it.
#[test]
fn a_read_goes_on_from_another(rt: HostRuntime) -> Result<(), Fail> {
    let replies = replies_to_reads(&rt, rt.alloc())?;
    assert!(rt; are_wanted(replies, Want::Hit(1, b"x"), Want::Hit(1, b"x")));
    Ok(())
}

/// What one caller read, another reads again that heeds its note.
#[test]
fn a_read_goes_on_from_a_note(rt: HostRuntime) -> Result<(), Fail> {
    let replies = replies_with_note(&rt, rt.alloc())?;
    assert!(rt; are_wanted(replies, Want::Hit(1, b"x"), Want::Hit(1, b"x")));
    Ok(())
}

/// Returns the replies to a set of `a` and a read of it by two callers of a new store.
fn replies_to_set_and_read<R: Wait>(rt: &R, alloc: Global) -> Result<(Reply, Reply), StepFault> {
    let set = step_of(b"a", Ask::Store(Verb::Set, 0, b"x"));
    let get = step_of(b"a", Ask::Get);
    let now = Moment::from_seconds_at_most(1000);
    let (shared, me) = empty_store(alloc)?;
    steps_of_two(rt, &shared, alloc, me, (&set, &get), now)
}

/// A set by one caller and a read by another are answered as if the set came first, as it did.
#[test]
fn two_callers_have_one_store(rt: HostRuntime) -> Result<(), Fail> {
    let replies = replies_to_set_and_read(&rt, rt.alloc())?;
    assert!(rt; are_wanted(replies, Want::Told("stored"), Want::Hit(1, b"x")));
    Ok(())
}
