//! A step that is tried while another caller holds its shelf. If memory is refused it is tried
//! again.

ghost use Rattle.std.specs.Prelude.{◌≡◌, ◌≤◌, length};
ghost use Rattle.mc_protocol.specs.Commands.{key_of};
ghost use Rattle.mc_protocol.specs.Laws.{IsOnKey};

use crate::stores::{MANY, ONE, SOME, empty_store, shared_store, stepped};
use mc_hop::Fnv;
use mc_protocol::{Bytes, KeyStep, Reply, StepFault, Verb};
use mc_shared::{Caller, Gate, Shared, TryFault};
use mc_shelf::Settings;
use mc_testing::told_of;
use mc_time::Moment;
use std::alloc::{AllocError, Global};
use std::cell::RefCell;
use std::marker::Model;
use std::sync::Wait;
use std::test::*;

/// The result of a read of `k`.
#[derive(Clone, Copy, Debug, PartialEq, Eq)]
enum Tried {
    Not,
    /// The flags, the unique number, and the one byte of the block.
    Hit(u32, u64, u8),
    Busy(usize, u64),
    Other,
}

/// Returns the result of a reply.
fn tried_of(reply: &Reply) -> Tried {
    match reply {
        Reply::Hit {
            flags,
            unique,
            block,
        } => match block.bytes().first() {
            Some(byte) if block.bytes().len() == 1 => Tried::Hit(*flags, *unique, *byte),
            _ => Tried::Other,
        },
        _ => Tried::Other,
    }
}

/// Returns the result of a read that waited.
fn read_by(taken: &Result<Reply, StepFault>) -> Tried {
    match taken {
        Ok(reply) => tried_of(reply),
        Err(_) => Tried::Other,
    }
}

/// Returns the step that reads `k`.
fn read_of_k() -> KeyStep<'static>
    ensures on_key { IsOnKey result }
    ensures key { length (key_of result) ≤ 250 }
{
    KeyStep::Read {
        key: Bytes::of(b"k"),
    }
}

/// A caller that tries to read `k`.
#[derive(Drop)]
struct Third<'a> {
    shared: &'a Shared<Fnv>,
    alloc: Global,
    caller: Caller,
    tried: Tried,
}

impl<'a> Model for Third<'a> {
    ghost use Rattle.std.specs.Prelude.{◌≡◌};
    ghost use Rattle.atomic_table.specs.Seated.{TableId, table_id_coded};

    ghost Value = { TableId };

    ghost coded = { table_id_coded };

    ghost view = { λ t. t.caller.table };

    ghost invariant = { λ t. t.caller.table ≡ t.shared.now.table };
}

impl<'a> Third<'a> {
    /// Tries to read `k`, once more if memory is refused.
    fn try_read(&mut self) {
        let now = Moment::from_seconds_at_most(1000);
        let read = read_of_k();
        let first = self
            .shared
            .try_step(self.alloc, &mut self.caller, &read, now);
        let tried = match first {
            Err(TryFault::NoMemory) => self
                .shared
                .try_step(self.alloc, &mut self.caller, &read, now),
            tried => tried,
        };
        self.tried = match tried {
            Ok(reply) => tried_of(&reply),
            Err(TryFault::Busy { bay, word }) => Tried::Busy(bay, word),
            Err(_) => Tried::Other,
        };
    }

    /// Returns the result.
    fn tried(&self) -> Tried {
        self.tried
    }
}

/// A gate in which the third caller tries to read `k`.
#[derive(Drop)]
struct Inside<'a> {
    third: RefCell<Third<'a>>,
}

impl<'a> Gate for Inside<'a> {
    fn inside(&self, _shelf: u32) {
        if let Ok(mut third) = self.third.try_borrow_mut() {
            third.try_read();
        }
    }
}

impl<'a> Inside<'a> {
    /// Returns the result.
    fn tried(&self) -> Tried {
        match self.third.try_borrow() {
            Ok(third) => third.tried(),
            Err(_) => Tried::Not,
        }
    }
}

/// What two callers read, each `k`.
///
/// The first reads it, the second tries to while its shelf is held, and tries again afterwards.
type Both = [Tried; 3];

/// Returns what both must read: the hit, `Busy` with this bay, and the hit.
fn busy_at(bay: usize, hit: Tried) -> Both {
    [hit, Tried::Busy(bay, 1), hit]
}

/// Returns what a caller reads, and one that it makes.
fn tried_by_both<R: Wait>(rt: &R, alloc: Global, shared: &Shared<Fnv>, me: &mut Caller) -> Both
    requires { me.old.table ≡ shared.now.table }
{
    let gate = Inside {
        third: RefCell::new(Third {
            shared,
            alloc,
            caller: shared.caller(me),
            tried: Tried::Not,
        }),
    };
    let first = read_inside(rt, alloc, shared, me, &gate);
    tried_afterwards(&gate, first)
}

/// Lets the second caller try again, and returns what both read.
fn tried_afterwards(gate: &Inside<'_>, first: Tried) -> Both {
    let inside = gate.tried();
    gate.inside(0);
    [first, inside, gate.tried()]
}

/// Reads `k` while another one tries to in this gate, and returns the result.
fn read_inside<R: Wait>(
    rt: &R,
    alloc: Global,
    shared: &Shared<Fnv>,
    me: &mut Caller,
    gate: &Inside<'_>,
) -> Tried
    requires { me.old.table ≡ shared.now.table }
{
    let now = Moment::from_seconds_at_most(1000);
    let read = read_of_k();
    let refused = shared.step_at(rt, alloc, me, &read, now, gate);
    let taken = match refused {
        Err(StepFault::NoMemory) => shared.step_at(rt, alloc, me, &read, now, gate),
        taken => taken,
    };
    read_by(&taken)
}

/// Returns what both read of a store with these settings, in which `k` was set second, to `y`.
fn tried_in_new_store<R: Wait>(
    rt: &R,
    alloc: Global,
    settings: Settings,
) -> Result<Both, StepFault> {
    let (shared, mut me) = shared_store(alloc, settings)?;
    Ok(tried_by_both(rt, alloc, &shared, &mut me))
}

#[test]
fn a_shelf_that_is_held_is_busy_to_another(rt: HostRuntime) -> Result<(), Fail> {
    const ROWS: [(Settings, usize); 3] = [(ONE, 0), (SOME, 10), (MANY, 138)];
    for (settings, bay) in &ROWS {
        let tried = tried_in_new_store(&rt, rt.alloc(), *settings)?;
        assert_eq!(rt; tried, busy_at(*bay, Tried::Hit(7, 2, b'y')));
    }
    Ok(())
}

/// Sets `k` to `x` with the flags 0, and returns the name of the reply.
fn set_k<R: Wait>(rt: &R, alloc: Global, shared: &Shared<Fnv>, me: &mut Caller) -> &'static str
    requires { me.old.table ≡ shared.now.table }
    ensures { me.new.table ≡ me.old.table }
{
    let now = Moment::from_seconds_at_most(1000);
    let set = KeyStep::Store {
        verb: Verb::Set,
        key: Bytes::of(b"k"),
        flags: 0,
        exptime: 0,
        block: Bytes::of(b"x"),
    };
    told_of(&stepped(rt, shared, alloc, me, &set, now))
}

/// Sets `k` by a caller, which is joined into one that it made.
///
/// Returns that one, and the name of the reply.
fn set_and_joined<R: Wait>(
    rt: &R,
    alloc: Global,
    shared: &Shared<Fnv>,
    me: Caller,
) -> (Caller, &'static str)
    requires { me.table ≡ shared.now.table }
    ensures { result.0.table ≡ shared.now.table }
{
    let mut me = me;
    let mut other = shared.caller(&mut me);
    let told = set_k(rt, alloc, shared, &mut me);
    shared.join(&mut other, me);
    (other, told)
}

/// Reads `k`, and returns the result.
fn read_waiting<R: Wait>(rt: &R, alloc: Global, shared: &Shared<Fnv>, me: &mut Caller) -> Tried
    requires { me.old.table ≡ shared.now.table }
    ensures { me.new.table ≡ me.old.table }
{
    let now = Moment::from_seconds_at_most(1000);
    read_by(&stepped(rt, shared, alloc, me, &read_of_k(), now))
}

/// What a caller was told of its set, what one that it made reads, and what that and a third read.
type Three = (&'static str, Tried, Both);

/// Returns it.
fn seen_by_three<R: Wait>(rt: &R, alloc: Global, shared: &Shared<Fnv>, me: Caller) -> Three
    requires { me.table ≡ shared.now.table }
{
    let (mut other, told) = set_and_joined(rt, alloc, shared, me);
    let read = read_waiting(rt, alloc, shared, &mut other);
    (told, read, tried_by_both(rt, alloc, shared, &mut other))
}

/// Returns the same for a new store.
fn seen_in_new_store<R: Wait>(rt: &R, alloc: Global) -> Result<Three, AllocError> {
    let (shared, me) = empty_store(alloc, SOME, Fnv)?;
    Ok(seen_by_three(rt, alloc, &shared, me))
}

/// What one caller set, a second reads, and a third that it made tries to while its shelf is held.
#[test]
fn two_callers_and_one_inside_a_step(rt: HostRuntime) -> Result<(), Fail> {
    let hit = Tried::Hit(0, 1, b'x');
    let seen = seen_in_new_store(&rt, rt.alloc())?;
    assert_eq!(rt; seen, ("stored", hit, busy_at(10, hit)));
    Ok(())
}
