//! Two workers over one store; one waits inside a step for the other.

ghost use Rattle.std.specs.Prelude.{◌≡◌, IfOk};

use crate::held::{HeldLink, Seen};
use crate::tests::serving::serves;
use mc_guests::WorkEnd;
use mc_hop::Fnv;
use mc_shared::{Caller, Gate, NoGate, Shared};
use mc_shelf::Settings;
use std::alloc::{AllocError, Global};
use std::sync::Wait;
use std::sync::atomic::{AtomicU64, Ordering};
use std::test::*;
use std::thread;
use std::thread::Threads;

/// How often a held step checks the other's reply before it gives up.
const TURNS: u32 = 1_000_000;

/// A gate that holds the first step on a shelf until another link took some bytes.
#[derive(Drop)]
struct HoldsShelf<'a> {
    shelf: u32,
    /// 1 once a step is held.
    held: &'a AtomicU64,
    other: &'a Seen,
    wanted: u64,
    /// 1 if the other link had no reply in time.
    gave_up: &'a AtomicU64,
}

impl<'a> Gate for HoldsShelf<'a> {
    fn inside(&self, shelf: u32) {
        if shelf != self.shelf || self.held.swap(1, Ordering::SeqCst) == 1 {
            return;
        }
        for _turn in 0..TURNS {
            if self.other.right() >= self.wanted {
                return;
            }
            thread::yield_now();
        }
        self.gave_up.store(1, Ordering::SeqCst);
    }
}

/// A link's input, and its expected output.
const GET_A: (&[u8], &[u8]) = (b"get a\r\n", b"VALUE a 0 1\r\nx\r\nEND\r\n");

const GET_B: (&[u8], &[u8]) = (b"get b\r\n", b"VALUE b 0 1\r\ny\r\nEND\r\n");

/// What two workers did.
#[derive(Clone, Copy, Debug, PartialEq, Eq)]
struct Met {
    /// Whether the held step gave up.
    gave_up: bool,
    /// Each link's right and wrong bytes.
    first: (u64, u64),
    second: (u64, u64),
}

impl Met {
    /// Returns what two links saw, and whether the held step gave up.
    fn of(gave_up: &AtomicU64, first: &Seen, second: &Seen) -> Met {
        Met {
            gave_up: gave_up.load(Ordering::SeqCst) == 1,
            first: first.right_and_wrong(),
            second: second.right_and_wrong(),
        }
    }
}

/// Serves `get a` and another link in two threads.
///
/// The step on `a` is held on its shelf until the other link has its reply. The other link gives
/// its input only once that step is held.
fn both_get<R: Threads + Wait + Sync>(
    rt: &R,
    alloc: Global,
    shared: &Shared<Fnv>,
    me: Caller,
    input: &[u8],
    expected: &[u8],
) -> Met
    requires { me.table ≡ shared.now.table }
{
    let held = AtomicU64::new(0);
    let gave_up = AtomicU64::new(0);
    let first = Seen::nothing();
    let second = Seen::nothing();
    let gate = HoldsShelf {
        shelf: shared.shelf_of(b"a"),
        held: &held,
        other: &second,
        wanted: expected.len() as u64,
        gave_up: &gave_up,
    };
    let mut me = me;
    let other = shared.caller(&mut me);
    let (mine, theirs) = thread::join(
        rt,
        || -> (Caller, WorkEnd)
            requires { me.table ≡ shared.now.table }
            ensures { result.0.table ≡ shared.entry.now.table }
        {
            serves(
                rt,
                alloc,
                shared,
                me,
                HeldLink::new(alloc, GET_A.0, GET_A.1, &first),
                &gate,
            )
        },
        || -> (Caller, WorkEnd)
            requires { other.table ≡ shared.now.table }
            ensures { result.0.table ≡ shared.entry.now.table }
        {
            let link = HeldLink::new(alloc, input, expected, &second).giving_after(&held);
            serves(rt, alloc, shared, other, link, &gate)
        },
    );
    let (mut me, _) = mine;
    let (other, _) = theirs;
    shared.join(&mut me, other);
    Met::of(&gave_up, &first, &second)
}

const SETTINGS: Settings = Settings {
    pages: 64,
    greatest: 1048576,
    shelves: 64,
};

/// Makes a store, and serves a link that sets `a` and `b`.
fn filled<R: Wait>(rt: &R, alloc: Global) -> Result<(Shared<Fnv>, Caller), AllocError>
    ensures { IfOk result (λ made. made.1.table ≡ made.0.table) }
{
    let seen = Seen::nothing();
    let link = HeldLink::new(
        alloc,
        b"set a 0 0 1\r\nx\r\nset b 0 0 1\r\ny\r\n",
        b"STORED\r\nSTORED\r\n",
        &seen,
    );
    let (shared, me) = Shared::new(alloc, SETTINGS, Fnv)?;
    let (me, _) = serves(rt, alloc, &shared, me, link, &NoGate);
    Ok((shared, me))
}

/// Returns what two workers did whose links took 21 bytes each, all as expected.
fn all_taken(gave_up: bool) -> Met {
    Met {
        gave_up,
        first: (21, 0),
        second: (21, 0),
    }
}

/// Fills a store, and serves `get a` and another link in two threads.
///
/// Returns the shelves of `a` and `b`, and what the workers did.
fn met_over_new_store<R: Threads + Wait + Sync>(
    rt: &R,
    alloc: Global,
    input: &[u8],
    expected: &[u8],
) -> Result<((u32, u32), Met), AllocError> {
    let (shared, me) = filled(rt, alloc)?;
    let shelves = (shared.shelf_of(b"a"), shared.shelf_of(b"b"));
    Ok((shelves, both_get(rt, alloc, &shared, me, input, expected)))
}

#[test]
fn a_held_step_leaves_other_shelves_free(rt: HostRuntime) -> Result<(), Fail> {
    let (shelves, met) = met_over_new_store(&rt, rt.alloc(), GET_B.0, GET_B.1)?;
    assert_eq!(rt; shelves, (12, 37));
    assert_eq!(rt; met, all_taken(false));
    Ok(())
}

/// So the test above fails if a step holds the whole store.
#[test]
fn a_held_step_holds_up_those_on_its_own_shelf(rt: HostRuntime) -> Result<(), Fail> {
    let (_, met) = met_over_new_store(&rt, rt.alloc(), GET_A.0, GET_A.1)?;
    assert_eq!(rt; met, all_taken(true));
    Ok(())
}
