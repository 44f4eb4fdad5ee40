//! Shelves are tidied in turn, as the clock rises, and while writes find no chunk.

ghost use Rattle.std.specs.Prelude.{◌≡◌, ◌≤◌, length};
ghost use Rattle.mc_protocol.specs.Commands.{key_of};

use crate::held::{HeldLink, Seen};
use crate::tests::serving::HeldLinks;
use mc_guests::NoTally;
use mc_hop::Fnv;
use mc_protocol::{KeyStep, Steps, Verb};
use mc_shared::{Caller, NoGate, Shared};
use mc_shelf::Settings;
use mc_testing::{Ask, filled_block, step_of, told_of};
use mc_time::{Clock, Moment};
use mc_workers::{Counting, Tending, Worker};
use std::alloc::{AllocError, Global};
use std::cell::Cell;
use std::sync::Wait;
use std::sync::atomic::{AtomicU64, Ordering};
use std::test::*;

/// The number of shelves, the shelf at which tidying begins, and the tidying in which the shelf of
/// `b` has its turn.
///
/// That is shelf 37 of 64 and of 128, and 165 of 256.
static ROWS: [(u32, (u32, u32)); 9] = [
    (1, (0, 1)),
    (1, (5, 1)),
    (64, (0, 38)),
    (64, (30, 8)),
    (64, (38, 64)),
    (64, (100, 2)),
    (128, (0, 19)),
    (128, (36, 1)),
    (256, (0, 42)),
];

/// A clock that rises by a second at each look, a given number of times, and then sets a flag.
#[derive(Drop)]
struct Rising<'a> {
    /// The number of looks, until it rises no more.
    looks: Cell<u64>,
    /// How often it rises.
    times: u64,
    /// 1 once it has risen that often.
    has_risen: &'a AtomicU64,
}

impl<'a> Clock for Rising<'a> {
    // A contract can't state the number of looks.
    ghost may_give = { λ clock now. Unit {0} };

    fn now(&self) -> Moment {
        let risen = self.looks.get().min(self.times);
        self.looks.set(risen.saturating_add(1));
        if risen == self.times {
            self.has_risen.store(1, Ordering::SeqCst);
        }
        Moment::from_seconds_at_most(risen.saturating_add(1010))
    }
}

/// Lets a worker tidy some times from second 1010 on, first this shelf, and returns the caller.
///
/// Its one link gives nothing before.
fn tidied<R: Wait>(
    rt: &R,
    alloc: Global,
    shared: &Shared<Fnv>,
    caller: Caller,
    turns: (u32, u32),
) -> Caller
    requires { caller.table ≡ shared.now.table }
    ensures { result.table ≡ shared.now.table }
{
    let (first, tidyings) = turns;
    let has_risen = AtomicU64::new(0);
    let seen = Seen::nothing();
    let link = HeldLink::new(alloc, b"version\r\n", b"VERSION 1.6.0\r\n", &seen);
    let mut links = HeldLinks::one(link.giving_after(&has_risen));
    let clock = Rising {
        looks: Cell::new(0),
        times: u64::from(tidyings),
        has_risen: &has_risen,
    };
    let worker = Worker {
        gate: &NoGate,
        tally: &NoTally,
        clock: &clock,
        first,
        share: usize::MAX,
    };
    let (caller, _end) = worker.work(rt, alloc, shared, caller, &mut links);
    caller
}

/// Takes a step at a second, and returns the name of the reply.
fn told_at<R: Wait>(
    rt: &R,
    alloc: Global,
    shared: &Shared<Fnv>,
    caller: &mut Caller,
    step: &KeyStep<'_>,
    second: u64,
) -> &'static str
    requires own { caller.old.table ≡ shared.now.table }
    requires key { length (key_of step.now) ≤ 250 }
    ensures { caller.new.table ≡ caller.old.table }
{
    let now = Moment::from_seconds_at_most(second);
    told_of(&shared.step(rt, alloc, caller, step, now))
}

/// Sets `b` to a block, lets a worker tidy some times, first this shelf, and sets `c` to the block.
///
/// Returns the name of the last reply. `b` is dead by then.
fn told_of_second<R: Wait>(
    rt: &R,
    alloc: Global,
    shared: &Shared<Fnv>,
    caller: Caller,
    block: &[u8],
    turns: (u32, u32),
) -> &'static str
    requires { caller.table ≡ shared.now.table }
{
    let mut caller = caller;
    let set_b = step_of(b"b", Ask::Store(Verb::Set, 10, block));
    let _ = told_at(rt, alloc, shared, &mut caller, &set_b, 1000);
    let mut caller = tidied(rt, alloc, shared, caller, turns);
    let set_c = step_of(b"c", Ask::Store(Verb::Set, 0, block));
    told_at(rt, alloc, shared, &mut caller, &set_c, 1010)
}

/// Returns the same for a new store of one page with these settings.
fn told_in_new_store<R: Wait>(
    rt: &R,
    alloc: Global,
    settings: Settings,
    block: &[u8],
    turns: (u32, u32),
) -> Result<&'static str, AllocError> {
    let (shared, caller) = Shared::new(alloc, settings, Fnv)?;
    Ok(told_of_second(rt, alloc, &shared, caller, block, turns))
}

/// Returns the reply to a set of `c` after some tidyings that begin with this shelf.
///
/// The store has one page, which `b` has, and `b` is dead by then.
fn told_after<R: Wait>(
    rt: &R,
    alloc: Global,
    shelves: u32,
    turns: (u32, u32),
) -> Result<&'static str, AllocError> {
    let Some(settings) = Settings::new(1, Settings::GREATEST, shelves) else {
        return Ok("no such store");
    };
    let large = filled_block(alloc, 600000)?;
    told_in_new_store(rt, alloc, settings, large.as_slice(), turns)
}

/// Returns the replies before and after the tidying in which the shelf of `b` has its turn.
fn told_around<R: Wait>(
    rt: &R,
    alloc: Global,
    shelves: u32,
    (first, turn): (u32, u32),
) -> Result<(&'static str, &'static str), AllocError> {
    let before = told_after(rt, alloc, shelves, (first, turn.saturating_sub(1)))?;
    let then = told_after(rt, alloc, shelves, (first, turn))?;
    Ok((before, then))
}

#[test]
fn each_shelf_has_its_turn(rt: HostRuntime) -> Result<(), Fail> {
    for (shelves, turn) in &ROWS {
        assert_eq!(rt;
            told_around(&rt, rt.alloc(), *shelves, *turn)?,
            ("no chunk", "stored")
        );
    }
    Ok(())
}

/// Whether a set of `c` is refused first, the number of tidyings then, and the reply to the next.
///
/// The clock stands. `b` is dead, and its shelf 37 of 64 is the 38th in turn.
static SWEPT: [(bool, u32, &str); 4] = [
    (true, 9, "no chunk"),
    (true, 10, "stored"),
    (true, 40, "stored"),
    (false, 40, "no chunk"),
];

/// Sets `c` to a block behind some tidyings, in a store whose one page `b` has, which is dead.
///
/// Before them it is tried once, if it is to be refused. Returns the name of the last reply.
fn told_of_sweeps<R: Wait>(
    rt: &R,
    alloc: Global,
    shared: &Shared<Fnv>,
    caller: Caller,
    block: &[u8],
    row: (bool, u32),
) -> &'static str
    requires { caller.table ≡ shared.now.table }
{
    let (refused, tidyings) = row;
    let mut caller = caller;
    let set_b = step_of(b"b", Ask::Store(Verb::Set, 10, block));
    let _ = told_at(rt, alloc, shared, &mut caller, &set_b, 1000);
    let set_c = step_of(b"c", Ask::Store(Verb::Set, 0, block));
    let now = Moment::from_seconds_at_most(1010);
    let mut counting = Counting::new(Tending::new(rt, shared, caller, &NoGate), &NoTally);
    if refused {
        let _ = counting.step(alloc, &set_c, now);
    }
    let mut turn = 0;
    for _ in 0..tidyings {
        turn = counting.tidy(turn, false, now);
    }
    told_of(&counting.step(alloc, &set_c, now))
}

/// Returns that reply for a new store.
fn told_after_sweeps<R: Wait>(
    rt: &R,
    alloc: Global,
    row: (bool, u32),
) -> Result<&'static str, AllocError> {
    let Some(settings) = Settings::new(1, Settings::GREATEST, 64) else {
        return Ok("no such store");
    };
    let large = filled_block(alloc, 600000)?;
    let (shared, caller) = Shared::new(alloc, settings, Fnv)?;
    Ok(told_of_sweeps(rt, alloc, &shared, caller, large.as_slice(), row))
}

#[test]
fn all_shelves_are_tidied_once_a_write_finds_no_chunk(rt: HostRuntime) -> Result<(), Fail> {
    for (refused, tidyings, told) in &SWEPT {
        assert_eq!(rt;
            told_after_sweeps(&rt, rt.alloc(), (*refused, *tidyings))?,
            *told
        );
    }
    Ok(())
}

/// Sets `b`, flushes at 1005 after 10 seconds, and gets `b` at second `then`.
///
/// Returns the names of the last two replies.
fn told_of_later_flush<R: Wait>(
    rt: &R,
    alloc: Global,
    shared: &Shared<Fnv>,
    caller: Caller,
    then: u64,
) -> (&'static str, &'static str)
    requires { caller.table ≡ shared.now.table }
{
    let mut caller = caller;
    let set_b = step_of(b"b", Ask::Store(Verb::Set, 0, b"x"));
    let _ = told_at(rt, alloc, shared, &mut caller, &set_b, 1000);
    let mut tending = Tending::new(rt, shared, caller, &NoGate);
    let flush = step_of(b"", Ask::Flush(10));
    let flushed = told_of(&tending.step(alloc, &flush, Moment::from_seconds_at_most(1005)));
    let get = step_of(b"b", Ask::Get);
    let got = told_of(&tending.step(alloc, &get, Moment::from_seconds_at_most(then)));
    (flushed, got)
}

/// Returns these for a new store.
fn told_in_flushed_store<R: Wait>(
    rt: &R,
    alloc: Global,
    then: u64,
) -> Result<(&'static str, &'static str), AllocError> {
    let Some(settings) = Settings::new(1, Settings::GREATEST, 64) else {
        return Ok(("no such store", ""));
    };
    let (shared, caller) = Shared::new(alloc, settings, Fnv)?;
    Ok(told_of_later_flush(rt, alloc, &shared, caller, then))
}

#[test]
fn a_later_flush_comes_at_its_second(rt: HostRuntime) -> Result<(), Fail> {
    for (then, told) in [(1014, "hit"), (1015, "miss")] {
        assert_eq!(rt;
            told_in_flushed_store(&rt, rt.alloc(), then)?,
            ("flushed", told)
        );
    }
    Ok(())
}
