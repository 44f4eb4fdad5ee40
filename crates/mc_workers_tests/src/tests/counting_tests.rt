//! The reports that a tally gets.

ghost use Rattle.std.specs.Prelude.{◌≡◌};

use crate::held::{HeldLink, Seen};
use crate::tests::serving::HeldLinks;
use mc_guests::{Outcome, Tally};
use mc_hop::Fnv;
use mc_protocol::{Answer, Bytes, KeyStep, Reply, Steps, Verb};
use mc_shared::{NoGate, Shared};
use mc_shelf::{Settings, Store};
use mc_testing::{Ask, filled_block, step_of};
use mc_time::{Fixed, Moment};
use mc_workers::{Counting, Worker};
use std::alloc::{AllocError, Global};
use std::cell::Cell;
use std::sync::Wait;
use std::test::*;

/// The settings of stores with one page.
const SETTINGS: Settings = Settings {
    pages: 1,
    greatest: Settings::GREATEST,
    shelves: 64,
};

/// The number of reports, and the last one's key length and outcome.
type Hearing = (usize, usize, Option<Outcome>);

/// A tally that keeps its reports.
#[derive(Drop)]
struct Heard {
    hearing: Cell<Hearing>,
}

impl Heard {
    /// Returns a tally without reports.
    fn nothing() -> Heard {
        Heard {
            hearing: Cell::new((0, 0, None)),
        }
    }
}

impl Tally for Heard {
    fn took(&self, step: &KeyStep<'_>, outcome: Outcome) {
        let (times, ..) = self.hearing.get();
        self.hearing
            .set((times.saturating_add(1), step.key().len(), Some(outcome)));
    }
}

/// Accepts each reply, or refuses it.
#[derive(Drop)]
struct Listener {
    is_deaf: bool,
}

impl Answer for Listener {
    ghost told = { λ old reply new. Unit {0} };

    fn hit(&mut self, _flags: u32, _unique: u64, _parts: &[Bytes<'_>]) -> Result<(), AllocError> {
        if self.is_deaf {
            Err(AllocError)
        } else {
            Ok(())
        }
    }

    fn reply(&mut self, _reply: &Reply) -> Result<(), AllocError> {
        if self.is_deaf {
            Err(AllocError)
        } else {
            Ok(())
        }
    }
}

/// How a step is taken: with its reply returned, or delivered to a listener that accepts or refuses
/// it.
#[derive(Clone, Copy)]
enum Way {
    Answered,
    Told,
    Untold,
}

/// Takes a step, whose key is short enough, at second 1000.
fn take<S: Steps>(store: &mut S, alloc: Global, key: &[u8], ask: Ask<'_>, way: Way) {
    if key.len() > 250 {
        return;
    }
    let step = step_of(key, ask);
    let now = Moment::from_seconds_at_most(1000);
    let mut listener = Listener {
        is_deaf: matches!(way, Way::Untold),
    };
    match way {
        Way::Answered => {
            let _ = store.step(alloc, &step, now);
        }
        Way::Told | Way::Untold => {
            let _ = store.step_telling(alloc, &step, now, &mut listener);
        }
    }
}

/// A key, a step on it, and its outcome.
type Row = (&'static [u8], Ask<'static>, Outcome);

static ROWS: [Row; 12] = [
    (b"a", Ask::Get, Outcome::Miss),
    (b"a", Ask::Store(Verb::Set, 0, b"x"), Outcome::Stored),
    (b"a", Ask::Store(Verb::Add, 0, b"y"), Outcome::NotStored),
    (b"a", Ask::Gat(0), Outcome::Hit),
    (b"a", Ask::Cas(9, b"y"), Outcome::Exists),
    (b"bb", Ask::Cas(1, b"y"), Outcome::NotFound),
    (b"a", Ask::Incr(1), Outcome::NotNumeric),
    (b"ccc", Ask::Store(Verb::Set, 0, b"7"), Outcome::Stored),
    (b"ccc", Ask::Incr(4), Outcome::Number),
    (b"ccc", Ask::Touch(0), Outcome::Touched),
    (b"ccc", Ask::Delete, Outcome::Deleted),
    (b"", Ask::Flush(0), Outcome::Flushed),
];

/// Returns whether the step of the row at a place is the only one reported behind those before it,
/// with its outcome.
fn is_heard<S: Steps>(store: &mut S, alloc: Global, heard: &Heard, at: usize, way: Way) -> bool {
    let Some((key, ask, outcome)) = ROWS.get(at).copied() else {
        return false;
    };
    take(store, alloc, key, ask, way);
    heard.hearing.get() == (at.saturating_add(1), key.len(), Some(outcome))
}

/// Returns the first step that isn't reported once with the row's outcome.
fn first_unheard_by<S: Steps>(
    store: &mut S,
    alloc: Global,
    heard: &Heard,
    way: Way,
) -> Option<usize> {
    for at in 0..ROWS.len() {
        if !is_heard(store, alloc, heard, at, way) {
            return Some(at);
        }
    }
    None
}

/// Returns the same for a new store.
fn first_unheard(alloc: Global, way: Way) -> Result<Option<usize>, AllocError> {
    let heard = Heard::nothing();
    let mut counting = Counting::new(Store::new(alloc, SETTINGS, Fnv)?, &heard);
    Ok(first_unheard_by(&mut counting, alloc, &heard, way))
}

#[test]
fn a_tally_hears_how_each_step_came_out(rt: HostRuntime) -> Result<(), Fail> {
    for way in [Way::Answered, Way::Told, Way::Untold] {
        assert_eq!(rt; first_unheard(rt.alloc(), way)?, None);
    }
    Ok(())
}

/// Returns a new store whose one page has `a`, which is set to this block.
fn full_store(alloc: Global, block: &[u8]) -> Result<Store<Fnv>, AllocError> {
    let mut store = Store::new(alloc, SETTINGS, Fnv)?;
    let set = Ask::Store(Verb::Set, 0, block);
    take(&mut store, alloc, b"a", set, Way::Answered);
    Ok(store)
}

/// Returns the report of a set of `bb` to a block.
fn heard_in(store: Store<Fnv>, alloc: Global, block: &[u8], way: Way) -> Hearing {
    let heard = Heard::nothing();
    let mut counting = Counting::new(store, &heard);
    let set = Ask::Store(Verb::Set, 0, block);
    take(&mut counting, alloc, b"bb", set, way);
    heard.hearing.get()
}

/// Returns the report of a set of `bb` to a block, where `a` has the one page.
fn heard_of_block(
    alloc: Global,
    large: &[u8],
    block: &[u8],
    way: Way,
) -> Result<Hearing, AllocError> {
    Ok(heard_in(full_store(alloc, large)?, alloc, block, way))
}

/// Returns the report of a set of a block of this length, where `a` has the one page.
fn heard_of_set(alloc: Global, length: usize, way: Way) -> Result<Hearing, AllocError> {
    let large = filled_block(alloc, 600000)?;
    let block = filled_block(alloc, length)?;
    heard_of_block(alloc, large.as_slice(), block.as_slice(), way)
}

/// How a set is taken, the length of its block, and its outcome.
static REFUSED: [(Way, usize, Outcome); 6] = [
    (Way::Answered, 1, Outcome::NoChunk),
    (Way::Answered, 1048576, Outcome::TooLarge),
    (Way::Told, 1, Outcome::NoChunk),
    (Way::Told, 1048576, Outcome::TooLarge),
    (Way::Untold, 1, Outcome::NoChunk),
    (Way::Untold, 1048576, Outcome::TooLarge),
];

#[test]
fn a_tally_hears_of_sets_that_store_nothing(rt: HostRuntime) -> Result<(), Fail> {
    for (way, length, outcome) in &REFUSED {
        let heard = heard_of_set(rt.alloc(), *length, *way)?;
        assert_eq!(rt; heard, (1, 2, Some(*outcome)));
    }
    Ok(())
}

/// Returns the report of a set with used-up unique numbers.
fn heard_of_none(alloc: Global, way: Way) -> Result<Hearing, AllocError> {
    let store = Store::starting(alloc, SETTINGS, Fnv, 18446744073709551615)?;
    Ok(heard_in(store, alloc, b"x", way))
}

#[test]
fn a_tally_hears_of_no_step_that_is_not_taken(rt: HostRuntime) -> Result<(), Fail> {
    for way in [Way::Answered, Way::Told, Way::Untold] {
        assert_eq!(rt; heard_of_none(rt.alloc(), way)?, (0, 0, None));
    }
    Ok(())
}

/// Returns the reports of the steps of one link that a worker serves.
fn heard_of_link<R: Wait>(
    rt: &R,
    alloc: Global,
    input: &[u8],
    output: &[u8],
) -> Result<Hearing, AllocError> {
    let seen = Seen::nothing();
    let heard = Heard::nothing();
    let clock = Fixed(Moment::from_seconds_at_most(1000));
    let worker = Worker {
        gate: &NoGate,
        tally: &heard,
        clock: &clock,
        first: 0,
        share: usize::MAX,
    };
    let mut links = HeldLinks::one(HeldLink::new(alloc, input, output, &seen));
    let (shared, caller) = Shared::new(alloc, SETTINGS, Fnv)?;
    let _ = worker.work(rt, alloc, &shared, caller, &mut links);
    Ok(heard.hearing.get())
}

#[test]
fn a_tally_hears_of_the_steps_of_a_worker(rt: HostRuntime) -> Result<(), Fail> {
    let input = b"set a 0 0 1\r\nx\r\nget bb a\r\nversion\r\nfoo\r\n".as_slice();
    let output = b"STORED\r\nVALUE a 0 1\r\nx\r\nEND\r\nVERSION 1.6.0\r\nERROR\r\n".as_slice();
    let heard = heard_of_link(&rt, rt.alloc(), input, output)?;
    assert_eq!(rt; heard, (3, 1, Some(Outcome::Hit)));
    Ok(())
}
