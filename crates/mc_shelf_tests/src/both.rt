//! Two stores: one takes its steps whole, and the other in two parts.

ghost use Rattle.std.specs.Prelude.{◌≤◌, length};
ghost use Rattle.mc_protocol.specs.Commands.{key_of};

use crate::parted::{Way, begin_and_finish};
use crate::seen::account_at;
use crate::stores::set_up;
use mc_hop::Fnv;
use mc_protocol::{KeyStep, Reply, StepFault, Steps, Verb};
use mc_shelf::{Desk, Settings, Store};
use mc_testing::{Ask, Row, ask_step, is_wanted, step_of, told_of};
use mc_time::Moment;
use std::alloc::{AllocError, Global};

/// Takes a step on one key in two parts, and returns whether something was left to the second.
///
/// It tries again if memory is refused. A flush is taken whole.
pub(crate) fn asked_in_parts(
    mut store: Store<Fnv>,
    alloc: Global,
    step: &KeyStep<'_>,
    now: Moment,
    way: Way,
    left: &mut bool,
) -> (Store<Fnv>, Result<Reply, StepFault>)
    requires { length (key_of step.now) ≤ 250 }
{
    match step {
        KeyStep::Flush { .. } => {
            let answer = store.step(alloc, step, now);
            (store, answer)
        }
        _ => match begin_and_finish(store, alloc, step, now, way, left) {
            (store, Err(StepFault::NoMemory)) => {
                begin_and_finish(store, alloc, step, now, way, left)
            }
            answered => answered,
        },
    }
}

/// Stores a block under `k` in two parts at 1000. Returns the name of the result, and whether
/// something was left to the second.
pub(crate) fn stored_in_parts(
    store: Store<Fnv>,
    asked: (Global, Verb, &[u8]),
) -> (Store<Fnv>, (&'static str, bool)) {
    let (alloc, verb, block) = asked;
    let step = step_of(b"k", Ask::Store(verb, 0, block));
    let mut left = false;
    let now = Moment::from_seconds_at_most(1000);
    let (store, answer) = asked_in_parts(store, alloc, &step, now, Way::Looked, &mut left);
    (store, (told_of(&answer), left))
}

/// Returns whether two desks have the same next number and the same chunks out.
///
/// It compares the chunks of the two smallest classes.
fn are_alike(desk: &Desk, other: &Desk) -> bool {
    let mut alike = desk.next_unique() == other.next_unique();
    for charge in [96, 120] {
        alike &= account_at(desk, charge).1 == account_at(other, charge).1;
    }
    alike
}

/// Two stores: one takes its steps whole, and the other in two parts.
#[derive(Drop)]
pub(crate) struct Both {
    pub(crate) whole: Store<Fnv>,
    pub(crate) parted: Store<Fnv>,
    /// How the other gets its plans.
    pub(crate) way: Way,
}

/// Returns two empty stores with these settings.
pub(crate) fn open_both(alloc: Global, settings: Settings, way: Way) -> Result<Both, AllocError> {
    Ok(Both {
        whole: set_up(alloc, settings, Fnv)?,
        parted: set_up(alloc, settings, Fnv)?,
        way,
    })
}

/// Returns whether the desks of both are equal.
fn have_alike(both: Both) -> (Both, bool) {
    let Both { whole, parted, way } = both;
    let (whole, parted) = (whole.into_parts(), parted.into_parts());
    let alike = are_alike(&whole.desk, &parted.desk);
    let both = Both {
        whole: Store::from_parts(whole),
        parted: Store::from_parts(parted),
        way,
    };
    (both, alike)
}

/// Returns whether both have the expected reply to a row.
fn are_wanted(alloc: Global, both: Both, row: Row<'_>) -> (Both, bool) {
    let (seconds, key, ask, want) = row;
    if key.len() > 250 {
        return (both, false);
    }
    let now = Moment::from_seconds_at_most(seconds);
    let step = step_of(key, ask);
    let Both {
        mut whole,
        parted,
        way,
    } = both;
    let answer = ask_step(&mut whole, alloc, &step, now);
    let mut left = false;
    let (parted, parts) = asked_in_parts(parted, alloc, &step, now, way, &mut left);
    let wanted = is_wanted(&answer, want) && is_wanted(&parts, want);
    let both = Both { whole, parted, way };
    (both, wanted)
}

/// Returns whether both have the expected reply to a row, and their desks are equal afterwards.
fn goes_alike(alloc: Global, both: Both, row: Row<'_>) -> (Both, bool) {
    let (both, wanted) = are_wanted(alloc, both, row);
    let (both, alike) = have_alike(both);
    (both, wanted && alike)
}

/// Returns the place of the first row for which that isn't so.
pub(crate) fn first_apart(alloc: Global, both: Both, rows: &[Row<'_>]) -> (Both, Option<usize>) {
    let mut both = both;
    for (at, row) in rows.iter().enumerate() {
        let (same, alike) = goes_alike(alloc, both, *row);
        both = same;
        if !alike {
            return (both, Some(at));
        }
    }
    (both, None)
}
