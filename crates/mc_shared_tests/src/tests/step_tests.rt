//! Steps of one caller, up to the last unique number. If memory is refused they are taken again.

use crate::sole::Sole;
use mc_hop::Fnv;
use mc_protocol::{Steps, Verb};
use mc_testing::{Ask, Row, Want, first_unlike, first_unread};
use std::alloc::{AllocError, Global};
use std::sync::Wait;
use std::test::*;

/// Returns whether a store has the expected answer to each row.
fn are_answered<S: Steps>(store: &mut S, alloc: Global, rows: &[Row<'_>]) -> bool {
    match first_unlike(store, alloc, rows) {
        Ok(None) => true,
        _ => false,
    }
}

/// Steps of a first caller, in a store that has `a` and `k`.
static OF_FIRST: [Row<'static>; 4] = [
    (1000, b"a", Ask::Get, Want::Hit(1, b"x")),
    (1000, b"zz", Ask::Touch(0), Want::Told("not found")),
    (
        1000,
        b"a",
        Ask::Store(Verb::Add, 0, b"z"),
        Want::Told("not stored"),
    ),
    (
        1000,
        b"k",
        Ask::Store(Verb::Set, 0, b"1"),
        Want::Told("stored"),
    ),
];

/// Steps of one that it made.
static OF_SECOND: [Row<'static>; 7] = [
    (1000, b"k", Ask::Get, Want::Hit(3, b"1")),
    (1000, b"k", Ask::Incr(4), Want::Number(5)),
    (1000, b"a", Ask::Delete, Want::Told("deleted")),
    (1000, b"a", Ask::Get, Want::Told("miss")),
    (1000, b"", Ask::Flush(0), Want::Told("flushed")),
    (1000, b"k", Ask::Get, Want::Told("miss")),
    (
        1000,
        b"k",
        Ask::Store(Verb::Set, 0, b"2"),
        Want::Told("stored"),
    ),
];

/// Steps in the store that is closed then.
static OF_STORE: [Row<'static>; 2] = [
    (1000, b"a", Ask::Get, Want::Told("miss")),
    (1000, b"k", Ask::Get, Want::Hit(5, b"2")),
];

/// Closes a store, and returns whether it answers the last steps. It is `None` if a bay is held.
fn is_answered_closed<R: Wait>(sole: Sole<'_, R, Fnv>, alloc: Global) -> Option<bool> {
    let mut store = sole.into_store(alloc)?;
    Some(are_answered(&mut store, alloc, &OF_STORE))
}

/// Returns whether steps are answered by two callers and then by the store, closed.
///
/// It is `None` if a bay is held.
fn are_answered_in_turn<R: Wait>(sole: Sole<'_, R, Fnv>, alloc: Global) -> Option<[bool; 3]> {
    let mut sole = sole;
    let first = are_answered(&mut sole, alloc, &OF_FIRST);
    let mut made = sole.passed_on();
    let second = are_answered(&mut made, alloc, &OF_SECOND);
    let third = is_answered_closed(made, alloc)?;
    Some([first, second, third])
}

#[test]
fn steps_are_answered_as_by_a_store_of_one_thread(rt: HostRuntime) -> Result<(), Fail> {
    let sole = Sole::filled(&rt, rt.alloc())?;
    let answered = are_answered_in_turn(sole, rt.alloc());
    assert_eq!(rt; answered, Some([true, true, true]));
    Ok(())
}

/// Steps in an empty store with one unique number left.
static LAST: [Row<'static>; 7] = [
    (
        1000,
        b"a",
        Ask::Store(Verb::Set, 0, b"x"),
        Want::Told("stored"),
    ),
    (1000, b"a", Ask::Get, Want::Hit(18446744073709551614, b"x")),
    (
        1000,
        b"a",
        Ask::Store(Verb::Set, 0, b"y"),
        Want::Told("numbers spent"),
    ),
    (1000, b"a", Ask::Incr(1), Want::Told("not numeric")),
    (
        1000,
        b"a",
        Ask::Store(Verb::Add, 0, b"y"),
        Want::Told("not stored"),
    ),
    (1000, b"a", Ask::Get, Want::Hit(18446744073709551614, b"x")),
    (1000, b"a", Ask::Delete, Want::Told("deleted")),
];

/// Returns the place of the first of them with an unexpected answer.
fn first_unlike_last<R: Wait>(rt: &R, alloc: Global) -> Result<Option<usize>, AllocError> {
    let mut sole = Sole::at_the_last_number(rt, alloc)?;
    Ok(first_unread(&mut sole, alloc, &LAST))
}

/// One write is left. Then each write that needs a number gets the error that they are used up.
///
/// All other steps are answered as before.
#[test]
fn unique_numbers_end(rt: HostRuntime) -> Result<(), Fail> {
    assert_eq!(rt; first_unlike_last(&rt, rt.alloc())?, None);
    Ok(())
}
