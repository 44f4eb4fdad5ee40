//! Joins to items of several pages, which are copied after the desk was given back.

use crate::sole::Sole;
use mc_hop::Fnv;
use mc_protocol::{StepFault, Verb};
use mc_shelf::Settings;
use mc_testing::{Ask, Row, Want, bounded_block, first_unlike, join, set};
use std::alloc::Global;
use std::sync::Wait;
use std::test::*;

/// A store of few pages with items of up to eight.
const LARGE: Settings = Settings {
    pages: 7,
    greatest: Settings::MOST_GREATEST,
    shelves: 64,
};

/// Joins a block of 1,500,000 bytes, one of 900,000, the first byte of `all` and its last.
///
/// Returns the first unexpected answer with its second.
fn first_unlike_join<R: Wait>(
    sole: &mut Sole<'_, R, Fnv>,
    alloc: Global,
    all: &[u8],
) -> Result<Option<(u64, &'static str)>, StepFault> {
    let (_, inner) = all.split_at(all.len().min(1));
    let (first, _) = inner.split_at(inner.len().min(1_500_000));
    let (second, _) = inner.split_at(inner.len().min(900_000));
    let rows: [Row<'_>; 7] = [
        set(1000, b"k", 0, first, "stored"),
        join(Verb::Append, second, "stored"),
        join(Verb::Prepend, b"a", "stored"),
        join(Verb::Append, b"z", "stored"),
        (1000, b"k", Ask::Get, Want::Hit(6, all)),
        join(Verb::Append, second, "no chunk"),
        (1000, b"k", Ask::Get, Want::Hit(6, all)),
    ];
    first_unlike(sole, alloc, &rows)
}

/// Returns the first unexpected answer of a new store with its second.
fn first_unlike_join_in<R: Wait>(
    rt: &R,
    alloc: Global,
    all: &[u8],
) -> Result<Option<(u64, &'static str)>, StepFault> {
    let mut sole = Sole::filled_with(rt, alloc, LARGE)?;
    first_unlike_join(&mut sole, alloc, all)
}

/// An item grows from two pages to three, is copied for a prepend, and stays for an append.
///
/// One of four pages is refused, as three are free.
#[test]
fn joins_of_pages_are_answered(rt: HostRuntime) -> Result<(), Fail> {
    let all = bounded_block(rt.alloc(), 2_400_002)?;
    let unlike = first_unlike_join_in(&rt, rt.alloc(), all.as_slice())?;
    assert_eq!(rt; unlike, None);
    Ok(())
}
