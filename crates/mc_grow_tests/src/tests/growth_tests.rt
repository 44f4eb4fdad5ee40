//! When a growth begins, how it goes on and when it ends, with one hash for all keys.

use crate::marked::{add, opened};
use mc_grow::{Index, Place};
use mc_testing::Mark;
use std::alloc::{AllocError, Global};
use std::process::Abort;
use std::test::*;

/// Returns whether an index grows once this key was inserted and 8 entries were moved.
fn grows_at(key: u8) -> bool {
    (34 <= key && key <= 36) || 38 <= key
}

/// Inserts a key, moves 8 entries, and checks how many were moved and whether the index grows.
fn goes_by_the_rules(
    rt: &impl Abort,
    index: &mut Index<Mark>,
    alloc: Global,
    key: u8,
) -> Result<(), AllocError> {
    let added = add(index, alloc, 0, [0, key])?;
    let moved = index.move_some(8);
    let wanted = if key < 34 { 0 } else { 8 };
    let right = added && index.is_growing() == grows_at(key) && moved == wanted;
    assert!(rt; right, "after key {key} {moved} were moved");
    Ok(())
}

/// Checks that a growth ends once 8 entries more were moved.
fn ends(rt: &impl Abort, index: &mut Index<Mark>) {
    let moved = index.move_some(8);
    assert!(rt;
        moved == 8 && !index.is_growing(),
        "{moved} were moved at last"
    );
}

#[test]
fn a_growth_goes_by_the_rules(rt: HostRuntime) -> Result<(), Fail> {
    let mut index = opened(rt.alloc())?;
    for key in 1..41u8 {
        goes_by_the_rules(&rt, &mut index, rt.alloc(), key)?;
    }
    ends(&rt, &mut index);
    Ok(())
}

/// Returns whether a key is found from a place where it is found by a search.
fn is_found_alike(index: &Index<Mark>, place: Place, key: u8) -> bool {
    is_same(
        index.find_again(place, 0, &[0, key]),
        index.find(0, &[0, key]),
    )
}

/// Returns whether two keys are found from the first one's place once 8 entries were moved.
fn is_found_after_moves(index: &mut Index<Mark>) -> bool {
    let before = index.find(0, &[0, 1]);
    let _ = index.move_some(8);
    match before {
        None => false,
        Some(place) => is_found_alike(index, place, 1) && is_found_alike(index, place, 2),
    }
}

#[test]
fn a_place_is_found_again_after_moves(rt: HostRuntime) -> Result<(), Fail> {
    let mut index = opened(rt.alloc())?;
    for key in 1..41u8 {
        let _ = add(&mut index, rt.alloc(), 0, [0, key])?;
        let right = is_found_after_moves(&mut index);
        assert!(rt; right, "another place is found again after key {key}");
    }
    Ok(())
}

/// Returns whether two places are the same, or both `None`.
fn is_same(one: Option<Place>, other: Option<Place>) -> bool {
    match (one, other) {
        (None, None) => true,
        (Some(one), Some(other)) => one == other,
        _ => false,
    }
}
