//! Items that a flush lays aside: their chunks are free at once.
//!
//! A page goes to a class only if too few chunks are free. If memory is refused the steps are taken
//! again.

use crate::sole::Sole;
use mc_protocol::{StepFault, Verb};
use mc_shelf::Settings;
use mc_testing::{Act, Ask, Play, filled_block, first_wrong};
use std::alloc::Global;
use std::sync::Wait;
use std::test::*;

/// The length of a block that makes a page with a key of one byte.
const ONE: usize = 1_048_527;

/// A store of three pages. Its first two items have one each.
const THREE: Settings = Settings {
    pages: 3,
    greatest: Settings::GREATEST,
    shelves: 4,
};

const FLUSH: Play = (1000, b"", Act::Told(Ask::Flush(0), "flushed"));

const MISS: Play = (1000, b"b", Act::Told(Ask::Get, "miss"));

const SMALL: Act = Act::Told(Ask::Store(Verb::Set, 0, b"y"), "stored");

/// A set of an item with a page, which is stored.
const LARGE: Act = Act::Set(0, ONE, "stored");

/// One that finds no page.
const REFUSED: Act = Act::Set(0, ONE, "no chunk");

/// Fills the store with two items of a page each, and with two others after a flush.
static OF_FLUSH: [Play; 9] = [
    (1000, b"b", LARGE),
    (1000, b"c", LARGE),
    (1000, b"d", REFUSED),
    FLUSH,
    MISS,
    (1000, b"d", LARGE),
    (1000, b"a", SMALL),
    (1000, b"e", LARGE),
    (1000, b"f", REFUSED),
];

/// Fills the store after flush upon flush.
static OF_FLUSHES: [Play; 9] = [
    (1000, b"b", LARGE),
    FLUSH,
    (1000, b"c", LARGE),
    FLUSH,
    FLUSH,
    (1000, b"d", LARGE),
    (1000, b"e", LARGE),
    (1000, b"f", REFUSED),
    MISS,
];

/// Returns the first play with an unexpected answer, in a store of three pages.
fn first_wrong_with<R: Wait>(
    rt: &R,
    alloc: Global,
    page: &[u8],
    plays: &[Play],
) -> Result<Option<usize>, StepFault> {
    let mut sole = Sole::filled_with(rt, alloc, THREE)?;
    first_wrong(&mut sole, alloc, page, plays)
}

/// Returns the same, with the bytes of a page.
fn first_wrong_in<R: Wait>(
    rt: &R,
    alloc: Global,
    plays: &[Play],
) -> Result<Option<usize>, StepFault> {
    let page = filled_block(alloc, ONE)?;
    first_wrong_with(rt, alloc, page.as_slice(), plays)
}

#[test]
fn a_flush_frees_all_chunks(rt: HostRuntime) -> Result<(), Fail> {
    assert_eq!(rt; first_wrong_in(&rt, rt.alloc(), &OF_FLUSH)?, None);
    Ok(())
}

#[test]
fn each_flush_frees_all_chunks(rt: HostRuntime) -> Result<(), Fail> {
    assert_eq!(rt; first_wrong_in(&rt, rt.alloc(), &OF_FLUSHES)?, None);
    Ok(())
}
