//! Keys of one hash, and what an event of growth moves. If memory is refused a test ends early.

use crate::tests::keys::keys_are_apart;
use crate::tests::set_ups::{EACH, SOME_SMALL};
use crate::tests::texts::set_of;
use crate::tests::told::Tested;
use mc_hop::Constant;
use mc_protocol::Bytes;
use mc_shelf::Store;
use mc_time::Moment;
use mc_world::{Event, WorldParts};
use std::alloc::{AllocError, Global};
use std::test::Fail;

#[test]
fn keys_of_one_hash_are_apart(rt: HostRuntime) -> Result<(), Fail> {
    for settings in &EACH {
        let mut tested = Tested::opened(&rt, rt.alloc(), Constant(0), *settings)?;
        keys_are_apart(&mut tested, 40)?;
    }
    Ok(())
}

fn happen(
    parts: &mut WorldParts<Constant>,
    alloc: Global,
    event: &Event<'_>,
) -> Result<(), AllocError> {
    match parts.happen(alloc, event) {
        Ok(()) => Ok(()),
        Err(_) => Err(AllocError),
    }
}

/// Returns the parts of a world with one page and one hash.
fn parts_of_one_hash(alloc: Global) -> Result<WorldParts<Constant>, AllocError> {
    let store = Store::new(alloc, SOME_SMALL, Constant(0))?;
    Ok(WorldParts::new(alloc, store, Moment::from_seconds(1000)))
}

fn set_key(parts: &mut WorldParts<Constant>, alloc: Global, number: u32) -> Result<(), AllocError> {
    let set = set_of(alloc, number)?;
    happen(parts, alloc, &Event::Piece(1, Bytes::of(set.as_bytes())))?;
    happen(parts, alloc, &Event::Turn(1))
}

/// Sets the keys of 1 to 34.
fn set_keys(parts: &mut WorldParts<Constant>, alloc: Global) -> Result<(), AllocError> {
    for number in 1..35 {
        set_key(parts, alloc, number)?;
    }
    Ok(())
}

/// Sets those keys. Returns how many entries one event of growth leaves in the old table.
fn left_by_growth(parts: &mut WorldParts<Constant>, alloc: Global) -> Result<usize, AllocError> {
    happen(parts, alloc, &Event::Open)?;
    set_keys(parts, alloc)?;
    happen(parts, alloc, &Event::Grow(0))?;
    Ok(parts.store.grow(0, 100))
}

/// The same, in a new world.
fn left_in_new_world(alloc: Global) -> Result<usize, AllocError> {
    let mut parts = parts_of_one_hash(alloc)?;
    left_by_growth(&mut parts, alloc)
}

/// A table takes 32 keys of one hash.
///
/// The table of 64 homes grows before the 34th comes, since the 33rd found no bucket.
#[test]
fn an_event_of_growth_moves_eight_entries(rt: HostRuntime) -> Result<(), Fail> {
    assert_eq!(rt; left_in_new_world(rt.alloc())?, 24);
    Ok(())
}
