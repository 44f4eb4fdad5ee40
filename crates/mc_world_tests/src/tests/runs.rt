//! Worlds with sessions, and runs of them.

use crate::worlds::{twice, world, world_with};
use mc_hop::{Fnv, KeyHash};
use mc_shelf::Settings;
use mc_world::{Event, World};
use std::alloc::{AllocError, Global};

/// Returns a world at 1000 with session 1 open, whose store has these settings.
pub(crate) fn opened_with<K: KeyHash + Drop>(
    alloc: Global,
    hasher: K,
    settings: Settings,
) -> Result<World<K>, AllocError> {
    after(alloc, world_with(alloc, hasher, settings)?, &[Event::Open])
}

/// Returns a world after these events.
pub(crate) fn after<K: KeyHash + Drop>(
    alloc: Global,
    mut world: World<K>,
    events: &[Event<'_>],
) -> Result<World<K>, AllocError> {
    run(&mut world, alloc, events)?;
    Ok(world)
}

/// The same, with session 2 open too. It allocates again if memory is refused.
pub(crate) fn opened_twice(alloc: Global) -> Result<World<Fnv>, AllocError> {
    twice!(opened_both(alloc))
}

fn opened_both(alloc: Global) -> Result<World<Fnv>, AllocError> {
    after(alloc, world(alloc, Fnv)?, &[Event::Open, Event::Open])
}

/// Runs all events; a refusal is an error.
pub(crate) fn run<K: KeyHash + Drop>(
    world: &mut World<K>,
    alloc: Global,
    events: &[Event<'_>],
) -> Result<(), AllocError> {
    if world.run(alloc, events).is_err() {
        return Err(AllocError);
    }
    Ok(())
}
