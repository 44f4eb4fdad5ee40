//! New worlds of tests.

ghost use Rattle.std.specs.Prelude.{◌≤◌};

use mc_hop::KeyHash;
use mc_shelf::Settings;
use mc_time::Moment;
use mc_world::World;
use std::alloc::{AllocError, Global};

/// Makes a call again if memory is refused.
macro_rules! twice {
    ($call:expr) => {
        match $call {
            Err(_) => $call,
            made => made,
        }
    };
}

pub(crate) use twice;

/// Returns a world at 1000 whose store has these settings.
pub(crate) fn world_with<K: KeyHash + Drop>(
    alloc: Global,
    hasher: K,
    settings: Settings,
) -> Result<World<K>, AllocError> {
    World::new(alloc, settings, hasher, Moment::from_seconds(1000))
}

/// Returns a world at 1000.
pub(crate) fn world<K: KeyHash + Drop>(alloc: Global, hasher: K) -> Result<World<K>, AllocError> {
    world_of(alloc, hasher, 64)
}

/// The same, with this many pages.
pub(crate) fn world_of<K: KeyHash + Drop>(
    alloc: Global,
    hasher: K,
    pages: u32,
) -> Result<World<K>, AllocError>
    requires { (1 ≤ pages) × (pages ≤ 65536) }
{
    let settings = Settings {
        pages,
        greatest: Settings::GREATEST,
        shelves: 64,
    };
    world_with(alloc, hasher, settings)
}

/// The same. It allocates twice if memory is refused.
pub(crate) fn retried_world<K: KeyHash + Drop + Copy>(
    alloc: Global,
    hasher: K,
    pages: u32,
) -> Result<World<K>, AllocError>
    requires { (1 ≤ pages) × (pages ≤ 65536) }
{
    twice!(world_of(alloc, hasher, pages))
}
