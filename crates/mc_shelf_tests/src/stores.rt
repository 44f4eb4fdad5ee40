//! Stores for tests. Each allocates twice if memory is refused.

ghost use Rattle.std.specs.Prelude.{◌≡◌, ◌≤◌, IfOk};
ghost use Rattle.mc_protocol.specs.Plain.{opening};

use mc_hop::{Fnv, KeyHash};
use mc_shelf::{Settings, Store};
use std::alloc::{AllocError, Global};

/// Returns settings of stores with some pages, and with items of at most one.
pub(crate) fn small_items(pages: u32) -> Settings
    requires { (1 ≤ pages) × (pages ≤ 65536) }
{
    Settings {
        pages,
        greatest: Settings::GREATEST,
        shelves: 64,
    }
}

/// Returns settings of stores with some pages, and with items of up to eight.
pub(crate) fn large_items(pages: u32) -> Settings
    requires { (1 ≤ pages) × (pages ≤ 65536) }
{
    Settings {
        pages,
        greatest: Settings::MOST_GREATEST,
        shelves: 64,
    }
}

/// Returns an empty store with these settings.
pub(crate) fn set_up<K: KeyHash + Drop + Copy>(
    alloc: Global,
    settings: Settings,
    hasher: K,
) -> Result<Store<K>, AllocError>
    ensures plain { IfOk result (λ store.
        store.plain ≡ opening settings.pages settings.greatest) }
    ensures settings { IfOk result (λ store. store.settings ≡ settings) }
    ensures hasher { IfOk result (λ store. store.hasher ≡ hasher) }
{
    match Store::new(alloc, settings, hasher) {
        Err(_) => Store::new(alloc, settings, hasher),
        made => made,
    }
}

/// Returns a store with 64 shelves and some pages, with items of at most one page.
pub(crate) fn open_with<K: KeyHash + Drop + Copy>(
    alloc: Global,
    pages: u32,
    hasher: K,
) -> Result<Store<K>, AllocError>
    requires { (1 ≤ pages) × (pages ≤ 65536) }
{
    set_up(alloc, small_items(pages), hasher)
}

/// Returns the same, with Fnv as the hash of keys.
pub(crate) fn open(alloc: Global, pages: u32) -> Result<Store<Fnv>, AllocError>
    requires { (1 ≤ pages) × (pages ≤ 65536) }
{
    open_with(alloc, pages, Fnv)
}
