//! A store that is flushed at once as the shared store does it.

use crate::stores::set_up;
use mc_hop::KeyHash;
use mc_shelf::{Store, StoreParts};
use std::alloc::{AllocError, Global};

/// Flushes a store at once: its desk lays its shelves aside, and a new store's replace them.
///
/// No flush is pending afterwards.
pub(crate) fn laid_aside<K: KeyHash + Drop + Copy>(
    alloc: Global,
    store: Store<K>,
) -> Result<Store<K>, AllocError> {
    let StoreParts {
        settings,
        hasher,
        shelves: old,
        mut desk,
    } = store.into_parts();
    let StoreParts { shelves, .. } = set_up(alloc, settings, hasher)?.into_parts();
    desk.lay_aside(old);
    Ok(Store::from_parts(StoreParts {
        settings,
        hasher,
        shelves,
        desk,
    }))
}
