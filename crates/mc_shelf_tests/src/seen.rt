//! What tests see of a store's parts. A call that lends the store takes it apart, and makes it
//! again from its parts.

ghost use Rattle.std.specs.Prelude.{◌≡◌};

use core::mem::replace_with;
use mc_hop::{Fnv, KeyHash};
use mc_shelf::{Desk, Purging, Shelf, ShelfCounts, Store, StoreParts};
use mc_slab::{Account, Chunks, class_of};
use mc_time::Moment;
use std::alloc::Global;

/// Makes a store again from its parts.
pub(crate) fn remade(store: Store<Fnv>) -> Store<Fnv>
    ensures { result.plain ≡ store.plain }
{
    Store::from_parts(store.into_parts())
}

/// Returns a desk's pages and chunks out in the class of a charge.
pub(crate) fn account_at(desk: &Desk, charge: u64) -> (u32, u32) {
    match class_of(charge) {
        Some(class) => {
            let Account { pages, out } = desk.account(class);
            (pages, out)
        }
        None => (0, 0),
    }
}

/// Returns the same for a store, and the store.
fn account_for<K: KeyHash + Drop>(store: Store<K>, charge: u64) -> (Store<K>, (u32, u32)) {
    let parts = store.into_parts();
    let account = account_at(&parts.desk, charge);
    (Store::from_parts(parts), account)
}

/// Returns the same for a store.
pub(crate) fn account<K: KeyHash + Drop>(store: &mut Store<K>, charge: u64) -> (u32, u32) {
    replace_with(store, charge, account_for)
}

/// Returns whether an item of one of the shelves may be dead.
pub(crate) fn may_have_dead<K: KeyHash + Drop>(store: &mut Store<K>, now: Moment) -> bool {
    replace_with(store, now, may_have_dead_for)
}

/// Returns the same, and the store.
fn may_have_dead_for<K: KeyHash + Drop>(store: Store<K>, now: Moment) -> (Store<K>, bool) {
    let parts = store.into_parts();
    let may = parts.shelves.iter().any(|shelf| shelf.may_have_dead(now));
    (Store::from_parts(parts), may)
}

/// Returns the counts of the first shelf.
pub(crate) fn counts<K: KeyHash + Drop>(store: Store<K>) -> Option<ShelfCounts> {
    let StoreParts { shelves, .. } = store.into_parts();
    match shelves.first() {
        Some(shelf) => Some(shelf.counts()),
        None => None,
    }
}

/// Returns the number of the first shelf's items, and of its keys with a number.
///
/// A key's number is its hash modulo 4096. The keys are counted into places of 0.
fn count_keys(shelves: &[Shelf], number: usize) -> (usize, u64) {
    let Some(shelf) = shelves.first() else {
        return (0, 0);
    };
    let mut counts = [0u64; 4096];
    shelf.count_numbers(&mut counts);
    match counts.get(number) {
        Some(count) => (shelf.len(), *count),
        None => (shelf.len(), 0),
    }
}

/// Returns the same for a store.
pub(crate) fn keys<K: KeyHash + Drop>(store: &mut Store<K>, number: usize) -> (usize, u64) {
    replace_with(store, number, keys_for)
}

/// Returns the same, and the store.
fn keys_for<K: KeyHash + Drop>(store: Store<K>, number: usize) -> (Store<K>, (usize, u64)) {
    let parts = store.into_parts();
    let has = count_keys(&parts.shelves, number);
    (Store::from_parts(parts), has)
}

/// Returns the number of items of the first shelf that purges and flushes dropped.
pub(crate) fn reclaimed<K: KeyHash + Drop>(store: &mut Store<K>) -> Option<u64> {
    replace_with(store, (), reclaimed_for)
}

/// Returns the same, and the store.
fn reclaimed_for<K: KeyHash + Drop>(store: Store<K>, _asked: ()) -> (Store<K>, Option<u64>) {
    let parts = store.into_parts();
    let count = match parts.shelves.first() {
        Some(shelf) => Some(shelf.reclaimed()),
        None => None,
    };
    (Store::from_parts(parts), count)
}

/// Begins a purge of a shelf, and returns the chunks of its dead items.
///
/// It tries again if memory is refused, and returns none after the second refusal.
pub(crate) fn dead_chunks(alloc: Global, shelf: &mut Shelf, now: Moment) -> Option<Vec<Chunks>> {
    let purging = match shelf.begin_purge(alloc, now) {
        Purging::Whole => shelf.begin_purge(alloc, now),
        begun => begun,
    };
    match purging {
        Purging::Apart(chunks) => Some(chunks),
        Purging::Whole => None,
    }
}
