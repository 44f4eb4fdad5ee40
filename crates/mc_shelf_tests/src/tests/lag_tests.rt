//! A shelf that gets all keys, and whose growth gets no other call.

use crate::lengths::{ByLength, front, set_key};
use crate::seen::counts;
use crate::stores::open_with;
use mc_shelf::{ShelfCounts, Store};
use mc_testing::filled_block;
use std::alloc::{AllocError, Global};
use std::test::*;

/// Sets keys of each length from 1 to `keys`, fronts of `long`.
fn set_keys(store: &mut Store<ByLength>, alloc: Global, long: &[u8], keys: usize) {
    for before in 0..keys {
        set_key(store, alloc, front(long, before + 1));
    }
}

/// Returns a store with keys of each length from 1 to `keys`, at most 250.
fn store_of(alloc: Global, keys: usize) -> Result<Store<ByLength>, AllocError> {
    let long = filled_block(alloc, 250)?;
    let mut store = open_with(alloc, 64, ByLength)?;
    set_keys(&mut store, alloc, long.as_slice(), keys);
    Ok(store)
}

/// Returns how many entries such a store has left to move.
fn left_of(alloc: Global, keys: usize) -> Result<usize, AllocError> {
    Ok(store_of(alloc, keys)?.grow(0, 1000))
}

/// Returns the counts of the first shelf of such a store.
fn counts_of(alloc: Global, keys: usize) -> Result<Option<ShelfCounts>, AllocError> {
    Ok(counts(store_of(alloc, keys)?))
}

/// The table of 64 homes grows before the 49th key comes.
///
/// The growth lags from the 97th key on, when there are more than three for every four of 128
/// homes, and each key that comes moves 8 entries. The 102nd moves the last, and the table of 256
/// homes is made. Its growth lags from the 193rd on, and is over with the 205th.
#[test]
fn a_growth_that_lags_is_moved_on_by_new_keys(rt: HostRuntime) -> Result<(), Fail> {
    static ROWS: [(usize, usize); 9] = [
        (48, 0),
        (49, 48),
        (96, 48),
        (97, 40),
        (101, 8),
        (102, 101),
        (192, 101),
        (193, 93),
        (205, 204),
    ];
    for (keys, want) in &ROWS {
        let left = left_of(rt.alloc(), *keys)?;
        assert!(rt; left == *want, "{left} are left after {keys} keys");
    }
    Ok(())
}

/// Each home has at most one entry, so that none is a stray.
#[test]
fn a_shelf_counts_what_its_table_has(rt: HostRuntime) -> Result<(), Fail> {
    // The number of keys, and then: the homes, whether the table grows, and the entries left to
    // move.
    static ROWS: [(usize, u64, bool, u64); 6] = [
        (0, 64, false, 0),
        (48, 64, false, 0),
        (49, 128, true, 48),
        (97, 128, true, 40),
        (102, 256, true, 101),
        (205, 512, true, 204),
    ];
    for (keys, homes, growing, left) in &ROWS {
        let want = ShelfCounts {
            items: *keys as u64,
            homes: *homes,
            growing: *growing,
            left: *left,
            strays: 0,
        };
        assert!(rt;
            counts_of(rt.alloc(), *keys)? == Some(want),
            "after {keys} keys"
        );
    }
    Ok(())
}
