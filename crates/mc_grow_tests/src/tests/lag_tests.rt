//! A growth that only moves entries if it lags, as on a shelf without any other call.

use crate::marked::opened;
use mc_grow::Index;
use mc_hop::{Keyed, Reads};
use std::alloc::{AllocError, Global};
use std::process::Abort;
use std::test::*;

/// An entry with a hash and no key.
#[derive(Drop)]
struct Mark {
    hash: u64,
}

impl Keyed for Mark {
    ghost use Rattle.std.specs.Prelude.{[]};

    ghost hash_of = { λ e. e.hash };

    ghost key_of = { λ e. [] };

    fn hash(&self) -> u64 {
        self.hash
    }

    fn key(&self) -> &[u8] {
        &[]
    }
}

/// Inserts an entry of this hash, if there is none. Returns how many entries its search read.
///
/// It reserves twice if memory is refused.
fn insert(index: &mut Index<Mark>, alloc: Global, hash: u64) -> Result<u64, AllocError> {
    match index.reserve(alloc) {
        Err(_) => index.reserve(alloc)?,
        Ok(()) => {}
    }
    let mark = Mark { hash };
    let mut reads = Reads(0);
    if index
        .find_counted(mark.hash(), mark.key(), &mut reads)
        .is_none()
    {
        index.insert_reserved(mark);
    }
    Ok(reads.0)
}

/// Inserts an entry as `insert` does. A growth that lags moves 8 entries first.
fn add(index: &mut Index<Mark>, alloc: Global, hash: u64) -> Result<u64, AllocError> {
    if index.lags() {
        let _ = index.move_some(8);
    }
    insert(index, alloc, hash)
}

/// Inserts entries of 20000 hashes, and checks how many entries each search reads.
fn catches_up(rt: &impl Abort, index: &mut Index<Mark>, alloc: Global) -> Result<(), AllocError> {
    for number in 0..20000u64 {
        let reads = add(index, alloc, number.wrapping_mul(11400714819323198485))?;
        assert!(rt; reads <= 64, "{reads} reads for {number}");
    }
    Ok(())
}

/// A search reads at most 32 entries in each of two tables, and each stray.
#[test]
fn an_index_that_catches_up_has_no_strays(rt: HostRuntime) -> Result<(), Fail> {
    let mut index = opened(rt.alloc())?;
    catches_up(&rt, &mut index, rt.alloc())?;
    assert!(rt; index.len() == 20000, "{} entries", index.len());
    Ok(())
}

/// Inserts 100 entries without moves, and checks from which on the growth lags.
fn lags_behind(rt: &impl Abort, index: &mut Index<Mark>, alloc: Global) -> Result<(), AllocError> {
    for number in 0..100u64 {
        let lags = index.lags();
        assert!(rt; lags == (96 <= number), "{lags} at {number}");
        let _ = insert(index, alloc, number * 256)?;
    }
    Ok(())
}

/// Without moves, a growth lags from the 97th entry on.
///
/// The table has 128 homes then, and the growth began with the 49th.
#[test]
fn a_growth_lags_by_the_load(rt: HostRuntime) -> Result<(), Fail> {
    let mut index = opened(rt.alloc())?;
    lags_behind(&rt, &mut index, rt.alloc())?;
    let moved = index.move_some(48);
    assert!(rt; moved == 48 && !index.lags(), "{moved} were moved");
    Ok(())
}
