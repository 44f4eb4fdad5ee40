//! A table of marks: entries are inserted, found, changed and removed.
//!
//! A search takes at most 32 reads.

use crate::marked::counted;
use mc_hop::{Hop, Reads};
use mc_testing::{Mark, add_mark, marks_table};
use std::alloc::{AllocError, Global};
use std::process::Abort;
use std::test::*;

/// The hashes and the keys of three marks of one home; the last has another hash than its own
/// key's.
const MARKS: [(u64, [u8; 2]); 3] = [
    (256, [b'a', b'a']),
    (256, [b'b', b'b']),
    (257, [b'a', b'a']),
];

/// Returns a table of 64 homes with these marks. It allocates twice if memory is refused.
fn opened(alloc: Global) -> Result<Hop<Mark>, AllocError> {
    let mut table = marks_table(alloc)?;
    for (hash, key) in MARKS {
        add_mark(&mut table, hash, key);
    }
    Ok(table)
}

/// Checks where the three marks are, and that no other is found.
fn finds_what_was_put_in(rt: &impl Abort, table: &Hop<Mark>) {
    assert!(rt; table.len() == 3, "{} entries", table.len());
    assert!(rt;
        table.find(256, b"aa") == Some(1),
        "the first is not in its home"
    );
    assert!(rt;
        table.find(256, b"bb") == Some(2),
        "the second is not behind it"
    );
    assert!(rt;
        table.find(257, b"aa") == Some(3),
        "the third is not behind them"
    );
    assert!(rt;
        table.find(257, b"bb").is_none(),
        "a mark that was not put in"
    );
}

#[test]
fn what_is_put_in_is_found(rt: HostRuntime) -> Result<(), Fail> {
    let table = opened(rt.alloc())?;
    finds_what_was_put_in(&rt, &table);
    Ok(())
}

/// Checks how many entries a walk reads that finds none.
fn reads_what_its_home_holds(rt: &impl Abort, table: &Hop<Mark>) {
    let mut reads = Reads(0);
    let found = table.find_counted(257, b"bb", &mut reads);
    assert!(rt; found.is_none() && reads.0 == 3, "{} reads", reads.0);
}

#[test]
fn a_walk_reads_what_its_home_holds(rt: HostRuntime) -> Result<(), Fail> {
    let table = opened(rt.alloc())?;
    reads_what_its_home_holds(&rt, &table);
    Ok(())
}

/// Counts the second mark and removes it, if it is there, and checks its count at both times.
fn count_and_take_out(rt: &impl Abort, table: &mut Hop<Mark>) {
    if let Some(at) = table.find(256, b"bb") {
        let (_, before) = table.update(at, |mark| counted(mark));
        assert!(rt; before == 0, "it was counted before");
        let mark = table.remove(at);
        assert!(rt; mark.count == 1, "it was not counted");
    }
}

#[test]
fn a_mark_is_counted_and_taken_out(rt: HostRuntime) -> Result<(), Fail> {
    let mut table = opened(rt.alloc())?;
    count_and_take_out(&rt, &mut table);
    assert!(rt;
        table.find(256, b"bb").is_none() && table.len() == 2,
        "it is still there"
    );
    Ok(())
}

/// Removes a mark and checks how many are left. Returns its hash, or 0 if there was none.
fn take_any(rt: &impl Abort, table: &mut Hop<Mark>, left: usize) -> u64 {
    let hash = match table.any_filled() {
        Some(at) => table.remove(at).hash,
        None => 0,
    };
    assert!(rt; table.len() == left, "{} are left for {left}", table.len());
    hash
}

/// Removes the three marks one by one, and checks that their hashes are those that were put in.
fn take_each(rt: &impl Abort, table: &mut Hop<Mark>) {
    let mut hashes = 0u64;
    for left in [2, 1, 0] {
        hashes = hashes.wrapping_add(take_any(rt, table, left));
    }
    let right = hashes == 256 + 256 + 257 && table.any_filled().is_none();
    assert!(rt; right, "the hashes' sum is {hashes}");
}

#[test]
fn every_mark_is_found_without_its_key(rt: HostRuntime) -> Result<(), Fail> {
    let mut table = opened(rt.alloc())?;
    assert!(rt; table.exponent() == 6, "2^{} homes", table.exponent());
    take_each(&rt, &mut table);
    Ok(())
}
