//! An index in the middle of a growth: entries in its old table, in its table and among its strays.

use crate::marked::{add, count_at, counted, opened, take};
use mc_grow::{Index, Place};
use mc_hop::Reads;
use mc_testing::Mark;
use std::alloc::{AllocError, Global};
use std::process::Abort;
use std::test::*;

/// The one key of all these entries, which differ in their hashes.
const KEY: [u8; 2] = [0; 2];

/// The number of entries of the first home: 32 in the old table, 32 in the table, and 3 strays.
const MARKS: u64 = 67;

/// Returns an index with entries of one home.
///
/// The 33rd finds no bucket near it, and with the next a growth begins.
fn growing(alloc: Global) -> Result<Index<Mark>, AllocError> {
    let mut index = opened(alloc)?;
    for hash in 0..MARKS {
        let _ = add(&mut index, alloc, hash, KEY)?;
    }
    Ok(index)
}

/// Checks that an index is growing, and how many entries it has.
fn is_growing(rt: &impl Abort, index: &Index<Mark>) {
    assert!(rt; index.is_growing(), "no growth has begun");
    assert!(rt; index.len() == 67, "{} entries", index.len());
}

/// Checks how many entries are in the old table and among the strays, and how many homes there are.
fn stands_in_three_parts(rt: &impl Abort, index: &Index<Mark>) {
    let (left, strays, homes) = (index.entries_to_move(), index.strays(), index.homes());
    assert!(rt; left == 32, "{left} in the old table");
    assert!(rt; strays == 3, "{strays} strays");
    assert!(rt; homes == 128, "{homes} homes");
}

/// Checks that each entry is found, and no other.
fn finds_each(rt: &impl Abort, index: &Index<Mark>) {
    for hash in 0..MARKS {
        let found = index.find(hash, &KEY);
        assert!(rt; found.is_some(), "{hash} is not found");
    }
    assert!(rt;
        index.find(67, &KEY).is_none(),
        "one was found that isn't there"
    );
}

#[test]
fn entries_stand_in_three_parts(rt: HostRuntime) -> Result<(), Fail> {
    let index = growing(rt.alloc())?;
    is_growing(&rt, &index);
    stands_in_three_parts(&rt, &index);
    finds_each(&rt, &index);
    Ok(())
}

/// Checks how many entries a search reads that finds none.
fn reads_all_parts(rt: &impl Abort, index: &Index<Mark>) {
    let mut reads = Reads(0);
    let found = index.find_counted(255, &KEY, &mut reads);
    assert!(rt; found.is_none() && reads.0 == 66, "{} reads", reads.0);
}

#[test]
fn a_search_reads_both_tables_and_the_strays(rt: HostRuntime) -> Result<(), Fail> {
    let index = growing(rt.alloc())?;
    reads_all_parts(&rt, &index);
    Ok(())
}

/// Inserts 80 entries of one hash, and moves those that are in the old table.
fn add_of_one_hash(index: &mut Index<Mark>, alloc: Global) -> Result<(), AllocError> {
    for turn in 0..80u16 {
        let key = [0, (turn * 29 % 80) as u8];
        let _ = add(index, alloc, 0, key)?;
    }
    let _ = index.move_some(80);
    Ok(())
}

/// Removes the 80 entries in another order, and checks that each was there and is gone.
fn take_of_one_hash(rt: &impl Abort, index: &mut Index<Mark>) {
    for turn in 0..80u16 {
        let key = [0, (turn * 37 % 80) as u8];
        let there = take(index, 0, key);
        let gone = index.find(0, &key).is_none();
        assert!(rt; there && gone, "{key:?} was not found, or stays");
    }
}

#[test]
fn strays_of_one_hash_go_in_any_order(rt: HostRuntime) -> Result<(), Fail> {
    let mut index = opened(rt.alloc())?;
    add_of_one_hash(&mut index, rt.alloc())?;
    take_of_one_hash(&rt, &mut index);
    Ok(())
}

/// Returns whether an entry of this hash is found from a place.
fn is_found_from(index: &Index<Mark>, place: Option<Place>, hash: u64) -> bool {
    match place {
        Some(place) => index.find_again(place, hash, &KEY).is_some(),
        None => false,
    }
}

/// Removes the entry behind that of this hash, checks what is found from its place, and inserts it.
fn is_found_again(
    rt: &impl Abort,
    index: &mut Index<Mark>,
    alloc: Global,
    hash: u64,
) -> Result<(), AllocError> {
    let place = index.find(hash, &KEY);
    let other = hash.wrapping_add(1) % MARKS;
    assert!(rt; take(index, other, KEY), "{other} is not there");
    assert!(rt;
        is_found_from(index, place, hash),
        "{hash} is not found again"
    );
    assert!(rt;
        !is_found_from(index, place, other),
        "{other} is still there"
    );
    let added = add(index, alloc, other, KEY)?;
    assert!(rt; added, "{other} stood there");
    Ok(())
}

#[test]
fn places_are_found_again_after_a_removal(rt: HostRuntime) -> Result<(), Fail> {
    let mut index = growing(rt.alloc())?;
    for hash in 0..MARKS {
        is_found_again(&rt, &mut index, rt.alloc(), hash)?;
    }
    assert!(rt; index.len() == 67, "{} entries", index.len());
    Ok(())
}

/// Changes the entry of this hash, if there is one, and checks that it is that one.
fn is_changed(rt: &impl Abort, index: &mut Index<Mark>, hash: u64) {
    if let Some(place) = index.find(hash, &KEY) {
        let (told, _) = index.update(place, |mark| counted(mark));
        assert!(rt; told == hash, "{told} was changed for {hash}");
        assert!(rt; count_at(index, place) == Some(1), "{hash} is not counted");
    }
}

#[test]
fn each_entry_is_changed_in_its_place(rt: HostRuntime) -> Result<(), Fail> {
    let mut index = growing(rt.alloc())?;
    for hash in 0..MARKS {
        is_changed(&rt, &mut index, hash);
    }
    Ok(())
}

/// Removes up to 67 entries, each from where the last one was. Returns the sum of their hashes.
fn swept(index: &mut Index<Mark>) -> u64 {
    let mut at = 0;
    let mut hashes = 0u64;
    for _turn in 0..MARKS {
        if let Some((number, place)) = index.filled_from(at) {
            at = number;
            let mark = index.remove(place);
            hashes = mark.hash.wrapping_add(hashes);
        }
    }
    hashes
}

/// Checks that a sweep removes all entries.
fn is_swept(rt: &impl Abort, index: &mut Index<Mark>) {
    let hashes = swept(index);
    assert!(rt; hashes == 2211, "the hashes' sum is {hashes}");
    assert!(rt; index.len() == 0, "{} are left", index.len());
    assert!(rt; index.filled_from(0).is_none(), "one is left");
}

#[test]
fn a_sweep_takes_each_entry_out(rt: HostRuntime) -> Result<(), Fail> {
    let mut index = growing(rt.alloc())?;
    is_swept(&rt, &mut index);
    Ok(())
}
