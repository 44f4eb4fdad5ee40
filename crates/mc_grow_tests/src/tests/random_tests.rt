//! An index beside std's map: the same random steps while tables grow.
//!
//! The hashes are well spread, of eight values, of one home, or all one. If memory is refused the
//! step is taken again.

use crate::marked::{add, count_at, count_more, opened, take};
use mc_grow::{Index, Place};
use mc_hop::{Fnv, KeyHash};
use mc_testing::{Dice, Mark};
use std::alloc::{AllocError, Global};
use std::collections::BTreeMap;
use std::process::Abort;
use std::test::*;

/// How many hashes the keys have.
#[derive(Clone, Copy, Debug)]
enum Hashes {
    Spread,
    Eight,
    Home,
    One,
}

impl Hashes {
    /// Returns the hash of a key. Eight hashes have eight neighbouring homes.
    fn of(self, key: [u8; 2]) -> u64 {
        match self {
            Hashes::Spread => Fnv.hash(&key),
            Hashes::Eight => Fnv.hash(&key) % 8 * 256,
            Hashes::Home => Fnv.hash(&key) >> 40 << 40,
            Hashes::One => 0,
        }
    }
}

/// What a step does with a key.
#[derive(Clone, Copy)]
enum Act {
    Put,
    Count,
    Take,
    Look,
}

/// Half of the steps insert, and one of eight removes: most keys have an entry in the end.
const ACTS: [Act; 8] = [
    Act::Put,
    Act::Put,
    Act::Put,
    Act::Put,
    Act::Count,
    Act::Take,
    Act::Look,
    Act::Look,
];

/// The number of keys: for three quarters of them a table of 64 homes has to grow twice.
const KEYS: u16 = 160;

/// An index and the map that it is compared with, which has the counts under the keys.
#[derive(Drop)]
struct Pair {
    hashes: Hashes,
    index: Index<Mark>,
    map: BTreeMap<u16, u32>,
    /// An earlier place, which may have another entry by now, or none.
    kept: Option<Place>,
}

impl Pair {
    fn open(alloc: Global, hashes: Hashes) -> Result<Pair, AllocError> {
        Ok(Pair {
            hashes,
            index: opened(alloc)?,
            map: BTreeMap::new(alloc),
            kept: None,
        })
    }

    fn find(&self, key: u16) -> Option<Place> {
        let key = key.to_be_bytes();
        self.index.find(self.hashes.of(key), &key)
    }

    /// Takes a step in both. Returns whether both had an entry of the key before, or neither.
    fn step(&mut self, alloc: Global, act: Act, key: u16) -> Result<bool, AllocError> {
        let bytes = key.to_be_bytes();
        let hash = self.hashes.of(bytes);
        match act {
            Act::Put => {
                let had = self.map.contains_key(&key);
                if !had {
                    put(&mut self.map, key)?;
                }
                Ok(add(&mut self.index, alloc, hash, bytes)? != had)
            }
            Act::Count => {
                let had = match self.map.get_mut(&key) {
                    Some(count) => {
                        *count = count.saturating_add(1);
                        true
                    }
                    None => false,
                };
                Ok(count_more(&mut self.index, hash, bytes) == had)
            }
            Act::Take => Ok(take(&mut self.index, hash, bytes) == self.map.remove(&key).is_some()),
            Act::Look => {
                let found = self.find(key);
                self.kept = found.or(self.kept);
                Ok(found.is_some() == self.map.contains_key(&key))
            }
        }
    }

    /// Returns whether a key has the same count in both, or none.
    ///
    /// It must also be found from the earlier place.
    fn is_alike(&self, key: u16) -> bool {
        let found = self.find(key);
        let bytes = key.to_be_bytes();
        let again = match self.kept {
            Some(kept) => self.index.find_again(kept, self.hashes.of(bytes), &bytes),
            None => found,
        };
        let count = match found {
            Some(place) => count_at(&self.index, place),
            None => None,
        };
        again == found && count == self.map.get(&key).copied()
    }

    /// Returns the first key that differs in both.
    fn first_unlike(&self) -> Option<u16> {
        (0..KEYS).find(|key| !self.is_alike(*key))
    }
}

/// Puts a key with the count 0 into the map, and tries again if memory is refused.
fn put(map: &mut BTreeMap<u16, u32>, key: u16) -> Result<(), AllocError> {
    if map.insert(key, 0).is_err() {
        map.insert(key, 0)?;
    }
    Ok(())
}

/// Takes a random step in both, and checks that they had the same before.
fn step_alike(
    rt: &impl Abort,
    alloc: Global,
    pair: &mut Pair,
    dice: &mut Dice,
    turn: u32,
) -> Result<(), AllocError> {
    let act = ACTS[dice.roll(8) as usize];
    let key = dice.roll(u64::from(KEYS)) as u16;
    let alike = pair.step(alloc, act, key)?;
    let hashes = pair.hashes;
    assert!(rt;
        alike,
        "turn {turn} of {hashes:?}: key {key} stood in one alone"
    );
    Ok(())
}

/// Checks that both have the same.
fn is_alike(rt: &impl Abort, pair: &Pair, turn: u32) {
    let hashes = pair.hashes;
    let unlike = pair.first_unlike();
    let right = unlike.is_none() && pair.index.len() == pair.map.len();
    assert!(rt; right, "turn {turn} of {hashes:?}: {unlike:?} differs");
}

/// Takes 800 steps in both, moves up to two entries after each, and checks that both have the same.
///
/// Returns whether an entry was moved.
fn steps_alike(rt: &impl Abort, alloc: Global, pair: &mut Pair) -> Result<bool, AllocError> {
    let mut dice = Dice::new(1);
    let mut moves = false;
    for turn in 0..800 {
        step_alike(rt, alloc, pair, &mut dice, turn)?;
        moves |= pair.index.move_some(dice.roll(3) as usize) > 0;
        is_alike(rt, pair, turn);
    }
    Ok(moves)
}

#[test]
fn random_steps_leave_what_a_map_has(rt: HostRuntime) -> Result<(), Fail> {
    for hashes in [Hashes::Spread, Hashes::Eight, Hashes::Home, Hashes::One] {
        let mut pair = Pair::open(rt.alloc(), hashes)?;
        let moves = steps_alike(&rt, rt.alloc(), &mut pair)?;
        assert!(rt; moves, "no entry was moved with {hashes:?}");
    }
    Ok(())
}
