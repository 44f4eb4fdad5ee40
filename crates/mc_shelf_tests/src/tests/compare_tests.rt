//! The store by shelves beside the plain store: the same random steps have the same replies.
//!
//! Tables grow and dead items are purged between them, and sometimes the clock goes back. If memory
//! is refused, a store takes the step at the second try.

ghost use Rattle.std.specs.Prelude.{◌<◌, ◌≤◌, length};
ghost use Rattle.mc_protocol.specs.Commands.{key_of};

use crate::stores::small_items;
use mc_command::{KeyTest, PlainStore};
use mc_hop::{Constant, Fnv, KeyHash};
use mc_protocol::{Bytes, KeyStep, StepFault, Verb};
use mc_shelf::Store;
use mc_testing::{Dice, ask_step, is_same};
use mc_time::Moment;
use std::alloc::{AllocError, Global};
use std::process::Abort;
use std::test::*;

/// Letters and digits, each once: each two neighbours make a key.
const LETTERS: &[u8] = b"abcdefghijklmnopqrstuvwxyzABCDEFGHIJKLMNOPQRSTUVWXYZ0123456789";

/// Returns one of 64 different keys, more than a table of one hash takes.
fn key_at(number: u64) -> &'static [u8]
    requires { number < 64 }
    ensures { length result.now ≤ 250 }
{
    match number {
        0 => b"a",
        1 => b"b",
        2 => b"key of one shelf",
        3 => b"key of another shelf",
        4 => b"",
        5 => b"aa",
        6 => b"ba",
        7 => b"k",
        _ => &LETTERS[number as usize - 8..][..2],
    }
}

/// Returns a block, from an empty one to one of a whole page, with numbers among them.
fn block_at(bytes: &[u8], number: u64) -> &[u8] {
    let len = match number {
        0 => 600000,
        1 => 0,
        2 => 5000,
        3..12 => 20,
        12..20 => 100,
        _ => 1,
    };
    if len < bytes.len() {
        &bytes[..len]
    } else {
        bytes
    }
}

fn exptime_at(number: u64) -> i64 {
    match number {
        0 => -1,
        1 => 2,
        2 => 10,
        _ => 0,
    }
}

fn verb_at(number: u64) -> Verb {
    match number {
        0 => Verb::Add,
        1 => Verb::Replace,
        2 => Verb::Append,
        3 => Verb::Prepend,
        _ => Verb::Set,
    }
}

/// Returns a random step of any kind.
fn step_of<'a>(dice: &mut Dice, bytes: &'a [u8]) -> KeyStep<'a>
    ensures { length (key_of result) ≤ 250 }
{
    let key = key_at(dice.roll(64));
    let block = block_at(bytes, dice.roll(40));
    let exptime = exptime_at(dice.roll(8));
    let number = dice.roll(1000);
    let kind = dice.roll(40);
    step_with(Bytes::of(key), Bytes::of(block), exptime, number, kind)
}

/// Returns a step of a kind, 0 to 39.
fn step_with<'a>(
    key: Bytes<'a>,
    block: Bytes<'a>,
    exptime: i64,
    number: u64,
    kind: u64,
) -> KeyStep<'a>
    requires { length key ≤ 250 }
    ensures { length (key_of result) ≤ 250 }
{
    match kind {
        0 => KeyStep::Touch { key, exptime },
        1 => KeyStep::ReadTouch { key, exptime },
        2 => KeyStep::Delete { key },
        3 => KeyStep::Flush { delay: number % 4 },
        4 => KeyStep::Cas {
            key,
            flags: 1,
            exptime,
            block,
            unique: number % 50,
        },
        5..8 => KeyStep::Count {
            key,
            up: number % 2 == 0,
            by: number,
        },
        8..12 => KeyStep::Read { key },
        _ => KeyStep::Store {
            verb: verb_at(number % 8),
            key,
            flags: 2,
            exptime,
            block,
        },
    }
}

/// Takes a step in both stores, and returns whether the replies are equal.
fn is_answered_alike<K: KeyHash + Drop>(
    alloc: Global,
    store: &mut Store<K>,
    plain: &mut PlainStore,
    step: &KeyStep<'_>,
    now: Moment,
) -> Result<bool, StepFault>
    requires { length (key_of step.now) ≤ 250 }
{
    let reply = ask_step(store, alloc, step, now)?;
    let wanted = ask_step(plain, alloc, step, now)?;
    Ok(is_same(&reply, &wanted))
}

/// Returns a moment for a turn: 20 turns take a second, and up to 11 seconds are added at random.
fn moment_after(dice: &mut Dice, turn: u64) -> Moment {
    Moment::from_seconds_at_most((1000 + turn / 20).saturating_add(dice.roll(12)))
}

/// Eight hashes on one shelf, with neighbouring homes.
#[derive(Clone, Copy)]
struct EightHashes;

impl KeyHash for EightHashes {
    ghost use Rattle.std.specs.Prelude.{◌*◌, ◌%◌};
    ghost use Rattle.mc_hop.specs.Hash.{fnv};

    ghost hash_of = { λ hasher key. fnv key % 8 * 256 };

    fn hash(&self, key: &[u8]) -> u64 {
        Fnv.hash(key) % 8 * 256
    }
}

/// All keys.
#[derive(Drop)]
struct AllKeys;

impl KeyTest for AllKeys {
    ghost use Rattle.std.specs.Prelude.{true};

    ghost means = { λ test key. true };

    fn is_meant(&self, _key: &[u8]) -> bool {
        true
    }
}

/// Drops the dead items of all shelves, and of the plain store.
fn purge_both<K: KeyHash + Drop>(store: &mut Store<K>, plain: &mut PlainStore, now: Moment) {
    for shelf in 0..64 {
        store.purge(shelf, now);
    }
    plain.purge(now, &AllKeys);
}

/// A store and the plain store, of four pages.
#[derive(Drop)]
struct Pair<K: KeyHash + Drop> {
    store: Store<K>,
    plain: PlainStore,
}

impl<K: KeyHash + Drop> Pair<K> {
    fn of(alloc: Global, store: Store<K>) -> Result<Pair<K>, AllocError> {
        let plain = PlainStore::new(alloc, 4, 1048576)?;
        Ok(Pair { store, plain })
    }

    /// Takes a random step in both, and returns whether the replies are equal.
    fn answers_alike(
        &mut self,
        alloc: Global,
        bytes: &[u8],
        dice: &mut Dice,
        now: Moment,
    ) -> Result<bool, StepFault> {
        let step = step_of(dice, bytes);
        is_answered_alike(alloc, &mut self.store, &mut self.plain, &step, now)
    }

    /// Drops what is dead in both after one turn of fifty.
    fn purge_at_times(&mut self, dice: &mut Dice, turn: u64) {
        if dice.roll(50) == 0 {
            let now = moment_after(dice, turn);
            purge_both(&mut self.store, &mut self.plain, now);
        }
    }

    /// Takes one turn, and returns whether an entry was moved.
    fn take_turn(
        &mut self,
        rt: &impl Abort,
        alloc: Global,
        bytes: &[u8],
        dice: &mut Dice,
        turn: u64,
    ) -> Result<bool, Fail> {
        let now = moment_after(dice, turn);
        let alike = self.answers_alike(alloc, bytes, dice, now)?;
        assert!(rt; alike, "turn {turn}");
        let moved = self.store.grow(0, 1) > 0;
        self.purge_at_times(dice, turn);
        Ok(moved)
    }

    /// Takes 4000 steps in both, and returns whether any entry was moved.
    ///
    /// Each step is up to 11 seconds after a moment that rises, so that many are before the last
    /// one's. After each step one entry of the first shelf's old table is moved, and after some the
    /// items that are dead at another such moment are dropped.
    fn compare(&mut self, rt: &impl Abort, alloc: Global, bytes: &[u8]) -> Result<bool, Fail> {
        let mut dice = Dice::new(1);
        let mut moved = false;
        for turn in 0..4000 {
            moved |= self.take_turn(rt, alloc, bytes, &mut dice, turn)?;
        }
        Ok(moved)
    }
}

/// Returns a pair of empty stores.
fn open_once<K: KeyHash + Drop>(alloc: Global, hasher: K) -> Result<Pair<K>, AllocError> {
    Pair::of(alloc, Store::new(alloc, small_items(4), hasher)?)
}

/// Returns the same. It allocates twice if memory is refused.
fn open<K: KeyHash + Drop + Copy>(alloc: Global, hasher: K) -> Result<Pair<K>, AllocError> {
    match open_once(alloc, hasher) {
        Err(_) => open_once(alloc, hasher),
        made => made,
    }
}

/// Returns the bytes that blocks are taken from. It allocates twice if memory is refused.
fn open_bytes(alloc: Global) -> Result<Vec<u8>, AllocError> {
    match vec![in alloc; b'7'; 600000] {
        Err(_) => vec![in alloc; b'7'; 600000],
        bytes => bytes,
    }
}

/// Compares two stores with these bytes, and returns whether any entry was moved.
fn compare_with<K: KeyHash + Drop + Copy>(
    rt: &impl Abort,
    alloc: Global,
    hasher: K,
    bytes: &[u8],
) -> Result<bool, Fail> {
    let mut pair = open(alloc, hasher)?;
    pair.compare(rt, alloc, bytes)
}

/// Compares two stores, and returns whether any entry was moved.
fn compare<K: KeyHash + Drop + Copy>(
    rt: &impl Abort,
    alloc: Global,
    hasher: K,
) -> Result<bool, Fail> {
    let bytes = open_bytes(alloc)?;
    compare_with(rt, alloc, hasher, bytes.as_slice())
}

#[test]
fn random_steps_are_answered_as_by_the_plain_store(rt: HostRuntime) -> Result<(), Fail> {
    compare(&rt, rt.alloc(), Fnv)?;
    Ok(())
}

#[test]
fn they_are_so_while_a_table_of_one_hash_grows(rt: HostRuntime) -> Result<(), Fail> {
    let moved = compare(&rt, rt.alloc(), Constant(0))?;
    assert!(rt; moved, "no entry was moved");
    Ok(())
}

#[test]
fn they_are_so_while_a_table_of_eight_hashes_grows(rt: HostRuntime) -> Result<(), Fail> {
    let moved = compare(&rt, rt.alloc(), EightHashes)?;
    assert!(rt; moved, "no entry was moved");
    Ok(())
}
