//! Searches for random keys; some of them have an item.
//!
//! A window is 1024 keys, which are drawn and hashed before its time is taken. So only the searches
//! are measured, and other work of the machine spoils few windows. bench/chains.c has the same
//! items and draws the same keys.
ghost use Rattle.std.specs.Prelude.{◌≤◌};

use crate::asked::Within;
use crate::indexes::Indexes;
use mc_hop::{Fnv, KeyHash};
use mc_protocol::{Bytes, KeyStep, Reply, Steps, Verb};
use mc_shelf::{Settings, Store};
use mc_testing::Dice;
use mc_time::Moment;
use std::alloc::{AllocError, Global};
use std::io;
use std::time::CpuClock;

/// The number of keys in a window.
const WINDOW: usize = 1024;

/// Where keys are searched.
pub trait Search {
    /// Inserts an item of a new key.
    fn put(&mut self, alloc: Global, key: &[u8; 32]) -> Result<(), AllocError>;

    /// Ends every running growth.
    fn settle(&mut self);

    /// Returns the flags of a key's item, which are 0, or `None`. `hash` is the key's hash.
    fn flags(&mut self, alloc: Global, key: &[u8; 32], hash: u64) -> Option<u32>;
}

/// Returns the hash by which shelves are found.
pub fn fnv(key: &[u8; 32]) -> u64 {
    Fnv.hash(key)
}

impl Search for Store<Fnv> {
    fn put(&mut self, alloc: Global, key: &[u8; 32]) -> Result<(), AllocError> {
        let step = KeyStep::Store {
            verb: Verb::Set,
            key: Bytes::of(key),
            flags: 0,
            exptime: 0,
            block: Bytes::of(&[b'x'; 100]),
        };
        let stored = self.step(alloc, &step, Moment::from_seconds_at_most(1000));
        let _ = self.grow((fnv(key) % 64) as u32, 8);
        match stored {
            Ok(Reply::Stored) => Ok(()),
            _ => Err(AllocError),
        }
    }

    fn settle(&mut self) {
        for shelf in 0..64 {
            let _ = self.grow(shelf, usize::MAX);
        }
    }

    fn flags(&mut self, alloc: Global, key: &[u8; 32], _hash: u64) -> Option<u32> {
        let step = KeyStep::Read {
            key: Bytes::of(key),
        };
        match self.step(alloc, &step, Moment::from_seconds_at_most(1000)) {
            Ok(Reply::Hit { flags, .. }) => Some(flags),
            _ => None,
        }
    }
}

/// Returns the key of a number: `key-` and its digits, 28 with leading zeros.
fn key_of(number: u64) -> [u8; 32] {
    let mut key = *b"key-0000000000000000000000000000";
    let mut left = number;
    for at in 0..20usize {
        key[31 - at] = b'0' + (left % 10) as u8;
        left /= 10;
    }
    key
}

/// Keys that were drawn, with their hashes.
#[derive(Drop)]
struct Window {
    keys: Vec<[u8; 32]>,
    hashes: Vec<u64>,
}

impl Window {
    /// Draws keys of `items` numbers, from the first on.
    fn draw(&mut self, dice: &mut Dice, first: u64, items: u64) -> Result<(), AllocError>
        requires { 1 ≤ items }
    {
        self.keys.clear();
        self.hashes.clear();
        for _ in 0..WINDOW {
            let key = key_of(first.saturating_add(dice.roll(items)));
            self.hashes.push(fnv(&key))?;
            self.keys.push(key)?;
        }
        Ok(())
    }

    /// Searches the keys, and counts those that have an item.
    ///
    /// A processor may begin with a key before it has ended with the previous one.
    fn count_found<S: Search>(&self, alloc: Global, sought: &mut S) -> u64 {
        let mut found = 0u64;
        for (key, hash) in self.keys.iter().zip(self.hashes.iter()) {
            if sought.flags(alloc, key, *hash).is_some() {
                found = found.wrapping_add(1);
            }
        }
        found
    }

    /// The same, one at a time: the next key follows from the flags that were read.
    fn found_in_turn<S: Search>(&self, alloc: Global, sought: &mut S) -> u64 {
        let mut found = 0u64;
        let mut at = 0usize;
        for _ in 0..WINDOW {
            let (Some(key), Some(hash)) = (self.keys.get(at), self.hashes.get(at)) else {
                return found;
            };
            let Some(flags) = sought.flags(alloc, key, *hash) else {
                return found;
            };
            found = found.wrapping_add(1);
            at = at.wrapping_add(1).wrapping_add(flags as usize);
        }
        found
    }
}

/// Returns the processor time of this process in nanoseconds.
fn nanos(rt: &impl CpuClock) -> io::Result<u64> {
    let time = rt.process_cpu_time()?;
    let seconds = time.as_secs().wrapping_mul(1_000_000_000);
    Ok(seconds.wrapping_add(u64::from(time.subsec_nanos())))
}

/// The keys that are searched, and the number of windows.
#[derive(Clone, Copy)]
struct Sample {
    name: &'static str,
    /// Whether they are searched one at a time.
    in_turn: bool,
    /// The first of the keys' numbers.
    first: u64,
    items: u64,
    windows: u32,
}

/// Searches the keys of windows, and prints for each how many were found and its nanoseconds.
fn tell<S: Search>(
    rt: &HostRuntime,
    alloc: Global,
    sought: &mut S,
    dice: &mut Dice,
    asked: Sample,
) -> io::Result<()>
    requires { 1 ≤ asked.items }
{
    let Sample {
        name,
        in_turn,
        first,
        items,
        windows,
    } = asked;
    let mut window = Window {
        keys: Vec::with_capacity(alloc, WINDOW)?,
        hashes: Vec::with_capacity(alloc, WINDOW)?,
    };
    for _ in 0..windows {
        window.draw(dice, first, items)?;
        let began = nanos(rt)?;
        let found = if in_turn {
            window.found_in_turn(alloc, sought)
        } else {
            window.count_found(alloc, sought)
        };
        let took = nanos(rt)?.wrapping_sub(began);
        println!(rt; "{name} {found} {took}")?;
    }
    Ok(())
}

/// Inserts items, and searches the keys of some windows of each kind.
///
/// The kinds: keys with an item, such keys one at a time, and keys without an item.
fn run<S: Search + Drop>(
    rt: &HostRuntime,
    alloc: Global,
    sought: S,
    items: u32,
    windows: u32,
) -> io::Result<()> {
    let mut sought = sought;
    let items = u64::from(items).max(1);
    for number in 0..items {
        sought.put(alloc, &key_of(number))?;
    }
    sought.settle();
    let mut dice = Dice::new(1);
    for (name, in_turn, first) in [
        ("hits", false, 0),
        ("turns", true, 0),
        ("misses", false, items),
    ] {
        let asked = Sample {
            name,
            in_turn,
            first,
            items,
            windows,
        };
        tell(rt, alloc, &mut sought, &mut dice, asked)?;
    }
    Ok(())
}

/// Searches in the indexes of shelves alone, or gets through a store.
pub fn tell_finds(
    rt: &HostRuntime,
    alloc: Global,
    within: Within,
    items: u32,
    windows: u32,
) -> io::Result<()> {
    match within {
        Within::Index => run(rt, alloc, Indexes::new(alloc)?, items, windows),
        Within::Store => {
            let settings = Settings {
                pages: 65536,
                greatest: 1_048_576,
                shelves: 64,
            };
            run(rt, alloc, Store::new(alloc, settings, Fnv)?, items, windows)
        }
    }
}
