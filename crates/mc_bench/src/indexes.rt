//! Items in chunks, in the indexes of as many shelves as a store has.

use crate::finds::{Search, fnv};
use mc_grow::Index;
use mc_hop::Keyed;
use mc_item::{Item, Parts};
use mc_slab::{Slab, need_of};
use mc_time::{Expiry, Moment};
use std::alloc::{AllocError, Global};

/// The block of each item.
const BLOCK: [u8; 100] = [b'x'; 100];

/// The charge of an item with a key of 32 bytes and that block.
const CHARGE: usize = 180;

/// An item with the hash of its key in its header, as in a shelf's index.
#[derive(Drop)]
struct Entry {
    item: Item,
}

impl Keyed for Entry {
    ghost hash_of = { λ e. e.item.hash };

    ghost key_of = { λ e. e.item.key };

    fn hash(&self) -> u64 {
        self.item.hash()
    }

    fn key(&self) -> &[u8] {
        self.item.key()
    }
}

/// Writes an item into chunks of the slab.
fn put_item(slab: &mut Slab, alloc: Global, key: &[u8; 32]) -> Result<Entry, AllocError> {
    let Some(need) = need_of(CHARGE as u64) else {
        return Err(AllocError);
    };
    let Ok(chunks) = slab.take_all(alloc, need) else {
        return Err(AllocError);
    };
    let parts = Parts {
        hash: fnv(key),
        key,
        first: &BLOCK,
        second: &[],
        lent: None,
        flags: 0,
        expiry: Expiry::Never,
        unique: 1,
        updated: Moment::from_seconds_at_most(1000),
    };
    Ok(Entry {
        item: Item::write(chunks, parts),
    })
}

/// Inserts an item, unless its hash and key are there, and lets the index grow on.
fn put(index: &mut Index<Entry>, alloc: Global, entry: Entry) -> Result<(), AllocError> {
    index.reserve(alloc)?;
    if index.find(entry.hash(), entry.key()).is_none() {
        let _ = index.insert_reserved(entry);
    }
    let _ = index.move_some(8);
    Ok(())
}

/// The indexes of 64 shelves.
#[derive(Drop)]
pub struct Indexes {
    slab: Slab,
    shelves: Vec<Index<Entry>>,
}

impl Indexes {
    /// Makes empty indexes, over as much memory as they may want.
    pub fn new(alloc: Global) -> Result<Indexes, AllocError> {
        let mut shelves = Vec::new(alloc);
        for _ in 0..64 {
            shelves.push(Index::new(alloc, 6)?)?;
        }
        let slab = Slab::new(alloc, 65536)?;
        Ok(Indexes { slab, shelves })
    }
}

impl Search for Indexes {
    fn put(&mut self, alloc: Global, key: &[u8; 32]) -> Result<(), AllocError> {
        let Indexes { slab, shelves } = self;
        let entry = put_item(slab, alloc, key)?;
        match shelves.get_mut((fnv(key) % 64) as usize) {
            Some(index) => put(index, alloc, entry),
            None => Err(AllocError),
        }
    }

    fn settle(&mut self) {
        for index in self.shelves.iter_mut() {
            let _ = index.move_some(usize::MAX);
        }
    }

    fn flags(&mut self, _alloc: Global, key: &[u8; 32], hash: u64) -> Option<u32> {
        let index = self.shelves.get((hash % 64) as usize)?;
        let place = index.find(hash, key)?;
        Some(index.get(place)?.item.flags())
    }
}
