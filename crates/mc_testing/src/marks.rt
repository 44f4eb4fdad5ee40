//! Entries identified by hash and key, and a hopscotch table of them.

use mc_hop::{Hop, Keyed};
use std::alloc::{AllocError, Global};

/// A hash, a key of two bytes, and a count.
#[derive(Drop)]
pub struct Mark {
    pub hash: u64,
    pub key: [u8; 2],
    pub count: u32,
}

impl Keyed for Mark {
    ghost hash_of = { λ e. e.hash };

    ghost key_of = { λ e. e.key };

    fn hash(&self) -> u64 {
        self.hash
    }

    fn key(&self) -> &[u8] {
        &self.key
    }
}

/// Returns an empty table of 64 homes. It allocates once more if memory is refused.
pub fn marks_table(alloc: Global) -> Result<Hop<Mark>, AllocError> {
    match Hop::new(alloc, 6) {
        Err(_) => Hop::new(alloc, 6),
        made => made,
    }
}

/// Puts a mark with a new hash and key into the first empty bucket of the 32 from its home on.
///
/// Returns whether it did: not if a mark with that hash and key is there, or if the 32 are full.
pub fn add_mark(table: &mut Hop<Mark>, hash: u64, key: [u8; 2]) -> bool {
    if table.find(hash, &key).is_some() {
        return false;
    }
    let home = table.home_of(hash);
    match table.free_from(home) {
        Some(at) if at - home < 32 => {
            let mark = Mark {
                hash,
                key,
                count: 0,
            };
            table.put_within(home, at, mark);
            true
        }
        _ => false,
    }
}

/// Adds marks with `count` consecutive hashes, all with one key, until one can't be added.
///
/// Returns whether all were added. The 256 hashes from a multiple of 256 on have one home.
pub fn fill_marks(table: &mut Hop<Mark>, hash: u64, count: u64) -> bool {
    for number in 0..count {
        if !add_mark(table, hash.wrapping_add(number), [0; 2]) {
            return false;
        }
    }
    true
}
