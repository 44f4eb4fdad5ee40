//! The end of a growth doesn't read the strays of one home, except the first.

ghost use Rattle.std.specs.Prelude.{◌≤◌, OnOk};

use crate::marked::opened;
use mc_grow::Index;
use mc_hop::Keyed;
use std::alloc::{AllocError, Global};
use std::cell::Cell;
use std::process::Abort;
use std::rc::Rc;
use std::test::*;

/// The number of entries. All have one hash, so 32 at most have a bucket in a table.
const ENTRIES: u16 = 3_000;

/// An entry with the hash 0, which counts how often its hash is read.
#[derive(Drop)]
struct Read {
    key: [u8; 2],
    reads: Rc<Cell<u64>>,
}

impl Keyed for Read {
    ghost hash_of = { λ e. 0 };

    ghost key_of = { λ e. e.key };

    fn hash(&self) -> u64 {
        self.reads.set(self.reads.get().saturating_add(1));
        0
    }

    fn key(&self) -> &[u8] {
        &self.key
    }
}

/// Makes room for one entry, and reserves twice if memory is refused.
fn make_room(index: &mut Index<Read>, alloc: Global) -> Result<(), AllocError>
    ensures { OnOk result (1 ≤ index.new.spare) }
{
    match index.reserve(alloc) {
        Err(_) => index.reserve(alloc),
        Ok(()) => Ok(()),
    }
}

/// Inserts the entry of a key, unless it is there.
fn insert(index: &mut Index<Read>, alloc: Global, entry: Read) -> Result<(), AllocError> {
    make_room(index, alloc)?;
    if index.find(0, entry.key()).is_none() {
        index.insert_reserved(entry);
    }
    Ok(())
}

/// Moves all entries of the old table, and checks how often hashes were read.
///
/// An entry that is moved may be searched for its place among the strays, and so is the first stray.
/// The others stay, and none of them is read.
fn reads_only_what_moves(rt: &impl Abort, index: &mut Index<Read>, reads: &Cell<u64>) {
    reads.set(0);
    let growing = index.is_growing();
    let moved = index.move_some(usize::MAX) as u64;
    let most = moved.saturating_add(1).saturating_mul(32);
    let seen = reads.get();
    assert!(rt; !growing || seen <= most, "{seen} reads for {moved} moved");
}

#[test]
fn the_strays_of_one_home_are_not_read(rt: HostRuntime) -> Result<(), Fail> {
    let mut index = opened(rt.alloc())?;
    let reads = Rc::new(rt.alloc(), Cell::new(0))?;
    for number in 0..ENTRIES {
        let entry = Read {
            key: number.to_be_bytes(),
            reads: reads.clone()?,
        };
        insert(&mut index, rt.alloc(), entry)?;
        if number % 50 == 49 {
            reads_only_what_moves(&rt, &mut index, &reads);
        }
    }
    Ok(())
}
