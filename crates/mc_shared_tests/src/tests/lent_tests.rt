//! Blocks that are delivered in shared memory: a reader keeps them as they were.

use crate::stores::{LARGE, shared_store};
use mc_bytes::Lent;
use mc_hop::Fnv;
use mc_protocol::{Answer, Bytes, Reply, StepFault, Steps};
use mc_shared::{Asking, NoGate};
use mc_testing::{Ask, Row, Want, first_unlike, set, step_of};
use mc_time::Moment;
use std::alloc::{AllocError, Global};
use std::sync::Wait;
use std::test::*;

/// The bytes of a block that takes a page.
const PAGE: usize = 600_000;

/// The bytes of a block that takes three pages.
const PAGES: usize = 2_500_000;

/// Keeps the first part of a hit, and counts the parts that have bytes.
#[derive(Drop)]
struct Reader {
    first: Option<Lent>,
    parts: usize,
    /// The number of parts in shared memory.
    lent: usize,
}

impl Answer for Reader {
    ghost told = { λ old reply new. Unit {0} };

    fn hit(&mut self, _flags: u32, _unique: u64, parts: &[Bytes<'_>]) -> Result<(), AllocError> {
        for part in parts {
            if !part.as_slice().is_empty() {
                self.parts = self.parts.saturating_add(1);
                self.keep(part.lent());
            }
        }
        Ok(())
    }

    fn reply(&mut self, _reply: &Reply) -> Result<(), AllocError> {
        Err(AllocError)
    }
}

impl Reader {
    fn new() -> Reader {
        Reader {
            first: None,
            parts: 0,
            lent: 0,
        }
    }

    /// Counts a part of shared memory, and keeps the first.
    fn keep(&mut self, part: Option<&Lent>) {
        if let Some(part) = part {
            self.lent = self.lent.saturating_add(1);
            if self.first.is_none() {
                self.first = part.another();
            }
        }
    }

    /// Returns how many parts have bytes, and how many of them are in shared memory.
    fn counts(&self) -> (usize, usize) {
        (self.parts, self.lent)
    }

    /// Returns whether it has a first part of as many bytes, which are all the same.
    fn has(&self, len: usize, byte: u8) -> bool {
        match &self.first {
            Some(part) => part.len() == len && part.as_slice().iter().all(|it| *it == byte),
            None => false,
        }
    }
}

/// Reads a key.
fn read<R: Wait>(asking: &mut Asking<'_, R, Fnv, NoGate>, alloc: Global, key: u8) -> Reader {
    let mut reader = Reader::new();
    let key = [key];
    let step = step_of(&key, Ask::Get);
    let now = Moment::from_seconds_at_most(1000);
    let _ = asking.step_telling(alloc, &step, now, &mut reader);
    reader
}

/// Sets `a` to `len` bytes, all the same, and returns whether it was stored.
fn is_set<R: Wait>(
    asking: &mut Asking<'_, R, Fnv, NoGate>,
    alloc: Global,
    len: usize,
    byte: u8,
) -> Result<bool, StepFault> {
    let block = vec![in alloc; byte; len]?;
    let rows: &[Row<'_>] = &[set(1000, b"a", 0, block.as_slice(), "stored")];
    Ok(first_unlike(asking, alloc, rows)?.is_none())
}

/// Sets `a` to a block of a page, and reads it.
///
/// The reader is without a part if the set isn't stored.
fn set_and_read<R: Wait>(
    asking: &mut Asking<'_, R, Fnv, NoGate>,
    alloc: Global,
    byte: u8,
) -> Result<Reader, StepFault> {
    if is_set(asking, alloc, PAGE, byte)? {
        Ok(read(asking, alloc, b'a'))
    } else {
        Ok(Reader::new())
    }
}

/// Changes of an item that leave its block.
static CHANGES: [Row<'static>; 2] = [
    (1000, b"a", Ask::Touch(5), Want::Told("touched")),
    (1000, b"a", Ask::Delete, Want::Told("deleted")),
];

/// Returns whether the blocks of two readers stay where the item is changed, deleted and set.
fn both_stay<R: Wait>(
    asking: &mut Asking<'_, R, Fnv, NoGate>,
    alloc: Global,
    old: &Reader,
    new: &Reader,
) -> Result<bool, StepFault> {
    if !have_pages(old, new) || first_unlike(asking, alloc, &CHANGES)?.is_some() {
        return Ok(false);
    }
    let last = set_and_read(asking, alloc, b'z')?;
    Ok(last.has(PAGE, b'z') && have_pages(old, new))
}

/// Returns whether two readers have the first two blocks.
fn have_pages(old: &Reader, new: &Reader) -> bool {
    old.has(PAGE, b'x') && new.has(PAGE, b'y')
}

/// Returns whether a reader's block is lent, and stays where the item is set, changed and deleted.
fn one_stays<R: Wait>(
    asking: &mut Asking<'_, R, Fnv, NoGate>,
    alloc: Global,
    old: &Reader,
) -> Result<bool, StepFault> {
    if old.counts() != (1, 1) || !old.has(PAGE, b'x') {
        return Ok(false);
    }
    let new = set_and_read(asking, alloc, b'y')?;
    both_stay(asking, alloc, old, &new)
}

/// Returns the same for a reader of a new block of a page.
fn block_stays<R: Wait>(
    asking: &mut Asking<'_, R, Fnv, NoGate>,
    alloc: Global,
) -> Result<bool, StepFault> {
    let old = set_and_read(asking, alloc, b'x')?;
    one_stays(asking, alloc, &old)
}

/// Returns the same for a new store.
fn block_stays_in_new_store<R: Wait>(rt: &R, alloc: Global) -> Result<bool, StepFault> {
    let (shared, caller) = shared_store(alloc, LARGE)?;
    let mut asking = Asking::new(rt, &shared, caller, &NoGate);
    block_stays(&mut asking, alloc)
}

#[test]
fn a_block_that_is_lent_stays(rt: HostRuntime) -> Result<(), Fail> {
    assert!(rt; block_stays_in_new_store(&rt, rt.alloc())?);
    Ok(())
}

/// Returns the parts of a block of three pages and of a small one, and how many of each are lent.
///
/// It is `None` if the large block isn't stored.
fn parts_lent<R: Wait>(
    asking: &mut Asking<'_, R, Fnv, NoGate>,
    alloc: Global,
) -> Result<Option<[(usize, usize); 2]>, StepFault> {
    if !is_set(asking, alloc, PAGES, b'x')? {
        return Ok(None);
    }
    let large = read(asking, alloc, b'a').counts();
    Ok(Some([large, read(asking, alloc, b'k').counts()]))
}

/// Returns the same for a new store.
fn parts_lent_in_new_store<R: Wait>(
    rt: &R,
    alloc: Global,
) -> Result<Option<[(usize, usize); 2]>, StepFault> {
    let (shared, caller) = shared_store(alloc, LARGE)?;
    let mut asking = Asking::new(rt, &shared, caller, &NoGate);
    parts_lent(&mut asking, alloc)
}

#[test]
fn each_page_of_a_block_is_lent(rt: HostRuntime) -> Result<(), Fail> {
    let counts = parts_lent_in_new_store(&rt, rt.alloc())?;
    assert_eq!(rt; counts, Some([(3, 3), (1, 0)]));
    Ok(())
}
