//! What tests of an index share; most use an index of marks.

ghost use Rattle.std.specs.Prelude.{◌≡◌};

use mc_grow::{Index, Place};
use mc_hop::Keyed;
use mc_testing::Mark;
use std::alloc::{AllocError, Global};

/// Returns an index of 64 homes. It allocates twice if memory is refused.
pub(crate) fn opened<T: Keyed + Drop>(alloc: Global) -> Result<Index<T>, AllocError> {
    match Index::new(alloc, 6) {
        Err(_) => Index::new(alloc, 6),
        made => made,
    }
}

/// Inserts a mark, unless its hash and key are there, and returns whether it did.
///
/// It reserves twice if memory is refused.
pub(crate) fn add(
    index: &mut Index<Mark>,
    alloc: Global,
    hash: u64,
    key: [u8; 2],
) -> Result<bool, AllocError> {
    match index.reserve(alloc) {
        Err(_) => index.reserve(alloc)?,
        Ok(()) => {}
    }
    let mark = Mark {
        hash,
        key,
        count: 0,
    };
    if index.find(mark.hash(), mark.key()).is_some() {
        return Ok(false);
    }
    index.insert_reserved(mark);
    Ok(true)
}

/// Removes the mark of this hash and key, and returns whether there was one.
pub(crate) fn take(index: &mut Index<Mark>, hash: u64, key: [u8; 2]) -> bool {
    match index.find(hash, &key) {
        Some(place) => {
            let _ = index.remove(place);
            true
        }
        None => false,
    }
}

/// Returns a mark counted once more, and its hash and count before.
pub(crate) fn counted(mark: Mark) -> (Mark, (u64, u32))
    ensures hash { result.0.hash ≡ mark.hash }
    ensures key { result.0.key ≡ mark.key }
{
    let Mark { hash, key, count } = mark;
    let more = Mark {
        hash,
        key,
        count: count.saturating_add(1),
    };
    (more, (hash, count))
}

/// Counts the mark of this hash and key once more, and returns whether there was one.
pub(crate) fn count_more(index: &mut Index<Mark>, hash: u64, key: [u8; 2]) -> bool {
    match index.find(hash, &key) {
        Some(place) => {
            let _ = index.update(place, |mark| counted(mark));
            true
        }
        None => false,
    }
}

/// Returns the count of the mark at a place, or `None`.
pub(crate) fn count_at(index: &Index<Mark>, place: Place) -> Option<u32> {
    match index.get(place) {
        Some(mark) => Some(mark.count),
        None => None,
    }
}
