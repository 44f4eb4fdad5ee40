//! The parts of an index, each by itself: the optional old table, the table, and the strays.

ghost use Rattle.std.specs.Prelude.{◌≡◌, ◌+◌, ◌<◌, ◌≤◌, ◌^◌, Some, None, IfSome, IsNone, if◌then◌else◌, is_some, map, length, true, vec_len, vec_capacity};
ghost use Rattle.std.specs.Prelude.{option_copied, slice_index_or, slice_set};
ghost use Rattle.mc_hop.specs.Cells.{filled};
ghost use Rattle.mc_hop.specs.Tables.{IsAbsent, IsAt, KeepsKey};
ghost use Rattle.mc_grow.specs.Parts.{IsChanged, IsFirstFilled, NoneFilledFrom, drained_items};
ghost use Rattle.mc_grow.specs.Strays.{keys_in};

use mc_hop::{Hop, Keyed, ReadCounter};

/// The part that the number of a place is in: a bucket of the old table or of the table, or a
/// stray.
#[derive(Clone, Copy)]
pub(crate) enum Spot {
    Drained(usize),
    Table(usize),
    Stray(usize),
}

/// Returns the number of buckets of an old table, at most 2^24 + 255, and 0 without a table.
pub(crate) fn drained_buckets<T: Keyed + Drop>(draining: &Option<Hop<T>>) -> usize
    ensures value { result ≡ length (drained_items draining.now) }
    ensures most { result ≤ 2 ^ 24 + 255 }
{
    match draining {
        Some(old) => old.buckets(),
        None => 0,
    }
}

/// Returns the number of entries of an old table, at most 2^24 + 255.
pub(crate) fn drained_len<T: Keyed + Drop>(draining: &Option<Hop<T>>) -> usize
    ensures value { result ≡ filled (drained_items draining.now) }
    ensures most { result ≤ 2 ^ 24 + 255 }
{
    match draining {
        Some(old) => old.len(),
        None => 0,
    }
}

/// Returns the bucket of an old table with the entry of this hash and key. It reads at most 32
/// entries.
pub(crate) fn find_drained<T: Keyed + Drop, C: ReadCounter>(
    draining: &Option<Hop<T>>,
    hash: u64,
    key: &[u8],
    reads: &mut C,
) -> Option<usize>
    ensures found { IfSome result (λ at. (at < length (drained_items draining.now))
        × IsAt T.hash_of T.key_of (drained_items draining.now) hash key.now at) }
    ensures none { IsNone result →
        IsAbsent T.hash_of T.key_of (drained_items draining.now) hash key.now }
    ensures reads { C.count reads.new
        ≤ C.count reads.old + (if is_some draining.now then 32 else 0) }
{
    match draining {
        Some(old) => old.find_counted(hash, key, reads),
        None => None,
    }
}

/// Lends the entry of a bucket of an old table, if it has one.
pub(crate) fn drained_entry<T: Keyed + Drop>(draining: &Option<Hop<T>>, at: usize) -> Option<&T>
    requires { at < length (drained_items draining.now) }
    ensures { option_copied result ≡ slice_index_or (drained_items draining.now) at None }
{
    match draining {
        Some(old) => old.get(at),
        None => None,
    }
}

/// Changes the entry of a bucket of an old table by a closure.
pub(crate) fn update_drained<T: Keyed + Drop, R, F: FnOnce(T) -> (T, R)>(
    draining: &mut Option<Hop<T>>,
    at: usize,
    change: F,
) -> R
    requires filled { is_some (slice_index_or (drained_items draining.old) at None) ≡ true }
    requires keeps { (entry : T) →
        slice_index_or (drained_items draining.old) at None ≡ Some entry →
        KeepsKey T.hash_of T.key_of (F.pre change) (F.post change) entry }
    ensures changed { (entry : T) →
        slice_index_or (drained_items draining.old) at None ≡ Some entry →
        IsChanged (F.post change) entry at
        (drained_items draining.old) (drained_items draining.new) result }
    ensures stays { is_some draining.new ≡ is_some draining.old }
{
    match draining {
        Some(old) => old.update(at, change),
        None => unreachable!(),
    }
}

/// Changes a stray by a closure. It takes no memory of its own.
pub(crate) fn update_stray<T: Keyed + Drop, R, F: FnOnce(T) -> (T, R)>(
    strays: &mut Vec<T>,
    at: usize,
    change: F,
) -> R
    requires inside { at < vec_len strays.old }
    requires may { (entry : T) →
        slice_index_or (map Some strays.old.items) at None ≡ Some entry → F.pre change entry }
    requires keeps { (entry : T) →
        slice_index_or (map Some strays.old.items) at None ≡ Some entry →
        KeepsKey T.hash_of T.key_of (F.pre change) (F.post change) entry }
    ensures changed { (entry : T) →
        slice_index_or (map Some strays.old.items) at None ≡ Some entry →
        IsChanged (F.post change) entry at
        (map Some strays.old.items) (map Some strays.new.items) result }
    ensures keys { keys_in T.hash_of T.key_of strays.new.items
        ≡ keys_in T.hash_of T.key_of strays.old.items }
    ensures capacity { vec_capacity strays.new ≡ vec_capacity strays.old }
    ensures len { vec_len strays.new ≡ vec_len strays.old }
{
    let last = strays.len() - 1;
    let entry = strays.swap_remove(at);
    let (entry, answer) = change(entry);
    strays.push_reserved(entry);
    strays.swap(at, last);
    answer
}

/// Removes the entry of a bucket of an old table and returns it.
pub(crate) fn remove_drained<T: Keyed + Drop>(draining: &mut Option<Hop<T>>, at: usize) -> T
    requires { is_some (slice_index_or (drained_items draining.old) at None) ≡ true }
    ensures here { slice_index_or (drained_items draining.old) at None ≡ Some result }
    ensures removed { drained_items draining.new ≡ slice_set (drained_items draining.old) at None }
    ensures stays { is_some draining.new ≡ is_some draining.old }
{
    match draining {
        Some(old) => old.remove(at),
        None => unreachable!(),
    }
}

/// Returns the first filled bucket at or above a number. The cost grows with the empty buckets it
/// passes.
pub(crate) fn filled_bucket<T: Keyed + Drop>(table: &Hop<T>, from: usize) -> Option<usize>
    ensures found { IfSome result (IsFirstFilled table.now.items from) }
    ensures none { IsNone result → NoneFilledFrom table.now.items from }
{
    for at in from..table.buckets() {
        if table.get(at).is_some() {
            return Some(at);
        }
    }
    None
}

/// Returns the first filled bucket of an old table at or above a number.
pub(crate) fn filled_drained<T: Keyed + Drop>(
    draining: &Option<Hop<T>>,
    from: usize,
) -> Option<usize>
    ensures found { IfSome result (IsFirstFilled (drained_items draining.now) from) }
    ensures none { IsNone result → NoneFilledFrom (drained_items draining.now) from }
{
    match draining {
        Some(old) => filled_bucket(old, from),
        None => None,
    }
}
