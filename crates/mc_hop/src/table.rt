//! One hopscotch table.

ghost use Rattle.std.specs.Prelude.{◌≡◌, ◌+◌, ◌<◌, ◌≤◌, ◌^◌, Some, None, IfOk, IfSome, IsNone};
ghost use Rattle.std.specs.Prelude.{option_copied, is_some, true, length};
ghost use Rattle.mc_hop.specs.Contents.{content, content_with, content_without};
ghost use Rattle.mc_hop.specs.Cells.{filled};
ghost use Rattle.mc_hop.specs.Tables.{AreApart, KeepsKey, home_in, tag_in, IsAt, IsAbsent, IsFirstFree, NoneFree};
ghost use Rattle.mc_hop.specs.Tables.{AreHops, AreNear, IsNearHome, IsFound};
ghost use Rattle.mc_hop.specs.Tables.{empty_table, with_bucket, bucket_at};

use crate::bits::{lowest, with_bit, without_bit};
use crate::cells::Cells;
use crate::hash::Keyed;
use crate::reads::{ReadCounter, Uncounted};
use std::alloc::{AllocError, Global};
use std::marker::Model;

/// Returns the home of a hash among 2^k homes.
fn home_among(k: u32, hash: u64) -> usize
    requires { k ≤ 24 }
    ensures value { result ≡ home_in k hash }
    ensures below { result < 2 ^ k }
{
    ((hash / 256) % (1u64 << k)) as usize
}

/// Returns the tag of a hash.
fn tag_of(hash: u64) -> u32
    ensures value { result ≡ tag_in hash }
    ensures small { result < 128 }
{
    (hash / (1u64 << 57)) as u32
}

/// One hopscotch table of 2^k homes and 255 further buckets.
///
/// Contracts see k and the buckets. Bit j of a bucket's word is set exactly if the bucket j behind
/// it holds an entry whose home is the bucket.
#[derive(Drop)]
pub struct Hop<T: Keyed + Drop> {
    k: u32,
    cells: Cells<T>,
}

impl<T: Keyed + Drop> Model for Hop<T> {
    ghost use Rattle.mc_hop.specs.Tables.{HopState, coded_hop, IsTagged};

    ghost Value = { HopState T };

    ghost coded = { coded_hop T.code };

    ghost view = { λ h. record { k = h.k; items = h.cells.items } };

    ghost invariant = { λ h. IsTagged T.hash_of T.key_of h.k h.cells };
}

impl<T: Keyed + Drop> Hop<T> {
    /// Makes a table of 2^k homes and 255 further buckets, all empty.
    ///
    /// The only error is a refused allocation.
    pub fn new(alloc: Global, k: u32) -> Result<Hop<T>, AllocError>
        requires { (6 ≤ k) × (k ≤ 24) }
        ensures { IfOk result (λ table. table ≡ empty_table k) }
    {
        let buckets = (1usize << k) + 255;
        Ok(Hop {
            k,
            cells: Cells::new(alloc, buckets)?,
        })
    }

    /// Returns the home of a hash.
    pub fn home_of(&self, hash: u64) -> usize
        ensures value { result ≡ home_in self.now.k hash }
        ensures inside { result + 255 < length self.now.items }
    {
        home_among(self.k, hash)
    }

    /// Returns k; the table has 2^k homes.
    pub fn exponent(&self) -> u32
        ensures value { result ≡ self.now.k }
        ensures range { (6 ≤ result) × (result ≤ 24) }
    {
        self.k
    }

    /// Returns the number of buckets, at most 2^24 + 255.
    pub fn buckets(&self) -> usize
        ensures value { result ≡ length self.now.items }
        ensures size { result ≡ 2 ^ self.now.k + 255 }
        ensures exponent { (6 ≤ self.now.k) × (self.now.k ≤ 24) }
        ensures most { result ≤ 2 ^ 24 + 255 }
    {
        self.cells.len()
    }

    /// States that each entry is within 31 buckets of its home. It does nothing.
    pub fn entries_are_near(&self)
        ensures { AreNear T.hash_of self.now.k self.now.items }
    {
        let _ = &self.k;
    }

    /// States that no two entries have the same hash and key. It does nothing.
    pub fn entries_are_apart(&self)
        ensures { AreApart T.hash_of T.key_of self.now.items }
    {
        let _ = &self.k;
    }

    /// Returns the hop word of a bucket.
    pub fn word(&self, at: usize) -> u32
        requires { at < length self.now.items }
        ensures { AreHops T.hash_of self.now.k self.now.items at result }
    {
        self.cells.word(at)
    }

    /// Lends the entry of a bucket, if it has one.
    pub fn get(&self, at: usize) -> Option<&T>
        requires { at < length self.now.items }
        ensures { option_copied result ≡ bucket_at self.now.items at }
    {
        self.cells.get(at)
    }

    /// Returns whether a bucket holds the entry of this hash and key.
    ///
    /// It is the one read of a bucket in a search, and reads the entry only if the bucket has the
    /// hash's tag.
    fn holds<C: ReadCounter>(&self, at: usize, hash: u64, key: &[u8], reads: &mut C) -> bool
        requires { at < length self.now.items }
        ensures reads { C.count reads.new ≤ C.count reads.old + 1 }
        ensures yes { result ≡ true → IsAt T.hash_of T.key_of self.now.items hash key.now at }
        ensures no { IsAt T.hash_of T.key_of self.now.items hash key.now at → result ≡ true }
    {
        reads.tick();
        if !self.cells.has_tag(at, tag_of(hash)) {
            return false;
        }
        match self.get(at) {
            Some(entry) => entry.hash() == hash && entry.key() == key,
            None => false,
        }
    }

    /// Returns the bucket of the entry with this hash and key, or `None`.
    pub fn find(&self, hash: u64, key: &[u8]) -> Option<usize>
        ensures found { IfSome result
            (λ at. IsFound T.hash_of T.key_of self.now.items hash key.now at) }
        ensures none { IsNone result → IsAbsent T.hash_of T.key_of self.now.items hash key.now }
    {
        self.find_counted(hash, key, &mut Uncounted)
    }

    /// Returns the bucket as `find` does, and counts the reads: at most 32 buckets.
    pub fn find_counted<C: ReadCounter>(
        &self,
        hash: u64,
        key: &[u8],
        reads: &mut C,
    ) -> Option<usize>
        ensures found { IfSome result
            (λ at. IsFound T.hash_of T.key_of self.now.items hash key.now at) }
        ensures none { IsNone result → IsAbsent T.hash_of T.key_of self.now.items hash key.now }
        ensures reads { C.count reads.new ≤ C.count reads.old + 32 }
    {
        // for the proof: the invariant of the table
        let _ = &self.k;
        let home = self.home_of(hash);
        let mut word = self.word(home);
        for _turn in 0..32u32 {
            if word == 0 {
                return None;
            }
            let bit = lowest(word);
            let at = home + bit as usize;
            if self.holds(at, hash, key, reads) {
                return Some(at);
            }
            word = without_bit(word, bit);
        }
        None
    }

    /// Returns the first empty bucket among the home and the 255 behind it, or `None`.
    pub fn free_from(&self, home: usize) -> Option<usize>
        requires { home + 255 < length self.now.items }
        ensures found { IfSome result (IsFirstFree self.now.items home) }
        ensures none { IsNone result → NoneFree self.now.items home (home + 256) }
    {
        // for the proof: how many buckets there are
        let _size = self.buckets();
        for at in home..home + 256 {
            if self.cells.is_empty(at) {
                return Some(at);
            }
        }
        None
    }

    /// Puts an entry of a new key into an empty bucket within 31 of its home. It takes no memory.
    pub fn put_within(&mut self, home: usize, at: usize, entry: T)
        requires of_entry { home ≡ home_in self.old.k (T.hash_of entry) }
        requires within { (home ≤ at) × (at ≤ home + 31) }
        requires empty { bucket_at self.old.items at ≡ None }
        requires new { IsAbsent T.hash_of T.key_of self.old.items
            (T.hash_of entry) (T.key_of entry) }
        ensures put { self.new ≡ with_bucket self.old at (Some entry) }
        ensures content { content T.hash_of T.key_of self.new.items ≡
            content_with T.hash_of T.key_of self.old.items entry entry }
    {
        let bit = (at - home) as u32;
        let word = self.cells.word(home);
        self.cells.set_word(home, with_bit(word, bit));
        let tag = tag_of(entry.hash());
        self.cells.put(at, entry, tag);
    }

    /// Changes the entry of a filled bucket by a closure, and returns the closure's second result.
    ///
    /// The closure must keep the hash and the key. It takes no memory of its own.
    pub fn update<R, F: FnOnce(T) -> (T, R)>(&mut self, at: usize, change: F) -> R
        requires filled { is_some (bucket_at self.old.items at) ≡ true }
        requires keeps { (entry : T) → bucket_at self.old.items at ≡ Some entry →
            KeepsKey T.hash_of T.key_of (F.pre change) (F.post change) entry }
        ensures { (entry : T) → bucket_at self.old.items at ≡ Some entry →
            (pair : T × R) × F.post change entry pair × (result ≡ pair.1)
            × (self.new ≡ with_bucket self.old at (Some pair.0))
            × (content T.hash_of T.key_of self.new.items ≡
            content_with T.hash_of T.key_of self.old.items entry pair.0) }
    {
        self.cells.update(at, change)
    }

    /// Returns a filled bucket, or `None` if all are empty.
    ///
    /// The cost doesn't grow with the number of empty buckets.
    pub fn any_filled(&self) -> Option<usize>
        ensures found { IfSome result (λ at.
            is_some (bucket_at self.now.items at) ≡ true) }
        ensures none { IsNone result → filled self.now.items ≡ 0 }
    {
        self.cells.last_filled()
    }

    /// Returns the number of entries, at most 2^24 + 255.
    pub fn len(&self) -> usize
        ensures value { result ≡ filled self.now.items }
        ensures most { result ≤ 2 ^ 24 + 255 }
    {
        self.cells.count()
    }

    /// Removes the entry of a bucket and returns it.
    pub fn remove(&mut self, at: usize) -> T
        requires { is_some (bucket_at self.old.items at) ≡ true }
        ensures here { bucket_at self.old.items at ≡ Some result }
        ensures removed { self.new ≡ with_bucket self.old at None }
        ensures content { content T.hash_of T.key_of self.new.items ≡
            content_without T.hash_of T.key_of self.old.items result }
        ensures back { content T.hash_of T.key_of self.old.items ≡
            content_with T.hash_of T.key_of self.new.items result result }
        ensures near { IsNearHome T.hash_of self.old.k result at }
        ensures gone { IsAbsent T.hash_of T.key_of self.new.items
            (T.hash_of result) (T.key_of result) }
    {
        let entry = self.cells.take(at);
        let home = home_among(self.k, entry.hash());
        let bit = (at - home) as u32;
        let word = self.cells.word(home);
        self.cells.set_word(home, without_bit(word, bit));
        entry
    }
}
