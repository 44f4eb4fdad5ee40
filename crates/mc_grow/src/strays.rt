//! The strays of an index: a list, and an order for searching it.
//!
//! The order is by hash, then key, so a search among n strays reads at most as many as n has binary
//! digits. Keys with one hash are cheap to make, and each beyond 32 in a home is a stray. Inserting
//! moves 8 bytes for each following stray, and no entries. The hashes are in a list of their own:
//! the end of a growth reads them, and no entry of a home that was just found crowded.

ghost use Rattle.std.specs.Prelude.{◌≡◌, ℕ, ◌+◌, ◌<◌, ◌≤◌, ◌^◌, ◌∷◌, ◌++◌, [], Some, None, IfSome, IsNone, IfOk, IfErr, OnOk, map, length};
ghost use Rattle.std.specs.Prelude.{is_some, not, option_copied, slice_index_or, vec_capacity};
ghost use Rattle.std.specs.List.{insert, swap_remove};
ghost use Rattle.std.specs.Ordering.{nat_cmp};
ghost use Rattle.std.specs.Cmp.Lexicographic.{slice_cmp};
ghost use Rattle.mc_hop.specs.Links.{IsSwapped};
ghost use Rattle.mc_hop.specs.Tables.{AreApart, IsAbsent, IsAt, KeepsKey, home_in};
ghost use Rattle.mc_grow.specs.Adding.{IsCrowded, beside, cells_of};
ghost use Rattle.mc_grow.specs.Moving.{HoldsAll, IsTried};
ghost use Rattle.mc_grow.specs.Parts.{IsChanged};
ghost use Rattle.mc_grow.specs.Strays.{IsGap, IsOrder, forgotten, key_by, keys_in};

use crate::parts::update_stray;
use crate::trying::try_item;
use mc_hop::{Hop, Keyed, ReadCounter, Uncounted};
use std::alloc::{AllocError, Global};
use std::cmp::Ordering;
use std::marker::Model;

/// Entries that are in no table, each under a number.
///
/// The numbers are the order of insertion, except that the last stray takes the number of a removed
/// one. A second list has the numbers in the order of hashes, and of keys for equal hashes. So a
/// search reads at most as many entries as their number has binary digits, whatever the hashes are.
/// A third list has the hash of each number.
/// Contracts see the entries by number, and how many there is room for.
#[derive(Drop)]
pub(crate) struct Strays<T: Keyed + Drop> {
    items: Vec<T>,
    hashes: Vec<u64>,
    order: Vec<usize>,
}

impl<T: Keyed + Drop> Model for Strays<T> {
    ghost use Rattle.std.specs.Prelude.{min, vec_capacity};
    ghost use Rattle.mc_grow.specs.Strays.{IsListed, StraysState, coded_strays};

    ghost Value = { StraysState T };

    ghost coded = { coded_strays T.code };

    ghost view = { λ s. record {
      items = s.items.items;
      room = min (vec_capacity s.items) (min (vec_capacity s.hashes) (vec_capacity s.order));
    } };

    ghost invariant = { λ s. IsListed T.hash_of T.key_of s.items.items s.hashes.items
        s.order.items };
}

/// Compares the hash and key of an entry with others: first the hashes, then the keys.
///
/// It counts as one read of a stray.
fn compare<T: Keyed + Drop, C: ReadCounter>(
    entry: &T,
    hash: u64,
    key: &[u8],
    reads: &mut C,
) -> Ordering
    ensures order { result
        ≡ slice_cmp nat_cmp (T.hash_of entry.now ∷ T.key_of entry.now) (hash ∷ key.now) }
    ensures reads { C.count reads.new ≤ C.count reads.old + 1 }
{
    reads.tick();
    match entry.hash().cmp(&hash) {
        Ordering::Less => Ordering::Less,
        Ordering::Greater => Ordering::Greater,
        Ordering::Equal => entry.key().cmp(key),
    }
}

/// Returns the place in the order of the stray with this hash and key, or where it would be.
///
/// It reads at most as many strays as their number has binary digits.
fn search<T: Keyed + Drop, C: ReadCounter>(
    items: &Vec<T>,
    order: &Vec<usize>,
    hash: u64,
    key: &[u8],
    reads: &mut C,
) -> Result<usize, usize>
    requires { IsOrder (keys_in T.hash_of T.key_of items.now.items) order.now.items }
    ensures found { IfOk result (λ place. (place < length order.now.items)
        × (key_by (keys_in T.hash_of T.key_of items.now.items) order.now.items place
        ≡ hash ∷ key.now)) }
    ensures none { IfErr result
        (IsGap (keys_in T.hash_of T.key_of items.now.items) order.now.items (hash ∷ key.now)) }
    ensures reads { (digits : ℕ) → length items.now.items < 2 ^ digits →
        C.count reads.new ≤ C.count reads.old + digits }
{
    let mut low = 0;
    let mut high = order.len();
    while low < high {
        let middle = low + (high - low) / 2;
        match compare(&items[order[middle]], hash, key, reads) {
            Ordering::Less => low = middle + 1,
            Ordering::Greater => high = middle,
            Ordering::Equal => return Ok(middle),
        }
    }
    Err(low)
}

/// Returns the place in the order of the stray of a number.
fn place_of<T: Keyed + Drop>(items: &Vec<T>, order: &Vec<usize>, number: usize) -> usize
    requires order { IsOrder (keys_in T.hash_of T.key_of items.now.items) order.now.items }
    requires inside { number < length items.now.items }
    ensures inside { result < length order.now.items }
    ensures there { slice_index_or order.now.items result 0 ≡ number }
{
    let entry = &items[number];
    match search(items, order, entry.hash(), entry.key(), &mut Uncounted) {
        Ok(place) => place,
        Err(_) => unreachable!(),
    }
}

/// Removes the number at a place of the order, and gives it to the stray whose number is at `last`.
fn forget(order: &mut Vec<usize>, place: usize, last: usize)
    requires place { place < length order.old.items }
    requires last { last < length order.old.items }
    ensures order { order.new.items ≡ forgotten order.old.items place last }
    ensures capacity { vec_capacity order.new ≡ vec_capacity order.old }
{
    order[last] = order[place];
    order.remove(place);
}

impl<T: Keyed + Drop> Strays<T> {
    /// Makes an empty list. It takes no memory.
    pub(crate) fn new(alloc: Global) -> Strays<T>
        ensures { result.items ≡ [] }
    {
        Strays {
            items: Vec::new(alloc),
            hashes: Vec::new(alloc),
            order: Vec::new(alloc),
        }
    }

    /// Returns the number of strays.
    pub(crate) fn len(&self) -> usize
        ensures value { result ≡ length self.now.items }
        ensures most { result < 2 ^ 63 }
    {
        self.items.len()
    }

    /// Returns how many strays there is room for.
    pub(crate) fn room(&self) -> usize
        ensures { result ≡ self.now.room }
    {
        let listed = self.hashes.capacity().min(self.order.capacity());
        self.items.capacity().min(listed)
    }

    /// Returns the number of the stray with this hash and key, or `None`.
    ///
    /// It reads at most as many strays as their number has binary digits.
    pub(crate) fn find<C: ReadCounter>(&self, hash: u64, key: &[u8], reads: &mut C) -> Option<usize>
        ensures found { IfSome result (λ at. (at < length self.now.items)
            × IsAt T.hash_of T.key_of (map Some self.now.items) hash key.now at) }
        ensures none { IsNone result →
            IsAbsent T.hash_of T.key_of (map Some self.now.items) hash key.now }
        ensures reads { (digits : ℕ) → length self.now.items < 2 ^ digits →
            C.count reads.new ≤ C.count reads.old + digits }
        ensures small { length self.now.items < 2 ^ 63 }
    {
        match search(&self.items, &self.order, hash, key, reads) {
            Ok(place) => Some(self.order[place]),
            Err(_) => None,
        }
    }

    /// Lends the stray of a number, or `None`.
    pub(crate) fn get(&self, at: usize) -> Option<&T>
        ensures { option_copied result ≡ slice_index_or (map Some self.now.items) at None }
    {
        self.items.get(at)
    }

    /// Makes room for `more` further strays.
    ///
    /// The strays are unchanged. The only error is a refused allocation, and the room is then
    /// unchanged too.
    pub(crate) fn reserve(&mut self, more: usize) -> Result<(), AllocError>
        ensures items { self.new.items ≡ self.old.items }
        ensures ok { OnOk result (length self.new.items + more ≤ self.new.room) }
        ensures room { self.old.room ≤ self.new.room }
    {
        self.items.reserve(more)?;
        self.hashes.reserve(more)?;
        self.order.reserve(more)
    }

    /// Inserts an entry of a new hash and key under the next number. There must be room for it.
    ///
    /// It takes no memory, and moves the numbers behind its own in the order.
    pub(crate) fn push_reserved(&mut self, entry: T)
        requires room { length self.old.items < self.old.room }
        requires new { IsAbsent T.hash_of T.key_of (map Some self.old.items)
            (T.hash_of entry) (T.key_of entry) }
        ensures items { self.new.items ≡ self.old.items ++ (entry ∷ []) }
        ensures room { self.new.room ≡ self.old.room }
    {
        let number = self.items.len();
        let hash = entry.hash();
        let found = search(&self.items, &self.order, hash, entry.key(), &mut Uncounted);
        let place = match found {
            Err(place) => place,
            Ok(_) => unreachable!(),
        };
        self.items.push_reserved(entry);
        self.hashes.push_reserved(hash);
        let _ = self.order.insert(place, number);
    }

    /// Removes the stray of a number and returns it. The last stray gets its number.
    ///
    /// It takes no memory, and moves the numbers behind its own in the order.
    pub(crate) fn swap_remove(&mut self, at: usize) -> T
        requires { at < length self.old.items }
        ensures value { result ≡ slice_index_or self.old.items at result }
        ensures items { self.new.items ≡ swap_remove self.old.items at result }
        ensures swapped { IsSwapped self.old.items self.new.items at }
        ensures room { self.new.room ≡ self.old.room }
    {
        let place = place_of(&self.items, &self.order, at);
        let last = place_of(&self.items, &self.order, self.items.len() - 1);
        forget(&mut self.order, place, last);
        self.hashes.swap_remove(at);
        self.items.swap_remove(at)
    }

    /// Changes the stray of a number by a closure, and returns the closure's second result.
    ///
    /// The closure must keep the hash and the key. It takes no memory of its own.
    pub(crate) fn update<R, F: FnOnce(T) -> (T, R)>(&mut self, at: usize, change: F) -> R
        requires inside { at < length self.old.items }
        requires keeps { (entry : T) →
            slice_index_or (map Some self.old.items) at None ≡ Some entry →
            KeepsKey T.hash_of T.key_of (F.pre change) (F.post change) entry }
        ensures changed { (entry : T) →
            slice_index_or (map Some self.old.items) at None ≡ Some entry →
            IsChanged (F.post change) entry at
            (map Some self.old.items) (map Some self.new.items) result }
        ensures len { length self.new.items ≡ length self.old.items }
        ensures room { self.new.room ≡ self.old.room }
    {
        update_stray(&mut self.items, at, change)
    }

    /// Returns the home in a table of the stray of a number. It reads no entry.
    fn home_of(&self, table: &Hop<T>, at: usize) -> usize
        requires { at < length self.now.items }
        ensures { (entry : T) → entry ≡ slice_index_or self.now.items at entry →
            result ≡ home_in table.now.k (T.hash_of entry) }
    {
        table.home_of(self.hashes[at])
    }

    /// Tries to move the stray of a number into a table, and returns whether it moved.
    ///
    /// The last stray then gets its number. It takes no memory.
    pub(crate) fn try_in(&mut self, table: &mut Hop<T>, at: usize) -> bool
        requires inside { at < length self.old.items }
        requires apart { AreApart T.hash_of T.key_of (cells_of (beside table.old self.old.items)) }
        ensures tried { IsTried T.hash_of T.key_of table.old.k at result
            (beside table.old self.old.items) (beside table.new self.new.items) }
        ensures content { HoldsAll T.hash_of T.key_of
            (cells_of (beside table.old self.old.items))
            (cells_of (beside table.new self.new.items)) }
        ensures k { table.new.k ≡ table.old.k }
        ensures len { length self.new.items ≤ length self.old.items }
        ensures room { self.new.room ≡ self.old.room }
    {
        let place = place_of(&self.items, &self.order, at);
        let last = place_of(&self.items, &self.order, self.items.len() - 1);
        let went = try_item(table, &mut self.items, at);
        if went {
            forget(&mut self.order, place, last);
            self.hashes.swap_remove(at);
        }
        went
    }

    /// Tries a stray as `try_in` does, and returns its home if it stays: no bucket can be had
    /// there.
    ///
    /// `crowded` is a home of which that is known. A stray of that home stays without a search.
    pub(crate) fn try_unless(
        &mut self,
        table: &mut Hop<T>,
        at: usize,
        crowded: Option<usize>,
    ) -> Option<usize>
        requires inside { at < length self.old.items }
        requires apart { AreApart T.hash_of T.key_of (cells_of (beside table.old self.old.items)) }
        requires crowded { IfSome crowded (IsCrowded T.hash_of table.old.k table.old.items) }
        ensures tried { IsTried T.hash_of T.key_of table.old.k at (not (is_some result))
            (beside table.old self.old.items) (beside table.new self.new.items) }
        ensures crowded { IfSome result (IsCrowded T.hash_of table.new.k table.new.items) }
        ensures content { HoldsAll T.hash_of T.key_of
            (cells_of (beside table.old self.old.items))
            (cells_of (beside table.new self.new.items)) }
        ensures k { table.new.k ≡ table.old.k }
        ensures len { length self.new.items ≤ length self.old.items }
        ensures room { self.new.room ≡ self.old.room }
    {
        let home = self.home_of(table, at);
        if crowded == Some(home) {
            return crowded;
        }
        if self.try_in(table, at) {
            None
        } else {
            Some(home)
        }
    }
}
