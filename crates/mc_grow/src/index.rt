//! An index that grows: two tables and strays.
//!
//! A place is the number of a cell: the old table's buckets come first, then the table's, then the
//! strays. A sweep goes by these numbers. One call (`update`) changes an entry, and keeps its hash
//! and key.

ghost use Rattle.std.specs.Prelude.{◌≡◌, ℕ, List, Option, ◌+◌, ◌-◌, ◌<◌, ◌≤◌, ◌^◌, ◌∷◌, Some, None, IfOk, IfSome, OnOk, OnErr};
ghost use Rattle.std.specs.Prelude.{IsNone, option_copied, min, true, false, length};
ghost use Rattle.std.specs.FinMap.{get, insert, len};
ghost use Rattle.mc_hop.specs.Tables.{KeepsKey};
ghost use Rattle.mc_grow.specs.Indexes.{IsNew, StandsAs, HasBegun, IsFilled, IsFoundIn, IsNext, IsPlaceOf, IsUpdated};
ghost use Rattle.mc_grow.specs.Parts.{IsFirstFilled, IsSpot, NoneFilledFrom};
ghost use Rattle.mc_grow.specs.Indexes.{IsRemoved, cells, count, entry_at, holds, is_due, lags, left, most_reads};
ghost use Rattle.mc_grow.specs.Adding.{AreMoved, IsInserted};

use crate::moving::{move_entries, place, try_strays};
use crate::parts::{
    Spot, drained_buckets, drained_entry, drained_len, filled_bucket, filled_drained, find_drained,
    remove_drained, update_drained,
};
use crate::strays::Strays;
use mc_hop::{Hop, Keyed, ReadCounter, Uncounted};
use std::alloc::{AllocError, Global};
use std::marker::Model;
use std::mem;

/// The number of strays that keep their room after a growth.
const SMALL_ROOM: usize = 64;

/// Where an entry is in an index, until an entry is inserted, removed or moved.
///
/// `Index::find_again` finds the entry after that.
#[derive(Clone, Copy, PartialEq, Eq)]
pub struct Place {
    number: usize,
}

/// Entries by hash and key, in a table and, during a growth, also in the old table.
///
/// An entry that gets no bucket near its home is a stray, in a list. Contracts see the buckets of
/// both tables and the strays, which together are one finite map (`holds`), whether a growth runs,
/// and how many entries can be inserted before memory is needed.
#[derive(Drop)]
pub struct Index<T: Keyed + Drop> {
    draining: Option<Hop<T>>,
    table: Hop<T>,
    strays: Strays<T>,
}

impl<T: Keyed + Drop> Model for Index<T> {
    ghost use Rattle.std.specs.Prelude.{◌+◌, ◌-◌, is_some, length};
    ghost use Rattle.mc_hop.specs.Cells.{filled};
    ghost use Rattle.mc_grow.specs.Indexes.{IndexState, coded_index};
    ghost use Rattle.mc_grow.specs.Parts.{IsIndex, drained_items};

    ghost Value = { IndexState T };

    ghost coded = { coded_index T.code };

    ghost view = { λ i. record {
      k = i.table.k;
      draining = drained_items i.draining;
      table = i.table.items;
      strays = i.strays.items;
      growing = is_some i.draining;
      spare = i.strays.room - (length i.strays.items + filled (drained_items i.draining));
    } };

    ghost invariant = { λ i. IsIndex T.hash_of T.key_of i.draining i.table i.strays.items
        i.strays.room };
}

impl<T: Keyed + Drop> Index<T> {
    /// Makes an empty index with one table of 2^k homes, k from 6 to 24.
    ///
    /// The only error is a refused allocation.
    pub fn new(alloc: Global, k: u32) -> Result<Index<T>, AllocError>
        requires { (6 ≤ k) × (k ≤ 24) }
        ensures { IfOk result (IsNew k) }
    {
        Ok(Index {
            draining: None,
            table: Hop::new(alloc, k)?,
            strays: Strays::new(alloc),
        })
    }

    /// Returns the place of the entry with this hash and key, or `None`.
    ///
    /// It reads at most 32 entries of each table, and at most as many strays as their number has
    /// binary digits.
    pub fn find(&self, hash: u64, key: &[u8]) -> Option<Place>
        ensures { IsFoundIn T.hash_of T.key_of self.now hash key.now result }
    {
        self.find_counted(hash, key, &mut Uncounted)
    }

    /// Returns the place as `find` does, and counts the entries that it reads.
    pub fn find_counted<C: ReadCounter>(
        &self,
        hash: u64,
        key: &[u8],
        reads: &mut C,
    ) -> Option<Place>
        ensures found { IsFoundIn T.hash_of T.key_of self.now hash key.now result }
        ensures reads { C.count reads.new ≤ C.count reads.old + most_reads self.now }
    {
        let first = drained_buckets(&self.draining);
        let second = first + self.table.buckets();
        if let Some(at) = find_drained(&self.draining, hash, key, reads) {
            return Some(Place { number: at });
        }
        if let Some(at) = self.table.find_counted(hash, key, reads) {
            return Some(Place { number: first + at });
        }
        match self.strays.find(hash, key, reads) {
            Some(at) => Some(Place {
                number: second + at,
            }),
            None => None,
        }
    }

    /// Returns the place as `find` does, and looks first at `place`, which may be any.
    ///
    /// It reads one entry if the entry was found there and has not moved since.
    pub fn find_again(&self, place: Place, hash: u64, key: &[u8]) -> Option<Place>
        ensures { IsFoundIn T.hash_of T.key_of self.now hash key.now result }
    {
        // for the proof: the invariant of the index
        let _ = &self.table;
        match self.get(place) {
            Some(entry) if entry.hash() == hash && entry.key() == key => Some(place),
            _ => self.find(hash, key),
        }
    }

    /// States that all searches for one hash and key return the same place, or none does. It does
    /// nothing.
    pub fn one_place_is_found(&self)
        ensures { (hash : ℕ) (key : List ℕ) (one other : Option Place) →
            IsFoundIn T.hash_of T.key_of self.now hash key one →
            IsFoundIn T.hash_of T.key_of self.now hash key other → one ≡ other }
    {
        let _ = &self.strays;
    }

    /// Returns the part that a place is in, and its number there.
    fn spot(&self, place: Place) -> Spot
        ensures { IsSpot (length self.now.draining) (length self.now.table) place.number result }
    {
        let first = drained_buckets(&self.draining);
        let buckets = self.table.buckets();
        if place.number < first {
            Spot::Drained(place.number)
        } else if place.number - first < buckets {
            Spot::Table(place.number - first)
        } else {
            Spot::Stray(place.number - first - buckets)
        }
    }

    /// Returns the first filled number at or above `at`.
    fn next_filled(&self, at: usize) -> Option<usize>
        ensures found { IfSome result (IsFirstFilled (cells self.now) at) }
        ensures none { IsNone result → NoneFilledFrom (cells self.now) at }
        ensures small { IfSome result (λ number. number < 2 ^ 64 - 1) }
    {
        let first = drained_buckets(&self.draining);
        let second = first + self.table.buckets();
        if let Some(number) = filled_drained(&self.draining, at) {
            return Some(number);
        }
        if let Some(number) = filled_bucket(&self.table, at.saturating_sub(first)) {
            return Some(first + number);
        }
        let stray = at.saturating_sub(second);
        if stray < self.strays.len() {
            Some(second + stray)
        } else {
            None
        }
    }

    /// Lends the entry at a place, or `None`.
    pub fn get(&self, place: Place) -> Option<&T>
        ensures { option_copied result ≡ entry_at self.now place }
    {
        match self.spot(place) {
            Spot::Drained(at) => drained_entry(&self.draining, at),
            Spot::Table(at) => self.table.get(at),
            Spot::Stray(at) => self.strays.get(at),
        }
    }

    /// Changes the entry at a place by a closure, and returns the closure's second result.
    ///
    /// The closure must keep the hash and the key. It takes no memory of its own.
    pub fn update<R, F: FnOnce(T) -> (T, R)>(&mut self, place: Place, change: F) -> R
        requires filled { IsFilled self.old place }
        requires keeps { (entry : T) → entry_at self.old place ≡ Some entry →
            KeepsKey T.hash_of T.key_of (F.pre change) (F.post change) entry }
        ensures { (entry : T) → entry_at self.old place ≡ Some entry →
            IsUpdated T.hash_of T.key_of (F.post change) entry place self.old self.new result }
    {
        match self.spot(place) {
            Spot::Drained(at) => update_drained(&mut self.draining, at, change),
            Spot::Table(at) => self.table.update(at, change),
            Spot::Stray(at) => self.strays.update(at, change),
        }
    }

    /// Returns the number of entries.
    pub fn len(&self) -> usize
        ensures count { result ≡ count self.now }
        ensures held { len (holds T.hash_of T.key_of self.now) ≡ result }
        ensures most { result < 2 ^ 64 - 1 }
    {
        drained_len(&self.draining) + self.table.len() + self.strays.len()
    }

    /// States that the content has as many entries as there are filled buckets and strays. It does
    /// nothing.
    pub fn each_entry_counts_once(&self)
        ensures { len (holds T.hash_of T.key_of self.now) ≡ count self.now }
    {
        let _ = &self.strays;
    }

    /// Returns the number of entries of the old table, which are still to be moved.
    pub fn entries_to_move(&self) -> usize
        ensures value { result ≡ left self.now }
        ensures rests { self.now.growing ≡ false → result ≡ 0 }
    {
        drained_len(&self.draining)
    }

    /// Returns the number of strays, entries without a bucket near their home.
    ///
    /// They are tried again when a growth ends.
    pub fn strays(&self) -> usize
        ensures count { result ≡ length self.now.strays }
        ensures within { result + left self.now ≤ count self.now }
    {
        self.strays.len()
    }

    /// Returns the number of homes of the newer table, 2^k, k from 6 to 24. A growth doubles it.
    pub fn homes(&self) -> usize
        ensures value { result ≡ 2 ^ self.now.k }
        ensures range { (64 ≤ result) × (result ≤ 2 ^ 24) }
    {
        1 << self.table.exponent()
    }

    /// Returns whether a growth runs.
    pub fn is_growing(&self) -> bool
        ensures { result ≡ self.now.growing }
    {
        self.draining.is_some()
    }

    /// Returns whether a growth lags, so that a caller that inserts should call `move_some`.
    ///
    /// It lags if it runs and one entry more would make over three entries for every four homes of
    /// the new table. (If no growth ran, that load would begin one.) If the new table fills before
    /// the old one is empty, further entries are strays, and each stray costs a move of memory.
    pub fn lags(&self) -> bool
        ensures { result ≡ lags self.now }
    {
        let homes = self.homes();
        let entries = self.len().saturating_add(1).saturating_mul(4);
        self.is_growing() && entries > 3 * homes
    }

    /// Returns the first entry whose number is at or above `at`, and that number, for a sweep.
    ///
    /// Each place has one number, and a removal changes no lower one. A sweep goes on at the next
    /// number, or at the same number if it removed the entry. The cost grows with the number of
    /// empty buckets that it passes.
    pub fn filled_from(&self, at: usize) -> Option<(usize, Place)>
        ensures { IsNext self.now at result }
    {
        let number = self.next_filled(at)?;
        Some((number, Place { number }))
    }

    /// Removes the entry at a place and returns it.
    ///
    /// Other entries stay, except that the last stray gets the number of a removed stray. It takes
    /// no memory. Removing a stray moves 8 bytes for each stray behind it in the order of hashes
    /// and keys.
    pub fn remove(&mut self, place: Place) -> T
        requires { IsFilled self.old place }
        ensures { IsRemoved T.hash_of T.key_of place result self.old self.new }
    {
        match self.spot(place) {
            Spot::Drained(at) => remove_drained(&mut self.draining, at),
            Spot::Table(at) => self.table.remove(at),
            Spot::Stray(at) => self.strays.swap_remove(at),
        }
    }

    /// Makes room for one entry more, and begins a growth if one is due.
    ///
    /// A growth adds a table of twice the homes, and `move_some` moves the entries of the old one
    /// there. Room is made for all of them among the strays, so that no move takes memory. The
    /// content is unchanged. The only error is a refused allocation, and the index is then
    /// unchanged.
    pub fn reserve(&mut self, alloc: Global) -> Result<(), AllocError>
        ensures room { OnOk result (1 ≤ self.new.spare) }
        ensures begins { OnOk result (is_due self.old ≡ true → HasBegun self.old self.new) }
        ensures stays { OnOk result (is_due self.old ≡ false → StandsAs self.old self.new) }
        ensures refused { OnErr result (StandsAs self.old self.new) }
        ensures content { holds T.hash_of T.key_of self.new ≡ holds T.hash_of T.key_of self.old }
    {
        self.give_back_room(alloc);
        if self.is_due() {
            self.begin_growth(alloc)
        } else {
            let left = drained_len(&self.draining);
            self.strays.reserve(left + 1)
        }
    }

    /// Inserts an entry of a new hash and key, for which room was reserved, and returns its place.
    ///
    /// It goes to a bucket of the table near its home, or among the strays if there is none. It
    /// takes no memory. Inserting a stray moves 8 bytes for each stray behind it in the order of
    /// hashes and keys.
    pub fn insert_reserved(&mut self, entry: T) -> Place
        requires new { get (holds T.hash_of T.key_of self.old) (T.hash_of entry ∷ T.key_of entry)
            ≡ None }
        requires room { 1 ≤ self.old.spare }
        ensures content { holds T.hash_of T.key_of self.new ≡ insert
            (holds T.hash_of T.key_of self.old) (T.hash_of entry ∷ T.key_of entry) entry }
        ensures place { IsPlaceOf T.hash_of T.key_of self.new
            (T.hash_of entry) (T.key_of entry) result }
        ensures inserted { IsInserted T.hash_of T.key_of entry self.old self.new }
        ensures count { count self.new ≡ count self.old + 1 }
        ensures room { self.old.spare ≤ self.new.spare + 1 }
    {
        let buckets = drained_buckets(&self.draining);
        let at = place(&mut self.table, &mut self.strays, entry);
        Place {
            number: buckets + at,
        }
    }

    /// Moves up to `n` entries of the old table, and returns how many it moved.
    ///
    /// It moves fewer only if fewer are left. When none is left it drops the old table and tries
    /// each stray once in the table, and the growth is over. The content is unchanged, and it takes
    /// no memory. The cost grows with `n`, and at the end of a growth with the strays.
    pub fn move_some(&mut self, n: usize) -> usize
        ensures moved { result ≡ min n (left self.old) }
        ensures left { left self.new ≡ left self.old - result }
        ensures content { holds T.hash_of T.key_of self.new ≡ holds T.hash_of T.key_of self.old }
        ensures count { count self.new ≡ count self.old }
        ensures moves { AreMoved T.hash_of T.key_of result self.old self.new }
        ensures room { self.old.spare ≤ self.new.spare }
    {
        let Some(mut draining) = self.draining.take() else {
            return 0;
        };
        let moved = move_entries(&mut draining, &mut self.table, &mut self.strays, n);
        if draining.len() == 0 {
            try_strays(&mut self.table, &mut self.strays);
        } else {
            self.draining = Some(draining);
        }
        moved
    }

    /// Frees the strays' room that a growth left, if no growth runs and there is no stray.
    fn give_back_room(&mut self, alloc: Global)
        ensures { StandsAs self.old self.new }
    {
        if self.draining.is_none() && self.strays.len() == 0 && self.strays.room() > SMALL_ROOM {
            self.strays = Strays::new(alloc);
        }
    }

    /// Returns whether a growth is due before one more entry is inserted.
    fn is_due(&self) -> bool
        ensures { result ≡ is_due self.now }
    {
        if self.draining.is_some() || self.table.exponent() >= 24 {
            return false;
        }
        let homes = self.homes();
        let entries = self.len().saturating_add(1).saturating_mul(4);
        entries > 3 * homes || (self.strays.len() > 0 && entries >= homes)
    }

    /// Begins a growth: allocates a table of twice the homes, and the strays' room.
    ///
    /// There is then room among the strays for every entry of the old table and the next one.
    fn begin_growth(&mut self, alloc: Global) -> Result<(), AllocError>
        requires { is_due self.old ≡ true }
        ensures room { OnOk result (1 ≤ self.new.spare) }
        ensures begins { OnOk result (HasBegun self.old self.new) }
        ensures refused { OnErr result (StandsAs self.old self.new) }
        ensures content { holds T.hash_of T.key_of self.new ≡ holds T.hash_of T.key_of self.old }
    {
        let table = Hop::new(alloc, self.table.exponent() + 1)?;
        // for the proof: how many buckets the old table has
        let _buckets = self.table.buckets();
        self.strays.reserve(self.table.len() + 1)?;
        table.entries_are_apart();
        self.draining = Some(mem::replace(&mut self.table, table));
        Ok(())
    }
}
