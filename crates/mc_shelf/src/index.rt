//! Entries, found by their keys.
//!
//! A new key on a shelf whose growth lags (three quarters of the homes) moves 8 entries first, so a
//! shelf that alone receives new keys still finishes its growth. No closure of a caller is passed
//! on: an entry holds a chunk with a lifetime, and such a closure can't cross a crate.

ghost use Rattle.std.specs.Prelude.{◌≡◌, ℕ, ◌+◌, ◌-◌, ◌^◌, ◌<◌, ◌≤◌, List, length, min};
ghost use Rattle.std.specs.Prelude.{Some, None, IfOk, IfSome, OnOk, nat_lt, option_copied, true, false};
ghost use Rattle.std.specs.FinMap.{empty, get, len};
ghost use Rattle.mc_slab.specs.Needs.{need_for};
ghost use Rattle.mc_protocol.specs.Plain.{charge, item_need};
ghost use Rattle.mc_shelf.specs.Plans.{GoesOver, made_block};
ghost use Rattle.mc_grow.specs.Indexes.{IsFilled, IsNext, KeepsLower, count, entry_at, left};
ghost use Rattle.mc_shelf.specs.Counts.{CatchesUp, CaughtUp, FitTogether, KeepsTable, MovesFew, counts_in};
ghost use Rattle.mc_shelf.specs.Deaths.{DieNoSooner, NoneIsDead};
ghost use Rattle.mc_shelf.specs.KeyMaps.{IsHashOf, EntriesAreKeyed};
ghost use Rattle.mc_shelf.specs.States.{EntryState, entry_with};
ghost use Rattle.mc_shelf.specs.Places.{ItemIsChanged, IsEntryOf, IsKeyAt, IsKeyFound, IsOfClass};
ghost use Rattle.mc_shelf.specs.Places.{KeyGoes, KeyComes, entries_of, hashes_of, items_of};

use crate::counts::ShelfCounts;
use crate::entry::{Entry, bare_parts};
use crate::soonest::Soonest;
use crate::write::write_over;
pub(crate) use mc_grow::Place;
use mc_hop::Keyed;
use mc_item::Parts;
use mc_protocol::{Body, Bytes, Standing};
use mc_slab::Class;
use mc_time::{Expiry, Moment};
use std::alloc::{AllocError, Global};
use std::marker::Model;

/// A new index has a table of 2^6 homes.
const LEAST_EXPONENT: u32 = 6;

/// The number of entries moved before an insertion if growth lags.
const CATCH_UP: usize = 8;

/// The number of headers that a sweep reads ahead: about as many loads as a processor can have
/// pending.
const AHEAD: usize = 16;

/// Entries by their keys, each with its key's hash.
///
/// It is a growing index by hash and key, in which no key has two hashes. Contracts see what that
/// index shows.
#[derive(Drop)]
pub(crate) struct EntryIndex {
    entries: mc_grow::Index<Entry>,
    /// As long as an item with these two moments would be alive, every item is.
    soonest: Soonest,
}

impl Model for EntryIndex {
    ghost use Rattle.mc_grow.specs.Indexes.{IndexState, coded_index};
    ghost use Rattle.mc_shelf.specs.States.{EntryState, coded_entry_state};
    ghost use Rattle.mc_shelf.specs.KeyMaps.{EntriesAreKeyed};
    ghost use Rattle.mc_shelf.specs.Places.{entries_of, items_of};
    ghost use Rattle.mc_shelf.specs.Deaths.{DieNoSooner};

    ghost Value = { IndexState EntryState };

    ghost coded = { coded_index coded_entry_state };

    ghost view = { λ i. i.entries };

    ghost invariant = { λ i. EntriesAreKeyed (entries_of i.entries)
        × DieNoSooner i.soonest (items_of i.entries) };
}

impl EntryIndex {
    ghost use Rattle.mc_protocol.specs.Commands.{longest_key};

    /// Makes an empty index. The only error is a refused allocation.
    pub(crate) fn new(alloc: Global) -> Result<EntryIndex, AllocError>
        ensures items { IfOk result (λ index. items_of index ≡ empty) }
        ensures hashes { IfOk result (λ index. hashes_of index ≡ empty) }
        ensures left { IfOk result (λ index. left index ≡ 0) }
        ensures homes { IfOk result (λ index. index.k ≡ 6) }
        ensures rests { IfOk result (λ index.
            (index.growing ≡ false) × (length index.strays ≡ 0)) }
    {
        Ok(EntryIndex {
            entries: mc_grow::Index::new(alloc, LEAST_EXPONENT)?,
            soonest: Soonest::empty(),
        })
    }

    /// Returns the place of a key, or `None`.
    ///
    /// `hash` is the hash that the index has with the key, if it has the key.
    pub(crate) fn find(&self, hash: u64, key: &[u8]) -> Option<Place>
        requires { IsHashOf (entries_of self.now) key.now hash }
        ensures { IsKeyFound self.now key.now result }
    {
        self.entries.find(hash, key)
    }

    /// Returns the place of a key that was searched before; `found` is that result.
    ///
    /// `found` may be `None` only if no entry has the key; any place is right. It looks there
    /// first, which is the whole cost if the entry hasn't moved since.
    pub(crate) fn find_again(&self, found: Option<Place>, hash: u64, key: &[u8]) -> Option<Place>
        requires hash { IsHashOf (entries_of self.now) key.now hash }
        requires none { found ≡ None → get (items_of self.now) key.now ≡ None }
        ensures { IsKeyFound self.now key.now result }
    {
        self.entries.find_again(found?, hash, key)
    }

    /// Lends the entry whose place a search returned.
    pub(crate) fn found_entry(&self, found: Option<Place>) -> Option<&Entry>
        ensures { (key : List ℕ) → IsKeyFound self.now key found → IsEntryOf self.now key result }
    {
        self.get(found?)
    }

    /// Lends the entry at a place, or `None`.
    pub(crate) fn get(&self, place: Place) -> Option<&Entry>
        ensures { option_copied result ≡ entry_at self.now place }
    {
        self.entries.get(place)
    }

    /// Makes room for one entry more, and begins a growth if one is due.
    ///
    /// A growth that lags moves 8 entries first. The entries are unchanged, also after an error.
    pub(crate) fn reserve(&mut self, alloc: Global) -> Result<(), AllocError>
        ensures entries { entries_of self.new ≡ entries_of self.old }
        ensures room { OnOk result (1 ≤ self.new.spare) }
        ensures moves { MovesFew 8 (counts_in self.old) (counts_in self.new) }
        ensures lags { CatchesUp (counts_in self.old) (counts_in self.new) }
    {
        self.catch_up();
        self.entries.reserve(alloc)
    }

    /// Moves entries of the old table if growth lags. It takes no memory.
    ///
    /// So a growth ends before the new table is full, even if nothing else moves entries.
    fn catch_up(&mut self)
        ensures entries { entries_of self.new ≡ entries_of self.old }
        ensures count { len (items_of self.new) ≡ count self.new }
        ensures moves { CaughtUp (counts_in self.old) (counts_in self.new) }
    {
        self.entries.each_entry_counts_once();
        // for the proof: without a growth no entry is left
        let _left = self.entries.entries_to_move();
        if self.entries.lags() {
            let _ = self.entries.move_some(CATCH_UP);
        }
    }

    /// Inserts an entry of a new key, for which room was reserved, and returns its place.
    ///
    /// It takes no memory.
    pub(crate) fn insert_reserved(&mut self, entry: Entry) -> Place
        requires absent { get (items_of self.old) entry.key ≡ None }
        requires room { 1 ≤ self.old.spare }
        ensures inserted { KeyComes self.old self.new entry.entry }
        ensures place { IsKeyAt self.new entry.entry.key result }
        ensures room { self.old.spare ≤ self.new.spare + 1 }
        ensures table { KeepsTable 0 (counts_in self.old) (counts_in self.new) }
    {
        self.soonest.note(entry.expiry(), entry.updated_at());
        self.entries.insert_reserved(entry)
    }

    /// Sets the expiry of the item at a place. Everything else is unchanged.
    pub(crate) fn set_expiry(&mut self, place: Place, expiry: Expiry)
        requires { (key : List ℕ) × IsKeyAt self.old key place }
        ensures { (key : List ℕ) (at : IsKeyAt self.old key place) →
            ItemIsChanged self.old self.new key (record at.entry.item { expiry = expiry }) }
    {
        self.soonest = self.soonest.with_expiry(expiry);
        self.entries.update(place, |mut entry| {
            entry.set_expiry(expiry);
            (entry, ())
        });
    }

    /// Replaces the entry at a place by one of the same hash and key, and returns the old one.
    ///
    /// It takes no memory.
    pub(crate) fn replace(&mut self, place: Place, entry: Entry) -> Entry
        requires key { IsKeyAt self.old entry.key place }
        requires hash { IsHashOf (entries_of self.old) entry.key entry.hash }
        ensures before { entry_at self.old place ≡ Some result }
        ensures changed { ItemIsChanged self.old self.new entry.entry.key entry.entry.item }
    {
        self.soonest.note(entry.expiry(), entry.updated_at());
        self.entries.update(place, |before| (entry, before))
    }

    /// Writes the item that a body makes into the chunks of the item at a place: over its block, or
    /// behind it.
    ///
    /// They must be the chunks that the new charge needs. It takes no memory.
    pub(crate) fn write_over<'a>(
        &mut self,
        place: Place,
        parts: &Parts<'a>,
        body: Body,
        block: &Bytes<'a>,
    )
        requires body { GoesOver body }
        requires key { IsKeyAt self.old parts.now.key.now place }
        requires short { length parts.now.key.now ≤ longest_key }
        requires need { (at : IsKeyAt self.old parts.now.key.now place) →
            item_need parts.now.key.now at.entry.item ≡ need_for (charge parts.now.key.now
            (made_block body block.now at.entry.item.block)) }
        ensures { (at : IsKeyAt self.old parts.now.key.now place) →
            ItemIsChanged self.old self.new parts.now.key.now
            (entry_with parts.now (made_block body block.now at.entry.item.block)).item }
    {
        let (hash, key) = (parts.hash, parts.key);
        let (flags, expiry) = (parts.flags, parts.expiry);
        let (unique, updated) = (parts.unique, parts.updated);
        self.soonest.note(expiry, updated);
        let bytes = block.as_slice();
        // A closure captures plain references alone, so that its contract is known.
        match block.lent() {
            Some(lent) => self.entries.update(place, |mut entry| {
                let parts = bare_parts(hash, key, flags, expiry, unique, updated);
                write_over(&mut entry, &parts, body, &Bytes::of_lent(lent));
                (entry, ())
            }),
            None => self.entries.update(place, |mut entry| {
                let parts = bare_parts(hash, key, flags, expiry, unique, updated);
                write_over(&mut entry, &parts, body, &Bytes::of(bytes));
                (entry, ())
            }),
        }
    }

    /// Removes the entry at a place and returns it. It takes no memory.
    pub(crate) fn remove(&mut self, place: Place) -> Entry
        requires { IsFilled self.old place }
        ensures there { entry_at self.old place ≡ Some result }
        ensures item { get (items_of self.old) result.key ≡ Some result.item }
        ensures removed { KeyGoes self.old self.new result.key }
        ensures lower { KeepsLower self.old self.new place.number }
        ensures room { self.old.spare ≤ self.new.spare }
        ensures table { KeepsTable 1 (counts_in self.old) (counts_in self.new) }
    {
        self.entries.remove(place)
    }

    /// Returns the first entry whose number is at or above `at`, and that number, for a sweep.
    ///
    /// Each entry has one number, and a removal changes no lower one. A sweep goes on at the next
    /// number, or at the same number if it removed the entry.
    pub(crate) fn filled_from(&self, at: usize) -> Option<(usize, Place)>
        ensures next { IsNext self.now at result }
        ensures keyed { EntriesAreKeyed (entries_of self.now) }
        ensures fits { IfSome result (λ found. found.0 + 1 < 2 ^ 64) }
    {
        self.entries.filled_from(at)
    }

    /// Reads the headers of 16 entries ahead of a sweep, from `number` on, unless they were read.
    ///
    /// Returns the number behind them. A header is in no cache. If headers are read one right after
    /// another, their loads overlap; with a removal or a search between two, each load waits for
    /// the one before.
    pub(crate) fn read_ahead(&self, ahead: usize, number: usize) -> usize {
        if number < ahead {
            return ahead;
        }
        read_all(&self.entries_from(number), number)
    }

    /// Lends the first entries at or above number `from`, each with the number behind it.
    ///
    /// It reads no item's memory.
    fn entries_from(&self, from: usize) -> [(usize, Option<&Entry>); AHEAD] {
        let mut entries = [(from, None); AHEAD];
        let mut at = from;
        for place in 0..AHEAD {
            let Some((number, found)) = self.filled_from(at) else {
                return entries;
            };
            at = number + 1;
            entries[place] = (at, self.get(found));
        }
        entries
    }

    /// Returns the first entry whose number is at or above `at`, or else the first of all.
    ///
    /// It returns the number and the place, and `None` only if there is no entry.
    pub(crate) fn any_from(&self, at: usize) -> Option<(usize, Place)>
        ensures filled { IfSome result (λ found. IsFilled self.now found.1) }
        ensures none { result ≡ None → items_of self.now ≡ empty }
    {
        match self.filled_from(at) {
            Some(found) => Some(found),
            None => self.filled_from(0),
        }
    }

    /// Returns the number and place of the first entry with chunks of a class, at or above `at`.
    ///
    /// It reads the index, and an item's memory only if its chunks are pages.
    pub(crate) fn of_class_from(&self, class: Class, at: usize) -> Option<(usize, Place)>
        ensures { IfSome result (λ found. IsOfClass self.now class found.1) }
    {
        let mut at = at;
        while let Some((number, place)) = self.filled_from(at) {
            if self.is_of_class(place, class) {
                return Some((number, place));
            }
            at = number + 1;
        }
        None
    }

    /// Returns whether the entry at a place has chunks of a class.
    fn is_of_class(&self, place: Place, class: Class) -> bool
        requires { IsFilled self.now place }
        ensures { result ≡ true → IsOfClass self.now class place }
    {
        self.entries.get(place).unwrap().need().class() == class
    }

    /// Returns the hash of the entry at a place.
    pub(crate) fn hash_at(&self, place: Place) -> u64
        requires { IsFilled self.now place }
        ensures { (entry : EntryState) → entry_at self.now place ≡ Some entry →
            result ≡ entry.hash }
    {
        self.entries.get(place).unwrap().hash()
    }

    /// Returns the number of entries of an old table, which are still to be moved.
    pub(crate) fn entries_to_move(&self) -> usize
        ensures { result ≡ left self.now }
    {
        self.entries.entries_to_move()
    }

    /// Returns the number of items.
    pub(crate) fn len(&self) -> usize
        ensures count { result ≡ len (items_of self.now) }
        ensures entries { result ≡ count self.now }
        ensures most { result < 2 ^ 64 - 1 }
    {
        self.entries.len()
    }

    /// Returns the number of items, homes, entries to move and strays, and whether a growth runs.
    pub(crate) fn counts(&self) -> ShelfCounts
        ensures value { result ≡ counts_in self.now }
        ensures fits { FitTogether result }
    {
        ShelfCounts {
            items: self.len() as u64,
            homes: self.entries.homes() as u64,
            growing: self.entries.is_growing(),
            left: self.entries.entries_to_move() as u64,
            strays: self.entries.strays() as u64,
        }
    }

    /// Returns whether there is no entry.
    pub(crate) fn is_empty(&self) -> bool
        ensures items { result ≡ true → items_of self.now ≡ empty }
        ensures hashes { result ≡ true → hashes_of self.now ≡ empty }
        ensures once { len (entries_of self.now) ≡ count self.now }
    {
        self.entries.len() == 0
    }

    /// Returns whether an item may be dead at a moment, with a flush at `cut`. It walks no entry.
    ///
    /// If it returns false no item is dead.
    pub(crate) fn may_have_dead(&self, cut: Option<u64>, now: Moment) -> bool
        ensures none { result ≡ false → NoneIsDead now cut (items_of self.now) }
        ensures keyed { EntriesAreKeyed (entries_of self.now) }
    {
        self.soonest.may_be_dead(cut, now)
    }

    /// Keeps the soonest expiry and write that a walk over all entries found.
    pub(crate) fn keep_soonest(&mut self, soonest: Soonest)
        requires { DieNoSooner soonest (items_of self.old) }
        ensures { self.new ≡ self.old }
    {
        self.soonest = soonest;
    }

    /// Moves up to `n` entries of an old table, and returns how many it moved.
    ///
    /// It moves fewer only if fewer are left. The entries are unchanged, and it takes no memory.
    /// The cost grows with `n`, and at the end of a growth with the strays.
    pub(crate) fn move_some(&mut self, n: usize) -> usize
        ensures moved { result ≡ min n (left self.old) }
        ensures left { left self.new ≡ left self.old - result }
        ensures entries { entries_of self.new ≡ entries_of self.old }
        ensures room { self.old.spare ≤ self.new.spare }
        ensures same_k { self.new.k ≡ self.old.k }
        ensures growing { self.new.growing ≡ nat_lt 0 (left self.new) }
    {
        self.entries.move_some(n)
    }
}

/// Reads the headers of entries, and returns the number behind the last, or `from` without entries.
///
/// Prefetch: the result of the reads picks one of two equal answers, so the compiler doesn't remove
/// the loads.
fn read_all(entries: &[(usize, Option<&Entry>)], from: usize) -> usize {
    let mut read = 0;
    let mut end = from;
    for (behind, entry) in entries {
        if let Some(entry) = entry {
            read ^= entry.hash() ^ entry.updated_at().seconds();
        }
        end = *behind;
    }
    if read == 0 { from } else { end }
}
