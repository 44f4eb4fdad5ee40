//! Shelves that were laid aside whole: their entries are removed one by one.
//!
//! The search for a chunk of a class reads entries, not items: the entry has the class, and reading
//! an item costs a cache miss. Each class remembers where its search stopped, so its writes read no
//! entry twice.

ghost use Rattle.std.specs.Prelude.{◌≡◌, ◌+◌, ◌≤◌, ℕ, None, true, IfSome, [], vec_len, vec_capacity};
ghost use Rattle.std.specs.FinMap.{empty};
ghost use Rattle.mc_protocol.specs.Plain.{item_need};
ghost use Rattle.mc_shelf.specs.Asides.{AreOff, IsOff, count_in};
ghost use Rattle.mc_shelf.specs.Bare.{IsBare};
ghost use Rattle.mc_shelf.specs.Counts.{AreReclaimed};
ghost use Rattle.mc_shelf.specs.States.{nothing_held};

use crate::counts::counted_up;
use crate::entry::Entry;
use crate::shelf::Shelf;
use mc_slab::{Chunks, Class};
use std::mem;

impl Shelf {
    /// Replaces this shelf by one without items, and returns this one, to be laid aside.
    ///
    /// The greatest charge is unchanged, and no flush is pending. The items of this one count as
    /// reclaimed. It takes no memory, and the cost doesn't grow with the items.
    pub fn emptied_by(&mut self, bare: Shelf) -> Shelf
        requires { IsBare bare }
        ensures before { result ≡ self.old }
        ensures bare { self.new.content ≡ nothing_held self.old.content.greatest }
        ensures reclaimed { AreReclaimed self.old self.new }
    {
        let Shelf { index, .. } = bare;
        let greatest = self.greatest;
        let reclaimed = counted_up(self.reclaimed, self.index.len(), 0);
        mem::replace(
            self,
            Shelf {
                greatest,
                index,
                cut: None,
                reclaimed,
            },
        )
    }

    /// Returns whether there is no item.
    fn holds_none(&self) -> bool
        ensures { result ≡ true → self.now.content.items ≡ empty }
    {
        self.index.is_empty()
    }

    /// Removes and returns the first entry at or above number `at`, or else the first of all.
    ///
    /// `at` becomes its number, so that a walk looks at each number about once.
    fn take_next(&mut self, at: &mut usize) -> Option<Entry>
        ensures some { IfSome result (IsOff self.old.content self.new.content) }
        ensures none { result ≡ None → self.old.content.items ≡ empty }
    {
        let (number, place) = self.index.any_from(*at)?;
        *at = number;
        Some(self.index.remove(place))
    }

    /// Removes and returns the first entry with chunks of a class whose number is at or above `at`.
    ///
    /// `at` becomes its number.
    fn take_of(&mut self, class: Class, at: &mut usize) -> Option<Entry>
        ensures some { IfSome result (IsOff self.old.content self.new.content) }
        ensures class { IfSome result (λ entry. (item_need entry.key entry.item).class ≡ class) }
        ensures none { result ≡ None → self.new ≡ self.old }
    {
        let (number, place) = self.index.of_class_from(class, *at)?;
        *at = number;
        Some(self.index.remove(place))
    }
}

/// A place in the shelves aside, from which a search goes on.
#[derive(Clone, Copy)]
pub(crate) struct AsidePlace {
    /// The index of the shelf.
    shelf: usize,
    /// The number of the entry.
    at: usize,
}

impl AsidePlace {
    /// The first place of all.
    pub(crate) const START: AsidePlace = AsidePlace { shelf: 0, at: 0 };
}

/// Removes the first item with chunks of a class from a place on, and returns its chunks.
///
/// All others stay. The place becomes the item's, or the first of all if no item was found.
pub(crate) fn chunks_of(
    aside: &mut Vec<Shelf>,
    class: Class,
    from: &mut AsidePlace,
) -> Option<Chunks>
    ensures off { IfSome result (AreOff aside.old.items aside.new.items) }
    ensures class { IfSome result (λ chunks. chunks.class ≡ class) }
    ensures none { result ≡ None → aside.new.items ≡ aside.old.items }
{
    let AsidePlace { mut shelf, mut at } = *from;
    while shelf < aside.len() {
        if let Some(entry) = aside[shelf].take_of(class, &mut at) {
            *from = AsidePlace { shelf, at };
            return Some(entry.into_chunks());
        }
        shelf += 1;
        at = 0;
    }
    *from = AsidePlace::START;
    None
}

/// Removes an item from the last shelf that has one, from `at` on, and returns its chunks.
///
/// Shelves behind it have no item and are dropped; if no shelf has an item, all are dropped.
pub(crate) fn next_chunks(aside: &mut Vec<Shelf>, at: &mut usize) -> Option<Chunks>
    ensures off { IfSome result (AreOff aside.old.items aside.new.items) }
    ensures none { result ≡ None → aside.new.items ≡ [] }
    ensures all { result ≡ None → (class : ℕ) → count_in aside.old.items class ≡ 0 }
{
    while let Some(mut shelf) = aside.pop() {
        if let Some(entry) = shelf.take_next(at) {
            aside.push_reserved(shelf);
            return Some(entry.into_chunks());
        }
        *at = 0;
    }
    None
}

/// Appends those of `others` that have items to `shelves`, which has room for them.
///
/// It takes no memory.
pub(crate) fn join(shelves: Vec<Shelf>, others: &mut Vec<Shelf>) -> Vec<Shelf>
    requires { vec_len shelves + vec_len others.old ≤ vec_capacity shelves }
    ensures { (class : ℕ) → count_in result.items class
        ≡ count_in shelves.items class + count_in others.old.items class }
{
    let mut joined = shelves;
    while let Some(shelf) = others.pop() {
        if !shelf.holds_none() {
            joined.push_reserved(shelf);
        }
    }
    joined
}
