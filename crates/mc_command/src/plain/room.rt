//! The room of the plain store: the chunks of its classes' pages, less those of its items, and the
//! pages left.
//!
//! It is counted each time, so the cost grows with the number of items.

ghost use Rattle.std.specs.Prelude.{◌≡◌, ◌+◌, ◌-◌, ◌*◌, ◌^◌, ◌<◌, ◌≤◌, sum};
ghost use Rattle.mc_sizes.specs.Classes.{IsClass};
ghost use Rattle.mc_protocol.specs.Plain.{class_count, count_of, pages_of, chunks_of, unused, has_room, standing};
ghost use Rattle.mc_protocol.specs.Laws.{of_class};
ghost use Rattle.mc_command.specs.Accounts.{dead_item};
ghost use Rattle.mc_command.specs.Items.{items_of};
ghost use Rattle.mc_command.specs.Steps.{found, paged};

use crate::plain::PlainStore;
use crate::plain::item::PlainItem;
use mc_sizes::{Class, Need};
use mc_time::Moment;
use std::collections::BTreeMap;

/// The number of classes.
pub(crate) const CLASSES: usize = 40;

impl PlainStore {
    /// Returns whether the chunks of a need are free, if the key's dead item is dropped first.
    pub(super) fn has_room(&self, key: &[u8], need: Need, now: Moment) -> bool
        ensures { result ≡ has_room (found key.now self.now now) need }
    {
        let left = u64::from(self.pages_left()) * u64::from(need.class().chunks_a_page());
        u64::from(need.count()) <= self.unused_chunks(key, need.class(), now) + left
    }

    /// Returns how many pages a need wants, if the key's dead item is dropped first.
    pub(super) fn pages_wanted(&self, key: &[u8], need: Need, now: Moment) -> u32
        ensures { result ≡ need.count - unused (found key.now self.now now) need.class }
    {
        u64::from(need.count()).saturating_sub(self.unused_chunks(key, need.class(), now)) as u32
    }

    /// Gives the class `more` pages.
    pub(super) fn add_pages(&mut self, more: u32, class: Class)
        requires { more ≤ self.old.limit - sum self.old.pages }
        ensures { self.new ≡ paged more self.old class }
    {
        self.pages[place(class)] += more;
        self.pages_in_use += more;
    }

    /// Returns how many pages no class has.
    fn pages_left(&self) -> u32
        ensures value { result ≡ self.now.limit - sum self.now.pages }
        ensures range { result ≤ 65536 }
    {
        self.limit - self.pages_in_use
    }

    /// Returns how many chunks the class's pages have.
    fn chunks(&self, class: Class) -> u64
        ensures value { result ≡ chunks_of self.now class }
        ensures range { result ≤ 65536 * 10922 }
        ensures is_class { IsClass class }
    {
        u64::from(self.pages[place(class)]) * u64::from(class.chunks_a_page())
    }

    /// Returns how many chunks of the class have no item, if the key's dead item is dropped first.
    fn unused_chunks(&self, key: &[u8], class: Class, now: Moment) -> u64
        ensures value { result ≡ unused (found key.now self.now now) class }
        ensures range { result ≤ 2 ^ 50 }
    {
        let chunks = self.chunks(class) + self.dead_chunks(key, class, now);
        chunks_but(chunks, &self.items, class)
    }

    /// Returns how many chunks of the class the key's item has, if it is dead, else 0.
    fn dead_chunks(&self, key: &[u8], class: Class, now: Moment) -> u64
        requires { IsClass class }
        ensures value { result ≡ of_class key.now
            (dead_item (standing self.now key.now now) key.now self.now) class }
        ensures range { result ≤ 2 ^ 45 }
    {
        if self.standing_item(key, now).is_some() {
            return 0;
        }
        match self.items.get(key) {
            Some(item) => item.chunks_in(key, class),
            None => 0,
        }
    }
}

/// Returns how many of `chunks` chunks of the class the items leave.
fn chunks_but(chunks: u64, items: &BTreeMap<Vec<u8>, PlainItem>, class: Class) -> u64
    requires { IsClass class }
    ensures { result ≡ chunks - count_of (items_of items.now.entries) class }
{
    let mut left = chunks;
    for (key, item) in items {
        left = left.saturating_sub(item.chunks_in(key, class));
    }
    left
}

/// Returns a class's index, from 0.
fn place(class: Class) -> usize
    ensures value { result ≡ class - 1 }
    ensures is_class { IsClass class }
    ensures range { result < class_count }
{
    usize::from(class.number()) - 1
}
