//! The plain store: an ordered map that takes each step as the plain machine does.
//!
//! It is the reference that the store by shelves is compared with. It is short and slow: items are
//! vectors in an ordered map, and chunks are only counted, by class, when a write needs room.

mod item;
mod purge;
mod room;
mod write;

ghost use Rattle.std.specs.Prelude.{◌≡◌, ◌≤◌, length, Err, IfOk, OnErr, refl};
ghost use Rattle.std.specs.Option.{option_copied};
ghost use Rattle.std.specs.FinMap.{get, remove};
ghost use Rattle.mc_sizes.specs.Needs.{largest_charge};
ghost use Rattle.mc_protocol.specs.Commands.{key_of, longest_key};
ghost use Rattle.mc_command.specs.Steps.{Ends, found, applied, reading};
ghost use Rattle.mc_protocol.specs.Plain.{opening, starting, plain, stepped, standing, expiring, hit_of, living, Answered, Spent, CopiesBlock, MayFail};

use crate::plain::item::PlainItem;
pub use crate::plain::purge::KeyTest;
use crate::plain::room::CLASSES;
use mc_protocol::{KeyStep, Reply, Row, StepFault, Steps, row_of};
use mc_time::{Expiry, Moment, cut_after};
use std::alloc::{AllocError, Global};
use std::collections::BTreeMap;
use std::marker::Model;

/// A store that is an ordered map. It takes each step as the plain machine does.
#[derive(Drop)]
pub struct PlainStore {
    greatest: u64,
    limit: u32,
    items: BTreeMap<Vec<u8>, PlainItem>,
    cut: Option<u64>,
    next_unique: u64,
    /// The pages of each class, class 1 first, and their sum.
    pages: [u32; CLASSES],
    pages_in_use: u32,
}

impl Model for PlainStore {
    ghost use Rattle.mc_protocol.specs.Plain.{Plain, coded_plain};
    ghost use Rattle.mc_command.specs.Items.{items_of};
    ghost use Rattle.mc_command.specs.Accounts.{AreCounted};

    ghost Value = { Plain };

    ghost coded = { coded_plain };

    ghost view = { λ s. record {
      greatest = s.greatest;
      limit = s.limit;
      items = items_of s.items.entries;
      cut = s.cut;
      next_unique = s.next_unique;
      pages = s.pages;
    } };

    ghost invariant = { λ s. AreCounted s.greatest s.limit s.pages_in_use s.pages };
}

impl PlainStore {
    /// Makes an empty store with a limit of 1 to 65536 pages and a greatest charge of an item.
    ///
    /// The greatest charge is in bytes, at most that of eight pages. The only error is a refused
    /// allocation.
    pub fn new(alloc: Global, pages: u32, greatest: u64) -> Result<PlainStore, AllocError>
        requires pages { (1 ≤ pages) × (pages ≤ 65536) }
        requires greatest { greatest ≤ largest_charge }
        ensures { IfOk result (λ store. store ≡ opening pages greatest) }
    {
        PlainStore::starting(alloc, pages, greatest, 1)
    }

    /// Makes an empty store whose first write uses the unique number `next`, at least 1.
    ///
    /// At 2^64 - 1 the numbers are used up. Otherwise it is as `new`.
    pub fn starting(
        alloc: Global,
        pages: u32,
        greatest: u64,
        next: u64,
    ) -> Result<PlainStore, AllocError>
        requires pages { (1 ≤ pages) × (pages ≤ 65536) }
        requires greatest { greatest ≤ largest_charge }
        requires next { 1 ≤ next }
        ensures { IfOk result (λ store. store ≡ starting pages greatest next) }
    {
        Ok(PlainStore {
            greatest,
            limit: pages,
            items: BTreeMap::new(alloc),
            cut: None,
            next_unique: next,
            pages: [0; CLASSES],
            pages_in_use: 0,
        })
    }
}

impl PlainStore {
    /// Returns the item under the key, unless it is dead.
    fn standing_item(&self, key: &[u8], now: Moment) -> Option<&PlainItem>
        ensures { option_copied result ≡ standing self.now key.now now }
    {
        match self.items.get(key) {
            Some(item) if !item.is_dead(self.cut, now) => Some(item),
            _ => None,
        }
    }

    /// Removes the key's item, if there is one.
    fn remove(&mut self, key: &[u8])
        ensures { self.new ≡ record self.old { items = remove self.old.items key.now } }
    {
        let _ = self.items.remove(key);
    }

    /// Drops the key's item if it is dead.
    fn drop_dead(&mut self, key: &[u8], now: Moment)
        ensures { self.new ≡ found key.now self.old now }
    {
        if self.standing_item(key, now).is_none() {
            self.remove(key);
        }
    }

    /// Sets the expiry of the key's item, if there is one.
    fn set_expiry(&mut self, key: &[u8], expiry: Expiry)
        ensures { self.new ≡ expiring (get self.old.items key.now) key.now expiry self.old }
    {
        if let Some(item) = self.items.get_mut(key) {
            item.set_expiry(expiry);
        }
    }
}

// Steps, by the protocol's table.
impl PlainStore {
    /// Takes a step. A step that writes no item and has no hit takes no memory.
    fn take(&mut self, alloc: Global, step: &KeyStep<'_>, now: Moment) -> Result<Reply, StepFault>
        requires { length (key_of step.now) ≤ longest_key }
        ensures { Ends (plain self.old step.now now) result self.old self.new }
    {
        match step {
            KeyStep::Flush { delay } => Ok(self.flush(*delay, now)),
            _ => self.perform_row(alloc, step, now),
        }
    }

    /// Takes a step at its key, by its row.
    fn perform_row(
        &mut self,
        alloc: Global,
        step: &KeyStep<'_>,
        now: Moment,
    ) -> Result<Reply, StepFault>
        requires { length (key_of step.now) ≤ longest_key }
        ensures { Ends (stepped self.old step.now now) result self.old self.new }
    {
        let row = row_of(step, self.standing_item(step.key(), now), now);
        self.apply(alloc, row, step, now)
    }

    /// Applies a row at a step's key.
    fn apply(
        &mut self,
        alloc: Global,
        row: Row,
        step: &KeyStep<'_>,
        now: Moment,
    ) -> Result<Reply, StepFault>
        requires { length (key_of step.now) ≤ longest_key }
        ensures { Ends (applied row step.now self.old now) result self.old self.new }
    {
        let key = step.key();
        match row {
            Row::Refuses(refusal) => {
                self.drop_dead(key, now);
                Ok(refusal.reply())
            }
            Row::Reads(expiry) => self.read(alloc, key, expiry, now),
            Row::Touches(expiry) => {
                self.expire(key, expiry, now);
                Ok(Reply::Touched)
            }
            Row::Deletes => {
                self.drop_dead(key, now);
                self.remove(key);
                Ok(Reply::Deleted)
            }
            Row::Writes { .. } => self.write(alloc, row, step, now),
        }
    }

    /// Sets the expiry of the key's item, unless it is dead.
    fn expire(&mut self, key: &[u8], expiry: Expiry, now: Moment)
        ensures { self.new
            ≡ expiring (standing self.old key.now now) key.now expiry (found key.now self.old now) }
    {
        self.drop_dead(key, now);
        self.set_expiry(key, expiry);
    }

    /// Replies with the key's item, and sets its expiry if one is given.
    fn read(
        &mut self,
        alloc: Global,
        key: &[u8],
        expiry: Option<Expiry>,
        now: Moment,
    ) -> Result<Reply, StepFault>
        ensures { Ends (reading expiry key.now self.old now) result self.old self.new }
    {
        let reply = self.hit(alloc, key, now)?;
        match expiry {
            Some(expiry) => self.expire(key, expiry, now),
            None => self.drop_dead(key, now),
        }
        Ok(reply)
    }

    /// Returns the reply of a retrieval.
    fn hit(&self, alloc: Global, key: &[u8], now: Moment) -> Result<Reply, AllocError>
        ensures ok { IfOk result (λ reply. reply ≡ hit_of (standing self.now key.now now)) }
        ensures err { OnErr result (CopiesBlock (hit_of (standing self.now key.now now))) }
    {
        match self.standing_item(key, now) {
            Some(item) => item.hit(alloc),
            None => Ok(Reply::Miss),
        }
    }

    /// Drops all items; with a delay it drops the dead ones and notes when the others are flushed.
    fn flush(&mut self, delay: u64, now: Moment) -> Reply
        ensures { plain self.old (KeyStep.Flush delay) now ≡ Answered result self.new }
    {
        if delay == 0 {
            self.items.clear();
        } else {
            self.drop_all_dead(now);
        }
        self.cut = cut_after(delay, now);
        Reply::Flushed
    }

    /// Drops every dead item.
    fn drop_all_dead(&mut self, now: Moment)
        ensures { self.new ≡ record self.old { items = living self.old.items self.old.cut now } }
    {
        let cut = self.cut;
        self.items.retain(move |_, item| !item.is_dead(cut, now));
    }
}

impl Steps for PlainStore {
    ghost took = { λ old step now reply new. plain old step now ≡ Answered reply new };

    ghost spent = { λ old step now. plain old step now ≡ Spent };

    ghost same = { λ old new. new ≡ old };

    ghost holds_itself = { λ _. refl };

    fn step(&mut self, alloc: Global, step: &KeyStep<'_>, now: Moment) -> Result<Reply, StepFault>
        requires { length (key_of step.now) ≤ longest_key }
        ensures took { IfOk result
            (λ reply. plain self.old step.now now ≡ Answered reply self.new) }
        ensures spent { result ≡ Err StepFault.NumbersSpent → plain self.old step.now now ≡ Spent }
        ensures numbers { plain self.old step.now now ≡ Spent →
            result ≡ Err StepFault.NumbersSpent }
        ensures refused { result ≡ Err StepFault.NoMemory → MayFail (plain self.old step.now now) }
        ensures err { OnErr result (self.new ≡ self.old) }
    {
        self.take(alloc, step, now)
    }
}
