//! The store of one thread, as callers see it: its settings, its hasher, and the plain machine's
//! state.
//!
//! The store keeps the flush cut beside its shelves' equal cuts, so its model needs no shelf.
//! `into_parts` returns shelves and desk under contracts, for a store with other locks.

ghost use Rattle.std.specs.Prelude.{◌≡◌, ◌↔◌, ◌-◌, ◌≤◌, min, length, replicate, slice_index, slice_set, IfOk, OnErr, Err, refl};
ghost use Rattle.std.proofs.Common.{inl};
ghost use Rattle.mc_protocol.specs.Commands.{key_of, longest_key};
ghost use Rattle.mc_protocol.specs.Plain.{Plain, opening, starting, plain, Spent, MayFail};
ghost use Rattle.mc_protocol.specs.Laws.{IsOnKey};
ghost use Rattle.mc_shelf.specs.Parts.{ArePartsOf, shelf_of};
ghost use Rattle.mc_shelf.specs.Stores.{IsSetUp, AreAlike, FallsAt, FewMoveAt, HoldSame, TookStep};
ghost use Rattle.mc_shelf.specs.Stores.{shelf_purged};
ghost use Rattle.mc_shelf.specs.Unions.{lefts};

use crate::desk::Desk;
use crate::parts;
use crate::shelf::Shelf;
use mc_hop::KeyHash;
use mc_protocol::{KeyStep, Reply, StepFault, Steps};
use mc_sizes::Settings;
use mc_time::Moment;
use std::alloc::{AllocError, Global};
use std::marker::Model;

/// The parts of a store. A key's shelf is its hash modulo the number of shelves.
#[derive(Drop)]
pub struct StoreParts<K: KeyHash + Drop> {
    /// Its settings.
    pub settings: Settings,
    /// The hash function of its keys.
    pub hasher: K,
    /// Its shelves, in order.
    pub shelves: Vec<Shelf>,
    /// The desk that they share.
    pub desk: Desk,
}

/// A store of one thread: shelves of items, and the desk that they share.
///
/// Contracts see its settings, its hasher, the plain machine's state, and for each shelf how many
/// entries of an old table are still to be moved.
#[derive(Drop)]
pub struct Store<K: KeyHash + Drop> {
    parts: StoreParts<K>,
}

impl<K: KeyHash + Drop> Model for Store<K> {
    ghost use Rattle.mc_shelf.specs.Unions.{plain_of, lefts};
    ghost use Rattle.mc_shelf.specs.Stores.{IsStore, StoreState, coded_store};

    ghost Value = { StoreState K };

    ghost coded = { coded_store K.code };

    ghost view = { λ s. record {
      settings = s.parts.settings;
      hasher = s.parts.hasher;
      plain = plain_of s.parts.settings s.parts.shelves.items s.parts.desk;
      left = lefts s.parts.shelves.items;
    } };

    ghost invariant = { λ s. IsStore (K.hash_of s.parts.hasher) s.parts.settings
        s.parts.shelves.items s.parts.desk };
}

impl<K: KeyHash + Drop> Store<K> {
    /// Makes an empty store; no class has a page. The only error is a refused allocation.
    pub fn new(alloc: Global, settings: Settings, hasher: K) -> Result<Store<K>, AllocError>
        ensures plain { IfOk result (λ store.
            store.plain ≡ opening settings.pages settings.greatest) }
        ensures settings { IfOk result (λ store. store.settings ≡ settings) }
        ensures hasher { IfOk result (λ store. store.hasher ≡ hasher) }
        ensures left { IfOk result (λ store. store.left ≡ replicate settings.shelves 0) }
    {
        Store::starting(alloc, settings, hasher, 1)
    }

    /// Makes an empty store whose first write uses the unique number `next`, at least 1.
    ///
    /// At 2^64 - 1 the numbers are used up. The only error is a refused allocation.
    pub fn starting(
        alloc: Global,
        settings: Settings,
        hasher: K,
        next: u64,
    ) -> Result<Store<K>, AllocError>
        requires { 1 ≤ next }
        ensures plain { IfOk result (λ store.
            store.plain ≡ starting settings.pages settings.greatest next) }
        ensures settings { IfOk result (λ store. store.settings ≡ settings) }
        ensures hasher { IfOk result (λ store. store.hasher ≡ hasher) }
        ensures left { IfOk result (λ store. store.left ≡ replicate settings.shelves 0) }
    {
        let shelves = parts::empty_shelves(alloc, settings.shelves, settings.greatest)?;
        let desk = Desk::with_next_number(alloc, settings.pages, next)?;
        Ok(Store {
            parts: StoreParts {
                settings,
                hasher,
                shelves,
                desk,
            },
        })
    }

    /// Returns a store of parts that keep a state. It takes no memory.
    pub fn from_parts(parts: StoreParts<K>) -> Store<K>
        requires { (state : Plain) × IsSetUp parts.settings state
            × ArePartsOf (K.hash_of parts.hasher)
            state parts.shelves.items parts.settings.shelves parts.desk }
        ensures settings { result.settings ≡ parts.settings }
        ensures hasher { result.hasher ≡ parts.hasher }
        ensures plain { (state : Plain) → IsSetUp parts.settings state →
            ArePartsOf (K.hash_of parts.hasher)
            state parts.shelves.items parts.settings.shelves parts.desk →
            result.plain ≡ state }
        ensures left { result.left ≡ lefts parts.shelves.items }
    {
        Store { parts }
    }

    /// Returns the parts, which keep the store's state. It takes no memory.
    pub fn into_parts(self) -> StoreParts<K>
        ensures settings { result.settings ≡ self.settings }
        ensures hasher { result.hasher ≡ self.hasher }
        ensures set_up { IsSetUp result.settings self.plain }
        ensures parts { ArePartsOf (K.hash_of result.hasher)
            self.plain result.shelves.items result.settings.shelves result.desk }
        ensures left { self.left ≡ lefts result.shelves.items }
    {
        let Store { parts } = self;
        parts
    }

    /// Returns its settings.
    pub fn settings(&self) -> Settings
        ensures value { result ≡ self.now.settings }
        ensures set_up { IsSetUp self.now.settings self.now.plain }
    {
        self.parts.settings
    }

    /// Drops the dead items of a shelf, and none if there is no such shelf.
    ///
    /// It takes no memory and moves no entry. It costs one pass over the shelf's items, and walks
    /// none if none may be dead.
    pub fn purge(&mut self, shelf: u32, now: Moment)
        ensures plain { self.new.plain ≡ shelf_purged (K.hash_of self.old.hasher)
            self.old.settings.shelves shelf now self.old.plain }
        ensures set_up { AreAlike self.old self.new }
        ensures left { FallsAt shelf self.old.left self.new.left }
    {
        if shelf < self.parts.settings.shelves {
            let StoreParts { shelves, desk, .. } = &mut self.parts;
            let shelf = &mut shelves[shelf as usize];
            shelf.purge_part(now, desk);
        }
    }

    /// Moves up to `n` entries of a shelf's old table, and returns how many it moved.
    ///
    /// It moves fewer only if fewer are left, and 0 if there is no such shelf. Everything else is
    /// unchanged, and it takes no memory. The cost grows with `n`.
    pub fn grow(&mut self, shelf: u32, n: usize) -> usize
        ensures moved { result ≡ min n (slice_index self.old.left shelf) }
        ensures left { self.new ≡ record self.old {
          left = slice_set self.old.left shelf (slice_index self.old.left shelf - result);
        } }
    {
        if shelf < self.parts.settings.shelves {
            self.parts.shelves[shelf as usize].grow(n)
        } else {
            0
        }
    }

    /// Takes a step on one key, on the key's shelf. After an error the store holds what it held.
    ///
    /// At most 8 entries of that shelf's old table are moved, beside the key's own, which may be
    /// removed, and no other shelf's.
    fn step_on_key(
        &mut self,
        alloc: Global,
        step: &KeyStep<'_>,
        now: Moment,
    ) -> Result<Reply, StepFault>
        requires on_key { IsOnKey step.now }
        requires key { length (key_of step.now) ≤ longest_key }
        ensures took { IfOk result (λ reply. TookStep self.old step.now now reply self.new) }
        ensures spent { result ≡ Err StepFault.NumbersSpent
            ↔ (plain self.old.plain step.now now ≡ Spent) }
        ensures err { OnErr result (HoldSame self.old self.new) }
        ensures refused { result ≡ Err StepFault.NoMemory
            → MayFail (plain self.old.plain step.now now) }
        ensures moves { FewMoveAt
            (shelf_of (K.hash_of self.old.hasher) self.old.settings.shelves (key_of step.now))
            self.old.left self.new.left }
    {
        let hash = self.parts.hasher.hash(step.key());
        let at = hash % u64::from(self.parts.settings.shelves);
        let StoreParts { shelves, desk, .. } = &mut self.parts;
        let shelf = &mut shelves[at as usize];
        shelf.step(alloc, step, hash, now, desk)
    }

    /// Flushes all shelves. It takes no memory.
    fn flush(&mut self, delay: u64, now: Moment) -> Reply
        ensures { TookStep self.old (KeyStep.Flush delay) now result self.new }
    {
        let StoreParts { shelves, desk, .. } = &mut self.parts;
        parts::flush_parts(shelves, desk, delay, now);
        Reply::Flushed
    }
}

impl<K: KeyHash + Drop> Steps for Store<K> {
    ghost took = { λ old step now reply new. TookStep old step now reply new };

    ghost spent = { λ old step now. plain old.plain step now ≡ Spent };

    ghost same = { λ old new. HoldSame old new };

    ghost holds_itself = { λ _. record {
      plain = refl;
      settings = refl;
      hasher = refl;
      moves = inl refl;
    } };

    /// Takes a step, on the key's shelf, or a flush on all.
    ///
    /// A step on a key moves at most 8 entries of its shelf's old table, beside the key's own,
    /// which may be removed, and no other shelf's. A growth of that shelf may begin. A flush moves
    /// none.
    fn step(&mut self, alloc: Global, step: &KeyStep<'_>, now: Moment) -> Result<Reply, StepFault>
        requires { length (key_of step.now) ≤ longest_key }
        ensures took { IfOk result (λ reply. TookStep self.old step.now now reply self.new) }
        ensures spent { result ≡ Err StepFault.NumbersSpent
            ↔ (plain self.old.plain step.now now ≡ Spent) }
        ensures err { OnErr result (HoldSame self.old self.new) }
        ensures refused { result ≡ Err StepFault.NoMemory
            → MayFail (plain self.old.plain step.now now) }
        ensures moves { IsOnKey step.now → FewMoveAt
            (shelf_of (K.hash_of self.old.hasher) self.old.settings.shelves (key_of step.now))
            self.old.left self.new.left }
    {
        match step {
            KeyStep::Flush { delay } => Ok(self.flush(*delay, now)),
            _ => self.step_on_key(alloc, step, now),
        }
    }
}
