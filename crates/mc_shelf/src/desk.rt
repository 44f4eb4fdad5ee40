//! What the shelves of a store share.

ghost use Rattle.std.specs.Prelude.{◌≡◌, ◌+◌, ◌-◌, ◌^◌, ◌<◌, ◌≤◌, true, false, None, IfOk, IfErr, IfSome, OnOk, OnErr};
ghost use Rattle.std.specs.Prelude.{ℕ, List, nat_le};
ghost use Rattle.mc_slab.specs.Needs.{IsNeed};
ghost use Rattle.mc_slab.specs.Chunks.{AreChunksOf};
ghost use Rattle.mc_slab.specs.Slabs.{IsSlab, WantsPages, given, has_room_with, made_ready, out_of};
ghost use Rattle.mc_slab.specs.Slabs.{pages_of, pages_wanted, taken, untouched, unused};
ghost use Rattle.mc_protocol.specs.Plain.{Plain};
ghost use Rattle.mc_shelf.specs.Asides.{none_out};
ghost use Rattle.mc_shelf.specs.Parts.{ArePartsOf};

use crate::collector::Collector;
use crate::shelf::Shelf;
use mc_protocol::StepFault;
use mc_slab::{Account, Chunks, Class, Need, Pages};
use std::alloc::{AllocError, Global};
use std::marker::Model;

/// What the shelves of a store share: the memory of items, and the next unique number.
///
/// Contracts see the slab's account and the number.
#[derive(Drop)]
pub struct Desk {
    slab: Collector,
    next_unique: u64,
}

impl Model for Desk {
    ghost use Rattle.mc_slab.specs.Slabs.{IsSlab};
    ghost use Rattle.mc_shelf.specs.States.{DeskState, coded_desk};

    ghost Value = { DeskState };

    ghost coded = { coded_desk };

    ghost view = { λ d. record { slab = d.slab; next_unique = d.next_unique } };

    ghost invariant = { λ d. IsSlab d.slab };
}

/// The pages that a write wants.
#[derive(Clone, Copy, Debug, PartialEq, Eq)]
pub struct WantedPages {
    /// The class of the pages.
    pub class: Class,
    /// The number of pages, 1 to 8.
    pub pages: u32,
}

impl Desk {
    /// Makes a desk with a limit of 1 to 65536 pages; no class has one yet.
    ///
    /// Its first unique number is `next`, at least 1. The only error is a refused allocation.
    pub fn with_next_number(alloc: Global, pages: u32, next: u64) -> Result<Desk, AllocError>
        requires pages { (1 ≤ pages) × (pages ≤ 65536) }
        requires next { 1 ≤ next }
        ensures { IfOk result (λ desk.
            desk ≡ record { slab = untouched pages; next_unique = next }) }
    {
        Ok(Desk {
            slab: Collector::new(alloc, pages)?,
            next_unique: next,
        })
    }

    /// Returns the pages of a class, and the number of its chunks that items use.
    pub fn account(&self, class: Class) -> Account
        ensures { result ≡ record {
          pages = pages_of self.now.slab class;
          out = out_of self.now.slab class;
        } }
    {
        self.slab.account(class)
    }

    /// Returns the unique number of the next write; 2^64 - 1 if they are used up.
    pub fn next_unique(&self) -> u64
        ensures value { result ≡ self.now.next_unique }
        ensures slab { IsSlab self.now.slab }
    {
        self.next_unique
    }

    /// Returns whether the unique numbers are used up.
    pub(crate) fn is_spent(&self) -> bool
        ensures spent { result ≡ true → self.now.next_unique ≡ 2 ^ 64 - 1 }
        ensures left { result ≡ false → self.now.next_unique < 2 ^ 64 - 1 }
        ensures slab { IsSlab self.now.slab }
    {
        self.next_unique() == u64::MAX
    }

    /// Returns the next unique number and counts on; they must not be used up.
    ///
    /// It also collects an item of the shelves aside, since each write takes a number.
    pub(crate) fn draw(&mut self) -> u64
        requires { self.old.next_unique < 2 ^ 64 - 1 }
        ensures number { result ≡ self.old.next_unique }
        ensures slab { IsSlab self.old.slab }
        ensures drawn { self.new
            ≡ record self.old { next_unique = self.old.next_unique + 1 } }
    {
        self.slab.collect();
        let number = self.next_unique;
        self.next_unique += 1;
        number
    }

    /// Returns whether the chunks of a need can be taken once `back` of its class were given back.
    ///
    /// They can if enough are unused, or can be cut from the pages that are left.
    pub(crate) fn has_room(&self, need: Need, back: u64) -> bool
        requires { back ≤ 8 }
        ensures value { result ≡ has_room_with self.now.slab need back }
        ensures slab { IsSlab self.now.slab }
    {
        let class = need.class();
        let count = u64::from(need.count());
        let at_hand = self.unused_chunks(class) + back;
        if count <= at_hand {
            return true;
        }
        let pages = u64::from(self.slab.pages_left());
        count <= at_hand + pages * u64::from(class.chunks_a_page())
    }

    /// Returns the number of chunks of the class's pages that aren't out.
    fn unused_chunks(&self, class: Class) -> u64
        ensures value { result ≡ unused self.now.slab class }
        ensures most { result < 2 ^ 46 }
        ensures slab { IsSlab self.now.slab }
    {
        let Account { pages, out } = self.slab.account(class);
        let chunks = u64::from(pages) * u64::from(class.chunks_a_page());
        chunks - u64::from(out)
    }

    /// Returns whether the chunks of a need are unused, so that it wants no page.
    pub(crate) fn has_unused(&self, need: Need) -> bool
        ensures { result ≡ nat_le need.count (unused self.now.slab need.class) }
    {
        u64::from(need.count()) <= self.unused_chunks(need.class())
    }

    /// Returns the pages that a need wants once `back` chunks of its class were given back.
    ///
    /// It is `None` if it wants none, or if there is no room for it.
    pub(crate) fn wanted_pages(&self, need: Need, back: u64) -> Option<WantedPages>
        requires { back ≤ 8 }
        ensures wanted { IfSome result (λ wanted. WantsPages self.now.slab need back
            × (wanted ≡ record {
              class = need.class;
              pages = pages_wanted self.now.slab need back;
            })) }
        ensures range { IfSome result (λ wanted. (1 ≤ wanted.pages) × (wanted.pages ≤ 8)) }
        ensures none { result ≡ None → WantsPages self.now.slab need back → ⊥ }
    {
        let at_hand = self.unused_chunks(need.class()) + back;
        let pages = u64::from(need.count()).saturating_sub(at_hand) as u32;
        if pages == 0 || !self.has_room(need, back) {
            return None;
        }
        Some(WantedPages {
            class: need.class(),
            pages,
        })
    }

    /// Takes the chunks of a need, if there is room. Their content is unspecified.
    ///
    /// Only pages for its class take memory; `pages` are used if they are enough and of the class.
    /// An error leaves the desk unchanged.
    pub(crate) fn take(
        &mut self,
        alloc: Global,
        need: Need,
        pages: Option<Pages>,
    ) -> Result<Chunks, StepFault>
        requires { has_room_with self.old.slab need 0 ≡ true }
        ensures chunks { IfOk result (AreChunksOf need) }
        ensures taken { OnOk result
            (self.new ≡ record self.old { slab = taken self.old.slab need }) }
        ensures fault { IfErr result (λ fault. fault ≡ StepFault.NoMemory) }
        ensures pages { OnErr result (WantsPages self.old.slab need 0) }
        ensures err { OnErr result (self.new ≡ self.old) }
        ensures slab { IsSlab self.old.slab }
    {
        match self.slab.take_all_with(alloc, need, pages) {
            Ok(chunks) => Ok(chunks),
            Err(_) => Err(StepFault::NoMemory),
        }
    }

    /// Gives a need's class the pages that it wants once `back` chunks were given back.
    ///
    /// There must be room for the need. `pages` are used if they are enough and of the class. An
    /// error leaves the desk unchanged.
    pub(crate) fn ready(
        &mut self,
        alloc: Global,
        need: Need,
        back: u64,
        pages: Option<Pages>,
    ) -> Result<(), StepFault>
        requires back { back ≤ out_of self.old.slab need.class }
        requires room { has_room_with self.old.slab need back ≡ true }
        ensures ready { OnOk result
            (self.new ≡ record self.old { slab = made_ready self.old.slab need back }) }
        ensures fault { IfErr result (λ fault. fault ≡ StepFault.NoMemory) }
        ensures pages { OnErr result (WantsPages self.old.slab need back) }
        ensures err { OnErr result (self.new ≡ self.old) }
        ensures is_need { IsNeed need }
        ensures slab { IsSlab self.old.slab }
    {
        // for the proof: the invariant of the slab
        let _account = self.slab.account(need.class());
        match self.slab.ready_with(alloc, need, back, pages) {
            Ok(()) => Ok(()),
            Err(_) => Err(StepFault::NoMemory),
        }
    }

    /// Takes the chunks of a need, if enough of its class are unused. Their content is unspecified.
    ///
    /// It takes no memory.
    pub(crate) fn take_unused(&mut self, alloc: Global, need: Need) -> Chunks
        requires { need.count ≤ unused self.old.slab need.class }
        ensures chunks { AreChunksOf need result }
        ensures taken { self.new ≡ record self.old { slab = taken self.old.slab need } }
        ensures slab { IsSlab self.old.slab }
    {
        match self.slab.take_all_with(alloc, need, None) {
            Ok(chunks) => chunks,
            // It wants no page, so nothing is refused.
            Err(_) => unreachable!(),
        }
    }

    /// Gives chunks back, if at least as many of their class are out. It takes no memory.
    pub(crate) fn give(&mut self, chunks: Chunks)
        requires { chunks.count ≤ out_of self.old.slab chunks.class }
        ensures given { self.new ≡ record self.old {
          slab = given self.old.slab chunks.entry.class chunks.entry.count;
        } }
        ensures slab { IsSlab self.old.slab }
    {
        self.slab.give_all(chunks);
    }

    /// Lays aside shelves that are, with this desk, the parts of a state. No chunk is out
    /// afterwards.
    ///
    /// It takes no memory, and the cost doesn't grow with their items. The chunks of the items are
    /// free, and are collected later: one item's with each write, and as many of a class as it
    /// needs before it gets a page. Shelves that are aside already and have items stay aside as far
    /// as the vector has room for them; the items of the others are collected at once.
    pub fn lay_aside(&mut self, shelves: Vec<Shelf>)
        requires { (hash_of : List ℕ → ℕ) × (state : Plain) × (count : ℕ)
            × ArePartsOf hash_of state shelves.items count self.old }
        ensures none { self.new ≡ record self.old { slab = none_out self.old.slab } }
        ensures slab { IsSlab self.new.slab }
    {
        self.slab.lay_aside(shelves);
    }
}
