//! The slab of a desk, with shelves aside whose chunks count as free and are collected later.
//!
//! A `flush_all` without delay lays shelves aside whole. Their chunks count as free at once, and
//! each later write collects one item; a class that lacks chunks collects its own items first.
//! Contracts see the slab as if all were collected, so no contract above mentions the shelves
//! aside. One item per write keeps a set below 1.5 times its usual cost; 8 items cost 2 to 4 times.

ghost use Rattle.std.specs.Prelude.{◌≡◌, ◌+◌, ◌-◌, ◌<◌, ◌≤◌, ℕ, List, [], true, false, slice_index, vec_len, IfOk};
ghost use Rattle.mc_slab.specs.Classes.{IsClass};
ghost use Rattle.mc_slab.specs.Slabs.{IsSlab, Readies, Takes, given, out_of, pages_left, pages_of};
ghost use Rattle.mc_slab.specs.Slabs.{untouched};
ghost use Rattle.mc_shelf.specs.Asides.{AreCollected, GivesOwn, LieAside, Suffices, all_out, count_in, none_out};

use crate::aside::{AsidePlace, chunks_of, join, next_chunks};
use crate::shelf::Shelf;
use mc_slab::{Account, Chunks, Class, Need, Pages, Slab, TakeFault};
use std::alloc::{AllocError, Global};
use std::marker::Model;

/// A slab, and shelves that were laid aside whole.
///
/// The chunks of their items are free at once. One item is collected with each write; a class with
/// too few unused chunks collects as many of its own as it needs, before it gets a page. Contracts
/// see the slab as if all were collected.
#[derive(Drop)]
pub(crate) struct Collector {
    slab: Slab,
    /// For each class, class 1 first, the chunks that are out and not of shelves aside.
    out: [u32; 40],
    /// The shelves aside.
    aside: Aside,
}

impl Model for Collector {
    ghost use Rattle.mc_slab.specs.Slabs.{SlabState, coded_slab};
    ghost use Rattle.mc_shelf.specs.Asides.{LieAside, seen};

    ghost Value = { SlabState };

    ghost coded = { coded_slab };

    ghost view = { λ c. seen c.slab c.out };

    ghost invariant = { λ c. LieAside c.slab c.out c.aside.shelves.items };
}

impl Collector {
    /// Makes a collector with a limit of 1 to 65536 pages; no class has one yet.
    ///
    /// The only error is a refused allocation.
    pub(crate) fn new(alloc: Global, pages: u32) -> Result<Collector, AllocError>
        requires { (1 ≤ pages) × (pages ≤ 65536) }
        ensures value { IfOk result (λ slab. slab ≡ untouched pages) }
        ensures is_slab { IfOk result IsSlab }
    {
        Ok(Collector {
            slab: Slab::new(alloc, pages)?,
            out: [0; 40],
            aside: Aside::of(Vec::new(alloc)),
        })
    }

    /// Returns the class's pages, and the number of its chunks that are out.
    pub(crate) fn account(&self, class: Class) -> Account
        ensures value { result
            ≡ record { pages = pages_of self.now class; out = out_of self.now class } }
        ensures is_slab { IsSlab self.now }
    {
        let Account { pages, .. } = self.slab.account(class);
        Account {
            pages,
            out: self.out[place_of(class)],
        }
    }

    /// Returns the number of pages that no class has yet.
    pub(crate) fn pages_left(&self) -> u32
        ensures value { result ≡ pages_left self.now }
        ensures is_slab { IsSlab self.now }
    {
        self.slab.pages_left()
    }

    /// Takes the chunks of a need, as a slab does with `pages`.
    ///
    /// If its class has too few unused chunks, its chunks aside are collected first, until there
    /// are enough or none is left.
    pub(crate) fn take_all_with(
        &mut self,
        alloc: Global,
        need: Need,
        pages: Option<Pages>,
    ) -> Result<Chunks, TakeFault>
        ensures { Takes need self.old result self.new }
    {
        let place = place_of(need.class());
        let out = self.out[place];
        collect_for(&mut self.slab, &mut self.aside, need, 0, out);
        match self.slab.take_all_with(alloc, need, pages) {
            Ok(chunks) => {
                // for the proof: the invariant of the slab
                let _most = self.slab.account(need.class());
                self.out[place] = out + need.count();
                Ok(chunks)
            }
            Err(fault) => Err(fault),
        }
    }

    /// Gives the class of a need the pages that it will want, as a slab does with `pages`.
    ///
    /// If it has too few unused chunks, its chunks aside are collected first, until there are
    /// enough or none is left.
    pub(crate) fn ready_with(
        &mut self,
        alloc: Global,
        need: Need,
        back: u64,
        pages: Option<Pages>,
    ) -> Result<(), TakeFault>
        requires { back ≤ out_of self.old need.class }
        ensures { Readies need back self.old result self.new }
    {
        let out = self.out[place_of(need.class())];
        collect_for(&mut self.slab, &mut self.aside, need, back, out);
        self.slab.ready_with(alloc, need, back, pages)
    }

    /// Gives chunks back, if at least as many of their class are out. It takes no memory.
    pub(crate) fn give_all(&mut self, chunks: Chunks)
        requires { chunks.count ≤ out_of self.old chunks.class }
        ensures given { self.new ≡ given self.old chunks.entry.class chunks.entry.count }
        ensures is_slab { IsSlab self.new }
    {
        let need = chunks.need();
        self.slab.give_all(chunks);
        self.out[place_of(need.class())] -= need.count();
    }

    /// Collects an item of the shelves aside, if there is one.
    pub(crate) fn collect(&mut self)
        ensures { self.new ≡ self.old }
    {
        let _ = collect_one(&mut self.slab, &mut self.aside);
    }

    /// Lays shelves aside. Their items have all the chunks that are out, so none is out afterwards.
    ///
    /// It takes no memory. Of the shelves that are aside already, as many with items are kept as
    /// the vector has room for; the items of the others are collected.
    pub(crate) fn lay_aside(&mut self, shelves: Vec<Shelf>)
        requires { (class : ℕ) → IsClass class
            → out_of self.old class ≡ count_in shelves.items class }
        ensures none { self.new ≡ none_out self.old }
        ensures is_slab { IsSlab self.new }
    {
        let room = shelves.capacity() - shelves.len();
        make_room(&mut self.slab, &mut self.aside, room);
        self.aside = Aside::of(join(shelves, &mut self.aside.shelves));
        self.out = [0; 40];
    }
}

/// Shelves that were laid aside, and where the walks over them go on.
#[derive(Drop)]
struct Aside {
    /// The shelves. The last one is collected first.
    shelves: Vec<Shelf>,
    /// Where the walk over the last one goes on.
    at: usize,
    /// For each class, class 1 first, where the search for its chunks goes on.
    ///
    /// None of them is before it, except those of a stray that took the place of another.
    sought: [AsidePlace; 40],
}

impl Aside {
    /// Returns shelves over which all walks begin.
    fn of(shelves: Vec<Shelf>) -> Aside
        ensures { result.shelves.items ≡ shelves.items }
    {
        Aside {
            shelves,
            at: 0,
            sought: [AsidePlace::START; 40],
        }
    }
}

/// Returns the index of a class, from 0 to 39.
fn place_of(class: Class) -> usize
    ensures value { result ≡ class - 1 }
    ensures is_class { IsClass class }
{
    usize::from(class.number()) - 1
}

/// Collects one item of the shelves aside, and returns whether there was one.
///
/// If there was none, no shelf is left.
fn collect_one(slab: &mut Slab, aside: &mut Aside) -> bool
    requires { (out : List ℕ) × LieAside slab.old out aside.old.shelves.items }
    ensures collected { AreCollected slab.old slab.new
        aside.old.shelves.items aside.new.shelves.items }
    ensures fewer { result ≡ true → all_out slab.new < all_out slab.old }
    ensures none { result ≡ false → aside.new.shelves.items ≡ [] }
{
    match next_chunks(&mut aside.shelves, &mut aside.at) {
        Some(chunks) => {
            slab.give_all(chunks);
            true
        }
        None => false,
    }
}

/// Collects items until at most `room` shelves are aside.
fn make_room(slab: &mut Slab, aside: &mut Aside, room: usize)
    requires { (out : List ℕ) × LieAside slab.old out aside.old.shelves.items }
    ensures collected { AreCollected slab.old slab.new
        aside.old.shelves.items aside.new.shelves.items }
    ensures room { vec_len aside.new.shelves ≤ room }
{
    while aside.shelves.len() > room {
        if !collect_one(slab, aside) {
            return;
        }
    }
}

/// Returns whether a need's class has too few unused chunks and some of its chunks are aside.
///
/// `back` chunks count as given back. `out` is the number of chunks that are out and not aside.
fn lacks(slab: &Slab, need: Need, back: u64, out: u32) -> bool
    requires { back ≤ out_of slab.now need.class }
    ensures { result ≡ false → Suffices slab.now need back out }
{
    let class = need.class();
    let account = slab.account(class);
    if account.out == out {
        return false;
    }
    let chunks = u64::from(account.pages) * u64::from(class.chunks_a_page());
    chunks - u64::from(account.out) + back < u64::from(need.count())
}

/// Collects the first item with chunks of a class that a search finds. Returns whether it found
/// one.
///
/// Chunks of other classes stay aside.
fn collect_of(slab: &mut Slab, aside: &mut Aside, class: Class) -> bool
    requires { (out : List ℕ) × LieAside slab.old out aside.old.shelves.items }
    ensures collected { AreCollected slab.old slab.new
        aside.old.shelves.items aside.new.shelves.items }
    ensures own { result ≡ true → GivesOwn class slab.old slab.new }
    ensures none { result ≡ false → slab.new ≡ slab.old }
{
    let place = place_of(class);
    let mut from = aside.sought[place];
    let found = chunks_of(&mut aside.shelves, class, &mut from);
    aside.sought[place] = from;
    match found {
        Some(chunks) => {
            slab.give_all(chunks);
            true
        }
        None => false,
    }
}

/// Collects an item with chunks of a class, or else the first item of all. Returns whether there
/// was one.
///
/// After the second the search begins anew, so it finds an entry that a removed stray moved behind
/// it.
fn collect_next(slab: &mut Slab, aside: &mut Aside, class: Class) -> bool
    requires { (out : List ℕ) × LieAside slab.old out aside.old.shelves.items }
    ensures collected { AreCollected slab.old slab.new
        aside.old.shelves.items aside.new.shelves.items }
    ensures fewer { result ≡ true → all_out slab.new < all_out slab.old }
    ensures none { result ≡ false → aside.new.shelves.items ≡ [] }
{
    if collect_of(slab, aside, class) {
        return true;
    }
    collect_one(slab, aside)
}

/// Collects items until a need's class has enough unused chunks, or none of the class is aside.
///
/// `back` chunks count as given back. `out` is the number of chunks that are out and not aside.
fn collect_for(slab: &mut Slab, aside: &mut Aside, need: Need, back: u64, out: u32)
    requires lie { (outs : List ℕ) × LieAside slab.old outs aside.old.shelves.items
        × (out ≡ slice_index outs (need.class - 1)) }
    requires back { back ≤ out }
    ensures collected { AreCollected slab.old slab.new
        aside.old.shelves.items aside.new.shelves.items }
    ensures enough { Suffices slab.new need back out }
{
    while lacks(slab, need, back, out) {
        if !collect_next(slab, aside, need.class()) {
            return;
        }
    }
}
