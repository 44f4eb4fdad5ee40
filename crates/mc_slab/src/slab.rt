//! The slab: pages that go to classes, and the chunks that are taken from them.

ghost use Rattle.std.specs.Prelude.{◌≡◌, ◌+◌, ◌≤◌, map, IfOk};
ghost use Rattle.std.specs.List.{range_with_len};
ghost use Rattle.mc_slab.specs.Slabs.{IsSlab, Takes, Readies, untouched, empty_stock, chunks_of};
ghost use Rattle.mc_slab.specs.Slabs.{pages_of, out_of, pages_left, given, unused};
ghost use Rattle.mc_slab.specs.declared.slab.TakeFault.TheVariants.{NoMemory};

use crate::chunks::Chunks;
use crate::class_pages::ClassPages;
use crate::run::Pages;
use mc_sizes::{Account, CLASSES, Class, Need};
use std::alloc::{AllocError, Global};
use std::marker::Model;
use thiserror::Error;

/// Why chunks couldn't be taken. The slab is unchanged.
#[derive(Debug, Drop, Error)]
pub enum TakeFault {
    /// Too few chunks of the class's pages are free, and too few pages are left.
    #[error("{out} chunks of the class's {pages} pages are out, and too few pages are left")]
    Full {
        /// The class of the need.
        class: Class,
        /// The number of its pages.
        pages: u32,
        /// How many of their chunks are out: all, if one was wanted.
        out: u32,
    },
    /// The class needs pages, and an allocation was refused.
    #[error("out of memory")]
    NoMemory,
}

impl From<AllocError> for TakeFault {
    ghost from_gives = { λ _ e. e ≡ NoMemory };

    fn from(_e: AllocError) -> TakeFault {
        TakeFault::NoMemory
    }
}

/// The memory of a store: pages, each of which goes to one class and stays with it.
///
/// A page of a class below 27 is allocated at once, in runs of at most 32768 bytes. A run is
/// written, and cut into chunks, when its first chunk is taken. Runs that were cut are never freed:
/// they stay with the process until it ends, even if the slab is dropped or all chunks were given
/// back. From class 27 on all chunks of a page are made when the class gets it: each is memory of
/// its own, filled with zeros, beside which as much is reserved for a copy, untouched. It is freed
/// when the chunk is dropped. Contracts see the limit of pages and, for each class, its pages and
/// the chunks that are out.
#[derive(Drop)]
pub struct Slab {
    pages_left: u32,
    stocks: Vec<ClassPages>,
}

impl Model for Slab {
    ghost use Rattle.mc_slab.specs.Slabs.{SlabState, coded_slab, state_of, AreStocks};

    ghost Value = { SlabState };

    ghost coded = { coded_slab };

    ghost view = { λ s. state_of s.pages_left s.stocks.items };

    ghost invariant = { λ s. AreStocks s.pages_left s.stocks.items };
}

impl Slab {
    /// Makes a slab with a limit of 1 to 65536 pages; no class has one yet.
    ///
    /// The only error is a refused allocation.
    pub fn new(alloc: Global, pages: u32) -> Result<Slab, AllocError>
        requires { (1 ≤ pages) × (pages ≤ 65536) }
        ensures value { IfOk result (λ slab. slab ≡ untouched pages) }
        ensures is_slab { IfOk result IsSlab }
    {
        Ok(Slab {
            pages_left: pages,
            stocks: empty_stocks(alloc)?,
        })
    }

    /// Takes all chunks of a need or none. Their content is unspecified.
    ///
    /// Chunks that were given back are taken first, then uncut ones of the class's pages. If these
    /// are too few, the class is first given the pages that are missing; nothing else takes memory.
    /// If too few pages are left, or an allocation is refused, the slab is unchanged, and what was
    /// allocated is freed.
    pub fn take_all(&mut self, alloc: Global, need: Need) -> Result<Chunks, TakeFault>
        ensures { Takes need self.old result self.new }
    {
        self.take_all_with(alloc, need, None)
    }

    /// Takes the chunks of a need as `take_all` does, and uses `pages` before it allocates.
    ///
    /// Memory of `pages` that is of another class, or that isn't wanted, is freed.
    pub fn take_all_with(
        &mut self,
        alloc: Global,
        need: Need,
        pages: Option<Pages>,
    ) -> Result<Chunks, TakeFault>
        ensures { Takes need self.old result self.new }
    {
        self.is_slab();
        self.ready_with(alloc, need, 0, pages)?;
        let stock = &mut self.stocks[need.class().index()];
        Ok(stock.take(need.count()))
    }

    /// Gives the class of a need the pages that it wants once `back` chunks were given back.
    ///
    /// The chunks are of the same class. It gives all pages or none, so that the need can then be
    /// taken without a page. If too few pages are left, or an allocation is refused, the slab is
    /// unchanged.
    pub fn ready(&mut self, alloc: Global, need: Need, back: u64) -> Result<(), TakeFault>
        requires { back ≤ out_of self.old need.class }
        ensures { Readies need back self.old result self.new }
    {
        self.ready_with(alloc, need, back, None)
    }

    /// Gives the class of a need pages as `ready` does, and uses `pages` before it allocates.
    ///
    /// Memory of `pages` that is of another class, or that isn't wanted, is freed.
    pub fn ready_with(
        &mut self,
        alloc: Global,
        need: Need,
        back: u64,
        pages: Option<Pages>,
    ) -> Result<(), TakeFault>
        requires { back ≤ out_of self.old need.class }
        ensures { Readies need back self.old result self.new }
    {
        let class = need.class();
        let stock = &mut self.stocks[class.index()];
        let wanted = stock.pages_wanted(need.count(), back);
        if wanted == 0 {
            return Ok(());
        }
        if wanted > self.pages_left {
            let Account { pages, out } = stock.account();
            return Err(TakeFault::Full { class, pages, out });
        }
        stock.add_pages(alloc, wanted, pages)?;
        self.pages_left -= wanted;
        Ok(())
    }

    /// Gives chunks back, if at least as many of their class are out. It takes no memory.
    pub fn give_all(&mut self, chunks: Chunks)
        requires { chunks.count ≤ out_of self.old chunks.class }
        ensures given { self.new ≡ given self.old chunks.entry.class chunks.entry.count }
        ensures is_slab { IsSlab self.new }
    {
        let need = chunks.need();
        let stock = &mut self.stocks[need.class().index()];
        stock.give(chunks, need.count());
    }

    /// States the slab's invariant. It does nothing.
    fn is_slab(&self)
        ensures { IsSlab self.now }
    {
        let _ = &self.stocks;
    }

    /// Returns the class's pages, and the number of its chunks that are out.
    pub fn account(&self, class: Class) -> Account
        ensures value { result
            ≡ record { pages = pages_of self.now class; out = out_of self.now class } }
        ensures is_slab { IsSlab self.now }
    {
        let stock = &self.stocks[class.index()];
        stock.account()
    }

    /// Returns the number of the class's chunks that aren't out.
    ///
    /// These are the free chunks and those that aren't cut yet. With the chunks that are out they
    /// are all chunks of its pages.
    pub fn unused_chunks(&self, class: Class) -> u32
        ensures value { result ≡ unused self.now class }
        ensures account { out_of self.now class + result ≡ chunks_of self.now class }
        ensures is_slab { IsSlab self.now }
    {
        self.stocks[class.index()].unused_chunks()
    }

    /// Returns the number of pages that no class has yet.
    pub fn pages_left(&self) -> u32
        ensures value { result ≡ pages_left self.now }
        ensures is_slab { IsSlab self.now }
    {
        self.pages_left
    }
}

/// Returns a stock without pages for each class, in order.
fn empty_stocks(alloc: Global) -> Result<Vec<ClassPages>, AllocError>
    ensures { IfOk result (λ stocks. stocks.items ≡ map empty_stock (range_with_len 1 40)) }
{
    let mut stocks = Vec::with_capacity(alloc, usize::from(CLASSES))?;
    for index in 0..CLASSES {
        stocks.push_reserved(ClassPages::new(alloc, Class::of(index + 1)));
    }
    Ok(stocks)
}
