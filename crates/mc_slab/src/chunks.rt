//! Chunks that are taken and given back together.
//!
//! `Chunks` may be dropped. Dropped chunks stay counted as in use. A linear type would need a
//! destructor by hand in each type that holds chunks.

ghost use Rattle.std.specs.Prelude.{◌≡◌, ◌+◌, ◌-◌, ◌*◌, ◌<◌, ◌≤◌, length, take, drop, IfOk, IfSome, IsTrue, IsFalse};
ghost use Rattle.mc_slab.specs.Chunks.{ChunksState, AreChunks, AreChunksOf, TakesOver, chunk_at};
ghost use Rattle.mc_slab.specs.Chunks.{need_in, with_part, written_cut};
ghost use Rattle.mc_slab.specs.Classes.{size_of};
ghost use Rattle.mc_slab.specs.Helds.{chunks_in};
ghost use Rattle.mc_slab.specs.declared.held.Held.TheVariants.{Sheets};

use crate::held::{self, Held};
use crate::lone::LoneChunk;
use crate::page_chain::PageChain;
use mc_bytes::{Large, Lent};
use mc_sizes::{BESIDE, Class, Need};
use std::alloc::{AllocError, Global};
use std::marker::Model;
use std::sync::Arc;

/// One chunk of a class, or two to eight chunks of a page each.
///
/// Contracts see the class, the count, the bytes of the chunks one after another, and their head,
/// which holds an item's header and key. Below class 27 the head is the bytes of the chunk; from
/// class 27 on it is 304 bytes beside them, which aren't lent. Chunks are moved and never copied.
/// Chunks that are dropped without being given back to their slab stay out in the slab's account
/// for ever. Memory of a class below 27 stays with the process until it ends, even if the chunk or
/// its slab is dropped. From class 27 on each chunk is memory of its own, which is freed once the
/// chunk is dropped and no part of it is lent.
#[derive(Drop)]
pub struct Chunks {
    held: Held,
}

impl Model for Chunks {
    ghost use Rattle.mc_slab.specs.Chunks.{ChunksState, coded_chunks, AreChunks};
    ghost use Rattle.mc_slab.specs.Helds.{chunks_in};

    ghost Value = { ChunksState };

    ghost coded = { coded_chunks };

    ghost view = { λ c. chunks_in c.held };

    ghost invariant = { λ c. AreChunks (chunks_in c.held) };
}

impl Chunks {
    /// Returns the need that they serve: their class and their count.
    pub fn need(&self) -> Need
        ensures value { result ≡ need_in self.now }
        ensures are { AreChunks self.now }
    {
        held::need(&self.held)
    }

    /// Lends the bytes of the head: those of the chunk below class 27, else 304 bytes beside them.
    pub fn head(&self) -> &[u8]
        ensures value { result.now ≡ self.now.head }
        ensures are { AreChunks self.now }
    {
        held::head(&self.held)
    }

    /// Lends the bytes of the first chunk, as many as the class's size.
    pub fn first(&self) -> &[u8]
        ensures value { result.now ≡ take (size_of self.now.class) self.now.bytes }
        ensures lone { self.now.count ≡ 1 → result.now ≡ self.now.bytes }
        ensures are { AreChunks self.now }
    {
        held::first(&self.held)
    }

    /// Lends the bytes of the chunk at a place, the first at 0, as many as the class's size.
    ///
    /// It walks from chunk to chunk.
    pub fn part(&self, at: usize) -> &[u8]
        requires { at < self.now.count }
        ensures value { result.now ≡ chunk_at self.now at }
        ensures are { AreChunks self.now }
    {
        if at == 0 {
            return held::first(&self.held);
        }
        held::sheet(&self.held).part(at)
    }

    /// Lends bytes of the chunk at a place, the first at 0, for as long as the result is there.
    ///
    /// `from` and `to` are places within that chunk. The bytes that are lent stay as they are, even
    /// if the chunk is written again or dropped. It walks from chunk to chunk, and takes no memory.
    /// `None` for a class below 27, and for chunks whose memory can't be lent.
    pub fn lend(&self, at: usize, from: usize, to: usize) -> Option<Lent>
        requires place { at < self.now.count }
        requires order { from ≤ to }
        requires within { to ≤ size_of self.now.class }
        ensures value { IfSome result (λ lent. lent
            ≡ take (to - from) (drop from (chunk_at self.now at))) }
        ensures are { AreChunks self.now }
    {
        held::lend(&self.held, at, from, to)
    }

    /// Copies `part` to the place `at` of the bytes, counted from 0 over all chunks.
    ///
    /// The other bytes are unchanged, and so is the head from class 27 on.
    pub fn write_at(&mut self, at: usize, part: &[u8])
        requires { at + length part.now ≤ length self.old.bytes }
        ensures cut { self.old.class < 27 → self.new ≡ written_cut self.old at part.now }
        ensures lent { 27 ≤ self.old.class
            → self.new ≡ record self.old { bytes = with_part self.old.bytes at part.now } }
        ensures are { AreChunks self.new }
    {
        held::write_at(&mut self.held, at, part);
    }

    /// Copies `part` to the place `at` of the head.
    ///
    /// The head's other bytes are unchanged, and so are the chunks' bytes from class 27 on.
    pub fn write_head(&mut self, at: usize, part: &[u8])
        requires { at + length part.now ≤ length self.old.head }
        ensures cut { self.old.class < 27 → self.new ≡ written_cut self.old at part.now }
        ensures lent { 27 ≤ self.old.class
            → self.new ≡ record self.old { head = with_part self.old.head at part.now } }
        ensures are { AreChunks self.new }
    {
        held::write_head(&mut self.held, at, part);
    }

    /// Takes the memory of a part over as its own: the chunks begin with the part's bytes, and
    /// those behind them are unspecified. Their former memory is left with the part.
    ///
    /// It copies nothing, and takes no memory. `false` if it doesn't: below class 27, if the chunk
    /// can't be lent, and if the part's memory is smaller than the chunk from the part's begin on,
    /// or more than 512 bytes larger than all chunks. Then nothing changed. Several chunks take
    /// over a piece each, and one behind the first that can't copies it.
    pub fn take_over(&mut self, part: &Lent) -> bool
        requires { length part.now ≤ length self.old.bytes }
        ensures taken { IsTrue result → TakesOver self.old part.now self.new }
        ensures kept { IsFalse result → self.new ≡ self.old }
        ensures are { AreChunks self.new }
    {
        let need = held::need(&self.held);
        held::take_over(&mut self.held, part, memory_of(need))
    }

    /// Has chunks of the last class whose bytes are pieces of one memory lie in blank memory.
    ///
    /// Their bytes are unspecified then. It takes no memory.
    pub(crate) fn give_up(&mut self, blank: &Arc<Large>)
        ensures same { self.new ≡ record self.old { bytes = self.new.bytes } }
        ensures are { AreChunks self.new }
    {
        held::give_up(&mut self.held, blank);
    }

    /// Cuts one chunk of a class below 27 off the front of memory.
    ///
    /// Returns the chunk and the rest of the memory.
    pub(crate) fn cut(class: Class, memory: &'static mut [u8]) -> (Chunks, &'static mut [u8])
        requires class { class < 27 }
        requires room { size_of class ≤ length memory.old }
        ensures chunk { AreChunksOf (record { class = class; count = 1 }) result.0 }
        ensures rest { length result.1.now + size_of class ≡ length memory.entry.now }
    {
        let (bytes, rest) = memory.split_at_mut(class.size() as usize);
        let held = held::of_bytes(class, bytes);
        (Chunks { held }, rest)
    }

    /// Allocates one chunk of a class from 27 to 39, of zeros, in memory of its own.
    ///
    /// The only error is a refused allocation.
    pub(crate) fn lone(alloc: Global, class: Class) -> Result<Chunks, AllocError>
        requires { (27 ≤ class) × (class < 40) }
        ensures { IfOk result (AreChunksOf (record { class = class; count = 1 })) }
    {
        let lone = LoneChunk::new(alloc, class.size() as usize)?;
        Ok(of_lone(class, Box::new(alloc, lone)?))
    }

    /// Allocates one chunk of the last class, of zeros. The only error is a refused allocation.
    pub(crate) fn page(alloc: Global) -> Result<Chunks, AllocError>
        ensures { IfOk result (AreChunksOf (record { class = 40; count = 1 })) }
    {
        Ok(of_sheets(PageChain::new(alloc)?))
    }

    /// Puts one chunk in front of fewer than eight others, all of the last class.
    ///
    /// It takes no memory.
    pub(crate) fn in_front(one: Chunks, behind: Chunks) -> Chunks
        requires one { AreChunksOf (record { class = 40; count = 1 }) one }
        requires behind { (behind.class ≡ 40) × (behind.count < 8) }
        ensures { AreChunksOf (record { class = 40; count = 1 + behind.entry.count }) result }
    {
        let (one, behind) = (held::into_sheet(one.held), held::into_sheet(behind.held));
        of_sheets(PageChain::in_front(one, behind))
    }

    /// Splits the first chunk from the others. It takes no memory.
    #[inline(never)]
    pub(crate) fn taken_off(self) -> (Chunks, Chunks)
        requires { 2 ≤ self.count }
        ensures one { AreChunksOf (record { class = self.entry.class; count = 1 }) result.0 }
        ensures behind { (result.1.class ≡ self.entry.class)
            × (1 + result.1.count ≡ self.entry.count) × AreChunks result.1 }
    {
        let (one, behind) = PageChain::taken_off(held::into_sheet(self.held));
        (of_sheets(one), of_sheets(behind))
    }
}

/// Returns how many bytes memory may have that chunks of a need take over.
///
/// They are those of the chunks, and at most 512 beside them.
fn memory_of(need: Need) -> usize
    ensures { result ≤ size_of need.class * need.count + 512 }
{
    let size = need.class().size() as usize;
    size.saturating_mul(need.count() as usize)
        .saturating_add(BESIDE)
}

/// Returns the chunk of a class from 27 to 39 whose memory is given.
fn of_lone(class: Class, lone: Box<LoneChunk>) -> Chunks
    requires class { (27 ≤ class) × (class < 40) }
    requires size { length lone.value.bytes ≡ size_of class }
    requires head { length lone.value.head ≡ 304 }
    ensures { AreChunksOf (record { class = class; count = 1 }) result }
{
    Chunks {
        held: held::of_lone(class, lone),
    }
}

/// Returns the chunks of the last class on a sheet.
fn of_sheets(sheet: Box<PageChain>) -> Chunks
    requires { AreChunks (chunks_in (Sheets sheet)) }
    ensures { result ≡ chunks_in (Sheets sheet) }
{
    Chunks {
        held: Held::Sheets(sheet),
    }
}
