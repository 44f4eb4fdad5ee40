//! A chunk of a class from 27 to 39: a block, and a head beside it.

ghost use Rattle.std.specs.Prelude.{◌≡◌, ◌+◌, ◌-◌, ◌≤◌, length, take, drop, IfOk, IfSome, IsTrue, IsFalse};
ghost use Rattle.mc_slab.specs.Chunks.{with_part};

use crate::block::Lendable;
use crate::head::HeadBytes;
use mc_bytes::Lent;
use std::alloc::{AllocError, Global};
use std::marker::Model;

/// A block with its head. Contracts see the bytes of both.
#[derive(Drop)]
pub(crate) struct LoneChunk {
    head: HeadBytes,
    block: Lendable,
}

impl Model for LoneChunk {
    ghost use Rattle.std.specs.Prelude.{◌≡◌, length};
    ghost use Rattle.mc_slab.specs.Blocks.{LoneState, coded_lone};

    ghost Value = { LoneState };

    ghost coded = { coded_lone };

    ghost view = { λ l. record { bytes = l.block; head = l.head } };

    ghost invariant = { λ l. length l.head ≡ 304 };
}

impl LoneChunk {
    /// Allocates the memory of `size` zeros, with a head of zeros.
    ///
    /// The only error is a refused allocation.
    pub(crate) fn new(alloc: Global, size: usize) -> Result<LoneChunk, AllocError>
        ensures { IfOk result (λ lone.
            (length lone.bytes ≡ size) × (length lone.head ≡ 304)) }
    {
        Ok(LoneChunk {
            head: HeadBytes::new(),
            block: Lendable::new(alloc, size)?,
        })
    }

    /// Lends the bytes.
    pub(crate) fn bytes(&self) -> &[u8]
        ensures { result.now ≡ self.now.bytes }
    {
        self.block.bytes()
    }

    /// Lends the bytes of the head.
    pub(crate) fn head(&self) -> &[u8]
        ensures { result.now ≡ self.now.head }
    {
        self.head.bytes()
    }

    /// Lends the bytes from one place up to another for as long as the result is there.
    ///
    /// It takes no memory. `None` if the bytes lie in memory that can't be lent.
    pub(crate) fn lend(&self, from: usize, to: usize) -> Option<Lent>
        requires order { from ≤ to }
        requires within { to ≤ length self.now.bytes }
        ensures { IfSome result (λ lent. lent ≡ take (to - from) (drop from self.now.bytes)) }
    {
        self.block.lend(from, to)
    }

    /// Copies `part` to the place `at` of the bytes. Everything else is unchanged.
    pub(crate) fn write_at(&mut self, at: usize, part: &[u8])
        requires { at + length part.now ≤ length self.old.bytes }
        ensures { self.new
            ≡ record self.old { bytes = with_part self.old.bytes at part.now } }
    {
        self.block.write_at(at, part);
    }

    /// Takes the memory of a part over as that of its bytes: they begin with the part's. Their
    /// former memory is left with the part.
    ///
    /// `false` if it doesn't, as for memory of more than `most` bytes, and nothing changed.
    pub(crate) fn take_over(&mut self, part: &Lent, most: usize) -> bool
        requires { length part.now ≤ length self.old.bytes }
        ensures taken { IsTrue result → take (length part.now) self.new.bytes ≡ part.now }
        ensures size { length self.new.bytes ≡ length self.old.bytes }
        ensures head { self.new.head ≡ self.old.head }
        ensures kept { IsFalse result → self.new ≡ self.old }
    {
        self.block.take_over(part, most)
    }

    /// Copies `part` to the place `at` of the head. Everything else is unchanged.
    pub(crate) fn write_head(&mut self, at: usize, part: &[u8])
        requires { at + length part.now ≤ length self.old.head }
        ensures { self.new ≡ record self.old { head = with_part self.old.head at part.now } }
    {
        self.head.write_at(at, part);
    }
}
