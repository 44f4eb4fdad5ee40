//! A chunk of a page's size, whose bytes can be lent beyond a borrow.

ghost use Rattle.std.specs.Prelude.{◌≡◌, ◌+◌, ◌-◌, ◌≤◌, length, take, drop, IfOk, IfSome, IsTrue, IsFalse};
ghost use Rattle.mc_slab.specs.Chunks.{with_part};
ghost use Rattle.mc_slab.specs.Classes.{page_size};

use crate::block::Lendable;
use mc_bytes::{Large, Lent};
use mc_sizes::PAGE_SIZE;
use std::alloc::{AllocError, Global};
use std::marker::Model;
use std::sync::Arc;

/// Bytes of a sheet's chunk: a page.
pub(crate) const WHOLE: usize = PAGE_SIZE as usize;

/// A chunk of a page's bytes. Contracts see its bytes.
#[derive(Drop)]
pub(crate) struct Whole {
    block: Lendable,
}

impl Model for Whole {
    ghost use Rattle.std.specs.Prelude.{◌≡◌, List, ℕ, length};
    ghost use Rattle.mc_slab.specs.Classes.{page_size};

    ghost Value = { List ℕ };

    ghost view = { λ w. w.block };

    ghost invariant = { λ w. length w.block ≡ page_size };
}

impl Whole {
    /// Allocates one, of zeros. The only error is a refused allocation.
    pub(crate) fn new(alloc: Global) -> Result<Whole, AllocError>
        ensures { IfOk result (λ whole. length whole ≡ page_size) }
    {
        Ok(Whole {
            block: Lendable::new(alloc, WHOLE)?,
        })
    }

    /// States that it has a page's bytes. It does nothing.
    pub(crate) fn is_whole(&self)
        ensures { length self.now ≡ page_size }
    {
        let _ = &self.block;
    }

    /// Lends the bytes.
    pub(crate) fn bytes(&self) -> &[u8]
        ensures value { result.now ≡ self.now }
        ensures whole { length self.now ≡ page_size }
    {
        self.block.bytes()
    }

    /// Lends the bytes from one place up to another for as long as the result is there.
    ///
    /// It takes no memory. `None` if the bytes lie in memory that can't be lent.
    pub(crate) fn lend(&self, from: usize, to: usize) -> Option<Lent>
        requires order { from ≤ to }
        requires within { to ≤ page_size }
        ensures value { IfSome result (λ lent. lent ≡ take (to - from) (drop from self.now)) }
        ensures whole { length self.now ≡ page_size }
    {
        self.block.lend(from, to)
    }

    /// Takes the memory of a part over as its own: the bytes begin with the part's. Its former
    /// memory is left with the part.
    ///
    /// `false` if it doesn't, as for memory of more than `most` bytes, and nothing changed.
    pub(crate) fn take_over(&mut self, part: &Lent, most: usize) -> bool
        requires { length part.now ≤ page_size }
        ensures taken { IsTrue result → take (length part.now) self.new ≡ part.now }
        ensures whole { length self.new ≡ page_size }
        ensures kept { IsFalse result → self.new ≡ self.old }
    {
        self.block.take_over(part, most)
    }

    /// Copies the bytes to memory of their own if they are a piece of larger memory.
    pub(crate) fn settle(&mut self)
        ensures { self.new ≡ self.old }
    {
        self.block.settle();
    }

    /// Takes blank memory if the bytes are a piece of larger memory. They are unspecified then.
    pub(crate) fn give_up(&mut self, blank: &Arc<Large>)
        ensures { length self.new ≡ page_size }
    {
        self.block.give_up(blank);
    }

    /// Copies `part` to the place `at`. The other bytes are unchanged.
    pub(crate) fn write_at(&mut self, at: usize, part: &[u8])
        requires { at + length part.now ≤ page_size }
        ensures value { self.new ≡ with_part self.old at part.now }
        ensures whole { length self.new ≡ page_size }
    {
        self.block.write_at(at, part);
    }
}
