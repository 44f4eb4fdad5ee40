//! A unit with a large block, in memory that the block's taker may keep.

ghost use Rattle.std.specs.Prelude.{◌≡◌, ◌+◌, ◌-◌, ◌≤◌, length, take, drop, IfSome};

use mc_bytes::{Large, Lent};
use std::marker::Model;
use std::sync::Arc;

/// A whole unit with its block, in memory that the block's taker may keep.
///
/// Contracts see the unit's bytes.
#[derive(Drop)]
pub struct Offer {
    unit: Lent,
    block: Option<Lent>,
    /// The place in the unit at which the block begins.
    from: usize,
}

impl Model for Offer {
    ghost use Rattle.std.specs.Prelude.{List, ℕ, IfSome};
    ghost use Rattle.mc_parse.specs.Feeds.{IsPartAt};

    ghost Value = { List ℕ };

    ghost view = { λ o. o.unit };

    ghost invariant = { λ o. IfSome o.block (λ block. IsPartAt o.unit o.from block) };
}

impl Offer {
    ghost use Rattle.mc_parse.specs.Feeds.{IsPartAt};

    /// Returns an offer of the unit's block of `len` bytes, which begins at `from`.
    pub fn of(unit: Lent, from: usize, len: usize) -> Offer
        ensures { result ≡ unit }
    {
        let there = from <= unit.len() && len <= unit.len() - from;
        let block = if there {
            unit.part(from, from + len)
        } else {
            None
        };
        Offer { unit, block, from }
    }

    /// Lends the unit's bytes.
    #[inline(never)]
    pub fn unit(&self) -> &[u8]
        ensures { result.now ≡ self.now }
    {
        self.unit.as_slice()
    }

    /// Returns the number of the unit's bytes.
    #[inline(never)]
    pub fn len(&self) -> usize
        ensures { result ≡ length self.now }
    {
        self.unit.len()
    }

    /// Returns the number of bytes of its memory, which it keeps whole.
    pub fn kept_bytes(&self) -> usize
        ensures { length self.now ≤ result }
    {
        self.unit.kept_bytes()
    }

    /// Returns the block if it begins at `from` and has `len` bytes, and `None` otherwise.
    pub fn block_at(&self, from: usize, len: usize) -> Option<&Lent>
        ensures { IfSome result (λ block. block.now ≡ take len (drop from self.now)) }
    {
        match &self.block {
            Some(block) if self.from == from && block.len() == len => Some(block),
            _ => None,
        }
    }

    /// Leaves the first `n` bytes out from now on, and offers no block any more.
    pub fn drop_front(&mut self, n: usize)
        requires { n ≤ length self.old }
        ensures { self.new ≡ drop n self.old }
    {
        self.block = None;
        self.unit.drop_front(n);
    }

    /// Returns the memory that the block's taker left in exchange, or else the offered memory.
    pub fn into_memory(self) -> Option<Arc<Large>> {
        let Offer { unit, block, .. } = self;
        let left = match block {
            Some(block) => block.take_left(),
            None => None,
        };
        match (left, unit.memory()) {
            (Some(left), _) => Some(left),
            (None, Some((memory, _))) => Some(memory),
            (None, None) => None,
        }
    }
}
