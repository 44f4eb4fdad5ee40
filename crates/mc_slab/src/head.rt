//! The head of a chunk that can be lent: memory of its own for an item's header and key.
//!
//! Were they in the chunk's own memory, a write of a header would be a write beside bytes that
//! readers have, and so a copy of the chunk.

ghost use Rattle.std.specs.Prelude.{◌≡◌, ◌+◌, ◌≤◌, length};
ghost use Rattle.mc_slab.specs.Chunks.{with_part};

use crate::held::write_part;
use std::marker::Model;

/// Bytes of a head. The longest header and key have 298.
const HEAD: usize = 304;

/// The bytes of a head.
#[derive(Drop)]
pub(crate) struct HeadBytes {
    bytes: [u8; HEAD],
}

impl Model for HeadBytes {
    ghost use Rattle.std.specs.Prelude.{◌≡◌, List, ℕ, length};

    ghost Value = { List ℕ };

    ghost view = { λ h. h.bytes };

    ghost invariant = { λ h. length h.bytes ≡ 304 };
}

impl HeadBytes {
    /// Returns a head of zeros.
    pub(crate) fn new() -> HeadBytes
        ensures { length result ≡ 304 }
    {
        HeadBytes { bytes: [0; HEAD] }
    }

    /// States that it has 304 bytes. It does nothing.
    pub(crate) fn is_head(&self)
        ensures { length self.now ≡ 304 }
    {
        let _ = &self.bytes;
    }

    /// Lends the bytes.
    pub(crate) fn bytes(&self) -> &[u8]
        ensures value { result.now ≡ self.now }
        ensures head { length self.now ≡ 304 }
    {
        &self.bytes[..]
    }

    /// Copies `part` to the place `at`. The other bytes are unchanged.
    pub(crate) fn write_at(&mut self, at: usize, part: &[u8])
        requires { at + length part.now ≤ length self.old }
        ensures value { self.new ≡ with_part self.old at part.now }
        ensures head { length self.new ≡ 304 }
    {
        write_part(&mut self.bytes[..], at, part);
    }
}
