//! The output of a session.

use crate::copying::append_copy;
use mc_bytes::{Append, Lents, Queue, Spares};
use std::alloc::{AllocError, Global};
use std::marker::Model;

/// The most bytes of memory that an empty output keeps.
///
/// An output that is written once it has 65536 bytes seldom takes more, so its memory is seldom
/// reserved again.
pub const KEPT_OUTPUT: usize = 131072;

/// Texts that aren't written yet.
pub type Texts = Queue<KEPT_OUTPUT>;

/// The output of a session: texts are appended at its end, and what is written is dropped at its
/// front.
///
/// Its bytes may lie in several parts of memory. It lends the first part.
pub trait Outgoing {
    ghost use Rattle.std.specs.Prelude.{◌≡◌, ◌+◌, ◌≤◌, ◌++◌, ◌↔◌, ℕ, List, [], drop, length, IsTrue, OnOk, OnErr};
    ghost use Rattle.mc_bytes.specs.Queues.{first_piece};
    ghost use Rattle.mc_bytes.specs.Parts.{IsFront};
    ghost use Rattle.mc_session.specs.Outputs.{kept_output};

    /// The bytes that aren't written yet.
    ghost bytes: { Self → List ℕ };

    /// How many of them are lent. The others lie in the output's own memory.
    ghost lent: { Self → ℕ };

    /// Makes an empty output, which takes the memory of large texts from these spares. It takes no
    /// memory.
    fn new(alloc: Global, spares: Option<Spares>) -> Self
        ensures empty { bytes result ≡ [] }
        ensures own { lent result ≡ 0 };

    /// Lends the first bytes that aren't written: none only if all are.
    fn front(&self) -> &[u8]
        ensures { IsFront (bytes self.now) result.now };

    /// Lends the first bytes that aren't written, and those right behind them that may go with them.
    fn fronts(&self) -> (&[u8], &[u8])
        ensures front { IsFront (bytes self.now) result.0.now }
        ensures both { IsFront (bytes self.now) (result.0.now ++ result.1.now) }
        ensures alone { lent self.now ≡ 0 → result.0.now ≡ bytes self.now };

    /// Returns the number of bytes that aren't written.
    fn len(&self) -> usize
        ensures { result ≡ length (bytes self.now) };

    /// Returns whether the bytes that aren't written are these.
    fn is(&self, text: &[u8]) -> bool
        ensures { IsTrue result ↔ (bytes self.now ≡ text.now) };

    /// Appends a text. An error leaves the output unchanged.
    fn append<T: Append>(&mut self, text: &T) -> Result<(), AllocError>
        requires { T.can_append text.now }
        ensures ok { OnOk result (bytes self.new ≡ bytes self.old ++ T.bytes text.now) }
        ensures own { OnOk result (lent self.new ≡ lent self.old) }
        ensures err { OnErr result (self.new ≡ self.old) };

    /// Appends a text as `append` does, into a spare if it is large and there is one of its size.
    ///
    /// `largest` is the size of the text's largest part.
    fn append_sized<T: Append>(&mut self, text: &T, largest: usize) -> Result<(), AllocError>
        requires { T.can_append text.now }
        ensures ok { OnOk result (bytes self.new ≡ bytes self.old ++ T.bytes text.now) }
        ensures own { OnOk result (lent self.new ≡ lent self.old) }
        ensures err { OnErr result (self.new ≡ self.old) };

    /// Appends a text, parts that are lent, and a text behind them. An error leaves the output
    /// unchanged.
    ///
    /// An output may append a copy of the parts.
    fn append_lent<T: Append, U: Append>(
        &mut self,
        front: &T,
        parts: Lents,
        back: &U,
    ) -> Result<(), AllocError>
        requires front { T.can_append front.now }
        requires back { U.can_append back.now }
        ensures ok { OnOk result
            (bytes self.new ≡ bytes self.old ++ T.bytes front.now ++ parts ++ U.bytes back.now) }
        ensures lends { OnOk result (lent self.new ≤ lent self.old + length parts) }
        ensures err { OnErr result (self.new ≡ self.old) };

    /// Drops the first `n` bytes, which were written.
    fn consume(&mut self, n: usize)
        requires { n ≤ length (bytes self.old) }
        ensures bytes { bytes self.new ≡ drop n (bytes self.old) }
        ensures fewer { lent self.new ≤ lent self.old };

    /// Returns the number of bytes that aren't written and are lent.
    fn lent_len(&self) -> usize
        ensures all { result ≡ lent self.now }
        ensures within { result ≤ length (bytes self.now) };

    /// Returns the bytes of memory that has left the store and that lent parts keep, each memory
    /// divided by the number of its owners.
    fn left_bytes(&self) -> usize
        ensures { lent self.now ≡ 0 → result ≡ 0 };

    /// Returns how many bytes are in memory: those not written, and written ones before them.
    fn filled_bytes(&self) -> usize
        ensures least { length (bytes self.now) ≤ result }
        ensures empty { bytes self.now ≡ [] → result ≡ 0 };

    /// Returns the number of bytes reserved for what isn't lent.
    fn capacity(&self) -> usize
        ensures filled { length (bytes self.now) ≤ result + lent self.now }
        ensures empty { bytes self.now ≡ [] → result ≤ kept_output };

    /// Frees memory beyond that of a first piece, if there are no bytes.
    ///
    /// Returns the number of bytes reserved for what isn't lent afterwards.
    fn rest(&mut self) -> usize
        ensures same { bytes self.new ≡ bytes self.old }
        ensures lends { lent self.new ≡ lent self.old }
        ensures filled { length (bytes self.new) ≤ result + lent self.new }
        ensures empty { bytes self.new ≡ [] → result ≤ first_piece };
}

/// The texts that aren't written yet. An empty output keeps at most `KEPT_OUTPUT` bytes of memory.
///
/// Contracts see the bytes.
#[derive(Drop)]
pub struct Output {
    texts: Texts,
}

impl Model for Output {
    ghost use Rattle.std.specs.Prelude.{ℕ, List};

    ghost Value = { List ℕ };

    ghost view = { λ o. o.texts.bytes };
}

impl Output {
    ghost use Rattle.std.specs.Prelude.{◌≡◌};

    /// Lends the bytes that aren't written.
    #[inline]
    pub fn as_slice(&self) -> &[u8]
        ensures { result.now ≡ self.now }
    {
        self.texts.as_slice()
    }
}

impl Outgoing for Output {
    ghost bytes = { λ o. o };

    ghost lent = { λ _. 0 };

    fn new(alloc: Global, spares: Option<Spares>) -> Output {
        Output {
            texts: Queue::with_spares(alloc, spares),
        }
    }

    #[inline]
    fn front(&self) -> &[u8] {
        self.texts.as_slice()
    }

    #[inline]
    fn fronts(&self) -> (&[u8], &[u8]) {
        (self.texts.as_slice(), &[])
    }

    #[inline]
    fn len(&self) -> usize {
        self.texts.len()
    }

    fn is(&self, text: &[u8]) -> bool {
        self.texts.as_slice() == text
    }

    #[inline]
    fn append<T: Append>(&mut self, text: &T) -> Result<(), AllocError> {
        self.texts.append(text)
    }

    #[inline]
    fn append_sized<T: Append>(&mut self, text: &T, largest: usize) -> Result<(), AllocError> {
        self.texts.append_sized(text, largest)
    }

    /// Appends a text, a copy of parts that are lent, and a text behind them.
    fn append_lent<T: Append, U: Append>(
        &mut self,
        front: &T,
        parts: Lents,
        back: &U,
    ) -> Result<(), AllocError> {
        append_copy(&mut self.texts, front, parts, back)
    }

    /// Drops the first `n` bytes, which were written. It moves nothing.
    #[inline]
    fn consume(&mut self, n: usize) {
        self.texts.consume(n);
    }

    fn lent_len(&self) -> usize {
        0
    }

    fn left_bytes(&self) -> usize {
        0
    }

    fn filled_bytes(&self) -> usize {
        self.texts.filled_bytes()
    }

    fn capacity(&self) -> usize {
        self.texts.capacity()
    }

    fn rest(&mut self) -> usize {
        self.texts.rest()
    }
}
