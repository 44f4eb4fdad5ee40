//! A stream's unread bytes.
//!
//! A retrieval of n keys takes n turns. `peek_after(taken)` returns the rest of the first unit
//! after `taken` turns, and `mark` notes where the next key begins, so the line is parsed once.
//! `peek` takes no allocator: a key or block that it lends isn't copied.

ghost use Rattle.mc_parse.specs.Aheads.{Knows};

use crate::ahead::Ahead;
use crate::arrived::Arrived;
use crate::cursor::{Cursor, cursor_after};
use crate::peek::Peek;
use mc_bytes::{Source, Spares};
use mc_protocol::LineFault;
use std::alloc::{AllocError, Global};
use std::marker::Model;

/// The part of a stream that has arrived and isn't read yet.
///
/// Contracts see the greatest charge, the number of bytes still to be skipped, and the unread
/// bytes.
#[derive(Drop)]
pub struct Feed {
    greatest: u64,
    /// The number of bytes still to be skipped.
    passed: u64,
    unread: Arrived,
    /// The position in the retrieval at the front, if turns of it were noted.
    cursor: Option<Cursor>,
    /// What is known of the front of the unread bytes.
    ahead: Ahead,
}

impl Model for Feed {
    ghost use Rattle.mc_parse.specs.Feeds.{Unread, IsKept};

    ghost Value = { Unread };

    ghost view = { λ f. record { greatest = f.greatest; passed = f.passed; bytes = f.unread } };

    ghost invariant = { λ f. IsKept f.greatest f.passed f.cursor f.ahead f.unread };
}

impl Feed {
    ghost use Rattle.std.specs.Prelude.{◌≡◌, ◌≤◌, ◌<◌, [], length, IfSome, OnOk, OnErr, IfOk};
    ghost use Rattle.mc_bytes.specs.Sources.{Brings};
    ghost use Rattle.mc_parse.specs.Peeks.{unit_of, FindsShortKeys, StaysWhole};
    ghost use Rattle.mc_parse.specs.Cursors.{IsCursor};
    ghost use Rattle.mc_parse.specs.Feeds.{pushed, read, TakesPiece, IsSettled, HasNoUnit, HasUnit, ReadsUnit};
    ghost use Rattle.mc_parse.specs.Feeds.{Finds, FindsAny, FindsLeft, FindsAnyLeft, kept_in_feed};
    ghost use Rattle.mc_parse.specs.Announcing.{Announces};
    ghost use Rattle.mc_bytes.specs.Queues.{first_piece};

    /// Makes an empty feed whose storage commands may charge at most `greatest` bytes.
    ///
    /// It takes no memory.
    pub fn new(alloc: Global, greatest: u64) -> Feed
        ensures { result ≡ record { greatest = greatest; passed = 0; bytes = [] } }
    {
        Feed::with_spares(alloc, greatest, None)
    }

    /// Makes an empty feed that takes the memory of large blocks from these spares, and gives it
    /// back to them.
    ///
    /// It takes no memory.
    pub fn with_spares(alloc: Global, greatest: u64, spares: Option<Spares>) -> Feed
        ensures { result ≡ record { greatest = greatest; passed = 0; bytes = [] } }
    {
        Feed {
            greatest,
            passed: 0,
            unread: Arrived::new(alloc, spares),
            cursor: None,
            ahead: Ahead::none(),
        }
    }

    /// Appends the next piece of the stream, without the bytes that are skipped.
    ///
    /// An error leaves the feed unchanged.
    pub fn push(&mut self, piece: &[u8]) -> Result<(), AllocError>
        ensures ok { OnOk result (self.new ≡ pushed self.old piece.now) }
        ensures err { OnErr result (self.new ≡ self.old) }
    {
        let skipped = (piece.len() as u64).min(self.passed);
        let (_, kept) = piece.split_at(skipped as usize);
        self.unread.push_part(kept, self.ahead.wanted_bytes())?;
        self.passed -= skipped;
        self.ahead = self.ahead.after(self.greatest, self.unread.as_slice());
        self.unread.offer(&self.ahead);
        Ok(())
    }

    /// Appends the next piece of the stream from a source, which writes it in place.
    ///
    /// The source gets room for at most `room` bytes, and none behind a large block. Bytes that are
    /// skipped aren't kept. After an error the source wasn't called, and the feed is unchanged.
    pub fn push_from<S: Source>(
        &mut self,
        source: &mut S,
        room: usize,
    ) -> Result<S::Answer, AllocError>
        ensures ok { IfOk result (λ answer.
            Brings S.gives source.old source.new answer (TakesPiece self.old self.new)) }
        ensures err { OnErr result (self.new ≡ self.old) }
        ensures asked { OnErr result (source.new ≡ source.old) }
    {
        let room = self.ahead.room_within(self.unread.len(), room);
        match self
            .unread
            .push_part_from(source, room, self.ahead.wanted_bytes())
        {
            Ok(answer) => {
                let dropped = self.passed.min(self.unread.len() as u64);
                self.unread.consume(dropped as usize);
                self.passed -= dropped;
                self.ahead = self.ahead.after(self.greatest, self.unread.as_slice());
                self.unread.offer(&self.ahead);
                Ok(answer)
            }
            Err(refused) => Err(refused),
        }
    }

    /// Returns what the unread bytes begin with.
    ///
    /// It takes no memory and reads no line: each line was read once, when it was complete. Until a
    /// block is complete it returns `More`.
    pub fn peek(&self) -> Peek<'_>
        // The unit is spelled by the front whose length is returned, and no byte is to be skipped.
        ensures found { Finds self.now (unit_of result) }
        // It finds nothing exactly if no front of the stream spells anything.
        ensures none { unit_of result ≡ None → HasNoUnit self.now }
        ensures more { HasNoUnit self.now → unit_of result ≡ None }
        // Any unit that a front spells is the one found.
        ensures only { FindsAny self.now (unit_of result) }
        // No key of a command is longer than 250 bytes.
        ensures keys { FindsShortKeys (unit_of result) }
    {
        self.first_unit()
    }

    /// Returns what is left of the first unit after `taken` of its turns.
    ///
    /// For a retrieval that is the retrieval of the remaining keys. After `mark(taken)` it reads no
    /// key, otherwise the keys of those turns.
    #[inline]
    pub fn peek_after(&self, taken: usize) -> Peek<'_>
        ensures found { FindsLeft self.now taken (unit_of result) }
        // It finds nothing exactly if no front of the stream spells anything.
        ensures none { unit_of result ≡ None → HasNoUnit self.now }
        ensures more { HasNoUnit self.now → unit_of result ≡ None }
        // For any unit that a front spells, what is left of it is what is found.
        ensures only { FindsAnyLeft self.now taken (unit_of result) }
        ensures keys { FindsShortKeys (unit_of result) }
    {
        self.unit_after(taken)
    }

    /// Notes that `taken` turns of the first unit were taken. `peek_after` then finds the next at
    /// once.
    pub fn mark(&mut self, taken: usize)
        ensures { self.new ≡ self.old }
    {
        self.cursor = self.cursor_at(taken);
    }

    /// Skips the first unit, for which `peek` returned the length `len`.
    ///
    /// Bytes that a fault skips are dropped as they arrive. It takes no memory.
    pub fn done(&mut self, len: usize)
        requires { HasUnit self.old len }
        ensures { ReadsUnit self.old len self.new }
    {
        let passed = match self.peek() {
            Peek::Bad(LineFault::TooLarge { passed }, _) => passed,
            _ => 0,
        };
        self.done_passing(len, passed);
    }

    /// Skips the first `len` unread bytes, and the next `passed` bytes as they arrive. It takes no
    /// memory.
    #[inline(always)]
    pub fn done_passing(&mut self, len: usize, passed: u64)
        requires inside { len ≤ length self.old.bytes }
        // The skipped unit was found, so no byte is to be skipped before it.
        requires none { self.old.passed ≡ 0 }
        ensures { self.new ≡ read self.old len passed }
    {
        let left = self.unread.len() - len;
        let dropped = passed.min(left as u64);
        self.passed = passed - dropped;
        self.unread.consume(len + dropped as usize);
        self.cursor = None;
        self.ahead = front_of(self.greatest, &self.unread);
    }

    /// Drops the unread bytes and forgets what is to be skipped. It takes no memory.
    pub fn clear(&mut self)
        ensures { self.new ≡ record { greatest = self.old.greatest; passed = 0; bytes = [] } }
    {
        self.unread.clear();
        self.passed = 0;
        self.cursor = None;
        self.ahead = Ahead::none();
    }

    /// Returns the number of unread bytes. Skipped bytes are never held.
    pub fn held(&self) -> usize
        ensures unread { result ≡ length self.now.bytes }
        ensures settled { IsSettled self.now }
        ensures passing { 0 < self.now.passed → result ≡ 0 }
    {
        self.unread.len()
    }

    /// Returns how many bytes of memory are filled: the unread bytes, and read ones before them.
    pub fn filled_bytes(&self) -> usize
        ensures least { length self.now.bytes ≤ result }
        ensures empty { self.now.bytes ≡ [] → result ≡ 0 }
        ensures passing { 0 < self.now.passed → result ≡ 0 }
    {
        self.unread.filled_bytes()
    }

    /// Returns the number of reserved bytes: at most 65536 if no byte is unread.
    pub fn capacity(&self) -> usize
        ensures filled { length self.now.bytes ≤ result }
        ensures empty { self.now.bytes ≡ [] → result ≤ kept_in_feed }
    {
        self.unread.capacity()
    }

    /// Frees the memory beyond that of a first piece if no byte is unread.
    ///
    /// Returns the number of reserved bytes afterwards.
    pub fn rest(&mut self) -> usize
        ensures same { self.new ≡ self.old }
        ensures filled { length self.new.bytes ≤ result }
        ensures empty { self.new.bytes ≡ [] → result ≤ first_piece }
    {
        self.unread.rest()
    }

    /// Returns the length of the first unit in bytes if its line announces a block, else 0.
    ///
    /// It counts bytes that haven't arrived too.
    pub fn announced_bytes(&self) -> usize
        ensures exact { Announces self.now.greatest self.now.bytes result }
        ensures none { self.now.bytes ≡ [] → result ≡ 0 }
    {
        self.ahead.announced_bytes()
    }

    /// Returns what `peek` returns. The other clauses of `peek` follow from these two.
    #[inline]
    fn first_unit(&self) -> Peek<'_>
        ensures found { Finds self.now (unit_of result) }
        ensures none { unit_of result ≡ None → HasNoUnit self.now }
    {
        if self.passed > 0 {
            return Peek::More;
        }
        self.ahead
            .peek(self.unread.as_slice(), self.unread.offered())
    }

    /// Returns what `peek_after` returns.
    #[inline]
    fn unit_after(&self, taken: usize) -> Peek<'_>
        ensures found { FindsLeft self.now taken (unit_of result) }
        ensures none { unit_of result ≡ None → HasNoUnit self.now }
    {
        if taken == 0 || self.passed > 0 {
            return self.first_unit();
        }
        match self.cursor_at(taken) {
            Some(cursor) => cursor.peek(self.unread.as_slice()),
            None => self.first_unit(),
        }
    }

    /// Returns the cursor after `taken` turns of the retrieval at the front.
    ///
    /// It is `None` if anything else is there.
    fn cursor_at(&self, taken: usize) -> Option<Cursor>
        ensures some { IsCursor self.now.greatest result self.now.bytes }
        ensures taken { IfSome result (λ cursor. cursor.taken ≡ taken) }
        // Without a cursor the unit is whole after any number of turns.
        ensures none { result ≡ None → StaysWhole self.now.greatest taken self.now.bytes }
    {
        let unread = self.unread.as_slice();
        cursor_after(self.cursor, self.ahead.cursor(), unread, taken)
    }
}

/// Returns what is known of the front of bytes, of which nothing was known before.
#[inline]
fn front_of(greatest: u64, unread: &Arrived) -> Ahead
    ensures { Knows greatest result unread.now }
{
    if unread.len() == 0 {
        return Ahead::none();
    }
    Ahead::none().after(greatest, unread.as_slice())
}
