//! What is known of the front of the unread bytes.
//!
//! The end of a line is searched once, and the line is parsed once. The feed keeps the result
//! (`Ahead`) until the unit is skipped, so small pieces aren't parsed again, and a piece of a block
//! that isn't complete costs nothing.

ghost use Rattle.std.specs.Prelude.{◌≡◌, ℕ, List, [], None, IfSome};
ghost use Rattle.mc_parse.specs.Peeks.{unit_of, FindsSpelled, MissesNone, StaysWhole};
ghost use Rattle.mc_parse.specs.Cursors.{IsFirstCursor};
ghost use Rattle.mc_parse.specs.Aheads.{Knew, Knows, HasNoFeed};
ghost use Rattle.mc_parse.specs.Announcing.{Announces};

use crate::cursor::Cursor;
use crate::note::{Announced, Note};
use crate::offer::Offer;
use crate::peek::{LONGEST, Peek, first_feed};

/// What is known of the front of the unread bytes. The first line is parsed once, when it is
/// complete.
#[derive(Clone, Copy)]
pub enum Ahead {
    /// The first bytes, as many as this number, were searched and have no line feed.
    Searched(usize),
    /// The first line, parsed.
    Line(Note),
}

impl Ahead {
    /// Returns that nothing is known.
    pub fn none() -> Ahead
        ensures { result ≡ Ahead.Searched 0 }
    {
        Ahead::Searched(0)
    }

    /// Searches the bytes that came after those that this is known of.
    pub fn after(self, greatest: u64, unread: &[u8]) -> Ahead
        requires { Knew greatest self unread.now }
        ensures { Knows greatest result unread.now }
    {
        match self {
            Ahead::Searched(searched) => look(greatest, unread, searched),
            Ahead::Line(_) => self,
        }
    }

    /// Returns the length of the first unit in bytes if its line announces a block, else 0.
    pub fn announced_bytes(&self) -> usize
        ensures exact { (greatest : ℕ) (unread : List ℕ) → Knows greatest self.now unread →
            Announces greatest unread result }
        ensures none { (greatest : ℕ) → Knows greatest self.now [] → result ≡ 0 }
    {
        match self {
            Ahead::Line(note) => note.announced_bytes(),
            Ahead::Searched(_) => 0,
        }
    }

    /// Returns the memory in bytes into which the first unit is best read, or 0 without a block.
    #[inline]
    pub fn wanted_bytes(&self) -> usize {
        match self {
            Ahead::Line(note) => note.wanted_bytes(),
            Ahead::Searched(_) => 0,
        }
    }

    /// Returns whether the first line may announce a block whose chunk can take memory over.
    #[inline]
    pub fn may_be_large(&self) -> bool {
        match self {
            Ahead::Line(note) => note.may_be_large(),
            Ahead::Searched(_) => false,
        }
    }

    /// Returns the large block that the first line announces, if it does.
    #[inline]
    pub fn large_block(&self) -> Option<Announced> {
        match self {
            Ahead::Line(note) => note.large_block(),
            Ahead::Searched(_) => None,
        }
    }

    /// Returns how many of `room` bytes a source may write behind the `there` unread ones.
    ///
    /// A unit with a large block is read to its end and no further.
    #[inline]
    pub fn room_within(&self, there: usize, room: usize) -> usize {
        match self {
            Ahead::Line(note) if note.may_be_large() => note.room_within(there, room),
            _ => room,
        }
    }

    /// Returns what the unread bytes begin with. It reads no line. A block that is offered is lent
    /// with its memory.
    #[inline]
    pub fn peek<'a>(&self, unread: &'a [u8], offer: Option<&'a Offer>) -> Peek<'a>
        requires known { (greatest : ℕ) × Knows greatest self.now unread.now }
        requires offered { IfSome offer (λ o. o.now ≡ unread.now) }
        ensures found { (greatest : ℕ) → Knows greatest self.now unread.now →
            FindsSpelled greatest (unit_of result) unread.now }
        ensures none { (greatest : ℕ) → Knows greatest self.now unread.now →
            MissesNone greatest (unit_of result) unread.now }
    {
        match self {
            Ahead::Searched(_) => peek_endless(unread),
            Ahead::Line(note) => note.peek(unread, offer),
        }
    }

    /// Returns the cursor before the first turn of the retrieval at the front.
    ///
    /// It is `None` if anything else is there.
    pub fn cursor(&self) -> Option<Cursor>
        requires { (greatest : ℕ) × (unread : List ℕ) × Knows greatest self.now unread }
        ensures some { (greatest : ℕ) (unread : List ℕ) →
            Knows greatest self.now unread → IsFirstCursor greatest result unread }
        // Without a cursor the unit is whole after any number of turns.
        ensures none { (greatest taken : ℕ) (unread : List ℕ) → Knows greatest self.now unread →
            result ≡ None → StaysWhole greatest taken unread }
    {
        match self {
            Ahead::Line(note) => note.cursor(),
            Ahead::Searched(_) => None,
        }
    }
}

/// Returns what bytes begin with, if their first 65537 have no line feed.
#[inline]
fn peek_endless(unread: &[u8]) -> Peek<'_>
    ensures found { (greatest : ℕ) →
        HasNoFeed 65537 unread.now → FindsSpelled greatest (unit_of result) unread.now }
    ensures none { (greatest : ℕ) →
        HasNoFeed 65537 unread.now → MissesNone greatest (unit_of result) unread.now }
{
    if unread.len() > LONGEST {
        Peek::TooLong
    } else {
        Peek::More
    }
}

/// Searches the end of the first line, and parses the line. The first `searched` bytes have no line
/// feed.
fn look(greatest: u64, unread: &[u8], searched: usize) -> Ahead
    requires { HasNoFeed searched unread.now }
    ensures { Knows greatest result unread.now }
{
    match first_feed(unread, searched) {
        None => Ahead::Searched(unread.len().min(LONGEST + 1)),
        Some(end) => Ahead::Line(Note::of(greatest, unread, end)),
    }
}
