//! A parsed command as numbers and places in the buffer.
//!
//! A `Note` has places, and is lent as a `Command` from these and the bytes. A value that borrows
//! can't be kept beside the buffer that it borrows from.

ghost use Rattle.std.specs.Prelude.{◌≡◌, ◌+◌, ◌<◌, ℕ, List, length, take, IfSome};
ghost use Rattle.mc_protocol.specs.Commands.{block_in, retrieval_in};
ghost use Rattle.mc_parse.specs.Units.{with_block, IsLine};
ghost use Rattle.mc_parse.specs.Peeks.{unit_of, FindsSpelled, MissesNone, StaysWhole};
ghost use Rattle.mc_parse.specs.Cursors.{IsFirstCursor};
ghost use Rattle.mc_parse.specs.Notes.{at, keys_at, read, said, FitIn, Fits, IsNoted};
ghost use Rattle.mc_parse.specs.Announcing.{Announces};

use crate::cursor::Cursor;
use crate::line::line_of;
use crate::offer::Offer;
use crate::peek::{Peek, block_peeked, without_carriage_return};
use mc_protocol::{Bytes, CHUNK_HEAD, Command, CommandOf, KeyPlace, Keys, KeysPlace, LineFault};
use mc_sizes::{BESIDE, need_of};

/// The place of a key in the text of a line.
#[derive(Clone, Copy)]
pub struct Span {
    from: usize,
    len: usize,
}

impl Span {
    /// Returns the span of the `len` bytes behind the first `from`.
    pub(crate) fn new(from: usize, len: usize) -> Span
        ensures from { result.from ≡ from }
        ensures len { result.len ≡ len }
    {
        Span { from, len }
    }
}

impl KeyPlace for Span {
    ghost bytes = { λ span text. at text span };

    #[inline]
    fn lend<'a>(&self, text: &'a [u8]) -> Bytes<'a> {
        let (_, behind) = text.split_at(self.from.min(text.len()));
        let (bytes, _) = behind.split_at(self.len.min(behind.len()));
        Bytes::of(bytes)
    }
}

/// The place of a retrieval's keys in the text of a line, and their number.
#[derive(Clone, Copy)]
pub struct KeySpan {
    pub(crate) from: usize,
    pub(crate) count: usize,
}

impl KeysPlace for KeySpan {
    ghost keys = { λ span text. keys_at text span };

    ghost fits = { λ span text. FitIn span text };

    #[inline]
    fn lend<'a>(&self, text: &'a [u8]) -> Keys<'a> {
        let (_, behind) = text.split_at(self.from);
        Keys::with_count(behind, self.count)
    }
}

/// A parsed command: its keys are places, and its block is a length.
pub type Noted = CommandOf<Span, KeySpan, u32>;

/// Returns the command that was parsed from a line's text, with its block, if it has one.
#[inline]
pub fn lend<'a>(noted: &Noted, text: &'a [u8], block: Bytes<'a>) -> Command<'a>
    requires { Fits noted.now text.now }
    ensures { result ≡ with_block (read text.now noted.now) block.entry }
{
    noted.lend(text, block)
}

/// Returns the length of the block that a command announces, or `None`.
#[inline]
fn announced_block(noted: &Noted) -> Option<u32>
    ensures { result ≡ block_in noted.now }
{
    match noted {
        CommandOf::Store { block, .. } | CommandOf::Cas { block, .. } => Some(*block),
        _ => None,
    }
}

/// Returns the length of the key of a command with a block, and 0 for another command.
fn key_length(noted: &Noted) -> u64 {
    match noted {
        CommandOf::Store { key, .. } | CommandOf::Cas { key, .. } => key.len as u64,
        _ => 0,
    }
}

/// Returns a retrieval's exptime, keys and `with_unique`, or `None` for another command.
fn retrieval_in(noted: &Noted) -> Option<(Option<i64>, KeySpan, bool)>
    ensures { result ≡ retrieval_in noted.now }
{
    match *noted {
        CommandOf::Get { keys, with_unique } => Some((None, keys, with_unique)),
        CommandOf::GetTouch {
            exptime,
            keys,
            with_unique,
        } => Some((Some(exptime), keys, with_unique)),
        _ => None,
    }
}

/// Bytes that a unit reserves beyond itself, so that what arrives with its end has room.
const BEHIND: usize = 16_384;

/// Fewer bytes have no chunk that takes memory over, under any key.
const LARGE: u32 = 50_000;

/// The least size of a chunk whose block is read into memory that the chunk may take over.
const LEAST: usize = 66_232;

/// A large block that a line announces.
#[derive(Clone, Copy)]
pub struct Announced {
    /// The place at which it begins.
    pub from: usize,
    /// Its length in bytes.
    pub len: usize,
    /// The memory in bytes that its chunk may take over.
    pub memory: usize,
}

impl Announced {
    /// Returns the length in bytes of the unit: the line, the block and its end.
    pub fn end(self) -> usize {
        self.from.saturating_add(self.len).saturating_add(2)
    }

    /// Returns how many of `room` bytes a source may write behind `there` bytes of the unit.
    pub fn room_within(self, there: usize, room: usize) -> usize {
        let end = self.end();
        if there < end {
            room.min(end - there)
        } else {
            room
        }
    }
}

/// The first line of unread bytes, parsed, and its place.
#[derive(Clone, Copy)]
pub struct Note {
    /// Where the line's text ends.
    to: usize,
    /// The place of the line feed.
    end: usize,
    said: Result<Noted, LineFault>,
}

impl Note {
    /// Parses the first line of the unread bytes, whose line feed is at `end`.
    pub fn of(greatest: u64, unread: &[u8], end: usize) -> Note
        requires line { IsLine (take (end + 1) unread.now) (take end unread.now) }
        requires inside { end < length unread.now }
        ensures { IsNoted greatest result unread.now }
    {
        let (line, _) = unread.split_at(end);
        let text = without_carriage_return(line);
        Note {
            to: text.len(),
            end,
            said: line_of(greatest, text),
        }
    }

    /// Returns the length in bytes of the line with the block that it announces, or 0 without one.
    pub fn announced_bytes(&self) -> usize
        ensures { (greatest : ℕ) (unread : List ℕ) → IsNoted greatest self.now unread →
            Announces greatest unread result }
    {
        match &self.said {
            Ok(noted) => match announced_block(noted) {
                Some(len) => self.end.saturating_add(3).saturating_add(len as usize),
                None => 0,
            },
            Err(_) => 0,
        }
    }

    /// Returns the memory in bytes into which the line and its block are best read, or 0 without a
    /// block.
    ///
    /// For a large block it is what the block's chunk can take over.
    pub fn wanted_bytes(&self) -> usize {
        if self.may_be_large() {
            if let Some(block) = self.large_block() {
                return block.memory;
            }
        }
        match self.announced_bytes() {
            0 => 0,
            whole => whole.saturating_add(BEHIND),
        }
    }

    /// Returns whether the line may announce a block whose chunk can take memory over.
    ///
    /// A block of fewer than 50000 bytes has no such chunk.
    #[inline]
    pub fn may_be_large(&self) -> bool {
        match &self.said {
            Ok(noted) => match announced_block(noted) {
                Some(len) => len >= LARGE,
                None => false,
            },
            Err(_) => false,
        }
    }

    /// Returns the block that the line announces, if its chunk can take memory over.
    ///
    /// That is a chunk of at least 66232 bytes, or several pages, and the line must be short.
    #[inline(never)]
    pub fn large_block(&self) -> Option<Announced> {
        let Ok(noted) = &self.said else {
            return None;
        };
        let len = announced_block(noted)?;
        let key = key_length(noted);
        let need = need_of(
            CHUNK_HEAD
                .saturating_add(key)
                .saturating_add(u64::from(len)),
        )?;
        let size = need.class().size() as usize;
        let from = self.end.saturating_add(1);
        if size < LEAST || from > BESIDE {
            return None;
        }
        Some(Announced {
            from,
            len: len as usize,
            memory: size
                .saturating_mul(need.count() as usize)
                .saturating_add(BESIDE),
        })
    }

    /// Returns how many of `room` bytes a source may write behind the `there` unread ones.
    ///
    /// A unit with a large block is read to its end and no further.
    #[inline(never)]
    pub fn room_within(&self, there: usize, room: usize) -> usize {
        match self.large_block() {
            Some(block) => block.room_within(there, room),
            None => room,
        }
    }

    /// Returns what the unread bytes begin with. It doesn't read the line. A block that is offered
    /// is lent with its memory.
    #[inline]
    pub fn peek<'a>(&self, unread: &'a [u8], offer: Option<&'a Offer>) -> Peek<'a>
        requires noted { (greatest : ℕ) × IsNoted greatest self.now unread.now }
        requires offered { IfSome offer (λ o. o.now ≡ unread.now) }
        ensures found { (greatest : ℕ) → IsNoted greatest self.now unread.now →
            FindsSpelled greatest (unit_of result) unread.now }
        ensures none { (greatest : ℕ) → IsNoted greatest self.now unread.now →
            MissesNone greatest (unit_of result) unread.now }
    {
        let (text, _) = unread.split_at(self.to);
        match self.said {
            Err(fault) => Peek::Bad(fault, self.end + 1),
            Ok(noted) => match announced_block(&noted) {
                None => Peek::Whole(lend(&noted, text, Bytes::of(&[])), self.end + 1),
                Some(len) => block_peeked(&noted, text, unread, self.end, len as usize, offer),
            },
        }
    }

    /// Returns the cursor before the first turn of the line's retrieval.
    ///
    /// It is `None` if the line is anything else.
    pub fn cursor(&self) -> Option<Cursor>
        requires { (greatest : ℕ) × (unread : List ℕ) × IsNoted greatest self.now unread }
        ensures some { (greatest : ℕ) (unread : List ℕ) →
            IsNoted greatest self.now unread → IsFirstCursor greatest result unread }
        // Without a cursor the unit is whole after any number of turns.
        ensures none { (greatest taken : ℕ) (unread : List ℕ) → IsNoted greatest self.now unread →
            result ≡ None → StaysWhole greatest taken unread }
    {
        let Ok(noted) = &self.said else {
            return None;
        };
        let (exptime, keys, with_unique) = retrieval_in(noted)?;
        Some(Cursor::first(keys, self.to, self.end + 1, with_unique, exptime))
    }
}
