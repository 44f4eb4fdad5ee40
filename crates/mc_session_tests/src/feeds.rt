//! Feeds: what unread bytes begin with, and courses of what happens to a feed.

ghost use Rattle.std.specs.Prelude.{◌≡◌};
ghost use Rattle.std.specs.Option.{option_map};
ghost use Rattle.mc_parse.specs.Peeks.{unit_of};

use crate::checks::is_none;
use mc_bytes::Source;
use mc_parse::{Feed, Peek};
use mc_protocol::{Command, LineFault, Lone};
use std::alloc::{AllocError, Global};
use std::process::Abort;

/// What a peek found, and its length in bytes.
#[derive(Clone, Copy, PartialEq, Eq)]
pub(crate) enum Seen {
    Lone(Lone, usize),
    Get(usize),
    /// Another command.
    Other(usize),
    More,
    Bad(LineFault, usize),
    TooLong,
}

/// Returns what a test sees of a command of `len` bytes.
fn seen_of(command: Command<'_>, len: usize) -> Seen {
    match command {
        Command::Lone(lone) => Seen::Lone(lone, len),
        Command::Get { .. } => Seen::Get(len),
        _ => Seen::Other(len),
    }
}

/// Returns whether a peek found this.
pub(crate) fn shows(found: Peek<'_>, seen: Seen) -> bool {
    match found {
        Peek::Whole(command, len) => seen_of(command, len) == seen,
        Peek::More => seen == Seen::More,
        Peek::Bad(fault, len) => seen == Seen::Bad(fault, len),
        Peek::TooLong => seen == Seen::TooLong,
    }
}

/// Returns the length in bytes of the unit that was found.
pub(crate) fn len_of(peek: Peek<'_>) -> Option<usize>
    ensures { result ≡ option_map (λ found. found.1) (unit_of peek.entry) }
{
    match peek {
        Peek::Whole(_, len) | Peek::Bad(_, len) => Some(len),
        Peek::TooLong => Some(65537),
        Peek::More => None,
    }
}

/// Skips the first unit, and returns its length.
pub(crate) fn pass_unit(feed: &mut Feed) -> Option<usize> {
    let len = len_of(feed.peek())?;
    feed.done(len);
    Some(len)
}

/// Pushes a piece. After an error it pushes it again; returns whether the feed was unchanged then.
pub(crate) fn push_at_last(feed: &mut Feed, piece: &[u8]) -> Result<bool, AllocError> {
    let held = feed.held();
    let found = len_of(feed.peek());
    if feed.push(piece).is_ok() {
        return Ok(true);
    }
    let is_same = feed.held() == held && len_of(feed.peek()) == found;
    feed.push(piece)?;
    Ok(is_same)
}

/// Skips the first unit. Returns whether it had this length, and this many bytes are held then.
pub(crate) fn passes(feed: &mut Feed, len: usize, held: usize) -> bool {
    pass_unit(feed) == Some(len) && feed.held() == held
}

/// A source that writes as many bytes at once as there is room for, and returns their number.
#[derive(Drop)]
pub(crate) struct Well {
    pub(crate) left: usize,
}

impl Source for Well {
    type Answer = usize;

    ghost gives = { λ _ _ _ _. Unit {0} };

    fn read(&mut self, room: &mut [u8]) -> (usize, usize) {
        let count = room.len().min(self.left);
        let (front, _) = room.split_at_mut(count);
        front.fill(b'x');
        self.left -= count;
        (count, room.len())
    }
}

/// Reads a piece from a source. After an error it reads it again.
///
/// Returns whether the feed and the source were unchanged after the error.
fn take_at_last(feed: &mut Feed, well: &mut Well, room: usize) -> Result<bool, AllocError> {
    let held = feed.held();
    let left = well.left;
    if feed.push_from(well, room).is_ok() {
        return Ok(true);
    }
    let is_same = feed.held() == held && well.left == left;
    feed.push_from(well, room)?;
    Ok(is_same)
}

/// What happens to a feed.
#[derive(Clone, Copy)]
pub(crate) enum Event {
    /// Nothing happens.
    Stays,
    /// A piece comes.
    Comes(&'static [u8]),
    /// Pieces of one byte come: the byte, their length, at most 16384, and their number.
    Runs(u8, usize, usize),
    /// A source is read in pieces of at most 16384 bytes: its length and their number.
    Flows(usize, usize),
    /// The first unit is skipped, which has this length.
    Leaves(usize),
    /// All bytes are dropped.
    Clears,
}

/// An event, what a peek finds behind it, and how many bytes are held then.
///
/// If it is many pieces, a peek finds this behind each, and no more is held.
pub(crate) type Row = (Event, Seen, usize);

/// Returns whether a peek finds this, and at most so many bytes are held.
///
/// If none may be held, none is in memory.
fn shows_within(feed: &Feed, seen: Seen, most: usize) -> bool {
    let is_within = feed.held() <= most && (most > 0 || feed.filled_bytes() == 0);
    is_within && shows(feed.peek(), seen)
}

/// Pushes a piece many times. Returns whether each left the feed as it should.
fn push_pieces(
    feed: &mut Feed,
    piece: &[u8],
    times: usize,
    seen: Seen,
    most: usize,
) -> Result<bool, AllocError> {
    for _ in 0..times {
        if !push_at_last(feed, piece)? || !shows_within(feed, seen, most) {
            return Ok(false);
        }
    }
    Ok(true)
}

/// The same for a piece of `len` times this byte, at most 16384.
fn push_runs(
    feed: &mut Feed,
    byte: u8,
    len: usize,
    times: usize,
    seen: Seen,
    most: usize,
) -> Result<bool, AllocError> {
    let bytes = [byte; 16384];
    let (piece, _) = bytes.split_at(len.min(bytes.len()));
    push_pieces(feed, piece, times, seen, most)
}

/// Reads from a source of `left` bytes many times. Returns whether each left the feed as it should.
fn read_pieces(
    feed: &mut Feed,
    left: usize,
    times: usize,
    seen: Seen,
    most: usize,
) -> Result<bool, AllocError> {
    let mut well = Well { left };
    for _ in 0..times {
        if !take_at_last(feed, &mut well, 16384)? || !shows_within(feed, seen, most) {
            return Ok(false);
        }
    }
    Ok(true)
}

/// Lets an event happen.
///
/// Returns whether an error left the feed unchanged, a unit had its length, and each of many pieces
/// left the feed as it should.
fn happens(feed: &mut Feed, row: Row) -> Result<bool, AllocError> {
    let (event, seen, held) = row;
    match event {
        Event::Stays => Ok(true),
        Event::Comes(piece) => push_at_last(feed, piece),
        Event::Runs(byte, len, times) => push_runs(feed, byte, len, times, seen, held),
        Event::Flows(left, times) => read_pieces(feed, left, times, seen, held),
        Event::Leaves(len) => Ok(pass_unit(feed) == Some(len)),
        Event::Clears => {
            feed.clear();
            Ok(true)
        }
    }
}

/// Lets an event happen, and returns whether the feed is as it should be then.
fn goes_as(feed: &mut Feed, row: Row) -> Result<bool, AllocError> {
    let is_right = happens(feed, row)?;
    let (_, seen, held) = row;
    Ok(is_right && shows_within(feed, seen, held) && feed.held() == held)
}

/// Returns the place of the first row behind which a feed isn't as it should be.
fn first_wrong(feed: &mut Feed, rows: &[Row]) -> Result<Option<usize>, AllocError> {
    for (at, row) in rows.iter().enumerate() {
        if !goes_as(feed, *row)? {
            return Ok(Some(at));
        }
    }
    Ok(None)
}

/// The same for a new feed, and for charges of at most `greatest`.
fn first_wrong_of(alloc: Global, greatest: u64, rows: &[Row]) -> Result<Option<usize>, AllocError> {
    let mut feed = Feed::new(alloc, greatest);
    first_wrong(&mut feed, rows)
}

/// Checks what happens to a new feed for charges of at most `greatest`.
pub(crate) fn goes(
    rt: &impl Abort,
    alloc: Global,
    greatest: u64,
    rows: &[Row],
) -> Result<(), AllocError> {
    is_none(rt, first_wrong_of(alloc, greatest, rows)?);
    Ok(())
}
