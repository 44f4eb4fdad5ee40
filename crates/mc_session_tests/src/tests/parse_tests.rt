//! Queues and feeds: what unread bytes begin with, and what is held.

ghost use Rattle.std.specs.Prelude.{◌∷◌, []};

use crate::checks::holds;
use crate::feeds::{Event, Row, Seen, Well, goes, len_of, pass_unit, passes, push_at_last, shows};
use mc_bytes::{Append, FIRST_PIECE, Queue};
use mc_parse::{Feed, Peek, peek_at};
use mc_protocol::{Command, LineFault, Lone, Verb};
use std::alloc::{AllocError, Global};
use std::test::*;

const GREATEST: u64 = 1048576;

/// A version line with CR LF.
const VERSION: Seen = Seen::Lone(Lone::Version, 9);

/// Returns a line of `len` bytes without its end: version, and spaces behind it.
fn long_line(alloc: Global, len: usize) -> Result<Vec<u8>, AllocError> {
    let mut line = Vec::new(alloc);
    line.extend_from_slice(b"version")?;
    line.resize(len, b' ')?;
    Ok(line)
}

/// Returns whether it is a gats with exptime 60 and `left` keys left, `first` first if any.
fn is_gats_60(peek: Peek<'_>, left: usize, first: &[u8]) -> bool {
    let Peek::Whole(command, 25) = peek else {
        return false;
    };
    match command {
        Command::GetTouch {
            exptime,
            keys,
            with_unique,
        } => exptime == 60
            && with_unique
            && keys.len() == left
            && keys.get(0).unwrap_or(b"") == first,
        _ => false,
    }
}

/// A text of two bytes.
#[derive(Drop)]
struct Pair(u8, u8);

impl Append for Pair {
    ghost can_append = { λ _. Unit {0} };

    ghost bytes = { λ pair. pair.0 ∷ pair.1 ∷ [] };

    fn append_to(&self, buffer: &mut Vec<u8>) -> Result<(), AllocError> {
        buffer.extend_from_slice(&[self.0, self.1])
    }
}

/// A text of two bytes that reserves memory for 4096.
#[derive(Drop)]
struct Sprawling;

impl Append for Sprawling {
    ghost can_append = { λ _. Unit {0} };

    ghost bytes = { λ _. 99 ∷ 100 ∷ [] };

    fn append_to(&self, buffer: &mut Vec<u8>) -> Result<(), AllocError> {
        buffer.reserve(4096)?;
        buffer.extend_from_slice(b"cd")
    }
}

/// Consumes up to `n` bytes. Returns whether this is left, and this many bytes are in memory.
fn consume_to(queue: &mut Queue<65536>, n: usize, left: &[u8], filled: usize) -> bool {
    queue.consume(queue.len().min(n));
    queue.as_slice() == left && queue.len() == left.len() && queue.filled_bytes() == filled
}

/// The number of bytes to consume, what is left then, and the number of bytes in memory.
static TAKEN: [(usize, &[u8], usize); 5] = [
    (0, b"abcdefgh", 8),
    (3, b"defgh", 8),
    (1, b"efgh", 8),
    (3, b"h", 8),
    (1, b"", 0),
];

// Each test below owns a queue, and the function above it returns whether that does what it should.

fn takes_from_its_front(queue: &mut Queue<65536>) -> Result<bool, AllocError> {
    let was_empty = queue.is_empty();
    queue.push(b"abcdef")?;
    queue.append(&Pair(b'g', b'h'))?;
    Ok(was_empty && is_taken(queue))
}

/// Takes all bytes of a queue.
fn is_taken(queue: &mut Queue<65536>) -> bool {
    for (n, left, filled) in &TAKEN {
        if !consume_to(queue, *n, left, *filled) {
            return false;
        }
    }
    queue.is_empty()
}

#[test]
fn a_queue_takes_from_its_front(rt: HostRuntime) -> Result<(), AllocError> {
    let is_right = takes_from_its_front(&mut Queue::new(rt.alloc()))?;
    holds(&rt, is_right);
    Ok(())
}

/// A piece that is pushed, the number of bytes in memory then, the number of bytes to consume, what
/// is left, and the number of bytes in memory.
static CLOSING: [(&[u8], usize, usize, &[u8], usize); 3] = [
    (b"abcdefgh", 8, 3, b"defgh", 8),
    (b"i", 9, 2, b"fghi", 9),
    (b"j", 5, 0, b"fghij", 5),
];

fn closes_up(queue: &mut Queue<65536>) -> Result<bool, AllocError> {
    for (piece, pushed, n, left, filled) in &CLOSING {
        queue.push(piece)?;
        if queue.filled_bytes() != *pushed || !consume_to(queue, *n, left, *filled) {
            return Ok(false);
        }
    }
    Ok(true)
}

#[test]
fn an_append_closes_up_half_of_a_queue(rt: HostRuntime) -> Result<(), AllocError> {
    let is_right = closes_up(&mut Queue::new(rt.alloc()))?;
    holds(&rt, is_right);
    Ok(())
}

fn gives_back_what_a_text_left(queue: &mut Queue<65536>) -> Result<bool, AllocError> {
    queue.push(b"ab")?;
    queue.append(&Sprawling)?;
    Ok(queue.as_slice() == b"abcd".as_slice() && queue.capacity() == 4)
}

#[test]
fn memory_that_a_text_does_not_need_is_given_back(rt: HostRuntime) -> Result<(), AllocError> {
    let is_right = gives_back_what_a_text_left(&mut Queue::new(rt.alloc()))?;
    holds(&rt, is_right);
    Ok(())
}

fn gives_its_memory_back(queue: &mut Queue<65536>) -> Result<bool, AllocError> {
    let piece = [b'x'; 8192];
    for _ in 0..16 {
        queue.push(&piece)?;
    }
    let has_all = queue.capacity() >= 131072;
    Ok(has_all && closes_up_and_clears(queue)?)
}

/// The same for a queue of 131072 bytes.
fn closes_up_and_clears(queue: &mut Queue<65536>) -> Result<bool, AllocError> {
    queue.consume(queue.len().min(131071));
    let open = queue.filled_bytes();
    queue.push(b"x")?;
    let closed = queue.filled_bytes();
    queue.clear();
    let is_clear = queue.capacity() <= 65536 && queue.filled_bytes() == 0;
    Ok(open == 131072 && closed == 2 && is_clear)
}

#[test]
fn a_large_queue_gives_its_memory_back(rt: HostRuntime) -> Result<(), AllocError> {
    let is_right = gives_its_memory_back(&mut Queue::new(rt.alloc()))?;
    holds(&rt, is_right);
    Ok(())
}

fn keeps_a_first_piece(queue: &mut Queue<65536>) -> Result<bool, AllocError> {
    queue.push(&[b'x'; 8192])?;
    let held = queue.rest();
    queue.clear();
    let kept = queue.capacity();
    Ok(held >= 8192 && kept >= 8192 && rests(queue))
}

/// The same for a queue without bytes.
fn rests(queue: &mut Queue<65536>) -> bool {
    queue.rest() <= FIRST_PIECE && queue.is_empty() && queue.capacity() <= FIRST_PIECE
}

#[test]
fn a_queue_that_rests_keeps_a_first_piece(rt: HostRuntime) -> Result<(), AllocError> {
    let is_right = keeps_a_first_piece(&mut Queue::new(rt.alloc()))?;
    holds(&rt, is_right);
    Ok(())
}

/// The bytes of a text that comes in parts, and a part of them that is just below a sixteenth.
const WHOLE: usize = 320_000;

const BELOW: usize = 19_999;

/// Looks at the memory of a queue to which this part of the text is pushed first.
fn makes_room_at_once(queue: &mut Queue<64>, part: &[u8]) -> Result<bool, AllocError> {
    queue.push_part(part, WHOLE)?;
    queue.push_part(b"x", WHOLE)?;
    let begun = queue.capacity();
    queue.push_part(b"x", WHOLE)?;
    let has_room = queue.capacity() >= WHOLE && queue.len() == BELOW + 2;
    queue.clear();
    let is_begun = begun >= WHOLE / 16 + 16_384 && begun < WHOLE;
    Ok(is_begun && has_room && queue.capacity() <= 64)
}

#[test]
fn room_is_made_at_once_for_a_text_that_has_begun(rt: HostRuntime) -> Result<(), AllocError> {
    let is_right = makes_room_at_once(&mut Queue::new(rt.alloc()), &[b'x'; BELOW])?;
    holds(&rt, is_right);
    Ok(())
}

/// Pushes a part of 400 bytes, and once more if memory is refused. The queue is unchanged then.
fn takes_a_part(queue: &mut Queue<64>) -> Result<bool, AllocError> {
    let part = [b'x'; 400];
    let there = queue.len();
    if queue.push_part(&part, 1600).is_ok() {
        return Ok(true);
    }
    let is_same = queue.len() == there;
    queue.push_part(&part, 1600)?;
    Ok(is_same)
}

fn takes_parts(queue: &mut Queue<64>) -> Result<bool, AllocError> {
    for count in 1..5usize {
        if !takes_a_part(queue)? || queue.len() != 400 * count {
            return Ok(false);
        }
    }
    Ok(true)
}

#[test]
fn a_part_that_is_refused(rt: HostRuntime) -> Result<(), AllocError> {
    let is_right = takes_parts(&mut Queue::new(rt.alloc()))?;
    holds(&rt, is_right);
    Ok(())
}

/// Returns whether a source has this room in an empty queue.
fn lends_room(queue: &mut Queue<65536>, room: usize) -> Result<bool, AllocError> {
    let mut well = Well { left: usize::MAX };
    let lent = queue.push_part_from(&mut well, room, 0)?;
    let len = queue.len();
    queue.consume(len);
    Ok(lent == room && len == room)
}

/// Looks at rooms in order.
fn lends_rooms(queue: &mut Queue<65536>, rooms: &[usize]) -> Result<bool, AllocError> {
    for room in rooms {
        if !lends_room(queue, *room)? {
            return Ok(false);
        }
    }
    Ok(true)
}

#[test]
fn a_source_has_the_room_that_is_asked_for(rt: HostRuntime) -> Result<(), AllocError> {
    let is_right = lends_rooms(&mut Queue::new(rt.alloc()), &[2048, 1, 2048, 16384])?;
    holds(&rt, is_right);
    Ok(())
}

/// Reads 100 bytes from a source with more room, consumes them, and returns what is reserved.
fn room_after_a_read(queue: &mut Queue<65536>) -> Result<usize, AllocError> {
    let mut well = Well { left: 100 };
    queue.push_part_from(&mut well, 2048, 0)?;
    queue.consume(queue.len());
    Ok(queue.capacity())
}

fn keeps_the_room(queue: &mut Queue<65536>) -> Result<bool, AllocError> {
    for _ in 0..9 {
        if room_after_a_read(queue)? != 2048 {
            return Ok(false);
        }
    }
    Ok(true)
}

/// An idle queue keeps the room for its source, and no more.
#[test]
fn room_that_is_lent_again_is_kept(rt: HostRuntime) -> Result<(), AllocError> {
    let is_right = keeps_the_room(&mut Queue::new(rt.alloc()))?;
    holds(&rt, is_right);
    Ok(())
}

/// Reads pieces of 16384 bytes of a text of 1048576. Returns whether the buffer didn't move.
fn stays_for(queue: &mut Queue<65536>, pieces: usize) -> Result<bool, AllocError> {
    let reserved = queue.capacity();
    let mut well = Well { left: usize::MAX };
    for _ in 0..pieces {
        queue.push_part_from(&mut well, 16384, 1048576)?;
    }
    Ok(queue.capacity() == reserved)
}

/// The first 4 pieces are a sixteenth; room for the text comes with the fifth.
fn stays_after_a_sixteenth(queue: &mut Queue<65536>) -> Result<bool, AllocError> {
    let stays_early = stays_for(queue, 5)?;
    let stays_late = stays_for(queue, 59)?;
    Ok(!stays_early && stays_late && queue.len() == 1048576)
}

#[test]
fn a_text_from_a_source_stays_where_it_is_after_a_sixteenth(
    rt: HostRuntime,
) -> Result<(), AllocError> {
    let is_right = stays_after_a_sixteenth(&mut Queue::new(rt.alloc()))?;
    holds(&rt, is_right);
    Ok(())
}

/// Returns whether a command sets `a` to `abc`, with the flags 5, the exptime 0 and an answer.
fn is_set_of_a(command: Command<'_>) -> bool {
    match command {
        Command::Store {
            verb,
            key,
            flags,
            exptime,
            block,
            quiet,
        } => {
            let (key, block) = (key.as_slice(), block.as_slice());
            let has_bytes = key == b"a".as_slice() && block == b"abc".as_slice();
            has_bytes && (verb, flags, exptime, quiet) == (Verb::Set, 5, 0, false)
        }
        _ => false,
    }
}

#[test]
fn a_set_and_what_follows(rt: HostRuntime) {
    let unread = b"set a 5 0 3\r\nabc\r\nget a\r\n";
    let is_seen = match peek_at(GREATEST, unread) {
        Peek::Whole(command, 18) => is_set_of_a(command),
        _ => false,
    };
    assert!(rt; is_seen);
}

/// Unread bytes, and what a peek finds in them.
static FRONTS: [(&[u8], Seen); 12] = [
    (
        b"set a 0 0 3\r\nabcdef\r\n",
        Seen::Bad(LineFault::BadChunk, 18),
    ),
    (
        b"set a 0 0 3\r\nabc\nget a\r\n",
        Seen::Bad(LineFault::BadChunk, 18),
    ),
    (b"def\r\n", Seen::Bad(LineFault::Unknown, 5)),
    (b"\r\n", Seen::Bad(LineFault::Unknown, 2)),
    (b"get\r\n", Seen::Bad(LineFault::Unknown, 5)),
    (
        b"set a 4294967296 0 1\r\n",
        Seen::Bad(LineFault::BadFormat, 22),
    ),
    (b"  version  \r\n", Seen::Lone(Lone::Version, 13)),
    // A line feed alone ends a line, and one carriage return before it is ignored.
    (b"version\n", Seen::Lone(Lone::Version, 8)),
    (b"version\r\r\n", Seen::Bad(LineFault::Unknown, 10)),
    (b"set a 0 0 5\r\nab", Seen::More),
    (b"set a 0 0 5\r\nabcde\r", Seen::More),
    (b"", Seen::More),
];

#[test]
fn faults_and_more(rt: HostRuntime) {
    for (unread, seen) in &FRONTS {
        assert!(rt; shows(peek_at(GREATEST, unread), *seen));
    }
}

/// Returns whether a peek finds this in a line of so many bytes, and this once its end has come.
fn line_shows(alloc: Global, len: usize, part: Seen, whole: Seen) -> Result<bool, AllocError> {
    let mut line = long_line(alloc, len)?;
    shows_at_its_end(&mut line, part, whole)
}

/// The same for a line that lacks its end.
fn shows_at_its_end(line: &mut Vec<u8>, part: Seen, whole: Seen) -> Result<bool, AllocError> {
    let is_seen = shows(peek_at(GREATEST, line), part);
    line.push(b'\n')?;
    Ok(is_seen && shows(peek_at(GREATEST, line), whole))
}

#[test]
fn the_longest_line(rt: HostRuntime) -> Result<(), AllocError> {
    let whole = Seen::Lone(Lone::Version, 65537);
    holds(&rt, line_shows(rt.alloc(), 65536, Seen::More, whole)?);
    holds(
        &rt,
        line_shows(rt.alloc(), 65537, Seen::TooLong, Seen::TooLong)?,
    );
    Ok(())
}

/// What a peek finds in a line whose block is too large.
const OF_202: Seen = Seen::Bad(LineFault::TooLarge { passed: 202 }, 15);

const OF_2097154: Seen = Seen::Bad(LineFault::TooLarge { passed: 2097154 }, 19);

/// The next line comes behind the block that is skipped.
static PASSED_OVER: [Row; 7] = [
    (Event::Comes(b"set a 0 0 200\r\nxyz"), OF_202, 18),
    (Event::Leaves(15), Seen::More, 0),
    (Event::Runs(b'x', 1, 199), Seen::More, 0),
    (Event::Comes(b"version\r\nqu"), VERSION, 11),
    (Event::Leaves(9), Seen::More, 2),
    (Event::Comes(b"it\r\n"), Seen::Lone(Lone::Quit, 6), 6),
    (Event::Clears, Seen::More, 0),
];

#[test]
fn a_block_that_is_passed_over(rt: HostRuntime) -> Result<(), AllocError> {
    goes(&rt, rt.alloc(), 100, &PASSED_OVER)
}

/// The last byte of the block that is skipped comes with the next line.
static PASSED_OVER_WITH_A_LINE: [Row; 4] = [
    (Event::Comes(b"set a 0 0 200\r\nxyz"), OF_202, 18),
    (Event::Leaves(15), Seen::More, 0),
    (Event::Runs(b'x', 1, 198), Seen::More, 0),
    (Event::Comes(b"xversion\r\n"), VERSION, 9),
];

#[test]
fn a_block_that_is_passed_over_ends_in_a_piece(rt: HostRuntime) -> Result<(), AllocError> {
    goes(&rt, rt.alloc(), 100, &PASSED_OVER_WITH_A_LINE)
}

static NEVER_HELD: [Row; 5] = [
    (Event::Comes(b"set a 0 0 2097152\r\n"), OF_2097154, 19),
    (Event::Leaves(19), Seen::More, 0),
    (Event::Runs(b'x', 16384, 128), Seen::More, 0),
    (Event::Comes(b"\r\n"), Seen::More, 0),
    (Event::Comes(b"version\r\n"), VERSION, 9),
];

/// A block of this length is skipped in pieces, none of which is held.
#[test]
fn what_is_passed_over_is_never_held(rt: HostRuntime) -> Result<(), AllocError> {
    goes(&rt, rt.alloc(), GREATEST, &NEVER_HELD)
}

static NEVER_HELD_OF_A_SOURCE: [Row; 4] = [
    (Event::Comes(b"set a 0 0 2097152\r\n"), OF_2097154, 19),
    (Event::Leaves(19), Seen::More, 0),
    (Event::Flows(2097154, 129), Seen::More, 0),
    (Event::Comes(b"version\r\n"), VERSION, 9),
];

#[test]
fn what_is_passed_over_of_a_source_is_never_held(rt: HostRuntime) -> Result<(), AllocError> {
    goes(&rt, rt.alloc(), GREATEST, &NEVER_HELD_OF_A_SOURCE)
}

static OF_A_SOURCE: [Row; 3] = [
    (Event::Comes(b"set a 0 0 1000000\r\n"), Seen::More, 19),
    (Event::Flows(1000000, 62), Seen::More, 1000019),
    (Event::Comes(b"\r\n"), Seen::Other(1000021), 1000021),
];

/// A block of 1000000 bytes in pieces of 16384; the last piece is shorter.
#[test]
fn a_block_comes_from_a_source(rt: HostRuntime) -> Result<(), AllocError> {
    goes(&rt, rt.alloc(), GREATEST, &OF_A_SOURCE)
}

/// A block of 100 bytes in pieces. The first piece is empty, and only the last ends a unit.
static PIECES: [Row; 7] = [
    (Event::Stays, Seen::More, 0),
    (Event::Comes(b""), Seen::More, 0),
    (Event::Comes(b"set a 0 0 100\r\nxyz"), Seen::More, 18),
    (
        Event::Comes(b"0123456789012345678901234567890123456789012345678901234567890123456789"),
        Seen::More,
        88,
    ),
    (
        Event::Comes(b"012345678901234567890123456"),
        Seen::More,
        115,
    ),
    (Event::Comes(b"\r\nget a\r\n"), Seen::Other(117), 124),
    (Event::Leaves(117), Seen::Get(7), 7),
];

#[test]
fn a_push_that_is_refused(rt: HostRuntime) -> Result<(), AllocError> {
    goes(&rt, rt.alloc(), GREATEST, &PIECES)
}

static LONGEST_LINE: [Row; 3] = [
    (Event::Comes(b"version "), Seen::More, 8),
    (Event::Runs(b' ', 8191, 8), Seen::More, 65536),
    (Event::Comes(b"\n"), Seen::Lone(Lone::Version, 65537), 65537),
];

#[test]
fn the_longest_line_in_pieces(rt: HostRuntime) -> Result<(), AllocError> {
    goes(&rt, rt.alloc(), GREATEST, &LONGEST_LINE)
}

static LINE_TOO_LONG: [Row; 4] = [
    (Event::Stays, Seen::More, 0),
    (Event::Runs(b' ', 8192, 8), Seen::More, 65536),
    (Event::Comes(b" "), Seen::TooLong, 65537),
    (Event::Comes(b"\n"), Seen::TooLong, 65538),
];

#[test]
fn a_line_one_byte_too_long_in_pieces(rt: HostRuntime) -> Result<(), AllocError> {
    goes(&rt, rt.alloc(), GREATEST, &LINE_TOO_LONG)
}

// Each test below owns a feed, and a function above it returns whether that does what it should.

fn announces_a_block(feed: &mut Feed) -> Result<bool, AllocError> {
    let before = feed.announced_bytes();
    feed.push(b"set a 0 0 100000\r\n")?;
    let announced = feed.announced_bytes();
    for _ in 0..2 {
        feed.push(&[b'x'; 8192])?;
    }
    let is_announced = before == 0 && announced == 100020;
    Ok(is_announced && keeps_its_room_until_it_is_cleared(feed))
}

/// The same for a feed that has the line of a block of 100000 bytes and some of those.
fn keeps_its_room_until_it_is_cleared(feed: &mut Feed) -> bool {
    let has_room = feed.capacity() >= 100020 && feed.rest() >= 100020;
    feed.clear();
    let is_clear = feed.announced_bytes() == 0 && feed.rest() <= FIRST_PIECE;
    has_room && is_clear && feed.capacity() <= FIRST_PIECE
}

#[test]
fn a_block_is_announced_by_its_line(rt: HostRuntime) -> Result<(), AllocError> {
    let is_right = announces_a_block(&mut Feed::new(rt.alloc(), GREATEST))?;
    holds(&rt, is_right);
    Ok(())
}

/// Returns whether it is a set whose block is lent with its memory.
fn lends_memory(peek: Peek<'_>) -> bool {
    match peek {
        Peek::Whole(Command::Store { block, .. }, _) => block.lent().is_some(),
        _ => false,
    }
}

/// Appends a set of a block of 100000 bytes in pieces.
fn push_large(feed: &mut Feed) -> Result<(), AllocError> {
    feed.push(b"set a 0 0 100000\r\n")?;
    for _ in 0..12 {
        feed.push(&[b'x'; 8192])?;
    }
    feed.push(&[b'x'; 1696])?;
    feed.push(b"\r\n")
}

/// A large block is lent with its memory until more arrives, and is the same then.
///
/// It isn't lent if memory was refused, which is an error here.
fn offers_a_large_block(feed: &mut Feed) -> Result<bool, AllocError> {
    push_large(feed)?;
    let is_whole = len_of(feed.peek()) == Some(100020);
    if is_whole && !lends_memory(feed.peek()) {
        return Err(AllocError);
    }
    let has_room = feed.capacity() >= 100020 && feed.rest() >= 100020;
    Ok(is_whole && has_room && feed.held() == 100020 && goes_on_behind_it(feed)?)
}

/// The same for a feed that has it.
fn goes_on_behind_it(feed: &mut Feed) -> Result<bool, AllocError> {
    let is_same = push_at_last(feed, b"version\r\n")?;
    let is_copied = !lends_memory(feed.peek()) && len_of(feed.peek()) == Some(100020);
    let is_passed = passes(feed, 100020, 9) && push_at_last(feed, b"")? && feed.held() == 9;
    let is_next = shows(feed.peek(), VERSION) && passes(feed, 9, 0);
    Ok(is_same && is_copied && is_passed && is_next && frees_a_large_block(feed)?)
}

/// An empty feed takes such a block, and frees its memory.
fn frees_a_large_block(feed: &mut Feed) -> Result<bool, AllocError> {
    push_large(feed)?;
    Ok(passes(feed, 100020, 0) && feed.capacity() <= 65536)
}

#[test]
fn a_large_block_is_lent_with_its_memory(rt: HostRuntime) -> Result<(), AllocError> {
    let is_right = offers_a_large_block(&mut Feed::new(rt.alloc(), GREATEST))?;
    holds(&rt, is_right);
    Ok(())
}

/// The number of turns taken, the next key, and how many keys are left.
static TURNS: [(usize, &[u8], usize); 3] = [(0, b"one", 3), (1, b"two", 2), (2, b"three", 1)];

/// Returns whether a key of it is found, first by reading the line from its beginning, and then by
/// the mark.
fn finds_a_key(feed: &mut Feed, taken: usize, key: &[u8], left: usize) -> bool {
    for _ in 0..2 {
        if !is_gats_60(feed.peek_after(taken), left, key) {
            return false;
        }
        feed.mark(taken);
    }
    true
}

/// Returns whether all its keys are found, also when more comes behind it.
fn finds_keys(feed: &mut Feed) -> Result<bool, AllocError> {
    for (taken, key, left) in &TURNS {
        if !finds_a_key(feed, *taken, key, *left) || !push_at_last(feed, b"version\r\n")? {
            return Ok(false);
        }
    }
    Ok(true)
}

/// Returns whether no key is left of it, and a quit is behind it.
fn ends_in_a_quit(feed: &mut Feed) -> bool {
    let is_over = is_gats_60(feed.peek_after(usize::MAX), 0, b"");
    let is_passed = pass_unit(feed) == Some(25);
    is_over && is_passed && shows(feed.peek_after(1), Seen::Lone(Lone::Quit, 6))
}

fn retrieves_in_turns(feed: &mut Feed) -> Result<bool, AllocError> {
    let is_same = push_at_last(feed, b"gats 60 one  two three \r\nquit\r\n")?;
    Ok(is_same && finds_keys(feed)? && ends_in_a_quit(feed))
}

#[test]
fn a_retrieval_in_turns(rt: HostRuntime) -> Result<(), AllocError> {
    let is_right = retrieves_in_turns(&mut Feed::new(rt.alloc(), GREATEST))?;
    holds(&rt, is_right);
    Ok(())
}

/// A stream of five units.
const STREAM: &[u8] = b" set a 0 0 3 \r\na\nc\r\nversion\nfoo\r\nset a 0 0 1\r\nabcquit\r\n";

/// The last byte of each unit.
static LASTS: [usize; 5] = [19, 27, 32, 48, 54];

/// Pushes a byte. Returns whether it ends a unit exactly if it should; a unit that ends is skipped.
fn takes_a_byte(feed: &mut Feed, byte: u8, is_last: bool) -> Result<bool, AllocError> {
    let is_same = push_at_last(feed, &[byte])?;
    Ok(pass_unit(feed).is_some() == is_last && is_same)
}

fn takes_bytes(feed: &mut Feed) -> Result<bool, AllocError> {
    for (place, byte) in STREAM.iter().enumerate() {
        if !takes_a_byte(feed, *byte, LASTS.contains(&place))? {
            return Ok(false);
        }
    }
    Ok(feed.held() == 0)
}

#[test]
fn a_stream_in_pieces_of_one_byte(rt: HostRuntime) -> Result<(), AllocError> {
    let is_right = takes_bytes(&mut Feed::new(rt.alloc(), GREATEST))?;
    holds(&rt, is_right);
    Ok(())
}
