//! Outputs that lend parts of memory in place of a copy, and a session with one.

ghost use Rattle.std.specs.Prelude.{◌≡◌, IfOk};

use crate::checks::{holds, is_none};
use crate::delivering::{Delivering, Delivers};
use mc_bytes::{Append, Large, Lent, Lents};
use mc_protocol::{Answer, Bytes, KeyStep, Reply, StepFault};
use mc_session::{LentOutput, Outgoing, SessionOf, Turn, TurnFault};
use mc_time::Moment;
use std::alloc::{AllocError, Global};
use std::process::Abort;
use std::sync::Arc;
use std::test::Fail;

/// A text of these bytes.
#[derive(Drop)]
struct Line<'a> {
    bytes: &'a [u8],
}

impl<'a> Append for Line<'a> {
    ghost can_append = { λ _. Unit {0} };

    ghost bytes = { λ line. line.bytes.now };

    fn append_to(&self, buffer: &mut Vec<u8>) -> Result<(), AllocError> {
        buffer.extend_from_slice(self.bytes)
    }
}

/// Returns a text of these bytes.
fn text_of(bytes: &[u8]) -> Line<'_> {
    Line { bytes }
}

/// Returns a copy of bytes in shared memory.
fn shared(alloc: Global, bytes: &[u8]) -> Result<Lent, AllocError>
    ensures { IfOk result (λ lent. lent ≡ bytes.now) }
{
    let mut memory = Large::new(Vec::new(alloc));
    memory.bytes.extend_from_slice(bytes)?;
    match Arc::new(alloc, memory) {
        Ok(memory) => Ok(Lent::of(memory, 0, bytes.len())),
        Err(_) => Err(AllocError),
    }
}

/// Returns the parts `abcd` and `efgh`.
fn two_parts(alloc: Global) -> Result<Lents, AllocError> {
    let mut parts = Lents::of(alloc, shared(alloc, b"abcd")?);
    parts.push(shared(alloc, b"efgh")?)?;
    Ok(parts)
}

/// Appends a text, two parts that are lent, and a text.
fn append_once(alloc: Global, out: &mut LentOutput) -> Result<(), AllocError> {
    let parts = two_parts(alloc)?;
    out.append_lent(&text_of(b"b "), parts, &text_of(b" c"))
}

/// The same, once more if memory is refused. Returns whether that left the output as it was.
fn append_parts(alloc: Global, out: &mut LentOutput) -> Result<bool, AllocError> {
    let before = out.len();
    if append_once(alloc, out).is_ok() {
        return Ok(true);
    }
    let is_same = out.len() == before;
    append_once(alloc, out)?;
    Ok(is_same)
}

/// Returns whether an output lends this piece, which is dropped.
fn has_piece(out: &mut LentOutput, piece: &[u8]) -> bool {
    if out.front() != piece || piece.len() > out.len() {
        return false;
    }
    out.consume(piece.len());
    true
}

/// Returns how many bytes are in pieces.
fn length_of(pieces: &[&[u8]]) -> usize {
    let mut length = 0usize;
    for piece in pieces {
        length = length.saturating_add(piece.len());
    }
    length
}

/// Returns whether an output lends exactly these pieces, which are dropped.
fn has_pieces(out: &mut LentOutput, pieces: &[&[u8]]) -> bool {
    if out.len() != length_of(pieces) {
        return false;
    }
    for piece in pieces {
        if !has_piece(out, piece) {
            return false;
        }
    }
    out.front().is_empty()
}

/// What happens to an output.
#[derive(Clone, Copy)]
enum Event {
    /// A text is appended.
    Text(&'static [u8]),
    /// A text, two parts that are lent and a text are appended: `b `, `abcd`, `efgh` and ` c`.
    Parts,
    /// This number of bytes is held in memory of its own, and is reserved.
    Holds(usize),
    /// So many bytes are lent.
    Lent(usize),
    /// The first so many bytes are written.
    Writes(usize),
    /// Exactly these pieces are lent and written.
    Lends(&'static [&'static [u8]]),
}

/// Lets an event happen, and returns whether it happened so.
fn happens(alloc: Global, out: &mut LentOutput, event: Event) -> Result<bool, AllocError> {
    match event {
        Event::Text(bytes) => {
            out.append(&text_of(bytes))?;
            Ok(true)
        }
        Event::Parts => append_parts(alloc, out),
        Event::Holds(len) => Ok(
            out.len() == len && out.capacity() >= len - len.min(out.lent_len()),
        ),
        Event::Lent(len) => Ok(out.lent_len() == len),
        Event::Writes(len) => {
            out.consume(len.min(out.len()));
            Ok(true)
        }
        Event::Lends(pieces) => Ok(has_pieces(out, pieces)),
    }
}

/// Returns the place of the first event that doesn't happen so.
fn first_wrong_in(
    alloc: Global,
    out: &mut LentOutput,
    events: &[Event],
) -> Result<Option<usize>, AllocError> {
    for (at, event) in events.iter().enumerate() {
        if !happens(alloc, out, *event)? {
            return Ok(Some(at));
        }
    }
    Ok(None)
}

/// The same for a new output.
fn first_wrong(alloc: Global, events: &[Event]) -> Result<Option<usize>, AllocError> {
    let mut out = LentOutput::new(alloc, None);
    first_wrong_in(alloc, &mut out, events)
}

/// Checks what happens to a new output. It is tried twice if memory is refused.
fn goes(rt: &impl Abort, alloc: Global, events: &[Event]) -> Result<(), AllocError> {
    let wrong = match first_wrong(alloc, events) {
        Ok(wrong) => wrong,
        Err(_) => first_wrong(alloc, events)?,
    };
    is_none(rt, wrong);
    Ok(())
}

static BETWEEN_TEXTS: [Event; 10] = [
    Event::Text(b"a "),
    Event::Lent(0),
    Event::Parts,
    Event::Text(b" d"),
    Event::Holds(16),
    Event::Lent(8),
    Event::Writes(5),
    Event::Lent(7),
    Event::Lends(&[b"bcd", b"efgh", b" c d"]),
    Event::Lent(0),
];

#[test]
fn parts_are_lent_between_texts(rt: HostRuntime) -> Result<(), Fail> {
    Ok(goes(&rt, rt.alloc(), &BETWEEN_TEXTS)?)
}

/// Further parts are copied while others are lent, and lent once these are written.
static BEHIND_OTHERS: [Event; 5] = [
    Event::Parts,
    Event::Parts,
    Event::Lends(&[b"b ", b"abcd", b"efgh", b" cb abcdefgh c"]),
    Event::Parts,
    Event::Lends(&[b"b ", b"abcd", b"efgh", b" c"]),
];

#[test]
fn parts_behind_lent_ones_are_copied(rt: HostRuntime) -> Result<(), Fail> {
    Ok(goes(&rt, rt.alloc(), &BEHIND_OTHERS)?)
}

/// One block for all keys, which is delivered in two parts of shared memory.
#[derive(Drop)]
struct Sharing {
    front: Lent,
    back: Lent,
}

/// Returns a store of the parts `abcd` and `efgh`.
fn shared_store(alloc: Global) -> Result<Delivering<Sharing>, AllocError> {
    Ok(Delivering {
        by: Sharing {
            front: shared(alloc, b"abcd")?,
            back: shared(alloc, b"efgh")?,
        },
    })
}

impl Delivers for Sharing {
    fn take(
        &mut self,
        _alloc: Global,
        _step: &KeyStep<'_>,
        _now: Moment,
    ) -> Result<Reply, StepFault> {
        Ok(Reply::Miss)
    }

    fn deliver<A: Answer>(&self, _reply: &Reply, answer: &mut A) -> Result<(), AllocError> {
        let parts = [
            Bytes::of_lent(&self.front),
            Bytes::of(b"".as_slice()),
            Bytes::of_lent(&self.back),
        ];
        answer.hit(5, 7, &parts)
    }
}

/// Returns whether a session lends this piece, which is dropped.
fn writes_piece(session: &mut SessionOf<LentOutput>, piece: &[u8]) -> bool {
    if session.front() != piece || piece.len() > session.out_len() {
        return false;
    }
    session.sent(piece.len());
    true
}

/// Returns whether a session lends exactly these pieces, which are dropped.
fn writes_pieces(session: &mut SessionOf<LentOutput>, pieces: &[&[u8]]) -> bool {
    if session.out_len() != length_of(pieces) {
        return false;
    }
    for piece in pieces {
        if !writes_piece(session, piece) {
            return false;
        }
    }
    session.is_empty()
}

/// Returns whether a session writes these bytes, in at most four pieces.
fn writes_text(session: &mut SessionOf<LentOutput>, bytes: &[u8]) -> bool {
    let mut left = bytes;
    for _ in 0..4 {
        let (piece, rest) = left.split_at(left.len().min(session.front().len()));
        if !writes_piece(session, piece) {
            return false;
        }
        left = rest;
    }
    left.is_empty() && session.is_empty()
}

/// Takes a turn of a session whose hit lies in two parts of shared memory.
///
/// A turn that is refused memory leaves no output, and is an error.
fn takes_hit(
    alloc: Global,
    session: &mut SessionOf<LentOutput>,
    store: &mut Delivering<Sharing>,
) -> Result<bool, TurnFault> {
    session.feed(b"gets k\r\n")?;
    match session.turn(alloc, store, Moment::from_seconds(1000)) {
        Ok(turn) => Ok(turn == Turn::Did),
        Err(fault) => {
            if fault.decided || !session.is_closed() || !session.is_empty() {
                return Ok(false);
            }
            Err(fault)
        }
    }
}

/// The text of a hit, round its two parts.
static HIT: [&[u8]; 4] = [b"VALUE k 5 8 7\r\n", b"abcd", b"efgh", b"\r\nEND\r\n"];

/// Returns whether a hit is written, and with `is_lent` that its two parts are lent.
///
/// They are copied if there is no memory to lend them.
fn writes_hit(session: &mut SessionOf<LentOutput>, is_lent: bool) -> bool {
    if is_lent {
        writes_pieces(session, &HIT)
    } else {
        writes_text(session, b"VALUE k 5 8 7\r\nabcdefgh\r\nEND\r\n")
    }
}

/// Returns whether a session takes a hit and writes it.
fn takes_and_writes(
    alloc: Global,
    session: &mut SessionOf<LentOutput>,
    store: &mut Delivering<Sharing>,
    is_lent: bool,
) -> Result<bool, TurnFault> {
    let is_taken = takes_hit(alloc, session, store)?;
    Ok(is_taken && writes_hit(session, is_lent))
}

/// The same for a new session.
fn a_session_writes(
    alloc: Global,
    store: &mut Delivering<Sharing>,
    is_lent: bool,
) -> Result<bool, TurnFault> {
    let mut session = SessionOf::new(alloc, 100);
    takes_and_writes(alloc, &mut session, store, is_lent)
}

/// The same for a new store.
fn a_store_is_read(alloc: Global, is_lent: bool) -> Result<bool, TurnFault> {
    let mut store = shared_store(alloc)?;
    a_session_writes(alloc, &mut store, is_lent)
}

#[test]
fn a_hit_in_shared_memory_is_lent(rt: HostRuntime) -> Result<(), Fail> {
    holds(&rt, a_store_is_read(rt.alloc(), true)?);
    Ok(())
}

#[test]
fn a_hit_in_shared_memory_is_written(rt: HostRuntime) -> Result<(), Fail> {
    let is_written = match a_store_is_read(rt.alloc(), false) {
        Ok(is_written) => is_written,
        Err(_) => a_store_is_read(rt.alloc(), false)?,
    };
    holds(&rt, is_written);
    Ok(())
}

/// Returns what an output with a part of 4 bytes keeps of memory that has left: while it stands,
/// after it left while somebody else has it, too, and when the output has it alone.
fn shares_kept(alloc: Global, out: &mut LentOutput) -> Result<[usize; 3], AllocError> {
    let mut large = Large::new(Vec::new(alloc));
    large.bytes.extend_from_slice(b"abcd")?;
    let Ok(memory) = Arc::new(alloc, large) else {
        return Err(AllocError);
    };
    let part = Lent::of(Arc::try_clone(&memory)?, 0, 4);
    out.append_lent(&text_of(b"b "), Lents::of(alloc, part), &text_of(b" c"))?;
    let stands = out.left_bytes();
    memory.leave();
    let shared = out.left_bytes();
    drop(memory);
    Ok([stands, shared, out.left_bytes()])
}

/// The same for a new output.
fn shares(alloc: Global) -> Result<[usize; 3], AllocError> {
    let mut out = LentOutput::new(alloc, None);
    shares_kept(alloc, &mut out)
}

#[test]
fn what_has_left_is_shared_by_those_who_keep_it(rt: HostRuntime) -> Result<(), Fail> {
    holds(&rt, shares(rt.alloc())? == [0, 2, 4]);
    Ok(())
}

/// Returns how many bytes an output of a part of 100000 bytes has reserved.
fn reserved_beside(alloc: Global) -> Result<usize, AllocError> {
    let mut out = LentOutput::new(alloc, None);
    let part = shared(alloc, &[b'x'; 100_000])?;
    out.append_lent(&text_of(b"b "), Lents::of(alloc, part), &text_of(b" c"))?;
    Ok(out.capacity())
}

#[test]
fn what_is_lent_is_not_reserved(rt: HostRuntime) -> Result<(), Fail> {
    holds(&rt, reserved_beside(rt.alloc())? < 100);
    Ok(())
}
