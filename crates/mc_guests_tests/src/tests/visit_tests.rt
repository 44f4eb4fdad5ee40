//! Visits of one guest: each answer, and what it did.

ghost use Rattle.std.specs.Prelude.{◌≤◌, length};

use crate::counting::Counting;
use mc_guests::{Got, Guest, Link, LinkFault, Took, Visit};
use mc_testing::{Call, Calls};
use mc_time::Moment;
use std::alloc::{AllocError, Global};
use std::cell::Cell;
use std::sync::atomic::{AtomicU64, Ordering};
use std::test::*;

/// A link that passes one byte a call, with an empty call after each, and may fail at one call.
///
/// Contracts don't see its bytes, but it counts how many of those that it took were as expected at
/// their places, and how many not.
#[derive(Drop)]
struct Slow<'a> {
    input: &'a [u8],
    /// The expected output.
    expected: &'a [u8],
    /// How many bytes were right and how many wrong.
    seen: &'a Cell<(usize, usize)>,
    /// How many times memory was refused to its guest.
    refusals: &'a Cell<u64>,
    calls: Calls,
    is_ended: bool,
    was_read: bool,
    requested: usize,
}

impl<'a> Slow<'a> {
    /// Counts a byte that it took as right or wrong.
    fn count(&self, byte: u8) {
        let (right, wrong) = self.seen.get();
        let at = right.saturating_add(wrong);
        let counted = if self.expected.get(at) == Some(&byte) {
            (right.saturating_add(1), wrong)
        } else {
            (right, wrong.saturating_add(1))
        };
        self.seen.set(counted);
    }
}

impl<'a> Link for Slow<'a> {
    ghost use Rattle.std.specs.Prelude.{None};

    ghost shown = { λ s. record { given = None; taken = None; faults = s.calls; is_ended = s.is_ended; was_read = s.was_read; requested = s.requested } };

    fn try_read(&mut self, piece: &mut [u8]) -> Result<Got, LinkFault> {
        self.was_read = true;
        self.requested = piece.len();
        match self.calls.next() {
            Call::Fails => Err(LinkFault),
            Call::GivesNone => Ok(Got::Later),
            Call::IsEmpty => Ok(Got::Bytes(0)),
            Call::GoesOn => {
                if self.input.is_empty() {
                    self.is_ended = true;
                    return Ok(Got::End);
                }
                let (count, rest) = give_one(self.input, piece);
                self.input = rest;
                Ok(Got::Bytes(count))
            }
        }
    }

    fn try_write(&mut self, bytes: &[u8]) -> Result<Took, LinkFault> {
        self.was_read = false;
        self.requested = bytes.len();
        match self.calls.next() {
            Call::Fails => Err(LinkFault),
            Call::GivesNone => Ok(Took::Later),
            Call::IsEmpty => Ok(Took::Bytes(0)),
            Call::GoesOn => {
                if bytes.is_empty() {
                    return Ok(Took::Later);
                }
                self.count(bytes[0]);
                Ok(Took::Bytes(1))
            }
        }
    }

    fn refused(&mut self) {
        self.refusals.set(self.refusals.get().saturating_add(1));
    }

    fn faults(&self) -> u64 {
        self.calls.faults()
    }
}

/// Gives the first byte of an input if there is one and room for it. Returns their number and the
/// rest.
fn give_one<'a>(input: &'a [u8], piece: &mut [u8]) -> (usize, &'a [u8])
    ensures { result.0 ≤ length piece.new }
{
    let count = piece.len().min(input.len()).min(1);
    let (front, rest) = input.split_at(count);
    let (room, _) = piece.split_at_mut(count);
    room.copy_from_slice(front);
    (count, rest)
}

/// A link in memory, and the answers of its guest's visits: a letter each.
#[derive(Clone, Copy, Drop)]
struct Course {
    input: &'static str,
    output: &'static str,
    /// The call of the link that fails; at 0 none does.
    fails_at: u64,
    is_refused: bool,
    /// The number of steps of the store.
    steps: u64,
    answers: &'static str,
}

/// Returns the letter of an answer.
fn letter_of(visit: Visit) -> u8 {
    match visit {
        Visit::Wrote => b'W',
        Visit::Turned => b'T',
        Visit::Read => b'R',
        Visit::Later => b'L',
        Visit::Served => b'S',
        Visit::Broken => b'B',
        Visit::Refused => b'F',
    }
}

/// Every other call of a link is empty: it answers `Later`. A read or a write passes one byte.
///
/// A guest that has ended is visited twice more.
static COURSES: [Course; 6] = [
    Course {
        input: "get a\r\n",
        output: "END\r\n",
        fails_at: 0,
        is_refused: false,
        steps: 1,
        answers: "RLRLRLRLRLRLRTLWLWLWLWLWLSSS",
    },
    // A get of two keys is two turns; the first has no text.
    Course {
        input: "get a b\n",
        output: "END\r\n",
        fails_at: 0,
        is_refused: false,
        steps: 2,
        answers: "RLRLRLRLRLRLRLRTTLWLWLWLWLWLSSS",
    },
    // What follows a quit isn't read.
    Course {
        input: "quit\r\nquit\r\n",
        output: "",
        fails_at: 0,
        is_refused: false,
        steps: 0,
        answers: "RLRLRLRLRLRTSSS",
    },
    Course {
        input: "get a\r\n",
        output: "END\r\n",
        fails_at: 3,
        is_refused: false,
        steps: 0,
        answers: "RLBBB",
    },
    // The first write fails; the step was taken.
    Course {
        input: "get a\r\n",
        output: "END\r\n",
        fails_at: 15,
        is_refused: false,
        steps: 1,
        answers: "RLRLRLRLRLRLRTLBBB",
    },
    Course {
        input: "get a\r\n",
        output: "",
        fails_at: 0,
        is_refused: true,
        steps: 1,
        answers: "RLRLRLRLRLRLRFFF",
    },
];

/// Visits a guest once for each letter, and returns whether each answer is its letter's.
///
/// The answer must also be the guest's last answer. A write must pass one byte of output, and any
/// other answer none. The link must be told once that memory was refused, if the store refuses it.
fn goes_as(alloc: Global, store: &mut Counting, course: &Course) -> Result<bool, AllocError> {
    let seen = Cell::new((0, 0));
    let refusals = Cell::new(0);
    let link = Slow {
        input: course.input.as_bytes(),
        expected: course.output.as_bytes(),
        seen: &seen,
        refusals: &refusals,
        calls: Calls::failing_at(course.fails_at),
        is_ended: false,
        was_read: false,
        requested: 0,
    };
    let goes_so = answers_as(alloc, link, store, course, &seen)?;
    let wanted = if course.is_refused { 1 } else { 0 };
    Ok(goes_so && store.asked == course.steps && refusals.get() == wanted)
}

/// Visits a new guest whose link counts in `seen`, and returns whether each answer is its letter's.
fn answers_as(
    alloc: Global,
    link: Slow<'_>,
    store: &mut Counting,
    course: &Course,
    seen: &Cell<(usize, usize)>,
) -> Result<bool, AllocError> {
    let mut guest = Guest::new(alloc, link, 1048576)?;
    Ok(guest.last() == None && are_answers(alloc, &mut guest, store, course, seen))
}

/// Returns the same for a guest that wasn't visited.
fn are_answers(
    alloc: Global,
    guest: &mut Guest<Slow<'_>>,
    store: &mut Counting,
    course: &Course,
    seen: &Cell<(usize, usize)>,
) -> bool {
    for letter in course.answers.as_bytes() {
        if !is_answer(alloc, guest, store, *letter, seen) {
            return false;
        }
    }
    true
}

/// Visits it once, and returns whether the answer is this letter's.
fn is_answer(
    alloc: Global,
    guest: &mut Guest<Slow<'_>>,
    store: &mut Counting,
    letter: u8,
    seen: &Cell<(usize, usize)>,
) -> bool {
    let (right, _) = seen.get();
    let wrote = if letter == b'W' { 1 } else { 0 };
    let answer = guest.visit(alloc, store, Moment::from_seconds_at_most(1000));
    letter_of(answer) == letter
        && guest.last() == Some(answer)
        && seen.get() == (right.saturating_add(wrote), 0)
}

/// Returns whether a guest of a new store goes so.
fn goes_in_a_new_store(alloc: Global, course: &Course) -> Result<bool, AllocError> {
    let mut store = Counting::new(alloc, course.is_refused)?;
    goes_as(alloc, &mut store, course)
}

#[test]
fn visits_do_what_is_due(rt: HostRuntime) -> Result<(), Fail> {
    for course in &COURSES {
        assert!(rt; goes_in_a_new_store(rt.alloc(), course)?);
    }
    Ok(())
}

/// A link that gives up to `most` unspecified bytes a call, and notes the length of the last piece.
#[derive(Drop)]
struct Flood<'a> {
    most: usize,
    piece: &'a AtomicU64,
    was_read: bool,
    requested: usize,
}

impl<'a> Link for Flood<'a> {
    ghost use Rattle.std.specs.Prelude.{None, false};

    ghost shown = { λ s. record { given = None; taken = None; faults = 0; is_ended = false; was_read = s.was_read; requested = s.requested } };

    fn try_read(&mut self, piece: &mut [u8]) -> Result<Got, LinkFault> {
        self.was_read = true;
        self.requested = piece.len();
        self.piece.store(piece.len() as u64, Ordering::SeqCst);
        Ok(Got::Bytes(piece.len().min(self.most)))
    }

    fn try_write(&mut self, bytes: &[u8]) -> Result<Took, LinkFault> {
        self.was_read = false;
        self.requested = bytes.len();
        Ok(Took::Later)
    }

    fn faults(&self) -> u64 {
        0
    }
}

/// Visits a guest whose link floods it. Returns whether it is lent pieces of these lengths.
///
/// The link notes in `length`.
fn lends_pieces(
    alloc: Global,
    guest: &mut Guest<Flood<'_>>,
    store: &mut Counting,
    length: &AtomicU64,
    lengths: &[u64],
) -> bool {
    let now = Moment::from_seconds_at_most(1000);
    for wanted in lengths {
        let answer = guest.visit(alloc, store, now);
        if answer != Visit::Read || length.load(Ordering::SeqCst) != *wanted {
            return false;
        }
    }
    true
}

/// Returns the same of a new guest, whose link gives up to `most` bytes a call.
fn new_one_lends_pieces(
    alloc: Global,
    store: &mut Counting,
    most: usize,
    lengths: &[u64],
) -> Result<bool, AllocError> {
    let length = AtomicU64::new(0);
    let link = Flood {
        most,
        piece: &length,
        was_read: false,
        requested: 0,
    };
    let mut guest = Guest::new(alloc, link, 1048576)?;
    Ok(lends_pieces(alloc, &mut guest, store, &length, lengths))
}

/// Returns the same over a new store.
fn reads_pieces(alloc: Global, most: usize, lengths: &[u64]) -> Result<bool, AllocError> {
    let mut store = Counting::new(alloc, false)?;
    new_one_lends_pieces(alloc, &mut store, most, lengths)
}

/// The lengths of pieces that are lent for a line that doesn't end: together at most 65536 bytes,
/// and one piece more.
static PIECES: [(usize, &[u64]); 2] = [
    (16_384, &[2048, 16384, 16384, 16384, 14336, 2048]),
    (1000, &[2048, 1048, 48, 16384, 16384]),
];

#[test]
fn a_read_that_fills_its_piece_makes_the_next_longer(rt: HostRuntime) -> Result<(), Fail> {
    for (most, lengths) in &PIECES {
        assert!(rt; reads_pieces(rt.alloc(), *most, lengths)?);
    }
    Ok(())
}
