//! Guests that want much memory, within a budget and over it.
//!
//! The tests see what a budget counts by the guests that wait.

use crate::counting::Counting;
use crate::halls::{Arrivals, HallOf, store_with};
use crate::lines::{
    BEGUN, OF_16384, OF_16385, OF_131073, OF_400000, OF_400001, OF_600000, OF_1000000, OF_1200000,
    OF_9000000,
};
use mc_guests::{Got, Link, LinkFault, Outcome, Tally, Took};
use mc_protocol::KeyStep;
use std::alloc::{AllocError, Global};
use std::cell::Cell;
use std::process::Abort;
use std::test::*;

/// The bytes that arrive of a block of 16384 bytes.
const BEGUN_LITTLE: usize = 10_000;

/// A link that gives its input as fast as it is read, and takes all output.
///
/// When it is over it gives its end. Contracts don't see its bytes.
#[derive(Drop)]
struct Quick<'a> {
    arrivals: Arrivals<'a>,
    is_over: &'a Cell<bool>,
    is_ended: bool,
    was_read: bool,
    requested: usize,
}

impl<'a> Quick<'a> {
    /// Returns a link with this line. After one that announces a block, its first bytes arrive.
    fn new(line: &'a [u8], is_over: &'a Cell<bool>) -> Quick<'a> {
        Quick::giving(line, begun_of(line), is_over)
    }

    /// Returns a link with this line and `more` bytes behind it.
    fn giving(line: &'a [u8], more: usize, is_over: &'a Cell<bool>) -> Quick<'a> {
        Quick {
            arrivals: Arrivals { input: line, more },
            is_over,
            is_ended: false,
            was_read: false,
            requested: 0,
        }
    }
}

impl<'a> Link for Quick<'a> {
    ghost use Rattle.std.specs.Prelude.{None};

    ghost shown = { λ s. record { given = None; taken = None; faults = 0; is_ended = s.is_ended; was_read = s.was_read; requested = s.requested } };

    fn try_read(&mut self, piece: &mut [u8]) -> Result<Got, LinkFault> {
        self.was_read = true;
        self.requested = piece.len();
        let count = self.arrivals.give(piece);
        if count > 0 {
            return Ok(Got::Bytes(count));
        }
        if self.is_over.get() {
            self.is_ended = true;
            return Ok(Got::End);
        }
        Ok(Got::Later)
    }

    fn try_write(&mut self, bytes: &[u8]) -> Result<Took, LinkFault> {
        self.was_read = false;
        self.requested = bytes.len();
        Ok(Took::Bytes(bytes.len()))
    }

    fn faults(&self) -> u64 {
        0
    }
}

/// Guests with quick links, and their store.
type Hall<'a> = HallOf<Quick<'a>>;

/// Returns how many bytes arrive after a line: none if it announces no block.
fn begun_of(line: &[u8]) -> usize {
    if !line.starts_with(b"set") {
        0
    } else if line.len() > OF_16384.len() {
        BEGUN
    } else {
        BEGUN_LITTLE
    }
}

/// Ends the guest whose link has this number, and returns how many guests wait.
fn let_go(alloc: Global, hall: &mut Hall<'_>, number: u64, is_over: &Cell<bool>) -> usize {
    is_over.set(true);
    hall.let_go(alloc, number)
}

/// What is counted in a hall.
#[derive(Clone, Copy)]
enum Case<'a> {
    /// Guests come that announce these lines, and then one that wants this.
    Comes(&'static [&'static [u8]], &'static [u8]),
    /// A guest gets a key and one wants much, beside two that hold the whole budget. With `true`
    /// these have left.
    Asks(bool),
    /// A guest with this input comes beside one that holds more than the budget, which then leaves.
    Waits(&'a [u8]),
    /// Two guests that want 600000 and 400000 bytes come beside one that got `a` and is idle. With
    /// `true` that has left.
    Idle(bool),
    /// So many guests announce 9000000 bytes and send none of them, and a further one sends some of
    /// 400000.
    Lines(u64),
    /// What guests hold is reported.
    Reports,
    /// A guest has an input and so many bytes of its line behind it, and what it holds is reported.
    WaitState(&'a [u8], usize),
    /// A guest has this input.
    TooLarge(&'a [u8]),
}

/// A count that a case names, and how many guests wait at last.
type Counted = (u64, usize);

/// The length of the store's item `a`, the budget, and what is counted.
type Row = (usize, usize, Case<'static>, Counted);

/// Returns what a case counts in a hall without guests.
fn counted_in<'a>(
    alloc: Global,
    hall: &mut Hall<'a>,
    case: Case<'a>,
    is_over: &'a Cell<bool>,
    goes_on: &'a Cell<bool>,
) -> Result<Counted, AllocError> {
    match case {
        Case::Comes(others, wanted) => let_all_in(alloc, hall, others, wanted, goes_on),
        Case::Asks(have_left) => asked_beside_two(alloc, hall, have_left, is_over, goes_on),
        Case::Waits(input) => waits_in(alloc, hall, input, is_over, goes_on),
        Case::Idle(has_left) => waits_beside(alloc, hall, has_left, is_over, goes_on),
        Case::Lines(lines) => let_lines_in(alloc, hall, lines, goes_on),
        Case::Reports => right_reports(alloc, hall, is_over),
        Case::WaitState(input, more) => held_of_line(alloc, hall, input, more, goes_on),
        Case::TooLarge(input) => too_large_in(alloc, hall, input, goes_on),
    }
}

/// The same in a new hall over a store.
fn counted_over(
    alloc: Global,
    store: Counting,
    share: usize,
    case: Case<'_>,
) -> Result<Counted, AllocError> {
    let goes_on = Cell::new(false);
    let is_over = Cell::new(false);
    let mut hall = HallOf::new(alloc, store, share);
    counted_in(alloc, &mut hall, case, &is_over, &goes_on)
}

/// The same over a new store, which has an item `a` of this length, or none if that is 0.
fn counted(alloc: Global, length: usize, share: usize, case: Case<'_>) -> Result<Counted, Fail> {
    let store = store_with(alloc, length)?;
    Ok(counted_over(alloc, store, share, case)?)
}

/// Checks what is counted in a new hall.
fn counts(rt: &impl Abort, alloc: Global, row: Row) -> Result<(), Fail> {
    let (length, share, case, wanted) = row;
    assert!(rt; counted(alloc, length, share, case)? == wanted);
    Ok(())
}

/// The same for each row.
fn all_count(rt: &impl Abort, alloc: Global, rows: &[Row]) -> Result<(), Fail> {
    for row in rows {
        counts(rt, alloc, *row)?;
    }
    Ok(())
}

/// Admits guests that announce these lines, and then one that wants this.
fn let_all_in<'a>(
    alloc: Global,
    hall: &mut Hall<'a>,
    others: &[&'a [u8]],
    wanted: &'a [u8],
    goes_on: &'a Cell<bool>,
) -> Result<Counted, AllocError> {
    for (number, line) in others.iter().enumerate() {
        hall.let_in(alloc, number as u64, Quick::new(line, goes_on))?;
    }
    let waiting = hall.let_in(alloc, u64::MAX, Quick::new(wanted, goes_on))?;
    Ok((0, waiting))
}

/// Returns the steps of the store for one key, and the waiting guests.
///
/// Two guests hold the whole budget, or have left, and a further guest wants much. `is_over` is of
/// the two guests.
fn asked_beside_two<'a>(
    alloc: Global,
    hall: &mut Hall<'a>,
    have_left: bool,
    is_over: &'a Cell<bool>,
    goes_on: &'a Cell<bool>,
) -> Result<Counted, AllocError> {
    let_two_in(alloc, hall, is_over)?;
    if have_left {
        let_go(alloc, hall, 1, is_over);
        let_go(alloc, hall, 2, is_over);
    }
    asked_in(alloc, hall, goes_on)
}

/// Admits two guests that want 600000 and 400000 bytes, and returns how many wait.
fn let_two_in<'a>(
    alloc: Global,
    hall: &mut Hall<'a>,
    is_over: &'a Cell<bool>,
) -> Result<usize, AllocError> {
    hall.let_in(alloc, 1, Quick::new(OF_600000, is_over))?;
    hall.let_in(alloc, 2, Quick::new(OF_400000, is_over))
}

/// Admits a guest that gets a key and one that wants much; returns the steps and the waiting
/// guests.
fn asked_in<'a>(
    alloc: Global,
    hall: &mut Hall<'a>,
    goes_on: &'a Cell<bool>,
) -> Result<Counted, AllocError> {
    hall.let_in(alloc, 3, Quick::new(GET, goes_on))?;
    let waiting = hall.let_in(alloc, 4, Quick::new(OF_9000000, goes_on))?;
    Ok((hall.store.asked, waiting))
}

/// Returns how many guests wait beside one that holds more than the budget, and once it has left.
///
/// The waiting guest has this input, and `is_over` is of the other.
fn waits_in<'a>(
    alloc: Global,
    hall: &mut Hall<'a>,
    input: &'a [u8],
    is_over: &'a Cell<bool>,
    goes_on: &'a Cell<bool>,
) -> Result<Counted, AllocError> {
    hall.let_in(alloc, 0, Quick::new(OF_1200000, is_over))?;
    let before = hall.let_in(alloc, 1, Quick::new(input, goes_on))?;
    let after = let_go(alloc, hall, 0, is_over);
    Ok((before as u64, after))
}

/// Returns how many guests wait beside one that got a block and is idle, or has left.
///
/// `is_over` is of that.
fn waits_beside<'a>(
    alloc: Global,
    hall: &mut Hall<'a>,
    has_left: bool,
    is_over: &'a Cell<bool>,
    goes_on: &'a Cell<bool>,
) -> Result<Counted, AllocError> {
    hall.let_in(alloc, 0, Quick::new(GET, is_over))?;
    if has_left {
        let_go(alloc, hall, 0, is_over);
    }
    let waiting = let_two_in(alloc, hall, goes_on)?;
    Ok((0, waiting))
}

/// Admits guests that announce 9000000 bytes and send none, and one that sends some of 400000.
fn let_lines_in<'a>(
    alloc: Global,
    hall: &mut Hall<'a>,
    lines: u64,
    goes_on: &'a Cell<bool>,
) -> Result<Counted, AllocError> {
    for number in 0..lines {
        hall.admit(alloc, number, Quick::giving(OF_9000000, 0, goes_on))?;
    }
    let waiting = hall.let_in(alloc, u64::MAX, Quick::new(OF_400000, goes_on))?;
    Ok((0, waiting))
}

/// Returns how many requests of this input are reported as too large.
fn too_large_in<'a>(
    alloc: Global,
    hall: &mut Hall<'a>,
    input: &'a [u8],
    goes_on: &'a Cell<bool>,
) -> Result<Counted, AllocError> {
    let waiting = hall.let_in(alloc, 0, Quick::new(input, goes_on))?;
    Ok((hall.store.too_large.get(), waiting))
}

const GET: &[u8] = b"get a\r\n";

/// There is room up to `LITTLE`, and always for the only guest that wants more. If little is left,
/// the length of a block is checked before a get delivers it.
static ROOMS: [Row; 12] = [
    (0, 1_000_000, Case::Comes(&[], OF_16384), (0, 0)),
    (0, 1_000_000, Case::Comes(&[], OF_1000000), (0, 0)),
    (0, 1_000_000, Case::Comes(&[], OF_9000000), (0, 0)),
    (0, 1_000_000, Case::Comes(&[OF_600000], OF_16384), (0, 0)),
    (0, 926_272, Case::Comes(&[OF_600000], OF_400000), (0, 0)),
    (0, 926_272, Case::Comes(&[OF_600000], OF_400001), (0, 1)),
    (
        0,
        1_000_000,
        Case::Comes(&[OF_600000, OF_400000], OF_16384),
        (0, 0),
    ),
    (
        0,
        926_272,
        Case::Comes(&[OF_600000, OF_400000], OF_131073),
        (0, 1),
    ),
    (0, 1_000_000, Case::Comes(&[OF_1200000], OF_16384), (0, 0)),
    (0, 1_000_000, Case::Comes(&[OF_1200000], OF_16385), (0, 1)),
    (0, 1_000_000, Case::Asks(false), (2, 1)),
    (0, 1_000_000, Case::Asks(true), (1, 0)),
];

#[test]
fn there_is_room_for_a_little_and_for_one_alone(rt: HostRuntime) -> Result<(), Fail> {
    all_count(&rt, rt.alloc(), &ROOMS)
}

static WAITING: [Row; 3] = [
    (1, 1_048_576, Case::Waits(b"set b 0 0 200000\r\nx"), (1, 0)),
    (200_000, 1_048_576, Case::Waits(GET), (1, 0)),
    (16_385, 1_048_576, Case::Waits(GET), (1, 0)),
];

#[test]
fn who_wants_more_than_a_little_waits(rt: HostRuntime) -> Result<(), Fail> {
    all_count(&rt, rt.alloc(), &WAITING)
}

static GOING_ON: [Row; 2] = [
    (1, 1_048_576, Case::Waits(b"set b 0 0 12000\r\n"), (0, 0)),
    (16_384, 1_048_576, Case::Waits(GET), (0, 0)),
];

#[test]
fn who_wants_a_little_goes_on(rt: HostRuntime) -> Result<(), Fail> {
    all_count(&rt, rt.alloc(), &GOING_ON)
}

/// It is counted for none, also when it has left.
static IDLE: [(usize, bool, usize); 3] = [
    (926_272, false, 0),
    (926_271, false, 1),
    (926_272, true, 0),
];

#[test]
fn an_idle_guest_counts_for_nothing(rt: HostRuntime) -> Result<(), Fail> {
    for length in [1, 60_000, 120_000, 1_000_000] {
        for (share, has_left, waiting) in &IDLE {
            let row = (length, *share, Case::Idle(*has_left), (0, *waiting));
            counts(&rt, rt.alloc(), row)?;
        }
    }
    Ok(())
}

#[test]
fn lines_alone_keep_nobody_waiting(rt: HostRuntime) -> Result<(), Fail> {
    counts(&rt, rt.alloc(), (0, 1_000_000, Case::Lines(100), (0, 0)))
}

/// A tally that keeps the last report of what guests hold, and the number of these reports.
#[derive(Drop)]
struct Holdings {
    last: Cell<(usize, usize)>,
    reports: Cell<u64>,
}

impl Tally for Holdings {
    fn took(&self, _step: &KeyStep<'_>, _outcome: Outcome) {}

    fn holds(&self, held: usize, waiting: usize) {
        self.last.set((held, waiting));
        self.reports.set(self.reports.get().saturating_add(1));
    }
}

impl Holdings {
    /// Reports twice, and returns the last report and the number of reports.
    fn of(&self, hall: &mut Hall<'_>) -> ((usize, usize), u64) {
        hall.guests.report(self);
        hall.guests.report(self);
        (self.last.get(), self.reports.get())
    }
}

/// Returns how often it is reported what guests hold, or 0 if a report is wrong.
///
/// They come to a hall without any, and leave it.
fn right_reports<'a>(
    alloc: Global,
    hall: &mut Hall<'a>,
    is_over: &'a Cell<bool>,
) -> Result<Counted, AllocError> {
    let holdings = Holdings {
        last: Cell::new((0, 0)),
        reports: Cell::new(0),
    };
    let come = come_and_are_reported(alloc, hall, &holdings, is_over)?;
    let leave = leave_and_are_reported(alloc, hall, &holdings, is_over);
    let reports = if come && leave {
        holdings.reports.get()
    } else {
        0
    };
    Ok((reports, hall.guests.waiting_guests()))
}

/// Admits a guest that holds 600000 bytes and one that waits, and returns whether that is reported.
fn come_and_are_reported<'a>(
    alloc: Global,
    hall: &mut Hall<'a>,
    holdings: &Holdings,
    is_over: &'a Cell<bool>,
) -> Result<bool, AllocError> {
    let is_silent = holdings.of(hall) == ((0, 0), 0);
    hall.let_in(alloc, 0, Quick::new(OF_600000, is_over))?;
    let is_told = holdings.of(hall) == ((526_272, 0), 1);
    hall.let_in(alloc, 1, Quick::new(OF_400001, is_over))?;
    let ((held, waiting), reports) = holdings.of(hall);
    Ok(is_silent && is_told && held >= 526_272 && waiting == 1 && reports == 2)
}

/// Ends both, and returns whether that is reported.
fn leave_and_are_reported(
    alloc: Global,
    hall: &mut Hall<'_>,
    holdings: &Holdings,
    is_over: &Cell<bool>,
) -> bool {
    let_go(alloc, hall, 0, is_over);
    let_go(alloc, hall, 1, is_over);
    holdings.of(hall) == ((0, 0), 3)
}

/// A guest holds 526272 bytes of 926272 beyond its own, one waits that wants 400001, and then both
/// have left.
#[test]
fn what_guests_hold_is_reported_once(rt: HostRuntime) -> Result<(), Fail> {
    counts(&rt, rt.alloc(), (0, 926_272, Case::Reports, (3, 0)))
}

/// Returns the bytes that are counted of a guest with this input and so many bytes behind it.
fn held_of_line<'a>(
    alloc: Global,
    hall: &mut Hall<'a>,
    input: &'a [u8],
    more: usize,
    goes_on: &'a Cell<bool>,
) -> Result<Counted, AllocError> {
    let holdings = Holdings {
        last: Cell::new((0, 0)),
        reports: Cell::new(0),
    };
    let waiting = hall.let_in(alloc, 0, Quick::giving(input, more, goes_on))?;
    let ((held, _), _) = holdings.of(hall);
    Ok((held as u64, waiting))
}

/// A line that doesn't end is held within a guest's own bytes: alone, behind a request, and up to
/// the longest.
static LINES: [Row; 5] = [
    (1, 1_000_000, Case::WaitState(b"get a ", 40_000), (0, 0)),
    (1, 1_000_000, Case::WaitState(b"get a ", 60_000), (0, 0)),
    (1, 1_000_000, Case::WaitState(b"get a ", 65_530), (0, 0)),
    (
        1,
        1_000_000,
        Case::WaitState(b"get b\r\nget a ", 60_000),
        (0, 0),
    ),
    (
        1,
        1_000_000,
        Case::WaitState(b"get b\r\nget a ", 65_530),
        (0, 0),
    ),
];

#[test]
fn a_line_is_held_within_a_guests_own_bytes(rt: HostRuntime) -> Result<(), Fail> {
    all_count(&rt, rt.alloc(), &LINES)
}

/// Returns a line that appends 60000 bytes to `a`, and these.
fn join_of_60000(alloc: Global) -> Result<Vec<u8>, AllocError> {
    let mut joined = vec![in alloc; b'x'; 60_022]?;
    joined[..20].copy_from_slice(b"append a 0 0 60000\r\n");
    joined[60_020..].copy_from_slice(b"\r\n");
    Ok(joined)
}

/// Returns how many requests are reported as too large if `a` would have 1060000 bytes.
fn too_large_in_join(alloc: Global) -> Result<Counted, Fail> {
    let joined = join_of_60000(alloc)?;
    counted(
        alloc,
        1_000_000,
        16_777_216,
        Case::TooLarge(joined.as_slice()),
    )
}

static LARGE: [Row; 2] = [
    (
        1_000_000,
        16_777_216,
        Case::TooLarge(b"set b 0 0 16777216\r\n"),
        (1, 0),
    ),
    (
        1_000_000,
        16_777_216,
        Case::TooLarge(b"get a b\r\nset b 0 0 1\r\nx\r\nfoo\r\n"),
        (0, 0),
    ),
];

/// The store's greatest charge is 1048576 bytes.
#[test]
fn requests_that_are_too_large_are_reported(rt: HostRuntime) -> Result<(), Fail> {
    assert!(rt; too_large_in_join(rt.alloc())? == (1, 0));
    all_count(&rt, rt.alloc(), &LARGE)
}
