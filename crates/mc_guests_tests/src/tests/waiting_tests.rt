//! Guests that wait for room: what they leave behind, and how often they are visited.
//!
//! What a budget counts is seen by which further guests wait.

use crate::counting::Counting;
use crate::halls::{Arrivals, HallOf, store_with};
use crate::lines::{BEGUN, OF_131073, OF_380000, OF_600000, OF_9000000};
use mc_guests::{Got, Link, LinkFault, Took, WorkEnd};
use std::alloc::{AllocError, Global};
use std::cell::Cell;
use std::test::*;

/// The bytes that the guests of a hall may hold beyond 72 KiB each.
const SHARE: usize = 926_272;

/// The ticks for which a waiting guest is watched, and the rounds in each.
const TICKS: u64 = 20;

const ROUNDS_A_TICK: u64 = 50;

/// What is outside a link: whether its peer has left, and how often its guest called it.
#[derive(Drop)]
struct Peer {
    has_left: Cell<bool>,
    calls: Cell<u64>,
}

impl Peer {
    fn new() -> Peer {
        Peer {
            has_left: Cell::new(false),
            calls: Cell::new(0),
        }
    }

    /// Counts a call.
    fn count(&self) {
        self.calls.set(self.calls.get().saturating_add(1));
    }
}

/// What is outside three links.
#[derive(Drop)]
struct Peers {
    first: Peer,
    second: Peer,
    third: Peer,
}

impl Peers {
    fn new() -> Peers {
        Peers {
            first: Peer::new(),
            second: Peer::new(),
            third: Peer::new(),
        }
    }
}

/// A link that gives its input and then nothing once, over and over, and takes all output.
///
/// When its peer has left, a read returns the end and a pause fails. Contracts don't see its bytes.
#[derive(Drop)]
struct Wire<'a> {
    peer: &'a Peer,
    arrivals: Arrivals<'a>,
    /// Its input after it gave nothing.
    again: &'a [u8],
    faults: u64,
    is_ended: bool,
    was_read: bool,
    requested: usize,
}

impl<'a> Wire<'a> {
    /// Returns a link with this line, behind which `more` bytes arrive, and then an input again
    /// and again.
    fn new(peer: &'a Peer, line: &'a [u8], more: usize, again: &'a [u8]) -> Wire<'a> {
        Wire {
            peer,
            arrivals: Arrivals { input: line, more },
            again,
            faults: 0,
            is_ended: false,
            was_read: false,
            requested: 0,
        }
    }
}

impl<'a> Link for Wire<'a> {
    ghost use Rattle.std.specs.Prelude.{None};

    ghost shown = { λ s. record { given = None; taken = None; faults = s.faults; is_ended = s.is_ended; was_read = s.was_read; requested = s.requested } };

    fn try_read(&mut self, piece: &mut [u8]) -> Result<Got, LinkFault> {
        self.was_read = true;
        self.requested = piece.len();
        self.peer.count();
        if self.faults == u64::MAX {
            return Ok(Got::Later);
        }
        if self.peer.has_left.get() {
            self.is_ended = true;
            return Ok(Got::End);
        }
        let count = self.arrivals.give(piece);
        if count > 0 {
            return Ok(Got::Bytes(count));
        }
        self.arrivals.input = self.again;
        Ok(Got::Later)
    }

    fn try_write(&mut self, bytes: &[u8]) -> Result<Took, LinkFault> {
        self.was_read = false;
        self.requested = bytes.len();
        self.peer.count();
        if self.faults == u64::MAX {
            return Ok(Took::Later);
        }
        Ok(Took::Bytes(bytes.len()))
    }

    fn pause(&mut self) -> Result<(), LinkFault> {
        self.peer.count();
        if self.peer.has_left.get() && self.faults < u64::MAX {
            self.faults += 1;
            return Err(LinkFault);
        }
        Ok(())
    }

    fn faults(&self) -> u64 {
        self.faults
    }
}

/// Guests with these links, and their store.
type Hall<'a> = HallOf<Wire<'a>>;

/// Admits a guest whose link has this number and gives a line that announces a block.
///
/// Makes rounds, and returns how many guests wait.
fn let_in<'a>(
    alloc: Global,
    hall: &mut Hall<'a>,
    number: u64,
    line: &'a [u8],
    peer: &'a Peer,
) -> Result<usize, AllocError> {
    hall.let_in(alloc, number, Wire::new(peer, line, BEGUN, b""))
}

/// Ends the guest whose link has this number, and returns how many guests wait.
fn let_go(alloc: Global, hall: &mut Hall<'_>, number: u64, peer: &Peer) -> usize {
    peer.has_left.set(true);
    hall.let_go(alloc, number)
}

/// What is seen of guests: how many wait after each comes or leaves.
type Seen = [usize; 4];

/// Admits a guest of 600000 bytes and one that waits, which leaves; then two that fill the budget.
///
/// The guests of `stays` stay, and that of `leaves` leaves. The last one waits, as nothing is left.
fn one_leaves<'a>(
    alloc: Global,
    hall: &mut Hall<'a>,
    stays: &'a Peer,
    leaves: &'a Peer,
) -> Result<Seen, AllocError> {
    let_in(alloc, hall, 1, OF_600000, stays)?;
    Ok([
        let_in(alloc, hall, 2, OF_600000, leaves)?,
        let_go(alloc, hall, 2, leaves),
        let_in(alloc, hall, 3, OF_380000, stays)?,
        let_in(alloc, hall, 4, OF_131073, stays)?,
    ])
}

/// Ends these guests, and admits two that fill the budget and one that waits for them.
fn others_leave<'a>(
    alloc: Global,
    hall: &mut Hall<'a>,
    leaves: &Peer,
    comes: &'a Peer,
) -> Result<Seen, AllocError> {
    let_go(alloc, hall, 4, leaves);
    let_go(alloc, hall, 1, leaves);
    Ok([
        let_go(alloc, hall, 3, leaves),
        let_in(alloc, hall, 2, OF_600000, comes)?,
        let_in(alloc, hall, 5, OF_380000, comes)?,
        let_in(alloc, hall, 6, OF_131073, comes)?,
    ])
}

/// Returns how many guests ended with their links, at their end or by a fault.
fn ended_with_links(end: WorkEnd) -> u64 {
    end.served.saturating_add(end.broken)
}

/// Runs both in a hall, and returns whether the guests wait and end as they should.
fn leaves_no_trace<'a>(
    alloc: Global,
    hall: &mut Hall<'a>,
    peers: &'a Peers,
) -> Result<bool, AllocError> {
    let before = one_leaves(alloc, hall, &peers.first, &peers.second)?;
    let after = others_leave(alloc, hall, &peers.first, &peers.third)?;
    let is_seen = before == [1, 0, 0, 1] && after == [0, 0, 0, 1];
    Ok(is_seen && ended_with_links(hall.end) == 4 && hall.end.refused == 0)
}

/// Ends all guests of a hall, and returns whether one that wants 9000000 bytes goes on then.
fn goes_on_behind<'a>(
    alloc: Global,
    hall: &mut Hall<'a>,
    peers: &'a Peers,
) -> Result<bool, AllocError> {
    one_leaves(alloc, hall, &peers.first, &peers.second)?;
    for number in 1..5 {
        let_go(alloc, hall, number, &peers.first);
    }
    let waiting = let_in(alloc, hall, 5, OF_9000000, &peers.third)?;
    Ok(waiting == 0)
}

/// Admits a guest that gets `a` over and over.
fn let_getter_in<'a>(
    alloc: Global,
    hall: &mut Hall<'a>,
    number: u64,
    peer: &'a Peer,
) -> Result<(), AllocError> {
    let get = b"get a\r\n".as_slice();
    hall.admit(alloc, number, Wire::new(peer, get, 0, get))
}

/// Makes the rounds of a tick, before each of which the guest of this number is named.
fn go_for_a_tick(alloc: Global, hall: &mut Hall<'_>, number: u64) {
    for _round in 0..ROUNDS_A_TICK {
        hall.guests.wake(number);
        hall.go_once(alloc);
    }
}

/// Returns how often the peer's link was called in the rounds of this tick.
fn calls_in_tick(alloc: Global, hall: &mut Hall<'_>, tick: u64, number: u64, peer: &Peer) -> u64 {
    let before = peer.calls.get();
    hall.guests.tick(tick);
    go_for_a_tick(alloc, hall, number);
    peer.calls.get().saturating_sub(before)
}

/// Returns the most calls in one tick, if the guest of this number is named before each round.
fn most_calls(alloc: Global, hall: &mut Hall<'_>, number: u64, peer: &Peer) -> u64 {
    let mut most = 0;
    for tick in 1..=TICKS {
        most = calls_in_tick(alloc, hall, tick, number, peer).max(most);
    }
    most
}

/// Admits a guest of 9000000 bytes, the first, and a second one that waits for it.
fn let_one_wait<'a>(
    alloc: Global,
    hall: &mut Hall<'a>,
    peers: &'a Peers,
) -> Result<usize, AllocError> {
    let_in(alloc, hall, 1, OF_9000000, &peers.first)?;
    let_in(alloc, hall, 2, OF_380000, &peers.second)
}

/// Watches a guest that waits for one of 9000000 bytes, beside one that gets `a` over and over.
///
/// Returns whether it waits and is tried at most once a tick, and the other got an item in each.
fn does_not_spin<'a>(
    alloc: Global,
    hall: &mut Hall<'a>,
    peers: &'a Peers,
) -> Result<bool, AllocError> {
    let_one_wait(alloc, hall, peers)?;
    let_getter_in(alloc, hall, 3, &peers.third)?;
    let most = most_calls(alloc, hall, 3, &peers.second);
    let is_served = peers.third.calls.get() > TICKS;
    Ok(most <= 1 && is_served && hall.guests.waiting_guests() == 1)
}

/// Returns whether there is nothing to do while a guest waits, and it is tried at most once a tick.
fn lets_rest<'a>(alloc: Global, hall: &mut Hall<'a>, peers: &'a Peers) -> Result<bool, AllocError> {
    let_one_wait(alloc, hall, peers)?;
    let is_quiet = hall.guests.is_quiet();
    let most = most_calls(alloc, hall, 3, &peers.second);
    Ok(most <= 1 && is_quiet && hall.guests.is_quiet())
}

/// What guests do in a hall.
#[derive(Clone, Copy)]
enum Case {
    LeaveNoTrace,
    GoOnBehind,
    DoNotSpin,
    LetRest,
}

/// Returns whether guests do so in a hall without any.
fn do_in<'a>(
    alloc: Global,
    hall: &mut Hall<'a>,
    peers: &'a Peers,
    case: Case,
) -> Result<bool, AllocError> {
    match case {
        Case::LeaveNoTrace => leaves_no_trace(alloc, hall, peers),
        Case::GoOnBehind => goes_on_behind(alloc, hall, peers),
        Case::DoNotSpin => does_not_spin(alloc, hall, peers),
        Case::LetRest => lets_rest(alloc, hall, peers),
    }
}

/// The same in a new hall over a store.
fn do_over(alloc: Global, store: Counting, case: Case) -> Result<bool, AllocError> {
    let peers = Peers::new();
    let mut hall = HallOf::new(alloc, store, SHARE);
    do_in(alloc, &mut hall, &peers, case)
}

/// The same over a new store, which has an item `a` of 10000 bytes.
fn guests_do(alloc: Global, case: Case) -> Result<bool, Fail> {
    let store = store_with(alloc, 10_000)?;
    Ok(do_over(alloc, store, case)?)
}

#[test]
fn a_waiting_guest_that_leaves_leaves_no_trace(rt: HostRuntime) -> Result<(), Fail> {
    assert!(rt; guests_do(rt.alloc(), Case::LeaveNoTrace)?);
    Ok(())
}

#[test]
fn one_that_is_alone_behind_them_goes_on(rt: HostRuntime) -> Result<(), Fail> {
    assert!(rt; guests_do(rt.alloc(), Case::GoOnBehind)?);
    Ok(())
}

/// A waiting guest is tried again at most once a tick. Here there is no room all the time.
#[test]
fn a_waiting_guest_does_not_spin(rt: HostRuntime) -> Result<(), Fail> {
    assert!(rt; guests_do(rt.alloc(), Case::DoNotSpin)?);
    Ok(())
}

/// While all others sleep, a waiting guest leaves its worker at rest.
#[test]
fn a_waiting_guest_lets_its_worker_rest(rt: HostRuntime) -> Result<(), Fail> {
    assert!(rt; guests_do(rt.alloc(), Case::LetRest)?);
    Ok(())
}
