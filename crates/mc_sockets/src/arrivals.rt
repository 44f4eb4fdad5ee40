//! Accepted connections on their way to the workers.
//!
//! Connections are dealt to workers in turn. One that waited 10 ms for a busy worker (250 ms for a
//! worker that was woken and doesn't run yet) is taken by another. An inbox has no limit of its
//! own: `-c` bounds it.

use crate::connection::Connection;
use crate::phase::{Phase, SharedPhase};
use crossbeam_queue::SegQueue;
use mio::Waker;
use std::alloc::{AllocError, Global};
use std::net::{Shutdown, TcpStream};
use std::sync::Wait;
use std::sync::atomic::{AtomicBool, AtomicU64, Ordering};
use std::time::{Clock, Duration, Instant};

/// The longest rest of a worker, in milliseconds, short enough for what is done once a second.
const REST: u64 = 500;

/// The longest rest while the program ends, in milliseconds.
const SHORT_REST: u64 = 20;

/// How long a connection waits for a busy worker before another takes it, in milliseconds.
const PATIENCE: u64 = 10;

/// The same in milliseconds for a worker that was woken and that the system doesn't run yet.
///
/// It will run soon. If others took its connections meanwhile, they would have more to do than it
/// from then on.
const LONG_PATIENCE: u64 = 250;

/// The connections that were dealt to a worker and wait for it, and the worker's waker.
///
/// The only limit is that of open connections.
#[derive(Drop)]
pub struct Inbox {
    queue: SegQueue<Connection>,
    /// The number of connections dealt so far.
    dealt: AtomicU64,
    /// The number of these that were taken.
    taken: AtomicU64,
    waker: Waker,
    /// Whether the worker rests, is about to rest, or hasn't begun.
    rests: AtomicBool,
}

impl Inbox {
    /// Makes an empty inbox of a worker that hasn't begun. The only error is a refused allocation.
    pub fn new(alloc: Global, waker: Waker) -> Result<Inbox, AllocError> {
        Ok(Inbox {
            queue: SegQueue::new(alloc)?,
            dealt: AtomicU64::new(0),
            taken: AtomicU64::new(0),
            waker,
            rests: AtomicBool::new(true),
        })
    }

    /// Appends a connection; if memory is refused, it is closed.
    fn push<R: Wait>(&self, rt: &R, connection: Connection) {
        if self.queue.push(rt, connection).is_ok() {
            self.dealt.fetch_add(1, Ordering::SeqCst);
        }
    }

    /// Takes the connection that has waited longest.
    fn take<R: Wait>(&self, rt: &R) -> Option<Connection> {
        let connection = self.queue.pop(rt)?;
        self.taken.fetch_add(1, Ordering::SeqCst);
        Some(connection)
    }

    /// Returns whether one of the first `dealt` connections still waits.
    fn has_of(&self, dealt: u64) -> bool {
        self.taken.load(Ordering::SeqCst) < dealt
    }

    /// Returns after how many milliseconds other workers take a waiting connection.
    fn patience(&self) -> u64 {
        if self.rests.load(Ordering::SeqCst) {
            LONG_PATIENCE
        } else {
            PATIENCE
        }
    }

    /// Returns whether a connection waits.
    fn waits(&self) -> bool {
        self.has_of(self.dealt.load(Ordering::SeqCst))
    }

    /// Wakes the worker if it rests or is about to, and returns whether it does.
    fn ring(&self) -> bool {
        let rests = self.rests.load(Ordering::SeqCst);
        if rests {
            // if that fails the worker looks by itself, within its rest
            let _ = self.waker.wake();
        }
        rests
    }
}

/// Connections that wait for a worker, dealt to the workers in turn.
///
/// A worker takes the connections that were dealt to it, and also one that has waited too long for
/// another worker, which is busy.
///
/// No wake-up is lost: a worker sets `rests` before it checks for the last time whether a
/// connection waits, and the acceptor reads `rests` after it appended one. A worker that doesn't
/// rest checks between two series of rounds.
#[derive(Drop)]
pub struct Arrivals {
    inboxes: Vec<Inbox>,
    /// The listeners' sockets as streams, which can be shut down.
    sockets: Vec<TcpStream>,
    phase: SharedPhase,
}

impl Arrivals {
    /// Returns the arrivals of workers, in the order of their numbers, and of listeners.
    ///
    /// `sockets` are the listeners' sockets.
    pub fn new(inboxes: Vec<Inbox>, sockets: Vec<TcpStream>) -> Arrivals {
        Arrivals {
            inboxes,
            sockets,
            phase: SharedPhase::new(),
        }
    }

    /// Returns the number of workers.
    pub fn workers(&self) -> usize {
        self.inboxes.len()
    }

    /// Deals a connection to worker `turn`, wakes a worker, and returns the next worker.
    ///
    /// It wakes that worker if it rests, and otherwise another one that rests.
    pub fn deal<R: Wait>(&self, rt: &R, connection: Connection, turn: usize) -> usize {
        let turn = if turn < self.inboxes.len() { turn } else { 0 };
        if let Some(inbox) = self.inboxes.get(turn) {
            inbox.push(rt, connection);
            if !inbox.ring() {
                self.call_another();
            }
        }
        turn.saturating_add(1)
    }

    /// Wakes one of the workers that rest, if there is one.
    fn call_another(&self) {
        for inbox in &self.inboxes {
            if inbox.ring() {
                return;
            }
        }
    }

    /// Takes a connection that was dealt to this worker, or that has waited too long for another.
    pub fn pop<R: Wait + Clock>(&self, rt: &R, share: &mut Share) -> Option<Connection> {
        let own = self.inboxes.get(share.worker)?;
        if own.waits() {
            return own.take(rt);
        }
        let seen = share.seen?;
        let other = self.inboxes.get(seen.worker)?;
        if !other.has_of(seen.dealt) {
            share.seen = None;
            return None;
        }
        if seen.is_past(rt, other.patience()) {
            return other.take(rt);
        }
        None
    }

    /// Notes that a worker is about to rest, and returns for how long it may.
    ///
    /// That is 0 if a connection waits for it, and short if connections wait for others.
    pub fn begin_rest<R: Clock>(&self, rt: &R, share: &mut Share) -> Duration {
        let Some(own) = self.inboxes.get(share.worker) else {
            return self.longest_rest();
        };
        own.rests.store(true, Ordering::SeqCst);
        if own.waits() {
            return Duration::ZERO;
        }
        if !self.is_still_there(share.seen) {
            share.seen = self.seen_waiting(rt);
        }
        if share.seen.is_some() {
            return Duration::from_millis(PATIENCE);
        }
        self.longest_rest()
    }

    /// Returns the longest rest, after which an idle thread checks whether the program ends.
    pub fn longest_rest(&self) -> Duration {
        Duration::from_millis(if self.is_closing() { SHORT_REST } else { REST })
    }

    /// Notes that a worker no longer rests.
    pub fn end_rest(&self, share: &Share) {
        if let Some(own) = self.inboxes.get(share.worker) {
            own.rests.store(false, Ordering::SeqCst);
        }
    }

    /// Returns whether a connection that a worker saw waiting still waits.
    fn is_still_there(&self, seen: Option<Seen>) -> bool {
        match seen {
            Some(seen) => match self.inboxes.get(seen.worker) {
                Some(inbox) => inbox.has_of(seen.dealt),
                None => false,
            },
            None => false,
        }
    }

    /// Returns a connection that waits for any worker.
    fn seen_waiting<R: Clock>(&self, rt: &R) -> Option<Seen> {
        let mut worker = 0usize;
        for inbox in &self.inboxes {
            let dealt = inbox.dealt.load(Ordering::SeqCst);
            if inbox.has_of(dealt) {
                let since = Instant::now(rt).ok()?;
                return Some(Seen {
                    worker,
                    dealt,
                    since,
                });
            }
            worker = worker.saturating_add(1);
        }
        None
    }

    /// Asks the acceptors to stop, and returns whether it did. If none can be woken, nothing
    /// changes.
    pub fn ask_to_close(&self) -> bool {
        let is_first = self.phase.turn(Phase::Open, Phase::Asked);
        // a listener that was shut down before can't be again, and its thread is awake
        self.wake_acceptors() || !is_first || !self.phase.turn(Phase::Asked, Phase::Open)
    }

    /// Returns whether the acceptors are asked to stop; each calls it after every connection.
    ///
    /// The first call that returns true enters the closing phase, and wakes all workers.
    pub fn begins_to_close(&self) -> bool {
        if self.phase.turn(Phase::Asked, Phase::Closing) {
            self.call_all();
        }
        self.is_closing()
    }

    /// Ends all connections: no more are accepted. It wakes all acceptors and all workers.
    pub fn end(&self) {
        if !self.phase.turn(Phase::Closing, Phase::Over) {
            self.phase.set(Phase::Failed);
        }
        self.wake_acceptors();
        self.call_all();
    }

    /// Ends the acceptors' waiting accepts, and all later ones. Returns whether one was ended at
    /// least.
    fn wake_acceptors(&self) -> bool {
        let mut woken = false;
        for socket in &self.sockets {
            woken |= socket.shutdown(Shutdown::Both).is_ok();
        }
        woken
    }

    /// Returns whether all ended because that was asked for.
    pub fn is_over_as_asked(&self) -> bool {
        self.phase.get().is_over_as_asked()
    }

    /// Returns whether no more connections are accepted.
    pub fn is_closing(&self) -> bool {
        self.phase.get().is_closing()
    }

    /// Returns whether no more connections are accepted, and all open ones end.
    pub fn is_over(&self) -> bool {
        self.phase.get().is_over()
    }

    /// Wakes all workers.
    fn call_all(&self) {
        for inbox in &self.inboxes {
            let _ = inbox.waker.wake();
        }
    }
}

/// A worker's part of the arrivals.
#[derive(Clone, Copy)]
pub struct Share {
    /// The worker's index.
    worker: usize,
    /// The connections that it saw waiting for another worker.
    seen: Option<Seen>,
}

/// Connections that were seen waiting for a worker.
#[derive(Clone, Copy)]
struct Seen {
    worker: usize,
    /// How many were dealt to that worker until then.
    dealt: u64,
    since: Instant,
}

impl Seen {
    /// Returns whether they were seen at least `patience` milliseconds ago.
    fn is_past<R: Clock>(&self, rt: &R, patience: u64) -> bool {
        match self.since.elapsed(rt) {
            Ok(time) => time >= Duration::from_millis(patience),
            Err(_) => true,
        }
    }
}

impl Share {
    /// Returns the part of the worker with this number, from 0.
    pub fn new(worker: u32) -> Share {
        Share {
            worker: worker as usize,
            seen: None,
        }
    }
}
