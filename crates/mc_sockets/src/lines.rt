//! Lines for standard error, on their way to the thread that writes them.
//!
//! This is a bounded queue of this program: `crossbeam_queue`'s bounded queue needs the handle
//! `Wait`, and a connection logs its end in a drop, which has none. A line without a place is
//! dropped and counted.

use crate::connection::CloseReason;
use crate::warning::Warning;
use std::alloc::{AllocError, Global};
use std::net::SocketAddr;
use std::sync::Mutex;
use std::sync::atomic::{AtomicBool, AtomicU64, Ordering};

/// What a line is about.
#[derive(Clone, Copy)]
pub enum LogLine {
    Opened { number: u64, peer: SocketAddr },
    Closed { number: u64, parting: CloseReason },
    Warned(Warning),
}

/// A waiting line, and how many lines were dropped before it since the last report of that.
#[derive(Clone, Copy)]
pub struct WaitingLine {
    pub line: LogLine,
    pub dropped: u64,
}

/// A place for a line. Only one thread at a time uses it: one fills it, then the writer empties it.
///
/// So neither ever finds it locked.
#[derive(Drop)]
struct Slot {
    waiting: Mutex<Option<WaitingLine>>,
    is_filled: AtomicBool,
}

impl Slot {
    /// Returns an empty place.
    fn new() -> Slot {
        Slot {
            waiting: Mutex::new(None),
            is_filled: AtomicBool::new(false),
        }
    }

    /// Stores a line.
    fn fill(&self, waiting: WaitingLine) {
        if let Some(mut place) = self.waiting.try_lock() {
            *place = Some(waiting);
            drop(place);
            self.is_filled.store(true, Ordering::SeqCst);
        }
    }

    /// Takes its line, if it has one.
    fn empty(&self) -> Option<WaitingLine> {
        if !self.is_filled.load(Ordering::SeqCst) {
            return None;
        }
        let mut place = self.waiting.try_lock()?;
        let waiting = *place;
        *place = None;
        drop(place);
        self.is_filled.store(false, Ordering::SeqCst);
        waiting
    }
}

/// A bounded queue of lines: a line without a place is dropped, and counted.
///
/// No call waits for another thread, so any call may be made in a drop.
///
/// A thread that finds the queue full drops its line. So there are at most as many turns in
/// progress as slots, those after the last line written, and no two of them have the same slot.
#[derive(Drop)]
pub struct LogQueue {
    slots: Vec<Slot>,
    /// The places that are taken or being searched.
    taken: AtomicU64,
    /// The number of turns dealt.
    dealt: AtomicU64,
    /// The dropped lines that aren't reported yet.
    dropped: AtomicU64,
}

impl LogQueue {
    /// Makes a queue with `most` places. The only error is a refused allocation.
    pub fn new(alloc: Global, most: usize) -> Result<LogQueue, AllocError> {
        let mut slots = Vec::with_capacity(alloc, most)?;
        for _place in 0..most {
            if slots.push(Slot::new()).is_err() {
                return Err(AllocError);
            }
        }
        Ok(LogQueue {
            slots,
            taken: AtomicU64::new(0),
            dealt: AtomicU64::new(0),
            dropped: AtomicU64::new(0),
        })
    }

    /// Appends a line, or drops it if there is no place.
    pub fn push(&self, line: LogLine) {
        let most = self.slots.len() as u64;
        if self.taken.fetch_add(1, Ordering::SeqCst) >= most {
            self.taken.fetch_sub(1, Ordering::SeqCst);
            self.drop_one();
            return;
        }
        let turn = self.dealt.fetch_add(1, Ordering::SeqCst);
        if let Some(slot) = self.slot(turn) {
            let dropped = self.take_dropped();
            slot.fill(WaitingLine { line, dropped });
        }
    }

    /// Takes the line of a turn, if it is there. Turns are taken in order, from 0.
    pub fn take(&self, turn: u64) -> Option<WaitingLine> {
        let waiting = self.slot(turn)?.empty()?;
        self.taken.fetch_sub(1, Ordering::SeqCst);
        Some(waiting)
    }

    /// Counts a dropped line.
    pub fn drop_one(&self) {
        self.dropped.fetch_add(1, Ordering::SeqCst);
    }

    /// Returns and resets the number of dropped lines not yet reported.
    pub fn take_dropped(&self) -> u64 {
        if self.dropped.load(Ordering::SeqCst) == 0 {
            return 0;
        }
        self.dropped.swap(0, Ordering::SeqCst)
    }

    /// Returns the slot of a turn.
    fn slot(&self, turn: u64) -> Option<&Slot> {
        let at = turn.checked_rem(self.slots.len() as u64)?;
        self.slots.get(at as usize)
    }
}
