//! Lines for standard error, on their way to the thread that writes them.

use crate::lines::{LogLine, LogQueue, WaitingLine};
use crate::shortage::{Shortage, Wanted};
use crate::warning::{Warning, Warnings};
use mc_protocol::KeyStep;
use std::alloc::{AllocError, Global};
use std::sync::atomic::{AtomicBool, AtomicU32, Ordering};
use std::sync::{Arc, Wait};
use std::thread::Parker;
use std::time::{Clock, Duration, Instant};

/// The most lines that wait while standard error blocks.
const MOST: usize = 1024;

/// The most lines if connections aren't logged: only warnings wait.
const FEW: usize = 16;

/// The lines of the serving threads, and the waker of the thread that writes them.
///
/// Only that thread waits if standard error blocks.
#[derive(Drop)]
pub struct Log {
    lines: LogQueue,
    /// Whether the connections that open and close are logged.
    tells_connections: bool,
    shortage: Shortage,
    warnings: Warnings,
    /// Whether a connection was closed for want of memory since the logger last looked.
    starved: AtomicBool,
    /// The threads that may still write lines.
    speakers: AtomicU32,
    logger: Parker,
}

impl Log {
    /// Creates an empty log with one writer. It logs connections only if `tells_connections`.
    ///
    /// The only error is a refused allocation.
    pub fn new<R: Clock>(
        rt: &R,
        alloc: Global,
        tells_connections: bool,
    ) -> Result<Arc<Log>, AllocError> {
        let log = Log {
            lines: LogQueue::new(alloc, if tells_connections { MOST } else { FEW })?,
            tells_connections,
            shortage: Shortage::new(),
            warnings: Warnings::new(Instant::now(rt).ok()),
            starved: AtomicBool::new(false),
            speakers: AtomicU32::new(1),
            logger: Parker::new(),
        };
        Arc::new(alloc, log).map_err(|_| AllocError)
    }

    /// Adds a writer.
    pub fn enter(&self) {
        self.speakers.fetch_add(1, Ordering::SeqCst);
    }

    /// Removes a writer, and wakes the thread that writes to standard error.
    pub fn leave(&self) {
        self.speakers.fetch_sub(1, Ordering::SeqCst);
        self.logger.unpark();
    }

    /// Returns whether there are no writers left. Lines may still wait.
    pub fn is_over(&self) -> bool {
        self.speakers.load(Ordering::SeqCst) == 0
    }

    /// Logs an event of a connection, if connections are logged.
    ///
    /// The line is dropped if too many wait. It never waits.
    pub fn say(&self, line: LogLine) {
        if self.tells_connections {
            self.push(line);
        }
    }

    /// Logs a warning, unless it was logged within a minute.
    pub fn warn<R: Clock>(&self, rt: &R, warning: Warning) {
        if self.warnings.is_due(rt, warning) {
            self.push(LogLine::Warned(warning));
        }
    }

    /// Notes a connection that is closed for want of memory, and wakes the logger, which has the
    /// clock for a warning.
    pub fn note_starved(&self) {
        self.starved.store(true, Ordering::SeqCst);
        self.logger.unpark();
    }

    /// Returns whether a connection was closed for want of memory since the last call.
    pub fn take_starved(&self) -> bool {
        self.starved.swap(false, Ordering::SeqCst)
    }

    /// Appends a line, or drops it if too many wait. It never waits.
    fn push(&self, line: LogLine) {
        self.lines.push(line);
        self.logger.unpark();
    }

    /// Takes the line of a turn, if it is there.
    ///
    /// Only the thread that writes calls it, with turns in order, from 0.
    pub fn take_line(&self, turn: u64) -> Option<WaitingLine> {
        self.lines.take(turn)
    }

    /// Counts a dropped line.
    pub fn drop_line(&self) {
        self.lines.drop_one();
    }

    /// Returns and resets the number of dropped lines not yet reported.
    pub fn take_dropped(&self) -> u64 {
        self.lines.take_dropped()
    }

    /// Notes a step that was refused for want of a chunk. At the first in a while it wakes the
    /// logger.
    pub fn note_refused(&self, step: &KeyStep<'_>) {
        if self.shortage.note(step) {
            self.logger.unpark();
        }
    }

    /// Takes the unreported refusal, if any.
    pub fn take_wanted(&self) -> Option<Wanted> {
        self.shortage.take()
    }

    /// Lets the next refused step be reported.
    pub fn reopen(&self) {
        self.shortage.reopen();
    }

    /// Sleeps until there may be a line.
    pub fn sleep<R: Wait>(&self, rt: &R) {
        self.logger.park(rt);
    }

    /// Sleeps until there may be a line, at most this long.
    pub fn sleep_at_most<R: Wait + Clock>(&self, rt: &R, time: Duration) {
        self.logger.park_timeout(rt, time);
    }
}
