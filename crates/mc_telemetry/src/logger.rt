//! Writes to standard error while the server runs.
//!
//! One thread writes to standard error, so a full pipe stops no worker. The same thread reports
//! that the store is full, and reads the class's counts by a caller of its own.

use crate::error_output::ErrorOutput;
use crate::full::{ClassState, Full};
use crate::stats::StoreStats;
use mc_host::{Diagnostics, Level};
use mc_options::{Endpoints, Options};
use mc_sizes::{CLASSES, need_of};
use mc_sockets::{Log, LogLine, WaitingLine, Wanted, Warning};
use std::io::{self, Stderr};
use std::net::IpAddr;
use std::sync::Wait;
use std::time::{Clock, Duration, Instant};

/// The time between two reports that the store is full, in seconds.
const QUIET: u64 = 60;

/// What the first lines report.
#[derive(Clone, Copy, Drop)]
pub struct StartLines<'a> {
    pub diagnostics: Diagnostics,
    pub options: &'a Options,
    /// How many descriptors the process may have, if the system reports it.
    pub descriptors: Option<u64>,
}

/// Writes where the server listens, and then the lines of the log, until no thread has more of
/// them. If what was written isn't read then, the rest isn't written, and the server ends all the
/// same. It sleeps while there is nothing to write. A minute after a report that the store is full
/// it wakes once, so that the next refusal is reported again.
pub fn write_lines<R: Wait + Clock, S: StoreStats>(
    rt: &R,
    log: &Log,
    notice: StartLines<'_>,
    outlet: &mut ErrorOutput,
    stats: &mut S,
) {
    let settings = notice.options.settings;
    let mut logger = Logger {
        log,
        diagnostics: notice.diagnostics,
        pages: settings.pages,
        most: pages_of(settings.greatest),
        turn: 0,
        told_full: None,
    };
    let mut has_begun = false;
    for _ in rt.forever() {
        // a line that came before the last thread left is found below
        let is_over = log.is_over();
        if !outlet.is_ready() {
            if is_over {
                return;
            }
            continue;
        }
        if !has_begun {
            say(notice);
            has_begun = true;
        }
        logger.tell_full(rt, stats);
        logger.warn_of_memory(rt);
        if logger.write_next() {
            continue;
        }
        if is_over {
            return;
        }
        logger.sleep(rt);
    }
}

/// Writes lines of the log to standard error.
#[derive(Drop)]
struct Logger<'a> {
    log: &'a Log,
    diagnostics: Diagnostics,
    /// The number of pages that items may take.
    pages: u32,
    /// The number of pages that one item may take.
    most: u32,
    /// The number of the next line.
    turn: u64,
    /// When it reported that the store is full; nothing if it may report that again.
    told_full: Option<Instant>,
}

impl Logger<'_> {
    /// Writes the next line, after the count of lines dropped before it. Returns whether there was
    /// one. A line that can't be written is dropped.
    fn write_next(&mut self) -> bool {
        let (log, turn) = (self.log, self.turn);
        let Some(WaitingLine { line, dropped }) = log.take_line(turn) else {
            self.tell_dropped(log.take_dropped());
            return false;
        };
        self.turn = turn.wrapping_add(1);
        self.tell_dropped(dropped);
        if write_line(self.diagnostics, line).is_err() {
            log.drop_line();
        }
        true
    }

    /// Writes how many lines were dropped, if any were.
    fn tell_dropped(&self, count: u64) {
        if count > 0 {
            let (stderr, level) = at_level(self.diagnostics, Level::Warning);
            let _ = eprintln!(stderr;
                "{level}mcserver: lines dropped, as standard error wasn't read in time: {count}"
            );
        }
    }

    /// Writes that the store is full, if a step was refused since that may be written again.
    fn tell_full<R: Wait + Clock, S: StoreStats>(&mut self, rt: &R, stats: &mut S) {
        let Some(wanted) = self.log.take_wanted() else {
            return;
        };
        self.told_full = Instant::now(rt).ok();
        let full = Full {
            stock: stock_of(rt, wanted, stats),
            pages: self.pages,
            most: self.most,
        };
        let (stderr, level) = at_level(self.diagnostics, Level::Warning);
        let _ = eprintln!(stderr; "{level}mcserver: full: {full} (told once a minute)");
    }

    /// Adds a warning to the log, at most once a minute, if a connection was closed for want of
    /// memory.
    fn warn_of_memory<R: Clock>(&self, rt: &R) {
        if self.log.take_starved() {
            self.log.warn(rt, Warning::OutOfMemory);
        }
    }

    /// Sleeps until there may be a line, or a full store may be reported again.
    fn sleep<R: Wait + Clock>(&mut self, rt: &R) {
        let Some(told) = self.told_full else {
            self.log.sleep(rt);
            return;
        };
        let quiet = Duration::from_secs(QUIET);
        let left = match told.elapsed(rt) {
            Ok(time) => quiet.saturating_sub(time),
            Err(_) => quiet,
        };
        if left == Duration::ZERO {
            self.told_full = None;
            self.log.reopen();
            return;
        }
        self.log.sleep_at_most(rt, left);
    }
}

/// Returns what the class of the refused item has; nothing if the item's size isn't known.
fn stock_of<R: Wait, S: StoreStats>(rt: &R, wanted: Wanted, stats: &mut S) -> Option<ClassState> {
    let need = match wanted {
        Wanted::Size(size) => need_of(size)?,
        Wanted::Growth => return None,
    };
    let account = stats.account(rt, need.class());
    Some(ClassState { need, account })
}

/// Returns how many pages an item of this size takes at most, and at least 1.
fn pages_of(bytes: u64) -> u32 {
    match need_of(bytes) {
        Some(need) => need.count(),
        None => 1,
    }
}

/// Returns standard error, and what its lines of this level begin with.
fn at_level(diagnostics: Diagnostics, level: Level) -> (Stderr, &'static str) {
    (diagnostics.stderr, diagnostics.prefix(level))
}

/// Returns the level of a line.
fn level_of(line: LogLine) -> Level {
    match line {
        LogLine::Opened { .. } | LogLine::Closed { .. } => Level::Info,
        LogLine::Warned(_) => Level::Warning,
    }
}

/// Writes a line.
fn write_line(diagnostics: Diagnostics, line: LogLine) -> io::Result<()> {
    let (stderr, level) = at_level(diagnostics, level_of(line));
    match line {
        LogLine::Opened { number, peer } => {
            eprintln!(stderr; "{level}mcserver: connection {number} from {peer} opened")
        }
        LogLine::Closed { number, parting } => {
            let why = parting.text();
            eprintln!(stderr; "{level}mcserver: connection {number} closed: {why}")
        }
        LogLine::Warned(warning) => {
            let text = warning.text();
            eprintln!(stderr; "{level}mcserver: warning: {text} (reported once a minute)")
        }
    }
}

/// Writes a warning if other machines can reach the address.
fn warn(diagnostics: Diagnostics, address: IpAddr) {
    if !address.to_canonical().is_loopback() {
        let (stderr, level) = at_level(diagnostics, Level::Warning);
        let _ = eprintln!(stderr;
            "{level}mcserver: warning: the protocol has no passwords, and {address} isn't this machine's alone"
        );
    }
}

/// Writes where the server listens, its pages and workers, and warnings.
fn say(notice: StartLines<'_>) {
    let StartLines {
        diagnostics,
        options,
        descriptors,
    } = notice;
    let workers = options.workers;
    let pages = options.settings.pages;
    let places = &options.endpoints;
    let ignored = &options.ignored;
    let (stderr, level) = at_level(diagnostics, Level::Info);
    // if standard error is closed the server runs all the same
    let _ = eprintln!(stderr;
        "{level}mcserver: listening on {places}, {pages} pages, {workers} workers{ignored}"
    );
    warn_all(diagnostics, places);
    warn_of_pages(diagnostics, pages);
    if let Some(endpoint) = options.scrapes {
        let _ = eprintln!(stderr; "{level}mcserver: metrics at http://{endpoint}/metrics");
    }
    if let Some(most) = descriptors {
        warn_of_descriptors(diagnostics, options.connections, most);
    }
}

/// Writes a warning for each endpoint that other machines can reach.
fn warn_all(diagnostics: Diagnostics, endpoints: &Endpoints) {
    let Endpoints { first, others } = endpoints;
    warn(diagnostics, first.address);
    for other in others {
        warn(diagnostics, other.address);
    }
}

/// Writes a warning if there are fewer pages than sizes of chunks.
fn warn_of_pages(diagnostics: Diagnostics, pages: u32) {
    if pages < u32::from(CLASSES) {
        let (stderr, level) = at_level(diagnostics, Level::Warning);
        let _ = eprintln!(stderr;
            "{level}mcserver: warning: with -m {pages} only {pages} of the {CLASSES} sizes of chunks find a page"
        );
    }
}

/// Writes a warning if fewer descriptors than connections are allowed.
fn warn_of_descriptors(diagnostics: Diagnostics, connections: u32, most: u64) {
    if u64::from(connections) > most {
        let (stderr, level) = at_level(diagnostics, Level::Warning);
        let _ = eprintln!(stderr;
            "{level}mcserver: warning: -c allows {connections} connections, and the system {most} descriptors (ulimit -n)"
        );
    }
}
