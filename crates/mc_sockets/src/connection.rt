//! Connections, which are counted while they are open, and logged if `verbose` is set.
//!
//! A connection is counted from its accept until it is dropped, after the system closed it, so
//! never more than `-c` are served. One more is accepted, answered with an error and closed. One
//! that lingers behind its last answer is counted apart (`yard.rt`). The reason for a close is kept
//! in its [`Registration`].

ghost use Rattle.std.specs.Prelude.{◌≡◌};
ghost use Rattle.mc_sockets.specs.ConnectionLimits.{most_lingering};

use crate::lines::LogLine;
use crate::log::Log;
use crate::warning::Warning;
use mc_metrics::count_at;
use mio::net::TcpStream;
use std::alloc::{AllocError, Global};
use std::array;
use std::cell::Cell;
use std::io::Write;
use std::net::SocketAddr;
use std::sync::Arc;
use std::sync::atomic::{AtomicU32, AtomicU64, Ordering};
use std::time::Clock;

/// The descriptors that are left for anything but connections.
const OTHERS: u64 = 64;

/// How many connections of a worker may linger at least.
const LEAST_LINGERING: usize = 16;

/// The error for a connection above the limit.
const TOO_MANY: &[u8] = b"ERROR Too many open connections\r\n";

/// Why a connection is closed.
#[derive(Clone, Copy)]
pub enum CloseReason {
    /// The connection limit is reached.
    OneTooMany,
    /// The system has no descriptor for it.
    NoDescriptor,
    /// Memory for it was refused, or the system can't watch it.
    NoRoom,
    /// The client sends no more.
    Ended,
    ReadFault,
    WriteFault,
    /// Its session closed it by `quit`.
    SessionOver,
    /// It was idle for the idle timeout.
    Idle,
    /// The listener failed, and the program ends.
    ListenerFailed,
    /// It held much memory and was slow while others waited for memory.
    Hoarding,
    /// Its session closed it, because a line was too long.
    LineTooLong,
    /// The program was asked to end.
    Stopped,
    /// Its session was refused memory.
    OutOfMemory,
    /// The client speaks HTTP or memcached's binary protocol.
    OtherProtocol,
}

/// The number of reasons, of which `OtherProtocol` is the last.
pub const PARTINGS: usize = CloseReason::OtherProtocol as usize + 1;

/// The reply to a line that is too long. Nothing is sent behind it.
const TOO_LONG: &[u8] = b"CLIENT_ERROR line too long\r\n";

impl CloseReason {
    ghost use Rattle.std.specs.Prelude.{◌≡◌};
    ghost use Rattle.mc_sockets.specs.CloseReasons.{parting_place};

    /// Returns its index.
    pub fn place(self) -> usize
        ensures { result ≡ parting_place self }
    {
        self as usize
    }

    /// Returns its text.
    pub fn text(self) -> &'static str {
        match self {
            CloseReason::OneTooMany => "one more than -c allows",
            CloseReason::NoDescriptor => "no descriptor is left",
            CloseReason::NoRoom => "no memory for it",
            CloseReason::Ended => "the client closed it",
            CloseReason::ReadFault => "read fault",
            CloseReason::WriteFault => "write fault",
            CloseReason::SessionOver => "quit",
            CloseReason::Idle => "idle for as long as --idle-timeout allows",
            CloseReason::ListenerFailed => "the listener failed",
            CloseReason::Hoarding => "it held much and was slow while others waited for memory",
            CloseReason::LineTooLong => "a line was too long",
            CloseReason::Stopped => "the program was asked to end",
            CloseReason::OutOfMemory => "out of memory",
            CloseReason::OtherProtocol => "the client speaks another protocol",
        }
    }
}

/// The connections that are open.
#[derive(Drop)]
pub struct ConnectionLimit {
    /// The limit of open connections.
    most: u32,
    /// The limit of those that linger beside them.
    most_lingering: u32,
    /// The open connections, without those that linger.
    open: AtomicU32,
    lingering: AtomicU32,
    /// The number of accepted connections.
    accepted: AtomicU64,
    /// The number of closed connections by reason.
    closed: [AtomicU64; PARTINGS],
    /// The log of connections and warnings; `None` in tests.
    log: Option<Arc<Log>>,
}

impl ConnectionLimit {
    ghost use Rattle.std.specs.Prelude.{◌≡◌, ◌≤◌, ◌↔◌, IfOk, IsTrue};
    ghost use Rattle.std.specs.Arc.{arc_value};
    ghost use Rattle.mc_sockets.specs.ConnectionLimits.{most_lingering, most_lingering_of, most_of, share};

    /// Creates the connection counter, where the process may have this many descriptors. The only
    /// error is a refused allocation.
    pub fn new(
        alloc: Global,
        most: u32,
        descriptors: Option<u64>,
        log: Option<Arc<Log>>,
    ) -> Result<Arc<ConnectionLimit>, AllocError>
        ensures most { IfOk result (λ crowd. most_of (arc_value crowd) ≡ most) }
        ensures lingering { IfOk result (λ crowd.
            most_lingering_of (arc_value crowd) ≡ most_lingering most descriptors) }
    {
        let crowd = ConnectionLimit {
            most,
            most_lingering: most_lingering(most, descriptors),
            open: AtomicU32::new(0),
            lingering: AtomicU32::new(0),
            accepted: AtomicU64::new(0),
            closed: array::from_fn(|_at| AtomicU64::new(0)),
            log,
        };
        Arc::new(alloc, crowd).map_err(|_| AllocError)
    }

    /// Returns the limit of open connections.
    pub fn most(&self) -> u32
        ensures { result ≡ most_of self.now }
    {
        self.most
    }

    /// Returns how many of the connections of one of `workers` may linger.
    pub fn lingering_share(&self, workers: usize) -> usize
        ensures { result ≡ share (most_lingering_of self.now) workers }
    {
        (self.most_lingering as usize / workers.max(1)).max(LEAST_LINGERING)
    }

    /// Returns the number of open connections, without those that linger.
    pub fn open(&self) -> u32 {
        self.open.load(Ordering::SeqCst)
    }

    /// Returns the number of connections that linger behind their last answer.
    pub fn lingering(&self) -> u32 {
        self.lingering.load(Ordering::SeqCst)
    }

    /// Returns the number of accepted connections.
    pub fn accepted_count(&self) -> u64 {
        self.accepted.load(Ordering::SeqCst)
    }

    /// Returns the number of connections closed for the reason at this index.
    pub fn closed_at(&self, place: usize) -> u64 {
        count_at(&self.closed, place)
    }

    /// Logs a warning, unless it was logged within a minute.
    pub fn warn<R: Clock>(&self, rt: &R, warning: Warning) {
        if let Some(log) = &self.log {
            log.warn(rt, warning);
        }
    }

    /// Counts a connection, and returns its number among all accepted ones, from 1.
    fn enter(&self, peer: SocketAddr) -> u64 {
        let number = self.accepted.fetch_add(1, Ordering::SeqCst).wrapping_add(1);
        if let Some(log) = &self.log {
            log.say(LogLine::Opened { number, peer });
        }
        number
    }

    /// Counts an open connection, and returns whether it exceeds the limit.
    fn open_one(&self) -> bool {
        self.is_full(self.open.fetch_add(1, Ordering::SeqCst))
    }

    /// Returns whether one more than this many open connections exceeds the limit.
    fn is_full(&self, count: u32) -> bool
        ensures { IsTrue result ↔ (most_of self.now ≤ count) }
    {
        count >= self.most
    }

    /// Counts an open connection as one that lingers.
    fn linger(&self) {
        self.lingering.fetch_add(1, Ordering::SeqCst);
        self.open.fetch_sub(1, Ordering::SeqCst);
    }

    /// Uncounts a connection that was closed for this reason, and that lingered or didn't.
    fn leave(&self, number: u64, parting: CloseReason, lingered: bool) {
        let count = if lingered {
            &self.lingering
        } else {
            &self.open
        };
        count.fetch_sub(1, Ordering::SeqCst);
        if let Some(count) = self.closed.get(parting.place()) {
            count.fetch_add(1, Ordering::SeqCst);
        }
        if let Some(log) = &self.log {
            log.say(LogLine::Closed { number, parting });
            if matches!(parting, CloseReason::OutOfMemory | CloseReason::NoRoom) {
                log.note_starved();
            }
        }
    }
}

/// Returns how many connections may linger beside `most` open ones: as many, if descriptors are
/// left for them, and a quarter at least.
fn most_lingering(most: u32, descriptors: Option<u64>) -> u32
    ensures { result ≡ most_lingering most descriptors }
{
    let Some(descriptors) = descriptors else {
        return most;
    };
    let left = descriptors.saturating_sub(u64::from(most).saturating_add(OTHERS));
    (left.min(u64::from(most)) as u32).max(most / 4)
}

/// The entry of a connection among the open ones. It is counted until it is dropped.
pub struct Registration {
    crowd: Arc<ConnectionLimit>,
    number: u64,
    parting: CloseReason,
    /// Whether it lingers behind its last answer.
    lingers: Cell<bool>,
}

impl Registration {
    ghost use Rattle.std.specs.Prelude.{◌≡◌};

    /// Counts a connection. It takes no memory.
    pub fn new(crowd: Arc<ConnectionLimit>, peer: SocketAddr) -> Registration {
        let number = crowd.enter(peer);
        let parting = if crowd.open_one() {
            CloseReason::OneTooMany
        } else {
            CloseReason::NoRoom
        };
        Registration {
            crowd,
            number,
            parting,
            lingers: Cell::new(false),
        }
    }

    /// Counts it as one that lingers, once.
    pub fn linger(&self) {
        if !self.lingers.get() {
            self.lingers.set(true);
            self.crowd.linger();
        }
    }

    /// Returns how many of the connections of one of `workers` may linger.
    pub fn lingering_share(&self, workers: usize) -> usize {
        self.crowd.lingering_share(workers)
    }

    /// Returns whether it exceeds the limit of connections.
    pub fn is_one_too_many(&self) -> bool {
        matches!(self.parting, CloseReason::OneTooMany)
    }

    /// Notes the reason for which it will be closed, if it is closed next.
    pub fn note(&mut self, parting: CloseReason)
        ensures { self.new ≡ record self.old { parting = parting } }
    {
        self.parting = parting;
    }

    /// Notes the end of the output that is to be sent: the reply to a line that is too long is a
    /// session's last. What the system didn't take of it comes once more.
    pub fn note_output(&mut self, end: &[u8]) {
        match self.parting {
            CloseReason::SessionOver if end.ends_with(TOO_LONG) => self.parting =
                CloseReason::LineTooLong,
            CloseReason::LineTooLong if !(end.ends_with(TOO_LONG) || TOO_LONG.ends_with(end)) => {
                self.parting = CloseReason::SessionOver;
            }
            _ => {}
        }
    }
}

impl Drop for Registration {
    fn drop(self) {
        let Registration {
            crowd,
            number,
            parting,
            lingers,
        } = self;
        crowd.leave(number, parting, lingers.get());
    }
}

/// A connection that was accepted, on its way to its worker.
///
/// Its fields are dropped in their order: it is counted until the system has closed it.
#[derive(Drop)]
pub struct Connection {
    pub stream: TcpStream,
    pub entry: Registration,
}

impl Connection {
    /// Returns a counted connection. It takes no memory.
    pub fn new(crowd: Arc<ConnectionLimit>, stream: TcpStream, peer: SocketAddr) -> Connection {
        let entry = Registration::new(crowd, peer);
        Connection { stream, entry }
    }

    /// Sends the error for the connection limit, as far as the system takes it at once.
    pub fn refuse(&mut self) {
        let _ = self.stream.write(TOO_MANY);
    }
}
