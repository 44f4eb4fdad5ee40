//! Accepts connections, and deals them to the workers.

ghost use Rattle.std.specs.Prelude.{◌≡◌, true, Ok, IfSome};

use crate::arrivals::Arrivals;
use crate::connection::{CloseReason, Connection, ConnectionLimit};
use crate::remedy::{Remedy, remedy_for};
use crate::warning::Warning;
use mio::net::TcpStream;
use std::net::{SocketAddr, TcpListener};
use std::sync::{Arc, Wait};
use std::time::{Clock, Duration, Instant};
use std::{io, thread};

/// The pause after an error of accept, in milliseconds.
const PAUSE: u64 = 10;

/// The longest wait for all connections to close, in seconds.
const CLOSING: u64 = 5;

/// The number of such pauses in that time; a pause may be longer than it was set.
const LOOKS: u64 = CLOSING * 1000 / PAUSE;

/// Why no more connections are accepted.
#[derive(Clone, Copy, Drop)]
enum Stop {
    /// The listener failed.
    Failed,
    /// The program was asked to end.
    Asked,
}

/// The result of an accept.
#[derive(Drop)]
enum AcceptResult {
    Connection(Connection),
    /// A connection that was closed, or failed before it was accepted.
    Nothing,
    /// No more are to come.
    Stop(Stop),
}

/// A listener, with a spare descriptor.
///
/// The spare one is closed if no other is left: the waiting connection is then accepted with it and
/// closed. Otherwise it would stay in the listener's queue, and each further accept would fail at
/// once.
#[derive(Drop)]
struct ListenerWithSpare {
    listener: TcpListener,
    spare: Option<TcpListener>,
    crowd: Arc<ConnectionLimit>,
    /// Whether the previous accept failed too.
    has_failed: bool,
}

/// Accepts connections until the listener fails or the program is asked to end.
///
/// It deals them to the workers in turn. A connection above the limit gets an error and is closed.
/// When the program is asked to end, open connections have at most 5 seconds to close.
pub fn accept_all<R: Wait + Clock>(
    rt: &R,
    listener: TcpListener,
    crowd: Arc<ConnectionLimit>,
    arrivals: &Arrivals,
) {
    let mut door = ListenerWithSpare::new(listener, crowd);
    if let Stop::Asked = door.deal_all(rt, arrivals, 0) {
        door.close(rt);
    }
    arrivals.end();
}

/// Accepts connections at another listener, as `accept_all` does.
///
/// It deals the first connection to the worker with this number. When the program is asked to end
/// it waits for no connection.
pub fn accept_beside<R: Wait + Clock>(
    rt: &R,
    listener: TcpListener,
    crowd: Arc<ConnectionLimit>,
    arrivals: &Arrivals,
    turn: usize,
) {
    let mut door = ListenerWithSpare::new(listener, crowd);
    if let Stop::Failed = door.deal_all(rt, arrivals, turn) {
        arrivals.end();
    }
}

impl ListenerWithSpare {
    /// Returns a listener with a spare descriptor; its connections count in this crowd.
    fn new(listener: TcpListener, crowd: Arc<ConnectionLimit>) -> ListenerWithSpare {
        let spare = listener.try_clone().ok();
        ListenerWithSpare {
            listener,
            spare,
            crowd,
            has_failed: false,
        }
    }

    /// Deals connections to the workers in turn until no more are to come, and returns why.
    fn deal_all<R: Wait + Clock>(&mut self, rt: &R, arrivals: &Arrivals, turn: usize) -> Stop {
        let mut turn = turn;
        for _ in rt.forever() {
            match self.accept(rt, arrivals) {
                AcceptResult::Connection(connection) => {
                    turn = arrivals.deal(rt, connection, turn);
                }
                AcceptResult::Nothing => {}
                AcceptResult::Stop(why) => return why,
            }
        }
        Stop::Failed
    }

    /// Waits for the next connection. One that comes after the program is asked to end is closed.
    fn accept<R: Clock>(&mut self, rt: &R, arrivals: &Arrivals) -> AcceptResult {
        let accepted = self.listener.accept();
        if arrivals.begins_to_close() {
            return AcceptResult::Stop(Stop::Asked);
        }
        match accepted {
            Ok((stream, peer)) => {
                self.keep_spare();
                self.let_in(rt, stream, peer)
            }
            Err(error) => self.remedy(rt, &error),
        }
    }

    /// Handles an error of accept by its remedy.
    fn remedy<R: Clock>(&mut self, rt: &R, error: &io::Error) -> AcceptResult {
        match remedy_for(error) {
            Remedy::End => return AcceptResult::Stop(Stop::Failed),
            Remedy::FreeSpare => return self.accept_by_spare(rt),
            Remedy::AwaitMemory => {
                self.crowd.warn(rt, Warning::NoMemory);
                pause(rt);
            }
            // the first failure is tried again at once, later ones after a pause
            Remedy::Retry if self.has_failed => pause(rt),
            Remedy::Retry => self.has_failed = true,
        }
        AcceptResult::Nothing
    }

    /// Notes that a connection was accepted, and makes the spare descriptor if there is none.
    fn keep_spare(&mut self) {
        self.has_failed = false;
        if self.spare.is_none() {
            self.spare = self.listener.try_clone().ok();
        }
    }

    /// Accepts the next connection with the spare descriptor, and closes it if there is no other.
    ///
    /// It pauses if there is no spare one, or if it doesn't help.
    fn accept_by_spare<R: Clock>(&mut self, rt: &R) -> AcceptResult {
        self.crowd.warn(rt, Warning::NoDescriptor);
        if self.spare.is_none() {
            pause(rt);
            self.spare = self.listener.try_clone().ok();
            return AcceptResult::Nothing;
        }
        self.spare = None;
        let accepted = self.listener.accept();
        self.spare = self.listener.try_clone().ok();
        let Ok((stream, peer)) = accepted else {
            pause(rt);
            return AcceptResult::Nothing;
        };
        if self.spare.is_some() {
            return self.let_in(rt, stream, peer);
        }
        if let Some(mut connection) = self.count_connection(stream, peer) {
            connection.entry.note(CloseReason::NoDescriptor);
        }
        self.spare = self.listener.try_clone().ok();
        AcceptResult::Nothing
    }

    /// Admits a connection, or refuses it with an error if the limit of connections is reached.
    fn let_in<R: Clock>(
        &mut self,
        rt: &R,
        stream: std::net::TcpStream,
        peer: SocketAddr,
    ) -> AcceptResult {
        let Some(mut connection) = self.count_connection(stream, peer) else {
            return AcceptResult::Nothing;
        };
        if connection.entry.is_one_too_many() {
            connection.refuse();
            self.crowd.warn(rt, Warning::TooManyConnections);
            return AcceptResult::Nothing;
        }
        AcceptResult::Connection(connection)
    }

    /// Closes the listener, and waits until no connection is open, for at most 5 seconds.
    fn close<R: Clock>(self, rt: &R) {
        let ListenerWithSpare {
            listener,
            spare,
            crowd,
            ..
        } = self;
        drop(listener);
        drop(spare);
        let began = Instant::now(rt).ok();
        for _look in 0..LOOKS {
            if crowd.open().saturating_add(crowd.lingering()) == 0 || is_past(rt, began) {
                return;
            }
            pause(rt);
        }
    }

    /// Counts a connection, and makes it non-blocking.
    fn count_connection(
        &mut self,
        stream: std::net::TcpStream,
        peer: SocketAddr,
    ) -> Option<Connection> {
        let stream = unblocked(stream)?;
        let crowd = self.crowd.clone().ok()?;
        let stream = TcpStream::from_std(stream);
        Some(Connection::new(crowd, stream, peer))
    }
}

/// A stream whose calls may wait, or never do.
trait Blocking {
    ghost use Rattle.std.specs.Prelude.{Bool, Result};
    ghost use Rattle.std.specs.declared.io.Error.{Error};

    /// It was set whether its calls never wait, and that was answered.
    ghost sets: { Self → Bool → Result (Unit {0}) Error → Type 0 };

    /// Sets whether its calls never wait.
    fn set_nonblocking(&self, is_nonblocking: bool) -> io::Result<()>
        ensures { sets self.now is_nonblocking result };
}

/// A socket. What the system sets is unspecified.
impl Blocking for std::net::TcpStream {
    ghost use Rattle.std.specs.Prelude.{⊤};

    ghost sets = { λ _ _ _. ⊤ };

    fn set_nonblocking(&self, is_nonblocking: bool) -> io::Result<()> {
        std::net::TcpStream::set_nonblocking(self, is_nonblocking)
    }
}

/// Returns the stream once its calls never wait, or `None` if the system can't set that.
fn unblocked<S: Blocking + Drop>(stream: S) -> Option<S>
    ensures { IfSome result (λ set. (set ≡ stream)
        × (answer : Unit {0}) × S.sets stream true (Ok answer)) }
{
    match stream.set_nonblocking(true) {
        Ok(()) => Some(stream),
        Err(_) => None,
    }
}

/// Returns whether the longest wait has passed since `began`, if that is known.
fn is_past<R: Clock>(rt: &R, began: Option<Instant>) -> bool {
    match began {
        Some(began) => match began.elapsed(rt) {
            Ok(time) => time >= Duration::from_secs(CLOSING),
            Err(_) => false,
        },
        None => false,
    }
}

/// Pauses before the next system call.
fn pause<R: Clock>(rt: &R) {
    let _ = thread::sleep(rt, Duration::from_millis(PAUSE));
}
