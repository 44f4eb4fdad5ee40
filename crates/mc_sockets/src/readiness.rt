//! What is known of a connection between two events.
//!
//! The system reports changes only: that there is something to read after nothing was, and that
//! there is room to write after none was. So a call lowers a flag once it learns that nothing more
//! can be read or written, by an error or by a short count, and an event raises it again. A read is
//! short at urgent data and at the end too; once they were reported, only an error lowers the flag.
//!
//! A link that answers `Later` waits, and the next event names it. By [`no_wake_up_is_lost`] each
//! change for which a link waits is reported.
ghost use Rattle.std.specs.Prelude.{◌≡◌, true};
ghost use Rattle.mc_sockets.specs.Readiness.{after, going, report_of, takes_all};
ghost use Rattle.mc_sockets.specs.LinkRecords.{waits_for_client};
ghost use Rattle.mc_sockets.specs.Readiness.{Read, Wrote, Paused, Reported, AskedAgain, Ended};

use crate::connection::CloseReason;
use crate::stream::{NoBytes, Received, Sent};
use mio::event::Event;
use std::cell::Cell;
use std::rc::Rc;

/// The readiness of a connection, as the system last reported it.
#[derive(Clone, Copy)]
pub struct Readiness {
    /// There may be something to read.
    pub reads: bool,
    /// There may be room to write.
    pub writes: bool,
    /// The other end sends no more, or the connection failed.
    pub is_final: bool,
    /// The connection failed, or both ends have closed it.
    pub has_failed: bool,
    /// Urgent data arrived; a read stops short there.
    pub is_marked: bool,
    /// Its link answered `Later`, and is named at the next event.
    pub waits: bool,
    /// It began to wait since the last look at idle connections.
    pub is_fresh: bool,
    /// Its link was dropped, and its client may still send or read.
    pub leaves: bool,
    /// The input bytes dropped since its write side was shut down; `None` before that.
    pub dropped: Option<usize>,
    /// The time for its client to read its last answers is over.
    pub has_lingered: bool,
    /// The reason for which it is to be closed.
    pub ends: Option<CloseReason>,
}

/// What an event reports of a connection.
#[derive(Clone, Copy)]
pub struct Report {
    /// There is something to read.
    pub input: bool,
    /// There is room to write.
    pub room: bool,
    /// The other end sends no more, or the connection failed.
    pub end: bool,
    /// The connection failed, or both ends have closed it.
    pub failure: bool,
    /// Urgent data arrived.
    pub urgent: bool,
}

impl Report {
    /// Returns what an event reports.
    pub fn of(event: &Event) -> Report
        ensures { result ≡ report_of event.now }
    {
        Report {
            input: event.is_readable(),
            room: event.is_writable(),
            end: event.is_read_closed() || event.is_error(),
            failure: event.is_error() || event.is_write_closed(),
            urgent: event.is_priority(),
        }
    }
}

impl Readiness {
    /// A new connection without any report.
    pub const NEW: Readiness = Readiness {
        reads: true,
        writes: true,
        is_final: false,
        has_failed: false,
        is_marked: false,
        waits: false,
        is_fresh: false,
        leaves: false,
        dropped: None,
        has_lingered: false,
        ends: None,
    };

    /// Returns whether its link waits for its client: for input, or for room in the socket.
    ///
    /// One that waits though there may be both waits for memory. Its input stays unread meanwhile.
    pub fn waits_for_client(self) -> bool
        ensures { result ≡ waits_for_client self }
    {
        self.waits && !(self.reads && self.writes)
    }

    /// Returns what is known after a read into a piece of `room` bytes.
    pub fn after_read(self, answer: Received, room: usize) -> Readiness
        ensures { result ≡ after self (Read answer room) }
    {
        match answer {
            Received::Bytes(count) => Readiness {
                reads: self.reads && !self.takes_all(count, room),
                waits: false,
                ..self
            },
            Received::Hindered(NoBytes::WouldBlock) => Readiness {
                reads: false,
                waits: true,
                is_fresh: true,
                ..self
            },
            Received::End | Received::Hindered(_) => self.going(),
        }
    }

    /// Returns whether a read of `count` bytes into a piece of `room` bytes took all there is.
    fn takes_all(self, count: usize, room: usize) -> bool
        ensures { result ≡ takes_all self count room }
    {
        count < room && !self.is_final && !self.is_marked
    }

    /// Returns what is known after a write of `offered` bytes.
    pub fn after_write(self, answer: Sent, offered: usize) -> Readiness
        ensures { result ≡ after self (Wrote answer offered) }
    {
        match answer {
            Sent::Bytes(count) => Readiness {
                writes: self.writes && count >= offered,
                waits: false,
                ..self
            },
            Sent::Hindered(NoBytes::WouldBlock) => {
                let waits = self.ends.is_none();
                Readiness {
                    writes: false,
                    waits,
                    is_fresh: self.is_fresh || waits,
                    ..self
                }
            }
            Sent::Hindered(_) => self.going(),
        }
    }

    /// Returns what is known once its link goes on.
    fn going(self) -> Readiness
        ensures { result ≡ going self }
    {
        Readiness {
            waits: false,
            ..self
        }
    }

    /// Returns what is known once its guest waits for memory: the next event names its link.
    pub fn after_pause(self) -> Readiness
        ensures { result ≡ after self Paused }
    {
        Readiness {
            waits: true,
            is_fresh: self.is_fresh || !self.waits,
            ..self
        }
    }

    /// Returns what is known after a report.
    pub fn after_report(self, report: Report) -> Readiness
        ensures { result ≡ after self (Reported report) }
    {
        Readiness {
            reads: self.reads || report.input || report.end,
            writes: self.writes || report.room || report.end,
            is_final: self.is_final || report.end,
            has_failed: self.has_failed || report.failure,
            is_marked: self.is_marked || report.urgent,
            waits: false,
            ..self
        }
    }

    /// Returns what is known once its link is to ask the system again, if it waits or was dropped.
    pub fn asked_again(self) -> Readiness
        ensures { result ≡ after self AskedAgain }
    {
        let asks = self.waits || self.leaves;
        Readiness {
            reads: self.reads || asks,
            writes: self.writes || asks,
            waits: false,
            ..self
        }
    }

    /// Returns what is known once its link was dropped: each event then sends what the link left.
    pub fn leaving(self) -> Readiness
        ensures { result ≡ record self { leaves = true } }
    {
        Readiness {
            leaves: true,
            ..self
        }
    }

    /// Returns what is known once it is to be closed for this reason.
    pub fn ending(self, parting: CloseReason) -> Readiness
        ensures { result ≡ after self (Ended parting) }
    {
        Readiness {
            ends: Some(parting),
            waits: false,
            ..self
        }
    }
}

/// Where the readiness of a connection stands, between its link and its worker.
pub trait ReadinessCell {
    ghost use Rattle.std.specs.Prelude.{◌≡◌, Option, IfSome};
    ghost use Rattle.mc_sockets.specs.declared.readiness.Readiness.{Readiness};

    /// The readiness; none where others may change it meanwhile.
    ghost known: { Self → Option Readiness };

    /// Returns the readiness.
    fn look(&self) -> Readiness
        ensures { IfSome (known self.now) (λ readiness. result ≡ readiness) };

    /// Sets the readiness.
    fn note(&mut self, readiness: Readiness)
        ensures { IfSome (known self.new) (λ noted. noted ≡ readiness) };
}

/// The readiness that a link shares with its worker.
pub type SharedReadiness = Rc<Cell<Readiness>>;

impl ReadinessCell for Rc<Cell<Readiness>> {
    ghost use Rattle.std.specs.Prelude.{None};

    ghost known = { λ _. None };

    fn look(&self) -> Readiness {
        self.get()
    }

    fn note(&mut self, readiness: Readiness) {
        self.set(readiness)
    }
}
