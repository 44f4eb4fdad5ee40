//! Connections over sockets: accepted and counted, dealt to workers, and made links.
//!
//! The way of a connection: it is accepted and counted (`accepting.rt`, `connection.rt`), dealt to
//! a worker (`arrivals.rt`), and made a link (`links.rt`, `link.rt`). A [`Channel`] owns it from
//! then on (`channel.rt`), over a [`Stream`] that never blocks (`stream.rt`, `io_stream.rt`). The
//! poll is asked for its events (`registering.rt`), which wake its guest (`link_table.rt`,
//! `link_record.rt`, `idle.rt`). Output that isn't sent when its session ends is sent later, and
//! input is dropped (`yard.rt`, `dropping.rt`). `closing.rt` is how all of it ends when it is asked
//! to, `phase.rt` how far that is. Lines about connections, and that the store is full, wait in a
//! [`Log`] (`log.rt`, `lines.rt`, `shortage.rt`) for the one thread that writes them, so that no
//! other thread waits for standard error.
//!
//! Channels are proved for any stream: what a link gives is the front of what its stream had left,
//! what it takes goes to the stream in order, and each answer comes of the stream's answer and of
//! the readiness (`specs/Channels.antt`). A socket's stream is an [`IoStream`], of which each call
//! is one call of `Read` or `Write`. It is proved for any of these: of a socket's bytes the
//! standard library promises nothing, and bytes in memory are known. Readiness is a function from
//! what is known and what happens to what is known then (`specs/Readiness.antt`), and by
//! [`no_wake_up_is_lost`] no wake-up is lost under edge-triggered polling (`specs/Wakeups.antt`).
//!
//! Scheduling, the poll and shared counters are unspecified: tests/sockets tests what comes of
//! them.
//!
//! Begin with `src/channel.rt`, `src/readiness.rt` and `src/links.rt`.
//!
//! Tests: mc_server_tests, src/tests/lines_tests.rt.
#![tactic(auto)]

mod accepting;
mod arrivals;
mod channel;
mod closing;
mod connection;
mod dropping;
mod header;
mod idle;
mod io_stream;
mod laws;
mod lines;
mod link;
mod link_record;
mod link_table;
mod links;
mod log;
mod meter;
mod opening;
mod phase;
mod readiness;
mod registering;
mod remedy;
mod screen;
mod shortage;
mod stream;
mod warning;
mod yard;

pub use accepting::{accept_all, accept_beside};
pub use arrivals::{Arrivals, Inbox, Share};
pub use channel::{Channel, SocketChannel};
pub use closing::ClosingLinks;
pub use connection::{CloseReason, Connection, ConnectionLimit, PARTINGS, Registration};
pub use header::HeaderPart;
pub use idle::SweepCursor;
pub use io_stream::{Duplex, IoStream};
pub use laws::no_wake_up_is_lost;
pub use lines::{LogLine, LogQueue, WaitingLine};
pub use link::SocketLink;
pub use links::{EVENTS, Poller, SocketLinks, WAKER};
pub use log::Log;
pub use meter::{Meter, SharedMeter};
pub use opening::{Opening, Part, PieceOpening, Protocol};
pub use readiness::{Readiness, ReadinessCell, Report, SharedReadiness};
pub use screen::{Peer, Reads, Screen};
pub use shortage::{ShortageTally, Wanted};
pub use stream::{NoBytes, Received, Sent, Stream};
pub use warning::Warning;
