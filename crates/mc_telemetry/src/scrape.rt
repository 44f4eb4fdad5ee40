//! Answers requests over HTTP, of several clients at once.
//!
//! Contracts state that peers may end the program by each of its connections as by the server, and
//! the server as it was made.
ghost use Rattle.std.specs.Prelude.{◌≡◌, All};
ghost use Rattle.mc_telemetry.specs.declared.scrape_connection.ScrapeConnection.{ScrapeConnection as ConnectionOf};

use crate::observer::Observer;
use crate::page::metrics_page;
use crate::scrape_connection::{Due, ScrapeConnection};
use crate::stats::StoreStats;
use mc_host::ScrapeListener;
use mc_metrics::{HttpAnswer, HttpReply, response};
use mc_sockets::Arrivals;
use mio::net::TcpStream;
use std::alloc::{AllocError, AllocGlobal, Global};
use std::fs::Files;
use std::net::SocketAddr;
use std::sync::Wait;
use std::time::{Clock, Duration};

/// How many connections may be open at once. One more closes the oldest.
const MOST: usize = 64;

/// How long it rests at most while a connection is open, in milliseconds.
const REST: u64 = 100;

/// Answers requests over HTTP at one listener.
#[derive(Drop)]
pub struct MetricsServer {
    door: ScrapeListener,
    observer: Observer,
    /// Whether peers of this machine may ask the program to end.
    may_quit: bool,
    /// The open connections, the oldest first.
    exchanges: Vec<ScrapeConnection>,
    ghost alike: { All (λ (exchange : ConnectionOf). exchange.may_quit ≡ may_quit) exchanges.items },
}

impl MetricsServer {
    ghost use Rattle.std.specs.Prelude.{◌≡◌, ◌<◌, length, All};

    /// Takes a listener and what reads the values of a page. It takes no memory.
    pub fn new(
        alloc: Global,
        door: ScrapeListener,
        observer: Observer,
        may_quit: bool,
    ) -> MetricsServer
        ensures may_quit { result.may_quit ≡ may_quit }
        ensures observer { result.observer ≡ observer }
    {
        MetricsServer {
            door,
            observer,
            may_quit,
            exchanges: Vec::new(alloc),
        }
    }

    /// Answers one request on each connection, until the workers are sent no more connections. A
    /// client that sends nothing, or reads nothing, keeps no other one waiting: its connection is
    /// closed after 2 seconds for its request and 2 for its answer, or sooner if 64 newer ones are
    /// open.
    pub fn answer_all<R: Files + AllocGlobal + Wait + Clock, S: StoreStats>(
        &mut self,
        rt: &R,
        arrivals: &Arrivals,
        stats: &mut S,
    )
        ensures same { self.new.may_quit ≡ self.old.may_quit }
    {
        for _turn in rt.forever() {
            if arrivals.is_over() {
                return;
            }
            let may_come = self.accept_some(rt);
            let may_go_on = self.go_on_all(rt, arrivals, stats);
            if !may_come && !may_go_on {
                let rest = self.rest(arrivals);
                self.door.wait(rt, rest);
            }
        }
    }

    /// Returns how long it may rest.
    fn rest(&self, arrivals: &Arrivals) -> Duration {
        let longest = arrivals.longest_rest();
        if self.exchanges.is_empty() {
            longest
        } else {
            longest.min(Duration::from_millis(REST))
        }
    }

    /// Accepts connections that wait. Returns whether more may wait.
    fn accept_some<R: AllocGlobal + Clock>(&mut self, rt: &R) -> bool
        ensures same { self.new.may_quit ≡ self.old.may_quit }
    {
        for _one in 0..MOST {
            match self.door.accept() {
                Ok((stream, peer)) => self.open(rt, stream, peer),
                Err(_) => return false,
            }
        }
        true
    }

    /// Opens an exchange with a peer, in place of the oldest if there are too many. Without memory
    /// the connection is closed.
    fn open<R: AllocGlobal + Clock>(&mut self, rt: &R, stream: TcpStream, peer: SocketAddr)
        ensures same { self.new.may_quit ≡ self.old.may_quit }
    {
        let opened = ScrapeConnection::new(rt, rt.alloc(), stream, self.may_quit, peer.ip());
        if let Ok(exchange) = opened {
            if self.exchanges.len() >= MOST {
                self.close_at(0);
            }
            let _ = self.exchanges.push(exchange);
        }
    }

    /// Closes the exchange at a place.
    #[tactic(auto, using(crate::proofs::ScrapeLemmas::all_stay))]
    fn close_at(&mut self, at: usize)
        requires { at < length self.old.exchanges.items }
        ensures same { self.new.may_quit ≡ self.old.may_quit }
    {
        drop(self.exchanges.remove(at));
    }

    /// Lets each exchange go on, and closes those that are over. Returns whether one may go on at
    /// once.
    fn go_on_all<R: Files + AllocGlobal + Wait + Clock, S: StoreStats>(
        &mut self,
        rt: &R,
        arrivals: &Arrivals,
        stats: &mut S,
    ) -> bool
        ensures same { self.new.may_quit ≡ self.old.may_quit }
    {
        let mut may_go_on = false;
        let mut at = 0usize;
        for _one in 0..MOST {
            if at >= self.exchanges.len() {
                return may_go_on;
            }
            match self.go_on_at(rt, at, arrivals, stats) {
                Due::Close if at < self.exchanges.len() => self.close_at(at),
                Due::More => {
                    may_go_on = true;
                    at = at.saturating_add(1);
                }
                _ => at = at.saturating_add(1),
            }
        }
        may_go_on
    }

    /// Lets the exchange at a place go on. Returns what is due then.
    fn go_on_at<R: Files + AllocGlobal + Wait + Clock, S: StoreStats>(
        &mut self,
        rt: &R,
        at: usize,
        arrivals: &Arrivals,
        stats: &mut S,
    ) -> Due
        requires { at < length self.old.exchanges.items }
        ensures same { self.new.may_quit ≡ self.old.may_quit }
    {
        go_on(rt, &mut self.exchanges[at], &self.observer, arrivals, stats)
    }
}

/// Lets an exchange go on, and answers its request if that is due. Returns what is due then.
fn go_on<R: Files + AllocGlobal + Wait + Clock, S: StoreStats>(
    rt: &R,
    exchange: &mut ScrapeConnection,
    observer: &Observer,
    arrivals: &Arrivals,
    stats: &mut S,
) -> Due
    ensures same { exchange.new.may_quit ≡ exchange.old.may_quit }
{
    let reply = match exchange.go_on(rt) {
        Due::Answer(reply) => stopped_by(arrivals, reply),
        due => return due,
    };
    match text_of(rt, reply, observer, stats) {
        Ok(text) => exchange.answer(rt, text, reply.answer.may_leave_input()),
        Err(AllocError) => exchange.answer_without_memory(rt),
    }
    exchange.go_on(rt)
}

/// Asks the server to end if a reply answers so. Returns the reply, or that it can't be asked.
fn stopped_by(arrivals: &Arrivals, reply: HttpReply) -> HttpReply {
    match reply.answer {
        HttpAnswer::Stopping if !arrivals.ask_to_close() => HttpReply::whole(
            HttpAnswer::CannotStop,
        ),
        _ => reply,
    }
}

/// Returns the text of a reply. The one error is a refused allocation.
fn text_of<R: Files + AllocGlobal + Wait + Clock, S: StoreStats>(
    rt: &R,
    reply: HttpReply,
    observer: &Observer,
    stats: &mut S,
) -> Result<Vec<u8>, AllocError> {
    let alloc = rt.alloc();
    match reply.answer {
        HttpAnswer::Metrics => {
            let reading = observer.read(rt, stats)?;
            let page = metrics_page(alloc, &reading)?;
            response(alloc, reply, page.as_slice())
        }
        _ => response(alloc, reply, b""),
    }
}
