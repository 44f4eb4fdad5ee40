//! How a worker's connections end when the program is asked to.
//!
//! While the program ends, idle connections end by the way of `--idle-timeout`, after 1 second.
//! Workers and links know nothing else of the shutdown.

ghost use Rattle.std.specs.Prelude.{◌≡◌, None};
ghost use Rattle.mc_sockets.specs.declared.connection.CloseReason.{CloseReason as Reason};

use crate::arrivals::Arrivals;
use crate::link::SocketLink;
use crate::links::SocketLinks;
use mc_links::{Links, Next};
use std::sync::Wait;
use std::time::Clock;

/// Idle timeout during shutdown, in seconds.
const QUIET: u32 = 1;

/// The links of a worker. During shutdown a link ends once it was idle for a second.
///
/// It is idle if its client sends nothing and reads nothing of its output.
#[derive(Drop)]
pub struct ClosingLinks<'a, R: Wait + Clock> {
    links: SocketLinks<'a, R>,
    arrivals: &'a Arrivals,
    is_closing: bool,
}

impl<'a, R: Wait + Clock> ClosingLinks<'a, R> {
    /// Returns links that don't end yet.
    pub fn new(links: SocketLinks<'a, R>, arrivals: &'a Arrivals) -> ClosingLinks<'a, R> {
        ClosingLinks {
            links,
            arrivals,
            is_closing: false,
        }
    }

    /// Closes connections that are idle, from when the program is asked to end.
    fn heed_end(&mut self)
        ensures { self.new.links.seats ≡ self.old.links.seats }
    {
        if !self.is_closing && self.arrivals.is_closing() {
            self.is_closing = true;
            self.links.stop_idle(QUIET);
        }
    }
}

impl<'a, R: Wait + Clock> Links<SocketLink> for ClosingLinks<'a, R> {
    ghost use Rattle.mc_sockets.specs.LinkTables.{CountsNext, HappensToLink, Names};
    ghost use Rattle.mc_sockets.specs.Readiness.{AskedAgain, Ended};

    fn next(&mut self) -> Next<SocketLink>
        ensures { CountsNext result self.old.links.seats self.new.links.seats }
    {
        self.heed_end();
        self.links.next()
    }

    fn ready(&mut self) -> Option<u64>
        ensures { Names result self.old.links.seats self.new.links.seats }
    {
        self.links.ready()
    }

    fn rest(&mut self) {
        self.links.rest()
    }

    fn end(&mut self, number: u64)
        ensures { HappensToLink (λ _. None) (Ended Reason.Hoarding) number self.old.links.seats
            self.new.links.seats }
    {
        self.links.end(number)
    }

    fn ticks(&mut self) -> u64
        ensures { result ≡ self.old.links.ticks }
    {
        self.links.ticks()
    }

    fn is_due(&self) -> bool {
        self.links.is_due()
    }

    fn look(&mut self) {
        self.links.look()
    }

    fn ask_again(&mut self, number: u64)
        ensures { HappensToLink (λ _. None) AskedAgain number self.old.links.seats
            self.new.links.seats }
    {
        self.links.ask_again(number)
    }
}
