//! A worker's calls of its links between two rounds.
//!
//! Names and rests show nothing to contracts, so the calls are noted in `LinkCalls`: the next link,
//! the names, the rest. That the notes are true is read in three short functions.
ghost use Rattle.std.specs.Prelude.{◌≡◌, ◌↔◌, ◌<◌, ◌&&◌, ◌==◌, Some, IsTrue};
ghost use Rattle.mc_guests.specs.Admissions.{unasked, came, came_of, heard, most_names, WakesAllNamed, ComesNothing};
ghost use Rattle.mc_guests.specs.declared.link_calls.NextAnswer.TheVariants.{Link as ALink};
ghost use Rattle.mc_links.specs.Coming.{IsNext};

use crate::guests::Guests;
use mc_links::{Link, Links, Next};

/// The answer to the call for the next link.
#[derive(Clone, Copy, PartialEq, Eq)]
pub enum NextAnswer {
    Link,
    /// None now.
    Later,
    /// None any more.
    Closed,
}

/// The calls of links since the last round, and their answers.
#[derive(Clone, Copy)]
pub struct LinkCalls {
    /// The next link, if it was called for.
    pub came: Option<NextAnswer>,
    /// The number of names.
    pub names: usize,
    /// The last name, or `None` if there was no further one.
    pub named: Option<u64>,
    /// Whether they rested, as there was nothing to do.
    pub has_rested: bool,
}

/// The most names between two rounds.
const NAMES: usize = 1024;

impl LinkCalls {
    /// Returns a talk without calls.
    pub(crate) fn new() -> LinkCalls
        ensures { result ≡ unasked }
    {
        LinkCalls {
            came: None,
            names: 0,
            named: None,
            has_rested: false,
        }
    }

    /// Gets the next link.
    pub(crate) fn next<L: Link + Drop, Q: Links<L>>(&mut self, links: &mut Q) -> Next<L>
        ensures notes { self.new ≡ came (came_of result) self.old }
        ensures gives { IsNext (Q.coming links.old) result (Q.coming links.new) }
    {
        match links.next() {
            Next::Link(link) => {
                self.came = Some(NextAnswer::Link);
                Next::Link(link)
            }
            Next::Later => {
                self.came = Some(NextAnswer::Later);
                Next::Later
            }
            Next::Closed => {
                self.came = Some(NextAnswer::Closed);
                Next::Closed
            }
        }
    }

    /// Returns whether a link came next.
    pub(crate) fn gave_link(&self) -> bool
        ensures { IsTrue result ↔ (self.now.came ≡ Some ALink) }
    {
        self.came == Some(NextAnswer::Link)
    }

    /// Gets the name of a link that may give or take more.
    fn ready<L: Link + Drop, Q: Links<L>>(&mut self, links: &mut Q) -> Option<u64>
        requires { self.old.names < most_names }
        ensures notes { self.new ≡ heard result self.old }
        ensures same { Q.coming links.new ≡ Q.coming links.old }
    {
        match links.ready() {
            Some(number) => {
                self.names += 1;
                self.named = Some(number);
                Some(number)
            }
            None => {
                self.named = None;
                None
            }
        }
    }

    /// Wakes the guests whose links are named, at most 1024.
    pub(crate) fn wake_named<L: Link + Drop, Q: Links<L>>(
        &mut self,
        links: &mut Q,
        guests: &mut Guests<L>,
    )
        requires { self.old.names ≡ 0 }
        ensures wakes { WakesAllNamed self.old guests.old self.new guests.new }
        ensures same { Q.coming links.new ≡ Q.coming links.old }
    {
        for _ in 0..NAMES {
            match self.ready(links) {
                Some(number) => guests.wake(number),
                None => return,
            }
        }
    }

    /// Wakes the guests whose links are named, and rests if no guest was awake and none was named.
    /// After a rest it wakes those whose links are named then.
    pub(crate) fn wait<L: Link + Drop, Q: Links<L>>(
        &mut self,
        links: &mut Q,
        guests: &mut Guests<L>,
        is_quiet: bool,
    )
        requires { self.old.names ≡ 0 }
        ensures nothing { ComesNothing is_quiet self.old guests.old self.new guests.new }
        ensures same { Q.coming links.new ≡ Q.coming links.old }
    {
        self.wake_named(links, guests);
        if self.rest_if(links, is_quiet) {
            self.wake_named(links, guests);
        }
    }

    /// Rests if no guest was awake and none was named, and returns whether it did.
    fn rest_if<L: Link + Drop, Q: Links<L>>(&mut self, links: &mut Q, is_quiet: bool) -> bool
        ensures rests { result ≡ (is_quiet && self.old.names == 0) }
        ensures notes { self.new ≡ record self.old { has_rested = result } }
        ensures none { IsTrue result → self.new.names ≡ 0 }
        ensures same { Q.coming links.new ≡ Q.coming links.old }
    {
        let rests = is_quiet && self.names == 0;
        self.has_rested = rests;
        if rests {
            links.rest();
        }
        rests
    }
}
