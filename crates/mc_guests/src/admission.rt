//! Admits new guests between rounds.
//!
//! Up to 32 links are admitted between two rounds, so a burst doesn't wait for as many rounds, and
//! guests wait for at most 32 newcomers.
ghost use Rattle.std.specs.Prelude.{◌≡◌, IsTrue, IsFalse};
ghost use Rattle.mc_guests.specs.Books.{one_more};
ghost use Rattle.mc_guests.specs.Admissions.{shut, counted_in, LetsIn, Opens, OpensForAll};
ghost use Rattle.mc_guests.specs.Arrivals.{seen_by, came_in, came_between, turned_away, Brings};
ghost use Rattle.mc_guests.specs.Leaving.{refused_of, AreLetGo};

use crate::guests::{Guests, WorkEnd};
use crate::leaving::LeavingLink;
use crate::link_calls::LinkCalls;
use mc_links::{Links, Next};
use std::alloc::Global;

/// The most links that are admitted between two rounds.
const LINKS: usize = 32;

/// The door through which guests come.
#[derive(Clone, Copy)]
pub struct Admission {
    /// The greatest charge of a storage command, in bytes.
    pub greatest: u64,
    /// The number of links that were returned, modulo 2^64.
    pub opened: u64,
    /// The calls of the links since the last round.
    pub talk: LinkCalls,
}

impl Admission {
    /// Makes a door without guests; storage commands may charge at most `greatest` bytes.
    pub fn new(greatest: u64) -> Admission
        ensures { result ≡ shut greatest }
    {
        Admission {
            greatest,
            opened: 0,
            talk: LinkCalls::new(),
        }
    }

    /// Admits waiting links, one opening for each, until none is left or 32 came.
    ///
    /// So newcomers wait for few rounds, and guests wait for at most 32 newcomers. Only the last
    /// opening rests, if no guest was admitted before it and there is nothing to do. Each opening
    /// wakes the guests whose links are named, at most 1024. Returns whether more can come. The
    /// links that come are the next ones of those that are to come, if these are known.
    pub fn open_for_all<L: LeavingLink + Drop, Q: Links<L>>(
        &mut self,
        alloc: Global,
        links: &mut Q,
        guests: &mut Guests<L>,
        end: &mut WorkEnd,
    ) -> bool
        ensures { (opens : OpensForAll self.old self.new guests.old guests.new end.old end.new
            result) × Brings (came_between opens) result (seen_by L.shown (Q.coming links.old))
            (seen_by L.shown (Q.coming links.new))
            × AreLetGo L.leaves (turned_away (came_between opens)) guests.old.gone guests.new.gone }
    {
        for _ in 0..LINKS {
            let is_quiet = guests.is_quiet();
            let goes_on = self.open(alloc, links, guests, end, is_quiet);
            if !self.talk.gave_link() {
                return goes_on;
            }
        }
        true
    }

    /// Gets the next link once, and wakes the guests whose links are named.
    ///
    /// It rests if there is nothing to do. Returns whether more can come: not if no more links come
    /// and there is no guest.
    fn open<L: LeavingLink + Drop, Q: Links<L>>(
        &mut self,
        alloc: Global,
        links: &mut Q,
        guests: &mut Guests<L>,
        end: &mut WorkEnd,
        is_quiet: bool,
    ) -> bool
        ensures { (opens : Opens is_quiet self.old self.new guests.old guests.new end.old end.new
            result) × Brings (came_in opens) result (seen_by L.shown (Q.coming links.old))
            (seen_by L.shown (Q.coming links.new))
            × AreLetGo L.leaves (turned_away (came_in opens)) guests.old.gone guests.new.gone }
    {
        self.talk = LinkCalls::new();
        match self.talk.next(links) {
            Next::Link(link) => {
                self.let_in(alloc, link, guests, end);
                self.talk.wake_named(links, guests);
                true
            }
            Next::Later => {
                self.talk.wait(links, guests, is_quiet);
                true
            }
            Next::Closed if guests.is_empty() => false,
            Next::Closed => {
                self.talk.wait(links, guests, is_quiet);
                true
            }
        }
    }

    /// Makes a guest of a link, or counts it as refused and lets it go.
    fn let_in<L: LeavingLink + Drop>(
        &mut self,
        alloc: Global,
        link: L,
        guests: &mut Guests<L>,
        end: &mut WorkEnd,
    )
        ensures lets { (lets : LetsIn self.old.greatest self.old.opened guests.old guests.new
            end.old end.new) × (lets.link ≡ L.shown link)
            × AreLetGo L.leaves (refused_of lets) guests.old.gone guests.new.gone }
        ensures counts { self.new ≡ counted_in self.old }
    {
        let came = guests.welcome(alloc, link, self.greatest, self.opened);
        count_refused(end, came);
        self.opened = self.opened.wrapping_add(1);
    }
}

/// Counts a link that didn't become a guest as refused.
fn count_refused(end: &mut WorkEnd, came: bool)
    ensures came { IsTrue came → end.new ≡ end.old }
    ensures refused { IsFalse came →
        end.new ≡ record end.old { refused = one_more end.old.refused } }
{
    if !came {
        end.refused = end.refused.saturating_add(1);
    }
}
