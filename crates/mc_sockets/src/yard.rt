//! Connections whose sessions ended before their clients did, and the places of links.
//!
//! Output left when a session ends stays with its worker until the system takes it, at the place of
//! its link: `quit` behind many answers loses none. Then the write side is shut down, and what the
//! client sends on is dropped until it ends, because a close with unread input resets the
//! connection and loses answers. After 1 MiB, or 2 seconds (`links.rt`), it is closed all the same.
//! So is the one that lingers longest if one more than a limit would linger.
//!
//! A place is free, or a link has it, or what a link left lingers there. It is proved for whatever
//! may linger.
ghost use Rattle.std.specs.Prelude.{◌≡◌, ◌↔◌, IfSome, IsTrue, Some};
ghost use Rattle.slab.specs.Slab.{get, with_value};
ghost use Rattle.mc_sockets.specs.Offers.{OffersAll};

use crate::channel::ScreenedChannel;
use mc_links::{Gathering, Link};
use slab::Slab;
use std::alloc::{AllocError, Global};

/// What a link leaves behind when it is dropped.
pub trait Lingering {
    ghost use Rattle.std.specs.Prelude.{Bool};

    /// It is looked at, and answers so whether nothing is left to do.
    ghost looks: { Self → Bool → Self → Type 0 };

    /// It sends what it can, and answers so whether nothing is left to do.
    ghost sends: { Self → Bool → Self → Type 0 };

    /// It is noted that it lingers.
    ghost leaves: { Self → Self → Type 0 };

    /// Returns whether nothing is left to do.
    fn is_done(&mut self) -> bool
        ensures { looks self.old result self.new };

    /// Sends what is left, as far as there is room, and returns whether nothing is left to do.
    fn send_rest(&mut self) -> bool
        ensures { sends self.old result self.new };

    /// Notes that it lingers.
    fn leave(&mut self)
        ensures { leaves self.old self.new };
}

/// Output that a link gathered. Whether its channel has anything left to do is unspecified.
impl Lingering for Gathering<ScreenedChannel> {
    ghost looks = { λ old _ new. new ≡ old };

    ghost sends = { λ old _ new. OffersAll old new };

    ghost leaves = { λ old new. new ≡ old };

    /// Returns whether nothing is left to do: all was sent and the client sends no more, or the
    /// channel failed or is to end.
    fn is_done(&mut self) -> bool {
        let channel = self.link().link();
        channel.is_over() || self.is_empty() && channel.has_drained()
    }

    fn send_rest(&mut self) -> bool {
        offer_all(self);
        self.is_done()
    }

    fn leave(&mut self) {
        self.link().link().leave();
    }
}

/// Offers all that is gathered for a link to it.
pub(crate) fn offer_all<L: Link + Drop>(gathering: &mut Gathering<L>)
    ensures { OffersAll gathering.old gathering.new }
{
    // if that fails, the client no longer reads
    let _ = gathering.flush();
}

/// A place that isn't free.
#[derive(Drop)]
pub(crate) enum YardSpot<L: Lingering + Drop> {
    /// A link has it.
    InUse,
    /// What a link left lingers there.
    Lingers(Box<L>),
}

impl<L: Lingering + Drop> YardSpot<L> {
    ghost use Rattle.mc_sockets.specs.Yards.{SpotSent};

    /// Sends what lingers there, and returns whether nothing is left to do.
    fn send_rest(&mut self) -> bool
        ensures { SpotSent L.sends self.old result self.new }
    {
        match self {
            YardSpot::Lingers(one) => one.send_rest(),
            YardSpot::InUse => false,
        }
    }
}

/// The places of links: which are free, and what lingers at others.
#[derive(Drop)]
pub struct Yard<L: Lingering + Drop> {
    alloc: Global,
    spots: Slab<YardSpot<L>>,
    /// The places at which something lingers, that of the longest first.
    queue: Vec<usize>,
    /// How many may linger.
    most: usize,
}

/// The yard of a worker's sockets.
pub type SocketYard = Yard<Gathering<ScreenedChannel>>;

impl<L: Lingering + Drop> Yard<L> {
    ghost use Rattle.std.specs.Prelude.{ℕ};
    ghost use Rattle.std.specs.Prelude.{[]};
    ghost use Rattle.mc_sockets.specs.Yards.{place_at, Changes, Free, InUse, TakesIn, Stays};
    ghost use Rattle.mc_sockets.specs.Yards.{HasSent, ClosesLongest, SendsRest, without};

    /// Makes a yard whose places are all free, in which at most this many linger. It takes no
    /// memory.
    pub fn new(alloc: Global, most: usize) -> Yard<L>
        ensures free { (place : ℕ) → place_at result.spots place ≡ Free }
        ensures queue { result.queue.items ≡ [] }
        ensures most { result.most ≡ most }
    {
        Yard {
            alloc,
            spots: Slab::new(alloc),
            queue: Vec::new(alloc),
            most,
        }
    }

    /// Takes a free place for a link, and returns it. Returns `None` if memory is refused.
    pub fn take_place(&mut self) -> Option<usize>
        ensures was_free { IfSome result (λ place. place_at self.old.spots place ≡ Free) }
        ensures taken { IfSome result (λ place.
            Changes self.old.spots self.new.spots place InUse) }
        ensures queue { self.new.queue.items ≡ self.old.queue.items }
    {
        self.spots.insert(YardSpot::InUse).ok()
    }

    /// Takes in what a link left that is dropped.
    ///
    /// The place is free if nothing is left to do; else what the link left lingers there, last in
    /// the queue. If more linger than may, the first in the queue is closed. If memory is refused,
    /// the connection is closed and the place is free. Nothing happens if no link has the place.
    pub fn take_in(&mut self, place: usize, one: L) -> Result<(), AllocError>
        ensures takes { place_at self.old.spots place ≡ InUse →
            TakesIn L.looks L.leaves place one result self.old self.new }
        ensures others { (place_at self.old.spots place ≡ InUse → ⊥) → self.new ≡ self.old }
    {
        let mut one = one;
        if !self.is_in_use(place) {
            return Ok(());
        }
        if one.is_done() {
            self.free(place);
            return Ok(());
        }
        one.leave();
        let kept = self.keep(place, one);
        self.close_longest();
        kept
    }

    /// Sends what is left at a place, and frees the place if nothing is left to do then.
    pub fn send_rest(&mut self, place: usize)
        ensures { SendsRest L.sends place (place_at self.old.spots place) self.old self.new }
    {
        if self.has_sent(place) {
            self.free(place);
            self.forget(place);
        }
    }

    /// Closes the one that lingers longest if more linger than may.
    fn close_longest(&mut self)
        ensures { ClosesLongest self.old self.new }
    {
        if self.queue.len() <= self.most {
            return;
        }
        let longest = self.queue.remove(0);
        self.free(longest);
    }

    /// Takes a place out of the queue.
    fn forget(&mut self, place: usize)
        ensures same { self.new ≡ record self.old { queue = self.new.queue } }
        ensures queue { self.new.queue.items ≡ without place self.old.queue.items }
    {
        self.queue.retain(|at| *at != place);
    }

    /// Returns whether a link has a place.
    fn is_in_use(&self, place: usize) -> bool
        ensures { IsTrue result ↔ (place_at self.now.spots place ≡ InUse) }
    {
        match self.spots.get(place) {
            Some(YardSpot::InUse) => true,
            Some(YardSpot::Lingers(_)) | None => false,
        }
    }

    /// Frees a place. What lingers there is closed.
    pub fn free(&mut self, place: usize)
        ensures freed { Changes self.old.spots self.new.spots place Free }
        ensures same { self.new ≡ record self.old { spots = self.new.spots } }
    {
        let _ = self.spots.try_remove(place);
    }

    /// Keeps what a link left at its place, last in the queue, and frees the place if memory is
    /// refused.
    fn keep(&mut self, place: usize, one: L) -> Result<(), AllocError>
        requires { place_at self.old.spots place ≡ InUse }
        ensures { Stays (λ old new. new ≡ old) place one result self.old self.new }
    {
        if self.queue.push(place).is_err() {
            self.free(place);
            return Err(AllocError);
        }
        match Box::new(self.alloc, one) {
            Ok(one) => {
                self.set(place, YardSpot::Lingers(one));
                Ok(())
            }
            Err(_) => {
                self.queue.pop();
                self.free(place);
                Err(AllocError)
            }
        }
    }

    /// Sets a place that isn't free.
    fn set(&mut self, place: usize, spot: YardSpot<L>)
        requires { (place_at self.old.spots place ≡ Free) → ⊥ }
        ensures set { self.new.spots ≡ with_value self.old.spots place spot }
        ensures same { self.new ≡ record self.old { spots = self.new.spots } }
    {
        if let Some(at) = self.spots.get_mut(place) {
            *at = spot;
        }
    }

    /// Sends what is left at a place, and returns whether nothing is left to do.
    ///
    /// It returns false if nothing lingers there.
    fn has_sent(&mut self, place: usize) -> bool
        ensures sent { HasSent L.sends place (place_at self.old.spots place) result self.old.spots
            self.new.spots }
        ensures same { self.new ≡ record self.old { spots = self.new.spots } }
    {
        match self.spots.get_mut(place) {
            Some(spot) => spot.send_rest(),
            None => false,
        }
    }
}
