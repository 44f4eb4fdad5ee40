//! The books of a worker's links: the record of each place, and the links to be named.
//!
//! They are proved for any readiness: each event of a poll is noted once, at the place of its token
//! and no other, a link is ended by its own number, and a look changes the place alone that it is
//! at. What the poll reports, and when, is unspecified (`links.rt`).
ghost use Rattle.std.specs.Prelude.{◌≡◌, ◌<◌, ◌≤◌, ◌+◌, ◌-◌, ◌^◌, [], length};
ghost use Rattle.std.specs.Prelude.{IsTrue, IsFalse, MatchBool, OnOk};

use crate::connection::CloseReason;
use crate::idle::SweepCursor;
use crate::link_record::{LinkRecord, SweepLimits};
use crate::readiness::{ReadinessCell, Report};
use mio::Events;
use mio::event::Event;
use std::alloc::{AllocError, Global};
use std::collections::VecDeque;
use std::time::{Duration, Instant};

/// What dropped links left at their places.
pub trait Rests {
    ghost use Rattle.std.specs.Prelude.{ℕ};

    /// What the link at a place left was sent.
    ghost sends: { Self → ℕ → Self → Type 0 };

    /// Sends what the link at a place left.
    fn send_rest(&mut self, at: usize)
        ensures { sends self.old at self.new };
}

/// What a look at a place does.
#[derive(Clone, Copy)]
pub enum SweepAction {
    /// It ends a connection for this reason if it was idle for the watch's limit.
    EndIdle(CloseReason),
    /// It closes a connection that lingered for this time, and names a link again that had no event
    /// for the watch's limit.
    AskUnheard(Duration),
}

/// The records of a worker's links by place, and the links to be named.
#[derive(Drop)]
pub struct LinkTable<F: ReadinessCell + Drop> {
    places: Vec<LinkRecord<F>>,
    /// The numbers of the links to be named, oldest first.
    ///
    /// A waiting link is named once, so there are at most as many as places.
    named: VecDeque<u64>,
    /// The number of links handed out, which is that of the next link.
    given: u64,
}

impl<F: ReadinessCell + Drop> LinkTable<F> {
    ghost use Rattle.std.specs.Prelude.{◌%◌};
    ghost use Rattle.mc_sockets.specs.LinkRecords.{AsksOrCloses, EndsIfIdle, HappensIf, HappensTo};
    ghost use Rattle.mc_sockets.specs.LinkRecords.{Notes};
    ghost use Rattle.mc_sockets.specs.Readiness.{AskedAgain, Ended};
    ghost use Rattle.mc_sockets.specs.LinkTables.{ActsAt, AnswersAt, AreHeard, HasRoom, Hears};
    ghost use Rattle.mc_sockets.specs.LinkTables.{EndsAll, HappensToLink, IsFull, LooksAtNext};
    ghost use Rattle.mc_sockets.specs.LinkTables.{LooksInTurn, Names, Patrols, Settles, sweep};
    ghost use Rattle.mio.specs.Events.{items};

    /// Makes books without a place. It takes no memory.
    pub fn new(alloc: Global) -> LinkTable<F>
        ensures places { result.places.items ≡ [] }
        ensures names { result.named.items ≡ [] }
        ensures given { result.given ≡ 0 }
    {
        LinkTable {
            places: Vec::new(alloc),
            named: VecDeque::new(alloc),
            given: 0,
        }
    }

    /// Returns the number of places.
    pub fn len(&self) -> usize
        ensures { result ≡ length self.now.places.items }
    {
        self.places.len()
    }

    /// Takes the name of a link that may go on: the oldest.
    pub fn ready(&mut self) -> Option<u64>
        ensures { Names result self.old self.new }
    {
        self.named.pop_front()
    }

    /// Reserves room for one more place, and to name each link. The only error is a refused
    /// allocation.
    pub fn reserve(&mut self) -> Result<(), AllocError>
        ensures room { OnOk result (HasRoom self.new) }
        ensures places { self.new.places.items ≡ self.old.places.items }
        ensures names { self.new.named.items ≡ self.old.named.items }
        ensures given { self.new.given ≡ self.old.given }
    {
        self.named.reserve(self.places.len().saturating_add(1))?;
        self.places.reserve(1)
    }

    /// Notes the next link at a place: at one that it takes over, or behind all others.
    ///
    /// Returns whether it did. It does if there is room.
    pub fn settle(&mut self, at: usize, readiness: F) -> bool
        ensures settles { IsTrue result → Settles at readiness self.old self.new }
        ensures succeeds { at ≤ length self.old.places.items → HasRoom self.old → IsTrue result }
        ensures refused { IsFalse result → self.new.places.items ≡ self.old.places.items }
        ensures given { self.new.given ≡ self.old.given }
    {
        let place = LinkRecord::new(self.given, readiness);
        if let Some(one) = self.places.get_mut(at) {
            *one = place;
            return true;
        }
        at == self.places.len() && self.places.push(place).is_ok()
    }

    /// Counts the link that was settled last: it is handed out.
    pub fn hand_out(&mut self)
        ensures { self.new ≡ record self.old { given = (self.old.given + 1) % 2 ^ 64 } }
    {
        self.given = self.given.wrapping_add(1);
    }

    /// Notes each event of a poll in turn, and returns their number.
    ///
    /// A link that waits is named, and what a dropped link left is sent.
    pub fn hear_all<R: Rests>(&mut self, events: &Events, rests: &mut R) -> usize
        ensures heard { AreHeard (Hears F.known R.sends) (items events.now) self.old self.new
            rests.old rests.new }
        ensures count { result ≡ length (items events.now) }
    {
        for event in events {
            self.hear(event, rests);
        }
        events.iter().len()
    }

    /// Notes an event at the place of its token, and sends what a dropped link left there.
    ///
    /// The token of a link is its place and 1 more.
    fn hear<R: Rests>(&mut self, event: &Event, rests: &mut R)
        ensures { Hears F.known R.sends event.now self.old self.new rests.old rests.new }
    {
        let token = event.token().0;
        if token == 0 {
            return;
        }
        let at = token - 1;
        let was_dropped = self.hear_at(at, Report::of(event));
        send_rest_if(was_dropped, at, rests);
    }

    /// Notes a report at a place, and names the link there if it waits. Returns whether it was
    /// dropped.
    fn hear_at(&mut self, at: usize, report: Report) -> bool
        ensures { AnswersAt (Notes F.known report (IsFull self.old)) at result self.old self.new }
    {
        match self.places.get_mut(at) {
            Some(place) => place.note(report, &mut self.named),
            None => false,
        }
    }

    /// Ends the link with this number for this reason, and names it if it waits.
    pub fn end(&mut self, number: u64, parting: CloseReason)
        ensures { HappensToLink F.known (Ended parting) number self.old self.new }
    {
        for at in 0..self.places.len() {
            self.end_at(at, number, parting);
        }
    }

    /// Ends the link at a place if it has this number.
    fn end_at(&mut self, at: usize, number: u64, parting: CloseReason)
        ensures { ActsAt (HappensIf F.known (Ended parting) number (IsFull self.old)) at self.old
            self.new }
    {
        match self.places.get_mut(at) {
            Some(place) => place.end_if(number, parting, &mut self.named),
            None => {}
        }
    }

    /// Ends all links for this reason, and names those that wait.
    pub fn end_all(&mut self, parting: CloseReason)
        ensures ends { EndsAll F.known parting self.old self.new }
        ensures given { self.new.given ≡ self.old.given }
    {
        for at in 0..self.places.len() {
            self.end_whose(at, parting);
        }
    }

    /// Ends the link at a place.
    fn end_whose(&mut self, at: usize, parting: CloseReason)
        ensures ends { ActsAt (HappensTo F.known (Ended parting) (IsFull self.old)) at self.old
            self.new }
        ensures given { self.new.given ≡ self.old.given }
    {
        match self.places.get_mut(at) {
            Some(place) => {
                place.end(parting, &mut self.named);
            }
            None => {}
        }
    }

    /// Names the link with this number if it waits, so that it is asked again.
    pub fn ask_again(&mut self, number: u64)
        ensures { HappensToLink F.known AskedAgain number self.old self.new }
    {
        for at in 0..self.places.len() {
            self.ask_again_at(at, number);
        }
    }

    /// Names the link at a place if it has this number and waits.
    fn ask_again_at(&mut self, at: usize, number: u64)
        ensures { ActsAt (HappensIf F.known AskedAgain number (IsFull self.old)) at self.old
            self.new }
    {
        match self.places.get_mut(at) {
            Some(place) => place.ask_again_if(number, &mut self.named),
            None => {}
        }
    }

    /// Looks at the places that are due by the watch, in turn, and acts at each by the patrol.
    ///
    /// What a dropped link left is sent.
    #[inline(always)]
    pub fn look_in_turn<R: Rests>(
        &mut self,
        watch: &mut SweepCursor,
        patrol: SweepAction,
        before: Instant,
        now: Instant,
        rests: &mut R,
    )
        ensures { LooksInTurn F.known R.sends patrol before now watch.old watch.new self.old
            self.new rests.old rests.new }
    {
        for _one in 0..watch.due(self.places.len(), now) {
            self.look_at_next(watch, patrol, before, now, rests);
        }
    }

    /// Looks at the place in turn. What a dropped link left there is sent.
    #[inline(never)]
    fn look_at_next<R: Rests>(
        &mut self,
        watch: &mut SweepCursor,
        patrol: SweepAction,
        before: Instant,
        now: Instant,
        rests: &mut R,
    )
        ensures looks { LooksAtNext R.sends (Patrols F.known patrol
            (record { limit = watch.old.limit; before = before; now = now }))
            (sweep watch.old.at self.old rests.old) (sweep watch.new.at self.new rests.new) }
        ensures same { watch.new ≡ record watch.old { at = watch.new.at } }
    {
        let limit = watch.limit();
        let at = watch.turn(self.places.len());
        let was_dropped = self.look_at(at, patrol, SweepLimits { limit, before, now });
        send_rest_if(was_dropped, at, rests);
    }

    /// Looks at a place. Returns whether what its link left is to be sent.
    fn look_at(&mut self, at: usize, patrol: SweepAction, look: SweepLimits) -> bool
        ensures { AnswersAt (Patrols F.known patrol look self.old) at result self.old self.new }
    {
        match patrol {
            SweepAction::EndIdle(parting) => self.end_if_idle(at, look, parting),
            SweepAction::AskUnheard(linger) => self.ask_or_close(at, look, linger),
        }
    }

    /// Ends the link at a place if it was idle for too long. Returns whether it was dropped.
    fn end_if_idle(&mut self, at: usize, look: SweepLimits, parting: CloseReason) -> bool
        ensures { AnswersAt (EndsIfIdle F.known look parting (IsFull self.old)) at result self.old
            self.new }
    {
        match self.places.get_mut(at) {
            Some(place) => place.end_if_idle(look, parting, &mut self.named),
            None => false,
        }
    }

    /// Names the link at a place again, or notes that it is to be closed. Returns whether what it
    /// left is to be looked at.
    fn ask_or_close(&mut self, at: usize, look: SweepLimits, linger: Duration) -> bool
        ensures { AnswersAt (AsksOrCloses F.known (record look { limit = linger }) look
            (IsFull self.old)) at result self.old self.new }
    {
        match self.places.get_mut(at) {
            Some(place) => place.ask_or_close(linger, look, &mut self.named),
            None => false,
        }
    }
}

/// Sends what the link at a place left, if it was dropped.
#[inline(always)]
fn send_rest_if<R: Rests>(was_dropped: bool, at: usize, rests: &mut R)
    ensures { MatchBool was_dropped (R.sends rests.old at rests.new) (rests.new ≡ rests.old) }
{
    if was_dropped {
        rests.send_rest(at);
    }
}

/// Returns the token of the events at a place.
pub fn token_of(at: usize) -> usize
    ensures { at < 2 ^ 64 - 1 → result ≡ at + 1 }
{
    at.saturating_add(1)
}
