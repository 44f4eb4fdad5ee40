//! A worker's record of a link.
ghost use Rattle.std.specs.Prelude.{◌≡◌, ◌≤◌, ◌-◌, ◌↔◌, ◌||◌, IsTrue, IsFalse};
ghost use Rattle.std.specs.Duration.{as_nanos};
ghost use Rattle.std.specs.Time.{instant_nanos};

use crate::connection::CloseReason;
use crate::readiness::{Readiness, ReadinessCell, Report};
use std::collections::VecDeque;
use std::time::{Duration, Instant};

/// A look at a connection at the moment `now`.
///
/// It finds what lasted for at least `limit` before `before`, the moment of the poll before.
#[derive(Clone, Copy)]
pub struct SweepLimits {
    pub limit: Duration,
    pub before: Instant,
    pub now: Instant,
}

/// A worker's record of a link.
#[derive(Drop)]
pub struct LinkRecord<F: ReadinessCell + Drop> {
    /// The number by which the link is named.
    number: u64,
    readiness: F,
    /// When it was first seen waiting, since the last event; `None` before a look.
    waits_since: Option<Instant>,
    /// The same, since its link was asked again or the last event.
    asked_since: Option<Instant>,
    /// When it was first seen with its write side shut down; `None` before a look.
    lingers_since: Option<Instant>,
}

impl<F: ReadinessCell + Drop> LinkRecord<F> {
    ghost use Rattle.std.specs.Prelude.{Some, None, IfSome};
    ghost use Rattle.std.specs.VecDeque.{deque_len, deque_capacity};
    ghost use Rattle.mc_sockets.specs.Readiness.{AskedAgain, Ended};
    ghost use Rattle.mc_sockets.specs.LinkRecords.{Answers, AsksIfUnheard, AsksOrCloses, EndsIfIdle};
    ghost use Rattle.mc_sockets.specs.LinkRecords.{Finds, Happens, HappensIf, HappensTo, NamesIf};
    ghost use Rattle.mc_sockets.specs.LinkRecords.{Notes, WasDropped, lingers, seen_waiting};
    ghost use Rattle.mc_sockets.specs.LinkRecords.{waits_for_client};

    /// Returns the record of a new link with this number.
    pub fn new(number: u64, readiness: F) -> LinkRecord<F>
        ensures { result ≡ record {
          number = number;
          readiness = readiness;
          waits_since = None;
          asked_since = None;
          lingers_since = None;
        } }
    {
        LinkRecord {
            number,
            readiness,
            waits_since: None,
            asked_since: None,
            lingers_since: None,
        }
    }

    /// Returns whether it is the record of the link with this number.
    fn is_of(&self, number: u64) -> bool
        ensures { IsTrue result ↔ (self.now.number ≡ number) }
    {
        self.number == number
    }

    /// Notes what an event reports, and names the link if it waits. Returns whether the link was
    /// dropped.
    pub fn note(&mut self, report: Report, named: &mut VecDeque<u64>) -> bool
        ensures { Notes F.known report (deque_capacity named.old ≤ deque_len named.old) result
            self.old self.new named.old.items named.new.items }
    {
        self.waits_since = None;
        self.asked_since = None;
        let known = self.readiness.look();
        self.go_on(known.waits, known.after_report(report), named);
        known.leaves
    }

    /// Names the link without an event if it waits, so that it is asked again.
    fn ask_again(&mut self, named: &mut VecDeque<u64>)
        ensures happens { Happens AskedAgain self.old.number
            (deque_capacity named.old ≤ deque_len named.old) (F.known self.old.readiness)
            (F.known self.new.readiness) named.old.items named.new.items }
        ensures number { self.new.number ≡ self.old.number }
    {
        let known = self.readiness.look();
        self.go_on(known.waits, known.asked_again(), named);
    }

    /// Ends the connection for this reason, and names its link if it waits. Returns whether the
    /// link was dropped.
    ///
    /// A link that doesn't wait is asked by its guest, and then answers that it is at its end.
    pub fn end(&mut self, parting: CloseReason, named: &mut VecDeque<u64>) -> bool
        ensures { Answers F.known (Ended parting) (deque_capacity named.old ≤ deque_len named.old)
            result self.old self.new named.old.items named.new.items }
    {
        self.waits_since = None;
        let known = self.readiness.look();
        self.go_on(known.waits, known.ending(parting), named);
        known.leaves
    }

    /// Ends the connection for this reason if its link has this number, and names it if it waits.
    ///
    /// It does nothing if the link has another number.
    pub fn end_if(&mut self, number: u64, parting: CloseReason, named: &mut VecDeque<u64>)
        ensures { HappensIf F.known (Ended parting) number
            (deque_capacity named.old ≤ deque_len named.old) self.old self.new named.old.items
            named.new.items }
    {
        if self.is_of(number) {
            self.end(parting, named);
        }
    }

    /// Names the link if it has this number and waits, so that it is asked again.
    ///
    /// It does nothing if the link has another number.
    pub fn ask_again_if(&mut self, number: u64, named: &mut VecDeque<u64>)
        ensures { HappensIf F.known AskedAgain number
            (deque_capacity named.old ≤ deque_len named.old) self.old self.new named.old.items
            named.new.items }
    {
        if self.is_of(number) {
            self.ask_again(named);
        }
    }

    /// Notes what is known next, and names the link if it waits.
    ///
    /// There is room for its number, which was reserved with its place. Without room it waits on.
    #[inline(always)]
    fn go_on(&mut self, waits: bool, next: Readiness, named: &mut VecDeque<u64>)
        ensures names { NamesIf waits self.old.number
            (deque_capacity named.old ≤ deque_len named.old) next (F.known self.new.readiness)
            named.old.items named.new.items }
        ensures same { self.new ≡ record self.old { readiness = self.new.readiness } }
    {
        self.readiness.note(Readiness {
            waits: false,
            ..next
        });
        if waits && named.push_back(self.number).is_err() {
            self.readiness.note(Readiness {
                waits: true,
                ..next
            });
        }
    }

    /// Returns whether its write side was shut down for the look's limit. It does so once.
    ///
    /// The connection has lingered then, and is to be closed.
    fn lingers_too_long(&mut self, look: SweepLimits) -> bool
        ensures finds { Finds (F.known self.old.readiness) look (λ known. lingers known)
            (λ _. self.old.lingers_since) result self.new.lingers_since }
        ensures number { self.new.number ≡ self.old.number }
        ensures stays { IsFalse result → self.new.readiness ≡ self.old.readiness }
        ensures over { IsTrue result → IfSome (F.known self.new.readiness) (λ stands.
            IsTrue stands.has_lingered) }
    {
        let known = self.readiness.look();
        if known.dropped.is_none() || known.has_lingered {
            return false;
        }
        let Some(since) = self.lingers_since else {
            self.lingers_since = Some(look.now);
            return false;
        };
        if !has_passed(since, look) {
            return false;
        }
        self.readiness.note(Readiness {
            has_lingered: true,
            ..known
        });
        true
    }

    /// Names the link if it had no event for the look's limit, so that it is tried again.
    ///
    /// That holds for a link that waits or was dropped: its next call asks the system, which may
    /// have reported nothing. Returns whether the link was dropped, and its output may be sent.
    fn ask_if_unheard(&mut self, look: SweepLimits, named: &mut VecDeque<u64>) -> bool
        ensures { AsksIfUnheard F.known look (deque_capacity named.old ≤ deque_len named.old) result
            self.old self.new named.old.items named.new.items }
    {
        if !self.is_unheard(look) {
            return false;
        }
        self.ask_since(look.now, named)
    }

    /// Names the link if it waits, and notes when. Returns whether the link was dropped.
    fn ask_since(&mut self, now: Instant, named: &mut VecDeque<u64>) -> bool
        ensures asks { HappensTo F.known AskedAgain
            (deque_capacity named.old ≤ deque_len named.old) self.old self.new named.old.items
            named.new.items }
        ensures left { WasDropped (F.known self.new.readiness) result }
    {
        self.asked_since = Some(now);
        self.ask_again(named);
        self.readiness.look().leaves
    }

    /// Returns whether it had no event for the look's limit, and waits or was dropped.
    ///
    /// If it wasn't seen so before, it is now.
    fn is_unheard(&mut self, look: SweepLimits) -> bool
        ensures finds { Finds (F.known self.old.readiness) look
            (λ known. known.waits || known.leaves) (λ _. self.old.asked_since) result
            self.new.asked_since }
        ensures same { self.new ≡ record self.old { asked_since = self.new.asked_since } }
    {
        let known = self.readiness.look();
        if !known.waits && !known.leaves {
            return false;
        }
        let Some(since) = self.asked_since else {
            self.asked_since = Some(look.now);
            return false;
        };
        has_passed(since, look)
    }

    /// Returns whether it was idle for the look's limit, with no event since.
    ///
    /// If it waits for its client and wasn't seen waiting before, it is now.
    fn has_waited(&mut self, look: SweepLimits) -> bool
        ensures finds { Finds (F.known self.old.readiness) look (λ known. waits_for_client known)
            (λ known. seen_waiting known self.old.waits_since) result self.new.waits_since }
        ensures number { self.new.number ≡ self.old.number }
    {
        let known = self.readiness.look();
        if !known.waits_for_client() {
            return false;
        }
        if known.is_fresh {
            self.waits_since = None;
            self.readiness.note(Readiness {
                is_fresh: false,
                ..known
            });
        }
        match self.waits_since {
            Some(since) => has_passed(since, look),
            None => {
                self.waits_since = Some(look.now);
                false
            }
        }
    }

    /// Ends the connection for this reason if it was idle for the look's limit, and names its link
    /// if it waits. Returns whether it did and the link was dropped.
    pub fn end_if_idle(
        &mut self,
        look: SweepLimits,
        parting: CloseReason,
        named: &mut VecDeque<u64>,
    ) -> bool
        ensures { EndsIfIdle F.known look parting (deque_capacity named.old ≤ deque_len named.old)
            result self.old self.new named.old.items named.new.items }
    {
        if !self.has_waited(look) {
            return false;
        }
        self.end(parting, named)
    }

    /// Notes that the connection is to be closed if it lingered for `linger`, and else names its
    /// link again if it had no event for the look's limit.
    ///
    /// Returns whether what the link left is to be looked at.
    pub fn ask_or_close(
        &mut self,
        linger: Duration,
        look: SweepLimits,
        named: &mut VecDeque<u64>,
    ) -> bool
        ensures { AsksOrCloses F.known (record look { limit = linger }) look
            (deque_capacity named.old ≤ deque_len named.old) result self.old self.new
            named.old.items named.new.items }
    {
        if self.lingers_too_long(SweepLimits {
            limit: linger,
            ..look
        }) {
            return true;
        }
        self.ask_if_unheard(look, named)
    }
}

/// Returns whether at least the look's limit passed since a moment.
fn has_passed(since: Instant, look: SweepLimits) -> bool
    ensures { IsTrue result
        ↔ (as_nanos look.limit ≤ instant_nanos look.before - instant_nanos since) }
{
    look.before.duration_since(since).as_nanos() >= look.limit.as_nanos()
}
