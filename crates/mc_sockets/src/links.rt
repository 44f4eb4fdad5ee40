//! The links of a worker, and the events that wake them.
//!
//! The books note what a poll reports, each event once. Which events the system reports, and
//! when, is unspecified.
ghost use Rattle.std.specs.Prelude.{◌≡◌, [], length, None, Some, IfSome, IfNone, IsTrue, IsFalse, ⊤};
ghost use Rattle.std.specs.Duration.{as_nanos};
ghost use Rattle.mc_sockets.specs.SweepCursors.{ticked_after, ticks_after, ticks_in};
ghost use Rattle.mc_sockets.specs.declared.connection.CloseReason.{CloseReason as Reason};

use crate::arrivals::{Arrivals, Share};
use crate::channel::Channel;
use crate::connection::{CloseReason, Connection};
use crate::idle::SweepCursor;
use crate::io_stream::IoStream;
use crate::link::SocketLink;
use crate::link_table::{LinkTable, Rests, SweepAction};
use crate::meter::SharedMeter;
use crate::readiness::{Readiness, SharedReadiness};
use crate::registering::register_at;
use crate::yard::SocketYard;
use mc_links::{Links, Next};
use mc_metrics::Counters;
use mio::{Events, Poll, Token};
use std::alloc::Global;
use std::cell::{Cell, RefCell};
use std::mem;
use std::rc::Rc;
use std::sync::{Arc, Wait};
use std::time::{Clock, Duration, Instant};

/// The token of a worker's waker. That of a link is its place and 1 more.
pub const WAKER: Token = Token(0);

/// The most events of one poll.
pub const EVENTS: usize = 1024;

/// After this many moved bytes the system is polled, even if there is always work.
const MOVED: usize = 2_097_152;

/// How long a tick is, in milliseconds.
const TICK: u64 = 250;

/// The most connections skipped in the search for one that can be served.
const PASSED: usize = 1024;

/// After this many seconds without an event a waiting link is tried again.
const UNHEARD: u32 = 10;

/// After this many seconds a connection that lingers behind its last answer is closed.
const LINGER: u64 = 2;

/// What the links of one worker share.
#[derive(Drop)]
struct LinkContext {
    /// The output that they leave behind.
    yard: Rc<RefCell<SocketYard>>,
    /// The bytes that they moved since the last poll.
    moved: Rc<Cell<usize>>,
}

impl LinkContext {
    /// Makes what the first link shares with later ones: this many of them may linger. The only
    /// error is a refused allocation.
    fn new(alloc: Global, lingering: usize) -> Option<LinkContext> {
        let yard = SocketYard::new(alloc, lingering);
        Some(LinkContext {
            yard: Rc::new(alloc, RefCell::new(yard)).ok()?,
            moved: Rc::new(alloc, Cell::new(0)).ok()?,
        })
    }

    /// Returns a further reference.
    fn another(&self) -> Option<LinkContext> {
        Some(LinkContext {
            yard: self.yard.clone().ok()?,
            moved: self.moved.clone().ok()?,
        })
    }

    /// Sends what the link at this place has left behind.
    #[inline(never)]
    fn send_rest(&self, at: usize) {
        if let Ok(mut yard) = self.yard.try_borrow_mut() {
            yard.send_rest(at);
        }
    }
}

/// What the links leave behind; there is nothing before the first link.
///
/// What is sent is unspecified: the yard is shared with the links.
impl Rests for Option<LinkContext> {
    ghost use Rattle.std.specs.Prelude.{⊤};

    ghost sends = { λ _ _ _. ⊤ };

    fn send_rest(&mut self, at: usize) {
        if let Some(common) = self {
            common.send_rest(at);
        }
    }
}

/// A poll, and the events that it reports.
#[derive(Drop)]
pub struct Poller {
    pub poll: Poll,
    /// What the last poll reported. Its capacity is the most that one poll reports.
    pub events: Events,
}

/// The links of one worker, over the connections that it takes from the arrivals.
#[derive(Drop)]
pub struct SocketLinks<'a, R: Wait + Clock> {
    rt: &'a R,
    alloc: Global,
    arrivals: &'a Arrivals,
    share: Share,
    poller: Poller,
    /// The records of the links, and those to be named.
    seats: LinkTable<SharedReadiness>,
    /// What the links share; `None` before the first link.
    common: Option<LinkContext>,
    /// Whether the last call for a link returned one.
    gave: bool,
    /// Finds idle connections; `None` without an idle timeout.
    watch: Option<SweepCursor>,
    /// The reason for which idle connections are closed.
    quiet: CloseReason,
    /// The time in ticks of 0.25 s.
    ticks: u64,
    /// When a tick was last counted.
    ticked: Option<Instant>,
    /// When the last poll returned.
    polled: Option<Instant>,
    /// Finds connections that are to be tried again.
    unheard: Option<SweepCursor>,
    counts: Arc<Counters>,
}

impl<'a, R: Wait + Clock> SocketLinks<'a, R> {
    ghost use Rattle.mio.specs.Events.{items, capacity};
    ghost use Rattle.mc_sockets.specs.LinkTables.{AreHeard, AsksUnheard, ByWatch, EndsAll, HandsOut};
    ghost use Rattle.mc_sockets.specs.LinkTables.{Hears, LooksAround, LooksInTurn};
    ghost use Rattle.mc_sockets.specs.SweepCursors.{IfAllHeard};

    /// Returns links without a connection, which count what they move. It takes no memory.
    pub fn new(
        rt: &'a R,
        alloc: Global,
        arrivals: &'a Arrivals,
        share: Share,
        poller: Poller,
        counts: Arc<Counters>,
    ) -> SocketLinks<'a, R> {
        SocketLinks {
            rt,
            alloc,
            arrivals,
            share,
            poller,
            seats: LinkTable::new(alloc),
            common: None,
            gave: false,
            watch: None,
            quiet: CloseReason::Idle,
            ticks: 0,
            ticked: None,
            polled: None,
            unheard: SweepCursor::new(UNHEARD),
            counts,
        }
    }

    /// Closes connections that were idle for `seconds`. 0 disables it.
    pub fn close_idle(&mut self, seconds: u32) {
        self.watch = SweepCursor::new(seconds);
    }

    /// Closes connections that were idle for `seconds`, because the program was asked to end.
    pub fn stop_idle(&mut self, seconds: u32)
        ensures { self.new ≡ record self.old { watch = self.new.watch; quiet = Reason.Stopped } }
    {
        self.watch = SweepCursor::new(seconds);
        self.quiet = CloseReason::Stopped;
    }

    /// Polls the system for events, and waits at most `timeout` for the first.
    ///
    /// It reads the clock once.
    fn wait_for_events(&mut self, timeout: Duration) {
        if let Some(common) = &self.common {
            common.moved.set(0);
        }
        let Some(heard) = self.hear_events(timeout) else {
            return;
        };
        let Ok(now) = Instant::now(self.rt) else {
            return;
        };
        self.note_poll(heard, now);
    }

    /// Notes that a poll returned at `now` and reported `heard` events: it counts ticks, and looks
    /// at links that weren't heard of.
    ///
    /// The poll reports all events up to the return of the poll before, so a link that had none is
    /// idle until then.
    fn note_poll(&mut self, heard: usize, now: Instant)
        ensures ticks { self.new.ticks ≡ ticks_after self.old.ticked self.old.ticks now }
        ensures ticked { self.new.ticked ≡ Some (ticked_after self.old.ticked now) }
        ensures polled { self.new.polled ≡ Some now }
        ensures looks { IfAllHeard heard (capacity self.old.poller.events) self.old.polled
            (λ before. LooksAround (λ _. None) (λ _ _ _. ⊤) self.old.quiet before now
            self.old.watch self.new.watch self.old.unheard self.new.unheard
            self.old.seats self.new.seats self.old.common self.new.common)
            (self.new ≡ record self.old {
              ticks = self.new.ticks;
              ticked = self.new.ticked;
              polled = self.new.polled;
            }) }
    {
        self.count_ticks(now);
        let before = mem::replace(&mut self.polled, Some(now));
        // if there are fewer than one poll may return, there were no others
        if let Some(before) = before
            && heard < self.poller.events.capacity()
        {
            self.look_around(before, now);
        }
    }

    /// Looks at links that weren't heard of between two polls, by the watches.
    fn look_around(&mut self, before: Instant, now: Instant)
        ensures looks { LooksAround (λ _. None) (λ _ _ _. ⊤) self.old.quiet before now
            self.old.watch self.new.watch self.old.unheard self.new.unheard
            self.old.seats self.new.seats self.old.common self.new.common }
        ensures same { self.new ≡ record self.old {
          watch = self.new.watch;
          unheard = self.new.unheard;
          seats = self.new.seats;
          common = self.new.common;
        } }
    {
        self.end_idle(before, now);
        self.ask_unheard(before, now);
    }

    /// Polls the system, waits at most `timeout` for the first event, and notes each in the books.
    ///
    /// Returns their number, or `None` if the poll fails: then the books are unchanged.
    fn hear_events(&mut self, timeout: Duration) -> Option<usize>
        ensures heard { AreHeard (Hears (λ _. None) (λ _ _ _. ⊤)) (items self.new.poller.events)
            self.old.seats self.new.seats self.old.common self.new.common }
        ensures count { IfSome result (λ heard. heard ≡ length (items self.new.poller.events)) }
        ensures fails { IfNone result (items self.new.poller.events ≡ []) }
    {
        let Poller { poll, events } = &mut self.poller;
        match poll.poll(events, Some(timeout)) {
            Ok(()) => Some(self.seats.hear_all(&self.poller.events, &mut self.common)),
            Err(_) => None,
        }
    }

    /// Counts the ticks that passed, at most two: a pause of the process counts no more.
    fn count_ticks(&mut self, now: Instant)
        ensures ticks { self.new.ticks ≡ ticks_after self.old.ticked self.old.ticks now }
        ensures ticked { self.new.ticked ≡ Some (ticked_after self.old.ticked now) }
        ensures same { self.new
            ≡ record self.old { ticks = self.new.ticks; ticked = self.new.ticked } }
    {
        let Some(ticked) = self.ticked else {
            self.ticked = Some(now);
            return;
        };
        let passed = now.duration_since(ticked);
        self.ticks = self.ticks.saturating_add(ticks_in(passed));
        if passed >= Duration::from_millis(TICK) {
            self.ticked = Some(now);
        }
    }

    /// Closes connections in turn that were idle for too long before the last poll.
    fn end_idle(&mut self, before: Instant, now: Instant)
        ensures looks { ByWatch (LooksInTurn (λ _. None) (λ _ _ _. ⊤)
            (SweepAction.EndIdle self.old.quiet) before now) self.old.watch self.new.watch
            self.old.seats self.new.seats self.old.common self.new.common }
        ensures same { self.new ≡ record self.old {
          watch = self.new.watch;
          seats = self.new.seats;
          common = self.new.common;
        } }
    {
        if let Some(watch) = &mut self.watch {
            let patrol = SweepAction::EndIdle(self.quiet);
            self.seats
                .look_in_turn(watch, patrol, before, now, &mut self.common);
        }
    }

    /// Names links again, in turn, that had no event for long before the last poll.
    ///
    /// It closes those that have lingered for `LINGER`.
    fn ask_unheard(&mut self, before: Instant, now: Instant)
        ensures looks { ByWatch (AsksUnheard (λ _. None) (λ _ _ _. ⊤) 2_000_000_000 before now)
            self.old.unheard self.new.unheard self.old.seats self.new.seats self.old.common
            self.new.common }
        ensures same { self.new ≡ record self.old {
          unheard = self.new.unheard;
          seats = self.new.seats;
          common = self.new.common;
        } }
    {
        let patrol = SweepAction::AskUnheard(Duration::from_secs(LINGER));
        if let Some(watch) = &mut self.unheard {
            self.seats
                .look_in_turn(watch, patrol, before, now, &mut self.common);
        }
    }

    /// Makes a link of a connection, which has the next number. The connection is closed if it
    /// can't be registered, or if memory is refused.
    fn open(&mut self, connection: Connection) -> Option<SocketLink>
        ensures { HandsOut result self.old.seats self.new.seats }
    {
        let link = self.link_of(connection)?;
        self.seats.hand_out();
        Some(link)
    }

    /// Makes a link of a connection, which isn't counted yet.
    fn link_of(&mut self, connection: Connection) -> Option<SocketLink>
        ensures { self.new.seats.given ≡ self.old.seats.given }
    {
        let mut connection = connection;
        // an answer is sent at once; if that can't be set, it comes later
        let _ = connection.stream.set_nodelay(true);
        let readiness = Rc::new(self.alloc, Cell::new(Readiness::NEW)).ok()?;
        let counts = self.counts.clone().ok()?;
        let lingering = connection.entry.lingering_share(self.arrivals.workers());
        let LinkContext { yard, moved } = self.shared_parts(lingering)?;
        let meter = SharedMeter::new(moved, counts);
        let at = self.settle(&yard, readiness.clone().ok()?)?;
        let registered = register_at(self.poller.poll.registry(), &mut connection.stream, at);
        if registered.is_ok() {
            connection.entry.note(CloseReason::SessionOver);
        }
        if registered.is_err() {
            // it is closed at once, as no event of it would be reported
            readiness.set(Readiness {
                has_lingered: true,
                ..Readiness::NEW
            });
        }
        let Connection { stream, entry } = connection;
        let channel = Channel::new(IoStream::new(stream), entry, readiness, meter);
        let link = SocketLink::new(self.alloc, channel, at, yard)?;
        registered.ok()?;
        Some(link)
    }

    /// Notes the next link at a free place, which it takes from the yard.
    fn settle(
        &mut self,
        yard: &Rc<RefCell<SocketYard>>,
        readiness: SharedReadiness,
    ) -> Option<usize>
        ensures { self.new.seats.given ≡ self.old.seats.given }
    {
        self.seats.reserve().ok()?;
        let mut yard = yard.try_borrow_mut().ok()?;
        let at = yard.take_place()?;
        if !self.seats.settle(at, readiness) {
            yard.free(at);
            return None;
        }
        Some(at)
    }

    /// Returns what the links share, and makes it for the first one: this many may linger.
    fn shared_parts(&mut self, lingering: usize) -> Option<LinkContext>
        ensures { self.new ≡ record self.old { common = self.new.common } }
    {
        if let Some(common) = &self.common {
            return common.another();
        }
        let common = LinkContext::new(self.alloc, lingering)?;
        self.common = Some(common.another()?);
        Some(common)
    }

    /// Ends all connections, and answers that no more links come.
    ///
    /// Right after a new link it answers `Later`, so that this link is visited before it ends.
    fn close(&mut self, gave: bool) -> Next<SocketLink>
        ensures later { IsTrue gave → (result ≡ Next.Later) × (self.new ≡ self.old) }
        ensures closed { IsFalse gave → (result ≡ Next.Closed) × (parting : Reason) ×
            EndsAll (λ _. None) parting self.old.seats self.new.seats }
        ensures given { self.new.seats.given ≡ self.old.seats.given }
    {
        if gave {
            return Next::Later;
        }
        let parting = if self.arrivals.is_over_as_asked() {
            CloseReason::Stopped
        } else {
            CloseReason::ListenerFailed
        };
        self.seats.end_all(parting);
        Next::Closed
    }
}

/// Returns the ticks that a time is, at most two.
fn ticks_in(time: Duration) -> u64
    ensures { result ≡ ticks_in (as_nanos time) }
{
    if time < Duration::from_millis(TICK) {
        return 0;
    }
    if time < Duration::from_millis(2 * TICK) {
        1
    } else {
        2
    }
}

impl<'a, R: Wait + Clock> Links<SocketLink> for SocketLinks<'a, R> {
    ghost use Rattle.mc_sockets.specs.LinkTables.{CountsNext, HappensToLink, Names};
    ghost use Rattle.mc_sockets.specs.Readiness.{AskedAgain, Ended};

    fn next(&mut self) -> Next<SocketLink>
        ensures { CountsNext result self.old.seats self.new.seats }
    {
        let gave = mem::replace(&mut self.gave, false);
        for _one in 0..PASSED {
            let Some(connection) = self.arrivals.pop(self.rt, &mut self.share) else {
                if self.arrivals.is_over() {
                    return self.close(gave);
                }
                return Next::Later;
            };
            if let Some(link) = self.open(connection) {
                self.gave = true;
                return Next::Link(link);
            }
        }
        Next::Later
    }

    fn ready(&mut self) -> Option<u64>
        ensures { Names result self.old.seats self.new.seats }
    {
        self.seats.ready()
    }

    fn rest(&mut self) {
        let time = self.arrivals.begin_rest(self.rt, &mut self.share);
        self.wait_for_events(time);
        self.arrivals.end_rest(&self.share);
    }

    fn end(&mut self, number: u64)
        ensures { HappensToLink (λ _. None) (Ended Reason.Hoarding) number self.old.seats
            self.new.seats }
    {
        self.seats.end(number, CloseReason::Hoarding);
    }

    fn ticks(&mut self) -> u64
        ensures { result ≡ self.old.ticks }
    {
        self.ticks
    }

    /// Returns whether they moved so much that others may have waited for long.
    fn is_due(&self) -> bool {
        match &self.common {
            Some(common) => common.moved.get() >= MOVED,
            None => false,
        }
    }

    fn look(&mut self) {
        self.wait_for_events(Duration::ZERO);
    }

    fn ask_again(&mut self, number: u64)
        ensures { HappensToLink (λ _. None) AskedAgain number self.old.seats self.new.seats }
    {
        self.seats.ask_again(number);
    }
}
