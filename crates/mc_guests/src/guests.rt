//! The guests of one worker.
//!
//! A guest that answered `Later` sleeps; a round visits only awake guests. `Links::ready` names the
//! link that wakes it, at most 1024 names between two rounds. A skipped visit would have changed
//! nothing.
ghost use Rattle.std.specs.Prelude.{◌≡◌, ◌↔◌, ◌<◌, ◌≤◌, ◌&&◌, not, length, slice_get, false, Some, None, is_some, IfSome, IsTrue, IsFalse};
ghost use Rattle.mc_guests.specs.Asks.{MakesRound};
ghost use Rattle.mc_guests.specs.Budgets.{is_retry_due, is_over as exceeds_share, to_end, to_judge, with_left};
ghost use Rattle.mc_guests.specs.Guests.{RowGuest, welcomed, has_ended, is_later, is_left_out};
ghost use Rattle.mc_guests.specs.Books.{no_books, quiet, woken, put_behind, let_in, counted, StandsAt};
ghost use Rattle.mc_guests.specs.Books.{SleepsAt, IsFateOf, is_over, is_asleep, is_to_queue};
ghost use Rattle.mc_guests.specs.Books.{Wakes, LinesUp, LetsGo, Settles, SettlesFrom};
ghost use Rattle.mc_guests.specs.Books.{SameButLeft, SetsTicks, took_ending, took_judging};
ghost use Rattle.mc_guests.specs.Judging.{EndsSlowest, Judges};
ghost use Rattle.mc_guests.specs.Leaving.{gone_at, all_gone, AreLetGo};
ghost use Rattle.mc_guests.specs.Retries.{LetsOn, LetsOnAll, begun_anew, GoInTurn, GoBeside, TakesTurn, EndsTurns};
ghost use Rattle.mc_guests.specs.Retries.{LooksAtFirst, IsQueuedAt, NoneWaits, PromisesRoom, KeepsRoom};
ghost use Rattle.mc_guests.specs.Retries.{tried_again, lined, in_turn, struck_out, turn_passed};
ghost use Rattle.mc_guests.specs.Retries.{stray_tried, all_strays_tried, first_dropped, first_behind};
ghost use Rattle.mc_guests.specs.Turns.{VisitsAll, VisitsAwake};

use crate::budget::Budget;
use crate::guest::{Guest, Visit};
use crate::leaving::LeavingLink;
use crate::metered::{Verdict, WaitState};
use crate::reports::Reports;
use crate::row::GuestRow;
use mc_bytes::Spares;
use mc_links::{Link, Tally};
use mc_protocol::Steps;
use mc_time::Moment;
use std::alloc::Global;
use std::collections::VecDeque;
use std::marker::Model;

/// How many sessions ended, by reason. A counter stops at its greatest number.
#[derive(Clone, Copy, Debug, Drop, PartialEq, Eq)]
pub struct WorkEnd {
    /// At the end of their stream, or closed, with all output written.
    pub served: u64,
    /// By a fault of their links.
    pub broken: u64,
    /// By want of memory.
    pub refused: u64,
}

/// The awake guests, and behind them the sleeping ones.
///
/// A guest whose last answer was `Later` sleeps, and so does one that waits for room. A sleeping
/// guest wakes when its link is named. Contracts see all guests, the numbers of their
/// links, how many are awake, the budget, the queue, and how many links were let go. The budget
/// counts each guest once.
#[derive(Drop)]
pub struct Guests<L: Link + Drop> {
    row: GuestRow<L>,
    awake: usize,
    budget: Budget,
    /// The numbers of the waiting guests' links, oldest first.
    queue: VecDeque<u64>,
    /// Whether the newest one is next.
    is_last: bool,
    /// Whether a waiting guest isn't in the queue, because memory was refused.
    has_strays: bool,
    /// The number of links that were let go, modulo 2^64.
    gone: u64,
    /// The bytes held and the number of waiting guests, as they were last reported.
    reported: (usize, usize),
    /// The large buffers of all guests between two requests, if there was memory for them.
    spares: Option<Spares>,
}

impl<L: Link + Drop> Model for Guests<L> {
    ghost use Rattle.std.specs.Prelude.{◌≤◌, length};
    ghost use Rattle.mc_guests.specs.Books.{BooksState, books};
    ghost use Rattle.mc_guests.specs.Budgets.{CountsAll};

    ghost Value = { BooksState };

    ghost view = { λ g.
        books g.row g.awake g.budget g.queue.items g.is_last g.has_strays g.gone };

    ghost invariant = { λ g. (g.awake ≤ length g.row.guests) × CountsAll g.budget g.row.guests };
}

/// The ticks after which unused spares are freed.
const UNUSED: u64 = 4;

/// The most waiting guests that one retry looks at.
const LOOKS: usize = 256;

/// What an awake guest does next.
#[derive(Clone, Copy)]
enum NextState {
    GoesOn,
    /// It waits for room from now on.
    Waits,
    Sleeps,
    Ended,
}

impl<L: Link + Drop> Guests<L> {
    /// Makes an empty collection of guests with the share of this budget.
    ///
    /// If it is refused memory for spares, guests request large buffers anew each time.
    pub fn new(alloc: Global, budget: Budget) -> Guests<L>
        ensures { result ≡ no_books budget }
    {
        Guests {
            row: GuestRow::new(alloc),
            awake: 0,
            budget: budget.without_guests(),
            queue: VecDeque::new(alloc),
            is_last: false,
            has_strays: false,
            gone: 0,
            reported: (0, 0),
            spares: Spares::new(alloc).ok(),
        }
    }

    /// Returns whether there are none.
    pub fn is_empty(&self) -> bool
        ensures { IsTrue result ↔ (length self.now.row.guests ≡ 0) }
    {
        self.row.len() == 0
    }

    /// Returns how many are awake.
    pub fn awake(&self) -> usize
        ensures { result ≡ self.now.awake }
    {
        self.awake
    }

    /// Returns whether none is awake, and no waiting guest may be tried again.
    pub fn is_quiet(&self) -> bool
        ensures { result ≡ quiet self.now }
    {
        self.awake == 0 && !self.budget.may_try()
    }

    /// Visits each awake guest once. Before, wakes waiting guests that find room, if memory came
    /// back or a tick has passed.
    pub fn visit_all<S: Reports>(&mut self, alloc: Global, store: &mut S, now: Moment)
        ensures round { MakesRound S.Steps now store.old store.new }
        ensures visits { VisitsAll S.Steps now self.old self.new store.old store.new }
    {
        self.let_on();
        self.visit_awake(alloc, store, now);
    }

    /// Visits each awake guest once.
    fn visit_awake<S: Reports>(&mut self, alloc: Global, store: &mut S, now: Moment)
        ensures round { MakesRound S.Steps now store.old store.new }
        ensures visits { VisitsAwake S.Steps now self.old self.new store.old store.new }
    {
        let Guests { row, budget, .. } = self;
        row.visit_front(alloc, self.awake, store, now, budget);
    }

    /// Sets the time, in ticks of 0.25 s.
    ///
    /// In a new tick, quiet guests free the memory that they keep, guests are counted anew for what
    /// they read that has left the store, and spares are freed that, with what guests hold, are
    /// more than the share. Every fourth tick frees unused spares.
    pub fn tick(&mut self, ticks: u64)
        ensures { SetsTicks ticks self.old self.new }
    {
        let before = self.budget.ticks;
        if ticks != before {
            self.budget.ticks = ticks;
            self.rest_quiet();
            self.bound_spares(ticks / UNUSED != before / UNUSED);
        }
    }

    /// Frees spares that, with what guests hold, are more than the share, and unused ones if
    /// wanted.
    fn bound_spares(&self, are_unused_freed: bool) {
        let Some(spares) = &self.spares else {
            return;
        };
        spares.keep_within(self.budget.share.saturating_sub(self.budget.held));
        if are_unused_freed {
            spares.free_unused();
        }
    }

    /// Frees the memory that quiet guests keep, and counts guests anew for what they read that has
    /// left the store.
    #[inline(never)]
    fn rest_quiet(&mut self)
        ensures row { SameButLeft self.old.row self.new.row }
        ensures rest { self.new ≡ record self.old {
          row = self.new.row;
          budget = with_left self.new.budget.left self.old.budget;
        } }
    {
        let Guests { row, budget, .. } = self;
        row.rest_quiet(budget);
    }

    /// Wakes waiting guests that find room, if memory came back or a tick has passed.
    fn let_on(&mut self)
        ensures { LetsOn self.old self.new }
    {
        if self.tries_again() {
            self.let_on_all();
        }
    }

    /// Wakes waiting guests that find room: first in turn, then all others, and then strays.
    #[inline(never)]
    fn let_on_all(&mut self)
        ensures { LetsOnAll self.old self.new }
    {
        self.let_on_in_turn();
        self.let_on_others();
        self.let_on_strays();
    }

    /// Returns whether a retry of the waiting guests is due, and records it.
    fn tries_again(&mut self) -> bool
        ensures due { result ≡ is_retry_due self.old.budget }
        ensures begins { IsTrue result → self.new ≡ begun_anew self.old }
        ensures waits { IsFalse result → self.new ≡ self.old }
    {
        self.budget.tries_again()
    }

    /// Wakes the oldest and the newest waiting guest in turn, as long as they find room.
    fn let_on_in_turn(&mut self)
        ensures { GoInTurn self.old self.new }
    {
        for _ in 0..LOOKS {
            if !self.lets_next_on() {
                return;
            }
        }
    }

    /// Wakes the next guest of the queue, if it finds room. Returns whether it did, or waits
    /// no more. An oldest guest that waited for 2 s without room makes others wait.
    fn lets_next_on(&mut self) -> bool
        ensures goes { IsTrue result → TakesTurn self.old self.new }
        ensures ends { IsFalse result → EndsTurns self.old self.new }
    {
        let Some(number) = self.whose_turn() else {
            return false;
        };
        let Some(place) = self.waiting_place(number) else {
            self.strike_out();
            return true;
        };
        if !self.finds_room(place) {
            self.keep_room(place);
            return false;
        }
        self.strike_out();
        self.pass_turn();
        self.try_again(place);
        true
    }

    /// Wakes all other waiting guests that find room, unless they wait for the oldest.
    fn let_on_others(&mut self)
        ensures { GoBeside self.old self.new }
    {
        if self.budget.is_kept {
            return;
        }
        for _ in 0..self.queue.len().min(LOOKS) {
            self.look_at_first();
        }
    }

    /// Wakes the first guest of the queue if it finds room. Else moves it to the end.
    fn look_at_first(&mut self)
        ensures { LooksAtFirst self.old self.new }
    {
        let Some(number) = self.first() else {
            return;
        };
        let Some(place) = self.waiting_place(number) else {
            self.drop_first();
            return;
        };
        if self.finds_room(place) {
            self.drop_first();
            self.try_again(place);
        } else {
            self.put_first_behind(number);
        }
    }

    /// Returns the first number of the queue.
    fn first(&self) -> Option<u64>
        ensures { result ≡ slice_get self.now.queue 0 }
    {
        self.queue.front().copied()
    }

    /// Drops the first number of the queue.
    fn drop_first(&mut self)
        ensures { self.new ≡ first_dropped self.old }
    {
        self.queue.pop_front();
    }

    /// Moves the first number of the queue to its end. It takes no memory.
    fn put_first_behind(&mut self, number: u64)
        requires { slice_get self.old.queue 0 ≡ Some number }
        ensures { self.new ≡ first_behind number self.old }
    {
        self.queue.pop_front();
        let _ = self.queue.push_back(number);
    }

    /// Wakes the waiting guests that aren't in the queue.
    fn let_on_strays(&mut self)
        ensures { self.new ≡ all_strays_tried self.old }
    {
        if !self.has_strays {
            return;
        }
        self.has_strays = false;
        for at in self.awake..self.row.len() {
            self.let_on_stray(at);
        }
    }

    /// Wakes the guest at a place if it waits and isn't in the queue.
    fn let_on_stray(&mut self, at: usize)
        requires { at < length self.old.row.guests }
        ensures { self.new ≡ stray_tried at self.old }
    {
        if self.row.at(at).is_stray() {
            self.try_again(at);
        }
    }

    /// Tries a waiting guest again, and wakes it if it sleeps.
    ///
    /// If an event woke it before, it is out of the queue, so its turn comes now.
    fn try_again(&mut self, at: usize)
        requires { at < length self.old.row.guests }
        ensures { self.new ≡ tried_again at self.old }
    {
        self.set_line(at, WaitState::Next);
        self.wake_at(at);
    }

    /// Notes a guest's place in the queue of waiting guests.
    fn set_line(&mut self, at: usize, line: WaitState)
        requires { at < length self.old.row.guests }
        ensures { self.new ≡ lined at line self.old }
    {
        self.row.set_line(at, line);
    }

    /// Returns whether a waiting guest finds room, and promises the room to it.
    fn finds_room(&mut self, at: usize) -> bool
        requires { at < length self.old.row.guests }
        ensures { PromisesRoom at result self.old self.new }
    {
        let missing = self.row.at(at).missing();
        if self.budget.has_left(missing) {
            self.budget.promise(missing);
            return true;
        }
        false
    }

    /// Makes others wait for this guest, if it is the oldest one's turn and it waited for 2 s.
    fn keep_room(&mut self, at: usize)
        requires { at < length self.old.row.guests }
        ensures { KeepsRoom at self.old self.new }
    {
        let is_long = self.row.at(at).waits_long(self.budget.ticks);
        self.budget.is_kept = is_kept_for(self.is_last, is_long);
    }

    /// Passes the turn between the oldest and the newest if the guest in turn went on.
    fn pass_turn(&mut self)
        ensures { self.new ≡ turn_passed self.old }
    {
        self.is_last = !self.is_last;
    }

    /// Returns the number of the next guest of the queue.
    fn whose_turn(&self) -> Option<u64>
        ensures { result ≡ in_turn self.now }
    {
        if self.is_last {
            self.queue.back().copied()
        } else {
            self.queue.front().copied()
        }
    }

    /// Removes the next guest from the queue.
    fn strike_out(&mut self)
        ensures { self.new ≡ struck_out self.old }
    {
        if self.is_last {
            self.queue.pop_back();
        } else {
            self.queue.pop_front();
        }
    }

    /// Returns the place of the guest that waits in the queue by this number.
    fn waiting_place(&self, number: u64) -> Option<usize>
        ensures some { IfSome result (λ at. IsQueuedAt number at self.now.row) }
        ensures none { result ≡ None → NoneWaits number self.now.row }
    {
        let place = self.row.place_of(number)?;
        if self.row.at(place).is_queued() {
            Some(place)
        } else {
            None
        }
    }

    /// Returns the number of waiting guests.
    pub fn waiting_guests(&self) -> usize
        ensures { result ≡ self.now.budget.waiting }
    {
        self.budget.waiting
    }

    /// Reports the bytes held and the number of waiting guests to a tally, if one of both changed.
    pub fn report<T: Tally>(&mut self, tally: &T)
        ensures { self.new ≡ self.old }
    {
        let (held, waiting) = (self.budget.held, self.budget.waiting);
        if self.reported != (held, waiting) {
            self.reported = (held, waiting);
            tally.holds(held, waiting);
        }
    }

    /// Returns how many slow guests to judge now: once a tick, as many as wait, at most 16.
    pub fn takes_turn_to_judge(&mut self) -> usize
        ensures judges { result ≡ to_judge self.old.budget }
        ensures notes { self.new ≡ took_judging self.old }
    {
        self.budget.takes_turn_to_judge()
    }

    /// Returns how many readers of what has left the store may be ended now: once a tick 16 if that
    /// is more than the share, else none.
    pub fn takes_turn_to_end(&mut self) -> usize
        ensures ends { result ≡ to_end self.old.budget }
        ensures notes { self.new ≡ took_ending self.old }
    {
        self.budget.takes_turn_to_end()
    }

    /// Returns the number of the link of the slowest guest that reads what has left the store, if
    /// that is more than the share. The caller closes the link; the guest is counted no more.
    pub fn end_slowest_reader(&mut self) -> Option<u64>
        ensures over { is_some result ≡ exceeds_share self.old.budget }
        ensures ends { IfSome result (λ number.
            EndsSlowest number self.old.row self.new.row self.old.budget self.new.budget) }
        ensures none { result ≡ None → self.new ≡ self.old }
        ensures rest { self.new ≡ record self.old {
          row = self.new.row;
          budget = self.new.budget;
        } }
    {
        if !self.budget.is_over() {
            return None;
        }
        let Guests { row, budget, .. } = self;
        row.end_slowest_reader(budget)
    }

    /// Judges the slowest of the guests that hold more than 72 KiB, if it is slow: it moved nothing
    /// for 5 s, or for at least 5 s so little that what it holds takes more than 10 s. All guests
    /// are looked at.
    pub fn judge_slowest(&mut self) -> Option<Verdict>
        ensures judges { Judges self.old.budget.ticks result self.old.row self.new.row }
        ensures rest { self.new ≡ record self.old { row = self.new.row } }
    {
        self.row.judge_slowest(self.budget.ticks)
    }

    /// Returns what an awake guest does next. An end is counted.
    fn fate_at(&self, at: usize, end: &mut WorkEnd) -> NextState
        requires { at < self.now.awake }
        ensures { IsFateOf at self.now.row result end.old end.new }
    {
        let guest = self.row.at(at);
        let fate = fate_of(guest.last(), end);
        if guest.waits() {
            fate_in_line(guest.line(), fate)
        } else {
            fate
        }
    }

    /// Puts a waiting guest into the queue, and to sleep. If memory is refused it is a stray.
    fn line_up(&mut self, at: usize)
        requires { at < self.old.awake }
        ensures { LinesUp at self.old self.new }
    {
        let number = self.row.number_of(at);
        if self.queue.push_back(number).is_ok() {
            self.set_line(at, WaitState::Queued);
        } else {
            self.has_strays = true;
        }
        self.put_behind(at);
    }

    /// Wakes the guest whose link has this number, if it sleeps.
    ///
    /// The cost doesn't grow with the number of sleeping guests.
    pub fn wake(&mut self, number: u64)
        ensures { Wakes number self.old self.new }
    {
        let Some(place) = self.row.place_of(number) else {
            return;
        };
        self.wake_at(place);
    }

    /// Wakes the guest at a place, if one sleeps there.
    fn wake_at(&mut self, at: usize)
        ensures asleep { SleepsAt at self.old → self.new ≡ woken at self.old }
        ensures awake { at < self.old.awake → self.new ≡ self.old }
    {
        if self.awake <= at && at < self.row.len() {
            let first = self.awake;
            self.row.swap(at, first);
            self.awake = first + 1;
        }
    }

    /// Moves a guest behind those that are awake.
    fn put_behind(&mut self, at: usize)
        requires { at < self.old.awake }
        ensures { self.new ≡ put_behind at self.old }
    {
        let last = self.awake - 1;
        self.row.swap(at, last);
        self.awake = last;
    }
}

impl<L: LeavingLink + Drop> Guests<L> {
    /// Makes an awake guest of the link with this number, and returns whether it did.
    ///
    /// If memory is refused, or if a guest's link already has that number, the link is let go, and
    /// all guests are unchanged.
    pub fn welcome(&mut self, alloc: Global, link: L, greatest: u64, number: u64) -> bool
        ensures came { IsTrue result →
            self.new ≡ let_in (welcomed greatest (L.shown link)) number self.old }
        ensures refused { IsFalse result → self.new ≡ record self.old { gone = self.new.gone } }
        ensures leaves { IsFalse result →
            L.leaves (L.shown link) self.old.gone self.new.gone }
    {
        let guest = Guest::with_spares(alloc, link, greatest, self.spares.as_ref());
        let place = self.row.len();
        match self.row.push(guest, number) {
            Ok(()) => {
                self.wake_at(place);
                true
            }
            Err(link) => {
                self.gone = link.let_go(self.gone);
                false
            }
        }
    }

    /// Drops and counts the guests that have ended, lets their links go, and puts those that
    /// answered `Later`, or wait for room, to sleep. The others stay awake.
    ///
    /// The last comes first: if all behind a guest fall asleep too, none is moved.
    pub fn settle(&mut self, end: &mut WorkEnd)
        ensures { (settles : SettlesFrom 0 self.old self.new end.old end.new)
            × AreLetGo L.leaves (all_gone settles.1) self.old.gone self.new.gone }
    {
        for at in (0..self.awake).rev() {
            self.settle_at(at, end);
        }
    }

    /// Settles an awake guest.
    fn settle_at(&mut self, at: usize, end: &mut WorkEnd)
        requires { at < self.old.awake }
        ensures { (settles : Settles at self.old self.new end.old end.new)
            × AreLetGo L.leaves (gone_at settles) self.old.gone self.new.gone }
    {
        match self.fate_at(at, end) {
            NextState::GoesOn => {}
            NextState::Waits => self.line_up(at),
            NextState::Sleeps => self.put_behind(at),
            NextState::Ended => self.let_go(at),
        }
    }

    /// Removes a guest, and lets its link go.
    fn let_go(&mut self, at: usize)
        requires { at < self.old.awake }
        ensures goes { LetsGo at self.old self.new }
        ensures leaves { (guest : RowGuest) × StandsAt at self.old.row guest
            × L.leaves guest.guest.link self.old.gone self.new.gone }
    {
        let last = self.awake - 1;
        self.row.swap(at, last);
        let end = self.row.len() - 1;
        self.row.swap(last, end);
        self.awake = last;
        let link = self.row.pop(&mut self.budget);
        self.gone = link.let_go(self.gone);
    }
}

/// Returns whether others wait for a guest that finds no room: it is the oldest one's turn, and it
/// waited long.
fn is_kept_for(is_last: bool, is_long: bool) -> bool
    ensures { result ≡ (not is_last && is_long) }
{
    !is_last && is_long
}

/// Returns what a guest does next after its last answer. An end is counted.
fn fate_of(last: Option<Visit>, end: &mut WorkEnd) -> NextState
    ensures over { is_over result ≡ has_ended last }
    ensures asleep { is_asleep result ≡ is_later last }
    ensures queue { is_to_queue result ≡ false }
    ensures counts { end.new ≡ counted last end.old }
{
    match last {
        None | Some(Visit::Wrote | Visit::Turned | Visit::Read) => NextState::GoesOn,
        Some(Visit::Later) => NextState::Sleeps,
        Some(Visit::Served) => {
            end.served = end.served.saturating_add(1);
            NextState::Ended
        }
        Some(Visit::Broken) => {
            end.broken = end.broken.saturating_add(1);
            NextState::Ended
        }
        Some(Visit::Refused) => {
            end.refused = end.refused.saturating_add(1);
            NextState::Ended
        }
    }
}

/// Returns what a guest that waits for room does next.
///
/// It is put into the queue if it isn't there, and sleeps. It goes if it has ended.
fn fate_in_line(line: WaitState, fate: NextState) -> NextState
    ensures over { is_over result ≡ is_over fate }
    ensures asleep { IsFalse (is_over fate) → IsTrue (is_asleep result) }
    ensures queue { IsFalse (is_over fate) → is_to_queue result ≡ is_left_out line }
{
    match (fate, line) {
        (NextState::Ended, _) => NextState::Ended,
        (_, WaitState::Out) => NextState::Waits,
        (_, WaitState::Queued | WaitState::Next) => NextState::Sleeps,
    }
}
