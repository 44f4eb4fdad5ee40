//! Guests in a row, found by the numbers of their links.
//!
//! Contracts show guests as lists (`BooksState`): guests in a row, the number of each one's link,
//! and how many are awake, the first ones. So a contract names which guest wakes, sleeps and ends.
ghost use Rattle.std.specs.Prelude.{◌≡◌, ◌<◌, ◌≤◌, ◌-◌, ◌+◌, ◌++◌, ◌∷◌, ℕ, [], take, drop, length, Some, IfSome, OnOk, IfErr, IsTrue};
ghost use Rattle.mc_guests.specs.Asks.{MakesRound};
ghost use Rattle.mc_guests.specs.Budgets.{CountsAll, RecountsAll, rest_of, with_left};
ghost use Rattle.mc_guests.specs.Turns.{HaveTurns};
ghost use Rattle.mc_guests.specs.Retries.{IsWhole};
ghost use Rattle.mc_guests.specs.Books.{nobody, swapped, cut, joined, HasNumber, StandsAt};
ghost use Rattle.mc_guests.specs.Books.{with_guest, SameButLeft};
ghost use Rattle.mc_guests.specs.Guests.{RowGuest, newcomer, in_line};
ghost use Rattle.mc_guests.specs.Judging.{FindsSlowest, Judges, JudgesAt, EndsReader, RecountsAt};
ghost use Rattle.mc_guests.specs.Judging.{sought_rate, undercuts};

use crate::budget::Budget;
use crate::guest::Guest;
use crate::metered::{Metered, Sought, Verdict, WaitState};
use crate::numbers::NumberList;
use crate::reports::Reports;
use crate::rounds::round_within;
use crate::seat::GuestSeat;
use mc_links::Link;
use mc_protocol::Steps;
use mc_time::Moment;
use std::alloc::{AllocFailed, Global};
use std::marker::Model;

/// Guests in a row. Contracts see them, and the number of each one's link.
#[derive(Drop)]
pub struct GuestRow<L: Link + Drop> {
    alloc: Global,
    guests: Vec<GuestSeat<L>>,
    /// The number of each one's link.
    numbers: NumberList,
    /// The place of the guest that rests next if it is quiet.
    next: usize,
}

/// The most guests that are looked at in one tick, to see whether they are quiet.
const LOOKS: usize = 1024;

impl<L: Link + Drop> Model for GuestRow<L> {
    ghost use Rattle.std.specs.Prelude.{◌≡◌, length};
    ghost use Rattle.mc_guests.specs.Books.{RowState};

    ghost Value = { RowState };

    ghost view = { λ r. record { guests = r.guests.items; numbers = r.numbers } };

    ghost invariant = { λ r. length r.numbers ≡ length r.guests.items };
}

impl<L: Link + Drop> GuestRow<L> {
    /// Makes an empty row. It takes no memory.
    pub fn new(alloc: Global) -> GuestRow<L>
        ensures { result ≡ nobody }
    {
        GuestRow {
            alloc,
            guests: Vec::new(alloc),
            numbers: NumberList::new(alloc),
            next: 0,
        }
    }

    /// Returns the number of guests.
    pub fn len(&self) -> usize
        ensures { result ≡ length self.now.guests }
    {
        self.guests.len()
    }

    /// Appends a guest whose link has this number.
    ///
    /// If memory is refused, or if a guest's link already has that number, the guest's link is
    /// returned.
    pub fn push(&mut self, guest: Guest<L>, number: u64) -> Result<(), L>
        ensures pushed { OnOk result (self.new ≡ joined guest number self.old) }
        ensures refused { IfErr result (λ link.
            (L.shown link ≡ guest.link) × (self.new ≡ self.old)) }
    {
        if !self.numbers.push(number) {
            return Err(turned_away(guest));
        }
        match push_behind(self.alloc, &mut self.guests, guest) {
            Ok(()) => Ok(()),
            Err(link) => {
                self.numbers.pop();
                Err(link)
            }
        }
    }

    /// Removes the last guest, which is no longer counted, and returns its link.
    #[inline(never)]
    pub fn pop(&mut self, budget: &mut Budget) -> L
        requires { 0 < length self.old.guests }
        ensures link { (guest : RowGuest) × StandsAt (length self.old.guests - 1) self.old guest
            × (L.shown result ≡ guest.guest.link) }
        ensures cut { self.new ≡ cut (length self.old.guests - 1) self.old }
        ensures counts { CountsAll budget.old self.old.guests →
            CountsAll budget.new self.new.guests }
        ensures rest { rest_of budget.new ≡ rest_of budget.old }
        ensures eased { IsTrue budget.new.is_eased }
    {
        let Some(mut guest) = self.guests.pop() else {
            unreachable!()
        };
        guest.inner.leave(budget);
        self.numbers.pop();
        guest.into_link()
    }

    /// Lends the guest at a place.
    pub fn at(&self, at: usize) -> &Metered<L>
        requires { at < length self.now.guests }
        ensures { StandsAt at self.now result.now }
    {
        &self.guests[at].inner
    }

    /// Notes a guest's place in the queue of waiting guests.
    pub fn set_line(&mut self, at: usize, line: WaitState)
        requires { at < length self.old.guests }
        ensures { self.new ≡ with_guest (in_line line) at self.old }
    {
        self.guests[at].inner.set_line(line);
    }

    /// Returns the number of a guest's link.
    pub fn number_of(&self, at: usize) -> u64
        requires { at < length self.now.guests }
        ensures { HasNumber self.now at result }
    {
        self.numbers.at(at)
    }

    /// Frees the memory that quiet guests keep, and counts guests anew for what they read that has
    /// left the store. It looks at up to 1024 of them, in turn.
    pub fn rest_quiet(&mut self, budget: &mut Budget)
        ensures same { SameButLeft self.old self.new }
        ensures counts { CountsAll budget.old self.old.guests →
            CountsAll budget.new self.new.guests }
        ensures rest { budget.new ≡ with_left budget.new.left budget.old }
    {
        for _ in 0..self.guests.len().min(LOOKS) {
            self.rest_next(budget);
        }
    }

    /// Frees the memory that the next guest in turn keeps, if it is quiet, and counts it anew for
    /// what it reads that has left the store.
    fn rest_next(&mut self, budget: &mut Budget)
        ensures same { SameButLeft self.old self.new }
        ensures counts { CountsAll budget.old self.old.guests →
            CountsAll budget.new self.new.guests }
        ensures rest { budget.new ≡ with_left budget.new.left budget.old }
    {
        let at = self.next_place();
        self.next = at.wrapping_add(1);
        if at < self.guests.len() {
            self.rest_at(at, budget);
        }
    }

    /// Returns the place of the guest that rests next: the first behind the last.
    fn next_place(&self) -> usize {
        if self.next < self.guests.len() {
            self.next
        } else {
            0
        }
    }

    /// Frees the memory that the guest at a place keeps, if it is quiet, and counts it anew for
    /// what it reads that has left the store.
    fn rest_at(&mut self, at: usize, budget: &mut Budget)
        requires { at < length self.old.guests }
        ensures { (left : ℕ) × RecountsAt at left self.old self.new budget.old budget.new }
    {
        self.guests[at].inner.rest_if_quiet(budget);
    }

    /// Returns the number of the link of the slowest guest that reads what has left the store,
    /// which is counted no more. Of equal ones it is the first.
    pub fn end_slowest_reader(&mut self, budget: &mut Budget) -> Option<u64>
        ensures { EndsReader result self.old self.new budget.old budget.new }
    {
        match self.slowest(Sought::Reader, budget.ticks) {
            Some((at, _)) => Some(self.uncount_left_at(at, budget)),
            None => None,
        }
    }

    /// Counts the guest at a place no more for what has left the store, and returns the number of
    /// its link.
    fn uncount_left_at(&mut self, at: usize, budget: &mut Budget) -> u64
        requires { at < length self.old.guests }
        ensures number { HasNumber self.old at result }
        ensures counts { RecountsAt at 0 self.old self.new budget.old budget.new }
    {
        let number = self.numbers.at(at);
        self.guests[at].inner.uncount_left(budget);
        number
    }

    /// Judges the slowest guest that holds much, if one is slow. Of equal ones it is the first.
    pub fn judge_slowest(&mut self, ticks: u64) -> Option<Verdict>
        ensures { Judges ticks result self.old self.new }
    {
        match self.slowest(Sought::Hoarder, ticks) {
            Some((at, _)) => Some(self.judge_at(at, ticks)),
            None => None,
        }
    }

    /// Judges the slow guest at a place.
    fn judge_at(&mut self, at: usize, ticks: u64) -> Verdict
        requires { at < length self.old.guests }
        ensures { JudgesAt ticks at result self.old self.new }
    {
        let number = self.numbers.at(at);
        self.guests[at].inner.judge(number, ticks)
    }

    /// Returns the place and the rate of the slowest of the guests that are sought, if there is
    /// one.
    fn slowest(&self, sought: Sought, ticks: u64) -> Option<(usize, u64)>
        ensures { FindsSlowest (sought_rate sought ticks) (length self.now.guests) result
            self.now.guests }
    {
        let mut found = None;
        for at in 0..self.guests.len() {
            found = self.slower(sought, found, at, ticks);
        }
        found
    }

    /// Returns the slowest guest up to a place, if `found` is the slowest before it.
    fn slower(
        &self,
        sought: Sought,
        found: Option<(usize, u64)>,
        at: usize,
        ticks: u64,
    ) -> Option<(usize, u64)>
        requires stands { at < length self.now.guests }
        requires found { FindsSlowest (sought_rate sought ticks) at found self.now.guests }
        ensures { FindsSlowest (sought_rate sought ticks) (at + 1) result self.now.guests }
    {
        let guest = self.at(at);
        match guest.sought_rate(sought, ticks) {
            Some(rate) if undercuts(rate, found) => Some((at, rate)),
            _ => found,
        }
    }

    /// Returns the place of the guest whose link has this number.
    pub fn place_of(&self, number: u64) -> Option<usize>
        ensures some { IfSome result (λ at. HasNumber self.now at number) }
        ensures within { IfSome result (λ at. at < length self.now.guests) }
        ensures none { (at : ℕ) → HasNumber self.now at number → result ≡ Some at }
    {
        self.numbers.place_of(number)
    }

    /// Visits each of the first `count` guests once, within the budget.
    pub fn visit_front<S: Reports>(
        &mut self,
        alloc: Global,
        count: usize,
        store: &mut S,
        now: Moment,
        budget: &mut Budget,
    )
        requires { count ≤ length self.old.guests }
        ensures whole { IsWhole self.old }
        ensures round { MakesRound S.Steps now store.old store.new }
        ensures turns { HaveTurns S.Steps now (take count self.old.guests)
            (take count self.new.guests) store.old store.new budget.old budget.new }
        ensures counts { CountsAll budget.old self.old.guests →
            CountsAll budget.new self.new.guests }
        ensures share { budget.new.share ≡ budget.old.share }
        ensures rest { drop count self.new.guests ≡ drop count self.old.guests }
        ensures all { length self.new.guests ≡ length self.old.guests }
        ensures numbers { self.new.numbers ≡ self.old.numbers }
    {
        let _all = self.guests.len();
        visit_front_of(alloc, self.guests.as_mut_slice(), count, store, now, budget);
    }

    /// Swaps two guests, and does nothing if they are the same.
    pub fn swap(&mut self, one: usize, other: usize)
        requires one { one < length self.old.guests }
        requires other { other < length self.old.guests }
        ensures { self.new ≡ swapped one other self.old }
    {
        if one == other {
            return;
        }
        self.guests.as_mut_slice().swap(one, other);
        self.numbers.swap(one, other);
    }
}

/// Returns whether a rate is below that of the slowest guest before, if there is one.
fn undercuts(rate: u64, found: Option<(usize, u64)>) -> bool
    ensures { result ≡ undercuts rate found }
{
    match found {
        Some((_, lowest)) => rate < lowest,
        None => true,
    }
}

/// Visits each of the first `count` guests once, within the budget.
fn visit_front_of<L: Link + Drop, S: Reports>(
    alloc: Global,
    guests: &mut [GuestSeat<L>],
    count: usize,
    store: &mut S,
    now: Moment,
    budget: &mut Budget,
)
    requires { count ≤ length guests.old }
    ensures round { MakesRound S.Steps now store.old store.new }
    ensures turns { HaveTurns S.Steps now (take count guests.old) (take count guests.new) store.old
        store.new budget.old budget.new }
    ensures counts { RecountsAll (take count guests.old) (take count guests.new) budget.old
        budget.new }
    ensures rest { drop count guests.new ≡ drop count guests.old }
    ensures all { length guests.new ≡ length guests.old }
{
    let (front, _) = guests.split_at_mut(count);
    round_within(alloc, front, store, now, budget);
}

/// Appends a guest that holds nothing. Returns its link if memory is refused.
fn push_behind<L: Link + Drop>(
    alloc: Global,
    guests: &mut Vec<GuestSeat<L>>,
    guest: Guest<L>,
) -> Result<(), L>
    ensures pushed { OnOk result
        (guests.new.items ≡ guests.old.items ++ newcomer guest ∷ []) }
    ensures refused { IfErr result (λ link.
        (L.shown link ≡ guest.link) × (guests.new.items ≡ guests.old.items)) }
{
    let seat = match GuestSeat::new(alloc, guest) {
        Ok(seat) => seat,
        Err(link) => return Err(link),
    };
    match guests.push(seat) {
        Ok(()) => Ok(()),
        Err(AllocFailed { mut value }) => {
            value.inner.refuse();
            Err(value.into_link())
        }
    }
}

/// Records at a guest's link that memory was refused, and returns the link.
fn turned_away<L: Link + Drop>(mut guest: Guest<L>) -> L
    ensures { L.shown result ≡ guest.link }
{
    guest.refuse();
    guest.into_link()
}
