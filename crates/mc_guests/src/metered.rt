//! Guests with the memory that they hold.
//!
//! A guest that needs more than 16 KiB waits if its worker's share of `--buffer-limit` is used up;
//! its state doesn't change. The first 72 KiB of a guest are its own: it is counted for what it
//! reserves beyond them. Output that its client hasn't read counts too, but for what is lent: that
//! is the store's. A block is counted whole when it is admitted, so an admitted guest never stops
//! half way. Waiting guests are retried after memory came back, the oldest and the newest in turn:
//! with the oldest only, a thousand half-sent blocks delayed everyone else for minutes.
//!
//! Memory that has left the store while guests read it is in a sum of its own, for which nobody
//! waits: if it exceeds the share, the slowest of its readers are closed.
ghost use Rattle.std.specs.Prelude.{◌≡◌, ◌≢◌, ◌<◌, ◌≤◌, ◌-◌, nat_lt, min, not, true, false, is_none, IfSome, None};
ghost use Rattle.std.specs.Prelude.{IsTrue, IsFalse};
ghost use Rattle.mc_guests.specs.Asks.{AsksAndVisits, IsKeptWaiting};
ghost use Rattle.mc_guests.specs.Asks.{little, most, missing_of, MayAsk, NamesKey};
ghost use Rattle.mc_guests.specs.Budgets.{uncounted, counted_too, IsHeldBack, GoesOnOrWaits, Recounts};
ghost use Rattle.mc_guests.specs.Budgets.{fits, is_tight, is_kept_for_one, HasRoom, EasesIf, StaysInLine};
ghost use Rattle.mc_guests.specs.Budgets.{Covers, IsCounted, CountsLeft, RecountsLeft};
ghost use Rattle.mc_guests.specs.Guests.{newcomer, has_ended, is_in_queue, is_left_out};
ghost use Rattle.mc_guests.specs.Guests.{is_queued, is_next, is_tried, is_stray, missing, in_line};
ghost use Rattle.mc_guests.specs.Judging.{is_hoarding, slowness, reading_rate, sought_rate, verdict, judged};
ghost use Rattle.mc_guests.specs.Retries.{waits_long};
ghost use Rattle.mc_guests.specs.Visits.{Visited};

use crate::budget::{Budget, LITTLE, OWN};
use crate::guest::{Guest, Visit};
use crate::link_rate::LinkRate;
use crate::measure::next_length;
use crate::reports::Reports;
use mc_links::Link;
use mc_protocol::Steps;
use mc_time::Moment;
use std::alloc::Global;
use std::marker::Model;

/// The bytes that an idle guest reserves.
const IDLE: usize = 6144;

/// The bytes that a guest without input and output may keep while it isn't quiet.
const KEPT: usize = 65_536;

/// The ticks without a moved byte after which a guest is quiet.
const QUIET: u64 = 4;

/// The bytes that a guest reserves before it asks for the whole room of a large block.
const BEGUN: usize = LITTLE;

/// A session makes all room of a block once one of these parts has come, so a guest asks before.
const PARTS: usize = 16;

/// The ticks after which others wait for a waiting guest.
const LONG: u64 = 8;

/// A guest, and the memory that it holds. Contracts see the guest, and its link's pace. They see
/// whether it waits for room, its place in the queue, and what it wanted when it began to wait.
/// They see the bytes for which it is counted, those of its output that were lent then, and those
/// of what has left the store.
#[derive(Drop)]
pub struct Metered<L: Link + Drop> {
    guest: Guest<L>,
    /// The bytes for which it is counted.
    counted: usize,
    /// The length of the unit that it reads, if its line announces a block.
    unit: usize,
    /// Whether it was admitted for the whole block that it reads.
    has_leave: bool,
    /// Whether it waits for room.
    waits: bool,
    line: WaitState,
    /// The bytes that it wanted when it began to wait.
    wanted: usize,
    /// The bytes of its output that were lent when it was counted.
    lent: usize,
    /// The bytes for which it is counted of what has left the store.
    left: usize,
    /// The pace of its link since it is counted for some bytes, output is lent to it, or it waits.
    pace: LinkRate,
    /// Whether it keeps memory that isn't counted: it has neither input nor output.
    keeps: bool,
}

/// The place of a waiting guest in the queue.
#[derive(Clone, Copy, PartialEq, Eq)]
pub enum WaitState {
    /// It isn't in the queue.
    Out,
    /// It is in the queue.
    Queued,
    /// It is tried again.
    Next,
}

/// The bytes for which a guest is counted after a visit.
#[derive(Clone, Copy)]
enum Weight {
    /// As many as before.
    Same,
    /// None: it keeps at most `KEPT` for its next request.
    Kept,
    /// What it reserves beyond its own, or the block for which it was admitted if that is longer.
    Reserved,
}

/// Which guests the slowest is sought of.
#[derive(Clone, Copy)]
pub enum Sought {
    /// Those that are counted for some bytes, and slow for as much as they hold.
    Hoarder,
    /// Those that are counted for what has left the store.
    Reader,
}

/// What to do with a guest that holds much and is slow, by the number of its link.
#[derive(Clone, Copy)]
pub enum Verdict {
    /// Ask the link again: the poll may have missed it.
    Asks(u64),
    /// Close the link: it was asked again and is still slow.
    Ends(u64),
}

impl<L: Link + Drop> Model for Metered<L> {
    ghost use Rattle.mc_guests.specs.Guests.{RowGuest, row_guest};

    ghost Value = { RowGuest };

    ghost view = { λ w.
        row_guest w.guest w.waits w.counted w.line w.wanted w.lent w.left w.pace };
}

impl<L: Link + Drop> Metered<L> {
    /// Returns a guest that holds nothing.
    pub fn new(guest: Guest<L>) -> Metered<L>
        ensures { result ≡ newcomer guest }
    {
        Metered {
            guest,
            counted: 0,
            unit: 0,
            has_leave: false,
            waits: false,
            line: WaitState::Out,
            wanted: 0,
            lent: 0,
            left: 0,
            pace: LinkRate::new(0),
            keeps: false,
        }
    }

    /// Returns the answer of its last visit, and `None` before the first.
    pub fn last(&self) -> Option<Visit>
        ensures { result ≡ self.now.guest.last }
    {
        self.guest.last()
    }

    /// Returns whether it waits for room.
    pub fn waits(&self) -> bool
        ensures { result ≡ self.now.waits }
    {
        self.waits
    }

    /// Returns its place in the queue, if it waits for room.
    pub fn line(&self) -> WaitState
        ensures { result ≡ self.now.line }
    {
        self.line
    }

    /// Notes its place in the queue.
    pub fn set_line(&mut self, line: WaitState)
        ensures { self.new ≡ in_line line self.old }
    {
        self.line = line;
    }

    /// Returns the bytes that it waits for, beyond those that are counted.
    pub fn missing(&self) -> usize
        ensures { result ≡ missing self.now }
    {
        self.wanted.saturating_sub(self.counted)
    }

    /// Returns whether it waits in the queue for at least 2 s.
    pub fn waits_long(&self, ticks: u64) -> bool
        ensures { result ≡ waits_long ticks self.now }
    {
        self.is_queued() && self.pace.age(ticks) >= LONG
    }

    /// Returns whether it waits in the queue.
    pub fn is_queued(&self) -> bool
        ensures { result ≡ is_queued self.now }
    {
        self.waits && self.line.is_in_queue()
    }

    /// Returns whether it waits and is tried again.
    fn is_tried(&self) -> bool
        ensures { result ≡ is_tried self.now }
    {
        self.waits && self.line.is_next()
    }

    /// Returns whether it waits and isn't in the queue.
    pub fn is_stray(&self) -> bool
        ensures { result ≡ is_stray self.now }
    {
        self.waits && self.line.is_left_out()
    }

    /// Returns its rate if it is one of those that are sought.
    pub fn sought_rate(&self, sought: Sought, ticks: u64) -> Option<u64>
        ensures { result ≡ sought_rate sought ticks self.now }
    {
        match sought {
            Sought::Hoarder => self.slowness(ticks),
            Sought::Reader => self.reading_rate(ticks),
        }
    }

    /// Returns its rate if it is counted for some bytes, and slow for as much as it holds.
    #[tactic(auto, unfolding(crate::specs::Judging::slowness))]
    fn slowness(&self, ticks: u64) -> Option<u64>
        ensures { result ≡ slowness ticks self.now }
    {
        if self.is_hoarding(ticks) {
            Some(self.pace.rate(ticks))
        } else {
            None
        }
    }

    /// Returns whether it is counted for some bytes, and slow for as much as it holds.
    fn is_hoarding(&self, ticks: u64) -> bool
        ensures { result ≡ is_hoarding ticks self.now }
    {
        let held = self.counted.saturating_add(OWN);
        self.counted > 0 && self.pace.is_slow(held, ticks)
    }

    /// Returns the rate of its link if it is counted for what has left the store.
    #[tactic(auto, unfolding(crate::specs::Judging::reading_rate))]
    fn reading_rate(&self, ticks: u64) -> Option<u64>
        ensures { result ≡ reading_rate ticks self.now }
    {
        if self.left > 0 {
            Some(self.pace.rate(ticks))
        } else {
            None
        }
    }

    /// Counts it no more for what has left the store, because its link is closed.
    pub fn uncount_left(&mut self, budget: &mut Budget)
        ensures counts { RecountsLeft 0 self.old self.new budget.old budget.new }
        ensures left { budget.new.left ≡ budget.old.left - self.old.left }
    {
        self.left = budget.recount_left(self.left, 0);
    }

    /// Judges a slow guest, whose link has this number.
    pub fn judge(&mut self, number: u64, ticks: u64) -> Verdict
        ensures says { result ≡ verdict ticks number self.old }
        ensures notes { self.new ≡ judged ticks self.old }
    {
        if self.pace.was_asked(ticks) {
            self.pace = LinkRate::new(ticks);
            Verdict::Ends(number)
        } else {
            self.pace.ask(ticks);
            Verdict::Asks(number)
        }
    }

    /// Records at its link that memory was refused.
    pub fn refuse(&mut self)
        ensures { self.new ≡ self.old }
    {
        self.guest.refuse();
    }

    /// Returns its link, and frees all else.
    pub fn into_link(self) -> L
        ensures { L.shown result ≡ self.guest.link }
    {
        let Metered { guest, .. } = self;
        guest.into_link()
    }

    /// Frees what it holds, and uncounts it. Its link stays.
    pub fn leave(&mut self, budget: &mut Budget)
        ensures counts { budget.new
            ≡ record (uncounted self.old.counted self.old.waits budget.old) {
              left = budget.old.left - self.old.left;
              is_eased = true;
            } }
        ensures link { self.new.guest.link ≡ self.old.guest.link }
    {
        self.guest.give_up();
        self.uncount_left(budget);
        budget.take_out(self.counted, self.waits);
        budget.is_eased = true;
    }

    /// Visits the guest. Returns `None` if it wants more than `LITTLE` and there is no room.
    ///
    /// Then it waits and is unchanged, or has ended if its link failed or is to end.
    pub fn visit<S: Reports>(
        &mut self,
        alloc: Global,
        store: &mut S,
        now: Moment,
        budget: &mut Budget,
    ) -> Option<Visit>
        ensures some { IfSome result (λ answer.
            AsksAndVisits S.Steps now answer self.old.guest self.new.guest store.old store.new) }
        ensures none { result ≡ None →
            IsKeptWaiting S.Steps now self.old.guest self.new.guest store.old store.new }
        ensures held_back { result ≡ None →
            IsHeldBack self.new.guest (uncounted self.old.counted self.old.waits budget.old) }
        ensures waits { self.new.waits ≡ is_none result }
        ensures line { result ≡ None → StaysInLine self.old self.new budget.old budget.new }
        ensures counts { Recounts self.old self.new budget.old budget.new }
        ensures covers { IfSome result (λ answer. answer ≢ Visit.Wrote →
            IsCounted self.new budget.new) }
    {
        let asked = self.asked_bytes(alloc, store, now, budget);
        if !self.may_go_on(asked, budget) {
            return None;
        }
        Some(self.visit_guest(alloc, store, now, budget))
    }

    /// Visits the guest, and counts it for what it holds then.
    fn visit_guest<S: Reports>(
        &mut self,
        alloc: Global,
        store: &mut S,
        now: Moment,
        budget: &mut Budget,
    ) -> Visit
        ensures visits { Visited S.Steps now result self.old.guest self.new.guest store.old
            store.new }
        ensures waits { self.new.waits ≡ self.old.waits }
        ensures counts { Recounts self.old self.new budget.old budget.new }
        ensures covers { result ≢ Visit.Wrote → IsCounted self.new budget.new }
    {
        let answer = self.guest.visit(alloc, store, now);
        self.report(answer, store);
        self.weigh(answer, budget);
        answer
    }

    /// Reports the request of a visit with this answer, if it was answered that its object is too
    /// large.
    fn report<S: Reports>(&self, answer: Visit, store: &S) {
        if answer == Visit::Turned && self.guest.is_told_too_large() {
            store.too_large();
        }
    }

    /// Returns whether it may go on with a request of `asked` bytes; otherwise it waits.
    #[inline]
    fn may_go_on(&mut self, asked: usize, budget: &mut Budget) -> bool
        ensures goes { GoesOnOrWaits result self.old self.new budget.old }
        ensures room { IsTrue result →
            HasRoom asked self.old (uncounted self.old.counted self.old.waits budget.old) }
        ensures line { IsFalse result → StaysInLine self.old self.new budget.old budget.new }
        ensures counts { Recounts self.old self.new budget.old budget.new }
    {
        if !self.waits && self.with_unsent(asked, budget) <= LITTLE {
            self.has_leave = false;
            return true;
        }
        self.sends_and_finds_room(asked, budget)
    }

    /// Sends what its link gathered, and returns whether there is room then for a request of
    /// `asked` bytes.
    ///
    /// Otherwise it waits. If its link failed or is to end, it has ended.
    #[inline(never)]
    fn sends_and_finds_room(&mut self, asked: usize, budget: &mut Budget) -> bool
        ensures goes { GoesOnOrWaits result self.old self.new budget.old }
        ensures room { IsTrue result →
            HasRoom asked self.old (uncounted self.old.counted self.old.waits budget.old) }
        ensures line { IsFalse result → StaysInLine self.old self.new budget.old budget.new }
        ensures counts { Recounts self.old self.new budget.old budget.new }
    {
        self.guest.pause();
        let wanted = self.with_unsent(asked, budget);
        self.finds_room(wanted, budget)
    }

    /// Returns the bytes of a request, with unsent output if memory is tight and a turn is due.
    #[inline]
    fn with_unsent(&self, asked: usize, budget: &Budget) -> usize
        ensures least { asked ≤ result }
        ensures eased { IsFalse (is_tight budget.now) → result ≡ asked }
    {
        if budget.is_tight() && self.guest.is_turn_due() {
            asked.saturating_add(self.guest.unsent_bytes())
        } else {
            asked
        }
    }

    /// Returns whether there is room for it to go on with `wanted` bytes; otherwise it waits.
    fn finds_room(&mut self, wanted: usize, budget: &mut Budget) -> bool
        ensures same { self.new.guest ≡ self.old.guest }
        ensures goes { IsTrue result → IsFalse (has_ended self.old.guest.last) }
        ensures held_back { IsFalse result →
            IsHeldBack self.old.guest (uncounted self.old.counted self.old.waits budget.old) }
        ensures room { IsTrue result →
            HasRoom wanted self.old (uncounted self.old.counted self.old.waits budget.old) }
        ensures waits { self.new.waits ≡ not result }
        ensures line { IsFalse result → StaysInLine self.old self.new budget.old budget.new }
        ensures counts { Recounts self.old self.new budget.old budget.new }
    {
        budget.take_out(self.counted, self.waits);
        if self.has_room(wanted, budget) {
            self.go_on(wanted, budget);
            return true;
        }
        self.keep(wanted, budget);
        false
    }

    /// Lets it go on with `wanted` bytes, and counts it.
    fn go_on(&mut self, wanted: usize, budget: &mut Budget)
        ensures same { self.new.guest ≡ self.old.guest }
        ensures left { self.new.left ≡ self.old.left }
        ensures goes { self.new.waits ≡ false }
        ensures counts { budget.new ≡ counted_too self.new.counted false budget.old }
    {
        if self.waits {
            self.pace = LinkRate::new(budget.ticks);
        }
        self.waits = false;
        self.line = WaitState::Out;
        self.has_leave = wanted > LITTLE;
        self.counted = budget.put_in(self.counted, false);
    }

    /// Returns the bytes that its next visit may reserve, if they are many: for a large block that
    /// has begun to come, or for an answer once memory is tight.
    fn asked_bytes<S: Reports>(
        &self,
        alloc: Global,
        store: &mut S,
        now: Moment,
        budget: &Budget,
    ) -> usize
        ensures { MayAsk S.Steps now (NamesKey self.now.guest.session) store.old store.new }
    {
        if self.unit > LITTLE {
            let announced = self.guest.announced_bytes();
            if announced > LITTLE {
                return missing_of(announced, self.guest.capacity());
            }
        }
        if !budget.is_tight() {
            return 0;
        }
        next_length(alloc, store, &self.guest, now).unwrap_or(0)
    }

    /// Returns whether it may go on with `wanted` bytes.
    ///
    /// It may with at most `LITTLE`, with what it was admitted for, or with what fits, unless it
    /// has to wait for others. It may not if it has ended.
    fn has_room(&self, wanted: usize, budget: &Budget) -> bool
        ensures goes { IsTrue result → IsFalse (has_ended self.now.guest.last) }
        ensures held_back { IsFalse result → IsHeldBack self.now.guest budget.now }
        ensures room { IsTrue result → HasRoom wanted self.now budget.now }
    {
        if self.guest.has_ended() {
            return false;
        }
        if wanted <= LITTLE || (self.has_leave && wanted <= self.counted.saturating_add(OWN)) {
            return true;
        }
        self.finds_left(wanted, budget)
    }

    /// Returns whether more than `LITTLE` bytes are left for it, and it needn't wait for others.
    fn finds_left(&self, wanted: usize, budget: &Budget) -> bool
        requires { little < wanted }
        ensures held_back { IsFalse result → IsHeldBack self.now.guest budget.now }
        ensures fits { IsTrue result → IsTrue (fits wanted budget.now) }
        ensures first { IsTrue result → IsTrue (is_kept_for_one budget.now) →
            IsTrue (is_tried self.now) }
    {
        let is_tried = self.is_tried();
        let is_kept = budget.is_kept_for_one();
        let is_left = budget.fits(wanted);
        (is_tried || !is_kept) && is_left
    }

    /// Makes it wait for `wanted` bytes, and counts it.
    fn keep(&mut self, wanted: usize, budget: &mut Budget)
        ensures same { self.new.guest ≡ self.old.guest }
        ensures left { self.new.left ≡ self.old.left }
        ensures waits { self.new.waits ≡ true }
        ensures wants { self.new.wanted ≡ wanted }
        ensures line { StaysInLine self.old self.new budget.old budget.new }
        ensures counts { budget.new ≡ record (counted_too self.new.counted true budget.old) {
          is_eased = budget.new.is_eased;
        } }
    {
        if !self.waits {
            self.pace = LinkRate::new(budget.ticks);
            budget.is_eased |= self.counted > 0;
        }
        if !self.is_queued() {
            self.line = WaitState::Out;
        }
        self.wanted = wanted;
        self.waits = true;
        self.counted = budget.put_in(self.counted, true);
    }

    /// Counts it for what it holds after a visit with this answer, and for an admitted block.
    fn weigh(&mut self, answer: Visit, budget: &mut Budget)
        ensures same { self.new.guest ≡ self.old.guest }
        ensures waits { self.new.waits ≡ self.old.waits }
        ensures counts { Recounts self.old self.new budget.old budget.new }
        ensures covers { answer ≢ Visit.Wrote → IsCounted self.new budget.new }
    {
        let bytes = self.bytes_after(answer, budget);
        self.recount(bytes, budget);
    }

    /// Returns the bytes that it is to be counted for after a visit with this answer, and notes
    /// what the visit moved.
    fn bytes_after(&mut self, answer: Visit, budget: &mut Budget) -> usize
        ensures same { self.new ≡ record self.old {
          pace = self.new.pace;
          lent = self.new.lent;
          left = self.new.left;
        } }
        ensures counts { CountsLeft self.old.left self.new.left budget.old budget.new }
        ensures covers { answer ≢ Visit.Wrote →
            Covers result self.new.lent self.old.guest.session }
    {
        match self.notes(answer, budget) {
            Weight::Same => self.counted,
            Weight::Kept => {
                self.note_lent(0, 0, budget);
                0
            }
            Weight::Reserved => self.reserved_bytes(budget),
        }
    }

    /// Returns the bytes beyond its own that it reserves, or that a block which it was admitted for
    /// takes. Notes what is lent to it.
    #[inline]
    fn reserved_bytes(&mut self, budget: &mut Budget) -> usize
        ensures same { self.new ≡ record self.old {
          pace = self.new.pace;
          lent = self.new.lent;
          left = self.new.left;
        } }
        ensures counts { CountsLeft self.old.left self.new.left budget.old budget.new }
        ensures covers { Covers result self.new.lent self.old.guest.session }
    {
        let holding = self.guest.holding();
        self.note_lent(holding.lent, holding.left, budget);
        let reserved = if self.has_leave {
            holding.own.max(self.unit)
        } else {
            holding.own
        };
        reserved.saturating_sub(OWN)
    }

    /// Notes how many bytes of its output are lent, and counts it for what of that has left the
    /// store.
    fn note_lent(&mut self, lent: usize, left: usize, budget: &mut Budget)
        ensures same { self.new ≡ record self.old {
          pace = self.new.pace;
          lent = lent;
          left = self.new.left;
        } }
        ensures left { self.new.left ≡ min left (most - (budget.old.left - self.old.left)) }
        ensures counts { CountsLeft self.old.left self.new.left budget.old budget.new }
    {
        if self.lent == 0 && lent > 0 {
            self.pace = LinkRate::new(budget.ticks);
        }
        self.lent = lent;
        self.left = budget.recount_left(self.left, left);
    }

    /// Notes what a visit with this answer moved, and returns for how many bytes it is counted
    /// then.
    fn notes(&mut self, answer: Visit, budget: &Budget) -> Weight
        ensures same { self.new ≡ record self.old { pace = self.new.pace } }
        ensures wrote { result ≡ Weight.Same → answer ≡ Visit.Wrote }
        ensures kept { result ≡ Weight.Kept → Covers 0 0 self.old.guest.session }
    {
        let ticks = budget.ticks;
        self.keeps = false;
        match answer {
            Visit::Wrote => {
                self.pace.moves(self.guest.moved_bytes(), ticks);
                // one that holds its own bytes alone is counted as before
                if self.counted > 0 || self.lent > 0 {
                    Weight::Reserved
                } else {
                    Weight::Same
                }
            }
            Visit::Read => {
                self.pace.moves(self.guest.moved_bytes(), ticks);
                self.unit = self.guest.unit();
                Weight::Reserved
            }
            Visit::Turned => {
                self.has_leave = false;
                self.unit = self.guest.unit();
                Weight::Reserved
            }
            Visit::Later => self.keep_or_rest(budget),
            Visit::Served | Visit::Broken | Visit::Refused => Weight::Reserved,
        }
    }

    /// Keeps its memory for its next request, if it has neither input nor output, holds at most
    /// `KEPT`, and memory isn't tight. Otherwise it frees what it doesn't use.
    ///
    /// It does nothing if it holds no more than an idle guest may.
    fn keep_or_rest(&mut self, budget: &Budget) -> Weight
        ensures same { self.new ≡ self.old }
        ensures anew { result ≢ Weight.Same }
        ensures kept { result ≡ Weight.Kept → Covers 0 0 self.old.guest.session }
    {
        let reserved = self.guest.capacity();
        if reserved <= IDLE {
            return Weight::Reserved;
        }
        if reserved <= KEPT && !budget.is_tight() && self.guest.is_between_requests() {
            self.keeps = true;
            return Weight::Kept;
        }
        let _ = self.guest.rest();
        Weight::Reserved
    }

    /// Frees the memory that it keeps, if it moved nothing for 1 s or memory is tight. Counts it
    /// anew for what it reads that has left the store.
    pub fn rest_if_quiet(&mut self, budget: &mut Budget)
        ensures { RecountsLeft self.new.left self.old self.new budget.old budget.new }
    {
        self.count_left(budget);
        self.free_if_quiet(budget);
    }

    /// Counts it anew for what it reads that has left the store.
    fn count_left(&mut self, budget: &mut Budget)
        ensures { RecountsLeft self.new.left self.old self.new budget.old budget.new }
    {
        if self.lent > 0 {
            let left = self.guest.holding().left;
            self.left = budget.recount_left(self.left, left);
        }
    }

    /// Frees the memory that it keeps, if it moved nothing for 1 s or memory is tight.
    fn free_if_quiet(&mut self, budget: &Budget)
        ensures { self.new ≡ self.old }
    {
        if self.keeps && (self.pace.was_quiet(budget.ticks, QUIET) || budget.is_tight()) {
            self.keeps = false;
            let _ = self.guest.rest();
        }
    }

    /// Counts it for this many bytes from now on.
    fn recount(&mut self, bytes: usize, budget: &mut Budget)
        ensures same { self.new.guest ≡ self.old.guest }
        ensures lent { self.new.lent ≡ self.old.lent }
        ensures left { self.new.left ≡ self.old.left }
        ensures waits { self.new.waits ≡ self.old.waits }
        ensures line { self.new.line ≡ self.old.line }
        ensures wants { self.new.wanted ≡ self.old.wanted }
        ensures eased { EasesIf (nat_lt self.new.counted self.old.counted) budget.old budget.new }
        ensures counts { Recounts self.old self.new budget.old budget.new }
        ensures whole { budget.new.held < most → self.new.counted ≡ bytes }
    {
        let was = self.counted;
        if bytes == was {
            return;
        }
        budget.take_out(was, self.waits);
        self.counted = budget.put_in(bytes, self.waits);
        if was == 0 && self.counted > 0 {
            self.pace = LinkRate::new(budget.ticks);
        }
        budget.is_eased |= self.counted < was;
    }
}

impl WaitState {
    /// Returns whether a guest that waits there is in the queue.
    fn is_in_queue(self) -> bool
        ensures { result ≡ is_in_queue self }
    {
        match self {
            WaitState::Queued => true,
            WaitState::Out | WaitState::Next => false,
        }
    }

    /// Returns whether a guest that waits there is tried again.
    fn is_next(self) -> bool
        ensures { result ≡ is_next self }
    {
        match self {
            WaitState::Next => true,
            WaitState::Out | WaitState::Queued => false,
        }
    }

    /// Returns whether a guest that waits there is left out of the queue.
    fn is_left_out(self) -> bool
        ensures { result ≡ is_left_out self }
    {
        match self {
            WaitState::Out => true,
            WaitState::Queued | WaitState::Next => false,
        }
    }
}

/// Returns the bytes that a guest wants for a large block: none while few are reserved, or once
/// there is room for all of it.
fn missing_of(announced: usize, reserved: usize) -> usize
    ensures { result ≡ missing_of announced reserved }
{
    if reserved < BEGUN.min(announced / PARTS) || announced <= reserved {
        0
    } else {
        announced
    }
}
