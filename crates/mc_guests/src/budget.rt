//! How much memory the guests of one worker may hold together.

ghost use Rattle.std.specs.Prelude.{◌≡◌, ◌<◌, ◌+◌, ◌-◌, min, IsTrue, IsFalse};
ghost use Rattle.mc_guests.specs.Asks.{most};
ghost use Rattle.mc_guests.specs.Budgets.{unused, fits, has_left, promised_more, is_tight};
ghost use Rattle.mc_guests.specs.Budgets.{is_kept_for_one};
ghost use Rattle.mc_guests.specs.Budgets.{may_try, is_retry_due, retried, to_judge};
ghost use Rattle.mc_guests.specs.Budgets.{is_large, one_if, rest_of, uncounted, counted_too};
ghost use Rattle.mc_guests.specs.Budgets.{is_over, to_end, with_left};

/// The bytes that a request may always take, whatever others hold.
pub const LITTLE: usize = 16_384;

/// The bytes that each guest has as its own: a line, the first part of its answer and 6 KiB. They
/// aren't counted, so they make no others wait.
pub const OWN: usize = 73_728;

/// The memory that a worker's guests hold, and its limit.
#[derive(Drop)]
pub struct Budget {
    /// The most bytes that they may hold together.
    pub share: usize,
    /// The bytes held from which on a turn's need is checked first.
    pub tight: usize,
    /// The bytes for which they are counted: those beyond `OWN` of each.
    pub held: usize,
    /// The bytes of memory that has left the store and that they read. Nobody waits for these.
    pub left: usize,
    /// The guests that go on and are counted for some bytes.
    pub large: usize,
    /// The guests that wait.
    pub waiting: usize,
    /// Whether memory came back since a guest began to wait in vain.
    pub is_eased: bool,
    /// Whether others wait for the oldest waiting guest.
    pub is_kept: bool,
    /// The bytes that were promised in this retry.
    pub promised: usize,
    /// The time, in ticks of 0.25 s.
    pub ticks: u64,
    /// The tick of the last retry.
    pub tried: u64,
    /// The tick of the last judgement of slow guests.
    pub judged: u64,
    /// The tick in which readers of what has left the store were last ended.
    pub ended: u64,
}

impl Budget {
    /// Makes a budget of `share` bytes without guests; a guest may want up to `greatest` at once.
    pub fn new(share: usize, greatest: u64) -> Budget
        ensures { result ≡ unused share greatest }
    {
        let greatest = (greatest as usize).saturating_add(LITTLE);
        Budget {
            share,
            tight: share.saturating_sub(greatest).max(share / 2),
            held: 0,
            left: 0,
            large: 0,
            waiting: 0,
            is_eased: false,
            is_kept: false,
            promised: 0,
            ticks: 0,
            tried: 0,
            judged: 0,
            ended: 0,
        }
    }

    /// Returns the budget without guests.
    pub(crate) fn without_guests(mut self) -> Budget
        ensures { result ≡ rest_of self }
    {
        self.held = 0;
        self.left = 0;
        self.large = 0;
        self.waiting = 0;
        self.is_eased = false;
        self
    }

    /// Returns whether there is room for one more guest that wants `wanted` bytes.
    ///
    /// There is always room up to `LITTLE`, and always if no other guest that goes on is counted.
    pub(crate) fn fits(&self, wanted: usize) -> bool
        ensures { result ≡ fits wanted self.now }
    {
        wanted <= LITTLE || wanted <= self.share.saturating_sub(self.held) || self.large == 0
    }

    /// Returns whether a waiting guest finds room for `more` bytes, beside what was promised.
    pub(crate) fn has_left(&self, more: usize) -> bool
        ensures { result ≡ has_left more self.now }
    {
        let taken = self.held.saturating_add(self.promised);
        more <= self.share.saturating_sub(taken) || (self.large == 0 && self.promised == 0)
    }

    /// Promises `more` bytes.
    pub(crate) fn promise(&mut self, more: usize)
        ensures { self.new ≡ promised_more more self.old }
    {
        self.promised = self.promised.saturating_add(more);
    }

    /// Returns whether the budget may soon be used up.
    pub(crate) fn is_tight(&self) -> bool
        ensures { result ≡ is_tight self.now }
    {
        self.waiting > 0 || self.held > self.tight
    }

    /// Returns whether others wait for the oldest waiting guest.
    pub(crate) fn is_kept_for_one(&self) -> bool
        ensures { result ≡ is_kept_for_one self.now }
    {
        self.is_kept && self.waiting > 0
    }

    /// Returns whether a waiting guest may be tried again.
    pub(crate) fn may_try(&self) -> bool
        ensures { result ≡ may_try self.now }
    {
        self.is_eased && self.waiting > 0
    }

    /// Returns whether a retry is due, because memory came back or a tick has passed, and begins
    /// it.
    pub(crate) fn tries_again(&mut self) -> bool
        ensures due { result ≡ is_retry_due self.old }
        ensures begins { IsTrue result → self.new ≡ retried self.old }
        ensures waits { IsFalse result → self.new ≡ self.old }
    {
        if !self.is_retry_due() {
            return false;
        }
        self.is_eased = false;
        self.is_kept = false;
        self.promised = 0;
        self.tried = self.ticks;
        true
    }

    /// Returns whether a retry is due.
    fn is_retry_due(&self) -> bool
        ensures { result ≡ is_retry_due self.now }
    {
        self.waiting > 0 && (self.is_eased || self.ticks != self.tried)
    }

    /// Returns how many slow guests to judge now: once a tick, as many as wait, at most 16.
    pub(crate) fn takes_turn_to_judge(&mut self) -> usize
        ensures judges { result ≡ to_judge self.old }
        ensures notes { self.new ≡ record self.old { judged = self.old.ticks } }
    {
        let is_judged = self.ticks == self.judged;
        self.judged = self.ticks;
        if is_judged {
            0
        } else {
            self.waiting.min(JUDGED)
        }
    }

    /// Returns how many readers of what has left the store may be ended now: once a tick 16 if that
    /// is more than the share, else none.
    pub(crate) fn takes_turn_to_end(&mut self) -> usize
        ensures ends { result ≡ to_end self.old }
        ensures notes { self.new ≡ record self.old { ended = self.old.ticks } }
    {
        let is_ended = self.ticks == self.ended;
        self.ended = self.ticks;
        if !is_ended && self.is_over() {
            ENDED
        } else {
            0
        }
    }

    /// Returns whether guests read more of what has left the store than their share.
    pub(crate) fn is_over(&self) -> bool
        ensures { result ≡ is_over self.now }
    {
        self.left > self.share
    }

    /// Counts a guest for `left` bytes that it reads of what has left the store, in place of `was`.
    /// Returns for how many it is counted: for as many as fit the counter.
    pub(crate) fn recount_left(&mut self, was: usize, left: usize) -> usize
        ensures all { result ≡ min left (most - (self.old.left - was)) }
        ensures counts { self.new ≡ with_left (self.old.left - was + result) self.old }
    {
        self.left = self.left.saturating_sub(was);
        let counted = left.min(usize::MAX - self.left);
        self.left += counted;
        counted
    }

    /// Uncounts a guest that was counted for `counted` bytes.
    pub(crate) fn take_out(&mut self, counted: usize, waits: bool)
        ensures { self.new ≡ uncounted counted waits self.old }
    {
        self.held = self.held.saturating_sub(counted);
        self.waiting = self.waiting.saturating_sub(one_if(waits));
        self.large = self.large.saturating_sub(one_if(is_large(counted, waits)));
    }

    /// Counts a guest for `bytes` bytes, or for as many as fit the counter, and returns how many.
    pub(crate) fn put_in(&mut self, bytes: usize, waits: bool) -> usize
        ensures all { result ≡ min bytes (most - self.old.held) }
        ensures counts { self.new ≡ counted_too result waits self.old }
        ensures whole { self.new.held < most → result ≡ bytes }
    {
        let counted = bytes.min(usize::MAX - self.held);
        self.held += counted;
        self.waiting = self.waiting.saturating_add(one_if(waits));
        self.large = self.large.saturating_add(one_if(is_large(counted, waits)));
        counted
    }
}

/// Returns whether a guest goes on and is counted for some bytes.
fn is_large(counted: usize, waits: bool) -> bool
    ensures { result ≡ is_large counted waits }
{
    !waits && counted > 0
}

/// Returns 1 if a test holds, else 0.
fn one_if(test: bool) -> usize
    ensures { result ≡ one_if test }
{
    if test { 1 } else { 0 }
}

/// The most slow guests that are judged in one tick.
const JUDGED: usize = 16;

/// The most readers of what has left the store that are ended in one tick.
const ENDED: usize = 16;
