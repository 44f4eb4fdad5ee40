//! How fast a guest's link moves bytes.
ghost use Rattle.std.specs.Prelude.{◌≡◌};
ghost use Rattle.mc_guests.specs.LinkRates.{begun, moves, asked_again, age, rate, is_slow, is_silent};
ghost use Rattle.mc_guests.specs.LinkRates.{lags, least_rate, is_recent, was_asked, was_quiet};

/// Ticks for which a link may move nothing, and after which its rate is judged. A tick is 0.25 s.
const PATIENCE: u64 = 20;

/// Ticks within which a guest has to move as much as it holds.
const WHOLE: usize = 40;

/// Ticks for which a slow link may still move bytes after it was asked again.
const ASKED: u64 = 2;

/// Ticks after which a slow link is asked once more.
const LONG_ASKED: u64 = 8;

/// The bytes that a link moved, and since when. Times are ticks.
#[derive(Clone, Copy, Drop)]
pub struct LinkRate {
    since: u64,
    moved: u64,
    /// When it last moved some.
    heard: u64,
    /// When it was last asked again for being slow.
    asked: Option<u64>,
}

impl LinkRate {
    /// Returns the pace of a link that begins now.
    pub fn new(ticks: u64) -> LinkRate
        ensures { result ≡ begun ticks }
    {
        LinkRate {
            since: ticks,
            moved: 0,
            heard: ticks,
            asked: None,
        }
    }

    /// Adds moved bytes.
    pub fn moves(&mut self, bytes: usize, ticks: u64)
        ensures { self.new ≡ moves bytes ticks self.old }
    {
        self.moved = self.moved.saturating_add(bytes as u64);
        self.heard = ticks;
    }

    /// Returns the ticks since it began.
    pub fn age(&self, ticks: u64) -> u64
        ensures { result ≡ age ticks self.now }
    {
        ticks.saturating_sub(self.since)
    }

    /// Returns the average rate, in bytes a tick.
    #[tactic(auto, unfolding(crate::specs::LinkRates::rate))]
    pub fn rate(&self, ticks: u64) -> u64
        ensures { result ≡ rate ticks self.now }
    {
        self.moved / self.age(ticks).max(1)
    }

    /// Returns whether the link is slow for a guest that holds `held` bytes.
    ///
    /// It moved nothing for 5 s, or for at least 5 s so little that `held` bytes take more than 10
    /// s. A link that was just asked again isn't slow for 0.5 s.
    pub fn is_slow(&self, held: usize, ticks: u64) -> bool
        ensures { result ≡ is_slow held ticks self.now }
    {
        (self.is_silent(ticks) || self.lags(held, ticks)) && !self.is_recent(ASKED, ticks)
    }

    /// Returns whether the link moved nothing for this many ticks.
    pub fn was_quiet(&self, ticks: u64, least: u64) -> bool
        ensures { result ≡ was_quiet least ticks self.now }
    {
        ticks.saturating_sub(self.heard) >= least
    }

    /// Returns whether the link moved nothing for 5 s.
    fn is_silent(&self, ticks: u64) -> bool
        ensures { result ≡ is_silent ticks self.now }
    {
        self.was_quiet(ticks, PATIENCE)
    }

    /// Returns whether the link moved so little for at least 5 s that `held` bytes take more than
    /// 10 s.
    fn lags(&self, held: usize, ticks: u64) -> bool
        ensures { result ≡ lags held ticks self.now }
    {
        self.age(ticks) >= PATIENCE && self.rate(ticks) < least_rate(held)
    }

    /// Returns whether the link was asked again less than `within` ticks ago.
    fn is_recent(&self, within: u64, ticks: u64) -> bool
        ensures { result ≡ is_recent within ticks self.now.asked }
    {
        match self.asked {
            Some(asked) => ticks.saturating_sub(asked) < within,
            None => false,
        }
    }

    /// Returns whether the link was asked again in the last 2 s.
    pub fn was_asked(&self, ticks: u64) -> bool
        ensures { result ≡ was_asked ticks self.now }
    {
        self.is_recent(LONG_ASKED, ticks)
    }

    /// Records that the link is asked again.
    pub fn ask(&mut self, ticks: u64)
        ensures { self.new ≡ asked_again ticks self.old }
    {
        self.asked = Some(ticks);
    }
}

/// Returns the rate, in bytes a tick, at which `held` bytes are moved within 10 s.
#[tactic(auto, unfolding(crate::specs::LinkRates::least_rate))]
fn least_rate(held: usize) -> u64
    ensures { result ≡ least_rate held }
{
    (held / WHOLE) as u64
}
