//! Moments, clocks, and when an item's time is over.
//!
//! A cache has to know when an item is dead, and that is one rule: its expiry has come, or a flush
//! has come and the item was updated before it. This rule, and how an exptime is read, are
//! memcached's (doc/protocol.txt, "Expiration times" and `flush_all`). They are in a crate below
//! all others, so that the plain store, the shelves and the definitions of the protocol share them.
//!
//! A [`Moment`] is a number of seconds from 0 to 2^62, so that a moment plus 30 days still fits 64
//! bits. An [`Expiry`] is when an item expires, if it does: [`expiry_of`] computes it from an
//! exptime, [`cut_after`] computes the moment of a flush from its delay, and [`is_dead`] is the
//! rule. A [`Clock`] returns moments. A step takes its moment as an argument, and a server takes
//! its clock, so tests and `--now` can use a clock that stands still ([`Fixed`]). [`SystemClock`]
//! is the system's, in Unix seconds. If it is set back, dead items would live again, and if it is
//! ahead for a moment, what has a Unix expiry would die. So the program's is a [`SteadyClock`]: the
//! system's clock at the start and the monotonic clock since. A step forward of the system's is
//! followed once it has stood for a minute, a step back never.
//!
//! [`Readings`] is where a steady clock reads both clocks: [`HostClocks`] in the program. A
//! [`ClockState`] is its state after each [`Reading`]. By the laws [`clock_never_goes_back`] and
//! [`a_step_is_followed_after_a_minute`] its moments never decrease, whatever the clocks read, and
//! it follows those steps of the system's clock ([`Step`]), which stood.
//!
//! Contracts see a moment as its number, and a clock as the set of moments that it may return: for
//! [`Fixed`] its own alone, for the system's any. Of a [`SteadyClock`], whose state threads share,
//! they know each moment to be a reading of the monotonic clock with the lead of the start, or with
//! a greater lead that two readings had, a minute apart. That a call returns its own reading, and
//! not an earlier one, they don't know.
//!
//! Begin with `src/expiry.rt` and `specs/Death.antt`, then `src/state.rt`, `src/steady.rt` and
//! `specs/Readings.antt`. `specs/Chains.antt` defines steps one after another, for the crates above.
//!
//! Tests: mc_session_tests, src/tests/rows_tests.rt; mc_time_tests, src/steady_tests.rt.
#![tactic(auto)]

mod clock;
mod expiry;
mod laws;
mod moment;
mod reading;
mod readings;
mod state;
mod steady;

pub use clock::{Clock, Fixed, SystemClock};
pub use expiry::{Expiry, cut_after, expiry_of, is_dead};
pub use laws::{a_step_is_followed_after_a_minute, clock_never_goes_back};
pub use moment::Moment;
pub use reading::Reading;
pub use readings::{HostClocks, Readings};
pub use state::{ClockState, Step};
pub use steady::SteadyClock;
