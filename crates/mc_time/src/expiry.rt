//! When items expire, and when they are dead.

ghost use Rattle.std.specs.Prelude.{◌≡◌, ◌==◌, if◌then◌else◌};
ghost use Rattle.mc_time.specs.Death.{expiry_of, is_dead, is_expired, is_flushed, moment_named};

use crate::moment::Moment;

/// When an item expires.
#[derive(Clone, Copy, Debug, PartialEq, Eq)]
pub enum Expiry {
    Never,
    /// From this second on.
    At(u64),
}

/// The longest exptime, in seconds, that counts from now: 30 days.
const LONGEST_RELATIVE: u64 = 2592000;

/// Returns the expiry of an exptime (protocol.txt, "Expiration times").
///
/// 0 never expires; a negative exptime has expired at every moment; one of up to 30 days counts
/// from now, in seconds; a greater one is a Unix time.
pub fn expiry_of(exptime: i64, now: Moment) -> Expiry
    ensures { result ≡ expiry_of exptime now }
{
    if exptime < 0 {
        Expiry::At(0)
    } else if exptime == 0 {
        Expiry::Never
    } else {
        Expiry::At(moment_named(exptime.unsigned_abs(), now))
    }
}

/// Returns the moment of a flush with this delay, or `None` if the delay is 0.
///
/// The delay is read like an exptime: up to 30 days it counts from now, above that it is a Unix
/// time.
pub fn cut_after(delay: u64, now: Moment) -> Option<u64>
    ensures { result ≡ (if delay == 0 then None else Some (moment_named delay now)) }
{
    if delay == 0 {
        None
    } else {
        Some(moment_named(delay, now))
    }
}

/// Returns whether an item is dead at `now`.
///
/// It is dead if its expiry has come, or if a flush at `cut` has come and the item was updated
/// before `cut`.
pub fn is_dead(expiry: Expiry, updated: Moment, cut: Option<u64>, now: Moment) -> bool
    ensures { result ≡ is_dead expiry updated cut now }
{
    is_expired(expiry, now) || is_flushed(updated, cut, now)
}

/// Returns whether an expiry has come.
fn is_expired(expiry: Expiry, now: Moment) -> bool
    ensures { result ≡ is_expired expiry now }
{
    match expiry {
        Expiry::Never => false,
        Expiry::At(moment) => moment <= now.seconds(),
    }
}

/// Returns whether a flush at `cut` has come and the item was updated before it.
fn is_flushed(updated: Moment, cut: Option<u64>, now: Moment) -> bool
    ensures { result ≡ is_flushed updated cut now }
{
    match cut {
        None => false,
        Some(cut) => cut <= now.seconds() && updated.seconds() < cut,
    }
}

/// Returns the moment of a number above 0: up to 30 days it counts from now, above that it is a
/// Unix time.
fn moment_named(number: u64, now: Moment) -> u64
    ensures { result ≡ moment_named number now }
{
    if number <= LONGEST_RELATIVE {
        now.seconds() + number
    } else {
        number
    }
}
