//! The moments of a steady clock, given the readings of the system's clocks.

use crate::stand_in::{StandIn, UNREADABLE};
use mc_time::{Clock, HostClocks, SteadyClock};
use std::process::Abort;
use std::sync::atomic::{AtomicU64, Ordering};
use std::test::*;
use std::thread;

/// An hour in milliseconds.
const HOUR: u64 = 3_600_000;

/// The readings of both clocks, in milliseconds, and the expected moment.
///
/// The system's clock comes first, then the monotonic one.
type Row = (u64, u64, u64);

/// Checks the moments of a clock that is made at the first row's readings.
fn gives(rt: &impl Abort, rows: &[Row]) {
    let system = StandIn::new();
    if let Some(first) = rows.first() {
        system.set(first.0, first.1);
    }
    let clock = SteadyClock::new(HostClocks::new(&system));
    for row in rows {
        system.set(row.0, row.1);
        assert_eq!(rt; clock.now().seconds(), row.2);
    }
}

#[test]
fn goes_with_the_systems_clock(rt: HostRuntime) {
    gives(
        &rt,
        &[
            (5_000, 0, 5),
            (5_999, 999, 5),
            (6_000, 1_000, 6),
            (65_000, 60_000, 65),
        ],
    );
    // the machine has run for longer than the system's clock reads, as one without a battery
    gives(&rt, &[(5_000, HOUR, 5), (6_000, HOUR + 1_000, 6)]);
}

#[test]
fn goes_on_where_the_systems_clock_is_set_back(rt: HostRuntime) {
    let start = 10 * HOUR;
    gives(
        &rt,
        &[
            (start, 0, 36_000),
            (start + 10_000, 10_000, 36_010),
            (start + 11_000 - HOUR, 11_000, 36_011),
            (0, 12_000, 36_012),
            (start + 700_000 - HOUR, 700_000, 36_700),
        ],
    );
    // less than a second counts too
    gives(
        &rt,
        &[(5_900, 0, 5), (0, 99, 5), (0, 100, 6), (0, 1_100, 7)],
    );
}

#[test]
fn follows_a_step_that_has_stood_for_a_minute(rt: HostRuntime) {
    gives(
        &rt,
        &[
            (5_000, 0, 5),
            (HOUR, 1_000, 6),
            (HOUR + 59_000, 60_000, 65),
            (HOUR + 60_000, 61_000, 66),
            (HOUR + 60_000, 61_000, 3_660),
            (0, 62_000, 3_661),
        ],
    );
    // the system's clock can't be read at first
    gives(
        &rt,
        &[
            (UNREADABLE, 5_000, 0),
            (HOUR, 6_000, 1),
            (HOUR + 60_000, 66_000, 61),
            (HOUR + 60_000, 66_000, 3_660),
        ],
    );
}

#[test]
fn passes_over_a_step_of_less_than_a_minute(rt: HostRuntime) {
    gives(
        &rt,
        &[
            (5_000, 0, 5),
            (HOUR, 1_000, 6),
            (HOUR + 58_999, 59_999, 64),
            (65_000, 60_000, 65),
            // a second step stands for a minute of its own
            (HOUR + 60_000, 61_000, 66),
            (HOUR + 119_000, 120_000, 125),
            (HOUR + 120_000, 121_000, 126),
            (HOUR + 120_000, 121_000, 3_720),
        ],
    );
    // a day ahead for two seconds
    gives(
        &rt,
        &[
            (HOUR, 0, 3_600),
            (25 * HOUR + 1_000, 1_000, 3_601),
            (25 * HOUR + 3_000, 3_000, 3_603),
            (HOUR + 4_000, 4_000, 3_604),
            (HOUR + 120_000, 120_000, 3_720),
            (HOUR + 120_000, 120_000, 3_720),
        ],
    );
}

#[test]
fn follows_what_stood_for_all_of_the_minute(rt: HostRuntime) {
    gives(
        &rt,
        &[
            (5_000, 0, 5),
            (HOUR, 1_000, 6),
            (1_035_000, 30_000, 35),
            (HOUR + 60_000, 61_000, 66),
            (HOUR + 60_000, 61_000, 1_066),
            // the rest of the step
            (HOUR + 61_000, 62_000, 1_067),
            (HOUR + 121_000, 122_000, 1_127),
            (HOUR + 121_000, 122_000, 3_721),
        ],
    );
    // less than a second is no step, and a second is one
    gives(
        &rt,
        &[
            (5_000, 0, 5),
            (6_999, 1_000, 6),
            (66_999, 61_000, 66),
            (66_999, 61_000, 66),
        ],
    );
    gives(
        &rt,
        &[
            (5_000, 0, 5),
            (7_000, 1_000, 6),
            (67_000, 61_000, 66),
            (67_000, 61_000, 67),
        ],
    );
}

#[test]
fn stands_where_no_clock_can_be_read(rt: HostRuntime) {
    gives(
        &rt,
        &[
            (UNREADABLE, 0, 0),
            (UNREADABLE, 2_000, 2),
            (UNREADABLE, UNREADABLE, 2),
            (4_000, UNREADABLE, 2),
            (5_000, 3_000, 3),
        ],
    );
    // a monotonic clock that decreases, which no system has
    gives(
        &rt,
        &[
            (5_000, 9_000, 5),
            (0, 11_000, 7),
            (0, 8_000, 7),
            (0, 12_000, 8),
        ],
    );
}

/// The number of moments that each thread reads.
const TIMES: u64 = 2_000;

/// A clock that threads share.
type Shared<'a> = SteadyClock<HostClocks<&'a StandIn>>;

/// Returns how often a moment is before the last one, while the system's clock jumps.
fn falls(system: &StandIn, clock: &Shared<'_>, rounds: &AtomicU64) -> u64 {
    let mut fallen = 0u64;
    let mut before = 0u64;
    for _turn in 0..TIMES {
        let round = rounds.fetch_add(1, Ordering::SeqCst).min(1_000_000);
        let ahead = if round % 3 == 0 { 2 * HOUR } else { HOUR };
        system.set(ahead + round * 50, round * 50);
        let now = clock.now().seconds();
        if now < before {
            fallen = fallen.saturating_add(1);
        }
        before = now;
    }
    fallen
}

#[test]
fn falls_for_no_thread(rt: HostRuntime) {
    let system = StandIn::new();
    let clock = SteadyClock::new(HostClocks::new(&system));
    let rounds = AtomicU64::new(0);
    let (first, second) = thread::join(
        &rt,
        || falls(&system, &clock, &rounds),
        || falls(&system, &clock, &rounds),
    );
    assert_eq!(rt; (first, second), (0, 0));
    // an hour is the least that stood, for more than a minute of the monotonic clock
    assert!(rt; clock.now().seconds() >= 3_600);
}
