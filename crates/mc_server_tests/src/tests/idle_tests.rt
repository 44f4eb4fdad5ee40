//! How many places are looked at, and which.

use mc_sockets::SweepCursor;
use std::test::Fail;
use std::time::{Duration, Instant};

/// Milliseconds after the start, the number of places then, and how many are due.
const LOOKS: [(u64, usize, usize); 9] = [
    (0, 1000, 1000),
    (124, 1000, 0),
    (125, 1000, 256),
    (625, 10_000, 5000),
    (749, 10_000, 0),
    (1000, 3, 3),
    (1125, 0, 0),
    (2125, 10_000, 10_000),
    (9125, 10_000, 10_000),
];

#[test]
fn looks_at_each_place_once_a_second(rt: HostRuntime) -> Result<(), Fail> {
    let Some(mut watch) = SweepCursor::new(1) else {
        return Err(Fail::new("nothing is looked at"));
    };
    let start = Instant::now(&rt)?;
    for (time, places, due) in LOOKS {
        let Some(now) = start.checked_add(Duration::from_millis(time)) else {
            return Err(Fail::new("there is no such moment"));
        };
        assert!(rt; watch.due(places, now) == due);
    }
    Ok(())
}

#[test]
fn looks_at_one_place_after_another(rt: HostRuntime) -> Result<(), Fail> {
    let Some(mut watch) = SweepCursor::new(1) else {
        return Err(Fail::new("nothing is looked at"));
    };
    for (places, turn) in [(3, 0), (3, 1), (3, 2), (3, 0), (3, 1), (2, 0), (4, 1)] {
        assert!(rt; watch.turn(places) == turn);
    }
    Ok(())
}

#[test]
fn looks_at_nothing_with_no_limit(rt: HostRuntime) -> Result<(), Fail> {
    assert!(rt; SweepCursor::new(0).is_none());
    Ok(())
}
