//! Which lines wait, and how many are counted as dropped.

use mc_sockets::{CloseReason, LogLine, LogQueue, WaitingLine};
use std::test::*;

/// Appends a line of the connection with this number.
fn push(lines: &LogQueue, number: u64) {
    let parting = CloseReason::Ended;
    lines.push(LogLine::Closed { number, parting });
}

/// Returns the connection of a line, and how many lines were dropped before it.
fn told(waiting: Option<WaitingLine>) -> Option<(u64, u64)> {
    let WaitingLine { line, dropped } = waiting?;
    match line {
        LogLine::Opened { number, .. } | LogLine::Closed { number, .. } => Some((number, dropped)),
        LogLine::Warned(_) => None,
    }
}

#[test]
fn lines_without_a_place_are_counted(rt: HostRuntime) -> Result<(), Fail> {
    let lines = LogQueue::new(rt.alloc(), 2)?;
    for number in 0..5 {
        push(&lines, number);
    }
    assert!(rt; told(lines.take(0)) == Some((0, 0)));
    push(&lines, 5);
    push(&lines, 6);
    let rows = [(1, Some((1, 0))), (2, Some((5, 3))), (3, None)];
    for (turn, expected) in rows {
        assert!(rt; told(lines.take(turn)) == expected);
    }
    assert_eq!(rt; (lines.take_dropped(), lines.take_dropped()), (1, 0));
    Ok(())
}
