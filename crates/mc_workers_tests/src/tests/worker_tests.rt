//! Workers over links in memory, in one thread.

ghost use Rattle.std.specs.Prelude.{◌≡◌};

use crate::held::{HeldLink, Seen};
use crate::tests::serving::{HeldLinks, serves};
use mc_guests::WorkEnd;
use mc_hop::Fnv;
use mc_protocol::{Reply, StepFault};
use mc_shared::{Caller, NoGate, Shared};
use mc_shelf::Settings;
use mc_testing::{Ask, SESSIONS, step_of};
use mc_time::{Fixed, Moment};
use mc_workers::work;
use std::alloc::{AllocError, Global};
use std::process::Abort;
use std::sync::Wait;
use std::test::*;

const SETTINGS: Settings = Settings {
    pages: 64,
    greatest: 1048576,
    shelves: 64,
};

/// Serves one link over a new store, and returns how it ended, with its right and wrong bytes.
fn served<R: Wait>(
    rt: &R,
    alloc: Global,
    input: &[u8],
    expected: &[u8],
) -> Result<(WorkEnd, (u64, u64)), AllocError> {
    let seen = Seen::nothing();
    let link = HeldLink::new(alloc, input, expected, &seen);
    let (shared, caller) = Shared::new(alloc, SETTINGS, Fnv)?;
    let (_, end) = serves(rt, alloc, &shared, caller, link, &NoGate);
    Ok((end, seen.right_and_wrong()))
}

/// One session that was served.
const ONE_SERVED: WorkEnd = WorkEnd {
    served: 1,
    broken: 0,
    refused: 0,
};

/// Checks that each session takes its input, and its link the output.
fn are_taken<R: Abort + Wait>(rt: &R, alloc: Global, rows: &[(&str, &str)]) -> Result<(), Fail> {
    for (input, output) in rows {
        let told = served(rt, alloc, input.as_bytes(), output.as_bytes())?;
        assert_eq!(rt; told, (ONE_SERVED, (output.len() as u64, 0)));
    }
    Ok(())
}

/// The sessions of all crates' tests.
static OF_ALL: [(&str, &str); 11] = SESSIONS;

#[test]
fn links_take_what_sessions_write(rt: HostRuntime) -> Result<(), Fail> {
    are_taken(&rt, rt.alloc(), &OF_ALL)
}

/// Input and output of sessions over a new store, besides those of all crates' tests.
static ROWS: [(&str, &str); 8] = [
    (
        "set a 0 0 1 noreply\r\nx\r\nget a\r\nquit\r\nget a\r\n",
        "VALUE a 0 1\r\nx\r\nEND\r\n",
    ),
    (
        "append a 9 9 1\r\nx\r\nset a 7 0 1\r\nb\r\nappend a 9 0 1\r\nc\r\nprepend a 9 0 1\r\na\r\ngets a\r\n",
        "NOT_STORED\r\nSTORED\r\nSTORED\r\nSTORED\r\nVALUE a 7 3 3\r\nabc\r\nEND\r\n",
    ),
    (
        "set a 0 0 1\r\nx\r\nset b 1 0 2\r\nyy\r\nget a a b z a\r\ngets b a b\r\n",
        "STORED\r\nSTORED\r\nVALUE a 0 1\r\nx\r\nVALUE a 0 1\r\nx\r\nVALUE b 1 2\r\nyy\r\nVALUE a 0 1\r\nx\r\nEND\r\nVALUE b 1 2 2\r\nyy\r\nVALUE a 0 1 1\r\nx\r\nVALUE b 1 2 2\r\nyy\r\nEND\r\n",
    ),
    (
        "set n 0 0 20\r\n18446744073709551615\r\nincr n 1\r\ndecr n 5\r\n",
        "STORED\r\n0\r\n0\r\n",
    ),
    (
        "set n 0 0 3\r\n12x\r\nincr n 1\r\nincr n -1\r\n",
        "STORED\r\nCLIENT_ERROR cannot increment or decrement non-numeric value\r\nCLIENT_ERROR invalid numeric delta argument\r\n",
    ),
    (
        "touch a 0\r\nset a 0 0 1\r\nx\r\ntouch a -1\r\nget a\r\ndelete a\r\n",
        "NOT_FOUND\r\nSTORED\r\nTOUCHED\r\nEND\r\nNOT_FOUND\r\n",
    ),
    (
        "set a 0 0 1\r\nx\r\nflush_all\r\nget a\r\nset a 0 0 1\r\ny\r\nget a\r\nflush_all -1\r\n",
        "STORED\r\nOK\r\nEND\r\nSTORED\r\nVALUE a 0 1\r\ny\r\nEND\r\nCLIENT_ERROR bad command line format\r\n",
    ),
    (
        "set a 1 0 1\r\nx\r\nset a 2 0 1\r\nyy\r\nget a\r\n",
        "STORED\r\nCLIENT_ERROR bad data chunk\r\nERROR\r\nVALUE a 1 1\r\nx\r\nEND\r\n",
    ),
];

#[test]
fn links_take_the_texts_of_more_rows(rt: HostRuntime) -> Result<(), Fail> {
    are_taken(&rt, rt.alloc(), &ROWS)
}

/// The result of two links, if the first fails at a call.
#[derive(Drop)]
struct Faulty {
    end: WorkEnd,
    /// Each link's right and wrong bytes.
    first: (u64, u64),
    second: (u64, u64),
    /// The result of a read of `a` by the returned caller.
    found: Found,
}

/// The result of a read.
#[derive(Clone, Copy, Debug, PartialEq, Eq)]
enum Found {
    /// The block `x` with this unique number.
    X(u64),
    Miss,
    Other,
}

/// Returns the result of a read.
fn found_by(answer: &Result<Reply, StepFault>) -> Found {
    match answer {
        Ok(Reply::Hit { unique, block, .. }) if block.bytes() == b"x".as_slice() => Found::X(
            *unique,
        ),
        Ok(Reply::Miss) => Found::Miss,
        _ => Found::Other,
    }
}

const FIRST: (&[u8], &[u8]) = (
    b"set a 0 0 1\r\nx\r\nget a\r\n",
    b"STORED\r\nVALUE a 0 1\r\nx\r\nEND\r\n",
);

const SECOND: (&[u8], &[u8]) = (
    b"append c 9 9 1\r\nx\r\nset c 7 0 1\r\nb\r\nappend c 9 0 1\r\nc\r\nprepend c 9 0 1\r\na\r\nget c\r\n",
    b"NOT_STORED\r\nSTORED\r\nSTORED\r\nSTORED\r\nVALUE c 7 3\r\nabc\r\nEND\r\n",
);

/// Returns two links, the first of which fails at a call.
fn both_links<'a>(alloc: Global, call: u64, seen: &'a [Seen; 2]) -> HeldLinks<'a> {
    let first = HeldLink::new(alloc, FIRST.0, FIRST.1, &seen[0]).failing_at(call);
    let second = HeldLink::new(alloc, SECOND.0, SECOND.1, &seen[1]);
    HeldLinks::two(first, second)
}

/// Serves links, and returns how they ended, and the result of a read of `a` by the returned
/// caller.
fn ended_and_found<R: Wait>(
    rt: &R,
    alloc: Global,
    shared: &Shared<Fnv>,
    caller: Caller,
    links: &mut HeldLinks<'_>,
) -> (WorkEnd, Found)
    requires { caller.table ≡ shared.now.table }
{
    let now = Moment::from_seconds_at_most(1000);
    let (mut caller, end) = work(rt, alloc, shared, caller, links, &NoGate, &Fixed(now));
    let read = step_of(b"a", Ask::Get);
    let found = found_by(&shared.step(rt, alloc, &mut caller, &read, now));
    (end, found)
}

/// Serves two links over a new store; the first fails at a call.
fn served_with_fault<R: Wait>(rt: &R, alloc: Global, call: u64) -> Result<Faulty, AllocError> {
    let seen = [Seen::nothing(), Seen::nothing()];
    let (shared, caller) = Shared::new(alloc, SETTINGS, Fnv)?;
    let mut links = both_links(alloc, call, &seen);
    let (end, found) = ended_and_found(rt, alloc, &shared, caller, &mut links);
    Ok(Faulty {
        end,
        first: seen[0].right_and_wrong(),
        second: seen[1].right_and_wrong(),
        found,
    })
}

/// Returns whether a fault ended only the first session.
///
/// The other one took all of its output, the first took a beginning of its own, and a set that was
/// answered to it is in the store.
fn ended_alone(was: &Faulty) -> bool {
    let (right, wrong) = was.first;
    let counts = was.end.served == 1 && was.end.broken == 1 && was.end.refused == 0;
    let other = was.second == (SECOND.1.len() as u64, 0);
    let read = match was.found {
        Found::X(unique) => 1 <= unique && unique <= 4,
        Found::Miss => right == 0,
        Found::Other => false,
    };
    counts && other && wrong == 0 && read
}

/// Returns whether there was no fault, and both took all of their output.
fn both_served(was: &Faulty) -> bool {
    let counts = was.end.served == 2 && was.end.broken == 0 && was.end.refused == 0;
    let all = was.first == (FIRST.1.len() as u64, 0) && was.second == (SECOND.1.len() as u64, 0);
    let read = match was.found {
        Found::X(unique) => 1 <= unique && unique <= 4,
        Found::Miss | Found::Other => false,
    };
    counts && all && read
}

/// Returns whether a run met its fault, and whether its sessions ended as they must.
fn met_and_ended<R: Wait>(rt: &R, alloc: Global, call: u64) -> Result<(bool, bool), AllocError> {
    let was = served_with_fault(rt, alloc, call)?;
    if was.end.broken == 0 {
        Ok((false, both_served(&was)))
    } else {
        Ok((true, ended_alone(&was)))
    }
}

#[test]
fn a_fault_of_a_link_ends_its_session_alone(rt: HostRuntime) -> Result<(), Fail> {
    for call in 1..1000u64 {
        let (has_met, is_right) = met_and_ended(&rt, rt.alloc(), call)?;
        assert!(rt; is_right);
        if !has_met {
            return Ok(());
        }
    }
    panic!(rt; "each run met a fault")
}
