//! Lists of events, and the sessions' outputs afterwards. If memory is refused a test ends early.
//!
//! Each function does little, and what owns a world does less: a proof takes about the square of a
//! function's length.

use crate::tests::acts::{Act, run_acts};
use crate::tests::runs::opened_twice;
use crate::tests::set_ups::{EACH, SHELF_OF_A, SHELF_OF_B, SOME};
use crate::tests::texts::{HIT, MISS};
use crate::tests::told::Tested;
use crate::worlds::world_with;
use mc_hop::Fnv;
use mc_protocol::Bytes;
use mc_shelf::Settings;
use mc_world::{Event, World};
use std::alloc::Global;
use std::process::Abort;
use std::test::Fail;

/// The reply to `version`.
const VERSION: &str = "VERSION 1.6.0\r\n";

/// Events, a session, all of its output after they were run, and its `standing` then.
type Row = (&'static [Act], u32, &'static str, &'static str);

/// The second, the command of session 1, and its reply.
type Asked = (u64, &'static str, &'static str);

/// Returns `closed`, `idle` or neither.
///
/// It is neither for a session with a turn due, and for one that was never opened.
fn standing(world: &World<Fnv>, session: u32) -> &'static str {
    match (world.is_closed(session), world.is_idle(session)) {
        (true, false) => "closed",
        (false, true) => "idle",
        (false, false) => "neither",
        (true, true) => "both",
    }
}

/// Runs the events of a row, and compares its session's output and standing.
fn row_is_told<R: Abort>(tested: &mut Tested<'_, R, Fnv>, row: &Row) -> Result<(), Fail> {
    let (acts, session, output, want) = *row;
    run_acts(tested, acts)?;
    tested.is_told(session, output.as_bytes());
    let stands = standing(&tested.world, session);
    assert!(tested.rt; stands == want, "session {session} is {stands}");
    Ok(())
}

/// Runs the events of rows in order, and compares their sessions' outputs and standings.
fn rows_are_told_in<R: Abort>(tested: &mut Tested<'_, R, Fnv>, rows: &[Row]) -> Result<(), Fail> {
    for row in rows {
        row_is_told(tested, row)?;
    }
    Ok(())
}

/// The same, in a new world whose store has these settings.
fn rows_are_told_with(
    rt: &impl Abort,
    alloc: Global,
    settings: Settings,
    rows: &[Row],
) -> Result<(), Fail> {
    let mut tested = Tested::of(rt, alloc, world_with(alloc, Fnv, settings)?);
    rows_are_told_in(&mut tested, rows)
}

/// The same, with 64 shelves.
fn rows_are_told(rt: &impl Abort, alloc: Global, rows: &[Row]) -> Result<(), Fail> {
    rows_are_told_with(rt, alloc, SOME, rows)
}

/// The same, with each number of shelves.
fn rows_are_told_with_each(rt: &impl Abort, alloc: Global, rows: &[Row]) -> Result<(), Fail> {
    for settings in &EACH {
        rows_are_told_with(rt, alloc, *settings, rows)?;
    }
    Ok(())
}

#[test]
fn a_session_is_there_once_it_is_opened(rt: HostRuntime) -> Result<(), Fail> {
    static ROWS: [Row; 6] = [
        (&[Act::Piece(1, "version\r\n")], 1, "", "neither"),
        (&[Act::Open, Act::Turn(1)], 1, "", "idle"),
        (
            &[Act::Asks(1, "ver"), Act::Asks(1, "sion\r\n"), Act::Turn(1)],
            1,
            VERSION,
            "idle",
        ),
        (
            &[Act::Asks(1, "quit\r\nversion\r\n"), Act::Turn(1)],
            1,
            VERSION,
            "closed",
        ),
        (&[], 0, "", "neither"),
        (&[], 2, "", "neither"),
    ];
    rows_are_told(&rt, rt.alloc(), &ROWS)
}

#[test]
fn a_closed_session_keeps_its_output(rt: HostRuntime) -> Result<(), Fail> {
    static ROWS: [Row; 2] = [
        (
            &[
                Act::Open,
                Act::Open,
                Act::Asks(2, "version\r\nversion\r\n"),
                Act::Turn(1),
                Act::Close(2),
                Act::Turn(2),
                Act::Asks(2, "version\r\n"),
            ],
            2,
            VERSION,
            "closed",
        ),
        (&[], 1, "", "idle"),
    ];
    rows_are_told(&rt, rt.alloc(), &ROWS)
}

#[test]
fn keys_of_a_get_are_asked_at_their_turns(rt: HostRuntime) -> Result<(), Fail> {
    static ROWS: [Row; 2] = [
        (
            &[
                Act::Open,
                Act::Open,
                Act::Asks(2, "set a 0 0 1\r\n1\r\nset b 0 0 1\r\n1\r\n"),
                Act::Turn(2),
                Act::Asks(1, "get a b\r\n"),
                Act::Asks(2, "set a 0 0 1\r\n2\r\nset b 0 0 1\r\n2\r\n"),
                Act::Turn(2),
                Act::Turn(1),
            ],
            1,
            "VALUE a 0 1\r\n1\r\nVALUE b 0 1\r\n2\r\nEND\r\n",
            "idle",
        ),
        (&[], 2, "STORED\r\nSTORED\r\nSTORED\r\nSTORED\r\n", "idle"),
    ];
    rows_are_told_with_each(&rt, rt.alloc(), &ROWS)
}

#[test]
fn a_dead_item_is_dropped_where_it_is_asked_for(rt: HostRuntime) -> Result<(), Fail> {
    static ROWS: [Row; 3] = [
        (
            &[
                Act::Open,
                Act::Asks(1, "set a 0 10 1\r\nx\r\n"),
                Act::Clock(1010),
                Act::Asks(1, "get a\r\n"),
            ],
            1,
            "STORED\r\nEND\r\n",
            "idle",
        ),
        (
            &[
                Act::Clock(1000),
                Act::Asks(1, "get a\r\n"),
                Act::Asks(1, "set a 0 10 1\r\nx\r\n"),
            ],
            1,
            "STORED\r\nEND\r\nEND\r\nSTORED\r\n",
            "idle",
        ),
        (
            &[
                Act::Clock(1010),
                Act::Clock(1000),
                Act::Asks(1, "get a\r\n"),
            ],
            1,
            "STORED\r\nEND\r\nEND\r\nSTORED\r\nVALUE a 0 1\r\nx\r\nEND\r\n",
            "idle",
        ),
    ];
    rows_are_told(&rt, rt.alloc(), &ROWS)
}

#[test]
fn a_purge_drops_what_is_dead_on_its_shelf(rt: HostRuntime) -> Result<(), Fail> {
    static ROWS: [Row; 3] = [
        (
            &[Act::Open, Act::Asks(1, "set a 0 10 1\r\nx\r\n")],
            1,
            "STORED\r\n",
            "idle",
        ),
        (
            &[
                Act::Purge(SHELF_OF_A),
                Act::Clock(1010),
                Act::Purge(SHELF_OF_B),
                Act::Purge(64),
                Act::Clock(1000),
                Act::Asks(1, "get a\r\n"),
            ],
            1,
            "STORED\r\nVALUE a 0 1\r\nx\r\nEND\r\n",
            "idle",
        ),
        (
            &[
                Act::Clock(1010),
                Act::Purge(SHELF_OF_A),
                Act::Clock(1000),
                Act::Asks(1, "get a\r\n"),
            ],
            1,
            "STORED\r\nVALUE a 0 1\r\nx\r\nEND\r\nEND\r\n",
            "idle",
        ),
    ];
    rows_are_told(&rt, rt.alloc(), &ROWS)
}

/// Sends commands by session 1 of a world, and compares the replies.
fn asked_are_answered<R: Abort>(
    tested: &mut Tested<'_, R, Fnv>,
    rows: &[Asked],
) -> Result<(), Fail> {
    for (moment, input, output) in rows {
        tested.answers(*moment, input, output)?;
    }
    Ok(())
}

/// The same, in a new world with each number of shelves.
fn new_worlds_answer(rt: &impl Abort, alloc: Global, rows: &[Asked]) -> Result<(), Fail> {
    for settings in &EACH {
        let mut tested = Tested::opened(rt, alloc, Fnv, *settings)?;
        asked_are_answered(&mut tested, rows)?;
    }
    Ok(())
}

#[test]
fn an_exptime_of_up_to_thirty_days_counts_from_now(rt: HostRuntime) -> Result<(), Fail> {
    static ROWS: [Asked; 5] = [
        (
            1000,
            "set a 0 2592000 1\r\nx\r\nset b 0 2592001 1\r\ny\r\n",
            "STORED\r\nSTORED\r\n",
        ),
        (2592000, "get b\r\n", "VALUE b 0 1\r\ny\r\nEND\r\n"),
        (2592001, "get b\r\n", "END\r\n"),
        (2592999, "get a\r\n", "VALUE a 0 1\r\nx\r\nEND\r\n"),
        (2593000, "get a\r\n", "END\r\n"),
    ];
    new_worlds_answer(&rt, rt.alloc(), &ROWS)
}

#[test]
fn a_flush_comes_at_its_moment(rt: HostRuntime) -> Result<(), Fail> {
    static ROWS: [Asked; 6] = [
        (1000, "flush_all 10\r\n", "OK\r\n"),
        (1005, "set a 0 0 1\r\nx\r\n", "STORED\r\n"),
        (1009, "get a\r\n", "VALUE a 0 1\r\nx\r\nEND\r\n"),
        (1010, "get a\r\n", "END\r\n"),
        (1010, "set b 0 0 1\r\ny\r\n", "STORED\r\n"),
        (1011, "get b\r\n", "VALUE b 0 1\r\ny\r\nEND\r\n"),
    ];
    new_worlds_answer(&rt, rt.alloc(), &ROWS)
}

/// Sets and gets `a` by session 1. After an error it is closed. Returns what another session must
/// find.
fn first_sets<R: Abort>(tested: &mut Tested<'_, R, Fnv>) -> &'static [u8] {
    let set = Event::Piece(1, Bytes::of(b"set a 0 0 1\r\nx\r\nget a\r\n"));
    let events = [set, Event::Turn(1), Event::Turn(1)];
    match tested.world.run(tested.alloc, &events) {
        Ok(()) => {
            tested.is_told(1, b"STORED\r\nVALUE a 0 1\r\nx\r\nEND\r\n");
            HIT
        }
        Err(refused) => {
            tested.is_refused(1, &refused);
            if refused.decided || refused.at == 2 {
                HIT
            } else {
                MISS
            }
        }
    }
}

#[test]
fn a_world_goes_on_after_a_refusal(rt: HostRuntime) -> Result<(), Fail> {
    let mut tested = Tested::of(&rt, rt.alloc(), opened_twice(rt.alloc())?);
    let found = first_sets(&mut tested);
    tested.second_finds(found)
}
