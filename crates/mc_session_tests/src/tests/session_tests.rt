//! Sessions: whole runs over a reader and a writer, and single turns.

use crate::checks::{are_bytes, are_bytes_at, holds};
use crate::stores::store_of_64_pages;
use mc_bytes::Source;
use mc_command::PlainStore;
use mc_session::{ServeFault, Session, Turn, serve};
use mc_testing::{Drip, SESSIONS, Sip};
use mc_time::{Fixed, Moment};
use std::alloc::{AllocError, Global};
use std::io::ErrorKind;
use std::process::Abort;
use std::test::Fail;

/// The greatest charge: a block of 51 bytes under a key of one byte.
const GREATEST: u64 = 100;

/// The greatest charge of the stores here, in bytes.
const PAGE: u64 = 1_048_576;

/// More calls than any test makes.
const NEVER: usize = 10000;

/// Inputs of sessions with their outputs.
pub(crate) static RUNS: [(&str, &str); 11] = SESSIONS;

/// A block above the greatest charge, and the expected output.
const TOO_LARGE: (&str, &str) = (
    "set a 0 0 52\r\n0123456789\r\nget a\r\n012345678901234567890123456789012\r\nget a\r\n",
    "SERVER_ERROR object too large for cache\r\nEND\r\n",
);

/// Runs a session over this reader and writer, and returns how it ends and what it wrote.
fn run(
    alloc: Global,
    input: &[u8],
    reads: usize,
    writes: usize,
) -> Result<(Result<(), ServeFault>, Vec<u8>), AllocError> {
    let mut writer = Sip::failing(alloc, 1000, writes, ErrorKind::Other)?;
    let ended = run_onto(alloc, input, reads, &mut writer)?;
    Ok((ended, writer.into_taken()))
}

/// Runs a session onto a writer, and returns how it ends.
fn run_onto(
    alloc: Global,
    input: &[u8],
    reads: usize,
    writer: &mut Sip,
) -> Result<Result<(), ServeFault>, AllocError> {
    let mut reader = Drip::failing(input, reads, ErrorKind::Other);
    let mut store = store_of_64_pages(alloc)?;
    let clock = Fixed(Moment::from_seconds(1000));
    Ok(serve(alloc, &mut reader, writer, GREATEST, &mut store, &clock))
}

/// The same, if memory may be refused before the run; a test has at most one refusal.
fn run_once(
    alloc: Global,
    input: &[u8],
    reads: usize,
    writes: usize,
) -> Result<(Result<(), ServeFault>, Vec<u8>), AllocError> {
    if let Ok(ran) = run(alloc, input, reads, writes) {
        return Ok(ran);
    }
    run(alloc, input, reads, writes)
}

/// Returns the output of a run that succeeds. After a refusal it is a beginning of that.
fn written(rt: &impl Abort, alloc: Global, input: &[u8]) -> Result<Vec<u8>, Fail> {
    let (ended, part) = run_once(alloc, input, NEVER, NEVER)?;
    if ended.is_ok() {
        return Ok(part);
    }
    holds(rt, matches!(ended, Err(ServeFault::NoMemory)));
    Ok(written_again(rt, alloc, input, part.as_slice())?)
}

/// Returns the output of a run after one that was refused memory and wrote `part`.
fn written_again(
    rt: &impl Abort,
    alloc: Global,
    input: &[u8],
    part: &[u8],
) -> Result<Vec<u8>, AllocError> {
    let (again, whole) = run(alloc, input, NEVER, NEVER)?;
    holds(rt, again.is_ok() && whole.as_slice().starts_with(part));
    Ok(whole)
}

/// Checks the output of a run.
fn is_answered(rt: &impl Abort, alloc: Global, input: &str, output: &str) -> Result<(), Fail> {
    let out = written(rt, alloc, input.as_bytes())?;
    are_bytes_at(rt, input, out.as_slice(), output.as_bytes());
    Ok(())
}

#[test]
fn rows_are_written(rt: HostRuntime) -> Result<(), Fail> {
    for (input, output) in &RUNS {
        is_answered(&rt, rt.alloc(), input, output)?;
    }
    Ok(())
}

#[test]
fn a_block_that_is_too_large_is_passed_over(rt: HostRuntime) -> Result<(), Fail> {
    let (input, output) = TOO_LARGE;
    is_answered(&rt, rt.alloc(), input, output)
}

/// Checks that the output is that of a run over `came`.
fn is_written(rt: &impl Abort, alloc: Global, came: &[u8], out: &[u8]) -> Result<(), Fail> {
    let whole = written(rt, alloc, came)?;
    are_bytes(rt, out, whole.as_slice());
    Ok(())
}

/// Checks a run whose reads fail once `came` was read.
fn is_answered_before_a_read(
    rt: &impl Abort,
    alloc: Global,
    input: &[u8],
    came: &[u8],
    output: &[u8],
) -> Result<(), Fail> {
    let (ended, out) = run_once(alloc, input, came.len(), NEVER)?;
    holds(rt, output.starts_with(out.as_slice()));
    if matches!(ended, Err(ServeFault::NoMemory)) {
        return Ok(());
    }
    // A closed session reads no further.
    holds(rt, matches!(ended, Ok(()) | Err(ServeFault::Read)));
    is_written(rt, alloc, came, out.as_slice())
}

#[test]
fn a_failed_read_leaves_what_came_before_answered(rt: HostRuntime) -> Result<(), Fail> {
    for (input, output) in &RUNS {
        let input = input.as_bytes();
        for reads in 0..=input.len() {
            let (came, _) = input.split_at(reads);
            is_answered_before_a_read(&rt, rt.alloc(), input, came, output.as_bytes())?;
        }
    }
    Ok(())
}

/// Returns whether a run whose writes fail once `front` was written ends so, and wrote that.
fn ends_behind(ended: &Result<(), ServeFault>, front: &[u8], out: &[u8]) -> bool {
    match ended {
        Err(ServeFault::NoMemory) => front.starts_with(out),
        Err(ServeFault::Write) => out == front,
        _ => false,
    }
}

/// Checks a run whose writes fail once `front` was written.
fn is_written_before_a_write(
    rt: &impl Abort,
    alloc: Global,
    input: &[u8],
    front: &[u8],
) -> Result<(), AllocError> {
    let (ended, out) = run_once(alloc, input, NEVER, front.len())?;
    holds(rt, ends_behind(&ended, front, out.as_slice()));
    Ok(())
}

#[test]
fn a_failed_write_leaves_a_beginning(rt: HostRuntime) -> Result<(), Fail> {
    for (input, output) in &RUNS {
        let output = output.as_bytes();
        for writes in 0..output.len() {
            let (front, _) = output.split_at(writes);
            is_written_before_a_write(&rt, rt.alloc(), input.as_bytes(), front)?;
        }
    }
    Ok(())
}

/// Takes a turn that is due. A refused turn closes the session.
fn take_turn(
    rt: &impl Abort,
    alloc: Global,
    session: &mut Session,
    store: &mut PlainStore,
) -> Result<(), AllocError> {
    holds(rt, !session.is_idle());
    let turn = session.turn(alloc, store, Moment::from_seconds(1000));
    if turn.is_err() {
        holds(rt, session.is_closed());
        return Err(AllocError);
    }
    holds(rt, matches!(turn, Ok(Turn::Did)));
    Ok(())
}

/// Feeds a session, and takes this many turns.
fn turns(
    rt: &impl Abort,
    alloc: Global,
    session: &mut Session,
    store: &mut PlainStore,
    piece: &str,
    count: usize,
) -> Result<(), AllocError> {
    session.feed(piece.as_bytes())?;
    for _ in 0..count {
        take_turn(rt, alloc, session, store)?;
    }
    Ok(())
}

/// A source that has one command, again and again.
#[derive(Drop)]
struct Asking;

impl Source for Asking {
    type Answer = ();

    ghost gives = { λ _ _ _ _. Unit {0} };

    fn read(&mut self, room: &mut [u8]) -> (usize, ()) {
        let command = b"version\r\n".as_slice();
        let count = command.len().min(room.len());
        let (onto, _) = room.split_at_mut(count);
        onto.copy_from_slice(command.split_at(count).0);
        (count, ())
    }
}

/// Feeds a session from that source, and once more if memory is refused, which leaves it idle.
///
/// Returns whether that went as it should.
fn feeds_itself(session: &mut Session) -> Result<bool, AllocError> {
    if session.is_closed() {
        return Ok(false);
    }
    if session.feed_from(&mut Asking, 2048).is_ok() {
        return Ok(true);
    }
    let is_idle = session.is_idle();
    session.feed_from(&mut Asking, 2048)?;
    Ok(is_idle)
}

/// Checks that a session is fed a command from a source and takes its turn.
fn is_fed(
    rt: &impl Abort,
    alloc: Global,
    session: &mut Session,
    store: &mut PlainStore,
) -> Result<(), AllocError> {
    holds(rt, feeds_itself(session)?);
    turns(rt, alloc, session, store, "", 1)?;
    are_bytes(rt, session.out(), b"VERSION 1.6.0\r\n");
    Ok(())
}

/// Feeds a session 128 pieces of 16384 bytes, and returns whether no turn was due in any.
fn feeds_pieces(session: &mut Session) -> Result<bool, AllocError> {
    let piece = [b'x'; 16384];
    for _ in 0..128 {
        session.feed(&piece)?;
        if !session.is_idle() {
            return Ok(false);
        }
    }
    Ok(true)
}

/// Checks a block that is skipped in such pieces.
fn passes_a_block_over(
    rt: &impl Abort,
    alloc: Global,
    session: &mut Session,
    store: &mut PlainStore,
) -> Result<(), AllocError> {
    turns(rt, alloc, session, store, "set a 0 0 2097152\r\n", 1)?;
    holds(rt, feeds_pieces(session)?);
    session.feed(b"\r\n")?;
    turns(rt, alloc, session, store, "version\r\n", 1)?;
    let told = b"SERVER_ERROR object too large for cache\r\nVERSION 1.6.0\r\n";
    are_bytes(rt, session.out(), told);
    Ok(())
}

/// Checks that a new session takes turns with one that reads.
fn another_takes_turns(
    rt: &impl Abort,
    alloc: Global,
    reading: &mut Session,
    store: &mut PlainStore,
) -> Result<(), AllocError> {
    let mut writing = Session::new(alloc, PAGE);
    reads_and_closes(rt, alloc, store, reading, &mut writing)
}

/// One session reads while another writes, and the other closes behind its output.
fn reads_and_closes(
    rt: &impl Abort,
    alloc: Global,
    store: &mut PlainStore,
    reading: &mut Session,
    writing: &mut Session,
) -> Result<(), AllocError> {
    reads_between_writes(rt, alloc, store, reading, writing)?;
    has_read_both(rt, reading);
    sends_a_text(rt, writing);
    holds(rt, is_closed(alloc, store, writing));
    Ok(())
}

/// Whether the session that reads is fed, or the one that writes; what it is fed; and its turns.
static BETWEEN: [(bool, &str, usize); 4] = [
    (false, "set a 0 0 1\r\n1\r\nset b 0 0 1\r\n1\r\n", 2),
    (true, "get a b\r\n", 1),
    (false, "set a 0 0 1\r\n2\r\nset b 0 0 1\r\n2\r\n", 2),
    (true, "", 1),
];

/// One session reads two keys, and another writes both between its turns.
fn reads_between_writes(
    rt: &impl Abort,
    alloc: Global,
    store: &mut PlainStore,
    reading: &mut Session,
    writing: &mut Session,
) -> Result<(), AllocError> {
    for (reads, piece, count) in &BETWEEN {
        if *reads {
            turns(rt, alloc, reading, store, piece, *count)?;
        } else {
            turns(rt, alloc, writing, store, piece, *count)?;
        }
    }
    Ok(())
}

/// The session that reads has the first item as it was first, and the second as it is.
fn has_read_both(rt: &impl Abort, reading: &Session) {
    let both = b"VALUE a 0 1\r\n1\r\nVALUE b 0 1\r\n2\r\nEND\r\n";
    are_bytes(rt, reading.out(), both);
    holds(rt, reading.is_idle());
}

/// The session that writes has four texts, of which it sends one.
fn sends_a_text(rt: &impl Abort, writing: &mut Session) {
    let len = writing.out().len();
    holds(rt, len == 32);
    writing.sent(len.min(8));
    are_bytes(rt, writing.out(), b"STORED\r\nSTORED\r\nSTORED\r\n");
}

/// Closes a session, and returns whether it is closed.
fn is_closed(alloc: Global, store: &mut PlainStore, writing: &mut Session) -> bool {
    writing.close();
    let is_closed = writing.is_closed();
    let turn = writing.turn(alloc, store, Moment::from_seconds(1000));
    is_closed && matches!(turn, Ok(Turn::Closed))
}

/// Checks that a get of a block of 9000 bytes needs no memory beyond its text.
fn rests(
    rt: &impl Abort,
    alloc: Global,
    session: &mut Session,
    store: &mut PlainStore,
) -> Result<(), AllocError> {
    holds(rt, announces_a_block(session)?);
    stores_a_block(rt, alloc, session, store)?;
    gets_a_block(rt, alloc, session, store)?;
    holds(rt, rests_around_its_text(session));
    Ok(())
}

/// A session that was fed nothing announces a block of 9000 bytes.
fn announces_a_block(session: &mut Session) -> Result<bool, AllocError> {
    let is_new = session.key().is_none();
    session.feed(b"set a 0 0 9000\r\n")?;
    Ok(is_new && session.announced_bytes() == 9018)
}

/// It stores the block.
fn stores_a_block(
    rt: &impl Abort,
    alloc: Global,
    session: &mut Session,
    store: &mut PlainStore,
) -> Result<(), AllocError> {
    session.feed(&[b'x'; 9000])?;
    turns(rt, alloc, session, store, "\r\n", 1)?;
    holds(rt, sends(session, 8));
    holds(
        rt,
        session.announced_bytes() == 0 && session.capacity() >= 9000,
    );
    Ok(())
}

/// Sends the whole output, and returns whether it has this length.
fn sends(session: &mut Session, len: usize) -> bool {
    let has = session.out().len();
    session.sent(has);
    has == len
}

/// It gets the block.
fn gets_a_block(
    rt: &impl Abort,
    alloc: Global,
    session: &mut Session,
    store: &mut PlainStore,
) -> Result<(), AllocError> {
    session.feed(b"get a b\r\n")?;
    holds(rt, session.key() == Some(b"a".as_slice()));
    turns(rt, alloc, session, store, "", 2)
}

/// It rests before and after the block is sent.
fn rests_around_its_text(session: &mut Session) -> bool {
    let is_written = session.out().len() == 9023;
    let is_held = session.rest() >= 9023;
    let is_sent = sends(session, 9023);
    is_written && is_held && is_sent && session.rest() <= 4096 && session.capacity() <= 4096
}

/// What a new session does over a new store.
#[derive(Clone, Copy)]
enum Case {
    Fed,
    Passes,
    Shares,
    Rests,
}

/// Checks what a session does that was fed nothing, over a store without items.
fn does(
    rt: &impl Abort,
    alloc: Global,
    session: &mut Session,
    store: &mut PlainStore,
    case: Case,
) -> Result<(), AllocError> {
    match case {
        Case::Fed => is_fed(rt, alloc, session, store),
        Case::Passes => passes_a_block_over(rt, alloc, session, store),
        Case::Shares => another_takes_turns(rt, alloc, session, store),
        Case::Rests => rests(rt, alloc, session, store),
    }
}

/// The same for a new session.
fn does_over(
    rt: &impl Abort,
    alloc: Global,
    store: &mut PlainStore,
    case: Case,
) -> Result<(), AllocError> {
    let mut session = Session::new(alloc, PAGE);
    does(rt, alloc, &mut session, store, case)
}

/// The same over a new store.
fn does_once(rt: &impl Abort, alloc: Global, case: Case) -> Result<(), AllocError> {
    let mut store = store_of_64_pages(alloc)?;
    does_over(rt, alloc, &mut store, case)
}

/// The same, and once more if memory is refused.
fn does_at_last(rt: &impl Abort, alloc: Global, case: Case) -> Result<(), AllocError> {
    if does_once(rt, alloc, case).is_ok() {
        return Ok(());
    }
    does_once(rt, alloc, case)
}

#[test]
fn a_command_comes_from_a_source(rt: HostRuntime) -> Result<(), Fail> {
    Ok(does_at_last(&rt, rt.alloc(), Case::Fed)?)
}

#[test]
fn a_block_of_many_pieces_is_passed_over(rt: HostRuntime) -> Result<(), Fail> {
    Ok(does_at_last(&rt, rt.alloc(), Case::Passes)?)
}

#[test]
fn keys_of_a_get_take_a_turn_each(rt: HostRuntime) -> Result<(), Fail> {
    Ok(does_at_last(&rt, rt.alloc(), Case::Shares)?)
}

#[test]
fn a_session_that_rests_keeps_two_first_pieces(rt: HostRuntime) -> Result<(), Fail> {
    Ok(does_at_last(&rt, rt.alloc(), Case::Rests)?)
}

/// The output of `get a` before the steps.
const BEFORE: &str = "VALUE a 0 1\r\n1\r\nEND\r\n";

/// A command, its text, and the output of `get a` after its step.
static STEPS: [(&str, &str, &str); 9] = [
    ("get a\r\n", BEFORE, BEFORE),
    (
        "set a 7 0 1\r\n2\r\n",
        "STORED\r\n",
        "VALUE a 7 1\r\n2\r\nEND\r\n",
    ),
    (
        "append a 0 0 1\r\n2\r\n",
        "STORED\r\n",
        "VALUE a 0 2\r\n12\r\nEND\r\n",
    ),
    (
        "cas a 0 0 1 1\r\n2\r\n",
        "STORED\r\n",
        "VALUE a 0 1\r\n2\r\nEND\r\n",
    ),
    ("incr a 8\r\n", "9\r\n", "VALUE a 0 1\r\n9\r\nEND\r\n"),
    ("delete a\r\n", "DELETED\r\n", "END\r\n"),
    ("flush_all\r\n", "OK\r\n", "END\r\n"),
    ("version\r\n", "VERSION 1.6.0\r\n", BEFORE),
    ("foo\r\n", "ERROR\r\n", BEFORE),
];

/// What a session of its own is asked: a command with its text, alone or behind another turn.
#[derive(Clone, Copy)]
struct Asked<'a> {
    command: &'a str,
    text: &'a str,
    is_behind: bool,
}

/// Checks the output of a session for one command.
fn answers(
    rt: &impl Abort,
    alloc: Global,
    session: &mut Session,
    store: &mut PlainStore,
    asked: Asked<'_>,
) -> Result<bool, AllocError> {
    turns(rt, alloc, session, store, asked.command, 1)?;
    are_bytes_at(rt, asked.command, session.out(), asked.text.as_bytes());
    Ok(true)
}

/// Checks what a session is asked, and returns whether its step is decided.
fn is_decided_in(
    rt: &impl Abort,
    alloc: Global,
    session: &mut Session,
    store: &mut PlainStore,
    asked: Asked<'_>,
) -> Result<bool, AllocError> {
    if !asked.is_behind {
        return answers(rt, alloc, session, store, asked);
    }
    turns(rt, alloc, session, store, "foo\r\n", 1)?;
    feed_at_last(rt, session, asked.command)?;
    Ok(is_decided(rt, alloc, session, store, asked))
}

/// The same for a new session.
fn asks(
    rt: &impl Abort,
    alloc: Global,
    store: &mut PlainStore,
    asked: Asked<'_>,
) -> Result<bool, AllocError> {
    let mut session = Session::new(alloc, GREATEST);
    is_decided_in(rt, alloc, &mut session, store, asked)
}

/// Feeds a command, and once more if memory is refused, which leaves the session idle.
fn feed_at_last(rt: &impl Abort, session: &mut Session, command: &str) -> Result<(), AllocError> {
    if session.feed(command.as_bytes()).is_ok() {
        return Ok(());
    }
    holds(rt, session.is_idle());
    session.feed(command.as_bytes())
}

/// Takes the turn that is due behind another, and returns whether its step is decided.
fn is_decided(
    rt: &impl Abort,
    alloc: Global,
    session: &mut Session,
    store: &mut PlainStore,
    asked: Asked<'_>,
) -> bool {
    match session.turn(alloc, store, Moment::from_seconds(1000)) {
        Ok(_) => {
            holds(rt, session.is_idle());
            has_text(rt, session, asked.command, asked.text);
            sends_first(rt, session, asked.command, asked.text);
            true
        }
        Err(fault) => {
            holds(rt, session.is_closed());
            has_text(rt, session, asked.command, "");
            fault.decided
        }
    }
}

/// The text of a command's turn stands behind that of the turn before.
fn has_text(rt: &impl Abort, session: &Session, command: &str, text: &str) {
    match session.out().strip_prefix(b"ERROR\r\n".as_slice()) {
        Some(behind) => are_bytes_at(rt, command, behind, text.as_bytes()),
        None => holds(rt, false),
    }
}

/// The session sends the first text, of 7 bytes, and the command's is left.
fn sends_first(rt: &impl Abort, session: &mut Session, command: &str, text: &str) {
    let len = session.out().len();
    session.sent(len.min(7));
    are_bytes_at(rt, command, session.out(), text.as_bytes());
}

/// Takes a step after another turn.
///
/// If its turn is refused, the session closes with the other turn's text, and the step is taken
/// exactly if the error has `decided`. An error is a refusal elsewhere.
fn step_is_taken(
    rt: &impl Abort,
    alloc: Global,
    command: &str,
    text: &str,
    after: &str,
) -> Result<(), AllocError> {
    let mut store = store_of_64_pages(alloc)?;
    step_is_taken_by(rt, alloc, &mut store, command, text, after)
}

/// Returns what a session of its own is asked alone.
fn alone<'a>(command: &'a str, text: &'a str) -> Asked<'a> {
    Asked {
        command,
        text,
        is_behind: false,
    }
}

/// The same in a store that is empty.
fn step_is_taken_by(
    rt: &impl Abort,
    alloc: Global,
    store: &mut PlainStore,
    command: &str,
    text: &str,
    after: &str,
) -> Result<(), AllocError> {
    asks(
        rt,
        alloc,
        store,
        alone("set a 0 0 1\r\n1\r\n", "STORED\r\n"),
    )?;
    let asked = Asked {
        command,
        text,
        is_behind: true,
    };
    let is_taken = asks(rt, alloc, store, asked)?;
    let stands = if is_taken { after } else { BEFORE };
    asks(rt, alloc, store, alone("get a\r\n", stands))?;
    Ok(())
}

/// The same, and once more if memory is refused elsewhere.
fn step_is_taken_at_last(
    rt: &impl Abort,
    alloc: Global,
    command: &str,
    text: &str,
    after: &str,
) -> Result<(), AllocError> {
    if step_is_taken(rt, alloc, command, text, after).is_ok() {
        return Ok(());
    }
    step_is_taken(rt, alloc, command, text, after)
}

#[test]
fn a_refused_turn_tells_whether_its_step_stands(rt: HostRuntime) -> Result<(), Fail> {
    for (command, text, after) in &STEPS {
        step_is_taken_at_last(&rt, rt.alloc(), command, text, after)?;
    }
    Ok(())
}
