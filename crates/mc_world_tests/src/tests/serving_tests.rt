//! Whole runs of a world's sessions. A test may refuse one allocation.

use crate::tests::told::Tested;
use crate::worlds::world;
use mc_hop::Fnv;
use mc_session::ServeFault;
use mc_testing::{Drip, SESSIONS, Sip};
use mc_time::{Fixed, Moment};
use mc_world::serve_one;
use std::alloc::{AllocError, Global};
use std::io::ErrorKind;
use std::process::Abort;
use std::test::Fail;

/// More calls than any test makes.
const NEVER: usize = 10000;

/// How a session ended, and what it wrote.
type Ended = (Result<(), ServeFault>, Vec<u8>);

/// Serves a session over a reader and a writer, which fail after so many bytes.
fn run<R: Abort>(
    tested: &mut Tested<'_, R, Fnv>,
    input: &[u8],
    reads: usize,
    writes: usize,
) -> Result<Ended, AllocError> {
    if tested.world.session_count() >= 65535 {
        return Err(AllocError);
    }
    let mut writer = Sip::failing(tested.alloc, 1000, writes, ErrorKind::Other)?;
    let mut reader = Drip::failing(input, reads, ErrorKind::Other);
    let clock = Fixed(Moment::from_seconds(1000));
    let world = &mut tested.world;
    let ended = serve_one(tested.alloc, &mut reader, &mut writer, world, &clock);
    Ok((ended, writer.into_taken()))
}

/// The same for a run with enough memory: a refusal ends the test.
fn run_with_memory<R: Abort>(
    tested: &mut Tested<'_, R, Fnv>,
    input: &[u8],
    reads: usize,
    writes: usize,
) -> Result<Ended, AllocError> {
    match run(tested, input, reads, writes)? {
        (Err(ServeFault::NoMemory), _) => Err(AllocError),
        ended => Ok(ended),
    }
}

/// Returns the output of a world's session that is served whole.
fn served<R: Abort>(tested: &mut Tested<'_, R, Fnv>, input: &[u8]) -> Result<Vec<u8>, Fail> {
    let (ended, out) = run_with_memory(tested, input, NEVER, NEVER)?;
    assert!(tested.rt; ended.is_ok());
    Ok(out)
}

/// Serves another session of that world.
fn next_is_served<R: Abort>(tested: &mut Tested<'_, R, Fnv>) -> Result<(), Fail> {
    let text = served(tested, b"version\r\n")?;
    assert!(tested.rt; text.as_slice() == b"VERSION 1.6.0\r\n".as_slice());
    Ok(())
}

/// Checks a session that succeeded: it is closed, and all of its output is written.
///
/// After a refusal it is closed, if it was opened, and the world serves the next one.
fn is_left_well<R: Abort>(
    tested: &mut Tested<'_, R, Fnv>,
    ended: Result<(), ServeFault>,
) -> Result<(), Fail> {
    if ended.is_ok() {
        assert!(tested.rt; tested.world.is_closed(1) && tested.world.out(1).is_empty());
        return Ok(());
    }
    assert!(tested.rt; matches!(ended, Err(ServeFault::NoMemory)));
    assert!(tested.rt; tested.world.session_count() == 0 || tested.world.is_closed(1));
    next_is_served(tested)
}

/// Returns whether the first run of a world succeeded, and its output.
///
/// It is `None` if memory for the reader or the writer was refused.
fn first_of<R: Abort>(
    tested: &mut Tested<'_, R, Fnv>,
    input: &[u8],
) -> Result<Option<(bool, Vec<u8>)>, Fail> {
    let Ok((ended, part)) = run(tested, input, NEVER, NEVER) else {
        return Ok(None);
    };
    let is_whole = ended.is_ok();
    is_left_well(tested, ended)?;
    Ok(Some((is_whole, part)))
}

/// The same for a new world; `None` if there is none.
fn first(rt: &impl Abort, alloc: Global, input: &[u8]) -> Result<Option<(bool, Vec<u8>)>, Fail> {
    match world(alloc, Fnv) {
        Ok(world) => first_of(&mut Tested::of(rt, alloc, world), input),
        Err(_) => Ok(None),
    }
}

/// Returns the output of a new world's run that succeeds.
///
/// After a refusal it is a beginning of that.
fn written(rt: &impl Abort, alloc: Global, input: &[u8]) -> Result<Vec<u8>, Fail> {
    match first(rt, alloc, input)? {
        Some((true, whole)) => Ok(whole),
        Some((false, part)) => again_behind(rt, alloc, input, part.as_slice()),
        None => again(rt, alloc, input),
    }
}

/// Returns the output of a run without a refusal, which begins with that of another.
fn again_behind(
    rt: &impl Abort,
    alloc: Global,
    input: &[u8],
    part: &[u8],
) -> Result<Vec<u8>, Fail> {
    let whole = again(rt, alloc, input)?;
    begins_with(rt, whole.as_slice(), part);
    Ok(whole)
}

/// Checks that a text begins with another.
fn begins_with(rt: &impl Abort, text: &[u8], front: &[u8]) {
    assert!(rt; text.starts_with(front));
}

/// Returns the output of a run without a refusal.
fn again(rt: &impl Abort, alloc: Global, input: &[u8]) -> Result<Vec<u8>, Fail> {
    let mut tested = Tested::of(rt, alloc, world(alloc, Fnv)?);
    served(&mut tested, input)
}

/// Checks the output for an input.
fn is_output(rt: &impl Abort, out: &[u8], input: &str, output: &str) {
    assert_eq!(rt; out, output.as_bytes(), "at {input}");
}

/// Checks the output of a new world.
fn row_is_written(rt: &impl Abort, alloc: Global, input: &str, output: &str) -> Result<(), Fail> {
    let out = written(rt, alloc, input.as_bytes())?;
    is_output(rt, &out, input, output);
    Ok(())
}

#[test]
fn rows_are_written(rt: HostRuntime) -> Result<(), Fail> {
    for (input, output) in &SESSIONS {
        row_is_written(&rt, rt.alloc(), input, output)?;
    }
    Ok(())
}

/// Serves a session whose read fails after some bytes, and which is then closed. Returns its
/// output.
fn read_fails<R: Abort>(
    tested: &mut Tested<'_, R, Fnv>,
    input: &[u8],
    reads: usize,
) -> Result<Vec<u8>, Fail> {
    let (ended, out) = run_with_memory(tested, input, reads, NEVER)?;
    // A closed session reads no further.
    assert!(tested.rt; matches!(ended, Ok(()) | Err(ServeFault::Read)));
    assert!(tested.rt; tested.world.is_closed(1));
    Ok(out)
}

/// Checks that a front of the input is answered in a new world if the read after it fails.
fn front_is_answered(
    rt: &impl Abort,
    alloc: Global,
    input: &[u8],
    reads: usize,
) -> Result<(), Fail> {
    let mut tested = Tested::of(rt, alloc, world(alloc, Fnv)?);
    let out = read_fails(&mut tested, input, reads)?;
    let (came, _) = input.split_at(reads.min(input.len()));
    let want = written(rt, alloc, came)?;
    is_written(rt, out.as_slice(), want.as_slice(), reads);
    Ok(())
}

/// Checks the output of a session whose read failed.
fn is_written(rt: &impl Abort, out: &[u8], want: &[u8], reads: usize) {
    assert_eq!(rt; out, want, "after {reads}");
}

fn fronts_are_answered(rt: &impl Abort, alloc: Global, input: &[u8]) -> Result<(), Fail> {
    for reads in 0..input.len() {
        front_is_answered(rt, alloc, input, reads)?;
    }
    Ok(())
}

#[test]
fn a_failed_read_leaves_what_came_before_answered(rt: HostRuntime) -> Result<(), Fail> {
    for (input, _) in &SESSIONS {
        // Each front is run three times: those of the longest sessions would take minutes.
        if input.len() < 60 {
            fronts_are_answered(&rt, rt.alloc(), input.as_bytes())?;
        }
    }
    Ok(())
}

/// Serves a session whose write fails after some bytes, and which is then closed. Returns what it
/// wrote.
fn write_fails<R: Abort>(tested: &mut Tested<'_, R, Fnv>, writes: usize) -> Result<Vec<u8>, Fail> {
    let input = b"set a 5 0 3\r\nabc\r\nget a\r\nquit\r\n";
    let (ended, out) = run_with_memory(tested, input, NEVER, writes)?;
    assert!(tested.rt; matches!(ended, Err(ServeFault::Write)) && tested.world.is_closed(1));
    Ok(out)
}

/// Checks that what was written is a front of the output of that length, and the rest is left.
fn goes_on(
    rt: &impl Abort,
    written: Vec<u8>,
    left: &[u8],
    writes: usize,
    output: &[u8],
) -> Result<(), Fail> {
    is_front(rt, written.as_slice(), writes, output);
    let mut told = written;
    told.extend_from_slice(left)?;
    begins_with(rt, output, told.as_slice());
    Ok(())
}

/// Checks that this is a front of the output of that length.
fn is_front(rt: &impl Abort, written: &[u8], writes: usize, output: &[u8]) {
    let (front, _) = output.split_at(writes.min(output.len()));
    assert_eq!(rt; written, front);
}

/// Checks that a write that fails after some bytes leaves the rest in its session's output.
fn rest_is_left<R: Abort>(
    tested: &mut Tested<'_, R, Fnv>,
    writes: usize,
    output: &[u8],
) -> Result<(), Fail> {
    let written = write_fails(tested, writes)?;
    goes_on(tested.rt, written, tested.world.out(1), writes, output)
}

#[test]
fn a_failed_write_leaves_the_rest_in_the_output(rt: HostRuntime) -> Result<(), Fail> {
    let output = b"STORED\r\nVALUE a 5 3\r\nabc\r\nEND\r\n";
    for writes in 0..output.len() {
        let mut tested = Tested::of(&rt, rt.alloc(), world(rt.alloc(), Fnv)?);
        rest_is_left(&mut tested, writes, output)?;
    }
    Ok(())
}

/// Checks the output of the next session of a world.
fn session_writes<R: Abort>(
    tested: &mut Tested<'_, R, Fnv>,
    row: (&str, &str),
) -> Result<(), Fail> {
    let (input, output) = row;
    let out = served(tested, input.as_bytes())?;
    is_output(tested.rt, &out, input, output);
    Ok(())
}

/// Checks that three sessions were opened, are closed, and have no output left.
fn three_are_closed<R: Abort>(tested: &Tested<'_, R, Fnv>) {
    let world = &tested.world;
    assert!(tested.rt; world.session_count() == 3);
    for session in 1..4 {
        assert!(tested.rt; world.is_closed(session) && world.out(session).is_empty());
    }
}

/// Checks that three sessions of a world write their rows' output, and are closed.
fn three_write<R: Abort>(
    tested: &mut Tested<'_, R, Fnv>,
    rows: &[(&'static str, &'static str); 3],
) -> Result<(), Fail> {
    for row in rows {
        session_writes(tested, *row)?;
    }
    three_are_closed(tested);
    Ok(())
}

#[test]
fn a_second_session_finds_what_the_first_stored(rt: HostRuntime) -> Result<(), Fail> {
    static ROWS: [(&str, &str); 3] = [
        ("set a 7 0 3\r\nabc\r\nquit\r\n", "STORED\r\n"),
        ("get a\r\n", "VALUE a 7 3\r\nabc\r\nEND\r\n"),
        ("delete a\r\nget a\r\n", "DELETED\r\nEND\r\n"),
    ];
    let mut tested = Tested::of(&rt, rt.alloc(), world(rt.alloc(), Fnv)?);
    three_write(&mut tested, &ROWS)
}
