//! What hostile peers may send: keys of one hash, single bytes, and writes until the unique numbers
//! end.
//!
//! If memory is refused a test ends early.

ghost use Rattle.std.specs.Prelude.{◌≤◌};

use crate::tests::keys::keys_are_apart;
use crate::tests::runs::after;
use crate::tests::set_ups::SOME;
use crate::tests::told::Tested;
use mc_hop::{Constant, Fnv};
use mc_protocol::Bytes;
use mc_time::Moment;
use mc_world::{Event, World};
use std::alloc::{AllocError, Global};
use std::process::Abort;
use std::test::Fail;

/// Returns a world with session 1 open, and one unique number left.
fn world_of_one_number(alloc: Global) -> Result<World<Fnv>, AllocError> {
    let now = Moment::from_seconds(1000);
    let world = World::starting(alloc, SOME, Fnv, now, 18446744073709551614)?;
    after(alloc, world, &[Event::Open])
}

/// One write is left. Then each write that needs a number gets the error that they are used up.
///
/// All other steps are answered as before.
#[test]
fn unique_numbers_end(rt: HostRuntime) -> Result<(), Fail> {
    let input =
        "set a 0 0 1\r\nx\r\ngets a\r\nset a 0 0 1\r\ny\r\nincr a 1\r\nadd a 0 0 1\r\ny\r\nget a\r\ndelete a\r\n";
    let output =
        "STORED\r\nVALUE a 0 1 18446744073709551614\r\nx\r\nEND\r\nSERVER_ERROR out of unique numbers\r\n\
        CLIENT_ERROR cannot increment or decrement non-numeric value\r\nNOT_STORED\r\nVALUE a 0 1\r\nx\r\nEND\r\nDELETED\r\n";
    let mut tested = Tested::of(&rt, rt.alloc(), world_of_one_number(rt.alloc())?);
    tested.answers(1000, input, output)
}

#[test]
fn three_hundred_keys_have_one_hash(rt: HostRuntime) -> Result<(), Fail> {
    let mut tested = Tested::opened(&rt, rt.alloc(), Constant(0), SOME)?;
    keys_are_apart(&mut tested, 300)
}

/// Brings a piece and then an empty one, with a turn after each.
fn bring<R: Abort>(tested: &mut Tested<'_, R, Fnv>, piece: &[u8]) -> Result<(), AllocError> {
    tested.run(&[
        Event::Piece(1, Bytes::of(piece)),
        Event::Turn(1),
        Event::Piece(1, Bytes::of(b"")),
        Event::Turn(1),
    ])
}

/// Brings some bytes, so many a piece, with an empty piece and a turn after each.
fn bring_pieces<R: Abort>(
    tested: &mut Tested<'_, R, Fnv>,
    input: &[u8],
    length: usize,
) -> Result<(), AllocError>
    requires { 1 ≤ length }
{
    for piece in input.chunks(length) {
        bring(tested, piece)?;
    }
    Ok(())
}

/// Compares the output of session 1 that reads this in pieces of a length, and returns whether it
/// is closed.
fn tells_in_pieces_of<R: Abort>(
    tested: &mut Tested<'_, R, Fnv>,
    input: &[u8],
    length: usize,
    output: &[u8],
) -> Result<bool, Fail>
    requires { 1 ≤ length }
{
    bring_pieces(tested, input, length)?;
    tested.take_turns(10)?;
    tested.is_told(1, output);
    Ok(tested.world.is_closed(1))
}

/// The same, in a new world.
fn tells_in_pieces(
    rt: &impl Abort,
    alloc: Global,
    input: &[u8],
    length: usize,
    output: &[u8],
) -> Result<bool, Fail>
    requires { 1 ≤ length }
{
    let mut tested = Tested::opened(rt, alloc, Fnv, SOME)?;
    tells_in_pieces_of(&mut tested, input, length, output)
}

/// Checks that a session has the same output byte by byte as whole, and is closed alike.
fn tells_in_any_pieces(
    rt: &impl Abort,
    alloc: Global,
    input: &[u8],
    output: &[u8],
) -> Result<(), Fail> {
    let whole = tells_in_pieces(rt, alloc, input, usize::MAX, output)?;
    let bytewise = tells_in_pieces(rt, alloc, input, 1, output)?;
    assert!(rt; bytewise == whole);
    Ok(())
}

#[test]
fn bytes_come_one_by_one(rt: HostRuntime) -> Result<(), Fail> {
    static ROWS: [(&str, &str); 4] = [
        (
            "set a 0 0 3\r\nabcdef\r\n",
            "CLIENT_ERROR bad data chunk\r\nERROR\r\n",
        ),
        ("set a 0 0 4\r\n\r\n\r\n\r\n", "STORED\r\n"),
        (
            "set a 0 0 1 noreply\r\nx\r\nget a\r\nquit\r\nget a\r\n",
            "VALUE a 0 1\r\nx\r\nEND\r\n",
        ),
        (
            "\r\nfoo\r\nget\r\nversion\n  version  \r\n",
            "ERROR\r\nERROR\r\nERROR\r\nVERSION 1.6.0\r\nVERSION 1.6.0\r\n",
        ),
    ];
    for (input, output) in &ROWS {
        tells_in_any_pieces(&rt, rt.alloc(), input.as_bytes(), output.as_bytes())?;
    }
    Ok(())
}

/// Appends a line that sets a key of this many letters, and its block.
fn set_of_long_key(alloc: Global, input: &mut Vec<u8>, len: usize) -> Result<(), AllocError> {
    let key = vec![in alloc; b'k'; len]?;
    input.extend_from_slice(b"set ")?;
    input.extend_from_slice(&key)?;
    input.extend_from_slice(b" 0 0 1\r\nx\r\n")
}

/// Returns sets of a key of 250 letters, and of one of 251.
fn long_keys(alloc: Global) -> Result<Vec<u8>, AllocError> {
    let mut input = Vec::new(alloc);
    set_of_long_key(alloc, &mut input, 250)?;
    set_of_long_key(alloc, &mut input, 251)?;
    Ok(input)
}

#[test]
fn long_keys_come_byte_by_byte(rt: HostRuntime) -> Result<(), Fail> {
    let output = b"STORED\r\nCLIENT_ERROR bad command line format\r\nERROR\r\n";
    tells_in_any_pieces(&rt, rt.alloc(), &long_keys(rt.alloc())?, output)
}

/// Returns a line of 65536 letters, and 65537 letters of the next.
fn long_lines(alloc: Global) -> Result<Vec<u8>, AllocError> {
    let mut input = vec![in alloc; b'q'; 65536]?;
    input.push(b'\n')?;
    input.resize(131074, b'q')?;
    Ok(input)
}

#[test]
fn long_lines_come_byte_by_byte(rt: HostRuntime) -> Result<(), Fail> {
    let output = b"ERROR\r\nCLIENT_ERROR line too long\r\n";
    tells_in_any_pieces(&rt, rt.alloc(), &long_lines(rt.alloc())?, output)
}
