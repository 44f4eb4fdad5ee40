//! Keys of one hash.

use crate::tests::texts::{get_of, hit_of, set_of};
use crate::tests::told::Tested;
use mc_hop::Constant;
use mc_world::Event;
use std::alloc::{AllocError, Global};
use std::process::Abort;
use std::test::Fail;

/// Returns what is sent on a key in a round: keys are set, found, each third is deleted, and all
/// are asked for again.
fn command(alloc: Global, round: u32, number: u32) -> Result<String, AllocError> {
    match (round, number % 3) {
        (0, _) => set_of(alloc, number),
        (2, 0) => format!(in alloc; "delete k{number:03}\r\n"),
        _ => get_of(alloc, number),
    }
}

/// Returns the reply to that.
fn reply(alloc: Global, round: u32, number: u32) -> Result<String, AllocError> {
    match (round, number % 3) {
        (0, _) => format!(in alloc; "STORED\r\n"),
        (2, 0) => format!(in alloc; "DELETED\r\n"),
        (3, 0) => format!(in alloc; "END\r\n"),
        _ => hit_of(alloc, number),
    }
}

/// Sends a round's command on a key, and grows its shelf, except where all keys are found.
fn key_is_told<R: Abort>(
    tested: &mut Tested<'_, R, Constant>,
    round: u32,
    number: u32,
) -> Result<(), Fail> {
    let command = command(tested.alloc, round, number)?;
    let reply = reply(tested.alloc, round, number)?;
    tested.answers(1000, &command, &reply)?;
    if round == 1 {
        // a table that grows stays so while its keys are found
        return Ok(());
    }
    tested.run(&[Event::Grow(0)])?;
    Ok(())
}

fn keys_are_told<R: Abort>(
    tested: &mut Tested<'_, R, Constant>,
    round: u32,
    keys: u32,
) -> Result<(), Fail> {
    for number in 0..keys {
        key_is_told(tested, round, number)?;
    }
    Ok(())
}

/// Sets so many keys of a world, finds them, deletes each third, and finds the others.
pub(crate) fn keys_are_apart<R: Abort>(
    tested: &mut Tested<'_, R, Constant>,
    keys: u32,
) -> Result<(), Fail> {
    for round in 0..4 {
        keys_are_told(tested, round, keys)?;
    }
    Ok(())
}
