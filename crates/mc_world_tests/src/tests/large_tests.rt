//! Items of several pages, in worlds whose stores have few. If memory is refused a test ends early.

use crate::tests::set_ups::{EIGHT_LARGE, THREE_LARGE, TWO_LARGE};
use crate::tests::texts::{NO_CHUNK, around};
use crate::tests::told::Tested;
use mc_hop::Fnv;
use mc_shelf::Settings;
use std::alloc::{AllocError, Global};
use std::process::Abort;
use std::test::Fail;

/// The reply to a set of a block that is too large.
const TOO_LARGE: &str = "SERVER_ERROR object too large for cache\r\n";

/// A command of session 1.
#[derive(Clone, Copy)]
enum Asks {
    /// A set of a key to a block of this length, with this exptime.
    Set(char, u32, i32),
    Delete(char),
}

/// A command of session 1, and its reply.
type Row = (Asks, &'static str);

/// Returns a line that sets a key, and a block of this length.
fn set_of(alloc: Global, key: char, length: u32, exptime: i32) -> Result<Vec<u8>, AllocError> {
    let line = format!(in alloc; "set {key} 0 {exptime} {length}\r\n")?;
    around(alloc, line.as_bytes(), (b'x', length as usize), b"\r\n")
}

/// Returns the bytes of a command.
fn bytes_of(alloc: Global, asks: Asks) -> Result<Vec<u8>, AllocError> {
    match asks {
        Asks::Set(key, length, exptime) => set_of(alloc, key, length, exptime),
        Asks::Delete(key) => Ok(format!(in alloc; "delete {key}\r\n")?.into_bytes()),
    }
}

fn row_is_told<R: Abort>(tested: &mut Tested<'_, R, Fnv>, row: &Row) -> Result<(), Fail> {
    let (asks, output) = *row;
    let bytes = bytes_of(tested.alloc, asks)?;
    tested.ask(1000, &bytes)?;
    tested.tells(output);
    Ok(())
}

/// Checks the replies to session 1.
fn are_told_in<R: Abort>(tested: &mut Tested<'_, R, Fnv>, rows: &[Row]) -> Result<(), Fail> {
    for row in rows {
        row_is_told(tested, row)?;
    }
    Ok(())
}

/// The same, in a new world whose store has these settings.
fn are_told(rt: &impl Abort, alloc: Global, settings: Settings, rows: &[Row]) -> Result<(), Fail> {
    let mut tested = Tested::opened(rt, alloc, Fnv, settings)?;
    are_told_in(&mut tested, rows)
}

/// Brings a text to session 1 in pieces of 8192 bytes.
fn ask_in_pieces<R: Abort>(tested: &mut Tested<'_, R, Fnv>, text: &[u8]) -> Result<(), AllocError> {
    for piece in text.chunks(8192) {
        tested.ask(1000, piece)?;
    }
    Ok(())
}

/// Sets `k` to a letter 100000 times, in pieces.
fn sets<R: Abort>(tested: &mut Tested<'_, R, Fnv>, letter: u8) -> Result<(), Fail> {
    let set = around(
        tested.alloc,
        b"set k 0 0 100000\r\n",
        (letter, 100000),
        b"\r\n",
    )?;
    ask_in_pieces(tested, set.as_slice())?;
    tested.tells("STORED\r\n");
    Ok(())
}

/// Gets a letter 100000 times for `k`.
fn gets<R: Abort>(tested: &mut Tested<'_, R, Fnv>, letter: u8) -> Result<(), Fail> {
    let value = b"VALUE k 0 100000\r\n";
    let hit = around(tested.alloc, value, (letter, 100000), b"\r\nEND\r\n")?;
    tested.ask(1000, b"get k\r\n")?;
    tested.is_told_and_sent(hit.as_slice());
    Ok(())
}

/// Sets `k` to each letter, and gets it.
fn sets_and_gets<R: Abort>(tested: &mut Tested<'_, R, Fnv>, letters: &[u8]) -> Result<(), Fail> {
    for letter in letters {
        sets(tested, *letter)?;
        gets(tested, *letter)?;
    }
    Ok(())
}

/// The second block's memory becomes the item's, and the first one's that of the third.
#[test]
fn a_block_that_comes_in_pieces_is_set_over_others(rt: HostRuntime) -> Result<(), Fail> {
    let mut tested = Tested::opened(&rt, rt.alloc(), Fnv, TWO_LARGE)?;
    sets_and_gets(&mut tested, b"xyz")
}

#[test]
fn items_of_several_pages_share_a_store(rt: HostRuntime) -> Result<(), Fail> {
    static ROWS: [Row; 7] = [
        (Asks::Set('b', 3000000, 0), "STORED\r\n"),
        (Asks::Set('s', 1, 0), NO_CHUNK),
        (Asks::Set('b', 3000000, 0), NO_CHUNK),
        (Asks::Delete('b'), "DELETED\r\n"),
        (Asks::Set('c', 2000000, 0), "STORED\r\n"),
        (Asks::Set('d', 1048527, 0), "STORED\r\n"),
        (Asks::Set('e', 1048527, 0), NO_CHUNK),
    ];
    are_told(&rt, rt.alloc(), THREE_LARGE, &ROWS)
}

#[test]
fn an_item_has_at_most_eight_pages(rt: HostRuntime) -> Result<(), Fail> {
    static ROWS: [Row; 2] = [
        (Asks::Set('k', 8388559, 0), "STORED\r\n"),
        (Asks::Set('k', 8388560, 0), TOO_LARGE),
    ];
    are_told(&rt, rt.alloc(), EIGHT_LARGE, &ROWS)
}

#[test]
fn an_item_takes_all_its_pages_or_none(rt: HostRuntime) -> Result<(), Fail> {
    static ROWS: [Row; 2] = [
        (Asks::Set('b', 3000000, 0), NO_CHUNK),
        (Asks::Set('s', 1, 0), "STORED\r\n"),
    ];
    are_told(&rt, rt.alloc(), TWO_LARGE, &ROWS)
}

/// A dead item gives its pages to a larger one and to a smaller one of its key.
#[test]
fn a_dead_item_gives_way_to_one_of_other_pages(rt: HostRuntime) -> Result<(), Fail> {
    static ROWS: [Row; 4] = [
        (Asks::Set('b', 2000000, -1), "STORED\r\n"),
        (Asks::Set('b', 3000000, -1), "STORED\r\n"),
        (Asks::Set('b', 2000000, 0), "STORED\r\n"),
        (Asks::Set('c', 1048527, 0), "STORED\r\n"),
    ];
    are_told(&rt, rt.alloc(), THREE_LARGE, &ROWS)
}
