//! What makes room in a store of one page. If memory is refused a test ends early.

use crate::tests::acts::{Act, run_acts};
use crate::tests::set_ups::{
    MANY_SMALL, ONE_SMALL, SHELF_OF_A, SHELF_OF_B, SHELF_OF_B_OF_MANY, SOME_SMALL,
};
use crate::tests::texts::{NO_CHUNK, large_set};
use crate::tests::told::Tested;
use mc_hop::Fnv;
use mc_shelf::Settings;
use std::alloc::Global;
use std::process::Abort;
use std::test::Fail;

/// Sets a key to 600000 bytes by session 1 at a second, and checks the reply.
fn large_set_answers<R: Abort>(
    tested: &mut Tested<'_, R, Fnv>,
    large: (u64, char, u32),
    output: &str,
) -> Result<(), Fail> {
    let (seconds, key, exptime) = large;
    let set = large_set(tested.alloc, key, exptime, b'x')?;
    tested.ask(seconds, &set)?;
    tested.tells(output);
    Ok(())
}

/// Fills a page at 1000 with an item that is dead at 1001, so another key finds no room.
fn fill<R: Abort>(tested: &mut Tested<'_, R, Fnv>) -> Result<(), Fail> {
    large_set_answers(tested, (1000, 'b', 1), "STORED\r\n")?;
    large_set_answers(tested, (1001, 'c', 0), NO_CHUNK)
}

/// Fills a page, and runs acts. Then sets a key to 600000 bytes by session 1, and checks the reply.
fn room_is_made_in<R: Abort>(
    tested: &mut Tested<'_, R, Fnv>,
    acts: &[Act],
    key: char,
    output: &str,
) -> Result<(), Fail> {
    fill(tested)?;
    run_acts(tested, acts)?;
    large_set_answers(tested, (1001, key, 0), output)
}

/// The same, in a new world whose store has these settings, with one page.
fn room_is_made(
    rt: &impl Abort,
    alloc: Global,
    settings: Settings,
    acts: &[Act],
    key: char,
    output: &str,
) -> Result<(), Fail> {
    let mut tested = Tested::opened(rt, alloc, Fnv, settings)?;
    room_is_made_in(&mut tested, acts, key, output)
}

/// The settings of a store, the shelf that is purged, and the reply to a set afterwards.
type Purged = (Settings, u32, &'static str);

#[test]
fn a_purge_of_the_shelf_makes_room(rt: HostRuntime) -> Result<(), Fail> {
    const ROWS: [Purged; 7] = [
        (SOME_SMALL, SHELF_OF_B, "STORED\r\n"),
        (SOME_SMALL, SHELF_OF_A, NO_CHUNK),
        (ONE_SMALL, 0, "STORED\r\n"),
        (ONE_SMALL, 1, NO_CHUNK),
        (MANY_SMALL, SHELF_OF_B_OF_MANY, "STORED\r\n"),
        (MANY_SMALL, SHELF_OF_B, NO_CHUNK),
        (MANY_SMALL, 256, NO_CHUNK),
    ];
    for (settings, shelf, output) in &ROWS {
        let acts = [Act::Purge(*shelf)];
        room_is_made(&rt, rt.alloc(), *settings, &acts, 'c', output)?;
    }
    Ok(())
}

#[test]
fn a_get_of_a_dead_item_makes_room(rt: HostRuntime) -> Result<(), Fail> {
    const ACTS: [Act; 1] = [Act::Asks(1, "get b\r\n")];
    room_is_made(&rt, rt.alloc(), SOME_SMALL, &ACTS, 'c', "END\r\nSTORED\r\n")
}

#[test]
fn a_dead_item_gives_its_chunk_to_its_own_key(rt: HostRuntime) -> Result<(), Fail> {
    room_is_made(&rt, rt.alloc(), SOME_SMALL, &[], 'b', "STORED\r\n")
}
