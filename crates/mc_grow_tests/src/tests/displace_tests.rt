//! Two tables for a displacement: one where an entry can be moved, and one where none can.

use mc_displace::bring_near;
use mc_hop::Hop;
use mc_testing::{Mark, fill_marks, marks_table};
use std::test::*;

/// Brings the first empty bucket near the first home. Returns where it was, and where it ended.
fn brought(table: &mut Hop<Mark>) -> Option<(usize, Result<usize, usize>)> {
    let home = table.home_of(0);
    let free = table.free_from(home)?;
    Some((free, bring_near(table, home, free)))
}

#[test]
fn an_entry_of_another_home_moves(rt: HostRuntime) -> Result<(), Fail> {
    let mut table = marks_table(rt.alloc())?;
    assert!(rt;
        fill_marks(&mut table, 0, 16) && fill_marks(&mut table, 2560, 16),
        "no room"
    );
    match brought(&mut table) {
        Some((32, Ok(near))) => {
            assert!(rt;
                16 <= near && near < 32,
                "{near} is not one of the second home's"
            );
            let bit = near - 10;
            let word = table.word(10);
            assert!(rt; word >> bit & 1 == 0, "the old place has its bit");
            assert!(rt; word >> 22 & 1 == 1, "the new place has none");
        }
        _ => assert!(rt; false, "no bucket was brought near"),
    }
    Ok(())
}

#[test]
fn where_none_can_be_moved_it_is_stuck(rt: HostRuntime) -> Result<(), Fail> {
    let mut table = marks_table(rt.alloc())?;
    assert!(rt;
        fill_marks(&mut table, 0, 32) && fill_marks(&mut table, 256, 1),
        "no room"
    );
    match brought(&mut table) {
        Some((33, Err(33))) => {}
        _ => assert!(rt; false, "it is not stuck at the first empty bucket"),
    }
    Ok(())
}
