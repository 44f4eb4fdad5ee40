//! Links that are let go, which are dropped.
//!
//! Contracts state that each went to `let_go`, once, and not that this call drops it.

use crate::halls::{HallOf, store_with};
use mc_guests::{Got, Link, LinkFault, Took};
use std::alloc::Global;
use std::cell::Cell;
use std::test::*;

/// It counts its drop.
struct Bell<'a> {
    drops: &'a Cell<u64>,
}

impl<'a> Drop for Bell<'a> {
    fn drop(self) {
        let Bell { drops } = self;
        drops.set(drops.get().saturating_add(1));
    }
}

/// A link whose client is gone.
#[derive(Drop)]
struct Deserted<'a> {
    _bell: Bell<'a>,
    is_ended: bool,
    was_read: bool,
    requested: usize,
}

impl<'a> Deserted<'a> {
    fn new(drops: &'a Cell<u64>) -> Deserted<'a> {
        Deserted {
            _bell: Bell { drops },
            is_ended: false,
            was_read: false,
            requested: 0,
        }
    }
}

impl<'a> Link for Deserted<'a> {
    ghost use Rattle.std.specs.Prelude.{None};

    ghost shown = { λ s. record { given = None; taken = None; faults = 0; is_ended = s.is_ended; was_read = s.was_read; requested = s.requested } };

    fn try_read(&mut self, piece: &mut [u8]) -> Result<Got, LinkFault> {
        self.is_ended = true;
        self.was_read = true;
        self.requested = piece.len();
        Ok(Got::End)
    }

    fn try_write(&mut self, bytes: &[u8]) -> Result<Took, LinkFault> {
        self.was_read = false;
        self.requested = bytes.len();
        Ok(Took::Later)
    }

    fn faults(&self) -> u64 {
        0
    }
}

/// Returns how many links were dropped at the door, where the third was refused, and by the end of
/// a round, in which the guests of the other two leave.
fn drops_of(alloc: Global) -> Result<(u64, u64), Fail> {
    let drops = Cell::new(0);
    let store = store_with(alloc, 0)?;
    let mut hall = HallOf::new(alloc, store, usize::MAX);
    hall.admit(alloc, 0, Deserted::new(&drops))?;
    hall.admit(alloc, 1, Deserted::new(&drops))?;
    // a guest's link has that number
    let _ = hall.admit(alloc, 1, Deserted::new(&drops));
    let at_door = drops.get();
    hall.go_once(alloc);
    Ok((at_door, drops.get()))
}

#[test]
fn each_link_is_dropped_once(rt: HostRuntime) -> Result<(), Fail> {
    assert_eq!(rt; drops_of(rt.alloc())?, (1, 3));
    Ok(())
}
