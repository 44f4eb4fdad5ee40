//! How many links are admitted between two rounds.

use mc_guests::{Admission, Budget, Got, Guests, Link, LinkFault, Links, Next, Took, WorkEnd};
use std::alloc::Global;
use std::test::*;

/// A link that gives and takes nothing.
#[derive(Drop)]
struct Silent {
    was_read: bool,
    requested: usize,
}

impl Link for Silent {
    ghost use Rattle.std.specs.Prelude.{None, false};

    ghost shown = { λ s. record { given = None; taken = None; faults = 0; is_ended = false; was_read = s.was_read; requested = s.requested } };

    fn try_read(&mut self, piece: &mut [u8]) -> Result<Got, LinkFault> {
        self.was_read = true;
        self.requested = piece.len();
        Ok(Got::Later)
    }

    fn try_write(&mut self, bytes: &[u8]) -> Result<Took, LinkFault> {
        self.was_read = false;
        self.requested = bytes.len();
        Ok(Took::Later)
    }

    fn faults(&self) -> u64 {
        0
    }
}

/// A number of waiting links, and no more. It counts how often it was rested.
#[derive(Drop)]
struct Crowd {
    waiting: u64,
    rests: u64,
}

impl Links<Silent> for Crowd {
    fn next(&mut self) -> Next<Silent> {
        if self.waiting == 0 {
            return Next::Later;
        }
        self.waiting -= 1;
        Next::Link(Silent {
            was_read: false,
            requested: 0,
        })
    }

    fn ready(&mut self) -> Option<u64> {
        None
    }

    fn rest(&mut self) {
        self.rests = self.rests.saturating_add(1);
    }

    fn is_due(&self) -> bool {
        false
    }

    fn look(&mut self) {}
}

/// What was admitted of a crowd before each of two rounds.
#[derive(Clone, Copy, Debug, PartialEq, Eq)]
struct Course {
    waiting: u64,
    /// The links admitted before the first round, and before the second.
    first: u64,
    second: u64,
    rests: u64,
}

/// Admits a crowd, as much as may be, before two rounds.
fn course_of(alloc: Global, waiting: u64) -> Course {
    let mut crowd = Crowd { waiting, rests: 0 };
    let mut guests = Guests::new(alloc, Budget::new(usize::MAX, 1048576));
    let (first, second) = opens_twice(alloc, &mut crowd, &mut guests);
    Course {
        waiting,
        first,
        second,
        rests: crowd.rests,
    }
}

/// Opens a new door before each of two rounds, and returns how many links were admitted by then.
fn opens_twice(alloc: Global, crowd: &mut Crowd, guests: &mut Guests<Silent>) -> (u64, u64) {
    let mut door = Admission::new(1048576);
    let mut end = WorkEnd {
        served: 0,
        broken: 0,
        refused: 0,
    };
    door.open_for_all(alloc, crowd, guests, &mut end);
    let first = door.opened;
    door.open_for_all(alloc, crowd, guests, &mut end);
    (first, door.opened)
}

/// Nobody is visited here, so admitted links are awake, and nothing is rested beside them.
static COURSES: [Course; 4] = [
    Course {
        waiting: 0,
        first: 0,
        second: 0,
        rests: 2,
    },
    Course {
        waiting: 3,
        first: 3,
        second: 3,
        rests: 0,
    },
    Course {
        waiting: 32,
        first: 32,
        second: 32,
        rests: 0,
    },
    Course {
        waiting: 33,
        first: 32,
        second: 33,
        rests: 0,
    },
];

#[test]
fn all_that_wait_are_let_in_at_once(rt: HostRuntime) -> Result<(), Fail> {
    for course in &COURSES {
        assert_eq!(rt; course_of(rt.alloc(), course.waiting), *course);
    }
    Ok(())
}
