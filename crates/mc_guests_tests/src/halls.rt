//! Guests of one kind of link with their store, and the bytes that such a link gives.

ghost use Rattle.std.specs.Prelude.{◌≤◌, length};

use crate::counting::Counting;
use crate::lines::GREATEST;
use mc_guests::{Budget, Guests, Link, WorkEnd};
use mc_protocol::Verb;
use mc_testing::{Ask, ask_step, filled_block, step_of};
use mc_time::Moment;
use std::alloc::{AllocError, Global};
use std::test::Fail;

/// More rounds than any guest is awake in.
const ROUNDS: u64 = 100;

/// The bytes that a link gives: an input, and then a number of unspecified bytes.
#[derive(Drop)]
pub(crate) struct Arrivals<'a> {
    pub(crate) input: &'a [u8],
    pub(crate) more: usize,
}

impl<'a> Arrivals<'a> {
    /// Gives as many bytes as fit, and returns how many: 0 if there are none.
    ///
    /// One call gives bytes of the input, or those behind it.
    pub(crate) fn give(&mut self, piece: &mut [u8]) -> usize
        ensures { result ≤ length piece.new }
    {
        let count = piece.len().min(self.input.len());
        if count == 0 {
            let more = piece.len().min(self.more);
            self.more -= more;
            return more;
        }
        let (front, rest) = self.input.split_at(count);
        let (room, _) = piece.split_at_mut(count);
        room.copy_from_slice(front);
        self.input = rest;
        count
    }
}

/// Sets `a` to an item of this length.
fn set_a(store: &mut Counting, alloc: Global, length: usize) -> Result<(), Fail> {
    let block = filled_block(alloc, length)?;
    let step = step_of(b"a", Ask::Store(Verb::Set, 0, block.as_slice()));
    let now = Moment::from_seconds_at_most(1000);
    let _ = ask_step(&mut store.store, alloc, &step, now)?;
    Ok(())
}

/// Returns a store with an item `a` of this length, or without an item if that is 0.
pub(crate) fn store_with(alloc: Global, length: usize) -> Result<Counting, Fail> {
    let mut store = Counting::new(alloc, false)?;
    if length > 0 {
        set_a(&mut store, alloc, length)?;
    }
    Ok(store)
}

/// Guests, their store, and how many ended.
#[derive(Drop)]
pub(crate) struct HallOf<L: Link + Drop> {
    pub(crate) guests: Guests<L>,
    pub(crate) store: Counting,
    pub(crate) end: WorkEnd,
}

impl<L: Link + Drop> HallOf<L> {
    /// Makes a hall without guests, and with a budget of `share` bytes.
    pub(crate) fn new(alloc: Global, store: Counting, share: usize) -> HallOf<L> {
        HallOf {
            guests: Guests::new(alloc, Budget::new(share, GREATEST)),
            store,
            end: WorkEnd {
                served: 0,
                broken: 0,
                refused: 0,
            },
        }
    }

    /// Makes a round.
    pub(crate) fn go_once(&mut self, alloc: Global) {
        let now = Moment::from_seconds_at_most(1000);
        self.guests.visit_all(alloc, &mut self.store, now);
        self.guests.settle(&mut self.end);
    }

    /// Makes rounds until no guest is awake.
    fn go_round(&mut self, alloc: Global) {
        for _round in 0..ROUNDS {
            if self.guests.is_quiet() {
                return;
            }
            self.go_once(alloc);
        }
    }

    /// Admits a guest whose link has this number.
    pub(crate) fn admit(&mut self, alloc: Global, number: u64, link: L) -> Result<(), AllocError> {
        if self.guests.welcome(alloc, link, GREATEST, number) {
            Ok(())
        } else {
            Err(AllocError)
        }
    }

    /// Admits a guest, makes rounds, and returns how many guests wait.
    pub(crate) fn let_in(
        &mut self,
        alloc: Global,
        number: u64,
        link: L,
    ) -> Result<usize, AllocError> {
        self.admit(alloc, number, link)?;
        self.go_round(alloc);
        Ok(self.guests.waiting_guests())
    }

    /// Names a link that has ended, makes rounds, and returns how many guests wait.
    pub(crate) fn let_go(&mut self, alloc: Global, number: u64) -> usize {
        self.guests.wake(number);
        self.go_round(alloc);
        self.guests.waiting_guests()
    }
}
