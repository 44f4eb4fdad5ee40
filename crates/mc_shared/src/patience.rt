//! How a bay is taken that another caller may hold: by one try, or by waiting.
//!
//! `Once` returns the bay that is held. `Waiting` looks for about 15 microseconds, then sleeps 50
//! microseconds at a time, and after 64 sleeps 1 ms. Yielding instead gave the processor away for
//! milliseconds. Nobody wakes a waiter: each step would have to look for one.
ghost use Rattle.std.specs.Prelude.{◌≡◌, ◌≤◌, None, IfSome};
ghost use Rattle.mc_shared.specs.Steps.{HasTaken};
ghost use Rattle.mc_shared.specs.Seats.{SameSeat, IsBoard, LivesAt, shelves_at, start_at};

use crate::bay::Bay;
use crate::rule::{Board, Seat};
use crate::steps::{place_of, take};
use mc_hop::KeyHash;
use std::convert::Infallible;
use std::hint;
use std::sync::Wait;
use std::time::Duration;

/// The number of looks at a held bay before a waiter sleeps.
const LOOKS: u32 = 10;

/// How often the pause between two looks doubles. The longest is 64 spins.
const DOUBLINGS: u32 = 6;

/// The number of short sleeps before longer ones.
const SHORT_TURNS: u32 = 64;

/// A hook for tests, called once while a step holds its shelf. The program uses [`NoGate`].
pub trait Gate {
    /// Runs while a step's shelf, counted from 0, is held: other callers wait for the shelf.
    fn inside(&self, shelf: u32);
}

/// A gate that does nothing.
pub struct NoGate;

impl Gate for NoGate {
    fn inside(&self, _shelf: u32) {}
}

/// How a bay is taken. `B` is the error if another caller holds it.
pub(crate) trait Patience<B> {
    ghost use Rattle.std.specs.Prelude.{◌≡◌, ◌≤◌, ℕ, IfOk, IfErr};
    ghost use Rattle.mc_shared.specs.Past.{Past};
    ghost use Rattle.mc_shared.specs.Rule.{times};
    ghost use Rattle.mc_shared.specs.Steps.{HasTaken, Agrees};
    ghost use Rattle.mc_shared.specs.Seats.{SameSeat, LivesAt, shelves_at, start_at};

    /// The error of a bay that the caller with this past doesn't hold itself.
    ghost busy: { Past → ℕ → B → Type 0 };

    /// Takes a bay, or returns an error if another caller holds it.
    fn take<K: KeyHash + Drop>(
        &self,
        board: &Board<K>,
        seat: &mut Seat,
        bay: usize,
    ) -> Result<Bay, B>
        requires seat { LivesAt board.now seat.old }
        requires bay { bay ≤ shelves_at board.now }
        ensures seat { SameSeat seat.old seat.new }
        ensures ok { IfOk result (λ x. HasTaken (start_at K.hash_of board.now)
            seat.old.me bay x seat.new.me) }
        ensures err { IfErr result (λ told. (seat.new.me ≡ seat.old.me)
            × (times bay seat.old.me.0 ≡ 0 → busy seat.old.me.0.past bay told)
            × Agrees (start_at K.hash_of board.now) seat.old.me.0.past) };

    /// Returns whether a bay that was taken and given back is taken again.
    fn comes_again(&self) -> bool;

    /// Called once while a step's shelf is held.
    fn inside(&self, shelf: u32);
}

/// A bay that another caller holds: its word was odd.
#[derive(Drop)]
pub(crate) struct Busy {
    pub(crate) bay: usize,
    pub(crate) word: u64,
}

/// Tries once and never waits.
#[derive(Drop)]
pub(crate) struct Once;

impl Patience<Busy> for Once {
    ghost use Rattle.mc_shared.specs.Holds.{IsBusyTo};

    ghost busy = { IsBusyTo };

    fn take<K: KeyHash + Drop>(
        &self,
        board: &Board<K>,
        seat: &mut Seat,
        bay: usize,
    ) -> Result<Bay, Busy> {
        match take(board, seat, bay) {
            Ok(value) => Ok(value),
            Err(word) => Err(Busy { bay, word }),
        }
    }

    fn comes_again(&self) -> bool {
        false
    }

    fn inside(&self, _shelf: u32) {}
}

/// Waits for other callers, by the right to wait, and has a gate.
#[derive(Drop)]
pub(crate) struct Waiting<'a, R: Wait, G: Gate> {
    pub(crate) rt: &'a R,
    pub(crate) gate: &'a G,
}

impl<'a, R: Wait, G: Gate> Patience<Infallible> for Waiting<'a, R, G> {
    ghost busy = { λ _ _ _. ⊥ };

    fn take<K: KeyHash + Drop>(
        &self,
        board: &Board<K>,
        seat: &mut Seat,
        bay: usize,
    ) -> Result<Bay, Infallible> {
        Ok(take_waiting(self.rt, board, seat, bay))
    }

    fn comes_again(&self) -> bool {
        true
    }

    fn inside(&self, shelf: u32) {
        self.gate.inside(shelf);
    }
}

/// Spins `count` times.
fn pause(count: u32) {
    for _ in 0..count {
        hint::spin_loop();
    }
}

/// Tries to take a bay, first at once and then after growing pauses.
///
/// Most bays are free, or are given back soon. Between tries it only loads the word, which leaves
/// the cache line with the holder.
fn take_spinning<K: KeyHash + Drop>(board: &Board<K>, seat: &mut Seat, bay: usize) -> Option<Bay>
    requires seat { LivesAt board.now seat.old }
    requires bay { bay ≤ shelves_at board.now }
    ensures seat { SameSeat seat.old seat.new }
    ensures taken { IfSome result (λ value. HasTaken
        (start_at K.hash_of board.now) seat.old.me bay value seat.new.me) }
    ensures free { result ≡ None → seat.new.me ≡ seat.old.me }
{
    if let Ok(value) = take(board, seat, bay) {
        return Some(value);
    }
    let place = place_of(board, bay);
    for look in 0..LOOKS {
        pause(1 << look.min(DOUBLINGS));
        if board.shared.peek(place) == 0 {
            if let Ok(value) = take(board, seat, bay) {
                return Some(value);
            }
        }
    }
    None
}

/// Sleeps for at most 50 microseconds, or for a millisecond after many turns.
///
/// So a bay that is held for long, as in a flush, costs no core.
// `yield_now` returns only after the other threads used up their time slices, which takes
// milliseconds if there are more threads than processors. A thread that slept runs at once.
fn stand_aside<K: KeyHash + Drop, R: Wait>(rt: &R, board: &Board<K>, bay: usize, turns: u32)
    requires table { IsBoard board.now }
    requires bay { bay ≤ shelves_at board.now }
{
    let longest = if turns < SHORT_TURNS {
        Duration::from_micros(50)
    } else {
        Duration::from_millis(1)
    };
    let place = place_of(board, bay);
    board.shared.park_timeout(rt, place, 1, longest);
}

/// Takes a bay, and tries again until it is free.
pub(crate) fn take_waiting<K: KeyHash + Drop, R: Wait>(
    rt: &R,
    board: &Board<K>,
    seat: &mut Seat,
    bay: usize,
) -> Bay
    requires seat { LivesAt board.now seat.old }
    requires bay { bay ≤ shelves_at board.now }
    ensures seat { SameSeat seat.old seat.new }
    ensures taken { HasTaken (start_at K.hash_of board.now) seat.old.me bay
        result seat.new.me }
{
    let mut turns: u32 = 0;
    for _ in rt.forever() {
        if let Some(value) = take_spinning(board, seat, bay) {
            return value;
        }
        stand_aside(rt, board, bay, turns);
        turns = turns.saturating_add(1);
    }
    unreachable!()
}
