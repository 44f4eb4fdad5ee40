//! Counts of keys by number, and changes of many presence words at once.
ghost use Rattle.std.specs.Prelude.{◌≡◌, ◌*◌, ◌/◌, ◌-◌, ◌%◌, ◌<◌, ℕ, List, []};
ghost use Rattle.std.specs.Prelude.{length, slice_index, true, false};
ghost use Rattle.mc_protocol.specs.Plain.{Plain, flushed};
ghost use Rattle.mc_shelf.specs.Numbers.{numbers};
ghost use Rattle.mc_shared.specs.Counted.{AreNone, AreCountsOf, AreAllOf, AreCountsOfAll};
ghost use Rattle.mc_shared.specs.Counted.{AreKeyCounts, AreCountsLeft};
ghost use Rattle.mc_shared.specs.Seats.{SameSeat, SitsAt, shelves_at, start_at};
ghost use Rattle.mc_shared.specs.Spread.{spread};
ghost use Rattle.mc_shared.specs.Steps.{loaded, MayCount};

use crate::boxed::Boxed;
use crate::rule::{Board, Seat};
use crate::steps::{lower_all, word_in};
use mc_hop::KeyHash;
use mc_shelf::{NUMBERS, Shelf};
use std::marker::Brand;

/// Returns 0 for each number.
fn no_counts() -> [u64; NUMBERS]
    ensures { AreNone result }
{
    [0; NUMBERS]
}

/// Counts a shelf's keys of each number. It costs one pass over its items.
pub(crate) fn count_shelf(shelf: &Shelf) -> [u64; NUMBERS]
    ensures { AreCountsOf shelf.now.content result }
{
    let mut counts = no_counts();
    shelf.count_numbers(&mut counts);
    counts
}

/// Counts the keys of each number of all shelves of a state. It costs one pass over all items.
pub(crate) fn count_shelves(shelves: &[Shelf]) -> [u64; NUMBERS]
    requires { (hash_of : List ℕ → ℕ) × (state : Plain) × AreAllOf hash_of state shelves.now }
    ensures { AreCountsOfAll shelves.now result }
{
    let mut counts = no_counts();
    for shelf in shelves {
        shelf.count_numbers(&mut counts);
    }
    counts
}

/// Counts the same for boxed shelves.
pub(crate) fn count_boxes(shelves: &[Boxed<Shelf>]) -> [u64; NUMBERS]
    requires { (hash_of : List ℕ → ℕ) × (state : Plain) × AreAllOf hash_of state shelves.now }
    ensures { AreCountsOfAll shelves.now result }
{
    let mut counts = no_counts();
    for shelf in shelves {
        shelf.inner.count_numbers(&mut counts);
    }
    counts
}

/// Counts the keys of each number after a flush with this delay.
///
/// If all items stayed, there are as many as before. Without a delay there are none. Neither reads
/// an item; otherwise it costs one pass over all items.
pub(crate) fn count_left(
    shelves: &[Boxed<Shelf>],
    delay: u64,
    stay: bool,
    before: &[u64; NUMBERS],
) -> [u64; NUMBERS]
    requires { (hash_of : List ℕ → ℕ) × (state : Plain) × (now : ℕ)
        × AreAllOf hash_of (flushed delay state now) shelves.now }
    ensures same { stay ≡ true → result ≡ before.now }
    ensures left { stay ≡ false → AreCountsLeft delay shelves.now result }
{
    if stay {
        return *before;
    }
    if delay == 0 {
        return no_counts();
    }
    count_boxes(shelves)
}

/// Returns how many keys have each number that is `at` modulo `step`, and 0 for the others.
///
/// It loads these numbers' words; their shelves must be held.
pub(crate) fn count_words<K: KeyHash + Drop>(
    board: &Board<K>,
    seat: &mut Seat,
    shelves: usize,
    step: usize,
    at: usize,
) -> [u64; NUMBERS]
    requires seat { SitsAt board.now seat.old }
    requires shelves { shelves ≡ shelves_at board.now }
    requires step { numbers / step * step ≡ numbers }
    requires inside { at < step }
    requires may { (number : ℕ) → number < numbers → number % step ≡ at → MayCount
        (start_at K.hash_of board.now) seat.old.me.0 number }
    ensures seat { SameSeat seat.old seat.new }
    ensures same { seat.new.me ≡ seat.old.me }
    ensures keys { AreKeyCounts (start_at K.hash_of board.now) seat.old.me.0 step at result }
{
    let mut counts = no_counts();
    for row in 0..NUMBERS / step {
        let number = row * step + at;
        let word = word_in(shelves, number);
        counts[number] = board.shared.load::<Brand>(seat, word);
    }
    counts
}

/// Lowers the words of all numbers by the keys that were removed.
///
/// It costs a comparison for each number, and one atomic step for each number with removed keys.
pub(crate) fn lower_words<K: KeyHash + Drop>(
    board: &Board<K>,
    seat: &mut Seat,
    shelves: usize,
    before: &[u64],
    after: &[u64],
)
    requires seat { SitsAt board.now seat.old }
    requires shelves { shelves ≡ shelves_at board.now }
    requires many { (length before.now ≡ numbers) × (length after.now ≡ numbers) }
    requires named { seat.old.me.0.surplus ≡ spread shelves
        (λ n. slice_index before.now n - slice_index after.now n) 0 numbers }
    ensures seat { SameSeat seat.old seat.new }
    ensures view { seat.new.me ≡ loaded seat.old.me [] }
{
    for number in 0..NUMBERS {
        let gone = before[number].saturating_sub(after[number]);
        lower_all(board, seat, shelves, number, gone as usize);
    }
}
