//! The atomic steps: taking and giving back a bay, and changing and reading a presence word.
//!
//! A step on a word is called at `Brand`, and the proof of the call picks the relation that holds
//! of it. A pick reads the call's parameters alone, so `free_as` and `load_as` have parameters that
//! their bodies don't read.
ghost use Rattle.std.specs.Prelude.{◌≡◌, ◌*◌, ◌/◌, ◌%◌, ◌<◌, ◌≤◌, ℕ, List, ◌++◌, ◌==◌, true, false};
ghost use Rattle.std.specs.Prelude.{IfOk, IfErr, replicate};
ghost use Rattle.mc_shelf.specs.Numbers.{numbers};
ghost use Rattle.mc_shared.specs.Bays.{content_of, place};
ghost use Rattle.mc_shared.specs.Decisions.{operation_of, still_of, surplus_of};
ghost use Rattle.mc_shared.specs.Presence.{word_of, words_with};
ghost use Rattle.mc_shared.specs.Steps.{without, loaded, MayAdd, Agrees, Fitted, HoldsThis};
ghost use Rattle.mc_shared.specs.Steps.{HasTaken, HasDecided, IsBusy};
ghost use Rattle.mc_shared.specs.Seats.{SameSeat, IsBoard, SitsAt, LivesAt, MayDecideAt, IsWord};
ghost use Rattle.mc_shared.specs.Seats.{MayPlay, shelves_at, start_at, step_at};
ghost use prog.Atomic.{either};

use crate::bay::Bay;
use crate::decision::Decision;
use crate::rule::{Board, Seat};
use crate::view::View;
use atomic_table::Play;
use mc_hop::KeyHash;
use mc_shelf::NUMBERS;
use mc_time::Moment;
use std::marker::Brand;

/// Words and slots from one bay to the next, so that no two bays share a cache line.
pub(crate) const APART: usize = 8;

/// Returns the place of a bay in the table.
pub(crate) fn place_of<K: KeyHash + Drop>(board: &Board<K>, bay: usize) -> usize
    requires table { IsBoard board.now }
    requires bay { bay ≤ shelves_at board.now }
    ensures place { result ≡ place bay }
    ensures back { result / 8 ≡ bay }
    ensures inside { IsWord board.now result }
{
    // for the proof: how many words the table has
    let _words = board.word_count();
    bay * APART
}

/// Returns the place of a number's word in a table with this many shelves.
pub(crate) fn word_in(shelves: usize, number: usize) -> usize
    requires divides { numbers / shelves * shelves ≡ numbers }
    requires number { number < numbers }
    ensures word { result ≡ word_of shelves number }
    ensures inside { result < words_with shelves }
{
    (shelves + 1) * APART + number % shelves * (NUMBERS / shelves + APART) + number / shelves
}

/// Takes a bay, if it is free.
pub fn take<K: KeyHash + Drop>(board: &Board<K>, seat: &mut Seat, bay: usize) -> Result<Bay, u64>
    requires seat { LivesAt board.now seat.old }
    requires bay { bay ≤ shelves_at board.now }
    ensures seat { SameSeat seat.old seat.new }
    ensures ok { IfOk result (λ x. HasTaken (start_at K.hash_of board.now)
        seat.old.me bay x seat.new.me) }
    ensures err { IfErr result (λ word. IsBusy (start_at K.hash_of board.now)
        seat.old.me bay word seat.new.me) }
{
    let place = place_of(board, bay);
    let word = board.shared.compare_exchange::<Brand>(seat, place, 0, 1);
    if word != 0 {
        return Err(word);
    }
    match board.shared.exchange(seat, place, None) {
        Some(value) => Ok(value),
        None => unreachable!(),
    }
}

/// Gives back the bay that was taken last, unchanged.
pub fn give<K: KeyHash + Drop>(board: &Board<K>, seat: &mut Seat, bay: usize, value: Bay)
    requires seat { SitsAt board.now seat.old }
    requires bay { bay ≤ shelves_at board.now }
    requires held { HoldsThis seat.old.me bay (content_of value) }
    ensures seat { SameSeat seat.old seat.new }
    ensures view { (seat.new.me ≡ without seat.old.me)
        × Fitted (start_at K.hash_of board.now) seat.old.me.0 }
{
    let place = place_of(board, bay);
    board.shared.exchange(seat, place, Some(value));
    board.shared.store::<Brand>(seat, place, 0);
}

/// Frees a bay's word, as `M` has it for a decision. Returns the word as it was.
fn free_as<M: Play<Option<Bay>, View>, K: KeyHash + Drop>(
    board: &Board<K>,
    seat: &mut Seat,
    place: usize,
    _decision: &Decision<'_>,
) -> u64
    requires { MayPlay K.hash_of board.now seat.old place (λ n. either (n == 1) 0 n)
        (M.then (step_at board.now place 1 0) seat.old.me) }
    ensures seat { SameSeat seat.old seat.new }
    ensures then { M.then (step_at board.now place 1 0) seat.old.me result seat.new.me }
{
    board.shared.compare_exchange::<M>(seat, place, 1, 0)
}

/// Gives back the bay that was taken last, with a decision.
pub(crate) fn decide<K: KeyHash + Drop>(
    board: &Board<K>,
    seat: &mut Seat,
    bay: usize,
    value: Bay,
    decision: &Decision<'_>,
)
    requires { MayDecideAt board.now seat.old bay
        (start_at K.hash_of board.now) (content_of value)
        (operation_of decision.now) (still_of decision.now)
        (surplus_of (start_at K.hash_of board.now) decision.now) }
    ensures seat { SameSeat seat.old seat.new }
    ensures view { HasDecided (start_at K.hash_of board.now) seat.old.me
        (operation_of decision.now) (still_of decision.now)
        (surplus_of (start_at K.hash_of board.now) decision.now) seat.new.me }
{
    let place = place_of(board, bay);
    board.shared.exchange(seat, place, Some(value));
    free_as::<Brand, K>(board, seat, place, decision);
}

/// Loads a word and changes nothing. So there is a history that keeps the caller's past.
pub fn reload<K: KeyHash + Drop>(board: &Board<K>, seat: &mut Seat)
    requires { SitsAt board.now seat.old }
    ensures seat { SameSeat seat.old seat.new }
    ensures view { (seat.new.me ≡ seat.old.me) × Agrees
        (start_at K.hash_of board.now) seat.old.me.0.past }
{
    board.shared.load::<Brand>(seat, 0);
}

/// Adds one to the word of a number if a key with it is inserted. Returns how many it added.
pub(crate) fn raise_for<K: KeyHash + Drop>(
    board: &Board<K>,
    seat: &mut Seat,
    shelves: usize,
    number: usize,
    comes: bool,
) -> usize
    requires seat { SitsAt board.now seat.old }
    requires shelves { shelves ≡ shelves_at board.now }
    requires may { MayAdd (start_at K.hash_of board.now) seat.old.me.0 number }
    ensures seat { SameSeat seat.old seat.new }
    ensures view { seat.new.me ≡ loaded seat.old.me (replicate result (word_of shelves number)) }
    ensures one { (comes ≡ true → result ≡ 1) × (result ≤ 1) }
    ensures none { comes ≡ false → result ≡ 0 }
{
    if comes {
        let word = word_in(shelves, number);
        board.shared.fetch_add::<Brand>(seat, word, 1);
        return 1;
    }
    0
}

/// Subtracts `count` from the word of a number in one atomic step, or in none if it is 0.
///
/// The surplus must begin with the word, `count` times.
pub fn lower_all<K: KeyHash + Drop>(
    board: &Board<K>,
    seat: &mut Seat,
    shelves: usize,
    number: usize,
    count: usize,
)
    requires seat { SitsAt board.now seat.old }
    requires shelves { shelves ≡ shelves_at board.now }
    requires number { number < numbers }
    requires named { (more : List ℕ)
        × (seat.old.me.0.surplus ≡ replicate count (word_of shelves number) ++ more) }
    ensures seat { SameSeat seat.old seat.new }
    ensures view { (more : List ℕ)
        → seat.old.me.0.surplus ≡ replicate count (word_of shelves number) ++ more
        → seat.new.me ≡ loaded seat.old.me more }
{
    if count > 0 {
        let word = word_in(shelves, number);
        board.shared.fetch_sub::<Brand>(seat, word, count as u64);
    }
}

/// Loads a word, as `M` has it for a key and a moment.
pub(crate) fn load_as<M: Play<Option<Bay>, View>, K: KeyHash + Drop>(
    board: &Board<K>,
    seat: &mut Seat,
    word: usize,
    _key: &[u8],
    _now: Moment,
) -> u64
    requires { MayPlay K.hash_of board.now seat.old word (λ n. n)
        (M.then (step_at board.now word 0 0) seat.old.me) }
    ensures seat { SameSeat seat.old seat.new }
    ensures then { M.then (step_at board.now word 0 0) seat.old.me result seat.new.me }
{
    board.shared.load::<M>(seat, word)
}
