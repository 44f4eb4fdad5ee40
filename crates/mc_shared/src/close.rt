//! Closing the store.
ghost use Rattle.std.specs.Prelude.{◌≡◌, ◌<◌, ◌≤◌, [], ℕ, vec_len, vec_capacity, IfOk, IfErr, Err};
ghost use Rattle.mc_shared.specs.Shown.{SharedState, CallerState};
ghost use Rattle.mc_shared.specs.History.{start_of};
ghost use Rattle.mc_shared.specs.Past.{Whole};
ghost use Rattle.mc_shared.specs.Seats.{RestsAt, shelves_at, start_at};
ghost use Rattle.mc_shared.specs.Close.{Gathered, IsAfter};

use crate::boxed::Boxed;
use crate::hold::{desk_at, take_all};
use crate::patience::{Busy, Once};
use crate::rule::{Board, Seat};
use crate::store::{Caller, Shared};
use mc_hop::KeyHash;
use mc_shelf::{Desk, Shelf, Store, StoreParts};
use std::alloc::Global;

/// Why a store wasn't closed.
#[derive(Drop)]
pub enum CloseFault<K: KeyHash + Drop> {
    /// An allocation was refused. Both are unchanged.
    NoMemory(Shared<K>, Caller),
    /// The bay was held: its word was odd. The store is dropped.
    Held { bay: usize, word: u64 },
}

/// Takes all shelves and the desk, or returns the bay that was held and its word.
fn gather<K: KeyHash + Drop>(
    board: &Board<K>,
    seat: &mut Seat,
    room: Vec<Boxed<Shelf>>,
    count: usize,
) -> Result<(Vec<Boxed<Shelf>>, Desk), Busy>
    requires seat { RestsAt board.now seat.old }
    requires count { count ≡ shelves_at board.now }
    requires some_shelf { 0 < shelves_at board.now }
    requires room { (room.items ≡ []) × (count ≤ vec_capacity room) }
    ensures ok { IfOk result (λ r. (vec_len r.0 ≡ count)
        × Gathered (start_at K.hash_of board.now) seat.old.me.0.past r.0.items r.1) }
    ensures err { IfErr result (λ busy. (busy.word ≡ 1) × (Whole seat.old.me.0.past → ⊥)
        × (busy.bay ≤ count)) }
{
    let held = match take_all(&Once, board, seat, room, count) {
        Ok(held) => held,
        Err(busy) => return Err(busy),
    };
    match desk_at(&Once, board, seat, count) {
        Ok(desk) => Ok((held, Box::into_inner(desk))),
        Err(busy) => Err(busy),
    }
}

/// Takes shelves out of their boxes, in order.
fn unboxed(boxes: Vec<Boxed<Shelf>>, room: Vec<Shelf>) -> Vec<Shelf>
    requires { (room.items ≡ []) × (vec_len boxes ≤ vec_capacity room) }
    ensures { result.items ≡ boxes.items }
{
    let mut shelves = room;
    for shelf in boxes {
        shelves.push_reserved(Box::into_inner(shelf.into_box()));
    }
    shelves
}

impl<K: KeyHash + Drop> Shared<K> {
    /// Closes the store, and returns a store of one thread.
    ///
    /// Its state is that after a legal history that keeps the caller's past. It doesn't wait for
    /// other callers: if one holds a bay, the error is `Held`.
    pub fn close(self, alloc: Global, caller: Caller) -> Result<Store<K>, CloseFault<K>>
        requires { caller.table ≡ self.table }
        ensures set_up { IfOk result (λ store. (store.settings ≡ self.began.settings)
            × (store.hasher ≡ self.began.hasher)) }
        ensures state { IfOk result (λ store. IsAfter (start_of K.hash_of self.began) caller.past
            store.plain) }
        ensures held { (bay word : ℕ) → result ≡ Err (CloseFault.Held bay word) → (word ≡ 1)
            × (Whole caller.past → ⊥) × (bay ≤ self.began.settings.shelves) }
        ensures refused { (shared : SharedState K) (back : CallerState)
            → result ≡ Err (CloseFault.NoMemory shared back) → (shared ≡ self) × (back ≡ caller) }
    {
        let count = self.settings.shelves as usize;
        let Ok(room) = Vec::with_capacity(alloc, count) else {
            return Err(CloseFault::NoMemory(self, caller));
        };
        let Ok(shelves) = Vec::with_capacity(alloc, count) else {
            return Err(CloseFault::NoMemory(self, caller));
        };
        let Shared {
            board,
            settings,
            hasher,
            ..
        } = self;
        let Caller { mut seat, .. } = caller;
        match gather(&board, &mut seat, room, count) {
            Ok((held, desk)) => Ok(Store::from_parts(StoreParts {
                settings,
                hasher,
                shelves: unboxed(held, shelves),
                desk,
            })),
            Err(Busy { bay, word }) => Err(CloseFault::Held { bay, word }),
        }
    }
}
