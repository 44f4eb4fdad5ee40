//! Bays that are held for a caller: a shelf, a shelf and the desk, or all shelves.
//!
//! Each call here borrows the caller's seat. Contracts state in one record what the seat holds:
//! `HoldsShelf`, `HoldsBoth`, or `holds_all`. No other file takes a bay.
ghost use Rattle.std.specs.Prelude.{◌≡◌, ◌<◌, ◌≤◌, ℕ, [], vec_len, vec_capacity};
ghost use Rattle.std.specs.Prelude.{IfOk, IfErr, OnErr};
ghost use Rattle.mc_shared.specs.History.{start_of};
ghost use Rattle.mc_shared.specs.Steps.{Agrees, HasTaken};
ghost use Rattle.mc_shelf.specs.States.{ShelfContent};
ghost use Rattle.mc_shared.specs.Rule.{times};
ghost use Rattle.mc_shared.specs.Store.{resting};
ghost use Rattle.mc_shared.specs.Seats.{SameSeat, IsFree, LivesAt, Rests, RestsAt, SitsAt};
ghost use Rattle.mc_shared.specs.Seats.{shelves_at, start_at};
ghost use Rattle.mc_shared.specs.Holds.{HoldsBoth, HoldsShelf, HoldsSome, KeepsShelf, TakesDesk};
ghost use Rattle.mc_shared.specs.Stacks.{holds_all};
ghost use Rattle.mc_shared.specs.declared.bay.Bay.{Bay as Held};

use crate::bay::Bay;
use crate::boxed::Boxed;
use crate::patience::{NoGate, Patience, Waiting};
use crate::rule::{Board, Seat};
use crate::steps::give;
use crate::store::Shared;
use mc_hop::KeyHash;
use mc_shelf::{Desk, Shelf};
use std::sync::Wait;

/// Takes the desk out of its bay, or returns an error if another caller holds it.
pub(crate) fn desk_at<B: Drop, P: Patience<B>, K: KeyHash + Drop>(
    patience: &P,
    board: &Board<K>,
    seat: &mut Seat,
    shelves: usize,
) -> Result<Box<Desk>, B>
    requires seat { LivesAt board.now seat.old }
    requires shelves { shelves ≡ shelves_at board.now }
    ensures seat { SameSeat seat.old seat.new }
    ensures ok { IfOk result (λ desk. HasTaken (start_at K.hash_of board.now) seat.old.me shelves
        (Held.Desk desk.value) seat.new.me) }
    ensures err { IfErr result (λ told. (seat.new.me ≡ seat.old.me)
        × (times shelves seat.old.me.0 ≡ 0 → P.busy seat.old.me.0.past shelves told)
        × Agrees (start_at K.hash_of board.now) seat.old.me.0.past) }
{
    match patience.take(board, seat, shelves) {
        Ok(Bay::Desk(desk)) => Ok(desk.into_box()),
        Ok(Bay::Shelf(_)) => unreachable!(),
        Err(told) => Err(told),
    }
}

impl<K: KeyHash + Drop> Shared<K> {
    /// Takes a shelf for a seat that holds nothing.
    ///
    /// If another caller holds the shelf, the seat holds nothing afterwards too.
    pub(crate) fn take_shelf<B: Drop, P: Patience<B>>(
        &self,
        patience: &P,
        seat: &mut Seat,
        at: u32,
    ) -> Result<Box<Shelf>, B>
        requires own { seat.old.table_id ≡ self.now.table }
        requires free { Rests seat.old.me }
        requires inside { at < self.now.began.settings.shelves }
        ensures ok { IfOk result (λ shelf. HoldsShelf K.hash_of self.now seat.new at
            shelf.value.content) }
        ensures past { seat.new.me.0.past ≡ seat.old.me.0.past }
        ensures err { IfErr result (λ told. IsFree self.now.table self.now.began seat.new
            × P.busy seat.old.me.0.past at told
            × Agrees (start_of K.hash_of self.now.began) seat.old.me.0.past) }
    {
        match patience.take(&self.board, seat, at as usize) {
            Ok(Bay::Shelf(shelf)) => Ok(shelf.into_box()),
            Ok(Bay::Desk(_)) => unreachable!(),
            Err(told) => Err(told),
        }
    }

    /// Takes a shelf for a seat that holds nothing, and waits until it is free.
    pub(crate) fn wait_for_shelf<R: Wait>(&self, rt: &R, seat: &mut Seat, at: u32) -> Box<Shelf>
        requires own { seat.old.table_id ≡ self.now.table }
        requires free { Rests seat.old.me }
        requires inside { at < self.now.began.settings.shelves }
        ensures holds { HoldsShelf K.hash_of self.now seat.new at result.value.content }
        ensures past { seat.new.me.0.past ≡ seat.old.me.0.past }
    {
        match self.take_shelf(&Waiting { rt, gate: &NoGate }, seat, at) {
            Ok(shelf) => shelf,
            Err(never) => match never {},
        }
    }

    /// Gives a shelf back unchanged.
    pub(crate) fn give_shelf(&self, seat: &mut Seat, shelf: Box<Shelf>, at: u32)
        requires { HoldsShelf K.hash_of self.now seat.old at shelf.value.content }
        ensures free { IsFree self.now.table self.now.began seat.new }
        ensures past { seat.new.me.0.past ≡ seat.old.me.0.past }
        ensures agrees { Agrees (start_of K.hash_of self.now.began) seat.new.me.0.past }
    {
        let value = Bay::Shelf(Boxed::of(shelf));
        give(&self.board, seat, at as usize, value);
    }

    /// Takes the desk for a seat that holds a shelf.
    ///
    /// If another caller holds the desk, the seat holds the shelf alone.
    pub(crate) fn take_desk<B: Drop, P: Patience<B>>(
        &self,
        patience: &P,
        seat: &mut Seat,
    ) -> Result<Box<Desk>, B>
        requires { HoldsSome K.hash_of self.now seat.old }
        ensures past { seat.new.me.0.past ≡ seat.old.me.0.past }
        ensures ok { IfOk result (λ desk.
            TakesDesk K.hash_of self.now seat.old seat.new desk.value) }
        ensures err { IfErr result (P.busy seat.old.me.0.past self.now.began.settings.shelves) }
        ensures stays { OnErr result (KeepsShelf K.hash_of self.now seat.old seat.new) }
    {
        match desk_at(patience, &self.board, seat, self.settings.shelves as usize) {
            Ok(desk) => Ok(desk),
            Err(told) => Err(told),
        }
    }

    /// Takes the desk for a seat that holds a shelf, and waits until it is free.
    pub(crate) fn wait_for_desk<R: Wait>(&self, rt: &R, seat: &mut Seat) -> Box<Desk>
        requires { HoldsSome K.hash_of self.now seat.old }
        ensures past { seat.new.me.0.past ≡ seat.old.me.0.past }
        ensures holds { TakesDesk K.hash_of self.now seat.old seat.new result.value }
    {
        match self.take_desk(&Waiting { rt, gate: &NoGate }, seat) {
            Ok(desk) => desk,
            Err(never) => match never {},
        }
    }

    /// Gives the desk back unchanged. The shelf stays held.
    pub(crate) fn give_desk(&self, seat: &mut Seat, desk: Box<Desk>)
        requires { (at : ℕ) × (shelf : ShelfContent)
            × HoldsBoth K.hash_of self.now seat.old at shelf desk.value }
        ensures past { seat.new.me.0.past ≡ seat.old.me.0.past }
        ensures holds { (at : ℕ) (shelf : ShelfContent) →
            HoldsBoth K.hash_of self.now seat.old at shelf desk.value →
            HoldsShelf K.hash_of self.now seat.new at shelf }
    {
        let value = Bay::Desk(Boxed::of(desk));
        give(&self.board, seat, self.settings.shelves as usize, value);
    }
}

/// Takes all shelves, in rising order, for a seat that holds nothing.
///
/// The error is that of the first shelf that another caller holds.
pub(crate) fn take_all<B: Drop, P: Patience<B>, K: KeyHash + Drop>(
    patience: &P,
    board: &Board<K>,
    seat: &mut Seat,
    room: Vec<Boxed<Shelf>>,
    count: usize,
) -> Result<Vec<Boxed<Shelf>>, B>
    requires seat { RestsAt board.now seat.old }
    requires count { count ≡ shelves_at board.now }
    requires room { (room.items ≡ []) × (count ≤ vec_capacity room) }
    ensures seat { SameSeat seat.old seat.new }
    ensures ok { IfOk result (λ held. (vec_len held ≡ count)
        × (seat.new.me ≡ holds_all seat.old.me.0.past held.items)) }
    ensures err { IfErr result (λ told.
        (at : ℕ) × (at ≤ count) × P.busy seat.old.me.0.past at told) }
{
    let mut held = room;
    while held.len() < count {
        let at = held.len();
        match patience.take(board, seat, at) {
            Ok(Bay::Shelf(shelf)) => held.push_reserved(shelf),
            Ok(Bay::Desk(_)) => unreachable!(),
            Err(told) => return Err(told),
        }
    }
    Ok(held)
}

/// Gives all shelves back, the last one first.
pub(crate) fn give_all<K: KeyHash + Drop>(
    board: &Board<K>,
    seat: &mut Seat,
    mut held: Vec<Boxed<Shelf>>,
)
    requires seat { SitsAt board.now seat.old }
    requires count { vec_len held ≤ shelves_at board.now }
    requires held { seat.old.me ≡ holds_all seat.old.me.0.past held.items }
    ensures { SameSeat seat.old seat.new
        × (seat.new.me ≡ resting seat.old.me.0.past) }
{
    while let Some(shelf) = held.pop() {
        let at = held.len();
        give(board, seat, at, Bay::Shelf(shelf));
    }
}
