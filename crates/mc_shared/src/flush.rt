//! Flushes, which hold all shelves at once.
//!
//! An immediate flush has its new shelves made before it takes a bay, so memory is refused before
//! it has begun. A delayed flush sets the moment of each shelf, and reads no item of a shelf where
//! none may be dead. So whoever drops the dead of each shelf first, one held at a time, makes it
//! cost as much as there are shelves.
ghost use Rattle.std.specs.Prelude.{ℕ, ◌≡◌, ◌<◌, ◌≤◌, [], true};
ghost use Rattle.std.specs.Prelude.{length, vec_len, vec_capacity, IfOk, IfSome, OnErr};
ghost use Rattle.std.specs.List.{All};
ghost use Rattle.mc_slab.specs.Needs.{largest_charge};
ghost use Rattle.mc_protocol.specs.declared.step.KeyStep.{KeyStep as Step};
ghost use Rattle.mc_protocol.specs.declared.reply.Reply.{Reply as Told};
ghost use Rattle.mc_shelf.specs.Bare.{IsBare};
ghost use Rattle.mc_shelf.specs.Sweeps.{AreOut, GivesFor};
ghost use Rattle.mc_shelf.specs.Unions.{IsFlushed};
ghost use Rattle.mc_shared.specs.Emptied.{AreCutLater, AreEmptied, AreFlushedParts, AreParts};
ghost use Rattle.mc_shared.specs.Emptied.{IsFresh, IsRoomFor, cut_later};
ghost use Rattle.mc_shared.specs.History.{start_of};
ghost use Rattle.mc_shared.specs.Steps.{Agrees};
ghost use Rattle.mc_shared.specs.Store.{resting, with_call, HasCalled};
ghost use Rattle.mc_shared.specs.Seats.{SameSeat, RestsAt, shelves_at, start_at};

use crate::bay::Bay;
use crate::boxed::Boxed;
use crate::count::{count_left, count_words, lower_words};
use crate::decision::Decision;
use crate::hold::{desk_at, give_all, take_all};
use crate::patience::{NoGate, Waiting};
use crate::rule::{Board, Seat};
use crate::steps::{decide, reload};
use crate::store::{Caller, Shared};
use mc_hop::KeyHash;
use mc_protocol::Reply;
use mc_shelf::{Desk, Shelf};
use mc_time::{Moment, cut_after};
use std::alloc::{AllocError, Global};
use std::sync::Wait;

/// Flushes a shelf, whose items' chunks are out of this desk. Returns whether its items stay.
///
/// If none may be dead, a delayed flush sets the shelf's moment and nothing else.
fn flush_box(shelf: &mut Shelf, desk: &mut Desk, delay: u64, now: Moment) -> bool
    requires { AreOut shelf.old.content desk.old }
    ensures shelf { IsFlushed delay now shelf.old.content shelf.new.content }
    ensures desk { GivesFor shelf.old.content.items shelf.new.content.items desk.old desk.new }
    ensures stays { result ≡ true → (shelf.new ≡ cut_later delay now shelf.old)
        × (desk.new ≡ desk.old) }
{
    if delay != 0 && !shelf.may_have_dead(now) {
        shelf.set_cut(cut_after(delay, now));
        return true;
    }
    shelf.flush(delay, now, desk);
    false
}

/// Flushes a state by its parts, as `flush_parts` does, with each shelf in a box.
///
/// Returns whether the items of all shelves stay.
fn flush_boxes(shelves: &mut [Boxed<Shelf>], desk: &mut Desk, delay: u64, now: Moment) -> bool
    requires { AreParts shelves.old desk.old }
    ensures parts { AreFlushedParts delay now shelves.old desk.old shelves.new desk.new }
    ensures stay { result ≡ true → AreCutLater delay now shelves.old shelves.new }
{
    let mut all_stay = true;
    for shelf in shelves.iter_mut() {
        let stays = flush_box(&mut *shelf.inner, desk, delay, now);
        all_stay = both(all_stay, stays);
    }
    all_stay
}

/// Returns whether both hold.
fn both(one: bool, other: bool) -> bool
    ensures { result ≡ true → (one ≡ true) × (other ≡ true) }
{
    one && other
}

/// Empty shelves, and room for the shelves that they replace.
#[derive(Drop)]
struct Fresh {
    shelves: Vec<Shelf>,
    aside: Vec<Shelf>,
}

/// The most shelves aside, as a multiple of the store's shelves.
const TIMES: usize = 4;

/// Makes `count` empty shelves. The only error is a refused allocation.
fn bare_shelves(alloc: Global, count: usize, greatest: u64) -> Result<Vec<Shelf>, AllocError>
    requires { greatest ≤ largest_charge }
    ensures { IfOk result (λ list. (vec_len list ≡ count) × All IsBare list.items) }
{
    let mut list = Vec::with_capacity(alloc, count)?;
    for _ in 0..count {
        list.push(Shelf::new(alloc, greatest)?)?;
    }
    Ok(list)
}

/// Replaces shelves by empty ones, and returns the old ones in order.
fn empty_boxes(shelves: &mut [Boxed<Shelf>], fresh: Fresh) -> Vec<Shelf>
    requires { IsFresh (length shelves.old) fresh }
    ensures { AreEmptied shelves.old shelves.new × (result.items ≡ shelves.old) }
{
    let Fresh {
        shelves: mut bare,
        mut aside,
    } = fresh;
    for shelf in shelves.iter_mut() {
        let bare = bare.pop().unwrap();
        aside.push_reserved(shelf.inner.emptied_by(bare));
    }
    aside
}

/// Flushes the shelves of a state with the desk at once: the desk lays them aside.
///
/// The cost doesn't grow with their items.
fn flush_at_once(held: &mut Vec<Boxed<Shelf>>, desk: &mut Desk, fresh: Fresh)
    requires parts { AreParts held.old.items desk.old }
    requires fresh { IsFresh (vec_len held.old) fresh }
    ensures count { vec_len held.new ≡ vec_len held.old }
    ensures parts { (now : ℕ) →
        AreFlushedParts 0 now held.old.items desk.old held.new.items desk.new }
{
    let aside = empty_boxes(held.as_mut_slice(), fresh);
    desk.lay_aside(aside);
}

/// Flushes the shelves of a state with the desk. Returns whether the items of all shelves stay.
fn flush_held(
    held: &mut Vec<Boxed<Shelf>>,
    desk: &mut Desk,
    fresh: Option<Fresh>,
    delay: u64,
    now: Moment,
) -> bool
    requires parts { AreParts held.old.items desk.old }
    requires fresh { IfSome fresh (IsFresh (vec_len held.old)) }
    requires at_once { IfSome fresh (λ _. delay ≡ 0) }
    ensures count { vec_len held.new ≡ vec_len held.old }
    ensures parts { AreFlushedParts delay now held.old.items desk.old held.new.items desk.new }
    ensures stay { result ≡ true → AreCutLater delay now held.old.items held.new.items }
{
    match fresh {
        Some(fresh) => {
            flush_at_once(held, desk, fresh);
            false
        }
        None => flush_boxes(held.as_mut_slice(), desk, delay, now),
    }
}

/// Room for the shelves that a flush holds, and for an immediate flush the empty shelves.
#[derive(Drop)]
pub struct FlushRoom {
    held: Vec<Boxed<Shelf>>,
    count: usize,
    fresh: Option<Fresh>,
}

/// Takes a flush, which holds all shelves and the desk at once.
///
/// The words of the removed keys are lowered before a shelf is given back.
fn flush_by<K: KeyHash + Drop, R: Wait>(
    rt: &R,
    board: &Board<K>,
    seat: &mut Seat,
    room: FlushRoom,
    delay: u64,
    now: Moment,
)
    requires seat { RestsAt board.now seat.old }
    requires some { 0 < room.count }
    requires room { IsRoomFor (shelves_at board.now) delay room }
    ensures seat { SameSeat seat.old seat.new }
    ensures done { (seat.new.me ≡ resting
        (with_call seat.old.me.0.past (Step.Flush delay) now Told.Flushed))
        × Agrees (start_at K.hash_of board.now) seat.new.me.0.past }
{
    let FlushRoom { held, count, fresh } = room;
    let patience = Waiting { rt, gate: &NoGate };
    let mut held = match take_all(&patience, board, seat, held, count) {
        Ok(held) => held,
        Err(never) => match never {},
    };
    let before = count_words(board, seat, count, 1, 0);
    let mut desk = match desk_at(&patience, board, seat, count) {
        Ok(desk) => desk,
        Err(never) => match never {},
    };
    let stay = flush_held(&mut held, &mut *desk, fresh, delay, now);
    let decision = Decision::Flushed {
        delay,
        moment: now,
        shelves: &held,
        before: &before,
    };
    let value = Bay::Desk(Boxed::of(desk));
    decide(board, seat, count, value, &decision);
    let after = count_left(held.as_slice(), delay, stay, &before);
    lower_words(board, seat, count, &before, &after);
    give_all(board, seat, held);
}

impl<K: KeyHash + Drop> Shared<K> {
    /// Flushes: drops all items at once, or after a delay in seconds, which is read as an exptime.
    ///
    /// It waits for other callers: it takes all shelves in order, and then the desk, so the flush
    /// is one step. It allocates one pointer for each shelf, and without a delay an empty shelf for
    /// each, with room for 64 items, before it takes any. The only error is a refused allocation,
    /// and the caller's past is then unchanged.
    ///
    /// The cost without a delay doesn't grow with the items: they are laid aside whole, and their
    /// chunks are collected later, one item's with each write. Nor does that of a delayed flush, if
    /// no item of any shelf may be dead; otherwise it passes over the items of such shelves, and
    /// once over all items. The presence words are read and lowered in at most two atomic steps for
    /// each of 4096 numbers, however many keys are removed.
    pub fn flush<R: Wait>(
        &self,
        rt: &R,
        alloc: Global,
        caller: &mut Caller,
        delay: u64,
        now: Moment,
    ) -> Result<Reply, AllocError>
        requires own { caller.old.table ≡ self.now.table }
        ensures same { caller.new.table ≡ caller.old.table }
        ensures ok { IfOk result (λ reply. HasCalled (start_of K.hash_of self.now.began)
            caller.old.past (Step.Flush delay) now reply caller.new.past) }
        ensures err { OnErr result (caller.new.past ≡ caller.old.past) }
        ensures agrees { Agrees (start_of K.hash_of self.now.began) caller.new.past }
    {
        match self.flush_room(alloc, delay) {
            Ok(room) => Ok(self.flush_in(rt, caller, room, delay, now)),
            Err(refused) => {
                reload(&self.board, &mut caller.seat);
                Err(refused)
            }
        }
    }

    /// Flushes as `flush` does, in room that was made before. It takes no memory.
    // Not inlined: its arrays of counts would enlarge the stack frame of every caller.
    #[inline(never)]
    pub(crate) fn flush_in<R: Wait>(
        &self,
        rt: &R,
        caller: &mut Caller,
        room: FlushRoom,
        delay: u64,
        now: Moment,
    ) -> Reply
        requires own { caller.old.table ≡ self.now.table }
        requires room { IsRoomFor self.now.began.settings.shelves delay room }
        ensures same { caller.new.table ≡ caller.old.table }
        ensures called { HasCalled (start_of K.hash_of self.now.began) caller.old.past
            (Step.Flush delay) now result caller.new.past }
    {
        flush_by(rt, &self.board, &mut caller.seat, room, delay, now);
        Reply::Flushed
    }

    /// Makes room for all boxed shelves, and the empty shelves of an immediate flush.
    ///
    /// The only error is a refused allocation.
    pub(crate) fn flush_room(&self, alloc: Global, delay: u64) -> Result<FlushRoom, AllocError>
        ensures { IfOk result (IsRoomFor self.now.began.settings.shelves delay) }
    {
        let count = self.settings.shelves as usize;
        let held = Vec::with_capacity(alloc, count)?;
        if delay != 0 {
            let fresh = None;
            return Ok(FlushRoom { held, count, fresh });
        }
        let shelves = bare_shelves(alloc, count, self.settings.greatest)?;
        let aside = Vec::with_capacity(alloc, TIMES * count)?;
        let fresh = Some(Fresh { shelves, aside });
        Ok(FlushRoom { held, count, fresh })
    }
}
