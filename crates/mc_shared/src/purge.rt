//! Purges of a shelf, and its growth.
ghost use Rattle.std.specs.Prelude.{◌≡◌, ◌<◌, ◌≤◌, IfErr, OnOk};
ghost use Rattle.mc_shelf.specs.States.{ShelfContent};
ghost use Rattle.mc_shared.specs.History.{start_of, Purged};
ghost use Rattle.mc_shared.specs.Past.{call};
ghost use Rattle.mc_shared.specs.Steps.{entry_of, Agrees};
ghost use Rattle.mc_shared.specs.Seats.{IsFree};
ghost use Rattle.mc_shared.specs.Holds.{HasPurged, HoldsShelf};
ghost use Rattle.mc_shared.specs.Counted.{AreCountsBy};

use crate::bay::Bay;
use crate::boxed::Boxed;
use crate::count::{count_shelf, count_words, lower_words};
use crate::decision::Decision;
use crate::rule::Seat;
use crate::steps::decide;
use crate::store::{Caller, Shared};
use mc_hop::KeyHash;
use mc_shelf::{NUMBERS, Shelf};
use mc_time::Moment;
use std::sync::Wait;

impl<K: KeyHash + Drop> Shared<K> {
    /// Gives a shelf back with the decision of a purge, if nothing in it may be dead.
    ///
    /// Otherwise it returns the shelf, which stays held.
    fn purge_alone(
        &self,
        seat: &mut Seat,
        shelf: Box<Shelf>,
        at: u32,
        now: Moment,
    ) -> Result<(), Box<Shelf>>
        requires { HoldsShelf K.hash_of self.now seat.old at shelf.value.content }
        ensures ok { OnOk result (IsFree self.now.table self.now.began seat.new
            × HasPurged K.hash_of self.now seat.old.me.0.past at now seat.new.me.0.past) }
        ensures err { IfErr result (λ shelf. (seat.new.me.0.past ≡ seat.old.me.0.past)
            × HoldsShelf K.hash_of self.now seat.new at shelf.value.content) }
    {
        if shelf.may_have_dead(now) {
            return Err(shelf);
        }
        let decision = Decision::NoneDead { at, moment: now };
        let value = Bay::Shelf(Boxed::of(shelf));
        decide(&self.board, seat, at as usize, value, &decision);
        Ok(())
    }

    /// Counts a held shelf's keys of each number, by the numbers' words.
    fn counts(&self, seat: &mut Seat, at: u32) -> [u64; NUMBERS]
        requires { (shelf : ShelfContent) × HoldsShelf K.hash_of self.now seat.old at shelf }
        ensures past { seat.new.me.0.past ≡ seat.old.me.0.past }
        ensures counts { (shelf : ShelfContent) → HoldsShelf K.hash_of self.now seat.old at shelf →
            HoldsShelf K.hash_of self.now seat.new at shelf
            × AreCountsBy (K.hash_of self.now.began.hasher) shelf result }
    {
        let count = self.settings.shelves as usize;
        count_words(&self.board, seat, count, count, at as usize)
    }

    /// Drops a shelf's dead items, and gives it back with the decision.
    ///
    /// The items are removed with the shelf alone. Then it waits for the desk, which gets their
    /// chunks back in one step. The desk is given back with the decision, then the words of the
    /// removed keys are lowered, and then the shelf is given back.
    fn purge<R: Wait>(&self, rt: &R, seat: &mut Seat, shelf: Box<Shelf>, at: u32, now: Moment)
        requires { HoldsShelf K.hash_of self.now seat.old at shelf.value.content }
        ensures free { IsFree self.now.table self.now.began seat.new }
        ensures purged { HasPurged K.hash_of self.now seat.old.me.0.past at now
            seat.new.me.0.past }
    {
        let mut shelf = shelf;
        let before = self.counts(seat, at);
        let purging = shelf.begin_purge(self.alloc, now);
        let mut desk = self.wait_for_desk(rt, seat);
        shelf.end_purge(purging, now, &mut *desk);
        let decision = Decision::Purged {
            at,
            moment: now,
            shelf: &*shelf,
            before: &before,
        };
        let bay = self.settings.shelves as usize;
        let value = Bay::Desk(Boxed::of(desk));
        decide(&self.board, seat, bay, value, &decision);
        let after = count_shelf(&*shelf);
        lower_words(&self.board, seat, bay, &before, &after);
        self.give_shelf(seat, shelf, at);
    }

    /// Drops the items of a shelf that are dead at a moment.
    ///
    /// It waits for the shelf, and if an item in it may be dead, for the desk. It costs two passes
    /// over the shelf's items, and walks none if none may be dead. The desk is held for a few
    /// instructions for each dropped item: the first pass, at the shelf alone, makes a list of
    /// their chunks, with room for one of each item. If that memory is refused, the pass is made
    /// while the desk is held.
    #[inline(never)]
    pub fn tidy<R: Wait>(&self, rt: &R, caller: &mut Caller, shelf: u32, now: Moment)
        requires own { caller.old.table ≡ self.now.table }
        requires shelf { shelf < self.now.began.settings.shelves }
        ensures same { caller.new.table ≡ caller.old.table }
        ensures done { (caller.new.past ≡ call caller.old.past
            (entry_of caller.old.past (Purged shelf now)))
            × Agrees (start_of K.hash_of self.now.began) caller.new.past }
    {
        // Not inlined: its arrays of counts would enlarge the stack frame of every caller.
        let Caller { seat, .. } = caller;
        let held = self.wait_for_shelf(rt, seat, shelf);
        if let Err(held) = self.purge_alone(seat, held, shelf, now) {
            self.purge(rt, seat, held, shelf, now);
        }
    }

    /// Moves up to `n` entries of a shelf's old table, and returns how many it moved.
    ///
    /// It waits for the shelf. Nothing is decided, and it takes no memory. The cost grows with `n`.
    pub fn grow<R: Wait>(&self, rt: &R, caller: &mut Caller, shelf: u32, n: usize) -> usize
        requires own { caller.old.table ≡ self.now.table }
        requires shelf { shelf < self.now.began.settings.shelves }
        ensures same { (caller.new.table ≡ caller.old.table) × (caller.new.past ≡ caller.old.past) }
        ensures moved { result ≤ n }
        ensures agrees { Agrees (start_of K.hash_of self.now.began) caller.new.past }
    {
        let Caller { seat, .. } = caller;
        let mut held = self.wait_for_shelf(rt, seat, shelf);
        let moved = held.grow(n);
        self.give_shelf(seat, held, shelf);
        moved
    }

    /// Moves entries as `grow` does, at the shelf of the caller's last step.
    ///
    /// If that step left no entry of the shelf to move, or this was done since, no shelf is taken.
    pub fn grow_after<R: Wait>(&self, rt: &R, caller: &mut Caller, n: usize) -> usize
        requires own { caller.old.table ≡ self.now.table }
        ensures same { (caller.new.table ≡ caller.old.table) × (caller.new.past ≡ caller.old.past) }
        ensures moved { result ≤ n }
    {
        match caller.grows {
            Some(shelf) if shelf < self.settings.shelves => {
                caller.grows = None;
                self.grow(rt, caller, shelf, n)
            }
            _ => 0,
        }
    }
}
