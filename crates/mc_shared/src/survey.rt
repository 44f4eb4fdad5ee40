//! The counts of a shelf and of a class.
//!
//! Counts are read by the holder of the shelf and decide nothing. They are those of the state after
//! a legal history that keeps the caller's past.
ghost use Rattle.std.specs.Prelude.{◌≡◌, ◌*◌, ◌<◌, ◌≤◌};
ghost use Rattle.mc_slab.specs.Classes.{chunks_a_page};
ghost use Rattle.mc_shelf.specs.Counts.{FitTogether};
ghost use Rattle.mc_shared.specs.History.{start_of};
ghost use Rattle.mc_shared.specs.Steps.{Agrees};
ghost use Rattle.mc_shared.specs.Survey.{AreCountsAfter, IsAccountAfter};

use crate::store::{Caller, Shared};
use mc_hop::KeyHash;
use mc_shelf::ShelfCounts;
use mc_slab::{Account, Class};
use std::sync::Wait;

impl<K: KeyHash + Drop> Shared<K> {
    /// Returns the counts of a shelf as it was when it was held.
    ///
    /// They are its items (including dead ones that aren't dropped yet), the homes of its table,
    /// the items that are left to move while the table grows, and the strays. It waits for the
    /// shelf. Nothing is decided, no item is walked, and it takes no memory.
    pub fn shelf_counts<R: Wait>(&self, rt: &R, caller: &mut Caller, shelf: u32) -> ShelfCounts
        requires own { caller.old.table ≡ self.now.table }
        requires shelf { shelf < self.now.began.settings.shelves }
        ensures same { (caller.new.table ≡ caller.old.table) × (caller.new.past ≡ caller.old.past) }
        ensures fits { FitTogether result }
        ensures agrees { Agrees (start_of K.hash_of self.now.began) caller.new.past }
        ensures after { AreCountsAfter (start_of K.hash_of self.now.began) caller.new.past shelf
            result }
    {
        let Caller { seat, .. } = caller;
        let held = self.wait_for_shelf(rt, seat, shelf);
        let counts = held.counts();
        self.give_shelf(seat, held, shelf);
        counts
    }

    /// Returns the number of items that purges and flushes of a shelf dropped, when it was held.
    ///
    /// It is at most 2^64 - 1 and never falls. It waits for the shelf. Nothing is decided, no item
    /// is walked, and it takes no memory.
    pub fn reclaimed<R: Wait>(&self, rt: &R, caller: &mut Caller, shelf: u32) -> u64
        requires own { caller.old.table ≡ self.now.table }
        requires shelf { shelf < self.now.began.settings.shelves }
        ensures same { (caller.new.table ≡ caller.old.table) × (caller.new.past ≡ caller.old.past) }
        ensures agrees { Agrees (start_of K.hash_of self.now.began) caller.new.past }
    {
        let Caller { seat, .. } = caller;
        let held = self.wait_for_shelf(rt, seat, shelf);
        let reclaimed = held.reclaimed();
        self.give_shelf(seat, held, shelf);
        reclaimed
    }

    /// Returns the pages of a class, and how many of its chunks items use, when the desk was held.
    ///
    /// It waits for the first shelf, and then for the desk. Nothing is decided, and it takes no
    /// memory.
    pub fn account<R: Wait>(&self, rt: &R, caller: &mut Caller, class: Class) -> Account
        requires own { caller.old.table ≡ self.now.table }
        ensures same { (caller.new.table ≡ caller.old.table) × (caller.new.past ≡ caller.old.past) }
        ensures within { result.out ≤ result.pages * chunks_a_page class }
        ensures agrees { Agrees (start_of K.hash_of self.now.began) caller.new.past }
        ensures after { IsAccountAfter (start_of K.hash_of self.now.began) caller.new.past class
            result }
    {
        let Caller { seat, .. } = caller;
        let held = self.wait_for_shelf(rt, seat, 0);
        let desk = self.wait_for_desk(rt, seat);
        // for the proof: the invariants of the class and of the desk
        let _laws = (class.number(), desk.next_unique());
        let account = desk.account(class);
        self.give_desk(seat, desk);
        self.give_shelf(seat, held, 0);
        account
    }
}
