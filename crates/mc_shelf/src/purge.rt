//! Purges: the dead items of a shelf are dropped, and the desk gets their chunks back.
//!
//! If others wait for the desk, a purge has two parts. The long one, the walk over the items, needs
//! only the shelf, and collects the chunks in a list; the desk takes the list back in one step. If
//! memory for the list is refused, the walk is made with the desk held.

ghost use Rattle.std.specs.Prelude.{◌≡◌, ◌≤◌, ◌==◌, ℕ, List, [], vec_capacity};
ghost use Rattle.std.specs.FinMap.{len};
ghost use Rattle.mc_slab.specs.Classes.{IsClass};
ghost use Rattle.mc_slab.specs.Slabs.{out_of};
ghost use Rattle.mc_protocol.specs.Plain.{Plain};
ghost use Rattle.mc_protocol.specs.Purge.{purged};
ghost use Rattle.mc_shelf.specs.Counts.{AreReclaimed, DropsAlone, counts_of};
ghost use Rattle.mc_shelf.specs.Parts.{GoesTo, IsDeskOf, IsShelfOf, shelf_of};
ghost use Rattle.mc_shelf.specs.States.{ShelfContent};
ghost use Rattle.mc_shelf.specs.Sweeps.{AreOut, BeginsPurge, GivesFor, IsPurged, TakesBack, TakesDead, count_among};

use crate::counts::counted_up;
use crate::desk::Desk;
use crate::plan::is_gone;
use crate::shelf::Shelf;
use crate::soonest::Soonest;
use mc_slab::Chunks;
use mc_time::Moment;
use std::alloc::Global;

/// How far a purge came at the shelf alone.
#[derive(Drop)]
pub enum Purging {
    /// The dead items are removed, and these are their chunks for the desk.
    Apart(Vec<Chunks>),
    /// Memory for a list of chunks was refused, and the shelf is unchanged.
    Whole,
}

impl Shelf {
    /// Drops the items that are dead at a moment, and gives their chunks back.
    ///
    /// It takes no memory and moves no entry. It costs one pass over the items, and walks none if
    /// none may be dead.
    pub fn purge(&mut self, now: Moment, desk: &mut Desk)
        requires { AreOut self.old.content desk.old }
        ensures shelf { IsPurged now self.old.content self.new.content }
        ensures desk { GivesFor self.old.content.items self.new.content.items desk.old desk.new }
        ensures table { DropsAlone (counts_of self.old) (counts_of self.new) }
        ensures reclaimed { AreReclaimed self.old self.new }
    {
        if !self.index.may_have_dead(self.cut, now) {
            return;
        }
        let before = self.index.len();
        let mut soonest = Soonest::empty();
        let mut at = 0;
        while let Some((number, place)) = self.index.filled_from(at) {
            if is_gone(self.index.get(place), self.cut, now) {
                let entry = self.index.remove(place);
                desk.give(entry.into_chunks());
                at = number;
            } else {
                soonest = soonest.with_found(self.index.get(place));
                at = number + 1;
            }
        }
        self.index.keep_soonest(soonest);
        let after = self.index.len();
        self.reclaimed = counted_up(self.reclaimed, before, after);
    }

    /// Removes the items that are dead at a moment, and keeps their chunks for `end_purge`.
    ///
    /// It needs the shelf alone. The only memory it takes is room for the chunks of all items, at
    /// once; if that is refused, everything is left to `end_purge`. It costs one pass over the
    /// items, and moves no entry.
    pub fn begin_purge(&mut self, alloc: Global, now: Moment) -> Purging
        ensures begins { BeginsPurge now self.old.content result self.new.content }
        ensures table { DropsAlone (counts_of self.old) (counts_of self.new) }
        ensures reclaimed { AreReclaimed self.old self.new }
    {
        match Vec::with_capacity(alloc, self.len()) {
            Ok(room) => Purging::Apart(self.take_dead(now, room)),
            Err(_) => Purging::Whole,
        }
    }

    /// Removes the items that are dead at a moment, and appends their chunks to `room`.
    ///
    /// `room` has room for the chunks of all items.
    fn take_dead(&mut self, now: Moment, room: Vec<Chunks>) -> Vec<Chunks>
        requires empty { room.items ≡ [] }
        requires room { len self.old.content.items ≤ vec_capacity room }
        ensures took { TakesDead now self.old.content result.items self.new.content }
        ensures table { DropsAlone (counts_of self.old) (counts_of self.new) }
        ensures reclaimed { AreReclaimed self.old self.new }
    {
        let mut chunks = room;
        let before = self.index.len();
        let mut soonest = Soonest::empty();
        let mut at = 0;
        let mut ahead = 0;
        while let Some((number, place)) = self.index.filled_from(at) {
            ahead = self.index.read_ahead(ahead, number);
            if is_gone(self.index.get(place), self.cut, now) {
                let entry = self.index.remove(place);
                chunks.push_reserved(entry.into_chunks());
                at = number;
            } else {
                soonest = soonest.with_found(self.index.get(place));
                at = number + 1;
            }
        }
        self.index.keep_soonest(soonest);
        let left = self.index.len();
        self.reclaimed = counted_up(self.reclaimed, before, left);
        chunks
    }

    /// Ends a purge that was begun at this shelf, with no other step between.
    ///
    /// The desk gets the chunks back. If before the purge the shelf was, with this desk, a part of
    /// a state, that state becomes the one purged of the shelf's dead items, as in `purge_part`. It
    /// takes no memory and moves no entry. It costs a few instructions for each dead item if the
    /// purge could be begun.
    pub fn end_purge(&mut self, purging: Purging, now: Moment, desk: &mut Desk)
        requires { (old : ShelfContent) × BeginsPurge now old purging self.old.content
            × (hash_of : List ℕ → ℕ) × (shelves : ℕ) × (at : ℕ) × (state : Plain)
            × IsShelfOf hash_of shelves state at old × IsDeskOf state desk.old }
        ensures goes { (old : ShelfContent) (hash_of : List ℕ → ℕ) (shelves at : ℕ)
            (state : Plain) → BeginsPurge now old purging self.old.content →
            IsShelfOf hash_of shelves state at old → IsDeskOf state desk.old →
            GoesTo hash_of shelves at state
            (purged (λ key. shelf_of hash_of shelves key == at) now state)
            self.new.content desk.new }
        ensures table { DropsAlone (counts_of self.old) (counts_of self.new) }
        ensures reclaimed { AreReclaimed self.old self.new }
    {
        match purging {
            Purging::Apart(chunks) => desk.take_back(chunks),
            Purging::Whole => self.purge_part(now, desk),
        }
    }
}

impl Desk {
    /// Gives many chunks back; of each class at least as many must be out. It takes no memory.
    fn take_back(&mut self, chunks: Vec<Chunks>)
        requires { (class : ℕ) → IsClass class →
            count_among chunks.items class ≤ out_of self.old.slab class }
        ensures { TakesBack chunks.entry.items self.old self.new }
    {
        let mut chunks = chunks;
        while let Some(one) = chunks.pop() {
            // for the proof: the invariant of chunks
            let _need = one.need();
            self.give(one);
        }
    }
}
