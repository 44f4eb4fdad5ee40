//! The parts of a store: its shelves, and the desk that they share.

ghost use Rattle.std.specs.Prelude.{◌≡◌, ◌==◌, ◌≤◌, ℕ, List, map, replicate, true, false, IfOk};
ghost use Rattle.mc_slab.specs.Needs.{largest_charge};
ghost use Rattle.mc_protocol.specs.declared.step.KeyStep.{KeyStep};
ghost use Rattle.mc_protocol.specs.declared.reply.Reply.{Reply};
ghost use Rattle.mc_protocol.specs.Commands.{key_of};
ghost use Rattle.mc_protocol.specs.Plain.{Plain, flushed};
ghost use Rattle.mc_protocol.specs.Purge.{purged};
ghost use Rattle.mc_protocol.specs.Laws.{IsOnKey};
ghost use Rattle.mc_shelf.specs.States.{ShelfContent, DeskState, nothing_held};
ghost use Rattle.mc_slab.specs.Slabs.{IsSlab};
ghost use Rattle.mc_shelf.specs.Plans.{StepTaken, PlanIsSettled, IsSpent, MayWantMemory};
ghost use Rattle.mc_shelf.specs.Plans.{NeedsPages, has_no_number, next_of, writes};
ghost use Rattle.mc_shelf.specs.Counts.{AreReclaimed, DropsAlone, counts_of};
ghost use Rattle.mc_shelf.specs.Sweeps.{AreOut, GivesFor};
ghost use Rattle.mc_shelf.specs.Deaths.{NoneIsDead};
ghost use Rattle.mc_shelf.specs.Unions.{IsFlushed, lefts};
ghost use Rattle.mc_shelf.specs.Stores.{NoneRises};
ghost use Rattle.mc_shelf.specs.Parts.{shelf_of, IsShelfOf, IsDeskOf, ArePartsOf, GoesTo};
ghost use Rattle.mc_shelf.specs.Parts.{GoesByStep, GoesWithoutDesk};

use crate::desk::Desk;
use crate::shelf::Shelf;
use mc_time::{Moment, cut_after};
use std::alloc::{AllocError, Global};

/// States that a step at one shelf takes a state that has it to the plain machine's next state.
///
/// The shelf and the desk that took the step are parts of that state, and so is each other shelf. A
/// step that is settled without the desk does so whatever desk the state has.
pub fn steps_change_one_shelf()
    ensures taken { (hash_of : List ℕ → ℕ) (shelves at : ℕ) (state : Plain) (step : KeyStep)
        (now : ℕ) (reply : Reply) (old new : ShelfContent) (desk desk' : DeskState) →
        IsOnKey step → shelf_of hash_of shelves (key_of step) ≡ at →
        IsShelfOf hash_of shelves state at old → IsDeskOf state desk →
        StepTaken step now (hash_of (key_of step)) old desk reply new desk' →
        GoesByStep hash_of shelves at step now state reply new desk' }
    ensures settled { (hash_of : List ℕ → ℕ) (shelves at : ℕ) (state : Plain) (step : KeyStep)
        (now : ℕ) (reply : Reply) (old new : ShelfContent) →
        IsOnKey step → shelf_of hash_of shelves (key_of step) ≡ at →
        IsShelfOf hash_of shelves state at old →
        PlanIsSettled step now (hash_of (key_of step)) old reply new →
        GoesWithoutDesk hash_of shelves at step now state reply new }
{}

/// States when a write is refused at the desk.
///
/// If the unique numbers are used up, the plain machine has none left either, in each state with
/// this shelf and this desk. If the write needs pages, its reply is one that memory may be refused
/// for.
pub fn refusals_are_plain()
    ensures spent { (step : KeyStep) (now : ℕ) (shelf : ShelfContent) (desk : DeskState) →
        IsOnKey step → writes (next_of shelf step now) ≡ true → has_no_number desk →
        IsSpent step now shelf desk }
    ensures pages { (step : KeyStep) (now : ℕ) (shelf : ShelfContent) (desk : DeskState) →
        IsOnKey step → IsSlab desk.slab → shelf.greatest ≤ largest_charge →
        NeedsPages (next_of shelf step now) shelf (key_of step) now desk →
        MayWantMemory step now shelf desk }
{}

impl Shelf {
    /// Returns whether an item may be dead at a moment. It walks no item.
    ///
    /// If it returns false no item is dead, and purging the shelf's part of a state changes
    /// nothing, so that the desk isn't needed.
    pub fn may_have_dead(&self, now: Moment) -> bool
        ensures none { result ≡ false →
            NoneIsDead now self.now.content.cut self.now.content.items }
        ensures part { result ≡ false → (hash_of : List ℕ → ℕ) (shelves at : ℕ) (state : Plain) →
            IsShelfOf hash_of shelves state at self.now.content →
            purged (λ key. shelf_of hash_of shelves key == at) now state ≡ state }
    {
        self.index.may_have_dead(self.cut, now)
    }

    /// Drops the items that are dead at a moment, and gives their chunks back to the desk.
    ///
    /// The shelf is, with this desk, a part of a state; that state becomes the one purged of the
    /// shelf's dead items. It takes no memory and moves no entry. It costs one pass over the items,
    /// and walks none if none may be dead.
    pub fn purge_part(&mut self, now: Moment, desk: &mut Desk)
        requires { (hash_of : List ℕ → ℕ) × (shelves : ℕ) × (at : ℕ) × (state : Plain)
            × IsShelfOf hash_of shelves state at self.old.content × IsDeskOf state desk.old }
        ensures goes { (hash_of : List ℕ → ℕ) (shelves at : ℕ) (state : Plain) →
            IsShelfOf hash_of shelves state at self.old.content → IsDeskOf state desk.old →
            GoesTo hash_of shelves at state
            (purged (λ key. shelf_of hash_of shelves key == at) now state)
            self.new.content desk.new }
        ensures table { DropsAlone (counts_of self.old) (counts_of self.new) }
        ensures reclaimed { AreReclaimed self.old self.new }
    {
        self.purge(now, desk);
    }

    /// Flushes the shelf, whose items' chunks are out of this desk.
    ///
    /// Without a delay all items are dropped. With a delay, which is read as an exptime, the dead
    /// ones are dropped and the others are flushed later. It takes no memory. It costs one pass
    /// over the items; with a delay it walks none if none may be dead.
    pub fn flush(&mut self, delay: u64, now: Moment, desk: &mut Desk)
        requires { AreOut self.old.content desk.old }
        ensures shelf { IsFlushed delay now self.old.content self.new.content }
        ensures desk { GivesFor self.old.content.items self.new.content.items desk.old desk.new }
        ensures table { DropsAlone (counts_of self.old) (counts_of self.new) }
        ensures reclaimed { AreReclaimed self.old self.new }
    {
        if delay == 0 {
            self.clear(desk);
        } else {
            self.purge(now, desk);
        }
        self.set_cut(cut_after(delay, now));
    }
}

/// Flushes a state given by its parts: all its shelves in order, and the desk.
///
/// Without a delay all items are dropped. With a delay, which is read as an exptime, the dead ones
/// are dropped and the others are flushed later. It takes no memory. It costs one pass over the
/// items of each shelf where one may be dead, or over all items without a delay. It moves no entry
/// of an old table.
pub fn flush_parts(shelves: &mut [Shelf], desk: &mut Desk, delay: u64, now: Moment)
    requires { (hash_of : List ℕ → ℕ) × (state : Plain) × (count : ℕ)
        × ArePartsOf hash_of state shelves.old count desk.old }
    ensures parts { (hash_of : List ℕ → ℕ) (state : Plain) (count : ℕ) →
        ArePartsOf hash_of state shelves.old count desk.old →
        ArePartsOf hash_of (flushed delay state now) shelves.new count desk.new }
    ensures left { NoneRises (lefts shelves.old) (lefts shelves.new) }
{
    for shelf in shelves.iter_mut() {
        shelf.flush(delay, now, desk);
    }
}

/// Makes `count` empty shelves. The only error is a refused allocation.
pub(crate) fn empty_shelves(
    alloc: Global,
    count: u32,
    greatest: u64,
) -> Result<Vec<Shelf>, AllocError>
    requires { greatest ≤ largest_charge }
    ensures content { IfOk result (λ list.
        map (λ shelf. shelf.content) list.items ≡ replicate count (nothing_held greatest)) }
    ensures left { IfOk result (λ list. lefts list.items ≡ replicate count 0) }
{
    let mut list = Vec::with_capacity(alloc, count as usize)?;
    for _ in 0..count {
        list.push(Shelf::new(alloc, greatest)?)?;
    }
    Ok(list)
}
