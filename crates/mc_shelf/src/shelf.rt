//! A shelf: the items of some keys, and the steps on one of its keys.
//!
//! `make_room` reserves room for a new key's entry before the desk is taken. If memory for it is
//! refused, `make_room_at` tries again at the desk. `page_wanted` is a hint: a step that waits
//! gives the desk back, allocates the pages, and takes the desk again; it decides nothing
//! meanwhile.

ghost use Rattle.std.specs.Prelude.{◌≡◌, ◌↔◌, ℕ, ◌+◌, ◌-◌, ◌%◌, ◌^◌, ◌<◌, ◌≤◌, length, min, slice_index, slice_set};
ghost use Rattle.std.specs.Prelude.{Option, Some, None, Err, IfOk, IfSome, OnErr, OnOk, is_some, nat_lt, true, false};
ghost use Rattle.std.specs.FinMap.{empty, get, len};
ghost use Rattle.mc_time.specs.declared.expiry.Expiry.{Expiry as Expires};
ghost use Rattle.mc_slab.specs.Needs.{IsNeed, need_for, size_in, largest_charge};
ghost use Rattle.mc_slab.specs.Slabs.{IsSlab, pages_wanted};
ghost use Rattle.mc_protocol.specs.declared.step.KeyStep.{KeyStep as Step};
ghost use Rattle.mc_protocol.specs.declared.row.Row.TheVariants.{Reads};
ghost use Rattle.mc_protocol.specs.Commands.{key_of};
ghost use Rattle.mc_protocol.specs.Plain.{Entry as Item};
ghost use Rattle.mc_shelf.specs.Counts.{AreReclaimed, CatchesUp, DropsAlone, FitTogether, KeepsTable, MovesFew, counts_of};
ghost use Rattle.mc_shelf.specs.States.{CanStandAt, nothing_held};
ghost use Rattle.mc_shelf.specs.Numbers.{KeysAreCounted, HasPlaces, numbers};
ghost use Rattle.mc_shelf.specs.Plans.{CanFinish, CanLook, CanSettle, CanWrite, GivesBack};
ghost use Rattle.mc_shelf.specs.Plans.{HasCaughtUp, HasRoom, IsDropped, IsKnown, IsOut, IsPlan};
ghost use Rattle.mc_shelf.specs.Plans.{IsPut, PlanIsSettled, IsSought, IsSpent, StaysUntil};
ghost use Rattle.mc_shelf.specs.Plans.{LookTakesMemory, MayWantMemory, NeedsPages, PutsEntry};
ghost use Rattle.mc_shelf.specs.Plans.{back_at, finished, gives_way_to, has_no_number, item_in};
ghost use Rattle.mc_shelf.specs.Plans.{StepTaken, next_of, row_at, told_next, writes};
ghost use Rattle.mc_shelf.specs.Sweeps.{AreOut, GivesFor};

use crate::counts::{ShelfCounts, counted_up};
use crate::desk::{Desk, WantedPages};
use crate::entry::Entry;
use crate::exchange::StepMemory;
use crate::index::{EntryIndex, Place};
use crate::plan::{Action, Plan, next_of};
use crate::soonest::Soonest;
use crate::write::{dead_chunks, gives_way};
use mc_protocol::{Bytes, KeyStep, Reply, StepFault};
use mc_slab::{Need, need_of};
use mc_time::{Expiry, Moment};
use std::alloc::{AllocError, Global};
use std::marker::Model;
use std::mem;

/// The number of numbers that keys have.
pub const NUMBERS: usize = 4096;

/// The greatest charge below the last class. Every item of such a class has one chunk.
const SMALL: u64 = 493_552;

/// The items of some keys, and the pending or past flush. Their chunks are out of a desk's slab.
///
/// Contracts see what it holds: the greatest charge, the items and the hashes under their keys, and
/// the flush. They also see what moves: the room for further entries, the homes of the table,
/// whether it grows, the entries of an old table that are still to be moved, and the strays. And
/// they see how many items purges and flushes dropped.
#[derive(Drop)]
pub struct Shelf {
    /// The greatest charge of an item, in bytes, 0 to 8388608.
    pub(crate) greatest: u64,
    /// The items, by their keys.
    pub(crate) index: EntryIndex,
    /// The second of the pending or past flush. Items that were updated before it die then.
    pub(crate) cut: Option<u64>,
    /// The number of items that purges and flushes dropped, at most 2^64 - 1.
    pub(crate) reclaimed: u64,
}

impl Model for Shelf {
    ghost use Rattle.std.specs.Prelude.{◌≤◌, ◌^◌, length};
    ghost use Rattle.mc_grow.specs.Indexes.{left};
    ghost use Rattle.mc_shelf.specs.Places.{items_of, hashes_of};
    ghost use Rattle.mc_shelf.specs.States.{ShelfState, coded_shelf};

    ghost Value = { ShelfState };

    ghost coded = { coded_shelf };

    ghost view = { λ s. record {
      content = record {
        greatest = s.greatest;
        items = items_of s.index;
        hashes = hashes_of s.index;
        cut = s.cut;
      };
      room = s.index.spare;
      homes = 2 ^ s.index.k;
      growing = s.index.growing;
      left = left s.index;
      strays = length s.index.strays;
      reclaimed = s.reclaimed;
    } };

    ghost use Rattle.mc_slab.specs.Needs.{largest_charge};

    ghost invariant = { λ s. s.greatest ≤ largest_charge };
}

impl Shelf {
    ghost use Rattle.mc_protocol.specs.Commands.{longest_key};

    /// Makes an empty shelf with a greatest charge of an item in bytes, 0 to 8388608.
    ///
    /// The only error is a refused allocation.
    pub fn new(alloc: Global, greatest: u64) -> Result<Shelf, AllocError>
        requires { greatest ≤ largest_charge }
        ensures content { IfOk result (λ shelf. shelf.content ≡ nothing_held greatest) }
        ensures homes { IfOk result (λ shelf. shelf.homes ≡ 64) }
        ensures left { IfOk result (λ shelf. shelf.left ≡ 0) }
        ensures rests { IfOk result (λ shelf. (shelf.growing ≡ false) × (shelf.strays ≡ 0)) }
        ensures reclaimed { IfOk result (λ shelf. shelf.reclaimed ≡ 0) }
    {
        Ok(Shelf {
            greatest,
            index: EntryIndex::new(alloc)?,
            cut: None,
            reclaimed: 0,
        })
    }

    /// Returns the number of items.
    pub fn len(&self) -> usize
        ensures count { result ≡ len self.now.content.items }
        ensures most { result < 2 ^ 64 - 1 }
    {
        self.index.len()
    }

    /// Counts the keys of each number; a key's number is its hash modulo `NUMBERS`.
    ///
    /// `counts` must have `NUMBERS` places. The place of each number that a key has must be 0, and
    /// is set to how many keys have it; the others are unchanged. It takes no memory. It costs one
    /// pass over the items, and without items it walks nothing.
    pub fn count_numbers(&self, counts: &mut [u64])
        requires { HasPlaces self.now.content counts.old }
        ensures { KeysAreCounted self.now.content counts.old counts.new }
    {
        if self.index.is_empty() {
            return;
        }
        let mut at = 0;
        while let Some((number, place)) = self.index.filled_from(at) {
            count_one(counts, self.index.hash_at(place));
            at = number + 1;
        }
    }

    /// Takes a step on one key at a moment, and returns its reply.
    ///
    /// It looks the step up, and then settles it, or applies it at the desk. After an error the
    /// shelf holds what it held, and the desk is unchanged. `hash` is the hash that the shelf has
    /// with the key, if it has the key.
    ///
    /// Numbers and room are checked before memory: used-up numbers, a too large item and a missing
    /// chunk are always reported as such. A growth of its table may begin. At most 8 entries of an
    /// old table are moved, beside the key's own, which may be removed.
    pub fn step(
        &mut self,
        alloc: Global,
        step: &KeyStep<'_>,
        hash: u64,
        now: Moment,
        desk: &mut Desk,
    ) -> Result<Reply, StepFault>
        requires look { CanLook step.now hash self.old.content }
        requires stands { CanStandAt (key_of step.now) self.old.content desk.old }
        ensures took { IfOk result (λ reply.
            StepTaken step.now now hash self.old.content desk.old reply self.new.content desk.new) }
        ensures spent { result ≡ Err StepFault.NumbersSpent
            ↔ IsSpent step.now now self.old.content desk.old }
        ensures err { OnErr result
            ((self.new.content ≡ self.old.content) × (desk.new ≡ desk.old)) }
        ensures refused { result ≡ Err StepFault.NoMemory
            → MayWantMemory step.now now self.old.content desk.old }
        ensures moves { MovesFew 9 (counts_of self.old) (counts_of self.new) }
        ensures lags { IfOk result (λ _. CanWrite (next_of self.old.content step.now now)
            self.old.content (key_of step.now) now desk.old →
            PutsEntry (next_of self.old.content step.now now) self.old.content
            (key_of step.now) now → CatchesUp (counts_of self.old) (counts_of self.new)) }
    {
        let plan = self.plan(alloc, step, hash, now)?;
        self.make_room_at(alloc, &plan, desk)?;
        self.apply(alloc, plan, step, desk)
    }

    /// Returns what a step at a moment does.
    ///
    /// It copies the block of a hit, and makes room for an entry that a write inserts, for a new
    /// key or in place of a dead item. Nothing else takes memory. The shelf holds what it held,
    /// though a growth of its table may begin, and one that lags moves 8 entries.
    pub fn look<'a>(
        &mut self,
        alloc: Global,
        step: &KeyStep<'a>,
        hash: u64,
        now: Moment,
    ) -> Result<Plan<'a>, AllocError>
        requires { CanLook step.now hash self.old.content }
        ensures plan { IfOk result (λ plan. IsPlan plan self.old.content step.now now) }
        ensures hash { IfOk result (λ plan. plan.hash ≡ hash) }
        ensures room { IfOk result (λ plan. HasRoom plan self.new step.now) }
        ensures content { self.new.content ≡ self.old.content }
        ensures moves { MovesFew 8 (counts_of self.old) (counts_of self.new) }
        ensures lags { IfOk result (λ plan. HasCaughtUp plan self.old self.new step.now) }
        ensures idle { IfOk result (λ plan. writes plan.next ≡ false → self.new ≡ self.old) }
        ensures asked { OnErr result (LookTakesMemory step.now now self.old.content) }
        ensures most { self.old.content.greatest ≤ largest_charge }
    {
        let plan = self.plan(alloc, step, hash, now)?;
        self.make_room(alloc, &plan)?;
        Ok(plan)
    }

    /// Returns what a step at a moment does, as `look` does, and makes no room.
    ///
    /// Only the copy of a hit's block takes memory.
    pub fn plan<'a>(
        &self,
        alloc: Global,
        step: &KeyStep<'a>,
        hash: u64,
        now: Moment,
    ) -> Result<Plan<'a>, AllocError>
        requires { CanLook step.now hash self.now.content }
        ensures plan { IfOk result (λ plan. IsPlan plan self.now.content step.now now) }
        ensures hash { IfOk result (λ plan. plan.hash ≡ hash) }
        ensures asked { OnErr result ((expiry : Option Expires)
            × (row_at self.now.content step.now now ≡ Reads expiry)) }
        ensures most { self.now.content.greatest ≤ largest_charge }
    {
        let place = self.index.find(hash, step.key());
        let found = self.index.found_entry(place);
        let next = next_of(alloc, step, found, self.greatest, self.cut, now)?;
        Ok(Plan {
            key: Bytes::of(step.key()),
            hash,
            place,
            next,
            moment: now,
        })
    }

    /// Makes room for the entry that a plan's write inserts, for a new key or in place of a dead
    /// item.
    ///
    /// The shelf holds what it held, though a growth of its table may begin, and one that lags
    /// moves 8 entries. Any other plan changes nothing.
    pub fn make_room(&mut self, alloc: Global, plan: &Plan<'_>) -> Result<(), AllocError>
        requires { (step : Step) × (now : ℕ) × IsPlan plan.now self.old.content step now }
        ensures room { OnOk result ((step : Step) (now : ℕ) →
            IsPlan plan.now self.old.content step now → HasRoom plan.now self.new step) }
        ensures content { self.new.content ≡ self.old.content }
        ensures moves { MovesFew 8 (counts_of self.old) (counts_of self.new) }
        ensures lags { OnOk result ((step : Step) (now : ℕ) → IsPlan plan.now self.old.content
            step now → HasCaughtUp plan.now self.old self.new step) }
        ensures idle { writes plan.now.next ≡ false → self.new ≡ self.old }
        ensures stays { (PutsEntry plan.now.next self.old.content plan.now.key
            plan.now.moment → ⊥) → self.new ≡ self.old }
        ensures asked { OnErr result (PutsEntry plan.now.next self.old.content plan.now.key
            plan.now.moment × (writes plan.now.next ≡ true)) }
    {
        if plan.writes() && (plan.place.is_none() || self.gives_way(plan)) {
            self.index.reserve(alloc)?;
        }
        Ok(())
    }

    /// Makes room as `make_room` does, if the desk has a unique number and chunks for the write.
    ///
    /// So memory is refused only to a write that the desk can take.
    pub fn make_room_at(
        &mut self,
        alloc: Global,
        plan: &Plan<'_>,
        desk: &Desk,
    ) -> Result<(), AllocError>
        requires { (step : Step) × (now : ℕ) × IsPlan plan.now self.old.content step now }
        ensures content { self.new.content ≡ self.old.content }
        ensures moves { MovesFew 8 (counts_of self.old) (counts_of self.new) }
        ensures room { OnOk result (CanWrite plan.now.next self.old.content plan.now.key
            plan.now.moment desk.now → PutsEntry plan.now.next self.old.content plan.now.key
            plan.now.moment → 1 ≤ self.new.room) }
        ensures lags { OnOk result (CanWrite plan.now.next self.old.content plan.now.key
            plan.now.moment desk.now → PutsEntry plan.now.next self.old.content plan.now.key
            plan.now.moment → CatchesUp (counts_of self.old) (counts_of self.new)) }
        ensures refused { OnErr result (CanWrite plan.now.next self.old.content plan.now.key
            plan.now.moment desk.now) }
        ensures slab { IsSlab desk.now.slab }
    {
        if self.wants_room(plan, desk) {
            return self.index.reserve(alloc);
        }
        Ok(())
    }

    /// Takes a step that needs no desk, and returns its reply.
    ///
    /// It takes no memory, and moves no entry of an old table.
    #[tactic(auto, using(crate::proofs::CountLemmas::table_rules))]
    pub fn settle(&mut self, plan: Plan<'_>) -> Reply
        requires { CanSettle plan self.old.content }
        ensures told { (step : Step) (now : ℕ) → IsPlan plan.entry self.old.content step now →
            PlanIsSettled step now plan.entry.hash self.old.content result self.new.content }
        ensures table { KeepsTable 0 (counts_of self.old) (counts_of self.new) }
    {
        let Plan {
            key,
            hash,
            place,
            next,
            ..
        } = plan;
        match next {
            Action::Answer(reply) => reply,
            Action::Expire(expiry, reply) => {
                self.expire(place, hash, key.as_slice(), expiry);
                reply
            }
            // A plan that needs the desk isn't settled, by what this call requires.
            Action::Discard(_) | Action::Write { .. } | Action::Left { .. } => unreachable!(),
        }
    }

    /// Takes the step of a plan with the desk, and returns its reply: begins it and finishes it.
    ///
    /// Only pages that the slab gives to a class take memory. After an error the shelf holds what
    /// it held, and the desk is unchanged. It moves no entry of an old table, though the key's own
    /// may be removed.
    #[tactic(auto, using(crate::proofs::CountLemmas::table_rules))]
    pub fn apply(
        &mut self,
        alloc: Global,
        plan: Plan<'_>,
        step: &KeyStep<'_>,
        desk: &mut Desk,
    ) -> Result<Reply, StepFault>
        requires plan { IsPlan plan self.old.content step.now plan.moment }
        requires room { CanWrite plan.next self.old.content (key_of step.now) plan.moment desk.old →
            HasRoom plan self.old step.now }
        requires key { length (key_of step.now) ≤ longest_key }
        requires stands { CanStandAt (key_of step.now) self.old.content desk.old }
        ensures took { IfOk result (λ reply. StepTaken step.now plan.entry.moment plan.entry.hash
            self.old.content desk.old reply self.new.content desk.new) }
        ensures spent { result ≡ Err StepFault.NumbersSpent
            ↔ ((writes plan.entry.next ≡ true) × has_no_number desk.old) }
        ensures refused { result ≡ Err StepFault.NoMemory
            → NeedsPages plan.entry.next self.old.content (key_of step.now) plan.entry.moment
            desk.old }
        ensures table { KeepsTable 1 (counts_of self.old) (counts_of self.new) }
        ensures err { OnErr result
            ((self.new.content ≡ self.old.content) × (desk.new ≡ desk.old)) }
    {
        if !plan.needs_desk() {
            return Ok(self.settle(plan));
        }
        let mut plan = plan;
        let brought = StepMemory {
            pages: None,
            exchange: None,
        };
        match self.begin(alloc, &mut plan, step, desk, brought) {
            Ok(()) => Ok(self.finish(plan, step)),
            Err(fault) => Err(fault),
        }
    }

    /// Returns the pages that the step of a plan wants at the desk, or `None`.
    ///
    /// They can be allocated before the desk is held, and passed to `begin`.
    pub fn page_wanted(&self, plan: &Plan<'_>, desk: &Desk) -> Option<WantedPages>
        requires { (step : Step) × (now : ℕ) × IsPlan plan.now self.now.content step now }
        ensures wanted { IfSome result (λ wanted. (needs : NeedsPages plan.now.next
            self.now.content plan.now.key plan.now.moment desk.now) × (wanted ≡ record {
              class = (need_for needs.size).class;
              pages = pages_wanted desk.now.slab (need_for needs.size)
                  (back_at self.now.content plan.now.key plan.now.moment (need_for needs.size));
            })) }
        ensures range { IfSome result (λ wanted. (1 ≤ wanted.pages) × (wanted.pages ≤ 8)) }
        ensures none { result ≡ None → NeedsPages plan.now.next self.now.content plan.now.key
            plan.now.moment desk.now → ⊥ }
    {
        if desk.is_spent() {
            return None;
        }
        let Action::Write { charge, .. } = plan.next else {
            return None;
        };
        let need = self.need_for(charge);
        desk.wanted_pages(need, self.back(plan, need))
    }

    /// Does the part of a plan's step that needs the desk. The plan then has what `finish` does.
    ///
    /// `finish` takes the plan before any other call of the shelf. The number, the chunks and all
    /// counts are decided here; `finish` copies, if it can, after the desk was given back. A set's
    /// block under 4096 bytes for other chunks is copied here, since coming back costs about 400
    /// instructions, and so is a join without an exchange.
    ///
    /// A write goes into the chunks of the key's old item if they are those that it needs, and one
    /// of these holds: the item is dead; the write is a number that incr or decr counts; as many
    /// chunks are unused and the block is the step's own or comes behind the old one. A dead item
    /// with other chunks of the write's class gives them back first. Any other write takes its
    /// chunks while the old item still has its own. A block's copying is left if it goes into the
    /// old item's chunks, or is large, so that the cost doesn't grow with it. A join that copies
    /// the old item into other chunks is left too, if there are chunks in exchange for the old
    /// one's (`exchange`).
    ///
    /// Only pages that the slab gives to a class take memory; the given pages are used if they are
    /// enough and of that class. After an error the shelf holds what it held, and the desk and the
    /// plan are unchanged. It moves no entry of an old table, though the key's own may be removed.
    #[tactic(auto, using(crate::proofs::CountLemmas::table_rules))]
    pub fn begin(
        &mut self,
        alloc: Global,
        plan: &mut Plan<'_>,
        step: &KeyStep<'_>,
        desk: &mut Desk,
        brought: StepMemory,
    ) -> Result<(), StepFault>
        requires plan { IsPlan plan.old self.old.content step.now plan.old.moment }
        requires room { CanWrite plan.old.next self.old.content (key_of step.now) plan.old.moment
            desk.old → HasRoom plan.old self.old step.now }
        requires key { length (key_of step.now) ≤ longest_key }
        requires stands { CanStandAt (key_of step.now) self.old.content desk.old }
        ensures took { OnOk result (StepTaken step.now plan.old.moment plan.old.hash
            self.old.content desk.old (told_next plan.new.next)
            (finished plan.new step.now self.new.content) desk.new) }
        ensures left { OnOk result (CanFinish plan.new step.now self.new) }
        ensures same { plan.new ≡ record plan.old { next = plan.new.next } }
        ensures stays { OnOk result (StaysUntil plan.old plan.old.next step.now self.old.content
            desk.old.slab self.new.content) }
        ensures spent { result ≡ Err StepFault.NumbersSpent
            ↔ ((writes plan.old.next ≡ true) × has_no_number desk.old) }
        ensures refused { result ≡ Err StepFault.NoMemory → NeedsPages plan.old.next
            self.old.content (key_of step.now) plan.old.moment desk.old }
        ensures table { KeepsTable 1 (counts_of self.old) (counts_of self.new) }
        ensures err { OnErr result ((self.new.content ≡ self.old.content)
            × (desk.new ≡ desk.old) × (plan.new ≡ plan.old)) }
    {
        match plan.next {
            Action::Answer(_) => {}
            Action::Expire(expiry, _) => self.expire(plan.place, plan.hash, step.key(), expiry),
            Action::Discard(_) => self.discard(plan.place, plan.hash, step, desk),
            Action::Write { .. } => plan.next = self.write(alloc, plan, step, desk, brought)?,
            // No plan is made of a step that was begun, and this call requires such a plan.
            Action::Left { .. } => unreachable!(),
        }
        Ok(())
    }

    /// Finishes a planned step that was begun at this shelf, and returns its reply.
    ///
    /// No other step may come between. It copies the step's block if that is left, and the item
    /// that the block is joined with in other chunks. It takes no memory, and moves no entry of an
    /// old table.
    #[tactic(auto, using(crate::proofs::CountLemmas::table_rules))]
    pub fn finish(&mut self, mut plan: Plan<'_>, step: &KeyStep<'_>) -> Reply
        requires { CanFinish plan step.now self.old }
        ensures reply { result ≡ told_next plan.entry.next }
        ensures content { self.new.content ≡ finished plan.entry step.now self.old.content }
        ensures table { KeepsTable 0 (counts_of self.old) (counts_of self.new) }
    {
        let next = mem::replace(&mut plan.next, Action::Answer(Reply::Miss));
        match next {
            Action::Answer(reply) | Action::Expire(_, reply) | Action::Discard(reply) => reply,
            Action::Left { body, .. } => {
                // the old item's chunks are freed: the desk got others in exchange
                let _old = self.write_left(&plan, next, step);
                body.reply()
            }
            // A write that is still to be begun can't be finished, by what this call requires.
            Action::Write { .. } => unreachable!(),
        }
    }

    /// Drops all items, and gives their chunks back.
    ///
    /// It takes no memory and moves no entry. It costs one pass over the items, and without items
    /// it walks nothing.
    pub fn clear(&mut self, desk: &mut Desk)
        requires { AreOut self.old.content desk.old }
        ensures shelf { self.new.content
            ≡ record self.old.content { items = empty; hashes = empty } }
        ensures desk { GivesFor self.old.content.items self.new.content.items desk.old desk.new }
        ensures table { DropsAlone (counts_of self.old) (counts_of self.new) }
        ensures reclaimed { AreReclaimed self.old self.new }
    {
        if self.index.is_empty() {
            return;
        }
        let before = self.index.len();
        let mut at = 0;
        while let Some((number, place)) = self.index.filled_from(at) {
            let entry = self.index.remove(place);
            desk.give(entry.into_chunks());
            at = number;
        }
        self.index.keep_soonest(Soonest::empty());
        let after = self.index.len();
        self.reclaimed = counted_up(self.reclaimed, before, after);
    }

    /// Sets the moment of a flush: from then on items updated before it are dead. `None` is no
    /// flush.
    pub fn set_cut(&mut self, cut: Option<u64>)
        ensures { self.new ≡ record self.old { content = record self.old.content { cut = cut } } }
    {
        self.cut = cut;
    }

    /// Moves up to `n` entries of an old table, and returns how many it moved.
    ///
    /// It moves fewer only if fewer are left. The shelf holds what it held, and it takes no memory.
    /// The cost grows with `n`.
    pub fn grow(&mut self, n: usize) -> usize
        ensures content { self.new.content ≡ self.old.content }
        ensures moved { result ≡ min n self.old.left }
        ensures left { self.new.left ≡ self.old.left - result }
        ensures room { self.old.room ≤ self.new.room }
        ensures homes { self.new.homes ≡ self.old.homes }
        ensures growing { self.new.growing ≡ nat_lt 0 self.new.left }
    {
        self.index.move_some(n)
    }

    /// Returns the number of entries of an old table that are still to be moved.
    pub fn entries_to_move(&self) -> usize
        ensures { result ≡ self.now.left }
    {
        self.index.entries_to_move()
    }

    /// Returns the number of items, homes, entries to move and strays, and whether the table grows.
    ///
    /// It walks nothing.
    pub fn counts(&self) -> ShelfCounts
        ensures value { result ≡ counts_of self.now }
        ensures fits { FitTogether result }
    {
        self.index.counts()
    }

    /// Returns the number of items that purges and flushes dropped, at most 2^64 - 1.
    ///
    /// An item that a step on its key dropped isn't counted.
    pub fn reclaimed(&self) -> u64
        ensures { result ≡ self.now.reclaimed }
    {
        self.reclaimed
    }

    /// Lends the entry of a key, or `None`.
    pub(crate) fn entry(&self, place: Option<Place>, hash: u64, key: &[u8]) -> Option<&Entry>
        requires { IsSought self.now.content key.now hash place }
        ensures item { item_in result ≡ get self.now.content.items key.now }
        ensures key { IfSome result (λ entry. entry.now.key ≡ key.now) }
    {
        let found = self.index.find_again(place, hash, key);
        self.index.found_entry(found)
    }

    /// Lends the entry of a plan's key, or `None`.
    pub(crate) fn planned_entry(&self, plan: &Plan<'_>) -> Option<&Entry>
        requires { (step : Step) × (now : ℕ) × IsPlan plan.now self.now.content step now }
        ensures item { item_in result ≡ get self.now.content.items plan.now.key }
        ensures key { IfSome result (λ entry. entry.now.key ≡ plan.now.key) }
    {
        self.entry(plan.place, plan.hash, plan.key.as_slice())
    }

    /// Returns whether the key's item gives its chunks back before the write of a plan.
    fn gives_way(&self, plan: &Plan<'_>) -> bool
        requires { (step : Step) × (now : ℕ) × IsPlan plan.now self.now.content step now }
        ensures { result
            ≡ gives_way_to plan.now.next self.now.content plan.now.key plan.now.moment }
    {
        let Action::Write { charge, .. } = plan.next else {
            return false;
        };
        if charge <= SMALL {
            return false;
        }
        let need = self.need_for(charge);
        gives_way(self.planned_entry(plan), need, self.cut, plan.moment)
    }

    /// Returns how many chunks of a need's class are given back if the key's dead item is dropped.
    fn back(&self, plan: &Plan<'_>, need: Need) -> u64
        requires { (step : Step) × (now : ℕ) × IsPlan plan.now self.now.content step now }
        ensures value { result ≡ back_at self.now.content plan.now.key plan.now.moment need }
        ensures most { result ≤ 8 }
    {
        dead_chunks(self.planned_entry(plan), need, self.cut, plan.moment)
    }

    /// Returns whether a plan can be taken and inserts an entry.
    fn wants_room(&self, plan: &Plan<'_>, desk: &Desk) -> bool
        requires { (step : Step) × (now : ℕ) × IsPlan plan.now self.now.content step now }
        ensures wants { result ≡ true → CanWrite plan.now.next self.now.content plan.now.key
            plan.now.moment desk.now }
        ensures enough { result ≡ false → CanWrite plan.now.next self.now.content plan.now.key
            plan.now.moment desk.now → PutsEntry plan.now.next self.now.content plan.now.key
            plan.now.moment → ⊥ }
        ensures slab { IsSlab desk.now.slab }
    {
        if desk.is_spent() {
            return false;
        }
        let Action::Write { charge, .. } = plan.next else {
            return false;
        };
        if plan.place.is_some() && !self.gives_way(plan) {
            return false;
        }
        let need = self.need_for(charge);
        desk.has_room(need, self.back(plan, need))
    }

    /// Returns the need of a charge, cut to the greatest.
    pub(crate) fn need_for(&self, charge: u64) -> Need
        requires { charge ≤ self.now.content.greatest }
        ensures value { result ≡ need_for charge }
        ensures is_need { IsNeed result }
        ensures holds { charge ≤ size_in result }
    {
        // Eight pages hold every charge up to the greatest, so there is a need.
        need_of(charge.min(self.greatest)).unwrap()
    }

    /// Sets the expiry of a key's item.
    #[tactic(auto, using(crate::proofs::CountLemmas::table_rules))]
    pub(crate) fn expire(&mut self, place: Option<Place>, hash: u64, key: &[u8], expiry: Expiry)
        requires { IsKnown self.old.content key.now hash place }
        ensures put { (item : Item) → get self.old.content.items key.now ≡ Some item →
            IsPut key.now hash self.old.content self.new.content
            (record item { expiry = expiry }) }
        ensures table { KeepsTable 0 (counts_of self.old) (counts_of self.new) }
    {
        if let Some(place) = self.index.find_again(place, hash, key) {
            self.index.set_expiry(place, expiry);
        }
    }

    /// Drops the item of a step's key, and gives its chunks back.
    #[tactic(auto, using(crate::proofs::CountLemmas::table_rules))]
    pub(crate) fn discard(
        &mut self,
        place: Option<Place>,
        hash: u64,
        step: &KeyStep<'_>,
        desk: &mut Desk,
    )
        requires known { IsKnown self.old.content (key_of step.now) hash place }
        requires out { IsOut (key_of step.now) self.old.content desk.old }
        ensures dropped { (item : Item) → get self.old.content.items (key_of step.now) ≡ Some item →
            IsDropped (key_of step.now) hash self.old.content self.new.content }
        ensures given { GivesBack (key_of step.now) (get self.old.content.items (key_of step.now))
            desk.old desk.new }
        ensures room { self.old.room ≤ self.new.room }
        ensures table { KeepsTable 1 (counts_of self.old) (counts_of self.new) }
    {
        if let Some(place) = self.index.find_again(place, hash, step.key()) {
            let entry = self.index.remove(place);
            desk.give(entry.into_chunks());
        }
    }
}

/// Adds one to the count of a hash's number.
fn count_one(counts: &mut [u64], hash: u64)
    requires many { length counts.old ≡ numbers }
    requires room { slice_index counts.old (hash % numbers) < 2 ^ 64 - 1 }
    ensures { counts.new ≡ slice_set counts.old (hash % numbers)
        (slice_index counts.old (hash % numbers) + 1) }
{
    counts[(hash % NUMBERS as u64) as usize] += 1;
}
