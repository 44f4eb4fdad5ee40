//! Writing the item of a step: into the chunks of the key's item, or into others.
//!
//! A set of an existing key with the same need goes into the item's own chunks if as many are free,
//! because taking some and giving the item's back leaves the slab unchanged. An append goes behind
//! the existing block under the same rule, so the existing block isn't copied.

ghost use Rattle.std.specs.Prelude.{◌≡◌, ◌↔◌, ◌||◌, ℕ, ◌≤◌, ◌<◌, List, length};
ghost use Rattle.std.specs.Prelude.{Option, Some, None, Err, IfOk, IfSome, OnErr, OnOk, is_some, true, false};
ghost use Rattle.std.specs.FinMap.{get};
ghost use Rattle.mc_slab.specs.Needs.{need_for, same_need};
ghost use Rattle.mc_slab.specs.Chunks.{need_in};
ghost use Rattle.mc_protocol.specs.Commands.{key_of, longest_key};
ghost use Rattle.mc_protocol.specs.Plain.{block_of, charge, item_need};
ghost use Rattle.mc_shelf.specs.Counts.{KeepsTable, counts_of};
ghost use Rattle.mc_shelf.specs.States.{CanStandAt, entry_with};
ghost use Rattle.mc_shelf.specs.Plans as plans;
ghost use Rattle.mc_shelf.specs.Plans.{CanWrite, CanWriteLeft, CanWriteNext, GivesBack};
ghost use Rattle.mc_shelf.specs.Plans.{GoesApart, GoesInto, GoesOver, HasRoom, IsDropped, IsGiven, IsKnown};
ghost use Rattle.mc_shelf.specs.Plans.{IsOut, IsPlan, NeedsPages, StaysUntil, StepTaken};
ghost use Rattle.mc_shelf.specs.Plans.{StoodBefore, block_in, has_no_number, is_gone, item_in};
ghost use Rattle.mc_shelf.specs.Plans.{made_block, told_next, waiting, writes, written_next};

use crate::desk::Desk;
use crate::entry::{Entry, bare_parts};
use crate::exchange::StepMemory;
use crate::plan::{Action, Plan, is_gone};
use crate::shelf::Shelf;
use itoa::Buffer;
use mc_item::Parts;
use mc_protocol::{Body, Bytes, KeyStep, Reply, StepFault};
use mc_slab::{Chunks, Need};
use mc_time::Moment;
use std::alloc::Global;

/// Bytes from which on a block for other chunks is copied after the desk was given back.
const LARGE: usize = 4096;

/// Returns whether the block is a number's digits.
fn counts(body: Body) -> bool
    ensures { result ≡ plans.counts body }
{
    match body {
        Body::Given | Body::Appended | Body::Prepended => false,
        Body::Counted(_) => true,
    }
}

/// Returns whether the item goes into the chunks of the key's item, which are those that it needs.
///
/// It does if the key's item is dead or a number is counted. It also does if as many others are
/// unused, and the block is the step's own or comes behind the present one: taking them and giving
/// the item's back would leave the slab unchanged. Otherwise it doesn't.
fn goes_over(body: Body, gone: bool, need: Need, desk: &Desk) -> bool
    ensures told { result ≡ plans.goes_over body gone need desk.now.slab }
    ensures stands { result ≡ false → gone ≡ false }
{
    match body {
        Body::Given | Body::Appended => gone || desk.has_unused(need),
        Body::Prepended => gone,
        Body::Counted(_) => true,
    }
}

/// Returns whether the step's own block is written, and is so large that its copying is left.
///
/// Copying it then costs more than coming back for it.
fn leaves_block(body: Body, step: &KeyStep<'_>) -> bool
    ensures { result ≡ true → body ≡ Body.Given }
{
    match body {
        Body::Given => LARGE <= step.block().len(),
        Body::Appended | Body::Prepended | Body::Counted(_) => false,
    }
}

/// Writes the item that a body makes of a step's block and an old item, and returns its entry.
fn entry_in(
    chunks: Chunks,
    parts: &Parts<'_>,
    body: Body,
    step: &KeyStep<'_>,
    old: Option<&Entry>,
) -> Entry
    requires key { length parts.now.key.now ≤ longest_key }
    requires need { need_in chunks ≡ need_for (charge parts.now.key.now
        (made_block body (block_of step.now) (block_in (item_in old)))) }
    requires room { charge parts.now.key.now
        (made_block body (block_of step.now) (block_in (item_in old))) ≤ length chunks.bytes }
    ensures { result ≡ entry_with parts.now
        (made_block body (block_of step.now) (block_in (item_in old.entry))) }
{
    let block = step.block();
    match (body, old) {
        (Body::Appended, Some(old)) => {
            let front = old.block_len();
            let mut entry = Entry::begin(chunks, parts, front + block.len());
            entry.fill_from(0, old);
            entry.fill(front, block);
            entry
        }
        (Body::Prepended, Some(old)) => {
            let front = block.len();
            let mut entry = Entry::begin(chunks, parts, front + old.block_len());
            entry.fill(0, block);
            entry.fill_from(front, old);
            entry
        }
        (Body::Counted(number), _) => {
            let mut buffer = Buffer::new();
            let digits = buffer.format(number).as_bytes();
            Entry::write(chunks, parts, &Bytes::of(digits))
        }
        _ => Entry::write(chunks, parts, &step.block_bytes()),
    }
}

/// Writes the item that a body makes into an entry's chunks: over the block there, or behind it.
///
/// They must be the chunks that the new charge needs, and may take over the block's memory.
pub(crate) fn write_over(entry: &mut Entry, parts: &Parts<'_>, body: Body, block: &Bytes<'_>)
    requires body { GoesOver body }
    requires key { parts.now.key.now ≡ entry.old.key }
    requires short { length parts.now.key.now ≤ longest_key }
    requires need { need_for (charge parts.now.key.now
        (made_block body block.now entry.old.item.block))
        ≡ item_need entry.old.key entry.old.item }
    ensures { entry.new ≡ record entry.old {
      item = (entry_with parts.now (made_block body block.now entry.old.item.block)).item;
    } }
{
    match body {
        Body::Given => entry.rewrite(parts, block),
        Body::Appended => entry.extend(block.as_slice(), parts),
        Body::Counted(number) => {
            let mut buffer = Buffer::new();
            let digits = buffer.format(number).as_bytes();
            entry.rewrite(parts, &Bytes::of(digits));
        }
        // No block comes before the present one in its chunks, by what this call requires.
        Body::Prepended => unreachable!(),
    }
}

/// Returns whether the item that was found has the chunks of a need.
pub(crate) fn has_need(found: Option<&Entry>, need: Need) -> bool
    ensures { (key : List ℕ) → IfSome found.entry (λ entry. entry.now.key ≡ key) →
        result ≡ plans.has_need key (item_in found.entry) need }
{
    match found {
        Some(entry) => is_same(entry.need(), need),
        None => false,
    }
}

/// Returns whether two needs are the same.
pub(crate) fn is_same(one: Need, other: Need) -> bool
    ensures { result ≡ same_need one other }
{
    one.class().number() == other.class().number() && one.count() == other.count()
}

/// Returns whether the item that was found gives its chunks back before a write of a need.
///
/// It does if it is dead and has chunks of the need's class, but another number of them.
pub(crate) fn gives_way(found: Option<&Entry>, need: Need, cut: Option<u64>, now: Moment) -> bool
    ensures { (key : List ℕ) → IfSome found.entry (λ entry. entry.now.key ≡ key) →
        result ≡ plans.gives_way cut now key (item_in found.entry) need }
{
    !has_need(found, need) && 0 < dead_chunks(found, need, cut, now)
}

/// Returns how many chunks of a need's class are given back if the dead item is dropped.
pub(crate) fn dead_chunks(found: Option<&Entry>, need: Need, cut: Option<u64>, now: Moment) -> u64
    ensures value { (key : List ℕ) → IfSome found.entry (λ entry. entry.now.key ≡ key) →
        result ≡ plans.dead_chunks cut now key (item_in found.entry) need.class }
    ensures most { result ≤ 8 }
{
    match found {
        Some(entry) => {
            let own = entry.need();
            if own.class().number() == need.class().number() && is_gone(found, cut, now) {
                u64::from(own.count())
            } else {
                0
            }
        }
        None => 0,
    }
}

impl Shelf {
    /// Begins the write of a plan, in the chunks of the key's item or in others.
    #[tactic(auto, using(crate::proofs::CountLemmas::table_rules))]
    pub(crate) fn write(
        &mut self,
        alloc: Global,
        plan: &Plan<'_>,
        step: &KeyStep<'_>,
        desk: &mut Desk,
        brought: StepMemory,
    ) -> Result<Action, StepFault>
        requires writes { writes plan.now.next ≡ true }
        requires plan { IsPlan plan.now self.old.content step.now plan.now.moment }
        requires room { CanWrite plan.now.next self.old.content (key_of step.now) plan.now.moment
            desk.old → HasRoom plan.now self.old step.now }
        requires key { length (key_of step.now) ≤ longest_key }
        requires stands { CanStandAt (key_of step.now) self.old.content desk.old }
        ensures took { IfOk result (λ next. StepTaken step.now plan.now.moment plan.now.hash
            self.old.content desk.old (told_next next)
            (written_next plan.now next step.now self.new.content) desk.new) }
        ensures left { IfOk result (λ next. CanWriteNext plan.now next step.now self.new) }
        ensures stays { OnOk result (StaysUntil plan.now plan.now.next step.now self.old.content
            desk.old.slab self.new.content) }
        ensures spent { result ≡ Err StepFault.NumbersSpent ↔ has_no_number desk.old }
        ensures refused { result ≡ Err StepFault.NoMemory → NeedsPages plan.now.next
            self.old.content (key_of step.now) plan.now.moment desk.old }
        ensures table { KeepsTable 1 (counts_of self.old) (counts_of self.new) }
        ensures err { OnErr result
            ((self.new.content ≡ self.old.content) × (desk.new ≡ desk.old)) }
    {
        let Action::Write { charge, body, .. } = plan.next else {
            // Every other plan writes nothing, and this call requires that it writes.
            unreachable!();
        };
        if desk.is_spent() {
            return Err(StepFault::NumbersSpent);
        }
        let need = self.need_for(charge);
        let Some(back) = self.fit(plan, body, need, step, desk) else {
            let left = plan.left(desk.draw(), None);
            if counts(body) {
                // nothing to give back: the item keeps its own chunks
                let _none = self.write_left(plan, left, step);
                return Ok(Action::Answer(body.reply()));
            }
            return Ok(left);
        };
        if !desk.has_room(need, back) {
            self.drop_dead(plan, step, desk);
            return Ok(Action::Answer(Reply::NoChunk));
        }
        let StepMemory { pages, exchange } = brought;
        if 0 < back {
            // it is dropped, so nothing is exchanged for its chunks
            desk.ready(alloc, need, back, pages)?;
            self.discard(plan.place, plan.hash, step, desk);
            let chunks = desk.take_unused(alloc, need);
            let left = plan.left(desk.draw(), Some(chunks));
            return Ok(self.put(plan, left, step, desk));
        }
        let chunks = desk.take(alloc, need, pages)?;
        match self.exchange_drawn(plan, step, exchange, desk) {
            Some(unique) => Ok(plan.left(unique, Some(chunks))),
            None => {
                let left = plan.left(desk.draw(), Some(chunks));
                Ok(self.put(plan, left, step, desk))
            }
        }
    }

    /// Returns how many chunks of its class a dead item gives back before a write takes others, or
    /// `None` if the write goes into the chunks of the key's item.
    fn fit(
        &self,
        plan: &Plan<'_>,
        body: Body,
        need: Need,
        step: &KeyStep<'_>,
        desk: &Desk,
    ) -> Option<u64>
        requires { IsKnown self.now.content (key_of step.now) plan.now.hash plan.now.place }
        ensures over { result ≡ None → GoesInto plan.now body step.now self.now.content
            need desk.now.slab }
        ensures apart { IfSome result (λ back. GoesApart plan.now body step.now
            self.now.content need desk.now.slab back) }
        ensures most { IfSome result (λ back. back ≤ 8) }
    {
        let found = self.entry(plan.place, plan.hash, step.key());
        if !has_need(found, need) {
            return Some(dead_chunks(found, need, self.cut, plan.moment));
        }
        let gone = is_gone(found, self.cut, plan.moment);
        if goes_over(body, gone, need, desk) {
            None
        } else {
            Some(0)
        }
    }

    /// Puts the item of what is left under its key, in the chunks that wait for it. The old item's
    /// chunks go back.
    ///
    /// A large block that is the step's own is left to be written; a new key's chunks wait for the
    /// whole.
    #[tactic(auto, using(crate::proofs::CountLemmas::table_rules))]
    fn put(&mut self, plan: &Plan<'_>, left: Action, step: &KeyStep<'_>, desk: &mut Desk) -> Action
        requires can { CanWriteNext plan.now left step.now self.old }
        requires waits { is_some (waiting left) ≡ true }
        requires out { IsOut (key_of step.now) self.old.content desk.old }
        ensures told { told_next result ≡ told_next left.entry }
        ensures content { written_next plan.now result step.now self.new.content
            ≡ written_next plan.now left.entry step.now self.old.content }
        ensures given { GivesBack (key_of step.now) (get self.old.content.items (key_of step.now))
            desk.old desk.new }
        ensures left { CanWriteNext plan.now result step.now self.new }
        ensures table { KeepsTable 0 (counts_of self.old) (counts_of self.new) }
    {
        let Action::Left { body, .. } = left else {
            // Chunks wait for nothing else, and this call requires that they wait.
            unreachable!();
        };
        if leaves_block(body, step) {
            return self.begin_block(plan, left, step, desk);
        }
        if let Some(old) = self.write_left(plan, left, step) {
            desk.give(old.into_chunks());
        }
        Action::Answer(body.reply())
    }

    /// Puts an item of the block's length in place of the key's item, whose chunks go back. The
    /// block is still to be written.
    ///
    /// A new key has no item yet: its chunks wait until the block is written.
    #[tactic(auto, using(crate::proofs::CountLemmas::table_rules))]
    fn begin_block(
        &mut self,
        plan: &Plan<'_>,
        left: Action,
        step: &KeyStep<'_>,
        desk: &mut Desk,
    ) -> Action
        requires can { CanWriteNext plan.now left step.now self.old }
        requires waits { is_some (waiting left) ≡ true }
        requires own { IsGiven left }
        requires out { IsOut (key_of step.now) self.old.content desk.old }
        ensures told { told_next result ≡ told_next left.entry }
        ensures content { written_next plan.now result step.now self.new.content
            ≡ written_next plan.now left.entry step.now self.old.content }
        ensures given { GivesBack (key_of step.now) (get self.old.content.items (key_of step.now))
            desk.old desk.new }
        ensures left { CanWriteNext plan.now result step.now self.new }
        ensures table { KeepsTable 0 (counts_of self.old) (counts_of self.new) }
    {
        let Action::Left {
            unique,
            chunks,
            flags,
            expiry,
            body,
        } = left
        else {
            // Chunks wait for nothing else, and this call requires that they wait.
            unreachable!();
        };
        let key = step.key();
        let Some(place) = self.index.find_again(plan.place, plan.hash, key) else {
            return Action::Left {
                unique,
                chunks,
                flags,
                expiry,
                body,
            };
        };
        let parts = bare_parts(plan.hash, key, flags, expiry, unique, plan.moment);
        let block = step.block_bytes();
        let entry = Entry::begin(chunks.unwrap(), &parts, block.as_slice().len());
        let old = self.index.replace(place, entry);
        desk.give(old.into_chunks());
        Action::Left {
            unique,
            chunks: None,
            flags,
            expiry,
            body,
        }
    }

    /// Writes what is left of a write: its item, under its key. Returns the old entry if the item
    /// went into other chunks than that one's.
    #[tactic(auto, using(crate::proofs::CountLemmas::table_rules))]
    pub(crate) fn write_left(
        &mut self,
        plan: &Plan<'_>,
        left: Action,
        step: &KeyStep<'_>,
    ) -> Option<Entry>
        requires { CanWriteLeft plan.now left step.now self.old }
        ensures content { self.new.content
            ≡ written_next plan.now left.entry step.now self.old.content }
        ensures before { is_some (waiting left.entry) ≡ true → StoodBefore (key_of step.now)
            (get self.old.content.items (key_of step.now)) result }
        ensures none { waiting left.entry ≡ None → result ≡ None }
        ensures table { KeepsTable 0 (counts_of self.old) (counts_of self.new) }
    {
        let Action::Left {
            unique,
            chunks,
            flags,
            expiry,
            body,
        } = left
        else {
            // Nothing else is left of a write, and this call requires what is.
            unreachable!();
        };
        let parts = bare_parts(plan.hash, step.key(), flags, expiry, unique, plan.moment);
        let place = self.index.find_again(plan.place, plan.hash, parts.key);
        let Some(chunks) = chunks else {
            if let Some(place) = place {
                self.index
                    .write_over(place, &parts, body, &step.block_bytes());
            }
            return None;
        };
        let old = self.index.found_entry(place);
        let entry = entry_in(chunks, &parts, body, step, old);
        match place {
            Some(place) => Some(self.index.replace(place, entry)),
            None => {
                self.index.insert_reserved(entry);
                None
            }
        }
    }

    /// Drops the item of a plan's key if it is dead.
    #[tactic(auto, using(crate::proofs::CountLemmas::table_rules))]
    fn drop_dead(&mut self, plan: &Plan<'_>, step: &KeyStep<'_>, desk: &mut Desk)
        requires known { IsKnown self.old.content (key_of step.now) plan.now.hash plan.now.place }
        requires out { IsOut (key_of step.now) self.old.content desk.old }
        ensures dead { is_gone self.old.content.cut plan.now.moment
            (get self.old.content.items (key_of step.now)) ≡ true →
            (IsDropped (key_of step.now) plan.now.hash self.old.content self.new.content
            × GivesBack (key_of step.now) (get self.old.content.items (key_of step.now))
            desk.old desk.new) }
        ensures alive { is_gone self.old.content.cut plan.now.moment
            (get self.old.content.items (key_of step.now)) ≡ false →
            ((self.new.content ≡ self.old.content) × (desk.new ≡ desk.old)) }
        ensures table { KeepsTable 1 (counts_of self.old) (counts_of self.new) }
    {
        let found = self.entry(plan.place, plan.hash, step.key());
        if is_gone(found, self.cut, plan.moment) {
            self.discard(plan.place, plan.hash, step, desk);
        }
    }
}
