//! Steps that deliver their reply to an `Answer`.
//!
//! A hit is delivered while its item is in place, any other reply once the step is taken. The parts
//! of a large block are handed as shared memory, where they can be lent, so that the answer may
//! keep them for as long as it wants. A block of one part with fewer than 32768 bytes is handed in
//! place, to be copied.
ghost use Rattle.std.specs.Prelude.{◌≡◌, [], true, false, Some, IfOk, OnOk, OnErr};
ghost use Rattle.std.specs.Prelude.{◌<◌, get_or, slice_get};
ghost use Rattle.std.specs.List.{concat};
ghost use Rattle.std.specs.FinMap.{get};
ghost use Rattle.mc_protocol.specs.Commands.{key_of};
ghost use Rattle.mc_protocol.specs.Plain.{hit_of, item_need};
ghost use Rattle.mc_shelf.specs.States.{IsHash, parts_of};
ghost use Rattle.mc_shelf.specs.Hits.{is_read};
ghost use Rattle.mc_shelf.specs.Plans.{IsKnown, is_gone, stood};
ghost use Rattle.mc_shared.specs.History.{start_of};
ghost use Rattle.mc_shared.specs.Steps.{Agrees};
ghost use Rattle.mc_shared.specs.Store.{HasCalled, MayFailAfter};
ghost use Rattle.mc_shared.specs.Seats.{IsFree};
ghost use Rattle.mc_shared.specs.Holds.{HoldsShelf, IsAsked};
ghost use Rattle.mc_shared.specs.Telling.{AreLentParts, CameOfRead, IsDelivered, IsLentPart};
ghost use Rattle.mc_shared.specs.Telling.{IsSought, IsTold, ItemStands};

use crate::ask::Ask;
use crate::bay::Bay;
use crate::boxed::Boxed;
use crate::decision::Decision;
use crate::patience::{Gate, NoGate, Waiting};
use crate::rule::Seat;
use crate::step::growing_shelf;
use crate::steps::decide;
use crate::store::{Caller, Shared};
use mc_bytes::Lent;
use mc_hop::KeyHash;
use mc_protocol::{Answer, Bytes, KeyStep, Reply, StepFault, Unanswered};
use mc_shelf::{Found, Hit, Place, Shelf};
use std::alloc::{AllocError, Global};
use std::snapshot::Snapshot;
use std::sync::Wait;

/// The result of searching a read's item in its shelf.
#[derive(Drop)]
pub(crate) enum Sought {
    /// There is an item here, and a hit of it was delivered.
    Told(Place),
    /// The key has no item.
    Nothing,
    /// The item is dead. Nothing was delivered, and the read isn't taken there.
    Deferred,
}

/// The most parts of an item's block.
const MOST_PARTS: usize = 8;

/// The least block that is lent: a shorter one is copied sooner.
const LARGE: usize = 32_768;

/// Lends a part of an item's block as shared memory. `None` if it can't be lent, or isn't there.
fn lend_at(hit: &Hit<'_>, at: usize) -> Option<Lent>
    ensures { IsLentPart (parts_of hit.now.key hit.now.item) at result }
{
    if at < hit.parts() { hit.lend(at) } else { None }
}

/// Lends the parts of an item's block as shared memory, with `None` behind the last.
///
/// A part that can't be lent is `None`, too. It takes no memory.
fn lend_parts(hit: &Hit<'_>) -> [Option<Lent>; MOST_PARTS]
    ensures { AreLentParts (parts_of hit.now.key hit.now.item) result }
{
    [
        lend_at(hit, 0),
        lend_at(hit, 1),
        lend_at(hit, 2),
        lend_at(hit, 3),
        lend_at(hit, 4),
        lend_at(hit, 5),
        lend_at(hit, 6),
        lend_at(hit, 7),
    ]
}

/// Returns a part of an item's block, which lies in shared memory if that was lent.
fn shown<'a>(hit: &'a Hit<'_>, lent: &'a Option<Lent>, at: usize) -> Bytes<'a>
    requires place { at < (item_need hit.now.key hit.now.item).count }
    requires lent { IsLentPart (parts_of hit.now.key hit.now.item) at lent.now }
    ensures { slice_get (parts_of hit.now.key hit.now.item) at ≡ Some result }
{
    match lent {
        Some(part) => Bytes::of_lent(part),
        None => Bytes::of(hit.part(at)),
    }
}

/// Returns a part of an item's block, from what was lent of it. Parts behind the last are empty.
fn part_at<'a>(hit: &'a Hit<'_>, lents: &'a [Option<Lent>; MOST_PARTS], at: usize) -> Bytes<'a>
    requires place { at < 8 }
    requires lent { AreLentParts (parts_of hit.now.key hit.now.item) lents.now }
    ensures { result ≡ get_or (parts_of hit.now.key hit.now.item) at [] }
{
    if at < hit.parts() {
        shown(hit, &lents[at], at)
    } else {
        Bytes::of(b"".as_slice())
    }
}

/// Returns the parts of an item's block, from what was lent of them. It takes no memory.
///
/// Parts behind the last are empty.
fn parts_of<'a>(hit: &'a Hit<'_>, lents: &'a [Option<Lent>; MOST_PARTS]) -> [Bytes<'a>; MOST_PARTS]
    requires { AreLentParts (parts_of hit.now.key hit.now.item) lents.now }
    ensures { concat result ≡ hit.now.item.block }
{
    // for the proof: how many parts there are, and that they make up the block
    let _count = hit.parts();
    [
        part_at(hit, lents, 0),
        part_at(hit, lents, 1),
        part_at(hit, lents, 2),
        part_at(hit, lents, 3),
        part_at(hit, lents, 4),
        part_at(hit, lents, 5),
        part_at(hit, lents, 6),
        part_at(hit, lents, 7),
    ]
}

/// Delivers a hit of an item whose block is one large part, which is lent if its memory can be.
#[inline(never)]
fn tell_large<A: Answer>(hit: &Hit<'_>, answer: &mut A) -> Result<(), AllocError>
    requires place { 0 < (item_need hit.now.key hit.now.item).count }
    requires lone { slice_get (parts_of hit.now.key hit.now.item) 0 ≡ Some hit.now.item.block }
    ensures told { OnOk result (A.told answer.old (hit_of (Some hit.now.item)) answer.new) }
    ensures err { OnErr result (answer.new ≡ answer.old) }
{
    let lent = hit.lend(0);
    answer.hit(hit.flags(), hit.unique(), &[shown(hit, &lent, 0)])
}

/// Delivers a hit of an item in its parts, which are lent where their memory can be.
#[inline(never)]
fn tell_parts<A: Answer>(hit: &Hit<'_>, answer: &mut A) -> Result<(), AllocError>
    ensures told { OnOk result (A.told answer.old (hit_of (Some hit.now.item)) answer.new) }
    ensures err { OnErr result (answer.new ≡ answer.old) }
{
    let lents = lend_parts(hit);
    answer.hit(hit.flags(), hit.unique(), &parts_of(hit, &lents))
}

/// Delivers a hit of an item in its parts, without copying its block.
///
/// The parts of a large block are lent as shared memory, where they can be, so that the answer may
/// keep them.
fn tell_item<A: Answer>(hit: &Hit<'_>, answer: &mut A) -> Result<(), AllocError>
    ensures told { OnOk result (A.told answer.old (hit_of (Some hit.now.item)) answer.new) }
    ensures err { OnErr result (answer.new ≡ answer.old) }
{
    if hit.parts() == 1 {
        let part = hit.part(0);
        if part.len() < LARGE {
            return answer.hit(hit.flags(), hit.unique(), &[Bytes::of(part)]);
        }
        return tell_large(hit, answer);
    }
    tell_parts(hit, answer)
}

/// Searches the item of a read in its shelf, and delivers a hit of it in place.
fn tell_hit<A: Answer>(shelf: &Shelf, ask: &Ask<'_>, answer: &mut A) -> Result<Sought, AllocError>
    requires { IsHash shelf.now.content (key_of ask.now.step.now) ask.now.hash }
    ensures sought { IfOk result (λ sought. IsSought A.told shelf.now.content ask.now.step.now
        ask.now.moment answer.old sought answer.new) }
    ensures stands { OnErr result (ItemStands shelf.now.content ask.now.step.now ask.now.moment) }
    ensures err { OnErr result (answer.new ≡ answer.old) }
{
    match shelf.find(ask.step.key(), ask.hash, ask.moment) {
        Found::Nothing => Ok(Sought::Nothing),
        Found::Dead => Ok(Sought::Deferred),
        Found::Standing(hit) => match tell_item(&hit, answer) {
            Ok(()) => Ok(Sought::Told(hit.place())),
            Err(refused) => Err(refused),
        },
    }
}

/// Returns whether a step reads an item: get and gets, gat and gats.
fn is_read(step: &KeyStep<'_>) -> bool
    ensures { result ≡ is_read step.now }
{
    match step {
        KeyStep::Read { .. } | KeyStep::ReadTouch { .. } => true,
        _ => false,
    }
}

/// Delivers the reply of a step that was taken, or returns why the step wasn't taken.
#[inline]
fn tell<A: Answer>(taken: Result<Reply, StepFault>, answer: &mut A) -> Result<(), Unanswered>
    ensures { IsDelivered A.told taken answer.old result answer.new }
{
    match taken {
        Ok(reply) => match answer.reply(&reply) {
            Ok(()) => Ok(()),
            Err(_) => Err(Unanswered::Untold),
        },
        Err(StepFault::NoMemory) => Err(Unanswered::NoMemory),
        Err(StepFault::NumbersSpent) => Err(Unanswered::NumbersSpent),
    }
}

impl<K: KeyHash + Drop> Shared<K> {
    /// Gives a shelf back with the decision of a read whose key has no dead item there.
    ///
    /// `place` is where its item is.
    fn give_read(&self, seat: &mut Seat, shelf: Box<Shelf>, ask: &Ask<'_>, place: Option<Place>)
        requires holds { HoldsShelf K.hash_of self.now seat.old ask.now.at shelf.value.content }
        requires asked { IsAsked K.hash_of self.now ask.now }
        requires read { is_read ask.now.step.now ≡ true }
        requires known { IsKnown shelf.value.content (key_of ask.now.step.now) ask.now.hash place }
        requires alive { is_gone shelf.value.content.cut ask.now.moment
            (get shelf.value.content.items (key_of ask.now.step.now)) ≡ false }
        ensures free { IsFree self.now.table self.now.began seat.new }
        ensures called { HasCalled (start_of K.hash_of self.now.began) seat.old.me.0.past
            ask.now.step.now ask.now.moment
            (hit_of (stood shelf.value.content ask.now.step.now ask.now.moment))
            seat.new.me.0.past }
    {
        let mut shelf = shelf;
        let before = Snapshot::of(&*shelf);
        shelf.settle_read(ask.step, ask.hash, ask.moment, place);
        let decision = Decision::Read {
            step: ask.step,
            moment: ask.moment,
            shelf: &before,
        };
        let value = Bay::Shelf(Boxed::of(shelf));
        decide(&self.board, seat, ask.at as usize, value, &decision);
    }

    /// Takes a read at its shelf: a hit is delivered there before it is decided, a miss isn't
    /// delivered.
    ///
    /// If the item is dead, or the delivery fails, the read isn't taken. The gate is called once
    /// while the shelf is held.
    fn read_telling<R: Wait, G: Gate, A: Answer>(
        &self,
        patience: &Waiting<'_, R, G>,
        caller: &mut Caller,
        ask: &Ask<'_>,
        answer: &mut A,
    ) -> Result<Sought, AllocError>
        requires own { caller.old.table ≡ self.now.table }
        requires asked { IsAsked K.hash_of self.now ask.now }
        requires read { is_read ask.now.step.now ≡ true }
        ensures same { (caller.new.table ≡ caller.old.table)
            × Agrees (start_of K.hash_of self.now.began) caller.new.past }
        ensures came { IfOk result (λ sought. CameOfRead A.told (start_of K.hash_of self.now.began)
            caller.old.past ask.now.step.now ask.now.moment answer.old sought caller.new.past
            answer.new) }
        ensures refused { OnErr result (MayFailAfter (start_of K.hash_of self.now.began)
            caller.old.past ask.now.step.now ask.now.moment) }
        ensures err { OnErr result ((caller.new.past ≡ caller.old.past)
            × (answer.new ≡ answer.old)) }
    {
        let Caller { seat, grows } = caller;
        let shelf = self.wait_for_shelf(patience.rt, seat, ask.at);
        patience.gate.inside(ask.at);
        *grows = growing_shelf(&*shelf, ask.at);
        match tell_hit(&*shelf, ask, answer) {
            Ok(Sought::Told(place)) => {
                self.give_read(seat, shelf, ask, Some(place));
                Ok(Sought::Told(place))
            }
            Ok(Sought::Nothing) => {
                self.give_read(seat, shelf, ask, None);
                Ok(Sought::Nothing)
            }
            Ok(Sought::Deferred) => {
                self.give_shelf(seat, shelf, ask.at);
                Ok(Sought::Deferred)
            }
            Err(refused) => {
                self.give_shelf(seat, shelf, ask.at);
                Err(refused)
            }
        }
    }

    /// Takes a step, decides a miss by the key's number if it can, and delivers the reply.
    ///
    /// A hit of a read is delivered while its shelf is held and before it is decided: if the
    /// delivery fails, the read isn't taken. Any other reply is delivered once the step is taken.
    pub(crate) fn step_telling<R: Wait, G: Gate, A: Answer>(
        &self,
        patience: &Waiting<'_, R, G>,
        alloc: Global,
        caller: &mut Caller,
        ask: &Ask<'_>,
        answer: &mut A,
    ) -> Result<(), Unanswered>
        requires own { caller.old.table ≡ self.now.table }
        requires asked { IsAsked K.hash_of self.now ask.now }
        ensures { IsTold A.told (start_of K.hash_of self.now.began) caller.old ask.now.step.now
            ask.now.moment answer.old result caller.new answer.new }
    {
        if !is_read(ask.step) {
            return tell(self.answer(patience, alloc, caller, ask), answer);
        }
        if self.is_told_absent(caller, ask) {
            return tell(Ok(Reply::Miss), answer);
        }
        match self.read_telling(patience, caller, ask, answer) {
            Ok(Sought::Told(_)) => Ok(()),
            Ok(Sought::Nothing) => tell(Ok(Reply::Miss), answer),
            Ok(Sought::Deferred) => {
                let patience = Waiting {
                    rt: patience.rt,
                    gate: &NoGate,
                };
                tell(self.answer(&patience, alloc, caller, ask), answer)
            }
            Err(_) => Err(Unanswered::NoMemory),
        }
    }
}
