//! A step on a key: at its shelf, and at the desk if that is needed.
//!
//! A step has one plan. Room for its entry, and a waiting step's pages and chunks in exchange, are
//! made while the desk is free; what is refused then is made at the desk. So a write meets want of
//! memory only behind the errors of numbers and chunks. A read whose copy is refused memory gets
//! its error at once. A purge that finds nothing dead, and a miss, are decided without the desk.
ghost use Rattle.std.specs.Prelude.{◌≡◌, ◌≤◌, ℕ, Option, length, true, false, Err};
ghost use Rattle.std.specs.Prelude.{IfOk, IfErr, OnErr, OnOk};
ghost use Rattle.mc_time.specs.declared.expiry.Expiry.{Expiry as Expires};
ghost use Rattle.mc_protocol.specs.Commands.{key_of, longest_key};
ghost use Rattle.mc_protocol.specs.Laws.{IsOnKey};
ghost use Rattle.mc_protocol.specs.declared.reply.Reply.{Reply as Told};
ghost use Rattle.mc_protocol.specs.declared.step.KeyStep.{KeyStep as Step};
ghost use Rattle.mc_protocol.specs.declared.row.Row.TheVariants.{Reads};
ghost use Rattle.mc_slab.specs.Slabs.{IsSlab};
ghost use Rattle.mc_shelf.specs.States.{CanStandAt};
ghost use Rattle.mc_shelf.specs.Plans.{CanFinish, CanLook, CanWrite, HasRoom, IsPlan, IsSpent};
ghost use Rattle.mc_shelf.specs.Plans.{MayWantMemory, PutsEntry, StepTaken, finished, row_at, told_next};
ghost use Rattle.mc_shelf.specs.Plans.{wants_desk};
ghost use Rattle.mc_shared.specs.History.{start_of};
ghost use Rattle.mc_shared.specs.Store.{HasCalled, Refuses, May};
ghost use Rattle.mc_shared.specs.Seats.{MayAsk, IsAnswered, IsFree};
ghost use Rattle.mc_shared.specs.declared.ask.Ask.{Ask as Asked};
ghost use Rattle.mc_shared.specs.Holds.{HoldsBoth, HoldsShelf, HoldsSome, IsAsked, IsPlanned};
ghost use Rattle.mc_shared.specs.Holds.{KeepsShelf, TakesDesk, Unmet, caller_at, told_of};

use crate::ask::{Ask, Untaken};
use crate::bay::Bay;
use crate::boxed::Boxed;
use crate::decision::Decision;
use crate::fault::TryFault;
use crate::patience::{Busy, Gate, NoGate, Once, Patience, Waiting};
use crate::rule::Seat;
use crate::steps::{decide, lower_all, raise_for};
use crate::store::{Caller, Shared};
use mc_hop::KeyHash;
use mc_protocol::{KeyStep, Reply, StepFault};
use mc_shelf::{Desk, NUMBERS, Plan, Shelf, StepMemory};
use mc_slab::Pages;
use mc_time::Moment;
use std::alloc::{AllocError, Global};
use std::sync::Wait;

/// What was made ready for a step before the desk was taken.
#[derive(Drop)]
struct Ready {
    /// Whether the shelf has room for the entry that the step inserts.
    room: bool,
    brought: StepMemory,
}

/// What a step has at the desk: its shelf and the desk, its plan, and what was made ready.
struct AtDesk<'k> {
    shelf: Box<Shelf>,
    desk: Box<Desk>,
    plan: Plan<'k>,
    ready: Ready,
}

/// Returns the plan of a step at a shelf, and whether the shelf has room for the entry that it
/// inserts.
///
/// The only error is a read's: memory for the copy of its block is refused.
fn look<'k>(alloc: Global, shelf: &mut Shelf, ask: &Ask<'k>) -> Result<(Plan<'k>, bool), AllocError>
    requires { CanLook ask.now.step.now ask.now.hash shelf.old.content }
    ensures content { shelf.new.content ≡ shelf.old.content }
    ensures plan { IfOk result (λ looked. IsPlanned looked.0 shelf.new.content ask.now) }
    ensures room { IfOk result (λ looked. looked.1 ≡ true →
        HasRoom looked.0 shelf.new ask.now.step.now) }
    ensures err { OnErr result ((expiry : Option Expires)
        × (row_at shelf.old.content ask.now.step.now ask.now.moment ≡ Reads expiry)) }
{
    let plan = shelf.plan(alloc, ask.step, ask.hash, ask.moment)?;
    // Room that is refused here is made at the desk, behind the errors of a number and chunks.
    let has_room = shelf.make_room(alloc, &plan).is_ok();
    Ok((plan, has_room))
}

/// Makes the room for the entry that a plan inserts, if it is missing and the desk has a number and
/// chunks for the write.
fn make_missing_room(
    alloc: Global,
    shelf: &mut Shelf,
    desk: &Desk,
    plan: &Plan<'_>,
    has_room: bool,
) -> Result<(), AllocError>
    requires { (step : Step) × ((now : ℕ) × (IsPlan plan.now shelf.old.content step now
        × (has_room ≡ true → HasRoom plan.now shelf.old step))) }
    ensures content { shelf.new.content ≡ shelf.old.content }
    ensures room { OnOk result (CanWrite plan.now.next shelf.old.content plan.now.key
        plan.now.moment desk.now → PutsEntry plan.now.next shelf.old.content plan.now.key
        plan.now.moment → 1 ≤ shelf.new.room) }
    ensures refused { OnErr result (CanWrite plan.now.next shelf.old.content plan.now.key
        plan.now.moment desk.now) }
    ensures slab { IsSlab desk.now.slab }
{
    // for the proof: the invariant of the desk
    let _number = desk.next_unique();
    if has_room {
        return Ok(());
    }
    shelf.make_room_at(alloc, plan, desk)
}

/// Begins a step at a shelf and the desk, by its plan.
///
/// Room that is missing is made, if the desk has a number and chunks for the write.
fn begin(
    alloc: Global,
    shelf: &mut Shelf,
    desk: &mut Desk,
    plan: &mut Plan<'_>,
    ready: Ready,
    ask: &Ask<'_>,
) -> Result<(), StepFault>
    requires plan { IsPlanned plan.old shelf.old.content ask.now }
    requires room { ready.room ≡ true → HasRoom plan.old shelf.old ask.now.step.now }
    requires key { length (key_of ask.now.step.now) ≤ longest_key }
    requires stands { CanStandAt (key_of ask.now.step.now) shelf.old.content desk.old }
    ensures took { OnOk result (StepTaken ask.now.step.now ask.now.moment ask.now.hash
        shelf.old.content desk.old (told_next plan.new.next)
        (finished plan.new ask.now.step.now shelf.new.content) desk.new) }
    ensures left { OnOk result (CanFinish plan.new ask.now.step.now shelf.new) }
    ensures spent { result ≡ Err StepFault.NumbersSpent →
        IsSpent ask.now.step.now ask.now.moment shelf.old.content desk.old }
    ensures refused { result ≡ Err StepFault.NoMemory →
        MayWantMemory ask.now.step.now ask.now.moment shelf.old.content desk.old }
    ensures err { OnErr result
        ((shelf.new.content ≡ shelf.old.content) × (desk.new ≡ desk.old)) }
{
    make_missing_room(alloc, shelf, desk, plan, ready.room)?;
    shelf.begin(alloc, plan, ask.step, desk, ready.brought)
}

/// Returns the shelf if entries of it are left to move.
pub(crate) fn growing_shelf(shelf: &Shelf, at: u32) -> Option<u32> {
    if shelf.entries_to_move() == 0 {
        None
    } else {
        Some(at)
    }
}

impl<K: KeyHash + Drop> Shared<K> {
    ghost use Rattle.mc_protocol.specs.Commands.{longest_key};

    /// Takes a step that the shelf decides alone, and gives the shelf back with the decision.
    fn settle(&self, seat: &mut Seat, shelf: Box<Shelf>, plan: Plan<'_>, ask: &Ask<'_>) -> Reply
        requires holds { HoldsShelf K.hash_of self.now seat.old ask.now.at shelf.value.content }
        requires asked { IsAsked K.hash_of self.now ask.now }
        requires plan { IsPlanned plan shelf.value.content ask.now }
        requires no_desk { wants_desk plan.next ≡ false }
        ensures free { IsFree self.now.table self.now.began seat.new }
        ensures called { HasCalled (start_of K.hash_of self.now.began) seat.old.me.0.past
            ask.now.step.now ask.now.moment result seat.new.me.0.past }
    {
        let mut shelf = shelf;
        let reply = shelf.settle(plan);
        let decision = Decision::Settled {
            step: ask.step,
            moment: ask.moment,
            reply: &reply,
        };
        let value = Bay::Shelf(Boxed::of(shelf));
        decide(&self.board, seat, ask.at as usize, value, &decision);
        reply
    }

    /// Takes the desk for a step, with memory that was allocated for it before.
    ///
    /// That memory is pages, if the step wants some, and chunks in exchange for its item's if it
    /// copies out of those: up to 16 MiB, written while nobody waits for the desk. The chunks are
    /// made before the desk is taken. For pages the desk is given back, and taken again with them
    /// in hand. If memory is refused, or the desk is only tried once, there are none: the step then
    /// allocates or copies at the desk. Others may have changed meanwhile what is wanted, so both
    /// are only hints.
    fn take_desk_for<B: Drop, P: Patience<B>>(
        &self,
        patience: &P,
        seat: &mut Seat,
        alloc: Global,
        shelf: &Shelf,
        plan: &Plan<'_>,
    ) -> Result<(Box<Desk>, StepMemory), B>
        requires plan { (ask : Asked) × IsPlanned plan.now shelf.now.content ask }
        requires holds { HoldsSome K.hash_of self.now seat.old }
        ensures past { seat.new.me.0.past ≡ seat.old.me.0.past }
        ensures ok { IfOk result (λ r.
            TakesDesk K.hash_of self.now seat.old seat.new r.0.value) }
        ensures err { IfErr result (P.busy seat.old.me.0.past self.now.began.settings.shelves) }
        ensures stays { OnErr result (KeepsShelf K.hash_of self.now seat.old seat.new) }
    {
        let mut brought = StepMemory {
            pages: None,
            exchange: None,
        };
        if !patience.comes_again() {
            return Ok((self.take_desk(patience, seat)?, brought));
        }
        brought.exchange = shelf.exchange(alloc, plan).unwrap_or(None);
        let desk = self.take_desk(patience, seat)?;
        let Some(wanted) = shelf.page_wanted(plan, &*desk) else {
            return Ok((desk, brought));
        };
        self.give_desk(seat, desk);
        brought.pages = Pages::new(alloc, wanted.class, wanted.pages).ok();
        Ok((self.take_desk(patience, seat)?, brought))
    }

    /// Takes a step that the desk decides, with the memory allocated for it.
    ///
    /// The desk is given back with the decision, and the shelf once the step's block is copied.
    /// Both are unchanged if the step isn't taken.
    fn answer_at_desk(
        &self,
        seat: &mut Seat,
        alloc: Global,
        at_desk: AtDesk<'_>,
        ask: &Ask<'_>,
    ) -> Result<Reply, StepFault>
        requires holds { HoldsBoth K.hash_of self.now seat.old ask.now.at
            at_desk.shelf.value.content at_desk.desk.value }
        requires asked { IsAsked K.hash_of self.now ask.now }
        requires plan { IsPlanned at_desk.plan at_desk.shelf.value.content ask.now }
        requires room { at_desk.ready.room ≡ true →
            HasRoom at_desk.plan at_desk.shelf.value ask.now.step.now }
        ensures free { IsFree self.now.table self.now.began seat.new }
        ensures answered { IsAnswered (start_of K.hash_of self.now.began) (caller_at seat.old)
            ask.now.step.now ask.now.moment Refuses result (caller_at seat.new) }
    {
        let AtDesk {
            mut shelf,
            mut desk,
            mut plan,
            ready,
        } = at_desk;
        let bay = self.settings.shelves as usize;
        let number = (ask.hash % NUMBERS as u64) as usize;
        let before = shelf.len();
        let comes = plan.is_of_new_key();
        match begin(alloc, &mut *shelf, &mut *desk, &mut plan, ready, ask) {
            Ok(()) => {
                let came = raise_for(&self.board, seat, bay, number, comes);
                let had = before + came;
                let decision = Decision::Begun {
                    step: ask.step,
                    moment: ask.moment,
                    at: ask.at,
                    shelf: &*shelf,
                    plan: &plan,
                    number,
                    had,
                };
                let value = Bay::Desk(Boxed::of(desk));
                decide(&self.board, seat, bay, value, &decision);
                let reply = shelf.finish(plan, ask.step);
                lower_all(&self.board, seat, bay, number, had - shelf.len());
                self.give_shelf(seat, shelf, ask.at);
                Ok(reply)
            }
            Err(refused) => {
                self.give_desk(seat, desk);
                self.give_shelf(seat, shelf, ask.at);
                Err(refused)
            }
        }
    }

    /// Returns a step with its key's hash and shelf.
    pub(crate) fn ask<'k>(&self, step: &'k KeyStep<'k>, now: Moment) -> Ask<'k>
        requires { length (key_of step.now) ≤ longest_key }
        ensures asked { IsAsked K.hash_of self.now result }
        ensures parts { (result.step.now ≡ step.now) × (result.moment ≡ now) }
    {
        let hash = self.hasher.hash(step.key());
        Ask {
            step,
            hash,
            moment: now,
            at: (hash % u64::from(self.settings.shelves)) as u32,
        }
    }

    /// Takes a step on one key, with the given patience.
    fn answer_by<B: Drop, P: Patience<B>>(
        &self,
        patience: &P,
        alloc: Global,
        caller: &mut Caller,
        ask: &Ask<'_>,
    ) -> Result<Reply, Untaken<B>>
        requires own { caller.old.table ≡ self.now.table }
        requires asked { IsAsked K.hash_of self.now ask.now }
        requires on_key { IsOnKey ask.now.step.now }
        ensures { IsAnswered (start_of K.hash_of self.now.began) caller.old ask.now.step.now
            ask.now.moment (Unmet P.busy) result caller.new }
    {
        let Caller { seat, grows } = caller;
        let mut shelf = match self.take_shelf(patience, seat, ask.at) {
            Ok(shelf) => shelf,
            Err(told) => return Err(Untaken::Met(told)),
        };
        patience.inside(ask.at);
        let looked = look(alloc, &mut *shelf, ask);
        *grows = growing_shelf(&*shelf, ask.at);
        let (plan, room) = match looked {
            Ok(looked) => looked,
            Err(_) => {
                self.give_shelf(seat, shelf, ask.at);
                return Err(Untaken::Refused(StepFault::NoMemory));
            }
        };
        if !plan.needs_desk() {
            return Ok(self.settle(seat, shelf, plan, ask));
        }
        let (desk, brought) = match self.take_desk_for(patience, seat, alloc, &*shelf, &plan) {
            Ok(taken) => taken,
            Err(told) => {
                self.give_shelf(seat, shelf, ask.at);
                return Err(Untaken::Met(told));
            }
        };
        let at_desk = AtDesk {
            shelf,
            desk,
            plan,
            ready: Ready { room, brought },
        };
        match self.answer_at_desk(seat, alloc, at_desk, ask) {
            Ok(reply) => Ok(reply),
            Err(fault) => Err(Untaken::Refused(fault)),
        }
    }

    /// Takes a step, and waits for other callers. A flush calls no gate.
    pub(crate) fn answer<R: Wait, G: Gate>(
        &self,
        patience: &Waiting<'_, R, G>,
        alloc: Global,
        caller: &mut Caller,
        ask: &Ask<'_>,
    ) -> Result<Reply, StepFault>
        requires own { caller.old.table ≡ self.now.table }
        requires asked { IsAsked K.hash_of self.now ask.now }
        ensures { IsAnswered (start_of K.hash_of self.now.began) caller.old ask.now.step.now
            ask.now.moment Refuses result caller.new }
    {
        if let KeyStep::Flush { delay } = ask.step {
            return Ok(self.flush(patience.rt, alloc, caller, *delay, ask.moment)?);
        }
        match self.answer_by(patience, alloc, caller, ask) {
            Ok(reply) => Ok(reply),
            Err(Untaken::Refused(fault)) => Err(fault),
            Err(Untaken::Met(never)) => match never {},
        }
    }

    /// Returns whether a step is a plain read whose key is absent by its number.
    ///
    /// The step is then taken as a miss. Otherwise nothing is decided.
    pub(crate) fn is_told_absent(&self, caller: &mut Caller, ask: &Ask<'_>) -> bool
        requires own { caller.old.table ≡ self.now.table }
        requires asked { IsAsked K.hash_of self.now ask.now }
        ensures same { caller.new.table ≡ caller.old.table }
        ensures miss { result ≡ true → HasCalled (start_of K.hash_of self.now.began)
            caller.old.past ask.now.step.now ask.now.moment Told.Miss caller.new.past }
        ensures stays { result ≡ false → caller.new.past ≡ caller.old.past }
    {
        match ask.step {
            KeyStep::Read { key } => {
                self.absent_hashed(caller, key.as_slice(), ask.hash, ask.moment)
            }
            _ => false,
        }
    }

    /// Tries a step on one key, and never waits.
    ///
    /// The key's shelf and, if the step needs it, the desk are held while it is taken. After an
    /// error the caller's past is unchanged, nothing is decided and no bay is held.
    pub fn try_step(
        &self,
        alloc: Global,
        caller: &mut Caller,
        step: &KeyStep<'_>,
        now: Moment,
    ) -> Result<Reply, TryFault>
        requires asks { MayAsk self.now caller.old step.now }
        requires on_key { IsOnKey step.now }
        ensures { IsAnswered (start_of K.hash_of self.now.began) caller.old step.now now May
            result caller.new }
    {
        match self.answer_by(&Once, alloc, caller, &self.ask(step, now)) {
            Ok(reply) => Ok(reply),
            Err(untaken) => Err(fault_of(untaken)),
        }
    }

    /// Takes a step, and waits for other callers.
    ///
    /// After an error nothing is decided and no bay is held.
    pub fn step<R: Wait>(
        &self,
        rt: &R,
        alloc: Global,
        caller: &mut Caller,
        step: &KeyStep<'_>,
        now: Moment,
    ) -> Result<Reply, StepFault>
        requires { MayAsk self.now caller.old step.now }
        ensures { IsAnswered (start_of K.hash_of self.now.began) caller.old step.now now Refuses
            result caller.new }
    {
        self.step_at(rt, alloc, caller, step, now, &NoGate)
    }

    /// Takes a step and waits for other callers; calls the gate once while the key's shelf is held.
    ///
    /// A flush calls no gate. After an error nothing is decided and no bay is held.
    pub fn step_at<R: Wait, G: Gate>(
        &self,
        rt: &R,
        alloc: Global,
        caller: &mut Caller,
        step: &KeyStep<'_>,
        now: Moment,
        gate: &G,
    ) -> Result<Reply, StepFault>
        requires { MayAsk self.now caller.old step.now }
        ensures { IsAnswered (start_of K.hash_of self.now.began) caller.old step.now now Refuses
            result caller.new }
    {
        self.answer(&Waiting { rt, gate }, alloc, caller, &self.ask(step, now))
    }
}

/// Returns why a tried step wasn't taken.
fn fault_of(untaken: Untaken<Busy>) -> TryFault
    ensures { result ≡ told_of untaken }
{
    match untaken {
        Untaken::Met(Busy { bay, word }) => TryFault::Busy { bay, word },
        Untaken::Refused(StepFault::NoMemory) => TryFault::NoMemory,
        Untaken::Refused(StepFault::NumbersSpent) => TryFault::NumbersSpent,
    }
}
