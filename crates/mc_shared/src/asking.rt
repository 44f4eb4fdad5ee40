//! A caller that takes steps as a session needs them.
ghost use Rattle.std.specs.Prelude.{◌≡◌, ◌<◌, ◌≤◌, IfOk};
ghost use Rattle.mc_protocol.specs.declared.step.KeyStep.{KeyStep as Step};
ghost use Rattle.mc_shared.specs.Asking.{AsksOnce, AsksStep, AsksInVain};
ghost use Rattle.mc_shared.specs.Emptied.{IsRoomFor};
ghost use Rattle.mc_shared.specs.History.{start_of, shelf_in, Purged};
ghost use Rattle.mc_shared.specs.Steps.{Agrees};

use crate::flush::FlushRoom;
use crate::patience::{Gate, Waiting};
use crate::steps::reload;
use crate::store::{Caller, Shared};
use mc_hop::KeyHash;
use mc_protocol::{Answer, KeyStep, Reply, StepFault, Steps, Unanswered};
use mc_time::Moment;
use std::alloc::{AllocError, Global};
use std::marker::Model;
use std::sync::Wait;

impl<K: KeyHash + Drop> Shared<K> {
    /// States that there is a legal history that keeps a caller's past.
    ///
    /// Nothing changes. It waits for nothing, and takes no memory.
    pub fn agree(&self, caller: &mut Caller)
        requires { caller.old.table ≡ self.now.table }
        ensures same { (caller.new.table ≡ caller.old.table) × (caller.new.past ≡ caller.old.past) }
        ensures kept { Agrees (start_of K.hash_of self.now.began) caller.new.past }
    {
        reload(&self.board, &mut caller.seat);
    }
}

/// A caller with its store, its gate and the right to wait.
///
/// Contracts see which store it is, what the store began with, and the past.
#[derive(Drop)]
pub struct Asking<'a, R: Wait, K: KeyHash + Drop, G: Gate> {
    rt: &'a R,
    shared: &'a Shared<K>,
    caller: Caller,
    gate: &'a G,
}

impl<'a, R: Wait, K: KeyHash + Drop, G: Gate> Model for Asking<'a, R, K, G> {
    ghost use Rattle.std.specs.Prelude.{◌≡◌};
    ghost use Rattle.mc_shared.specs.Asking.{AskingState, coded_asking};

    ghost Value = { AskingState K };

    ghost coded = { coded_asking K.code };

    ghost view = { λ a. record {
      began = a.shared.now.began;
      table = a.caller.table;
      past =
          a.caller.past;
    } };

    ghost invariant = { λ a. a.caller.table ≡ a.shared.now.table };
}

impl<'a, R: Wait, K: KeyHash + Drop, G: Gate> Asking<'a, R, K, G> {
    /// Returns a caller with its store, a gate and the right to wait.
    pub fn new(rt: &'a R, shared: &'a Shared<K>, caller: Caller, gate: &'a G) -> Asking<'a, R, K, G>
        requires own { caller.table ≡ shared.now.table }
        ensures { result ≡ record {
          began = shared.now.began;
          table = caller.table;
          past =
              caller.past;
        } }
    {
        Asking {
            rt,
            shared,
            caller,
            gate,
        }
    }

    /// Returns the caller, with its past.
    pub fn into_caller(self) -> Caller
        ensures { (result.table ≡ self.entry.table) × (result.past ≡ self.entry.past) }
    {
        let Asking { caller, .. } = self;
        caller
    }

    /// States that there is a legal history that keeps the caller's past.
    ///
    /// Nothing changes, and it waits for nothing.
    pub fn agree(&mut self)
        ensures same { self.new ≡ self.old }
        ensures kept { Agrees (start_of K.hash_of self.new.began) self.new.past }
    {
        self.shared.agree(&mut self.caller);
    }

    /// Returns the number of the store's shelves.
    pub fn shelves(&self) -> u32
        ensures { result ≡ self.now.began.settings.shelves }
    {
        self.shared.shelves()
    }

    /// Returns the shelf of a key.
    pub fn shelf_of(&self, key: &[u8]) -> u32
        ensures shelf { result ≡ shelf_in (start_of K.hash_of self.now.began) key.now }
        ensures inside { result < self.now.began.settings.shelves }
    {
        self.shared.shelf_of(key)
    }

    /// Moves up to `n` entries of a shelf's old table, and returns how many it moved.
    pub fn grow(&mut self, shelf: u32, n: usize) -> usize
        requires { shelf < self.old.began.settings.shelves }
        ensures same { self.new ≡ self.old }
        ensures moved { result ≤ n }
    {
        self.shared.grow(self.rt, &mut self.caller, shelf, n)
    }

    /// Moves entries as `grow` does, at the shelf of the last step.
    ///
    /// If that step left no entry of the shelf to move, no shelf is taken.
    pub fn grow_after(&mut self, n: usize) -> usize
        ensures same { self.new ≡ self.old }
        ensures moved { result ≤ n }
    {
        self.shared.grow_after(self.rt, &mut self.caller, n)
    }

    /// Makes room for a flush with this delay. The only error is a refused allocation.
    pub fn flush_room(&self, alloc: Global, delay: u64) -> Result<FlushRoom, AllocError>
        ensures { IfOk result (IsRoomFor self.now.began.settings.shelves delay) }
    {
        self.shared.flush_room(alloc, delay)
    }

    /// Flushes as a step does, in room that was made before. It takes no memory.
    pub fn flush(&mut self, room: FlushRoom, delay: u64, now: Moment) -> Reply
        requires { IsRoomFor self.old.began.settings.shelves delay room }
        ensures { AsksStep K.hash_of self.old (Step.Flush delay) now result self.new }
    {
        self.shared
            .flush_in(self.rt, &mut self.caller, room, delay, now)
    }

    /// Drops the items of a shelf that are dead at a moment.
    pub fn tidy(&mut self, shelf: u32, now: Moment)
        requires { shelf < self.old.began.settings.shelves }
        ensures { AsksOnce (start_of K.hash_of self.old.began) (Purged shelf now) self.old
            self.new }
    {
        self.shared.tidy(self.rt, &mut self.caller, shelf, now);
    }
}

impl<'a, R: Wait, K: KeyHash + Drop, G: Gate> Steps for Asking<'a, R, K, G> {
    ghost use Rattle.std.specs.Prelude.{◌≡◌, refl};

    ghost took = { AsksStep K.hash_of };

    ghost spent = { AsksInVain K.hash_of };

    ghost same = { λ old new. new ≡ old };

    ghost holds_itself = { λ _. refl };

    fn step(&mut self, alloc: Global, step: &KeyStep<'_>, now: Moment) -> Result<Reply, StepFault> {
        let patience = Waiting {
            rt: self.rt,
            gate: self.gate,
        };
        let ask = self.shared.ask(step, now);
        if self.shared.is_told_absent(&mut self.caller, &ask) {
            return Ok(Reply::Miss);
        }
        self.shared.answer(&patience, alloc, &mut self.caller, &ask)
    }

    fn step_telling<A: Answer>(
        &mut self,
        alloc: Global,
        step: &KeyStep<'_>,
        now: Moment,
        answer: &mut A,
    ) -> Result<(), Unanswered> {
        let patience = Waiting {
            rt: self.rt,
            gate: self.gate,
        };
        let ask = self.shared.ask(step, now);
        self.shared
            .step_telling(&patience, alloc, &mut self.caller, &ask, answer)
    }
}
