//! Steps, each followed by some growth.
ghost use Rattle.std.specs.Prelude.{◌≡◌, ◌<◌, ◌%◌, ◌^◌, if◌then◌else◌};
ghost use Rattle.std.specs.Int.{div_ceil};
ghost use Rattle.mc_shared.specs.Asking.{AsksOnce, AsksStep, AsksInVain};
ghost use Rattle.mc_shared.specs.History.{start_of, Purged};
ghost use Rattle.mc_shared.specs.Steps.{Agrees};
ghost use Rattle.mc_workers.specs.Tending.{asked_by, in_turn, tidied_by, Tidied};

use mc_hop::KeyHash;
use mc_protocol::{Answer, KeyStep, Reply, StepFault, Steps, Unanswered};
use mc_shared::{Asking, Caller, Gate, Shared};
use mc_time::Moment;
use std::alloc::Global;
use std::marker::Model;
use std::sync::Wait;

/// The number of index entries of a shelf that move after a step on it.
const MOVED: usize = 8;

/// The most risings of the clock until each shelf had its turn.
const TIDYINGS: u32 = 64;

/// The most rounds until each shelf had its turn while writes lack chunks.
pub(crate) const SWEEPS: u32 = 16;

/// A caller whose steps are each followed by some growth of the key's shelf.
///
/// It also tidies shelves in turn. Contracts see what they see of the caller.
#[derive(Drop)]
pub struct Tending<'a, R: Wait, K: KeyHash + Drop, G: Gate> {
    asking: Asking<'a, R, K, G>,
    /// The number of the store's shelves.
    shelves: u32,
}

impl<'a, R: Wait, K: KeyHash + Drop, G: Gate> Model for Tending<'a, R, K, G> {
    ghost use Rattle.std.specs.Prelude.{◌≡◌, ◌<◌};
    ghost use Rattle.mc_shared.specs.Asking.{AskingState, coded_asking};

    ghost Value = { AskingState K };

    ghost coded = { coded_asking K.code };

    ghost view = { λ t. t.asking };

    ghost invariant = { λ t. (t.shelves ≡ t.asking.began.settings.shelves) × (0 < t.shelves) };
}

impl<'a, R: Wait, K: KeyHash + Drop, G: Gate> Tending<'a, R, K, G> {
    /// Takes a caller of this store.
    pub fn new(
        rt: &'a R,
        shared: &'a Shared<K>,
        caller: Caller,
        gate: &'a G,
    ) -> Tending<'a, R, K, G>
        requires own { caller.table ≡ shared.now.table }
        ensures { result ≡ asked_by shared.now.began caller }
    {
        Tending {
            asking: Asking::new(rt, shared, caller, gate),
            shelves: shared.shelves(),
        }
    }

    /// Returns the caller; a legal history keeps its past.
    pub fn into_caller(self) -> Caller
        ensures same { (result.table ≡ self.entry.table) × (result.past ≡ self.entry.past) }
        ensures kept { Agrees (start_of K.hash_of self.entry.began) result.past }
    {
        let Tending { mut asking, .. } = self;
        asking.agree();
        asking.into_caller()
    }

    /// Drops the dead items of shelf `turn`, modulo their number, and of those behind it, and
    /// returns the next turn.
    ///
    /// If the clock has risen it takes one shelf for each 64, so that 64 calls reach all shelves.
    /// While writes lack chunks it takes also one for each 16.
    pub fn tidy(&mut self, turn: u32, risen: bool, lacks: bool, now: Moment) -> u32
        ensures { Tidied K.hash_of now (tidied_by risen lacks self.old.began.settings.shelves)
            (turn % self.old.began.settings.shelves) result self.old self.new }
    {
        self.tidy_from(turn % self.shelves, self.due(risen, lacks), now)
    }

    /// Returns how many shelves one call of `tidy` takes.
    fn due(&self, risen: bool, lacks: bool) -> u64
        ensures { result ≡ tidied_by risen lacks self.now.began.settings.shelves }
    {
        let shelves = self.asking.shelves();
        part_if(risen, shelves, TIDYINGS) + part_if(lacks, shelves, SWEEPS)
    }

    /// Drops the dead items of `count` shelves in turn, from `shelf` on, and returns the next turn.
    fn tidy_from(&mut self, shelf: u32, count: u64, now: Moment) -> u32
        requires { shelf < self.old.began.settings.shelves }
        ensures { Tidied K.hash_of now count shelf result self.old self.new }
    {
        let mut next = shelf;
        for _ in 0..count {
            next = self.tidy_one(next, now);
        }
        next
    }

    /// Drops the dead items of a shelf, and returns the next in turn.
    fn tidy_one(&mut self, shelf: u32, now: Moment) -> u32
        requires { shelf < self.old.began.settings.shelves }
        ensures next { result ≡ in_turn self.old.began.settings.shelves shelf }
        ensures within { result < self.new.began.settings.shelves }
        ensures purged { AsksOnce (start_of K.hash_of self.old.began) (Purged shelf now) self.old
            self.new }
    {
        self.asking.tidy(shelf, now);
        next_in_turn(shelf, self.shelves)
    }

    /// Moves some entries of the last step's shelf, if any are left to move.
    ///
    /// A flush has no shelf.
    fn grow_after(&mut self)
        ensures { self.new ≡ self.old }
    {
        self.asking.grow_after(MOVED);
    }
}

/// Returns the shelves of one round if they are due, so that `rounds` reach all; otherwise 0.
fn part_if(due: bool, shelves: u32, rounds: u32) -> u64
    requires { 0 < rounds }
    ensures value { result ≡ (if due then div_ceil shelves rounds else 0) }
    ensures most { result < 2 ^ 32 }
{
    if due {
        u64::from(shelves.div_ceil(rounds))
    } else {
        0
    }
}

/// Returns the next shelf in turn; after the last comes the first.
fn next_in_turn(shelf: u32, shelves: u32) -> u32
    requires { shelf < shelves }
    ensures next { result ≡ in_turn shelves shelf }
    ensures within { result < shelves }
{
    if shelf < shelves - 1 { shelf + 1 } else { 0 }
}

impl<'a, R: Wait, K: KeyHash + Drop, G: Gate> Steps for Tending<'a, R, K, G> {
    ghost use Rattle.std.specs.Prelude.{◌≡◌, refl};

    ghost took = { AsksStep K.hash_of };

    ghost spent = { AsksInVain K.hash_of };

    ghost same = { λ old new. new ≡ old };

    ghost holds_itself = { λ _. refl };

    fn step(&mut self, alloc: Global, step: &KeyStep<'_>, now: Moment) -> Result<Reply, StepFault> {
        let answer = self.asking.step(alloc, step, now);
        self.grow_after();
        answer
    }

    fn step_telling<A: Answer>(
        &mut self,
        alloc: Global,
        step: &KeyStep<'_>,
        now: Moment,
        answer: &mut A,
    ) -> Result<(), Unanswered> {
        let told = self.asking.step_telling(alloc, step, now, answer);
        self.grow_after();
        told
    }
}
