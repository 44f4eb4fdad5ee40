//! A store that reports its steps to a tally.
//!
//! `Counting` is a store around another. Contracts see the inner one, so a worker's promises don't
//! change. A tally gets each step and its outcome, not its block.

ghost use Rattle.std.specs.Prelude.{◌≡◌};
ghost use Rattle.mc_workers.specs.Tending.{TidiesInTurn};

use crate::tending::{SWEEPS, Tending};
use mc_guests::{Outcome, Reports, Tally, length_at};
use mc_hop::KeyHash;
use mc_protocol::{Answer, Bytes, KeyStep, Reply, StepFault, Steps, Unanswered};
use mc_shared::Gate;
use mc_time::Moment;
use std::alloc::{AllocError, Global};
use std::cell::Cell;
use std::marker::Model;
use std::sync::Wait;

/// A store that reports each step that was taken to a tally. Contracts see the inner store.
///
/// It notes when a write finds no chunk: then each shelf has a turn to be tidied soon.
#[derive(Drop)]
pub struct Counting<'a, S: Steps + Drop, T: Tally> {
    steps: S,
    tally: &'a T,
    /// Whether a write found no chunk since shelves were tidied last.
    lacks: bool,
    /// The number of tidyings until each shelf had its turn since a write found no chunk.
    owed: u32,
}

impl<'a, S: Steps + Drop, T: Tally> Model for Counting<'a, S, T> {
    ghost Value = { S };

    ghost coded = { S.code };

    ghost view = { λ c. c.steps };
}

impl<'a, S: Steps + Drop, T: Tally> Counting<'a, S, T> {
    /// Returns a store that reports the steps of `steps` to the tally.
    pub fn new(steps: S, tally: &'a T) -> Counting<'a, S, T>
        ensures { result ≡ steps }
    {
        Counting {
            steps,
            tally,
            lacks: false,
            owed: 0,
        }
    }

    /// Returns the inner store.
    pub fn into_steps(self) -> S
        ensures { result ≡ self.entry }
    {
        let Counting { steps, .. } = self;
        steps
    }

    /// Reports a step to the tally, if it was taken, and notes whether it found no chunk.
    fn count(&mut self, step: &KeyStep<'_>, answer: &Result<Reply, StepFault>)
        ensures { self.new ≡ self.old }
    {
        match answer {
            Ok(reply) => self.took(step, Outcome::of(reply)),
            Err(_) => {}
        }
    }

    /// Reports a step that was taken to the tally, and notes whether it found no chunk.
    fn took(&mut self, step: &KeyStep<'_>, outcome: Outcome)
        ensures { self.new ≡ self.old }
    {
        self.lacks = self.lacks || finds_no_chunk(outcome);
        self.tally.took(step, outcome);
    }

    /// Reports a step whose reply goes to an `Answer` to the tally, if it was taken.
    fn count_told(
        &mut self,
        step: &KeyStep<'_>,
        told: &Result<(), Unanswered>,
        noted: Option<Outcome>,
    )
        ensures { self.new ≡ self.old }
    {
        match (told, noted) {
            (Ok(()) | Err(Unanswered::Untold), Some(outcome)) => self.took(step, outcome),
            _ => {}
        }
    }
}

impl<'a, 'b, R: Wait, K: KeyHash + Drop, G: Gate, T: Tally> Counting<'a, Tending<'b, R, K, G>, T> {
    /// Drops the dead items of the next shelves in turn, as `Tending::tidy` does. It isn't
    /// reported.
    ///
    /// Since a write found no chunk, it takes more shelves in each of the next 16 calls.
    pub fn tidy(&mut self, turn: u32, risen: bool, now: Moment) -> u32
        ensures { TidiesInTurn K.hash_of risen now turn result self.old self.new }
    {
        let lacks = self.takes_more();
        self.steps.tidy(turn, risen, lacks, now)
    }

    /// Returns whether more shelves are tidied, and counts this tidying.
    fn takes_more(&mut self) -> bool
        ensures { self.new ≡ self.old }
    {
        if self.lacks {
            self.lacks = false;
            self.owed = SWEEPS;
        }
        let lacks = self.owed > 0;
        self.owed = self.owed.saturating_sub(1);
        lacks
    }
}

/// Returns whether a write found no chunk.
fn finds_no_chunk(outcome: Outcome) -> bool {
    match outcome {
        Outcome::NoChunk => true,
        _ => false,
    }
}

impl<'a, S: Steps + Drop, T: Tally> Steps for Counting<'a, S, T> {
    ghost took = { S.took };

    ghost spent = { S.spent };

    ghost same = { S.same };

    ghost holds_itself = { S.holds_itself };

    fn step(&mut self, alloc: Global, step: &KeyStep<'_>, now: Moment) -> Result<Reply, StepFault> {
        let answer = self.steps.step(alloc, step, now);
        self.count(step, &answer);
        answer
    }

    fn step_telling<A: Answer>(
        &mut self,
        alloc: Global,
        step: &KeyStep<'_>,
        now: Moment,
        answer: &mut A,
    ) -> Result<(), Unanswered> {
        let noted = Cell::new(None);
        let mut noting = Noting {
            answer,
            noted: &noted,
        };
        let told = self.steps.step_telling(alloc, step, now, &mut noting);
        self.count_told(step, &told, noted.get());
        told
    }
}

impl<'a, S: Steps + Drop, T: Tally> Reports for Counting<'a, S, T> {
    fn too_large(&self) {
        self.tally.too_large();
    }

    fn length_at(&mut self, alloc: Global, key: &[u8], now: Moment) -> Result<usize, Unanswered> {
        length_at(alloc, &mut self.steps, key, now)
    }
}

/// Passes a reply on to an `Answer`, and notes the step's outcome.
#[derive(Drop)]
struct Noting<'a, A: Answer> {
    answer: &'a mut A,
    noted: &'a Cell<Option<Outcome>>,
}

impl<'a, A: Answer> Answer for Noting<'a, A> {
    ghost use Rattle.std.specs.Prelude.{◌≡◌};

    ghost told = { λ old reply new. (new.answer.ghost_name ≡ old.answer.ghost_name)
        × A.told old.answer.now reply new.answer.now };

    fn hit(&mut self, flags: u32, unique: u64, parts: &[Bytes<'_>]) -> Result<(), AllocError> {
        self.noted.set(Some(Outcome::Hit));
        self.answer.hit(flags, unique, parts)
    }

    fn reply(&mut self, reply: &Reply) -> Result<(), AllocError> {
        self.noted.set(Some(Outcome::of(reply)));
        self.answer.reply(reply)
    }
}
