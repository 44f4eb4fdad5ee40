//! A store that delivers replies in a way of its own.

ghost use Rattle.std.specs.Prelude.{◌≡◌, refl};

use mc_protocol::{Answer, KeyStep, Reply, StepFault, Steps, Unanswered};
use mc_time::Moment;
use std::alloc::{AllocError, Global};

/// What takes steps, and delivers their replies in a way of its own.
pub(crate) trait Delivers {
    ghost use Rattle.std.specs.Prelude.{◌≡◌, ◌≤◌, length, OnOk, OnErr};
    ghost use Rattle.mc_protocol.specs.Commands.{key_of, longest_key};
    ghost use Rattle.mc_protocol.specs.declared.reply.Reply.{Reply as Told};

    /// Takes one step on one key, and returns its reply.
    fn take(&mut self, alloc: Global, step: &KeyStep<'_>, now: Moment) -> Result<Reply, StepFault>
        requires { length (key_of step.now) ≤ longest_key };

    /// Delivers this reply, or another in its place.
    fn deliver<A: Answer>(&self, reply: &Reply, answer: &mut A) -> Result<(), AllocError>
        ensures told { OnOk result ((told : Told) × A.told answer.old told answer.new) }
        ensures err { OnErr result (answer.new ≡ answer.old) };
}

/// A store of what takes the steps and delivers the replies.
#[derive(Drop)]
pub(crate) struct Delivering<D: Delivers + Drop> {
    pub(crate) by: D,
}

impl<D: Delivers + Drop> Steps for Delivering<D> {
    ghost took = { λ old step now reply new. old ≡ old };

    ghost spent = { λ old step now. old ≡ old };

    ghost same = { λ old new. old ≡ old };

    ghost holds_itself = { λ _. refl };

    fn step(&mut self, alloc: Global, step: &KeyStep<'_>, now: Moment) -> Result<Reply, StepFault> {
        self.by.take(alloc, step, now)
    }

    fn step_telling<A: Answer>(
        &mut self,
        alloc: Global,
        step: &KeyStep<'_>,
        now: Moment,
        answer: &mut A,
    ) -> Result<(), Unanswered> {
        match self.by.take(alloc, step, now) {
            Ok(reply) => match self.by.deliver(&reply, answer) {
                Ok(()) => Ok(()),
                Err(_) => Err(Unanswered::NoMemory),
            },
            Err(StepFault::NumbersSpent) => Err(Unanswered::NumbersSpent),
            Err(StepFault::NoMemory) => Err(Unanswered::NoMemory),
        }
    }
}
