//! Steps on one key, and the stores that take them.
//!
//! `view` (specs/Commands.antt) has one row for each step: its key and its block, or a flush's
//! delay. Lemmas about any step use this view, so a new step needs a row there and no new lemma.

ghost use Rattle.std.specs.Prelude.{◌≡◌};
ghost use Rattle.mc_protocol.specs.Commands.{key_of, kind_of};
ghost use Rattle.mc_protocol.specs.Plain.{block_of};
ghost use Rattle.mc_protocol.specs.declared.step.StepFault.TheVariants.{NoMemory};

use crate::answer::{Answer, Unanswered};
use crate::bytes::Bytes;
use crate::reply::Reply;
use mc_time::Moment;
use std::alloc::{AllocError, AllocFailed, Global};
use thiserror::Error;

/// How a storage command stores (protocol.txt, "Storage commands").
#[derive(Clone, Copy, Debug, PartialEq, Eq)]
pub enum Verb {
    /// Always.
    Set,
    /// Only if the key has no item.
    Add,
    /// Only if the key has an item.
    Replace,
    /// Puts the block behind the item's.
    Append,
    /// Puts the block before the item's.
    Prepend,
}

/// The commands that steps are counted as.
#[derive(Clone, Copy)]
pub enum StepKind {
    /// set, add, replace, append, prepend
    Set,
    Cas,
    /// get, gets
    Get,
    /// touch, gat, gats
    Touch,
    Delete,
    Incr,
    Decr,
    Flush,
}

/// What a command does at one key.
#[derive(Drop)]
pub enum KeyStep<'a> {
    Store {
        verb: Verb,
        key: Bytes<'a>,
        flags: u32,
        exptime: i64,
        block: Bytes<'a>,
    },
    Cas {
        key: Bytes<'a>,
        flags: u32,
        exptime: i64,
        block: Bytes<'a>,
        unique: u64,
    },
    Read {
        key: Bytes<'a>,
    },
    ReadTouch {
        key: Bytes<'a>,
        exptime: i64,
    },
    Touch {
        key: Bytes<'a>,
        exptime: i64,
    },
    Delete {
        key: Bytes<'a>,
    },
    Count {
        key: Bytes<'a>,
        up: bool,
        by: u64,
    },
    Flush {
        delay: u64,
    },
}

impl<'a> KeyStep<'a> {
    /// Lends the key of the step. For a flush it is empty.
    pub fn key(&self) -> &'a [u8]
        ensures { result.now ≡ key_of self.now }
    {
        match self {
            KeyStep::Store { key, .. }
            | KeyStep::Cas { key, .. }
            | KeyStep::Read { key }
            | KeyStep::ReadTouch { key, .. }
            | KeyStep::Touch { key, .. }
            | KeyStep::Delete { key }
            | KeyStep::Count { key, .. } => key.as_slice(),
            KeyStep::Flush { .. } => &[],
        }
    }

    /// Returns the command that the step is counted as.
    pub fn kind(&self) -> StepKind
        ensures { result ≡ kind_of self.now }
    {
        match self {
            KeyStep::Store { .. } => StepKind::Set,
            KeyStep::Cas { .. } => StepKind::Cas,
            KeyStep::Read { .. } => StepKind::Get,
            KeyStep::ReadTouch { .. } | KeyStep::Touch { .. } => StepKind::Touch,
            KeyStep::Delete { .. } => StepKind::Delete,
            KeyStep::Count { up: true, .. } => StepKind::Incr,
            KeyStep::Count { up: false, .. } => StepKind::Decr,
            KeyStep::Flush { .. } => StepKind::Flush,
        }
    }

    /// Lends the block of the step, which is empty if it has none.
    pub fn block(&self) -> &'a [u8]
        ensures { result.now ≡ block_of self.now }
    {
        match self {
            KeyStep::Store { block, .. } | KeyStep::Cas { block, .. } => block.as_slice(),
            _ => &[],
        }
    }

    /// Returns the block of the step with its memory. It is empty if the step has none.
    pub fn block_bytes(&self) -> Bytes<'a>
        ensures { result ≡ block_of self.now }
    {
        match self {
            KeyStep::Store { block, .. } | KeyStep::Cas { block, .. } => block.again(),
            _ => Bytes::of(&[]),
        }
    }
}

/// Why a step wasn't taken. The store is unchanged.
#[derive(Debug, Drop, Error)]
pub enum StepFault {
    /// An allocation was refused.
    #[error("out of memory")]
    NoMemory,
    /// The write would use the last unique number.
    #[error("out of unique numbers")]
    NumbersSpent,
}

impl From<AllocError> for StepFault {
    ghost from_gives = { λ _ e. e ≡ NoMemory };

    fn from(_e: AllocError) -> StepFault {
        StepFault::NoMemory
    }
}

impl<T: Drop> From<AllocFailed<T>> for StepFault {
    ghost from_gives = { λ _ e. e ≡ NoMemory };

    fn from(_e: AllocFailed<T>) -> StepFault {
        StepFault::NoMemory
    }
}

/// A store that takes steps.
pub trait Steps {
    ghost use Rattle.std.specs.Prelude.{◌≡◌, ◌≤◌, ℕ, length, IfOk, OnOk, OnErr, Err};
    ghost use Rattle.mc_protocol.specs.declared.step.KeyStep.{KeyStep};
    ghost use Rattle.mc_protocol.specs.declared.reply.Reply.{Reply};
    ghost use Rattle.mc_protocol.specs.Commands.{key_of, longest_key};

    /// The step may be taken at that moment with that reply, from the first state to the second.
    ghost took: { Self → KeyStep → ℕ → Reply → Self → Type 0 };
    /// The unique numbers that the step needs at that moment are used up.
    ghost spent: { Self → KeyStep → ℕ → Type 0 };
    /// Both states answer every step alike: they hold the same, though perhaps in different ways.
    ghost same: { Self → Self → Type 0 };

    /// Takes one step on one key, and returns its reply.
    ///
    /// After an error the store holds the same.
    fn step(&mut self, alloc: Global, step: &KeyStep<'_>, now: Moment) -> Result<Reply, StepFault>
        requires { length (key_of step.now) ≤ longest_key }
        ensures took { IfOk result (λ reply. took self.old step.now now reply self.new) }
        ensures spent { result ≡ Err StepFault.NumbersSpent → spent self.old step.now now }
        ensures err { OnErr result (same self.old self.new) };

    /// Takes one step on one key, and passes its reply to `answer`.
    ///
    /// A store of chunks passes a hit on while its item is in place, before the step is decided, so
    /// that its block is copied once. After an error the store holds the same, unless the error is
    /// `Untold`.
    fn step_telling<A: Answer>(
        &mut self,
        alloc: Global,
        step: &KeyStep<'_>,
        now: Moment,
        answer: &mut A,
    ) -> Result<(), Unanswered>
        requires { length (key_of step.now) ≤ longest_key }
        ensures told { OnOk result ((reply : Reply) × took self.old step.now now reply self.new
            × A.told answer.old reply answer.new) }
        ensures untold { result ≡ Err Unanswered.Untold →
            (reply : Reply) × took self.old step.now now reply self.new }
        ensures spent { result ≡ Err Unanswered.NumbersSpent →
            spent self.old step.now now × same self.old self.new }
        ensures refused { result ≡ Err Unanswered.NoMemory → same self.old self.new }
        ensures err { OnErr result (answer.new ≡ answer.old) }
    {
        match self.step(alloc, step, now) {
            Ok(reply) => match answer.reply(&reply) {
                Ok(()) => Ok(()),
                Err(_) => Err(Unanswered::Untold),
            },
            Err(StepFault::NumbersSpent) => Err(Unanswered::NumbersSpent),
            Err(StepFault::NoMemory) => Err(Unanswered::NoMemory),
        }
    }

    /// A store holds the same as itself.
    ghost holds_itself: { (store : Self) → same store store };
}
