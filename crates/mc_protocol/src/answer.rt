//! Receivers of a step's reply, which get a hit's block where it lies.
//!
//! An `Answer` takes a hit's block as a slice of its parts, so that a block in several pages isn't
//! copied and needs no memory. One call takes all parts, so that room for the whole text is
//! reserved before the first byte.

use crate::bytes::Bytes;
use crate::reply::Reply;
use std::alloc::AllocError;
use thiserror::Error;

/// Receives the reply to a step.
pub trait Answer {
    ghost use Rattle.std.specs.Prelude.{◌≡◌, OnOk, OnErr};
    ghost use Rattle.std.specs.List.{concat};
    ghost use Rattle.mc_protocol.specs.declared.reply.Reply.{Reply};

    /// Taking the reply turns the first value into the second.
    ghost told: { Self → Reply → Self → Type 0 };

    /// Takes a hit; its block is lent where it lies, in parts one after another.
    ///
    /// A part may lie in shared memory (`Bytes::lent`), which can be kept in place of a copy.
    /// The only error is a refused allocation, and the answer is then unchanged.
    fn hit(&mut self, flags: u32, unique: u64, parts: &[Bytes<'_>]) -> Result<(), AllocError>
        ensures told { OnOk result (told self.old (Reply.Hit flags unique (concat parts.now))
            self.new) }
        ensures err { OnErr result (self.new ≡ self.old) };

    /// Takes any reply. The only error is a refused allocation, and the answer is then unchanged.
    fn reply(&mut self, reply: &Reply) -> Result<(), AllocError>
        ensures told { OnOk result (told self.old reply.now self.new) }
        ensures err { OnErr result (self.new ≡ self.old) };
}

/// Why a step has no answer. The receiver is unchanged.
#[derive(Debug, Drop, Error)]
pub enum Unanswered {
    /// An allocation was refused, and the step isn't taken.
    #[error("out of memory")]
    NoMemory,
    /// The write would use the last unique number, and the step isn't taken.
    #[error("out of unique numbers")]
    NumbersSpent,
    /// The step is taken, but memory for its reply was refused.
    #[error("out of memory for the reply")]
    Untold,
}
