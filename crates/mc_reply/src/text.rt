//! The text of a turn.

use crate::texts::{write, write_fault, write_hit, write_plain, write_spent, write_too_long};
use mc_bytes::Append;
use mc_protocol::{Bytes, Command, LineFault, Reply};
use std::alloc::AllocError;

/// The text of a turn.
#[derive(Drop)]
pub enum Text<'a> {
    /// The reply to the first step of a command.
    First(&'a Command<'a>, &'a Reply),
    /// The reply to the first step of a command, if it is a hit; its block is lent in parts.
    Hit {
        command: &'a Command<'a>,
        flags: u32,
        unique: u64,
        parts: &'a [Bytes<'a>],
    },
    /// The error that unique numbers are used up, which a command's step needs.
    Spent(&'a Command<'a>),
    /// The reply of a command without a step.
    Plain(&'a Command<'a>),
    /// A line's fault.
    Flaw(LineFault),
    /// The error that a line is too long.
    TooLong,
}

impl<'a> Append for Text<'a> {
    ghost use Rattle.mc_reply.specs.Texts.{bytes_of, IsText};

    ghost can_append = { IsText };

    ghost bytes = { bytes_of };

    fn append_to(&self, buffer: &mut Vec<u8>) -> Result<(), AllocError> {
        match self {
            Text::First(command, reply) => write(command, 0, reply, buffer),
            Text::Hit {
                command,
                flags,
                unique,
                parts,
            } => write_hit(command, 0, *flags, *unique, parts, buffer),
            Text::Spent(command) => write_spent(command, buffer),
            Text::Plain(command) => write_plain(command, buffer),
            Text::Flaw(fault) => write_fault(fault, buffer),
            Text::TooLong => write_too_long(buffer),
        }
    }
}
