//! The texts of a hit around its block, for an output that takes the block itself elsewhere.

ghost use Rattle.std.specs.Prelude.{◌≡◌, ◌++◌, ◌<◌, ◌↔◌, length, codes, slice_get, IsTrue, OnOk, OnErr};
ghost use Rattle.mc_reply.specs.Texts.{IsRetrieval, asked_line, end_text};

use crate::numbers::Numbers;
use mc_bytes::Append;
use mc_protocol::{Command, Keys};
use std::alloc::AllocError;

/// The text in front of a hit's block, if the hit is the reply to the first step of a retrieval.
#[derive(Drop)]
pub struct HitFront<'a> {
    pub command: &'a Command<'a>,
    pub flags: u32,
    pub unique: u64,
    pub block_len: usize,
}

impl<'a> Append for HitFront<'a> {
    ghost use Rattle.mc_reply.specs.Texts.{front_text, AsksFirst};

    ghost can_append = { λ front. AsksFirst front.command.now };

    ghost bytes = { λ front.
        front_text front.command.now front.flags front.unique front.block_len };

    fn append_to(&self, buffer: &mut Vec<u8>) -> Result<(), AllocError> {
        match self.command {
            Command::Get { keys, with_unique }
            | Command::GetTouch {
                keys,
                with_unique,
                ..
            } => write_front(keys, *with_unique, self, buffer),
            _ => Ok(()),
        }
    }
}

/// The text behind a hit's block, if the hit is the reply to the first step of a retrieval.
#[derive(Drop)]
pub struct HitBack<'a> {
    pub command: &'a Command<'a>,
}

impl<'a> Append for HitBack<'a> {
    ghost use Rattle.mc_reply.specs.Texts.{back_text, AsksFirst};

    ghost can_append = { λ back. AsksFirst back.command.now };

    ghost bytes = { λ back. back_text back.command.now };

    fn append_to(&self, buffer: &mut Vec<u8>) -> Result<(), AllocError> {
        match self.command {
            Command::Get { keys, .. } | Command::GetTouch { keys, .. } => {
                buffer.extend_from_slice(back_of(keys.len()))
            }
            _ => Ok(()),
        }
    }
}

/// Returns whether a command is a retrieval.
pub fn is_retrieval(command: &Command<'_>) -> bool
    ensures { IsTrue result ↔ IsRetrieval command.now }
{
    matches!(command, Command::Get { .. } | Command::GetTouch { .. })
}

/// Appends the text in front of the block of the first key. An error leaves the old text.
fn write_front(
    keys: &Keys<'_>,
    with_unique: bool,
    front: &HitFront<'_>,
    out: &mut Vec<u8>,
) -> Result<(), AllocError>
    requires { 0 < length keys.now }
    ensures ok { OnOk result (out.new.items ≡ out.old.items ++ asked_line
        (slice_get keys.now 0) with_unique front.now.flags front.now.unique front.now.block_len) }
    ensures err { OnErr result (out.new.items ≡ out.old.items) }
{
    let Some(key) = keys.get(0) else {
        unreachable!()
    };
    let HitFront {
        flags,
        unique,
        block_len,
        ..
    } = *front;
    let numbers = Numbers::of_hit(flags, block_len, unique, with_unique);
    append_line(key, numbers.as_slice(), out)
}

/// Appends the first line of a hit, whose numbers are behind the key. An error leaves the old text.
fn append_line(key: &[u8], numbers: &[u8], out: &mut Vec<u8>) -> Result<(), AllocError>
    ensures ok { OnOk result (out.new.items ≡ out.old.items
        ++ codes "VALUE " ++ key.now ++ numbers.now) }
    ensures err { OnErr result (out.new.items ≡ out.old.items) }
{
    let room = key.len().saturating_add(numbers.len()).saturating_add(6);
    out.reserve(room)?;
    out.extend_from_slice(b"VALUE ")?;
    out.extend_from_slice(key)?;
    out.extend_from_slice(numbers)
}

/// Returns the text behind the block of the first of `count` keys.
fn back_of(count: usize) -> &'static [u8]
    requires { 0 < count }
    ensures { result.now ≡ codes "\r\n" ++ end_text count 0 }
{
    if count == 1 { b"\r\nEND\r\n" } else { b"\r\n" }
}
