//! Appends the reply to a command's first step to an output.
//!
//! A store writes a step's reply into the output itself (`Steps::step_telling`). A hit's block that
//! lies in shared memory is lent to the output, which may keep it there and copy nothing. Any other
//! block is copied once, from its chunks. A hit is written before its step is decided: if its text
//! needs memory that is refused, no step is taken and the session closes.

ghost use Rattle.std.specs.Prelude.{◌≡◌, ◌++◌, ◌<◌, length, IsTrue, IfSome, OnOk, OnErr};
ghost use Rattle.std.specs.List.{concat};
ghost use Rattle.mc_protocol.specs.Commands.{steps};
ghost use Rattle.mc_reply.specs.Texts.{reply_text, IsRetrieval};
ghost use Rattle.mc_protocol.specs.declared.reply.Reply.{Reply};

use crate::output::Outgoing;
use mc_bytes::{Lent, Lents};
use mc_protocol::{Answer, Bytes, Command, Reply};
use mc_reply::{HitBack, HitFront, Text, is_retrieval, length_of};
use std::alloc::{AllocError, Global};

/// The most bytes of a first part that is lent.
const LONGEST: usize = 1 << 40;

/// A command that takes a step.
#[derive(Drop)]
pub struct Asked<'a> {
    pub command: &'a Command<'a>,
    ghost takes_one: { 0 < length (steps command.now) },
}

/// An output, to which the text of the reply to the first step of a command is appended.
#[derive(Drop)]
pub struct Teller<'a, O: Outgoing> {
    pub alloc: Global,
    pub asked: &'a Asked<'a>,
    pub out: &'a mut O,
}

impl<'a, O: Outgoing> Answer for Teller<'a, O> {
    ghost use Rattle.std.specs.Prelude.{◌≡◌, ◌++◌};
    ghost use Rattle.mc_reply.specs.Texts.{reply_text};

    ghost told = { λ old reply new. (new.out.ghost_name ≡ old.out.ghost_name)
        × (O.bytes new.out.now ≡ O.bytes old.out.now
        ++ reply_text old.asked.now.command.now 0 reply) };

    fn hit(&mut self, flags: u32, unique: u64, parts: &[Bytes<'_>]) -> Result<(), AllocError> {
        if begins_lent(parts) {
            let told = append_kept(self.alloc, self.asked, flags, unique, parts, self.out);
            if let Some(result) = told {
                return result;
            }
        }
        let text = Text::Hit {
            command: self.asked.command,
            flags,
            unique,
            parts,
        };
        self.out.append_sized(&text, length_of(parts))
    }

    fn reply(&mut self, reply: &Reply) -> Result<(), AllocError> {
        self.out.append(&Text::First(self.asked.command, reply))
    }
}

/// Returns whether the first part lies in shared memory.
#[inline]
fn begins_lent(parts: &[Bytes<'_>]) -> bool {
    match parts.split_first() {
        Some((part, _)) => part.lent().is_some(),
        None => false,
    }
}

/// Appends the text of a hit whose parts lie in shared memory, which has one more owner then.
///
/// `None` if they can't be lent. The output is then unchanged, as it is after an error.
#[inline(never)]
fn append_kept<O: Outgoing>(
    alloc: Global,
    asked: &Asked<'_>,
    flags: u32,
    unique: u64,
    parts: &[Bytes<'_>],
    out: &mut O,
) -> Option<Result<(), AllocError>>
    ensures ok { IfSome result (λ told. OnOk told (O.bytes out.new ≡ O.bytes out.old
        ++ reply_text asked.now.command.now 0 (Reply.Hit flags unique (concat parts.now)))) }
    ensures err { IfSome result (λ told. OnErr told (out.new ≡ out.old)) }
    ensures none { result ≡ None → out.new ≡ out.old }
{
    if !is_retrieval(asked.command) {
        return None;
    }
    let lents = lents_of(alloc, parts)?;
    Some(append_lent_hit(asked, flags, unique, lents, out))
}

/// Appends the text of a hit, whose block is in parts that are lent. An error leaves the output
/// unchanged.
fn append_lent_hit<O: Outgoing>(
    asked: &Asked<'_>,
    flags: u32,
    unique: u64,
    lents: Lents,
    out: &mut O,
) -> Result<(), AllocError>
    requires { IsRetrieval asked.now.command.now }
    ensures ok { OnOk result (O.bytes out.new ≡ O.bytes out.old
        ++ reply_text asked.now.command.now 0 (Reply.Hit flags unique lents)) }
    ensures err { OnErr result (out.new ≡ out.old) }
{
    let front = HitFront {
        command: asked.command,
        flags,
        unique,
        block_len: lents.len(),
    };
    let back = HitBack {
        command: asked.command,
    };
    out.append_lent(&front, lents, &back)
}

/// Returns another owner of each part.
///
/// `None` if one that has bytes lies in no shared memory, or if they are more than `Lents` takes.
fn lents_of(alloc: Global, parts: &[Bytes<'_>]) -> Option<Lents>
    ensures { IfSome result (λ lents. lents ≡ concat parts.now) }
{
    let (part, others) = parts.split_first()?;
    let lent = part.lent()?;
    lents_from(alloc, lent, others)
}

/// Returns another owner of a part, and of each part behind it that has bytes.
fn lents_from(alloc: Global, first: &Lent, others: &[Bytes<'_>]) -> Option<Lents>
    ensures { IfSome result (λ lents. lents ≡ first.now ++ concat others.now) }
{
    if first.len() > LONGEST {
        return None;
    }
    let mut lents = Lents::of(alloc, first.another()?);
    for part in others {
        if !keep(&mut lents, part) {
            return None;
        }
    }
    Some(lents)
}

/// Adds another owner of a part behind parts that are lent, if it has bytes.
///
/// Returns false if it lies in no shared memory, or has no place there.
fn keep(lents: &mut Lents, part: &Bytes<'_>) -> bool
    ensures { IsTrue result → lents.new ≡ lents.old ++ part.now }
{
    if part.as_slice().is_empty() {
        return true;
    }
    match part.lent() {
        None => false,
        Some(lent) => push_another(lents, lent),
    }
}

/// Adds another owner of a part behind parts that are lent. Returns whether it has a place there.
fn push_another(lents: &mut Lents, part: &Lent) -> bool
    ensures { IsTrue result → lents.new ≡ lents.old ++ part.now }
{
    let Some(another) = part.another() else {
        return false;
    };
    lents.push(another).is_ok()
}
