//! The texts of replies.
//!
//! A text is written after one reservation of its exact length, so a refused reservation leaves the
//! output unchanged.

ghost use Rattle.std.specs.Prelude.{◌≡◌, ◌++◌, ◌<◌, ◌+◌, length, codes, decimal, OnOk, OnErr};
ghost use Rattle.std.specs.List.{concat};
ghost use Rattle.mc_protocol.specs.Commands.{steps};
ghost use Rattle.mc_reply.specs.Texts.{reply_text, fault_text, plain_text, long_text};
ghost use Rattle.mc_reply.specs.Texts.{lone_text, spent_text, said, HasNoRoom};

use crate::numbers::Numbers;
use crate::retrieval::{HitFields, write_found, write_retrieval};
use mc_protocol::{Bytes, Command, LineFault, Lone, Reply, is_quiet};
use std::alloc::AllocError;

/// Appends the text of the reply to step `at`; a quiet command has none.
///
/// After the last key of a retrieval it appends `END` too. The only error is that the vector has no
/// room for the text; the vector is then unchanged. A hit costs finding its key, and copying the
/// key and the block.
pub fn write(
    command: &Command<'_>,
    at: usize,
    reply: &Reply,
    out: &mut Vec<u8>,
) -> Result<(), AllocError>
    requires { at < length (steps command.now) }
    ensures ok { OnOk result (out.new.items ≡ out.old.items
        ++ reply_text command.now at reply.now) }
    ensures err { OnErr result (out.new.items ≡ out.old.items) }
    ensures full { OnErr result (HasNoRoom out.old (reply_text command.now at reply.now)) }
{
    match command {
        Command::Get { keys, with_unique }
        | Command::GetTouch {
            keys,
            with_unique,
            ..
        } => write_retrieval(keys, *with_unique, at, reply, out),
        _ if is_quiet(command) => Ok(()),
        _ => write_said(reply, out),
    }
}

/// Appends the text of a hit as the reply to step `at`, as `write` does.
///
/// The hit has these flags and this unique number, and its block is in these parts one after
/// another. It fails as `write` does.
pub fn write_hit(
    command: &Command<'_>,
    at: usize,
    flags: u32,
    unique: u64,
    parts: &[Bytes<'_>],
    out: &mut Vec<u8>,
) -> Result<(), AllocError>
    requires { at < length (steps command.now) }
    ensures ok { OnOk result (out.new.items ≡ out.old.items
        ++ reply_text command.now at (Reply.Hit flags unique (concat parts.now))) }
    ensures err { OnErr result (out.new.items ≡ out.old.items) }
    ensures full { OnErr result (HasNoRoom out.old
        (reply_text command.now at (Reply.Hit flags unique (concat parts.now)))) }
{
    match command {
        Command::Get { keys, with_unique }
        | Command::GetTouch {
            keys,
            with_unique,
            ..
        } => {
            let hit = HitFields {
                flags,
                unique,
                parts,
            };
            write_found(keys, *with_unique, at, &hit, out)
        }
        _ => Ok(()),
    }
}

/// Appends the text of a reply that isn't a retrieval's. It fails as `write` does.
fn write_said(reply: &Reply, out: &mut Vec<u8>) -> Result<(), AllocError>
    ensures ok { OnOk result (out.new.items ≡ out.old.items ++ said reply.now) }
    ensures err { OnErr result (out.new.items ≡ out.old.items) }
    ensures full { OnErr result (HasNoRoom out.old (said reply.now)) }
{
    let text: &[u8] = match reply {
        Reply::Number(number) => return write_number(*number, out),
        Reply::Stored => b"STORED\r\n",
        Reply::NotStored => b"NOT_STORED\r\n",
        Reply::Exists => b"EXISTS\r\n",
        Reply::NotFound => b"NOT_FOUND\r\n",
        Reply::Touched => b"TOUCHED\r\n",
        Reply::Deleted => b"DELETED\r\n",
        Reply::NotNumeric => b"CLIENT_ERROR cannot increment or decrement non-numeric value\r\n",
        Reply::TooLarge => b"SERVER_ERROR object too large for cache\r\n",
        Reply::NoChunk => b"SERVER_ERROR out of memory storing object\r\n",
        Reply::Flushed => b"OK\r\n",
        Reply::Miss | Reply::Hit { .. } => b"",
    };
    out.extend_from_slice(text)
}

/// Appends a number as a line. It fails as `write` does.
fn write_number(number: u64, out: &mut Vec<u8>) -> Result<(), AllocError>
    ensures ok { OnOk result (out.new.items ≡ out.old.items ++ decimal number ++ codes "\r\n") }
    ensures err { OnErr result (out.new.items ≡ out.old.items) }
    ensures full { OnErr result (HasNoRoom out.old (decimal number ++ codes "\r\n")) }
{
    let mut numbers = Numbers::new();
    numbers.put_number(number);
    out.extend_from_slice(numbers.as_slice())
}

/// Appends the text of a line's fault. It fails as `write` does.
pub fn write_fault(fault: &LineFault, out: &mut Vec<u8>) -> Result<(), AllocError>
    ensures ok { OnOk result (out.new.items ≡ out.old.items ++ fault_text fault.now) }
    ensures err { OnErr result (out.new.items ≡ out.old.items) }
    ensures full { OnErr result (HasNoRoom out.old (fault_text fault.now)) }
{
    out.extend_from_slice(fault_bytes(fault))
}

/// Returns the text of a line's fault.
fn fault_bytes(fault: &LineFault) -> &'static [u8]
    ensures { result.now ≡ fault_text fault.now }
{
    match fault {
        LineFault::Unknown => b"ERROR\r\n",
        LineFault::BadFormat => b"CLIENT_ERROR bad command line format\r\n",
        LineFault::BadDelta => b"CLIENT_ERROR invalid numeric delta argument\r\n",
        LineFault::TooLarge { .. } => b"SERVER_ERROR object too large for cache\r\n",
        LineFault::BadChunk => b"CLIENT_ERROR bad data chunk\r\n",
    }
}

/// Appends the text of a command that is only a name; a command with steps has none.
///
/// It fails as `write` does.
pub fn write_plain(command: &Command<'_>, out: &mut Vec<u8>) -> Result<(), AllocError>
    ensures ok { OnOk result (out.new.items ≡ out.old.items ++ plain_text command.now) }
    ensures err { OnErr result (out.new.items ≡ out.old.items) }
    ensures full { OnErr result (HasNoRoom out.old (plain_text command.now)) }
{
    match command {
        Command::Lone(lone) => out.extend_from_slice(lone_bytes(*lone)),
        _ => Ok(()),
    }
}

/// Returns the text of a command that is only a name.
fn lone_bytes(lone: Lone) -> &'static [u8]
    ensures { result.now ≡ lone_text lone }
{
    match lone {
        Lone::Version => b"VERSION 1.6.0\r\n",
        Lone::Quit => b"",
    }
}

/// Appends the text of a line that is too long. It fails as `write` does.
pub fn write_too_long(out: &mut Vec<u8>) -> Result<(), AllocError>
    ensures ok { OnOk result (out.new.items ≡ out.old.items ++ long_text) }
    ensures err { OnErr result (out.new.items ≡ out.old.items) }
    ensures full { OnErr result (HasNoRoom out.old long_text) }
{
    out.extend_from_slice(b"CLIENT_ERROR line too long\r\n")
}

/// Appends the text of a step whose unique numbers are used up; a quiet command has none.
///
/// It fails as `write` does.
pub fn write_spent(command: &Command<'_>, out: &mut Vec<u8>) -> Result<(), AllocError>
    ensures ok { OnOk result (out.new.items ≡ out.old.items ++ spent_text command.now) }
    ensures err { OnErr result (out.new.items ≡ out.old.items) }
    ensures full { OnErr result (HasNoRoom out.old (spent_text command.now)) }
{
    if is_quiet(command) {
        return Ok(());
    }
    out.extend_from_slice(b"SERVER_ERROR out of unique numbers\r\n")
}
