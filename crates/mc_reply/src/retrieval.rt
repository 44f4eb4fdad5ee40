//! The texts of retrievals.

ghost use Rattle.std.specs.Prelude.{◌≡◌, ◌++◌, ◌<◌, ◌≤◌, ◌+◌, take, length, OnOk, OnErr};
ghost use Rattle.std.specs.Prelude.{vec_capacity};
ghost use Rattle.std.specs.List.{concat};
ghost use Rattle.mc_reply.specs.Texts.{counted, retrieval_text, hit_reply, hit_parts, end_text, HasNoRoom};

use crate::numbers::Numbers;
use mc_protocol::{Bytes, Keys, Reply};
use std::alloc::AllocError;

/// The bytes of a hit's text beside its key, its numbers and its block: `VALUE `, and the line end
/// behind the block.
const AROUND: usize = 8;

/// The fields of a hit, whose block is in these parts one after another.
#[derive(Clone, Copy)]
pub(crate) struct HitFields<'a> {
    pub flags: u32,
    pub unique: u64,
    pub parts: &'a [Bytes<'a>],
}

/// Appends a retrieval's text for key `at`, and `END` after the last key.
///
/// Only a hit reads the key. It fails as `write` does.
pub(crate) fn write_retrieval(
    keys: &Keys<'_>,
    with_unique: bool,
    at: usize,
    reply: &Reply,
    out: &mut Vec<u8>,
) -> Result<(), AllocError>
    requires { at < length keys.now }
    ensures ok { OnOk result (out.new.items ≡ out.old.items
        ++ retrieval_text keys.now with_unique at reply.now) }
    ensures err { OnErr result (out.new.items ≡ out.old.items) }
    ensures full { OnErr result (HasNoRoom out.old
        (retrieval_text keys.now with_unique at reply.now)) }
{
    match reply {
        Reply::Hit {
            flags,
            unique,
            block,
        } => {
            let parts = [Bytes::of(block.bytes())];
            let hit = HitFields {
                flags: *flags,
                unique: *unique,
                parts: &parts,
            };
            write_found(keys, with_unique, at, &hit, out)
        }
        _ => out.extend_from_slice(end_of(keys.len(), at)),
    }
}

/// Appends a retrieval's text of a hit. It fails as `write` does.
pub(crate) fn write_found(
    keys: &Keys<'_>,
    with_unique: bool,
    at: usize,
    hit: &HitFields<'_>,
    out: &mut Vec<u8>,
) -> Result<(), AllocError>
    requires { at < length keys.now }
    ensures ok { OnOk result (out.new.items ≡ out.old.items
        ++ retrieval_text keys.now with_unique at (hit_reply hit.now)) }
    ensures err { OnErr result (out.new.items ≡ out.old.items) }
    ensures full { OnErr result (HasNoRoom out.old
        (retrieval_text keys.now with_unique at (hit_reply hit.now))) }
{
    let HitFields {
        flags,
        unique,
        parts,
    } = *hit;
    let end = end_of(keys.len(), at);
    let Some(key) = keys.get(at) else {
        unreachable!()
    };
    let block_len = length_of(parts);
    let numbers = Numbers::of_hit(flags, block_len, unique, with_unique);
    let before = out.len();
    let result = append_hit(key, numbers.as_slice(), parts, block_len, end, out);
    if result.is_err() {
        out.truncate(before);
    }
    result
}

/// Returns `END` if `at` is the last of `count`.
fn end_of(count: usize, at: usize) -> &'static [u8]
    requires { at < count }
    ensures { result.now ≡ end_text count at }
{
    if at + 1 == count { b"END\r\n" } else { b"" }
}

/// Returns the number of bytes of parts, at most 2^64 - 1.
pub fn length_of(parts: &[Bytes<'_>]) -> usize
    ensures { result ≡ counted parts.now }
{
    let mut counted = 0_usize;
    for part in parts {
        counted = counted.saturating_add(part.as_slice().len());
    }
    counted
}

/// Appends the parts of a hit after one reservation for all of them.
///
/// `block_len` is what `length_of` returns for the parts. After an error the old text is followed
/// by a partial one, which the caller drops.
fn append_hit(
    key: &[u8],
    numbers: &[u8],
    parts: &[Bytes<'_>],
    block_len: usize,
    end: &[u8],
    out: &mut Vec<u8>,
) -> Result<(), AllocError>
    requires { block_len ≡ counted parts.now }
    ensures ok { OnOk result (out.new.items ≡ out.old.items
        ++ hit_parts key.now numbers.now (concat parts.now) end.now) }
    ensures counted { OnOk result (block_len ≡ length (concat parts.now)) }
    ensures err { OnErr result (take (length out.old.items) out.new.items ≡ out.old.items) }
    ensures full { OnErr result (HasNoRoom out.old
        (hit_parts key.now numbers.now (concat parts.now) end.now)) }
{
    let room = key
        .len()
        .saturating_add(block_len)
        .saturating_add(numbers.len())
        .saturating_add(end.len())
        .saturating_add(AROUND);
    out.reserve(room)?;
    out.extend_from_slice(b"VALUE ")?;
    out.extend_from_slice(key)?;
    out.extend_from_slice(numbers)?;
    append_parts(parts, out)?;
    out.extend_from_slice(b"\r\n")?;
    out.extend_from_slice(end)
}

/// Appends parts one after another. After an error the caller drops what follows the old bytes.
fn append_parts(parts: &[Bytes<'_>], out: &mut Vec<u8>) -> Result<(), AllocError>
    ensures ok { OnOk result (out.new.items ≡ out.old.items ++ concat parts.now) }
    ensures err { OnErr result (take (length out.old.items) out.new.items ≡ out.old.items) }
    ensures full { OnErr result (HasNoRoom out.old (concat parts.now)) }
    ensures room { vec_capacity out.old ≤ vec_capacity out.new }
{
    for part in parts {
        out.extend_from_slice(part.as_slice())?;
    }
    Ok(())
}
