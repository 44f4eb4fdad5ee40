//! Appends copies of parts that are lent.

ghost use Rattle.std.specs.Prelude.{◌≡◌, ◌++◌, OnOk, OnErr};
ghost use Rattle.mc_session.specs.Outputs.{IsBegun};

use crate::output::Texts;
use mc_bytes::{Append, Lents};
use std::alloc::AllocError;

/// Appends a text, a copy of parts, and a text: all, or nothing after an error.
pub fn append_copy<T: Append, U: Append>(
    queue: &mut Texts,
    front: &T,
    parts: Lents,
    back: &U,
) -> Result<(), AllocError>
    requires front { T.can_append front.now }
    requires back { U.can_append back.now }
    ensures ok { OnOk result (queue.new.bytes
        ≡ queue.old.bytes ++ T.bytes front.now ++ parts ++ U.bytes back.now) }
    ensures err { OnErr result (queue.new.bytes ≡ queue.old.bytes) }
{
    let before = queue.len();
    let mut parts = parts;
    if append_all(queue, front, &mut parts, back).is_err() {
        queue.truncate(before);
        return Err(AllocError);
    }
    Ok(())
}

/// Appends a text, a copy of parts, and a text. After an error a part of them may be appended.
fn append_all<T: Append, U: Append>(
    queue: &mut Texts,
    front: &T,
    parts: &mut Lents,
    back: &U,
) -> Result<(), AllocError>
    requires front { T.can_append front.now }
    requires back { U.can_append back.now }
    ensures ok { OnOk result (queue.new.bytes
        ≡ queue.old.bytes ++ T.bytes front.now ++ parts.old ++ U.bytes back.now) }
    ensures begins { IsBegun queue.old.bytes queue.new.bytes }
{
    queue.append(front)?;
    copy_parts(queue, parts)?;
    queue.append(back)
}

/// Appends a copy of parts, which are consumed. After an error some may be appended.
fn copy_parts(queue: &mut Texts, parts: &mut Lents) -> Result<(), AllocError>
    ensures ok { OnOk result (queue.new.bytes ≡ queue.old.bytes ++ parts.old) }
    ensures begins { IsBegun queue.old.bytes queue.new.bytes }
{
    while !parts.is_empty() {
        let part = parts.front();
        let count = part.len();
        queue.push(part)?;
        parts.consume(count);
    }
    Ok(())
}
