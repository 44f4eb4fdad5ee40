//! Rows of steps with their expected answers, over any store.

ghost use Rattle.std.specs.Prelude.{◌≤◌, length};
ghost use Rattle.mc_protocol.specs.Commands.{key_of, longest_key};

use mc_protocol::{Bytes, KeyStep, LONGEST_KEY, Reply, StepFault, Steps, Verb};
use mc_time::Moment;
use std::alloc::{AllocError, Global};

/// A step without its key. Items are stored with the flags 7, and by cas with the exptime 0.
#[derive(Clone, Copy)]
pub enum Ask<'a> {
    /// The exptime and the block.
    Store(Verb, i64, &'a [u8]),
    /// The unique number and the block.
    Cas(u64, &'a [u8]),
    Get,
    /// The exptime.
    Gat(i64),
    /// The exptime.
    Touch(i64),
    Delete,
    Incr(u64),
    Decr(u64),
    /// The delay. It has no key.
    Flush(u64),
}

/// The expected answer.
#[derive(Clone, Copy)]
pub enum Want<'a> {
    /// A reply, or why there is none, by its name in `told_of`.
    Told(&'a str),
    /// A hit of an item with the flags 7: its unique number and its block.
    Hit(u64, &'a [u8]),
    Number(u64),
}

/// The second, the key, the step and the expected answer.
pub type Row<'a> = (u64, &'a [u8], Ask<'a>, Want<'a>);

/// Returns the row of a set.
pub fn set<'a>(
    seconds: u64,
    key: &'a [u8],
    exptime: i64,
    block: &'a [u8],
    want: &'static str,
) -> Row<'a> {
    let ask = Ask::Store(Verb::Set, exptime, block);
    (seconds, key, ask, Want::Told(want))
}

/// Returns the row of a join to `k` at 1000.
pub fn join<'a>(verb: Verb, block: &'a [u8], want: &'static str) -> Row<'a> {
    (1000, b"k", Ask::Store(verb, 0, block), Want::Told(want))
}

/// Returns this step on a key of at most 250 bytes.
pub fn step_of<'a>(key: &'a [u8], ask: Ask<'a>) -> KeyStep<'a>
    requires { length key.now ≤ longest_key }
    ensures { length (key_of result) ≤ longest_key }
{
    let key = Bytes::of(key);
    match ask {
        Ask::Store(verb, exptime, block) => KeyStep::Store {
            verb,
            key,
            flags: 7,
            exptime,
            block: Bytes::of(block),
        },
        Ask::Cas(unique, block) => KeyStep::Cas {
            key,
            flags: 7,
            exptime: 0,
            block: Bytes::of(block),
            unique,
        },
        Ask::Get => KeyStep::Read { key },
        Ask::Gat(exptime) => KeyStep::ReadTouch { key, exptime },
        Ask::Touch(exptime) => KeyStep::Touch { key, exptime },
        Ask::Delete => KeyStep::Delete { key },
        Ask::Incr(by) => KeyStep::Count { key, up: true, by },
        Ask::Decr(by) => KeyStep::Count { key, up: false, by },
        Ask::Flush(delay) => KeyStep::Flush { delay },
    }
}

/// Returns the name of a reply.
fn reply_word(reply: &Reply) -> &'static str {
    match reply {
        Reply::Stored => "stored",
        Reply::NotStored => "not stored",
        Reply::Exists => "exists",
        Reply::NotFound => "not found",
        Reply::Miss => "miss",
        Reply::Hit { .. } => "hit",
        Reply::Touched => "touched",
        Reply::Deleted => "deleted",
        Reply::Number(_) => "number",
        Reply::NotNumeric => "not numeric",
        Reply::TooLarge => "too large",
        Reply::NoChunk => "no chunk",
        Reply::Flushed => "flushed",
    }
}

/// Returns the name of a step's result.
pub fn told_of(taken: &Result<Reply, StepFault>) -> &'static str {
    match taken {
        Ok(reply) => reply_word(reply),
        Err(StepFault::NumbersSpent) => "numbers spent",
        Err(StepFault::NoMemory) => "no memory",
    }
}

/// Returns a hit's flags, unique number and block.
///
/// For a number it returns the number in place of the unique number.
fn parts(reply: &Reply) -> (u32, u64, &[u8]) {
    match reply {
        Reply::Hit {
            flags,
            unique,
            block,
        } => (*flags, *unique, block.bytes()),
        Reply::Number(number) => (0, *number, &[]),
        _ => (0, 0, &[]),
    }
}

/// Returns whether two replies are the same.
pub fn is_same(reply: &Reply, other: &Reply) -> bool {
    reply_word(reply) == reply_word(other) && parts(reply) == parts(other)
}

/// Returns whether the result of a step is the expected one.
pub fn is_wanted(taken: &Result<Reply, StepFault>, want: Want<'_>) -> bool {
    match want {
        Want::Told(text) => told_of(taken) == text,
        Want::Hit(unique, block) => told_of(taken) == "hit" && has(taken, (7, unique, block)),
        Want::Number(number) => told_of(taken) == "number" && has(taken, (0, number, &[])),
    }
}

/// Returns whether a reply has these parts.
fn has(taken: &Result<Reply, StepFault>, wanted: (u32, u64, &[u8])) -> bool {
    match taken {
        Ok(reply) => parts(reply) == wanted,
        Err(_) => false,
    }
}

/// Takes a step, and once more if memory is refused.
pub fn ask_step<S: Steps>(
    store: &mut S,
    alloc: Global,
    step: &KeyStep<'_>,
    now: Moment,
) -> Result<Reply, StepFault>
    requires { length (key_of step.now) ≤ longest_key }
{
    match store.step(alloc, step, now) {
        Err(StepFault::NoMemory) => store.step(alloc, step, now),
        answer => answer,
    }
}

/// Returns whether a step has the expected answer. It is taken again if memory is refused.
///
/// The key isn't read before the step, so the step meets the key's dead item.
pub fn is_answered<S: Steps>(store: &mut S, alloc: Global, row: Row<'_>) -> bool {
    let (seconds, key, ask, want) = row;
    if key.len() > LONGEST_KEY {
        return false;
    }
    let now = Moment::from_seconds_at_most(seconds);
    let step = step_of(key, ask);
    is_wanted(&ask_step(store, alloc, &step, now), want)
}

/// Takes a step, and once more if memory is refused.
///
/// Returns `None` if the refusal changed the key's item.
fn take_again<S: Steps>(
    store: &mut S,
    alloc: Global,
    key: &[u8],
    step: &KeyStep<'_>,
    now: Moment,
) -> Result<Option<Reply>, StepFault>
    requires key { length key.now ≤ longest_key }
    requires step { length (key_of step.now) ≤ longest_key }
{
    let read = step_of(key, Ask::Get);
    let before = ask_step(store, alloc, &read, now)?;
    if let Ok(reply) = store.step(alloc, step, now) {
        return Ok(Some(reply));
    }
    let after = ask_step(store, alloc, &read, now)?;
    if !is_same(&before, &after) {
        return Ok(None);
    }
    Ok(Some(store.step(alloc, step, now)?))
}

/// Takes the steps of rows in order, and returns the first unexpected answer with its second.
///
/// It stops there. A step that is refused memory must leave its key's item unchanged, and is taken
/// again.
pub fn first_unlike<S: Steps>(
    store: &mut S,
    alloc: Global,
    rows: &[Row<'_>],
) -> Result<Option<(u64, &'static str)>, StepFault> {
    for (seconds, key, ask, want) in rows {
        if key.len() > LONGEST_KEY {
            return Ok(Some((*seconds, "too long a key")));
        }
        let now = Moment::from_seconds_at_most(*seconds);
        let step = step_of(key, *ask);
        match take_again(store, alloc, key, &step, now)? {
            None => return Ok(Some((*seconds, "changed by a refused step"))),
            Some(reply) => {
                let answer = Ok(reply);
                if !is_wanted(&answer, *want) {
                    return Ok(Some((*seconds, told_of(&answer))));
                }
            }
        }
    }
    Ok(None)
}

/// Returns the place of the first row with an unexpected answer. No key is read before its step.
pub fn first_unread<S: Steps>(store: &mut S, alloc: Global, rows: &[Row<'_>]) -> Option<usize> {
    for (at, row) in rows.iter().enumerate() {
        if !is_answered(store, alloc, *row) {
            return Some(at);
        }
    }
    None
}

/// Returns `len` bytes. It allocates once more if memory is refused.
pub fn filled_block(alloc: Global, len: usize) -> Result<Vec<u8>, AllocError> {
    match vec![in alloc; b'x'; len] {
        Err(_) => vec![in alloc; b'x'; len],
        bytes => bytes,
    }
}

/// Returns `len` bytes; the first and the last differ from the others.
pub fn bounded_block(alloc: Global, len: usize) -> Result<Vec<u8>, AllocError> {
    let mut bytes = filled_block(alloc, len)?;
    if let Some(first) = bytes.first_mut() {
        *first = b'a';
    }
    if let Some(last) = bytes.last_mut() {
        *last = b'z';
    }
    Ok(bytes)
}
