//! Steps with large blocks, which are given by their lengths, and their expected answers.
//!
//! Each block is a front of one that a test makes once.

use crate::steps::{Ask, Row, Want, first_unlike, is_answered, set};
use mc_protocol::{StepFault, Steps, Verb};
use std::alloc::Global;

/// A step without its key, and its expected answer. A reply is given by its name.
#[derive(Clone, Copy)]
pub enum Act {
    /// A set: the exptime, the length and the reply.
    Set(i64, usize, &'static str),
    /// A join: the length and the reply.
    Join(Verb, usize, &'static str),
    /// A read that finds an item: its unique number and its length.
    Hit(u64, usize),
    /// A step without such a block, and the reply.
    Told(Ask<'static>, &'static str),
    /// A step without such a block, and an answer that is no name.
    Gives(Ask<'static>, Want<'static>),
}

/// The second, the key and the step.
pub type Play = (u64, &'static [u8], Act);

/// Lends the first `len` bytes, at most all.
pub fn front(bytes: &[u8], len: usize) -> &[u8] {
    let (front, _) = bytes.split_at(len.min(bytes.len()));
    front
}

/// Returns the row of a play whose block is a front of these bytes.
fn row_of<'a>(play: &Play, bytes: &'a [u8]) -> Row<'a> {
    let (seconds, key, act) = *play;
    match act {
        Act::Set(exptime, len, want) => set(seconds, key, exptime, front(bytes, len), want),
        Act::Join(verb, len, want) => {
            let ask = Ask::Store(verb, 0, front(bytes, len));
            (seconds, key, ask, Want::Told(want))
        }
        Act::Hit(unique, len) => (seconds, key, Ask::Get, Want::Hit(unique, front(bytes, len))),
        Act::Told(ask, want) => (seconds, key, ask, Want::Told(want)),
        Act::Gives(ask, want) => (seconds, key, ask, want),
    }
}

/// Returns the place of the first play with an unexpected answer.
///
/// Each key is read before its step: a step that is refused memory must leave the key's item
/// unchanged, and is taken again.
pub fn first_wrong<S: Steps>(
    store: &mut S,
    alloc: Global,
    bytes: &[u8],
    plays: &[Play],
) -> Result<Option<usize>, StepFault> {
    for (at, play) in plays.iter().enumerate() {
        if first_unlike(store, alloc, &[row_of(play, bytes)])?.is_some() {
            return Ok(Some(at));
        }
    }
    Ok(None)
}

/// Returns the same, if no key is read before its step.
pub fn first_wrong_unread<S: Steps>(
    store: &mut S,
    alloc: Global,
    bytes: &[u8],
    plays: &[Play],
) -> Option<usize> {
    for (at, play) in plays.iter().enumerate() {
        if !is_answered(store, alloc, row_of(play, bytes)) {
            return Some(at);
        }
    }
    None
}
