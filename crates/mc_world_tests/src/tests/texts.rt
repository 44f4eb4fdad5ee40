//! Input and output of sessions.

use crate::worlds::twice;
use std::alloc::{AllocError, Global};

/// The reply to a step without a chunk.
pub(crate) const NO_CHUNK: &str = "SERVER_ERROR out of memory storing object\r\n";

/// The reply to `get a` if the set of `a` was taken, and if it wasn't.
pub(crate) const HIT: &[u8] = b"VALUE a 0 1\r\nx\r\nEND\r\n";

pub(crate) const MISS: &[u8] = b"END\r\n";

fn set_once(alloc: Global, number: u32) -> Result<String, AllocError> {
    format!(in alloc; "set k{number:03} 0 0 3\r\n{number:03}\r\n")
}

fn get_once(alloc: Global, number: u32) -> Result<String, AllocError> {
    format!(in alloc; "get k{number:03}\r\n")
}

fn hit_once(alloc: Global, number: u32) -> Result<String, AllocError> {
    format!(in alloc; "VALUE k{number:03} 0 3\r\n{number:03}\r\nEND\r\n")
}

// Each of these three allocates twice if memory is refused.

/// Returns the command that sets the key of a number to its three digits.
pub(crate) fn set_of(alloc: Global, number: u32) -> Result<String, AllocError> {
    twice!(set_once(alloc, number))
}

/// Returns the command that gets the key of a number.
pub(crate) fn get_of(alloc: Global, number: u32) -> Result<String, AllocError> {
    twice!(get_once(alloc, number))
}

/// Returns the reply to a get of a number's key.
pub(crate) fn hit_of(alloc: Global, number: u32) -> Result<String, AllocError> {
    twice!(hit_once(alloc, number))
}

/// Returns three parts; the middle one is a letter so often.
pub(crate) fn around(
    alloc: Global,
    front: &[u8],
    (letter, times): (u8, usize),
    behind: &[u8],
) -> Result<Vec<u8>, AllocError> {
    let mut text = Vec::new(alloc);
    text.extend_from_slice(front)?;
    text.resize(front.len().saturating_add(times), letter)?;
    text.extend_from_slice(behind)?;
    Ok(text)
}

/// Returns a set of a key to 600000 bytes: an item in the class of whole pages.
pub(crate) fn large_set(
    alloc: Global,
    key: char,
    exptime: u32,
    byte: u8,
) -> Result<Vec<u8>, AllocError> {
    let line = format!(in alloc; "set {key} 0 {exptime} 600000\r\n")?;
    around(alloc, line.as_bytes(), (byte, 600000), b"\r\n")
}
