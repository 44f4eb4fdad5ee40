//! Checks of one value, each of which several tests call.

use std::process::Abort;

/// Checks that this holds.
pub(crate) fn holds(rt: &impl Abort, it: bool) {
    assert!(rt; it);
}

/// Checks that no place was found, as of a first row that is wrong.
pub(crate) fn is_none(rt: &impl Abort, found: Option<usize>) {
    assert_eq!(rt; found, None);
}

/// Checks bytes.
pub(crate) fn are_bytes(rt: &impl Abort, has: &[u8], expected: &[u8]) {
    assert_eq!(rt; has, expected);
}

/// Checks bytes that answer this input.
pub(crate) fn are_bytes_at(rt: &impl Abort, input: &str, has: &[u8], expected: &[u8]) {
    assert_eq!(rt; has, expected, "at {input}");
}
