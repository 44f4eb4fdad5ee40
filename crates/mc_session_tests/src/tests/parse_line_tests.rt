//! The commands of lines, and their first faults.

use crate::checks::holds;
use mc_parse::{Noted, lend, line_of};
use mc_protocol::{Bytes, Command, CommandOf, KeyPlace, LineFault};
use std::test::*;

const GREATEST: u64 = 1048576;

const UNKNOWN: Option<LineFault> = Some(LineFault::Unknown);

const BAD_FORMAT: Option<LineFault> = Some(LineFault::BadFormat);

const BAD_DELTA: Option<LineFault> = Some(LineFault::BadDelta);

/// Lines, and the first fault of each.
static FAULTS: [(&[u8], Option<LineFault>); 37] = [
    (b"", UNKNOWN),
    (b"  ", UNKNOWN),
    (b"foo", UNKNOWN),
    (b"GET a", UNKNOWN),
    (b"get", UNKNOWN),
    (b"gat x", UNKNOWN),
    (b"gat x a", BAD_FORMAT),
    (b"gats 0 a", None),
    (b"set a x 0", UNKNOWN),
    (b"set a x 0 1 x", UNKNOWN),
    (b"set a x 0 1 noreply x", UNKNOWN),
    (b"set a x 0 1048528", BAD_FORMAT),
    (
        b"set a 0 0 1048528",
        Some(LineFault::TooLarge { passed: 1048530 }),
    ),
    (
        b"set a 0 0 1048528 noreply",
        Some(LineFault::TooLarge { passed: 1048530 }),
    ),
    (b"set a 0 0 1048527", None),
    (
        b"set ab 0 0 1048527",
        Some(LineFault::TooLarge { passed: 1048529 }),
    ),
    (b"cas a 0 0 1", UNKNOWN),
    (b"cas a 0 0 1 noreply", BAD_FORMAT),
    (b"cas a 0 0 1048528 x", BAD_FORMAT),
    (
        b"cas a 0 0 1048528 7",
        Some(LineFault::TooLarge { passed: 1048530 }),
    ),
    (b"touch a", UNKNOWN),
    (b"touch a x", BAD_FORMAT),
    (b"delete", UNKNOWN),
    (b"delete a 1", UNKNOWN),
    (b"delete a 0 noreply", None),
    (b"delete a noreply 0", UNKNOWN),
    (b"delete a 0 0", UNKNOWN),
    (b"incr a", UNKNOWN),
    (b"incr a -1", BAD_DELTA),
    (b"decr a -1 x", UNKNOWN),
    (b"flush_all noreply", None),
    (b"flush_all noreply noreply", BAD_FORMAT),
    (b"flush_all 5 x", UNKNOWN),
    (b"flush_all -0", None),
    (b"flush_all -1", BAD_FORMAT),
    (b"version x", UNKNOWN),
    (b"quit noreply", UNKNOWN),
];

#[test]
fn the_first_fault_of_a_line(rt: HostRuntime) {
    for (text, fault) in &FAULTS {
        assert!(rt; fault_of(text) == *fault, "at {text:?}");
    }
}

/// Lines with numbers at their limits, and whether each is well formed.
static LIMITS: [(&[u8], bool); 12] = [
    (b"set a 4294967295 0 1", true),
    (b"set a 4294967296 0 1", false),
    (b"set a 0 0 2147483645", true),
    (b"set a 0 0 2147483646", false),
    (b"touch a 9223372036854775807", true),
    (b"touch a 9223372036854775808", false),
    (b"touch a -9223372036854775807", true),
    (b"touch a -9223372036854775808", false),
    (b"cas a 0 0 1 18446744073709551615", true),
    (b"cas a 0 0 1 18446744073709551616", false),
    (b"flush_all 9223372036854775807", true),
    (b"flush_all 9223372036854775808", false),
];

#[test]
fn numbers_at_their_limits(rt: HostRuntime) {
    for (text, good) in &LIMITS {
        assert!(rt; line_of(u64::MAX, text).is_ok() == *good, "at {text:?}");
    }
}

/// Returns the first fault of a line.
fn fault_of(text: &[u8]) -> Option<LineFault> {
    line_of(GREATEST, text).err()
}

/// Returns whether a get has no fault with a key of 250 bytes, and one with a longer key.
fn are_keys_of_a_get() -> bool {
    let mut get = [b'k'; 257];
    get[..4].copy_from_slice(b"get ");
    let is_good = fault_of(&get[..254]).is_none();
    let is_bad = fault_of(&get[..255]) == BAD_FORMAT;
    // One of two keys is malformed.
    get[255..].copy_from_slice(b" a");
    is_good && is_bad && fault_of(&get) == BAD_FORMAT
}

/// Returns whether the first fault of an incr with a malformed delta is that of a long key.
///
/// With a key of 250 bytes it is that of the delta.
fn is_key_of_an_incr() -> bool {
    let mut incr = [b'k'; 258];
    incr[..5].copy_from_slice(b"incr ");
    incr[256..].copy_from_slice(b" x");
    let is_bad = fault_of(&incr) == BAD_FORMAT;
    incr[255..].copy_from_slice(b" -1");
    is_bad && fault_of(&incr) == BAD_DELTA
}

#[test]
fn keys_of_250_and_of_251_bytes(rt: HostRuntime) {
    holds(&rt, are_keys_of_a_get());
    holds(&rt, is_key_of_an_incr());
}

/// Returns whether it is a certain cas.
fn is_a_cas(noted: &Noted, text: &[u8]) -> bool {
    match noted {
        CommandOf::Cas {
            key,
            flags,
            exptime,
            block,
            unique,
            quiet,
        } => {
            *block == 3
                && key.lend(text).as_slice() == b"key".as_slice()
                && (*flags, *exptime, *unique, *quiet) == (7, -1, u64::MAX, true)
        }
        _ => false,
    }
}

/// Returns whether it is a certain gats.
fn is_a_gats(command: Command<'_>) -> bool {
    match command {
        Command::GetTouch {
            exptime,
            keys,
            with_unique,
        } => {
            (exptime, keys.len(), with_unique) == (0, 2, true)
                && keys.get(1) == Some(b"b".as_slice())
        }
        _ => false,
    }
}

/// Returns whether a line is a certain cas.
fn says_a_cas(text: &[u8]) -> bool {
    match line_of(GREATEST, text) {
        Ok(noted) => is_a_cas(&noted, text),
        Err(_) => false,
    }
}

/// Returns whether a line is a certain gats.
fn says_a_gats(text: &[u8]) -> bool {
    match line_of(GREATEST, text) {
        Ok(noted) => is_a_gats(lend(&noted, text, Bytes::of(&[]))),
        Err(_) => false,
    }
}

#[test]
fn what_a_line_says(rt: HostRuntime) {
    let cas = b" cas key  7 -1 003 18446744073709551615 noreply ";
    holds(&rt, says_a_cas(cas));
    holds(&rt, says_a_gats(b"gats 0 a  b"));
}
