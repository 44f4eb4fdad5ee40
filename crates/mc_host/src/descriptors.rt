//! The limit of descriptors.
//!
//! Descriptors are tried before the program reports that it listens. The limit isn't raised:
//! `setrlimit` isn't among the kit's calls.

use std::alloc::AllocGlobal;
use std::fs::{self, Files};

/// The file with a process's limits on Linux.
const LIMITS: &str = "/proc/self/limits";

/// The beginning of the line with the number of descriptors.
const DESCRIPTORS: &str = "Max open files";

/// Returns the limit of descriptors of the process, or `None` if there is none or it is unknown.
pub fn most_descriptors<R: Files + AllocGlobal>(rt: &R) -> Option<u64> {
    soft_limit(rt, DESCRIPTORS)
}

/// Returns the number in the line of a limit of the process that begins with these words.
///
/// It is `None` if there is no limit, or if the system doesn't report it.
pub(crate) fn soft_limit<R: Files + AllocGlobal>(rt: &R, words: &str) -> Option<u64> {
    let text = fs::read_to_string(rt, LIMITS).ok()?;
    number_behind(text.as_str(), words)
}

/// Returns the number behind the words with which a line begins.
fn number_behind(text: &str, words: &str) -> Option<u64> {
    let line = text.lines().find(|line| line.starts_with(words))?;
    let rest = line.strip_prefix(words)?;
    rest.split_whitespace().next()?.parse::<u64>().ok()
}
