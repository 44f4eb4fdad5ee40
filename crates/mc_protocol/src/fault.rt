//! Faults of lines.

/// What is wrong with a line, or with the block behind it. If several apply, the first one here is
/// reported.
#[derive(Clone, Copy, Debug, PartialEq, Eq)]
pub enum LineFault {
    /// The line is empty, or has an unknown name or the wrong number of words for its command.
    Unknown,
    /// A key, a number or a count is malformed.
    BadFormat,
    /// The delta of incr or decr is malformed.
    BadDelta,
    /// The item's charge would be above the limit. The next `passed` bytes after the line are
    /// skipped.
    TooLarge { passed: u64 },
    /// The block isn't followed by CR LF.
    BadChunk,
}
