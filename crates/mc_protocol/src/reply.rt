//! Replies to steps.

use crate::block::Block;

/// The reply to a step.
#[derive(Drop)]
pub enum Reply {
    Stored,
    /// The command's condition failed.
    NotStored,
    /// The item was written after its unique number was read.
    Exists,
    NotFound,
    /// A retrieval found no item.
    Miss,
    /// A retrieval found this item.
    Hit {
        flags: u32,
        unique: u64,
        block: Block,
    },
    Touched,
    Deleted,
    /// The new number.
    Number(u64),
    /// The block isn't a number.
    NotNumeric,
    /// The charge of the joined block would be above the limit.
    TooLarge,
    /// No chunk is left.
    NoChunk,
    Flushed,
}
