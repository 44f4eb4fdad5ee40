//! The bytes in front of an item's block and beside it.

use crate::need::LARGEST_CHARGE;

/// The bytes of an item's header, which stands in front of its key.
pub const HEADER_SIZE: usize = 48;

/// The bytes of the largest block: what the largest charge leaves beside the header.
pub const LARGEST_BLOCK: u64 = LARGEST_CHARGE - HEADER_SIZE as u64;

/// Bytes beside its own that a chunk's memory may have, so that it can take over memory in which
/// something stands before the block. With more, chunks would keep more memory than their pages.
pub const BESIDE: usize = 512;
