//! Numbers of the protocol.

use mc_sizes::HEADER_SIZE;

/// The longest key in bytes.
pub const LONGEST_KEY: usize = 250;

/// Bytes that an item's chunks hold beside its key and its block.
pub const CHUNK_HEAD: u64 = HEADER_SIZE as u64;
