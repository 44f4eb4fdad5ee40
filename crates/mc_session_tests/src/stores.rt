//! The store that the tests of sessions share.

use mc_command::PlainStore;
use std::alloc::{AllocError, Global};

/// Returns an empty plain store of 64 pages, whose items take at most 1048576 bytes.
pub(crate) fn store_of_64_pages(alloc: Global) -> Result<PlainStore, AllocError> {
    PlainStore::new(alloc, 64, 1_048_576)
}
