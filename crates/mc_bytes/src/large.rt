//! Large memory that is given back whole.
ghost use Rattle.std.specs.Prelude.{◌≡◌};

use crate::spares::free;
use std::sync::atomic::{AtomicBool, Ordering};

/// A large vector of bytes, which is shrunk before it is freed.
///
/// Memory that is freed whole stays with the C library, as `spares.rt` says. Memory that is only
/// reserved would then be served from it, and take up what was written before.
pub struct Large {
    pub bytes: Vec<u8>,
    /// Whether it has left the store: a chunk that had it goes on in other memory, or was dropped.
    has_left: AtomicBool,
}

impl Large {
    /// Returns memory of these bytes, which hasn't left the store.
    pub fn new(bytes: Vec<u8>) -> Large
        ensures { result.bytes ≡ bytes }
    {
        Large {
            bytes,
            has_left: AtomicBool::new(false),
        }
    }

    /// Marks the memory as left. A chunk calls it before it lets its memory go.
    pub fn leave(&self) {
        self.has_left.store(true, Ordering::SeqCst);
    }

    /// Returns whether the memory has left the store, so that readers alone keep it.
    pub fn has_left(&self) -> bool {
        self.has_left.load(Ordering::SeqCst)
    }
}

impl Drop for Large {
    fn drop(self) {
        let Large { bytes, has_left } = self;
        drop(has_left);
        free(bytes);
    }
}
