//! Purging by a test of keys.
//!
//! `purge` takes a trait with a ghost member (`KeyTest`), not a closure: a closure's contract
//! ranges over lists with numbers above 255, about which nothing is known.

ghost use Rattle.std.specs.Prelude.{◌≡◌, ℕ, List, Bool};
ghost use Rattle.mc_protocol.specs.Purge.{purged};

use crate::plain::PlainStore;
use mc_time::Moment;

/// A test that selects keys.
pub trait KeyTest {
    /// Whether a key is selected, as contracts see it.
    ghost means: { Self → List ℕ → Bool };

    /// Returns whether the key is selected.
    fn is_meant(&self, key: &[u8]) -> bool
        ensures { result ≡ means self.now key.now };
}

impl PlainStore {
    /// Drops the items that are dead at `now` and whose keys are selected, and no others.
    ///
    /// It takes no memory; the cost grows with the number of items.
    pub fn purge<T: KeyTest>(&mut self, now: Moment, test: &T)
        ensures { self.new ≡ purged (T.means test.now) now self.old }
    {
        let cut = self.cut;
        self.items
            .retain(|key, item| !test.is_meant(key) || !item.is_dead(cut, now));
    }
}
