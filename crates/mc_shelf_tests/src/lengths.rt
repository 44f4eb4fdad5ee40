//! A hash of keys by their lengths, and such keys.

ghost use Rattle.std.specs.Prelude.{◌≤◌, length};

use mc_hop::KeyHash;
use mc_protocol::Verb;
use mc_shelf::Store;
use mc_testing::{Ask, ask_step, step_of};
use mc_time::Moment;
use std::alloc::Global;

/// A hash for each length of key, on the first shelf, with a home of its own if there are enough.
///
/// Lengths that are equal modulo 16 have one number, 256 times the rest.
#[derive(Clone, Copy, Drop)]
pub(crate) struct ByLength;

impl KeyHash for ByLength {
    ghost use Rattle.std.specs.Prelude.{◌*◌, ◌%◌, length};

    ghost hash_of = { λ hasher key. length key % 256 * 256 };

    fn hash(&self, key: &[u8]) -> u64 {
        key.len() as u64 % 256 * 256
    }
}

/// Lends the first `len` bytes, at most 250 and at most all.
pub(crate) fn front(bytes: &[u8], len: usize) -> &[u8]
    ensures { length result.now ≤ 250 }
{
    let (front, _) = bytes.split_at(len.min(bytes.len()).min(250));
    front
}

/// Sets a key at 1000.
pub(crate) fn set_key<K: KeyHash + Drop>(store: &mut Store<K>, alloc: Global, key: &[u8])
    requires { length key.now ≤ 250 }
{
    let step = step_of(key, Ask::Store(Verb::Set, 0, b"x"));
    let _ = ask_step(store, alloc, &step, Moment::from_seconds_at_most(1000));
}
