//! Entries with hashes and keys, and hash functions.

/// An entry of a table, which knows its hash and its key.
pub trait Keyed {
    ghost use Rattle.std.specs.Prelude.{◌≡◌, ℕ, List};

    /// The hash and the key, as contracts see them.
    ghost hash_of: { Self → ℕ };

    ghost key_of: { Self → List ℕ };

    /// Returns the hash of its key.
    fn hash(&self) -> u64
        ensures { result ≡ hash_of self.now };

    /// Lends its key.
    fn key(&self) -> &[u8]
        ensures { result.now ≡ key_of self.now };
}

/// A function from keys to hashes.
pub trait KeyHash {
    ghost use Rattle.std.specs.Prelude.{◌≡◌, ℕ, List};

    /// The hash of a key, as contracts see it.
    ghost hash_of: { Self → List ℕ → ℕ };

    /// Returns the hash of a key. The cost grows with the key's length.
    fn hash(&self, key: &[u8]) -> u64
        ensures { result ≡ hash_of self.now key.now };
}

/// FNV-1a of 64 bits.
#[derive(Clone, Copy, Debug, PartialEq, Eq)]
pub struct Fnv;

/// The hash of no bytes.
const OFFSET: u64 = 14695981039346656037;

/// The factor by which the hash is multiplied after each byte.
const PRIME: u64 = 1099511628211;

impl KeyHash for Fnv {
    ghost use Rattle.mc_hop.specs.Hash.{fnv};

    ghost hash_of = { λ hasher key. fnv key };

    fn hash(&self, key: &[u8]) -> u64 {
        key.iter().fold(
            OFFSET,
            |hash, byte| (hash ^ u64::from(*byte)).wrapping_mul(PRIME),
        )
    }
}

/// The same hash for every key, for tests of collisions.
#[derive(Clone, Copy, Debug, PartialEq, Eq)]
pub struct Constant(pub u64);

impl KeyHash for Constant {
    ghost hash_of = { λ hasher key. hasher.0 };

    fn hash(&self, _key: &[u8]) -> u64 {
        self.0
    }
}
