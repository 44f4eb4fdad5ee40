//! Hashes of keys, and one hopscotch table.
//!
//! The search for a key decides what a cache costs, and clients may choose the keys. In a hopscotch
//! table (Herlihy, Shavit and Tzafrir, "Hopscotch Hashing", DISC 2008) an entry is within 31
//! buckets of its home, and a word beside the home has a bit for each of these 32 buckets. So a
//! search reads at most 32 entries, found or not, however full the table is, and a removal leaves
//! nothing behind that later searches read. A bucket also has seven bits of its entry's hash, its
//! tag, and a search reads an entry only if the tag is equal.
//!
//! A [`Hop`] is a table of 2^k homes, k from 6 to 24, and 255 further buckets, so that nothing
//! wraps around. It never grows, and moves no entry by itself: `mc_displace` makes room near a
//! home, and `mc_grow` keeps more than one table. An entry is any type that is [`Keyed`]: it
//! returns its own hash and key. A [`KeyHash`] computes hashes: [`Fnv`] (FNV-1a of 64 bits), and
//! [`Constant`] for tests. A [`ReadCounter`] counts the reads of a search, so that their bound is a
//! clause; [`Uncounted`] costs nothing.
//!
//! Contracts see k and the buckets; `content` makes a finite map of them, from hash and key to
//! entry. Crates above need only that a search is right, and that a change of a bucket changes the
//! map at one key; the words are in the invariant. The laws state the same of lists of buckets.
//!
//! Begin with `specs/Tables.antt` and `src/table.rt`; how a bucket is stored is `src/cells.rt`.
//!
//! Tests: mc_grow_tests, src/tests/hop_tests.rt.
#![tactic(auto)]

mod bits;
mod cells;
mod hash;
mod laws;
mod reads;
mod table;

pub use bits::lowest;
pub use hash::{Constant, Fnv, KeyHash, Keyed};
pub use laws::{
    content_changes_at_one_key, content_counts_entries, content_has_each_entry,
    content_of_two_lists,
};
pub use reads::{ReadCounter, Reads, Uncounted};
pub use table::Hop;
