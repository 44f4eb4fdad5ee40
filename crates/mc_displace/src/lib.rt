//! Brings an empty bucket of a hopscotch table near a home.
//!
//! An entry must be within 31 buckets of its home. If the first empty bucket is farther away, a
//! hopscotch table moves other entries: one that is before the empty bucket, and near enough to it
//! by its own home, moves into it. Its old bucket is then empty, and nearer to the home
//! (displacement, by Herlihy, Shavit and Tzafrir, "Hopscotch Hashing", DISC 2008). This is the only
//! part of the algorithm that touches entries of other keys, so it has a crate of its own, over the
//! public calls of `mc_hop`.
//!
//! There is one call, [`bring_near`]. It takes no memory, and to find an entry that can move it
//! reads hop words and no entry. The table is the same finite map before and after, and has the
//! same size. On success an empty bucket is within 31 of the home. On failure the returned bucket
//! is empty and no entry can be moved into it. If every bucket before the one that it began with is
//! filled, so is every bucket before the one that it ends with. So `mc_grow` knows that an entry
//! becomes a stray only if no bucket is possible.
//!
//! Begin with `specs/Moves.antt` and `src/displace.rt`.
//!
//! Tests: mc_grow_tests, src/tests/displace_tests.rt.
#![tactic(auto)]

mod displace;

pub use displace::bring_near;
