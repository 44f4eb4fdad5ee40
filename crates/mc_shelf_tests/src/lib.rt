//! The tests of `mc_shelf`: the store of one thread, its shelves, and the desk that they share.
//!
//! A crate that has tests is proved twice, without them and with them. So these have a crate of
//! their own, and the library, which the store for many threads needs, is proved once.
//!
//! A test uses a whole store wherever it can: its invariant is what the calls of shelves and desk
//! require. A test sees the parts by taking the store apart and making it again from its parts,
//! which changes nothing and takes no memory (`src/seen.rt`). A step in two parts, and a flush that
//! lays the shelves aside, work the same way (`src/parted.rt`, `src/aside.rt`).
//!
//! Begin with `src/tests/store_tests.rt`. `src/tests/compare_tests.rt` has random steps, with the plain store's
//! replies.
#![tactic(auto)]

#[cfg(test)]
mod aside;
#[cfg(test)]
mod both;
#[cfg(test)]
mod lengths;
mod parted;
#[cfg(test)]
mod plays;
#[cfg(test)]
mod seen;
mod stores;
#[cfg(test)]
mod tests;
