//! The tests of `mc_slab` and `mc_item`.
//!
//! A crate that has tests is proved twice, without them and with them. So these have a crate of
//! their own, and the libraries, which nearly every crate needs, are proved once.
//!
//! `src/slab_tests.rt` tests pages, chunks and classes (`mc_slab`), and `src/item_tests.rt` items
//! in chunks (`mc_item`). What both share is `src/slabs.rt`.
#![tactic(auto)]

#[cfg(test)]
mod item_tests;
#[cfg(test)]
mod slab_tests;
mod slabs;
