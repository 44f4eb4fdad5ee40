//! The store of one thread: shelves with the items of some keys each, and a desk that they share.
//!
//! Most of a store goes by key, and two things are common to all keys: the memory of items, and the
//! unique number of the next write. It is cut along that line, so that threads can share a store
//! without one lock. A key's hash determines its shelf. A step on the key needs that shelf, and the
//! desk only if it writes or removes an item. This crate has the parts, each with a contract of its
//! own, and puts them together for one thread; `mc_shared` does so for many.
//!
//! A [`Shelf`] is an index of items (`mc_grow`) by their keys, and the pending or past flush. A
//! [`Desk`] is the slab and the next number. `plan` gives the [`Plan`] of a step, and `make_room`
//! the room for its entry; `look` is both. A plan that needs no desk is settled at the shelf, and
//! any other is applied with the desk, in two parts if others wait for it: `begin` takes chunks and
//! number and notes in the plan what is left, and `finish` copies that block after the desk was
//! given back. A read lends its item in place ([`Hit`]). A [`Store`] is the desk and as many
//! shelves as its [`Settings`] give, and takes steps as every store does (`mc_protocol`'s `Steps`).
//!
//! By their contracts a shelf and a desk are *parts* of the plain machine's state: a step on one
//! shelf takes the state to the machine's next, whatever the other shelves hold. The store's
//! replies and its state are the plain machine's. Growth, room and shelves aside after a flush
//! don't change what contracts see.
//!
//! Begin with `specs/States.antt` and `specs/Plans.antt`, then `src/shelf.rt`, `src/plan.rt` (what
//! a step needs) and `src/write.rt` (a write with the desk).
//!
//! Tests: mc_shelf_tests, src/tests/store_tests.rt.
#![tactic(auto)]

mod aside;
mod collector;
mod counts;
mod desk;
mod entry;
mod exchange;
mod hit;
mod index;
mod parts;
mod plan;
mod purge;
mod shelf;
mod soonest;
mod store;
mod write;

pub use counts::ShelfCounts;
pub use desk::{Desk, WantedPages};
pub use entry::Entry;
pub use exchange::StepMemory;
pub use hit::{Found, Hit};
pub use mc_grow::Place;
pub use mc_sizes::Settings;
pub use parts::{flush_parts, refusals_are_plain, steps_change_one_shelf};
pub use plan::Plan;
pub use purge::Purging;
pub use shelf::{NUMBERS, Shelf};
pub use store::{Store, StoreParts};
