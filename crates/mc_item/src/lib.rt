//! Items in chunks: the header and the key are in the head of the chunks, the block in their bytes.
//!
//! A cache holds many small items, so the overhead of an item must be small, and a read must not
//! follow pointers. An item here is 48 bytes of numbers, its key and its block
//! (`specs/Layout.antt` has the table of offsets). The sum of their lengths is its charge, by which
//! classes and limits go. Below class 27 they lie one behind the other. From there on the block can
//! be lent while the header changes, so header and key lie beside it, and it begins at place 0.
//!
//! An [`Item`] owns its chunks (of `mc_slab`), and returns them by `into_chunks`. It is written
//! whole from [`Parts`], or begun without its block, which is filled in later. Each change in
//! place (an expiry, a counted number, appended bytes, a new item over the old one) has a call of
//! its own, and keeps the chunks.
//!
//! Contracts see an item not as bytes but as its fields: the key with the hash, block, flags,
//! expiry, unique number, time of the last write, and its chunks. A reader returns what was
//! written, however the block is cut into chunks. How numbers are encoded in the header, lowest
//! byte first, is proved once, below (`src/header.rt`, `src/run.rt`).
//!
//! Begin with `specs/Layout.antt` and `src/item.rt`.
//!
//! Tests: mc_item_tests, src/item_tests.rt.
#![tactic(auto)]

mod header;
mod item;
mod run;

pub use item::{Item, Parts};
