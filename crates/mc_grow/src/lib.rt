//! A growing index of entries: two hopscotch tables and a list of strays, as one finite map.
//!
//! A full table has to become larger while clients wait for answers. Moving all of its entries at
//! once would delay them, so an index grows a little at a time. It adds a table of twice the homes,
//! new entries go there, and each call of [`Index::move_some`] moves some entries of the old table.
//! Until the old table is empty a search looks in both.
//!
//! A hopscotch table refuses an entry if no bucket near its home can be emptied, and clients who
//! choose keys can cause that. Such an entry is a stray, in a list with an order beside it: a
//! search among n strays reads as many as n has binary digits. So no sequence of keys makes an
//! index refuse an entry, or search from end to end.
//!
//! An [`Index`] is the table, the old table while it grows, and the strays. A [`Place`] is a hint
//! where an entry is: `find_again` is right for every place, and reads one entry if the hint is
//! still right. A caller makes room first, by `reserve`, which begins a growth if one is due;
//! inserting, removing and moving take no memory.
//!
//! Contracts see the buckets of both tables and the strays, which together are one finite map from
//! hash and key (`holds`). No move changes it. Contracts also state when a growth is due and when
//! it lags, how many entries a search reads at most, and that an entry becomes a stray only if no
//! bucket near its home can be emptied.
//!
//! Begin with `specs/Indexes.antt` and `src/index.rt`; then `src/moving.rt` (how entries come to a
//! table), `src/parts.rt` (each part by itself) and `src/strays.rt`.
//!
//! Tests: mc_grow_tests, src/tests/index_tests.rt.
#![tactic(auto)]

mod adding;
mod index;
mod moving;
mod parts;
mod strays;
mod trying;

pub use index::{Index, Place};
