//! Readers, writers, dice, session texts, table entries and rows of steps that tests of several
//! crates share.
//!
//! No program uses this crate. Contracts don't promise that a call succeeds, what it costs, or what
//! a device did, so tests check these. What they share is here, so that a test is a table of data.
//!
//! [`Drip`] and [`Sip`] are a reader and a writer of a few bytes at a time, which fail at a given
//! call. With them a test cuts a stream into bytes, and fails at each call in turn. [`Calls`] do
//! the same for a link. [`Dice`] are a sequence of numbers that is the same in each run.
//! [`SESSIONS`] are inputs with their outputs. A [`Mark`] is an entry with a hash and a key, for
//! tables and indexes.
//!
//! A [`Row`] is a step at a moment with its expected answer. [`first_unlike`] takes the steps of
//! rows over any store (`mc_protocol`'s `Steps`), and returns the first whose answer differs. So
//! every store is tested with the same rows. A [`Play`] is a row that gives its block by a length.
//!
//! It has hardly any contracts, and is proved safe as all else is. It uses only mc_time, mc_hop and
//! mc_protocol, so that tests of every store can use it. The rows of the plain store are in
//! `mc_session_tests` (`src/tests/rows_tests.rt`).
//!
//! Begin with `src/streams.rt`, `src/marks.rt` and `src/steps.rt`.
//!
//! Tests: mc_grow_tests, src/tests/stream_tests.rt; mc_session_tests, src/tests/rows_tests.rt.
#![tactic(auto)]

mod calls;
mod dice;
mod marks;
mod plays;
mod sessions;
mod steps;
mod streams;

pub use calls::{Call, Calls};
pub use dice::Dice;
pub use marks::{Mark, add_mark, fill_marks, marks_table};
pub use plays::{Act, Play, first_wrong, first_wrong_unread, front};
pub use sessions::SESSIONS;
pub use steps::{
    Ask, Row, Want, ask_step, bounded_block, filled_block, first_unlike, first_unread, is_answered,
    is_same, is_wanted, join, set, step_of, told_of,
};
pub use streams::{Drip, Sip};
