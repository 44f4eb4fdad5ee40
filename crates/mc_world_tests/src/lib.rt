//! Tests of `mc_world`: the outputs of a world's sessions.
//!
//! Lists of events are tables of data, and their outputs were written by hand. The tests check what
//! no contract promises: that a call succeeds, what a text is in bytes, that a run goes on where
//! memory is refused or a device fails.
//!
//! They are a crate of their own, so that the library isn't proved a second time with them. No
//! program uses this crate.
//!
//! Begin with `src/worlds.rt` and `src/tests/event_tests.rt`.
#![tactic(auto)]

#[cfg(test)]
mod tests;
mod worlds;
