//! Tests of `mc_workers`: workers over links in memory.
//!
//! A link in memory gives its input and takes output a byte at a time, and one call may fail, so
//! what a worker's guests wrote can be compared byte by byte. The tests check what no contract
//! promises: that a call succeeds, that a fault ends only one session, that a step on one shelf
//! holds up no other, which reports a tally gets, and in which turn a shelf is tidied.
//!
//! They are a crate of their own, so that the library isn't proved a second time with them. No
//! program uses this crate.
//!
//! Begin with `src/held.rt`, `src/tests/serving.rt` and `src/tests/worker_tests.rt`.
#![tactic(auto)]

mod held;
#[cfg(test)]
mod tests;
