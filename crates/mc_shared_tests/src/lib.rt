//! Tests of the store for many threads (`mc_shared`) and of its laws (`mc_laws`).
//!
//! They are a crate of their own, as a crate with tests is proved a second time with them. No
//! program uses this crate.
//!
//! Stores are set up by `src/stores.rt`. A store with its one caller is one value, so that tests
//! need no clauses: a `Sole` (`src/sole.rt`) takes steps as every store does, and runs rows that
//! check which keys are absent.
//!
//! What is outside the modules of tests is proved twice, so only `src/asked.rt` is, which an edit of
//! `must-fail/` changes.
#![tactic(auto)]

mod asked;
#[cfg(test)]
mod sole;
#[cfg(test)]
mod stores;
#[cfg(test)]
mod tests;
