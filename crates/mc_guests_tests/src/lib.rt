//! Tests of `mc_guests`: visits, waiting, the door, the budget and gathering.
//!
//! They are apart from the tests of sessions because both crates are proved side by side. Tests use
//! only public calls. No program uses this crate.
//!
//! What several files share is a store that counts its steps (`src/counting.rt`), lines that
//! announce blocks (`src/lines.rt`), and guests with their store (`src/halls.rt`).
#![tactic(auto)]

mod counting;
#[cfg(test)]
mod halls;
#[cfg(test)]
mod lines;
#[cfg(test)]
mod tests;
