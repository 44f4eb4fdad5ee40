//! The tests of `mc_time`'s steady clock.
//!
//! A crate that has tests is proved twice, without them and with them. So these have a crate of
//! their own, and `mc_time`, which all other crates need, is proved once.
//!
//! No clause can state what the system's clocks read. So `src/stand_in.rt` has clocks that a test
//! sets, and `src/steady_tests.rt` has rows of their readings with the expected moments: the
//! system's clock set back and forward, slow by less than a second, and unreadable.
#![tactic(auto)]

mod stand_in;
#[cfg(test)]
mod steady_tests;
