//! Worker loops over links.
//!
//! A server has thousands of connections and a few threads. Each thread is a worker: it visits its
//! connections in rounds, and does what is due for each. What a visit does, and which connections a
//! round visits, is in `mc_guests`. This crate has the loop over the store that threads share.
//!
//! A [`Worker`] makes rounds of its guests as long as there are links. It takes their steps as one
//! caller of the store, and after each step lets the step's shelf grow a little. When the clock has
//! risen it tidies the next shelves. It admits new links. Guests that want much memory wait while
//! others hold it. A tally counts each step by [`Counting`], over any store that takes steps.
//!
//! A worker returns its caller with further calls in its past and nothing else. Contracts describe
//! its rounds one by one: which guests were visited, which shelves were tidied, and which guests
//! ended.
//!
//! Begin with `specs/Rounds.antt` and `src/worker.rt`.
//!
//! Tests: mc_workers_tests, src/tests/worker_tests.rt.
#![tactic(auto)]

mod counting;
mod rereading;
mod tending;
mod worker;

pub use counting::Counting;
pub use mc_guests::{Got, Guest, Link, LinkFault, Links, Next, Took, Visit, WorkEnd, round};
pub use mc_shared::{Gate, NoGate};
pub use rereading::RereadClock;
pub use tending::Tending;
pub use worker::{Worker, work};
