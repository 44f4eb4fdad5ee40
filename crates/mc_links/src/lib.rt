//! Links: streams of bytes in both directions that never block.
//!
//! A server calls its connections in rounds, so no call on one may wait. Sockets are such streams,
//! and tests have others, in memory, whose bytes can be compared. What both have in common is here,
//! without sessions and without stores: rounds over links (`mc_guests`) and sockets (`mc_sockets`)
//! stand on it, side by side.
//!
//! A [`Link`] gives and takes bytes, or answers `Later`. [`Links`] return new links, and name those
//! that are ready again. [`Gathering`] is a link that makes one large write of many small ones. A
//! [`Tally`] gets each step with its [`Outcome`], each request that is too large, and what the
//! guests of a worker hold.
//!
//! Contracts see the bytes that a link gave and took, unless they are unspecified, how often it
//! failed, and what its last call asked for. A link that gathers shows the link below and the
//! gathered bytes, and is itself a link that took both.
//!
//! Begin with `specs/Links.antt` and `src/link.rt`, then `src/gathering.rt`.
//!
//! Tests: mc_guests_tests, src/tests/gathering_tests.rt.
#![tactic(auto)]

mod gathering;
mod link;
mod links;
mod tally;

pub use gathering::Gathering;
pub use link::{Got, Link, LinkFault, Took};
pub use links::{Links, Next};
pub use tally::{NoTally, Outcome, Tally};
