//! Guests: sessions with their links, and rounds over them.
//!
//! A server has thousands of connections and a few threads. Each thread visits its connections in
//! rounds, and does what is due for each, so that none waits for another's whole request, and no
//! call on a connection blocks. Sockets are outside: connections are links, so that tests use links
//! in memory, whose bytes can be compared. Stores are outside too: a guest takes its steps on any
//! `Steps`, so this crate needs no store.
//!
//! Links are those of `mc_links`. A [`Guest`] is a session with its link. A visit writes output,
//! else takes a turn, else reads; [`round`] visits each guest once. [`Guests`] are those of one
//! thread: a guest that answered `Later` sleeps until its link is named, and a guest that wants
//! much memory waits while others use up their [`Budget`]. Guests come through a [`Admission`],
//! which gets links between two rounds. A [`Tally`] gets each step, each request that is too large,
//! and what the guests hold; a store that [`Reports`] passes them on, and measures blocks without a
//! report.
//!
//! Contracts see the bytes that a link gave and took, unless they are unspecified, and describe a
//! round visit by visit: which guests were visited, ended and came. By the laws, what a link took
//! is the texts of the turns of what it gave.
//!
//! Begin with `specs/Visits.antt`, `src/guest.rt` and `src/guests.rt`.
//!
//! Tests: mc_guests_tests, src/tests/visit_tests.rt.
#![tactic(auto)]

mod admission;
mod budget;
mod guest;
mod guests;
mod laws;
mod leaving;
mod link_calls;
mod link_rate;
mod link_source;
mod measure;
mod metered;
mod numbers;
mod reports;
mod rounds;
mod row;
mod seat;

pub use admission::Admission;
pub use budget::Budget;
pub use guest::{Guest, Visit};
pub use guests::{Guests, WorkEnd};
pub use laws::{
    links_are_answered_what_they_gave, links_take_texts_of_turns, retries_are_fair,
    rounds_are_visits,
};
pub use leaving::LeavingLink;
pub use link_calls::{LinkCalls, NextAnswer};
pub use mc_links::{Gathering, Got, Link, LinkFault, Links, Next, NoTally, Outcome, Tally, Took};
pub use measure::length_at;
pub use metered::Verdict;
pub use reports::Reports;
pub use rounds::round;
