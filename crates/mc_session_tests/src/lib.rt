//! Tests of the protocol: the plain store, lines and feeds, texts and sessions.
//!
//! They test `mc_command`'s plain store, the queues and lent parts of `mc_bytes`, the lines and feeds
//! of `mc_parse`, the texts of `mc_reply`, the sessions of `mc_session`, and the rows of `mc_testing`
//! over the plain store.
//!
//! What several of its tests share is a store of 64 pages (`src/stores.rt`), a store that delivers
//! replies in a way of its own (`src/delivering.rt`), what happens to a feed (`src/feeds.rt`), and
//! checks of one value (`src/checks.rt`).
//!
//! It is a crate of its own so that no library is proved a second time with its tests. Tests use
//! only public calls. No program uses this crate.
#![tactic(auto)]

#[cfg(test)]
mod checks;
#[cfg(test)]
mod delivering;
#[cfg(test)]
mod feeds;
mod stores;
#[cfg(test)]
mod tests;
