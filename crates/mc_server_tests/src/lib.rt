//! Tests of the program's parts: `mc_sockets`, `mc_telemetry`, `mc_host`, and a session over a
//! socket.
//!
//! They check what no contract promises: which output a client reads, how a session ends after a
//! fault, which values a scrape reads, which lines are dropped, and which connections are looked
//! at. The program itself is tested by tests/protocol and tests/sockets.
//!
//! They are a crate of their own, so that the libraries aren't proved a second time with them, and
//! make public calls alone. No program uses it.
//!
//! Begin with `src/tests/session_tests.rt` and `src/tests/tcp_tests.rt`.
#![tactic(auto)]

mod settings;
#[cfg(test)]
mod tests;
