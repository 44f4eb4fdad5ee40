//! A run of the program: what its options plan, its threads, and a session over two streams.
//!
//! The replies to clients are decided and proved in the crates below: the grammar in `mc_parse`,
//! the protocol's table in `mc_protocol`, the store for many threads in `mc_shared`, the loop of a
//! worker in `mc_workers`. This crate joins them to what a process does with sockets and threads.
//! The program itself (`mc_server`) reads the command line, calls [`run`], and ends. So all that is
//! proved of a run is a library, whose check doesn't go through the linked program.
//!
//! With `--stdin` a run serves one session over standard input and output (`serving.rt`); otherwise
//! it listens (`listening.rt`). Connections are accepted, dealt to workers and made links by
//! `mc_sockets`. Metrics and the lines on standard error are in `mc_telemetry`. This crate has what
//! is made before the first thread starts (`plan.rt`), the threads (`threads.rt`), a thread's caller
//! of the store (`client.rt`, `reader.rt`), and how the callers of all threads are joined at the end
//! (`crew.rt`).
//!
//! A socket's bytes and the scheduling of threads are unspecified, so contracts cover the rest:
//! that a server is planned by its options, and ends only as they let it; that it has then answered
//! all links that its workers admitted by one list of calls (`laws.rt`); and that `--stdin` serves a
//! session of a new world. The rest is tested over sockets (tests/sockets); docs/GAPS.md lists what
//! isn't proved.
//!
//! Begin with `running.rt`, `serving.rt`, `listening.rt` and `laws.rt`.
//!
//! Tests: mc_server_tests, src/tests/tcp_tests.rt.
#![tactic(auto)]

mod client;
mod clock;
mod crew;
mod laws;
mod listening;
mod plan;
mod reader;
mod running;
mod serving;
mod threads;

pub use laws::one_list_answers_all_links;
pub use running::run;
pub use serving::a_new_store_answers_the_stream;
