//! What an operator sees of a running server: the page of metrics, and the lines on standard error.
//!
//! Both report what threads count and what the store holds, and neither takes part in serving. So
//! they are here, beside `mc_shared` and `mc_workers`, and need neither. They call the store by the
//! three calls of [`StoreStats`], which `mc_server` implements over the store that its threads
//! share.
//!
//! A worker counts its steps by a [`WorkerTally`] (`tally.rt`), each by the counter [`counted_as`]
//! returns (`counting.rt`). For a scrape an [`Observer`] reads the counters, the connections and
//! the store (`observer.rt`), [`metrics_page`] makes the page (`page.rt`) of the table [`METRICS`]
//! (`metrics.rt`), and a [`MetricsServer`] answers over HTTP (`scrape.rt`). What the system
//! reports of the process is read at each scrape (`process.rt`). [`write_lines`] writes to standard
//! error in a thread of its own (`logger.rt`): where the server listens, which connections open and
//! close, and, once a minute, that the store is full (`full.rt`).
//!
//! Contracts state which counter each step with its outcome raises, that the page is the rows of
//! `METRICS`, under which type, name and labels these show each number (`laws.rt`), which number
//! each figure of the process is in the text of the system, and that a request ends the server only
//! if its options and `mc_metrics` grant it. The look of an answer is proved there. No contract
//! states that counters count what happened, which file of the system is read, and that a line is
//! written: tests over sockets check that (tests/sockets).
//!
//! Begin with `src/metrics.rt`, `src/laws.rt`, `specs/Counting.antt` and `src/stats.rt`, then
//! `src/scrape.rt` and `src/logger.rt`.
//!
//! Tests: mc_server_tests, src/tests/telemetry_tests.rt.
#![tactic(auto)]

mod counting;
mod error_output;
mod full;
mod laws;
mod logger;
mod metrics;
mod observer;
mod page;
mod process;
mod scrape;
mod scrape_connection;
mod stats;
mod tally;

pub use counting::counted_as;
pub use error_output::ErrorOutput;
pub use laws::{
    counters_of_the_page, gauges_of_the_page, labels_of_closed_connections, labels_of_commands,
    labels_of_settings, metrics_of_chunks, metrics_of_the_process, names_stand_once,
    steps_are_shown_as_they_came_out,
};
pub use logger::{StartLines, write_lines};
pub use metrics::METRICS;
pub use observer::Observer;
pub use page::metrics_page;
pub use process::process_start;
pub use scrape::MetricsServer;
pub use stats::StoreStats;
pub use tally::WorkerTally;
