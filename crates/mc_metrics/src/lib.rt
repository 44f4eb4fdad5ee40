//! The metrics page, its counters, and the requests for it over HTTP.
//!
//! An operator watches a server mostly by Prometheus: a request `GET /metrics` over HTTP/1.1, and a
//! page of numbers in its text format 0.0.4 (prometheus.io/docs/instrumenting/exposition_formats).
//! This crate has the numbers, the page and the requests, and knows no store and no worker, so it
//! is proved beside them, and needs few crates.
//!
//! [`Counters`] are the counters of one worker, each a [`Counted`]: only the worker writes them, so
//! counting is one addition. A [`PageValues`] has the values for one page, and a [`Family`] is a name
//! with its samples; [`page_of`] makes the page of both. [`read_request`] returns the reply to a
//! request ([`HttpReply`]), and [`response`] makes its text. A peer on the same machine may be allowed
//! to end the server by `POST /quit`.
//!
//! Contracts state that a reply is a function of whether the server may be ended, of the peer's
//! address and of the request's head, as the grammar of HTTP/1.1 (`httparse`) reads it; that
//! exactly a trusted `POST /quit` ends the server, where that is allowed; that the page is a
//! function of the families and of the reading; and to which counter a call adds, and that a sum has
//! one number of each worker. No contract states that each step is counted: tests check that.
//!
//! Begin with `specs/Pages.antt`, `src/page.rt` and `src/reading.rt`; then `specs/Scrapes.antt`,
//! `specs/Access.antt` and `src/request.rt`.
//!
//! Tests: mc_server_tests, src/tests/telemetry_tests.rt.
#![tactic(auto)]

mod access;
mod answer;
mod counts;
mod family;
mod page;
mod reading;
mod request;

pub use answer::{HttpAnswer, HttpReply, NO_MEMORY, response};
pub use counts::{
    COUNTED, Counted, Counters, CountersOf, REFUSED, SharedCount, count_at, refused_sum, sums_of,
};
pub use family::{Family, Kind, Labels, Samples};
pub use page::page_of;
pub use reading::{
    BuffersReading, Figure, PageValues, ProcessFigure, ProcessReading, RefusedReading,
    SettingsReading, SlabFigure, SlabReading, TablesReading, bytes_of, number_at,
};
pub use request::read_request;
