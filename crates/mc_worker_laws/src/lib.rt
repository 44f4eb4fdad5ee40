//! Laws of workers: each link that a worker admits is answered, within one list of all calls.
//!
//! `Worker::work` promises what a worker does in its rounds, and a law of `mc_guests` states how
//! one guest's link is answered. The first law joins the two: all that a worker does is one trace,
//! in which each call of its caller is a purge or belongs to one link, and each link is answered by
//! its own turns. The counts that the worker returns are those of its links, each of which was let
//! go. The law speaks of no rows, places or numbers of guests. The second law puts the calls
//! of all workers into one list, which the plain machine answers as their callers were answered.
//! Each law is the contract of a function that does nothing. No code of another crate uses them.
//!
//! Begin with `specs/Traces.antt`, `specs/Calls.antt` and `src/laws.rt`.
//!
//! Tests: mc_workers_tests, src/tests/worker_tests.rt.
#![tactic(auto)]

mod laws;

pub use laws::{a_worker_answers_its_links, all_workers_answer_their_links};
