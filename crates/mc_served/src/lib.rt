//! Laws of a served stream: what `serve_one` writes is a function of what it reads.
//!
//! `serve_one` promises that the new world is what a list of events makes of the old one. The laws
//! state what follows for a user of `mcserver --stdin`, and speak of no event: what is written is
//! the transcript of the input's units, and at one moment one input has one output. One law is
//! about events: a list of them leads a plain world to one plain world. Each law is the contract of
//! a function that does nothing.
//!
//! Begin with `specs/Transcripts.antt` and `src/laws.rt`.
//!
//! Tests: mc_world_tests, src/tests/serving_tests.rt.
#![tactic(auto)]

mod laws;

pub use laws::{a_served_stream_is_answered, events_determine_the_world, one_input_has_one_answer};
