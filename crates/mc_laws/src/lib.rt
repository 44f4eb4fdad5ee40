//! Laws of the store for many threads.
//!
//! Each call of `mc_shared` promises that there is a legal history that keeps its caller's past.
//! The laws state what follows for callers: all callers share one plain store, a caller reads what
//! it stored, no read goes back, a read returns only what was stored, no count is lost, and a note
//! orders the calls of two callers. Each law is the contract of a function that does nothing. No
//! code of another crate uses them, so no program waits for their proofs.
//!
//! Begin with `specs/Laws.antt` and `src/laws.rt`. The tests check the laws with callers that meet.
//!
//! Tests: mc_shared_tests, src/tests/law_tests.rt.
#![tactic(auto)]

mod laws;

pub use laws::{
    a_caller_alone_has_a_plain_store, a_caller_reads_what_it_knows, a_cas_is_of_what_was_read,
    a_history_has_nothing_else, a_known_write_is_read, callers_share_a_plain_store,
    calls_keep_their_order, no_count_is_lost, no_read_goes_back, nothing_is_made_up,
    what_is_absent_is_not_there, who_heeds_a_note_comes_after,
};
