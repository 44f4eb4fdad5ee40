//! The plain store, and the names of `mc_protocol`, which it re-exports.
//!
//! [`PlainStore`] is the plain machine over an ordered map: the store that faster ones are compared
//! with, and that tests of sessions run on. Contracts promise exactly the machine's reply and the
//! state after it: the memory error exactly if no chunk is left, and spent numbers exactly if the
//! machine has none left. A step that isn't taken, for want of memory or of a number, leaves the
//! store unchanged. A [`KeyTest`] selects the keys of a purge.
//!
//! The definitions (commands, steps, replies, the table, the laws) are in the crate `mc_protocol`,
//! since the libraries of the program need no plain store. The law [`numbers_of_the_protocol`]
//! states the numbers of which they cite the constants.
//!
//! Begin with `src/plain.rt`.
//!
//! Tests: mc_session_tests, src/tests/plain_tests.rt.
#![tactic(auto)]

mod laws;
mod plain;

pub use laws::numbers_of_the_protocol;
pub use mc_protocol::{
    Answer, Block, Body, Bytes, Command, CommandOf, KeyStep, Keys, LineFault, Lone, Refusal, Reply,
    Row, Standing, StepFault, Steps, Unanswered, Verb, Words, a_front_tells_the_number,
    count_up_or_down, counts_follow, first_key, first_word, first_word_len, flushes_empty,
    is_quiet, number_of, number_up_to, one_key_decides, other_keys_stay, pages_stay,
    refused_without_room, row_of, spaces_len, step_at, steps_of, the_dead_stay_dead,
    wanted_pages_are_least,
};
pub use plain::{KeyTest, PlainStore};
