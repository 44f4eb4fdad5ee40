//! Commands, their steps on keys, the replies, and the plain machine that takes the steps.
//!
//! This is the protocol without its bytes: memcached's doc/protocol.txt as types, and as a machine
//! that takes one step on one key. All stores are proved to do what it does, so it is short, and
//! written to be read: `specs/Plain.antt` beside protocol.txt, row by row.
//!
//! A [`Command`] is a client's request; its keys and its block are lent from the input. It is a
//! list of steps ([`steps_of`], [`step_at`]), each a [`KeyStep`]. A retrieval has one step for each
//! key, so that other clients' steps can come between. [`row_of`] is the protocol's table: given
//! the item under the key it returns the [`Row`], which has the reply and the change of the item.
//! Every store uses it, so that the table is in the code once. A [`Reply`] is the answer to a step.
//!
//! [`Steps`] is the interface between sessions and workers, which take steps of any store, and the
//! stores. Ghost members of an implementation define which replies a step may have, when its
//! numbers are used up, and which of its states are the same; nothing else is required. An
//! [`Answer`] receives a reply, and a hit's block where it lies. The machine itself, as a store
//! over an ordered map, is `PlainStore` of the crate `mc_command`, which only tests use.
//!
//! The laws state consequences of the definitions: a step on one key changes no other, a dead item
//! stays dead, and a flush leaves nothing that it should drop.
//!
//! Begin with `src/command.rt`, `specs/Plain.antt` and `src/row.rt`.
//!
//! Tests: mc_session_tests, src/tests/parse_line_tests.rt.
#![tactic(auto)]

mod answer;
mod block;
mod bytes;
mod command;
mod fault;
mod keys;
mod laws;
mod limits;
mod lone;
mod number;
mod reply;
mod row;
mod serving;
mod step;
mod words;

pub use answer::{Answer, Unanswered};
pub use block::Block;
pub use bytes::Bytes;
pub use command::{Command, CommandOf, KeyPlace, KeysPlace, is_quiet, step_at, steps_of};
pub use fault::LineFault;
pub use keys::Keys;
pub use laws::{
    a_front_tells_the_number, counts_follow, flushes_empty, one_key_decides, other_keys_stay,
    pages_stay, refused_without_room, the_dead_stay_dead, wanted_pages_are_least,
};
pub use limits::{CHUNK_HEAD, LONGEST_KEY};
pub use lone::Lone;
pub use number::{count_up_or_down, number_of, number_up_to};
pub use reply::Reply;
pub use row::{Body, Refusal, Row, Standing, row_of};
pub use serving::ServeFault;
pub use step::{KeyStep, StepFault, StepKind, Steps, Verb};
pub use words::{Words, first_key, first_word, first_word_len, spaces_len};
