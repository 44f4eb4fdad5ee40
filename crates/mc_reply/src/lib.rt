//! Replies as bytes.
//!
//! The text of a reply depends on the command as well as on the reply: a retrieval ends with `END`
//! after its last key, only `gets` and `gats` send the unique number, and a command with `noreply`
//! gets no text. The rule and the texts are memcached's (doc/protocol.txt). They are in a crate of
//! their own, so that stores know replies but no texts, and so that the whole wording is one page
//! of definitions, `specs/Texts.antt`.
//!
//! A [`Text`] is the text of a turn, which appends itself to a session's output. Each call appends
//! one text to a vector. [`write`] appends that of a reply to a step of a command. [`write_hit`]
//! appends that of a hit whose block is still in its chunks, so that it is copied once. A
//! [`HitFront`] and a [`HitBack`] are the texts around a block that isn't copied at all. The other
//! calls append the texts of faults, of commands that are only a name, of lines that are too long,
//! and of exhausted unique numbers. Each reserves the exact length once, before the first byte is
//! written.
//!
//! Contracts promise that exactly the text is appended, or the vector is unchanged, and that a call
//! fails only if the vector has no room for the text.
//!
//! Begin with `specs/Texts.antt` and `src/texts.rt`.
//!
//! Tests: mc_session_tests, src/tests/reply_tests.rt.
#![tactic(auto)]

mod around;
mod numbers;
mod retrieval;
mod text;
mod texts;

pub use around::{HitBack, HitFront, is_retrieval};
pub use retrieval::length_of;
pub use text::Text;
pub use texts::{write, write_fault, write_hit, write_plain, write_spent, write_too_long};
