//! Sessions: the turns of one connection, and a loop that serves one over a reader and a writer.
//!
//! A connection is a stream of bytes in and one out, and between them the steps of the commands on
//! a store that others use too. To keep waits short, a session takes one *turn* at a time: at most
//! one step of the store, whose text is appended to its output. A retrieval of n keys is n turns.
//! The caller decides when a turn is taken, when bytes are brought and when output is written. The
//! callers are a world, a worker, and the loop of this crate.
//!
//! A [`Session`] is a feed of `mc_parse`, the number of turns taken of its first unit, and the
//! output. Its `turn` works over any store that takes steps (`mc_protocol`'s `Steps`), and over any
//! [`Outgoing`] output: an [`Output`] lies in one part of memory, and a [`LentOutput`] has parts
//! that are lent and not copied. A [`Session`] has an [`Output`]; others are a [`SessionOf`].
//! [`Endpoint`] is one end of a connection as the loop [`serve_endpoint`] sees it: a session, or a
//! session of a world. [`serve`] serves one session over a reader and a writer. It writes when
//! nothing more is due, and before a turn once there are [`WRITE_AT`] bytes of output.
//!
//! Contracts see a session as its unread part, the turns taken, its output and whether it is open.
//! A turn takes the next step of its stream, and appends its text. Want of memory closes the
//! session and keeps its output, and the error has whether the step was taken; no step is taken
//! twice. What a run wrote is a beginning of the texts of its stream's turns, and all of them if it
//! succeeded. The laws state that the pieces of a stream make no difference.
//!
//! Begin with `specs/Turns.antt` and `src/session.rt`; the loop is `src/rounds.rt`.
//!
//! Tests: mc_session_tests, src/tests/session_tests.rt.
#![tactic(auto)]

mod after_turn;
mod answer;
mod copying;
mod endpoint;
mod holding;
mod laws;
mod lent_output;
mod output;
mod rounds;
mod serving;
mod session;
mod teller;

pub use endpoint::Endpoint;
pub use holding::Holding;
pub use laws::{
    a_run_takes_the_turns_of_its_stream, passing_over_early_does_not_matter,
    the_pieces_of_a_stream_do_not_matter,
};
pub use lent_output::LentOutput;
pub use mc_protocol::ServeFault;
pub use output::{Outgoing, Output};
pub use rounds::{LONGEST_PIECE, TurnContext, WRITE_AT, piece_buffer, serve_endpoint, write_out};
pub use serving::serve;
pub use session::{Session, SessionOf, Turn, TurnFault};
