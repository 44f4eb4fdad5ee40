//! Many sessions over one store: a list of events does to a world what it does to the plain
//! machine.
//!
//! The crates below promise what a feed, a session and a store do. This crate answers a client's
//! question: what is written to me while others are connected too? A world is a store, a moment and
//! sessions. All that can happen to it is an [`Event`]: a session opens, a piece of its stream
//! comes, it takes a turn, it is closed; the clock is set; a shelf grows, or its dead items are
//! purged. A list of events is a schedule, and may be any.
//!
//! A [`World`] runs such lists: `run` until memory is refused ([`Refused`]), and `run_through` past
//! refusals, which it counts ([`Ended`]). [`serve_one`] serves one session of a world over a reader
//! and a writer, by the loop of `mc_session`; the program uses it for `--stdin`. [`WorldParts`] are
//! the parts of a world, for a caller that makes one from a store and also calls the store itself.
//!
//! The definitions have a plain world beside it: for each session the stream so far and the turns
//! taken, and the plain machine's state. `World::run` promises that for every list of events the
//! bytes written to each session are those of the plain machine, which takes the sessions' commands
//! in the order of their turns. Memory is refused only in an opening, a piece or a turn that is
//! due. The error has the event's index, session and `decided`: the events before it are done, its
//! session is closed, and `decided` is whether its step was taken. The laws state what makes no
//! difference: growth, where a stream is cut, what other sessions do without deciding a step, and
//! output that was already written.
//!
//! Begin with `specs/Worlds.antt`, `src/event.rt` and `src/world.rt`; then `src/serving.rt`.
//!
//! Tests: mc_world_tests, src/tests/event_tests.rt.
#![tactic(auto)]

mod event;
mod laws;
mod parts;
mod seat;
mod serving;
mod sessions;
mod world;

pub use event::{Ended, Event, Refused};
pub use laws::{
    a_piece_may_be_cut, a_plain_world_stands_one_way, a_session_follows_its_own_answers,
    a_turn_is_due_of_both, growth_never_shows, sessions_may_change_places,
};
pub use parts::WorldParts;
pub use serving::{serve_one, written_output_never_shows};
pub use world::World;
