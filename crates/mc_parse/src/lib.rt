//! Parses a stream of bytes into commands that are lent from it.
//!
//! Bytes come from a connection in pieces that needn't end where commands do. This crate keeps what
//! has arrived, and returns what it begins with: a command, a fault of a line, or nothing complete
//! yet. The grammar is that of memcached's text protocol (doc/protocol.txt). Nothing is copied:
//! keys and the block of a command are slices of the buffer.
//!
//! A line is parsed once, when its end has arrived, to a [`Noted`]: a command with places for keys
//! ([`Span`], [`KeySpan`]) and a length for its block ([`line_of`]; the names are one table,
//! [`NAMES`]). [`lend`] makes the command of `mc_protocol` from it and the bytes. A [`Peek`] is
//! what bytes begin with ([`peek_at`]). A [`Feed`] has a stream's unread bytes, with what is known
//! of their front. Pieces are pushed, or read by a source into the room where they will stay.
//! `peek` lends the first unit, and `done` skips it. A feed stores its bytes in a queue of
//! `mc_bytes`. A large block is read into memory that its chunk can take over: its command lends
//! that memory, and the feed reads the next block into the memory that it gets in exchange.
//!
//! In definitions a unit is *spelled* by bytes, and a stream has a list of units
//! (`specs/Units.antt`, `specs/Streams.antt`). Contracts promise that a peek finds exactly what a
//! front of the unread bytes spells, and nothing exactly if no front spells anything. They promise
//! that the meaning of a line is that of the grammar, or its first fault. They promise that no
//! skipped byte is held, and that a feed without unread bytes keeps at most 65536 bytes of memory.
//! The laws state that no spelling is the beginning of another, that a stream has one list of
//! units, and that it makes no difference how a stream is cut into pieces.
//!
//! Begin with `specs/Lines.antt` and `src/line.rt` for the grammar, `src/feed.rt` for the stream.
//!
//! Tests: mc_session_tests, src/tests/parse_tests.rt.
#![tactic(auto)]

mod ahead;
mod arrived;
mod cursor;
mod exptime;
mod feed;
mod laws;
mod line;
mod line_laws;
mod name;
mod note;
mod offer;
mod peek;

pub use feed::Feed;
pub use laws::{
    a_spelling_has_a_byte, cutting_does_not_matter, names_of_the_protocol,
    no_spelling_begins_another, one_list_of_units, pieces_are_fed_as_joined,
};
pub use line::line_of;
pub use line_laws::{keys_of_a_line_are_keys, words_hold_no_space_or_feed};
pub use name::{NAMES, Name};
pub use note::{KeySpan, Noted, Span, lend};
pub use peek::{Peek, peek_at};
