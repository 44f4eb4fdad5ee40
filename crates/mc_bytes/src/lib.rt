//! Queues of bytes: appended at the end, consumed at the front, and read where they stay.
//!
//! A connection has a queue of unread bytes and one of output. Both grow by pieces and shrink from
//! the front, are read as one slice, and may hold a block of megabytes. So the cost that matters is
//! that of moved bytes and of reserved memory: this crate decides both, for every crate above.
//!
//! A [`Buffer`] has bytes and room behind them. A [`Queue`] is a buffer with a count of consumed
//! bytes. A [`Source`] writes into a queue's room, so a piece is read where it will stay. A text
//! appends itself as a value of [`Append`]. [`Spares`] are large buffers between two uses. A
//! [`Lent`] is a part of [`Large`] memory that is shared, and read where it stays. A queue can
//! share its memory so; who keeps it may leave other memory in exchange.
//!
//! Contracts see a queue as the bytes that aren't consumed, the number of bytes in its memory, with
//! consumed ones in front of them, and the number of bytes reserved. They promise exactly which
//! bytes each call appends, drops or keeps. They promise that an append leaves at most as many
//! consumed bytes in memory as others, that it reserves at most twice the bytes, and that an idle
//! empty queue keeps at most [`FIRST_PIECE`] bytes.
//!
//! Begin with `specs/Queues.antt` and `src/queue.rt`.
//!
//! Tests: mc_session_tests, src/tests/parse_tests.rt.
#![tactic(auto)]

mod append;
mod buffer;
mod large;
mod lent;
mod lents;
mod queue;
mod source;
mod spares;

pub use append::Append;
pub use buffer::Buffer;
pub use large::Large;
pub use lent::Lent;
pub use lents::Lents;
pub use queue::{FIRST_PIECE, Queue};
pub use source::Source;
pub use spares::Spares;
