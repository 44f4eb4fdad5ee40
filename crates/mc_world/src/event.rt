//! Events of a world, and their refusals.

use mc_protocol::Bytes;
use mc_time::Moment;

/// An event of a world. Sessions are numbered from 1, shelves from 0.
#[derive(Drop)]
pub enum Event<'a> {
    /// A new session with the next number; at most 65535 are ever opened.
    Open,
    /// The next bytes of a session's stream.
    Piece(u32, Bytes<'a>),
    /// A session's next turn, if one is due.
    Turn(u32),
    /// The moment from now on.
    Clock(Moment),
    /// 8 entries of a shelf move to its new table, or as many as are left. No session sees that.
    Grow(u32),
    /// The dead items of a shelf are dropped.
    Purge(u32),
    /// A session is closed: its unread bytes are dropped, and its output is kept.
    Close(u32),
}

/// Memory was refused in an event. The events before it are done, and no later one is run.
///
/// The event's session is closed. Only an opening, a piece of an open session and a turn that is
/// due can be refused.
#[derive(Debug, Drop, PartialEq, Eq)]
pub struct Refused {
    /// The index of the event.
    pub at: usize,
    /// The session of the event.
    pub session: Option<u32>,
    /// Whether the store took the event's step. The step's text is missing.
    pub decided: bool,
}

/// All events were run, also after events that were refused memory.
#[derive(Clone, Copy, Debug, PartialEq, Eq)]
pub struct Ended {
    /// The number of events that were refused.
    pub refused: u64,
}

impl<'a> Event<'a> {
    ghost use Rattle.std.specs.Prelude.{◌≡◌};
    ghost use Rattle.mc_world.specs.Worlds.{named};

    /// Returns the number of the event's session, if it has one.
    pub fn session(&self) -> Option<u32>
        ensures { result ≡ named self.now }
    {
        match self {
            Event::Piece(number, _) | Event::Turn(number) | Event::Close(number) => Some(*number),
            Event::Open | Event::Clock(_) | Event::Grow(_) | Event::Purge(_) => None,
        }
    }
}
