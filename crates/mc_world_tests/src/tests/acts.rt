//! Events for the tables of tests.

use crate::tests::told::Tested;
use mc_hop::Fnv;
use mc_protocol::Bytes;
use mc_time::Moment;
use mc_world::Event;
use std::alloc::{AllocError, Global};
use std::process::Abort;

/// An event, in a form for constants.
#[derive(Clone, Copy)]
pub(crate) enum Act {
    Open,
    Piece(u32, &'static str),
    /// A piece, and a turn.
    Asks(u32, &'static str),
    Turn(u32),
    /// The second.
    Clock(u64),
    Purge(u32),
    Close(u32),
}

/// Returns the first event of an act.
fn event_of(act: Act) -> Event<'static> {
    match act {
        Act::Open => Event::Open,
        Act::Piece(session, piece) | Act::Asks(session, piece) => Event::Piece(
            session,
            Bytes::of(piece.as_bytes()),
        ),
        Act::Turn(session) => Event::Turn(session),
        Act::Clock(seconds) => Event::Clock(Moment::from_seconds_at_most(seconds)),
        Act::Purge(shelf) => Event::Purge(shelf),
        Act::Close(session) => Event::Close(session),
    }
}

/// Appends the events of an act.
fn add_events(events: &mut Vec<Event<'static>>, act: Act) -> Result<(), AllocError> {
    events.push(event_of(act))?;
    if let Act::Asks(session, _) = act {
        events.push(Event::Turn(session))?;
    }
    Ok(())
}

/// Returns the events of acts.
fn events_of(alloc: Global, acts: &[Act]) -> Result<Vec<Event<'static>>, AllocError> {
    let mut events = Vec::new(alloc);
    for act in acts {
        add_events(&mut events, *act)?;
    }
    Ok(events)
}

/// Runs the events of acts.
pub(crate) fn run_acts<R: Abort>(
    tested: &mut Tested<'_, R, Fnv>,
    acts: &[Act],
) -> Result<(), AllocError> {
    let events = events_of(tested.alloc, acts)?;
    tested.run(&events)
}
