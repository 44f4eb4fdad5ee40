//! The parts of a world.

ghost use Rattle.std.specs.Prelude.{◌≡◌, [], IfErr, OnOk, Ok, None};
ghost use Rattle.mc_world.specs.Worlds.{eight_moved, numbered, open_session, IsIdle};
ghost use Rattle.mc_world.specs.Sessions.{Done, Undone, SessionIsDue, state_of};

use crate::event::Event;
use crate::sessions::Sessions;
use mc_hop::KeyHash;
use mc_session::{Turn, TurnFault};
use mc_shelf::Store;
use mc_time::Moment;
use std::alloc::Global;

/// The most entries of a shelf that one event of growth moves.
const MOVED: usize = 8;

/// The parts of a world: a store, a moment, and the sessions that use the store in turn.
#[derive(Drop)]
pub struct WorldParts<K: KeyHash + Drop> {
    pub store: Store<K>,
    pub moment: Moment,
    pub sessions: Sessions,
}

impl<K: KeyHash + Drop> WorldParts<K> {
    /// Makes the parts of a world from a store, at a moment, without sessions. It takes no memory.
    pub fn new(alloc: Global, store: Store<K>, now: Moment) -> WorldParts<K>
        ensures { state_of result ≡ record {
          settings = store.settings;
          hasher = store.hasher;
          state = store.plain;
          moment = now;
          sessions = [];
          left = store.left;
        } }
    {
        WorldParts {
            store,
            moment: now,
            sessions: Sessions::new(alloc),
        }
    }

    /// Runs one event. After an error the event's session is closed.
    pub fn happen(&mut self, alloc: Global, event: &Event<'_>) -> Result<(), TurnFault>
        ensures ok { OnOk result
            (Done K.hash_of (state_of self.old) event.now (state_of self.new)) }
        ensures err { IfErr result (λ fault.
            Undone fault.decided (state_of self.old) event.now (state_of self.new)) }
    {
        match event {
            Event::Open => {
                let greatest = self.store.settings().greatest;
                self.sessions.open(alloc, greatest)?;
            }
            Event::Piece(number, piece) => self.sessions.feed(*number, piece.as_slice())?,
            Event::Turn(number) => {
                let _ = self.turn(alloc, *number)?;
            }
            Event::Clock(moment) => self.moment = *moment,
            Event::Grow(shelf) => self.grow(*shelf),
            Event::Purge(shelf) => self.store.purge(*shelf, self.moment),
            Event::Close(number) => self.sessions.close(*number),
        }
        Ok(())
    }

    /// Takes a session's next turn, if one is due. After an error the session is closed.
    pub fn turn(&mut self, alloc: Global, number: u32) -> Result<Turn, TurnFault>
        ensures ok { OnOk result
            (Done K.hash_of (state_of self.old) (Event.Turn number) (state_of self.new)) }
        ensures did { result ≡ Ok Turn.Did → SessionIsDue number self.old.sessions }
        ensures idle { result ≡ Ok Turn.Idle →
            IsIdle (numbered number self.old.sessions) × (state_of self.new ≡ state_of self.old) }
        ensures closed { result ≡ Ok Turn.Closed →
            (open_session number self.old.sessions ≡ None)
            × (state_of self.new ≡ state_of self.old) }
        ensures err { IfErr result (λ fault.
            Undone fault.decided (state_of self.old) (Event.Turn number) (state_of self.new)) }
    {
        self.sessions
            .turn(alloc, number, &mut self.store, self.moment)
    }

    /// Moves 8 entries of a shelf to its new table, or as many as are left.
    ///
    /// If there is no such shelf it does nothing. It takes no memory.
    pub fn grow(&mut self, shelf: u32)
        ensures { state_of self.new
            ≡ record (state_of self.old) { left = eight_moved shelf self.old.store.left } }
    {
        let _ = self.store.grow(shelf, MOVED);
    }
}
