//! Worlds: many sessions over one store, driven by events.

ghost use Rattle.std.specs.Prelude.{◌≡◌, ◌≤◌, ◌↔◌, ◌∷◌, [], length, replicate};
ghost use Rattle.std.specs.Prelude.{IsTrue, IfOk, IfErr, OnOk, Ok, None};
ghost use Rattle.mc_protocol.specs.Plain.{opening, starting};
ghost use Rattle.mc_session.specs.Turns.{sent};
ghost use Rattle.mc_world.specs.Worlds.{CanStand, Told, ToldRefused, ToldUntil};
ghost use Rattle.mc_world.specs.Worlds.{eight_moved, numbered, open_session, changed};
ghost use Rattle.mc_world.specs.Worlds.{output_of, IsIdle, IsClosed};
ghost use Rattle.mc_world.specs.Refusals.{ToldThrough};
ghost use Rattle.mc_world.specs.Sessions.{SessionIsDue};

use crate::event::{Ended, Event, Refused};
use crate::parts::WorldParts;
use mc_hop::KeyHash;
use mc_session::{Turn, TurnFault};
use mc_shelf::{Settings, Store};
use mc_time::Moment;
use std::alloc::{AllocError, Global};
use std::marker::Model;

/// A store, a moment, and the sessions that use the store in turn.
///
/// Contracts see the store's settings, its hasher, the plain machine's state, the moment and the
/// sessions, and a plain world represents them. Beside these they see for each shelf how many
/// entries of an old table are still to be moved.
#[derive(Drop)]
pub struct World<K: KeyHash + Drop> {
    parts: WorldParts<K>,
}

impl<K: KeyHash + Drop> Model for World<K> {
    ghost use Rattle.mc_world.specs.Worlds.{WorldState, coded_world, CanStand};
    ghost use Rattle.mc_world.specs.Sessions.{state_of};

    ghost Value = { WorldState K };

    ghost coded = { coded_world K.code };

    ghost view = { λ w. state_of w.parts };

    ghost invariant = { λ w. CanStand (state_of w.parts) };
}

impl<K: KeyHash + Drop> World<K> {
    /// Makes a world with an empty store and no sessions. The only error is a refused allocation.
    pub fn new(
        alloc: Global,
        settings: Settings,
        hasher: K,
        now: Moment,
    ) -> Result<World<K>, AllocError>
        ensures { IfOk result (λ world. world ≡ record {
          settings = settings;
          hasher = hasher;
          state = opening settings.pages settings.greatest;
          moment = now;
          sessions = [];
          left = replicate settings.shelves 0;
        }) }
    {
        World::starting(alloc, settings, hasher, now, 1)
    }

    /// Makes the same, with a store whose first write uses the unique number `next`, at least 1.
    ///
    /// At 2^64 - 1 the numbers are used up. The only error is a refused allocation.
    pub fn starting(
        alloc: Global,
        settings: Settings,
        hasher: K,
        now: Moment,
        next: u64,
    ) -> Result<World<K>, AllocError>
        requires { 1 ≤ next }
        ensures { IfOk result (λ world. world ≡ record {
          settings = settings;
          hasher = hasher;
          state = starting settings.pages settings.greatest next;
          moment = now;
          sessions = [];
          left = replicate settings.shelves 0;
        }) }
    {
        let store = Store::starting(alloc, settings, hasher, next)?;
        Ok(World {
            parts: WorldParts::new(alloc, store, now),
        })
    }

    /// Runs the events in order, until memory is refused in one.
    ///
    /// The events before that one are then done, its session is closed, and no later one is run.
    ///
    /// The contract holds for every plain world that represents the old state; at least one exists.
    pub fn run(&mut self, alloc: Global, events: &[Event<'_>]) -> Result<(), Refused>
        ensures ok { OnOk result (Told K.hash_of self.old events.now self.new) }
        ensures err { IfErr result (λ refused.
            ToldUntil K.hash_of refused self.old events.now self.new) }
    {
        for (at, event) in events.iter().enumerate() {
            if let Err(fault) = self.happen(alloc, event) {
                return Err(Refused {
                    at,
                    session: event.session(),
                    decided: fault.decided,
                });
            }
        }
        Ok(())
    }

    /// Runs all events in order, and returns how many were refused memory.
    ///
    /// After a refusal the event's session is closed, an opening opens nothing, and the text of a
    /// step that its turn decided is missing; then the next event is run. Only an opening, a piece
    /// of an open session and a turn that is due can be refused.
    pub fn run_through(&mut self, alloc: Global, events: &[Event<'_>]) -> Ended
        ensures told { ToldThrough K.hash_of result.refused self.old events.now self.new }
        // If no event was refused it does what `run` does.
        ensures none { result.refused ≡ 0 → Told K.hash_of self.old events.now self.new }
    {
        let mut refused = 0;
        for event in events {
            if self.happen(alloc, event).is_err() {
                refused += 1;
            }
        }
        Ended { refused }
    }

    /// Takes a session's next turn, if one is due, as `run` of that one event does.
    ///
    /// It returns `Did` if a turn was due, `Idle` if the session is open and none was, and `Closed`
    /// if it isn't open. After an error the session is closed. It parses the session's next unit
    /// once.
    #[tactic(auto, using(crate::proofs::WorldLemmas::told_refused))]
    pub fn turn(&mut self, alloc: Global, session: u32) -> Result<Turn, Refused>
        ensures ok { OnOk result (Told K.hash_of self.old (Event.Turn session ∷ []) self.new) }
        ensures did { result ≡ Ok Turn.Did → SessionIsDue session self.old.sessions }
        ensures idle { result ≡ Ok Turn.Idle →
            IsIdle (numbered session self.old.sessions) × (self.new ≡ self.old) }
        ensures closed { result ≡ Ok Turn.Closed →
            (open_session session self.old.sessions ≡ None) × (self.new ≡ self.old) }
        ensures err { IfErr result (λ refused.
            ToldUntil K.hash_of refused self.old (Event.Turn session ∷ []) self.new) }
    {
        match self.give_turn(alloc, session) {
            Ok(turn) => Ok(turn),
            Err(fault) => Err(Refused {
                at: 0,
                session: Some(session),
                decided: fault.decided,
            }),
        }
    }

    /// Sets the moment from now on.
    pub fn set_moment(&mut self, now: Moment)
        ensures { self.new ≡ record self.old { moment = now } }
    {
        self.parts.moment = now;
    }

    /// Moves 8 entries of a shelf to its new table, or as many as are left. No session sees that.
    ///
    /// If there is no such shelf it does nothing. It takes no memory.
    pub fn grow(&mut self, shelf: u32)
        ensures { self.new ≡ record self.old { left = eight_moved shelf self.old.left } }
    {
        self.parts.grow(shelf);
    }

    /// Returns the number of sessions that were opened, which is the last one's number.
    pub fn session_count(&self) -> usize
        ensures { result ≡ length self.now.sessions }
    {
        self.parts.sessions.count()
    }

    /// Returns the number of the store's shelves.
    pub fn shelves(&self) -> u32
        ensures { result ≡ self.now.settings.shelves }
    {
        self.parts.store.settings().shelves
    }

    /// Lends a session's output that isn't written yet. It is empty if the session was never
    /// opened.
    pub fn out(&self, session: u32) -> &[u8]
        ensures { result.now ≡ output_of (numbered session self.now.sessions) }
    {
        self.parts.sessions.out(session)
    }

    /// Drops the first `n` bytes of a session's output, which were written.
    pub fn sent(&mut self, session: u32, n: usize)
        requires { n ≤ length (output_of (numbered session self.old.sessions)) }
        ensures { self.new ≡ record self.old {
          sessions =
              changed session self.old.sessions (λ s. sent s n)
              (numbered session self.old.sessions);
        } }
    {
        self.parts.sessions.drop_sent(session, n);
    }

    /// Returns whether a session is open and no turn is due until more bytes come.
    ///
    /// It parses the session's next unit.
    pub fn is_idle(&self, session: u32) -> bool
        ensures { IsTrue result ↔ IsIdle (numbered session self.now.sessions) }
    {
        self.parts.sessions.is_idle(session)
    }

    /// Returns whether a session was opened and then closed.
    pub fn is_closed(&self, session: u32) -> bool
        ensures { IsTrue result ↔ IsClosed (numbered session self.now.sessions) }
    {
        self.parts.sessions.is_closed(session)
    }

    /// States that a plain world represents this one. It does nothing.
    pub fn stands(&self)
        ensures { CanStand self.now }
    {
        let _ = &self.parts;
    }

    /// Runs one event. After an error the event's session is closed.
    #[tactic(auto, using(crate::proofs::WorldLemmas::result_rules))]
    fn happen(&mut self, alloc: Global, event: &Event<'_>) -> Result<(), TurnFault>
        ensures ok { OnOk result (Told K.hash_of self.old (event.now ∷ []) self.new) }
        ensures err { IfErr result (λ fault.
            ToldRefused K.hash_of fault.decided self.old event.now self.new) }
    {
        self.parts.happen(alloc, event)
    }

    /// Takes a session's next turn, if one is due. After an error the session is closed.
    #[tactic(auto, using(crate::proofs::WorldLemmas::result_rules))]
    fn give_turn(&mut self, alloc: Global, session: u32) -> Result<Turn, TurnFault>
        ensures ok { OnOk result (Told K.hash_of self.old (Event.Turn session ∷ []) self.new) }
        ensures did { result ≡ Ok Turn.Did → SessionIsDue session self.old.sessions }
        ensures idle { result ≡ Ok Turn.Idle →
            IsIdle (numbered session self.old.sessions) × (self.new ≡ self.old) }
        ensures closed { result ≡ Ok Turn.Closed →
            (open_session session self.old.sessions ≡ None) × (self.new ≡ self.old) }
        ensures err { IfErr result (λ fault.
            ToldRefused K.hash_of fault.decided self.old (Event.Turn session) self.new) }
    {
        self.parts.turn(alloc, session)
    }
}
