//! A world under test, and checks of its sessions' outputs.

use crate::tests::runs::{opened_with, run};
use mc_hop::KeyHash;
use mc_protocol::Bytes;
use mc_shelf::Settings;
use mc_time::Moment;
use mc_world::{Event, Refused, World};
use std::alloc::{AllocError, Global};
use std::process::Abort;
use std::test::Fail;

/// A world under test, and what its calls and checks take.
#[derive(Drop)]
pub(crate) struct Tested<'a, R: Abort, K: KeyHash + Drop> {
    pub(crate) rt: &'a R,
    pub(crate) alloc: Global,
    pub(crate) world: World<K>,
}

impl<'a, R: Abort, K: KeyHash + Drop> Tested<'a, R, K> {
    /// Takes a world.
    pub(crate) fn of(rt: &'a R, alloc: Global, world: World<K>) -> Tested<'a, R, K> {
        Tested { rt, alloc, world }
    }

    /// Takes a new world at 1000 with session 1 open, whose store has these settings.
    pub(crate) fn opened(
        rt: &'a R,
        alloc: Global,
        hasher: K,
        settings: Settings,
    ) -> Result<Tested<'a, R, K>, AllocError> {
        Ok(Tested::of(rt, alloc, opened_with(alloc, hasher, settings)?))
    }

    /// Runs all events; a refusal is an error.
    pub(crate) fn run(&mut self, events: &[Event<'_>]) -> Result<(), AllocError> {
        run(&mut self.world, self.alloc, events)
    }

    /// Takes some turns of session 1.
    pub(crate) fn take_turns(&mut self, turns: usize) -> Result<(), AllocError> {
        for _ in 0..turns {
            self.run(&[Event::Turn(1)])?;
        }
        Ok(())
    }

    /// Brings a piece to session 1 at a second, and takes as many turns as any piece here has.
    pub(crate) fn ask(&mut self, seconds: u64, piece: &[u8]) -> Result<(), AllocError> {
        let clock = Event::Clock(Moment::from_seconds_at_most(seconds));
        self.run(&[clock, Event::Piece(1, Bytes::of(piece))])?;
        self.take_turns(100)
    }

    /// Checks a session's output that isn't written yet.
    pub(crate) fn is_told(&self, session: u32, output: &[u8]) {
        assert_eq!(self.rt; self.world.out(session), output, "of session {session}");
    }

    /// Checks the output of session 1, which is then written.
    pub(crate) fn is_told_and_sent(&mut self, output: &[u8]) {
        self.is_told(1, output);
        let written = self.world.out(1).len();
        self.world.sent(1, written);
        assert!(self.rt; self.world.out(1).is_empty());
    }

    /// Checks that session 1 is idle and has this output, which is then written.
    pub(crate) fn tells(&mut self, output: &str) {
        assert!(self.rt; self.world.is_idle(1));
        self.is_told_and_sent(output.as_bytes());
    }

    /// Brings a piece to session 1, takes some turns of it at a moment, and checks the output.
    pub(crate) fn answers(&mut self, moment: u64, piece: &str, output: &str) -> Result<(), Fail> {
        self.ask(moment, piece.as_bytes())?;
        self.tells(output);
        Ok(())
    }

    /// Checks that a session was refused memory, and is closed.
    pub(crate) fn is_refused(&self, session: u32, refused: &Refused) {
        assert!(self.rt; refused.session == Some(session) && self.world.is_closed(session));
    }

    /// Checks that session 2 gets this for `a`, or session 3 if session 2 is refused memory.
    pub(crate) fn second_finds(&mut self, found: &[u8]) -> Result<(), Fail> {
        let get = Event::Piece(2, Bytes::of(b"get a\r\n"));
        match self.world.run(self.alloc, &[get, Event::Turn(2)]) {
            Ok(()) => self.is_told(2, found),
            Err(refused) => {
                self.is_refused(2, &refused);
                self.third_finds(found)?;
            }
        }
        Ok(())
    }

    /// Opens session 3, and checks that it gets this for `a`.
    fn third_finds(&mut self, found: &[u8]) -> Result<(), Fail> {
        let get = Event::Piece(3, Bytes::of(b"get a\r\n"));
        self.run(&[Event::Open, get, Event::Turn(3)])?;
        self.is_told(3, found);
        Ok(())
    }
}
