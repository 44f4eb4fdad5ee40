//! Sessions by number.

ghost use Rattle.std.specs.Prelude.{◌≡◌, [], ◌<◌, ◌≤◌, ◌↔◌, length, Some, None, Ok};
ghost use Rattle.std.specs.Prelude.{IfSome, OnOk, OnErr, IsTrue};
ghost use Rattle.std.specs.Option.{option_copied};
ghost use Rattle.mc_session.specs.Turns.{fed, closed, sent};
ghost use Rattle.mc_world.specs.Worlds.{numbered, open_session, changed};
ghost use Rattle.mc_world.specs.Worlds.{output_of, IsIdle, IsClosed};
ghost use Rattle.mc_world.specs.Sessions.{with_opened, at_session, IsOpened, IsOpenAt};
ghost use Rattle.mc_world.specs.Sessions.{TurnGiven};

use mc_protocol::Steps;
use mc_session::{Session, Turn, TurnFault};
use mc_time::Moment;
use std::alloc::{AllocError, Global};
use std::marker::Model;

/// The most sessions that are ever opened.
const MOST: usize = 65535;

/// Sessions by number, from 1. A closed one keeps its number and its output.
#[derive(Drop)]
pub struct Sessions {
    list: Vec<Session>,
}

impl Model for Sessions {
    ghost use Rattle.std.specs.Prelude.{List};
    ghost use Rattle.std.specs.Option.{option_copied};
    ghost use Rattle.mc_session.specs.Turns.{SessionState};

    ghost Value = { List SessionState };

    ghost view = { λ s. s.list.items };
}

/// Returns the index of the session of a number, if it is open.
fn open_place(sessions: &[Session], number: u32) -> Option<usize>
    ensures none { result ≡ None → open_session number sessions.now ≡ None }
    ensures some { IfSome result (λ at. IsOpenAt sessions.now number at) }
{
    if number == 0 {
        return None;
    }
    let at = (number - 1) as usize;
    match sessions.get(at) {
        Some(session) if !session.is_closed() => Some(at),
        _ => None,
    }
}

impl Sessions {
    /// Makes an empty list of sessions. It takes no memory.
    pub fn new(alloc: Global) -> Sessions
        ensures { result ≡ [] }
    {
        Sessions {
            list: Vec::new(alloc),
        }
    }

    /// Returns the number of sessions that were opened.
    pub fn count(&self) -> usize
        ensures { result ≡ length self.now }
    {
        self.list.len()
    }

    /// Opens a session, if fewer than 65535 were opened. An error changes nothing.
    pub fn open(&mut self, alloc: Global, greatest: u64) -> Result<(), AllocError>
        ensures ok { OnOk result (self.new ≡ with_opened greatest self.old) }
        ensures err { OnErr result (self.new ≡ self.old) }
        ensures few { OnErr result (length self.old < 65535) }
    {
        if self.list.len() < MOST {
            self.list.push(Session::new(alloc, greatest))?;
        }
        Ok(())
    }

    /// Brings the next piece of a session's stream. After an error the session is closed.
    pub fn feed(&mut self, number: u32, piece: &[u8]) -> Result<(), AllocError>
        ensures ok { OnOk result (self.new ≡ at_session self.old number (λ s. fed s piece.now)) }
        ensures err { OnErr result (self.new ≡ at_session self.old number closed) }
        ensures opens { OnErr result (IsOpened number self.old) }
    {
        let Some(at) = open_place(&self.list, number) else {
            return Ok(());
        };
        feed_or_close(&mut self.list[at], piece)
    }

    /// Takes a session's next turn on a store at a moment, if one is due.
    ///
    /// Want of memory closes the session.
    pub fn turn<S: Steps>(
        &mut self,
        alloc: Global,
        number: u32,
        store: &mut S,
        now: Moment,
    ) -> Result<Turn, TurnFault>
        ensures { TurnGiven S.Steps number now result self.old self.new store.old store.new }
    {
        let Some(at) = open_place(&self.list, number) else {
            return Ok(Turn::Closed);
        };
        self.list[at].turn(alloc, store, now)
    }

    /// Returns the session of a number, open or closed.
    fn session_at(&self, number: u32) -> Option<&Session>
        ensures { option_copied result ≡ numbered number self.now }
    {
        if number == 0 {
            return None;
        }
        self.list.get((number - 1) as usize)
    }

    /// Lends a session's output that isn't written yet. It is empty if the session was never
    /// opened.
    pub fn out(&self, number: u32) -> &[u8]
        ensures { result.now ≡ output_of (numbered number self.now) }
    {
        match self.session_at(number) {
            Some(session) => session.out(),
            None => &[],
        }
    }

    /// Drops the first `n` bytes of a session's output, which were written.
    pub fn drop_sent(&mut self, number: u32, n: usize)
        requires { n ≤ length (output_of (numbered number self.old)) }
        ensures { self.new ≡ changed number self.old (λ s. sent s n) (numbered number self.old) }
    {
        if number == 0 {
            return;
        }
        if let Some(session) = self.list.get_mut((number - 1) as usize) {
            session.sent(n);
        }
    }

    /// Returns whether a session is open and no turn is due until more bytes come.
    pub fn is_idle(&self, number: u32) -> bool
        ensures { IsTrue result ↔ IsIdle (numbered number self.now) }
    {
        match self.session_at(number) {
            Some(session) => session.is_idle(),
            None => false,
        }
    }

    /// Returns whether a session was opened and then closed.
    pub fn is_closed(&self, number: u32) -> bool
        ensures { IsTrue result ↔ IsClosed (numbered number self.now) }
    {
        match self.session_at(number) {
            Some(session) => session.is_closed(),
            None => false,
        }
    }

    /// Closes a session.
    pub fn close(&mut self, number: u32)
        ensures { self.new ≡ at_session self.old number closed }
    {
        if let Some(at) = open_place(&self.list, number) {
            self.list[at].close();
        }
    }
}

/// Brings a piece of an open session's stream. After an error the session is closed.
fn feed_or_close(session: &mut Session, piece: &[u8]) -> Result<(), AllocError>
    ensures ok { OnOk result (session.new ≡ fed session.old piece.now) }
    ensures err { OnErr result (session.new ≡ closed session.old) }
{
    let fed = session.feed(piece);
    if fed.is_err() {
        session.close();
    }
    fed
}
