//! Sessions, and their turns.

ghost use Rattle.std.specs.Prelude.{◌≡◌, ◌≤◌, ◌↔◌, length, option_copied, slice_get, IsTrue, IfSome};
ghost use Rattle.mc_protocol.specs.Commands.{HasShortKeys, longest_key};
ghost use Rattle.mc_parse.specs.Peeks.{unit_of};
ghost use Rattle.mc_session.specs.Reading.{keys_read};
ghost use Rattle.mc_session.specs.Turns.{SessionState};

use crate::after_turn::AfterTurn;
use crate::answer::answer;
use crate::holding::Holding;
use crate::output::{Outgoing, Output};
use mc_bytes::{Source, Spares};
use mc_parse::{Feed, Peek};
use mc_protocol::{Command, Steps};
use mc_time::Moment;
use std::alloc::{AllocError, Global};
use std::marker::Model;
use thiserror::Error;

/// What a turn did.
#[derive(Clone, Copy, Debug, PartialEq, Eq)]
pub enum Turn {
    /// A turn was taken.
    Did,
    /// No turn is due until more bytes come.
    Idle,
    /// The session is closed.
    Closed,
}

/// Memory was refused, and the session is closed. The turn has no text.
#[derive(Debug, Drop, Error)]
#[error("out of memory")]
pub struct TurnFault {
    /// Whether the store took the turn's step.
    pub decided: bool,
}

impl From<AllocError> for TurnFault {
    ghost use Rattle.std.specs.Prelude.{◌≡◌, false};

    ghost from_gives = { λ _ fault. fault ≡ record { decided = false } };

    fn from(_refused: AllocError) -> TurnFault {
        TurnFault { decided: false }
    }
}

/// The turns of one connection, whose texts are appended to an output of this type.
///
/// Contracts see the unread part of its stream, the number of turns taken of its first unit, the
/// output that isn't written yet, and whether it is open.
#[derive(Drop)]
pub struct SessionOf<O: Outgoing + Drop> {
    feed: Feed,
    /// The number of turns taken of the first unit.
    taken: usize,
    out: O,
    is_open: bool,
}

/// A session whose output lies in one part of memory.
pub type Session = SessionOf<Output>;

impl<O: Outgoing + Drop> Model for SessionOf<O> {
    ghost use Rattle.mc_session.specs.Turns.{SessionState};
    ghost use Rattle.mc_session.specs.Answers.{IsWithinUnit};

    ghost Value = { SessionState };

    ghost view = { λ s. record {
      unread = s.feed;
      taken = s.taken;
      out = O.bytes s.out;
      is_open = s.is_open;
    } };

    ghost invariant = { λ s. IsWithinUnit s.feed s.taken };
}

impl<O: Outgoing + Drop> SessionOf<O> {
    ghost use Rattle.std.specs.Prelude.{◌++◌, ◌≡◌, ◌+◌, ◌≤◌, ◌↔◌, ℕ, List, [], length, option_copied, IsTrue, IsFalse, OnOk, OnErr, IfOk, IfErr, Ok, Some, IfSome};
    ghost use Rattle.mc_protocol.specs.Commands.{longest_key};
    ghost use Rattle.mc_bytes.specs.Sources.{Brings};
    ghost use Rattle.mc_parse.specs.Announcing.{Announces};
    ghost use Rattle.mc_session.specs.Turns.{TakesTurn, FindsNoTurn, FindsClosed, TurnIsDue, NoTurnDue};
    ghost use Rattle.mc_session.specs.Turns.{DecidesStep, opened, closed, fed, FedPiece, sent};
    ghost use Rattle.mc_session.specs.Answers.{gone_on, MayGoOn};
    ghost use Rattle.mc_session.specs.Resting.{resting, kept_empty};
    ghost use Rattle.mc_session.specs.Reading.{ReadsNext};
    ghost use Rattle.mc_bytes.specs.Parts.{IsFront};

    /// Makes a session without bytes, whose storage commands may charge at most `greatest` bytes.
    ///
    /// It takes no memory.
    pub fn new(alloc: Global, greatest: u64) -> SessionOf<O>
        ensures { result ≡ opened greatest }
    {
        SessionOf::with_spares(alloc, greatest, None)
    }

    /// Makes a session that takes the memory of large blocks and texts from these spares, and gives
    /// it back to them.
    ///
    /// It takes no memory.
    pub fn with_spares(alloc: Global, greatest: u64, spares: Option<&Spares>) -> SessionOf<O>
        ensures { result ≡ opened greatest }
    {
        SessionOf {
            feed: Feed::with_spares(alloc, greatest, Spares::another(spares)),
            taken: 0,
            out: O::new(alloc, Spares::another(spares)),
            is_open: true,
        }
    }

    /// Brings the next piece of the stream. A closed session ignores it.
    ///
    /// An error leaves the session unchanged.
    pub fn feed(&mut self, piece: &[u8]) -> Result<(), AllocError>
        ensures ok { OnOk result (self.new ≡ fed self.old piece.now) }
        ensures err { OnErr result (self.new ≡ self.old) }
    {
        if self.is_open {
            self.feed.push(piece)
        } else {
            Ok(())
        }
    }

    /// Brings the next piece of an open session's stream from a source, which writes it in place.
    ///
    /// The source gets room for `room` bytes. After an error the source wasn't called, and the
    /// session is unchanged.
    pub fn feed_from<S: Source>(
        &mut self,
        source: &mut S,
        room: usize,
    ) -> Result<S::Answer, AllocError>
        requires { IsTrue self.old.is_open }
        ensures ok { IfOk result (λ answer.
            Brings S.gives source.old source.new answer (FedPiece self.old self.new)) }
        ensures err { OnErr result (self.new ≡ self.old) }
        ensures asked { OnErr result (source.new ≡ source.old) }
    {
        self.feed.push_from(source, room)
    }

    /// Takes the next turn of the session's stream, if one is due: at most one step of the store,
    /// at `now`.
    ///
    /// The turn's text is appended to the output. Want of memory closes the session and keeps the
    /// output.
    pub fn turn<S: Steps>(
        &mut self,
        alloc: Global,
        store: &mut S,
        now: Moment,
    ) -> Result<Turn, TurnFault>
        ensures did { result ≡ Ok Turn.Did →
            TakesTurn S.Steps now self.old self.new store.old store.new }
        ensures idle { result ≡ Ok Turn.Idle → FindsNoTurn self.old self.new store.old store.new }
        ensures closed { result ≡ Ok Turn.Closed →
            FindsClosed self.old self.new store.old store.new }
        ensures err { OnErr result (self.new ≡ closed self.old) }
        // Memory is refused only if a turn is due.
        ensures due { OnErr result (TurnIsDue self.old) }
        // If the step wasn't decided the store holds the same; if it was, the store took the turn's
        // step, and only its text is missing.
        ensures undecided { IfErr result (λ fault. IsFalse fault.decided →
            S.same store.old store.new) }
        ensures decided { IfErr result (λ fault. IsTrue fault.decided →
            DecidesStep S.Steps now self.old store.old store.new) }
    {
        if !self.is_open {
            return Ok(Turn::Closed);
        }
        if self.has_nothing_unread() {
            return Ok(Turn::Idle);
        }
        match answer(
            alloc,
            &self.feed.peek_after(self.taken),
            store,
            now,
            &mut self.out,
        ) {
            Ok(None) => Ok(Turn::Idle),
            Ok(Some(next)) => {
                self.go_on(next);
                Ok(Turn::Did)
            }
            Err(fault) => {
                self.close();
                Err(fault)
            }
        }
    }

    /// Returns whether no byte is unread, so that no turn of an open session is due.
    pub fn has_nothing_unread(&self) -> bool
        ensures unread { IsTrue result ↔ (length self.now.unread.bytes ≡ 0) }
        ensures due { IsTrue result → NoTurnDue self.now }
    {
        self.feed.held() == 0
    }

    /// Updates the session for what comes after a turn.
    fn go_on(&mut self, next: AfterTurn)
        requires { MayGoOn next self.old }
        ensures { self.new ≡ gone_on next self.old }
    {
        match next {
            AfterTurn::Step => {
                self.taken += 1;
                self.feed.mark(self.taken);
            }
            AfterTurn::Read { len, passed } => {
                self.taken = 0;
                self.feed.done_passing(len, passed);
            }
            AfterTurn::Close => self.close(),
        }
    }

    /// Returns whether the session is open and no turn is due until more bytes are brought.
    #[inline(never)]
    pub fn is_idle(&self) -> bool
        ensures { IsTrue result ↔ (IsTrue self.now.is_open × NoTurnDue self.now) }
    {
        self.is_open && is_more(&self.feed.peek_after(self.taken))
    }

    /// Returns whether the session was closed: by quit, a too long line, want of memory or `close`.
    pub fn is_closed(&self) -> bool
        ensures { IsTrue result ↔ IsFalse self.now.is_open }
    {
        !self.is_open
    }

    /// Returns whether there are no unread bytes and no output.
    pub fn is_empty(&self) -> bool
        ensures unread { IsTrue result → length self.now.unread.bytes ≡ 0 }
        ensures out { IsTrue result → length self.now.out ≡ 0 }
        ensures all { length self.now.unread.bytes ≡ 0 → length self.now.out ≡ 0 → IsTrue result }
    {
        let (unread, unsent) = (self.feed.held(), self.out.len());
        unread == 0 && unsent == 0
    }

    /// Returns how many bytes of output are in memory: those not written, and written ones before
    /// them.
    pub fn held_bytes(&self) -> usize
        ensures least { length self.now.out ≤ result }
        ensures empty { self.now.out ≡ [] → result ≡ 0 }
    {
        self.out.filled_bytes()
    }

    /// Returns the number of bytes reserved for unread bytes, and for output that isn't lent: at
    /// most 196608 if there are neither.
    pub fn capacity(&self) -> usize
        ensures unread { length self.now.unread.bytes ≤ result }
        ensures empty { self.now.unread.bytes ≡ [] → self.now.out ≡ [] → result ≤ kept_empty }
    {
        self.feed.capacity().saturating_add(self.out.capacity())
    }

    /// Returns the bytes that the session holds: its own, and those that are lent to it.
    pub fn holding(&self) -> Holding
        ensures unread { length self.now.unread.bytes ≤ result.own }
        ensures out { length self.now.out ≤ result.own + result.lent }
        ensures lent { result.lent ≤ length self.now.out }
        ensures left { result.lent ≡ 0 → result.left ≡ 0 }
    {
        let unread = self.feed.capacity();
        Holding {
            own: unread.saturating_add(self.out.capacity()),
            lent: self.out.lent_len(),
            left: self.out.left_bytes(),
        }
    }

    /// Frees memory beyond that of two first pieces, if there are no unread bytes and no output.
    ///
    /// Returns the number of bytes reserved for unread bytes, and for output that isn't lent,
    /// afterwards.
    pub fn rest(&mut self) -> usize
        ensures same { self.new ≡ self.old }
        ensures unread { length self.new.unread.bytes ≤ result }
        ensures empty { self.new.unread.bytes ≡ [] → self.new.out ≡ [] → result ≤ resting }
    {
        let unread = self.feed.rest();
        unread.saturating_add(self.out.rest())
    }

    /// Returns the length of the first unit in bytes if its line announces a block, else 0.
    ///
    /// It counts bytes that haven't arrived too.
    pub fn announced_bytes(&self) -> usize
        ensures exact { Announces self.now.unread.greatest self.now.unread.bytes result }
        ensures none { self.now.unread.bytes ≡ [] → result ≡ 0 }
    {
        self.feed.announced_bytes()
    }

    /// Returns the key that the next turn reads, if that is one of a retrieval.
    pub fn key(&self) -> Option<&[u8]>
        ensures some { IfSome result (λ key. ReadsNext self.now key.now) }
        ensures all { (key : List ℕ) → ReadsNext self.now key → option_copied result ≡ Some key }
        ensures short { IfSome result (λ key. length key.now ≤ longest_key) }
    {
        if !self.is_open {
            return None;
        }
        match self.feed.peek_after(self.taken) {
            Peek::Whole(command, _len) => first_key(&command),
            Peek::More | Peek::Bad(..) | Peek::TooLong => None,
        }
    }

    /// Lends the first bytes of the output that isn't written yet: none only if there are none.
    #[inline]
    pub fn front(&self) -> &[u8]
        ensures { IsFront self.now.out result.now }
    {
        self.out.front()
    }

    /// Lends the first bytes of the output, and those right behind them that may go with them.
    #[inline]
    pub fn fronts(&self) -> (&[u8], &[u8])
        ensures front { IsFront self.now.out result.0.now }
        ensures both { IsFront self.now.out (result.0.now ++ result.1.now) }
    {
        self.out.fronts()
    }

    /// Returns the number of bytes of output that isn't written yet.
    #[inline]
    pub fn out_len(&self) -> usize
        ensures { result ≡ length self.now.out }
    {
        self.out.len()
    }

    /// Returns whether the output that isn't written yet is this text.
    pub fn out_is(&self, text: &[u8]) -> bool
        ensures { IsTrue result ↔ (self.now.out ≡ text.now) }
    {
        self.out.is(text)
    }

    /// Drops the first `n` bytes of the output, which were written.
    ///
    /// It moves nothing: the next text that is appended does, if at least half are written.
    #[inline]
    pub fn sent(&mut self, n: usize)
        requires { n ≤ length self.old.out }
        ensures { self.new ≡ sent self.old n }
    {
        self.out.consume(n);
    }

    /// Closes the session and drops the unread bytes. The output is kept.
    #[inline(never)]
    pub fn close(&mut self)
        ensures { self.new ≡ closed self.old }
    {
        self.is_open = false;
        self.taken = 0;
        self.feed.clear();
    }
}

impl SessionOf<Output> {
    ghost use Rattle.std.specs.Prelude.{◌≡◌};

    /// Lends the output that isn't written yet.
    pub fn out(&self) -> &[u8]
        ensures { result.now ≡ self.now.out }
    {
        self.out.as_slice()
    }
}

/// Returns the first key of a retrieval, and `None` for another command.
fn first_key<'a>(command: &Command<'a>) -> Option<&'a [u8]>
    requires { HasShortKeys command.now }
    ensures first { option_copied result ≡ slice_get (keys_read command.now) 0 }
    ensures short { IfSome result (λ key. length key.now ≤ longest_key) }
{
    match command {
        Command::Get { keys, .. } | Command::GetTouch { keys, .. } => keys.get(0),
        _ => None,
    }
}

/// Returns whether a peek found nothing.
fn is_more(found: &Peek<'_>) -> bool
    ensures { IsTrue result ↔ (unit_of found.now ≡ None) }
{
    match found {
        Peek::More => true,
        Peek::Whole(..) | Peek::Bad(..) | Peek::TooLong => false,
    }
}
