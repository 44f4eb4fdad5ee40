//! Guests: sessions with their links.
//!
//! A visit that reads the end of the stream answers `Served` in that visit; a visit of an ended
//! guest changes nothing, so `visit` has no premise. A guest reads 2048 bytes at first and 16384
//! once these came, so an idle connection holds little. A read of a line doesn't pass 65536 bytes,
//! because its queue doubles its memory there: a line takes at most `OWN` bytes.
ghost use Rattle.std.specs.Prelude.{◌≡◌, ◌↔◌, ◌<◌, ◌≤◌, ◌+◌, ℕ, List, length, option_copied, IfOk, IfSome, Some, None, [], IsTrue, IsFalse};
ghost use Rattle.mc_protocol.specs.Commands.{longest_key};
ghost use Rattle.mc_parse.specs.Announcing.{Announces};
ghost use Rattle.mc_session.specs.Resting.{resting};
ghost use Rattle.mc_guests.specs.Guests.{welcomed, has_ended, ends, IsWaiting};
ghost use Rattle.mc_guests.specs.Links.{IsRoom};
ghost use Rattle.mc_guests.specs.Visits.{Visited, Does, Writes, Reads};
ghost use Rattle.mc_guests.specs.Asks.{StaysOrLosesLink};
ghost use Rattle.mc_guests.specs.Outcomes.{too_large};

use crate::budget::LITTLE;
use crate::link_source::{LinkSource, SourceAnswer};
use crate::measure::Naming;
use mc_bytes::{FIRST_PIECE, Spares};
use mc_links::{Link, LinkFault, Took};
use mc_protocol::Steps;
use mc_session::{Holding, LONGEST_PIECE, LentOutput, SessionOf, Turn};
use mc_time::Moment;
use std::alloc::{AllocError, Global};
use std::marker::Model;

/// The least output that is sent at once if the next request isn't whole.
///
/// To find that out costs more than to gather a shorter one.
const LONG: usize = 1024;

/// The bytes of the longest line.
const LINE: usize = 65_536;

/// What a visit did.
#[derive(Clone, Copy, Debug, PartialEq, Eq)]
pub enum Visit {
    /// The link took output.
    Wrote,
    /// A turn was made.
    Turned,
    /// The link gave bytes.
    Read,
    /// The link gives nothing now, or takes nothing now.
    Later,
    /// All was written, and the session is closed or its stream at its end. The guest has ended.
    Served,
    /// The link failed. The guest has ended.
    Broken,
    /// Memory was refused. The guest has ended.
    Refused,
}

/// A session with its link. Contracts see both, and the answer of the last visit.
#[derive(Drop)]
pub struct Guest<L: Link + Drop> {
    session: SessionOf<LentOutput>,
    link: L,
    /// The most bytes of the next read.
    longest: usize,
    /// The most bytes that input fills after the last read: unread ones, and read ones before them.
    filled: usize,
    /// The bytes that the last read or write moved.
    moved: usize,
    last: Option<Visit>,
}

impl<L: Link + Drop> Model for Guest<L> {
    ghost use Rattle.mc_guests.specs.Guests.{GuestState};

    ghost Value = { GuestState };

    ghost view = { λ g. record { session = g.session; link = L.shown g.link; last = g.last } };
}

impl<L: Link + Drop> Guest<L> {
    /// Makes a session with its link, whose storage commands may charge at most `greatest` bytes.
    ///
    /// It takes no memory, so it never fails: the first read allocates.
    pub fn new(alloc: Global, link: L, greatest: u64) -> Result<Guest<L>, AllocError>
        ensures { IfOk result (λ guest. guest ≡ welcomed greatest (L.shown link)) }
    {
        Ok(Guest::with_spares(alloc, link, greatest, None))
    }

    /// Makes a guest as `new` does, whose session takes the memory of large blocks and texts from
    /// these spares.
    pub fn with_spares(alloc: Global, link: L, greatest: u64, spares: Option<&Spares>) -> Guest<L>
        ensures { result ≡ welcomed greatest (L.shown link) }
    {
        Guest {
            session: SessionOf::with_spares(alloc, greatest, spares),
            link,
            longest: FIRST_PIECE,
            filled: 0,
            moved: 0,
            last: None,
        }
    }

    /// Returns its link, and frees all else.
    pub(crate) fn into_link(self) -> L
        ensures { L.shown result ≡ self.link }
    {
        let Guest { link, .. } = self;
        link
    }

    /// Returns the answer of its last visit, and `None` before the first.
    pub fn last(&self) -> Option<Visit>
        ensures { result ≡ self.now.last }
    {
        self.last
    }

    /// Does the one thing that is due: writes output, else takes a turn, else reads, or ends.
    ///
    /// A write offers the link a front of the output, and a read lends it room for 1 to 16384
    /// bytes. A guest that has ended does nothing, and answers what ended it.
    pub fn visit<S: Steps>(&mut self, alloc: Global, store: &mut S, now: Moment) -> Visit
        ensures { Visited S.Steps now result self.old self.new store.old store.new }
    {
        if let Some(answer) = self.ending() {
            return answer;
        }
        let answer = if self.is_written() {
            self.turn_or_read(alloc, store, now)
        } else {
            self.hasten();
            self.write_out()
        };
        self.tell_link(answer);
        self.last = Some(answer);
        answer
    }

    /// Returns the bytes reserved for its session, but for what is lent, and for output that its
    /// link still has.
    pub(crate) fn capacity(&self) -> usize
        ensures { length self.now.session.unread.bytes ≤ result }
    {
        let link = self.link.capacity();
        self.session.capacity().saturating_add(link)
    }

    /// Returns the bytes that it holds; output that its link still has is among its own.
    pub(crate) fn holding(&self) -> Holding
        ensures unread { length self.now.session.unread.bytes ≤ result.own }
        ensures out { length self.now.session.out ≤ result.own + result.lent }
        ensures within { result.lent ≤ length self.now.session.out }
    {
        let mut holding = self.session.holding();
        holding.own = holding.own.saturating_add(self.link.capacity());
        holding
    }

    /// Frees memory beyond two first pieces, if there are no unread bytes and no output.
    ///
    /// Returns the number of bytes reserved for it afterwards, but for what is lent.
    #[inline(never)]
    pub fn rest(&mut self) -> usize
        ensures same { self.new ≡ self.old }
        ensures unread { length self.new.session.unread.bytes ≤ result }
        ensures empty { self.new.session.unread.bytes ≡ [] → self.new.session.out ≡ [] →
            result ≤ resting }
    {
        self.session.rest()
    }

    /// Returns whether it reads long pieces, and has no unread bytes, no output, and none that its
    /// link still has.
    pub(crate) fn is_between_requests(&self) -> bool
        ensures unread { IsTrue result → length self.now.session.unread.bytes ≡ 0 }
        ensures out { IsTrue result → length self.now.session.out ≡ 0 }
    {
        self.longest > FIRST_PIECE && self.session.is_empty() && self.unsent_bytes() == 0
    }

    /// Notes at its link that no request is at hand: nothing is unread, or what is isn't a whole
    /// request and the output is long.
    ///
    /// It does so only if the link is offered all of the output: a short text is sent with the part
    /// behind it.
    fn hasten(&mut self)
        ensures { self.new ≡ self.old }
    {
        let Some(out) = self.lone_out() else {
            return;
        };
        let is_long = out.len() >= LONG;
        if self.session.has_nothing_unread() || (is_long && self.session.is_idle()) {
            self.link.send_soon();
        }
    }

    /// Returns whether all output was written.
    #[inline]
    fn is_written(&self) -> bool
        ensures { IsTrue result ↔ (self.now.session.out ≡ []) }
    {
        self.session.out_len() == 0
    }

    /// Lends the output if it lies in one part of memory.
    #[inline]
    fn lone_out(&self) -> Option<&[u8]>
        ensures { IfSome result (λ out. out.now ≡ self.now.session.out) }
    {
        let front = self.session.front();
        if front.len() == self.session.out_len() {
            Some(front)
        } else {
            None
        }
    }

    /// Returns whether its output was written, and a request came whole or it is closed.
    #[inline(never)]
    pub(crate) fn is_turn_due(&self) -> bool {
        self.is_written() && !self.session.is_idle()
    }

    /// Returns the bytes reserved for output that its link still has, beyond a first piece.
    pub(crate) fn unsent_bytes(&self) -> usize {
        self.link.capacity().saturating_sub(FIRST_PIECE)
    }

    /// Returns whether it has ended.
    pub(crate) fn has_ended(&self) -> bool
        ensures { result ≡ has_ended self.now.last }
    {
        match self.last {
            Some(answer) => answer.ends(),
            None => false,
        }
    }

    /// Drops the unread bytes and the output, and frees their memory.
    pub(crate) fn give_up(&mut self)
        ensures same { self.new ≡ record self.old { session = self.new.session } }
        ensures closed { IsFalse self.new.session.is_open }
        ensures written { self.new.session.out ≡ [] }
    {
        self.session.close();
        let waiting = self.session.out_len();
        self.session.sent(waiting);
    }

    /// Returns the bytes that the last read or write moved.
    pub(crate) fn moved_bytes(&self) -> usize {
        self.moved
    }

    /// Flushes its link, because the guest waits for memory. If the link failed or is to end, the
    /// guest has ended.
    pub(crate) fn pause(&mut self)
        ensures { StaysOrLosesLink self.old self.new }
    {
        if self.ending().is_some() {
            return;
        }
        if let Err(LinkFault) = self.link.pause() {
            self.session.close();
            self.last = Some(Visit::Broken);
        }
    }

    /// Returns the length of the first unit in bytes if its line announces a block, else 0.
    ///
    /// It counts bytes that haven't arrived too.
    pub(crate) fn unit(&self) -> usize
        ensures exact { Announces self.now.session.unread.greatest self.now.session.unread.bytes
            result }
        ensures none { self.now.session.unread.bytes ≡ [] → result ≡ 0 }
    {
        self.session.announced_bytes()
    }

    /// Returns the length of the unit whose block is read next, or 0 if output is written first.
    ///
    /// It counts bytes that haven't arrived too.
    pub(crate) fn announced_bytes(&self) -> usize
        ensures exact { self.now.session.out ≡ [] → Announces self.now.session.unread.greatest
            self.now.session.unread.bytes result }
        ensures unread { self.now.session.unread.bytes ≡ [] → result ≡ 0 }
        ensures out { (self.now.session.out ≡ [] → ⊥) → result ≡ 0 }
    {
        if self.is_written() {
            self.session.announced_bytes()
        } else {
            0
        }
    }

    /// Records at its link that memory was refused, if a visit with this answer says so.
    fn tell_link(&mut self, answer: Visit)
        ensures { self.new ≡ self.old }
    {
        if answer == Visit::Refused {
            self.refuse();
        }
    }

    /// Records at its link that memory was refused.
    pub(crate) fn refuse(&mut self)
        ensures { self.new ≡ self.old }
    {
        self.link.refused();
    }

    /// Returns whether its output is the answer to a request whose object is too large.
    pub(crate) fn is_told_too_large(&self) -> bool
        ensures { IsTrue result ↔ (self.now.session.out ≡ too_large) }
    {
        self.session
            .out_is(b"SERVER_ERROR object too large for cache\r\n".as_slice())
    }

    /// Returns what ended it.
    fn ending(&self) -> Option<Visit>
        ensures some { (answer : Visit) → result ≡ Some answer →
            (self.now.last ≡ Some answer) × IsTrue (ends answer) }
        ensures none { result ≡ None → IsFalse (has_ended self.now.last) }
    {
        match self.last {
            Some(answer) if answer.ends() => Some(answer),
            _ => None,
        }
    }

    /// Offers a front of the output to the link, which takes a front of that.
    ///
    /// A write of 0 bytes answers `Later`.
    fn write_out(&mut self) -> Visit
        requires { self.old.session.out ≡ [] → ⊥ }
        ensures last { self.new.last ≡ self.old.last }
        ensures writes { Writes result self.old self.new }
    {
        let (front, behind) = self.session.fronts();
        match self.link.try_write_all(front, behind, &[]) {
            Ok(Took::Bytes(taken)) => {
                if taken == 0 {
                    return Visit::Later;
                }
                self.moved = taken;
                self.session.sent(taken);
                Visit::Wrote
            }
            Ok(Took::Later) => Visit::Later,
            Err(LinkFault) => {
                self.session.close();
                Visit::Broken
            }
        }
    }

    /// Takes a turn, or reads a piece, or ends.
    fn turn_or_read<S: Steps>(&mut self, alloc: Global, store: &mut S, now: Moment) -> Visit
        requires { self.old.session.out ≡ [] }
        ensures last { self.new.last ≡ self.old.last }
        ensures does { Does S.Steps now result self.old self.new store.old store.new }
    {
        match self.session.turn(alloc, store, now) {
            Ok(Turn::Did) => {
                // what is left of the last read is moved to the front, or is the longer part
                self.filled = self.filled.min(2 * LONGEST_PIECE);
                Visit::Turned
            }
            Ok(Turn::Idle) => self.read_piece(),
            Ok(Turn::Closed) => {
                self.session.close();
                Visit::Served
            }
            Err(_) => Visit::Refused,
        }
    }

    /// Reads a piece, or ends.
    ///
    /// A read of 0 bytes answers `Later`.
    fn read_piece(&mut self) -> Visit
        requires { IsWaiting self.old.session }
        ensures last { self.new.last ≡ self.old.last }
        ensures reads { Reads result self.old self.new }
    {
        let filled = self.filled_bytes();
        let room = self.room_behind(filled);
        let mut tap = LinkSource {
            link: &mut self.link,
        };
        match self.session.feed_from(&mut tap, room) {
            Ok(SourceAnswer::Bytes(count)) => {
                if count == 0 {
                    return Visit::Later;
                }
                self.moved = count;
                self.filled = filled.saturating_add(count);
                self.widen(count, room);
                Visit::Read
            }
            Ok(SourceAnswer::Later) => Visit::Later,
            Ok(SourceAnswer::End) => {
                self.session.close();
                Visit::Served
            }
            Ok(SourceAnswer::Broken) => {
                self.session.close();
                Visit::Broken
            }
            Ok(SourceAnswer::NoRoom) => {
                self.session.close();
                Visit::Refused
            }
            Err(_) => {
                self.session.close();
                Visit::Refused
            }
        }
    }

    /// Returns the most bytes that input fills: 0 if none is unread.
    fn filled_bytes(&self) -> usize {
        if self.session.has_nothing_unread() {
            0
        } else {
            self.filled
        }
    }

    /// Returns the room of a read behind so many bytes: up to the end of the first piece or of the
    /// longest line, or `longest` if a block of more than `LITTLE` bytes is announced.
    fn room_behind(&self, filled: usize) -> usize
        ensures { IsRoom result }
    {
        let most = self.longest.clamp(1, LONGEST_PIECE);
        if self.session.announced_bytes() > LITTLE {
            return most;
        }
        let end = if most > FIRST_PIECE {
            LINE
        } else {
            FIRST_PIECE
        };
        if filled < end {
            most.min(end - filled)
        } else {
            FIRST_PIECE
        }
    }

    /// Enlarges the next read if a read filled its room.
    fn widen(&mut self, given: usize, room: usize)
        ensures { self.new ≡ self.old }
    {
        if given == room {
            self.longest = LONGEST_PIECE;
        }
    }
}

impl<L: Link + Drop> Naming for Guest<L> {
    ghost use Rattle.mc_guests.specs.Asks.{NamesKey};

    ghost names = { λ guest key. NamesKey guest.session key };

    /// Lends the key of the next turn, if that is one of a retrieval and no output is written
    /// first.
    fn key(&self) -> Option<&[u8]>
        ensures named { IfSome result (λ key. NamesKey self.now.session key.now) }
        ensures all { (key : List ℕ) → NamesKey self.now.session key →
            option_copied result ≡ Some key }
        ensures short { IfSome result (λ key. length key.now ≤ longest_key) }
    {
        if !self.is_written() {
            return None;
        }
        self.session.key()
    }
}

impl Visit {
    /// Returns whether it is a guest's last answer.
    fn ends(self) -> bool
        ensures { result ≡ ends self }
    {
        match self {
            Visit::Wrote | Visit::Turned | Visit::Read | Visit::Later => false,
            Visit::Served | Visit::Broken | Visit::Refused => true,
        }
    }
}
