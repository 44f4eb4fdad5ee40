//! A link that ends a peer of another protocol.
//!
//! A link may end at any time: its session was then sent a beginning of its text. So a link is laid
//! over a connection's channel that follows the first bytes. Behind a request line of HTTP it is at
//! its end: the line is answered `ERROR`, and no line behind it is a command. At a header of
//! memcached's binary protocol it is at its end at once. The channel stays open below, so the
//! answer is sent, and what the client sends on is dropped (`yard.rt`).
//!
//! Once the first bytes are known to be of no other protocol, a read costs one test more. It is
//! proved for any link.
ghost use Rattle.std.specs.Prelude.{◌≡◌, ◌^◌, ◌-◌, ◌++◌, ◌≤◌, length, Ok, IfSome, Some, []};

use crate::opening::{Opening, Part, PieceOpening, Protocol};
use crate::stream::len_of_all;
use mc_links::{Got, Link, LinkFault, Took};

/// A link that can be closed as that of another protocol's peer.
pub trait Peer: Link {
    ghost use Rattle.std.specs.Prelude.{◌≡◌};

    /// Notes that its peer speaks another protocol, for which it is closed.
    fn note_other(&mut self)
        ensures { Self.shown self.new ≡ Self.shown self.old };
}

/// A link over another, which is at its end where the peer shows another protocol.
#[derive(Drop)]
pub struct Screen<L: Peer + Drop> {
    link: L,
    opening: Opening,
    reads: Reads,
}

/// What is known of the calls on a screen.
#[derive(Clone, Copy)]
pub struct Reads {
    /// The last bytes that the link below gave and that aren't handed on, of another protocol.
    pub withheld: usize,
    pub is_ended: bool,
    /// Whether the last call was a read.
    pub was_read: bool,
    /// The length of its piece or bytes.
    pub requested: usize,
}

impl<L: Peer + Drop> Screen<L> {
    ghost use Rattle.std.specs.Prelude.{true};
    ghost use Rattle.mc_sockets.specs.Screens.{Stands};

    /// Returns the screen of a link that gave nothing yet. It takes no memory.
    pub fn new(link: L) -> Screen<L>
        ensures stands { IfSome (L.shown link).given (λ given. given ≡ []) →
            Stands result.opening result.reads (L.shown result.link).given }
    {
        Screen {
            link,
            opening: Opening::Open(Part::Nothing),
            reads: Reads {
                withheld: 0,
                is_ended: false,
                was_read: false,
                requested: 0,
            },
        }
    }

    /// Lends the link below.
    pub fn link(&self) -> &L
        ensures { result.now ≡ self.now.link }
    {
        &self.link
    }

    /// Answers a read behind the end, unless the link below counts no more faults.
    fn end(&mut self) -> Result<Got, LinkFault>
        ensures full { (L.shown self.old.link).faults ≡ 2 ^ 64 - 1 → (result ≡ Ok Got.Later)
            × (self.new ≡ self.old) }
        ensures ends { ((L.shown self.old.link).faults ≡ 2 ^ 64 - 1 → ⊥) →
            (result ≡ Ok Got.End) × (self.new ≡ record self.old {
              reads = record self.old.reads { is_ended = true };
            }) }
    {
        if self.link.faults() == u64::MAX {
            return Ok(Got::Later);
        }
        self.reads.is_ended = true;
        Ok(Got::End)
    }
}

impl<L: Peer + Drop> Screen<L> {
    ghost use Rattle.std.specs.Prelude.{false, take};
    ghost use Rattle.mc_sockets.specs.Screens.{is_other, HandsOn, IsHanded};

    /// Judges a piece that the link below gave, of `count` bytes, and returns what is handed on.
    fn hand_on(&mut self, piece: &[u8], count: usize) -> Got
        requires room { count ≤ length piece.now }
        requires known { is_other self.old.opening ≡ false }
        ensures hands { HandsOn (take count piece.now) count result self.old.opening
            self.new.opening self.old.reads self.new.reads }
        ensures same { L.shown self.new.link ≡ L.shown self.old.link }
    {
        let Opening::Open(part) = self.opening else {
            return Got::Bytes(count);
        };
        let (read, _) = piece.split_at(count);
        match part.judge(read) {
            PieceOpening::Open(part) => {
                self.opening = Opening::Open(part);
                Got::Bytes(count)
            }
            PieceOpening::Settled => {
                self.opening = Opening::Settled;
                Got::Bytes(count)
            }
            PieceOpening::Other(protocol, shown) => self.end_at(protocol, count, shown),
        }
    }

    /// Ends at the first bytes of a piece of `count` bytes, which show another protocol.
    fn end_at(&mut self, protocol: Protocol, count: usize, shown: usize) -> Got
        requires { shown ≤ count }
        ensures handed { IsHanded (PieceOpening.Other protocol shown) count result self.new.opening
            self.old.reads self.new.reads }
        ensures same { L.shown self.new.link ≡ L.shown self.old.link }
    {
        self.opening = Opening::Other(protocol);
        self.link.note_other();
        match protocol {
            Protocol::Http => {
                self.reads.withheld = count - shown;
                Got::Bytes(shown)
            }
            Protocol::Binary => {
                self.reads.withheld = count;
                self.reads.is_ended = true;
                Got::End
            }
        }
    }
}

impl Opening {
    ghost use Rattle.std.specs.Prelude.{◌≡◌};
    ghost use Rattle.mc_sockets.specs.Screens.{is_other};

    /// Returns whether another protocol was recognized.
    fn is_other(self) -> bool
        ensures { result ≡ is_other self }
    {
        match self {
            Opening::Other(_) => true,
            Opening::Open(_) | Opening::Settled => false,
        }
    }
}

impl<L: Peer + Drop> Link for Screen<L> {
    ghost use Rattle.std.specs.Prelude.{true, false, []};
    ghost use Rattle.mc_links.specs.Links.{Gives, IsWrite};
    ghost use Rattle.mc_sockets.specs.Screens.{screened, is_other, Stands};

    ghost shown = { λ s. screened s.opening s.reads (L.shown s.link) };

    fn try_read(&mut self, piece: &mut [u8]) -> Result<Got, LinkFault>
        ensures gives { Gives (screened self.old.opening self.old.reads (L.shown self.old.link))
            piece.new result (screened self.new.opening self.new.reads (L.shown self.new.link)) }
        ensures lent { self.new.reads.requested ≡ length piece.new }
        ensures full { (L.shown self.old.link).faults ≡ 2 ^ 64 - 1 → result ≡ Ok Got.Later }
        ensures stands { Stands self.old.opening self.old.reads (L.shown self.old.link).given →
            Stands self.new.opening self.new.reads (L.shown self.new.link).given }
        ensures same { is_other self.new.opening ≡ false →
            Gives (L.shown self.old.link) piece.new result (L.shown self.new.link) }
        ensures ends { is_other self.old.opening ≡ true →
            ((L.shown self.old.link).faults ≡ 2 ^ 64 - 1 → ⊥) → result ≡ Ok Got.End }
    {
        self.reads.was_read = true;
        self.reads.requested = piece.len();
        if self.opening.is_other() {
            return self.end();
        }
        match self.link.try_read(piece) {
            Ok(Got::Bytes(count)) => Ok(self.hand_on(piece, count)),
            Ok(Got::End) => {
                self.reads.is_ended = true;
                Ok(Got::End)
            }
            answer => answer,
        }
    }

    fn try_write(&mut self, bytes: &[u8]) -> Result<Took, LinkFault> {
        self.reads.was_read = false;
        self.reads.requested = bytes.len();
        self.link.try_write(bytes)
    }

    fn try_write_all(
        &mut self,
        first: &[u8],
        second: &[u8],
        third: &[u8],
    ) -> Result<Took, LinkFault> {
        self.reads.was_read = false;
        self.reads.requested = len_of_all(first, second, third);
        self.link.try_write_all(first, second, third)
    }

    fn pause(&mut self) -> Result<(), LinkFault> {
        self.link.pause()
    }

    fn send_soon(&mut self) {
        self.link.send_soon();
    }

    fn refused(&mut self) {
        self.link.refused();
    }

    fn faults(&self) -> u64 {
        self.link.faults()
    }

    fn capacity(&self) -> usize {
        self.link.capacity()
    }
}
