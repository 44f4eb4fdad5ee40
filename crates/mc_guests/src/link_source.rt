//! Links as sources of sessions.
ghost use Rattle.std.specs.Prelude.{IsTrue};
ghost use Rattle.mc_guests.specs.Links.{IsRoom};

use mc_bytes::Source;
use mc_links::{Got, Link, LinkFault};
use mc_session::LONGEST_PIECE;

/// The result of a read through a tap.
#[derive(Clone, Copy, Debug, PartialEq, Eq)]
pub enum SourceAnswer {
    /// The link gave this many bytes.
    Bytes(usize),
    /// The link gives nothing now.
    Later,
    /// The link gives nothing more.
    End,
    /// The link failed.
    Broken,
    /// The link wasn't asked: there was no room, or for more than `LONGEST_PIECE` bytes.
    NoRoom,
}

/// A link that is borrowed as a source: it writes what it gives where its session keeps it.
///
/// The link is lent room for 1 to `LONGEST_PIECE` bytes.
#[derive(Drop)]
pub struct LinkSource<'a, L: Link> {
    pub link: &'a mut L,
}

impl<'a, L: Link> Source for LinkSource<'a, L> {
    ghost use Rattle.std.specs.Prelude.{◌≡◌};
    ghost use Rattle.mc_guests.specs.Links.{GivesPiece};

    type Answer = SourceAnswer;

    ghost gives = { λ old piece answer new. (new.link.ghost_name ≡ old.link.ghost_name)
        × GivesPiece (L.shown old.link.now) piece answer (L.shown new.link.now) };

    fn read(&mut self, room: &mut [u8]) -> (usize, SourceAnswer) {
        if !is_room(room.len()) {
            return (0, SourceAnswer::NoRoom);
        }
        match self.link.try_read(room) {
            Ok(Got::Bytes(count)) => (count, SourceAnswer::Bytes(count)),
            Ok(Got::Later) => (0, SourceAnswer::Later),
            Ok(Got::End) => (0, SourceAnswer::End),
            Err(LinkFault) => (0, SourceAnswer::Broken),
        }
    }
}

/// Returns whether a link may be lent room for this many bytes.
fn is_room(bytes: usize) -> bool
    ensures { IsTrue result → IsRoom bytes }
{
    0 < bytes && bytes <= LONGEST_PIECE
}
