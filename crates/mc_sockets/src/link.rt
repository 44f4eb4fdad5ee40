//! Links over sockets.
//!
//! A socket's link shows no bytes to contracts: the system's calls return counts only. Contracts
//! see how often it failed, whether it is at its end, and what is gathered for it.
ghost use Rattle.std.specs.Prelude.{◌≡◌};
ghost use Rattle.mc_sockets.specs.Offers.{OffersAll};

use crate::channel::{ScreenedChannel, SocketChannel};
use crate::screen::Screen;
use crate::yard::{SocketYard, offer_all};
use mc_links::{Gathering, Got, Link, LinkFault, Took};
use std::alloc::{AllocFailed, Global};
use std::cell::RefCell;
use std::rc::Rc;

/// A link over a socket, which gathers output. It lies on the heap, so that only a pointer is
/// moved.
///
/// When it is dropped, output that the system doesn't take at once stays in the yard.
#[derive(Drop)]
pub struct SocketLink {
    parts: Box<LinkParts>,
}

/// What a link has on the heap.
struct LinkParts {
    gathering: Gathering<ScreenedChannel>,
    place: usize,
    yard: Rc<RefCell<SocketYard>>,
}

impl SocketLink {
    /// Returns the link of a channel with this place among those of its worker. Returns `None` if
    /// memory is refused; the channel is then closed.
    pub(crate) fn new(
        alloc: Global,
        channel: SocketChannel,
        place: usize,
        yard: Rc<RefCell<SocketYard>>,
    ) -> Option<SocketLink> {
        let parts = LinkParts {
            gathering: Gathering::new(alloc, Screen::new(channel)),
            place,
            yard,
        };
        match Box::new(alloc, parts) {
            Ok(parts) => Some(SocketLink { parts }),
            Err(AllocFailed { mut value }) => {
                value.gathering.refused();
                None
            }
        }
    }
}

impl Link for SocketLink {
    ghost use Rattle.std.specs.Prelude.{◌-◌, ◌^◌, OnOk};
    ghost use Rattle.mc_links.specs.Gathered.{whole};
    ghost use Rattle.mc_links.specs.Links.{Pauses};
    ghost use Rattle.mc_sockets.specs.Offers.{IsOffered};

    ghost shown = { λ s. whole s.parts.value.gathering };

    fn try_read(&mut self, piece: &mut [u8]) -> Result<Got, LinkFault> {
        self.parts.gathering.try_read(piece)
    }

    fn try_write(&mut self, bytes: &[u8]) -> Result<Took, LinkFault> {
        self.parts.gathering.try_write(bytes)
    }

    fn try_write_all(
        &mut self,
        first: &[u8],
        second: &[u8],
        third: &[u8],
    ) -> Result<Took, LinkFault> {
        self.parts.gathering.try_write_all(first, second, third)
    }

    /// Sends what is gathered, as far as the system takes it, and pauses its channel.
    fn pause(&mut self) -> Result<(), LinkFault>
        ensures pauses { Pauses (whole self.old.parts.value.gathering) result
            (whole self.new.parts.value.gathering) }
        ensures offered { (self.old.parts.value.gathering.link.faults ≡ 2 ^ 64 - 1 → ⊥) →
            OnOk result (IsOffered self.new.parts.value.gathering) }
    {
        self.parts.gathering.pause()
    }

    fn send_soon(&mut self) {
        self.parts.gathering.send_soon();
    }

    fn refused(&mut self) {
        self.parts.gathering.refused();
    }

    fn faults(&self) -> u64 {
        self.parts.gathering.faults()
    }

    fn capacity(&self) -> usize {
        self.parts.gathering.capacity()
    }
}

impl Drop for LinkParts {
    fn drop(mut self) {
        offer_rest(&mut self.gathering);
        let LinkParts {
            gathering,
            place,
            yard,
        } = self;
        if let Ok(mut yard) = yard.try_borrow_mut() {
            // without memory it is closed
            let _ = yard.take_in(place, gathering);
        }
    }
}

/// Offers the link below what is gathered for it, unless it failed.
fn offer_rest<L: Link + Drop>(gathering: &mut Gathering<L>)
    ensures offers { gathering.old.link.faults ≡ 0 → OffersAll gathering.old gathering.new }
    ensures failed { (gathering.old.link.faults ≡ 0 → ⊥) → gathering.new ≡ gathering.old }
{
    if gathering.faults() == 0 {
        offer_all(gathering);
    }
}
