//! Guests on the heap.
//!
//! A guest wakes and falls asleep by changing places in its row. So only a pointer is moved.
ghost use Rattle.std.specs.Prelude.{◌≡◌, IfOk, IfErr};
ghost use Rattle.mc_guests.specs.Guests.{newcomer};

use crate::guest::Guest;
use crate::metered::Metered;
use mc_links::Link;
use std::alloc::{AllocFailed, Global};
use std::marker::Model;

/// A guest on the heap. Contracts see the guest.
#[derive(Drop)]
pub struct GuestSeat<L: Link + Drop> {
    pub(crate) inner: Box<Metered<L>>,
}

impl<L: Link + Drop> Model for GuestSeat<L> {
    ghost use Rattle.mc_guests.specs.Guests.{RowGuest};

    ghost Value = { RowGuest };

    ghost view = { λ s. s.inner.value };
}

impl<L: Link + Drop> GuestSeat<L> {
    /// Puts a guest that holds nothing on the heap. Returns its link if memory is refused, which is
    /// recorded there.
    pub fn new(alloc: Global, guest: Guest<L>) -> Result<GuestSeat<L>, L>
        ensures seated { IfOk result (λ seat. seat ≡ newcomer guest) }
        ensures refused { IfErr result (λ link. L.shown link ≡ guest.link) }
    {
        match Box::new(alloc, Metered::new(guest)) {
            Ok(inner) => Ok(GuestSeat { inner }),
            Err(AllocFailed { mut value }) => {
                value.refuse();
                Err(value.into_link())
            }
        }
    }

    /// Returns the guest's link, and frees all else.
    pub fn into_link(self) -> L
        ensures { L.shown result ≡ self.guest.link }
    {
        let GuestSeat { inner } = self;
        Box::into_inner(inner).into_link()
    }
}
