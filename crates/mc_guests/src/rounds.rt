//! Rounds over guests.
ghost use Rattle.mc_guests.specs.Asks.{MakesRound};
ghost use Rattle.mc_guests.specs.Budgets.{RecountsAll};
ghost use Rattle.mc_guests.specs.Turns.{HaveTurns};
ghost use Rattle.mc_guests.specs.Visits.{GoesRound};

use crate::budget::Budget;
use crate::guest::Guest;
use crate::reports::Reports;
use crate::seat::GuestSeat;
use mc_links::Link;
use mc_protocol::Steps;
use mc_time::Moment;
use std::alloc::Global;

/// Visits each guest once, first to last, with the store as the one before left it.
///
/// Guests that have ended are unchanged. The answer of a visit is the guest's `last`.
pub fn round<L: Link + Drop, S: Steps>(
    alloc: Global,
    guests: &mut [Guest<L>],
    store: &mut S,
    now: Moment,
)
    ensures { GoesRound S.Steps now guests.old guests.new store.old store.new }
{
    for guest in guests.iter_mut() {
        guest.visit(alloc, store, now);
    }
}

/// Visits each guest once, first to last, within the budget.
///
/// A guest that wants much waits if the budget has no room for it.
pub(crate) fn round_within<L: Link + Drop, S: Reports>(
    alloc: Global,
    guests: &mut [GuestSeat<L>],
    store: &mut S,
    now: Moment,
    budget: &mut Budget,
)
    ensures round { MakesRound S.Steps now store.old store.new }
    ensures turns { HaveTurns S.Steps now guests.old guests.new store.old store.new budget.old
        budget.new }
    ensures counts { RecountsAll guests.old guests.new budget.old budget.new }
{
    for guest in guests.iter_mut() {
        guest.inner.visit(alloc, store, now, budget);
    }
}
