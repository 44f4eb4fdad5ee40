//! The moment before which none of a shelf's items is dead.
//!
//! A shelf keeps the soonest expiry and the soonest write of its items. Before these nothing is
//! dead, so a purge is skipped. Writes only lower them, deletes leave them, and a purge computes
//! them again. They are private: no contract mentions them.

ghost use Rattle.std.specs.Prelude.{◌≡◌, ℕ, ◌≤◌, Some, true};
ghost use Rattle.mc_time.specs.Death.{is_dead, is_expired};
ghost use Rattle.mc_protocol.specs.Plain.{Entry as Item};
ghost use Rattle.mc_shelf.specs.Plans.{item_in};
ghost use Rattle.mc_shelf.specs.Deaths.{DiesNoSooner};

use crate::entry::Entry;
use mc_protocol::Standing;
use mc_time::{Expiry, Moment, is_dead};

/// Bounds over a set of items: none expires before `expiry`, and none was written before `updated`.
///
/// As long as an item with exactly these two would be alive, all of them are.
#[derive(Clone, Copy)]
pub(crate) struct Soonest {
    /// The soonest expiry.
    expiry: Expiry,
    /// The soonest moment of a write.
    updated: Moment,
}

impl Soonest {
    /// Returns the bounds of no items.
    pub(crate) fn empty() -> Soonest {
        Soonest {
            expiry: Expiry::Never,
            updated: Moment::from_seconds(Moment::LATEST),
        }
    }

    /// Returns the bounds with one item more.
    pub(crate) fn with(self, expiry: Expiry, updated: Moment) -> Soonest
        ensures one { (item : Item) → item.expiry ≡ expiry → item.updated ≡ updated →
            DiesNoSooner result item }
        ensures others { (item : Item) → DiesNoSooner self item → DiesNoSooner result item }
    {
        Soonest {
            expiry: sooner(self.expiry, expiry),
            updated: earlier(self.updated, updated),
        }
    }

    /// Changes the bounds to those with one item more.
    ///
    /// It writes them only if they change: what isn't written stays in the caches of all
    /// processors.
    pub(crate) fn note(&mut self, expiry: Expiry, updated: Moment)
        ensures one { (item : Item) → item.expiry ≡ expiry → item.updated ≡ updated →
            DiesNoSooner self.new item }
        ensures others { (item : Item) → DiesNoSooner self.old item → DiesNoSooner self.new item }
    {
        let lowered = self.with(expiry, updated);
        if !self.is(&lowered) {
            *self = lowered;
        }
    }

    /// Returns whether these are the same bounds.
    fn is(&self, other: &Soonest) -> bool
        ensures { result ≡ true → self.now ≡ other.now }
    {
        self.expiry == other.expiry && self.updated.seconds() == other.updated.seconds()
    }

    /// Returns the bounds after one of the items gets this expiry.
    pub(crate) fn with_expiry(self, expiry: Expiry) -> Soonest
        ensures one { (item : Item) → DiesNoSooner self item →
            DiesNoSooner result (record item { expiry = expiry }) }
        ensures others { (item : Item) → DiesNoSooner self item → DiesNoSooner result item }
    {
        Soonest {
            expiry: sooner(self.expiry, expiry),
            updated: self.updated,
        }
    }

    /// Returns the bounds with the item that was found, if one was.
    pub(crate) fn with_found(self, found: Option<&Entry>) -> Soonest
        ensures found { (item : Item) → item_in found.entry ≡ Some item → DiesNoSooner result item }
        ensures others { (item : Item) → DiesNoSooner self item → DiesNoSooner result item }
    {
        match found {
            None => self,
            Some(entry) => self.with(entry.expiry(), entry.updated_at()),
        }
    }

    /// Returns whether one of the items may be dead at a moment, with a flush at `cut`.
    pub(crate) fn may_be_dead(self, cut: Option<u64>, now: Moment) -> bool
        ensures { result ≡ is_dead self.expiry self.updated cut now }
    {
        is_dead(self.expiry, self.updated, cut, now)
    }
}

/// Returns the expiry that comes first.
fn sooner(one: Expiry, other: Expiry) -> Expiry
    ensures one { (now : ℕ) → is_expired one now ≡ true → is_expired result now ≡ true }
    ensures other { (now : ℕ) → is_expired other now ≡ true → is_expired result now ≡ true }
{
    match (one, other) {
        (Expiry::Never, expiry) | (expiry, Expiry::Never) => expiry,
        (Expiry::At(one), Expiry::At(other)) => Expiry::At(one.min(other)),
    }
}

/// Returns the earlier moment.
fn earlier(one: Moment, other: Moment) -> Moment
    ensures one { result ≤ one }
    ensures other { result ≤ other }
{
    if one.seconds() < other.seconds() {
        one
    } else {
        other
    }
}
