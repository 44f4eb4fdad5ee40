//! A store with its one caller, and rows of calls with their results.
//!
//! If memory is refused the call of a row is made again.

ghost use Rattle.std.specs.Prelude.{◌≡◌, refl};

use crate::asked::taken;
use crate::stores::{SOME, closed, empty_store, last_store, shared_store};
use mc_hop::{Fnv, KeyHash};
use mc_protocol::{KeyStep, Reply, StepFault, Steps, Verb};
use mc_shared::{Caller, Shared};
use mc_shelf::{Settings, Store};
use mc_testing::{Ask, told_of};
use mc_time::Moment;
use std::alloc::{AllocError, Global};
use std::marker::Model;
use std::sync::Wait;

/// A call for a key.
#[derive(Clone, Copy)]
pub(crate) enum Act {
    /// Whether `absent` reports the key.
    Absent(bool),
    /// A step, and the name of its reply.
    Told(Ask<'static>, &'static str),
    /// A purge of the key's shelf.
    Tidy,
}

/// A set that is stored.
pub(crate) const SET: Act = Act::Told(Ask::Store(Verb::Set, 0, b"x"), "stored");

/// The same with the exptime 5, and with 10.
pub(crate) const SET_FOR_5: Act = Act::Told(Ask::Store(Verb::Set, 5, b"x"), "stored");

pub(crate) const SET_FOR_10: Act = Act::Told(Ask::Store(Verb::Set, 10, b"x"), "stored");

/// A delete of an item that is there.
pub(crate) const DELETE: Act = Act::Told(Ask::Delete, "deleted");

/// A flush. The key of its row is ignored.
pub(crate) const FLUSH: Act = Act::Told(Ask::Flush(0), "flushed");

/// The second, the key and the call.
pub(crate) type Row = (u64, &'static [u8], Act);

/// A store with its one caller. Contracts see which store it is.
#[derive(Drop)]
pub(crate) struct Sole<'a, R: Wait, K: KeyHash + Drop> {
    pub(crate) rt: &'a R,
    pub(crate) shared: Shared<K>,
    pub(crate) caller: Caller,
}

impl<'a, R: Wait, K: KeyHash + Drop> Model for Sole<'a, R, K> {
    ghost use Rattle.std.specs.Prelude.{◌≡◌};
    ghost use Rattle.atomic_table.specs.Seated.{TableId, table_id_coded};

    ghost Value = { TableId };

    ghost coded = { table_id_coded };

    ghost view = { λ t. t.caller.table };

    ghost invariant = { λ t. t.caller.table ≡ t.shared.table };
}

impl<'a, R: Wait, K: KeyHash + Drop + Copy> Sole<'a, R, K> {
    /// Returns an empty store with these settings.
    pub(crate) fn open(
        rt: &'a R,
        alloc: Global,
        settings: Settings,
        hasher: K,
    ) -> Result<Sole<'a, R, K>, AllocError> {
        let (shared, caller) = empty_store(alloc, settings, hasher)?;
        Ok(Sole { rt, shared, caller })
    }
}

impl<'a, R: Wait> Sole<'a, R, Fnv> {
    /// Returns a store with `a` and `k`, set at 1000 to `x` and `y`, and its first caller.
    pub(crate) fn filled(rt: &'a R, alloc: Global) -> Result<Sole<'a, R, Fnv>, StepFault> {
        Sole::filled_with(rt, alloc, SOME)
    }

    /// Returns the same for a store with these settings.
    pub(crate) fn filled_with(
        rt: &'a R,
        alloc: Global,
        settings: Settings,
    ) -> Result<Sole<'a, R, Fnv>, StepFault> {
        let (shared, caller) = shared_store(alloc, settings)?;
        Ok(Sole { rt, shared, caller })
    }

    /// Returns an empty store with one unique number left, and its first caller.
    pub(crate) fn at_the_last_number(
        rt: &'a R,
        alloc: Global,
    ) -> Result<Sole<'a, R, Fnv>, AllocError> {
        let (shared, caller) = match Shared::over(alloc, last_store(alloc)?) {
            Err(_) => Shared::over(alloc, last_store(alloc)?)?,
            Ok(made) => made,
        };
        Ok(Sole { rt, shared, caller })
    }

    /// Goes on with a caller that its caller makes, and drops the maker.
    pub(crate) fn passed_on(self) -> Sole<'a, R, Fnv> {
        let Sole {
            rt,
            shared,
            mut caller,
        } = self;
        let made = shared.caller(&mut caller);
        Sole {
            rt,
            shared,
            caller: made,
        }
    }

    /// Closes the store.
    pub(crate) fn into_store(self, alloc: Global) -> Option<Store<Fnv>> {
        let Sole { shared, caller, .. } = self;
        closed(shared, alloc, caller)
    }
}

impl<'a, R: Wait, K: KeyHash + Drop> Steps for Sole<'a, R, K> {
    ghost took = { λ old step now reply new. new ≡ old };

    ghost spent = { λ old step now. old ≡ old };

    ghost same = { λ old new. new ≡ old };

    ghost holds_itself = { λ _. refl };

    fn step(&mut self, alloc: Global, step: &KeyStep<'_>, now: Moment) -> Result<Reply, StepFault> {
        let Sole { rt, shared, caller } = self;
        shared.step(*rt, alloc, caller, step, now)
    }
}

impl<'a, R: Wait, K: KeyHash + Drop> Sole<'a, R, K> {
    /// Sets a key at 1000, and returns the name of the reply.
    pub(crate) fn set(&mut self, alloc: Global, key: &[u8], block: &[u8]) -> &'static str {
        let now = Moment::from_seconds_at_most(1000);
        told_of(&taken(self, alloc, key, Ask::Store(Verb::Set, 0, block), now))
    }

    /// Returns whether a key is reported absent.
    pub(crate) fn is_absent(&mut self, key: &[u8], now: Moment) -> bool {
        let Sole { shared, caller, .. } = self;
        shared.absent(caller, key, now)
    }

    /// Drops the dead items of a key's shelf.
    fn tidy(&mut self, key: &[u8], now: Moment) {
        let Sole { rt, shared, caller } = self;
        let shelf = shared.shelf_of(key);
        shared.tidy(*rt, caller, shelf, now);
    }

    /// Returns whether a row has the expected result.
    pub(crate) fn is_told(&mut self, alloc: Global, row: &Row) -> bool {
        let (seconds, key, act) = *row;
        let now = Moment::from_seconds_at_most(seconds);
        match act {
            Act::Absent(want) => self.is_absent(key, now) == want,
            Act::Told(ask, want) => told_of(&taken(self, alloc, key, ask, now)) == want,
            Act::Tidy => {
                self.tidy(key, now);
                true
            }
        }
    }

    /// Returns the first row with an unexpected result.
    pub(crate) fn first_untold(&mut self, alloc: Global, rows: &[Row]) -> Option<usize> {
        for (at, row) in rows.iter().enumerate() {
            if !self.is_told(alloc, row) {
                return Some(at);
            }
        }
        None
    }
}
