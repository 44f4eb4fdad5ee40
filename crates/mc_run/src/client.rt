//! A caller with its store.
//!
//! A thread's caller and its store are one value whose invariant ties them, so closures and loops
//! that pass callers on need no clauses.
ghost use Rattle.std.specs.Prelude.{◌≡◌};
ghost use Rattle.mc_shared.specs.History.{start_of};
ghost use Rattle.mc_shared.specs.Steps.{Agrees};
ghost use Rattle.mc_run.specs.Runs.{hash_of};
ghost use Rattle.mc_run.specs.Clients.{caller_of, client_of, maker, newcomer, joined};

use mc_hop::Fnv;
use mc_metrics::TablesReading;
use mc_shared::{Caller, Shared};
use mc_sizes::{Account, Class};
use std::marker::Model;
use std::sync::Wait;

/// The homes of a shelf's first table. Each growth doubles them.
const FIRST_HOMES: u64 = 64;

/// A caller of a store, with the store. Contracts see what the store began with, which store it is,
/// and the caller's past.
#[derive(Drop)]
pub struct StoreClient<'a> {
    shared: &'a Shared<Fnv>,
    caller: Caller,
}

impl<'a> Model for StoreClient<'a> {
    ghost use Rattle.std.specs.Prelude.{◌≡◌};
    ghost use Rattle.mc_run.specs.Clients.{ClientState, client_of, coded_client};

    ghost Value = { ClientState };

    ghost coded = { coded_client };

    ghost view = { λ a. client_of a.shared.now.began a.caller };

    ghost invariant = { λ a. a.caller.table ≡ a.shared.now.table };
}

impl<'a> StoreClient<'a> {
    /// Returns a client over this store and one of its callers.
    pub fn new(shared: &'a Shared<Fnv>, caller: Caller) -> StoreClient<'a>
        requires { caller.table ≡ shared.now.table }
        ensures { result ≡ client_of shared.entry.now.began caller }
    {
        StoreClient { shared, caller }
    }

    /// Takes the client apart.
    pub fn into_parts(self) -> (&'a Shared<Fnv>, Caller)
        ensures began { result.0.now.began ≡ self.entry.began }
        ensures table { result.0.now.table ≡ self.entry.table }
        ensures caller { result.1 ≡ caller_of self.entry }
    {
        let StoreClient { shared, caller } = self;
        (shared, caller)
    }

    /// Returns the store.
    pub fn store(&self) -> &'a Shared<Fnv>
        ensures began { result.now.began ≡ self.now.began }
        ensures table { result.now.table ≡ self.now.table }
    {
        self.shared
    }

    /// Makes another caller of the same store. It takes no memory.
    pub fn caller(&mut self) -> Caller
        ensures caller { result ≡ newcomer self.old }
        ensures maker { self.new ≡ maker self.old }
        ensures agrees { Agrees (start_of hash_of self.new.began) self.new.past }
    {
        self.shared.caller(&mut self.caller)
    }

    /// Joins a caller of the same store into the client's. It takes no memory.
    pub fn join(&mut self, other: Caller)
        requires { other.table ≡ self.old.table }
        ensures joined { self.new ≡ joined self.old other }
        ensures agrees { Agrees (start_of hash_of self.new.began) self.new.past }
    {
        self.shared.join(&mut self.caller, other);
    }

    /// Returns the number of shelves.
    pub fn shelves(&self) -> u32
        ensures { result ≡ self.now.began.settings.shelves }
    {
        self.shared.shelves()
    }

    /// Returns what the tables of all shelves hold.
    pub fn tables<R: Wait>(&mut self, rt: &R) -> TablesReading
        ensures { self.new ≡ self.old }
    {
        let mut tables = TablesReading::NONE;
        for shelf in 0..self.shared.shelves() {
            tables = tables.with(self.table_of(rt, shelf));
        }
        tables
    }

    /// Returns the pages of a class, and how many of its chunks items use.
    pub fn account<R: Wait>(&mut self, rt: &R, class: Class) -> Account
        ensures { self.new ≡ self.old }
    {
        self.shared.account(rt, &mut self.caller, class)
    }

    /// Returns what the table of a shelf holds; nothing if there is no such shelf.
    fn table_of<R: Wait>(&mut self, rt: &R, shelf: u32) -> TablesReading
        ensures { self.new ≡ self.old }
    {
        if shelf >= self.shared.shelves() {
            return TablesReading::NONE;
        }
        let counts = self.shared.shelf_counts(rt, &mut self.caller, shelf);
        let reclaimed = self.shared.reclaimed(rt, &mut self.caller, shelf);
        TablesReading {
            items: counts.items,
            homes: counts.homes,
            growths: u64::from((counts.homes / FIRST_HOMES).trailing_zeros()),
            running: u64::from(counts.growing),
            left: counts.left,
            strays: counts.strays,
            reclaimed,
        }
    }
}
