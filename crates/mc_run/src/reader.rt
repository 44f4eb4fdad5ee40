//! A client that reads counts of the store.
//!
//! The logger and the answers to scrapes lend it to code that knows the store by `StoreStats`
//! alone. It stays the same client whatever that code does: its type says so.
ghost use Rattle.std.specs.Prelude.{◌≡◌};
ghost use Rattle.mc_run.specs.Clients.{caller_of};

use crate::client::StoreClient;
use mc_metrics::TablesReading;
use mc_shared::Caller;
use mc_sizes::{Account, Class};
use mc_telemetry::StoreStats;
use std::marker::{Brand, Model, PhantomData};
use std::sync::Wait;

/// Which caller a reader has. A call picks it.
pub trait Origin {
    ghost use Rattle.mc_shared.specs.Shown.{CallerState};

    ghost caller: { CallerState };
}

impl Origin for Brand {
    ghost use Rattle.std.specs.Prelude.{[]};
    ghost use Rattle.mc_shared.specs.Past.{spent};

    ghost caller = { record {
      table = record {
        words = 0;
        slots = 0;
        views_name = 0;
        atom = 0;
        block = 0;
        offset = 0;
        slot_names = [];
      };
      past = spent;
    } };
}

/// A client that only reads counts.
#[derive(Drop)]
pub struct Reader<'a, B: Origin> {
    client: StoreClient<'a>,
    of: PhantomData<B>,
}

impl<'a, B: Origin> Model for Reader<'a, B> {
    ghost use Rattle.std.specs.Prelude.{◌≡◌};
    ghost use Rattle.mc_run.specs.Clients.{ClientState, coded_client, caller_of};

    ghost Value = { ClientState };

    ghost coded = { coded_client };

    ghost view = { λ r. r.client };

    ghost invariant = { λ r. caller_of r.client ≡ B.caller };
}

impl<'a, B: Origin> Reader<'a, B> {
    /// Returns a reader by this client.
    pub fn new(client: StoreClient<'a>) -> Reader<'a, B>
        requires { caller_of client ≡ B.caller }
    {
        Reader {
            client,
            of: PhantomData,
        }
    }

    /// Returns the caller.
    pub fn into_caller(self) -> Caller
        ensures { result ≡ B.caller }
    {
        let Reader { client, .. } = self;
        let (_, caller) = client.into_parts();
        caller
    }
}

impl<B: Origin> StoreStats for Reader<'_, B> {
    fn shelves(&self) -> u32 {
        self.client.shelves()
    }

    fn tables<R: Wait>(&mut self, rt: &R) -> TablesReading {
        self.client.tables(rt)
    }

    fn account<R: Wait>(&mut self, rt: &R, class: Class) -> Account {
        self.client.account(rt, class)
    }
}
