//! Listens, and serves connections until the server ends.
//!
//! Each listener has a thread that accepts. Shutting a listener's socket down ends its wait, so no
//! thread polls. One descriptor is kept spare: it is freed to accept and close a connection when
//! the system has none left.
ghost use Rattle.std.specs.Prelude.{◌≡◌, [], IfOk, OnOk};
ghost use Rattle.mc_shared.specs.Past.{spent, start};
ghost use Rattle.mc_host.specs.Ends.{EndsListening};
ghost use Rattle.mc_run.specs.Served.{IsNewStore, HasServed, EndsServing};

use crate::client::StoreClient;
use crate::plan::{Bound, make_plan};
use crate::threads::serve;
use mc_hop::Fnv;
use mc_host::{Diagnostics, End, Level, ListenFault, Wanting, bind_needed, open_door};
use mc_options::Options;
use mc_session::ServeFault;
use mc_shared::{Caller, Shared};
use mc_time::Clock;
use std::alloc::{AllocError, AllocGlobal, Global};
use std::fs::Files;
use std::io::Write;
use std::net::Net;
use std::sync::Wait;
use std::thread::Threads;
use std::time;

/// Listens at the options' endpoints, and serves until a listener fails or it is asked to end.
///
/// Its workers' clocks stand at the options' moment, or are the system's clock. It answers scrapes
/// if that is an option. It ends at once if it can't listen at an endpoint, or memory is refused.
///
/// After it has served, the callers of all its threads are joined into one, whose past is whole.
/// Each worker's links are answered within this past.
pub fn listen<R, S>(rt: &R, diagnostics: Diagnostics, options: Options, system: &S) -> End
where
    R: Net + Files + AllocGlobal + Wait + Threads + time::Clock + Sync,
    S: Clock + Sync,
    ensures ends { EndsListening options.endpoints options.scrapes options.may_quit result }
    ensures serves { EndsServing options (S.may_give system.now) result }
{
    let door = match open_door(rt, rt.alloc(), options.scrapes) {
        Ok(door) => door,
        Err(end) => return end,
    };
    let listeners = match bind_needed(rt, &options.endpoints) {
        Ok(listeners) => listeners,
        Err(end) => return end,
    };
    if options.verbose && listeners.others.len() < options.endpoints.others.len() {
        tell_covered(diagnostics);
    }
    let endpoint = options.endpoints.first;
    match begin(rt, diagnostics, &options, Bound { listeners, door }, system) {
        Ok(true) if options.may_quit => End::Stopped,
        Ok(_) => End::Served(Err(ServeFault::Read)),
        Err(Wanting::Descriptor(why)) => End::CannotListen(ListenFault { endpoint, why }),
        Err(Wanting::Memory) => End::NoMemory,
        Err(Wanting::Thread) => End::NoThread,
    }
}

/// Writes that `::` accepts IPv4, too, and 0.0.0.0 has no listener of its own for that reason.
fn tell_covered(diagnostics: Diagnostics) {
    let Diagnostics { stderr, .. } = diagnostics;
    let level = diagnostics.prefix(Level::Info);
    // if standard error is closed the server runs all the same
    let _ = eprintln!(stderr;
        "{level}mcserver: :: accepts IPv4, too, so 0.0.0.0 at the same port needs no listener"
    );
}

/// Makes the store and serves. Returns whether the server was asked to end, or what was wanting.
fn begin<R, S>(
    rt: &R,
    diagnostics: Diagnostics,
    options: &Options,
    bound: Bound,
    system: &S,
) -> Result<bool, Wanting>
where
    R: Net + Files + AllocGlobal + Wait + Threads + time::Clock + Sync,
    S: Clock + Sync,
    ensures { OnOk result (HasServed options.entry.now (S.may_give system.now)) }
{
    let (shared, caller) = make_store(rt.alloc(), options)?;
    let client = StoreClient::new(&shared, caller);
    serve_over(rt, diagnostics, options, bound, client, system)
}

/// Makes the store that the options ask for, and its first caller. It is empty.
///
/// The only error is a refused allocation.
fn make_store(alloc: Global, options: &Options) -> Result<(Shared<Fnv>, Caller), AllocError>
    ensures new { IfOk result (λ made. IsNewStore options.entry.now made.0.began) }
    ensures caller { IfOk result (λ made. made.1.table ≡ made.0.table) }
    ensures first { IfOk result (λ made. made.1.past ≡ start [] spent) }
{
    Shared::new(alloc, options.settings, Fnv)
}

/// Serves over a new store, by its first caller. Returns whether the server was asked to end, or
/// what was wanting.
fn serve_over<R, S>(
    rt: &R,
    diagnostics: Diagnostics,
    options: &Options,
    bound: Bound,
    client: StoreClient<'_>,
    system: &S,
) -> Result<bool, Wanting>
where
    R: Net + Files + AllocGlobal + Wait + Threads + time::Clock + Sync,
    S: Clock + Sync,
    requires new { IsNewStore options.now client.began }
    requires first { client.past ≡ start [] spent }
    ensures { OnOk result (HasServed options.entry.now (S.may_give system.now)) }
{
    let (plan, common) = make_plan(rt, diagnostics, options, bound)?;
    let (_caller, served) = serve(rt, plan, client, &common, system);
    match served {
        Ok(()) => Ok(common.arrivals.is_over_as_asked()),
        Err(wanting) => Err(wanting),
    }
}
