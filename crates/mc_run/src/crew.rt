//! The callers of the server's threads, and how they meet again.
//!
//! A worker's thread promises what it did with its caller, and gives the caller back. When the
//! threads have ended, all callers are joined into one. So its past has every call of the server.
ghost use Rattle.std.specs.Prelude.{◌≡◌, ◌++◌, ◌∷◌, [], OnOk, OnErr};
ghost use Rattle.mc_shared.specs.History.{start_of};
ghost use Rattle.mc_shared.specs.Steps.{Agrees};
ghost use Rattle.mc_run.specs.Runs.{hash_of};
ghost use Rattle.mc_run.specs.Clients.{joined};
ghost use Rattle.mc_run.specs.Meetings.{IsCrew, JoinsThese};

use crate::client::StoreClient;
use crate::plan::WorkerPlan;
use mc_hop::Fnv;
use mc_host::Wanting;
use mc_shared::{Caller, Shared};
use mc_time::Clock;
use mc_workers::WorkEnd;
use std::snapshot::Snapshot;
use std::thread::{Promise, PromisedHandle, Threads};

/// What a worker's thread promises: it served links by its plan, with this caller of the store.
#[derive(Drop)]
pub struct WorkerPromise<S: Clock> {
    pub plan: Snapshot<WorkerPlan>,
    pub shared: Snapshot<Shared<Fnv>>,
    pub caller: Snapshot<Caller>,
    pub system: Snapshot<S>,
}

impl<S: Clock> Promise<(Caller, WorkEnd)> for WorkerPromise<S> {
    ghost use Rattle.mc_run.specs.Meetings.{HasWorked};

    ghost kept_by = { λ p r. HasWorked (S.may_give p.system.value) p.plan.value
        p.shared.value.began p.caller.value r };
}

/// What the logger's thread promises: it gives this caller back as it was.
#[derive(Drop)]
pub struct ReaderPromise(pub Snapshot<Caller>);

impl Promise<Caller> for ReaderPromise {
    ghost use Rattle.std.specs.Prelude.{◌≡◌};

    ghost kept_by = { λ p r. r ≡ p.0.value };
}

/// The thread of a worker.
pub type WorkerThread<S> = PromisedHandle<(Caller, WorkEnd), WorkerPromise<S>>;

/// The thread of the logger.
pub type ReaderThread = PromisedHandle<Caller, ReaderPromise>;

/// The client that made the workers' callers, and their threads.
#[derive(Drop)]
pub struct Crew<'c, S: Clock> {
    pub client: StoreClient<'c>,
    pub workers: Vec<WorkerThread<S>>,
}

impl<'c, S: Clock> Crew<'c, S> {
    /// Adds a worker's thread. If memory is refused, the thread can't be joined.
    pub fn add(&mut self, thread: WorkerThread<S>) -> Result<(), Wanting>
        ensures same { self.new.client ≡ self.old.client }
        ensures added { OnOk result
            (self.new.workers.items ≡ self.old.workers.items ++ thread ∷ []) }
        ensures refused { OnErr result (self.new.workers.items ≡ self.old.workers.items) }
    {
        match self.workers.push(thread) {
            Ok(()) => Ok(()),
            Err(_) => Err(Wanting::Memory),
        }
    }
}

/// Waits for the workers' threads, and joins their callers into the client.
pub fn join_workers<'c, R: Threads, S: Clock>(
    rt: &R,
    crew: Crew<'c, S>,
    system: &S,
) -> StoreClient<'c>
    requires { (plans : _) × (rest : _) × (client : _)
        × IsCrew system.now plans rest client crew }
    ensures { JoinsThese (S.may_give system.now) crew.entry.workers.items crew.entry.client
        result }
{
    let Crew { client, workers } = crew;
    let mut client = client;
    for thread in workers {
        let (caller, _end) = thread.join(rt);
        client.join(caller);
    }
    client
}

/// Joins the callers of the logger and of the metrics server into the client.
pub fn join_readers<'c>(client: StoreClient<'c>, logger: Caller, stats: Caller) -> StoreClient<'c>
    requires logger { logger.table ≡ client.table }
    requires stats { stats.table ≡ client.table }
    ensures joined { result ≡ joined (joined client.entry logger) stats }
    ensures agrees { Agrees (start_of hash_of result.began) result.past }
{
    let mut client = client;
    client.join(logger);
    client.join(stats);
    client
}
