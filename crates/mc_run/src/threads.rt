//! The threads of the server.
//!
//! Each listener has a thread that accepts, each worker has one, and one writes to standard error.
//! The program's own thread accepts at the first listener. If scrapes are asked for it answers them
//! instead, because it alone may read the files with the figures of the process. The metrics server
//! and the logger read the store by clients of their own. If one thread can't be started, the
//! server ends, and those that run end with it.
//!
//! The callers of all threads are made by one client, and are joined into it when the threads have
//! ended (`crew.rt`).
ghost use Rattle.std.specs.Prelude.{◌≡◌, IfOk, IfErr, OnOk, []};
ghost use Rattle.mc_shared.specs.History.{start_of};
ghost use Rattle.mc_shared.specs.Steps.{Agrees};
ghost use Rattle.mc_run.specs.Runs.{hash_of};
ghost use Rattle.mc_run.specs.Clients.{caller_of, newcomer, maker};
ghost use Rattle.mc_run.specs.Meetings.{HasWorked, StartsOne, StartsNone, IsCrew, IsOwed, Meet};

use crate::client::StoreClient;
use crate::clock::SharedClock;
use crate::crew::{Crew, ReaderPromise, ReaderThread, WorkerPromise, join_readers, join_workers};
use crate::plan::{
    Common, Entrance, LoggerTask, OwnTask, ServerPlan, ThreadPlan, ThreadTasks, WorkerPlan,
};
use crate::reader::{Origin, Reader};
use mc_host::{AskedClock, Wanting};
use mc_options::Options;
use mc_shared::Caller;
use mc_sockets::{
    ClosingLinks, ConnectionLimit, Poller, ShortageTally, SocketLinks, accept_all, accept_beside,
};
use mc_telemetry::{ErrorOutput, MetricsServer, StartLines, WorkerTally, write_lines};
use mc_time::Clock;
use mc_workers::{NoGate, WorkEnd, Worker};
use std::alloc::{AllocError, AllocGlobal};
use std::fs::Files;
use std::marker::Brand;
use std::net::TcpListener;
use std::snapshot::Snapshot;
use std::sync::{Arc, Wait};
use std::thread::{self, Builder, Scope, Threads};
use std::time;

/// The name of the thread that writes to standard error.
const LOGGER: &[u8] = b"logger";

/// Serves connections until no more are accepted. Returns the client's caller, and what was wanting
/// if a thread couldn't be started.
///
/// The callers of the workers are joined into the one that comes back. If each thread was started,
/// so are those of the logger and of the metrics server, and no caller is missing.
pub fn serve<R, S>(
    rt: &R,
    plan: ServerPlan<'_>,
    client: StoreClient<'_>,
    common: &Common,
    system: &S,
) -> (Caller, Result<(), Wanting>)
where
    R: Files + AllocGlobal + Wait + Threads + time::Clock + Sync,
    S: Clock + Sync,
    ensures { Meet (S.may_give system.now) plan.entry.threads.tasks.workers.items client.entry.began
        (caller_of client.entry) result }
{
    let (shared, caller) = client.into_parts();
    let ServerPlan { own, threads } = plan;
    let ThreadPlan { tasks, options } = threads;
    // a closure that holds a struct with references would have no contract
    thread::scope(
        thread::scope_env(),
        rt,
        move |scope| -> (Caller, Result<(), Wanting>)
            requires { caller.table ≡ shared.now.table }
            ensures { Meet (S.may_give system.entry.now) tasks.workers.items
                shared.entry.now.began caller result }
        {
            let threads = ThreadPlan { tasks, options };
            let plan = ServerPlan { own, threads };
            let client = StoreClient::new(shared, caller);
            serve_in(scope, rt, plan, client, common, system)
        },
    )
}

/// Starts all threads, does what the program's own thread does, and joins the callers.
fn serve_in<'s, 'a: 's, 'b: 's, 'c: 's, 'd: 's, 'e: 's, E, R, S>(
    scope: &Scope<'s, E>,
    rt: &'a R,
    plan: ServerPlan<'b>,
    client: StoreClient<'c>,
    common: &'d Common,
    system: &'e S,
) -> (Caller, Result<(), Wanting>)
where
    R: Files + AllocGlobal + Wait + Threads + time::Clock + Sync,
    S: Clock + Sync,
    ensures { Meet (S.may_give system.entry.now) plan.entry.threads.tasks.workers.items
        client.entry.began (caller_of client.entry) result }
{
    let ServerPlan { own, threads } = plan;
    let mut client = client;
    let stats = client.caller();
    let shared = client.store();
    let (crew, started) = start_all(scope, rt, threads, client, common, system);
    match started {
        Ok(logger) => {
            let stats = run_own(rt, own, StoreClient::new(shared, stats), common);
            common.log.leave();
            let client = join_workers(rt, crew, system);
            let client = join_readers(client, logger.join(rt), stats);
            (client.into_parts().1, Ok(()))
        }
        Err(wanting) => {
            common.arrivals.end();
            let client = join_workers(rt, crew, system);
            (client.into_parts().1, Err(wanting))
        }
    }
}

/// Does what the program's own thread does, until no more connections are accepted. Returns the
/// client's caller as it was.
fn run_own<R: Files + AllocGlobal + Wait + time::Clock>(
    rt: &R,
    own: OwnTask,
    client: StoreClient<'_>,
    common: &Common,
) -> Caller
    ensures { result ≡ caller_of client.entry }
{
    match own {
        OwnTask::Accept(Entrance { listener, crowd }) => {
            accept_all(rt, listener, crowd, &common.arrivals);
            let (_, caller) = client.into_parts();
            caller
        }
        OwnTask::AnswerScrapes(server) => { answer_scrapes::<Brand, R>(rt, server, client, common) }
    }
}

/// Starts all threads but the program's own. The logger's is returned, and the workers' are in the
/// crew.
fn start_all<'s, 'a: 's, 'b: 's, 'c: 's, 'd: 's, 'e: 's, E, R, S>(
    scope: &Scope<'s, E>,
    rt: &'a R,
    plan: ThreadPlan<'b>,
    client: StoreClient<'c>,
    common: &'d Common,
    system: &'e S,
) -> (Crew<'c, S>, Result<ReaderThread, Wanting>)
where
    R: AllocGlobal + Wait + Threads + time::Clock + Sync,
    S: Clock + Sync,
    ensures some { (rest : _) × IsCrew system.entry.now plan.entry.tasks.workers.items rest
        (maker client.entry) result.0 }
    ensures all { OnOk result.1 (IsCrew system.entry.now plan.entry.tasks.workers.items []
        (maker client.entry) result.0 × IsOwed (maker client.entry) result.0) }
    ensures logger { IfOk result.1 (λ thread. thread.promise.0.value ≡ newcomer client.entry) }
{
    let ThreadPlan { tasks, options } = plan;
    let ThreadTasks {
        workers,
        first,
        listeners,
        crowd,
        logger: task,
    } = tasks;
    let mut client = client;
    let logger = client.caller();
    let logger = StoreClient::new(client.store(), logger);
    let (crew, started) = start_workers(scope, rt, workers, client, common, system);
    if let Err(wanting) = started {
        return (crew, Err(wanting));
    }
    if let Err(wanting) = start_accepting(scope, rt, first, listeners, &crowd, common) {
        return (crew, Err(wanting));
    }
    (crew, start_logger(scope, rt, options, task, logger, common))
}

/// Starts a thread for each listener at which the program's own thread doesn't accept.
fn start_accepting<'s, 'a: 's, 'd: 's, E, R>(
    scope: &Scope<'s, E>,
    rt: &'a R,
    first: Option<Entrance>,
    listeners: Vec<TcpListener>,
    crowd: &Arc<ConnectionLimit>,
    common: &'d Common,
) -> Result<(), Wanting>
where
    R: AllocGlobal + Wait + Threads + time::Clock + Sync,
{
    start_first(scope, rt, first, common)?;
    start_acceptors(scope, rt, listeners, crowd, common)
}

/// Starts a thread for each worker, until one can't be started.
fn start_workers<'s, 'a: 's, 'c: 's, 'd: 's, 'e: 's, E, R, S>(
    scope: &Scope<'s, E>,
    rt: &'a R,
    plans: Vec<WorkerPlan>,
    client: StoreClient<'c>,
    common: &'d Common,
    system: &'e S,
) -> (Crew<'c, S>, Result<(), Wanting>)
where
    R: AllocGlobal + Wait + Threads + time::Clock + Sync,
    S: Clock + Sync,
    requires { Agrees (start_of hash_of client.began) client.past }
    ensures some { (rest : _) × IsCrew system.entry.now plans.items rest client.entry result.0 }
    ensures all { OnOk result.1 (IsCrew system.entry.now plans.items [] client.entry result.0
        × IsOwed client.entry result.0) }
{
    let mut crew = Crew {
        client,
        workers: Vec::new(rt.alloc()),
    };
    for plan in plans {
        if let Err(wanting) = start_worker(scope, rt, plan, &mut crew, common, system) {
            return (crew, Err(wanting));
        }
    }
    (crew, Ok(()))
}

/// Starts the thread of a worker, with a new caller.
fn start_worker<'s, 'a: 's, 'c: 's, 'd: 's, 'e: 's, E, R, S>(
    scope: &Scope<'s, E>,
    rt: &'a R,
    plan: WorkerPlan,
    crew: &mut Crew<'c, S>,
    common: &'d Common,
    system: &'e S,
) -> Result<(), Wanting>
where
    R: AllocGlobal + Wait + Threads + time::Clock + Sync,
    S: Clock + Sync,
    ensures started { OnOk result (StartsOne system.entry.now plan crew.old crew.new) }
    ensures refused { IfErr result (λ _. StartsNone crew.old crew.new) }
{
    let caller = crew.client.caller();
    let shared = crew.client.store();
    let promise = WorkerPromise {
        plan: Snapshot::of(&plan),
        shared: Snapshot::of(shared),
        caller: Snapshot::of(&caller),
        system: Snapshot::of(system),
    };
    common.log.enter();
    let working = move || -> (Caller, WorkEnd)
        requires { caller.table ≡ shared.now.table }
        ensures { HasWorked (S.may_give system.entry.now) plan shared.entry.now.began caller
            result }
    {
        let back = run_worker(rt, plan, StoreClient::new(shared, caller), common, system);
        common.log.leave();
        back
    };
    match scope.spawn_with(promise, working) {
        Ok(thread) => crew.add(thread),
        Err(_refused) => Err(Wanting::Thread),
    }
}

/// Starts a thread for the first listener, unless the program's own thread accepts there.
fn start_first<'s, 'a: 's, 'd: 's, E, R>(
    scope: &Scope<'s, E>,
    rt: &'a R,
    first: Option<Entrance>,
    common: &'d Common,
) -> Result<(), Wanting>
where
    R: AllocGlobal + Wait + Threads + time::Clock + Sync,
{
    let Some(Entrance { listener, crowd }) = first else {
        return Ok(());
    };
    common.log.enter();
    let accepting = move || {
        accept_all(rt, listener, crowd, &common.arrivals);
        common.log.leave();
    };
    start(scope, Builder::new(), accepting)
}

/// Starts a thread for each further listener. Each deals its first connection to another worker.
fn start_acceptors<'s, 'a: 's, 'd: 's, E, R>(
    scope: &Scope<'s, E>,
    rt: &'a R,
    listeners: Vec<TcpListener>,
    crowd: &Arc<ConnectionLimit>,
    common: &'d Common,
) -> Result<(), Wanting>
where
    R: AllocGlobal + Wait + Threads + time::Clock + Sync,
{
    let mut turn = 0usize;
    for listener in listeners {
        turn = turn.saturating_add(1);
        let crowd = crowd.clone().map_err(|_| AllocError)?;
        common.log.enter();
        let accepting = move || {
            accept_beside(rt, listener, crowd, &common.arrivals, turn);
            common.log.leave();
        };
        start(scope, Builder::new(), accepting)?;
    }
    Ok(())
}

/// Starts the thread that writes to standard error.
fn start_logger<'s, 'a: 's, 'b: 's, 'c: 's, 'd: 's, E, R>(
    scope: &Scope<'s, E>,
    rt: &'a R,
    options: &'b Options,
    task: LoggerTask,
    client: StoreClient<'c>,
    common: &'d Common,
) -> Result<ReaderThread, Wanting>
where
    R: AllocGlobal + Wait + Threads + time::Clock + Sync,
    ensures { IfOk result (λ thread. thread.promise.0.value ≡ caller_of client.entry) }
{
    let (shared, caller) = client.into_parts();
    let promise = ReaderPromise(Snapshot::of(&caller));
    let writing = move || -> Caller
        requires { caller.table ≡ shared.now.table }
        ensures { result ≡ caller }
    {
        let _ = os::set_thread_name(LOGGER);
        log_to_end(rt, options, task, StoreClient::new(shared, caller), common)
    };
    match scope.spawn_with(promise, writing) {
        Ok(thread) => Ok(thread),
        Err(_) => Err(Wanting::Thread),
    }
}

/// Writes to standard error until the server ends. Returns the client's caller as it was.
fn log_to_end<R: Wait + time::Clock>(
    rt: &R,
    options: &Options,
    task: LoggerTask,
    client: StoreClient<'_>,
    common: &Common,
) -> Caller
    ensures { result ≡ caller_of client.entry }
{
    let LoggerTask {
        diagnostics,
        descriptors,
        outlet,
    } = task;
    let notice = StartLines {
        diagnostics,
        options,
        descriptors,
    };
    write_log::<Brand, R>(rt, notice, outlet, client, common)
}

/// Starts a thread of the scope.
fn start<'s, E, F: FnOnce() + Send + Drop + 's>(
    scope: &Scope<'s, E>,
    builder: Builder,
    task: F,
) -> Result<(), Wanting>
    requires { F.pre task }
{
    match builder.spawn_scoped(scope, task) {
        Ok(_thread) => Ok(()),
        Err(_) => Err(Wanting::Thread),
    }
}

/// Serves the connections of a worker until no more come. Returns its caller, and what it counted.
fn run_worker<R: AllocGlobal + Wait + time::Clock, S: Clock>(
    rt: &R,
    plan: WorkerPlan,
    client: StoreClient<'_>,
    common: &Common,
    system: &S,
) -> (Caller, WorkEnd)
    ensures { HasWorked (S.may_give system.now) plan client.entry.began (caller_of client.entry)
        result }
{
    let WorkerPlan {
        share,
        poll,
        events,
        now,
        idle_timeout,
        first,
        held,
        moved,
        counts,
    } = plan;
    let alloc = rt.alloc();
    let arrivals = &common.arrivals;
    arrivals.end_rest(&share);
    let mut links = SocketLinks::new(rt, alloc, arrivals, share, Poller { poll, events }, moved);
    links.close_idle(idle_timeout);
    let mut links = ClosingLinks::new(links, arrivals);
    let tally = WorkerTally {
        counts: &counts,
        refusals: ShortageTally::new(&common.log),
    };
    let clock = AskedClock {
        asked: now,
        system: SharedClock(system),
    };
    let worker = Worker {
        gate: &NoGate,
        tally: &tally,
        clock: &clock,
        first,
        share: held,
    };
    let (shared, caller) = client.into_parts();
    worker.work(rt, alloc, shared, caller, &mut links)
}

/// Answers scrapes until the server ends, by a reader of this caller.
fn answer_scrapes<B: Origin, R: Files + AllocGlobal + Wait + time::Clock>(
    rt: &R,
    server: MetricsServer,
    client: StoreClient<'_>,
    common: &Common,
) -> Caller
    requires { caller_of client ≡ B.caller }
    ensures { result ≡ B.caller }
{
    let mut server = server;
    let mut reader: Reader<'_, B> = Reader::new(client);
    server.answer_all(rt, &common.arrivals, &mut reader);
    reader.into_caller()
}

/// Writes to standard error until the server ends, by a reader of this caller.
fn write_log<B: Origin, R: Wait + time::Clock>(
    rt: &R,
    notice: StartLines<'_>,
    outlet: ErrorOutput,
    client: StoreClient<'_>,
    common: &Common,
) -> Caller
    requires { caller_of client ≡ B.caller }
    ensures { result ≡ B.caller }
{
    let mut outlet = outlet;
    let mut reader: Reader<'_, B> = Reader::new(client);
    write_lines(rt, &common.log, notice, &mut outlet, &mut reader);
    reader.into_caller()
}
