//! What the server makes before its first thread starts.
//!
//! All that can be refused is requested here: descriptors, memory, polls. So a server that reports
//! that it listens has what its threads need, but for the threads themselves.

ghost use Rattle.std.specs.Prelude.{◌≡◌, ◌+◌, ◌*◌, length, IfOk, IfSome, OnOk, All};
ghost use Rattle.std.specs.Arc.{arc_value};
ghost use Rattle.mc_sockets.specs.ConnectionLimits.{most_of};
ghost use Rattle.mc_run.specs.Plans.{IsPlanOf, IsWorkerOf, IsOneAcceptor, ArePlansOf};
ghost use Rattle.mc_run.specs.Plans.{held_of, mib, settings_of, ReportsOf, IsOwnTask};

use mc_host::{
    Diagnostics, Listeners, ScrapeListener, Wanting, look_for_descriptors, most_descriptors,
    sockets_of,
};
use mc_metrics::{Counters, SettingsReading};
use mc_options::Options;
use mc_sockets::{Arrivals, ConnectionLimit, EVENTS, Inbox, Log, Share, WAKER};
use mc_telemetry::{ErrorOutput, MetricsServer, Observer, StartLines, process_start};
use mc_time::Moment;
use mio::{Events, Poll, Waker};
use std::alloc::{AllocError, AllocGlobal, Global};
use std::fs::Files;
use std::io;
use std::net::{Net, TcpListener};
use std::sync::Arc;
use std::time::{Clock, Instant};

/// The bytes of a MiB.
const MIB: usize = 1_048_576;

/// The sockets at which the server listens.
#[derive(Drop)]
pub struct Bound {
    pub listeners: Listeners,
    /// The listener for scrapes, if there is one.
    pub door: Option<ScrapeListener>,
}

/// What the program's own thread does, and what the other threads own.
#[derive(Drop)]
pub struct ServerPlan<'a> {
    pub own: OwnTask,
    pub threads: ThreadPlan<'a>,
}

/// What the program's own thread does. It alone may read files.
#[derive(Drop)]
pub enum OwnTask {
    /// It accepts at the first listener.
    Accept(Entrance),
    /// It answers scrapes.
    AnswerScrapes(MetricsServer),
}

/// A listener, and the counter of its connections.
#[derive(Drop)]
pub struct Entrance {
    pub listener: TcpListener,
    pub crowd: Arc<ConnectionLimit>,
}

/// What the threads beside the program's own are to own, and what they are to report.
#[derive(Drop)]
pub struct ThreadPlan<'a> {
    pub tasks: ThreadTasks,
    pub options: &'a Options,
}

/// What the threads beside the program's own are to own.
#[derive(Drop)]
pub struct ThreadTasks {
    pub workers: Vec<WorkerPlan>,
    /// The first listener, unless the program's own thread accepts there.
    pub first: Option<Entrance>,
    /// One listener for each further thread that accepts.
    pub listeners: Vec<TcpListener>,
    pub crowd: Arc<ConnectionLimit>,
    pub logger: LoggerTask,
}

/// What the thread of the logger is to own.
#[derive(Drop)]
pub struct LoggerTask {
    pub diagnostics: Diagnostics,
    /// How many descriptors the process may have, if the system reports it.
    pub descriptors: Option<u64>,
    /// Where it writes.
    pub outlet: ErrorOutput,
}

/// What the thread of a worker is to own.
#[derive(Drop)]
pub struct WorkerPlan {
    pub share: Share,
    pub poll: Poll,
    pub events: Events,
    /// The moment of its clock, if that stands.
    pub now: Option<Moment>,
    /// The idle timeout of its connections, in seconds; with 0 there is none.
    pub idle_timeout: u32,
    /// The shelf that it tidies first.
    pub first: u32,
    /// How many bytes its connections may hold together.
    pub held: usize,
    /// The counters that its links raise, and the same for its steps.
    pub moved: Arc<Counters>,
    pub counts: Arc<Counters>,
}

/// What all threads of the server borrow.
#[derive(Drop)]
pub struct Common {
    pub arrivals: Arrivals,
    pub log: Arc<Log>,
}

/// The workers' plans, their inboxes and their counters, in one order.
#[derive(Drop)]
struct Workers {
    plans: Vec<WorkerPlan>,
    inboxes: Vec<Inbox>,
    counts: Vec<Arc<Counters>>,
}

/// Returns the plan of a server at these sockets, and what its threads borrow. It fails if memory
/// is refused, or a descriptor.
pub fn make_plan<'a, R: Net + Files + AllocGlobal + Clock>(
    rt: &R,
    diagnostics: Diagnostics,
    options: &'a Options,
    bound: Bound,
) -> Result<(ServerPlan<'a>, Common), Wanting>
    ensures { IfOk result (λ made. IsPlanOf options.entry.now made.0) }
{
    let workers = make_workers(rt, options)?;
    let notice = StartLines {
        diagnostics,
        options,
        descriptors: most_descriptors(rt),
    };
    let outlet = ErrorOutput::new(rt, rt.alloc(), diagnostics.stderr)?;
    plan_with(rt, notice, outlet, bound, workers)
}

/// Returns the plan of a server with these workers, and what its threads borrow.
#[tactic(auto, using(crate::proofs::PlanLemmas::scrapes_by))]
fn plan_with<'a, R: AllocGlobal + Files + Clock>(
    rt: &R,
    notice: StartLines<'a>,
    outlet: ErrorOutput,
    bound: Bound,
    workers: Workers,
) -> Result<(ServerPlan<'a>, Common), Wanting>
    requires { ArePlansOf notice.options.now workers.plans.items }
    ensures { IfOk result (λ made. IsPlanOf notice.entry.options.now made.0) }
{
    let Workers {
        plans,
        inboxes,
        counts,
    } = workers;
    let common = make_common(rt, notice.options, &bound.listeners, inboxes)?;
    let crowd = make_crowd(rt.alloc(), notice, &common.log)?;
    let metrics = make_metrics(rt, notice, bound.door, &crowd, counts)?;
    let Listeners { first, others } = bound.listeners;
    let (own, first) = share_out(metrics, first, &crowd)?;
    let logger = LoggerTask {
        diagnostics: notice.diagnostics,
        descriptors: notice.descriptors,
        outlet,
    };
    let tasks = ThreadTasks {
        workers: plans,
        first,
        listeners: others,
        crowd,
        logger,
    };
    let threads = ThreadPlan {
        tasks,
        options: notice.options,
    };
    Ok((ServerPlan { own, threads }, common))
}

/// Returns what the program's own thread does, and the first listener if another accepts there. The
/// one error is a refused allocation.
fn share_out(
    metrics: Option<MetricsServer>,
    listener: TcpListener,
    crowd: &Arc<ConnectionLimit>,
) -> Result<(OwnTask, Option<Entrance>), AllocError>
    ensures accepts { IfOk result (λ tasks. IsOneAcceptor (arc_value crowd.now) tasks.0 tasks.1) }
    ensures own { IfOk result (λ tasks. IsOwnTask metrics tasks.0) }
{
    let entrance = Entrance {
        listener,
        crowd: crowd.clone().map_err(|_| AllocError)?,
    };
    Ok(match metrics {
        Some(server) => (OwnTask::AnswerScrapes(server), Some(entrance)),
        None => (OwnTask::Accept(entrance), None),
    })
}

/// Returns what all threads borrow. It fails if memory is refused, or a descriptor.
fn make_common<R: AllocGlobal + Clock>(
    rt: &R,
    options: &Options,
    listeners: &Listeners,
    inboxes: Vec<Inbox>,
) -> Result<Common, Wanting> {
    let alloc = rt.alloc();
    let arrivals = Arrivals::new(inboxes, sockets_of(alloc, listeners)?);
    look_for_descriptors(alloc, listeners)?;
    let log = Log::new(rt, alloc, options.verbose)?;
    Ok(Common { arrivals, log })
}

/// Returns a counter of connections. The one error is a refused allocation.
fn make_crowd(
    alloc: Global,
    notice: StartLines<'_>,
    log: &Arc<Log>,
) -> Result<Arc<ConnectionLimit>, AllocError>
    ensures { IfOk result (λ crowd.
        most_of (arc_value crowd) ≡ notice.entry.options.now.connections) }
{
    let StartLines {
        options,
        descriptors,
        ..
    } = notice;
    let log = log.clone().map_err(|_| AllocError)?;
    ConnectionLimit::new(alloc, options.connections, descriptors, Some(log))
}

/// Returns the metrics server, if there is a listener for scrapes. The one error is a refused
/// allocation.
fn make_metrics<R: AllocGlobal + Files + Clock>(
    rt: &R,
    notice: StartLines<'_>,
    door: Option<ScrapeListener>,
    crowd: &Arc<ConnectionLimit>,
    counts: Vec<Arc<Counters>>,
) -> Result<Option<MetricsServer>, AllocError>
    ensures { IfOk result (λ metrics. IfSome metrics (λ server.
        ReportsOf notice.entry.options.now (arc_value crowd.now) server)) }
{
    let Some(door) = door else {
        return Ok(None);
    };
    let observer = Observer {
        crowd: crowd.clone().map_err(|_| AllocError)?,
        counts,
        pages: notice.options.settings.pages,
        buffers: buffers_of(notice.options),
        settings: settings_of(notice.options),
        since: Instant::now(rt).ok(),
        started: process_start(rt),
        most_fds: notice.descriptors,
    };
    let server = MetricsServer::new(rt.alloc(), door, observer, notice.options.may_quit);
    Ok(Some(server))
}

/// Returns how many bytes the buffers of all connections may hold.
fn buffers_of(options: &Options) -> u64
    ensures { result ≡ options.entry.now.buffers * mib }
{
    options.buffers as u64 * MIB as u64
}

/// Returns the settings that the page of metrics has.
fn settings_of(options: &Options) -> SettingsReading
    ensures { result ≡ settings_of options.entry.now }
{
    SettingsReading {
        workers: u64::from(options.workers),
        greatest: options.settings.greatest,
        idle_timeout: u64::from(options.idle_timeout),
    }
}

/// Returns the workers that the options ask for. It fails if memory is refused, or a descriptor.
fn make_workers<R: Net + AllocGlobal>(rt: &R, options: &Options) -> Result<Workers, Wanting>
    ensures { IfOk result (λ workers. ArePlansOf options.entry.now workers.plans.items) }
{
    let alloc = rt.alloc();
    let mut workers = Workers {
        plans: Vec::new(alloc),
        inboxes: Vec::new(alloc),
        counts: Vec::new(alloc),
    };
    for worker in 0..options.workers {
        workers.add(rt, options, worker)?;
    }
    Ok(workers)
}

impl Workers {
    /// Adds the worker with this number. It fails if memory is refused, or a descriptor.
    #[tactic(auto, using(crate::proofs::PlanLemmas::one_more))]
    fn add<R: Net + AllocGlobal>(
        &mut self,
        rt: &R,
        options: &Options,
        worker: u32,
    ) -> Result<(), Wanting>
        ensures count { OnOk result
            (length self.new.plans.items ≡ length self.old.plans.items + 1) }
        ensures each { All (IsWorkerOf options.entry.now) self.old.plans.items
            → OnOk result (All (IsWorkerOf options.entry.now) self.new.plans.items) }
    {
        let counts = Arc::new(rt.alloc(), Counters::new()).map_err(|_| AllocError)?;
        let (plan, waker) = WorkerPlan::new(rt, options, worker, &counts)?;
        self.plans.push(plan).map_err(|_| AllocError)?;
        let inbox = Inbox::new(rt.alloc(), waker)?;
        self.inboxes.push(inbox).map_err(|_| AllocError)?;
        self.counts.push(counts).map_err(|_| AllocError)?;
        Ok(())
    }
}

impl WorkerPlan {
    /// Returns the plan of the worker with this number, and what wakes it. It fails if memory is
    /// refused, or a descriptor.
    fn new<R: Net + AllocGlobal>(
        rt: &R,
        options: &Options,
        worker: u32,
        counts: &Arc<Counters>,
    ) -> Result<(WorkerPlan, Waker), Wanting>
        ensures { IfOk result (λ made. IsWorkerOf options.entry.now made.0) }
    {
        let moved = counts.clone().map_err(|_| AllocError)?;
        let counts = counts.clone().map_err(|_| AllocError)?;
        let (poll, waker) = make_poll(rt)?;
        let events = Events::with_capacity(rt.alloc(), EVENTS)?;
        let plan = WorkerPlan {
            share: Share::new(worker),
            poll,
            events,
            now: options.now,
            idle_timeout: options.idle_timeout,
            first: first_shelf(options, worker),
            held: held_of(options),
            moved,
            counts,
        };
        Ok((plan, waker))
    }
}

/// Returns the shelf that a worker tidies first. Workers begin far from each other.
fn first_shelf(options: &Options, worker: u32) -> u32 {
    worker.saturating_mul(options.settings.shelves) / options.workers.max(1)
}

/// Returns how many bytes the connections of a worker may hold: its part of seven eighths of
/// `--buffer-limit`. The rest is for what the C library keeps between their buffers.
fn held_of(options: &Options) -> usize
    ensures { result ≡ held_of options.entry.now }
{
    let bytes = options.buffers as usize * MIB;
    bytes / 8 * 7 / options.workers.max(1) as usize
}

/// Returns a poll, and what wakes the thread that waits for it.
fn make_poll<R: Net>(rt: &R) -> io::Result<(Poll, Waker)> {
    let poll = Poll::new(rt)?;
    let waker = Waker::new(poll.registry(), WAKER)?;
    Ok((poll, waker))
}
