//! Reads the values of one scrape.
//!
//! The sums are of counters of any kind (`values_of`): those that threads share show no number to
//! contracts.

ghost use Rattle.std.specs.Prelude.{◌≡◌, ◌<◌, ◌*◌, ℕ, IfOk, All, slice_index};
ghost use Rattle.std.specs.Arc.{arc_value};
ghost use Rattle.mc_metrics.specs.Sums.{IsSum, Counts, Refuses};
ghost use Rattle.mc_metrics.specs.declared.counts.TheConstants.{COUNTED};

use crate::process::process_now;
use crate::stats::StoreStats;
use mc_metrics::{
    BuffersReading, Counters, CountersOf, PageValues, ProcessReading, REFUSED, RefusedReading,
    SettingsReading, SharedCount, SlabReading, refused_sum, sums_of,
};
use mc_sizes::{PAGE_SIZE, class_of};
use mc_sockets::{ConnectionLimit, PARTINGS};
use std::alloc::{AllocError, AllocGlobal, Global};
use std::fs::Files;
use std::sync::{Arc, Wait};
use std::time::{Clock, Instant};

/// The size of a page of a store, in bytes.
const PAGE: u64 = PAGE_SIZE as u64;

/// An upper bound on the number of classes of chunks.
const CLASSES: usize = 64;

/// Reads the workers' counters, the counts of connections, and what the store reports.
#[derive(Drop)]
pub struct Observer {
    /// The connections of the server.
    pub crowd: Arc<ConnectionLimit>,
    /// The counters of each worker.
    pub counts: Vec<Arc<Counters>>,
    /// The number of pages that items may take.
    pub pages: u32,
    /// The limit of bytes of buffers that connections hold.
    pub buffers: u64,
    pub settings: SettingsReading,
    /// When the server began; nothing if there was no clock.
    pub since: Option<Instant>,
    /// The start of the process in seconds since 1970, if it is known.
    pub started: Option<u64>,
    /// The limit of descriptors, if there is one and it is known.
    pub most_fds: Option<u64>,
}

impl Observer {
    /// Returns all values of one scrape. The store's shelves are held one after another, and then
    /// what they share for each class of chunks. What the system doesn't report of the process is
    /// left out. The one error is a refused allocation.
    pub fn read<R: Files + AllocGlobal + Wait + Clock, S: StoreStats>(
        &self,
        rt: &R,
        stats: &mut S,
    ) -> Result<PageValues, AllocError>
        ensures { IfOk result (λ values. (values.settings ≡ self.now.settings)
            × (values.limit ≡ self.now.pages * 1048576)) }
    {
        values_of(self, self.counts.as_slice(), rt, stats)
    }

    /// Returns how many connections were closed for each reason.
    fn closed_counts(&self, alloc: Global) -> Result<Vec<u64>, AllocError> {
        let mut closed = Vec::with_capacity(alloc, PARTINGS)?;
        for place in 0..PARTINGS {
            closed.push(self.crowd.closed_at(place))?;
        }
        Ok(closed)
    }

    /// Returns for how many seconds the server has run, or 0 if there is no clock.
    fn uptime<R: Clock>(&self, rt: &R) -> u64 {
        match self.since {
            Some(since) => match since.elapsed(rt) {
                Ok(time) => time.as_secs(),
                Err(_) => 0,
            },
            None => 0,
        }
    }
}

/// Returns all values of one scrape, with the sums of these counters.
fn values_of<C: SharedCount + Drop, R: Files + AllocGlobal + Wait + Clock, S: StoreStats>(
    observer: &Observer,
    workers: &[Arc<CountersOf<C>>],
    rt: &R,
    stats: &mut S,
) -> Result<PageValues, AllocError>
    ensures counts { IfOk result (λ values. (place : ℕ) → place < COUNTED → IsSum (λ worker.
        Counts C.was_read place (arc_value worker)) workers.now
        (slice_index values.counts place)) }
    ensures refused { IfOk result (λ values. All (λ row. IsSum (λ worker.
        Refuses C.was_read row.class (arc_value worker)) workers.now row.count)
        values.refused.items) }
    ensures settings { IfOk result (λ values. (values.settings ≡ observer.now.settings)
        × (values.limit ≡ observer.now.pages * 1048576)) }
{
    let alloc = rt.alloc();
    let tables = stats.tables(rt);
    let slabs = slabs_of(rt, alloc, stats)?;
    let crowd = &*observer.crowd;
    Ok(PageValues {
        counts: sums_of(workers),
        closed: observer.closed_counts(alloc)?,
        uptime: observer.uptime(rt),
        connections: u64::from(crowd.open()),
        lingering: u64::from(crowd.lingering()),
        accepted: crowd.accepted_count(),
        most: u64::from(crowd.most()),
        tables,
        limit: u64::from(observer.pages) * PAGE,
        shelves: u64::from(stats.shelves()),
        slabs,
        refused: refused_counts(alloc, workers)?,
        buffers: sum_buffers(workers, observer.buffers),
        settings: observer.settings,
        process: ProcessReading {
            started: observer.started,
            most_fds: observer.most_fds,
            ..process_now(rt)
        },
    })
}

/// Returns the sums of the buffers that the workers' connections hold, and their limit.
fn sum_buffers<C: SharedCount + Drop>(
    workers: &[Arc<CountersOf<C>>],
    limit: u64,
) -> BuffersReading {
    let mut buffers = BuffersReading::empty(limit);
    for worker in workers {
        buffers = buffers.with(worker.held(), worker.waiting());
    }
    buffers
}

/// Returns the refused steps of each class, over all workers.
fn refused_counts<C: SharedCount + Drop>(
    alloc: Global,
    workers: &[Arc<CountersOf<C>>],
) -> Result<Vec<RefusedReading>, AllocError>
    ensures { IfOk result (λ rows. All (λ row. IsSum (λ worker.
        Refuses C.was_read row.class (arc_value worker)) workers.now row.count) rows.items) }
{
    let mut rows = Vec::with_capacity(alloc, REFUSED)?;
    for class in 0..REFUSED {
        rows.push(RefusedReading {
            class: class as u8,
            count: refused_sum(workers, class),
        })?;
    }
    Ok(rows)
}

/// Returns the classes of chunks that have a page, from the smallest up. The one error is a refused
/// allocation.
fn slabs_of<R: Wait, S: StoreStats>(
    rt: &R,
    alloc: Global,
    stats: &mut S,
) -> Result<Vec<SlabReading>, AllocError> {
    let mut slabs = Vec::new(alloc);
    let mut next = class_of(0);
    for _one in 0..CLASSES {
        let Some(class) = next else {
            break;
        };
        let slab = SlabReading::of(class, stats.account(rt, class));
        if slab.pages > 0 {
            slabs.push(slab)?;
        }
        next = class_of(u64::from(class.size()) + 1);
    }
    Ok(slabs)
}
