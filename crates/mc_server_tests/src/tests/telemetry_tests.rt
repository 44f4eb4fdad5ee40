//! What a scrape reads of a store, of connections and of workers.

use mc_metrics::{Counted, Counters, Figure, SettingsReading, TablesReading, number_at};
use mc_slab::{Account, Class};
use mc_sockets::{ConnectionLimit, PARTINGS};
use mc_telemetry::{Observer, StoreStats};
use std::alloc::{AllocError, Global};
use std::sync::{Arc, Wait};
use std::test::*;

/// A store of 4 shelves that has pages of the third class alone.
#[derive(Clone, Copy)]
struct FixedStats;

impl StoreStats for FixedStats {
    fn shelves(&self) -> u32 {
        4
    }

    fn tables<R: Wait>(&mut self, _rt: &R) -> TablesReading {
        TablesReading {
            items: 5,
            ..TablesReading::NONE
        }
    }

    fn account<R: Wait>(&mut self, _rt: &R, class: Class) -> Account {
        if class.number() == 3 {
            Account { pages: 2, out: 5 }
        } else {
            Account { pages: 0, out: 0 }
        }
    }
}

/// The settings of each observer.
const SETTINGS: SettingsReading = SettingsReading {
    workers: 2,
    greatest: 1_048_576,
    idle_timeout: 300,
};

/// Returns an observer of two workers. Each refused one step of class 40, and found one too large.
fn observer_of_two(alloc: Global) -> Result<Observer, AllocError> {
    let mut counts = Vec::new(alloc);
    for hits in [3, 4] {
        let worker = Arc::new(alloc, Counters::new())?;
        worker.add(Counted::GetHit, hits);
        worker.refuse(40);
        worker.add(Counted::TooLarge, 1);
        worker.hold(hits * 100, hits);
        counts.push(worker)?;
    }
    Ok(Observer {
        crowd: ConnectionLimit::new(alloc, 7, None, None)?,
        counts,
        pages: 64,
        buffers: 4096,
        settings: SETTINGS,
        since: None,
        started: Some(7),
        most_fds: Some(9),
    })
}

#[test]
fn a_scrape_adds_up_workers(rt: HostRuntime) -> Result<(), Fail> {
    let observer = observer_of_two(rt.alloc())?;
    let reading = observer.read(&rt, &mut FixedStats)?;
    let hits = number_at(&reading.counts, Counted::GetHit.place());
    let misses = number_at(&reading.counts, Counted::GetMiss.place());
    assert!(rt; (hits, misses) == (7, 0));
    assert_eq!(rt; reading.closed.len(), PARTINGS);
    let found = (reading.most, reading.connections, reading.lingering);
    assert!(rt; found == (7, 0, 0));
    assert!(rt; reading.accepted == 0);
    // 64 pages of 1048576 bytes
    let found = (reading.limit, reading.shelves, reading.tables.items);
    assert!(rt; found == (67_108_864, 4, 5));
    assert!(rt; reading.uptime == 0);
    let settings = reading.settings;
    let found = (settings.workers, settings.greatest, settings.idle_timeout);
    assert!(rt; found == (2, 1_048_576, 300));
    let process = reading.process;
    assert!(rt; (process.started, process.most_fds) == (Some(7), Some(9)));
    // what Linux reports of this process: it has standard streams, and is in memory
    assert!(rt; process.open_fds >= Some(3) && process.resident > Some(4096));
    assert!(rt; process.virtual_size > process.resident && process.cpu.is_some());
    let buffers = reading.buffers;
    assert!(rt; (buffers.held, buffers.waiting, buffers.limit) == (700, 7, 4096));
    assert!(rt; reading.figure(Figure::Count(Counted::TooLarge)) == 2);
    let Some(last) = reading.refused.get(40) else {
        return Err(Fail::new("no number of the last class"));
    };
    assert!(rt; (reading.refused.len(), last.class, last.count) == (41, 40, 2));
    Ok(())
}

#[test]
fn a_scrape_has_the_classes_with_a_page(rt: HostRuntime) -> Result<(), Fail> {
    let alloc = rt.alloc();
    let observer = Observer {
        crowd: ConnectionLimit::new(alloc, 1, None, None)?,
        counts: Vec::new(alloc),
        pages: 1,
        buffers: 0,
        settings: SETTINGS,
        since: None,
        started: None,
        most_fds: None,
    };
    let reading = observer.read(&rt, &mut FixedStats)?;
    assert_eq!(rt; reading.slabs.len(), 1);
    let Some(slab) = reading.slabs.get(0) else {
        return Err(Fail::new("no class has a page"));
    };
    assert!(rt; (slab.number, slab.size, slab.pages) == (3, 152, 2));
    // 6898 chunks a page
    assert!(rt; (slab.chunks, slab.used, slab.free) == (13_796, 5, 13_791));
    Ok(())
}
