//! The values of one scrape.
ghost use Rattle.std.specs.Prelude.{◌≡◌};
ghost use Rattle.mc_metrics.specs.Pages.{figure_of, slab_figure_of, number_at, bytes_of, together};

use crate::counts::{COUNTED, Counted};
use mc_sizes::{Account, Class};

/// The values for a page.
#[derive(Drop)]
pub struct PageValues {
    /// The sums of all workers' counters, each at its index.
    pub counts: [u64; COUNTED],
    /// The closed connections, for each reason at its index.
    pub closed: Vec<u64>,
    /// The seconds since the start.
    pub uptime: u64,
    /// The open connections that count in `-c`.
    pub connections: u64,
    /// The open connections that linger behind their last answer.
    pub lingering: u64,
    /// The accepted connections.
    pub accepted: u64,
    /// The limit of connections that count in `-c`.
    pub most: u64,
    /// The size of the tables of all shelves.
    pub tables: TablesReading,
    /// The bytes of all pages of the limit.
    pub limit: u64,
    pub shelves: u64,
    /// The classes of chunks that have a page, from the smallest up.
    pub slabs: Vec<SlabReading>,
    /// The refused steps of each class.
    pub refused: Vec<RefusedReading>,
    pub buffers: BuffersReading,
    pub settings: SettingsReading,
    pub process: ProcessReading,
}

/// The options that have no other number.
#[derive(Clone, Copy)]
pub struct SettingsReading {
    pub workers: u64,
    /// The largest charge of an item in bytes.
    pub greatest: u64,
    /// The idle timeout in seconds; 0 if there is none.
    pub idle_timeout: u64,
}

/// The steps refused for want of a chunk of a class.
#[derive(Clone, Copy)]
pub struct RefusedReading {
    /// The number of the class, and 0 for steps whose class isn't known.
    pub class: u8,
    pub count: u64,
}

/// The memory of buffers that connections hold.
#[derive(Clone, Copy)]
pub struct BuffersReading {
    /// The bytes that all connections hold.
    pub held: u64,
    /// The connections that wait for room.
    pub waiting: u64,
    /// The limit of held bytes.
    pub limit: u64,
}

/// What the system reports of the process; `None` is what it doesn't.
#[derive(Clone, Copy)]
pub struct ProcessReading {
    /// The bytes in memory.
    pub resident: Option<u64>,
    /// The bytes of the address space.
    pub virtual_size: Option<u64>,
    /// The CPU time in hundredths of a second.
    pub cpu: Option<u64>,
    /// The start, in seconds since 1970.
    pub started: Option<u64>,
    /// The open descriptors.
    pub open_fds: Option<u64>,
    /// The limit of descriptors.
    pub most_fds: Option<u64>,
}

/// The size of the tables by which items are found.
#[derive(Clone, Copy)]
pub struct TablesReading {
    /// The items with an entry in a table or a list: all items.
    pub items: u64,
    /// The homes of the newer tables.
    pub homes: u64,
    /// The growths that began, each of which doubles the homes.
    pub growths: u64,
    /// The growths that run.
    pub running: u64,
    /// The entries that these still have to move.
    pub left: u64,
    /// The entries in lists, without a bucket near their homes.
    pub strays: u64,
    /// The items that purges and flushes dropped.
    pub reclaimed: u64,
}

/// The size of a class of chunks.
#[derive(Clone, Copy)]
pub struct SlabReading {
    pub number: u8,
    /// The bytes of a chunk.
    pub size: u64,
    pub chunks_a_page: u64,
    pub pages: u64,
    /// The chunks of all its pages.
    pub chunks: u64,
    /// The chunks that items use.
    pub used: u64,
    /// The other chunks.
    pub free: u64,
}

/// A number of a sample.
#[derive(Clone, Copy)]
pub enum Figure {
    /// 1.
    One,
    Uptime,
    /// This counter.
    Count(Counted),
    /// The sum of two counters.
    Both(Counted, Counted),
    /// The open connections that count in `-c`.
    Connections,
    /// The open connections that linger behind their last answer.
    Lingering,
    Accepted,
    Most,
    /// The connections that were closed for the reason at this index.
    Closed(usize),
    Items,
    /// The items that purges and flushes dropped.
    Reclaimed,
    /// The bytes of the chunks that items use.
    Bytes,
    Limit,
    Shelves,
    /// 0.
    Zero,
    /// The homes of all tables.
    Homes,
    Growths,
    /// The growths that run.
    Running,
    /// The entries that growths still have to move.
    Left,
    Strays,
    /// The bytes of buffers that connections hold, and their limit.
    Held,
    Buffers,
    /// The connections that wait for room.
    Waiting,
    Workers,
    /// The largest charge of an item, in bytes.
    Greatest,
    /// In seconds; 0 if there is none.
    IdleTimeout,
}

/// A number that the system reports of the process.
#[derive(Clone, Copy)]
pub enum ProcessFigure {
    Resident,
    VirtualSize,
    /// In hundredths of a second.
    Cpu,
    Started,
    OpenFds,
    MostFds,
}

/// A number of a sample for each class of chunks.
#[derive(Clone, Copy)]
pub enum SlabFigure {
    Size,
    ChunksAPage,
    Pages,
    Chunks,
    Used,
    Free,
}

impl PageValues {
    /// Returns the number of a sample.
    pub fn figure(&self, figure: Figure) -> u64
        ensures { result ≡ figure_of self.now figure }
    {
        match figure {
            Figure::One => 1,
            Figure::Zero => 0,
            Figure::Uptime => self.uptime,
            Figure::Count(counted) => number_at(&self.counts, counted.place()),
            Figure::Both(one, other) => self.both(one, other),
            Figure::Connections => self.connections,
            Figure::Lingering => self.lingering,
            Figure::Accepted => self.accepted,
            Figure::Most => self.most,
            Figure::Closed(place) => number_at(self.closed.as_slice(), place),
            Figure::Items => self.tables.items,
            Figure::Reclaimed => self.tables.reclaimed,
            Figure::Bytes => bytes_of(self.slabs.as_slice()),
            Figure::Limit => self.limit,
            Figure::Shelves => self.shelves,
            Figure::Homes => self.tables.homes,
            Figure::Growths => self.tables.growths,
            Figure::Running => self.tables.running,
            Figure::Left => self.tables.left,
            Figure::Strays => self.tables.strays,
            Figure::Held => self.buffers.held,
            Figure::Buffers => self.buffers.limit,
            Figure::Waiting => self.buffers.waiting,
            Figure::Workers => self.settings.workers,
            Figure::Greatest => self.settings.greatest,
            Figure::IdleTimeout => self.settings.idle_timeout,
        }
    }
}

impl PageValues {
    ghost use Rattle.std.specs.Prelude.{◌≡◌};
    ghost use Rattle.mc_metrics.specs.Pages.{both};

    /// Returns the sum of two counters, modulo 2^64.
    fn both(&self, one: Counted, other: Counted) -> u64
        ensures { result ≡ both self.now.counts one other }
    {
        let ones = number_at(&self.counts, one.place());
        ones.wrapping_add(number_at(&self.counts, other.place()))
    }
}

impl TablesReading {
    ghost use Rattle.std.specs.Prelude.{◌≡◌};

    /// The size of no table.
    pub const NONE: TablesReading = TablesReading {
        items: 0,
        homes: 0,
        growths: 0,
        running: 0,
        left: 0,
        strays: 0,
        reclaimed: 0,
    };

    /// Returns the sum of two sizes; each number is at most 2^64 - 1.
    pub fn with(self, others: TablesReading) -> TablesReading
        ensures { result ≡ together self others }
    {
        TablesReading {
            items: self.items.saturating_add(others.items),
            homes: self.homes.saturating_add(others.homes),
            growths: self.growths.saturating_add(others.growths),
            running: self.running.saturating_add(others.running),
            left: self.left.saturating_add(others.left),
            strays: self.strays.saturating_add(others.strays),
            reclaimed: self.reclaimed.saturating_add(others.reclaimed),
        }
    }
}

impl BuffersReading {
    ghost use Rattle.std.specs.Prelude.{◌≡◌};
    ghost use Rattle.mc_metrics.specs.Pages.{with_worker};

    /// Returns the buffers of no connection, with this limit.
    pub fn empty(limit: u64) -> BuffersReading
        ensures held { result.held ≡ 0 }
        ensures waiting { result.waiting ≡ 0 }
        ensures limit { result.limit ≡ limit }
    {
        BuffersReading {
            held: 0,
            waiting: 0,
            limit,
        }
    }

    /// Returns the sum with what a worker's connections hold; each number is at most 2^64 - 1.
    pub fn with(self, held: u64, waiting: u64) -> BuffersReading
        ensures { result ≡ with_worker self held waiting }
    {
        BuffersReading {
            held: self.held.saturating_add(held),
            waiting: self.waiting.saturating_add(waiting),
            limit: self.limit,
        }
    }
}

impl ProcessReading {
    ghost use Rattle.std.specs.Prelude.{◌≡◌};
    ghost use Rattle.mc_metrics.specs.Pages.{process_figure_of};

    /// A system that reports nothing.
    pub const NONE: ProcessReading = ProcessReading {
        resident: None,
        virtual_size: None,
        cpu: None,
        started: None,
        open_fds: None,
        most_fds: None,
    };

    /// Returns a number, if the system reports it.
    pub fn figure(&self, figure: ProcessFigure) -> Option<u64>
        ensures { result ≡ process_figure_of self.now figure }
    {
        match figure {
            ProcessFigure::Resident => self.resident,
            ProcessFigure::VirtualSize => self.virtual_size,
            ProcessFigure::Cpu => self.cpu,
            ProcessFigure::Started => self.started,
            ProcessFigure::OpenFds => self.open_fds,
            ProcessFigure::MostFds => self.most_fds,
        }
    }
}

impl SlabReading {
    ghost use Rattle.std.specs.Prelude.{◌≡◌, ◌*◌, ◌-◌, ◌^◌, min};
    ghost use Rattle.mc_sizes.specs.Classes.{chunks_a_page, size_of};
    ghost use Rattle.mc_metrics.specs.Pages.{slab_figure_of};

    /// Returns the size of a class, given its account.
    ///
    /// It has the chunks of its pages, at most 2^64 - 1, the chunks that items use, and the others.
    pub fn of(class: Class, account: Account) -> SlabReading
        ensures number { result.number ≡ class }
        ensures size { result.size ≡ size_of class }
        ensures chunks_a_page { result.chunks_a_page ≡ chunks_a_page class }
        ensures pages { result.pages ≡ account.pages }
        ensures used { result.used ≡ account.out }
        ensures chunks { result.chunks ≡ min (account.pages * chunks_a_page class) (2 ^ 64 - 1) }
        ensures free { result.free ≡ result.chunks - account.out }
    {
        let chunks_a_page = u64::from(class.chunks_a_page());
        let pages = u64::from(account.pages);
        let chunks = pages.saturating_mul(chunks_a_page);
        let used = u64::from(account.out);
        SlabReading {
            number: class.number(),
            size: u64::from(class.size()),
            chunks_a_page,
            pages,
            chunks,
            used,
            free: chunks.saturating_sub(used),
        }
    }

    /// Returns the number of a sample for this class.
    pub fn figure(&self, figure: SlabFigure) -> u64
        ensures { result ≡ slab_figure_of self.now figure }
    {
        match figure {
            SlabFigure::Size => self.size,
            SlabFigure::ChunksAPage => self.chunks_a_page,
            SlabFigure::Pages => self.pages,
            SlabFigure::Chunks => self.chunks,
            SlabFigure::Used => self.used,
            SlabFigure::Free => self.free,
        }
    }
}

/// Returns the bytes of the chunks that items use, at most 2^64 - 1.
pub fn bytes_of(slabs: &[SlabReading]) -> u64
    ensures { result ≡ bytes_of slabs.now }
{
    let mut bytes = 0u64;
    for slab in slabs {
        bytes = bytes.saturating_add(slab.used.saturating_mul(slab.size));
    }
    bytes
}

/// Returns the number at an index, and 0 if there is none.
pub fn number_at(numbers: &[u64], place: usize) -> u64
    ensures { result ≡ number_at numbers.now place }
{
    match numbers.get(place) {
        Some(number) => *number,
        None => 0,
    }
}
