//! The counters of a worker, and their sums over all workers.
//!
//! Other threads read a counter while its worker adds to it, so contracts see no number of it. They
//! see which counter was added to, and which was read, for counters of any kind ([`SharedCount`]).
ghost use Rattle.std.specs.Prelude.{ℕ, ◌<◌, slice_index};
ghost use Rattle.std.specs.Arc.{arc_value};
ghost use Rattle.mc_metrics.specs.Sums.{IsCountAt, IsSum, Counts, Refuses};
ghost use Rattle.mc_metrics.specs.declared.counts.TheConstants.{COUNTED};

use std::array;
use std::sync::Arc;
use std::sync::atomic::{AtomicU64, Ordering};

/// A number that threads share: one thread adds to it or sets it, and any thread reads it.
pub trait SharedCount {
    ghost use Rattle.std.specs.Prelude.{ℕ};

    /// This many were added when the number was the second one.
    ghost was_added: { Self → ℕ → ℕ → Type 0 };

    /// The number was read so.
    ghost was_read: { Self → ℕ → Type 0 };

    /// Returns the number 0.
    fn zero() -> Self;

    /// Adds `count`, modulo 2^64. Returns the number before.
    fn add(&self, count: u64) -> u64
        ensures { was_added self.now count result };

    /// Sets the number.
    fn set(&self, number: u64);

    /// Returns the number.
    fn get(&self) -> u64
        ensures { was_read self.now result };
}

impl SharedCount for AtomicU64 {
    ghost use Rattle.std.specs.Prelude.{⊤};

    // Contracts promise nothing of a number that other threads change.
    ghost was_added = { λ _ _ _. ⊤ };

    ghost was_read = { λ _ _. ⊤ };

    fn zero() -> AtomicU64 {
        AtomicU64::new(0)
    }

    #[inline]
    fn add(&self, count: u64) -> u64 {
        self.fetch_add(count, Ordering::SeqCst)
    }

    #[inline]
    fn set(&self, number: u64) {
        self.store(number, Ordering::SeqCst);
    }

    #[inline]
    fn get(&self) -> u64 {
        self.load(Ordering::SeqCst)
    }
}

/// A counter. A step increments one of them, or none.
#[derive(Clone, Copy)]
pub enum Counted {
    /// A read found an item.
    GetHit,
    /// A read found none.
    GetMiss,
    /// A storage command other than `cas` stored an item.
    SetStored,
    /// The condition of such a command failed.
    SetNotStored,
    CasHit,
    CasMiss,
    CasBadval,
    DeleteHit,
    DeleteMiss,
    IncrHit,
    IncrMiss,
    DecrHit,
    DecrMiss,
    TouchHit,
    TouchMiss,
    Flush,
    /// A step was refused for want of a chunk.
    Refused,
    /// A command was answered that its item is larger than one may be.
    TooLarge,
    /// A byte was read.
    Received,
    /// A byte was written.
    Sent,
}

impl Counted {
    ghost use Rattle.std.specs.Prelude.{◌≡◌, ◌<◌};
    ghost use Rattle.mc_metrics.specs.Places.{place_of};
    ghost use Rattle.mc_metrics.specs.declared.counts.TheConstants.{COUNTED};

    /// Returns its index.
    pub fn place(self) -> usize
        ensures value { result ≡ place_of self }
        ensures within { result < COUNTED }
    {
        self as usize
    }
}

/// The number of counters, of which `Sent` is the last.
pub const COUNTED: usize = Counted::Sent as usize + 1;

/// The number of counters of refused steps: one for each class of chunks at its number, and one at
/// 0 for steps whose class isn't known.
pub const REFUSED: usize = 41;

/// The words between the counters of two workers: a cache line.
const APART: usize = 8;

/// The counters of one worker, each an atomic.
pub type Counters = CountersOf<AtomicU64>;

/// The counters of one worker. Only the worker writes them, and any thread reads them.
///
/// So no worker waits for another's cache line.
#[derive(Drop)]
pub struct CountersOf<C: SharedCount + Drop> {
    _before: [u64; APART],
    cells: [C; COUNTED],
    refused: [C; REFUSED],
    /// The bytes of buffers that its connections hold.
    held: C,
    /// Its connections that wait for room.
    waiting: C,
    _behind: [u64; APART],
}

impl<C: SharedCount + Drop> CountersOf<C> {
    ghost use Rattle.std.specs.Prelude.{◌≡◌, ◌≤◌, None, IfSome};
    ghost use Rattle.mc_metrics.specs.Places.{place_of};
    ghost use Rattle.mc_metrics.specs.Sums.{IsAddedAt, IsCountAt};

    /// Returns counters at 0. It takes no memory.
    pub fn new() -> CountersOf<C> {
        CountersOf {
            _before: [0; APART],
            cells: array::from_fn(|_at| C::zero()),
            refused: array::from_fn(|_at| C::zero()),
            held: C::zero(),
            waiting: C::zero(),
            _behind: [0; APART],
        }
    }

    /// Adds `count` to a counter. Returns its number before.
    pub fn add(&self, counted: Counted, count: u64) -> u64
        ensures { IsAddedAt C.was_added self.now.cells (place_of counted) count result }
    {
        self.cells[counted.place()].add(count)
    }

    /// Returns the counter at an index, modulo 2^64, and 0 if there is none.
    pub fn at(&self, place: usize) -> u64
        ensures { IsCountAt C.was_read self.now.cells place result }
    {
        count_at(&self.cells, place)
    }

    /// Counts a step that was refused for want of a chunk of the class with this number. Returns
    /// the number before, and nothing if there is no such class.
    pub fn refuse(&self, class: usize) -> Option<u64>
        ensures none { result ≡ None → 41 ≤ class }
        ensures added { IfSome result (λ before.
            IsAddedAt C.was_added self.now.refused class 1 before) }
    {
        match self.refused.get(class) {
            Some(cell) => Some(cell.add(1)),
            None => None,
        }
    }

    /// Returns the refused steps of a class, modulo 2^64, and 0 if there is no such class.
    pub fn refused_at(&self, class: usize) -> u64
        ensures { IsCountAt C.was_read self.now.refused class result }
    {
        count_at(&self.refused, class)
    }

    /// Notes how many bytes of buffers the worker's connections hold, and how many wait for room.
    pub fn hold(&self, bytes: u64, waiting: u64) {
        self.held.set(bytes);
        self.waiting.set(waiting);
    }

    /// Returns the bytes of buffers that the worker's connections hold.
    pub fn held(&self) -> u64
        ensures { C.was_read self.now.held result }
    {
        self.held.get()
    }

    /// Returns how many of the worker's connections wait for room.
    pub fn waiting(&self) -> u64
        ensures { C.was_read self.now.waiting result }
    {
        self.waiting.get()
    }
}

/// Returns the count at an index, and 0 if there is none.
pub fn count_at<C: SharedCount>(counts: &[C], place: usize) -> u64
    ensures { IsCountAt C.was_read counts.now place result }
{
    match counts.get(place) {
        Some(count) => count.get(),
        None => 0,
    }
}

/// Returns the sums of the workers' counters, each modulo 2^64. Each counter is read once.
pub fn sums_of<C: SharedCount + Drop>(workers: &[Arc<CountersOf<C>>]) -> [u64; COUNTED]
    ensures { (place : ℕ) → place < COUNTED → IsSum (λ worker.
        Counts C.was_read place (arc_value worker)) workers.now (slice_index result place) }
{
    let mut sums = [0u64; COUNTED];
    for at in 0..COUNTED {
        sums[at] = sum_at(workers, at);
    }
    sums
}

/// Returns the sum of the workers' counters at an index, modulo 2^64.
fn sum_at<C: SharedCount + Drop>(workers: &[Arc<CountersOf<C>>], place: usize) -> u64
    ensures { IsSum (λ worker. Counts C.was_read place (arc_value worker)) workers.now result }
{
    let mut sum = 0u64;
    for worker in workers {
        sum = sum.wrapping_add(worker.at(place));
    }
    sum
}

/// Returns the refused steps of a class, over all workers, modulo 2^64.
pub fn refused_sum<C: SharedCount + Drop>(workers: &[Arc<CountersOf<C>>], class: usize) -> u64
    ensures { IsSum (λ worker. Refuses C.was_read class (arc_value worker)) workers.now result }
{
    let mut sum = 0u64;
    for worker in workers {
        sum = sum.wrapping_add(worker.refused_at(class));
    }
    sum
}
