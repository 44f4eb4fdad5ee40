//! Memory that isn't cut into chunks yet, in runs.
//!
//! A page of a class below 27 is reserved in runs of at most 32768 bytes. A run is written and cut
//! when its first chunk is taken.

ghost use Rattle.std.specs.Prelude.{◌≡◌, ◌+◌, ◌*◌, ◌^◌, ◌<◌, ◌≤◌, [], IfOk, OnOk, OnErr, vec_len, vec_capacity};
ghost use Rattle.std.specs.List.{All};
ghost use Rattle.mc_slab.specs.Chunks.{AreChunksOf};
ghost use Rattle.mc_slab.specs.Classes.{IsClass, size_of, chunks_a_page};
ghost use Rattle.mc_slab.specs.Runs.{AreRunsOf, IsMemoryOf, chunks_a_run, uncut};
ghost use Rattle.mc_slab.specs.PagesByClass.{IsChunkOf};

use crate::chunks::Chunks;
use mc_sizes::{CLASSES, Class, LENT};
use std::alloc::{AllocError, Global};
use std::marker::Model;

/// The largest run of a class below 27, in bytes. From class 27 on a run is one chunk.
const RUN: u32 = 1 << 15;

/// Memory that chunks will be cut from.
#[derive(Drop)]
enum Memory {
    /// Of a class below 27. It isn't written yet.
    Bytes(Vec<u8>),
    /// Of a class from 27 on: one chunk, which is memory of its own.
    Chunk(Chunks),
}

/// One allocation that chunks of a class will be cut from.
#[derive(Drop)]
struct Run {
    class: Class,
    count: u32,
    memory: Memory,
}

impl Model for Run {
    ghost use Rattle.mc_slab.specs.Classes.{IsClass};
    ghost use Rattle.mc_slab.specs.Runs.{UncutState, coded_uncut, IsMemoryOf};

    ghost Value = { UncutState };

    ghost coded = { coded_uncut };

    ghost view = { λ r. record { class = r.class; count = r.count } };

    ghost invariant = { λ r. IsClass r.class × IsMemoryOf r.class r.count r.memory };
}

impl Run {
    /// Allocates the memory of `count` chunks.
    fn new(alloc: Global, class: Class, count: u32) -> Result<Run, AllocError>
        requires some { 1 ≤ count }
        requires few { count ≤ chunks_a_run class }
        ensures { IfOk result (λ run. run ≡ record { class = class; count = count }) }
    {
        Ok(Run {
            class,
            count,
            memory: memory_of(alloc, class, count)?,
        })
    }

    /// Returns the number of its chunks.
    fn count(&self) -> u32
        ensures { result ≡ self.now.count }
    {
        self.count
    }

    /// Fills its memory with zeros.
    fn write_memory(self) -> Run
        ensures { result ≡ self.entry }
    {
        let Run {
            class,
            count,
            memory,
        } = self;
        Run {
            class,
            count,
            memory: zero_memory(memory, class, count),
        }
    }

    /// Cuts its memory into chunks of zeros and appends them to `chunks`, which has room.
    ///
    /// Chunks of a class below 27 stay with the process.
    fn cut_into(self, chunks: &mut Vec<Chunks>)
        requires none { chunks.old.items ≡ [] }
        requires room { self.count ≤ vec_capacity chunks.old }
        ensures count { vec_len chunks.new ≡ self.entry.count }
        ensures chunks { All (IsChunkOf self.entry.class) chunks.new.items }
        ensures capacity { vec_capacity chunks.new ≡ vec_capacity chunks.old }
    {
        let Run {
            class,
            count,
            memory,
        } = self;
        match memory {
            Memory::Chunk(chunk) => chunks.push_reserved(chunk),
            Memory::Bytes(bytes) => cut_bytes(bytes, class, count, chunks),
        }
    }
}

/// Allocates the memory of `count` chunks of the class.
fn memory_of(alloc: Global, class: Class, count: u32) -> Result<Memory, AllocError>
    requires some { 1 ≤ count }
    requires few { count ≤ chunks_a_run class }
    ensures memory { IfOk result (IsMemoryOf class count) }
    ensures class { IsClass class }
{
    if class.number() < LENT {
        let bytes = count as usize * class.size() as usize;
        Ok(Memory::Bytes(Vec::with_capacity(alloc, bytes)?))
    } else {
        Ok(Memory::Chunk(chunk_of(alloc, class)?))
    }
}

/// Allocates one chunk of a class from 27 on, of zeros.
fn chunk_of(alloc: Global, class: Class) -> Result<Chunks, AllocError>
    requires { 27 ≤ class }
    ensures { IfOk result (AreChunksOf (record { class = class; count = 1 })) }
{
    if class.number() < CLASSES {
        Chunks::lone(alloc, class)
    } else {
        Chunks::page(alloc)
    }
}

/// Fills memory with zeros.
fn zero_memory(memory: Memory, class: Class, count: u32) -> Memory
    requires class { IsClass class }
    requires memory { IsMemoryOf class count memory }
    ensures { IsMemoryOf class count result }
{
    match memory {
        Memory::Chunk(chunk) => Memory::Chunk(chunk),
        Memory::Bytes(mut bytes) => {
            write_zeros(&mut bytes, count as usize * class.size() as usize);
            Memory::Bytes(bytes)
        }
    }
}

/// Cuts the memory of `count` chunks of a class below 27.
///
/// It stays with the process, because such a chunk is a slice that lives as long as the process.
fn cut_bytes(mut bytes: Vec<u8>, class: Class, count: u32, chunks: &mut Vec<Chunks>)
    requires class { IsClass class × (class < 27) }
    requires bytes { count * size_of class ≤ vec_capacity bytes }
    requires none { chunks.old.items ≡ [] }
    requires room { count ≤ vec_capacity chunks.old }
    ensures count { vec_len chunks.new ≡ count }
    ensures chunks { All (IsChunkOf class) chunks.new.items }
    ensures capacity { vec_capacity chunks.new ≡ vec_capacity chunks.old }
{
    write_zeros(&mut bytes, count as usize * class.size() as usize);
    let mut rest: &'static mut [u8] = bytes.leak();
    for _ in 0..count {
        let (chunk, others) = Chunks::cut(class, rest);
        chunks.push_reserved(chunk);
        rest = others;
    }
}

/// Extends `memory` with zeros to `length` bytes, which are reserved. It writes nothing if they are
/// there.
fn write_zeros(memory: &mut Vec<u8>, length: usize)
    requires { length ≤ vec_capacity memory.old }
    ensures length { vec_len memory.new ≡ length }
    ensures capacity { vec_capacity memory.old ≤ vec_capacity memory.new }
{
    memory.resize_with(length, || 0).unwrap();
}

/// The runs of a class. A page is allocated as runs, and a run is cut when a chunk is wanted.
#[derive(Drop)]
pub(crate) struct Runs {
    class: Class,
    count: u32,
    runs: Vec<Run>,
}

impl Model for Runs {
    ghost use Rattle.std.specs.Prelude.{◌≡◌};
    ghost use Rattle.mc_slab.specs.Runs.{UncutState, coded_uncut, AreRunsOf, uncut};

    ghost Value = { UncutState };

    ghost coded = { coded_uncut };

    ghost view = { λ r. record { class = r.class; count = r.count } };

    ghost invariant = { λ r. (uncut r.runs.items ≡ r.count) × AreRunsOf r.class r.runs.items };
}

impl Runs {
    /// Returns no runs of the class.
    pub(crate) fn new(alloc: Global, class: Class) -> Runs
        ensures { result ≡ record { class = class; count = 0 } }
    {
        Runs {
            class,
            count: 0,
            runs: Vec::new(alloc),
        }
    }

    /// Returns the number of chunks that aren't cut yet.
    pub(crate) fn count(&self) -> u32
        ensures { result ≡ self.now.count }
    {
        self.count
    }

    /// Allocates the memory of `count` chunks of the class, and uses `pages` first if they fit.
    ///
    /// Memory of `pages` that is of another class, or that isn't wanted, is freed. After a refused
    /// allocation all memory is freed.
    pub(crate) fn provide(
        alloc: Global,
        class: Class,
        count: u32,
        pages: Option<Pages>,
    ) -> Result<Runs, AllocError>
        ensures { IfOk result (λ runs. runs ≡ record { class = class; count = count }) }
    {
        runs_of_pages(alloc, class, pages)
            .keep_at_most(count)
            .fill_up(alloc, count)
    }

    /// Frees runs until at most `most` chunks are left to cut.
    fn keep_at_most(self, most: u32) -> Runs
        ensures class { result.class ≡ self.class }
        ensures most { result.count ≤ most }
    {
        let Runs {
            class,
            mut count,
            mut runs,
        } = self;
        while count > most {
            count -= runs.pop().unwrap().count();
        }
        Runs { class, count, runs }
    }

    /// Allocates the memory of further chunks, up to `count`.
    fn fill_up(self, alloc: Global, count: u32) -> Result<Runs, AllocError>
        requires { self.count ≤ count }
        ensures { IfOk result (λ runs. runs ≡ record { class = self.class; count = count }) }
    {
        let Runs {
            class,
            count: had,
            mut runs,
        } = self;
        make_runs(&mut runs, alloc, class, count - had)?;
        Ok(Runs { class, count, runs })
    }

    /// Appends other runs of the class. An error changes nothing.
    pub(crate) fn join(&mut self, others: Runs) -> Result<(), AllocError>
        requires class { others.class ≡ self.old.class }
        requires few { self.old.count + others.count < 2 ^ 32 }
        ensures ok { OnOk result
            (self.new ≡ record self.old { count = self.old.count + others.count }) }
        ensures err { OnErr result (self.new ≡ self.old) }
    {
        if self.count == 0 {
            *self = others;
            return Ok(());
        }
        let Runs {
            count,
            mut runs,
            ..
        } = others;
        self.runs.append(&mut runs)?;
        self.count += count;
        Ok(())
    }

    /// Fills the run that will be cut first with zeros.
    fn write_next(&mut self)
        ensures { self.new ≡ self.old }
    {
        if let Some(run) = self.runs.pop() {
            self.runs.push_reserved(run.write_memory());
        }
    }

    /// Cuts one run and appends its chunks to `chunks`, which has room.
    #[inline(never)]
    pub(crate) fn cut_into(&mut self, chunks: &mut Vec<Chunks>)
        requires some { 0 < self.old.count }
        requires none { chunks.old.items ≡ [] }
        requires room { self.old.count ≤ vec_capacity chunks.old }
        ensures class { self.new.class ≡ self.old.class }
        ensures count { self.new.count + vec_len chunks.new ≡ self.old.count }
        ensures some { 0 < vec_len chunks.new }
        ensures chunks { All (IsChunkOf self.old.class) chunks.new.items }
        ensures capacity { vec_capacity chunks.new ≡ vec_capacity chunks.old }
    {
        let run = self.runs.pop().unwrap();
        self.count -= run.count();
        run.cut_into(chunks);
    }
}

/// Returns the runs of `pages` if they are of the class, else none.
fn runs_of_pages(alloc: Global, class: Class, pages: Option<Pages>) -> Runs
    ensures { result.class ≡ class }
{
    match pages {
        Some(pages) if pages.class().number() == class.number() => pages.into_runs(),
        _ => Runs::new(alloc, class),
    }
}

/// Returns the number of chunks in a run of the class.
fn chunks_a_run(class: Class) -> u32
    ensures value { result ≡ chunks_a_run class }
    ensures some { 1 ≤ result }
{
    (RUN / class.size()).max(1)
}

/// Appends runs of `count` more chunks of the class.
fn make_runs(runs: &mut Vec<Run>, alloc: Global, class: Class, count: u32) -> Result<(), AllocError>
    requires { AreRunsOf class runs.old.items }
    ensures ok { OnOk result (uncut runs.new.items ≡ uncut runs.old.items + count) }
    ensures runs { AreRunsOf class runs.new.items }
{
    let most = chunks_a_run(class);
    let mut left = count;
    while left > 0 {
        let count = left.min(most);
        runs.push(Run::new(alloc, class, count)?)?;
        left -= count;
    }
    Ok(())
}

/// Memory of pages for a class, allocated before a slab is asked for chunks.
///
/// Below class 27 the run that is cut first is filled with zeros; from class 27 on all chunks are.
/// Contracts see the class and the number of pages. Dropping it frees the memory.
#[derive(Drop)]
pub struct Pages {
    count: u32,
    runs: Runs,
}

impl Model for Pages {
    ghost use Rattle.mc_slab.specs.Runs.{PagesState, coded_pages};

    ghost Value = { PagesState };

    ghost coded = { coded_pages };

    ghost view = { λ p. record { class = p.runs.class; count = p.count } };
}

impl Pages {
    /// Allocates 1 to 8 pages for the class, and fills what is cut first with zeros.
    ///
    /// Below class 27 that is at most 32768 bytes. From class 27 on all chunks of the pages are
    /// made, each in memory of its own, and filled with zeros. The only error is a refused
    /// allocation, and the memory is then freed.
    pub fn new(alloc: Global, class: Class, count: u32) -> Result<Pages, AllocError>
        requires { (1 ≤ count) × (count ≤ 8) }
        ensures { IfOk result (λ pages. pages ≡ record { class = class; count = count }) }
    {
        let chunks = class.chunks_a_page() * count;
        let mut runs = Runs::provide(alloc, class, chunks, None)?;
        runs.write_next();
        Ok(Pages { count, runs })
    }

    /// Returns the class that they are for.
    fn class(&self) -> Class
        ensures { result ≡ self.now.class }
    {
        self.runs.class
    }

    /// Returns their runs.
    fn into_runs(self) -> Runs
        ensures { result.class ≡ self.class }
    {
        self.runs
    }
}
