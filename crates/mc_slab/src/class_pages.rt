//! The memory of one class: its pages, its chunks that are out, and its free ones.

ghost use Rattle.std.specs.Prelude.{◌≡◌, ◌+◌, ◌-◌, ◌*◌, ◌<◌, ◌≤◌, OnOk, OnErr, vec_len, vec_capacity};
ghost use Rattle.std.specs.List.{All};
ghost use Rattle.mc_slab.specs.Chunks.{AreChunks, AreChunksOf, need_in};
ghost use Rattle.mc_slab.specs.Classes.{chunks_a_page};
ghost use Rattle.mc_slab.specs.Needs.{IsNeed};
ghost use Rattle.mc_slab.specs.PagesByClass.{IsChunkOf, all_chunks};

use crate::block::blank_memory;
use crate::chunks::Chunks;
use crate::run::{Pages, Runs};
use mc_bytes::Large;
use mc_sizes::{Account, CLASSES, Class};
use std::alloc::{AllocError, Global};
use std::marker::Model;
use std::sync::Arc;

/// The pages of one class: how many there are, the chunks that are out, the free ones, and uncut
/// runs.
#[derive(Drop)]
pub(crate) struct ClassPages {
    class: Class,
    pages: u32,
    out: u32,
    free: Vec<Chunks>,
    uncut: Runs,
    /// Memory in which chunks lie that were several pages of one memory, once there are some.
    blank: Option<Arc<Large>>,
}

impl Model for ClassPages {
    ghost use Rattle.std.specs.Prelude.{vec_capacity};
    ghost use Rattle.mc_slab.specs.PagesByClass.{StockState, coded_stock, IsStock};

    ghost Value = { StockState };

    ghost coded = { coded_stock };

    ghost view = { λ s. record { class = s.class; pages = s.pages; out = s.out } };

    ghost invariant = { λ s.
        IsStock (record { class = s.class; pages = s.pages; out = s.out })
        s.free.items (vec_capacity s.free) s.uncut };
}

impl ClassPages {
    /// Returns the stock of a class without pages.
    pub(crate) fn new(alloc: Global, class: Class) -> ClassPages
        ensures { result ≡ record { class = class; pages = 0; out = 0 } }
    {
        // what holds of every class, for the proof
        let _ = class.number();
        ClassPages {
            class,
            pages: 0,
            out: 0,
            free: Vec::new(alloc),
            uncut: Runs::new(alloc, class),
            blank: None,
        }
    }

    /// Returns its pages, and the number of its chunks that are out.
    pub(crate) fn account(&self) -> Account
        ensures value { result ≡ record { pages = self.now.pages; out = self.now.out } }
        ensures within { result.out ≤ all_chunks self.now }
    {
        Account {
            pages: self.pages,
            out: self.out,
        }
    }

    /// Returns the number of its chunks that aren't out: the free ones and those that aren't cut
    /// yet.
    pub(crate) fn unused_chunks(&self) -> u32
        ensures value { result ≡ all_chunks self.now - self.now.out }
        ensures all { self.now.out + result ≡ all_chunks self.now }
    {
        self.free.len() as u32 + self.uncut.count()
    }

    /// Returns how many pages `count` chunks need once `back` chunks were given back.
    ///
    /// It is right if a page holds one chunk, or if `count` is 1.
    pub(crate) fn pages_wanted(&self, count: u32, back: u64) -> u32
        requires { back ≤ self.now.out }
        ensures value { result ≡ count - (all_chunks self.now - self.now.out + back) }
        ensures within { self.now.out ≤ all_chunks self.now }
    {
        let unused = self.free.len() as u64 + u64::from(self.uncut.count());
        u64::from(count).saturating_sub(unused + back) as u32
    }

    /// Adds `count` pages, and uses `pages` first if they are of the class.
    ///
    /// After an error the stock is unchanged: the memory is allocated first, then room for all
    /// chunks in the list of free ones.
    #[inline(never)]
    pub(crate) fn add_pages(
        &mut self,
        alloc: Global,
        count: u32,
        pages: Option<Pages>,
    ) -> Result<(), AllocError>
        requires few { self.old.pages + count ≤ 65536 }
        ensures ok { OnOk result (self.new ≡ record self.old { pages = self.old.pages + count }) }
        ensures err { OnErr result (self.new ≡ self.old) }
    {
        let chunks = count * self.class.chunks_a_page();
        let runs = Runs::provide(alloc, self.class, chunks, pages)?;
        // There is room for all: those that are out, free or uncut, and those of the new pages.
        let more = self.out + self.uncut.count() + chunks;
        self.free.reserve_exact(more as usize)?;
        self.uncut.join(runs)?;
        self.pages += count;
        if self.class.number() == CLASSES && 1 < self.pages && self.blank.is_none() {
            self.blank = blank_memory(alloc, self.class.size() as usize);
        }
        Ok(())
    }

    /// Takes `count` chunks. It takes no memory.
    pub(crate) fn take(&mut self, count: u32) -> Chunks
        requires need { IsNeed (record { class = self.old.class; count = count }) }
        requires enough { self.old.out + count ≤ all_chunks self.old }
        ensures chunks { AreChunksOf (record { class = self.old.class; count = count }) result }
        ensures out { self.new ≡ record self.old { out = self.old.out + count } }
    {
        let chunks = take_linked(&mut self.free, &mut self.uncut, count);
        self.out += count;
        chunks
    }

    /// Gives `count` chunks back. It takes no memory.
    pub(crate) fn give(&mut self, chunks: Chunks, count: u32)
        requires out { count ≤ self.old.out }
        requires class { AreChunksOf (record { class = self.old.class; count = count }) chunks }
        ensures { self.new ≡ record self.old { out = self.old.out - count } }
    {
        let chunks = whole_pages(chunks, count, &self.blank);
        give_apart(&mut self.free, chunks, count);
        self.out -= count;
    }
}

/// Returns the chunks, none of which is a piece of larger memory, if blank memory is there.
fn whole_pages(chunks: Chunks, count: u32, blank: &Option<Arc<Large>>) -> Chunks
    requires { AreChunks chunks }
    ensures same { need_in result ≡ need_in chunks.entry }
    ensures are { AreChunks result }
{
    let mut chunks = chunks;
    if 1 < count {
        if let Some(blank) = blank {
            chunks.give_up(blank);
        }
    }
    chunks
}

/// Takes `count` free chunks, linked, and cuts a run if too few are free.
fn take_linked(free: &mut Vec<Chunks>, uncut: &mut Runs, count: u32) -> Chunks
    requires need { IsNeed (record { class = uncut.old.class; count = count }) }
    requires chunks { All (IsChunkOf uncut.old.class) free.old.items }
    requires some { count ≤ vec_len free.old + uncut.old.count }
    requires room { vec_len free.old + uncut.old.count ≤ vec_capacity free.old }
    ensures chunk { AreChunksOf (record { class = uncut.old.class; count = count }) result }
    ensures chunks { All (IsChunkOf uncut.old.class) free.new.items }
    ensures count { vec_len free.new + uncut.new.count + count
        ≡ vec_len free.old + uncut.old.count }
    ensures class { uncut.new.class ≡ uncut.old.class }
    ensures capacity { vec_capacity free.new ≡ vec_capacity free.old }
{
    if count == 1 {
        take_free(free, uncut)
    } else {
        take_pages(free, uncut, count)
    }
}

/// Takes `count` chunks of the last class, linked.
#[inline(never)]
fn take_pages(free: &mut Vec<Chunks>, uncut: &mut Runs, count: u32) -> Chunks
    requires class { uncut.old.class ≡ 40 }
    requires few { (1 ≤ count) × (count ≤ 8) }
    requires chunks { All (IsChunkOf uncut.old.class) free.old.items }
    requires some { count ≤ vec_len free.old + uncut.old.count }
    requires room { vec_len free.old + uncut.old.count ≤ vec_capacity free.old }
    ensures chunk { AreChunksOf (record { class = uncut.old.class; count = count }) result }
    ensures chunks { All (IsChunkOf uncut.old.class) free.new.items }
    ensures count { vec_len free.new + uncut.new.count + count
        ≡ vec_len free.old + uncut.old.count }
    ensures class { uncut.new.class ≡ uncut.old.class }
    ensures capacity { vec_capacity free.new ≡ vec_capacity free.old }
{
    let one = take_free(free, uncut);
    if count == 1 {
        return one;
    }
    let others = take_pages(free, uncut, count - 1);
    Chunks::in_front(one, others)
}

/// Takes one free chunk. If none is free it first cuts a run, for which there is room.
fn take_free(free: &mut Vec<Chunks>, uncut: &mut Runs) -> Chunks
    requires chunks { All (IsChunkOf uncut.old.class) free.old.items }
    requires some { 0 < vec_len free.old + uncut.old.count }
    requires room { vec_len free.old + uncut.old.count ≤ vec_capacity free.old }
    ensures chunk { IsChunkOf uncut.old.class result }
    ensures chunks { All (IsChunkOf uncut.old.class) free.new.items }
    ensures count { vec_len free.new + uncut.new.count + 1 ≡ vec_len free.old + uncut.old.count }
    ensures class { uncut.new.class ≡ uncut.old.class }
    ensures capacity { vec_capacity free.new ≡ vec_capacity free.old }
{
    if free.is_empty() {
        uncut.cut_into(free);
    }
    free.pop().unwrap()
}

/// Appends `count` linked chunks to the free ones, one by one. There is room for them.
fn give_apart(free: &mut Vec<Chunks>, chunks: Chunks, count: u32)
    requires some { 1 ≤ count }
    requires room { vec_len free.old + count ≤ vec_capacity free.old }
    requires free { All (IsChunkOf chunks.class) free.old.items }
    requires chunks { AreChunksOf (record { class = chunks.class; count = count }) chunks }
    ensures free { All (IsChunkOf chunks.entry.class) free.new.items }
    ensures count { vec_len free.new ≡ vec_len free.old + count }
    ensures capacity { vec_capacity free.new ≡ vec_capacity free.old }
{
    let mut rest = chunks;
    for _ in 1..count {
        let (one, behind) = rest.taken_off();
        free.push_reserved(one);
        rest = behind;
    }
    free.push_reserved(rest);
}
