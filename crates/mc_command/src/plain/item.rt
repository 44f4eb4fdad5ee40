//! The items of the plain store, and their charges and needs.

ghost use Rattle.std.specs.Prelude.{◌≡◌, ◌+◌, ◌-◌, ◌/◌, ◌^◌, ◌<◌, ◌≤◌, ◌++◌, ℕ, List, min, length, IfSome, IfOk};
ghost use Rattle.mc_time.specs.Death as death;
ghost use Rattle.mc_sizes.specs.Classes.{IsClass, page_size};
ghost use Rattle.mc_sizes.specs.Needs.{IsNeed, need_of, need_for};
ghost use Rattle.mc_protocol.specs.Plain.{charge, chunk_head, chunks_in, item_need};
ghost use Rattle.mc_command.specs.Steps.{made_block};

use mc_protocol::{Block, Body, CHUNK_HEAD, Reply, Standing, number_of};
use mc_sizes::{Class, Need, PAGE_SIZE};
use mc_time::{Expiry, Moment};
use std::alloc::{AllocError, Global};
use std::marker::Model;

/// Bytes of a page.
const PAGE: u64 = PAGE_SIZE as u64;

/// What the plain store keeps under a key.
#[derive(Drop)]
pub(crate) struct PlainItem {
    flags: u32,
    expiry: Expiry,
    block: Block,
    unique: u64,
    updated: Moment,
}

impl Model for PlainItem {
    ghost use Rattle.mc_protocol.specs.Plain.{Entry, coded_entry};

    ghost Value = { Entry };

    ghost coded = { coded_entry };

    ghost view = { λ i. record {
      flags = i.flags;
      expiry = i.expiry;
      block = i.block;
      unique = i.unique;
      updated = i.updated;
    } };
}

/// What a write puts under a key.
#[derive(Drop)]
pub(crate) struct Written {
    pub(crate) flags: u32,
    pub(crate) expiry: Expiry,
    pub(crate) block: Block,
}

/// A write before its block is made. The block is `front` followed by `back`.
#[derive(Drop)]
pub(crate) struct LentWrite<'a> {
    pub(crate) flags: u32,
    pub(crate) expiry: Expiry,
    pub(crate) front: &'a [u8],
    pub(crate) back: &'a [u8],
}

impl<'a> Model for LentWrite<'a> {
    ghost use Rattle.std.specs.Prelude.{◌++◌};
    ghost use Rattle.mc_command.specs.declared.plain.item.Written.{Written};

    ghost Value = { Written };

    ghost view = { λ w. record {
      flags = w.flags;
      expiry = w.expiry;
      block = w.front.now ++ w.back.now;
    } };
}

impl<'a> LentWrite<'a> {
    /// Returns the length of its block in bytes.
    fn len(&self) -> u64
        ensures { result ≡ length self.now.block }
    {
        self.front.len() as u64 + self.back.len() as u64
    }

    /// Returns its charge under a key in bytes, at most 2^64 - 1.
    pub(crate) fn charge(&self, key: &[u8]) -> u64
        ensures { result ≡ min (charge key.now self.now.block) (2 ^ 64 - 1) }
    {
        charge_of(key, self.len())
    }

    /// Returns its need under a key, or `None` if eight pages are too few.
    pub(crate) fn need(&self, key: &[u8]) -> Option<Need>
        ensures value { result ≡ need_of (charge key.now self.now.block) }
        ensures is_need { IfSome result IsNeed }
    {
        mc_sizes::need_of(self.charge(key))
    }

    /// Copies its block.
    pub(crate) fn make_block(&self, alloc: Global) -> Result<Written, AllocError>
        ensures { IfOk result (λ written. written ≡ self.now) }
    {
        let mut bytes = Vec::with_capacity(alloc, self.front.len() + self.back.len())?;
        bytes.extend_from_slice(self.front)?;
        bytes.extend_from_slice(self.back)?;
        Ok(Written {
            flags: self.flags,
            expiry: self.expiry,
            block: Block::of(bytes),
        })
    }
}

/// Returns the two halves of the block that a body makes of the step's block, the item's block and
/// a number's digits.
pub(crate) fn halves<'a>(
    body: Body,
    block: &'a [u8],
    old: &'a [u8],
    digits: &'a [u8],
) -> (&'a [u8], &'a [u8])
    ensures { result.0.now ++ result.1.now ≡ made_block body block.now old.now digits.now }
{
    match body {
        Body::Given => (&[], block),
        Body::Appended => (old, block),
        Body::Prepended => (block, old),
        Body::Counted(_) => (&[], digits),
    }
}

impl PlainItem {
    /// Returns the item of a write with this unique number and this moment.
    pub(crate) fn of(written: Written, unique: u64, updated: Moment) -> PlainItem
        ensures { result ≡ record {
          flags = written.flags;
          expiry = written.expiry;
          block = written.block;
          unique = unique;
          updated = updated;
        } }
    {
        PlainItem {
            flags: written.flags,
            expiry: written.expiry,
            block: written.block,
            unique,
            updated,
        }
    }

    /// Returns whether it is dead at `now`. `cut` is the moment of a pending or past flush.
    pub(crate) fn is_dead(&self, cut: Option<u64>, now: Moment) -> bool
        ensures { result ≡ death.is_dead self.now.expiry self.now.updated cut now }
    {
        mc_time::is_dead(self.expiry, self.updated, cut, now)
    }

    /// Returns its need under a key, or `None` if eight pages are too few.
    pub(crate) fn need(&self, key: &[u8]) -> Option<Need>
        ensures value { result ≡ need_of (charge key.now self.now.block) }
        ensures is_need { IfSome result IsNeed }
    {
        mc_sizes::need_of(charge_of(key, self.bytes().len() as u64))
    }

    /// Returns the number of its chunks of the class under a key.
    pub(crate) fn chunks_in(&self, key: &[u8], class: Class) -> u64
        requires { IsClass class }
        ensures value { result ≡ chunks_in (item_need key.now self.now) class }
        ensures range { result ≤ 2 ^ 45 }
    {
        chunks_of(key.len() as u64 + self.bytes().len() as u64, class)
    }

    /// Lends its block.
    pub(crate) fn bytes(&self) -> &[u8]
        ensures { result.now ≡ self.now.block }
    {
        self.block.bytes()
    }

    /// Sets its expiry. Everything else is unchanged.
    pub(crate) fn set_expiry(&mut self, expiry: Expiry)
        ensures { self.new ≡ record self.old { expiry = expiry } }
    {
        self.expiry = expiry;
    }

    /// Returns the reply of a retrieval that finds it.
    pub(crate) fn hit(&self, alloc: Global) -> Result<Reply, AllocError>
        ensures { IfOk result
            (λ reply. reply ≡ Reply.Hit self.now.flags self.now.unique self.now.block) }
    {
        Ok(Reply::Hit {
            flags: self.flags,
            unique: self.unique,
            block: Block::of(Vec::from_slice(alloc, self.block.bytes())?),
        })
    }
}

impl Standing for PlainItem {
    ghost entry_of = { λ item. item };

    fn flags(&self) -> u32 {
        self.flags
    }

    fn expiry(&self) -> Expiry {
        self.expiry
    }

    fn unique(&self) -> u64 {
        self.unique
    }

    fn number(&self) -> Option<u64> {
        number_of(self.bytes())
    }
}

/// Returns the charge in bytes of a key and a block of a length, at most 2^64 - 1.
fn charge_of(key: &[u8], block_len: u64) -> u64
    ensures { result ≡ min (chunk_head + length key.now + block_len) (2 ^ 64 - 1) }
{
    CHUNK_HEAD
        .saturating_add(key.len() as u64)
        .saturating_add(block_len)
}

/// Returns how many chunks of the class an item has, given the length of key and block together.
///
/// It is right for every length, since nothing bounds it here.
fn chunks_of(len: u64, class: Class) -> u64
    requires class { IsClass class }
    requires len { len < 2 ^ 64 - 1 }
    ensures value { result ≡ chunks_in (need_for (chunk_head + len)) class }
    ensures range { result ≤ 2 ^ 45 }
{
    match mc_sizes::class_of(CHUNK_HEAD.saturating_add(len)) {
        Some(held) => u64::from(held == class),
        None if class.number() == 40 => pages_for(len),
        None => 0,
    }
}

/// Returns how many pages hold an item, given the length of key and block together.
fn pages_for(len: u64) -> u64
    ensures value { result ≡ (chunk_head + len + (page_size - 1)) / page_size }
    ensures range { result ≤ 2 ^ 45 }
{
    len / PAGE + (len % PAGE + CHUNK_HEAD + PAGE - 1) / PAGE
}
