//! An item as an entry of an index.

ghost use Rattle.std.specs.Prelude.{◌≡◌, ◌+◌, ◌<◌, ◌≤◌, ◌++◌, length, drop, slice_get, Some, IfSome, OnOk, OnErr};
ghost use Rattle.std.specs.List.{concat, list_all};
ghost use Rattle.mc_slab.specs.Needs.{IsNeed, need_for};
ghost use Rattle.mc_slab.specs.Chunks.{need_in, with_part, largest_block};
ghost use Rattle.mc_protocol.specs.Words.{is_space};
ghost use Rattle.mc_protocol.specs.Plain.{charge, item_need, number_of};
ghost use Rattle.mc_shelf.specs.States.{entry_with, parts_of};

use mc_bytes::Lent;
use mc_hop::Keyed;
use mc_item::{Item, Parts};
use mc_protocol::{Bytes, Standing, number_of};
use mc_slab::{Chunks, Need};
use mc_time::{Expiry, Moment};
use std::alloc::AllocError;
use std::marker::Model;

/// An item, whose header has the hash of its key. It has the chunks that its charge needs.
#[derive(Drop)]
pub struct Entry {
    item: Item,
}

impl Model for Entry {
    ghost use Rattle.std.specs.Prelude.{◌≡◌};
    ghost use Rattle.mc_slab.specs.Needs.{need_for};
    ghost use Rattle.mc_item.specs.Items.{charge_of, item_need};
    ghost use Rattle.mc_shelf.specs.States.{EntryState, coded_entry_state, entry_of};

    ghost Value = { EntryState };

    ghost coded = { coded_entry_state };

    ghost view = { λ e. record { hash = e.item.hash; key = e.item.key; item = entry_of e.item } };

    ghost invariant = { λ e. item_need e.item ≡ need_for (charge_of e.item) };
}

/// Returns the parts of an item without its block.
#[inline]
pub(crate) fn bare_parts<'a>(
    hash: u64,
    key: &'a [u8],
    flags: u32,
    expiry: Expiry,
    unique: u64,
    updated: Moment,
) -> Parts<'a>
    ensures hash { result.hash ≡ hash }
    ensures key { result.key.now ≡ key.now }
    ensures flags { result.flags ≡ flags }
    ensures expiry { result.expiry ≡ expiry }
    ensures unique { result.unique ≡ unique }
    ensures updated { result.updated ≡ updated }
{
    Parts {
        hash,
        key,
        first: &[],
        second: &[],
        lent: None,
        flags,
        expiry,
        unique,
        updated,
    }
}

impl Entry {
    ghost use Rattle.mc_protocol.specs.Commands.{longest_key};
    ghost use Rattle.mc_item.specs.Items.{header_size};

    /// Writes an item of these parts into chunks, with this block, and returns its entry.
    ///
    /// It copies the key, at most 250 bytes, and the block. That of the parts isn't read.
    pub(crate) fn write(chunks: Chunks, parts: &Parts<'_>, block: &Bytes<'_>) -> Entry
        requires key { length parts.now.key.now ≤ longest_key }
        requires need { need_in chunks ≡ need_for (charge parts.now.key.now block.now) }
        requires room { charge parts.now.key.now block.now ≤ length chunks.bytes }
        ensures { result ≡ entry_with parts.now block.now }
    {
        Entry {
            item: Item::write(
                chunks,
                Parts {
                    first: &[],
                    second: block.as_slice(),
                    lent: block.lent(),
                    ..*parts
                },
            ),
        }
    }

    /// Writes an item of these parts into chunks, with `block_len` unspecified bytes as its block.
    ///
    /// It copies the key, at most 250 bytes.
    pub(crate) fn begin(chunks: Chunks, parts: &Parts<'_>, block_len: usize) -> Entry
        requires key { length parts.now.key.now ≤ longest_key }
        requires need { need_in chunks
            ≡ need_for (header_size + length parts.now.key.now + block_len) }
        requires room { header_size + length parts.now.key.now + block_len ≤ length chunks.bytes }
        ensures value { result ≡ entry_with parts.now result.item.block }
        ensures length { length result.item.block ≡ block_len }
    {
        Entry {
            item: Item::begin(chunks, Parts { ..*parts }, block_len),
        }
    }

    /// Copies bytes into its block from offset `at` on. Everything else is unchanged.
    pub(crate) fn fill(&mut self, at: usize, bytes: &[u8])
        requires { at + length bytes.now ≤ length self.old.item.block }
        ensures { self.new ≡ record self.old {
          item = record self.old.item { block = with_part self.old.item.block at bytes.now };
        } }
    {
        self.item.fill(at, bytes);
    }

    /// Copies another item's block into its own from offset `at` on. Everything else is unchanged.
    pub(crate) fn fill_from(&mut self, at: usize, other: &Entry)
        requires { at + length other.now.item.block ≤ length self.old.item.block }
        ensures { self.new ≡ record self.old {
          item = record self.old.item {
            block = with_part self.old.item.block at other.now.item.block;
          };
        } }
    {
        self.item.fill_from(at, &other.item);
    }

    /// Writes an item of other parts into its chunks, with this block. They must be the chunks that
    /// the charge needs.
    ///
    /// The key is the same, and its hash is unchanged.
    pub(crate) fn rewrite(&mut self, parts: &Parts<'_>, block: &Bytes<'_>)
        requires key { parts.now.key.now ≡ self.old.key }
        requires short { length parts.now.key.now ≤ longest_key }
        requires need { need_for (charge parts.now.key.now block.now)
            ≡ item_need self.old.key self.old.item }
        ensures { self.new ≡ record self.old { item = (entry_with parts.now block.now).item } }
    {
        self.lies_in_need();
        self.item.rewrite(Parts {
            hash: self.item.hash(),
            first: &[],
            second: block.as_slice(),
            lent: block.lent(),
            ..*parts
        });
    }

    /// Appends bytes to its block in place, and sets flags, expiry, unique number and `updated`.
    ///
    /// Its chunks must be those that the new charge needs. The key and its hash are unchanged.
    pub(crate) fn extend(&mut self, more: &[u8], parts: &Parts<'_>)
        requires { item_need self.old.key self.old.item
            ≡ need_for (charge self.old.key (self.old.item.block ++ more.now)) }
        ensures { self.new ≡ record self.old {
          item = (entry_with parts.now (self.old.item.block ++ more.now)).item;
        } }
    {
        self.lies_in_need();
        self.item.extend(more, parts.flags, parts.expiry, parts.unique, parts.updated);
    }

    /// Returns when its block was last written.
    pub fn updated_at(&self) -> Moment
        ensures { result ≡ self.now.item.updated }
    {
        self.item.updated()
    }

    /// Returns the need that its chunks serve.
    pub fn need(&self) -> Need
        ensures value { result ≡ item_need self.now.key self.now.item }
        ensures is_need { IsNeed result }
    {
        self.item.need()
    }

    /// Returns the length of its block, at most 8388560 bytes.
    pub(crate) fn block_len(&self) -> usize
        ensures value { result ≡ length self.now.item.block }
        ensures most { result ≤ largest_block }
    {
        self.item.block_len()
    }

    /// Returns the number of parts of its block, 1 to 8, one in each chunk.
    pub(crate) fn parts(&self) -> usize
        ensures value { result ≡ (item_need self.now.key self.now.item).count }
        ensures joined { concat (parts_of self.now.key self.now.item) ≡ self.now.item.block }
        ensures is_need { IsNeed (item_need self.now.key self.now.item) }
        ensures key { length self.now.key ≤ longest_key }
    {
        self.item.parts()
    }

    /// Lends a part of its block, the first at 0. For an item of one chunk that is the whole block.
    pub(crate) fn part(&self, at: usize) -> &[u8]
        requires { at < (item_need self.now.key self.now.item).count }
        ensures value { slice_get (parts_of self.now.key self.now.item) at ≡ Some result.now }
        ensures lone { (item_need self.now.key self.now.item).count ≡ 1
            → result.now ≡ self.now.item.block }
    {
        self.item.part(at)
    }

    /// Lends a part of its block for as long as the result is there, the first at 0.
    ///
    /// The bytes that are lent stay as they are, even if the item is written again or deleted. It
    /// takes no memory. `None` if the part's memory can't be lent, as in classes below 27.
    pub(crate) fn lend(&self, at: usize) -> Option<Lent>
        requires { at < (item_need self.now.key self.now.item).count }
        ensures { IfSome result (λ lent.
            slice_get (parts_of self.now.key self.now.item) at ≡ Some lent) }
    {
        self.item.lend(at)
    }

    /// Appends its block to a vector.
    ///
    /// The only error is a refused allocation, and nothing is then appended.
    pub(crate) fn append_to(&self, out: &mut Vec<u8>) -> Result<(), AllocError>
        ensures ok { OnOk result (out.new.items ≡ out.old.items ++ self.now.item.block) }
        ensures err { OnErr result (out.new.items ≡ out.old.items) }
    {
        self.item.append_to(out)
    }

    /// Returns whether its block has only spaces behind its first part.
    fn ends_blank(&self) -> bool
        ensures { result ≡ list_all (λ part. list_all is_space part)
            (drop 1 (parts_of self.now.key self.now.item)) }
    {
        for at in 1..self.parts() {
            if !is_blank(self.part(at)) {
                return false;
            }
        }
        true
    }

    /// Sets its expiry. Everything else is unchanged.
    pub(crate) fn set_expiry(&mut self, expiry: Expiry)
        ensures { self.new ≡ record self.old { item = record self.old.item { expiry = expiry } } }
    {
        self.item.set_expiry(expiry);
    }

    /// For the proof: states that its chunks serve a need. It reads that need, and changes nothing.
    fn lies_in_need(&self)
        ensures { IsNeed (item_need self.now.key self.now.item) }
    {
        let _need = self.need();
    }

    /// Returns its chunks.
    pub(crate) fn into_chunks(self) -> Chunks
        ensures need { need_in result ≡ item_need self.entry.key self.entry.item }
        ensures is_need { IsNeed (item_need self.entry.key self.entry.item) }
    {
        self.lies_in_need();
        self.item.into_chunks()
    }
}

/// Returns whether a text has only spaces.
fn is_blank(text: &[u8]) -> bool
    ensures { result ≡ list_all is_space text.now }
{
    text.iter().all(|byte| *byte == b' ')
}

impl Keyed for Entry {
    ghost hash_of = { λ e. e.hash };

    ghost key_of = { λ e. e.key };

    /// Returns the hash of its key, as it was given.
    fn hash(&self) -> u64 {
        self.item.hash()
    }

    /// Lends its key, 0 to 250 bytes.
    fn key(&self) -> &[u8] {
        self.item.key()
    }
}

impl Standing for Entry {
    ghost entry_of = { λ e. e.item };

    /// Returns the client's flags.
    fn flags(&self) -> u32 {
        self.item.flags()
    }

    /// Returns when it expires.
    fn expiry(&self) -> Expiry {
        self.item.expiry()
    }

    /// Returns its unique number, which no other write has.
    fn unique(&self) -> u64 {
        self.item.unique()
    }

    /// Returns the number that its block is, or `None`.
    fn number(&self) -> Option<u64>
        ensures value { result ≡ number_of self.now.item.block }
    {
        let parts = self.parts();
        let front = number_of(self.part(0));
        if parts == 1 || self.ends_blank() {
            return front;
        }
        None
    }
}
