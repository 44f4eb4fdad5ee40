//! An item in its chunks.

ghost use Rattle.std.specs.Prelude.{◌≡◌, ◌+◌, ◌<◌, ◌≤◌, ◌++◌, [], length, decimal, Some, IfSome, slice_get, OnOk, OnErr, vec_capacity};
ghost use Rattle.std.specs.List.{concat};
ghost use Rattle.mc_slab.specs.Chunks.{AreChunks, largest_block, need_in, with_part};
ghost use Rattle.mc_slab.specs.Needs.{size_in};
ghost use Rattle.mc_item.specs.Items.{IsItem, charge_of, header_size, item_need, longest_key};
ghost use Rattle.mc_item.specs.Items.{parts_of};
ghost use Rattle.mc_item.specs.Layout.{item_in};

use crate::header::{
    block_length_in, expiry_in, flags_in, hash_in, key_length_in, unique_in, updated_in,
};
use crate::run::{
    append_reserved, front, lend_part, part_of, write_behind, write_block, write_expiry,
    write_head, write_item, write_number,
};
use mc_bytes::Lent;
use mc_slab::{Chunks, Class, HEADER_SIZE, Need};
use mc_time::{Expiry, Moment};
use std::alloc::AllocError;
use std::marker::Model;

/// The fields of an item. Its block is `first` followed by `second`.
#[derive(Clone, Copy)]
pub struct Parts<'a> {
    /// The hash of the key, by which it is found.
    pub hash: u64,
    /// The key, 0 to 250 bytes.
    pub key: &'a [u8],
    /// The front of the block.
    pub first: &'a [u8],
    /// The rest of the block.
    pub second: &'a [u8],
    /// The memory of the whole block, if its chunks may take it over. `first` is then empty.
    pub lent: Option<&'a Lent>,
    /// The client's flags.
    pub flags: u32,
    /// When it expires.
    pub expiry: Expiry,
    /// The unique number of the write.
    pub unique: u64,
    /// When its block was written.
    pub updated: Moment,
}

/// An item in its chunks: a header of 48 bytes, the key and the block.
///
/// The header and the key are in the head of the chunks, and the block is in their bytes, from
/// class 27 on at place 0. Contracts see the item's fields, and the class and number of its chunks.
/// An item is moved and never copied. An item that is dropped without giving its chunks back stays
/// out in the slab's account for ever. Only `append_to` takes memory.
#[derive(Drop)]
pub struct Item {
    chunks: Chunks,
}

impl Model for Item {
    ghost use Rattle.mc_item.specs.Items.{ItemState, coded_item};
    ghost use Rattle.mc_item.specs.Layout.{item_in, HoldsItem};

    ghost Value = { ItemState };

    ghost coded = { coded_item };

    ghost view = { λ i. item_in i.chunks };

    ghost invariant = { λ i. HoldsItem i.chunks };
}

impl Item {
    /// Writes an item of these parts into chunks.
    ///
    /// It copies the key and the block, and takes no memory. A block whose memory is lent isn't
    /// copied if the chunks take that over.
    pub fn write(mut chunks: Chunks, parts: Parts<'_>) -> Item
        requires key { length parts.key.now ≤ longest_key }
        requires room { header_size + length parts.key.now
            + length parts.first.now + length parts.second.now ≤ length chunks.bytes }
        requires lent { IfSome parts.lent (λ lent.
            (parts.first.now ≡ []) × (lent.now ≡ parts.second.now)) }
        ensures value { result ≡ record {
          hash = parts.entry.hash;
          key = parts.entry.key.now;
          flags = parts.entry.flags;
          expiry = parts.entry.expiry;
          block = parts.entry.first.now ++ parts.entry.second.now;
          unique = parts.entry.unique;
          updated = parts.entry.updated;
          class = chunks.entry.class;
          count = chunks.entry.count;
        } }
        ensures is_item { IsItem result }
    {
        // a copy: no proof covers a struct of references that is lent on
        write_item(&mut chunks, &Parts { ..parts });
        Item { chunks }
    }

    /// Writes an item of these parts into chunks, with `block_len` unspecified bytes as its block.
    ///
    /// `fill` and `fill_from` write the block; that of the parts isn't read. It copies the key, and
    /// takes no memory. The cost doesn't grow with the block.
    pub fn begin(mut chunks: Chunks, parts: Parts<'_>, block_len: usize) -> Item
        requires key { length parts.key.now ≤ longest_key }
        requires room { header_size + length parts.key.now + block_len ≤ length chunks.bytes }
        ensures value { result ≡ record {
          hash = parts.entry.hash;
          key = parts.entry.key.now;
          flags = parts.entry.flags;
          expiry = parts.entry.expiry;
          block = result.block;
          unique = parts.entry.unique;
          updated = parts.entry.updated;
          class = chunks.entry.class;
          count = chunks.entry.count;
        } }
        ensures length { length result.block ≡ block_len }
        ensures is_item { IsItem result }
    {
        // a copy: no proof covers a struct of references that is lent on
        write_head(&mut chunks, &Parts { ..parts }, block_len);
        Item { chunks }
    }

    /// Copies bytes into its block from offset `at` on. Everything else is unchanged.
    pub fn fill(&mut self, at: usize, bytes: &[u8])
        requires { at + length bytes.now ≤ length self.old.block }
        ensures value { self.new
            ≡ record self.old { block = with_part self.old.block at bytes.now } }
        ensures is_item { IsItem self.new }
    {
        write_block(&mut self.chunks, at, bytes);
    }

    /// Copies another item's block into its own from offset `at` on. Everything else is unchanged.
    pub fn fill_from(&mut self, at: usize, other: &Item)
        requires { at + length other.now.block ≤ length self.old.block }
        ensures value { self.new
            ≡ record self.old { block = with_part self.old.block at other.now.block } }
        ensures is_item { IsItem self.new }
    {
        let count = other.parts();
        let mut place = at;
        for index in 0..count {
            let part = other.part(index);
            self.fill(place, part);
            place += part.len();
        }
    }

    /// Writes other parts into its chunks, in place, as `write` does.
    pub fn rewrite(&mut self, parts: Parts<'_>)
        requires key { length parts.key.now ≤ longest_key }
        requires room { header_size + length parts.key.now + length parts.first.now
            + length parts.second.now ≤ size_in (item_need self.old) }
        requires lent { IfSome parts.lent (λ lent.
            (parts.first.now ≡ []) × (lent.now ≡ parts.second.now)) }
        ensures value { self.new ≡ record {
          hash = parts.entry.hash;
          key = parts.entry.key.now;
          flags = parts.entry.flags;
          expiry = parts.entry.expiry;
          block = parts.entry.first.now ++ parts.entry.second.now;
          unique = parts.entry.unique;
          updated = parts.entry.updated;
          class = self.old.class;
          count = self.old.count;
        } }
        ensures is_item { IsItem self.new }
    {
        // a copy: no proof covers a struct of references that is lent on
        write_item(&mut self.chunks, &Parts { ..parts });
    }

    /// Appends bytes to its block in place, and sets flags, expiry, unique number and `updated`.
    ///
    /// The key, its hash and the chunks are unchanged. It copies only the new bytes, and takes no
    /// memory.
    pub fn extend(&mut self, more: &[u8], flags: u32, expiry: Expiry, unique: u64, updated: Moment)
        requires room { charge_of self.old + length more.now ≤ size_in (item_need self.old) }
        ensures value { self.new ≡ record self.old {
          flags = flags;
          expiry = expiry;
          block = self.old.block ++ more.now;
          unique = unique;
          updated = updated;
        } }
        ensures is_item { IsItem self.new }
    {
        write_behind(&mut self.chunks, more, flags, expiry, unique, updated);
    }

    /// Lends its key, 0 to 250 bytes.
    pub fn key(&self) -> &[u8]
        ensures value { result.now ≡ self.now.key }
        ensures is_item { IsItem self.now }
    {
        let bytes = front(&self.chunks);
        let length = key_length_in(bytes) as usize;
        &bytes[HEADER_SIZE..HEADER_SIZE + length]
    }

    /// Returns the number of parts of its block, 1 to 8, one in each chunk.
    ///
    /// Parts behind the end of the block are empty.
    pub fn parts(&self) -> usize
        ensures value { result ≡ self.now.count }
        ensures joined { concat (parts_of self.now) ≡ self.now.block }
        ensures is_item { IsItem self.now }
    {
        self.need().count() as usize
    }

    /// Lends the part of its block in the chunk at a place, the first at 0.
    ///
    /// For an item of one chunk, part 0 is the whole block.
    pub fn part(&self, at: usize) -> &[u8]
        requires { at < self.now.count }
        ensures value { slice_get (parts_of self.now) at ≡ Some result.now }
        ensures lone { self.now.count ≡ 1 → result.now ≡ self.now.block }
        ensures is_item { IsItem self.now }
    {
        part_of(&self.chunks, at)
    }

    /// Lends the part of its block in the chunk at a place for as long as the result is there.
    ///
    /// The bytes that are lent stay as they are, even if the item is written again or dropped. It
    /// takes no memory. `None` for a class below 27, and for chunks whose memory can't be lent.
    pub fn lend(&self, at: usize) -> Option<Lent>
        requires { at < self.now.count }
        ensures value { IfSome result (λ lent. slice_get (parts_of self.now) at ≡ Some lent) }
        ensures is_item { IsItem self.now }
    {
        lend_part(&self.chunks, at)
    }

    /// Returns the length of its block, 0 to [`mc_slab::LARGEST_BLOCK`] bytes.
    pub fn block_len(&self) -> usize
        ensures value { result ≡ length self.now.block }
        ensures most { result ≤ largest_block }
        ensures is_item { IsItem self.now }
    {
        block_length_in(front(&self.chunks)) as usize
    }

    /// Appends its block to a vector.
    ///
    /// It allocates once, before the first byte is copied. The only error is a refused allocation,
    /// and the vector is then unchanged.
    pub fn append_to(&self, out: &mut Vec<u8>) -> Result<(), AllocError>
        ensures ok { OnOk result (out.new.items ≡ out.old.items ++ self.now.block) }
        ensures err { OnErr result (out.new.items ≡ out.old.items) }
        ensures full { OnErr result
            (vec_capacity out.old < length out.old.items + length self.now.block) }
        ensures is_item { IsItem self.now }
    {
        out.reserve(self.block_len())?;
        let parts = self.parts();
        if parts == 1 {
            append_reserved(out, self.part(0));
            return Ok(());
        }
        for index in 0..parts {
            append_reserved(out, self.part(index));
        }
        Ok(())
    }

    /// Returns the hash of its key, as it was given.
    pub fn hash(&self) -> u64
        ensures { result ≡ self.now.hash }
    {
        hash_in(front(&self.chunks))
    }

    /// Returns the client's flags.
    pub fn flags(&self) -> u32
        ensures { result ≡ self.now.flags }
    {
        flags_in(front(&self.chunks))
    }

    /// Returns when it expires.
    pub fn expiry(&self) -> Expiry
        ensures { result ≡ self.now.expiry }
    {
        expiry_in(front(&self.chunks))
    }

    /// Returns its unique number, which no other write has.
    pub fn unique(&self) -> u64
        ensures { result ≡ self.now.unique }
    {
        unique_in(front(&self.chunks))
    }

    /// Returns when its block was last written.
    pub fn updated(&self) -> Moment
        ensures { result ≡ self.now.updated }
    {
        updated_in(front(&self.chunks))
    }

    /// Returns its charge in bytes: 48 for the header, the key's length and the block's length.
    pub fn charge(&self) -> u64
        ensures value { result ≡ charge_of self.now }
        ensures is_item { IsItem self.now }
    {
        let bytes = front(&self.chunks);
        HEADER_SIZE as u64 + u64::from(key_length_in(bytes)) + u64::from(block_length_in(bytes))
    }

    /// Returns the class of its chunks.
    pub fn class(&self) -> Class
        ensures value { result ≡ self.now.class }
        ensures is_item { IsItem self.now }
    {
        self.need().class()
    }

    /// Returns the need that its chunks serve: their class and their number.
    ///
    /// That may be more chunks, or larger ones, than its charge needs.
    pub fn need(&self) -> Need
        ensures value { result ≡ item_need self.now }
        ensures is_item { IsItem self.now }
    {
        self.chunks.need()
    }

    /// Writes the decimal digits of a number in place of its block.
    ///
    /// It sets the unique number and the time of update. The key, its hash, the flags, the expiry
    /// and the chunks are unchanged. It takes no memory.
    pub fn rewrite_number(&mut self, number: u64, unique: u64, updated: Moment)
        requires room { header_size + length self.old.key + length (decimal number)
            ≤ size_in (item_need self.old) }
        ensures value { self.new ≡ record self.old {
          block = decimal number;
          unique = unique;
          updated = updated;
        } }
        ensures is_item { IsItem self.new }
    {
        write_number(&mut self.chunks, number, unique, updated);
    }

    /// Sets its expiry. Everything else is unchanged.
    pub fn set_expiry(&mut self, expiry: Expiry)
        ensures value { self.new ≡ record self.old { expiry = expiry } }
        ensures is_item { IsItem self.new }
    {
        write_expiry(&mut self.chunks, expiry);
    }

    /// Returns its chunks, to be given back to the slab or written again.
    pub fn into_chunks(self) -> Chunks
        ensures need { need_in result ≡ item_need self.entry }
        ensures run { item_in result ≡ self.entry }
        ensures are { AreChunks result }
        ensures is_item { IsItem self.entry }
    {
        let Item { chunks } = self;
        chunks
    }
}
