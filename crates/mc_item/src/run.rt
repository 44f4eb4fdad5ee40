//! Writes an item's header and key into the head of its chunks, and its block into their bytes.

ghost use Rattle.std.specs.Prelude.{◌≡◌, ◌+◌, ◌-◌, ◌<◌, ◌≤◌, ◌^◌, ◌++◌, [], length, take, drop};
ghost use Rattle.std.specs.Prelude.{decimal, Some, IfSome, IsTrue, IsFalse, slice_get};
ghost use Rattle.std.specs.Prelude.{vec_capacity};
ghost use Rattle.mc_slab.specs.Classes.{size_of};
ghost use Rattle.mc_slab.specs.Chunks.{AreChunks, TakesOver, chunk_at, need_in, with_part};
ghost use Rattle.mc_item.specs.Items.{header_size, longest_key, parts_of, start_of};
ghost use Rattle.mc_item.specs.Layout.{block_in, block_length_in, header_in, item_in, key_in};
ghost use Rattle.mc_item.specs.Layout.{key_length_in, updated_in, HoldsItem, KeepsBytes, KeepsHead};

use crate::header::{
    block_length_in, expiry_in, flags_in, hash_in, header_bytes, key_length_in, unique_in,
    updated_in,
};
use crate::item::Parts;
use itoa::Buffer;
use mc_bytes::Lent;
use mc_slab::{Chunks, HEADER_SIZE};
use mc_time::{Expiry, Moment};

/// The first class whose chunks can be lent, and have their head beside them.
const LENT: u8 = 27;

/// Lends the bytes that begin with an item's header and its key.
#[inline]
pub(crate) fn front(chunks: &Chunks) -> &[u8]
    requires { HoldsItem chunks.now }
    ensures value { result.now ≡ chunks.now.head }
    ensures header { header_in result.now ≡ header_in chunks.now.head }
    ensures key { key_in result.now ≡ key_in chunks.now.head }
    ensures room { header_size + key_length_in chunks.now.head ≤ length result.now }
    ensures latest { updated_in result.now ≤ 2 ^ 62 }
{
    chunks.head()
}

/// Returns a length within chunks as a `u32`. Chunks have at most 8388608 bytes.
pub(crate) fn length_in(chunks: &Chunks, count: usize) -> u32
    requires { count ≤ length chunks.now.bytes }
    ensures value { result ≡ count }
    ensures are { AreChunks chunks.now }
{
    // for the proof: the invariant of chunks
    let _ = chunks.first();
    count as u32
}

/// Returns whether the head of chunks lies beside their bytes, and isn't their begin.
#[inline]
fn has_head_beside(chunks: &Chunks) -> bool
    ensures beside { IsTrue result → 27 ≤ chunks.now.class }
    ensures begins { IsFalse result → chunks.now.class < 27 }
{
    chunks.need().class().number() >= LENT
}

/// Returns where the block of an item with a key of `key_len` bytes begins in the bytes of chunks.
///
/// That is behind header and key, and from class 27 on, where those lie beside, at place 0.
#[inline]
#[tactic(auto, unfolding(crate::specs::Items::start_of))]
fn block_start(chunks: &Chunks, key_len: usize) -> usize
    requires { key_len ≤ longest_key }
    ensures value { result ≡ start_of chunks.now.class key_len }
    ensures most { result ≤ header_size + key_len }
{
    if has_head_beside(chunks) {
        return 0;
    }
    HEADER_SIZE + key_len
}

/// Copies `source` to an offset in the head. What is behind it is unchanged, and so are the chunks'
/// bytes from class 27 on.
fn put_head(chunks: &mut Chunks, offset: usize, source: &[u8])
    requires are { AreChunks chunks.old }
    requires room { offset + length source.now ≤ length chunks.old.head }
    ensures before { take (offset + length source.now) chunks.new.head
        ≡ take offset chunks.old.head ++ source.now }
    ensures behind { drop (offset + length source.now) chunks.new.head
        ≡ drop (offset + length source.now) chunks.old.head }
    ensures bytes { KeepsBytes chunks.old chunks.new (offset + length source.now) }
    ensures head { length chunks.new.head ≡ length chunks.old.head }
    ensures size { length chunks.new.bytes ≡ length chunks.old.bytes }
    ensures need { need_in chunks.new ≡ need_in chunks.old }
    ensures are { AreChunks chunks.new }
{
    chunks.write_head(offset, source);
}

/// Copies `source` to an offset in the bytes, and returns at once if it is empty.
///
/// The head in front of the offset is unchanged, and all of it from class 27 on.
fn put(chunks: &mut Chunks, offset: usize, source: &[u8])
    requires are { AreChunks chunks.old }
    requires room { offset + length source.now ≤ length chunks.old.bytes }
    ensures head { KeepsHead chunks.old chunks.new offset }
    ensures before { take (offset + length source.now) chunks.new.bytes
        ≡ take offset chunks.old.bytes ++ source.now }
    ensures behind { drop (offset + length source.now) chunks.new.bytes
        ≡ drop (offset + length source.now) chunks.old.bytes }
    ensures size { length chunks.new.bytes ≡ length chunks.old.bytes }
    ensures need { need_in chunks.new ≡ need_in chunks.old }
    ensures are { AreChunks chunks.new }
{
    if source.is_empty() {
        return;
    }
    chunks.write_at(offset, source);
}

/// Writes the bytes of a header. The bytes behind it are unchanged.
fn put_header(chunks: &mut Chunks, header: &[u8; HEADER_SIZE])
    requires are { AreChunks chunks.old }
    requires room { header_size ≤ length chunks.old.head }
    ensures value { header_in chunks.new.head ≡ header_in header.now }
    ensures behind { drop header_size chunks.new.head ≡ drop header_size chunks.old.head }
    ensures bytes { KeepsBytes chunks.old chunks.new header_size }
    ensures head { length chunks.new.head ≡ length chunks.old.head }
    ensures size { length chunks.new.bytes ≡ length chunks.old.bytes }
    ensures need { need_in chunks.new ≡ need_in chunks.old }
    ensures are { AreChunks chunks.new }
{
    put_head(chunks, 0, header);
}

/// Has chunks take over the memory of a block if that is lent, and returns whether they did.
///
/// If not, they are unchanged.
fn take_over(chunks: &mut Chunks, first: &[u8], second: &[u8], lent: Option<&Lent>) -> bool
    requires are { AreChunks chunks.old }
    requires room { length second.now ≤ length chunks.old.bytes }
    requires lent { IfSome lent (λ part. (first.now ≡ []) × (part.now ≡ second.now)) }
    ensures none { IsTrue result → first.now ≡ [] }
    ensures taken { IsTrue result → TakesOver chunks.old second.now chunks.new }
    ensures kept { IsFalse result → chunks.new ≡ chunks.old }
    ensures are { AreChunks chunks.new }
{
    match lent {
        Some(part) => chunks.take_over(part),
        None => false,
    }
}

/// Writes a block at an offset: it copies `first` and then `second`, or the chunks take over the
/// memory that is lent.
fn put_block(chunks: &mut Chunks, offset: usize, first: &[u8], second: &[u8], lent: Option<&Lent>)
    requires are { AreChunks chunks.old }
    requires begin { 27 ≤ chunks.old.class → offset ≡ 0 }
    requires room { offset + (length first.now + length second.now) ≤ length chunks.old.bytes }
    requires lent { IfSome lent (λ part. (first.now ≡ []) × (part.now ≡ second.now)) }
    ensures head { KeepsHead chunks.old chunks.new offset }
    ensures block { take (length first.now + length second.now) (drop offset chunks.new.bytes)
        ≡ first.now ++ second.now }
    ensures size { length chunks.new.bytes ≡ length chunks.old.bytes }
    ensures need { need_in chunks.new ≡ need_in chunks.old }
    ensures are { AreChunks chunks.new }
{
    if take_over(chunks, first, second, lent) {
        return;
    }
    put(chunks, offset, first);
    put(chunks, offset + first.len(), second);
}

/// Writes an item of these parts into chunks: the header, the key and the block.
///
/// If the block's memory is lent, the chunks may take it over instead of copying it.
pub(crate) fn write_item(chunks: &mut Chunks, parts: &Parts<'_>)
    requires are { AreChunks chunks.old }
    requires short { length parts.now.key.now ≤ longest_key }
    requires room { header_size + length parts.now.key.now
        + (length parts.now.first.now + length parts.now.second.now) ≤ length chunks.old.bytes }
    requires lent { IfSome parts.now.lent (λ lent.
        (parts.now.first.now ≡ []) × (lent.now ≡ parts.now.second.now)) }
    ensures value { item_in chunks.new ≡ record {
      hash = parts.now.hash;
      key = parts.now.key.now;
      flags = parts.now.flags;
      expiry = parts.now.expiry;
      block = parts.now.first.now ++ parts.now.second.now;
      unique = parts.now.unique;
      updated = parts.now.updated;
      class = chunks.old.class;
      count = chunks.old.count;
    } }
    ensures holds { HoldsItem chunks.new }
{
    let Parts {
        hash,
        flags,
        expiry,
        unique,
        updated,
        ..
    } = *parts;
    let block_length = length_in(chunks, parts.first.len() + parts.second.len());
    let lengths = (parts.key.len() as u32, block_length);
    let start = block_start(chunks, parts.key.len());
    put_header(
        chunks,
        &header_bytes(hash, flags, expiry, unique, updated, lengths),
    );
    put_head(chunks, HEADER_SIZE, parts.key);
    put_block(chunks, start, parts.first, parts.second, parts.lent);
}

/// Writes the header and the key of an item of these parts into chunks.
///
/// The block's bytes are left as they are.
pub(crate) fn write_head(chunks: &mut Chunks, parts: &Parts<'_>, block_len: usize)
    requires are { AreChunks chunks.old }
    requires short { length parts.now.key.now ≤ longest_key }
    requires room { header_size + length parts.now.key.now + block_len ≤ length chunks.old.bytes }
    ensures value { item_in chunks.new ≡ record {
      hash = parts.now.hash;
      key = parts.now.key.now;
      flags = parts.now.flags;
      expiry = parts.now.expiry;
      block = block_in chunks.new;
      unique = parts.now.unique;
      updated = parts.now.updated;
      class = chunks.old.class;
      count = chunks.old.count;
    } }
    ensures length { length (block_in chunks.new) ≡ block_len }
    ensures holds { HoldsItem chunks.new }
{
    let Parts {
        hash,
        flags,
        expiry,
        unique,
        updated,
        key,
        ..
    } = *parts;
    let lengths = (key.len() as u32, length_in(chunks, block_len));
    put_header(
        chunks,
        &header_bytes(hash, flags, expiry, unique, updated, lengths),
    );
    put_head(chunks, HEADER_SIZE, key);
}

/// Copies `part` into the block of the item in chunks. Everything else is unchanged.
pub(crate) fn write_block(chunks: &mut Chunks, at: usize, part: &[u8])
    requires item { HoldsItem chunks.old }
    requires room { at + length part.now ≤ block_length_in chunks.old.head }
    ensures value { item_in chunks.new ≡ record (item_in chunks.old) {
      block = with_part (block_in chunks.old) at part.now;
    } }
    ensures holds { HoldsItem chunks.new }
{
    let start = block_start(chunks, key_length_in(front(chunks)) as usize);
    put(chunks, start + at, part);
}

/// Appends bytes to the block of the item in chunks, and updates the header.
pub(crate) fn write_behind(
    chunks: &mut Chunks,
    more: &[u8],
    flags: u32,
    expiry: Expiry,
    unique: u64,
    updated: Moment,
)
    requires item { HoldsItem chunks.old }
    requires room { header_size + key_length_in chunks.old.head
        + (block_length_in chunks.old.head + length more.now) ≤ length chunks.old.bytes }
    ensures value { item_in chunks.new ≡ record (item_in chunks.old) {
      flags = flags;
      expiry = expiry;
      block = block_in chunks.old ++ more.now;
      unique = unique;
      updated = updated;
    } }
    ensures holds { HoldsItem chunks.new }
{
    let head = front(chunks);
    let block_len = block_length_in(head) as usize;
    let lengths = (
        key_length_in(head),
        length_in(chunks, block_len + more.len()),
    );
    let hash = hash_in(head);
    let start = block_start(chunks, lengths.0 as usize);
    put_header(
        chunks,
        &header_bytes(hash, flags, expiry, unique, updated, lengths),
    );
    put(chunks, start + block_len, more);
}

/// Writes the number's digits as the block of the item in chunks.
pub(crate) fn write_number(chunks: &mut Chunks, number: u64, unique: u64, updated: Moment)
    requires item { HoldsItem chunks.old }
    requires room { header_size + key_length_in chunks.old.head + length (decimal number)
        ≤ length chunks.old.bytes }
    ensures value { item_in chunks.new ≡ record (item_in chunks.old) {
      block = decimal number;
      unique = unique;
      updated = updated;
    } }
    ensures holds { HoldsItem chunks.new }
{
    let mut buffer = Buffer::new();
    let digits = buffer.format(number).as_bytes();
    let head = front(chunks);
    let (hash, flags, expiry) = (hash_in(head), flags_in(head), expiry_in(head));
    let lengths = (key_length_in(head), digits.len() as u32);
    let start = block_start(chunks, lengths.0 as usize);
    put_header(
        chunks,
        &header_bytes(hash, flags, expiry, unique, updated, lengths),
    );
    put(chunks, start, digits);
}

/// Sets the expiry of the item in chunks.
pub(crate) fn write_expiry(chunks: &mut Chunks, expiry: Expiry)
    requires { HoldsItem chunks.old }
    ensures value { item_in chunks.new ≡ record (item_in chunks.old) { expiry = expiry } }
    ensures holds { HoldsItem chunks.new }
{
    let head = front(chunks);
    let (hash, flags, unique) = (hash_in(head), flags_in(head), unique_in(head));
    let lengths = (key_length_in(head), block_length_in(head));
    let updated = updated_in(head);
    put_header(
        chunks,
        &header_bytes(hash, flags, expiry, unique, updated, lengths),
    );
}

/// Lends the part of the item's block in the chunk at a place, the first at 0.
#[inline]
pub(crate) fn part_of(chunks: &Chunks, at: usize) -> &[u8]
    requires item { HoldsItem chunks.now }
    requires place { at < chunks.now.count }
    ensures value { slice_get (parts_of (item_in chunks.now)) at ≡ Some result.now }
    ensures lone { chunks.now.count ≡ 1 → result.now ≡ block_in chunks.now }
{
    if has_head_beside(chunks) {
        return part_from_begin(chunks, at);
    }
    // one chunk, which begins with the head
    let head = front(chunks);
    let start = HEADER_SIZE + key_length_in(head) as usize;
    &head[start..start + block_length_in(head) as usize]
}

/// Lends the part of the item's block in the chunk at a place, from class 27 on.
#[inline(never)]
fn part_from_begin(chunks: &Chunks, at: usize) -> &[u8]
    requires item { HoldsItem chunks.now }
    requires beside { 27 ≤ chunks.now.class }
    requires place { at < chunks.now.count }
    ensures { slice_get (parts_of (item_in chunks.now)) at ≡ Some result.now }
{
    &chunks.part(at)[..length_at(chunks, at)]
}

/// Lends the part of the item's block in the chunk at a place for as long as the result is there.
///
/// `None` if the chunk can't be lent so.
pub(crate) fn lend_part(chunks: &Chunks, at: usize) -> Option<Lent>
    requires item { HoldsItem chunks.now }
    requires place { at < chunks.now.count }
    ensures { IfSome result (λ lent. slice_get (parts_of (item_in chunks.now)) at ≡ Some lent) }
{
    if has_head_beside(chunks) {
        return chunks.lend(at, 0, length_at(chunks, at));
    }
    None
}

/// Returns how many bytes of the item's block lie in the chunk at a place, from class 27 on.
///
/// The chunk begins with them.
fn length_at(chunks: &Chunks, at: usize) -> usize
    requires item { HoldsItem chunks.now }
    requires beside { 27 ≤ chunks.now.class }
    requires place { at < chunks.now.count }
    ensures within { result ≤ size_of chunks.now.class }
    ensures value { slice_get (parts_of (item_in chunks.now)) at
        ≡ Some (take result (chunk_at chunks.now at)) }
{
    let size = chunks.need().class().size() as usize;
    let block_len = block_length_in(front(chunks)) as usize;
    usize::min(block_len.saturating_sub(at * size), size)
}

/// Appends bytes to a vector that has room for them.
pub(crate) fn append_reserved(out: &mut Vec<u8>, bytes: &[u8])
    requires { length out.old.items + length bytes.now ≤ vec_capacity out.old }
    ensures items { out.new.items ≡ out.old.items ++ bytes.now }
    ensures room { vec_capacity out.old ≤ vec_capacity out.new }
{
    let _ = out.extend_from_slice(bytes);
}
