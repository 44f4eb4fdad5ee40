//! The header of an item: numbers at fixed offsets in its first 48 bytes, lowest byte first.

ghost use Rattle.std.specs.Prelude.{◌≡◌, ◌+◌, ◌≤◌, ◌^◌, ◌++◌, length, take, drop};
ghost use Rattle.mc_item.specs.Layout.{number_at, number_bytes, header_in, updated_in, expires_number, moment_number};
ghost use Rattle.mc_item.specs.Items.{header_size};

use byteorder::{ByteOrder, LittleEndian};
use mc_slab::HEADER_SIZE;
use mc_time::{Expiry, Moment};

// Offsets of the header's numbers. The flags, whether the item expires and the lengths have 4 bytes
// each, the others 8.
const HASH: usize = 0;

const FLAGS: usize = 8;

const EXPIRES: usize = 12;

const EXPIRY: usize = 16;

const UNIQUE: usize = 24;

const UPDATED: usize = 32;

const KEY_LENGTH: usize = 40;

const BLOCK_LENGTH: usize = 44;

/// Returns the number in the 4 bytes at an offset, lowest byte first.
#[tactic(auto, unfolding(crate::specs::Layout::number_at))]
fn read_u32(bytes: &[u8], offset: usize) -> u32
    requires { offset + 4 ≤ length bytes.now }
    ensures { result ≡ number_at offset 4 bytes.now }
{
    LittleEndian::read_u32(&bytes[offset..])
}

/// Returns the number in the 8 bytes at an offset, lowest byte first.
#[tactic(auto, unfolding(crate::specs::Layout::number_at))]
fn read_u64(bytes: &[u8], offset: usize) -> u64
    requires { offset + 8 ≤ length bytes.now }
    ensures { result ≡ number_at offset 8 bytes.now }
{
    LittleEndian::read_u64(&bytes[offset..])
}

/// Writes a number into the 4 bytes at an offset, lowest byte first.
fn put_u32(bytes: &mut [u8], offset: usize, number: u32)
    requires { offset + 4 ≤ length bytes.old }
    ensures before { take (offset + 4) bytes.new ≡ take offset bytes.old ++ number_bytes 4 number }
    ensures behind { drop (offset + 4) bytes.new ≡ drop (offset + 4) bytes.old }
{
    LittleEndian::write_u32(&mut bytes[offset..], number);
}

/// Writes a number into the 8 bytes at an offset, lowest byte first.
fn put_u64(bytes: &mut [u8], offset: usize, number: u64)
    requires { offset + 8 ≤ length bytes.old }
    ensures before { take (offset + 8) bytes.new ≡ take offset bytes.old ++ number_bytes 8 number }
    ensures behind { drop (offset + 8) bytes.new ≡ drop (offset + 8) bytes.old }
{
    LittleEndian::write_u64(&mut bytes[offset..], number);
}

/// Returns the hash of the key of the item in a chunk.
pub(crate) fn hash_in(bytes: &[u8]) -> u64
    requires { header_size ≤ length bytes.now }
    ensures { result ≡ (header_in bytes.now).hash }
{
    read_u64(bytes, HASH)
}

/// Returns the flags of the item in a chunk.
pub(crate) fn flags_in(bytes: &[u8]) -> u32
    requires { header_size ≤ length bytes.now }
    ensures { result ≡ (header_in bytes.now).flags }
{
    read_u32(bytes, FLAGS)
}

/// Returns when the item in a chunk expires.
pub(crate) fn expiry_in(bytes: &[u8]) -> Expiry
    requires { header_size ≤ length bytes.now }
    ensures { result ≡ (header_in bytes.now).expiry }
{
    if read_u32(bytes, EXPIRES) == 0 {
        Expiry::Never
    } else {
        Expiry::At(read_u64(bytes, EXPIRY))
    }
}

/// Returns the unique number of the item in a chunk.
pub(crate) fn unique_in(bytes: &[u8]) -> u64
    requires { header_size ≤ length bytes.now }
    ensures { result ≡ (header_in bytes.now).unique }
{
    read_u64(bytes, UNIQUE)
}

/// Returns when the item in a chunk was last updated.
pub(crate) fn updated_in(bytes: &[u8]) -> Moment
    requires size { header_size ≤ length bytes.now }
    requires latest { updated_in bytes.now ≤ 2 ^ 62 }
    ensures { result ≡ (header_in bytes.now).updated }
{
    Moment::from_seconds(read_u64(bytes, UPDATED))
}

/// Returns the length in bytes of the key of the item in a chunk.
pub(crate) fn key_length_in(bytes: &[u8]) -> u32
    requires { header_size ≤ length bytes.now }
    ensures { result ≡ (header_in bytes.now).key_length }
{
    read_u32(bytes, KEY_LENGTH)
}

/// Returns the length in bytes of the block of the item in a chunk.
pub(crate) fn block_length_in(bytes: &[u8]) -> u32
    requires { header_size ≤ length bytes.now }
    ensures { result ≡ (header_in bytes.now).block_length }
{
    read_u32(bytes, BLOCK_LENGTH)
}

/// Returns the two numbers that encode an expiry.
fn numbers_of(expiry: Expiry) -> (u32, u64)
    ensures expires { result.0 ≡ expires_number expiry }
    ensures moment { result.1 ≡ moment_number expiry }
{
    match expiry {
        Expiry::Never => (0, 0),
        Expiry::At(moment) => (1, moment),
    }
}

/// Returns the bytes of a header. `lengths` are those of the key and the block, in bytes.
pub(crate) fn header_bytes(
    hash: u64,
    flags: u32,
    expiry: Expiry,
    unique: u64,
    updated: Moment,
    lengths: (u32, u32),
) -> [u8; HEADER_SIZE]
    ensures value { header_in result ≡ record {
      hash = hash;
      flags = flags;
      expiry = expiry;
      unique = unique;
      updated = updated;
      key_length = lengths.0;
      block_length = lengths.1;
    } }
    ensures latest { updated ≤ 2 ^ 62 }
{
    let mut bytes = [0; HEADER_SIZE];
    let (expires, moment) = numbers_of(expiry);
    put_u64(&mut bytes, HASH, hash);
    put_u32(&mut bytes, FLAGS, flags);
    put_u32(&mut bytes, EXPIRES, expires);
    put_u64(&mut bytes, EXPIRY, moment);
    put_u64(&mut bytes, UNIQUE, unique);
    put_u64(&mut bytes, UPDATED, updated.seconds());
    put_u32(&mut bytes, KEY_LENGTH, lengths.0);
    put_u32(&mut bytes, BLOCK_LENGTH, lengths.1);
    bytes
}
