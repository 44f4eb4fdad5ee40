//! The memory of one chunk, whose bytes can be lent beyond a borrow.
//!
//! A reader that keeps bytes for a while, as until a socket takes them, gets a [`Lent`]: it is one
//! more owner of the memory, whose bytes stay as they are. A write finds out whether there is such
//! a reader. If so, the reader keeps the memory, and the chunk goes on in a copy.
//!
//! A chunk may also take over the memory of bytes that are to be written to it, which saves their
//! copy. The memory that it had goes to who held those bytes. Linked chunks take over a piece each
//! of one memory. Before one of them is written it copies its piece, and before they are parted
//! each gives its piece up for blank memory, so that no piece keeps the memory of the others.
//!
//! A write can't fail, so memory for a copy is reserved when the chunk is made. It is touched only
//! if other memory for a copy is refused.

ghost use Rattle.std.specs.Prelude.{◌≡◌, ◌+◌, ◌-◌, ◌≤◌, ◌↔◌, ◌++◌, [], length, take, drop, true};
ghost use Rattle.std.specs.Prelude.{IfOk, IfSome, IsTrue, IsFalse, vec_capacity};
ghost use Rattle.mc_slab.specs.Chunks.{with_part};
ghost use Rattle.mc_slab.specs.Blocks.{bytes_in, is_shared, IsBlock};

use mc_bytes::{Large, Lent};
use mc_sizes::BESIDE;
use std::alloc::{AllocError, Global};
use std::marker::Model;
use std::mem;
use std::sync::Arc;

/// Bytes of a chunk that can be lent. Contracts see the bytes.
pub(crate) struct Lendable {
    memory: Memory,
}

impl Drop for Lendable {
    fn drop(self) {
        let Lendable { memory } = self;
        if let Memory::Shared { large, .. } = &memory {
            large.leave();
        }
    }
}

/// Where the bytes lie.
#[derive(Drop)]
enum Memory {
    /// In memory that can't be lent.
    Own(Large),
    /// In memory that can be lent: `size` bytes from the place `from` on. Memory that was taken
    /// over has other bytes before and behind. Beside it, `size` bytes are reserved for a copy.
    Shared {
        large: Arc<Large>,
        spare: Large,
        from: usize,
        size: usize,
    },
    /// They were moved out for a moment.
    Hollow,
}

impl Model for Lendable {
    ghost use Rattle.std.specs.Prelude.{List, ℕ};
    ghost use Rattle.mc_slab.specs.Blocks.{bytes_in, IsBlock};

    ghost Value = { List ℕ };

    ghost view = { λ b. bytes_in b.memory };

    ghost invariant = { λ b. IsBlock b.memory };
}

impl Lendable {
    /// Allocates one of `size` zeros. The only error is a refused allocation.
    pub(crate) fn new(alloc: Global, size: usize) -> Result<Lendable, AllocError>
        ensures { IfOk result (λ block. length block ≡ size) }
    {
        let bytes = Vec::with_capacity(alloc, size.saturating_add(BESIDE))?;
        let mut large = Large::new(bytes);
        large.bytes.resize(size, 0)?;
        Ok(Lendable {
            memory: shared(alloc, large),
        })
    }

    /// Lends the bytes.
    pub(crate) fn bytes(&self) -> &[u8]
        ensures { result.now ≡ self.now }
    {
        match &self.memory {
            Memory::Own(large) => large.bytes.as_slice(),
            Memory::Shared {
                large,
                from,
                size,
                ..
            } => part_of(large.bytes.as_slice(), *from, *size),
            Memory::Hollow => unreachable!(),
        }
    }

    /// Lends the bytes from one place up to another for as long as the result is there.
    ///
    /// It takes no memory. `None` if the bytes lie in memory that can't be lent.
    pub(crate) fn lend(&self, from: usize, to: usize) -> Option<Lent>
        requires order { from ≤ to }
        requires within { to ≤ length self.now }
        ensures { IfSome result (λ lent. lent ≡ take (to - from) (drop from self.now)) }
    {
        match &self.memory {
            Memory::Shared {
                large,
                from: place,
                ..
            } => match Arc::try_clone(large) {
                Ok(large) => Some(Lent::of(large, *place + from, *place + to)),
                Err(_) => None,
            },
            Memory::Own(_) | Memory::Hollow => None,
        }
    }

    /// Takes the memory of a part over as its own: the bytes begin with the part's. Its former
    /// memory is left with the part.
    ///
    /// `false` if it doesn't, and nothing changed: if the bytes lie in memory that can't be lent,
    /// or the part's memory has too few bytes from the part on, or more than `most` in all.
    pub(crate) fn take_over(&mut self, part: &Lent, most: usize) -> bool
        requires { length part.now ≤ length self.old }
        ensures taken { IsTrue result → take (length part.now) self.new ≡ part.now }
        ensures size { length self.new ≡ length self.old }
        ensures kept { IsFalse result → self.new ≡ self.old }
    {
        let Lendable { memory } = self;
        exchange(memory, part, most)
    }

    /// Copies the bytes to memory of their own if they are a piece of larger memory.
    pub(crate) fn settle(&mut self)
        ensures { self.new ≡ self.old }
    {
        let Lendable { memory } = self;
        if is_piece(memory) {
            let old = mem::replace(memory, Memory::Hollow);
            *memory = written_copy(old, 0, &[]);
        }
    }

    /// Takes blank memory if the bytes are a piece of larger memory. They are unspecified then. It
    /// takes no memory.
    pub(crate) fn give_up(&mut self, blank: &Arc<Large>)
        ensures { length self.new ≡ length self.old }
    {
        let Lendable { memory } = self;
        if is_piece(memory) {
            make_blank(memory, blank);
        }
    }

    /// Copies `part` to the place `at`. The other bytes are unchanged.
    pub(crate) fn write_at(&mut self, at: usize, part: &[u8])
        requires { at + length part.now ≤ length self.old }
        ensures value { self.new ≡ with_part self.old at part.now }
        ensures size { length self.new ≡ length self.old }
    {
        let Lendable { memory } = self;
        if !write_in_place(memory, at, part) {
            let old = mem::replace(memory, Memory::Hollow);
            *memory = written_copy(old, at, part);
        }
    }
}

/// Returns the memory of bytes: one that can be lent, if memory is there for that.
fn shared(alloc: Global, large: Large) -> Memory
    ensures value { bytes_in result ≡ large.bytes.items }
    ensures block { IsBlock result }
{
    match Vec::with_capacity(alloc, large.bytes.len().saturating_add(BESIDE)) {
        Ok(bytes) => shared_beside(large, Large::new(bytes)),
        Err(_) => Memory::Own(large),
    }
}

/// Returns the memory of bytes, with `spare` reserved for a copy.
fn shared_beside(large: Large, spare: Large) -> Memory
    requires spare { spare.bytes.items ≡ [] }
    requires room { length large.bytes.items ≤ vec_capacity spare.bytes }
    ensures value { bytes_in result ≡ large.bytes.items }
    ensures block { IsBlock result }
{
    let alloc = *spare.bytes.allocator();
    let size = large.bytes.len();
    match Arc::new(alloc, large) {
        Ok(large) => Memory::Shared {
            large,
            spare,
            from: 0,
            size,
        },
        Err(refused) => Memory::Own(refused.value),
    }
}

/// Copies `part` to the place `at` unless others read the memory, and returns whether it did.
///
/// If not, the memory is unchanged.
fn write_in_place(memory: &mut Memory, at: usize, part: &[u8]) -> bool
    requires block { IsBlock memory.old }
    requires room { at + length part.now ≤ length (bytes_in memory.old) }
    ensures value { IsTrue result
        → bytes_in memory.new ≡ with_part (bytes_in memory.old) at part.now }
    ensures size { length (bytes_in memory.new) ≡ length (bytes_in memory.old) }
    ensures block { IsBlock memory.new }
    ensures same { IsFalse result → memory.new ≡ memory.old }
    ensures shared { IsFalse result → is_shared memory.old ≡ true }
{
    match memory {
        Memory::Own(large) => write_part(&mut large.bytes, at, part),
        Memory::Shared { large, from, .. } => {
            let place = *from + at;
            match Arc::get_mut(large) {
                Some(large) => write_part(&mut large.bytes, place, part),
                None => return false,
            }
        }
        Memory::Hollow => unreachable!(),
    }
    true
}

/// Returns a copy of the memory, with `part` at the place `at`.
///
/// Those who read the old memory keep it as it was. The reserved memory is touched only if other
/// memory for the copy is refused.
fn written_copy(memory: Memory, at: usize, part: &[u8]) -> Memory
    requires block { IsBlock memory }
    requires shared { is_shared memory ≡ true }
    requires room { at + length part.now ≤ length (bytes_in memory) }
    ensures value { bytes_in result ≡ with_part (bytes_in memory) at part.now }
    ensures size { length (bytes_in result) ≡ length (bytes_in memory) }
    ensures block { IsBlock result }
{
    match memory {
        Memory::Shared {
            large,
            spare,
            from,
            size,
        } => {
            large.leave();
            let alloc = *spare.bytes.allocator();
            let old = part_of(large.bytes.as_slice(), from, size);
            match Vec::with_capacity(alloc, size.saturating_add(BESIDE)) {
                Ok(bytes) => shared_beside(copy_into(Large::new(bytes), old, at, part), spare),
                Err(_) => shared(alloc, copy_into(spare, old, at, part)),
            }
        }
        Memory::Own(_) | Memory::Hollow => unreachable!(),
    }
}

/// Returns whether the bytes are a piece of larger memory, in which other chunks' bytes lie.
fn is_piece(memory: &Memory) -> bool
    ensures { IsTrue result → is_shared memory.now ≡ true }
{
    match memory {
        Memory::Shared { large, size, .. } => large.bytes.len() > size.saturating_add(BESIDE),
        Memory::Own(_) | Memory::Hollow => false,
    }
}

/// Has bytes that can be lent lie in blank memory, unless that is too small.
fn make_blank(memory: &mut Memory, blank: &Arc<Large>)
    requires { IsBlock memory.old }
    ensures size { length (bytes_in memory.new) ≡ length (bytes_in memory.old) }
    ensures block { IsBlock memory.new }
{
    if let Memory::Shared {
        large,
        from,
        size,
        ..
    } = memory
    {
        if blank.bytes.len() < *size {
            return;
        }
        if let Ok(other) = Arc::try_clone(blank) {
            *from = 0;
            large.leave();
            *large = other;
        }
    }
}

/// Allocates memory of `size` zeros in which blank chunks lie. `None` if memory is refused.
pub(crate) fn blank_memory(alloc: Global, size: usize) -> Option<Arc<Large>> {
    let Ok(bytes) = Vec::with_capacity(alloc, size) else {
        return None;
    };
    let mut large = Large::new(bytes);
    if large.bytes.resize(size, 0).is_err() {
        return None;
    }
    match Arc::new(alloc, large) {
        Ok(blank) => Some(blank),
        Err(_) => None,
    }
}

/// Returns a copy in empty memory that has room for it, with `part` at the place `at`.
///
/// The bytes that the part takes the place of aren't copied.
fn copy_into(empty: Large, bytes: &[u8], at: usize, part: &[u8]) -> Large
    requires empty { empty.bytes.items ≡ [] }
    requires room { length bytes.now ≤ vec_capacity empty.bytes }
    requires within { at + length part.now ≤ length bytes.now }
    ensures value { result.bytes.items ≡ with_part bytes.now at part.now }
    ensures size { length result.bytes.items ≡ length bytes.now }
{
    let (front, rest) = bytes.split_at(at);
    let (_, behind) = rest.split_at(part.len());
    let mut copy = empty;
    append_reserved(&mut copy.bytes, front);
    append_reserved(&mut copy.bytes, part);
    append_reserved(&mut copy.bytes, behind);
    copy
}

/// Exchanges the memory for that of a part unless it can't be lent or that doesn't fit, and returns
/// whether it did.
///
/// If not, the memory is unchanged. If so, the part has what it was.
fn exchange(memory: &mut Memory, part: &Lent, most: usize) -> bool
    requires block { IsBlock memory.old }
    requires room { length part.now ≤ length (bytes_in memory.old) }
    ensures taken { IsTrue result → take (length part.now) (bytes_in memory.new) ≡ part.now }
    ensures size { length (bytes_in memory.new) ≡ length (bytes_in memory.old) }
    ensures kept { IsFalse result → memory.new ≡ memory.old }
    ensures block { IsBlock memory.new }
{
    match memory {
        Memory::Shared {
            large,
            from,
            size,
            ..
        } => match part.memory() {
            Some((other, place)) => {
                if !fits(other.bytes.len(), place, *size, most) {
                    return false;
                }
                *from = place;
                large.leave();
                part.leave(mem::replace(large, other));
                true
            }
            None => false,
        },
        Memory::Own(_) | Memory::Hollow => false,
    }
}

/// Returns whether memory of `len` bytes has `size` from a place on, and at most `most` in all.
fn fits(len: usize, place: usize, size: usize, most: usize) -> bool
    requires { place ≤ len }
    ensures { IsTrue result ↔ (place + size ≤ len) × (len ≤ most) }
{
    size <= len - place && len <= most
}

/// Lends `size` bytes from a place on.
fn part_of(bytes: &[u8], from: usize, size: usize) -> &[u8]
    requires { from + size ≤ length bytes.now }
    ensures { result.now ≡ take size (drop from bytes.now) }
{
    let (_, rest) = bytes.split_at(from);
    let (part, _) = rest.split_at(size);
    part
}

/// Appends bytes to a vector that has room for them.
fn append_reserved(out: &mut Vec<u8>, bytes: &[u8])
    requires { length out.old.items + length bytes.now ≤ vec_capacity out.old }
    ensures items { out.new.items ≡ out.old.items ++ bytes.now }
    ensures room { vec_capacity out.old ≤ vec_capacity out.new }
{
    let _ = out.extend_from_slice(bytes);
}

/// Copies `part` to the place `at` of the bytes. Their number is unchanged.
fn write_part(bytes: &mut Vec<u8>, at: usize, part: &[u8])
    requires { at + length part.now ≤ length bytes.old.items }
    ensures value { bytes.new.items ≡ with_part bytes.old.items at part.now }
    ensures size { length bytes.new.items ≡ length bytes.old.items }
{
    bytes[at..at + part.len()].copy_from_slice(part);
}
