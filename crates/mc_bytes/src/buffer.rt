//! A buffer with room behind its bytes, which a source writes into.
//!
//! Room for a large block is reserved once a sixteenth of its unit has arrived. A client that
//! announces a block and sends nothing takes no memory; one that sends n bytes takes at most 17 n +
//! 16399 bytes. If that reservation is refused, the buffer grows as bytes arrive.
//!
//! A vector's contract doesn't bound what it reserves, and a text may reserve more than it appends.
//! So each append compares what is reserved with what may be.

ghost use Rattle.std.specs.Prelude.{
  ◌≡◌,
  ◌+◌,
  ◌≤◌,
  drop,
  take,
  length,
  max,
  OnOk,
  IfOk,
  IsTrue,
  IsFalse,
  vec_capacity,
};
ghost use Rattle.std.specs.Arc.{arc_value};
ghost use Rattle.mc_bytes.specs.Queues.{twice};

use crate::append::Append;
use crate::large::Large;
use crate::source::Source;
use crate::spares::{self, Spares};
use std::alloc::{AllocError, Global};
use std::marker::Model;
use std::mem;
use std::sync::Arc;

/// Bytes, and room behind them for sources. Contracts see the bytes, and the reserved memory.
#[derive(Drop)]
pub struct Buffer {
    /// The bytes, and the room behind them.
    all: Vec<u8>,
    /// The number of bytes. The content of the room is unspecified: zeros, or what a source once
    /// wrote.
    filled: usize,
    /// Where large buffers come from and go to, if anywhere.
    spares: Option<Spares>,
}

impl Model for Buffer {
    ghost use Rattle.std.specs.Prelude.{◌≤◌, take, length, vec_capacity};
    ghost use Rattle.mc_bytes.specs.Queues.{BufferState};

    ghost Value = { BufferState };

    ghost view = { λ b. record { bytes = take b.filled b.all.items; reserved = vec_capacity b.all } };

    ghost invariant = { λ b. b.filled ≤ length b.all.items };
}

impl Buffer {
    ghost use Rattle.std.specs.Prelude.{◌≡◌, ◌+◌, ◌-◌, ◌<◌, ◌≤◌, [], ◌++◌, drop, take, length, max, None, IsTrue, IsFalse, OnOk, OnErr, IfOk, IfSome};
    ghost use Rattle.mc_bytes.specs.Sources.{Brings};
    ghost use Rattle.mc_bytes.specs.Queues.{twice};

    /// Makes an empty buffer, which takes large memory from these spares. It takes no memory.
    pub fn new(alloc: Global, spares: Option<Spares>) -> Buffer
        ensures { result ≡ record { bytes = []; reserved = 0 } }
    {
        Buffer {
            all: Vec::new(alloc),
            filled: 0,
            spares,
        }
    }

    /// Lends the bytes.
    pub fn as_slice(&self) -> &[u8]
        ensures { result.now ≡ self.now.bytes }
    {
        let (filled, _) = self.all.as_slice().split_at(self.filled);
        filled
    }

    /// Returns the number of bytes.
    pub fn len(&self) -> usize
        ensures { result ≡ length self.now.bytes }
    {
        self.filled
    }

    /// Returns the number of reserved bytes.
    pub fn capacity(&self) -> usize
        ensures all { result ≡ self.now.reserved }
        ensures filled { length self.now.bytes ≤ result }
    {
        self.all.capacity()
    }

    /// Appends bytes. An error leaves the bytes unchanged.
    pub fn push(&mut self, bytes: &[u8], alloc: Global) -> Result<(), AllocError>
        ensures ok { OnOk result (self.new.bytes ≡ self.old.bytes ++ bytes.now) }
        ensures err { OnErr result (self.new.bytes ≡ self.old.bytes) }
        ensures grown { OnOk result
            (self.new.reserved ≤ max self.old.reserved (twice (length self.new.bytes))) }
    {
        let reserved = self.all.capacity();
        self.all.truncate(self.filled);
        self.all.extend_from_slice(bytes)?;
        tighten(&mut self.all, reserved, alloc)?;
        self.filled = self.all.len();
        Ok(())
    }

    /// Drops the bytes behind the first `n`.
    pub fn truncate(&mut self, n: usize)
        requires { n ≤ length self.old.bytes }
        ensures { self.new ≡ record self.old { bytes = take n self.old.bytes } }
    {
        self.filled = n;
    }

    /// Appends a text, whose largest part has `bytes` bytes. An error leaves the bytes unchanged.
    ///
    /// An empty buffer takes a spare of the text's size, if there is one.
    pub fn append<T: Append>(
        &mut self,
        text: &T,
        bytes: usize,
        alloc: Global,
    ) -> Result<(), AllocError>
        requires { T.can_append text.now }
        ensures ok { OnOk result (self.new.bytes ≡ self.old.bytes ++ T.bytes text.now) }
        ensures err { OnErr result (self.new.bytes ≡ self.old.bytes) }
        ensures grown { OnOk result
            (self.new.reserved ≤ max self.old.reserved (twice (length self.new.bytes))) }
    {
        let reserved = self.all.capacity();
        if self.filled == 0 && bytes > reserved && !self.take_spare(bytes, twice(bytes)) {
            self.make_way(bytes);
        }
        self.all.truncate(self.filled);
        text.append_to(&mut self.all)?;
        tighten(&mut self.all, reserved, alloc)?;
        self.filled = self.all.len();
        Ok(())
    }

    /// Appends what a source writes into room for `room` bytes.
    ///
    /// After an error the source wasn't called, and the bytes are unchanged.
    pub fn push_from<S: Source>(
        &mut self,
        source: &mut S,
        room: usize,
        alloc: Global,
    ) -> Result<S::Answer, AllocError>
        ensures ok { IfOk result (λ answer. Brings S.gives source.old source.new answer
            (λ piece. self.new.bytes ≡ self.old.bytes ++ piece)) }
        ensures err { OnErr result (self.new.bytes ≡ self.old.bytes) }
        ensures asked { OnErr result (source.new ≡ source.old) }
        ensures grown { OnOk result
            (self.new.reserved ≤ max self.old.reserved (twice (length self.old.bytes + room))) }
    {
        match make_room(&mut self.all, self.filled, room, alloc) {
            Ok(()) => {
                let (count, answer) = read_behind(&mut self.all, self.filled, room, source);
                self.filled += count;
                Ok(answer)
            }
            Err(refused) => Err(refused),
        }
    }

    /// Reserves memory for exactly `more` bytes, if there is some, or takes a spare with room for them
    /// and at most `most` bytes.
    ///
    /// If they are all of a text and there is no such spare, others of the same size make way.
    pub fn reserve(&mut self, more: usize, most: usize, is_all: bool)
        ensures same { self.new.bytes ≡ self.old.bytes }
        ensures grown { self.new.reserved
            ≤ max self.old.reserved (max (length self.old.bytes + more) most) }
    {
        let wanted = self.filled.saturating_add(more);
        if wanted <= self.all.capacity() || !self.take_spare(wanted, most) {
            if is_all {
                self.make_way(wanted);
            }
            let room = self.all.len() - self.filled;
            let _ = self.all.reserve_exact(more.saturating_sub(room));
        }
    }

    /// Frees spares if more memory than is reserved is wanted.
    fn make_way(&self, wanted: usize) {
        if let Some(spares) = &self.spares {
            if self.all.capacity() < wanted {
                spares.make_way(wanted);
            }
        }
    }

    /// Moves the bytes into a spare with `least` to `most` bytes of memory, and returns whether there
    /// was one. The former memory becomes a spare.
    fn take_spare(&mut self, least: usize, most: usize) -> bool
        ensures same { self.new.bytes ≡ self.old.bytes }
        ensures taken { IsTrue result → self.new.reserved ≤ most }
        ensures none { IsFalse result → self.new.reserved ≡ self.old.reserved }
    {
        let Buffer {
            all,
            filled,
            spares,
        } = self;
        match spares {
            Some(spares) => exchange(all, *filled, spares, least, most),
            None => false,
        }
    }

    /// Moves the bytes to memory that several owners can have, and returns it: it begins with them.
    ///
    /// `None` if memory for its count is refused: then nothing changed.
    pub fn share(&mut self, alloc: Global) -> Option<Arc<Large>>
        ensures some { IfSome result (λ memory. length self.old.bytes ≤ length (arc_value memory).bytes.items) }
        ensures front { IfSome result (λ memory.
            take (length self.old.bytes) (arc_value memory).bytes.items ≡ self.old.bytes) }
        ensures moved { IfSome result (λ _. self.new ≡ record { bytes = []; reserved = 0 }) }
        ensures none { result ≡ None → self.new ≡ self.old }
    {
        let bytes = mem::replace(&mut self.all, Vec::new(alloc));
        match Arc::new(alloc, Large::new(bytes)) {
            Ok(mut memory) => {
                if let Some(large) = Arc::get_mut(&mut memory) {
                    fill_up(&mut large.bytes);
                }
                self.filled = 0;
                Some(memory)
            }
            Err(refused) => {
                let mut large = refused.value;
                self.all = mem::replace(&mut large.bytes, Vec::new(alloc));
                None
            }
        }
    }

    /// Keeps memory that is no longer wanted as a spare, unless others have it too.
    pub fn keep(&self, memory: Arc<Large>, alloc: Global) {
        if let (Ok(large), Some(spares)) = (Arc::try_unwrap(memory), &self.spares) {
            let mut large = large;
            spares.keep(mem::replace(&mut large.bytes, Vec::new(alloc)));
        }
    }

    /// Drops the first `front` bytes. What is left must not be longer than the front.
    pub fn drop_front(&mut self, front: usize)
        requires inside { front ≤ length self.old.bytes }
        requires half { length self.old.bytes - front ≤ front }
        ensures dropped { self.new.bytes ≡ drop front self.old.bytes }
        ensures reserved { self.new.reserved ≡ self.old.reserved }
    {
        let left = self.filled - front;
        copy_to_front(&mut self.all, front, left);
        self.filled = left;
    }

    /// Drops all bytes, and frees no memory.
    pub fn clear(&mut self)
        ensures { self.new ≡ record { bytes = []; reserved = self.old.reserved } }
    {
        self.filled = 0;
    }

    /// Frees the memory if the buffer is empty and has more than `kept` bytes of it. Large memory
    /// becomes a spare.
    pub fn give_back(&mut self, kept: usize, alloc: Global)
        ensures same { self.new.bytes ≡ self.old.bytes }
        ensures small { length self.new.bytes ≡ 0 → self.new.reserved ≤ kept }
        ensures less { self.new.reserved ≤ self.old.reserved }
        ensures some { 0 < length self.old.bytes → self.new.reserved ≡ self.old.reserved }
    {
        if self.filled == 0 && self.all.capacity() > kept {
            let all = mem::replace(&mut self.all, Vec::new(alloc));
            match &self.spares {
                Some(spares) => spares.keep(all),
                None => spares::free(all),
            }
        }
    }
}

/// Moves the first `filled` bytes into a spare with `least` to `most` bytes of memory, and returns
/// whether there was one. The former memory becomes a spare.
fn exchange(all: &mut Vec<u8>, filled: usize, spares: &Spares, least: usize, most: usize) -> bool
    requires { filled ≤ length all.old.items }
    ensures same { take filled all.new.items ≡ take filled all.old.items }
    ensures inside { filled ≤ length all.new.items }
    ensures taken { IsTrue result → vec_capacity all.new ≤ most }
    ensures none { IsFalse result → all.new ≡ all.old }
{
    let Some(spare) = spares.take(filled, least, most) else {
        return false;
    };
    let (front, _) = all.as_slice().split_at(filled);
    let moved = with_front(spare, front);
    spares.keep(mem::replace(all, moved));
    true
}

/// Extends a vector with zeros as far as it has memory.
fn fill_up(bytes: &mut Vec<u8>)
    ensures front { take (length bytes.old.items) bytes.new.items ≡ bytes.old.items }
    ensures long { length bytes.old.items ≤ length bytes.new.items }
{
    let reserved = bytes.capacity();
    let _ = bytes.resize(reserved, 0);
}

/// Writes bytes over the front of a spare.
fn with_front(spare: Vec<u8>, front: &[u8]) -> Vec<u8>
    requires { length front.now ≤ length spare.items }
    ensures front { take (length front.now) result.items ≡ front.now }
    ensures long { length result.items ≡ length spare.items }
    ensures reserved { vec_capacity result ≡ vec_capacity spare }
{
    let mut spare = spare;
    let (onto, _) = spare.as_mut_slice().split_at_mut(front.len());
    onto.copy_from_slice(front);
    spare
}

/// Copies an append's bytes to memory of their length if it reserved more than it may.
///
/// `reserved` bytes were reserved before it.
fn tighten(all: &mut Vec<u8>, reserved: usize, alloc: Global) -> Result<(), AllocError>
    ensures same { all.new.items ≡ all.old.items }
    ensures ok { OnOk result (vec_capacity all.new ≤ max reserved (twice (length all.new.items))) }
{
    if all.capacity() <= reserved || all.capacity() <= twice(all.len()) {
        return Ok(());
    }
    let exact = exact_copy(all.as_slice(), alloc)?;
    *all = exact;
    Ok(())
}

/// Returns the memory that may be reserved for this many bytes.
fn twice(filled: usize) -> usize
    ensures { result ≤ twice filled }
{
    filled.saturating_mul(2).max(8)
}

/// Copies bytes to memory of exactly their length.
fn exact_copy(bytes: &[u8], alloc: Global) -> Result<Vec<u8>, AllocError>
    ensures same { IfOk result (λ copy. copy.items ≡ bytes.now) }
    ensures exact { IfOk result (λ copy. vec_capacity copy ≡ length bytes.now) }
{
    let mut copy = Vec::with_capacity(alloc, bytes.len())?;
    for byte in bytes {
        copy.push_reserved(*byte);
    }
    Ok(copy)
}

/// Extends a vector with zeros until there are `room` bytes behind the first `filled` ones.
fn make_room(all: &mut Vec<u8>, filled: usize, room: usize, alloc: Global) -> Result<(), AllocError>
    requires { filled ≤ length all.old.items }
    ensures ok { OnOk result (filled + room ≤ length all.new.items) }
    ensures same { take filled all.new.items ≡ take filled all.old.items }
    ensures inside { filled ≤ length all.new.items }
    ensures grown { OnOk result
        (vec_capacity all.new ≤ max (vec_capacity all.old) (twice (filled + room))) }
{
    let Some(end) = filled.checked_add(room) else {
        return Err(AllocError);
    };
    if end <= all.len() {
        return Ok(());
    }
    let reserved = all.capacity();
    all.resize(end, 0)?;
    tighten(all, reserved, alloc)
}

/// Lends `room` bytes behind the first `filled` ones to a source.
///
/// Returns how many bytes the source wrote, and its answer.
fn read_behind<S: Source>(
    all: &mut Vec<u8>,
    filled: usize,
    room: usize,
    source: &mut S,
) -> (usize, S::Answer)
    requires { filled + room ≤ length all.old.items }
    ensures inside { filled + result.0 ≤ length all.new.items }
    ensures same { take filled all.new.items ≡ take filled all.old.items }
    ensures gives { S.gives source.old (take result.0 (drop filled all.new.items)) result.1 source.new }
    ensures reserved { vec_capacity all.new ≡ vec_capacity all.old }
{
    let (_, behind) = all.as_mut_slice().split_at_mut(filled);
    let (lent, _) = behind.split_at_mut(room);
    source.read(lent)
}

/// Copies the `left` bytes behind a front onto the front, which is at least as long.
fn copy_to_front(all: &mut Vec<u8>, front: usize, left: usize)
    requires inside { front + left ≤ length all.old.items }
    requires half { left ≤ front }
    ensures moved { take left all.new.items ≡ take left (drop front all.old.items) }
    ensures long { length all.new.items ≡ length all.old.items }
    ensures reserved { vec_capacity all.new ≡ vec_capacity all.old }
{
    let (onto, behind) = all.as_mut_slice().split_at_mut(front);
    let (onto, _) = onto.split_at_mut(left);
    let (behind, _) = behind.split_at(left);
    onto.copy_from_slice(behind);
}
