//! A queue of bytes.
//!
//! A queue counts the bytes consumed at its front. It moves the others to the front before an
//! append, and only if at least half of its bytes are consumed. So each consumed byte pays for at
//! most one moved byte, and a text that is written part by part isn't moved. An empty queue frees
//! its memory if it has more than `KEPT` bytes. Text is appended as a value of the trait `Append`,
//! not by a closure: a closure that captures a lent `Command` has the unit type as its
//! postcondition.

ghost use Rattle.std.specs.Prelude.{◌≤◌, ◌+◌};
ghost use Rattle.mc_bytes.specs.Queues.{begun};

use crate::append::Append;
use crate::buffer::Buffer;
use crate::large::Large;
use crate::lent::Lent;
use crate::source::Source;
use crate::spares::Spares;
use std::alloc::{AllocError, Global};
use std::marker::Model;
use std::sync::Arc;

/// The memory in bytes that an idle empty queue keeps: enough for the first piece of a stream.
pub const FIRST_PIECE: usize = 2048;

/// Room for a whole text is reserved once one part in `SHARE` of it has arrived.
const SHARE: usize = 16;

/// Bytes that a text may reserve beyond 17 times what is there.
const BEYOND: usize = 16384;

/// Bytes that are appended at the end and consumed at the front.
///
/// An empty queue reserves at most `KEPT` bytes. Contracts see the bytes that aren't consumed, the
/// number of bytes that fill its memory, consumed ones among them, and the number reserved.
#[derive(Drop)]
pub struct Queue<const KEPT: usize> {
    alloc: Global,
    buffer: Buffer,
    /// The number of consumed bytes of the buffer: fewer than it has, unless it is empty.
    taken: usize,
}

impl<const KEPT: usize> Model for Queue<KEPT> {
    ghost use Rattle.std.specs.Prelude.{drop, length};
    ghost use Rattle.mc_bytes.specs.Queues.{QueueState, IsStored};

    ghost Value = { QueueState };

    ghost view = { λ q. record {
      bytes = drop q.taken q.buffer.bytes;
      filled = length q.buffer.bytes;
      reserved = q.buffer.reserved;
    } };

    ghost invariant = { λ q. IsStored KEPT q.taken q.buffer.bytes q.buffer.reserved };
}

impl<const KEPT: usize> Queue<KEPT> {
    ghost use Rattle.std.specs.Prelude.{◌≡◌, ◌↔◌, ◌+◌, ◌*◌, ◌<◌, ◌≤◌, [], ◌++◌, drop, take, length, max, None, IsTrue, OnOk, OnErr, IfOk, IfSome};
    ghost use Rattle.mc_bytes.specs.Sources.{Brings};
    ghost use Rattle.mc_bytes.specs.Queues.{nothing_held, first_piece, twice, begun};
    ghost use Rattle.mc_bytes.specs.Queues.{IsHalfFull, IsGrown, IsGrownForText};

    /// Makes an empty queue. It takes no memory.
    pub fn new(alloc: Global) -> Queue<KEPT>
        ensures { result ≡ nothing_held }
    {
        Queue::with_spares(alloc, None)
    }

    /// Makes an empty queue that takes large memory from these spares, and gives it back to them.
    ///
    /// It takes no memory.
    pub fn with_spares(alloc: Global, spares: Option<Spares>) -> Queue<KEPT>
        ensures { result ≡ nothing_held }
    {
        Queue {
            alloc,
            buffer: Buffer::new(alloc, spares),
            taken: 0,
        }
    }

    /// Lends the bytes that aren't consumed.
    pub fn as_slice(&self) -> &[u8]
        ensures { result.now ≡ self.now.bytes }
    {
        let (_, left) = self.buffer.as_slice().split_at(self.taken);
        left
    }

    /// Returns the number of bytes that aren't consumed.
    pub fn len(&self) -> usize
        ensures { result ≡ length self.now.bytes }
    {
        self.buffer.len() - self.taken
    }

    /// Returns whether every byte was consumed.
    pub fn is_empty(&self) -> bool
        ensures { IsTrue result ↔ (self.now.bytes ≡ []) }
    {
        self.len() == 0
    }

    /// Returns how many bytes of memory are filled: those not consumed, and consumed ones before
    /// them.
    pub fn filled_bytes(&self) -> usize
        ensures all { result ≡ self.now.filled }
        ensures least { length self.now.bytes ≤ result }
        ensures empty { self.now.bytes ≡ [] → result ≡ 0 }
    {
        self.buffer.len()
    }

    /// Returns the number of reserved bytes. An empty queue reserves at most `KEPT`.
    pub fn capacity(&self) -> usize
        ensures all { result ≡ self.now.reserved }
        ensures filled { self.now.filled ≤ result }
        ensures least { length self.now.bytes ≤ result }
        ensures empty { self.now.bytes ≡ [] → result ≤ KEPT }
    {
        self.buffer.capacity()
    }

    /// Frees the memory of an empty queue beyond that of a first piece.
    ///
    /// Returns the number of reserved bytes afterwards. A queue that isn't empty keeps its memory:
    /// the text that is arriving or being written needs it.
    pub fn rest(&mut self) -> usize
        ensures same { self.new.bytes ≡ self.old.bytes }
        ensures all { result ≡ self.new.reserved }
        ensures least { length self.new.bytes ≤ result }
        ensures less { result ≤ self.old.reserved }
        ensures empty { self.new.bytes ≡ [] → result ≤ first_piece }
        ensures some { 0 < length self.old.bytes → self.new ≡ self.old }
    {
        self.buffer.give_back(FIRST_PIECE.min(KEPT), self.alloc);
        self.capacity()
    }

    /// Appends bytes. An error leaves the bytes unchanged.
    pub fn push(&mut self, bytes: &[u8]) -> Result<(), AllocError>
        ensures ok { OnOk result (self.new.bytes ≡ self.old.bytes ++ bytes.now) }
        ensures err { OnErr result (self.new.bytes ≡ self.old.bytes) }
        ensures half { OnOk result (IsHalfFull self.new) }
        ensures grown { OnOk result (IsGrown self.old self.new) }
    {
        self.close_up();
        self.push_behind(bytes)
    }

    /// Appends bytes of a text that wants `whole` bytes of memory, whose earlier ones are in the
    /// queue.
    ///
    /// If `whole` is above `KEPT`, room for a sixteenth of it and 16384 bytes is reserved first. Once
    /// a sixteenth is there, room for all of it is, and nothing is moved from then on. A text that is
    /// announced and never comes reserves at most 17 times the bytes that came, and 16399 bytes. If a
    /// reservation is refused, the queue grows as bytes come. An error leaves the bytes unchanged.
    pub fn push_part(&mut self, bytes: &[u8], whole: usize) -> Result<(), AllocError>
        ensures ok { OnOk result (self.new.bytes ≡ self.old.bytes ++ bytes.now) }
        ensures err { OnErr result (self.new.bytes ≡ self.old.bytes) }
        ensures half { OnOk result (IsHalfFull self.new) }
        ensures grown { OnOk result (IsGrownForText self.old self.new) }
    {
        self.close_up();
        self.make_room(whole);
        self.push_behind(bytes)
    }

    /// Appends what a source writes into room for `room` bytes, as `push_part` appends bytes.
    ///
    /// After an error the source wasn't called, and the bytes are unchanged. The memory may grow
    /// for the whole room, whatever part of it the source fills.
    pub fn push_part_from<S: Source>(
        &mut self,
        source: &mut S,
        room: usize,
        whole: usize,
    ) -> Result<S::Answer, AllocError>
        ensures ok { IfOk result (λ answer. Brings S.gives source.old source.new answer
            (λ piece. self.new.bytes ≡ self.old.bytes ++ piece)) }
        ensures err { OnErr result (self.new.bytes ≡ self.old.bytes) }
        ensures asked { OnErr result (source.new ≡ source.old) }
        ensures half { OnOk result (IsHalfFull self.new) }
        ensures grown { OnOk result (self.new.reserved ≤ max (max self.old.reserved
            (twice (2 * length self.old.bytes + room))) (begun (length self.old.bytes))) }
    {
        self.close_up();
        self.make_room(whole);
        let result = self.buffer.push_from(source, room, self.alloc);
        self.buffer.give_back(KEPT, self.alloc);
        result
    }

    /// Appends a text. An error leaves the bytes unchanged.
    pub fn append<T: Append>(&mut self, text: &T) -> Result<(), AllocError>
        requires { T.can_append text.now }
        ensures ok { OnOk result (self.new.bytes ≡ self.old.bytes ++ T.bytes text.now) }
        ensures err { OnErr result (self.new.bytes ≡ self.old.bytes) }
        ensures half { OnOk result (IsHalfFull self.new) }
        ensures grown { OnOk result (IsGrown self.old self.new) }
    {
        self.append_sized(text, 0)
    }

    /// Appends a text as `append` does. An empty queue takes a spare of the text's size, if there is
    /// one.
    ///
    /// `bytes` is the size of the text's largest part. It decides nothing else.
    pub fn append_sized<T: Append>(&mut self, text: &T, bytes: usize) -> Result<(), AllocError>
        requires { T.can_append text.now }
        ensures ok { OnOk result (self.new.bytes ≡ self.old.bytes ++ T.bytes text.now) }
        ensures err { OnErr result (self.new.bytes ≡ self.old.bytes) }
        ensures half { OnOk result (IsHalfFull self.new) }
        ensures grown { OnOk result (IsGrown self.old self.new) }
    {
        self.close_up();
        let result = self.buffer.append(text, bytes, self.alloc);
        self.buffer.give_back(KEPT, self.alloc);
        result
    }

    /// Consumes the first `n` bytes. It moves nothing: the next append does, if half are consumed.
    pub fn consume(&mut self, n: usize)
        requires { n ≤ length self.old.bytes }
        ensures bytes { self.new.bytes ≡ drop n self.old.bytes }
        ensures filled { self.new.filled ≤ self.old.filled }
        ensures less { self.new.reserved ≤ self.old.reserved }
    {
        let left = self.buffer.len() - self.taken;
        if n == left {
            self.clear();
        } else {
            self.taken += n;
        }
    }

    /// Drops the bytes behind the first `n`, which were appended last.
    pub fn truncate(&mut self, n: usize)
        requires { n ≤ length self.old.bytes }
        ensures bytes { self.new.bytes ≡ take n self.old.bytes }
        ensures less { self.new.reserved ≤ self.old.reserved }
    {
        if n == 0 {
            self.clear();
        } else {
            let behind = self.len() - n;
            let kept = self.buffer.len() - behind;
            self.buffer.truncate(kept);
        }
    }

    /// Consumes all bytes.
    pub fn clear(&mut self)
        ensures bytes { self.new.bytes ≡ [] }
        ensures filled { self.new.filled ≡ 0 }
        ensures less { self.new.reserved ≤ self.old.reserved }
    {
        self.buffer.clear();
        self.buffer.give_back(KEPT, self.alloc);
        self.taken = 0;
    }

    /// Moves the bytes to memory that several owners can have, and lends them from there.
    ///
    /// `None` if memory for its count is refused: then nothing changed.
    pub fn share(&mut self) -> Option<Lent>
        ensures lent { IfSome result (λ lent. lent ≡ self.old.bytes) }
        ensures moved { IfSome result (λ _. self.new ≡ nothing_held) }
        ensures none { result ≡ None → self.new ≡ self.old }
    {
        let (from, to) = (self.taken, self.buffer.len());
        let memory = self.buffer.share(self.alloc)?;
        self.taken = 0;
        Some(Lent::of(memory, from, to))
    }

    /// Keeps memory that is no longer wanted as a spare, unless others have it too.
    pub fn keep(&self, memory: Arc<Large>) {
        self.buffer.keep(memory, self.alloc);
    }

    /// Appends bytes behind those in memory.
    fn push_behind(&mut self, bytes: &[u8]) -> Result<(), AllocError>
        ensures ok { OnOk result (self.new.bytes ≡ self.old.bytes ++ bytes.now) }
        ensures err { OnErr result (self.new.bytes ≡ self.old.bytes) }
        ensures half { IsHalfFull self.old → OnOk result (IsHalfFull self.new) }
        ensures grown { OnOk result (IsGrown self.old self.new) }
    {
        let result = self.buffer.push(bytes, self.alloc);
        self.buffer.give_back(KEPT, self.alloc);
        result
    }

    /// Moves the bytes to the front if at least as many are consumed.
    fn close_up(&mut self)
        ensures same { self.new.bytes ≡ self.old.bytes }
        ensures half { IsHalfFull self.new }
        ensures reserved { self.new.reserved ≡ self.old.reserved }
    {
        let left = self.buffer.len() - self.taken;
        if self.taken > 0 && left <= self.taken {
            self.buffer.drop_front(self.taken);
            self.taken = 0;
        }
    }

    /// Reserves room for a text of `whole` bytes, if that is more than `KEPT`.
    ///
    /// Before a sixteenth of it is there the room is a sixteenth and a piece. From then on it is the
    /// whole text's. A spare that has at most an eighth more serves as well.
    fn make_room(&mut self, whole: usize)
        requires { IsHalfFull self.old }
        ensures same { self.new.bytes ≡ self.old.bytes }
        ensures half { IsHalfFull self.new }
        ensures filled { self.new.filled ≡ self.old.filled }
        ensures grown { self.new.reserved ≤ max self.old.reserved (begun (length self.old.bytes)) }
    {
        let there = self.len();
        let wanted = if KEPT < whole {
            wanted_bytes(whole, there)
        } else {
            0
        };
        if there < wanted {
            let most = wanted.saturating_add(wanted / 8);
            self.buffer
                .reserve(wanted - there, most.min(begun(there)), wanted == whole);
        }
        self.buffer.give_back(KEPT, self.alloc);
    }
}

/// Returns the memory in bytes to reserve for a text of `whole` bytes, of which these are there.
///
/// It is all of them once a sixteenth is there, and before that a sixteenth and a piece, so that
/// memory grows in two steps.
fn wanted_bytes(whole: usize, there: usize) -> usize
    ensures { there + result ≤ begun there }
{
    if whole / SHARE <= there {
        return whole;
    }
    let first = (whole / SHARE).saturating_add(BEYOND);
    let most = begun(there).saturating_sub(there);
    if first <= most { first } else { 0 }
}

/// Returns the memory in bytes for a text, a sixteenth of which is there.
fn begun(there: usize) -> usize
    ensures { result ≤ begun there }
{
    there
        .saturating_mul(SHARE + 1)
        .saturating_add(BEYOND + SHARE - 1)
}
