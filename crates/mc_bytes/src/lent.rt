//! A part of memory that several owners read, and nobody writes.

ghost use Rattle.std.specs.Prelude.{◌≡◌, ◌+◌, ◌-◌, ◌*◌, ◌<◌, ◌≤◌, length, take, drop, IfSome};
ghost use Rattle.std.specs.Arc.{arc_value};

use crate::large::Large;
use std::cell::Cell;
use std::marker::Model;
use std::sync::Arc;

/// A part of memory, whose bytes stay as they are while it is there.
///
/// The memory is counted and not copied. It is freed when its last owner is dropped. Contracts see
/// the bytes of the part.
#[derive(Drop)]
pub struct Lent {
    memory: Arc<Large>,
    from: usize,
    to: usize,
    /// Memory that was left in exchange for this one.
    left: Cell<Option<Arc<Large>>>,
}

impl Model for Lent {
    ghost use Rattle.std.specs.Prelude.{◌≤◌, ◌-◌, List, ℕ, take, drop, length};
    ghost use Rattle.std.specs.Arc.{arc_value};

    ghost Value = { List ℕ };

    ghost view = { λ l. take (l.to - l.from) (drop l.from (arc_value l.memory).bytes.items) };

    ghost invariant = { λ l. (l.from ≤ l.to) × (l.to ≤ length (arc_value l.memory).bytes.items) };
}

impl Lent {
    /// Lends the bytes of memory from one place up to another. It takes no memory.
    pub fn of(memory: Arc<Large>, from: usize, to: usize) -> Lent
        requires order { from ≤ to }
        requires within { to ≤ length (arc_value memory).bytes.items }
        ensures { result ≡ take (to - from) (drop from (arc_value memory).bytes.items) }
    {
        Lent {
            memory,
            from,
            to,
            left: Cell::new(None),
        }
    }

    /// Returns the part once more: its memory has one more owner. It takes no memory.
    ///
    /// `None` if the memory has too many owners.
    pub fn another(&self) -> Option<Lent>
        ensures { IfSome result (λ lent. lent ≡ self.now) }
    {
        match Arc::try_clone(&self.memory) {
            Ok(memory) => Some(Lent::of(memory, self.from, self.to)),
            Err(_) => None,
        }
    }

    /// Returns its bytes from one place up to another: the memory has one more owner. It takes no
    /// memory.
    ///
    /// `None` if the memory has too many owners.
    pub fn part(&self, from: usize, to: usize) -> Option<Lent>
        requires order { from ≤ to }
        requires within { to ≤ length self.now }
        ensures { IfSome result (λ lent. lent ≡ take (to - from) (drop from self.now)) }
    {
        match Arc::try_clone(&self.memory) {
            Ok(memory) => Some(Lent::of(memory, self.from + from, self.from + to)),
            Err(_) => None,
        }
    }

    /// Returns its memory, which has one more owner, and the place at which the part begins there.
    ///
    /// `None` if the memory has too many owners.
    pub fn memory(&self) -> Option<(Arc<Large>, usize)>
        ensures within { IfSome result (λ found.
            found.1 + length self.now ≤ length (arc_value found.0).bytes.items) }
        ensures part { IfSome result (λ found.
            self.now ≡ take (length self.now) (drop found.1 (arc_value found.0).bytes.items)) }
    {
        match Arc::try_clone(&self.memory) {
            Ok(memory) => Some((memory, self.from)),
            Err(_) => None,
        }
    }

    /// Leaves other memory to the holder of the part, in exchange for the part's own.
    pub fn leave(&self, memory: Arc<Large>) {
        self.left.set(Some(memory));
    }

    /// Takes the memory that was left, if some was.
    pub fn take_left(&self) -> Option<Arc<Large>> {
        self.left.replace(None)
    }

    /// Lends the bytes.
    pub fn as_slice(&self) -> &[u8]
        ensures { result.now ≡ self.now }
    {
        &self.memory.bytes.as_slice()[self.from..self.to]
    }

    /// Returns the number of bytes.
    pub fn len(&self) -> usize
        ensures { result ≡ length self.now }
    {
        self.to - self.from
    }

    /// Returns the number of bytes of its memory, which it keeps whole.
    pub fn kept_bytes(&self) -> usize
        ensures { length self.now ≤ result }
    {
        self.memory.bytes.len()
    }

    /// Returns the part's share of memory that has left the store: its bytes divided by the number
    /// of its owners, rounded up. 0 while the memory is a chunk's.
    ///
    /// So what has left counts once, however many read it.
    pub fn left_bytes(&self) -> usize {
        if self.memory.has_left() {
            share_of(self.memory.bytes.len(), Arc::strong_count(&self.memory))
        } else {
            0
        }
    }

    /// Leaves the first `count` bytes out from now on. The others are unchanged.
    pub fn drop_front(&mut self, count: usize)
        requires { count ≤ length self.old }
        ensures { self.new ≡ drop count self.old }
    {
        self.from += count;
    }
}

/// Returns the share of `bytes` bytes that one of this number of owners is counted for. The shares
/// of all are at least the bytes, and each is rounded up by less than a byte.
fn share_of(bytes: usize, owners: usize) -> usize
    requires { 0 < owners }
    ensures whole { bytes ≤ result * owners }
    ensures close { result * owners < bytes + owners }
{
    let share = bytes / owners;
    if bytes % owners == 0 {
        share
    } else {
        share + 1
    }
}
