//! Parts of memory that are lent, one behind another.

ghost use Rattle.std.specs.Prelude.{◌≡◌, ◌≤◌, ◌++◌, ◌^◌, ◌↔◌, ℕ, List, [], length, drop, None, IfSome, IsTrue, OnOk, OnErr};
ghost use Rattle.std.specs.List.{concat};

use crate::lent::Lent;
use std::alloc::{AllocError, Global};
use std::collections::VecDeque;
use std::marker::Model;

/// The most parts.
const MOST: usize = 8;

/// The most bytes of all parts together.
const LONGEST: usize = 1 << 40;

/// At most 8 parts of memory that are lent, of at most 2^40 bytes together.
///
/// They are consumed at the front, and a part is given back once its bytes are consumed. One part
/// takes no memory. Contracts see the bytes that aren't consumed.
#[derive(Drop)]
pub struct Lents {
    /// The first part, which is empty only if all bytes are consumed.
    first: Lent,
    rest: VecDeque<Lent>,
    /// The number of bytes that aren't consumed.
    left: usize,
}

impl Model for Lents {
    ghost use Rattle.std.specs.Prelude.{ℕ, List, ◌++◌};
    ghost use Rattle.std.specs.List.{concat};
    ghost use Rattle.mc_bytes.specs.Parts.{AreParts};

    ghost Value = { List ℕ };

    ghost view = { λ l. l.first ++ concat l.rest.items };

    ghost invariant = { λ l. AreParts l.first l.rest.items l.left };
}

impl Lents {
    ghost use Rattle.std.specs.Prelude.{◌≡◌, ◌≤◌, ◌^◌, ◌++◌, ◌↔◌, [], drop, length, IsTrue, OnOk, OnErr};
    ghost use Rattle.mc_bytes.specs.Parts.{IsFront};

    /// Makes a collection of one part. It takes no memory.
    pub fn of(alloc: Global, first: Lent) -> Lents
        requires { length first ≤ 2 ^ 40 }
        ensures { result ≡ first }
    {
        let left = first.len();
        Lents {
            first,
            rest: VecDeque::new(alloc),
            left,
        }
    }

    /// Lends the first bytes that aren't consumed: none only if all are.
    pub fn front(&self) -> &[u8]
        ensures { IsFront self.now result.now }
    {
        self.first.as_slice()
    }

    /// Returns the number of bytes that aren't consumed.
    pub fn len(&self) -> usize
        ensures all { result ≡ length self.now }
        ensures few { result ≤ 2 ^ 40 }
    {
        self.left
    }

    /// Returns whether all bytes are consumed.
    pub fn is_empty(&self) -> bool
        ensures { IsTrue result ↔ (self.now ≡ []) }
    {
        self.left == 0
    }

    /// Returns the bytes of memory that has left the store and that its parts keep, each memory
    /// divided by the number of its owners.
    pub fn left_bytes(&self) -> usize {
        let mut left = self.first.left_bytes();
        for part in self.rest.iter() {
            left = left.saturating_add(part.left_bytes());
        }
        left
    }

    /// Returns whether the bytes that aren't consumed are these.
    pub fn is(&self, bytes: &[u8]) -> bool
        ensures { IsTrue result ↔ (self.now ≡ bytes.now) }
    {
        are_all(&self.first, &self.rest, bytes)
    }

    /// Adds a part behind the others.
    ///
    /// The error is 8 parts, more than 2^40 bytes, or a refused allocation. It leaves the parts
    /// unchanged.
    pub fn push(&mut self, part: Lent) -> Result<(), AllocError>
        ensures ok { OnOk result (self.new ≡ self.old ++ part) }
        ensures err { OnErr result (self.new ≡ self.old) }
    {
        let len = part.len();
        if self.rest.len() + 1 >= MOST || len > LONGEST - self.left {
            return Err(AllocError);
        }
        add_part(&mut self.first, &mut self.rest, part)?;
        self.left += len;
        Ok(())
    }

    /// Consumes the first `n` bytes, and gives the parts back that are consumed whole.
    pub fn consume(&mut self, n: usize)
        requires { n ≤ length self.old }
        ensures { self.new ≡ drop n self.old }
    {
        drop_parts(&mut self.first, &mut self.rest, n);
        self.left -= n;
    }
}

/// Returns whether these are the bytes of parts one behind another.
fn are_all(first: &Lent, rest: &VecDeque<Lent>, bytes: &[u8]) -> bool
    ensures { IsTrue result ↔ (first.now ++ concat rest.now.items ≡ bytes.now) }
{
    let Some(mut left) = behind(first.as_slice(), bytes) else {
        return false;
    };
    for at in 0..rest.len() {
        let Some(further) = behind(rest[at].as_slice(), left) else {
            return false;
        };
        left = further;
    }
    left.is_empty()
}

/// Returns what comes behind the front of bytes, and `None` if they don't begin with it.
fn behind<'a>(front: &[u8], bytes: &'a [u8]) -> Option<&'a [u8]>
    ensures some { IfSome result (λ rest. bytes.now ≡ front.now ++ rest.now) }
    ensures none { result ≡ None → (rest : List ℕ) → bytes.now ≡ front.now ++ rest → ⊥ }
{
    let (begin, rest) = bytes.split_at(front.len().min(bytes.len()));
    if is_same(begin, front) {
        Some(rest)
    } else {
        None
    }
}

/// Returns whether two slices have the same bytes.
fn is_same(one: &[u8], other: &[u8]) -> bool
    ensures { IsTrue result ↔ (one.now ≡ other.now) }
{
    one == other
}

/// Adds a part behind others. An error leaves them unchanged.
#[tactic(auto, using(crate::proofs::PartLemmas::added_behind))]
fn add_part(first: &mut Lent, rest: &mut VecDeque<Lent>, part: Lent) -> Result<(), AllocError>
    requires { first.old ≡ [] → rest.old.items ≡ [] }
    ensures ok { OnOk result (first.new ++ concat rest.new.items
        ≡ (first.old ++ concat rest.old.items) ++ part) }
    ensures err { OnErr result (first.new ++ concat rest.new.items
        ≡ first.old ++ concat rest.old.items) }
    ensures some { first.new ≡ [] → rest.new.items ≡ [] }
{
    if first.len() == 0 {
        *first = part;
        return Ok(());
    }
    if rest.push_back(part).is_err() {
        return Err(AllocError);
    }
    Ok(())
}

/// Drops the first `n` bytes of parts.
fn drop_parts(first: &mut Lent, rest: &mut VecDeque<Lent>, n: usize)
    requires { n ≤ length (first.old ++ concat rest.old.items) }
    ensures bytes { first.new ++ concat rest.new.items
        ≡ drop n (first.old ++ concat rest.old.items) }
    ensures some { first.new ≡ [] → rest.new.items ≡ [] }
{
    let mut left = n;
    while first.len() <= left {
        match rest.pop_front() {
            Some(part) => {
                left -= first.len();
                *first = part;
            }
            None => {
                first.drop_front(left);
                return;
            }
        }
    }
    first.drop_front(left);
}
