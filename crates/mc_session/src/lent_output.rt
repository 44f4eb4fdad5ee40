//! An output that lends parts of memory in place of copying them.

ghost use Rattle.std.specs.Prelude.{◌≡◌, ◌+◌, ◌<◌, ◌≤◌, ◌^◌, ◌↔◌, [], ◌++◌, length, drop, IsTrue, IsFalse, OnOk, OnErr, IfOk};
ghost use Rattle.mc_bytes.specs.Parts.{IsFront};
ghost use Rattle.mc_session.specs.Lending.{behind_bytes, lent_in, all_bytes, IsArranged};

use crate::copying::append_copy;
use crate::output::{Outgoing, Texts};
use mc_bytes::{Append, Lents, Queue, Spares};
use std::alloc::{AllocError, Global};
use std::marker::Model;
use std::mem;

/// The most bytes of texts in front of parts that are lent.
const LONGEST: usize = 1 << 62;

/// What comes behind the first texts of an output: parts that are lent, and the texts behind them.
#[derive(Drop)]
pub struct Behind {
    parts: Lents,
    tail: Texts,
}

/// Texts, parts that are lent, and texts behind them. An empty output keeps at most `KEPT_OUTPUT`
/// bytes of memory.
///
/// A part is counted and not copied, and it is given back once it is written. Without parts the
/// output is a queue. Contracts see the bytes, and how many are lent.
#[derive(Drop)]
pub struct LentOutput {
    alloc: Global,
    spares: Option<Spares>,
    head: Texts,
    /// What comes behind the head, if parts are lent.
    behind: Option<Box<Behind>>,
}

impl Model for LentOutput {
    ghost use Rattle.std.specs.Prelude.{◌++◌};
    ghost use Rattle.mc_session.specs.Outputs.{OutputState};
    ghost use Rattle.mc_session.specs.Lending.{behind_bytes, lent_in, IsArranged};

    ghost Value = { OutputState };

    ghost view = { λ o. record {
      bytes = o.head.bytes ++ behind_bytes o.behind;
      lent = lent_in o.behind;
    } };

    ghost invariant = { λ o. IsArranged o.head.bytes o.behind };
}

impl Outgoing for LentOutput {
    ghost bytes = { λ o. o.bytes };

    ghost lent = { λ o. o.lent };

    fn new(alloc: Global, spares: Option<Spares>) -> LentOutput {
        let head = Queue::with_spares(alloc, Spares::another(spares.as_ref()));
        LentOutput {
            alloc,
            spares,
            head,
            behind: None,
        }
    }

    #[inline]
    fn front(&self) -> &[u8] {
        match &self.behind {
            None => self.head.as_slice(),
            Some(behind) => front_of(&self.head, behind),
        }
    }

    #[inline]
    fn fronts(&self) -> (&[u8], &[u8]) {
        match &self.behind {
            None => (self.head.as_slice(), &[]),
            Some(behind) => fronts_of(&self.head, behind),
        }
    }

    #[inline]
    fn len(&self) -> usize {
        match &self.behind {
            None => self.head.len(),
            Some(behind) => len_of(&self.head, behind),
        }
    }

    #[inline]
    fn is(&self, text: &[u8]) -> bool {
        match &self.behind {
            None => self.head.as_slice() == text,
            Some(behind) => are_all(&self.head, behind, text),
        }
    }

    #[inline]
    fn append<T: Append>(&mut self, text: &T) -> Result<(), AllocError> {
        self.append_sized(text, 0)
    }

    #[inline]
    fn append_sized<T: Append>(&mut self, text: &T, largest: usize) -> Result<(), AllocError> {
        match &mut self.behind {
            None => self.head.append_sized(text, largest),
            Some(behind) => append_behind(behind, text, largest),
        }
    }

    /// Appends a text, parts that are lent, and a text behind them. If others are lent already, a
    /// copy of these is appended.
    fn append_lent<T: Append, U: Append>(
        &mut self,
        front: &T,
        parts: Lents,
        back: &U,
    ) -> Result<(), AllocError> {
        match &mut self.behind {
            Some(behind) => append_copy(&mut behind.tail, front, parts, back),
            None => {
                if parts.is_empty() {
                    return append_copy(&mut self.head, front, parts, back);
                }
                let behind = behind_of(self.alloc, self.spares.as_ref(), parts, back)?;
                append_within(&mut self.head, front)?;
                self.behind = Some(behind);
                Ok(())
            }
        }
    }

    #[inline]
    fn consume(&mut self, n: usize) {
        match &self.behind {
            None => self.head.consume(n),
            Some(_) => consume_front(&mut self.head, &mut self.behind, n),
        }
    }

    #[inline]
    fn filled_bytes(&self) -> usize {
        match &self.behind {
            None => self.head.filled_bytes(),
            Some(behind) => filled_bytes_of(&self.head, behind),
        }
    }

    #[inline]
    fn lent_len(&self) -> usize {
        match &self.behind {
            None => 0,
            Some(behind) => behind.parts.len(),
        }
    }

    #[inline]
    fn left_bytes(&self) -> usize {
        match &self.behind {
            None => 0,
            Some(behind) => behind.parts.left_bytes(),
        }
    }

    #[inline]
    fn capacity(&self) -> usize {
        match &self.behind {
            None => self.head.capacity(),
            Some(behind) => capacity_of(&self.head, behind),
        }
    }

    #[inline]
    fn rest(&mut self) -> usize {
        match &self.behind {
            None => self.head.rest(),
            Some(behind) => capacity_of(&self.head, behind),
        }
    }
}

/// Makes parts that are lent and a text behind them, which takes the memory of large texts from
/// these spares.
fn behind_of<U: Append>(
    alloc: Global,
    spares: Option<&Spares>,
    parts: Lents,
    back: &U,
) -> Result<Box<Behind>, AllocError>
    requires { U.can_append back.now }
    ensures parts { IfOk result (λ behind. behind.value.parts ≡ parts) }
    ensures tail { IfOk result (λ behind. behind.value.tail.bytes ≡ U.bytes back.now) }
{
    let mut tail = Queue::with_spares(alloc, Spares::another(spares));
    tail.append(back)?;
    match Box::new(alloc, Behind { parts, tail }) {
        Ok(behind) => Ok(behind),
        Err(_) => Err(AllocError),
    }
}

/// Lends the first bytes of texts and of what comes behind them.
#[inline(never)]
fn front_of<'a>(head: &'a Texts, behind: &'a Behind) -> &'a [u8]
    requires { 0 < length behind.now.parts }
    ensures { IsFront (all_bytes head.now.bytes behind.now) result.now }
{
    if head.is_empty() {
        behind.parts.front()
    } else {
        head.as_slice()
    }
}

/// Lends the first bytes of texts and of what comes behind them. With the last part that is lent
/// goes the text behind it.
#[inline(never)]
fn fronts_of<'a>(head: &'a Texts, behind: &'a Behind) -> (&'a [u8], &'a [u8])
    requires { 0 < length behind.now.parts }
    ensures front { IsFront (all_bytes head.now.bytes behind.now) result.0.now }
    ensures both { IsFront (all_bytes head.now.bytes behind.now)
        (result.0.now ++ result.1.now) }
{
    if !head.is_empty() {
        return (head.as_slice(), &[]);
    }
    let front = behind.parts.front();
    if front.len() == behind.parts.len() {
        (front, behind.tail.as_slice())
    } else {
        (front, &[])
    }
}

/// Returns the number of bytes of texts and of what comes behind them.
#[inline(never)]
fn len_of(head: &Texts, behind: &Behind) -> usize
    requires { length head.now.bytes ≤ 2 ^ 62 }
    ensures { result ≡ length (all_bytes head.now.bytes behind.now) }
{
    let tail = behind.tail.as_slice().len();
    head.len() + (behind.parts.len() + tail)
}

/// Returns whether a text is that of texts and of what comes behind them.
#[inline(never)]
fn are_all(head: &Texts, behind: &Behind, text: &[u8]) -> bool
    ensures { IsTrue result ↔
        (all_bytes head.now.bytes behind.now ≡ text.now) }
{
    let (first, rest) = text.split_at(text.len().min(head.len()));
    let (middle, last) = rest.split_at(rest.len().min(behind.parts.len()));
    is_same(first, head.as_slice())
        && behind.parts.is(middle)
        && is_same(last, behind.tail.as_slice())
}

/// Returns whether two slices have the same bytes.
fn is_same(one: &[u8], other: &[u8]) -> bool
    ensures { IsTrue result ↔ (one.now ≡ other.now) }
{
    one == other
}

/// Returns the number of bytes of texts in front of parts that are lent and behind them.
fn texts_of(head: &Texts, behind: &Behind) -> usize
    requires { length head.now.bytes ≤ 2 ^ 62 }
    ensures { result ≡ length head.now.bytes + length behind.now.tail.bytes }
{
    let tail = behind.tail.as_slice().len();
    head.len() + tail
}

/// Returns how many bytes of texts and of what comes behind them are in memory. Of parts that are
/// lent those count that aren't written.
#[inline(never)]
fn filled_bytes_of(head: &Texts, behind: &Behind) -> usize
    requires { length head.now.bytes ≤ 2 ^ 62 }
    ensures { length (all_bytes head.now.bytes behind.now) ≤ result }
{
    head.filled_bytes()
        .saturating_add(behind.tail.filled_bytes())
        .saturating_add(behind.parts.len())
        .max(len_of(head, behind))
}

/// Returns the number of bytes reserved for texts in front of parts that are lent and behind them.
#[inline(never)]
fn capacity_of(head: &Texts, behind: &Behind) -> usize
    requires { length head.now.bytes ≤ 2 ^ 62 }
    ensures { length (all_bytes head.now.bytes behind.now) ≤ result + length behind.now.parts }
{
    head.capacity()
        .saturating_add(behind.tail.capacity())
        .max(texts_of(head, behind))
}

/// Appends a text behind parts that are lent. An error leaves the bytes unchanged.
#[inline(never)]
fn append_behind<T: Append>(behind: &mut Behind, text: &T, largest: usize) -> Result<(), AllocError>
    requires { T.can_append text.now }
    ensures same { behind.new.parts ≡ behind.old.parts }
    ensures ok { OnOk result (behind.new.tail.bytes ≡ behind.old.tail.bytes ++ T.bytes text.now) }
    ensures err { OnErr result (behind.new.tail.bytes ≡ behind.old.tail.bytes) }
{
    behind.tail.append_sized(text, largest)
}

/// Appends a text in front of parts that are lent. An error leaves the bytes unchanged.
///
/// The error is a refused allocation, or more than 2^62 bytes.
fn append_within<T: Append>(head: &mut Texts, text: &T) -> Result<(), AllocError>
    requires { T.can_append text.now }
    ensures ok { OnOk result (head.new.bytes ≡ head.old.bytes ++ T.bytes text.now) }
    ensures few { OnOk result (length head.new.bytes ≤ 2 ^ 62) }
    ensures err { OnErr result (head.new.bytes ≡ head.old.bytes) }
{
    let before = head.len();
    head.append(text)?;
    if head.len() > LONGEST {
        head.truncate(before);
        return Err(AllocError);
    }
    Ok(())
}

/// Drops the first `n` bytes of an output, and gives the parts back that are written.
#[inline(never)]
fn consume_front(head: &mut Texts, behind: &mut Option<Box<Behind>>, n: usize)
    requires arranged { IsArranged head.old.bytes behind.old }
    requires within { n ≤ length (head.old.bytes ++ behind_bytes behind.old) }
    ensures arranged { IsArranged head.new.bytes behind.new }
    ensures bytes { head.new.bytes ++ behind_bytes behind.new
        ≡ drop n (head.old.bytes ++ behind_bytes behind.old) }
    ensures fewer { lent_in behind.new ≤ lent_in behind.old }
{
    match behind {
        None => head.consume(n),
        Some(lent) => {
            if consume_lent(head, lent, n) {
                *behind = None;
            }
        }
    }
}

/// Drops the first `n` bytes of texts and of what comes behind them.
///
/// Returns whether all parts are written. The texts behind them are then the first.
#[inline(never)]
fn consume_lent(head: &mut Texts, behind: &mut Behind, n: usize) -> bool
    requires some { 0 < length behind.old.parts }
    requires within { n ≤ length (all_bytes head.old.bytes behind.old) }
    ensures spent { IsTrue result → head.new.bytes
        ≡ drop n (all_bytes head.old.bytes behind.old) }
    ensures left { IsFalse result → all_bytes head.new.bytes behind.new
        ≡ drop n (all_bytes head.old.bytes behind.old) }
    ensures some { IsFalse result → 0 < length behind.new.parts }
    ensures few { IsFalse result → length head.new.bytes ≤ length head.old.bytes }
    ensures fewer { length behind.new.parts ≤ length behind.old.parts }
{
    consume_each(head, behind, n);
    if behind.parts.is_empty() {
        mem::swap(head, &mut behind.tail);
        return true;
    }
    false
}

/// Drops the first `n` bytes of texts, of parts and of the texts behind them.
fn consume_each(head: &mut Texts, behind: &mut Behind, n: usize)
    requires some { 0 < length behind.old.parts }
    requires within { n ≤ length (all_bytes head.old.bytes behind.old) }
    ensures bytes { all_bytes head.new.bytes behind.new
        ≡ drop n (all_bytes head.old.bytes behind.old) }
    ensures spent { behind.new.parts ≡ [] → head.new.bytes ≡ [] }
    ensures few { length head.new.bytes ≤ length head.old.bytes }
    ensures fewer { length behind.new.parts ≤ length behind.old.parts }
{
    let of_head = n.min(head.len());
    head.consume(of_head);
    let of_parts = (n - of_head).min(behind.parts.len());
    behind.parts.consume(of_parts);
    behind.tail.consume(n - of_head - of_parts);
}
