//! How many bytes of a block are copied when it is delivered.
ghost use Rattle.std.specs.Prelude.{◌≡◌, ◌⊎◌, ◌<◌, ◌≤◌, length, min, Err, IfOk, OnErr};
ghost use Rattle.mc_protocol.specs.Commands.{longest_key};
ghost use Rattle.mc_guests.specs.Asks.{block_length, most, MayRead, ReadsLength, MeasuresNext, MayAsk};
ghost use Rattle.mc_guests.specs.Asks.{SpendsRead, WasRead};

use crate::reports::Reports;
use mc_protocol::{Answer, Bytes, KeyStep, Reply, Steps, Unanswered};
use mc_reply::length_of;
use mc_time::Moment;
use std::alloc::{AllocError, Global};

/// Notes how many bytes of the block of a reply are copied.
#[derive(Drop)]
struct Measure {
    length: usize,
}

impl Answer for Measure {
    ghost use Rattle.mc_guests.specs.Asks.{IsCopied};

    ghost told = { λ old reply new. IsCopied new.length reply };

    fn hit(&mut self, _flags: u32, _unique: u64, parts: &[Bytes<'_>]) -> Result<(), AllocError> {
        self.length = copied(length_of(parts), are_lent(parts));
        Ok(())
    }

    fn reply(&mut self, reply: &Reply) -> Result<(), AllocError> {
        self.length = length_in(reply);
        Ok(())
    }
}

/// The least bytes of a block that is lent.
const LEAST_LENT: usize = 32_768;

/// Returns how many bytes of a block of this length are copied: all, or none if it is lent.
fn copied(length: usize, is_lent: bool) -> usize
    ensures some { (result ≡ length) ⊎ (result ≡ 0) }
    ensures short { length < 32768 → result ≡ length }
{
    if is_lent && length >= LEAST_LENT {
        0
    } else {
        length
    }
}

/// Returns whether the parts of a block lie in shared memory, so that an output lends them.
fn are_lent(parts: &[Bytes<'_>]) -> bool {
    match parts.split_first() {
        Some((part, _)) => part.lent().is_some(),
        None => false,
    }
}

/// Returns the length of the block of a reply, or 0 if it has none.
fn length_in(reply: &Reply) -> usize
    ensures { result ≡ min (block_length reply.now) most }
{
    match reply {
        Reply::Hit { block, .. } => block.bytes().len(),
        Reply::Stored
        | Reply::NotStored
        | Reply::Exists
        | Reply::NotFound
        | Reply::Miss
        | Reply::Touched
        | Reply::Deleted
        | Reply::Number(_)
        | Reply::NotNumeric
        | Reply::TooLarge
        | Reply::NoChunk
        | Reply::Flushed => 0,
    }
}

/// What lends the key of its next turn.
pub trait Naming {
    ghost use Rattle.std.specs.Prelude.{◌≡◌, ◌≤◌, ℕ, List, length, option_copied, IfSome, Some};
    ghost use Rattle.mc_protocol.specs.Commands.{longest_key};

    /// This is the key of its next turn.
    ghost names: { Self → List ℕ → Type 0 };

    /// Lends the key of the next turn, if that is one of a retrieval.
    fn key(&self) -> Option<&[u8]>
        ensures named { IfSome result (λ key. names self.now key.now) }
        ensures all { (key : List ℕ) → names self.now key → option_copied result ≡ Some key }
        ensures short { IfSome result (λ key. length key.now ≤ longest_key) };
}

/// Returns how many bytes of a block the next turn would copy at this moment: its length, or 0 if
/// the block is lent or there is none.
///
/// The store is asked once at most, for the key that is lent.
#[inline(never)]
pub fn next_length<N: Naming, S: Reports>(
    alloc: Global,
    store: &mut S,
    naming: &N,
    now: Moment,
) -> Result<usize, Unanswered>
    ensures ok { IfOk result (λ bytes.
        MeasuresNext S.Steps now (N.names naming.now) bytes store.old store.new) }
    ensures asks { MayAsk S.Steps now (N.names naming.now) store.old store.new }
{
    match naming.key() {
        Some(key) => store.length_at(alloc, key, now),
        None => Ok(0),
    }
}

/// Returns how many bytes of its block a get of this key copies at this moment: its length, or 0 if
/// the block is lent or none is found.
///
/// It is a read of the key. After an error the key was read at most; it is `NumbersSpent` only if
/// the read is refused so.
pub fn length_at<S: Steps>(
    alloc: Global,
    store: &mut S,
    key: &[u8],
    now: Moment,
) -> Result<usize, Unanswered>
    requires { length key.now ≤ longest_key }
    ensures ok { IfOk result (λ bytes. ReadsLength S.took now key.now bytes store.old store.new) }
    ensures err { OnErr result (MayRead S.took S.same now key.now store.old store.new) }
    ensures spent { result ≡ Err Unanswered.NumbersSpent →
        SpendsRead S.spent now key.now store.old }
    ensures untold { result ≡ Err Unanswered.Untold →
        WasRead S.took now key.now store.old store.new }
{
    let step = KeyStep::Read {
        key: Bytes::of(key),
    };
    let mut measure = Measure { length: 0 };
    store.step_telling(alloc, &step, now, &mut measure)?;
    Ok(measure.length)
}
