//! What a step does, by the protocol's table and the item under its key.
//!
//! A plan lends the step's key, so `settle` takes no step. `begin`, `finish` and `apply` take the
//! step for its block, and require that it is the planned one.

ghost use Rattle.std.specs.Prelude.{◌≡◌, ◌↔◌, ℕ, List, ◌≤◌, length, true, is_none, Option, IfOk, OnErr};
ghost use Rattle.std.specs.FinMap.{get};
ghost use Rattle.mc_slab.specs.Chunks.{largest_block};
ghost use Rattle.mc_time.specs.declared.expiry.Expiry.{Expiry as Expires};
ghost use Rattle.mc_protocol.specs.declared.step.KeyStep.{KeyStep as Step};
ghost use Rattle.mc_protocol.specs.declared.row.Row.TheVariants.{Reads};
ghost use Rattle.mc_protocol.specs.Commands.{key_of, longest_key};
ghost use Rattle.mc_protocol.specs.Plain as machine;
ghost use Rattle.mc_protocol.specs.Plain.{hit_of, row_of};
ghost use Rattle.mc_shelf.specs.declared.plan.Action.TheVariants.{Answer};
ghost use Rattle.mc_shelf.specs.States.{CanStandAt, DeskState, ShelfContent};
ghost use Rattle.mc_shelf.specs.Plans as plans;
ghost use Rattle.mc_shelf.specs.Plans.{IsPlan, WantsDesk, block_in, charge_of, item_in, is_gone, is_left};
ghost use Rattle.mc_shelf.specs.Plans.{left_of, made_block, next_found, wants_desk, writes};

use crate::entry::Entry;
use crate::index::Place;
use itoa::Buffer;
use mc_protocol as command;
use mc_protocol::{Block, Body, Bytes, CHUNK_HEAD, KeyStep, Reply, Row, Standing};
use mc_slab::Chunks;
use mc_time::{Expiry, Moment, is_dead};
use std::alloc::{AllocError, Global};

/// What a step does.
#[derive(Drop)]
pub(crate) enum Action {
    /// It has a reply, and the key's item stays.
    Answer(Reply),
    /// The expiry of the key's item is set.
    Expire(Expiry, Reply),
    /// The key's item is dropped: it is dead, or deleted.
    Discard(Reply),
    /// An item of this charge is written, if there is a unique number and room for it.
    Write {
        charge: u64,
        flags: u32,
        expiry: Expiry,
        body: Body,
    },
    /// The item of a write that was begun is still to be written, with this unique number.
    ///
    /// It goes into these chunks, or if there are none into those of the key's item. The block is a
    /// large one of a new key, one of any size that goes over or behind that of the key's item in
    /// its chunks, or one that is joined with it in others. The key's item is then freed with its
    /// own chunks, since the desk got others in exchange.
    Left {
        unique: u64,
        chunks: Option<Chunks>,
        flags: u32,
        expiry: Expiry,
        body: Body,
    },
}

/// What a step does at its key, as a shelf found.
#[derive(Drop)]
pub struct Plan<'a> {
    /// The step's key.
    pub(crate) key: Bytes<'a>,
    /// The hash of the key.
    pub(crate) hash: u64,
    /// Where the key's item was found, or `None` if the key has no item.
    pub(crate) place: Option<Place>,
    /// What comes next.
    pub(crate) next: Action,
    /// The moment of the step, and of its write.
    pub(crate) moment: Moment,
}

impl<'a> Plan<'a> {
    /// Returns whether the step needs the desk, or its item is still to be written: it removes or
    /// writes an item, even if the write is refused.
    pub fn needs_desk(&self) -> bool
        ensures told { result ≡ wants_desk self.now.next }
        ensures needed { (shelf : ShelfContent) (desk : DeskState) (step : Step) (now : ℕ) →
            IsPlan self.now shelf step now → CanStandAt (key_of step) shelf desk →
            (result ≡ true) ↔ WantsDesk step now shelf desk }
    {
        match self.next {
            Action::Answer(_) | Action::Expire(..) => false,
            Action::Discard(_) | Action::Write { .. } | Action::Left { .. } => true,
        }
    }

    /// Returns whether the key has no item.
    pub fn is_of_new_key(&self) -> bool
        ensures { (shelf : ShelfContent) (step : Step) (now : ℕ) → IsPlan self.now shelf step now →
            result ≡ is_none (get shelf.items (key_of step)) }
    {
        self.place.is_none()
    }

    /// Returns whether the plan was begun, and its item is still to be written.
    pub fn is_left(&self) -> bool
        ensures { result ≡ is_left self.now.next }
    {
        match self.next {
            Action::Left { .. } => true,
            Action::Answer(_) | Action::Expire(..) | Action::Discard(_) | Action::Write { .. } =>
                false,
        }
    }

    /// Returns whether the step writes an item, if there is a unique number and room for it.
    pub(crate) fn writes(&self) -> bool
        ensures { result ≡ writes self.now.next }
    {
        match self.next {
            Action::Write { .. } => true,
            Action::Answer(_) | Action::Expire(..) | Action::Discard(_) | Action::Left { .. } =>
                false,
        }
    }

    /// Returns what is left of the plan's write, with this unique number and these chunks.
    #[inline]
    pub(crate) fn left(&self, unique: u64, chunks: Option<Chunks>) -> Action
        requires { writes self.now.next ≡ true }
        ensures { result ≡ left_of self.now.next unique chunks.entry }
    {
        let Action::Write {
            flags,
            expiry,
            body,
            ..
        } = self.next
        else {
            // Every other plan writes nothing, and this call requires that it writes.
            unreachable!();
        };
        Action::Left {
            unique,
            chunks,
            flags,
            expiry,
            body,
        }
    }
}

/// Returns what a step does, given the item found under its key. A hit's block is copied.
pub(crate) fn next_of(
    alloc: Global,
    step: &KeyStep<'_>,
    found: Option<&Entry>,
    greatest: u64,
    cut: Option<u64>,
    now: Moment,
) -> Result<Action, AllocError>
    requires { length (key_of step.now) ≤ longest_key }
    ensures next { IfOk result (λ next.
        next ≡ next_found greatest cut step.now now (item_in found.entry)) }
    ensures refused { OnErr result ((expiry : Option Expires)
        × (row_of step.now now (machine.alive cut now (item_in found.entry)) ≡ Reads expiry)) }
{
    let dead = is_gone(found, cut, now);
    let item = standing_entry(found, dead);
    match command::row_of(step, item, now) {
        Row::Refuses(refusal) => Ok(answer_alone(dead, refusal.reply())),
        Row::Reads(None) => Ok(answer_alone(dead, hit(alloc, item)?)),
        Row::Reads(Some(expiry)) => Ok(Action::Expire(expiry, hit(alloc, item)?)),
        Row::Touches(expiry) => Ok(Action::Expire(expiry, Reply::Touched)),
        Row::Deletes => Ok(Action::Discard(Reply::Deleted)),
        Row::Writes {
            flags,
            expiry,
            body,
        } => {
            let charge = charge_of(step, item, body);
            if greatest < charge {
                Ok(answer_alone(dead, Reply::TooLarge))
            } else {
                Ok(Action::Write {
                    charge,
                    flags,
                    expiry,
                    body,
                })
            }
        }
    }
}

/// Returns a reply that leaves the key's item; a dead item is dropped.
fn answer_alone(dead: bool, reply: Reply) -> Action
    ensures { result ≡ plans.answered dead reply }
{
    if dead {
        Action::Discard(reply)
    } else {
        Action::Answer(reply)
    }
}

/// Returns the reply of a hit, with a copy of the item's block.
fn hit(alloc: Global, item: Option<&Entry>) -> Result<Reply, AllocError>
    ensures { IfOk result (λ reply. reply ≡ hit_of (item_in item.entry)) }
{
    match item {
        None => Ok(Reply::Miss),
        Some(old) => Ok(Reply::Hit {
            flags: old.flags(),
            unique: old.unique(),
            block: copy_block(alloc, old)?,
        }),
    }
}

/// Returns a copy of an item's block.
fn copy_block(alloc: Global, item: &Entry) -> Result<Block, AllocError>
    ensures { IfOk result (λ block. block ≡ item.now.item.block) }
{
    let mut block = Vec::with_capacity(alloc, item.block_len())?;
    item.append_to(&mut block)?;
    Ok(Block::of(block))
}

/// Returns the item that was found, unless it is dead.
fn standing_entry<'a>(found: Option<&'a Entry>, dead: bool) -> Option<&'a Entry>
    ensures { (cut : Option ℕ) (now : ℕ) → dead ≡ is_gone cut now (item_in found.entry) →
        item_in result ≡ machine.alive cut now (item_in found.entry) }
{
    if dead { None } else { found }
}

/// Returns whether the item that was found is dead.
#[inline]
pub(crate) fn is_gone(found: Option<&Entry>, cut: Option<u64>, now: Moment) -> bool
    ensures { result ≡ is_gone cut now (item_in found.entry) }
{
    match found {
        Some(entry) => is_dead(entry.expiry(), entry.updated_at(), cut, now),
        None => false,
    }
}

/// Returns the charge in bytes of what a body makes under a step's key.
fn charge_of(step: &KeyStep<'_>, item: Option<&Entry>, body: Body) -> u64
    requires { length (key_of step.now) ≤ longest_key }
    ensures { result ≡ charge_of step.now (item_in item.entry) body }
{
    charge(step.key(), step.block(), block_len(item), body)
}

/// Returns the length of an item's block in bytes, or 0 without an item.
pub(crate) fn block_len(item: Option<&Entry>) -> usize
    ensures value { result ≡ length (block_in (item_in item.entry)) }
    ensures most { result ≤ largest_block }
{
    match item {
        Some(old) => old.block_len(),
        None => 0,
    }
}

/// Returns the charge of the block that a body makes from a step's block and an old one.
fn charge(key: &[u8], block: &[u8], old_len: usize, body: Body) -> u64
    requires key { length key.now ≤ longest_key }
    requires old { old_len ≤ largest_block }
    ensures { (old : List ℕ) → length old ≡ old_len →
        result ≡ machine.charge key.now (made_block body block.now old) }
{
    let head = CHUNK_HEAD + key.len() as u64;
    match body {
        Body::Given => head + block.len() as u64,
        Body::Appended | Body::Prepended => head + old_len as u64 + block.len() as u64,
        Body::Counted(number) => {
            let mut buffer = Buffer::new();
            head + buffer.format(number).len() as u64
        }
    }
}
