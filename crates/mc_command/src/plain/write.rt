//! How the plain store writes: it checks first whether the write can be made, and copies the block
//! only then.

ghost use Rattle.std.specs.Prelude.{◌≡◌, ◌≢◌, ◌≤◌, ◌-◌, ◌^◌, ◌==◌, ℕ, List, length, nat_lt, true, if◌then◌else◌, Some, None, IfSome, IsTrue, OnOk, OnErr};
ghost use Rattle.std.specs.FinMap.{get};
ghost use Rattle.std.specs.Option.{option_copied};
ghost use Rattle.mc_sizes.specs.Needs.{IsNeed};
ghost use Rattle.mc_protocol.specs.Commands.{key_of, longest_key};
ghost use Rattle.mc_protocol.specs.Plain.{charge, block_need, has_room, keeps_chunk, written_block, CopiesBlock};
ghost use Rattle.mc_command.specs.Steps.{Ends, Prepares, IsReady, StaysIn, WritesItem, needs_this, same_needs};
ghost use Rattle.mc_command.specs.Steps.{applied, number_in, block_in, found, writing, rewritten, placed, done};

use crate::plain::PlainStore;
use crate::plain::item::{LentWrite, PlainItem, Written, halves};
use itoa::Buffer;
use mc_protocol::{Body, KeyStep, Reply, Row, StepFault};
use mc_sizes::Need;
use mc_time::Moment;
use std::alloc::{AllocError, Global};

/// What comes of a write if it can be made.
#[derive(Drop)]
pub(crate) struct Effect {
    /// Whether the block goes into the chunks of the present item.
    pub(crate) stays: bool,
    pub(crate) reply: Reply,
}

/// The outcome of a write that was checked.
#[derive(Drop)]
pub(crate) enum CheckedWrite {
    /// Nothing is written; this is the reply.
    Answer(Reply),
    /// The block goes into the chunks of the present item; this is the reply.
    Rewrite(Reply, Written),
    /// The block takes the chunks of this need; this is the reply.
    Place(Reply, Need, Written),
}

impl PlainStore {
    /// Writes the item of a row, from the step's block and the present item, and returns the reply.
    pub(super) fn write(
        &mut self,
        alloc: Global,
        row: Row,
        step: &KeyStep<'_>,
        now: Moment,
    ) -> Result<Reply, StepFault>
        requires row { WritesItem row }
        requires key { length (key_of step.now) ≤ longest_key }
        ensures { Ends (applied row step.now self.old now) result self.old self.new }
    {
        let Row::Writes {
            flags,
            expiry,
            body,
        } = row
        else {
            // Every other row writes nothing, and this call requires that it writes.
            unreachable!();
        };
        let key = step.key();
        let mut buffer = Buffer::new();
        let digits = buffer.format(number_in(body)).as_bytes();
        let item = self.standing_item(key, now);
        let (front, back) = halves(body, step.block(), block_in(item), digits);
        let write = LentWrite {
            flags,
            expiry,
            front,
            back,
        };
        let stays = stays(body, key, item, &write);
        let reply = body.reply();
        let next = self.prepare(alloc, key, &write, Effect { stays, reply }, now)?;
        self.finish(alloc, key, next, now)
    }

    /// Returns what a write needs, or `None` if its charge is above the greatest.
    fn need_for(&self, key: &[u8], write: &LentWrite<'_>) -> Option<Need>
        ensures value { result ≡ (if nat_lt self.now.greatest (charge key.now write.now.block)
            then None else Some (block_need key.now write.now.block)) }
        ensures is_need { IfSome result IsNeed }
    {
        if self.greatest < write.charge(key) {
            return None;
        }
        write.need(key)
    }

    /// Returns whether no unique number is left.
    fn is_spent(&self) -> bool
        ensures { result ≡ (self.now.next_unique == 2 ^ 64 - 1) }
    {
        self.next_unique == u64::MAX
    }

    /// Checks a write, and copies its block if it can be made.
    ///
    /// It can be made if its charge isn't too large, a unique number is left, and there are chunks.
    /// A write whose effect `stays` uses the chunks of the present item.
    pub(super) fn prepare(
        &self,
        alloc: Global,
        key: &[u8],
        write: &LentWrite<'_>,
        effect: Effect,
        now: Moment,
    ) -> Result<CheckedWrite, StepFault>
        requires reply { CopiesBlock effect.reply }
        requires stays { effect.stays ≡ true → StaysIn self.now key.now write.now now }
        ensures { Prepares (writing effect.stays effect.reply write.now key.now self.now now)
            result key.now self.now now }
    {
        let Effect { stays, reply } = effect;
        let Some(need) = self.need_for(key, write) else {
            return Ok(CheckedWrite::Answer(Reply::TooLarge));
        };
        if self.is_spent() {
            return Err(StepFault::NumbersSpent);
        }
        if stays {
            return Ok(CheckedWrite::Rewrite(reply, write.make_block(alloc)?));
        }
        if !self.has_room(key, need, now) {
            return Ok(CheckedWrite::Answer(Reply::NoChunk));
        }
        Ok(CheckedWrite::Place(reply, need, write.make_block(alloc)?))
    }

    /// Commits a checked write and returns its reply. If nothing is written it drops the key's dead
    /// item.
    pub(super) fn finish(
        &mut self,
        alloc: Global,
        key: &[u8],
        next: CheckedWrite,
        now: Moment,
    ) -> Result<Reply, StepFault>
        requires { IsReady next key.now self.old now }
        ensures { Ends (done next key.now self.old now) result self.old self.new }
    {
        match next {
            CheckedWrite::Answer(reply) => {
                self.drop_dead(key, now);
                Ok(reply)
            }
            CheckedWrite::Rewrite(reply, written) => {
                self.put_in_place(key, written, now);
                Ok(reply)
            }
            CheckedWrite::Place(reply, need, written) => {
                self.put(alloc, key, need, written, now)?;
                Ok(reply)
            }
        }
    }

    /// Writes into chunks of this need, in place of the key's old item, dead or not.
    ///
    /// An error changes nothing.
    fn put(
        &mut self,
        alloc: Global,
        key: &[u8],
        need: Need,
        written: Written,
        now: Moment,
    ) -> Result<(), AllocError>
        requires need { need ≡ block_need key.now written.block }
        requires is_need { IsNeed need }
        requires room { IsTrue (has_room (found key.now self.old now) need) }
        requires number { self.old.next_unique ≢ 2 ^ 64 - 1 }
        ensures placed { OnOk result (self.new ≡ placed written key.now self.old now) }
        ensures err { OnErr result (self.new ≡ self.old) }
    {
        let wanted = self.pages_wanted(key, need, now);
        let bytes = Vec::from_slice(alloc, key)?;
        self.insert(bytes, written, now)?;
        self.add_pages(wanted, need.class());
        Ok(())
    }

    /// Puts an item under a key, whatever is there. An error changes nothing.
    fn insert(&mut self, key: Vec<u8>, written: Written, now: Moment) -> Result<(), AllocError>
        requires { self.old.next_unique ≢ 2 ^ 64 - 1 }
        ensures ok { OnOk result (self.new ≡ rewritten written key.items self.old now) }
        ensures err { OnErr result (self.new ≡ self.old) }
    {
        let item = PlainItem::of(written, self.next_unique, now);
        let _ = self.items.insert(key, item)?;
        self.next_unique += 1;
        Ok(())
    }

    /// Writes into the chunks of the key's item, which has the same need. It takes no memory.
    fn put_in_place(&mut self, key: &[u8], written: Written, now: Moment)
        requires need { IsTrue (needs_this key.now (get self.old.items key.now)
            (block_need key.now written.block)) }
        requires number { self.old.next_unique ≢ 2 ^ 64 - 1 }
        ensures { self.new ≡ rewritten written key.now self.old now }
    {
        let item = self.items.get_mut(key).unwrap();
        *item = PlainItem::of(written, self.next_unique, now);
        self.next_unique += 1;
    }
}

/// Returns the number that a write stores, and 0 if it isn't a count.
fn number_in(body: Body) -> u64
    ensures { result ≡ number_in body }
{
    match body {
        Body::Counted(number) => number,
        Body::Given | Body::Appended | Body::Prepended => 0,
    }
}

/// Lends the block of an item, and an empty one if there is none.
fn block_in<'a>(item: Option<&'a PlainItem>) -> &'a [u8]
    ensures { result.now ≡ block_in (option_copied item.entry) }
{
    match item {
        Some(item) => item.bytes(),
        None => &[],
    }
}

/// Returns whether a write stays in the chunks of the present item.
///
/// It does if it stores a counted number and has the same need.
fn stays(body: Body, key: &[u8], item: Option<&PlainItem>, write: &LentWrite<'_>) -> bool
    requires { length key.now ≤ longest_key }
    ensures { (block : List ℕ) →
        write.now.block ≡ written_block body block (option_copied item.entry) →
        result ≡ keeps_chunk body key.now (option_copied item.entry) }
{
    match body {
        Body::Given | Body::Appended | Body::Prepended => false,
        Body::Counted(_) => match item {
            Some(item) => are_same(item.need(key), write.need(key)),
            None => false,
        },
    }
}

/// Returns whether there are two needs and they are the same.
fn are_same(one: Option<Need>, other: Option<Need>) -> bool
    ensures { result ≡ same_needs one other }
{
    match (one, other) {
        (Some(one), Some(other)) => one.class() == other.class() && one.count() == other.count(),
        _ => false,
    }
}
