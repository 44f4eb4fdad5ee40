//! The rows of the protocol's table: what a step on a key does, given the item under the key.
//!
//! `row_of` is the protocol's table, once in code and once in `specs/Plain.antt`. The plain store
//! and a shelf both take their steps from it. It isn't named `row`, because a function `row` beside
//! an enum `Row` is refused.

ghost use Rattle.std.specs.Prelude.{◌≡◌};
ghost use Rattle.mc_protocol.specs.Plain as machine;
ghost use Rattle.mc_protocol.specs.Plain.{refusal_reply, write_reply};
ghost use Rattle.mc_protocol.specs.Rows.{standing_in};

use crate::number::count_up_or_down;
use crate::reply::Reply;
use crate::step::{KeyStep, Verb};
use mc_time::{Expiry, Moment, expiry_of};

/// Why a step leaves the key's item as it is (protocol.txt, the replies of each command).
#[derive(Clone, Copy)]
pub enum Refusal {
    /// The condition of add, replace, append or prepend failed.
    NotStored,
    /// The item's unique number isn't the one that cas names.
    Exists,
    /// There is no item under the key.
    NotFound,
    /// A retrieval found no item.
    Miss,
    /// The block that incr or decr would count isn't a number.
    NotNumeric,
}

impl Refusal {
    /// Returns the reply of the refusal.
    pub fn reply(self) -> Reply
        ensures { result ≡ refusal_reply self }
    {
        match self {
            Refusal::NotStored => Reply::NotStored,
            Refusal::Exists => Reply::Exists,
            Refusal::NotFound => Reply::NotFound,
            Refusal::Miss => Reply::Miss,
            Refusal::NotNumeric => Reply::NotNumeric,
        }
    }
}

/// How the block of a write is made.
#[derive(Clone, Copy)]
pub enum Body {
    /// The step's own block.
    Given,
    /// The old item's block, and behind it the step's own.
    Appended,
    /// The step's own block, and behind it the old item's.
    Prepended,
    /// The decimal digits of this number.
    Counted(u64),
}

impl Body {
    /// Returns the reply of the write.
    pub fn reply(self) -> Reply
        ensures { result ≡ write_reply self }
    {
        match self {
            Body::Given | Body::Appended | Body::Prepended => Reply::Stored,
            Body::Counted(number) => Reply::Number(number),
        }
    }
}

/// What a step does at its key.
#[derive(Clone, Copy)]
pub enum Row {
    /// Replies with this refusal, and leaves the item as it is.
    Refuses(Refusal),
    /// Replies with the item, and sets its expiry if one is given.
    Reads(Option<Expiry>),
    /// Sets the item's expiry.
    Touches(Expiry),
    /// Removes the item.
    Deletes,
    /// Writes an item with the next unique number.
    Writes {
        flags: u32,
        expiry: Expiry,
        body: Body,
    },
}

/// An item under a key, which returns its fields.
pub trait Standing {
    ghost use Rattle.std.specs.Prelude.{◌≡◌};
    ghost use Rattle.mc_protocol.specs.Plain.{Entry, number_of};

    /// The item, as contracts see it.
    ghost entry_of: { Self → Entry };

    /// Returns the client's flags.
    fn flags(&self) -> u32
        ensures { result ≡ (entry_of self.now).flags };

    /// Returns when it expires.
    fn expiry(&self) -> Expiry
        ensures { result ≡ (entry_of self.now).expiry };

    /// Returns its unique number, which no other write has.
    fn unique(&self) -> u64
        ensures { result ≡ (entry_of self.now).unique };

    /// Returns the number that its block is, as [`number_of`] does, or `None`.
    ///
    /// The cost grows with the block's length.
    fn number(&self) -> Option<u64>
        ensures { result ≡ number_of (entry_of self.now).block };
}

/// Returns the row of a step at a moment, given the item under its key.
///
/// A flush has no key; its row is that of a missing item. It takes no memory, and costs a few
/// comparisons and the digits of a number to count.
pub fn row_of<T: Standing>(step: &KeyStep<'_>, item: Option<&T>, now: Moment) -> Row
    ensures { result ≡ machine.row_of step.now now (standing_in T.entry_of item.entry) }
{
    match item {
        None => if_absent(step, now),
        Some(old) => if_present(step, old, now),
    }
}

/// Returns the row of a step whose key has no item.
fn if_absent(step: &KeyStep<'_>, now: Moment) -> Row
    ensures { result ≡ machine.absent_row (machine.if_absent step.now now) }
{
    match step {
        KeyStep::Store {
            verb: Verb::Set | Verb::Add,
            flags,
            exptime,
            ..
        } => given(*flags, expiry_of(*exptime, now)),
        KeyStep::Store { .. } => Row::Refuses(Refusal::NotStored),
        KeyStep::Read { .. } | KeyStep::ReadTouch { .. } => Row::Refuses(Refusal::Miss),
        KeyStep::Cas { .. }
        | KeyStep::Touch { .. }
        | KeyStep::Delete { .. }
        | KeyStep::Count { .. }
        | KeyStep::Flush { .. } => Row::Refuses(Refusal::NotFound),
    }
}

/// Returns the row of a step whose key has this item.
fn if_present<T: Standing>(step: &KeyStep<'_>, old: &T, now: Moment) -> Row
    ensures { result ≡ machine.if_present step.now now (T.entry_of old.now) }
{
    match step {
        KeyStep::Store {
            verb,
            flags,
            exptime,
            ..
        } => stored_over(*verb, *flags, expiry_of(*exptime, now), old),
        KeyStep::Cas {
            flags,
            exptime,
            unique,
            ..
        } => if_unique(old, *unique, given(*flags, expiry_of(*exptime, now))),
        KeyStep::Read { .. } => Row::Reads(None),
        KeyStep::ReadTouch { exptime, .. } => Row::Reads(Some(expiry_of(*exptime, now))),
        KeyStep::Touch { exptime, .. } => Row::Touches(expiry_of(*exptime, now)),
        KeyStep::Delete { .. } => Row::Deletes,
        KeyStep::Count { up, by, .. } => number_row(*up, *by, old),
        KeyStep::Flush { .. } => Row::Refuses(Refusal::NotFound),
    }
}

/// Returns the row of a write of the step's own block.
fn given(flags: u32, expiry: Expiry) -> Row
    ensures { result ≡ machine.given flags expiry }
{
    Row::Writes {
        flags,
        expiry,
        body: Body::Given,
    }
}

/// Returns the row of a write that keeps the item's flags and its expiry.
fn joined<T: Standing>(old: &T, body: Body) -> Row
    ensures { result ≡ machine.joined (T.entry_of old.now) body }
{
    Row::Writes {
        flags: old.flags(),
        expiry: old.expiry(),
        body,
    }
}

/// Returns the row of set, add, replace, append or prepend of a key with this item.
fn stored_over<T: Standing>(verb: Verb, flags: u32, expiry: Expiry, old: &T) -> Row
    ensures { result ≡ machine.stored_over verb flags expiry (T.entry_of old.now) }
{
    match verb {
        Verb::Set | Verb::Replace => given(flags, expiry),
        Verb::Add => Row::Refuses(Refusal::NotStored),
        Verb::Append => joined(old, Body::Appended),
        Verb::Prepend => joined(old, Body::Prepended),
    }
}

/// Returns a row for the item with this unique number, and a refusal for another one.
fn if_unique<T: Standing>(old: &T, unique: u64, row: Row) -> Row
    ensures { result ≡ machine.if_unique (T.entry_of old.now) unique row }
{
    if old.unique() == unique {
        row
    } else {
        Row::Refuses(Refusal::Exists)
    }
}

/// Returns the row of incr or decr of this item.
fn number_row<T: Standing>(up: bool, by: u64, old: &T) -> Row
    ensures { result ≡ machine.number_row (T.entry_of old.now) up by
        (machine.number_of (T.entry_of old.now).block) }
{
    match old.number() {
        None => Row::Refuses(Refusal::NotNumeric),
        Some(number) => joined(old, Body::Counted(count_up_or_down(up, by, number))),
    }
}
