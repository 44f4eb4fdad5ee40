//! Reads that lend the item they find in place, so that no block is copied.

ghost use Rattle.std.specs.Prelude.{◌≡◌, ◌<◌, ◌≤◌, length, slice_get, Some, IfSome, true, false};
ghost use Rattle.std.specs.List.{concat};
ghost use Rattle.std.specs.FinMap.{get};
ghost use Rattle.mc_slab.specs.Chunks.{largest_block};
ghost use Rattle.mc_protocol.specs.Commands.{key_of};
ghost use Rattle.mc_protocol.specs.Plain.{hit_of, item_need};
ghost use Rattle.mc_shelf.specs.States.{IsHash, parts_of};
ghost use Rattle.mc_shelf.specs.Plans.{IsKnown, PlanIsSettled, is_gone, stood};
ghost use Rattle.mc_shelf.specs.Hits.{found_of, is_read, read_expiry};

use crate::entry::Entry;
use crate::index::Place;
use crate::shelf::Shelf;
use mc_bytes::Lent;
use mc_protocol::{KeyStep, Standing};
use mc_time::{Expiry, Moment, expiry_of, is_dead};
use std::marker::Model;

/// An item under a key, lent in place. Contracts see the key and the item.
///
/// The parts of a large block can be lent beyond it ([`Hit::lend`]), where they stay as they are.
#[derive(Drop)]
pub struct Hit<'a> {
    entry: &'a Entry,
    place: Place,
}

impl<'a> Model for Hit<'a> {
    ghost use Rattle.mc_shelf.specs.Lent.{HitState, coded_hit};

    ghost Value = { HitState };

    ghost coded = { coded_hit };

    ghost view = { λ h. record { key = h.entry.now.key; item = h.entry.now.item } };
}

impl<'a> Hit<'a> {
    /// Returns the item's flags.
    pub fn flags(&self) -> u32
        ensures { result ≡ self.now.item.flags }
    {
        self.entry.flags()
    }

    /// Returns the item's unique number, which no other write has.
    pub fn unique(&self) -> u64
        ensures { result ≡ self.now.item.unique }
    {
        self.entry.unique()
    }

    /// Returns the length of the item's block, at most 8388560 bytes.
    pub fn block_len(&self) -> usize
        ensures value { result ≡ length self.now.item.block }
        ensures most { result ≤ largest_block }
    {
        self.entry.block_len()
    }

    /// Returns the number of parts of the item's block, 1 to 8.
    ///
    /// There is more than one only if block, key and 48 bytes are more than 1048576.
    pub fn parts(&self) -> usize
        ensures value { result ≡ (item_need self.now.key self.now.item).count }
        ensures joined { concat (parts_of self.now.key self.now.item) ≡ self.now.item.block }
        ensures range { (1 ≤ result) × (result ≤ 8) }
    {
        self.entry.parts()
    }

    /// Lends a part of the item's block, the first at 0. A single part is the whole block.
    pub fn part(&self, at: usize) -> &[u8]
        requires { at < (item_need self.now.key self.now.item).count }
        ensures value { slice_get (parts_of self.now.key self.now.item) at ≡ Some result.now }
        ensures lone { (item_need self.now.key self.now.item).count ≡ 1
            → result.now ≡ self.now.item.block }
    {
        self.entry.part(at)
    }

    /// Lends a part of the item's block for as long as the result is there, the first at 0.
    ///
    /// The bytes that are lent stay as they are, even if the item is written again or deleted. It
    /// takes no memory. `None` if the part's memory can't be lent, as in classes below 27.
    pub fn lend(&self, at: usize) -> Option<Lent>
        requires { at < (item_need self.now.key self.now.item).count }
        ensures { IfSome result (λ lent.
            slice_get (parts_of self.now.key self.now.item) at ≡ Some lent) }
    {
        self.entry.lend(at)
    }

    /// Returns the item's place, for `Shelf::settle_read`.
    pub fn place(&self) -> Place {
        self.place
    }
}

/// The result of a search for a key.
#[derive(Drop)]
pub enum Found<'a> {
    /// The key has no item.
    Nothing,
    /// The key's item is dead.
    Dead,
    /// The key's item isn't dead.
    Standing(Hit<'a>),
}

impl Shelf {
    /// Finds the item under a key at a moment.
    ///
    /// `hash` is the hash that the shelf has with the key, if it has the key. It takes no memory.
    pub fn find(&self, key: &[u8], hash: u64, now: Moment) -> Found<'_>
        requires { IsHash self.now.content key.now hash }
        ensures { result
            ≡ found_of self.now.content.cut now key.now (get self.now.content.items key.now) }
    {
        let Some(place) = self.index.find(hash, key) else {
            return Found::Nothing;
        };
        let Some(entry) = self.index.get(place) else {
            return Found::Nothing;
        };
        if is_dead(entry.expiry(), entry.updated_at(), self.cut, now) {
            return Found::Dead;
        }
        Found::Standing(Hit { entry, place })
    }

    /// Takes a read of a key that has no dead item: sets the item's new expiry, if the read gives
    /// one.
    ///
    /// `place` is where `find` found the item, or `None`; a wrong place costs a search, and no
    /// more. The reply is a hit of the item as it was, and its block isn't copied. It takes no
    /// memory.
    pub fn settle_read(&mut self, step: &KeyStep<'_>, hash: u64, now: Moment, place: Option<Place>)
        requires read { is_read step.now ≡ true }
        requires known { IsKnown self.old.content (key_of step.now) hash place }
        requires alive { is_gone self.old.content.cut now
            (get self.old.content.items (key_of step.now)) ≡ false }
        ensures { PlanIsSettled step.now now hash self.old.content
            (hit_of (stood self.old.content step.now now)) self.new.content }
    {
        if place.is_some() {
            if let Some(expiry) = read_expiry(step, now) {
                self.expire(place, hash, step.key(), expiry);
            }
        }
    }
}

/// Returns the expiry that a read sets, or `None`.
fn read_expiry(step: &KeyStep<'_>, now: Moment) -> Option<Expiry>
    ensures { result ≡ read_expiry step.now now }
{
    match step {
        KeyStep::ReadTouch { exptime, .. } => Some(expiry_of(*exptime, now)),
        _ => None,
    }
}
