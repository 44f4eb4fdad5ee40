//! The bytes of a stream that have arrived and aren't read.
//!
//! They are in a queue. A unit with a large block is read into memory of its own, which has the
//! size of the block's chunks and a little more. Once the unit is whole, and nothing is behind it,
//! that memory is shared and offered: the block's chunks may take it over, and leave their former
//! memory in exchange. The next unit is read into that memory.

ghost use Rattle.std.specs.Prelude.{◌≡◌, ◌≤◌, ◌++◌, [], length, drop, None, IfSome, OnOk, OnErr, IfOk};
ghost use Rattle.mc_parse.specs.Feeds.{arrived};

use crate::ahead::Ahead;
use crate::note::Announced;
use crate::offer::Offer;
use mc_bytes::{Queue, Source, Spares};
use std::alloc::{AllocError, Global};
use std::marker::Model;
use std::mem;

/// The bytes of a stream that have arrived and aren't read. Contracts see them.
#[derive(Drop)]
pub struct Arrived {
    queue: Queue<65536>,
    /// The bytes, if their memory is offered. The queue is empty then.
    offer: Option<Offer>,
}

impl Model for Arrived {
    ghost use Rattle.std.specs.Prelude.{◌≡◌, List, ℕ, [], IfSome};
    ghost use Rattle.mc_parse.specs.Feeds.{arrived};

    ghost Value = { List ℕ };

    ghost view = { λ a. arrived a.offer a.queue.bytes };

    ghost invariant = { λ a. IfSome a.offer (λ _. a.queue.bytes ≡ []) };
}

impl Arrived {
    ghost use Rattle.mc_bytes.specs.Sources.{Brings};
    ghost use Rattle.mc_bytes.specs.Queues.{first_piece};
    ghost use Rattle.mc_parse.specs.Feeds.{kept_in_feed};

    /// Returns that nothing arrived. It takes no memory, and large memory from these spares.
    pub fn new(alloc: Global, spares: Option<Spares>) -> Arrived
        ensures { result ≡ [] }
    {
        Arrived {
            queue: Queue::with_spares(alloc, spares),
            offer: None,
        }
    }

    /// Lends the bytes.
    #[inline]
    pub fn as_slice(&self) -> &[u8]
        ensures { result.now ≡ self.now }
    {
        match &self.offer {
            Some(offer) => offer.unit(),
            None => self.queue.as_slice(),
        }
    }

    /// Returns the number of bytes.
    #[inline]
    pub fn len(&self) -> usize
        ensures { result ≡ length self.now }
    {
        match &self.offer {
            Some(offer) => offer.len(),
            None => self.queue.len(),
        }
    }

    /// Lends the offer of the bytes, if they are offered.
    #[inline]
    pub fn offered(&self) -> Option<&Offer>
        ensures { IfSome result (λ offer. offer.now ≡ self.now) }
    {
        self.offer.as_ref()
    }

    /// Returns how many bytes of memory are filled: those not read, and read ones before them.
    pub fn filled_bytes(&self) -> usize
        ensures least { length self.now ≤ result }
        ensures empty { self.now ≡ [] → result ≡ 0 }
    {
        match &self.offer {
            Some(offer) => offer.len(),
            None => self.queue.filled_bytes(),
        }
    }

    /// Returns the number of reserved bytes: at most 65536 if no byte is there.
    pub fn capacity(&self) -> usize
        ensures filled { length self.now ≤ result }
        ensures empty { self.now ≡ [] → result ≤ kept_in_feed }
    {
        match &self.offer {
            Some(offer) if offer.len() > 0 => offer.kept_bytes(),
            _ => self.queue.capacity(),
        }
    }

    /// Frees the memory beyond that of a first piece if no byte is there.
    ///
    /// Returns the number of reserved bytes afterwards.
    pub fn rest(&mut self) -> usize
        ensures same { self.new ≡ self.old }
        ensures filled { length self.new ≤ result }
        ensures empty { self.new ≡ [] → result ≤ first_piece }
    {
        let left = self.queue.rest();
        match &self.offer {
            Some(offer) if offer.len() > 0 => offer.kept_bytes(),
            _ => left,
        }
    }

    /// Appends bytes of a unit that wants `whole` bytes of memory. An error changes nothing.
    pub fn push_part(&mut self, bytes: &[u8], whole: usize) -> Result<(), AllocError>
        ensures ok { OnOk result (self.new ≡ self.old ++ bytes.now) }
        ensures err { OnErr result (self.new ≡ self.old) }
    {
        if self.offer.is_some() {
            withdraw(&mut self.queue, &mut self.offer)?;
        }
        self.queue.push_part(bytes, whole)
    }

    /// Appends what a source writes into room for `room` bytes, as `push_part` appends bytes.
    ///
    /// After an error the source wasn't called, and the bytes are unchanged.
    pub fn push_part_from<S: Source>(
        &mut self,
        source: &mut S,
        room: usize,
        whole: usize,
    ) -> Result<S::Answer, AllocError>
        ensures ok { IfOk result (λ answer. Brings S.gives source.old source.new answer
            (λ piece. self.new ≡ self.old ++ piece)) }
        ensures err { OnErr result (self.new ≡ self.old) }
        ensures asked { OnErr result (source.new ≡ source.old) }
    {
        if self.offer.is_some() {
            if let Err(refused) = withdraw(&mut self.queue, &mut self.offer) {
                return Err(refused);
            }
        }
        self.queue.push_part_from(source, room, whole)
    }

    /// Drops the first `n` bytes. It takes no memory.
    #[inline]
    pub fn consume(&mut self, n: usize)
        requires { n ≤ length self.old }
        ensures { self.new ≡ drop n self.old }
    {
        if self.offer.is_some() {
            return self.consume_offered(n);
        }
        if n > 0 {
            self.queue.consume(n);
        }
    }

    /// Drops the first `n` bytes of an offer.
    #[inline(never)]
    fn consume_offered(&mut self, n: usize)
        requires { n ≤ length self.old }
        ensures { self.new ≡ drop n self.old }
    {
        match mem::replace(&mut self.offer, None) {
            None => self.queue.consume(n),
            Some(offer) if n == offer.len() => self.keep(offer),
            Some(mut offer) => {
                offer.drop_front(n);
                self.offer = Some(offer);
            }
        }
    }

    /// Drops all bytes. It takes no memory.
    pub fn clear(&mut self)
        ensures { self.new ≡ [] }
    {
        self.queue.clear();
        self.offer = None;
    }

    /// Offers the bytes if they are one unit with a large block, and memory for the count is there.
    #[inline]
    pub fn offer(&mut self, ahead: &Ahead)
        ensures { self.new ≡ self.old }
    {
        if ahead.may_be_large() {
            self.offer_block(ahead);
        }
    }

    /// Offers the bytes as `offer` does, if their line announces a large block.
    #[inline(never)]
    fn offer_block(&mut self, ahead: &Ahead)
        ensures { self.new ≡ self.old }
    {
        let Some(Announced { from, len, .. }) = ahead.large_block() else {
            return;
        };
        if self.offer.is_some() || self.queue.len() != from.saturating_add(len).saturating_add(2) {
            return;
        }
        if let Some(unit) = self.queue.share() {
            self.offer = Some(Offer::of(unit, from, len));
        }
    }

    /// Keeps the memory of an offer that was read as a spare, or what was left in exchange.
    fn keep(&self, offer: Offer) {
        if let Some(memory) = offer.into_memory() {
            self.queue.keep(memory);
        }
    }
}

/// Copies offered bytes back to the queue, and withdraws the offer. An error changes nothing.
#[inline(never)]
fn withdraw(queue: &mut Queue<65536>, offer: &mut Option<Offer>) -> Result<(), AllocError>
    requires { IfSome offer.old (λ _. queue.old.bytes ≡ []) }
    ensures ok { OnOk result (queue.new.bytes ≡ arrived offer.old queue.old.bytes) }
    ensures none { OnOk result (offer.new ≡ None) }
    ensures err { OnErr result (queue.new.bytes ≡ queue.old.bytes) }
    ensures same { OnErr result (offer.new ≡ offer.old) }
{
    if let Some(there) = &*offer {
        queue.push(there.unit())?;
        *offer = None;
    }
    Ok(())
}
