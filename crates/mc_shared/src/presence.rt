//! Misses that are decided by one load, without a shelf.
//!
//! A key's number is its hash modulo 4096, and a word counts the keys of each number. A word of 0
//! decides a miss. A word may be one too high while its shelf is held, and is never too low.
ghost use Rattle.std.specs.Prelude.{◌≡◌, true, false};
ghost use Rattle.mc_protocol.specs.declared.step.KeyStep.{KeyStep as Step};
ghost use Rattle.mc_protocol.specs.declared.reply.Reply.{Reply as Told};
ghost use Rattle.mc_shared.specs.History.{start_of};
ghost use Rattle.mc_shared.specs.Store.{HasCalled, IsShown};

use crate::steps::{load_as, word_in};
use crate::store::{Caller, Shared};
use mc_hop::KeyHash;
use mc_shelf::NUMBERS;
use mc_time::Moment;
use std::marker::Brand;

impl<K: KeyHash + Drop> Shared<K> {
    /// Returns whether no key has the key's number, its hash modulo 4096.
    ///
    /// If so, the key has no item, and a read of it is decided as a miss; else nothing is decided.
    /// It never waits, holds nothing and takes no memory. It costs the key's hash and one load.
    pub fn absent(&self, caller: &mut Caller, key: &[u8], now: Moment) -> bool
        requires own { caller.old.table ≡ self.now.table }
        ensures same { caller.new.table ≡ caller.old.table }
        ensures miss { result ≡ true → HasCalled (start_of K.hash_of self.now.began)
            caller.old.past (Step.Read key.now) now Told.Miss caller.new.past }
        ensures stays { result ≡ false → caller.new.past ≡ caller.old.past }
        ensures shows { IsShown (start_of K.hash_of self.now.began) caller.old.past key.now result }
    {
        self.absent_hashed(caller, key, self.hasher.hash(key), now)
    }

    /// Returns the same, given the key's hash.
    pub(crate) fn absent_hashed(
        &self,
        caller: &mut Caller,
        key: &[u8],
        hash: u64,
        now: Moment,
    ) -> bool
        requires own { caller.old.table ≡ self.now.table }
        requires hash { hash ≡ K.hash_of self.now.began.hasher key.now }
        ensures same { caller.new.table ≡ caller.old.table }
        ensures miss { result ≡ true → HasCalled (start_of K.hash_of self.now.began)
            caller.old.past (Step.Read key.now) now Told.Miss caller.new.past }
        ensures stays { result ≡ false → caller.new.past ≡ caller.old.past }
        ensures shows { IsShown (start_of K.hash_of self.now.began) caller.old.past key.now result }
    {
        let number = (hash % NUMBERS as u64) as usize;
        let word = word_in(self.settings.shelves as usize, number);
        load_as::<Brand, K>(&self.board, &mut caller.seat, word, key, now) == 0
    }
}
