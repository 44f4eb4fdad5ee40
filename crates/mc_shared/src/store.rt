//! The store for many threads.
//!
//! What a shared store began with is the table's key: a snapshot without bytes, which rules read
//! and contracts cite as `began`. Bays are eight words apart, so no two share a cache line; the
//! presence words are behind them, in the order of the shelves.
ghost use Rattle.std.specs.Prelude.{◌≡◌, ◌*◌, ◌/◌, ◌<◌, ℕ, List, [], ◌++◌};
ghost use Rattle.std.specs.Prelude.{map, replicate, OnOk, Some, IfOk};
ghost use Rattle.mc_protocol.specs.Plain.{Plain, opening};
ghost use Rattle.mc_shelf.specs.States.{ShelfState};
ghost use Rattle.mc_shelf.specs.Numbers.{numbers};
ghost use Rattle.mc_shared.specs.Counted.{AreAllOf};
ghost use Rattle.mc_shared.specs.History.{Beginning, start_of, shelf_in};
ghost use Rattle.mc_shared.specs.Past.{start, spent, made, both};
ghost use Rattle.mc_shared.specs.Steps.{next_name, Agrees};
ghost use Rattle.mc_shared.specs.Store.{shelf_slot, desk_slot, slot_alone, spaced};
ghost use Rattle.mc_shared.specs.Presence.{words_with};
ghost use Rattle.mc_shared.specs.Rule.{AreFirst};

use crate::bay::Bay;
use crate::boxed::Boxed;
use crate::count::count_shelves;
use crate::plays::{Fork, Meet};
use crate::rule::{Board, Seat};
use crate::steps::{APART, reload, word_in};
use atomic_table::Table;
use mc_hop::KeyHash;
use mc_shelf::{Desk, NUMBERS, Settings, Shelf, Store, StoreParts};
use std::alloc::{AllocError, Global};
use std::marker::Model;
use std::snapshot::Snapshot;

/// A store for many threads. Contracts see which store it is, and what it began with.
#[derive(Drop)]
pub struct Shared<K: KeyHash + Drop> {
    pub(crate) board: Board<K>,
    pub(crate) settings: Settings,
    pub(crate) hasher: K,
    /// The allocator of a purge's list of chunks.
    pub(crate) alloc: Global,
}

impl<K: KeyHash + Drop> Model for Shared<K> {
    ghost use Rattle.std.specs.Prelude.{◌≡◌, ◌<◌};
    ghost use Rattle.mc_shelf.specs.Stores.{IsSetUp};
    ghost use Rattle.mc_shared.specs.Seats.{IsTableOf};
    ghost use Rattle.mc_shared.specs.Shown.{SharedState, coded_shared};

    ghost Value = { SharedState K };

    ghost coded = { coded_shared K.code };

    ghost view = { λ s. record {
      table = s.board.shared.table_id;
      began =
          s.board.shared.key.value;
    } };

    ghost invariant = { λ s. IsTableOf s.board.shared.table_id s.board.shared.key.value
        × (s.board.shared.key.value.settings ≡ s.settings)
        × (s.board.shared.key.value.hasher ≡ s.hasher) × IsSetUp s.settings
        s.board.shared.key.value.plain × (0 < s.settings.shelves) };
}

/// A caller of a store. It holds no bay between calls. Contracts see its store and its past.
#[derive(Drop)]
pub struct Caller {
    pub(crate) seat: Seat,
    /// The shelf of its last step, if entries of it may be left to move.
    pub(crate) grows: Option<u32>,
}

impl Model for Caller {
    ghost use Rattle.mc_shared.specs.Seats.{Rests};
    ghost use Rattle.mc_shared.specs.Shown.{CallerState, coded_caller};

    ghost Value = { CallerState };

    ghost coded = { coded_caller };

    ghost view = { λ c. record { table = c.seat.table_id; past = c.seat.me.0.past } };

    ghost invariant = { λ c. Rests c.seat.me };
}

impl<K: KeyHash + Drop> Shared<K> {
    /// Makes a shared store with another store's state, and its first caller.
    ///
    /// The only error is a refused allocation; the store is then dropped.
    pub fn over(alloc: Global, store: Store<K>) -> Result<(Shared<K>, Caller), AllocError>
        ensures made { IfOk result (λ r. (r.0.began ≡ store) × (r.1.table ≡ r.0.table)
            × (r.1.past ≡ start [] spent)) }
        ensures agrees { IfOk result (λ r. Agrees (start_of K.hash_of store) r.1.past) }
    {
        let began = Snapshot::of(&store);
        let StoreParts {
            settings,
            hasher,
            shelves,
            desk,
        } = store.into_parts();
        let words = first_words(alloc, shelves.as_slice(), settings.shelves as usize)?;
        let slots = slots_of(alloc, settings.shelves, shelves, desk)?;
        match Table::new(alloc, words.as_slice(), slots, &began) {
            Ok((board, mut seat)) => {
                reload(&board, &mut seat);
                let shared = Shared {
                    board,
                    settings,
                    hasher,
                    alloc,
                };
                Ok((shared, Caller { seat, grows: None }))
            }
            Err(_) => Err(AllocError),
        }
    }

    /// Makes an empty shared store, and its first caller. The only error is a refused allocation.
    pub fn new(
        alloc: Global,
        settings: Settings,
        hasher: K,
    ) -> Result<(Shared<K>, Caller), AllocError>
        ensures plain { IfOk result (λ made.
            made.0.began.plain ≡ opening settings.pages settings.greatest) }
        ensures set_up { IfOk result (λ made.
            (made.0.began.settings ≡ settings) × (made.0.began.hasher ≡ hasher)) }
        ensures caller { IfOk result (λ made.
            (made.1.table ≡ made.0.table) × (made.1.past ≡ start [] spent)) }
        ensures agrees { IfOk result (λ made.
            Agrees (start_of K.hash_of made.0.began) made.1.past) }
    {
        Shared::over(alloc, Store::new(alloc, settings, hasher)?)
    }

    /// Returns a new caller without calls. It never fails and takes no memory.
    ///
    /// Its calls come after all that its maker made or saw until then.
    pub fn caller(&self, maker: &mut Caller) -> Caller
        requires { maker.old.table ≡ self.now.table }
        ensures kept { (maker.new.table ≡ maker.old.table)
            × (maker.new.past ≡ made maker.old.past (next_name maker.old.past)) }
        ensures new { (result.table ≡ maker.old.table) ×
            (result.past ≡ start (next_name maker.old.past) maker.old.past) }
        ensures agrees { Agrees (start_of K.hash_of self.now.began) maker.new.past
            × Agrees (start_of K.hash_of self.now.began) result.past }
    {
        let mut seat = self.board.shared.split_seat::<Fork>(&mut maker.seat);
        reload(&self.board, &mut maker.seat);
        reload(&self.board, &mut seat);
        Caller { seat, grows: None }
    }

    /// Joins a caller into another, whose later calls come after all that both made.
    ///
    /// It takes no memory.
    pub fn join(&self, into: &mut Caller, from: Caller)
        requires { (into.old.table ≡ self.now.table) × (from.table ≡ self.now.table) }
        ensures past { (into.new.table ≡ into.old.table)
            × (into.new.past ≡ both into.old.past from.past) }
        ensures kept { Agrees (start_of K.hash_of self.now.began) into.new.past }
    {
        let Caller { seat, .. } = from;
        self.board.shared.join_seat::<Meet>(&mut into.seat, seat);
        reload(&self.board, &mut into.seat);
    }

    /// Returns the greatest charge of an item, in bytes.
    pub fn greatest(&self) -> u64
        ensures { result ≡ self.now.began.settings.greatest }
    {
        self.settings.greatest
    }

    /// Returns the number of shelves, at least one.
    pub fn shelves(&self) -> u32
        ensures count { result ≡ self.now.began.settings.shelves }
        ensures some { 0 < result }
    {
        self.settings.shelves
    }

    /// Returns the shelf of a key: its hash modulo the number of shelves.
    pub fn shelf_of(&self, key: &[u8]) -> u32
        ensures shelf { result ≡ shelf_in (start_of K.hash_of self.now.began) key.now }
        ensures inside { result < self.now.began.settings.shelves }
    {
        (self.hasher.hash(key) % u64::from(self.settings.shelves)) as u32
    }
}

/// Returns the words of a table with this many shelves, each 0.
fn no_words(alloc: Global, count: usize) -> Result<Vec<u64>, AllocError>
    requires { numbers / count * count ≡ numbers }
    ensures { IfOk result (λ v. v.items ≡ replicate (words_with count) 0) }
{
    vec![in alloc; 0; (count + 1) * APART + count * (NUMBERS / count + APART)]
}

/// Returns the first words of a table: each bay is free, and a number's word counts its keys.
fn first_words(alloc: Global, shelves: &[Shelf], count: usize) -> Result<Vec<u64>, AllocError>
    requires divides { numbers / count * count ≡ numbers }
    requires parts { (hash_of : List ℕ → ℕ) × (state : Plain) × AreAllOf hash_of state shelves.now }
    ensures { IfOk result (λ v. (start : Beginning) → start.shelves ≡ count →
        AreAllOf start.hash_of start.plain shelves.now → AreFirst start v.items) }
{
    let counts = count_shelves(shelves);
    let mut words = no_words(alloc, count)?;
    for number in 0..NUMBERS {
        words[word_in(count, number)] = counts[number];
    }
    Ok(words)
}

/// Returns the slots: the shelves, and behind them the desk.
fn slots_of(
    alloc: Global,
    count: u32,
    shelves: Vec<Shelf>,
    desk: Desk,
) -> Result<Vec<Option<Bay>>, AllocError>
    ensures { IfOk result (λ v. v.items ≡ spaced (map {A = ShelfState} shelf_slot shelves.items)
        ++ slot_alone (desk_slot desk)) }
{
    let mut slots = Vec::with_capacity(alloc, (count as usize + 1) * APART)?;
    for shelf in shelves {
        push_alone(&mut slots, Bay::Shelf(Boxed::new(alloc, shelf)?))?;
    }
    push_alone(&mut slots, Bay::Desk(Boxed::new(alloc, desk)?))?;
    Ok(slots)
}

/// Puts a bay into the next slot, and nothing into the slots up to the next place.
fn push_alone(slots: &mut Vec<Option<Bay>>, bay: Bay) -> Result<(), AllocError>
    ensures { OnOk result (slots.new.items ≡ slots.old.items ++ slot_alone (Some bay)) }
{
    slots.push(Some(bay))?;
    slots.push(None)?;
    slots.push(None)?;
    slots.push(None)?;
    slots.push(None)?;
    slots.push(None)?;
    slots.push(None)?;
    slots.push(None)?;
    Ok(())
}
