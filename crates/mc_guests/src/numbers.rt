//! The numbers of links in a row, with a map from number to place.
//!
//! Waking a guest costs the same at any number of guests. The map's memory is reserved when the
//! guest is admitted.
ghost use Rattle.std.specs.Prelude.{◌≡◌, ◌<◌, ◌-◌, ◌++◌, ◌∷◌, ℕ, [], take, swap, length, nat_eq, cond, slice_get, Some, None, IfSome, IsSome, IsTrue, IsFalse};
ghost use Rattle.std.specs.HashMap.{get};

use std::alloc::Global;
use std::collections::HashMap;
use std::marker::Model;

/// Numbers in a row. Contracts see them.
#[derive(Drop)]
pub struct NumberList {
    row: Vec<u64>,
    /// The place of each.
    places: HashMap<u64, usize>,
}

impl Model for NumberList {
    ghost use Rattle.std.specs.Prelude.{ℕ, List, nat_eq};
    ghost use Rattle.std.specs.HashMap.{get};
    ghost use Rattle.mc_guests.specs.Books.{TellsPlaces};

    ghost Value = { List ℕ };

    ghost view = { λ n. n.row.items };

    ghost invariant = { λ n. TellsPlaces (λ number. get nat_eq n.places number) n.row.items };
}

impl NumberList {
    /// Makes an empty row. It takes no memory.
    pub fn new(alloc: Global) -> NumberList
        ensures { result ≡ [] }
    {
        NumberList {
            row: Vec::new(alloc),
            places: HashMap::new(alloc),
        }
    }

    /// Appends a number, and returns whether it did.
    ///
    /// It doesn't if the number is there already, or if memory is refused; then nothing changes.
    pub fn push(&mut self, number: u64) -> bool
        ensures pushed { IsTrue result → self.new ≡ self.old ++ number ∷ [] }
        ensures refused { IsFalse result → self.new ≡ self.old }
    {
        if self.places.contains_key(&number) {
            return false;
        }
        if !add_place(&mut self.places, number, self.row.len()) {
            return false;
        }
        if self.row.push(number).is_ok() {
            return true;
        }
        drop_place(&mut self.places, number);
        false
    }

    /// Drops the last number.
    pub fn pop(&mut self)
        requires { 0 < length self.old }
        ensures { self.new ≡ take (length self.old - 1) self.old }
    {
        let Some(number) = self.row.pop() else {
            return;
        };
        drop_place(&mut self.places, number);
    }

    /// Returns the number at a place.
    pub fn at(&self, at: usize) -> u64
        requires { at < length self.now }
        ensures { slice_get self.now at ≡ Some result }
    {
        self.row[at]
    }

    /// Returns the place of a number.
    pub fn place_of(&self, number: u64) -> Option<usize>
        ensures some { IfSome result (λ at. slice_get self.now at ≡ Some number) }
        ensures none { (at : ℕ) → slice_get self.now at ≡ Some number → result ≡ Some at }
    {
        self.places.get(&number).copied()
    }

    /// Swaps two numbers.
    pub fn swap(&mut self, one: usize, other: usize)
        requires one { one < length self.old }
        requires other { other < length self.old }
        requires apart { one ≡ other → ⊥ }
        ensures { self.new ≡ swap self.old one other }
    {
        let first = self.row[one];
        let second = self.row[other];
        self.row.as_mut_slice().swap(one, other);
        set_place(&mut self.places, first, other);
        set_place(&mut self.places, second, one);
    }
}

/// Adds the place of a number, and returns whether memory was there.
fn add_place(places: &mut HashMap<u64, usize>, number: u64, at: usize) -> bool
    ensures noted { IsTrue result → (other : ℕ) → get nat_eq places.new other
        ≡ cond (nat_eq number other) (Some at) (get nat_eq places.old other) }
    ensures refused { IsFalse result → (other : ℕ) → get nat_eq places.new other
        ≡ get nat_eq places.old other }
{
    places.insert(number, at).is_ok()
}

/// Changes the place of a number.
fn set_place(places: &mut HashMap<u64, usize>, number: u64, at: usize)
    requires { IsSome (get nat_eq places.old number) }
    ensures { (other : ℕ) → get nat_eq places.new other
        ≡ cond (nat_eq number other) (Some at) (get nat_eq places.old other) }
{
    if let Some(place) = places.get_mut(&number) {
        *place = at;
    }
}

/// Removes the place of a number.
fn drop_place(places: &mut HashMap<u64, usize>, number: u64)
    ensures { (other : ℕ) → get nat_eq places.new other
        ≡ cond (nat_eq number other) None (get nat_eq places.old other) }
{
    places.remove(&number);
}
