//! Buckets, each with a word of 32 bits and at most one value.

ghost use Rattle.std.specs.Prelude.{◌≡◌, ◌+◌, ◌-◌, ◌<◌, ◌≤◌, ◌^◌, ◌/◌, ◌%◌, Some, None, IfOk, IfSome, IsNone, option_copied, false, vec_len, is_some, true, length, replicate, slice_index_or, slice_set};
ghost use Rattle.mc_hop.specs.Cells.{empty_cells, filled};
ghost use Rattle.mc_hop.specs.Links.{ats_of, tags_of, words_of, renumbered};

use core::mem::replace_with;
use std::alloc::{AllocError, Global};
use std::marker::{Model, PhantomData};

/// The limit of a bucket's number, 2^25. The tag is in the bits above.
const NUMBERS: u32 = 1 << 25;

/// A bucket: its word, and its number below its tag.
///
/// The number is one more than the index of its value in the list, or 0 if the bucket is empty. A
/// search compares the tag before it reads the value.
#[derive(Clone, Copy)]
struct Cell {
    word: u32,
    tagged: u32,
}

/// Makes `len` empty buckets with the word 0.
fn empty_list(alloc: Global, len: usize) -> Result<Vec<Cell>, AllocError>
    ensures { IfOk result (λ cells. cells.items ≡ replicate len (record { word = 0; tagged = 0 })) }
{
    let mut cells = Vec::with_capacity(alloc, len)?;
    cells.resize(len, Cell { word: 0, tagged: 0 })?;
    Ok(cells)
}

/// Returns a number with a tag in the bits above it.
fn tag_number(tag: u32, number: usize) -> u32
    requires tag { tag < 128 }
    requires small { number < 2 ^ 25 }
    ensures number { result % 2 ^ 25 ≡ number }
    ensures tag { result / 2 ^ 25 ≡ tag }
{
    tag * NUMBERS + number as u32
}

/// Returns the number of a bucket: one more than the index of its value, or 0.
fn number_of(cells: &Vec<Cell>, at: usize) -> usize
    requires { at < vec_len cells.now }
    ensures { result ≡ slice_index_or (ats_of cells.now.items) at 0 }
{
    (cells[at].tagged % NUMBERS) as usize
}

/// Returns the tag of a bucket.
fn tag_of(cells: &Vec<Cell>, at: usize) -> u32
    requires { at < vec_len cells.now }
    ensures value { result ≡ slice_index_or (tags_of cells.now.items) at 0 }
    ensures small { result < 128 }
{
    cells[at].tagged / NUMBERS
}

/// Sets the number of a bucket. Its word and its tag are unchanged.
fn set_number(cells: &mut Vec<Cell>, at: usize, number: usize)
    requires inside { at < vec_len cells.old }
    requires small { number < 2 ^ 25 }
    ensures numbers { ats_of cells.new.items ≡ slice_set (ats_of cells.old.items) at number }
    ensures tags { tags_of cells.new.items ≡ tags_of cells.old.items }
    ensures words { words_of cells.new.items ≡ words_of cells.old.items }
    ensures len { vec_len cells.new ≡ vec_len cells.old }
{
    let tag = tag_of(cells, at);
    cells[at].tagged = tag_number(tag, number);
}

/// Sets the number of a bucket, and its tag. Its word is unchanged.
fn set_tagged(cells: &mut Vec<Cell>, at: usize, number: usize, tag: u32)
    requires inside { at < vec_len cells.old }
    requires small { number < 2 ^ 25 }
    requires tag { tag < 128 }
    ensures numbers { ats_of cells.new.items ≡ slice_set (ats_of cells.old.items) at number }
    ensures tags { tags_of cells.new.items ≡ slice_set (tags_of cells.old.items) at tag }
    ensures words { words_of cells.new.items ≡ words_of cells.old.items }
{
    cells[at].tagged = tag_number(tag, number);
}

/// Sets the word of a bucket. Its number and its tag are unchanged.
fn set_word_in(cells: &mut Vec<Cell>, at: usize, word: u32)
    requires { at < vec_len cells.old }
    ensures numbers { ats_of cells.new.items ≡ ats_of cells.old.items }
    ensures tags { tags_of cells.new.items ≡ tags_of cells.old.items }
    ensures words { words_of cells.new.items ≡ slice_set (words_of cells.old.items) at word }
{
    cells[at].word = word;
}

/// Renumbers the value now at `place`, which was the last, unless `place` was the last place.
fn renumber(cells: &mut Vec<Cell>, places: &Vec<u32>, place: usize)
    requires inside { place < vec_len places.now →
        slice_index_or places.now.items place 0 < vec_len cells.old }
    requires small { vec_len places.now < 2 ^ 25 - 1 }
    ensures numbers { ats_of cells.new.items ≡
        renumbered (ats_of cells.old.items) places.now.items place }
    ensures tags { tags_of cells.new.items ≡ tags_of cells.old.items }
    ensures words { words_of cells.new.items ≡ words_of cells.old.items }
{
    if place < places.len() {
        set_number(cells, places[place] as usize, place + 1);
    }
}

/// Returns what a closure returns for a value.
///
/// For the borrow checker the arguments name the type of the closure's second result.
fn apply<T, R, F: FnOnce(T) -> (T, R)>(value: T, change: (F, PhantomData<R>)) -> (T, R)
    requires { F.pre change.0 value }
    ensures { F.post change.0 value result }
{
    let (change, _) = change;
    change(value)
}

/// A row of buckets, each with a word, a tag and at most one value.
///
/// The values are in a list of their own, in no order, so an empty bucket takes only 8 bytes.
/// Contracts see the words, the tags and the values, bucket by bucket.
#[derive(Drop)]
pub struct Cells<T: Drop> {
    cells: Vec<Cell>,
    items: Vec<T>,
    places: Vec<u32>,
}

impl<T: Drop> Model for Cells<T> {
    ghost use Rattle.std.specs.Prelude.{map, vec_capacity};
    ghost use Rattle.mc_hop.specs.Cells.{CellsState, coded_cells};
    ghost use Rattle.mc_hop.specs.Links.{IsLinked, ats_of, tags_of, words_of, item_of};

    ghost Value = { CellsState T };

    ghost coded = { coded_cells T.code };

    ghost view = { λ c. record {
      words = words_of c.cells.items;
      tags = tags_of c.cells.items;
      items = map (item_of c.items.items) (ats_of c.cells.items);
    } };

    ghost invariant = { λ c. IsLinked (ats_of c.cells.items) c.items.items c.places.items
        (vec_capacity c.items) (vec_capacity c.places) };
}

impl<T: Drop> Cells<T> {
    /// Makes `len` empty buckets with word and tag 0, and room for a value of each.
    ///
    /// The only error is a refused allocation.
    pub fn new(alloc: Global, len: usize) -> Result<Cells<T>, AllocError>
        requires { len < 2 ^ 25 - 1 }
        ensures { IfOk result (λ cells. cells ≡ empty_cells len) }
    {
        Ok(Cells {
            cells: empty_list(alloc, len)?,
            items: Vec::with_capacity(alloc, len)?,
            places: Vec::with_capacity(alloc, len)?,
        })
    }

    /// Returns the number of buckets.
    pub fn len(&self) -> usize
        ensures { result ≡ length self.now.items }
    {
        self.cells.len()
    }

    /// Returns the number of buckets that have a value.
    pub fn count(&self) -> usize
        ensures value { result ≡ filled self.now.items }
        ensures most { result ≤ length self.now.items }
    {
        self.items.len()
    }

    /// Returns a bucket that has a value, or `None` if all are empty.
    ///
    /// It is the bucket that was filled last, if none was emptied since. The cost doesn't grow with
    /// the number of empty buckets.
    pub fn last_filled(&self) -> Option<usize>
        ensures found { IfSome result (λ at.
            is_some (slice_index_or self.now.items at None) ≡ true) }
        ensures none { IsNone result → filled self.now.items ≡ 0 }
    {
        let count = self.places.len();
        if count == 0 {
            return None;
        }
        Some(self.places[count - 1] as usize)
    }

    /// Returns the word of a bucket.
    pub fn word(&self, at: usize) -> u32
        requires { at < length self.now.items }
        ensures { result ≡ slice_index_or self.now.words at 0 }
    {
        self.cells[at].word
    }

    /// Sets the word of a bucket.
    pub fn set_word(&mut self, at: usize, word: u32)
        requires { at < length self.old.items }
        ensures { self.new ≡ record self.old { words = slice_set self.old.words at word } }
    {
        set_word_in(&mut self.cells, at, word);
    }

    /// Returns whether a bucket is empty.
    pub fn is_empty(&self, at: usize) -> bool
        requires { at < length self.now.items }
        ensures yes { result ≡ true → slice_index_or self.now.items at None ≡ None }
        ensures no { result ≡ false → is_some (slice_index_or self.now.items at None) ≡ true }
    {
        number_of(&self.cells, at) == 0
    }

    /// Returns whether a bucket has this tag.
    pub fn has_tag(&self, at: usize, tag: u32) -> bool
        requires { at < length self.now.items }
        ensures yes { slice_index_or self.now.tags at 0 ≡ tag → result ≡ true }
        ensures no { result ≡ true → slice_index_or self.now.tags at 0 ≡ tag }
    {
        tag_of(&self.cells, at) == tag
    }

    /// Lends the value of a bucket, if it has one.
    pub fn get(&self, at: usize) -> Option<&T>
        requires { at < length self.now.items }
        ensures { option_copied result ≡ slice_index_or self.now.items at None }
    {
        let number = number_of(&self.cells, at);
        if number == 0 {
            None
        } else {
            Some(&self.items[number - 1])
        }
    }

    /// Puts a value into an empty bucket, and sets the bucket's tag. It takes no memory.
    pub fn put(&mut self, at: usize, value: T, tag: u32)
        requires inside { at < length self.old.items }
        requires empty { slice_index_or self.old.items at None ≡ None }
        requires tag { tag < 128 }
        ensures { self.new ≡ record self.old {
          tags = slice_set self.old.tags at tag;
          items = slice_set self.old.items at (Some value);
        } }
    {
        let number = self.items.len() + 1;
        self.items.push_reserved(value);
        self.places.push_reserved(at as u32);
        set_tagged(&mut self.cells, at, number, tag);
    }

    /// Changes the value of a bucket that has one by a closure, and returns the closure's second
    /// result.
    ///
    /// The value stays where it is, and the tag is unchanged. It takes no memory of its own.
    pub fn update<R, F: FnOnce(T) -> (T, R)>(&mut self, at: usize, change: F) -> R
        requires filled { is_some (slice_index_or self.old.items at None) ≡ true }
        requires may { (value : T) → slice_index_or self.old.items at None ≡ Some value →
            F.pre change value }
        ensures { (value : T) → slice_index_or self.old.items at None ≡ Some value →
            (pair : T × R) × F.post change value pair × (result ≡ pair.1)
            × (self.new ≡ record self.old {
              items = slice_set self.old.items at (Some pair.0);
            }) }
    {
        let place = number_of(&self.cells, at) - 1;
        replace_with(&mut self.items[place], (change, PhantomData), apply)
    }

    /// Takes the value out of a bucket that has one. The tag is unchanged.
    pub fn take(&mut self, at: usize) -> T
        requires { is_some (slice_index_or self.old.items at None) ≡ true }
        ensures here { slice_index_or self.old.items at None ≡ Some result }
        ensures taken { self.new ≡ record self.old { items = slice_set self.old.items at None } }
    {
        let place = number_of(&self.cells, at) - 1;
        let value = self.items.swap_remove(place);
        let _ = self.places.swap_remove(place);
        set_number(&mut self.cells, at, 0);
        renumber(&mut self.cells, &self.places, place);
        value
    }
}
