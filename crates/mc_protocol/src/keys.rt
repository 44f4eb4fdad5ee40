//! The keys of a retrieval.

use crate::words::Words;
use std::marker::Model;

/// The keys of a retrieval: the words of the rest of its line, and their number.
#[derive(Drop)]
pub struct Keys<'a> {
    text: &'a [u8],
    count: usize,
}

impl<'a> Model for Keys<'a> {
    ghost use Rattle.std.specs.Prelude.{◌≡◌, List, ℕ, length};
    ghost use Rattle.mc_protocol.specs.Words.{words};

    ghost Value = { List (List ℕ) };

    ghost view = { λ k. words k.text.now };

    ghost invariant = { λ k. k.count ≡ length (words k.text.now) };
}

impl<'a> Keys<'a> {
    ghost use Rattle.std.specs.Option.{option_copied};
    ghost use Rattle.std.specs.Prelude.{◌≡◌, length, slice_get};
    ghost use Rattle.mc_protocol.specs.Words.{words};

    /// Returns the keys that are the words of `text`. The cost grows with the text.
    pub fn of(text: &'a [u8]) -> Keys<'a>
        ensures { result ≡ words text.now }
    {
        Keys {
            text,
            count: Words::of(text).count(),
        }
    }

    /// Returns the keys of `text`, which must have `count` words. It costs nothing.
    pub fn with_count(text: &'a [u8], count: usize) -> Keys<'a>
        requires { count ≡ length (words text.now) }
        ensures { result ≡ words text.now }
    {
        Keys { text, count }
    }

    /// Returns the number of keys. It costs nothing.
    pub fn len(&self) -> usize
        ensures { result ≡ length self.now }
    {
        self.count
    }

    /// Lends key `at`, counted from 0, or `None`. The cost grows with the keys before it.
    pub fn get(&self, at: usize) -> Option<&'a [u8]>
        ensures { option_copied result ≡ slice_get self.now at }
    {
        Words::of(self.text).nth(at)
    }
}
