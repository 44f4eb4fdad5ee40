//! The words of a line.

ghost use Rattle.std.specs.Prelude.{◌≡◌, ◌≤◌, ℕ, List, [], ◌∷◌, MatchOption, take, drop, length, not};
ghost use Rattle.std.specs.List.{take_while};
ghost use Rattle.std.specs.Iterator.{YieldsFirstBy, item_count};
ghost use Rattle.mc_protocol.specs.Words.{words, is_space, EndsIn};

use memchr::memchr;
use std::marker::Model;

/// The words of a text: its longest runs of bytes other than the space.
#[derive(Drop)]
pub struct Words<'a> {
    rest: &'a [u8],
}

impl<'a> Model for Words<'a> {
    ghost use Rattle.std.specs.Prelude.{List, ℕ};
    ghost use Rattle.mc_protocol.specs.Words.{words};

    ghost Value = { List (List ℕ) };

    ghost view = { λ w. words w.rest.now };
}

#[tactic(auto, using(crate::proofs::WordLemmas::word_rules))]
impl<'a> Words<'a> {
    /// Returns the words of a text. Each word is searched when it is wanted.
    pub fn of(text: &'a [u8]) -> Words<'a>
        ensures value { result ≡ words text.now }
        ensures len { length result ≤ length text.now }
    {
        Words { rest: text }
    }
}

impl<'a> Iterator for Words<'a> {
    type Item = &'a [u8];

    ghost next_gives = { YieldsFirstBy (λ x. x.now) (λ rest. rest) };

    ghost remaining = { item_count (λ rest. rest) };

    fn next(&mut self) -> Option<&'a [u8]> {
        let (word, rest) = first_key(self.rest)?;
        self.rest = rest;
        Some(word)
    }
}

/// Returns the first word of a text and what follows it, or `None` if the text has no word.
pub fn first_word(text: &[u8]) -> Option<(&[u8], &[u8])>
    ensures { MatchOption result
        (words text.now ≡ [])
        (λ p. (words text.now ≡ p.0.now ∷ words p.1.now) × EndsIn text.now p.1.now) }
{
    let (_, text) = text.split_at(spaces(text));
    if text.is_empty() {
        return None;
    }
    Some(text.split_at(word_len(text)))
}

/// Returns the first word of a text and what follows it, as `first_word` does.
///
/// It is faster for long words.
pub fn first_key(text: &[u8]) -> Option<(&[u8], &[u8])>
    ensures { MatchOption result
        (words text.now ≡ [])
        (λ p. words text.now ≡ p.0.now ∷ words p.1.now) }
{
    let (_, rest) = text.split_at(spaces(text));
    if rest.is_empty() {
        return None;
    }
    Some(rest.split_at(key_len(rest)))
}

/// Returns how many bytes the first word of a text and the spaces before it have.
///
/// Without a word it is the length of the text.
pub fn first_word_len(text: &[u8]) -> usize
    ensures within { result ≤ length text.now }
    ensures rest { words (drop result text.now) ≡ drop 1 (words text.now) }
{
    let (before, text) = text.split_at(spaces(text));
    before.len() + key_len(text)
}

/// Returns how many spaces a text begins with. The first word follows them.
pub fn spaces_len(text: &[u8]) -> usize
    ensures within { result ≤ length text.now }
    ensures first { (word : List ℕ) (more : List (List ℕ)) →
        words text.now ≡ word ∷ more → word ≡ take (length word) (drop result text.now) }
{
    spaces(text)
}

/// Returns how many spaces the text begins with.
fn spaces(text: &[u8]) -> usize
    ensures len { result ≡ length (take_while is_space text.now) }
    ensures within { result ≤ length text.now }
{
    text.iter().take_while(|b| **b == b' ').count()
}

/// Returns how many bytes come before the first space.
fn word_len(text: &[u8]) -> usize
    ensures { result ≡ length (take_while (λ b. not (is_space b)) text.now) }
{
    text.iter().take_while(|b| **b != b' ').count()
}

/// Returns how many bytes come before the first space. It compares several bytes at once.
fn key_len(text: &[u8]) -> usize
    ensures { result ≡ length (take_while (λ b. not (is_space b)) text.now) }
{
    match memchr(b' ', text) {
        Some(place) => place,
        None => text.len(),
    }
}
