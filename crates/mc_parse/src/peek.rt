//! What bytes begin with: a command, a fault, or nothing complete yet.

ghost use Rattle.std.specs.Prelude.{◌≡◌, ◌≢◌, ◌+◌, ◌-◌, ◌^◌, ◌<◌, ℕ, length, take, drop, IfSome, Some, None, Ok};
ghost use Rattle.std.specs.List.{AllByRecursion};
ghost use Rattle.std.specs.Str.Lines.{strip_carriage_return};
ghost use Rattle.mc_parse.specs.Units.{IsLine, HasLine};
ghost use Rattle.mc_parse.specs.Peeks.{unit_of, FindsSpelled, MissesNone, FindsWhatever};
ghost use Rattle.mc_parse.specs.Notes.{read, Fits, Says};
ghost use Rattle.mc_protocol.specs.Commands.{block_in};

use crate::ahead::Ahead;
use crate::note::{Noted, lend};
use crate::offer::Offer;
use mc_protocol::{Bytes, Command, LineFault};
use memchr::memchr;

/// What the unread bytes begin with.
#[derive(Drop)]
pub enum Peek<'a> {
    /// A command, and its length in bytes.
    Whole(Command<'a>, usize),
    /// Nothing complete yet.
    More,
    /// A fault, and its length in bytes.
    Bad(LineFault, usize),
    /// A line of more than 65536 bytes.
    TooLong,
}

/// Bytes of the longest line, without its end.
pub const LONGEST: usize = 65536;

/// Returns what bytes begin with, if none is to be skipped and a charge is at most `greatest`.
///
/// It reads the first line, and of a block only the two bytes behind it.
pub fn peek_at(greatest: u64, unread: &[u8]) -> Peek<'_>
    // The unit is spelled by the front whose length is returned.
    ensures found { FindsSpelled greatest (unit_of result) unread.now }
    // It finds nothing only if no front spells anything.
    ensures none { MissesNone greatest (unit_of result) unread.now }
    // Any unit that a front spells is the one found.
    ensures only { FindsWhatever greatest (unit_of result) unread.now }
{
    let ahead = Ahead::none().after(greatest, unread);
    ahead.peek(unread, None)
}

/// Returns the place of the first line feed, if the line isn't too long.
///
/// The first `searched` bytes have none, and are skipped.
pub fn first_feed(unread: &[u8], searched: usize) -> Option<usize>
    requires { AllByRecursion (λ b. b ≢ 10) (take searched unread.now) }
    ensures some { IfSome result (λ end. HasLine end unread.now) }
    ensures none { result ≡ None → AllByRecursion (λ b. b ≢ 10) (take 65537 unread.now) }
{
    let (front, _) = unread.split_at(unread.len().min(LONGEST + 1));
    let searched = searched.min(front.len());
    let (_, rest) = front.split_at(searched);
    match memchr(b'\n', rest) {
        Some(place) => Some(searched + place),
        None => None,
    }
}

/// Returns what the unread bytes begin with, if the line that ends at `end` announces a block.
///
/// The line is parsed, and its block has `len` bytes. A block that is offered is lent with its
/// memory.
#[inline]
pub fn block_peeked<'a>(
    noted: &Noted,
    text: &'a [u8],
    unread: &'a [u8],
    end: usize,
    len: usize,
    offer: Option<&'a Offer>,
) -> Peek<'a>
    requires line { IsLine (take (end + 1) unread.now) (take end unread.now) }
    requires inside { end < length unread.now }
    requires fits { Fits noted.now text.now }
    requires len { block_in noted.now ≡ Some len }
    requires short { len < 2 ^ 32 }
    requires offered { IfSome offer (λ o. o.now ≡ unread.now) }
    ensures found { (greatest : ℕ) → Says greatest unread.now end (Ok (read text.now noted.now)) →
        FindsSpelled greatest (unit_of result) unread.now }
    ensures none { (greatest : ℕ) → Says greatest unread.now end (Ok (read text.now noted.now)) →
        MissesNone greatest (unit_of result) unread.now }
{
    let (_, rest) = unread.split_at(end + 1);
    if rest.len() < len + 2 {
        return Peek::More;
    }
    let (block, after) = rest.split_at(len);
    let (ended, _) = after.split_at(2);
    if ended == b"\r\n".as_slice() {
        Peek::Whole(
            lend(noted, text, lent_with(block, end + 1, offer)),
            end + 1 + (len + 2),
        )
    } else {
        Peek::Bad(LineFault::BadChunk, end + 1 + (len + 2))
    }
}

/// Returns a block that begins at `from` in the unread bytes, with its memory if it is offered.
#[inline]
fn lent_with<'a>(block: &'a [u8], from: usize, offer: Option<&'a Offer>) -> Bytes<'a>
    requires { IfSome offer (λ o. block.now ≡ take (length block.now) (drop from o.now)) }
    ensures { result ≡ block.now }
{
    match offer {
        Some(offer) => match offer.block_at(from, block.len()) {
            Some(lent) => Bytes::of_lent(lent),
            None => Bytes::of(block),
        },
        None => Bytes::of(block),
    }
}

/// Returns the text of a line without the carriage return at its end.
pub fn without_carriage_return(text: &[u8]) -> &[u8]
    ensures { result.now ≡ strip_carriage_return text.now }
{
    match text.last() {
        Some(b'\r') => &text[..text.len() - 1],
        _ => text,
    }
}
