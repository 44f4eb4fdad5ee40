//! The position in a retrieval whose keys take a turn each.

ghost use Rattle.std.specs.Prelude.{◌≡◌, ◌≤◌, ◌<◌, ◌+◌, ◌-◌, ◌^◌, ℕ, IfSome, None};
ghost use Rattle.mc_parse.specs.Units.{Request};
ghost use Rattle.mc_parse.specs.Peeks.{unit_of};
ghost use Rattle.mc_parse.specs.Cursors.{retrieval_left, first_cursor, IsWithin, PointsInto};
ghost use Rattle.mc_parse.specs.Cursors.{IsCursor, IsFirstCursor};

use crate::note::KeySpan;
use crate::peek::Peek;
use mc_protocol::{Command, Keys, first_word_len};

/// The position in a retrieval whose keys take a turn each.
///
/// It keeps what is left of the line, so that a turn needn't read the line from its beginning.
/// Places count from the first unread byte.
#[derive(Clone, Copy)]
pub struct Cursor {
    /// The number of turns taken.
    taken: usize,
    /// Where the remaining keys begin.
    from: usize,
    /// Where the line's text ends.
    to: usize,
    /// The number of remaining keys.
    left: usize,
    /// The length of the retrieval in bytes.
    len: usize,
    with_unique: bool,
    /// The exptime of gat and gats.
    exptime: Option<i64>,
}

impl Cursor {
    /// Returns the cursor before the first turn of a retrieval with these keys.
    ///
    /// The retrieval has `len` bytes, and its text ends at `to`.
    pub fn first(
        keys: KeySpan,
        to: usize,
        len: usize,
        with_unique: bool,
        exptime: Option<i64>,
    ) -> Cursor
        ensures { result ≡ first_cursor keys to len with_unique exptime }
    {
        Cursor {
            taken: 0,
            from: keys.from,
            to,
            left: keys.count,
            len,
            with_unique,
            exptime,
        }
    }

    /// Returns the cursor after one more turn. It reads one key.
    fn next(&self, unread: &[u8]) -> Cursor
        requires within { IsWithin self.now unread.now }
        requires taken { self.now.taken < 2 ^ 64 - 1 }
        ensures within { IsWithin result unread.now }
        ensures points { (greatest : ℕ) →
            PointsInto greatest self.now unread.now → PointsInto greatest result unread.now }
        ensures taken { result.taken ≡ self.now.taken + 1 }
    {
        let (line, _) = unread.split_at(self.to);
        let (_, text) = line.split_at(self.from);
        Cursor {
            taken: self.taken + 1,
            from: self.from + first_word_len(text),
            left: self.left.saturating_sub(1),
            ..*self
        }
    }

    /// Returns the retrieval of the remaining keys. It reads none of them.
    #[inline]
    pub fn peek<'a>(&self, unread: &'a [u8]) -> Peek<'a>
        requires { IsWithin self.now unread.now }
        ensures { unit_of result ≡
            Some (Request (retrieval_left self.now unread.now), self.now.len) }
    {
        let (line, _) = unread.split_at(self.to);
        let (_, text) = line.split_at(self.from);
        let keys = Keys::with_count(text, self.left);
        let with_unique = self.with_unique;
        let command = match self.exptime {
            None => Command::Get { keys, with_unique },
            Some(exptime) => Command::GetTouch {
                exptime,
                keys,
                with_unique,
            },
        };
        Peek::Whole(command, self.len)
    }
}

/// Returns the cursor after `taken` turns, or `None` if there is no first one.
///
/// It moves on from `known` unless that is beyond, and then from `first`.
pub fn cursor_after(
    known: Option<Cursor>,
    first: Option<Cursor>,
    unread: &[u8],
    taken: usize,
) -> Option<Cursor>
    requires known { (greatest : ℕ) × IsCursor greatest known unread.now }
    requires first { (greatest : ℕ) × IsFirstCursor greatest first unread.now }
    ensures some { (greatest : ℕ) → IsCursor greatest known unread.now →
        IsFirstCursor greatest first unread.now → IsCursor greatest result unread.now }
    ensures taken { IfSome result (λ cursor. cursor.taken ≡ taken) }
    ensures none { result ≡ None → first ≡ None }
{
    match known {
        Some(cursor) if cursor.taken <= taken => Some(moved_to(cursor, unread, taken)),
        _ => match first {
            Some(cursor) => Some(moved_to(cursor, unread, taken)),
            None => None,
        },
    }
}

/// Returns the cursor after `taken` turns. The cost grows with the keys that it passes.
fn moved_to(mut cursor: Cursor, unread: &[u8], taken: usize) -> Cursor
    requires within { IsWithin cursor unread.now }
    requires ahead { cursor.taken ≤ taken }
    ensures points { (greatest : ℕ) →
        PointsInto greatest cursor unread.now → PointsInto greatest result unread.now }
    ensures taken { result.taken ≡ taken }
{
    while cursor.taken < taken && cursor.left > 0 {
        cursor = cursor.next(unread);
    }
    // Behind the last key every number of turns leaves the same.
    Cursor { taken, ..cursor }
}
