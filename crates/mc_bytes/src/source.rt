//! Sources that write into a queue's room.
//!
//! A `Source` writes into the room behind the unread bytes and returns how many bytes it wrote, so
//! a piece is read where it will stay. It is called while the room is lent: no room appears in a
//! model.

/// A source of bytes, which it writes into room that is lent to it.
pub trait Source {
    ghost use Rattle.std.specs.Prelude.{◌≤◌, ℕ, List, length, take};

    /// What it returns beside the number of bytes.
    type Answer;

    /// It wrote these bytes, with this answer.
    ghost gives: { Self → List ℕ → Self.Answer → Self → Type 0 };

    /// Writes bytes to the front of the room, and returns their number and its answer.
    fn read(&mut self, room: &mut [u8]) -> (usize, Self::Answer)
        ensures within { result.0 ≤ length room.new }
        ensures gives { gives self.old (take result.0 room.new) result.1 self.new };
}
