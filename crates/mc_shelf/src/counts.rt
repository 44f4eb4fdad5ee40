//! The size of a shelf, and the number of items that it dropped.

ghost use Rattle.std.specs.Prelude.{◌≡◌, ◌+◌, ◌-◌, ◌^◌, ◌≤◌, ◌⊎◌};

/// The number of a shelf's items, and how they are stored.
#[derive(Clone, Copy, Debug, PartialEq, Eq)]
pub struct ShelfCounts {
    /// The items, including dead ones that aren't dropped yet.
    pub items: u64,
    /// The homes of the newer table: a power of two, 64 to 16777216.
    pub homes: u64,
    /// Whether the table grows: there is also an old one of half the homes.
    pub growing: bool,
    /// The items of the old table, which are still to be moved.
    pub left: u64,
    /// The items without a bucket near their homes. They are in a list.
    pub strays: u64,
}

/// Returns the number of reclaimed items after some of `before` items went and `after` stay.
///
/// It is at most 2^64 - 1.
pub(crate) fn counted_up(reclaimed: u64, before: usize, after: usize) -> u64
    requires { after ≤ before }
    ensures { (result + after ≡ reclaimed + before) ⊎ (result ≡ 2 ^ 64 - 1) }
{
    match reclaimed.checked_add((before - after) as u64) {
        Some(sum) => sum,
        None => u64::MAX,
    }
}
