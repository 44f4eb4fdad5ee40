//! Adds entries to a table and to the strays beside it.

ghost use Rattle.std.specs.Prelude.{◌≡◌, ◌+◌, ◌-◌, ◌^◌, ◌<◌, ◌≤◌, ◌∷◌, ◌++◌, Some, None};
ghost use Rattle.std.specs.Prelude.{is_some, length, min, true, slice_index_or};
ghost use Rattle.std.specs.FinMap.{get};
ghost use Rattle.mc_hop.specs.Cells.{filled};
ghost use Rattle.mc_hop.specs.Contents.{content};
ghost use Rattle.mc_hop.specs.Tables.{AreApart};
ghost use Rattle.mc_grow.specs.Adding.{IsAdded, AreTried, AreTaken, beside, cells_of};
ghost use Rattle.mc_grow.specs.Moving.{HoldsAll, IsIn, IsTaken};

use crate::adding::add;
use crate::strays::Strays;
use mc_hop::{Hop, Keyed};

/// Adds an entry of a new key to a bucket near its home, else to the strays; returns its place.
///
/// Places count the buckets, and then the strays. It takes no memory.
pub(crate) fn place<T: Keyed + Drop>(table: &mut Hop<T>, strays: &mut Strays<T>, entry: T) -> usize
    requires apart { AreApart T.hash_of T.key_of (cells_of (beside table.old strays.old.items)) }
    requires new { get (content T.hash_of T.key_of (cells_of (beside table.old strays.old.items)))
        (T.hash_of entry ∷ T.key_of entry) ≡ None }
    requires room { length strays.old.items < strays.old.room }
    ensures added { IsAdded T.hash_of T.key_of table.old.k entry
        (beside table.old strays.old.items) (beside table.new strays.new.items) }
    ensures content { IsIn T.hash_of T.key_of entry (cells_of (beside table.old strays.old.items))
        (cells_of (beside table.new strays.new.items)) }
    ensures there { slice_index_or (cells_of (beside table.new strays.new.items)) result None
        ≡ Some entry }
    ensures k { table.new.k ≡ table.old.k }
    ensures room { length strays.new.items ≤ length strays.old.items + 1 }
    ensures capacity { strays.new.room ≡ strays.old.room }
    ensures small { result < 2 ^ 63 + 2 ^ 25 }
    ensures buckets { length table.new.items ≡ length table.old.items }
{
    let entry = match add(table, entry) {
        Ok(at) => {
            table.entries_are_apart();
            return at;
        }
        Err(entry) => entry,
    };
    table.entries_are_apart();
    let place = table.buckets() + strays.len();
    strays.push_reserved(entry);
    place
}

/// Moves the entry of a bucket of an old table.
fn move_one<T: Keyed + Drop>(
    draining: &mut Hop<T>,
    table: &mut Hop<T>,
    strays: &mut Strays<T>,
    at: usize,
)
    requires filled { is_some (slice_index_or draining.old.items at None) ≡ true }
    requires apart { AreApart T.hash_of T.key_of
        (draining.old.items ++ cells_of (beside table.old strays.old.items)) }
    requires room { length strays.old.items < strays.old.room }
    ensures taken { IsTaken T.hash_of T.key_of table.old.k draining.old.items draining.new.items
        (beside table.old strays.old.items) (beside table.new strays.new.items) }
    ensures left { filled draining.old.items ≡ filled draining.new.items + 1 }
    ensures content { HoldsAll T.hash_of T.key_of
        (draining.old.items ++ cells_of (beside table.old strays.old.items))
        (draining.new.items ++ cells_of (beside table.new strays.new.items)) }
    ensures k { table.new.k ≡ table.old.k }
    ensures room { length strays.new.items ≤ length strays.old.items + 1 }
    ensures capacity { strays.new.room ≡ strays.old.room }
{
    let entry = draining.remove(at);
    place(table, strays, entry);
}

/// Moves up to `n` entries of an old table, and returns how many it moved.
///
/// It moves fewer only if fewer are left. It takes no memory. The cost grows with the number of
/// moves.
pub(crate) fn move_entries<T: Keyed + Drop>(
    draining: &mut Hop<T>,
    table: &mut Hop<T>,
    strays: &mut Strays<T>,
    n: usize,
) -> usize
    requires apart { AreApart T.hash_of T.key_of
        (draining.old.items ++ cells_of (beside table.old strays.old.items)) }
    requires room { length strays.old.items + filled draining.old.items ≤ strays.old.room }
    ensures moved { result ≡ min n (filled draining.old.items) }
    ensures taken { AreTaken T.hash_of T.key_of table.old.k result
        draining.old.items draining.new.items
        (beside table.old strays.old.items) (beside table.new strays.new.items) }
    ensures left { filled draining.new.items ≡ filled draining.old.items - result }
    ensures content { HoldsAll T.hash_of T.key_of
        (draining.old.items ++ cells_of (beside table.old strays.old.items))
        (draining.new.items ++ cells_of (beside table.new strays.new.items)) }
    ensures k { table.new.k ≡ table.old.k }
    ensures room { length strays.new.items + filled draining.new.items
        ≤ length strays.old.items + filled draining.old.items }
    ensures capacity { strays.new.room ≡ strays.old.room }
{
    for moved in 0..n {
        let Some(at) = draining.any_filled() else {
            return moved;
        };
        move_one(draining, table, strays, at);
    }
    n
}

/// Tries each stray once in the table. It takes no memory.
///
/// Of strays of one home that follow each other, those behind one that stays need no search.
pub(crate) fn try_strays<T: Keyed + Drop>(table: &mut Hop<T>, strays: &mut Strays<T>)
    requires apart { AreApart T.hash_of T.key_of (cells_of (beside table.old strays.old.items)) }
    ensures tried { AreTried T.hash_of T.key_of table.old.k
        (beside table.old strays.old.items) (beside table.new strays.new.items) }
    ensures content { HoldsAll T.hash_of T.key_of (cells_of (beside table.old strays.old.items))
        (cells_of (beside table.new strays.new.items)) }
    ensures k { table.new.k ≡ table.old.k }
    ensures room { length strays.new.items ≤ length strays.old.items }
    ensures capacity { strays.new.room ≡ strays.old.room }
{
    let mut kept = 0;
    // the home of the stray before, if that stays
    let mut crowded = None;
    for _turn in 0..strays.len() {
        crowded = strays.try_unless(table, kept, crowded);
        if crowded.is_some() {
            kept += 1;
        }
    }
}
