//! Moves an entry of a list into a table, if that is possible.

ghost use Rattle.std.specs.Prelude.{◌≡◌, ◌+◌, ◌<◌, ◌≤◌, List, true, false, length, slice_index_or, vec_len, vec_capacity};
ghost use Rattle.mc_hop.specs.Links.{IsSwapped};
ghost use Rattle.mc_hop.specs.Tables.{AreApart};
ghost use Rattle.mc_grow.specs.Adding.{beside, cells_of};
ghost use Rattle.mc_grow.specs.Moving.{HoldsAll, IsTried};

use crate::adding::add;
use mc_hop::{Hop, Keyed};

/// Tries to move the stray of a number into the table, and returns whether it moved.
///
/// The last stray then gets its number.
pub(crate) fn try_item<T: Keyed + Drop>(table: &mut Hop<T>, strays: &mut Vec<T>, at: usize) -> bool
    requires inside { at < vec_len strays.old }
    requires apart { AreApart T.hash_of T.key_of (cells_of (beside table.old strays.old.items)) }
    ensures tried { IsTried T.hash_of T.key_of table.old.k at result
        (beside table.old strays.old.items) (beside table.new strays.new.items) }
    ensures content { HoldsAll T.hash_of T.key_of (cells_of (beside table.old strays.old.items))
        (cells_of (beside table.new strays.new.items)) }
    ensures went { result ≡ true → IsSwapped strays.old.items strays.new.items at }
    ensures stays { result ≡ false → strays.new.items ≡ strays.old.items }
    ensures k { table.new.k ≡ table.old.k }
    ensures room { vec_len strays.new ≤ vec_len strays.old }
    ensures capacity { vec_capacity strays.new ≡ vec_capacity strays.old }
{
    let entry = strays.swap_remove(at);
    match add(table, entry) {
        Ok(_) => {
            table.entries_are_apart();
            return true;
        }
        Err(entry) => put_back(strays, at, entry),
    }
    table.entries_are_apart();
    false
}

/// Puts a stray back under its number, and the stray that has the number now back to the end.
fn put_back<T: Drop>(strays: &mut Vec<T>, at: usize, entry: T)
    requires inside { at ≤ vec_len strays.old }
    requires room { vec_len strays.old < vec_capacity strays.old }
    ensures items { (items : List T) → at < length items → entry ≡ slice_index_or items at entry →
        IsSwapped items strays.old.items at → strays.new.items ≡ items }
    ensures len { vec_len strays.new ≡ vec_len strays.old + 1 }
    ensures capacity { vec_capacity strays.new ≡ vec_capacity strays.old }
{
    let last = strays.len();
    strays.push_reserved(entry);
    strays.swap(at, last);
}
