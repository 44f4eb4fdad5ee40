//! Adds an entry to one table.

ghost use Rattle.std.specs.Prelude.{◌≡◌, ◌^◌, ◌<◌, ◌∷◌, Some, None, IfOk, IfErr, IsErr, length, slice_index_or};
ghost use Rattle.std.specs.FinMap.{insert};
ghost use Rattle.mc_hop.specs.Contents.{content};
ghost use Rattle.mc_hop.specs.Tables.{IsAbsent, home_in};
ghost use Rattle.mc_grow.specs.Adding.{IsCrowded, NoneNear};

use mc_displace::bring_near;
use mc_hop::{Hop, Keyed};

/// Puts an entry of a new key into a bucket near its home, and returns the bucket.
///
/// If no bucket there is empty it moves other entries to empty one. If that fails it returns the
/// entry, and the table's content is unchanged. It takes no memory.
pub(crate) fn add<T: Keyed + Drop>(table: &mut Hop<T>, entry: T) -> Result<usize, T>
    requires { IsAbsent T.hash_of T.key_of table.old.items (T.hash_of entry) (T.key_of entry) }
    ensures size { (table.new.k ≡ table.old.k)
        × (length table.new.items ≡ length table.old.items) }
    ensures put { IfOk result (λ at. content T.hash_of T.key_of table.new.items
        ≡ insert (content T.hash_of T.key_of table.old.items)
        (T.hash_of entry ∷ T.key_of entry) entry) }
    ensures place { IfOk result (λ at.
        slice_index_or table.new.items at None ≡ Some entry) }
    ensures had { IsCrowded T.hash_of table.old.k table.old.items
        (home_in table.old.k (T.hash_of entry)) → IsErr result }
    ensures near { IfErr result (λ _.
        NoneNear table.old.items (home_in table.old.k (T.hash_of entry))) }
    ensures inside { IfOk result (λ at. at < 2 ^ 25) }
    ensures full { IfErr result (λ back. (back ≡ entry)
        × (content T.hash_of T.key_of table.new.items ≡ content T.hash_of T.key_of table.old.items)
        × IsCrowded T.hash_of table.new.k table.new.items (home_in table.new.k (T.hash_of entry))) }
{
    // for the proof: how many buckets there are
    let _buckets = table.buckets();
    let home = table.home_of(entry.hash());
    let Some(free) = table.free_from(home) else {
        return Err(entry);
    };
    match bring_near(table, home, free) {
        Ok(at) => {
            table.put_within(home, at, entry);
            Ok(at)
        }
        Err(_) => Err(entry),
    }
}
