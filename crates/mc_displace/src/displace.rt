//! Brings an empty bucket near a home.

ghost use Rattle.std.specs.Prelude.{◌≡◌, ℕ, ◌+◌, ◌<◌, ◌≤◌, None, Ok, IsOk, IsErr, IfSome, IsNone, IfOk, IfErr, length};
ghost use Rattle.mc_hop.specs.Tables.{NoneFree, bucket_at};
ghost use Rattle.mc_hop.specs.Contents.{content};
ghost use Rattle.mc_displace.specs.Moves.{IsMovable, CanMove, HasHome, NoneMovable};
ghost use Rattle.mc_displace.specs.Moves.{IsNear, IsStuck};

use mc_hop::{Hop, Keyed, lowest};

/// Returns the home and the bucket of an entry that can move into an empty bucket, or `None`.
fn movable<T: Keyed + Drop>(hop: &Hop<T>, free: usize) -> Option<(usize, usize)>
    requires inside { free < length hop.now.items }
    requires far { 31 ≤ free }
    ensures found { IfSome result (CanMove T.hash_of hop.now free) }
    ensures none { IsNone result → NoneMovable T.hash_of hop.now free }
{
    hop.entries_are_near();
    for home in free - 31..free {
        let word = hop.word(home);
        if word != 0 {
            let bit = lowest(word) as usize;
            if bit < free - home {
                return Some((home, home + bit));
            }
        }
    }
    None
}

/// Moves the entry of a bucket into an empty one within 31 of its home. The content is unchanged.
fn shift<T: Keyed + Drop>(hop: &mut Hop<T>, home: usize, at: usize, free: usize)
    requires empty { bucket_at hop.old.items free ≡ None }
    requires movable { IsMovable T.hash_of hop.old.k hop.old.items free at }
    requires home { HasHome T.hash_of hop.old at home }
    ensures content { content T.hash_of T.key_of hop.new.items ≡
        content T.hash_of T.key_of hop.old.items }
    ensures free { bucket_at hop.new.items at ≡ None }
    ensures before { (k : ℕ) → k < at → bucket_at hop.new.items k ≡ bucket_at hop.old.items k }
    ensures size { (hop.new.k ≡ hop.old.k) × (length hop.new.items ≡ length hop.old.items) }
{
    let entry = hop.remove(at);
    hop.put_within(home, free, entry);
}

/// Moves entries until an empty bucket is within 31 of a home, and returns that bucket.
///
/// A bucket that is near already is returned at once, and nothing is moved. The error is an empty
/// bucket into which no entry can be moved. The content is unchanged in both cases.
pub fn bring_near<T: Keyed + Drop>(
    hop: &mut Hop<T>,
    home: usize,
    free: usize,
) -> Result<usize, usize>
    requires inside { free < length hop.old.items }
    requires empty { bucket_at hop.old.items free ≡ None }
    requires range { (home ≤ free) × (free ≤ home + 255) }
    ensures content { content T.hash_of T.key_of hop.new.items ≡
        content T.hash_of T.key_of hop.old.items }
    ensures size { (hop.new.k ≡ hop.old.k) × (length hop.new.items ≡ length hop.old.items) }
    ensures near { IfOk result (IsNear hop.new.items home) }
    ensures first { NoneFree hop.old.items home free → IfErr result (NoneFree hop.new.items home) }
    ensures near_is_ok { free ≤ home + 31 → IsOk result }
    ensures at_once { free ≤ home + 31 → (result ≡ Ok free) × (hop.new ≡ hop.old) }
    ensures stuck { IfErr result (IsStuck T.hash_of hop.new.k hop.new.items home) }
    ensures stuck_is_err { IsStuck T.hash_of hop.old.k hop.old.items home free → IsErr result }
{
    let mut free = free;
    for _turn in 0..256u32 {
        if free - home < 32 {
            return Ok(free);
        }
        match movable(hop, free) {
            Some((first, at)) => {
                shift(hop, first, at, free);
                free = at;
            }
            None => return Err(free),
        }
    }
    unreachable!()
}
