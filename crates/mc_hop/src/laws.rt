//! Laws of the content of buckets.

ghost use Rattle.std.specs.Prelude.{◌≡◌, ℕ, List, [], ◌∷◌, ◌++◌, ◌<◌, ◌↔◌, Option, Some, None, length};
ghost use Rattle.std.specs.Prelude.{slice_index_or, slice_set};
ghost use Rattle.std.specs.Option.{option_or};
ghost use Rattle.std.specs.FinMap.{get, insert, len, remove};
ghost use Rattle.mc_hop.specs.Cells.{filled};
ghost use Rattle.mc_hop.specs.Contents.{AreDisjoint, content};
ghost use Rattle.mc_hop.specs.Tables.{AreApart, HasEntry, IsAbsent};

use crate::hash::Keyed;

/// States that the content of buckets has every entry under its hash and key, and nothing else.
///
/// No two buckets may have the same hash and key. It does nothing.
#[tactic(auto, using(crate::proofs::LawLemmas::entry_rules))]
pub fn content_has_each_entry<T: Keyed + Drop>()
    ensures found { (items : List (Option T)) (entry : T) →
        AreApart T.hash_of T.key_of items → HasEntry items entry →
        get (content T.hash_of T.key_of items) (T.hash_of entry ∷ T.key_of entry) ≡ Some entry }
    ensures there { (items : List (Option T)) (key : List ℕ) (entry : T) →
        get (content T.hash_of T.key_of items) key ≡ Some entry →
        (key ≡ T.hash_of entry ∷ T.key_of entry) × HasEntry items entry }
    ensures absent { (items : List (Option T)) (hash : ℕ) (key : List ℕ) →
        IsAbsent T.hash_of T.key_of items hash key
        ↔ (get (content T.hash_of T.key_of items) (hash ∷ key) ≡ None) }
    ensures same { (items others : List (Option T)) →
        AreApart T.hash_of T.key_of items → AreApart T.hash_of T.key_of others →
        ((entry : T) → HasEntry items entry ↔ HasEntry others entry) →
        content T.hash_of T.key_of items ≡ content T.hash_of T.key_of others }
    ensures none { (items : List (Option T)) → filled items ≡ 0 →
        content T.hash_of T.key_of items ≡ content T.hash_of T.key_of [] }
{}

/// States that the content has as many entries as there are filled buckets.
///
/// No two buckets may have the same hash and key. It does nothing.
#[tactic(auto, using(crate::proofs::LawLemmas::many_entries))]
pub fn content_counts_entries<T: Keyed + Drop>()
    ensures { (items : List (Option T)) → AreApart T.hash_of T.key_of items →
        len (content T.hash_of T.key_of items) ≡ filled items }
{}

/// States that a change of one bucket changes the content at that entry's hash and key alone.
///
/// The entry is put in, taken out, put back, or replaced by one of the same hash and key. It does
/// nothing.
#[tactic(auto, using(crate::proofs::LawLemmas::change_rules))]
pub fn content_changes_at_one_key<T: Keyed + Drop>()
    ensures put { (items : List (Option T)) (at : ℕ) (entry : T) → at < length items →
        slice_index_or items at None ≡ None →
        get (content T.hash_of T.key_of items) (T.hash_of entry ∷ T.key_of entry) ≡ None →
        content T.hash_of T.key_of (slice_set items at (Some entry)) ≡ insert
        (content T.hash_of T.key_of items) (T.hash_of entry ∷ T.key_of entry) entry }
    ensures taken { (items : List (Option T)) (at : ℕ) (entry : T) →
        AreApart T.hash_of T.key_of items → slice_index_or items at None ≡ Some entry →
        content T.hash_of T.key_of (slice_set items at None) ≡ remove
        (content T.hash_of T.key_of items) (T.hash_of entry ∷ T.key_of entry) }
    ensures back { (items : List (Option T)) (at : ℕ) (entry : T) →
        AreApart T.hash_of T.key_of items → slice_index_or items at None ≡ Some entry →
        content T.hash_of T.key_of items ≡ insert
        (content T.hash_of T.key_of (slice_set items at None))
        (T.hash_of entry ∷ T.key_of entry) entry }
    ensures replaced { (items : List (Option T)) (at : ℕ) (entry given : T) →
        AreApart T.hash_of T.key_of items → slice_index_or items at None ≡ Some entry →
        T.hash_of given ≡ T.hash_of entry → T.key_of given ≡ T.key_of entry →
        content T.hash_of T.key_of (slice_set items at (Some given)) ≡ insert
        (content T.hash_of T.key_of items) (T.hash_of entry ∷ T.key_of entry) given }
{}

/// States that the content of two joined lists of buckets is the first's, or else the second's.
///
/// It does nothing.
#[tactic(auto, using(crate::proofs::LawLemmas::list_rules))]
pub fn content_of_two_lists<T: Keyed + Drop>()
    ensures joined { (xs ys : List (Option T)) (key : List ℕ) →
        get (content T.hash_of T.key_of (xs ++ ys)) key ≡ option_or
        (get (content T.hash_of T.key_of xs) key) (get (content T.hash_of T.key_of ys) key) }
    ensures parts { (xs ys zs others : List (Option T)) →
        content T.hash_of T.key_of xs ≡ content T.hash_of T.key_of zs →
        content T.hash_of T.key_of ys ≡ content T.hash_of T.key_of others →
        content T.hash_of T.key_of (xs ++ ys) ≡ content T.hash_of T.key_of (zs ++ others) }
    ensures first { (xs ys zs : List (Option T)) (key : List ℕ) (entry : T) →
        content T.hash_of T.key_of zs ≡ insert (content T.hash_of T.key_of xs) key entry →
        content T.hash_of T.key_of (zs ++ ys)
        ≡ insert (content T.hash_of T.key_of (xs ++ ys)) key entry }
    ensures second { (xs ys zs : List (Option T)) (key : List ℕ) (entry : T) →
        get (content T.hash_of T.key_of xs) key ≡ None →
        content T.hash_of T.key_of zs ≡ insert (content T.hash_of T.key_of ys) key entry →
        content T.hash_of T.key_of (xs ++ zs)
        ≡ insert (content T.hash_of T.key_of (xs ++ ys)) key entry }
    ensures apart { (xs ys : List (Option T)) →
        AreApart T.hash_of T.key_of (xs ++ ys) ↔ (AreApart T.hash_of T.key_of xs
        × AreApart T.hash_of T.key_of ys
        × AreDisjoint (content T.hash_of T.key_of xs) (content T.hash_of T.key_of ys)) }
{}
