//! Laws of the plain machine, each the contract of a function that does nothing.

ghost use Rattle.std.specs.Prelude.{◌≡◌, ◌≢◌, ◌+◌, ◌-◌, ◌*◌, ◌≤◌, ◌<◌, ◌↔◌, ◌++◌, ℕ, List, Bool, not, if◌then◌else◌, Option, Some, None, length, sum, true};
ghost use Rattle.std.specs.List.{list_all};
ghost use Rattle.std.specs.FinMap.{get, insert, remove, retain_keys, empty};
ghost use Rattle.mc_time.specs.declared.expiry.Expiry.{Expiry};
ghost use Rattle.mc_time.specs.Death.{is_dead, moment_named};
ghost use Rattle.mc_protocol.specs.declared.step.KeyStep.{KeyStep};
ghost use Rattle.mc_protocol.specs.declared.reply.Reply.{Reply};
ghost use Rattle.mc_protocol.specs.Commands.{key_of};
ghost use Rattle.mc_sizes.specs.Classes.{chunks_a_page};
ghost use Rattle.mc_sizes.specs.Needs.{NeedState, IsNeed};
ghost use Rattle.mc_protocol.specs.Words.{is_space};
ghost use Rattle.mc_protocol.specs.Plain.{number_of, Plain, Items, Entry, class_count, plain, alive, count_of, pages_of, chunks_of, unused, with_chunk, Answered};
ghost use Rattle.mc_protocol.specs.Laws.{IsOnKey, AgreeAt, AgreeAfter, HaveSameRoom, found_by, chunk_of, LacksChunk, of_class};

/// States that a step on one key leaves the items under other keys as they are.
pub fn other_keys_stay()
    ensures { (old new : Plain) (step : KeyStep) (now : ℕ) (reply : Reply) (other : List ℕ) →
        IsOnKey step → plain old step now ≡ Answered reply new → other ≢ key_of step →
        get new.items other ≡ get old.items other }
{}

/// States that the result of a step on one key depends on that key and a few numbers alone.
///
/// These are the key's item, the cut, the next unique number, the greatest charge, and the needs
/// for which there is room. Two states that agree in them give the same answer, and agree at the
/// key and in the numbers afterwards.
pub fn one_key_decides()
    ensures { (a b : Plain) (step : KeyStep) (now : ℕ) →
        IsOnKey step → AgreeAt (key_of step) a b → HaveSameRoom step now a b →
        AgreeAfter (key_of step) (plain a step now) (plain b step now) }
{}

/// States when a step is refused for want of chunks.
///
/// It is refused exactly if its write takes chunks, isn't too large, has a unique number, and finds
/// no room. Nothing changes then, except that a dead item of the key is dropped.
pub fn refused_without_room()
    ensures exactly { (old : Plain) (step : KeyStep) (now : ℕ) →
        IsOnKey step → (plain old step now ≡ Answered Reply.NoChunk (found_by step now old))
        ↔ LacksChunk (found_by step now old) (chunk_of step now old) }
    ensures unchanged { (old new : Plain) (step : KeyStep) (now : ℕ) →
        plain old step now ≡ Answered Reply.NoChunk new → new ≡ found_by step now old }
{}

/// States that no step takes a page from a class, changes the limit or exceeds it.
pub fn pages_stay()
    ensures never_fall { (old new : Plain) (step : KeyStep) (now : ℕ) (reply : Reply) (class : ℕ) →
        plain old step now ≡ Answered reply new → pages_of old class ≤ pages_of new class }
    ensures limit { (old new : Plain) (step : KeyStep) (now : ℕ) (reply : Reply) →
        plain old step now ≡ Answered reply new → new.limit ≡ old.limit }
    ensures within { (old new : Plain) (step : KeyStep) (now : ℕ) (reply : Reply) →
        plain old step now ≡ Answered reply new →
        sum old.pages ≤ old.limit → sum new.pages ≤ new.limit }
{}

/// States that a write takes the fewest pages that give it the chunks it needs.
///
/// With its class's pages afterwards there are enough chunks without an item. With fewer pages, but
/// at least those that the class had, there aren't.
pub fn wanted_pages_are_least()
    ensures enough { (old : Plain) (need : NeedState) →
        IsNeed need → length old.pages ≡ class_count →
        count_of old.items need.class ≤ chunks_of old need.class →
        need.count ≤ unused (with_chunk old need) need.class }
    ensures least { (old : Plain) (need : NeedState) (pages : ℕ) →
        IsNeed need → pages_of old need.class ≤ pages →
        pages < pages_of (with_chunk old need) need.class →
        pages * chunks_a_page need.class - count_of old.items need.class < need.count }
{}

/// States how many chunks of a class the items have after a change of the items.
///
/// An inserted item replaces the key's old one, and a removed item no longer counts.
pub fn counts_follow()
    ensures empty { (class : ℕ) → count_of empty class ≡ 0 }
    ensures insert { (items : Items) (key : List ℕ) (item : Entry) (class : ℕ) →
        count_of (insert items key item) class + of_class key (get items key) class
        ≡ count_of items class + of_class key (Some item) class }
    ensures remove { (items : Items) (key : List ℕ) (class : ℕ) →
        count_of (remove items key) class + of_class key (get items key) class
        ≡ count_of items class }
    ensures retain { (items : Items) (keep : List ℕ → Bool) (class : ℕ) →
        count_of (retain_keys items keep) class ≤ count_of items class }
    ensures parted { (items : Items) (meant : List ℕ → Bool) (class : ℕ) →
        count_of items class
        ≡ count_of (retain_keys items meant) class
        + count_of (retain_keys items (λ key. not (meant key))) class }
{}

/// States that a dead item stays dead while no write and no flush comes.
pub fn the_dead_stay_dead()
    ensures { (expiry : Expiry) (updated : ℕ) (cut : Option ℕ) (now later : ℕ) →
        now ≤ later → is_dead expiry updated cut now ≡ true →
        is_dead expiry updated cut later ≡ true }
{}

/// States that a flush without a delay leaves no item.
///
/// One with a delay leaves the items that are alive. At its moment and later, none of them is alive
/// that was updated before that moment.
pub fn flushes_empty()
    ensures once { (old new : Plain) (now : ℕ) (reply : Reply) (key : List ℕ) →
        plain old (KeyStep.Flush 0) now ≡ Answered reply new → get new.items key ≡ None }
    ensures kept { (old new : Plain) (delay now : ℕ) (reply : Reply) (key : List ℕ) →
        0 < delay → plain old (KeyStep.Flush delay) now ≡ Answered reply new →
        get new.items key ≡ alive old.cut now (get old.items key) }
    ensures later { (old new : Plain) (delay now later : ℕ) (reply : Reply) (item : Entry) →
        0 < delay → plain old (KeyStep.Flush delay) now ≡ Answered reply new →
        moment_named delay now ≤ later → item.updated < moment_named delay now →
        alive new.cut later (Some item) ≡ None }
{}

/// States which number a block in two parts is, if the first part has more than 20 bytes.
///
/// It is the first part's number if the second part is only spaces, and else no number.
pub fn a_front_tells_the_number()
    ensures { (front rest : List ℕ) → 20 < length front →
        number_of (front ++ rest)
        ≡ (if list_all is_space rest then number_of front else None) }
{}
